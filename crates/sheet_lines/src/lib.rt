// The lines of a shift sheet (document 02, order 1).
#![tactic(auto)]

ghost use Rattle.std.specs.Prelude.{◌≤◌, ℕ, List, length};
ghost use Rattle.std.specs.Fn.{FnOnceReturnsAtMut};
ghost use Rattle.output.specs.declared.Output.{Output};
ghost use Rattle.output.specs.Writes.{Writes};
ghost use Rattle.sheet_lines.specs.Line.{text_bytes, padded, heading_line, row_line, foot_text, foot_line};
ghost use Rattle.sheet_lines.specs.Laws.Turns.{spaces};

use output::Output;

// ---- a text to the right

#[tactic(auto, using(output::specs::Laws::Writes::writing, std::proofs::lemmas::Grind::replicate_next))]
fn put_spaces(out: &mut Output<'_>, n: usize)
    ensures { Writes out.old out.new (spaces n) }
{
    for _ in 0..n {
        out.put_byte(b' ');
    }
}

#[tactic(auto, using(crate::proofs::Rules::right), unfolding(crate::specs::Line::padded))]
fn put_padded(out: &mut Output<'_>, places: usize, t: &[u8])
    ensures { Writes out.old out.new (padded places t.now) }
{
    put_spaces(out, places.saturating_sub(t.len()));
    out.put_bytes(&t[t.len().saturating_sub(places)..]);
}

// No text of a line is longer: a foot has two words of nine letters, and two numbers of at most 20 figures.
const TEXT_BYTES: usize = 64;

// What a closure puts out, to the right in so many places.
fn put_right<F: FnOnce(&mut Output<'_>)>(out: &mut Output<'_>, places: usize, put: F)
    requires { F.IsAlwaysCallable put }
    ensures { (x : List ℕ) → length x ≤ text_bytes
        → ((a b : Output) → FnOnceReturnsAtMut F.FnOnce put a tt b → Writes a b x)
        → Writes out.old out.new (padded places x) }
{
    let mut bytes = [0u8; TEXT_BYTES];
    let mut text = Output::new(&mut bytes);
    put(&mut text);
    put_padded(out, places, text.written());
}

// ---- the three kinds of line

const NUMBER_WIDTH: usize = 4;

const HOURS_WIDTH: usize = 13;

const COLUMN_WIDTH: usize = 12;

// A row's number, its hours, and its other columns. A column that the row has not reads as 0.
pub fn put_row(out: &mut Output<'_>, r: usize, row: &[i32])
    ensures { Writes out.old out.new (row_line r row.now) }
{
    let hours = row.first().copied().unwrap_or(0);
    put_right(out, NUMBER_WIDTH, |text| text::put_decimal(text, r as u64));
    put_right(out, HOURS_WIDTH, |text| text::put_hundredths(text, hours));
    for column in 1..limits::COLUMNS {
        let figure = row.get(column).copied().unwrap_or(0);
        put_right(out, COLUMN_WIDTH, |text| text::put_signed(text, figure));
    }
    out.put_byte(b'\n');
}

pub fn put_heading(out: &mut Output<'_>)
    ensures { Writes out.old out.new heading_line }
{
    out.put_str(
        " ROW        HOURS     CUBIC M     DENSITY        FUEL     SUCTION   DISCHARGE       DEPTH        SOIL\n",
    );
}

fn put_foot_text(out: &mut Output<'_>, page: usize, pages: usize)
    ensures { Writes out.old out.new (foot_text page pages) }
{
    out.put_str("PAGE ");
    text::put_decimal(out, page as u64);
    out.put_str(" OF ");
    text::put_decimal(out, pages as u64);
}

const LINE_WIDTH: usize = 101;

pub fn put_foot(out: &mut Output<'_>, page: usize, pages: usize)
    ensures { Writes out.old out.new (foot_line page pages) }
{
    put_right(out, LINE_WIDTH, |text| put_foot_text(text, page, pages));
    out.put_byte(b'\n');
}

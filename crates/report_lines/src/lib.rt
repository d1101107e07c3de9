// The lines that the program prints.
#![tactic(auto)]

ghost use Rattle.std.specs.Prelude.{◌≡◌, ◌<◌, length};
ghost use Rattle.limits.specs.Limits.{columns};
ghost use Rattle.laws.specs.Lists.{joined};
ghost use Rattle.run_log.specs.Log.{row_count};
ghost use Rattle.output.specs.Writes.{Writes};
ghost use Rattle.report_lines.specs.Lines.{refused_text, head_text, fields_text, line_text, marked_text};

use output::Output;

pub fn put_refused(out: &mut Output<'_>, k: u64)
    ensures { Writes out.old out.new (refused_text k) }
{
    out.put_str("refused ");
    text::put_decimal(out, k);
    out.put_byte(b'\n');
}

// The line of rows and shortlisted rows.
pub fn put_head(out: &mut Output<'_>, rows: u64, best: u64)
    ensures { Writes out.old out.new (head_text rows best) }
{
    out.put_str("runs ");
    text::put_decimal(out, rows);
    out.put_str(" best ");
    text::put_decimal(out, best);
    out.put_byte(b'\n');
}

// A row's number, its hours and its cubic metres.
#[tactic(auto, using(output::specs::Laws::Writes::writing), unfolding(crate::specs::Lines::fields_text))]
fn put_fields(out: &mut Output<'_>, r: u64, row: &[i32])
    requires { length row.now ≡ columns }
    ensures { Writes out.old out.new (fields_text r row.now) }
{
    text::put_decimal(out, r);
    out.put_byte(b' ');
    text::put_signed(out, row[0]);
    out.put_byte(b' ');
    text::put_signed(out, row[1]);
    out.put_byte(b'\n');
}

// The line of row r of the log.
#[tactic(auto, using(run_log::specs::Laws::Log::row_long), unfolding(crate::specs::Lines::line_text))]
fn put_line(out: &mut Output<'_>, log: &[i32], r: usize)
    requires { r < row_count log.now }
    ensures { Writes out.old out.new (line_text log.now r) }
{
    put_fields(out, r as u64, run_log::row(log, r));
}

// The lines of the marked rows.
#[tactic(auto, using(output::specs::Laws::Writes::writing), unfolding(crate::specs::Lines::marked_text))]
pub fn put_lines(out: &mut Output<'_>, log: &[i32], marks: &[u8])
    ensures { Writes out.old out.new (joined (marked_text marks.now log.now) (row_count log.now)) }
{
    for r in 0..run_log::row_count(log) {
        if marks.get(r) == Some(&1) {
            put_line(out, log, r);
        }
    }
}

// The shift sheet: the marked runs of a log, on pages (document 02, order 1).
#![tactic(auto)]

ghost use Rattle.std.specs.Prelude.{◌≡◌, ◌*◌, ◌≤◌, length};
ghost use Rattle.limits.specs.Limits.{max_runs};
ghost use Rattle.run_log.specs.Log.{row_count, marked_rows};
ghost use Rattle.refusal.specs.Refusal.{refusal_of, outcome_of};
ghost use Rattle.output.specs.Writes.{Writes};
ghost use Rattle.sheet_pages.specs.Pages.{page_runs, page_count, page_of, pages_of, sheet_of};
ghost use Rattle.sheet_pages.specs.Call.{handed_refusal, room_refusal, sheet_refusal, SheetLeft};

use arrayvec::ArrayVec;
use output::Output;
use refusal::Refusal;

// How many runs a full page has.
const PAGE_RUNS: usize = 50;

// How many bytes a line has, its line feed included.
const LINE_BYTES: usize = 102;

// ---- pages

// How many pages s runs take: an empty shortlist has one too.
#[tactic(auto, using(crate::proofs::Rules::pages))]
fn page_count(s: usize) -> usize
    ensures { result ≡ page_count s }
{
    s.div_ceil(PAGE_RUNS).max(1)
}

// Page p, pages counted from 0. Cut by its place: `chunks(..).nth(p)` would take p steps.
#[tactic(auto, using(crate::proofs::Rules::pages))]
fn put_page(out: &mut Output<'_>, log: &[i32], rows: &[usize], p: usize)
    requires { page_runs * p ≤ length rows.now }
    ensures { Writes out.old out.new (page_of log.now rows.now p) }
{
    let from = PAGE_RUNS * p;
    let to = rows.len().min(from + PAGE_RUNS);
    let page = &rows[from..to];
    sheet_lines::put_heading(out);
    for r in page {
        sheet_lines::put_row(out, *r, run_log::row(log, *r));
    }
    let pages = page_count(rows.len());
    sheet_lines::put_foot(out, p + 1, pages);
}

#[tactic(auto, using(crate::proofs::Rules::pages), unfolding(crate::specs::Pages::pages_of))]
fn put_pages(out: &mut Output<'_>, log: &[i32], rows: &[usize])
    ensures { Writes out.old out.new (pages_of log.now rows.now) }
{
    for p in 0..page_count(rows.len()) {
        put_page(out, log, rows, p);
    }
}

// ---- the call

// The marked rows, in order.
#[tactic(auto, using(crate::proofs::Rules::listed))]
fn marked_rows(log: &[i32], marks: &[u8]) -> ArrayVec<usize, { limits::MAX_RUNS }>
    requires { row_count log.now ≤ max_runs }
    ensures { result.items ≡ marked_rows marks.now (row_count log.now) }
{
    let mut rows = ArrayVec::new();
    for r in 0..run_log::row_count(log) {
        if marks.get(r) == Some(&1) {
            rows.push(r);
        }
    }
    rows
}

// 10 or 14 for what is handed in.
fn check_handed(log: &[i32], marks: &[u8]) -> Result<(), Refusal>
    ensures { refusal_of result ≡ handed_refusal log.now marks.now }
{
    run_log::check(log)?;
    run_log::check_marks(log, marks.len())?;
    run_log::check_mark_values(log, marks)
}

// The pages of some rows, and their length. It is tested before anything is stored.
#[tactic(auto, using(crate::specs::Laws::Pages::count_few))]
fn print_rows(log: &[i32], rows: &[usize], out: &mut [u8]) -> Result<usize, Refusal>
    requires { length rows.now ≤ max_runs }
    ensures { SheetLeft (room_refusal (pages_of log.now rows.now) (length out.old))
        (pages_of log.now rows.now) out.old (outcome_of result) out.new }
{
    let length = LINE_BYTES * (rows.len() + 2 * page_count(rows.len()));
    if out.len() < length {
        return Err(Refusal::NoSheetRoom);
    }
    put_pages(&mut Output::new(out), log, rows);
    Ok(length)
}

// Prints the marked runs of a log, and gives the length of the sheet.
pub fn print(log: &[i32], marks: &[u8], out: &mut [u8]) -> Result<usize, Refusal>
    ensures { SheetLeft (sheet_refusal log.now marks.now (length out.old))
        (sheet_of log.now marks.now) out.old (outcome_of result) out.new }
{
    check_handed(log, marks)?;
    print_rows(log, marked_rows(log, marks).as_slice(), out)
}

// The shift sheet of a stream, and the whole output of the program `sheet`, as bytes.
#![tactic(auto)]

ghost use Rattle.std.specs.Prelude.{◌≤◌, length};
ghost use Rattle.limits.specs.Limits.{max_runs, max_sheet_bytes};
ghost use Rattle.laws.specs.Checks.{◌then◌};
ghost use Rattle.refusal.specs.Refusal.{number, outcome_of};
ghost use Rattle.report_lines.specs.Lines.{refused_text};
ghost use Rattle.run_log.specs.Log.{log_of};
ghost use Rattle.pareto.specs.Best.{best_matches};
ghost use Rattle.selection.specs.Selection.{either_refusal};
ghost use Rattle.output.specs.Puts.{Puts};
ghost use Rattle.output.specs.Prints.{Prints};
ghost use Rattle.sheet_pages.specs.Pages.{pages_of};
ghost use Rattle.sheet_pages.specs.Call.{room_refusal, SheetLeft};
ghost use Rattle.sheet_report.specs.Sheet.{stream_sheet, stream_refusal, text_of};

use output::Output;
use preference::PreferenceList;
use refusal::Refusal;

// The sheet of a list and a log: the shortlist is marked, then printed.
fn print_selected(list: PreferenceList, log: &[i32], out: &mut [u8]) -> Result<usize, Refusal>
    ensures { SheetLeft
        (either_refusal list (log_of log.now) max_runs
        then room_refusal (pages_of log.now (best_matches list (log_of log.now)))
        (length out.old))
        (pages_of log.now (best_matches list (log_of log.now)))
        out.old (outcome_of result) out.new }
{
    let mut marks = [0; limits::MAX_RUNS];
    selection::by_either(list, log, &mut marks)?;
    sheet_pages::print(log, &marks, out)
}

// The sheet of a stream.
pub fn print(stream: &[u8], out: &mut [u8]) -> Result<usize, Refusal>
    ensures { SheetLeft (stream_refusal stream.now (length out.old))
        (stream_sheet stream.now) out.old (outcome_of result) out.new }
{
    let mut numbers = [0; limits::MAX_VALUES];
    let held = selection::read(stream, &mut numbers)?;
    print_selected(held.list, held.log(&numbers), out)
}

// The line of a refusal, from the first byte on.
fn print_refused(refusal: Refusal, out: &mut [u8]) -> usize
    ensures { Prints out.old out.new 0 result (refused_text (number refusal)) }
{
    let mut text = Output::new(out);
    report_lines::put_refused(&mut text, u64::from(refusal));
    text.at
}

// What is printed of a stream: its sheet, or the line of a refusal.
pub fn report(stream: &[u8], out: &mut [u8]) -> usize
    ensures puts { Puts out.old out.new 0 result
        (text_of (stream_refusal stream.now (length out.old))
        (stream_sheet stream.now)) }
    ensures upper_bound { result ≤ max_sheet_bytes }
{
    match print(stream, out) {
        Ok(length) => length,
        Err(refusal) => print_refused(refusal, out),
    }
}

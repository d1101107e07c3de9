// The whole output of the program, as bytes.
#![tactic(auto)]

ghost use Rattle.std.specs.Prelude.{◌<◌};
ghost use Rattle.limits.specs.Limits.{max_runs, u32_end};
ghost use Rattle.refusal.specs.Refusal.{number};
ghost use Rattle.run_log.specs.Log.{log_of};
ghost use Rattle.output.specs.Writes.{Writes};
ghost use Rattle.report_lines.specs.Lines.{refused_text};
ghost use Rattle.selection.specs.Selection.{either_refusal, either_call};
ghost use Rattle.selection.specs.Stream.{program_call};
ghost use Rattle.report.specs.Report.{Reported, text_of, report_of};

use output::Output;
use preference::PreferenceList;
use refusal::Refusal;

// The line of a refusal.
fn put_refusal(out: &mut Output<'_>, refusal: Refusal)
    ensures { Writes out.old out.new (refused_text (number refusal)) }
{
    report_lines::put_refused(out, u64::from(refusal));
}

// The report on a list and a log.
fn put_selected(out: &mut Output<'_>, list: PreferenceList, log: &[i32])
    ensures writes { Writes out.old out.new (text_of (either_call list (log_of log.now) max_runs)) }
    ensures max_runs_bound { either_refusal list (log_of log.now) max_runs < u32_end }
{
    let mut marks = [0; limits::MAX_RUNS];
    match selection::by_either(list, log, &mut marks) {
        Ok(best) => {
            let rows = run_log::row_count(log);
            report_lines::put_head(out, rows as u64, u64::from(best));
            report_lines::put_lines(out, log, &marks);
        }
        Err(refusal) => put_refusal(out, refusal),
    }
}

// The report on a stream.
fn put_report(out: &mut Output<'_>, stream: &[u8])
    ensures writes { Writes out.old out.new (report_of stream.now) }
    ensures number_bound { (program_call stream.now).refusal < u32_end }
{
    let mut numbers = [0; limits::MAX_VALUES];
    match selection::read(stream, &mut numbers) {
        Ok(held) => put_selected(out, held.list, held.log(&numbers)),
        Err(unread) => put_refusal(out, unread),
    }
}

// The report on a stream, from the first byte on.
pub fn report(stream: &[u8], out: &mut [u8]) -> usize
    ensures { Reported out.old out.new result (report_of stream.now) }
{
    let mut text = Output::new(out);
    put_report(&mut text, stream);
    text.at
}

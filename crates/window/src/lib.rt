// The window engine, block nested loops with timestamps: the checks of its call, and the window machine on the level
// table of what they accept.
#![tactic(auto)]

ghost use Rattle.std.specs.Prelude.{◌≡◌, ◌+◌, ◌*◌, ◌/◌, ◌<◌, ◌≤◌, length};
ghost use Rattle.limits.specs.Limits.{max_values};
ghost use Rattle.refusal.specs.Refusal.{refusal_of, outcome_of};
ghost use Rattle.run_log.specs.Log.{log_of};
ghost use Rattle.level_table.specs.Table.{table_length};
ghost use Rattle.pareto.specs.Best.{marks_after};
ghost use Rattle.pareto.specs.Call.{Leaves};
ghost use Rattle.window.specs.Engine.{sizes_refusal, machine_of, window_call, WorkLeft, Runnable};

use preference::PreferenceList;
use refusal::Refusal;

// 10 where the marks or the work list are too short, or w is not 1 to 1,024.
fn check_sizes(log: &[i32], marks: usize, work: usize, w: u32) -> Result<(), Refusal>
    ensures { refusal_of result ≡ sizes_refusal (log_of log.now) marks work w }
{
    run_log::check_marks(log, marks)?;
    if (w == 0) | (limits::MAX_WINDOW < w) {
        return Err(Refusal::NoRoom);
    }
    if work < 2 * (run_log::row_count(log) + w as usize) {
        return Err(Refusal::NoRoom);
    }
    Ok(())
}

// The engine on what the checks accepted, with room for a table of N numbers. The table is not lent to a closure: what
// that leaves in marks which it captures is not told to its caller, and to hand it marks and work list beside the table
// would take a lender of its own.
fn run_room<const N: usize>(
    list: PreferenceList,
    log: &[i32],
    size: usize,
    marks: &mut [u8],
    work: &mut [u32],
    w: u32,
) -> u32
    requires runnable { Runnable list (log_of log.now) (length marks.old) (length work.old) w }
    requires table_length { (size ≡ table_length list log.now) × (size ≤ N) × (N ≤ 2 * max_values) }
    ensures { (result ≡ (machine_of list (log_of log.now) w).count)
        × (marks.new ≡ marks_after list (log_of log.now) marks.old) }
{
    let mut table = [0u16; N];
    level_table::fill_table(list, log, &mut table[..size]);
    let rows = pareto::competing_list(log);
    let n = run_log::row_count(log);
    window_passes::run_rows(&table[..size], &rows, w as usize, &mut marks[..n], work) as u32
}

// The same of every log that they accept. Room for a second plane is made only where there is one.
fn run_accepted(
    list: PreferenceList,
    log: &[i32],
    marks: &mut [u8],
    work: &mut [u32],
    w: u32,
) -> u32
    requires { Runnable list (log_of log.now) (length marks.old) (length work.old) w }
    ensures { (result ≡ (machine_of list (log_of log.now) w).count)
        × (marks.new ≡ marks_after list (log_of log.now) marks.old) }
{
    let size = level_table::table_length(list, log);
    if size <= limits::MAX_VALUES {
        return run_room::<{ limits::MAX_VALUES }>(list, log, size, marks, work, w);
    }
    run_room::<{ limits::MAX_TABLE }>(list, log, size, marks, work, w)
}

// Marks the best matches of a log, with a window of w entries. The compares made come back. What is lent stands one by
// one, as document 01 has the call.
pub fn run(
    list: PreferenceList,
    log: &[i32],
    marks: &mut [u8],
    work: &mut [u32],
    w: u32,
) -> Result<u32, Refusal>
    ensures leaves { Leaves
        (window_call list (log_of log.now) (length marks.old) (length work.old) w)
        marks.old (outcome_of result) marks.new }
    ensures work_left { WorkLeft
        (window_call list (log_of log.now) (length marks.old) (length work.old) w)
        work.old work.new }
{
    pareto::check(list, log)?;
    check_sizes(log, marks.len(), work.len(), w)?;
    pareto::check_rows(list, log)?;
    Ok(run_accepted(list, log, marks, work, w))
}

// Best matches by an engine that brings its own work space.
#![tactic(auto)]

ghost use Rattle.std.specs.Prelude.{◌≡◌, ◌==◌, ◌*◌, ◌≤◌, length, take, count_by, IfOk};
ghost use Rattle.limits.specs.Limits.{columns, max_values, max_runs, max_nodes, max_work};
ghost use Rattle.refusal.specs.Refusal.{refusal_of, outcome_of};
ghost use Rattle.run_log.specs.Log.{log_of, row_count, marked_rows};
ghost use Rattle.stream_format.specs.Read.{read_of, log_after};
ghost use Rattle.pareto.specs.Call.{counting, Leaves};
ghost use Rattle.lattice.specs.Engine.{lattice_call};
ghost use Rattle.window.specs.Engine.{window_call};
ghost use Rattle.selection.specs.Stream.{list_in, log_in};
ghost use Rattle.selection.specs.Selection.{either_call};

use preference::PreferenceList;
use refusal::Refusal;

// ---- what a stream holds

// The list of a stream, and how many rows its log has: they stand at the front of the numbers that it was read into.
#[derive(Clone, Copy)]
pub struct Held {
    pub list: PreferenceList,
    pub rows: usize,
    pub ghost fits: { columns * rows ≤ max_values },
}

impl Held {
    // The log, of the numbers that the stream was read into.
    pub fn log<'a>(&self, numbers: &'a [i32; limits::MAX_VALUES]) -> &'a [i32]
        ensures { result.now ≡ take (columns * self.now.rows) numbers.now }
    {
        &numbers[..limits::COLUMNS * self.rows]
    }
}

// Reads a stream into lent numbers: there is room for every log.
pub fn read(stream: &[u8], numbers: &mut [i32; limits::MAX_VALUES]) -> Result<Held, Refusal>
    ensures refused { refusal_of result ≡ (read_of stream.now max_values).refusal }
    ensures held { IfOk result
        (λ held. (held.list ≡ list_in stream.now)
        × (take (columns * held.rows) numbers.new ≡ (log_in stream.now).values)) }
    ensures left { numbers.new ≡ log_after stream.now numbers.old }
{
    let read = stream_reader::read(stream, numbers)?;
    Ok(Held {
        list: read.list,
        rows: read.rows,
    })
}

// ---- by one engine or the other

// How many of the first n bytes mark a row.
fn count_ones(marks: &[u8], n: usize) -> usize
    ensures { result ≡ count_by (λ mark. mark == 1) (take n marks.now) }
{
    marks.iter().take(n).filter(|mark| **mark == 1).count()
}

// How many rows of a log are marked.
fn count_marked(marks: &[u8], log: &[i32]) -> u16
    requires { row_count log.now ≤ max_runs }
    ensures { result ≡ length (marked_rows marks.now (row_count log.now)) }
{
    count_ones(marks, run_log::row_count(log)) as u16
}

// By the lattice engine, within a budget of crossings. The two calls stand apart, of three lines each: their
// work spaces are of two types, and one that is handed the engine would be no shorter.
pub fn by_lattice(
    list: PreferenceList,
    log: &[i32],
    marks: &mut [u8],
    budget: u32,
) -> Result<u16, Refusal>
    ensures { Leaves (counting (lattice_call list (log_of log.now) (length marks.old) max_nodes budget))
        marks.old (outcome_of result) marks.new }
{
    let mut nodes = [0; limits::MAX_NODES];
    lattice::run(list, log, marks, &mut nodes, budget)?;
    Ok(count_marked(marks, log))
}

// By the window engine, with a window of w entries.
pub fn by_window(
    list: PreferenceList,
    log: &[i32],
    marks: &mut [u8],
    w: u32,
) -> Result<u16, Refusal>
    ensures { Leaves (counting (window_call list (log_of log.now) (length marks.old) max_work w))
        marks.old (outcome_of result) marks.new }
{
    let mut work = [0; limits::MAX_WORK];
    window::run(list, log, marks, &mut work, w)?;
    Ok(count_marked(marks, log))
}

// By the lattice engine, or by the window engine where the lattice is too large.
#[tactic(auto, using(crate::proofs::Engines::either))]
pub fn by_either(list: PreferenceList, log: &[i32], marks: &mut [u8]) -> Result<u16, Refusal>
    ensures { Leaves (either_call list (log_of log.now) (length marks.old))
        marks.old (outcome_of result) marks.new }
{
    match by_lattice(list, log, marks, limits::ENOUGH_BUDGET) {
        Err(Refusal::TooManyNodes) => by_window(list, log, marks, limits::PROGRAM_WINDOW),
        answer => answer,
    }
}

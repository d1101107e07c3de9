// Dominance, best matches and marks (specs/), and what engines ask of a list and a log: their checks, the rows that
// compete, and how two rows of a level table stand (table.rt).
#![tactic(auto)]

mod table;

ghost use Rattle.std.specs.Prelude.{◌≡◌, length, take};
ghost use Rattle.std.proofs.lemmas.List.Edits.{sets};
ghost use Rattle.limits.specs.Limits.{max_runs};
ghost use Rattle.laws.specs.Checks.{◌then◌};
ghost use Rattle.refusal.specs.Refusal.{refusal_of};
ghost use Rattle.run_log.specs.Log.{log_of, log_refusal};
ghost use Rattle.preference.specs.Valid.{list_refusal};
ghost use Rattle.pareto.specs.Best.{competes, competing};
ghost use Rattle.pareto.specs.Checked.{rows_refusal};

use arrayvec::ArrayVec;
use preference::PreferenceList;
use refusal::Refusal;
pub use table::{Lower, Relation, compare, is_double, plane_levels};

// The checks that engines begin with: the list, then the log.
pub fn check(list: PreferenceList, log: &[i32]) -> Result<(), Refusal>
    ensures { refusal_of result ≡ list_refusal list then log_refusal log.now }
{
    preference::check(list)?;
    run_log::check(log)
}

// 8 where a value of a row lies outside the bounds of its wish: what engines end their checks of a log with.
#[tactic(auto, unfolding(crate::specs::Checked::rows_refusal))]
pub fn check_rows(list: PreferenceList, log: &[i32]) -> Result<(), Refusal>
    ensures { refusal_of result ≡ rows_refusal list log.now }
{
    refusal::check_each(
        run_log::row_count(log),
        |r| levels::check_row(&list, run_log::row(log, r)),
    )
}

// ---- the competing rows

// Whether a row competes.
#[tactic(auto, unfolding(crate::specs::Best::competes))]
pub fn row_competes(log: &[i32], r: usize) -> bool
    ensures { result ≡ competes (log_of log.now) r }
{
    true
}

// Writes the numbers of the competing rows, in order, to the front of a list, and gives how many there are.
// It stays as it was for a list that a caller lends, and for logs of any length; the engines take
// `competing_list`, so it has no caller in the product.
pub fn competing_rows(log: &[i32], rows: &mut [usize]) -> usize
    ensures { (result ≡ length (competing (log_of log.now)))
        × (rows.new ≡ sets rows.old 0 (competing (log_of log.now))) }
{
    let mut found = 0;
    for r in 0..run_log::row_count(log) {
        if row_competes(log, r) {
            word::put(rows, found, r);
            found += 1;
        }
    }
    found
}

// The numbers of competing rows, at most as many as the longest log has.
pub type Rows = ArrayVec<usize, { limits::MAX_RUNS }>;

// The numbers of the competing rows, in order; of a log that is too long, the first that find room.
#[tactic(auto, using(crate::specs::Laws::Competing::passing_none), unfolding(crate::specs::Best::competing))]
pub fn competing_list(log: &[i32]) -> Rows
    ensures { result.items ≡ take max_runs (competing (log_of log.now)) }
{
    let mut rows = ArrayVec::new();
    for row in 0..run_log::row_count(log) {
        if row_competes(log, row) && !rows.is_full() {
            rows.push(row);
        }
    }
    rows
}

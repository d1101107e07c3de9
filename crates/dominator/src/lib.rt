// Which run beat a row: the first row of the shortlist that betters it.
#![tactic(auto)]

ghost use Rattle.std.specs.Prelude.{◌≡◌, ℕ};
ghost use Rattle.std.specs.List.{find};
ghost use Rattle.std.specs.Option.{unwrap_or};
ghost use Rattle.laws.specs.Lists.{any_of};
ghost use Rattle.run_log.specs.Log.{log_of};
ghost use Rattle.level_table.specs.Table.{table_of};
ghost use Rattle.dominator.specs.First.{beats, best_beats, dominator_or, RowAsked};
ghost use Rattle.dominator.specs.Engine.{Answered};

use pareto::Relation;
use preference::PreferenceList;
use refusal::Refusal;

// Whether row s of a table dominates another.
#[tactic(auto, using(pareto::specs::Laws::Relation::same_first))]
fn beats(table: &[u16], s: usize, row: usize) -> bool
    ensures { result ≡ beats table.now s row }
{
    pareto::compare(table, s, row) == Relation::FirstDominates
}

// Whether a row of a list dominates row s of a table.
fn is_dominated(table: &[u16], rows: &[usize], s: usize) -> bool
    ensures { result ≡ any_of (λ q. beats table.now q s) rows.now }
{
    rows.iter().any(|q| beats(table, *q, s))
}

// Whether row s of a table dominates another, and no row of a list dominates it.
#[tactic(auto, unfolding(crate::specs::First::best_beats))]
fn is_best_dominator(table: &[u16], rows: &[usize], row: usize, s: usize) -> bool
    ensures { result ≡ best_beats table.now rows.now row s }
{
    beats(table, s, row) && !is_dominated(table, rows, s)
}

// The first row of a list that dominates another and that none of the list dominates.
fn first_dominator(table: &[u16], rows: &[usize], row: usize) -> Option<usize>
    ensures { result ≡ find (best_beats table.now rows.now row) rows.now }
{
    rows.iter()
        .copied()
        .find(|s| is_best_dominator(table, rows, row, *s))
}

// The search among the competing rows of what the checks accepted, in its level table.
fn first_in_table(list: PreferenceList, table: &[u16], log: &[i32], row: usize) -> Option<usize>
    requires row_asked { RowAsked list (log_of log.now) row }
    requires table_value { table.now ≡ table_of list log.now }
    ensures { (none : ℕ) → unwrap_or result none ≡ dominator_or list (log_of log.now) row none }
{
    first_dominator(table, &pareto::competing_list(log), row)
}

// Answers with a row of the shortlist that betters the asked one.
pub fn of(list: PreferenceList, log: &[i32], row: u32) -> Result<u32, Refusal>
    ensures { Answered list (log_of log.now) row result }
{
    pareto::check(list, log)?;
    pareto::check_rows(list, log)?;
    let asked = row as usize;
    if run_log::row_count(log) <= asked {
        return Err(Refusal::NoSuchRow);
    }
    let first = level_table::lend_table(
        list,
        log,
        |table| first_in_table(list, table, log, asked),
    )?;
    first.map(|best| best as u32).ok_or(Refusal::Shortlisted)
}

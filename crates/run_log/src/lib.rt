// The log of runs: how many rows it has, each row as a part of it, and the checks of a log and its marks.
// No other crate cuts a row out of a log.
#![tactic(auto)]

ghost use Rattle.std.specs.Prelude.{◌≡◌, ltb, get_or};
ghost use Rattle.laws.specs.First.{any_below};
ghost use Rattle.refusal.specs.Refusal.{refusal_of};
ghost use Rattle.run_log.specs.Log.{row_count, row_at, log_refusal, marks_refusal, mark_values_refusal};

use refusal::Refusal;

// ---- rows

pub fn row_count(log: &[i32]) -> usize
    ensures { result ≡ row_count log.now }
{
    log.len() / limits::COLUMNS
}

// Row r as a part of the log: what the log has of it, and nothing past the log's end. A whole row by a branch of its
// own: with `min` at both ends a loop over rows takes half as many instructions more, and `chunks(..).nth(r)` r steps.
pub fn row(log: &[i32], r: usize) -> &[i32]
    ensures { result.now ≡ row_at log.now r }
{
    if r < row_count(log) {
        let start = limits::COLUMNS * r;
        let end = start + limits::COLUMNS;
        return &log[start..end];
    }
    &log[limits::COLUMNS.saturating_mul(r).min(log.len())..]
}

// ---- checks

// 10 for a log that is not eights or is too long.
#[tactic(auto, using(refusal::specs::Laws::Refusal::checks), unfolding(crate::specs::Log::log_refusal))]
pub fn check(log: &[i32]) -> Result<(), Refusal>
    ensures { refusal_of result ≡ log_refusal log.now }
{
    let n = log.len();
    if (n % limits::COLUMNS != 0) | (limits::MAX_VALUES < n) {
        return Err(Refusal::NoRoom);
    }
    Ok(())
}

// 10 for marks shorter than the rows.
#[tactic(auto, using(refusal::specs::Laws::Refusal::checks))]
pub fn check_marks(log: &[i32], marks: usize) -> Result<(), Refusal>
    ensures { refusal_of result ≡ marks_refusal log.now marks }
{
    if marks < row_count(log) {
        return Err(Refusal::NoRoom);
    }
    Ok(())
}

// Whether the byte of a row is no mark. Bytes past the rows are not looked at, and a missing byte reads as 0.
fn some_no_mark(log: &[i32], marks: &[u8]) -> bool
    ensures { result ≡ any_below (λ r. ltb 1 (get_or marks.now r 0)) (row_count log.now) }
{
    (0..row_count(log)).any(|r| marks.get(r).is_some_and(|mark| 1 < *mark))
}

// 14 where the byte of a row is no mark. For calls that are handed marks, as the shift sheet is.
#[tactic(auto, using(refusal::specs::Laws::Refusal::checks), unfolding(crate::specs::Log::mark_values_refusal))]
pub fn check_mark_values(log: &[i32], marks: &[u8]) -> Result<(), Refusal>
    ensures { refusal_of result ≡ mark_values_refusal log.now marks.now }
{
    if some_no_mark(log, marks) {
        return Err(Refusal::NoMark);
    }
    Ok(())
}

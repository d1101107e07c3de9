// Lists of kind 08, over 0 to M by 1 and wished at 0 where nothing else is said: a value v above it has the levels v
// and v - 1.
use constructor::Constructor;
use preference::PreferenceList;
use test_support::trial;

fn above(m: i32) -> Constructor {
    trial::between_trivial(0, m, 1, 0, 0)
}

pub fn pair(m: i32) -> PreferenceList {
    trial::list(&[(1, above(m))])
}

// Seven wishes with M 1, on columns 1 to 7.
fn seven_pairs() -> PreferenceList {
    trial::on_each(1..8, above(1))
}

// With HIGHEST on the hours, of which 1 is best: fifteen parts with M 1.
pub fn fifteen() -> PreferenceList {
    trial::with(seven_pairs(), 0, trial::highest(0, 1, 1))
}

// With kind 08 on the hours, from lo to 1 by 1: sixteen parts.
pub fn sixteen(lo: i32) -> PreferenceList {
    trial::with(seven_pairs(), 0, trial::between_trivial(lo, 1, 1, 1, 1))
}

// Kind 08 over 0 to 10 wished at 5, M 5 on both sides.
pub fn both_sides() -> PreferenceList {
    trial::list(&[(1, trial::between_trivial(0, 10, 1, 5, 5))])
}

// Kind 08 over 0 to 6 wished at 3, then LOWEST: M 3 3 2.
pub fn pair_and_one() -> PreferenceList {
    trial::list(&[
        (1, trial::between_trivial(0, 6, 1, 3, 3)),
        (2, trial::lowest(0, 2, 1)),
    ])
}

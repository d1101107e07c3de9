// After reading, places past the counts are zero: a zero wish is LOWEST, every figure 0. The figures are written out
// here: the reader takes its own from the defaults of the types.
use constructor::Constructor;
use preference::{Named, Preference, PreferenceList};

fn is_zero(p: &Preference) -> bool {
    let Constructor::Lowest { lo, hi, step } = p.constructor else {
        return false;
    };
    p.column == 0 && lo == 0 && hi == 0 && step == 0
}

fn names_nothing(n: &Named) -> bool {
    n.preference == 0 && n.value == 0 && n.layer == 0
}

pub fn zero_past(list: &PreferenceList) -> bool {
    let count = list.count as usize;
    let namedcount = list.namedcount as usize;
    list.preferences.iter().skip(count).all(is_zero)
        && list.named.iter().skip(namedcount).all(names_nothing)
}

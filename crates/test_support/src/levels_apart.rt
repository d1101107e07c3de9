// Level vectors and greatest levels as documents 01 and 02 word them, written apart from the product: steps are taken
// until they cover the distance, the greatest level is looked for at every value from lo to hi, and parts are written
// down wish by wish. Generated lists need few steps; where 64 are not enough, 64 is what comes back.
ghost use Rattle.std.specs.Prelude.{◌+◌, ◌≤◌, length, vec_len, IfOk};

use constructor::Constructor;
use preference::{Named, Preference, PreferenceList};
use std::alloc::{AllocError, Global};
use std::ops::RangeInclusive;

const MOST: u32 = 64;

// A value that is not negative: generated logs have no other.
fn plain(v: i32) -> u32 {
    u32::try_from(v).unwrap_or(0)
}

// How far a value is from what is wished for. Here and in `range_of` an arm for several forms only names what
// it binds: the check does not prove one that binds a signed number and makes a call (tried; a bug of rattle's,
// as it says).
fn distance(c: Constructor, v: u32) -> u32 {
    let (low, up) = match c {
        Constructor::Lowest { lo, .. } => return v.saturating_sub(plain(lo)),
        Constructor::Highest { hi, .. } => return plain(hi).saturating_sub(v),
        Constructor::Layered { .. } => return 0,
        Constructor::Around { z, .. } => (z, z),
        Constructor::Between { low, up, .. } | Constructor::BetweenTrivial { low, up, .. } => {
            (low, up)
        }
    };
    let under = plain(low).saturating_sub(v);
    under.max(v.saturating_sub(plain(up)))
}

// The values that a form takes, but for LAYERED, which takes every value.
pub fn range_of(c: Constructor) -> Option<RangeInclusive<i32>> {
    let (lo, hi) = match c {
        Constructor::Lowest { lo, hi, .. }
        | Constructor::Highest { lo, hi, .. }
        | Constructor::Around { lo, hi, .. }
        | Constructor::Between { lo, hi, .. }
        | Constructor::BetweenTrivial { lo, hi, .. } => (lo, hi),
        Constructor::Layered { .. } => return None,
    };
    Some(lo..=hi)
}

fn step_of(c: Constructor) -> u32 {
    match c {
        Constructor::Lowest { step, .. }
        | Constructor::Highest { step, .. }
        | Constructor::Around { step, .. }
        | Constructor::Between { step, .. }
        | Constructor::BetweenTrivial { step, .. } => step,
        Constructor::Layered { .. } => 0,
    }
}

// How many steps it takes to get as far as the distance: the division that rounds up, without a division.
fn steps(far: u32, step: u32) -> u32 {
    let mut left = far;
    for n in 0..MOST {
        if left == 0 {
            return n;
        }
        left = left.saturating_sub(step);
    }
    MOST
}

fn numeric(c: Constructor, v: u32) -> u32 {
    steps(distance(c, v), step_of(c))
}

// ---- the list and its values

pub fn wishes(list: &PreferenceList) -> &[Preference]
    ensures { length result.now ≤ 8 }
{
    let count = list.count as usize;
    &list.preferences[..count.min(list.preferences.len())]
}

fn names(list: &PreferenceList) -> &[Named] {
    let count = list.namedcount as usize;
    &list.named[..count.min(list.named.len())]
}

pub fn value(row: &[i32; 8], column: u8) -> i32 {
    row.get(usize::from(column)).copied().unwrap_or(0)
}

// The layer of a value: the first naming counts.
fn layer(list: &PreferenceList, place: usize, v: i32, others: u8) -> u8 {
    names(list)
        .iter()
        .find(|name| usize::from(name.preference) == place && name.value == v)
        .map_or(others, |name| name.layer)
}

// ---- parts of level vectors

// What a wish gives to a level vector: one part, or two under kind 08. Both cases hold levels, so it is no Option.
#[derive(Clone, Copy)]
enum Parts {
    One(u32),
    Two(u32, u32),
}

impl Parts {
    fn push_to(self, levels: &mut Vec<u32>) -> Result<(), AllocError>
        ensures { IfOk result (λ done. vec_len levels.new ≤ vec_len levels.old + 2) }
    {
        match self {
            Parts::One(part) => levels.push(part)?,
            Parts::Two(first, second) => {
                levels.push(first)?;
                levels.push(second)?;
            }
        }
        Ok(())
    }
}

// The part of one side: all steps of a value that lies so far out there, and a step less of one on the other side.
fn side(here: u32, there: u32, step: u32) -> u32 {
    steps(here, step).max(steps(there.saturating_sub(step), step))
}

// The parts of a value; under kind 08 above the range counts first, below it second.
fn parts_of(list: &PreferenceList, c: Constructor, place: usize, v: i32) -> Parts {
    match c {
        Constructor::Layered { others, .. } => {
            Parts::One(u32::from(layer(list, place, v, others)))
        }
        Constructor::BetweenTrivial { step, low, up, .. } => {
            let over = plain(v).saturating_sub(plain(up));
            let under = plain(low).saturating_sub(plain(v));
            Parts::Two(side(over, under, step), side(under, over, step))
        }
        _ => Parts::One(numeric(c, plain(v))),
    }
}

// The greatest level of a form that goes by distance, over 64 values at most.
fn greatest(c: Constructor) -> u32 {
    let Some(range) = range_of(c) else {
        return 0;
    };
    range
        .take(MOST as usize)
        .map(|v| numeric(c, plain(v)))
        .max()
        .unwrap_or(0)
}

// The greatest level, which both parts of kind 08 have.
fn top_of(c: Constructor) -> Parts {
    match c {
        Constructor::Layered { top, .. } => Parts::One(u32::from(top)),
        Constructor::BetweenTrivial { .. } => {
            let top = greatest(c);
            Parts::Two(top, top)
        }
        _ => Parts::One(greatest(c)),
    }
}

// ---- level vectors: the first part of a wish before its second

pub fn levels_of(
    alloc: Global,
    list: PreferenceList,
    row: &[i32; 8],
) -> Result<Vec<u32>, AllocError> {
    let mut levels = Vec::new(alloc);
    for (place, wish) in wishes(&list).iter().enumerate() {
        let v = value(row, wish.column);
        parts_of(&list, wish.constructor, place, v).push_to(&mut levels)?;
    }
    Ok(levels)
}

// The greatest levels likewise.
pub fn tops_of(alloc: Global, list: PreferenceList) -> Result<Vec<u32>, AllocError>
    ensures { IfOk result (λ tops. vec_len tops ≤ 16) }
{
    let mut tops = Vec::new(alloc);
    for wish in wishes(&list) {
        top_of(wish.constructor).push_to(&mut tops)?;
    }
    Ok(tops)
}

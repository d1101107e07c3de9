// Preference lists for the programs that try calls, and what the calls come back as.
ghost use Rattle.std.specs.Iterator.{IsFinite};

use crate::show::Refused;
use constructor::{Constructor, Side};
use preference::{Named, Preference, PreferenceList, Told};
use refusal::Refusal;
use std::ops::Range;
use std::{fmt, io};

pub fn lowest(lo: i32, hi: i32, step: u32) -> Constructor {
    Constructor::Lowest { lo, hi, step }
}

pub fn highest(lo: i32, hi: i32, step: u32) -> Constructor {
    Constructor::Highest { lo, hi, step }
}

pub fn around(lo: i32, hi: i32, step: u32, z: i32) -> Constructor {
    Constructor::Around { lo, hi, step, z }
}

pub fn between(lo: i32, hi: i32, step: u32, low: i32, up: i32) -> Constructor {
    Constructor::Between {
        lo,
        hi,
        step,
        low,
        up,
    }
}

// Kind 08.
pub fn between_trivial(lo: i32, hi: i32, step: u32, low: i32, up: i32) -> Constructor {
    Constructor::BetweenTrivial {
        lo,
        hi,
        step,
        low,
        up,
    }
}

pub fn layers(top: u8, others: u8) -> Constructor {
    Constructor::Layered { top, others }
}

// No preference; what stands past the counts would be refused if it were counted.
pub fn none() -> PreferenceList {
    let p = Preference {
        column: 99,
        constructor: layers(200, 201),
    };
    let n = Named {
        preference: 77,
        value: -1,
        layer: 66,
    };
    PreferenceList {
        count: 0,
        preferences: [p; 8],
        namedcount: 0,
        named: [n; 64],
    }
}

// The list with one preference more; where it is full, only its count grows.
pub fn with(list: PreferenceList, column: u8, constructor: Constructor) -> PreferenceList {
    let mut next = list;
    if let Some(place) = next.preferences.get_mut(list.count as usize) {
        *place = Preference {
            column,
            constructor,
        };
    }
    next.count = list.count.saturating_add(1);
    next
}

// The list with one named value more; where it is full, only their count grows.
pub fn with_named(list: PreferenceList, owner: u8, value: i32, layer: u8) -> PreferenceList {
    let mut next = list;
    if let Some(place) = next.named.get_mut(list.namedcount as usize) {
        *place = Named {
            preference: owner,
            value,
            layer,
        };
    }
    next.namedcount = list.namedcount.saturating_add(1);
    next
}

// The list of these columns' preferences.
pub fn list(wishes: &[(u8, Constructor)]) -> PreferenceList {
    let mut list = none();
    for (column, constructor) in wishes {
        list = with(list, *column, *constructor);
    }
    list
}

pub fn single(c: Constructor) -> PreferenceList {
    with(none(), 7, c)
}

// The list of one form, on each of these columns.
pub fn on_each(columns: Range<u8>, constructor: Constructor) -> PreferenceList {
    columns.fold(none(), |list, column| with(list, column, constructor))
}

// The list with these values in a layer of the preference at a place.
pub fn with_layer<I: Iterator<Item = i32>>(
    list: PreferenceList,
    owner: u8,
    layer: u8,
    values: I,
) -> PreferenceList
    requires can { I.can_next values }
    requires ends { IsFinite (I.remaining values) }
{
    let mut next = list;
    for value in values {
        next = with_named(next, owner, value, layer);
    }
    next
}

// What the level of a value comes back as: the level and the side, or the refusal.
#[derive(Clone, Copy)]
struct Answer(Result<Told, Refusal>);

impl fmt::Display for Answer {
    fn fmt<W: fmt::Write>(&self, f: &mut fmt::Formatter<W>) -> fmt::Result {
        let told = match self.0 {
            Ok(told) => told,
            Err(refusal) => return write!(f, " {}", Refused(refusal)),
        };
        let level = told.level;
        match told.side {
            Side::Below => write!(f, " {level} below"),
            Side::Inside => write!(f, " {level} inside"),
            Side::Above => write!(f, " {level} above"),
        }
    }
}

pub fn show_level(rt: &impl Print, list: PreferenceList, place: u32, value: i32) -> io::Result<()> {
    rt.print(Answer(levels::level(list, place, value)))
}

// The levels of values under the preference at a place, and their sides.
pub fn show_levels_at(
    rt: &impl Print,
    label: &str,
    list: PreferenceList,
    place: u32,
    values: &[i32],
) -> io::Result<()> {
    print!(rt; "{label}")?;
    for value in values {
        show_level(rt, list, place, *value)?;
    }
    println!(rt)
}

// The same at place 0.
pub fn show_levels(
    rt: &impl Print,
    label: &str,
    list: PreferenceList,
    values: &[i32],
) -> io::Result<()> {
    show_levels_at(rt, label, list, 0, values)
}

// The greatest level of each part.
pub fn show_greatest(rt: &impl Print, label: &str, list: PreferenceList) -> io::Result<()> {
    print!(rt; "{label}")?;
    for k in 0..levels::parts(list) {
        print!(rt; " {}", levels::part_max(list, k))?;
    }
    println!(rt)
}

// What a list comes back as, asked for the level of 0 at place 0, and what its own check gives.
pub fn show_list(rt: &impl Print, label: &str, list: PreferenceList) -> io::Result<()> {
    let number = preference::check(list).map_or_else(u8::from, |()| 0);
    println!(rt; "{label} {number}{}", Answer(levels::level(list, 0, 0)))
}

// The same of several lists, each made of what its case holds.
pub fn show_lists<T: Copy, F: Fn(T) -> PreferenceList>(
    rt: &impl Print,
    cases: &[(&str, T)],
    list_of: F,
) -> io::Result<()>
    requires { F.IsAlwaysCallable list_of }
{
    for (label, case) in cases {
        show_list(rt, *label, list_of(*case))?;
    }
    Ok(())
}

// The preference list (document 01: wish list): its types and its check. Its specs say too what `layers` and `levels`
// answer.
#![tactic(auto)]

ghost use Rattle.std.specs.Prelude.{◌≡◌, ◌<◌, ◌≤◌, length};
ghost use Rattle.limits.specs.Limits.{max_wishes, max_named};
ghost use Rattle.refusal.specs.Refusal.{refusal_of};
ghost use Rattle.preference.specs.List.{places, named_places, counted, counted_names, constructor_at};
ghost use Rattle.preference.specs.Valid.{taken, column_refusal, preference_refusal, place_refusal, named_refusal};
ghost use Rattle.preference.specs.Valid.{list_refusal};

use constructor::{Constructor, Side};
use refusal::Refusal;

// A wish: the column that it is about, and its form.
#[derive(Clone, Copy, Debug, Default, PartialEq, Eq)]
pub struct Preference {
    pub column: u8,
    pub constructor: Constructor,
}

// A named value: the place of its preference, the value, and its layer.
#[derive(Clone, Copy, Debug, Default, PartialEq, Eq)]
pub struct Named {
    pub preference: u8,
    pub value: i32,
    pub layer: u8,
}

// The first `count` preferences and the first `namedcount` named values are the list. What stands past them
// is no part of it, so no equality is derived: it would compare too much. The fields hold refused figures too. Arrays
// with their counts: the form that document 01 names.
#[derive(Clone, Copy)]
pub struct PreferenceList {
    pub count: u32,
    pub preferences: [Preference; limits::MAX_WISHES],
    pub namedcount: u32,
    pub named: [Named; limits::MAX_NAMED],
}

// The greatest counts of an accepted list, as its fields have them.
pub const MAX_COUNT: u32 = limits::MAX_WISHES as u32;

pub const MAX_NAMED_COUNT: u32 = limits::MAX_NAMED as u32;

impl PreferenceList {
    // The preferences that the list holds.
    pub fn counted(&self) -> &[Preference]
        ensures held { result.now ≡ counted self.now }
        ensures places { length result.now ≡ places self.now }
    {
        &self.preferences[..(self.count as usize).min(limits::MAX_WISHES)]
    }

    // The named values that the list holds.
    pub fn counted_names(&self) -> &[Named]
        ensures held { result.now ≡ counted_names self.now }
        ensures places { length result.now ≡ named_places self.now }
    {
        &self.named[..(self.namedcount as usize).min(limits::MAX_NAMED)]
    }

    // The form at place i, whatever the list counts; LOWEST with every figure 0 past the eighth.
    pub fn constructor_at(&self, i: usize) -> Constructor
        ensures { result ≡ constructor_at self.now i }
    {
        self.preferences
            .get(i)
            .copied()
            .unwrap_or_default()
            .constructor
    }
}

// What the level call tells of a value.
#[derive(Clone, Copy, Debug, PartialEq, Eq)]
pub struct Told {
    pub level: u32,
    pub side: Side,
}

// The named values of one preference, in the list's order: the first `count` places. What stands past them
// is no part of it: no equality is derived. Values and layers stand apart: sixteen values are tried at once.
#[derive(Clone, Copy)]
pub struct Names {
    pub count: usize,
    pub values: [i32; limits::MAX_NAMED],
    pub layers: [u8; limits::MAX_NAMED],
}

// Where a part of the level vectors is found: the place of its preference, and which of the preference's parts it is.
#[derive(Clone, Copy, Debug, PartialEq, Eq)]
pub struct PartAt {
    pub place: usize,
    pub half: usize,
}

// Whether one of the first n preferences has the column.
fn column_taken(list: &PreferenceList, n: usize, column: u8) -> bool
    requires { n ≤ max_wishes }
    ensures { result ≡ taken list.now n column }
{
    list.preferences[..n].iter().any(|p| p.column == column)
}

// 5 for a column above 7, or one that a preference before place n has.
#[tactic(auto, using(refusal::specs::Laws::Refusal::checks), unfolding(crate::specs::Valid::column_refusal))]
fn check_column(list: &PreferenceList, n: usize, column: u8) -> Result<(), Refusal>
    ensures { refusal_of result ≡ column_refusal list.now n column }
{
    if 7 < column {
        return Err(Refusal::Column);
    }
    if column_taken(list, n.min(limits::MAX_WISHES), column) {
        return Err(Refusal::Column);
    }
    Ok(())
}

// A preference at place n of the list. These checks look at a list that stays where it is: they are made for each
// place.
#[tactic(auto, using(crate::proofs::Both::both), unfolding(crate::specs::Valid::preference_refusal))]
fn check_at(list: &PreferenceList, n: usize, p: Preference) -> Result<(), Refusal>
    ensures { refusal_of result ≡ preference_refusal list.now n p }
{
    check_column(list, n, p.column).and(p.constructor.check())
}

// The preference p at place n of the list: 5, 6, or 7.
pub fn check_preference(list: PreferenceList, n: usize, p: Preference) -> Result<(), Refusal>
    ensures { refusal_of result ≡ preference_refusal list n p }
{
    check_at(&list, n, p)
}

fn check_place(list: &PreferenceList, i: usize) -> Result<(), Refusal>
    requires { i < max_wishes }
    ensures { refusal_of result ≡ place_refusal list.now i }
{
    check_at(list, i, list.preferences[i])
}

// The named value at place k: 3 for no such preference or one before the last named value's, then its layer's number.
#[tactic(auto, using(refusal::specs::Laws::Refusal::checks), unfolding(crate::specs::Valid::named_refusal))]
fn check_named(list: &PreferenceList, k: usize) -> Result<(), Refusal>
    requires { (list.now.count ≤ max_wishes) × (k < max_named) }
    ensures { refusal_of result ≡ named_refusal list.now k }
{
    let naming = list.named[k];
    let owner = naming.preference;
    if list.count <= u32::from(owner) {
        return Err(Refusal::OutOfPlace);
    }
    if owner < list.named[k.saturating_sub(1)].preference {
        return Err(Refusal::OutOfPlace);
    }
    list.preferences[usize::from(owner)]
        .constructor
        .check_layer(naming.layer)
}

// Whether a list is accepted, or the number that it is refused by.
#[tactic(auto, using(refusal::specs::Laws::Refusal::checks), unfolding(crate::specs::Valid::list_refusal))]
pub fn check(list: PreferenceList) -> Result<(), Refusal>
    ensures { refusal_of result ≡ list_refusal list }
{
    if (list.count == 0) | (MAX_COUNT < list.count) {
        return Err(Refusal::WishCount);
    }
    if MAX_NAMED_COUNT < list.namedcount {
        return Err(Refusal::TooMuch);
    }
    refusal::check_each(list.count as usize, |i| check_place(&list, i))?;
    refusal::check_each(list.namedcount as usize, |k| check_named(&list, k))
}

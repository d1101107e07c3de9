// What a preference list says of a value and of a run: the level and the side of a value, and the level vector of a
// run.
#![tactic(auto)]

ghost use Rattle.std.specs.Prelude.{◌≡◌, ◌<◌, ◌≤◌, pos, get_or, length, not};
ghost use Rattle.limits.specs.Limits.{max_wishes};
ghost use Rattle.laws.specs.Checks.{◌gives◌};
ghost use Rattle.laws.specs.Outcome.{outcome};
ghost use Rattle.refusal.specs.Refusal.{refusal_of, outcome_of};
ghost use Rattle.constructor.specs.Level.{inside};
ghost use Rattle.constructor.specs.Side.{tops_of};
ghost use Rattle.preference.specs.List.{constructor_at};
ghost use Rattle.preference.specs.Level.{level_at, told_at, value_refusal, level_refusal};
ghost use Rattle.preference.specs.Parts.{row_value, levels, max_levels, part_of, row_refusal};

use constructor::{Constructor, Layering};
use preference::{PartAt, Preference, PreferenceList, Told};
use refusal::Refusal;

// ---- the level of a value

// The level of v under the form of the preference at place i.
#[tactic(auto, unfolding(preference::specs::Level::level_at))]
fn level_at(list: PreferenceList, i: usize, form: Constructor, v: i32) -> u64
    requires { form ≡ constructor_at list i }
    ensures { result ≡ level_at list i v }
{
    match form.layering() {
        Layering::Numeric => form.level(v),
        Layering::Layers { others, .. } => u64::from(layers::layer_of(list, i, v, others)),
    }
}

// 8 where v lies outside the bounds of a form.
#[tactic(auto, using(refusal::specs::Laws::Refusal::checks))]
fn check_inside(form: Constructor, v: i32) -> Result<(), Refusal>
    ensures { refusal_of result ≡ not (inside form v) gives 8 }
{
    if !form.is_inside(v) {
        return Err(Refusal::OutsideBounds);
    }
    Ok(())
}

// The level of a value under the preference at a place, and its side.
pub fn level(list: PreferenceList, place: u32, value: i32) -> Result<Told, Refusal>
    ensures { outcome_of result ≡ outcome (level_refusal list place value) (told_at list place value) }
{
    preference::check(list)?;
    if list.count <= place {
        return Err(Refusal::NoRoom);
    }
    let i = place as usize;
    let form = list.constructor_at(i);
    check_inside(form, value)?;
    Ok(Told {
        level: level_at(list, i, form, value) as u32,
        side: form.side(value),
    })
}

// ---- the level vector of a run

// The value of a run in the column of a preference; 0 past the run's end.
fn run_value(preference: Preference, row: &[i32]) -> i32
    ensures { result ≡ get_or row.now preference.column (pos 0) }
{
    row.get(usize::from(preference.column))
        .copied()
        .unwrap_or(0)
}

// The number of the parts that a form gives: one, or two.
#[tactic(auto, unfolding(constructor::specs::Side::tops_of))]
fn form_parts(form: Constructor) -> usize
    ensures { (result ≡ length (tops_of form)) × (result ≤ 2) }
{
    if form.is_pair() { 2 } else { 1 }
}

// The number of the parts of every level vector. A loop: the search leaves both goals of a sum over a map
// open, and their proofs are longer than the loop's.
pub fn parts(list: PreferenceList) -> usize
    ensures { result ≡ length (max_levels list) }
{
    let mut total = 0;
    for preference in list.counted() {
        total += form_parts(preference.constructor);
    }
    total
}

// The preference that part k of the level vectors belongs to, and which of its parts it is. An Option would
// say no more: past the last part the list holds no such place, so `list.counted().get(place)` is the Option.
pub fn part_at(list: PreferenceList, k: usize) -> PartAt
    ensures { result ≡ part_of list k }
{
    let mut before = 0;
    for (place, preference) in list.counted().iter().enumerate() {
        let with = before + form_parts(preference.constructor);
        if k < with {
            return PartAt {
                place,
                half: k - before,
            };
        }
        before = with;
    }
    PartAt {
        place: list.counted().len(),
        half: k - before,
    }
}

// Part k of the level vector of a run; 0 past the last.
pub fn part_level(list: PreferenceList, row: &[i32], k: usize) -> u64
    ensures { result ≡ get_or (levels list row.now) k 0 }
{
    let PartAt { place, half } = part_at(list, k);
    let Some(preference) = list.counted().get(place) else {
        return 0;
    };
    let form = preference.constructor;
    let v = run_value(*preference, row);
    constructor::part_in(
        form.half(half),
        level_at(list, place, form, v),
        form.side(v),
    )
}

// The greatest level of part k; 0 past the last.
pub fn part_max(list: PreferenceList, k: usize) -> u64
    ensures { result ≡ get_or (max_levels list) k 0 }
{
    let Some(preference) = list.counted().get(part_at(list, k).place) else {
        return 0;
    };
    preference.constructor.max_level()
}

// 8 where the run's value lies outside the bounds of the preference at place i.
#[tactic(auto, unfolding(preference::specs::Level::value_refusal))]
fn check_place(list: &PreferenceList, row: &[i32], i: usize) -> Result<(), Refusal>
    requires { i < max_wishes }
    ensures { refusal_of result ≡ value_refusal list.now i (row_value list.now row.now i) }
{
    let preference = list.preferences[i];
    check_inside(preference.constructor, run_value(preference, row))
}

// 8 where a value of the run lies outside the bounds of its preference.
#[tactic(auto, unfolding(preference::specs::Parts::row_refusal))]
pub fn check_row(list: &PreferenceList, row: &[i32]) -> Result<(), Refusal>
    ensures { refusal_of result ≡ row_refusal list.now row.now }
{
    refusal::check_each(list.counted().len(), |i| check_place(list, row, i))
}

// The layer of a value under a LAYERED preference: that of the first NAMED with the value, or that of other values.
#![tactic(auto)]

ghost use Rattle.std.specs.Prelude.{◌≡◌};
ghost use Rattle.arith.specs.Gap.{eq_z};
ghost use Rattle.preference.specs.Level.{layer_of};
ghost use Rattle.preference.specs.Names.{among, NamesOf};

use preference::{Named, Names, PreferenceList};

// The named values of the preference at place i, so that whoever asks for many layers reads the list once. One of
// another preference is written over by the next, so that the loop takes no branch. Values stand apart from layers for
// the search, which tests sixteen values at once: one test for each name cost a call 1.15 to 1.19 times as much.
pub fn names_of(list: PreferenceList, i: usize) -> Names
    ensures { NamesOf list i result }
{
    let mut values = [0; limits::MAX_NAMED];
    let mut layers = [0; limits::MAX_NAMED];
    let mut next = 0;
    for naming in list.counted_names() {
        let Named {
            preference,
            value,
            layer,
        } = *naming;
        values[next] = value;
        layers[next] = layer;
        next += usize::from(usize::from(preference) == i);
    }
    Names {
        count: next,
        values,
        layers,
    }
}

// The layer of the first of n values that is v, or that of other values. Beside `layer_by`, since what it promises
// holds of slices of any length.
#[tactic(auto, using(arith::specs::Laws::Local::same_is))]
pub fn layer_among(values: &[i32], layers: &[u8], n: usize, v: i32, others: u8) -> u8
    ensures { result ≡ among values.now layers.now n v others }
{
    let counted = n.min(values.len().min(layers.len()));
    let first = scan::first_place(
        &values[..counted],
        |value: i32|
            ensures { result ≡ eq_z value v }
        { value == v },
    );
    layers[..counted].get(first).copied().unwrap_or(others)
}

// The same of names.
pub fn layer_by(names: &Names, v: i32, others: u8) -> u8
    ensures { result ≡ among names.now.values names.now.layers names.now.count v others }
{
    layer_among(&names.values, &names.layers, names.count, v, others)
}

// The layer of a value under the preference at place i, or that of other values.
pub fn layer_of(list: PreferenceList, i: usize, v: i32, others: u8) -> u8
    ensures { result ≡ layer_of list i v others }
{
    layer_by(&names_of(list, i), v, others)
}

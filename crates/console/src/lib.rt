// The flat calls, which a display written in C links to by the crate `console_c`. include/shortlist.h says in words
// what the contracts here say.
#![tactic(auto)]

ghost use Rattle.std.specs.Prelude.{◌≡◌, length};
ghost use Rattle.refusal.specs.Refusal.{outcome_of};
ghost use Rattle.pareto.specs.Call.{Leaves};
ghost use Rattle.console.specs.Flat.{signed_outcome, flat_lattice_call, flat_window_call};

use refusal::Refusal;

// Tells a refusal by its sign.
fn signed(answer: Result<u16, Refusal>) -> i32
    ensures { signed_outcome result ≡ outcome_of answer }
{
    match answer {
        Ok(best) => i32::from(best),
        Err(refusal) => -i32::from(u8::from(refusal)),
    }
}

// The shortlist of a stream, by the lattice engine within a budget of crossings. The two calls stand apart:
// one that is handed the engine would be no shorter.
pub fn shortlist_lattice(stream: &[u8], marks: &mut [u8], budget: u32) -> i32
    ensures { Leaves (flat_lattice_call stream.now (length marks.old) budget)
        marks.old (signed_outcome result) marks.new }
{
    let mut numbers = [0; limits::MAX_VALUES];
    match selection::read(stream, &mut numbers) {
        Ok(held) => signed(selection::by_lattice(held.list, held.log(&numbers), marks, budget)),
        Err(refusal) => signed(Err(refusal)),
    }
}

// The shortlist of a stream, by the window engine with a window of w entries.
pub fn shortlist_window(stream: &[u8], marks: &mut [u8], w: u32) -> i32
    ensures { Leaves (flat_window_call stream.now (length marks.old) w)
        marks.old (signed_outcome result) marks.new }
{
    let mut numbers = [0; limits::MAX_VALUES];
    match selection::read(stream, &mut numbers) {
        Ok(found) => signed(selection::by_window(found.list, found.log(&numbers), marks, w)),
        Err(why) => signed(Err(why)),
    }
}

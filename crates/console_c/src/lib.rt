// The static library for C: the flat calls of `console` under the names that include/shortlist.h declares.
#![tactic(auto)]

ghost use Rattle.std.specs.Prelude.{length};
ghost use Rattle.pareto.specs.Call.{Leaves};
ghost use Rattle.console.specs.Flat.{signed_outcome, flat_lattice_call, flat_window_call};

// The shortlist of a stream, by the lattice engine within a budget of crossings.
#[unsafe(no_mangle)]
pub extern "C" fn shortlist_lattice(stream: &[u8], marks: &mut [u8], budget: u32) -> i32
    ensures { Leaves (flat_lattice_call stream.now (length marks.old) budget)
        marks.old (signed_outcome result) marks.new }
{
    console::shortlist_lattice(stream, marks, budget)
}

// The shortlist of a stream, by the window engine with a window of w entries.
#[unsafe(no_mangle)]
pub extern "C" fn shortlist_window(stream: &[u8], marks: &mut [u8], w: u32) -> i32
    ensures { Leaves (flat_window_call stream.now (length marks.old) w)
        marks.old (signed_outcome result) marks.new }
{
    console::shortlist_window(stream, marks, w)
}

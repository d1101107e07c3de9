// Tries the reader and the writer on streams that were cut, changed byte by byte, or made to be refused, against
// verdicts of a model written apart. The file stdout holds what documents 01 and 02 say of the streams that are made to
// be refused, and no difference elsewhere.
#![tactic(auto)]

use std::io;

mod cases;
mod damage;
mod places;
mod streams;

fn main(rt: HostRuntime) -> io::Result<()> {
    let mut harbour = streams::HARBOUR;
    let mut every = streams::EVERY;
    cases::all(&rt)?;
    damage::show_damage(&rt, "harbour", &mut harbour)?;
    damage::show_damage(&rt, "every kind", &mut every)
}

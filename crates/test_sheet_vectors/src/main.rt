// Prints shift sheets: short ones as text, what calls at the limits and refused calls come back as, and generated ones
// against a layout written apart. The file stdout was made by a third layout, which is not part of this repository.
#![tactic(auto)]

use std::io;

mod apart;
mod calls;
mod cases;
mod generated;
mod sheets;
mod trials;

fn main(rt: HostRuntime) -> io::Result<()> {
    sheets::all(&rt)?;
    cases::all(&rt)?;
    trials::all(&rt)
}

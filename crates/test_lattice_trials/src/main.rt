// Tries the lattice engine on generated logs against a model written apart, and says which cases came.
#![tactic(auto)]

use std::io;

mod model;
mod trials;

fn main(rt: HostRuntime) -> io::Result<()> {
    trials::generated(&rt)
}

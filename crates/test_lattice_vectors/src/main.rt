// What documents 000, 003 and 02 say of lattices, and the Harbour log, through the lattice engine. Each line begins
// with its source, and the file stdout holds the documents' figures.
#![tactic(auto)]

use std::io;

mod answers;
mod counts;
mod edges;
mod harbour;
mod lists;
mod numbers;
mod table;

fn of_02(rt: &impl Print) -> io::Result<()> {
    counts::of_02(rt)?;
    edges::of_02(rt)?;
    numbers::of_02(rt)?;
    harbour::of_02(rt)
}

fn main(rt: HostRuntime) -> io::Result<()> {
    counts::of_000(&rt)?;
    counts::of_003(&rt)?;
    edges::of_000(&rt)?;
    numbers::of_000(&rt)?;
    table::of_000(&rt)?;
    harbour::of_01(&rt)?;
    of_02(&rt)
}

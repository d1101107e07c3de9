// Best matches that documents 000 and 003 work out, and those that document 02's order 2 changes, through both engines
// and the question which run beat a row. Each line begins with its source, and the file stdout holds the documents'
// figures: marks by row, counted from 0 where the documents count from 1.
#![tactic(auto)]

use std::io;

mod cars;
mod john;
mod level_tables;
mod matches;
mod thin_and_thick;

fn main(rt: HostRuntime) -> io::Result<()> {
    cars::of_000(&rt)?;
    john::of_000(&rt)?;
    level_tables::of_000(&rt)?;
    cars::of_003(&rt)?;
    thin_and_thick::of_02(&rt)
}

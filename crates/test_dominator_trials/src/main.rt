// Tries the question which run beat a row: on the Harbour log, where rows 0, 2 and 4 beat row 3 and any of them may be
// named, with kind 08 row 2 alone, and of every row of generated logs against a nested loop. The counts in the file
// stdout were found by a model that is not part of this repository.
#![tactic(auto)]

use std::io;

mod harbour;
mod logs;

fn main(rt: HostRuntime) -> io::Result<()> {
    harbour::all(&rt)?;
    logs::all(&rt)
}

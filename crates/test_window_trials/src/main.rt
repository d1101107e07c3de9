// Tries the window engine against a nested loop and a machine written apart: on every log of three rows with levels 0
// to 2 under two wishes, of which 1,128 rows are on a shortlist, on every one with few values under kind 08, and on
// generated logs with windows 1, 2, 3, 64 and 1,024. The counts in the file stdout were found by a third model, which
// is not part of this repository.
#![tactic(auto)]

use std::io;

mod calls;
mod logs;
mod small;
mod windows;

fn main(rt: HostRuntime) -> io::Result<()> {
    small::all(&rt)?;
    logs::all(&rt)
}

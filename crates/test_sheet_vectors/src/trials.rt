// Generated logs against the layout written apart, over the whole output.
use crate::apart::{self, Run};
use crate::calls::OLD;
use crate::generated::Marked;
use std::alloc::{AllocError, Global};
use std::io;
use test_support::counts;
use test_support::figures::{Seed, Seeds};

const LOGS: u32 = 500;

// What 200 runs take, and some bytes past them.
const ROOM: usize = 21300;

#[derive(Clone, Copy)]
struct Tried {
    runs: usize,
    pages: usize,
    differing: usize,
}

// The bytes that differ after a call: all of them, where it does not come back with the right length.
fn differing(log: &Marked, runs: &[Run]) -> usize {
    let mut out = [OLD; ROOM];
    let numbers = log.rows.as_slice().as_flattened();
    let length = apart::last_line(runs).saturating_add(1).saturating_mul(102);
    if sheet_pages::print(numbers, log.marks.as_slice(), &mut out) != Ok(length) {
        return ROOM;
    }
    out.iter()
        .enumerate()
        .filter(|(i, byte)| **byte != apart::byte(runs, *i, OLD))
        .count()
}

fn try_log(alloc: Global, seed: Seed) -> Result<Tried, AllocError> {
    let log = Marked::new(alloc, seed)?;
    let runs = log.runs(alloc)?;
    let runs = runs.as_slice();
    Ok(Tried {
        runs: runs.len(),
        pages: apart::last_line(runs) / 52 + 1,
        differing: differing(&log, runs),
    })
}

pub fn all(rt: &(impl Print + AllocGlobal)) -> io::Result<()> {
    let alloc = rt.alloc();
    let tried: Vec<Tried> = Seeds::new(LOGS)
        .map(|seed| try_log(alloc, seed))
        .try_collect(alloc)?;
    let tried = tried.as_slice();
    println!(rt;
        "generated logs, their runs, pages, and bytes that differ: {} {} {} {}",
        tried.len(),
        counts::total(tried, |t| t.runs),
        counts::total(tried, |t| t.pages),
        counts::total(tried, |t| t.differing)
    )
}

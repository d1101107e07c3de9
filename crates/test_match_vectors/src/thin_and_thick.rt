// Document 02, order 2: most cubic metres, and a density near 1,250, where too thin and too thick are told apart by
// kind 08 and not by AROUND.
use crate::matches;
use std::io;
use test_support::short_logs::{self, run};

// 50 under the target with 900 cubic metres, 50 over it with 800. Levels (1,1)(2,1), and (1,0,1)(2,1,0) by kind 08.
fn show_two(rt: &impl Print) -> io::Result<()> {
    let rows = [run(1, 900, 1200), run(1, 800, 1300)];
    let around = short_logs::harbour_list();
    let pairs = short_logs::harbour_pairs();
    matches::show_matches(
        rt,
        "02 order 2, 50 under and 50 over, AROUND:",
        around,
        &rows,
    )?;
    matches::show_matches(
        rt,
        "02 order 2, 50 under and 50 over, kind 08:",
        pairs,
        &rows,
    )
}

// Levels (1,1,0)(0,3,2)(2,0,0)(2,0,1)(1,1,0): row 2 alone beats row 3.
fn show_harbour(rt: &impl Print) -> io::Result<()> {
    let label = "02 order 2, Harbour log with kind 08:";
    let pairs = short_logs::harbour_pairs();
    matches::show_matches(rt, label, pairs, &short_logs::harbour())
}

pub fn of_02(rt: &impl Print) -> io::Result<()> {
    show_two(rt)?;
    show_harbour(rt)
}

// Node counts: an empty log is accepted with n node bytes and refused by 10 with one fewer.
use crate::{answers, lists};
use preference::PreferenceList;
use std::io;
use test_support::short_logs;
use test_support::show::Answer;

const MOST_NODES: usize = 32768;

fn run_empty(list: PreferenceList, room: usize) -> Answer<'static> {
    let mut marks = [238u8; 1];
    let mut nodes = [238u8; MOST_NODES];
    let lent = &mut nodes[..room.min(MOST_NODES)];
    answers::told(lattice::run(list, &[], &mut marks, lent, 0))
}

fn show_count(rt: &impl Print, label: &str, list: PreferenceList, n: usize) -> io::Result<()> {
    let fewer = n.saturating_sub(1);
    let refused = run_empty(list, fewer);
    println!(rt; "{label} {n}{}, {fewer}{refused}", run_empty(list, n))
}

fn show_too_many(rt: &impl Print, label: &str, list: PreferenceList) -> io::Result<()> {
    println!(rt; "{label}{}", run_empty(list, MOST_NODES))
}

// The same where wishes are LOWEST, with these greatest levels.
fn show_counts(rt: &impl Print, cases: &[(&str, &[u16], usize)]) -> io::Result<()> {
    for (label, tops, n) in cases {
        show_count(rt, *label, short_logs::lowest_to(*tops), *n)?;
    }
    Ok(())
}

// The whole list of Ex. 45 has 73,326 nodes, more than are taken.
fn example_45(rt: &impl Print) -> io::Result<()> {
    let whole = short_logs::lowest_to(&[5, 10, 10, 100]);
    show_too_many(rt, "000 Ex. 45, M 5 10 10 100:", whole)?;
    show_counts(
        rt,
        &[
            ("000 Ex. 45, without the last:", &[5, 10, 10], 726),
            ("000 Ex. 45, without the first:", &[10, 10, 100], 12221),
        ],
    )
}

pub fn of_000(rt: &impl Print) -> io::Result<()> {
    show_counts(
        rt,
        &[
            ("000 Ex. 32, M 3 2:", &[3, 2], 12),
            ("000 Ex. 14, M 2 4 10:", &[2, 4, 10], 165),
            ("000 Ex. 15, M 2 2 1:", &[2, 2, 1], 18),
            ("000 Ex. 15, M 2 2 100:", &[2, 2, 100], 909),
            ("000 Ex. 15, M 20 20 20:", &[20, 20, 20], 9261),
            ("000 Ex. 38, M 2 5:", &[2, 5], 18),
            ("000 Ex. 40, M 2 2 2 2:", &[2, 2, 2, 2], 81),
        ],
    )?;
    example_45(rt)
}

pub fn of_003(rt: &impl Print) -> io::Result<()> {
    show_counts(
        rt,
        &[
            ("003 Ex. 4, M 2 4:", &[2, 4], 15),
            ("003 Ex. 7, M 3 2 1:", &[3, 2, 1], 24),
            ("003 Ex. 8, M 2 1 2 1:", &[2, 1, 2, 1], 36),
            ("003 Ex. 10, M 4 4:", &[4, 4], 25),
            ("003 Ex. 12, M 5 5:", &[5, 5], 36),
            ("003 Ex. 14, M 16 16:", &[16, 16], 289),
        ],
    )
}

fn pairs(rt: &impl Print) -> io::Result<()> {
    let harbour = short_logs::harbour_pairs();
    show_count(rt, "000 Ex. 20, kind 08 with M 5:", lists::pair(5), 36)?;
    show_count(rt, "02 order 2, Harbour log, M 10 7 7:", harbour, 704)?;
    show_count(
        rt,
        "02 order 2, kind 08 with M 180:",
        lists::pair(180),
        32761,
    )?;
    show_too_many(rt, "02 order 2, kind 08 with M 181:", lists::pair(181))
}

pub fn of_02(rt: &impl Print) -> io::Result<()> {
    pairs(rt)?;
    show_count(
        rt,
        "02 order 2, fifteen parts with M 1:",
        lists::fifteen(),
        32768,
    )?;
    show_count(
        rt,
        "02 order 2, sixteen parts, two with M 0:",
        lists::sixteen(1),
        16384,
    )?;
    show_too_many(rt, "02 order 2, sixteen parts with M 1:", lists::sixteen(0))
}

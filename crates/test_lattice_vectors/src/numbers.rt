// Node numbers: one row of given levels, and the node that it holds.
use crate::answers::Held;
use crate::lists;
use preference::PreferenceList;
use std::io;
use test_support::short_logs::{self, run};
use test_support::show::Spaced;

// Which of so many nodes the rows hold, with a budget that is enough.
fn show_nodes<const N: usize>(
    rt: &impl Print,
    label: &str,
    list: PreferenceList,
    rows: &[[i32; 8]; N],
    nodes: &mut [u8],
    budget: u32,
) -> io::Result<()> {
    let mut marks = [238u8; N];
    let _ = lattice::run(list, rows.as_flattened(), &mut marks, nodes, budget);
    println!(rt; "{label}{}", Held(nodes))
}

// Neither of the nodes 6 and 4 dominates the other.
fn show_apart(rt: &impl Print) -> io::Result<()> {
    let rows = [run(1, 1, 0), [1, 0, 2, 0, 0, 0, 0, 0]];
    let mut marks = [238u8; 2];
    let mut nodes = [238u8; 18];
    let list = short_logs::lowest_to(&[2, 2, 1]);
    let _ = lattice::run(list, rows.as_flattened(), &mut marks, &mut nodes, 33);
    println!(rt;
        "000 Ex. 27, M 2 2 1, levels (1,0,0) and (0,2,0):{} marks{}",
        Held(&nodes),
        Spaced(&marks)
    )
}

pub fn of_000(rt: &impl Print) -> io::Result<()> {
    let cases = [
        ("000 Ex. 16, M 3 2, weight of the first:", 1, 0),
        ("000 Ex. 16, M 3 2, weight of the second:", 0, 1),
        ("000 Ex. 17, M 3 2, levels (0,2):", 0, 2),
        ("000 Ex. 17, M 3 2, levels (1,1):", 1, 1),
        ("000 Ex. 17, M 3 2, levels (2,1):", 2, 1),
    ];
    for (label, a, b) in cases {
        let mut nodes = [238u8; 12];
        let list = short_logs::lowest_to(&[3, 2]);
        show_nodes(rt, label, list, &[run(1, a, b)], &mut nodes, 17)?;
    }
    show_apart(rt)
}

// The values 0 to 10 in turn: one node for each side and level, of 36.
fn show_usable(rt: &impl Print) -> io::Result<()> {
    let mut rows = [run(1, 0, 0); 11];
    for (row, value) in rows.iter_mut().zip(0..11) {
        row[1] = value;
    }
    let mut nodes = [238u8; 36];
    let label = "000 Lemma 11, kind 08 with M 5, every value:";
    show_nodes(rt, label, lists::both_sides(), &rows, &mut nodes, 60)
}

pub fn of_02(rt: &impl Print) -> io::Result<()> {
    let cases = [
        ("02 order 2, M 3 3 2, levels (2,1) and 1:", 5, 1),
        ("02 order 2, M 3 3 2, levels (1,2) and 1:", 1, 1),
        ("02 order 2, M 3 3 2, levels (0,0) and 2:", 3, 2),
    ];
    for (label, value, level) in cases {
        let mut nodes = [238u8; 48];
        let log = [run(1, value, level)];
        show_nodes(rt, label, lists::pair_and_one(), &log, &mut nodes, 120)?;
    }
    show_usable(rt)
}

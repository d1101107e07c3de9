// Edge counts: where a row holds node 0 every node is reached, so every edge is crossed, and one crossing fewer is
// refused by 11. Beside them the bound of 000, Theorem 11.
use crate::{answers, lists};
use preference::PreferenceList;
use std::io;
use test_support::short_logs;
use test_support::show::Answer;

fn run_best(list: PreferenceList, budget: u32) -> Answer<'static> {
    let log = [1, 0, 0, 0, 0, 0, 0, 0];
    let mut marks = [238u8; 1];
    let mut nodes = [238u8; 32768];
    answers::told(lattice::run(list, &log, &mut marks, &mut nodes, budget))
}

// The edges of n nodes with these greatest levels: the level of a part is below m at m of m + 1 nodes.
pub fn bound(n: u64, tops: &[u16]) -> u64 {
    let edges_of = |top: &u16| {
        let m = u64::from(*top);
        (n / (m + 1)).saturating_mul(m)
    };
    tops.iter().map(edges_of).fold(0, u64::saturating_add)
}

fn show_edges(
    rt: &impl Print,
    label: &str,
    list: PreferenceList,
    edges: u32,
    bound: u64,
) -> io::Result<()> {
    let fewer = edges.saturating_sub(1);
    let refused = run_best(list, fewer);
    println!(rt;
        "{label}{}, {fewer}{refused}, bound {bound}",
        run_best(list, edges)
    )
}

pub fn of_000(rt: &impl Print) -> io::Result<()> {
    let cases: [(&str, &[u16], u64, u32); 4] = [
        ("000 Ex. 15, edges of M 2 2 1:", &[2, 2, 1], 18, 33),
        ("000 Ex. 15, edges of M 2 2 100:", &[2, 2, 100], 909, 2112),
        (
            "000 Ex. 15, edges of M 20 20 20:",
            &[20, 20, 20],
            9261,
            26460,
        ),
        ("000 Ex. 34, edges of M 3 2:", &[3, 2], 12, 17),
    ];
    for (label, tops, nodes, edges) in cases {
        let list = short_logs::lowest_to(tops);
        show_edges(rt, label, list, edges, bound(nodes, tops))?;
    }
    Ok(())
}

pub fn of_02(rt: &impl Print) -> io::Result<()> {
    show_edges(
        rt,
        "02 order 2, edges of fifteen parts with M 1:",
        lists::fifteen(),
        245760,
        bound(32768, &[1; 15]),
    )?;
    show_edges(
        rt,
        "02 order 2, edges of sixteen parts, two with M 0:",
        lists::sixteen(1),
        114688,
        bound(16384, &[1; 14]),
    )
}

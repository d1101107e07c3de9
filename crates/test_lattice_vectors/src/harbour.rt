// The Harbour log of document 01, and with kind 08 for AROUND (document 02, order 2): with the budget that it takes,
// and with one crossing fewer.
use crate::answers::Held;
use crate::{answers, edges};
use preference::PreferenceList;
use std::io;
use test_support::show::{Answer, Spaced};
use test_support::{lent, short_logs};

fn run_harbour(
    list: PreferenceList,
    marks: &mut [u8],
    nodes: &mut [u8],
    budget: u32,
) -> Answer<'static> {
    let rows = short_logs::harbour();
    answers::told(lattice::run(list, rows.as_flattened(), marks, nodes, budget))
}

// With a budget that is enough.
fn show_accepted(
    rt: &impl Print,
    label: &str,
    list: PreferenceList,
    nodes: &mut [u8],
    budget: u32,
    bound: u64,
) -> io::Result<()> {
    let mut marks = [238u8; 5];
    let answer = run_harbour(list, &mut marks, nodes, budget);
    println!(rt;
        "{label} budget {budget}:{answer}, bound {bound}, marks{},{}",
        Spaced(&marks),
        Held(nodes)
    )
}

// With one that is not.
fn show_refused(
    rt: &impl Print,
    label: &str,
    list: PreferenceList,
    nodes: &mut [u8],
    budget: u32,
) -> io::Result<()> {
    let mut marks = [238u8; 5];
    let answer = run_harbour(list, &mut marks, nodes, budget);
    println!(rt;
        "{label} budget {budget}:{answer} node bytes not 0 {} marks not kept {}",
        lent::changed(nodes, 0),
        lent::changed(&marks, 238)
    )
}

pub fn of_01(rt: &impl Print) -> io::Result<()> {
    let label = "01 P8, Harbour log,";
    let list = short_logs::harbour_list();
    let bound = edges::bound(88, &[10, 7]);
    let mut nodes = [238u8; 88];
    show_accepted(rt, label, list, &mut nodes, 149, bound)?;
    show_refused(rt, label, list, &mut nodes, 148)
}

pub fn of_02(rt: &impl Print) -> io::Result<()> {
    let label = "02 order 2, Harbour log,";
    let list = short_logs::harbour_pairs();
    let bound = edges::bound(704, &[10, 7, 7]);
    let mut nodes = [238u8; 704];
    show_accepted(rt, label, list, &mut nodes, 1752, bound)?;
    show_refused(rt, label, list, &mut nodes, 1751)
}

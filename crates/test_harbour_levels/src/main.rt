// Shows the levels of the Harbour log (document 01, "Harbour log and marked cases"): most cubic metres, density near
// 1,250; then the same with kind 08 for AROUND (document 02, order 2), and the sides of the runs' values.
#![tactic(auto)]

use preference::PreferenceList;
use std::io;
use test_support::{short_logs, trial};

fn show_run(rt: &impl Print, list: PreferenceList, row: usize, run: &[i32]) -> io::Result<()> {
    print!(rt; "run {row} levels")?;
    for k in 0..levels::parts(list) {
        print!(rt; " {}", levels::part_level(list, run, k))?;
    }
    println!(rt)
}

fn show_runs(rt: &impl Print, list: PreferenceList) -> io::Result<()> {
    for (row, run) in short_logs::harbour().iter().enumerate() {
        show_run(rt, list, row, run)?;
    }
    trial::show_greatest(rt, "greatest levels", list)
}

fn main(rt: HostRuntime) -> io::Result<()> {
    let rows = short_logs::harbour();
    let metres = rows.map(|run| run[1]);
    let densities = rows.map(|run| run[2]);
    let one = short_logs::harbour_list();
    let two = short_logs::harbour_pairs();
    show_runs(&rt, one)?;
    println!(rt; "with kind 08")?;
    show_runs(&rt, two)?;
    trial::show_levels_at(&rt, "cubic metres:", one, 0, &metres)?;
    trial::show_levels_at(&rt, "density by AROUND:", one, 1, &densities)?;
    trial::show_levels_at(&rt, "density by kind 08:", two, 1, &densities)
}

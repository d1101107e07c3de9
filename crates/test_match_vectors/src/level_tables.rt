// Tables of levels: LOWEST over 0 to M by 1 on columns 1, 2 and 3, where a value is its own level.
use crate::matches;
use std::io;
use test_support::short_logs;

fn levels_of(a: i32, b: i32, c: i32) -> [i32; 8] {
    [1, a, b, c, 0, 0, 0, 0]
}

fn show_example_6(rt: &impl Print) -> io::Result<()> {
    let list = short_logs::lowest_to(&[4, 4]);
    let values = [(1, 1), (1, 2), (2, 1), (0, 4)];
    let rows = values.map(|(a, b)| levels_of(a, b, 0));
    matches::show_matches(rt, "000 Ex. 6:", list, &rows)?;
    matches::show_sums(rt, "000 Ex. 6, level sums:", list, &values)
}

fn show_table_6_3(rt: &impl Print) -> io::Result<()> {
    let list = short_logs::lowest_to(&[3, 1, 2]);
    let rows = [
        levels_of(0, 1, 2),
        levels_of(0, 1, 1),
        levels_of(1, 0, 2),
        levels_of(1, 1, 0),
        levels_of(2, 0, 0),
        levels_of(3, 0, 1),
    ];
    matches::show_matches(rt, "000 Table 6.3:", list, &rows)
}

pub fn of_000(rt: &impl Print) -> io::Result<()> {
    show_example_6(rt)?;
    show_table_6_3(rt)
}

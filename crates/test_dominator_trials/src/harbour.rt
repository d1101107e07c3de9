// The Harbour log, row by row, and its row 3 with kind 08 for AROUND.
use preference::PreferenceList;
use std::io;
use test_support::show::Answer;
use test_support::{lent, short_logs};

// What the question about each of these rows comes back as.
fn show_rows(
    rt: &impl Print,
    list: PreferenceList,
    log: &[i32],
    rows: &[(&str, u32)],
) -> io::Result<()> {
    for (label, row) in rows {
        let answer = dominator::of(list, log, *row);
        println!(rt; "{label}:{}", Answer("beaten by row", answer))?;
    }
    Ok(())
}

// Past the log, and with a value outside its bounds, which comes first.
fn refusals(rt: &impl Print) -> io::Result<()> {
    let list = short_logs::harbour_list();
    let mut rows = short_logs::harbour();
    let log = rows.as_flattened();
    show_rows(
        rt,
        list,
        log,
        &[("row 5", 5), ("row 4294967295", 4294967295)],
    )?;
    show_rows(rt, list, lent::front(log, 39), &[("39 numbers, row 0", 0)])?;
    rows[1][1] = 1001;
    let stray = [
        ("1001 cubic metres, row 0", 0),
        ("1001 cubic metres, row 5", 5),
    ];
    show_rows(rt, list, rows.as_flattened(), &stray)
}

pub fn all(rt: &impl Print) -> io::Result<()> {
    let rows = short_logs::harbour();
    let log = rows.as_flattened();
    let each = [
        ("row 0", 0),
        ("row 1", 1),
        ("row 2", 2),
        ("row 3", 3),
        ("row 4", 4),
    ];
    show_rows(rt, short_logs::harbour_list(), log, &each)?;
    show_rows(
        rt,
        short_logs::harbour_pairs(),
        log,
        &[("row 3 with kind 08", 3)],
    )?;
    refusals(rt)
}

// Tries the window engine on short logs that tell wrong machines apart, on P10, P11 and the Harbour log, and on calls
// that are refused. The file stdout holds what documents 01 and 02 say of them.
#![tactic(auto)]

use calls::ENOUGH;
use preference::PreferenceList;
use std::io;
use test_support::lent;
use test_support::room::{Call, Room};
use test_support::short_logs::{self, run};

mod calls;

// LOWEST over 0 to the greatest level by 1 on columns 1 and 2.
fn show_small(
    rt: &impl Print,
    label: &str,
    greatest: u16,
    rows: &[[i32; 8]],
    w: u32,
) -> io::Result<()> {
    let call = Call {
        list: short_logs::lowest_to(&[greatest, greatest]),
        log: rows.as_flattened(),
        w,
        room: Room {
            marks: rows.len(),
            work: 16,
        },
    };
    calls::show(rt, label, call)
}

// The newest entry compared first makes three compares of the first; 000's release at the end of a pass five of the
// second; late release marks row 2 of the third; P10 tells the machine that ends or forgets.
fn small(rt: &impl Print) -> io::Result<()> {
    let first = [run(1, 0, 1), run(1, 1, 0), run(1, 0, 2)];
    let second = [run(1, 0, 1), run(1, 0, 1), run(1, 0, 0), run(1, 0, 0)];
    let third = [run(1, 0, 1), run(1, 1, 0), run(1, 2, 0)];
    let tenth = [run(1, 2, 1), run(1, 1, 2), run(1, 0, 5), run(1, 1, 1)];
    show_small(rt, "(0,1)(1,0)(0,2) w 2", 2, &first, 2)?;
    show_small(rt, "(0,1)(0,1)(0,0)(0,0) w 1", 5, &second, 1)?;
    show_small(rt, "(0,1)(1,0)(2,0) w 1", 2, &third, 1)?;
    show_small(rt, "P10 (2,1)(1,2)(0,5)(1,1) w 2", 5, &tenth, 2)
}

// The least work list that a window of 1 takes.
fn no_rows(rt: &impl Print) -> io::Result<()> {
    let call = Call {
        list: short_logs::lowest_to(&[2, 2]),
        log: &[],
        w: 1,
        room: Room { marks: 0, work: 2 },
    };
    calls::show(rt, "P11 no run, w 1", call)
}

// The Harbour log with room for every window.
fn show_windows(
    rt: &impl Print,
    label: &str,
    list: PreferenceList,
    windows: &[u32],
) -> io::Result<()> {
    let rows = short_logs::harbour();
    for w in windows {
        let call = Call {
            list,
            log: rows.as_flattened(),
            w: *w,
            room: ENOUGH,
        };
        calls::show(rt, format_args!("{label}, w {w}"), call)?;
    }
    Ok(())
}

fn windows(rt: &impl Print) -> io::Result<()> {
    let all = [1, 2, 3, 4, 5, 6, 1024, 0, 1025, u32::MAX];
    show_windows(rt, "Harbour log", short_logs::harbour_list(), &all)?;
    let pairs = short_logs::harbour_pairs();
    show_windows(rt, "Harbour log with kind 08", pairs, &[1, 2, 4])
}

// The Harbour log with one figure changed, in lists of these lengths.
fn show_lent(
    rt: &impl Print,
    label: &str,
    cubic_metres: i32,
    marks: usize,
    work: usize,
    w: u32,
) -> io::Result<()> {
    let mut rows = short_logs::harbour();
    rows[1][1] = cubic_metres;
    let call = Call {
        list: short_logs::harbour_list(),
        log: rows.as_flattened(),
        w,
        room: Room { marks, work },
    };
    calls::show(rt, label, call)
}

fn rooms(rt: &impl Print) -> io::Result<()> {
    show_lent(rt, "Harbour log, 4 marks", 1000, 4, 12, 1)?;
    show_lent(rt, "Harbour log, work list of 11, w 1", 1000, 5, 11, 1)?;
    show_lent(rt, "Harbour log, 1001 cubic metres", 1001, 5, 12, 1)?;
    show_lent(rt, "Harbour log, 1001 cubic metres, w 0", 1001, 5, 12, 0)?;
    show_lent(rt, "Harbour log, work list of 12, w 1", 1000, 5, 12, 1)
}

fn odd_log(rt: &impl Print) -> io::Result<()> {
    let rows = short_logs::harbour();
    let call = Call {
        list: short_logs::harbour_list(),
        log: lent::front(rows.as_flattened(), 39),
        w: 1,
        room: Room { marks: 5, work: 16 },
    };
    calls::show(rt, "Harbour log, 39 numbers", call)
}

fn main(rt: HostRuntime) -> io::Result<()> {
    small(&rt)?;
    no_rows(&rt)?;
    windows(&rt)?;
    rooms(&rt)?;
    odd_log(&rt)
}

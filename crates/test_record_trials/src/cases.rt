// Streams that are made to be refused. A line prints the number, the place, and the rows read.
use crate::streams;
use std::alloc::{AllocError, Global};
use std::io;
use test_support::lent;

const ROOM: usize = 8200;

// Reads into a log of so many numbers.
fn show_read(rt: &impl Print, label: &str, stream: &[u8], room: usize) -> io::Result<()> {
    let mut log = [0i32; ROOM];
    match stream_reader::read(stream, &mut log[..room.min(ROOM)]) {
        Ok(read) => println!(rt; "{label} 0 {} {}", read.place, read.rows),
        Err(refused) => {
            let number = u8::from(refused.refusal);
            println!(rt; "{label} {number} {} 0", refused.place)
        }
    }
}

fn show_each(rt: &impl Print, cases: &[(&str, &[u8])]) -> io::Result<()> {
    for (label, stream) in cases {
        show_read(rt, *label, *stream, ROOM)?;
    }
    Ok(())
}

// The same of the first bytes of a stream.
fn show_fronts(rt: &impl Print, stream: &[u8], cases: &[(&str, usize)]) -> io::Result<()> {
    for (label, length) in cases {
        show_read(rt, *label, lent::front(stream, *length), ROOM)?;
    }
    Ok(())
}

// The examples of document 01's table.
fn table(rt: &impl Print) -> io::Result<()> {
    show_each(
        rt,
        &[
            ("empty stream:", b""),
            ("09:", &[9]),
            ("06 00 00 00 00 00:", &[6, 0, 0, 0, 0, 0]),
            ("05 00:", &[5, 0]),
            ("05 08 01 00:", &[5, 8, 1, 0]),
            ("05 00 01 02:", &[5, 0, 1, 2]),
        ],
    )
}

// P5: LOWEST over every value by 65,536; and by 65,537, which is accepted.
fn places(rt: &impl Print) -> io::Result<()> {
    show_each(
        rt,
        &[
            ("P5:", &[1, 0, 0, 0, 0, 128, 255, 255, 255, 127, 0, 0, 1, 0]),
            ("P4:", &[1, 0, 0, 0, 0, 128, 255, 255, 255, 127, 1, 0, 1, 0]),
            ("a second record refused:", &[5, 0, 1, 0, 5, 0, 1, 0]),
            (
                "a named value after its wish:",
                &[5, 0, 1, 0, 6, 7, 0, 0, 0, 1],
            ),
            (
                "a named value's layer above the top:",
                &[5, 0, 1, 0, 6, 7, 0, 0, 0, 2],
            ),
        ],
    )
}

// Kind 08 of document 02: a wish like BETWEEN, on which no named value follows.
fn both_sides(rt: &impl Print) -> io::Result<()> {
    show_fronts(
        rt,
        &streams::BOTH_SIDES,
        &[
            ("kind 08:", 22),
            ("kind 08, cut:", 21),
            ("a named value after kind 08:", 28),
        ],
    )
}

// 2 before 3, 3 before 4, 4 before 5, 5 before 6.
fn records(rt: &impl Print) -> io::Result<()> {
    let mut after_run = [0u8; 41];
    after_run[..5].copy_from_slice(&[5, 0, 1, 0, 7]);
    after_run[37..].copy_from_slice(&[5, 1, 1, 0]);
    show_each(
        rt,
        &[
            ("00 first:", &[0]),
            ("a cut named value first:", &[6]),
            ("a cut run first:", &[7]),
            ("a cut wish on a taken column:", &[5, 0, 1, 0, 5, 0, 1]),
            ("a wish after a run:", &after_run),
            ("a taken column with bad layers:", &[5, 0, 1, 0, 5, 0, 0, 9]),
        ],
    )
}

// ---- long streams

fn append(stream: &mut Vec<u8>, record: &[u8], times: usize) -> Result<(), AllocError> {
    for _ in 0..times {
        stream.extend_from_slice(record)?;
    }
    Ok(())
}

const LAYERED: [u8; 4] = [5, 7, 1, 0];

const NAME: [u8; 6] = [6, 7, 0, 0, 0, 1];

const RUN: [u8; 33] = [7; 33];

// 64 and 65 named values; cut short, they are 4 before 7.
fn counts(rt: &impl Print, alloc: Global) -> io::Result<()> {
    let mut stream = Vec::new(alloc);
    append(&mut stream, &LAYERED, 1)?;
    append(&mut stream, &NAME, 65)?;
    show_fronts(
        rt,
        stream.as_slice(),
        &[
            ("64 named values:", 388),
            ("65 named values:", 394),
            ("65 named values, the last cut:", 393),
        ],
    )?;
    if let Some(layer) = stream.last_mut() {
        *layer = 2;
    }
    show_read(
        rt,
        "65 named values, the last too high:",
        stream.as_slice(),
        ROOM,
    )
}

// 1,024 and 1,025 runs.
fn logs(rt: &impl Print, alloc: Global) -> io::Result<()> {
    let mut stream = Vec::new(alloc);
    append(&mut stream, &LAYERED, 1)?;
    append(&mut stream, &RUN, 1025)?;
    let all = stream.as_slice();
    let fewer = lent::front(all, 33796);
    show_read(rt, "1,024 runs:", fewer, ROOM)?;
    show_read(rt, "1,024 runs, a log of 8,191:", fewer, 8191)?;
    show_fronts(
        rt,
        all,
        &[("1,025 runs:", 33829), ("1,025 runs, the last cut:", 33828)],
    )?;
    show_read(rt, "the Harbour log into 40:", &streams::HARBOUR, 40)?;
    show_read(rt, "the Harbour log into 39:", &streams::HARBOUR, 39)
}

// Seven wishes of 22 bytes, a LAYERED one of 4, 64 named values of 6 and 1,024 runs of 33; then one byte more.
fn longest(rt: &impl Print, alloc: Global) -> io::Result<()> {
    let mut stream = Vec::new(alloc);
    for column in 0..7 {
        append(&mut stream, &[4, column, 0, 0, 0, 0, 0, 0, 0, 0, 1], 1)?;
        append(&mut stream, &[0; 11], 1)?;
    }
    append(&mut stream, &LAYERED, 1)?;
    append(&mut stream, &NAME, 64)?;
    append(&mut stream, &RUN, 1024)?;
    append(&mut stream, &[0], 1)?;
    show_fronts(
        rt,
        stream.as_slice(),
        &[
            ("the longest stream:", 34334),
            ("the longest stream and a byte:", 34335),
        ],
    )
}

pub fn all(rt: &(impl Print + AllocGlobal)) -> io::Result<()> {
    table(rt)?;
    places(rt)?;
    both_sides(rt)?;
    records(rt)?;
    counts(rt, rt.alloc())?;
    logs(rt, rt.alloc())?;
    longest(rt, rt.alloc())
}

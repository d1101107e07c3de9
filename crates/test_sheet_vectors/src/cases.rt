// How long sheets are, where pages end, and the checks in their order: 10 for lengths, then 14 for marks, then 15 for
// output.
use crate::calls::{self, LONGEST};
use std::io;
use test_support::lent;

// A log of so many numbers, all of them 0.
fn zeros(
    rt: &impl Print,
    numbers: usize,
    marks: &[u8],
    room: usize,
    from: Option<usize>,
) -> io::Result<()> {
    let log = [0i32; 8200];
    calls::show(rt, lent::front(&log, numbers), marks, room, from)
}

// So many runs, all of them marked.
fn runs(rt: &impl Print, cases: &[(u16, usize, Option<usize>)]) -> io::Result<()> {
    let marks = [1u8; 1025];
    for (n, room, from) in cases {
        zeros(rt, 8 * usize::from(*n), &marks, *room, *from)?;
    }
    Ok(())
}

// So many numbers, these marks and so much output.
fn marked(rt: &impl Print, cases: &[(usize, &[u8], usize)]) -> io::Result<()> {
    for (numbers, marks, room) in cases {
        zeros(rt, *numbers, *marks, *room, None)?;
    }
    Ok(())
}

// The empty sheet is shown whole, that of 51 runs from the last of page 1 on, that of 1,024 from the last.
fn lengths(rt: &impl Print) -> io::Result<()> {
    runs(
        rt,
        &[
            (0, LONGEST, Some(0)),
            (1, LONGEST, None),
            (49, LONGEST, None),
            (50, LONGEST, None),
            (51, LONGEST, Some(5100)),
            (100, LONGEST, None),
            (101, LONGEST, None),
            (1024, LONGEST, Some(108528)),
        ],
    )
}

// A call that several checks refuse comes back with the first of them; mark bytes past the rows are not looked at.
fn order(rt: &impl Print) -> io::Result<()> {
    marked(rt, &[(15, &[2, 2, 2], 0)])?;
    runs(rt, &[(1025, 0, None), (1025, LONGEST, None)])?;
    marked(
        rt,
        &[
            (16, &[2], 0),
            (16, &[1], 408),
            (16, &[1, 2], 0),
            (16, &[1, 2], 408),
            (16, &[255, 0], 0),
            (16, &[1, 1, 2], 407),
            (16, &[1, 1, 2], 408),
        ],
    )
}

// One byte too short, and long enough.
fn rooms(rt: &impl Print) -> io::Result<()> {
    runs(
        rt,
        &[
            (0, 203, None),
            (0, 204, None),
            (50, 5303, None),
            (50, 5304, None),
            (51, 5609, None),
            (51, 5610, None),
            (1024, 108731, None),
        ],
    )
}

pub fn all(rt: &impl Print) -> io::Result<()> {
    lengths(rt)?;
    order(rt)?;
    rooms(rt)
}

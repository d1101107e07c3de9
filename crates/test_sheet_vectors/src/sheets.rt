// Sheets as text: the Harbour log's, and numbers at both ends of the range.
use crate::calls::{self, LONGEST};
use std::io;
use test_support::short_logs;

fn show_sheet(rt: &impl Print, rows: &[[i32; 8]], marks: &[u8]) -> io::Result<()> {
    calls::show(rt, rows.as_flattened(), marks, LONGEST, Some(0))
}

// Hours on both sides of 0 and of a whole one, and both ends of the range.
const ENDS: [i32; 12] = [
    -5,
    -100,
    -1,
    99,
    i32::MIN,
    i32::MAX,
    0,
    5,
    -99,
    -101,
    100,
    -1000000000,
];

pub fn all(rt: &impl Print) -> io::Result<()> {
    show_sheet(rt, &short_logs::harbour(), &[1, 1, 1, 0, 1])?;
    // A row of each end, in every column.
    show_sheet(rt, &ENDS.map(|end| [end; 8]), &[1; 12])
}

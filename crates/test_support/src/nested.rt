// Refusal 8 and marks, by comparing every row with every row.
use crate::levels_apart;
use constructor::Constructor;
use preference::PreferenceList;
use std::alloc::{AllocError, Global};

// ---- values outside their bounds

fn is_outside(c: Constructor, v: i32) -> bool {
    levels_apart::range_of(c).is_some_and(|range| !range.contains(&v))
}

fn row_strays(list: PreferenceList, row: &[i32; 8]) -> bool {
    levels_apart::wishes(&list).iter().any(|wish| is_outside(
        wish.constructor,
        levels_apart::value(row, wish.column),
    ))
}

// Whether 8 is due.
pub fn strays(list: PreferenceList, rows: &[[i32; 8]]) -> bool {
    rows.iter().any(|row| row_strays(list, row))
}

// ---- rows

// The level vector of each row.
pub fn table_of(
    alloc: Global,
    list: PreferenceList,
    rows: &[[i32; 8]],
) -> Result<Vec<Vec<u32>>, AllocError> {
    rows.iter()
        .map(|row| levels_apart::levels_of(alloc, list, row))
        .try_collect(alloc)
}

// Whether a level vector is nowhere above another, and somewhere below it.
pub fn beats(a: &[u32], b: &[u32]) -> bool {
    a.iter().zip(b).all(|(p, q)| p <= q) && a != b
}

pub fn is_beaten(table: &[Vec<u32>], levels: &[u32]) -> bool {
    table.iter().any(|other| beats(other.as_slice(), levels))
}

// The mark of each row.
pub fn marks_of(alloc: Global, table: &[Vec<u32>]) -> Result<Vec<u8>, AllocError> {
    table
        .iter()
        .map(|levels| u8::from(!is_beaten(table, levels.as_slice())))
        .collect(alloc)
}

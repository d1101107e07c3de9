// Logs and marks from a seed: up to 200 rows; from none of them marked, by eighths, to all.
ghost use Rattle.std.specs.Prelude.{◌≤◌};

use crate::apart::Run;
use std::alloc::{AllocError, Global};
use std::array;
use test_support::figures::Seed;

// The mark bytes that each call is lent: eight more than the most rows.
const MARK_BYTES: usize = 208;

pub fn rows_of(seed: Seed) -> u16
    ensures { result ≤ 200 }
{
    seed.upto(2, 200)
}

// One of four figures that a number of the log is made of, from 0 to n.
fn drawn(seed: Seed, at: u32, part: u32, n: u16) -> u32
    ensures { result ≤ n }
{
    let salt = at.wrapping_mul(4).wrapping_add(part);
    u32::from(seed.upto(salt.wrapping_add(1000), n))
}

// A number of 31 bits: any, one of 16 bits, a small one, or one of the greatest.
fn size_at(seed: Seed, at: u32) -> u32 {
    match drawn(seed, at, 0, 6) {
        0 | 1 => (drawn(seed, at, 1, 32767) << 16) | drawn(seed, at, 2, 65535),
        2 | 3 => drawn(seed, at, 1, 65535),
        4 | 5 => drawn(seed, at, 1, 150),
        _ => 2147483647u32.saturating_sub(drawn(seed, at, 1, 4)),
    }
}

// A number of the log: such a one, or the negative one that is as far below -1.
fn value_at(seed: Seed, at: u32) -> i32 {
    let size = size_at(seed, at);
    if drawn(seed, at, 3, 9) < 5 {
        size.cast_signed()
    } else {
        (!size).cast_signed()
    }
}

fn row_of(seed: Seed, row: u16) -> [i32; 8] {
    array::from_fn(|column| value_at(seed, 8 * u32::from(row) + (column % 8) as u32))
}

fn mark_of(seed: Seed, row: u16) -> u8 {
    let turn = seed.upto(100000 + u32::from(row), 23);
    u8::from(turn < 3 * seed.upto(3, 8))
}

#[derive(Drop)]
pub struct Marked {
    pub rows: Vec<[i32; 8]>,
    pub marks: Vec<u8>,
}

impl Marked {
    pub fn new(alloc: Global, seed: Seed) -> Result<Marked, AllocError> {
        let mut rows = Vec::new(alloc);
        let mut marks = Vec::new(alloc);
        for row in 0..rows_of(seed) {
            rows.push(row_of(seed, row))?;
            marks.push(mark_of(seed, row))?;
        }
        // Bytes past the rows, which are no marks.
        marks.resize(MARK_BYTES, 7)?;
        Ok(Marked { rows, marks })
    }

    // The marked runs.
    pub fn runs(&self, alloc: Global) -> Result<Vec<Run>, AllocError> {
        let mut runs = Vec::new(alloc);
        for (row, (values, mark)) in self.rows.iter().zip(self.marks.iter()).enumerate() {
            if *mark == 1 {
                runs.push(Run {
                    row,
                    values: *values,
                })?;
            }
        }
        Ok(runs)
    }
}

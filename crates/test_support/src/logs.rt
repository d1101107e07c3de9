// Logs of up to 40 rows. About one in eight has a value that its preference refuses by 8.
ghost use Rattle.std.specs.Prelude.{◌≤◌};

use crate::figures::Seed;
use crate::lists::{self, Column};
use preference::PreferenceList;
use std::alloc::{AllocError, Global};
use std::array;

pub fn rows_of(seed: Seed) -> u16
    ensures { result ≤ 40 }
{
    seed.upto(2, 40)
}

// The row and the column of the value that lies outside; where it falls on LAYERED, no value does.
fn is_stray(seed: Seed, row: u16, column: Column) -> bool {
    let place = seed.below(7, u32::from(lists::count_of(seed)));
    seed.below(5, 6) == 0
        && u32::from(row) == seed.below(6, u32::from(rows_of(seed)))
        && column.number() == Column::at(seed, place as usize).number()
}

// One to four below lo, or above hi.
fn outside(seed: Seed, column: Column) -> i32 {
    let far = i32::from(seed.upto(8, 3)) + 1;
    if seed.upto(9, 1) == 0 {
        i32::from(column.lo()) - far
    } else {
        i32::from(column.lo() + column.width()) + far
    }
}

fn inside(row: u16, column: Column) -> i32 {
    let far = column.upto(1000 + 8 * u32::from(row), column.width());
    i32::from(column.lo() + far)
}

fn row_of(seed: Seed, row: u16) -> [i32; 8] {
    array::from_fn(|number| {
        let column = Column::new(seed, number);
        if is_stray(seed, row, column) {
            outside(seed, column)
        } else {
            inside(row, column)
        }
    })
}

// A list, and a log for it.
#[derive(Drop)]
pub struct Generated {
    pub list: PreferenceList,
    pub rows: Vec<[i32; 8]>,
}

impl Generated {
    pub fn new(alloc: Global, seed: Seed) -> Result<Generated, AllocError> {
        let rows = (0..rows_of(seed)).map(|row| row_of(seed, row));
        Ok(Generated {
            list: lists::list_of(seed),
            rows: rows.collect(alloc)?,
        })
    }

    pub fn numbers(&self) -> &[i32] {
        self.rows.as_slice().as_flattened()
    }

    // How many rows, as a call counts them.
    pub fn row_count(&self) -> u32 {
        u32::try_from(self.rows.len()).unwrap_or(u32::MAX)
    }
}

// All logs of three rows with few values, each with the windows 1, 2 and 3.
ghost use Rattle.std.specs.Prelude.{◌<◌, ◌≤◌};

use crate::windows::{self, Windows};
use std::alloc::{AllocError, Global};
use std::io;
use test_support::short_logs::run;
use test_support::{counts, nested, trial};

const WINDOWS: [u32; 3] = [1, 2, 3];

// The three digits of a number, highest first: one for each row.
fn digits(number: u32, base: u32) -> [u8; 3]
    requires { (0 < base) × (base ≤ 10) }
{
    let places = [number / base / base, number / base, number];
    places.map(|place| (place % base) as u8)
}

// A log with levels 0 to 2 under two LOWEST wishes: a row's digit gives both.
fn try_lowest(alloc: Global, number: u32) -> Result<Windows, AllocError> {
    let wishes = [(1, trial::lowest(0, 2, 1)), (2, trial::lowest(0, 2, 1))];
    let mut rows = Vec::new(alloc);
    let mut table = Vec::new(alloc);
    for digit in digits(number, 9) {
        let (a, b) = (digit / 3, digit % 3);
        rows.push(run(1, i32::from(a), i32::from(b)))?;
        table.push(vec![in alloc; u32::from(a), u32::from(b)]?)?;
    }
    let list = trial::list(&wishes);
    windows::try_windows(alloc, list, rows.as_slice(), table.as_slice(), &WINDOWS)
}

// A log with values 0 to 4 under kind 08, wished at 2, and 0 or 1 under LOWEST.
fn try_pairs(alloc: Global, number: u32) -> Result<Windows, AllocError> {
    let list = trial::list(&[
        (1, trial::between_trivial(0, 4, 1, 2, 2)),
        (2, trial::lowest(0, 1, 1)),
    ]);
    let rows = digits(number, 10).map(|digit| run(1, i32::from(digit / 2), i32::from(digit % 2)));
    let table = nested::table_of(alloc, list, &rows)?;
    windows::try_windows(alloc, list, &rows, table.as_slice(), &WINDOWS)
}

// So many logs, each by its number.
fn show<F: Fn(u32) -> Result<Windows, AllocError>>(
    rt: &(impl Print + AllocGlobal),
    label: &str,
    count: u32,
    try_log: F,
) -> io::Result<()>
    requires { (state : F) (number : _) → F.pre state number }
{
    let tried: Vec<Windows> = (0..count).map(try_log).try_collect(rt.alloc())?;
    let tried = tried.as_slice();
    println!(rt;
        "{label} {} windows 3 best {} differing {}",
        tried.len(),
        counts::total(tried, |t| t.figures.best),
        counts::total(tried, |t| t.differing)
    )
}

pub fn all(rt: &(impl Print + AllocGlobal)) -> io::Result<()> {
    let alloc = rt.alloc();
    show(rt, "logs", 729, |number| try_lowest(alloc, number))?;
    show(
        rt,
        "logs of kind 08",
        1000,
        |number| try_pairs(alloc, number),
    )
}

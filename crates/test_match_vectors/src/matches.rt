// One line for a table: the marks by both engines, and for each row that is beaten a best row that beats it.
use preference::PreferenceList;
use refusal::Refusal;
use std::io;
use test_support::lent;
use test_support::show::{Refused, Spaced};

fn lattice_marks(list: PreferenceList, log: &[i32], marks: &mut [u8]) -> Result<u32, Refusal> {
    let mut nodes = [238u8; 32768];
    lattice::run(list, log, marks, &mut nodes, 262144)
}

fn window_marks(
    list: PreferenceList,
    log: &[i32],
    marks: &mut [u8],
    w: u32,
) -> Result<u32, Refusal> {
    let mut work = [0u32; 160];
    window::run(list, log, marks, &mut work, w)
}

// The marks of so many rows that an engine leaves, or its refusal.
fn show_marks<F: FnOnce(&mut [u8]) -> Result<u32, Refusal>>(
    rt: &impl Print,
    label: &str,
    rows: usize,
    engine: F,
) -> io::Result<()>
    requires { F.IsAlwaysCallable engine }
{
    let mut marks = [238u8; 8];
    match engine(&mut marks) {
        Ok(_) => print!(rt; " {label}{}", Spaced(lent::front(&marks, rows))),
        Err(refusal) => print!(rt; " {label} {}", Refused(refusal)),
    }
}

// A row on the shortlist that beat it, which one is free; `best` where the row is on it itself.
fn show_dominator(rt: &impl Print, list: PreferenceList, log: &[i32], row: u32) -> io::Result<()> {
    match dominator::of(list, log, row) {
        Ok(by) => print!(rt; " {by}"),
        Err(Refusal::Shortlisted) => print!(rt; " best"),
        Err(refusal) => print!(rt; " {}", Refused(refusal)),
    }
}

pub fn show_matches(
    rt: &impl Print,
    label: &str,
    list: PreferenceList,
    rows: &[[i32; 8]],
) -> io::Result<()> {
    let log = rows.as_flattened();
    print!(rt; "{label}")?;
    show_marks(
        rt,
        "lattice",
        rows.len(),
        |marks| lattice_marks(list, log, marks),
    )?;
    show_marks(
        rt,
        "window",
        rows.len(),
        |marks| window_marks(list, log, marks, 64),
    )?;
    print!(rt; " beaten by")?;
    for (row, _) in (0..u32::MAX).zip(rows) {
        show_dominator(rt, list, log, row)?;
    }
    println!(rt)
}

// The compares that the window engine makes with windows of 2 and of 8.
pub fn show_windows(
    rt: &impl Print,
    label: &str,
    list: PreferenceList,
    rows: &[[i32; 8]],
) -> io::Result<()> {
    print!(rt; "{label}")?;
    for w in [2, 8] {
        let mut marks = [238u8; 8];
        match window_marks(list, rows.as_flattened(), &mut marks, w) {
            Ok(n) => print!(rt; " w {w} {n}")?,
            Err(refusal) => print!(rt; " w {w} {}", Refused(refusal))?,
        }
    }
    println!(rt)
}

// The sums of the levels of rows: of a value at place 0 and one at place 1.
pub fn show_sums(
    rt: &impl Print,
    label: &str,
    list: PreferenceList,
    values: &[(i32, i32)],
) -> io::Result<()> {
    print!(rt; "{label}")?;
    for (a, b) in values {
        match (levels::level(list, 0, *a), levels::level(list, 1, *b)) {
            (Ok(a), Ok(b)) => print!(rt; " {}", u64::from(a.level) + u64::from(b.level))?,
            (Err(refusal), _) | (_, Err(refusal)) => print!(rt; " {}", Refused(refusal))?,
        }
    }
    println!(rt)
}

// Every row of generated logs: 13 is due exactly where it is marked, else a row that is marked and beats it.
use refusal::Refusal;
use std::alloc::{AllocError, Global};
use std::io;
use test_support::figures::{Seed, Seeds};
use test_support::logs::Generated;
use test_support::tried::{Accepted, Tried};
use test_support::{counts, levels_apart, nested};

const LOGS: u32 = 400;

// The rows of a log, and those on the shortlist.
#[derive(Clone, Copy)]
struct Rows {
    all: usize,
    best: usize,
}

fn answer_of(log: &Generated, row: u32) -> Result<u32, Refusal> {
    dominator::of(log.list, log.numbers(), row)
}

fn is_marked(marks: &[u8], row: u32) -> bool {
    marks.get(row as usize) == Some(&1)
}

fn beats(table: &[Vec<u32>], by: u32, row: u32) -> bool {
    match (table.get(by as usize), table.get(row as usize)) {
        (Some(best), Some(other)) => nested::beats(best.as_slice(), other.as_slice()),
        _ => false,
    }
}

fn is_due(answer: Result<u32, Refusal>, table: &[Vec<u32>], marks: &[u8], row: u32) -> bool {
    match answer {
        Ok(by) => !is_marked(marks, row) && is_marked(marks, by) && beats(table, by, row),
        Err(refusal) => refusal == Refusal::Shortlisted && is_marked(marks, row),
    }
}

// A log with a value outside its bounds: 8, of a row and past the rows.
fn refused(log: &Generated) -> Tried<Rows> {
    let agreed = answer_of(log, 0) == Err(Refusal::OutsideBounds)
        && answer_of(log, log.row_count()) == Err(Refusal::OutsideBounds);
    Tried {
        accepted: None,
        differing: usize::from(!agreed),
    }
}

// Any other log: what is due of each row, and 12 past them.
fn try_accepted(alloc: Global, log: &Generated) -> Result<Tried<Rows>, AllocError> {
    let table = nested::table_of(alloc, log.list, log.rows.as_slice())?;
    let marks = nested::marks_of(alloc, table.as_slice())?;
    let rows = log.row_count();
    let differing = (0..rows)
        .filter(|row| !is_due(
            answer_of(log, *row),
            table.as_slice(),
            marks.as_slice(),
            *row,
        ))
        .count();
    let past = usize::from(answer_of(log, rows) != Err(Refusal::NoSuchRow));
    let accepted = Accepted {
        parts: levels_apart::tops_of(alloc, log.list)?.len(),
        figures: Rows {
            all: rows as usize,
            best: marks.iter().filter(|mark| **mark == 1).count(),
        },
    };
    Ok(Tried {
        accepted: Some(accepted),
        differing: differing.saturating_add(past),
    })
}

fn try_log(alloc: Global, seed: Seed) -> Result<Tried<Rows>, AllocError> {
    let log = Generated::new(alloc, seed)?;
    if nested::strays(log.list, log.rows.as_slice()) {
        Ok(refused(&log))
    } else {
        try_accepted(alloc, &log)
    }
}

pub fn all(rt: &(impl Print + AllocGlobal)) -> io::Result<()> {
    let alloc = rt.alloc();
    let tried: Vec<Tried<Rows>> = Seeds::new(LOGS)
        .map(|seed| try_log(alloc, seed))
        .try_collect(alloc)?;
    let tried = tried.as_slice();
    println!(rt;
        "generated logs {} refused 8: {} sixteen parts: {} rows {} refused 13: {} differing {}",
        tried.len(),
        counts::total(tried, |t| usize::from(t.accepted.is_none())),
        counts::total(tried, |t| usize::from(t.has_sixteen())),
        counts::total(tried, |t| t.accepted.map_or(0, |log| log.figures.all)),
        counts::total(tried, |t| t.accepted.map_or(0, |log| log.figures.best)),
        counts::total(tried, |t| t.differing)
    )
}

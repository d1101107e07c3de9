// Generated logs: what the engine comes back as and leaves in the lent bytes, against the model. Marks and node bytes
// are lent longer than needed, so that what lies past the ends is compared too.
use crate::model;
use refusal::Refusal;
use std::alloc::{AllocError, Global};
use std::io;
use test_support::figures::{Seed, Seeds};
use test_support::logs::Generated;
use test_support::{lent, levels_apart, nested};

const LOGS: u32 = 1000;

// What the lent bytes hold before a call.
const KEPT: u8 = 238;

const MARKS: usize = 48;

const NODES: usize = 32776;

// Whether the engine comes back as is due and leaves these marks and node bytes.
fn leaves(
    log: &Generated,
    budget: u32,
    due: Result<u32, Refusal>,
    due_marks: &[u8],
    due_nodes: &[u8],
) -> bool {
    let mut marks = [KEPT; MARKS];
    let mut nodes = [KEPT; NODES];
    let answer = lattice::run(log.list, log.numbers(), &mut marks, &mut nodes, budget);
    answer == due && lent::holds(&marks, due_marks, KEPT) && lent::holds(&nodes, due_nodes, KEPT)
}

// Whether the engine, lent so many mark and node bytes, refuses for this and keeps every byte.
fn refuses(log: &Generated, refusal: Refusal, marks_lent: usize, nodes_lent: usize) -> bool {
    let mut marks = [KEPT; MARKS];
    let mut nodes = [KEPT; NODES];
    let answer = lattice::run(
        log.list,
        log.numbers(),
        &mut marks[..marks_lent.min(MARKS)],
        &mut nodes[..nodes_lent.min(NODES)],
        u32::MAX,
    );
    answer == Err(refusal) && lent::changed(&marks, KEPT) == 0 && lent::changed(&nodes, KEPT) == 0
}

// Marks one byte short of the rows, which comes before 8 and 9.
fn refuses_marks(log: &Generated) -> bool {
    match log.rows.len() {
        0 => true,
        rows => refuses(log, Refusal::NoRoom, rows - 1, NODES),
    }
}

#[derive(Clone, Copy, PartialEq, Eq)]
struct Accepted {
    parts: usize,
    crossed: u32,
}

// How a log was tried: whether it is refused by 8 or 9, or accepted with so many level parts and crossings.
#[derive(Clone, Copy)]
struct Tried {
    due: Result<Accepted, Refusal>,
    rows: usize,
    agreed: bool,
}

// Refused by 8 or 9, which comes before a lack of node bytes.
fn refused(log: &Generated, refusal: Refusal) -> Tried {
    Tried {
        due: Err(refusal),
        rows: log.rows.len(),
        agreed: refuses(log, refusal, MARKS, NODES)
            && refuses(log, refusal, MARKS, 0)
            && refuses_marks(log),
    }
}

// The call with the crossings that the model counts as its budget, with one fewer, and with one byte fewer.
fn try_accepted(
    alloc: Global,
    log: &Generated,
    tops: &[u32],
    count: u32,
) -> Result<Tried, AllocError> {
    let table = nested::table_of(alloc, log.list, log.rows.as_slice())?;
    let marks = nested::marks_of(alloc, table.as_slice())?;
    let nodes = model::nodes_of(alloc, table.as_slice(), tops, count)?;
    let bytes = nodes.bytes.as_slice();
    let crossed = u32::try_from(nodes.crossed).unwrap_or(u32::MAX);
    let mut agreed = refuses_marks(log)
        && refuses(log, Refusal::NoRoom, MARKS, bytes.len().saturating_sub(1))
        && leaves(log, crossed, Ok(crossed), marks.as_slice(), bytes);
    if let Some(fewer) = crossed.checked_sub(1) {
        // Refused by 11: node bytes 0, marks kept.
        let zeros = vec![in alloc; 0; bytes.len()]?;
        agreed = agreed && leaves(log, fewer, Err(Refusal::OverBudget), &[], zeros.as_slice());
    }
    let parts = tops.len();
    Ok(Tried {
        due: Ok(Accepted { parts, crossed }),
        rows: log.rows.len(),
        agreed,
    })
}

fn try_log(alloc: Global, seed: Seed) -> Result<Tried, AllocError> {
    let log = Generated::new(alloc, seed)?;
    if nested::strays(log.list, log.rows.as_slice()) {
        return Ok(refused(&log, Refusal::OutsideBounds));
    }
    let tops = levels_apart::tops_of(alloc, log.list)?;
    match model::count(alloc, tops.as_slice())? {
        Some(count) => try_accepted(alloc, &log, tops.as_slice(), count),
        None => Ok(refused(&log, Refusal::TooManyNodes)),
    }
}

// How many of the logs are of a kind.
fn show_count<F: Fn(&Tried) -> bool>(
    rt: &impl Print,
    label: &str,
    tried: &[Tried],
    is_so: F,
) -> io::Result<()>
    requires { F.IsAlwaysCallable is_so }
{
    let count = tried.iter().filter(|one| is_so(*one)).count();
    println!(rt; "{label} {count}")
}

fn has_parts(tried: &Tried, least: usize) -> bool {
    tried.due.is_ok_and(|accepted| least <= accepted.parts)
}

fn show(rt: &impl Print, tried: &[Tried]) -> io::Result<()> {
    let stray = Err(Refusal::OutsideBounds);
    let many = Err(Refusal::TooManyNodes);
    show_count(rt, "generated logs", tried, |_| true)?;
    show_count(rt, "without rows", tried, |t| t.rows == 0)?;
    show_count(
        rt,
        "refused 10 with one mark byte fewer",
        tried,
        |t| t.rows != 0,
    )?;
    show_count(rt, "refused 8", tried, |t| t.due == stray)?;
    show_count(rt, "refused 9", tried, |t| t.due == many)?;
    show_count(
        rt,
        "refused 10 with one node byte fewer",
        tried,
        |t| t.due.is_ok(),
    )?;
    show_count(
        rt,
        "refused 11 with one crossing fewer, accepted with all",
        tried,
        |t| t.due.is_ok_and(|accepted| accepted.crossed != 0),
    )?;
    show_count(
        rt,
        "accepted with more than eight level parts",
        tried,
        |t| has_parts(t, 9),
    )?;
    show_count(
        rt,
        "accepted with sixteen level parts",
        tried,
        |t| has_parts(t, 16),
    )?;
    show_count(rt, "differing", tried, |t| !t.agreed)
}

pub fn generated(rt: &(impl Print + AllocGlobal)) -> io::Result<()> {
    let alloc = rt.alloc();
    let tried: Vec<Tried> = Seeds::new(LOGS)
        .map(|seed| try_log(alloc, seed))
        .try_collect(alloc)?;
    show(rt, tried.as_slice())
}

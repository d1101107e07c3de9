// Generated logs with every form of wish, some with a value outside its bounds.
use crate::calls::{self, ENOUGH};
use crate::windows::{self, Figures};
use refusal::Refusal;
use std::alloc::{AllocError, Global};
use std::io;
use test_support::figures::{Seed, Seeds};
use test_support::logs::Generated;
use test_support::room::{Call, Room};
use test_support::tried::{Accepted, Tried};
use test_support::{counts, levels_apart, nested};

const LOGS: u32 = 400;

fn refuses(log: &Generated, room: Room, w: u32, refusal: Refusal) -> bool {
    let call = Call {
        list: log.list,
        log: log.numbers(),
        w,
        room,
    };
    calls::refuses(call, refusal)
}

// Refusals by 8, with the least window and the widest.
fn refuses_8(log: &Generated) -> bool {
    refuses(log, ENOUGH, 1, Refusal::OutsideBounds)
        && refuses(log, ENOUGH, 1024, Refusal::OutsideBounds)
}

// A mark too few, where there is a row.
fn refuses_marks(log: &Generated) -> bool {
    match log.rows.len().checked_sub(1) {
        Some(marks) => refuses(log, Room { marks, ..ENOUGH }, 1, Refusal::NoRoom),
        None => true,
    }
}

// A work list that is one number too short.
fn refuses_work(log: &Generated, w: u32) -> bool {
    let least = Room::least(log.rows.len(), w);
    let work = least.work.saturating_sub(1);
    refuses(log, Room { work, ..ENOUGH }, w, Refusal::NoRoom)
}

// Refusals by 10, which come before those by 8.
fn refuses_10(log: &Generated) -> bool {
    refuses(log, ENOUGH, 0, Refusal::NoRoom)
        && refuses(log, ENOUGH, 1025, Refusal::NoRoom)
        && refuses_marks(log)
        && refuses_work(log, 1)
        && refuses_work(log, 1024)
}

// All windows have to agree.
fn try_accepted(alloc: Global, log: &Generated) -> Result<Tried<Figures>, AllocError> {
    let rows = log.rows.as_slice();
    let table = nested::table_of(alloc, log.list, rows)?;
    let all = [1, 2, 3, 64, 1024];
    let tried = windows::try_windows(alloc, log.list, rows, table.as_slice(), &all)?;
    let accepted = Accepted {
        parts: levels_apart::tops_of(alloc, log.list)?.len(),
        figures: tried.figures,
    };
    Ok(Tried {
        accepted: Some(accepted),
        differing: tried.differing,
    })
}

// 8 is due where a value lies outside its bounds.
fn try_log(alloc: Global, seed: Seed) -> Result<Tried<Figures>, AllocError> {
    let log = Generated::new(alloc, seed)?;
    let tried = if nested::strays(log.list, log.rows.as_slice()) {
        Tried {
            accepted: None,
            differing: usize::from(!refuses_8(&log)),
        }
    } else {
        try_accepted(alloc, &log)?
    };
    let short = usize::from(!refuses_10(&log));
    Ok(Tried {
        differing: tried.differing.saturating_add(short),
        ..tried
    })
}

pub fn all(rt: &(impl Print + AllocGlobal)) -> io::Result<()> {
    let alloc = rt.alloc();
    let tried: Vec<Tried<Figures>> = Seeds::new(LOGS)
        .map(|seed| try_log(alloc, seed))
        .try_collect(alloc)?;
    let tried = tried.as_slice();
    println!(rt;
        "generated logs {} refused 8: {} sixteen parts: {} best {} compares {} differing {}",
        tried.len(),
        counts::total(tried, |t| usize::from(t.accepted.is_none())),
        counts::total(tried, |t| usize::from(t.has_sixteen())),
        counts::total(tried, |t| t.accepted.map_or(0, |log| log.figures.best)),
        counts::total(tried, |t| t.accepted.map_or(0, |log| log.figures.compares)),
        counts::total(tried, |t| t.differing)
    )
}

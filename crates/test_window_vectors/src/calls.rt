// A call of the window engine, printed: the compares and the marks, or the refusal and what it changed.
use std::fmt::Display;
use std::io;
use test_support::lent;
use test_support::room::{Call, MARK, Room, WORD};
use test_support::show::{Refused, Spaced};

const MARKS: usize = 5;

const WORK: usize = 2060;

// Room for every log here and every window.
pub const ENOUGH: Room = Room {
    marks: MARKS,
    work: WORK,
};

// What a refused call left.
fn show_kept(rt: &impl Print, marks: &[u8], work: &[u32]) -> io::Result<()> {
    if lent::changed(marks, MARK) == 0 {
        print!(rt; ", marks kept")?;
    }
    if lent::changed(work, WORD) == 0 {
        print!(rt; ", work list kept")?;
    }
    println!(rt)
}

pub fn show<D: Display + Drop>(rt: &impl Print, label: D, call: Call) -> io::Result<()> {
    let room = call.room;
    let mut marks = [MARK; MARKS];
    let mut work = [WORD; WORK];
    let lent_marks = &mut marks[..room.marks.min(MARKS)];
    let lent_work = &mut work[..room.work.min(WORK)];
    print!(rt; "{label}: ")?;
    match window::run(call.list, call.log, lent_marks, lent_work, call.w) {
        Ok(n) => {
            println!(rt;
                "compares {n} marks{}",
                Spaced(lent::front(&marks, room.marks))
            )
        }
        Err(refusal) => {
            print!(rt; "{}", Refused(refusal))?;
            show_kept(rt, &marks, &work)
        }
    }
}

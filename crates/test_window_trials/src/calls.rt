// Calls of the window engine, held against what is due. Logs have at most 40 rows; all that is lent is longer than it
// has to be, or cut to a length, and what stands past that length has to stay.
use refusal::Refusal;
use test_support::lent;
use test_support::room::{Call, MARK, Room, WORD};

const MARKS: usize = 48;

const WORK: usize = 2136;

// The room that is always enough.
pub const ENOUGH: Room = Room {
    marks: MARKS,
    work: WORK,
};

// Whether the engine comes back as is due and leaves these marks, and leaves a list as it was past what it was
// lent, or all of it where it refuses.
pub fn leaves(call: Call, due: Result<u32, Refusal>, due_marks: &[u8]) -> bool {
    let mut marks = [MARK; MARKS];
    let mut work = [WORD; WORK];
    let lent_work = call.room.work.min(WORK);
    let answer = window::run(
        call.list,
        call.log,
        &mut marks[..call.room.marks.min(MARKS)],
        &mut work[..lent_work],
        call.w,
    );
    let written = if due.is_ok() { lent_work } else { 0 };
    answer == due
        && lent::holds(&marks, due_marks, MARK)
        && lent::changed(&work[written..], WORD) == 0
}

// Whether the engine refuses for this.
pub fn refuses(call: Call, refusal: Refusal) -> bool {
    leaves(call, Err(refusal), &[])
}

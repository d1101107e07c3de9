// A call, printed: what it is handed, what it comes back as, how many bytes it changed that it must not, and the sheet.
use refusal::Refusal;
use std::io;
use test_support::lent;
use test_support::show::{Refused, Spaced};

// What the output holds before a call: no byte of a sheet.
pub const OLD: u8 = 126;

// How long the sheet of 1,024 runs is.
pub const LONGEST: usize = 108732;

fn print_front(log: &[i32], marks: &[u8], out: &mut [u8], room: usize) -> Result<usize, Refusal> {
    let end = room.min(out.len());
    sheet_pages::print(log, marks, &mut out[..end])
}

// What came back, and the text of the sheet from a place on, if there is one.
fn show_answer(
    rt: &impl Print,
    answer: Result<usize, Refusal>,
    out: &[u8],
    from: Option<usize>,
) -> io::Result<()> {
    let length = answer.unwrap_or(0);
    let changed = lent::changed(out.get(length..).unwrap_or(out), OLD);
    match answer {
        Ok(_) => println!(rt; "length {length}, other bytes changed {changed}")?,
        Err(refusal) => println!(rt; "{}, other bytes changed {changed}", Refused(refusal))?,
    }
    match from.and_then(|from| out.get(from..length)) {
        Some(text) => rt.write_all(text),
        None => Ok(()),
    }
}

// A call lent so many bytes, behind which others stand.
pub fn show(
    rt: &impl Print,
    log: &[i32],
    marks: &[u8],
    room: usize,
    from: Option<usize>,
) -> io::Result<()> {
    let mut out = [OLD; 108740];
    let answer = print_front(log, marks, &mut out, room);
    print!(rt;
        "log {}, output {room}, marks{}: ",
        log.len(),
        Spaced(lent::front(marks, 3))
    )?;
    show_answer(rt, answer, &out, from)
}

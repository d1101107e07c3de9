// A log tried with several windows: the engine, the machine written apart and the nested loop have to agree.
use crate::calls::{self, ENOUGH};
use preference::PreferenceList;
use std::alloc::{AllocError, Global};
use test_support::nested;
use test_support::room::{Call, Room};

// The shortlisted rows of a log, and the compares in all windows.
#[derive(Clone, Copy)]
pub struct Figures {
    pub best: usize,
    pub compares: usize,
}

// What came of a log, and the windows that differ.
#[derive(Clone, Copy)]
pub struct Windows {
    pub figures: Figures,
    pub differing: usize,
}

// With room to spare, and with just enough, on a log with this level table.
pub fn try_windows(
    alloc: Global,
    list: PreferenceList,
    rows: &[[i32; 8]],
    table: &[Vec<u32>],
    windows: &[u32],
) -> Result<Windows, AllocError> {
    let due = nested::marks_of(alloc, table)?;
    let marks = due.as_slice();
    let mut compares: usize = 0;
    let mut differing: usize = 0;
    for w in windows {
        let machine = test_model_machine::run(alloc, table, *w as usize)?;
        let count = machine.compares;
        let call = Call {
            list,
            log: rows.as_flattened(),
            w: *w,
            room: ENOUGH,
        };
        let least = Call {
            room: Room::least(rows.len(), *w),
            ..call
        };
        let agreed = machine.marks == due
            && calls::leaves(call, Ok(count), marks)
            && calls::leaves(least, Ok(count), marks);
        compares = compares.saturating_add(count as usize);
        differing = differing.saturating_add(usize::from(!agreed));
    }
    let best = marks.iter().filter(|mark| **mark == 1).count();
    Ok(Windows {
        figures: Figures { best, compares },
        differing,
    })
}

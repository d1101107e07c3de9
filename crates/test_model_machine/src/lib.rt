// The window machine of document 01, written apart from the engine, for the programs that try it.
// Each row has its place and its stamp, which is 0 until it was read. One queue of rows serves all passes: what a pass
// sets aside is read after all that the pass reads.
#![tactic(auto)]

use std::alloc::{AllocError, Global};
use std::collections::VecDeque;

// More rows than the passes of any trial read.
const MOST_READ: u32 = 4096;

#[derive(Clone, Copy, PartialEq, Eq)]
enum Place {
    Outside,
    Window,
    Shortlist,
}

#[derive(Clone, Copy)]
struct Row<'a> {
    levels: &'a [u32],
    place: Place,
    stamp: u32,
}

// Whether no level of a is above b's, and one is below: the machine's own, since it shares no code with what it is held
// against.
fn is_better(a: &[u32], b: &[u32]) -> bool {
    a.iter().zip(b).all(|(p, q)| p <= q) && a != b
}

#[derive(Drop)]
struct Machine<'a> {
    alloc: Global,
    rows: Vec<Row<'a>>,
    queue: VecDeque<usize>,
    window: usize,
    clock: u32,
    compares: u32,
}

impl Machine<'_> {
    // An entry with a stamp below that of the row that is read is on the shortlist.
    fn release(&mut self, stamp: u32) {
        for row in self.rows.iter_mut() {
            if row.place == Place::Window && row.stamp < stamp {
                row.place = Place::Shortlist;
            }
        }
    }

    // Compares a row with the entries, smallest stamp first, until one is better.
    fn meets_better(&mut self, levels: &[u32]) -> Result<bool, AllocError> {
        let mut entries: Vec<Row> = self
            .rows
            .iter()
            .copied()
            .filter(|row| row.place == Place::Window)
            .collect(self.alloc)?;
        entries.sort_by_key(|entry| entry.stamp)?;
        for entry in &entries {
            self.compares = self.compares.saturating_add(1);
            if is_better(entry.levels, levels) {
                return Ok(true);
            }
        }
        Ok(false)
    }

    fn remove_worse(&mut self, levels: &[u32]) {
        for row in self.rows.iter_mut() {
            if row.place == Place::Window && is_better(levels, row.levels) {
                row.place = Place::Outside;
            }
        }
    }

    fn is_full(&self) -> bool {
        let entries = self
            .rows
            .iter()
            .filter(|row| row.place == Place::Window)
            .count();
        self.window <= entries
    }

    // Enters a row, or sets it aside at the end of the queue.
    fn settle(&mut self, at: usize) -> Result<(), AllocError> {
        let full = self.is_full();
        if full {
            self.queue.push_back(at)?;
        }
        if let Some(row) = self.rows.get_mut(at) {
            row.stamp = self.clock;
            if !full {
                row.place = Place::Window;
            }
        }
        Ok(())
    }

    fn read(&mut self, at: usize) -> Result<(), AllocError> {
        let Some(row) = self.rows.get(at).copied() else {
            return Ok(());
        };
        self.release(row.stamp);
        self.clock = self.clock.saturating_add(1);
        if self.meets_better(row.levels)? {
            return Ok(());
        }
        self.remove_worse(row.levels);
        self.settle(at)
    }

    // Reads what waits.
    fn read_all(&mut self) -> Result<(), AllocError> {
        for _ in 0..MOST_READ {
            let Some(at) = self.queue.pop_front() else {
                break;
            };
            self.read(at)?;
        }
        Ok(())
    }
}

// The marks of the rows, 1 on the shortlist, and how many compares it took.
#[derive(Drop)]
pub struct Verdict {
    pub marks: Vec<u8>,
    pub compares: u32,
}

// The machine on the rows of a table, with a window of so many entries.
pub fn run(alloc: Global, table: &[Vec<u32>], window: usize) -> Result<Verdict, AllocError> {
    let rows = table.iter().map(|levels| Row {
        levels: levels.as_slice(),
        place: Place::Outside,
        stamp: 0,
    });
    let mut machine = Machine {
        alloc,
        rows: rows.collect(alloc)?,
        queue: (0..table.len()).collect(alloc)?,
        window,
        clock: 0,
        compares: 0,
    };
    machine.read_all()?;
    // What the window holds at the end is on the shortlist too.
    let marks = machine
        .rows
        .iter()
        .map(|row| u8::from(row.place != Place::Outside));
    Ok(Verdict {
        marks: marks.collect(alloc)?,
        compares: machine.compares,
    })
}

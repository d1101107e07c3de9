// One row of a level table read by the window machine, whose state is in lent lists. Inside the window engine, and no
// call open to others: `window_passes` meets what its calls require.
#![tactic(auto)]

mod scanning;

ghost use Rattle.std.specs.Prelude.{◌≡◌, ◌+◌, ◌≤◌, length};
ghost use Rattle.limits.specs.Limits.{max_runs, max_window};

use pareto::Relation;
use scanning::Window;
pub use scanning::{Front, Verdict};
use window_entries::Entry;

// Where the machine stands, beside its lists: entries in the window, entries set aside, the clock, the compares made.
#[derive(Clone, Copy, PartialEq, Eq, Default, Debug)]
pub struct Standing {
    pub occupied: usize,
    pub overflow: usize,
    pub clock: u32,
    pub count: usize,
}

// The machine on a level table, with a window of up to `capacity` entries. Its lists are lent: the entries of the
// window and of what waits, the marks, and room for a flag of each entry of the window.
#[derive(Drop)]
pub struct Machine<'a> {
    pub table: &'a [u16],
    pub capacity: usize,
    pub work: &'a mut [u32],
    pub marks: &'a mut [u8],
    pub flags: &'a mut [Relation],
    pub standing: Standing,
    pub ghost narrow: { capacity ≤ max_window },
    pub ghost flagged: { capacity ≤ length flags.now },
    pub ghost fit: { standing.occupied ≤ capacity },
}

impl Machine<'_> {
    ghost use Rattle.window_machine.specs.Order.{Rising};
    ghost use Rattle.window_entries.specs.Entries.{entries, entry_at, entry_of};
    ghost use Rattle.window_step.specs.Reads.{Ready, Judged, Read};

    // Entry i of those that wait, or were set aside.
    pub fn waiting(&self, i: usize) -> Entry
        requires { i ≤ max_runs }
        ensures { entry_of result ≡ entry_at self.now.work.now (self.now.capacity + i) }
    {
        window_entries::entry_at(self.work, self.capacity + i)
    }

    // Compares a row with the window, and drops it, enters it or sets it aside.
    fn judge(&mut self, row: u32)
        requires { Ready self.old }
        ensures { Judged row self.old self.new }
    {
        let work = &mut *self.work;
        let flags = &mut *self.flags;
        let occupied = self.standing.occupied;
        self.standing.clock += 1;
        let window = Window {
            table: self.table,
            work,
            occupied,
        };
        let left = match window.scan(row, flags) {
            Verdict::Dropped { compares } => {
                self.standing.count += compares;
                return;
            }
            Verdict::Spares => occupied,
            Verdict::Removes { from } => window_entries::remove(flags, work, from, occupied),
        };
        self.standing.count += occupied;
        let entry = Entry {
            row,
            timestamp: self.standing.clock,
        };
        if left < self.capacity {
            window_entries::put_entry(work, left, entry);
            self.standing.occupied = left + 1;
        } else {
            window_entries::put_entry(work, self.capacity + self.standing.overflow, entry);
            self.standing.occupied = left;
            self.standing.overflow += 1;
        }
    }

    // Reads an entry: releases those of the window that are older, then judges its row.
    pub fn read(&mut self, entry: Entry)
        requires { Ready self.old × Rising (entries self.old.work.now 0 self.old.standing.occupied) }
        ensures { Read (entry_of entry) self.old self.new }
    {
        self.standing.occupied = window_entries::release(
            self.work,
            self.standing.occupied,
            entry.timestamp,
            self.marks,
        );
        self.judge(entry.row);
    }
}

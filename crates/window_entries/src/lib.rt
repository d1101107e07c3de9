// The entries of the window machine in a lent work list: stored, removed in place, and released. Inside the window
// engine, and no call open to others.
#![tactic(auto)]

ghost use Rattle.std.specs.Prelude.{◌≡◌, ◌+◌, ◌*◌, ◌<◌, ◌≤◌, set, length};
ghost use Rattle.limits.specs.Limits.{usize_end};
ghost use Rattle.window_machine.specs.Order.{Rising};
ghost use Rattle.window_entries.specs.Entries.{entry_of, entry_at, entries, put_entry, Holds, Test, Filtered, Released, Flags};

use pareto::Relation;

// A row with the timestamp that the machine gave it, which is 0 before it was read.
#[derive(Clone, Copy, PartialEq, Eq, Debug)]
pub struct Entry {
    pub row: u32,
    pub timestamp: u32,
}

// ---- the lent list: what lies past its end reads as 0, and a store there does nothing

#[tactic(auto, unfolding(crate::specs::Entries::entry_at))]
pub fn entry_at(work: &[u32], i: usize) -> Entry
    requires { 2 * i + 1 < usize_end }
    ensures { entry_of result ≡ entry_at work.now i }
{
    Entry {
        row: work.get(2 * i).copied().unwrap_or(0),
        timestamp: work.get(2 * i + 1).copied().unwrap_or(0),
    }
}

#[tactic(auto, unfolding(crate::specs::Entries::put_entry))]
pub fn put_entry(work: &mut [u32], i: usize, entry: Entry)
    requires { 2 * i + 1 < usize_end }
    ensures { work.new ≡ put_entry work.old i entry.row entry.timestamp }
{
    word::put(work, 2 * i, entry.row);
    word::put(work, 2 * i + 1, entry.timestamp);
}

// ---- entries taken out

// The work list and its occupied entries stand apart: the machine keeps both among what else it holds, so a
// struct of the two would be made and taken apart again at every call. `Window` of `window_step` is such a
// struct, but it only reads, and these write. Entries go by number: one is stored before the place that it is
// read from, in the same lent list, which no iterator allows. They are two loops: one that is handed what to
// do with a row that goes, as a closure, would not tell what that left in the marks.

// Removes the entries that the row dominates by their flags, from one entry on; how many stay comes back.
pub fn remove(flags: &[Relation], work: &mut [u32], from: usize, occupied: usize) -> usize
    requires { Holds work.old occupied × (from ≤ occupied) × (occupied ≤ length flags.now) }
    ensures { (p : Test) → Flags p work.old from occupied flags.now
        → Filtered p work.old work.new occupied result }
{
    let mut stay = from;
    for i in from..occupied {
        if flags[i] != Relation::SecondDominates {
            let entry = entry_at(work, i);
            put_entry(work, stay, entry);
            stay += 1;
        }
    }
    stay
}

// Releases the entries with an earlier timestamp: their rows are marked. How many stay comes back. Out of line, as few
// rows come here: in line it cost a call with a window of one entry 6 % more instructions.
#[inline(never)]
#[tactic(auto, using(crate::proofs::Releasing::releasing_end))]
fn release_older(work: &mut [u32], occupied: usize, timestamp: u32, marks: &mut [u8]) -> usize
    requires { Holds work.old occupied }
    ensures { Released timestamp work.old work.new occupied result marks.old
        marks.new }
{
    let mut stay: usize = 0;
    for i in 0..occupied {
        let entry = entry_at(work, i);
        if entry.timestamp < timestamp {
            word::put(marks, entry.row as usize, 1);
        } else {
            put_entry(work, stay, entry);
            stay += 1;
        }
    }
    stay
}

// The same where the first entry has the smallest timestamp: by it most rows see that they release none.
pub fn release(work: &mut [u32], occupied: usize, timestamp: u32, marks: &mut [u8]) -> usize
    requires { Holds work.old occupied × Rising (entries work.old 0 occupied) }
    ensures { Released timestamp work.old work.new occupied result marks.old
        marks.new }
{
    if timestamp <= entry_at(work, 0).timestamp {
        return occupied;
    }
    release_older(work, occupied, timestamp, marks)
}

// The passes of the window machine over the rows of a level table, in a lent work list. Inside the window engine,
// and no call open to others: `window` meets what its calls require.
#![tactic(auto)]

ghost use Rattle.std.specs.Prelude.{◌≡◌, map, length};
ghost use Rattle.window_machine.specs.Machine.{marked, unread, machine};
ghost use Rattle.window_machine.specs.Order.{Ordered};
ghost use Rattle.window_entries.specs.Entries.{entries, Holds};
ghost use Rattle.window_step.specs.Work.{table_dominates};
ghost use Rattle.window_step.specs.Reads.{state_held};
ghost use Rattle.window_passes.specs.Passes.{Waits, PassReady, Passed, RunReady, PassesRan};

use pareto::Relation;
use window_entries::Entry;
use window_step::{Machine, Standing};

// Reads the n entries that wait. By number: a read may store into the list that they stand in.
fn one_pass(machine: &mut Machine, n: usize)
    requires { PassReady n machine.old × Ordered (state_held machine.old) }
    ensures { Passed n machine.old machine.new }
{
    for i in 0..n {
        let entry = machine.waiting(i);
        machine.read(entry);
    }
}

// Releases the whole window. As a method of the machine, in line or not, it cost a call 0.7 to 2 % more instructions.
#[tactic(auto, using(window_entries::specs::Laws::Entries::mark_all_end))]
fn release_all(work: &[u32], occupied: usize, marks: &mut [u8])
    requires { Holds work.now occupied }
    ensures { marks.new ≡ marked (entries work.now 0 occupied) marks.old }
{
    for i in 0..occupied {
        let entry = window_entries::entry_at(work, i);
        word::put(marks, entry.row as usize, 1);
    }
}

// Passes, at most `fuel`, until one sets nothing aside. What a pass set aside stands where the next one reads.
fn all_passes(machine: &mut Machine, n: usize, fuel: usize)
    requires { RunReady n fuel machine.old }
    ensures { PassesRan n fuel machine.old machine.new }
{
    let mut waiting = n;
    for _pass in 0..fuel {
        one_pass(machine, waiting);
        waiting = machine.standing.overflow;
        if waiting == 0 {
            // lent by a name, so that the check knows what it holds
            let work = &mut *machine.work;
            release_all(work, machine.standing.occupied, machine.marks);
            return;
        }
        machine.standing.overflow = 0;
    }
}

// ---- the machine on rows of a table

// These rows wait, from entry w on. By number: of what `chunks_exact_mut` has lent a proof knows no number afterwards.
#[tactic(auto, using(crate::proofs::Rows::rows_none, crate::proofs::Rows::rows_more))]
fn fill_waiting(work: &mut [u32], w: usize, rows: &[usize])
    requires { Waits w rows.now (length work.old) }
    ensures { entries work.new w (length rows.now) ≡ map unread rows.now }
{
    for (i, row) in rows.iter().enumerate() {
        let unread = Entry {
            row: *row as u32,
            timestamp: 0,
        };
        window_entries::put_entry(work, w + i, unread);
    }
}

// The machine on these rows of a table; the compares made come back.
pub fn run_rows(
    table: &[u16],
    rows: &[usize],
    w: usize,
    marks: &mut [u8],
    work: &mut [u32],
) -> usize
    requires { Waits w rows.now (length work.old) }
    ensures { (result ≡ (machine (table_dominates table.now) w rows.now (length marks.old)).count)
        × (marks.new
        ≡ (machine (table_dominates table.now) w rows.now (length marks.old)).marks) }
{
    marks.fill(0);
    fill_waiting(work, w, rows);
    let n = rows.len();
    let mut flags = [Relation::Equal; limits::MAX_WINDOW as usize];
    let mut machine = Machine {
        table,
        capacity: w,
        work,
        marks,
        flags: &mut flags,
        standing: Standing::default(),
    };
    all_passes(&mut machine, n, n * n + 1);
    machine.standing.count
}

// A row of a level table compared with the entries of the window, the oldest first.

ghost use Rattle.window_entries.specs.Entries.{Holds};

use pareto::Relation;

// Where the compares that are kept begin, each entry before it being apart from the row: neither dominates the other.
#[derive(Clone, Copy, PartialEq, Eq, Debug)]
pub struct Front {
    pub at: usize,
    pub relation: Relation,
}

// A row is dropped by the last of so many compares, or stays: it spares all entries, or dominates some from one on.
#[derive(Clone, Copy, PartialEq, Eq, Debug)]
pub enum Verdict {
    Dropped { compares: usize },
    Spares,
    Removes { from: usize },
}

// The entries of the window, and the table of their levels. The work list stays whole, as a slice of it would
// have two numbers to an entry, and its entries go by number: the loops below are the engine's innermost, and
// their answers name the place of an entry.
#[derive(Clone, Copy)]
pub struct Window<'a> {
    pub table: &'a [u16],
    pub work: &'a [u32],
    pub occupied: usize,
    pub ghost held: { Holds work.now occupied },
}

impl Window<'_> {
    ghost use Rattle.std.specs.Prelude.{◌≡◌, false, ◌*◌, ◌<◌, ◌≤◌, get_or, length};
    ghost use Rattle.pareto.specs.Table.{is_double, first_dominates, compared};
    ghost use Rattle.window_step.specs.Work.{table_dominates};
    ghost use Rattle.window_step.specs.Scans.{FrontAt, Fronted, Scanned};

    // The row of an entry.
    fn row_at(self, at: usize) -> usize
        requires { at < self.occupied }
        ensures { result ≡ get_or self.entry.work.now (2 * at) 0 }
    {
        self.work[2 * at] as usize
    }

    // How an entry and a row stand. In line, since as a call of its own it cost 14 % more in a table of two planes.
    #[inline(always)]
    fn compare(self, at: usize, row: u32) -> Relation
        requires { at < self.occupied }
        ensures { result ≡ compared self.entry.table.now (get_or self.entry.work.now (2 * at) 0) row }
    {
        pareto::compare(self.table, self.row_at(at), row as usize)
    }

    // Most entries are apart from a row: a short loop of its own passes them, in a table of one plane.
    fn apart(self, row: u32) -> Option<Front>
        requires { is_double self.table.now ≡ false }
        ensures { Fronted self.entry.table.now row self.entry.work.now self.entry.occupied result }
    {
        for at in 0..self.occupied {
            let lower = pareto::plane_levels(self.table, self.row_at(at), row as usize);
            if lower.first != lower.second {
                let relation = lower.relation();
                return Some(Front { at, relation });
            }
        }
        None
    }

    // The entries that are passed at first: those apart, or none in a table of two planes.
    fn passed_first(self, row: u32) -> Option<Front>
        ensures { Fronted self.entry.table.now row self.entry.work.now self.entry.occupied result }
    {
        if !pareto::is_double(self.table) {
            return self.apart(row);
        }
        if self.occupied == 0 {
            return None;
        }
        let relation = self.compare(0, row);
        Some(Front { at: 0, relation })
    }

    // Compares a row that the front does not drop with the entries behind it, until one dominates the row. Each compare
    // is kept as a flag for `remove`, that of the front too. Out of line, which leaves the loop of `apart` its
    // registers: in line it cost a call 4 to 8 % more instructions.
    #[inline(never)]
    fn scan_rest(self, front: Front, row: u32, flags: &mut [Relation]) -> Verdict
        requires front_known { FrontAt self.table.now row self.work.now self.occupied front }
        requires front_spared { first_dominates front.relation ≡ false }
        requires room { self.occupied ≤ length flags.old }
        ensures { Scanned (table_dominates self.entry.table.now) row self.entry.work.now self.entry.occupied
            flags.new result }
    {
        flags[front.at] = front.relation;
        let mut dominates = front.relation == Relation::SecondDominates;
        for at in front.at + 1..self.occupied {
            let relation = self.compare(at, row);
            if relation == Relation::FirstDominates {
                return Verdict::Dropped { compares: at + 1 };
            }
            flags[at] = relation;
            dominates |= relation == Relation::SecondDominates;
        }
        if dominates {
            Verdict::Removes { from: front.at }
        } else {
            Verdict::Spares
        }
    }

    // Compares a row with the entries, the oldest first, until one dominates it.
    #[tactic(auto, using(crate::proofs::Compares::front_hit, pareto::specs::Laws::Relation::same_first))]
    pub fn scan(self, row: u32, flags: &mut [Relation]) -> Verdict
        requires { self.occupied ≤ length flags.old }
        ensures { Scanned (table_dominates self.entry.table.now) row self.entry.work.now self.entry.occupied
            flags.new result }
    {
        let Some(front) = self.passed_first(row) else {
            return Verdict::Spares;
        };
        if front.relation == Relation::FirstDominates {
            let compares = front.at + 1;
            return Verdict::Dropped { compares };
        }
        self.scan_rest(front, row, flags)
    }
}

// How two rows of a level table stand.

ghost use Rattle.std.specs.Prelude.{◌≡◌, ◌+◌, ◌≤◌, length, true, ◌||◌};
ghost use Rattle.limits.specs.Limits.{columns};
ghost use Rattle.laws.specs.First.{any_below};
ghost use Rattle.pareto.specs.Table.{lower, is_double, plane_lower, double_lower, relation, compared, Looked};

// How two rows stand. It names the row that dominates, which an `Option<Ordering>` leaves to the reader; and it takes a
// byte, as the window keeps one for each entry.
#[derive(Clone, Copy, PartialEq, Eq, Debug)]
pub enum Relation {
    Equal,
    FirstDominates,
    SecondDominates,
    Incomparable,
}

// Which of two rows has a level below the other's.
#[derive(Clone, Copy, PartialEq, Eq, Default, Debug)]
pub struct Lower {
    pub first: bool,
    pub second: bool,
}

impl Lower {
    // How the rows stand by that.
    pub fn relation(self) -> Relation
        ensures { result ≡ relation self.first self.second }
    {
        match (self.first, self.second) {
            (false, false) => Relation::Equal,
            (true, false) => Relation::FirstDominates,
            (false, true) => Relation::SecondDominates,
            (true, true) => Relation::Incomparable,
        }
    }

    // What two looks at the same rows tell together.
    fn or(self, other: Lower) -> Lower
        ensures { (result.first ≡ self.first || other.first)
            × (result.second ≡ self.second || other.second) }
    {
        Lower {
            first: self.first | other.first,
            second: self.second | other.second,
        }
    }
}

// Two rows of a table that begin at p and q. One look at each level tells both ways. By number: a `zip` of two slices
// does not tell a proof at which place of the table a pair stands, and what it leaves was not proved.
#[tactic(auto, using(crate::proofs::Looks::none_below, laws::specs::Laws::First::any_more))]
fn rows_compared(table: &[u16], p: usize, q: usize) -> Lower
    requires { (p + columns ≤ length table.now) × (q + columns ≤ length table.now) }
    ensures { (result.first ≡ any_below (lower table.now p q) columns)
        × (result.second ≡ any_below (lower table.now q p) columns) }
{
    let mut found = Lower::default();
    for k in 0..limits::COLUMNS {
        let x = table[p + k];
        let y = table[q + k];
        found.first |= x < y;
        found.second |= y < x;
    }
    found
}

// Whether a table has a second plane.
pub fn is_double(table: &[u16]) -> bool
    ensures { result ≡ is_double table.now }
{
    limits::MAX_VALUES < table.len()
}

// Which of rows a and b of a table of one plane has a level below the other's; a row that the table has not
// has none. It knows of no second plane, so that a loop of such looks pays for none: with a test for one in
// each compare, calls of windows of 64 and 1,024 entries took 1.16 to 1.20 of the instructions from before
// it, in place of 1.00 to 1.08.
pub fn plane_levels(table: &[u16], a: usize, b: usize) -> Lower
    ensures { Looked (plane_lower table.now) a b result }
{
    let rows = table.len() / limits::COLUMNS;
    if rows <= a || rows <= b {
        return Lower::default();
    }
    rows_compared(table, limits::COLUMNS * a, limits::COLUMNS * b)
}

// The same of a table of two planes.
fn double_levels(table: &[u16], a: usize, b: usize) -> Lower
    requires { is_double table.now ≡ true }
    ensures { Looked (double_lower table.now) a b result }
{
    let rows = (table.len() - limits::MAX_VALUES) / limits::COLUMNS;
    if rows <= a || rows <= b {
        return Lower::default();
    }
    let p = limits::COLUMNS * a;
    let q = limits::COLUMNS * b;
    let near = rows_compared(table, p, q);
    // each has a lower level already: the second plane tells no more
    if near.first & near.second {
        return near;
    }
    near.or(rows_compared(table, limits::MAX_VALUES + p, limits::MAX_VALUES + q))
}

// How rows a and b of a table stand; a row that the table has not has no level below another's.
#[tactic(auto, using(crate::specs::Laws::Planes::compared_plane, crate::specs::Laws::Planes::compared_double))]
pub fn compare(table: &[u16], a: usize, b: usize) -> Relation
    ensures { result ≡ compared table.now a b }
{
    if is_double(table) {
        double_levels(table, a, b).relation()
    } else {
        plane_levels(table, a, b).relation()
    }
}

// One to eight preferences of the six forms, on columns that follow each other.
ghost use Rattle.std.specs.Prelude.{◌<◌, ◌≤◌};

use crate::figures::Seed;
use crate::trial;
use constructor::Constructor;
use preference::PreferenceList;

#[derive(Clone, Copy, PartialEq, Eq)]
enum Form {
    Lowest,
    Highest,
    Around,
    Between,
    Layered,
    BothSides,
}

// What a seed makes of a column.
#[derive(Clone, Copy)]
pub struct Column {
    seed: Seed,
    number: u8,
    ghost in_row: { number < 8 },
}

impl Column {
    pub fn new(seed: Seed, number: usize) -> Column {
        Column {
            seed,
            number: (number % 8) as u8,
        }
    }

    // The column of the preference at a place.
    pub fn at(seed: Seed, place: usize) -> Column {
        Column::new(seed, usize::from(seed.upto(4, 7)) + place % 8)
    }

    pub fn number(self) -> usize {
        usize::from(self.number)
    }

    // A figure from 0 to n, of those that a salt and the seven after it are for.
    pub fn upto(self, salt: u32, n: u16) -> u16
        requires { salt ≤ 1000000 }
        ensures { result ≤ n }
    {
        self.seed.upto(salt + u32::from(self.number), n)
    }

    // Whether all wishes are of kind 08: one list of seven, so that eight of them, which give 16 level parts, come too.
    fn all_pairs(self) -> bool {
        self.seed.upto(11, 6) == 0
    }

    // Kind 08 is more than one wish of four.
    fn form(self) -> Form {
        if self.all_pairs() || self.upto(96, 5) == 0 {
            return Form::BothSides;
        }
        match self.upto(88, 4) {
            0 => Form::Lowest,
            1 => Form::Highest,
            2 => Form::Around,
            3 => Form::Between,
            _ => Form::Layered,
        }
    }

    fn step(self) -> u16
        ensures { (0 < result) × (result ≤ 3) }
    {
        self.upto(16, 2) + 1
    }

    // The least of its values.
    pub fn lo(self) -> u16
        ensures { (5 ≤ result) × (result ≤ 13) }
    {
        self.upto(24, 8) + 5
    }

    // Three steps; two under kind 08, whose nodes are M + 1 squared, and one where all wishes are of it. Twice as far
    // in one list of four, so that M is 0 to 6 and some lists have more nodes than are taken.
    fn reach(self) -> u16
        ensures { result ≤ 18 }
    {
        let steps = if self.form() != Form::BothSides {
            3
        } else if self.all_pairs() {
            1
        } else {
            2
        };
        let times = if self.seed.upto(10, 3) == 0 { 2 } else { 1 };
        times * steps * self.step()
    }

    // How far its values go from the least.
    pub fn width(self) -> u16
        ensures { result ≤ 18 }
    {
        self.upto(32, self.reach())
    }

    // The top layer.
    fn top(self) -> u16
        ensures { result ≤ 3 }
    {
        self.upto(56, 2) + 1
    }

    fn layer(self, salt: u32) -> u8
        requires { salt ≤ 100 }
    {
        self.upto(salt, self.top()) as u8
    }

    fn wish(self) -> Constructor {
        let step = u32::from(self.step());
        let width = self.width();
        let below = self.upto(40, width);
        let across = self.upto(48, width - below);
        let lo = i32::from(self.lo());
        let hi = lo + i32::from(width);
        let low = lo + i32::from(below);
        let up = low + i32::from(across);
        match self.form() {
            Form::Lowest => trial::lowest(lo, hi, step),
            Form::Highest => trial::highest(lo, hi, step),
            Form::Around => trial::around(lo, hi, step, low),
            Form::Between => trial::between(lo, hi, step, low, up),
            Form::Layered => trial::layers(self.top() as u8, self.layer(64)),
            Form::BothSides => trial::between_trivial(lo, hi, step, low, up),
        }
    }
}

pub fn count_of(seed: Seed) -> u8
    ensures { (0 < result) × (result ≤ 8) }
{
    seed.upto(3, 7) as u8 + 1
}

// The list with the wish at a place, and two named values where it is LAYERED.
fn with_place(list: PreferenceList, seed: Seed, place: u8) -> PreferenceList {
    let column = Column::at(seed, usize::from(place));
    let list = trial::with(list, column.number, column.wish());
    if column.form() != Form::Layered {
        return list;
    }
    let lo = i32::from(column.lo());
    let one = trial::with_named(list, place, lo, column.layer(72));
    trial::with_named(one, place, lo + 2, column.layer(80))
}

pub fn list_of(seed: Seed) -> PreferenceList {
    let mut list = trial::none();
    for place in 0..count_of(seed) {
        list = with_place(list, seed, place);
    }
    list
}

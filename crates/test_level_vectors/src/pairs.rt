// Pairs of levels under kind 08: what is above the range counts first, what is below it second.
use constructor::Constructor;
use preference::PreferenceList;
use std::{fmt, io};
use test_support::trial;

#[derive(Clone, Copy)]
struct Pair {
    above: u64,
    below: u64,
}

impl fmt::Display for Pair {
    fn fmt<W: fmt::Write>(&self, f: &mut fmt::Formatter<W>) -> fmt::Result {
        write!(f, "({},{})", self.above, self.below)
    }
}

// The level vector of a run with this value on the column of the only wish.
fn pair_of(list: PreferenceList, value: i32) -> Pair {
    let run = [0, 0, 0, 0, 0, 0, 0, value];
    Pair {
        above: levels::part_level(list, &run, 0),
        below: levels::part_level(list, &run, 1),
    }
}

fn show_pairs(rt: &impl Print, label: &str, form: Constructor, values: &[i32]) -> io::Result<()> {
    let list = trial::single(form);
    print!(rt; "{label}")?;
    for value in values {
        print!(rt; " {}", pair_of(list, *value))?;
    }
    println!(rt)
}

// Their AROUND 50 is low and up 50.
fn tables_4(rt: &impl Print) -> io::Result<()> {
    let price = trial::between_trivial(45, 75, 5, 50, 50);
    let list = trial::single(price);
    show_pairs(rt, "003 Table 4, pairs:", price, &[45, 50, 55, 70, 75])?;
    show_pairs(
        rt,
        "000 Table 4.1, pairs:",
        price,
        &[50, 70, 75, 55, 45, 45],
    )?;
    trial::show_levels(rt, "003 Table 4, kind 08:", list, &[45, 50, 55, 70, 75])?;
    trial::show_greatest(rt, "003 Table 4, kind 08, greatest:", list)
}

fn tables_3_and_5(rt: &impl Print) -> io::Result<()> {
    let price = trial::between_trivial(45, 95, 5, 60, 80);
    let prices = [56, 81, 70, 46, 45, 95, 84, 88];
    show_pairs(
        rt,
        "000 Table 3.3, price, pairs:",
        price,
        &[50, 70, 75, 55, 45, 45],
    )?;
    show_pairs(rt, "000 Table 5.1, price, pairs:", price, &prices)
}

// The greatest levels of all, above and below.
fn farthest(rt: &impl Print) -> io::Result<()> {
    let lo = trial::between_trivial(i32::MIN, i32::MAX, 65537, i32::MIN, i32::MIN);
    let hi = trial::between_trivial(i32::MIN, i32::MAX, 65537, i32::MAX, i32::MAX);
    let ends = [i32::MIN, i32::MIN + 1, i32::MAX - 1, i32::MAX];
    show_pairs(rt, "every value, pairs above lo:", lo, &ends)?;
    show_pairs(rt, "every value, pairs below hi:", hi, &ends)
}

pub fn of_documents(rt: &impl Print) -> io::Result<()> {
    tables_4(rt)?;
    tables_3_and_5(rt)?;
    farthest(rt)
}

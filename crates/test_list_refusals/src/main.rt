// Runs the entries of document 01's refusal table that a list in memory can have, and both orders of two faults. A line
// prints the number of the list's check and what the level of 0 at place 0 comes back as. The file stdout holds what
// documents 01 and 02 say.
#![tactic(auto)]

use constructor::Constructor;
use preference::PreferenceList;
use std::io;
use test_support::trial;

mod pairs;

pub const GOOD: Constructor = Constructor::Lowest {
    lo: 0,
    hi: 100,
    step: 10,
};

fn show_lists(rt: &impl Print, cases: &[(&str, PreferenceList)]) -> io::Result<()> {
    trial::show_lists(rt, cases, |list| list)
}

// Lists of one wish.
fn show_wishes(rt: &impl Print, cases: &[(&str, Constructor)]) -> io::Result<()> {
    trial::show_lists(rt, cases, trial::single)
}

// A wish on the last column, and a second one on another.
fn show_second(rt: &impl Print, cases: &[(&str, (u8, Constructor))]) -> io::Result<()> {
    trial::show_lists(rt, cases, |(column, form)| {
        trial::with(trial::single(GOOD), column, form)
    })
}

fn lists(rt: &impl Print) -> io::Result<()> {
    let full = trial::on_each(0..8, GOOD);
    show_lists(
        rt,
        &[
            ("no wish:", trial::none()),
            ("eight wishes:", full),
            ("a count of 9:", trial::with(full, 0, GOOD)),
        ],
    )?;
    show_second(
        rt,
        &[
            ("column 8:", (8, GOOD)),
            ("column 0:", (0, GOOD)),
            ("a taken column:", (7, GOOD)),
        ],
    )
}

fn figures(rt: &impl Print) -> io::Result<()> {
    show_wishes(
        rt,
        &[
            ("lo above hi:", trial::lowest(1, 0, 10)),
            ("lo is hi:", trial::highest(0, 0, 10)),
            ("step 0:", trial::highest(0, 100, 0)),
            ("z below lo:", trial::around(0, 100, 10, -1)),
            ("z above hi:", trial::around(0, 100, 10, 101)),
            ("z at hi:", trial::around(0, 100, 10, 100)),
            ("low below lo:", trial::between(0, 100, 10, -1, 50)),
            ("up above hi:", trial::between(0, 100, 10, 50, 101)),
            ("low above up:", trial::between(0, 100, 10, 51, 50)),
            ("low and up the bounds:", trial::between(0, 100, 10, 0, 100)),
        ],
    )
}

fn greatest(rt: &impl Print) -> io::Result<()> {
    show_wishes(
        rt,
        &[
            ("top layer 0:", trial::layers(0, 0)),
            ("top layer 15:", trial::layers(15, 15)),
            ("top layer 16:", trial::layers(16, 0)),
            ("others above the top:", trial::layers(1, 2)),
            ("M 65,535:", trial::lowest(0, 65535, 1)),
            ("M 65,536:", trial::lowest(0, 65536, 1)),
        ],
    )
}

fn named(rt: &impl Print) -> io::Result<()> {
    let layered = trial::single(trial::layers(2, 1));
    let numeric = trial::single(GOOD);
    show_lists(
        rt,
        &[
            ("layer at the top:", trial::with_named(layered, 0, 7, 2)),
            ("layer above the top:", trial::with_named(layered, 0, 7, 3)),
            (
                "named value of a numeric wish:",
                trial::with_named(numeric, 0, 7, 0),
            ),
            (
                "named value of no wish:",
                trial::with_named(layered, 1, 7, 0),
            ),
        ],
    )
}

fn named_order(rt: &impl Print) -> io::Result<()> {
    let layered = trial::single(trial::layers(2, 1));
    let both = trial::with(layered, 0, trial::layers(3, 0));
    let second = trial::with_named(both, 1, 7, 3);
    let in_order = trial::with_named(second, 1, 8, 0);
    let out_of_order = trial::with_named(second, 0, 8, 0);
    show_lists(
        rt,
        &[
            ("named values in wish order:", in_order),
            ("named values out of wish order:", out_of_order),
            (
                "64 named values:",
                trial::with_layer(layered, 0, 2, 100..164),
            ),
            (
                "65 named values:",
                trial::with_layer(layered, 0, 2, 100..165),
            ),
        ],
    )
}

// Which of two numbers comes, of two preferences or of one.
fn orders(rt: &impl Print) -> io::Result<()> {
    let two = trial::with(
        trial::single(trial::lowest(0, 65536, 1)),
        8,
        trial::lowest(0, 1, 1),
    );
    let good = trial::single(GOOD);
    let many = trial::with_layer(good, 0, 0, 0..65);
    show_lists(
        rt,
        &[
            ("7 of wish 0 before 5 of wish 1:", two),
            ("5 before 6:", trial::with(good, 8, trial::lowest(0, 1, 0))),
            ("6 before 7:", trial::single(trial::around(0, 65536, 1, -1))),
            (
                "7 of the named count before 5:",
                trial::with(many, 8, trial::lowest(0, 1, 1)),
            ),
        ],
    )
}

// The same with named values.
fn named_orders(rt: &impl Print) -> io::Result<()> {
    let high = trial::with_named(trial::single(trial::layers(2, 1)), 0, 7, 3);
    let both = trial::list(&[(0, trial::layers(2, 1)), (1, trial::layers(3, 0))]);
    let second_high = trial::with_named(both, 1, 7, 4);
    show_lists(
        rt,
        &[
            (
                "5 before the named values' 6:",
                trial::with(high, 9, trial::lowest(0, 1, 1)),
            ),
            (
                "6 of the first named value before 3 of the second:",
                trial::with_named(second_high, 0, 7, 0),
            ),
            (
                "3 before 6 of one named value:",
                trial::with_named(trial::single(GOOD), 0, 7, 200),
            ),
        ],
    )
}

fn values(rt: &impl Print) -> io::Result<()> {
    let good = trial::single(GOOD);
    let layered = trial::single(trial::layers(2, 1));
    trial::show_levels(
        rt,
        "lo..hi and one past each end:",
        good,
        &[-1, 0, 100, 101],
    )?;
    trial::show_levels(
        rt,
        "every value has a layer:",
        layered,
        &[i32::MIN, i32::MAX],
    )
}

fn places(rt: &impl Print) -> io::Result<()> {
    let good = trial::single(GOOD);
    print!(rt; "place 0, the count, and far past it:")?;
    for place in [0, 1, u32::MAX] {
        trial::show_level(rt, good, place, 0)?;
    }
    print!(rt; "\n10 before 8, and 1 before 10:")?;
    for list in [good, trial::none()] {
        trial::show_level(rt, list, 1, 101)?;
    }
    println!(rt)
}

fn faults(rt: &impl Print) -> io::Result<()> {
    lists(rt)?;
    figures(rt)?;
    greatest(rt)?;
    named(rt)?;
    named_order(rt)?;
    orders(rt)?;
    named_orders(rt)
}

fn main(rt: HostRuntime) -> io::Result<()> {
    faults(&rt)?;
    values(&rt)?;
    places(&rt)?;
    pairs::all(&rt)
}

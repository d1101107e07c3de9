// Runs the level vectors of documents 000 and 003 and prints the levels that come back, each with its side, and the
// pairs of levels of kind 08. The file stdout holds the documents' figures.
#![tactic(auto)]

mod pairs;
mod sides;

use constructor::Constructor;
use preference::PreferenceList;
use std::io;
use test_support::trial;

// The levels of values under lists of one wish.
fn show_cases(rt: &impl Print, cases: &[(&str, Constructor, &[i32])]) -> io::Result<()> {
    for (label, form, values) in cases {
        trial::show_levels(rt, *label, trial::single(*form), *values)?;
    }
    Ok(())
}

fn around(rt: &impl Print) -> io::Result<()> {
    let price = trial::around(45, 75, 5, 50);
    let thousands = trial::around(4000, 20000, 1000, 4000);
    let units = trial::around(4, 20, 1, 4);
    show_cases(
        rt,
        &[
            ("003 Table 4:", price, &[45, 50, 55, 70, 75]),
            ("000 Table 4.1:", price, &[50, 70, 75, 55, 45, 45]),
            ("003 Example 11:", price, &[45, 48, 50]),
            ("000 Example 42:", thousands, &[5000, 10000, 15000, 20000]),
            ("003 Example 14:", units, &[5, 10, 15, 20]),
        ],
    )
}

fn between(rt: &impl Print) -> io::Result<()> {
    let price = trial::between(45, 95, 5, 60, 80);
    let budget = trial::between(0, 10000, 500, 6000, 8000);
    show_cases(
        rt,
        &[
            ("000 Table 3.3, price:", price, &[50, 70, 75, 55, 45, 45]),
            (
                "000 Table 5.1, price:",
                price,
                &[56, 81, 70, 46, 45, 95, 84, 88],
            ),
            ("000 Example 1:", budget, &[5899, 5900]),
        ],
    )
}

fn greatest(rt: &impl Print) -> io::Result<()> {
    let cases = [
        ("003 Table 4, greatest:", trial::around(45, 75, 5, 50)),
        (
            "000 Example 13, up to 95:",
            trial::between(45, 95, 5, 60, 80),
        ),
        (
            "000 Example 13, up to 80:",
            trial::between(45, 80, 5, 60, 80),
        ),
        (
            "000 Example 42, greatest:",
            trial::around(4000, 20000, 1000, 4000),
        ),
    ];
    for (label, form) in cases {
        trial::show_greatest(rt, label, trial::single(form))?;
    }
    Ok(())
}

// 000's Table 6.5: the greatest levels of the price and of the mileage, by their steps.
fn table_6_5(rt: &impl Print) -> io::Result<()> {
    for (price_step, mileage_step) in [(1, 1), (50, 100), (100, 1000), (200, 10000)] {
        let price = trial::single(trial::around(2000, 20000, price_step, 2000));
        let mileage = trial::single(trial::around(80000, 150000, mileage_step, 100000));
        println!(rt;
            "000 Table 6.5, by {price_step} and {mileage_step}: {} {}",
            levels::part_max(price, 0),
            levels::part_max(mileage, 0)
        )?;
    }
    let layered = trial::single(trial::layers(5, 4));
    trial::show_greatest(rt, "000 Theorem 2:", layered)
}

// Colours of diamonds by their letters, Z+ as 100.
fn diamonds() -> PreferenceList {
    let d = trial::with_layer(trial::single(trial::layers(5, 4)), 0, 0, 68..71);
    let g = trial::with_layer(d, 0, 1, 71..75);
    let k = trial::with_layer(g, 0, 2, 75..78);
    let n = trial::with_layer(k, 0, 3, 78..83);
    trial::with_named(n, 0, 100, 5)
}

// Colours of cars as 1 red, 2 blue, 3 purple, 4 and more others.
fn cars() -> PreferenceList {
    let blue = trial::with_layer(trial::single(trial::layers(2, 1)), 0, 0, 1..3);
    trial::with_named(blue, 0, 3, 2)
}

fn layered(rt: &impl Print) -> io::Result<()> {
    let letters = [68, 71, 75, 78, 83, 90, 100];
    trial::show_levels(rt, "000 Example 3:", diamonds(), &letters)?;
    let cars = cars();
    let twice = trial::with_named(trial::with_named(cars, 0, 8, 0), 0, 8, 2);
    trial::show_levels(rt, "000 Table 3.3, colour:", cars, &[1, 4, 5, 6, 1, 3])?;
    trial::show_levels(
        rt,
        "000 Table 5.1, colour:",
        cars,
        &[3, 3, 3, 3, 7, 1, 2, 4],
    )?;
    trial::show_levels(rt, "the first of two namings counts:", twice, &[8])
}

fn main(rt: HostRuntime) -> io::Result<()> {
    around(&rt)?;
    between(&rt)?;
    greatest(&rt)?;
    table_6_5(&rt)?;
    layered(&rt)?;
    pairs::of_documents(&rt)?;
    sides::small(&rt)?;
    sides::every_value(&rt)
}

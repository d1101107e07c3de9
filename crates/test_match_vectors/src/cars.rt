// The cars of 000, Table 1.1, and of 003, Table 1.
use crate::matches;
use preference::PreferenceList;
use std::io;
use test_support::short_logs::run;
use test_support::trial;

// Price and mileage; the lattice would have 20,001 × 50,001 nodes. Cars 1, 4, 5, 7.
pub fn of_000(rt: &impl Print) -> io::Result<()> {
    let lowest_both = trial::list(&[
        (1, trial::lowest(0, 20000, 1)),
        (2, trial::lowest(0, 150000, 3)),
    ]);
    let cars = [
        run(1, 5000, 100000),
        run(1, 10000, 80000),
        run(1, 12000, 150000),
        run(1, 20000, 10000),
        run(1, 15000, 20000),
        run(1, 16000, 25000),
        run(1, 10000, 30000),
    ];
    matches::show_matches(rt, "000 Table 1.1:", lowest_both, &cars)
}

// ---- 003, Table 1: price in thousands, power, make and colour on the columns 1, 2, 6 and 7

const RED: i32 = 1;

const BLUE: i32 = 2;

const GREEN: i32 = 3;

const YELLOW: i32 = 4;

const PURPLE: i32 = 5;

const BLACK: i32 = 6;

const CYAN: i32 = 7;

const GMC: i32 = 11;

const BMW: i32 = 12;

const FORD: i32 = 13;

const MERCEDES: i32 = 14;

const AUDI: i32 = 15;

fn car(make: i32, colour: i32, price: i32, power: i32) -> [i32; 8] {
    [1, price, power, 0, 0, 0, make, colour]
}

fn table_1() -> [[i32; 8]; 7] {
    [
        car(FORD, BLACK, 70, 180),
        car(MERCEDES, PURPLE, 75, 200),
        car(BMW, RED, 50, 230),
        car(AUDI, BLUE, 45, 170),
        car(MERCEDES, CYAN, 55, 190),
        car(GMC, YELLOW, 70, 150),
        car(BMW, GREEN, 48, 220),
    ]
}

// The colours of Figure 1: red, blue, green; then yellow, purple; then the others.
fn colours() -> PreferenceList {
    let bare = trial::list(&[(7, trial::layers(2, 2))]);
    let best = trial::with_layer(bare, 0, 0, [RED, BLUE, GREEN].into_iter());
    trial::with_layer(best, 0, 1, [YELLOW, PURPLE].into_iter())
}

fn colours_and_makes() -> PreferenceList {
    let bare = trial::with(colours(), 6, trial::layers(4, 4));
    let mut list = bare;
    for (layer, make) in (0u8..4).zip([GMC, BMW, FORD, MERCEDES]) {
        list = trial::with_named(list, 1, make, layer);
    }
    list
}

// Cars 3, 4, 7; then car 3 alone, where trivial substitutable values would keep 4 and 7: they must not be; then cars 3,
// 6, 7.
pub fn of_003(rt: &impl Print) -> io::Result<()> {
    let cars = table_1();
    let cheap_and_strong = trial::list(&[
        (1, trial::lowest(45, 75, 1)),
        (2, trial::highest(150, 230, 1)),
    ]);
    let colours_and_price = trial::with(colours(), 1, trial::around(45, 75, 5, 50));
    let makes = colours_and_makes();
    matches::show_matches(rt, "003 Table 1:", cheap_and_strong, &cars)?;
    matches::show_matches(
        rt,
        "003 Ex. 3, colours and price:",
        colours_and_price,
        &cars,
    )?;
    matches::show_matches(rt, "003 Ex. 4, colours and makes:", makes, &cars)
}

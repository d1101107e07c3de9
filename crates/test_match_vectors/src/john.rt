// John's preference of 000 on its sample databases.
use crate::matches;
use std::io;
use test_support::rental::{self, BLACK, BROWN, PURPLE, RED, YELLOW, car};

// Cars 1, 2, 3. With trivial substitutable values (Ex. 18) car 4 would be best too: it must not be.
fn show_table_3_2(rt: &impl Print) -> io::Result<()> {
    let cars = [
        car(50, RED),
        car(70, BLACK),
        car(75, BROWN),
        car(55, YELLOW),
        car(45, RED),
        car(45, PURPLE),
    ];
    matches::show_matches(rt, "000 Ex. 9, Table 3.2:", rental::john(), &cars)
}

// Without the cars 2 and 3: cars 1 and 4.
fn show_example_11(rt: &impl Print) -> io::Result<()> {
    let cars = [car(50, RED), car(55, YELLOW), car(45, RED), car(45, PURPLE)];
    let label = "000 Ex. 11, Table 3.2 without two cars:";
    matches::show_matches(rt, label, rental::john(), &cars)
}

fn show_table_5_1(rt: &impl Print) -> io::Result<()> {
    let list = rental::john();
    let cars = rental::table_5_1();
    let values = cars.map(|car| (car[1], car[7]));
    matches::show_matches(rt, "000 Ex. 34, Table 5.1:", list, &cars)?;
    matches::show_windows(rt, "000 Ex. 30, Table 5.1, compares:", list, &cars)?;
    matches::show_sums(rt, "000 Table 5.1, level sums:", list, &values)
}

pub fn of_000(rt: &impl Print) -> io::Result<()> {
    show_table_3_2(rt)?;
    show_example_11(rt)?;
    show_table_5_1(rt)
}

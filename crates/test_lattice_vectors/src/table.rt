// Table 5.1 of 000: a price on column 1 and a colour on column 7.
use crate::answers::{self, Held};
use std::io;
use test_support::rental;
use test_support::show::Spaced;

pub fn of_000(rt: &impl Print) -> io::Result<()> {
    let rows = rental::table_5_1();
    let mut marks = [238u8; 8];
    let mut nodes = [238u8; 12];
    let list = rental::john();
    let answer = lattice::run(list, rows.as_flattened(), &mut marks, &mut nodes, 13);
    println!(rt; "000 Ex. 33, Table 5.1:{}", Held(&nodes))?;
    println!(rt;
        "000 Ex. 34, Table 5.1: bytes{}{} marks{}",
        Spaced(&nodes),
        answers::told(answer),
        Spaced(&marks)
    )
}

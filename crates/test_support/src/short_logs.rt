// Short logs and lists for the programs that try calls.
use crate::trial;
use preference::PreferenceList;

// Hours, cubic metres and density of a run, the other columns 0.
pub const fn run(hours: i32, cubic_metres: i32, density: i32) -> [i32; 8] {
    [hours, cubic_metres, density, 0, 0, 0, 0, 0]
}

pub fn harbour() -> [[i32; 8]; 5] {
    [
        run(800, 900, 1300),
        run(650, 1000, 1400),
        run(700, 850, 1250),
        run(720, 880, 1210),
        run(810, 900, 1270),
    ]
}

pub fn harbour_list() -> PreferenceList {
    trial::list(&[
        (1, trial::highest(0, 1000, 100)),
        (2, trial::around(1000, 1600, 50, 1250)),
    ])
}

// The same with kind 08 for AROUND.
pub fn harbour_pairs() -> PreferenceList {
    trial::list(&[
        (1, trial::highest(0, 1000, 100)),
        (2, trial::between_trivial(1000, 1600, 50, 1250, 1250)),
    ])
}

// LOWEST over 0 to each of these by 1, on the columns from 1 on: the figures there are the levels.
pub fn lowest_to(greatest: &[u16]) -> PreferenceList {
    let mut list = trial::none();
    for (column, m) in (1u8..8).zip(greatest) {
        list = trial::with(list, column, trial::lowest(0, i32::from(*m), 1));
    }
    list
}

// John's preference of 000 and Table 5.1: BETWEEN on column 1, the price, and on column 7 the colours red and blue
// before others, purple last.
use crate::trial;
use preference::PreferenceList;

pub const RED: i32 = 1;

pub const BLUE: i32 = 2;

pub const PURPLE: i32 = 3;

pub const BLACK: i32 = 4;

pub const BROWN: i32 = 5;

pub const YELLOW: i32 = 6;

pub const SILVER: i32 = 7;

pub fn john() -> PreferenceList {
    let bare = trial::list(&[
        (1, trial::between(45, 95, 5, 60, 80)),
        (7, trial::layers(2, 1)),
    ]);
    let best = trial::with_layer(bare, 1, 0, [RED, BLUE].into_iter());
    trial::with_named(best, 1, PURPLE, 2)
}

// A run of one hundredth of an hour.
pub fn car(price: i32, colour: i32) -> [i32; 8] {
    [1, price, 0, 0, 0, 0, 0, colour]
}

pub fn table_5_1() -> [[i32; 8]; 8] {
    [
        car(56, PURPLE),
        car(81, PURPLE),
        car(70, PURPLE),
        car(46, PURPLE),
        car(45, SILVER),
        car(95, RED),
        car(84, BLUE),
        car(88, BLACK),
    ]
}

// Levels and sides of every form at its ends and next to them: lo, hi, z, low and up.
use constructor::Constructor;
use std::io;
use test_support::trial;

const LEAST: i32 = i32::MIN;

const GREATEST: i32 = i32::MAX;

// Steps that make M 65,535 over every value.
const STEP: u32 = 65537;

fn show_each(rt: &impl Print, values: &[i32], cases: &[(&str, Constructor)]) -> io::Result<()> {
    for (label, form) in cases {
        trial::show_levels(rt, *label, trial::single(*form), values)?;
    }
    Ok(())
}

// The values from 9 to 21 around lo, hi and what is wished for.
const SMALL: [i32; 12] = [9, 10, 11, 12, 13, 14, 15, 16, 17, 19, 20, 21];

fn small_targets(rt: &impl Print) -> io::Result<()> {
    show_each(
        rt,
        &SMALL,
        &[
            ("LOWEST 10..20 by 3:", trial::lowest(10, 20, 3)),
            ("HIGHEST 10..20 by 3:", trial::highest(10, 20, 3)),
            ("AROUND 15 in 10..20 by 3:", trial::around(10, 20, 3, 15)),
            ("AROUND 10 in 10..20 by 3:", trial::around(10, 20, 3, 10)),
            ("AROUND 20 in 10..20 by 3:", trial::around(10, 20, 3, 20)),
        ],
    )
}

fn small_ranges(rt: &impl Print) -> io::Result<()> {
    show_each(
        rt,
        &SMALL,
        &[
            (
                "BETWEEN 13..16 in 10..20 by 3:",
                trial::between(10, 20, 3, 13, 16),
            ),
            (
                "BETWEEN 10..20 in 10..20 by 3:",
                trial::between(10, 20, 3, 10, 20),
            ),
            (
                "kind 08, 13..16 in 10..20 by 3:",
                trial::between_trivial(10, 20, 3, 13, 16),
            ),
            (
                "kind 08, 10..20 in 10..20 by 3:",
                trial::between_trivial(10, 20, 3, 10, 20),
            ),
        ],
    )
}

// Every value has a layer, named or not.
fn small_layers(rt: &impl Print) -> io::Result<()> {
    let bare = trial::single(trial::layers(2, 1));
    let named = trial::with_named(trial::with_named(bare, 0, 10, 0), 0, 20, 2);
    let values = [LEAST, 9, 10, 11, 19, 20, 21, GREATEST];
    trial::show_levels(rt, "LAYERED, 10 and 20 named:", named, &values)
}

pub fn small(rt: &impl Print) -> io::Result<()> {
    small_targets(rt)?;
    small_ranges(rt)?;
    small_layers(rt)?;
    show_each(
        rt,
        &[4, 5, 6],
        &[
            ("one value:", trial::between(5, 5, 1, 5, 5)),
            ("one value, kind 08:", trial::between_trivial(5, 5, 1, 5, 5)),
        ],
    )
}

// ---- both ends of 32 bits

const EVERY: [i32; 9] = [LEAST, LEAST + 1, -2, -1, 0, 1, 2, GREATEST - 1, GREATEST];

fn every_target(rt: &impl Print) -> io::Result<()> {
    show_each(
        rt,
        &EVERY,
        &[
            ("every value, lowest:", trial::lowest(LEAST, GREATEST, STEP)),
            (
                "every value, highest:",
                trial::highest(LEAST, GREATEST, STEP),
            ),
            (
                "every value, highest by 4294967295:",
                trial::highest(LEAST, GREATEST, u32::MAX),
            ),
            (
                "every value, around 0:",
                trial::around(LEAST, GREATEST, STEP, 0),
            ),
            (
                "every value, around lo:",
                trial::around(LEAST, GREATEST, STEP, LEAST),
            ),
            (
                "every value, around hi:",
                trial::around(LEAST, GREATEST, STEP, GREATEST),
            ),
        ],
    )
}

fn every_range(rt: &impl Print) -> io::Result<()> {
    let near = trial::between(LEAST, GREATEST, STEP, -1, 1);
    let whole = trial::between(LEAST, GREATEST, STEP, LEAST, GREATEST);
    let near_pair = trial::between_trivial(LEAST, GREATEST, STEP, -1, 1);
    let whole_pair = trial::between_trivial(LEAST, GREATEST, STEP, LEAST, GREATEST);
    show_each(
        rt,
        &EVERY,
        &[
            ("every value, between -1 and 1:", near),
            ("every value, between lo and hi:", whole),
            ("every value, kind 08, -1 to 1:", near_pair),
            ("every value, kind 08, lo to hi:", whole_pair),
        ],
    )
}

pub fn every_value(rt: &impl Print) -> io::Result<()> {
    every_target(rt)?;
    every_range(rt)
}

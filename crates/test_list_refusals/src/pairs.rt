// The same of kind 08 (document 02, order 2), which has BETWEEN's figures and no names.
use constructor::Constructor;
use std::io;
use test_support::trial;

const PAIR: Constructor = Constructor::BetweenTrivial {
    lo: 0,
    hi: 100,
    step: 10,
    low: 50,
    up: 60,
};

// Over 0 to 100.
fn over_100(step: u32, low: i32, up: i32) -> Constructor {
    trial::between_trivial(0, 100, step, low, up)
}

fn lists(rt: &impl Print) -> io::Result<()> {
    let full = trial::on_each(0..8, PAIR);
    crate::show_lists(
        rt,
        &[
            ("kind 08:", trial::single(PAIR)),
            ("eight wishes of kind 08:", full),
            ("kind 08, a count of 9:", trial::with(full, 0, PAIR)),
        ],
    )?;
    crate::show_second(
        rt,
        &[
            ("kind 08, column 8:", (8, PAIR)),
            ("kind 08, a taken column:", (7, PAIR)),
        ],
    )
}

fn figures(rt: &impl Print) -> io::Result<()> {
    crate::show_wishes(
        rt,
        &[
            ("kind 08, low below lo:", over_100(10, -1, 50)),
            ("kind 08, up above hi:", over_100(10, 50, 101)),
            ("kind 08, low above up:", over_100(10, 51, 50)),
            ("kind 08, low and up the bounds:", over_100(10, 0, 100)),
            ("kind 08, step 0:", over_100(0, 50, 60)),
            (
                "kind 08, lo above hi:",
                trial::between_trivial(1, 0, 10, 1, 0),
            ),
        ],
    )
}

// M is the greater of both sides, and no sum of them.
fn greatest(rt: &impl Print) -> io::Result<()> {
    let both = trial::between_trivial(-65535, 65535, 1, 0, 0);
    let above = trial::between_trivial(0, 65536, 1, 0, 0);
    let below = trial::between_trivial(0, 65536, 1, 65536, 65536);
    crate::show_wishes(
        rt,
        &[
            ("kind 08, M 65,535 on both sides:", both),
            ("kind 08, M 65,536 above:", above),
            ("kind 08, M 65,536 below:", below),
        ],
    )
}

fn named(rt: &impl Print) -> io::Result<()> {
    let pair = trial::single(PAIR);
    let both = trial::with(pair, 0, trial::layers(2, 1));
    crate::show_lists(
        rt,
        &[
            (
                "named value of a wish of kind 08:",
                trial::with_named(pair, 0, 7, 0),
            ),
            (
                "kind 08, 3 before 6 of one named value:",
                trial::with_named(pair, 0, 7, 200),
            ),
            (
                "kind 08, named value of the wish after it:",
                trial::with_named(both, 1, 7, 2),
            ),
        ],
    )
}

fn orders(rt: &impl Print) -> io::Result<()> {
    let no_step = trial::between_trivial(0, 1, 0, 0, 0);
    let far = trial::between_trivial(0, 65536, 1, -1, 0);
    let ends = [-1, 0, 100, 101];
    let label = "kind 08, lo..hi and one past each end:";
    crate::show_second(rt, &[("kind 08, 5 before 6:", (8, no_step))])?;
    crate::show_wishes(rt, &[("kind 08, 6 before 7:", far)])?;
    trial::show_levels(rt, label, trial::single(PAIR), &ends)
}

pub fn all(rt: &impl Print) -> io::Result<()> {
    lists(rt)?;
    figures(rt)?;
    greatest(rt)?;
    named(rt)?;
    orders(rt)
}

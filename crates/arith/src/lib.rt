// Exact arithmetic on values of 32 bits: how far one lies above another, and division rounded up.
#![tactic(auto)]

ghost use Rattle.std.specs.Prelude.{◌≡◌, ◌+◌, ◌<◌};
ghost use Rattle.limits.specs.Limits.{u32_end};
ghost use Rattle.arith.specs.Gap.{gap};
ghost use Rattle.arith.specs.Ceil.{ceil_div};

// How far a lies above b, and 0 where it does not. The difference of two i32 can need 33 bits, so it is taken in i64.
#[tactic(auto, using(crate::specs::Laws::Gap::gap_max, crate::specs::Laws::Gap::gap_small))]
pub fn signed_gap(a: i32, b: i32) -> u64
    ensures { (result ≡ gap a b) × (result < u32_end) }
{
    (i64::from(a) - i64::from(b)).max(0).unsigned_abs()
}

// How far v lies outside low..up. At most one gap is above zero, or low is above up and their sum is that gap: 32 bits
// hold it.
pub fn outside(low: i32, up: i32, v: i32) -> u32
    ensures { result ≡ gap low v + gap v up }
{
    (signed_gap(low, v) + signed_gap(v, up)) as u32
}

// d divided by step, rounded up; 0 where step is 0.
#[tactic(auto, using(crate::specs::Laws::Ceil::ceil_zero, crate::specs::Laws::Ceil::ceil_library))]
pub fn ceil_div(d: u32, step: u32) -> u32
    ensures { result ≡ ceil_div d step }
{
    if step == 0 { 0 } else { d.div_ceil(step) }
}

// Base preference constructors (000, section 3.1.1): what document 01 calls the forms of a wish. Distance, level, side,
// greatest level and the checks 6, 7 and 3 of one form. Levels and checks go by its cases here alone; the reader makes
// and the writer takes them.
#![tactic(auto)]

ghost use Rattle.std.specs.Prelude.{◌≡◌, ◌+◌, ◌&&◌, ltb, get_or, pos};
ghost use Rattle.std.specs.Int.Signed.{le_z};
ghost use Rattle.arith.specs.Gap.{gap};
ghost use Rattle.arith.specs.Ceil.{ceil_div};
ghost use Rattle.refusal.specs.Refusal.{refusal_of};
ghost use Rattle.constructor.specs.Level.{scale_of, target_of, layering_of, numeric_level, max_level, inside};
ghost use Rattle.constructor.specs.Side.{side_by, side_of, is_pair, pair_of, half_of, part_by};
ghost use Rattle.constructor.specs.Valid.{sound, constructor_refusal, layer_refusal};
ghost use Rattle.constructor.specs.declared.Constructor.TheVariants.{Lowest};

use refusal::Refusal;

// The figures of a form stand in its case, as document 01 names them; what forms have in common is told by `scale` and
// `target`.
#[derive(Clone, Copy, Debug, PartialEq, Eq)]
pub enum Constructor {
    Lowest {
        lo: i32,
        hi: i32,
        step: u32,
    },
    Highest {
        lo: i32,
        hi: i32,
        step: u32,
    },
    Around {
        lo: i32,
        hi: i32,
        step: u32,
        z: i32,
    },
    Between {
        lo: i32,
        hi: i32,
        step: u32,
        low: i32,
        up: i32,
    },
    Layered {
        top: u8,
        others: u8,
    },
    // Document 02, order 2, kind 08: BETWEEN with trivial SV-semantics (000, Theorem 16).
    BetweenTrivial {
        lo: i32,
        hi: i32,
        step: u32,
        low: i32,
        up: i32,
    },
}

// What stands at a place that the list does not hold: "a zero wish is LOWEST, every figure 0".
impl Default for Constructor {
    ghost is_default = { λ c. c ≡ Lowest (pos 0) (pos 0) 0 };

    fn default() -> Constructor {
        Constructor::Lowest {
            lo: 0,
            hi: 0,
            step: 0,
        }
    }
}

// The values that a form takes, lo to hi, and its step. LAYERED takes every value.
#[derive(Clone, Copy, Debug, PartialEq, Eq)]
pub struct Scale {
    pub lo: i32,
    pub hi: i32,
    pub step: u32,
}

// The values at distance 0, low to up: every distance is how far a value lies outside them.
#[derive(Clone, Copy, Debug, PartialEq, Eq)]
pub struct Target {
    pub low: i32,
    pub up: i32,
}

// Where a value lies: below the values at distance 0, among them, or above them.
#[derive(Clone, Copy, Debug, PartialEq, Eq)]
pub enum Side {
    Below,
    Inside,
    Above,
}

// What decides a level: the distance, or the layers of named values. An Option's None would not say that distance does.
#[derive(Clone, Copy, Debug, PartialEq, Eq)]
pub enum Layering {
    Numeric,
    Layers { top: u8, others: u8 },
}

impl Scale {
    // lo..hi is not empty, and the step is not 0.
    fn is_sound(self) -> bool
        ensures { result ≡ (le_z self.lo self.hi && ltb 0 self.step) }
    {
        (self.lo <= self.hi) & (0 < self.step)
    }

    // A target lies in lo..hi and is not empty, and the step is not 0.
    fn has(self, target: Target) -> bool
        ensures { result
            ≡ (le_z self.lo target.low && le_z target.low target.up
            && le_z target.up self.hi && ltb 0 self.step) }
    {
        (self.lo <= target.low)
            & (target.low <= target.up)
            & (target.up <= self.hi)
            & (0 < self.step)
    }
}

impl Target {
    // The level of v by its distance from low..up: one way for all forms, without a match.
    pub fn level(self, step: u32, v: i32) -> u64
        ensures { result ≡ ceil_div (gap self.low v + gap v self.up) step }
    {
        u64::from(arith::ceil_div(arith::outside(self.low, self.up, v), step))
    }

    // The side of low..up on which v lies.
    #[tactic(auto, unfolding(crate::specs::Side::side_by))]
    pub fn side(self, v: i32) -> Side
        ensures { result ≡ side_by self.low self.up v }
    {
        if v < self.low {
            Side::Below
        } else if v <= self.up {
            Side::Inside
        } else {
            Side::Above
        }
    }

    // Part `half` of the level of v, which then is a pair, or the level.
    pub fn part(self, step: u32, half: Option<usize>, v: i32) -> u64
        ensures { result
            ≡ part_by half (ceil_div (gap self.low v + gap v self.up) step) (side_by self.low self.up v) }
    {
        part_in(half, self.level(step, v), self.side(v))
    }
}

impl Constructor {
    pub fn scale(self) -> Scale
        ensures { result ≡ scale_of self }
    {
        match self {
            Constructor::Lowest { lo, hi, step }
            | Constructor::Highest { lo, hi, step }
            | Constructor::Around { lo, hi, step, .. }
            | Constructor::Between { lo, hi, step, .. }
            | Constructor::BetweenTrivial { lo, hi, step, .. } => Scale { lo, hi, step },
            Constructor::Layered { .. } => Scale {
                lo: i32::MIN,
                hi: i32::MAX,
                step: 1,
            },
        }
    }

    pub fn layering(self) -> Layering
        ensures { result ≡ layering_of self }
    {
        match self {
            Constructor::Layered { top, others } => Layering::Layers { top, others },
            _ => Layering::Numeric,
        }
    }

    pub fn target(self) -> Target
        ensures { result ≡ target_of self }
    {
        match self {
            Constructor::Lowest { lo, .. } => Target {
                low: i32::MIN,
                up: lo,
            },
            Constructor::Highest { hi, .. } => Target {
                low: hi,
                up: i32::MAX,
            },
            Constructor::Around { z, .. } => Target { low: z, up: z },
            Constructor::Between { low, up, .. } | Constructor::BetweenTrivial { low, up, .. } => {
                Target { low, up }
            }
            Constructor::Layered { .. } => Target {
                low: i32::MIN,
                up: i32::MAX,
            },
        }
    }

    // The level of v under a form that goes by distance.
    #[tactic(auto, using(crate::specs::Laws::Target::distance_outside))]
    pub fn level(self, v: i32) -> u64
        ensures { result ≡ numeric_level self v }
    {
        self.target().level(self.scale().step, v)
    }

    // M: no value of lo..hi lies farther off than both ends, so one of the ends has the greatest level.
    #[tactic(auto, unfolding(crate::specs::Level::max_level))]
    pub fn max_level(self) -> u64
        ensures { result ≡ max_level self }
    {
        let scale = self.scale();
        match self.layering() {
            Layering::Numeric => self.level(scale.lo).max(self.level(scale.hi)),
            Layering::Layers { top, .. } => u64::from(top),
        }
    }

    #[tactic(auto, unfolding(crate::specs::Level::inside))]
    pub fn is_inside(self, v: i32) -> bool
        ensures { result ≡ inside self v }
    {
        let scale = self.scale();
        (scale.lo <= v) & (v <= scale.hi)
    }

    // No figure of the form is refused by 6.
    #[tactic(auto, using(arith::specs::Laws::Gap::le_refl_z), unfolding(crate::specs::Valid::sound))]
    fn is_sound(self) -> bool
        ensures { result ≡ sound self }
    {
        match self {
            Constructor::Lowest { .. } | Constructor::Highest { .. } => self.scale().is_sound(),
            Constructor::Around { .. }
            | Constructor::Between { .. }
            | Constructor::BetweenTrivial { .. } => self.scale().has(self.target()),
            Constructor::Layered { top, others } => (0 < top)
                & (top <= limits::MAX_LAYER)
                & (others <= top),
        }
    }

    // 6 or 7.
    #[tactic(auto, using(refusal::specs::Laws::Refusal::checks), unfolding(crate::specs::Valid::constructor_refusal))]
    pub fn check(self) -> Result<(), Refusal>
        ensures { refusal_of result ≡ constructor_refusal self }
    {
        if !self.is_sound() {
            return Err(Refusal::Figures);
        }
        if limits::GREATEST_LEVEL < self.max_level() {
            return Err(Refusal::TooMuch);
        }
        Ok(())
    }

    // A named value's layer under the form: 3 where it has no layers, 6 above its top.
    #[tactic(auto, using(refusal::specs::Laws::Refusal::checks), unfolding(crate::specs::Valid::layer_refusal))]
    pub fn check_layer(self, layer: u8) -> Result<(), Refusal>
        ensures { refusal_of result ≡ layer_refusal self layer }
    {
        match self.layering() {
            Layering::Numeric => Err(Refusal::OutOfPlace),
            Layering::Layers { top, .. } if top < layer => Err(Refusal::Figures),
            Layering::Layers { .. } => Ok(()),
        }
    }

    // The side of v under the form.
    #[tactic(auto, unfolding(crate::specs::Side::side_of))]
    pub fn side(self, v: i32) -> Side
        ensures { result ≡ side_of self v }
    {
        self.target().side(v)
    }

    // Whether a level under the form has two parts.
    pub fn is_pair(self) -> bool
        ensures { result ≡ is_pair self }
    {
        matches!(self, Constructor::BetweenTrivial { .. })
    }

    // Which part of a pair is meant by part `half` of a level under the form, where a level is a pair.
    pub fn half(self, half: usize) -> Option<usize>
        ensures { result ≡ half_of self half }
    {
        self.is_pair().then_some(half)
    }
}

// Part `half` of a pair, 0 or 1: 1 is taken off the part of the other side.
fn pair_part(level: u64, side: Side, half: usize) -> u64
    ensures { result ≡ get_or (pair_of level side) half 0 }
{
    match (side, half) {
        (Side::Inside, _) => 0,
        (Side::Below, 0) | (Side::Above, 1) => level.saturating_sub(1),
        (Side::Below, 1) | (Side::Above, 0) => level,
        (_, _) => 0,
    }
}

// Part `half` of a level, which then is a pair, or the level.
pub fn part_in(half: Option<usize>, level: u64, side: Side) -> u64
    ensures { result ≡ part_by half level side }
{
    half.map_or(level, |half| pair_part(level, side, half))
}

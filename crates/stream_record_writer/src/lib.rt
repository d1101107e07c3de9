// Writing of one record: each function puts its bytes out. Inside the writer, and no call open to others.
#![tactic(auto)]

ghost use Rattle.std.specs.Prelude.{◌≡◌, ◌++◌};
ghost use Rattle.word.specs.Word.{word_bytes, int_bytes};
ghost use Rattle.output.specs.Writes.{Writes};
ghost use Rattle.stream_format.specs.Write.{constructor_bytes, preference_bytes, named_bytes, ints_bytes};
ghost use Rattle.stream_format.specs.Write.{between_bytes, run_bytes};
ghost use Rattle.stream_format.specs.RecordKind.{kind_number};

use constructor::{Constructor, Scale, Target};
use output::Output;
use preference::{Named, Preference};
use stream_format::RecordKind;

// The figures that all forms but LAYERED begin with.
#[tactic(auto, using(crate::proofs::Rules::figures))]
fn put_scale(out: &mut Output<'_>, scale: Scale)
    ensures { Writes out.old out.new (int_bytes scale.lo ++ int_bytes scale.hi ++ word_bytes scale.step) }
{
    out.put_i32(scale.lo);
    out.put_i32(scale.hi);
    out.put_u32(scale.step);
}

// The figures of BETWEEN, which kind 08 has too.
#[tactic(auto, using(crate::proofs::Rules::figures))]
fn put_between(out: &mut Output<'_>, scale: Scale, target: Target)
    ensures { Writes out.old out.new (between_bytes scale.lo scale.hi scale.step target.low target.up) }
{
    put_scale(out, scale);
    out.put_i32(target.low);
    out.put_i32(target.up);
}

#[tactic(auto, using(crate::proofs::Rules::figures))]
fn put_constructor(out: &mut Output<'_>, c: Constructor)
    ensures { Writes out.old out.new (constructor_bytes c) }
{
    match c {
        Constructor::Lowest { .. } | Constructor::Highest { .. } => put_scale(out, c.scale()),
        Constructor::Around { z, .. } => {
            put_scale(out, c.scale());
            out.put_i32(z);
        }
        Constructor::Between { .. } | Constructor::BetweenTrivial { .. } => {
            put_between(out, c.scale(), c.target())
        }
        Constructor::Layered { top, others } => out.put_bytes(&[top, others]),
    }
}

#[tactic(auto, using(crate::proofs::Rules::fields), unfolding(stream_format::specs::Write::preference_bytes))]
pub fn put_preference(out: &mut Output<'_>, p: Preference)
    ensures { Writes out.old out.new (preference_bytes p) }
{
    out.put_byte(u8::from(RecordKind::from(p.constructor)));
    out.put_byte(p.column);
    put_constructor(out, p.constructor);
}

#[tactic(auto, using(crate::proofs::Rules::fields), unfolding(stream_format::specs::Write::named_bytes))]
pub fn put_named(out: &mut Output<'_>, e: Named)
    ensures { Writes out.old out.new (named_bytes e) }
{
    out.put_byte(u8::from(RecordKind::Named));
    out.put_i32(e.value);
    out.put_byte(e.layer);
}

// The numbers of a row.
#[tactic(auto, using(crate::proofs::Rules::numbers), unfolding(stream_format::specs::Write::ints_bytes))]
fn put_ints(out: &mut Output<'_>, row: &[i32])
    ensures { Writes out.old out.new (ints_bytes row.now) }
{
    for v in row {
        out.put_i32(*v);
    }
}

#[tactic(auto, using(crate::proofs::Rules::fields), unfolding(stream_format::specs::Write::run_bytes))]
pub fn put_run(out: &mut Output<'_>, row: &[i32])
    ensures { Writes out.old out.new (run_bytes row.now) }
{
    out.put_byte(u8::from(RecordKind::Run));
    put_ints(out, row);
}

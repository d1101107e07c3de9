// Numbers put out as text. They are printed by hand, since the library's `write!` says what bytes it wrote only of a
// `String`, and the product takes no memory.
#![tactic(auto)]

ghost use Rattle.std.specs.Prelude.{◌≡◌, nat_abs};
ghost use Rattle.output.specs.Writes.{Writes};
ghost use Rattle.text.specs.Text.{decimal, sign, signed, decimals, hundredths};

use output::Output;

/// The number n in base ten.
#[tactic(auto, using(crate::specs::Laws::Text::figures, output::specs::Laws::Writes::writing))]
pub fn put_decimal(out: &mut Output<'_>, n: u64)
    ensures { Writes out.old out.new (decimal n) }
{
    if 10 <= n {
        put_decimal(out, n / 10);
    }
    out.put_byte(b'0' + (n % 10) as u8);
}

#[tactic(auto, using(crate::specs::Laws::Sign::signs, output::specs::Laws::Writes::writing))]
fn put_sign(out: &mut Output<'_>, v: i32)
    ensures { Writes out.old out.new (sign v) }
{
    if v < 0 {
        out.put_byte(b'-');
    }
}

/// The signed number v in base ten, a minus before a negative one.
#[tactic(auto, using(output::specs::Laws::Writes::writing), unfolding(crate::specs::Text::signed))]
pub fn put_signed(out: &mut Output<'_>, v: i32)
    ensures { Writes out.old out.new (signed v) }
{
    put_sign(out, v);
    put_decimal(out, u64::from(v.unsigned_abs()));
}

// A whole is so many hundredths.
const WHOLE: u64 = 100;

// The point and the two figures after it.
#[tactic(auto, using(output::specs::Laws::Writes::byte_by_byte))]
fn put_decimals(out: &mut Output<'_>, size: u64)
    ensures { Writes out.old out.new (decimals size) }
{
    out.put_byte(b'.');
    out.put_byte(b'0' + (size / 10 % 10) as u8);
    out.put_byte(b'0' + (size % 10) as u8);
}

/// The count of hundredths, with two decimals. The sign is that of the count: it stays where the whole part is 0.
#[tactic(auto, using(output::specs::Laws::Writes::writing), unfolding(crate::specs::Text::hundredths))]
pub fn put_hundredths(out: &mut Output<'_>, count: i32)
    ensures { Writes out.old out.new (hundredths count) }
{
    let size = u64::from(count.unsigned_abs());
    put_sign(out, count);
    put_decimal(out, size / WHOLE);
    put_decimals(out, size);
}

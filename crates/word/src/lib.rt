// A store into a lent list, and numbers of four bytes in lent bytes, least byte first. Every function takes every
// place: bytes past the end read as 0, and a store past the end does nothing.
#![tactic(auto)]

ghost use Rattle.std.specs.Prelude.{◌≡◌, set};
ghost use Rattle.word.specs.Word.{word_at, int_at};

/// Stores x at a place of a lent list. By hand: after a `get_mut` a proof knows the length alone.
pub fn put<T: Copy>(xs: &mut [T], at: usize, x: T)
    ensures { xs.new ≡ set xs.old at x }
{
    if at < xs.len() {
        xs[at] = x;
    }
}

#[tactic(auto, unfolding(crate::specs::Word::word_at))]
pub fn get_u32(s: &[u8], at: usize) -> u32
    ensures { result ≡ word_at s.now at }
{
    let rest = s.get(at..).unwrap_or(&[]);
    let byte = |i: usize| rest.get(i).copied().unwrap_or(0);
    u32::from_le_bytes([byte(0), byte(1), byte(2), byte(3)])
}

#[tactic(auto, unfolding(crate::specs::Word::int_at))]
pub fn get_i32(s: &[u8], at: usize) -> i32
    ensures { result ≡ int_at s.now at }
{
    get_u32(s, at).cast_signed()
}

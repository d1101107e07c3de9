// The first place of a list at which a test holds, looked for by sixteens: the test is put to sixteen elements at once.
// The library's `position` alone takes ten times as long on a list of thousands of bytes that are 0.
#![tactic(auto)]

ghost use Rattle.std.specs.Prelude.{◌≡◌, ◌<◌, ◌≤◌, true, false, length};
ghost use Rattle.std.specs.List.{AllWithin, HoldsAt};

// Whether the test holds at one of these elements. It is put to all of them, so that the compiler makes one test of it.
fn holds_somewhere<T: Copy, F: Fn(T) -> bool>(block: &[T], holds: &F) -> bool
    requires { F.IsAlwaysCallable holds.now }
    ensures { result ≡ false → AllWithin (λ x. F.post holds.now x false) block.now 0 (length block.now) }
{
    let mut somewhere = false;
    for x in block {
        somewhere |= holds(*x);
    }
    somewhere
}

// A place before which the test holds nowhere, block by block. A loop: that it holds nowhere in the blocks which
// `take_while` let through was not proved.
fn passed_over<T: Copy, F: Fn(T) -> bool>(xs: &[T], holds: &F) -> usize
    requires { F.IsAlwaysCallable holds.now }
    ensures within { result ≤ length xs.now }
    ensures before { AllWithin (λ x. F.post holds.now x false) xs.now 0 result }
{
    let mut front = 0;
    for block in xs.chunks_exact(16) {
        if holds_somewhere(block, holds) {
            break;
        }
        front += 16;
    }
    front
}

// The first place at which the test holds; the length where there is none. No Option, and behind the blocks a place
// counted by hand: the lattice's walk over rows of two nodes took 23 % more instructions with an Option, 6 % more with
// `position` and 28 % more with a range. For short tests alone: up to fifteen elements past that place are tested too.
pub fn first_place<T: Copy, F: Fn(T) -> bool>(xs: &[T], holds: F) -> usize
    requires { F.IsAlwaysCallable holds }
    ensures within { result ≤ length xs.now }
    ensures before { AllWithin (λ x. F.post holds x false) xs.now 0 result }
    ensures there { result < length xs.now → HoldsAt (λ x. F.post holds x true) xs.now result }
{
    let mut at = passed_over(xs, &holds);
    while at < xs.len() {
        if holds(xs[at]) {
            return at;
        }
        at += 1;
    }
    at
}

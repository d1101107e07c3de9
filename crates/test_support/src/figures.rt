// Every figure of a list or a log is a function of the seed and of what it is for, so that each can be asked for anew.
ghost use Rattle.std.specs.Prelude.{◌<◌, ◌≤◌};
ghost use Rattle.std.specs.Iterator.{at_most};

#[derive(Clone, Copy)]
pub struct Seed(u32);

impl Seed {
    // The next one of a pseudo-random sequence.
    fn next(self) -> Seed {
        Seed(self.0.wrapping_mul(1664525).wrapping_add(1013904223))
    }

    // A figure below n; 0 where n is 0.
    pub fn below(self, salt: u32, n: u32) -> u32
        ensures below { 0 < n → result < n }
        ensures most { result ≤ n }
    {
        let mixed = Seed(self.0.wrapping_add(salt.wrapping_mul(2654435761)));
        let figure = mixed.next().next().0 / 65536;
        figure.checked_rem(n).unwrap_or(0)
    }

    // A figure from 0 to n.
    pub fn upto(self, salt: u32, n: u16) -> u16
        ensures { result ≤ n }
    {
        self.below(salt, u32::from(n) + 1) as u16
    }
}

// Seeds from 1 on, each the next of the one before.
#[derive(Drop)]
pub struct Seeds {
    seed: Seed,
    left: u32,
}

impl Seeds {
    pub fn new(count: u32) -> Seeds {
        Seeds {
            seed: Seed(1),
            left: count,
        }
    }
}

impl Iterator for Seeds {
    type Item = Seed;

    ghost remaining = { λ s. at_most s.left };

    fn next(&mut self) -> Option<Seed> {
        if self.left == 0 {
            return None;
        }
        self.left -= 1;
        let seed = self.seed;
        self.seed = seed.next();
        Some(seed)
    }
}

// How generated logs were tried, each by a trial that counts figures of its own.
ghost use Rattle.std.specs.Prelude.{◌≡◌, ◌↔◌, IsSomeAnd, IsTrue};

// A log that is not refused by 8: its level parts, and the figures of the trial.
#[derive(Clone, Copy)]
pub struct Accepted<T> {
    pub parts: usize,
    pub figures: T,
}

// How a log was tried, and how often the engine differs.
#[derive(Clone, Copy)]
pub struct Tried<T> {
    pub accepted: Option<Accepted<T>>,
    pub differing: usize,
}

impl<T> Tried<T> {
    // Whether it has the most level parts.
    pub fn has_sixteen(&self) -> bool
        ensures { IsTrue result ↔ IsSomeAnd self.now.accepted (λ log. log.parts ≡ 16) }
    {
        match &self.accepted {
            Some(log) => log.parts == 16,
            None => false,
        }
    }
}

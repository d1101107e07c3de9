// What a call of the engine comes back as.
use refusal::Refusal;
use std::fmt;
use test_support::show::Answer;

pub fn told(answer: Result<u32, Refusal>) -> Answer<'static> {
    Answer("crossed", answer)
}

// The numbers of the nodes that rows hold.
#[derive(Clone, Copy)]
pub struct Held<'a>(pub &'a [u8]);

impl fmt::Display for Held<'_> {
    fn fmt<W: fmt::Write>(&self, f: &mut fmt::Formatter<W>) -> fmt::Result {
        write!(f, " held")?;
        for (x, byte) in self.0.iter().enumerate() {
            if *byte == 1 || *byte == 3 {
                write!(f, " {x}")?;
            }
        }
        Ok(())
    }
}

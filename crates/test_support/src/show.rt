// What the programs that show or try something print as a unit.
use refusal::Refusal;
use std::fmt;

// Numbers with a space before each.
#[derive(Clone, Copy)]
pub struct Spaced<'a, T>(pub &'a [T]);

impl<T: fmt::Display> fmt::Display for Spaced<'_, T> {
    fn fmt<W: fmt::Write>(&self, f: &mut fmt::Formatter<W>) -> fmt::Result {
        for number in self.0 {
            write!(f, " {number}")?;
        }
        Ok(())
    }
}

// A refusal by its documented number.
#[derive(Clone, Copy)]
pub struct Refused(pub Refusal);

impl fmt::Display for Refused {
    fn fmt<W: fmt::Write>(&self, f: &mut fmt::Formatter<W>) -> fmt::Result {
        let number = u8::from(self.0);
        write!(f, "refused {number}")
    }
}

// What a call comes back as: a number with the word for it, or the refusal.
#[derive(Clone, Copy)]
pub struct Answer<'a>(pub &'a str, pub Result<u32, Refusal>);

impl fmt::Display for Answer<'_> {
    fn fmt<W: fmt::Write>(&self, f: &mut fmt::Formatter<W>) -> fmt::Result {
        let word = self.0;
        match self.1 {
            Ok(n) => write!(f, " {word} {n}"),
            Err(refusal) => write!(f, " {}", Refused(refusal)),
        }
    }
}

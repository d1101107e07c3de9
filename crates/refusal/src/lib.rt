// Why a call is refused (document 01, "When a number comes back"; document 02, order 1), and checks of several things
// in order.
#![tactic(auto)]

ghost use Rattle.std.specs.Prelude.{◌≡◌, ℕ, ◌<◌};
ghost use Rattle.laws.specs.First.{first_refusal};
ghost use Rattle.refusal.specs.Refusal.{number, refusal_of};

// Each case stands for its documented number.
#[derive(Clone, Copy, Debug, PartialEq, Eq)]
pub enum Refusal {
    WishCount = 1,
    UnknownKind = 2,
    OutOfPlace = 3,
    CutShort = 4,
    Column = 5,
    Figures = 6,
    TooMuch = 7,
    OutsideBounds = 8,
    TooManyNodes = 9,
    NoRoom = 10,
    OverBudget = 11,
    NoSuchRow = 12,
    Shortlisted = 13,
    NoMark = 14,
    NoSheetRoom = 15,
}

impl From<Refusal> for u8 {
    ghost from_gives = { λ r n. n ≡ number r };

    fn from(refusal: Refusal) -> u8 {
        refusal as u8
    }
}

// The number as it is printed.
impl From<Refusal> for u64 {
    ghost from_gives = { λ r n. n ≡ number r };

    fn from(refusal: Refusal) -> u64 {
        refusal as u64
    }
}

// The first refusal that a check gives for places 0 to n - 1.
pub fn check_each<F: Fn(usize) -> Result<(), Refusal>>(n: usize, check: F) -> Result<(), Refusal>
    requires { (i : ℕ) → i < n → F.pre check i }
    ensures { (f : ℕ → ℕ) → ((i : ℕ) (r : _) → i < n → F.post check i r → refusal_of r ≡ f i)
        → refusal_of result ≡ first_refusal f n }
{
    for i in 0..n {
        check(i)?;
    }
    Ok(())
}

// The format of streams: what reading and writing mean. The definitions stand in specs/, their laws in specs/Laws/;
// here are the types that both speak of.
#![tactic(auto)]

ghost use Rattle.std.specs.Prelude.{◌≡◌, ◌≤◌};
ghost use Rattle.stream_format.specs.Kinds.{run_body};
ghost use Rattle.stream_format.specs.RecordKind.{kind_number, row_of, read_as};

use constructor::Constructor;
use preference::PreferenceList;
use refusal::Refusal;

// The kind of a record, each with its byte.
#[derive(Clone, Copy, Debug, PartialEq, Eq)]
pub enum RecordKind {
    Lowest = 1,
    Highest = 2,
    Around = 3,
    Between = 4,
    Layered = 5,
    Named = 6,
    Run = 7,
    BetweenTrivial = 8,
}

impl From<RecordKind> for u8 {
    ghost from_gives = { λ kind n. n ≡ kind_number kind };

    fn from(kind: RecordKind) -> u8 {
        kind as u8
    }
}

// 2 for a byte that is no kind's.
impl TryFrom<u8> for RecordKind {
    type Error = Refusal;

    ghost try_from_gives = { read_as };

    #[tactic(auto, using(crate::specs::Laws::Kinds::outside))]
    fn try_from(byte: u8) -> Result<RecordKind, Refusal> {
        match byte {
            1 => Ok(RecordKind::Lowest),
            2 => Ok(RecordKind::Highest),
            3 => Ok(RecordKind::Around),
            4 => Ok(RecordKind::Between),
            5 => Ok(RecordKind::Layered),
            6 => Ok(RecordKind::Named),
            7 => Ok(RecordKind::Run),
            8 => Ok(RecordKind::BetweenTrivial),
            _ => Err(Refusal::UnknownKind),
        }
    }
}

// The kind of a form's record: no form is written as NAMED or RUN.
impl From<Constructor> for RecordKind {
    ghost use Rattle.stream_format.specs.Write.{kind_for};

    ghost from_gives = { λ c kind. kind_number kind ≡ kind_for c };

    fn from(form: Constructor) -> RecordKind {
        match form {
            Constructor::Lowest { .. } => RecordKind::Lowest,
            Constructor::Highest { .. } => RecordKind::Highest,
            Constructor::Around { .. } => RecordKind::Around,
            Constructor::Between { .. } => RecordKind::Between,
            Constructor::Layered { .. } => RecordKind::Layered,
            Constructor::BetweenTrivial { .. } => RecordKind::BetweenTrivial,
        }
    }
}

// The bytes of the longer bodies. Document 02, order 2: kind 08 "has BETWEEN's body".
const AROUND_BODY: usize = 17;

const BETWEEN_BODY: usize = 21;

pub const RUN_BODY: usize = 32;

impl RecordKind {
    // The bytes of its body, at most those of a run.
    #[tactic(auto, unfolding(crate::specs::Kinds::kind_of, crate::specs::Kinds::kinds))]
    pub fn body(self) -> usize
        ensures body { result ≡ (row_of self).body }
        ensures short { result ≤ run_body }
    {
        match self {
            RecordKind::Lowest | RecordKind::Highest => 13,
            RecordKind::Around => AROUND_BODY,
            RecordKind::Between | RecordKind::BetweenTrivial => BETWEEN_BODY,
            RecordKind::Layered => 3,
            RecordKind::Named => 5,
            RecordKind::Run => RUN_BODY,
        }
    }
}

// What reading an accepted stream tells: the byte place that it came to, which is the stream's length, the rows
// read, and the wish list.
#[derive(Clone, Copy)]
pub struct StreamRead {
    pub place: usize,
    pub rows: usize,
    pub list: PreferenceList,
}

// Why a stream is refused, and the byte place that is told with it.
#[derive(Clone, Copy, Debug, PartialEq, Eq)]
pub struct ReadRefusal {
    pub refusal: Refusal,
    pub place: usize,
}

// A call on a stream tells why it is refused, and not where.
impl From<ReadRefusal> for Refusal {
    ghost from_gives = { λ unread refusal. refusal ≡ unread.refusal };

    fn from(unread: ReadRefusal) -> Refusal {
        unread.refusal
    }
}

// The figures of the record that the bytes begin with, and what they add to the list and the rows.
ghost use Rattle.std.specs.Prelude.{◌≡◌, ◌-◌, ◌<◌, ◌≤◌};
ghost use Rattle.limits.specs.Limits.{max_runs, max_wishes, max_named};
ghost use Rattle.stream_format.specs.Kinds.{PreferenceRecord, NamedRecord, RunRecord, kind_byte};
ghost use Rattle.stream_format.specs.Read.{constructor_of, preference_of, named_of};
ghost use Rattle.stream_format.specs.Read.{add_preference, add_named, list_after, rows_after};
ghost use Rattle.stream_format.specs.RecordKind.{kind_number, row_of, read_as};

use constructor::Constructor;
use preference::{Named, Preference, PreferenceList};
use refusal::Refusal;
use stream_format::RecordKind;

// Where the figures of a form with bounds stand; z stands where low does.
const LO: usize = 2;

const HI: usize = 6;

const STEP: usize = 10;

const LOW: usize = 14;

const UP: usize = 18;

// 2 for a byte that is no kind's.
pub fn kind_of(bytes: &[u8]) -> Result<RecordKind, Refusal>
    ensures { read_as (kind_byte bytes.now) result }
{
    RecordKind::try_from(bytes.first().copied().unwrap_or(0))
}

// What stands past the record's own figures is read too, and not used. No form has the kinds NAMED and RUN.
#[tactic(auto, unfolding(stream_format::specs::Read::constructor_of))]
fn constructor_of(kind: RecordKind, bytes: &[u8]) -> Constructor
    ensures { result ≡ constructor_of (kind_number kind) bytes.now }
{
    let lo = word::get_i32(bytes, LO);
    let hi = word::get_i32(bytes, HI);
    let step = word::get_u32(bytes, STEP);
    let low = word::get_i32(bytes, LOW);
    let up = word::get_i32(bytes, UP);
    match kind {
        RecordKind::Lowest => Constructor::Lowest { lo, hi, step },
        RecordKind::Highest => Constructor::Highest { lo, hi, step },
        RecordKind::Around => Constructor::Around {
            lo,
            hi,
            step,
            z: low,
        },
        RecordKind::Between => Constructor::Between {
            lo,
            hi,
            step,
            low,
            up,
        },
        RecordKind::BetweenTrivial => Constructor::BetweenTrivial {
            lo,
            hi,
            step,
            low,
            up,
        },
        RecordKind::Layered | RecordKind::Named | RecordKind::Run => Constructor::Layered {
            top: bytes.get(2).copied().unwrap_or(0),
            others: bytes.get(3).copied().unwrap_or(0),
        },
    }
}

// The wish that the bytes tell, whatever they begin with: what is no form's kind is read as LAYERED.
#[tactic(auto, using(crate::proofs::Known::no_kind))]
pub fn preference_of(bytes: &[u8]) -> Preference
    ensures { result ≡ preference_of bytes.now }
{
    let kind = kind_of(bytes).unwrap_or(RecordKind::Layered);
    Preference {
        column: bytes.get(1).copied().unwrap_or(0),
        constructor: constructor_of(kind, bytes),
    }
}

// The named value, of the preference at a place.
pub fn named_of(preference: u8, bytes: &[u8]) -> Named
    ensures { result ≡ named_of preference bytes.now }
{
    Named {
        preference,
        value: word::get_i32(bytes, 1),
        layer: bytes.get(5).copied().unwrap_or(0),
    }
}

// The wish is the list's last.
fn add_preference(list: &mut PreferenceList, preference: Preference)
    requires { list.old.count < 8 }
    ensures { list.new ≡ add_preference list.old preference }
{
    list.preferences[list.count as usize] = preference;
    list.count += 1;
}

// The named value is the list's last, and belongs to the last preference.
fn add_named(list: &mut PreferenceList, bytes: &[u8])
    requires { (list.old.count ≤ max_wishes) × (list.old.namedcount < max_named) }
    ensures { list.new ≡ add_named list.old (named_of (list.old.count - 1) bytes.now) }
{
    let owner = list.count.saturating_sub(1) as u8;
    list.named[list.namedcount as usize] = named_of(owner, bytes);
    list.namedcount += 1;
}

// What a record of that kind adds to the list: in place, since a list is long.
#[tactic(auto, using(crate::proofs::Known::classes))]
pub fn add_to(list: &mut PreferenceList, kind: RecordKind, bytes: &[u8])
    requires wish { (row_of kind).class ≡ PreferenceRecord → list.old.count < 8 }
    requires naming { (row_of kind).class ≡ NamedRecord
        → (list.old.count ≤ max_wishes) × (list.old.namedcount < max_named) }
    ensures { list.new ≡ list_after (row_of kind).class list.old bytes.now }
{
    match kind {
        RecordKind::Named => add_named(list, bytes),
        RecordKind::Run => {}
        _ => add_preference(list, preference_of(bytes)),
    }
}

// The rows with a record of that kind.
#[tactic(auto, using(crate::proofs::Known::classes))]
pub fn rows_after(kind: RecordKind, rows: usize) -> usize
    requires { (row_of kind).class ≡ RunRecord → rows < max_runs }
    ensures { result ≡ rows_after (row_of kind).class rows }
{
    match kind {
        RecordKind::Run => rows + 1,
        _ => rows,
    }
}

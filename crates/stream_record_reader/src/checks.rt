// The number that a record is refused by. Rows and list stand apart, so that each check tells of every list, also of
// one that a `Reading` does not hold.
ghost use Rattle.std.specs.Prelude.{◌≡◌, IfOk};
ghost use Rattle.refusal.specs.Refusal.{refusal_of};
ghost use Rattle.stream_format.specs.Kinds.{kind_byte};
ghost use Rattle.stream_format.specs.Read.{last_constructor, ends_layered, out_of_place, naming_refusal};
ghost use Rattle.stream_format.specs.Read.{figures_refusal, record_refusal, reading};
ghost use Rattle.stream_format.specs.RecordKind.{kind_number, row_of};

use crate::figures;
use constructor::{Constructor, Layering};
use preference::PreferenceList;
use refusal::Refusal;
use stream_format::RecordKind;

// The form of the last preference, or what stands at the first place where there is none; LOWEST with every figure 0
// where the count is past the array.
fn last_constructor(list: &PreferenceList) -> Constructor
    ensures { result ≡ last_constructor list.now }
{
    list.constructor_at((list.count as usize).saturating_sub(1))
}

// Whether the last preference is LAYERED.
#[tactic(auto, unfolding(stream_format::specs::Read::ends_layered))]
fn ends_layered(list: &PreferenceList) -> bool
    ensures { result ≡ ends_layered list.now }
{
    match last_constructor(list).layering() {
        Layering::Numeric => false,
        Layering::Layers { .. } => 0 < list.count,
    }
}

// 3: a preference after a run, a named value that follows on no LAYERED preference, a run before any
// preference.
#[tactic(auto, using(crate::proofs::Known::classes), unfolding(stream_format::specs::Read::out_of_place))]
#[inline(always)]
fn is_out_of_place(rows: usize, list: &PreferenceList, kind: RecordKind) -> bool
    ensures { result ≡ out_of_place (row_of kind).class (reading 0 rows list.now) }
{
    match kind {
        RecordKind::Named => (0 < rows) | !ends_layered(list),
        RecordKind::Run => list.count == 0,
        _ => 0 < rows,
    }
}

// 6 for the layer, 7 for the 65th named value.
#[tactic(auto, using(crate::proofs::Known::in_order), unfolding(stream_format::specs::Read::naming_refusal))]
fn check_naming(list: &PreferenceList, layer: u8) -> Result<(), Refusal>
    ensures { refusal_of result ≡ naming_refusal list.now layer }
{
    last_constructor(list).check_layer(layer)?;
    if preference::MAX_NAMED_COUNT <= list.namedcount {
        return Err(Refusal::TooMuch);
    }
    Ok(())
}

// The number of a whole record in its place: 5, 6, 7.
#[tactic(auto, using(crate::proofs::Known::figures), unfolding(stream_format::specs::Read::figures_refusal))]
#[inline(always)]
fn check_figures(
    rows: usize,
    list: &PreferenceList,
    kind: RecordKind,
    bytes: &[u8],
) -> Result<(), Refusal>
    ensures { refusal_of result ≡ figures_refusal (row_of kind).class (reading 0 rows list.now) bytes.now }
{
    match kind {
        RecordKind::Named => check_naming(list, figures::named_of(0, bytes).layer),
        RecordKind::Run if limits::MAX_RUNS <= rows => Err(Refusal::TooMuch),
        RecordKind::Run => Ok(()),
        _ => preference::check_preference(
            *list,
            list.count as usize,
            figures::preference_of(bytes),
        ),
    }
}

// The number of a record whose kind is known: 3, 4, then that of its figures.
#[inline(always)]
#[tactic(auto, using(crate::proofs::Known::in_order), unfolding(stream_format::specs::Read::record_refusal))]
fn check_known(
    rows: usize,
    list: &PreferenceList,
    kind: RecordKind,
    bytes: &[u8],
) -> Result<(), Refusal>
    requires { kind_byte bytes.now ≡ kind_number kind }
    ensures { refusal_of result ≡ record_refusal (reading 0 rows list.now) bytes.now }
{
    if is_out_of_place(rows, list, kind) {
        return Err(Refusal::OutOfPlace);
    }
    if bytes.len() <= kind.body() {
        return Err(Refusal::CutShort);
    }
    check_figures(rows, list, kind, bytes)
}

// The number of the record that the bytes begin with, after so many rows and a list: 2, 3, 4, then that of its
// figures; else its kind. Most records are runs: known by their byte before the others, each takes 24 instructions
// less.
#[tactic(auto, using(crate::proofs::Known::in_order), unfolding(stream_format::specs::Read::record_refusal))]
pub fn check_record(rows: usize, list: &PreferenceList, bytes: &[u8]) -> Result<RecordKind, Refusal>
    ensures refused { refusal_of result ≡ record_refusal (reading 0 rows list.now) bytes.now }
    ensures kind { IfOk result (λ kind. kind_number kind ≡ kind_byte bytes.now) }
{
    if bytes.first() == Some(&u8::from(RecordKind::Run)) {
        check_known(rows, list, RecordKind::Run, bytes)?;
        return Ok(RecordKind::Run);
    }
    let kind = figures::kind_of(bytes)?;
    check_known(rows, list, kind, bytes)?;
    Ok(kind)
}

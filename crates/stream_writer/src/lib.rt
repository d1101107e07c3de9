// Writing of a preference list and a log as a stream. Bytes past the output's end are stored nowhere, so that the room
// is one check.
#![tactic(auto)]

ghost use Rattle.std.specs.Prelude.{◌≡◌, ◌≤◌, length};
ghost use Rattle.std.proofs.lemmas.List.Edits.{sets};
ghost use Rattle.limits.specs.Limits.{max_named};
ghost use Rattle.run_log.specs.Log.{row_count, log_refusal};
ghost use Rattle.laws.specs.Outcome.{outcome};
ghost use Rattle.laws.specs.Lists.{joined};
ghost use Rattle.refusal.specs.Refusal.{outcome_of};
ghost use Rattle.preference.specs.List.{places, named_places};
ghost use Rattle.preference.specs.Valid.{list_refusal};
ghost use Rattle.output.specs.Writes.{Writes};
ghost use Rattle.stream_format.specs.Write.{named_bytes_of, preference_records, row_bytes};
ghost use Rattle.stream_format.specs.Write.{stream_of, write_refusal, out_after};

use output::Output;
use preference::PreferenceList;
use refusal::Refusal;

// The named values of the preference at place i.
#[tactic(auto, using(crate::proofs::Rules::places))]
fn put_names_of(out: &mut Output<'_>, list: &PreferenceList, i: usize)
    ensures { Writes out.old out.new (joined (named_bytes_of list.now i) (named_places list.now)) }
{
    for naming in list.counted_names() {
        if usize::from(naming.preference) == i {
            stream_record_writer::put_named(out, *naming);
        }
    }
}

// Each preference, and its named values.
#[tactic(auto, using(crate::proofs::Rules::places), unfolding(stream_format::specs::Write::preference_records))]
fn put_preferences(out: &mut Output<'_>, list: &PreferenceList)
    requires { list.now.namedcount ≤ max_named }
    ensures { Writes out.old out.new (joined (preference_records list.now) (places list.now)) }
{
    for (i, p) in list.counted().iter().enumerate() {
        stream_record_writer::put_preference(out, *p);
        put_names_of(out, list, i);
    }
}

#[tactic(auto, using(output::specs::Laws::Writes::writing))]
fn put_runs(out: &mut Output<'_>, log: &[i32])
    ensures { Writes out.old out.new (joined (row_bytes log.now) (row_count log.now)) }
{
    // By number: `run_log` alone cuts a log into rows.
    for r in 0..run_log::row_count(log) {
        stream_record_writer::put_run(out, run_log::row(log, r));
    }
}

// The bytes of a run's record: its kind and its body.
const RUN_RECORD: usize = 1 + stream_format::RUN_BODY;

// The length of the stream: where its preferences end when they are put out where there is no room, and then its runs,
// which are all of one length.
#[tactic(auto, using(crate::proofs::Short::few))]
fn stream_length(list: &PreferenceList, log: &[i32]) -> usize
    requires of_list { list_refusal list.now ≡ 0 }
    requires of_log { log_refusal log.now ≡ 0 }
    ensures { result ≡ length (stream_of list.now log.now) }
{
    let mut stream = Output::for_records(&mut []);
    put_preferences(&mut stream, list);
    stream.at + RUN_RECORD * run_log::row_count(log)
}

// Stores the stream from the front of the output on, as far as there is room.
#[tactic(auto, using(crate::proofs::Short::few))]
fn store(out: &mut [u8], list: &PreferenceList, log: &[i32])
    requires of_list { list_refusal list.now ≡ 0 }
    requires of_log { log_refusal log.now ≡ 0 }
    ensures { out.new ≡ sets out.old 0 (stream_of list.now log.now) }
{
    let mut stream = Output::for_records(out);
    put_preferences(&mut stream, list);
    put_runs(&mut stream, log);
}

// Writes the stream of a list and a log, and gives its length. Nothing is stored before every check has passed.
pub fn write(list: PreferenceList, log: &[i32], out: &mut [u8]) -> Result<usize, Refusal>
    ensures answer { outcome_of result
        ≡ outcome (write_refusal list log.now (length out.old)) (length (stream_of list log.now)) }
    ensures left { out.new ≡ out_after list log.now out.old }
{
    preference::check(list)?;
    run_log::check(log)?;
    let length = stream_length(&list, log);
    if out.len() < length {
        return Err(Refusal::NoRoom);
    }
    store(out, &list, log);
    Ok(length)
}

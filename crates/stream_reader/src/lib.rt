// Reading of streams (document 01, "Runs and records" and "When a number comes back"): record by record, and then the
// log.
#![tactic(auto)]

ghost use Rattle.std.specs.Prelude.{true, ◌≡◌, ◌+◌, ◌*◌, ◌<◌, ◌≤◌, get_or, length};
ghost use Rattle.std.proofs.lemmas.List.Edits.{sets};
ghost use Rattle.limits.specs.Limits.{columns, max_runs};
ghost use Rattle.refusal.specs.Refusal.{refusal_of};
ghost use Rattle.stream_format.specs.Kinds.{run_record};
ghost use Rattle.stream_format.specs.Read.{reading, read_answer, records, end_refusal, read_of, log_after};
ghost use Rattle.stream_format.specs.Midway.{Midway, to_read};
ghost use Rattle.stream_record_reader.specs.Reading.{so_far};
ghost use Rattle.stream_reader.specs.Runs.{run_values};

use refusal::Refusal;
use stream_format::{ReadRefusal, RecordKind, StreamRead};
use stream_record_reader::reading::Reading;
use stream_record_reader::values;

// ---- record by record

// The bytes of a run's record: its kind and its body.
const RUN_RECORD: usize = 1 + stream_format::RUN_BODY;

// Whether a whole run stands at a place, with room for it after so many rows.
fn run_stands(stream: &[u8], at: usize, rows: usize) -> bool
    ensures { result ≡ true
        → (get_or stream.now at 0 ≡ 7) × (at + run_record ≤ length stream.now) × (rows < max_runs) }
{
    at < stream.len()
        && stream[at] == u8::from(RecordKind::Run)
        && RUN_RECORD <= stream.len() - at
        && rows < limits::MAX_RUNS
}

// Passes over the runs that stand here: they change the place and the rows alone, and most records are runs. No range:
// how many stand here is known where one does not.
fn pass_runs(stream: &[u8], reading: &mut Reading)
    requires { Midway stream.now (so_far reading.old) }
    ensures { Midway stream.now (so_far reading.new)
        × (to_read stream.now (so_far reading.new) ≤ to_read stream.now (so_far reading.old)) }
{
    if reading.list.count == 0 {
        return;
    }
    while run_stands(stream, reading.place, reading.rows) {
        reading.place += RUN_RECORD;
        reading.rows += 1;
    }
}

// Every record, or the first refusal.
fn read_records(stream: &[u8]) -> Result<StreamRead, ReadRefusal>
    ensures { read_answer result ≡ records stream.now }
{
    let mut reading = Reading::new();
    // No range: where the next record begins is known once this one is read.
    while reading.place < stream.len() {
        let place = reading.place;
        reading
            .add_record(&stream[place..])
            .map_err(|refusal| ReadRefusal { refusal, place })?;
        pass_runs(stream, &mut reading);
    }
    Ok(StreamRead {
        place: reading.place,
        rows: reading.rows,
        list: reading.list,
    })
}

// 1 and 10, of what was read.
#[tactic(auto, using(refusal::specs::Laws::Refusal::checks), unfolding(stream_format::specs::Read::end_refusal))]
fn check_end(read: &StreamRead, room: usize) -> Result<(), Refusal>
    ensures { refusal_of result ≡ end_refusal (reading 0 read.now.rows read.now.list) room }
{
    if read.list.count == 0 {
        return Err(Refusal::WishCount);
    }
    if room / limits::COLUMNS < read.rows {
        return Err(Refusal::NoRoom);
    }
    Ok(())
}

// ---- the log, and the call

// Stores the values of so many runs, one after the other.
// By number: of a log that `chunks_exact_mut` has lent a proof knows no number afterwards.
#[tactic(auto, using(crate::proofs::PutRuns::run_by_run))]
fn put_runs(runs: &[u8], rows: usize, log: &mut [i32])
    requires whole { length runs.now ≡ run_record * rows }
    requires room { columns * rows ≤ length log.old }
    ensures { log.new ≡ sets log.old 0 (run_values rows runs.now) }
{
    for row in 0..rows {
        values::put_run(&runs[RUN_RECORD * row..], log, limits::COLUMNS * row);
    }
}

// Reads a stream. The log is written once the whole stream is accepted: its runs stand at its end, since any other
// record is refused after a run.
pub fn read(stream: &[u8], log: &mut [i32]) -> Result<StreamRead, ReadRefusal>
    ensures answer { read_answer result ≡ read_of stream.now (length log.old) }
    ensures left { log.new ≡ log_after stream.now log.old }
{
    let read = read_records(stream)?;
    let place = stream.len();
    check_end(&read, log.len()).map_err(|refusal| ReadRefusal { refusal, place })?;
    let first_run = stream.len() - RUN_RECORD * read.rows;
    put_runs(&stream[first_run..], read.rows, log);
    Ok(read)
}

// A stream that is read record by record: what its records gave so far, and what the next is checked against.
ghost use Rattle.stream_format.specs.Midway.{Columns};

use crate::{checks, figures};
use preference::{Named, Preference, PreferenceList};
use refusal::Refusal;

// The place of the next record, the rows, and the list. No two wishes of the list have one column, so it has
// room for each wish that is accepted.
#[derive(Drop)]
pub struct Reading {
    pub place: usize,
    pub rows: usize,
    pub list: PreferenceList,
    ghost columns: { Columns list },
}

impl Reading {
    ghost use Rattle.std.specs.Prelude.{◌≡◌, ◌<◌};
    ghost use Rattle.stream_format.specs.Read.{start, take_record};
    ghost use Rattle.stream_record_reader.specs.Reading.{so_far, after, places_end};

    // Before the first record: no rows, and every figure of the list 0.
    pub fn new() -> Reading
        ensures { so_far result ≡ start }
    {
        Reading {
            place: 0,
            rows: 0,
            list: PreferenceList {
                count: 0,
                preferences: [Preference::default(); limits::MAX_WISHES],
                namedcount: 0,
                named: [Named::default(); limits::MAX_NAMED],
            },
        }
    }

    // The record that the bytes begin with, refused or read.
    #[tactic(auto, using(crate::proofs::Taken::taken))]
    pub fn add_record(&mut self, bytes: &[u8]) -> Result<(), Refusal>
        requires { self.old.place < places_end }
        ensures { after self.old.place result self.new ≡ take_record (so_far self.old) bytes.now }
    {
        let kind = checks::check_record(self.rows, &self.list, bytes)?;
        self.rows = figures::rows_after(kind, self.rows);
        figures::add_to(&mut self.list, kind, bytes);
        self.place += 1 + kind.body();
        Ok(())
    }
}

// Damaged streams: every prefix, every size of log, and every byte changed to every value.
ghost use Rattle.std.specs.Prelude.{◌≤◌};

use crate::places;
use preference::PreferenceList;
use std::io;
use stream_format::StreamRead;
use test_model_records::Counts;
use test_support::lent;

// What the lent buffers hold where nothing is to be stored.
const KEPT: i32 = -77777;

const UNTOUCHED: u8 = 238;

// Eight rows, which the streams have no more of.
const ROOM: usize = 64;

// Whether writing what was read gives the stream again, and no more.
fn comes_back(stream: &[u8], list: PreferenceList, log: &[i32]) -> bool {
    let mut out = [UNTOUCHED; 256];
    stream_writer::write(list, log, &mut out) == Ok(stream.len())
        && lent::holds(&out, stream, UNTOUCHED)
}

// Whether what was read has the place and the counts that are due, leaves places past them zero and the log past its
// rows as it was, and is written back.
fn is_due(read: StreamRead, counts: Counts, stream: &[u8], log: &[i32]) -> bool {
    let list = read.list;
    let Some((rows, rest)) = log.split_at_checked(read.rows.saturating_mul(8)) else {
        return false;
    };
    read.place == stream.len()
        && read.rows == counts.rows
        && list.count as usize == counts.wishes
        && list.namedcount as usize == counts.names
        && places::zero_past(&list)
        && lent::changed(rest, KEPT) == 0
        && comes_back(stream, list, rows)
}

// Whether the reader agrees with the model, and touches nothing that it must not.
fn agrees(stream: &[u8], room: usize) -> bool {
    let mut log = [KEPT; ROOM];
    let got = stream_reader::read(stream, &mut log[..room.min(ROOM)]);
    match (got, test_model_records::judge(stream, room)) {
        (Ok(read), Ok(counts)) => is_due(read, counts, stream, &log),
        (Err(got), Err(due)) => {
            u8::from(got.refusal) == u8::from(due.fault)
                && got.place == due.place
                && lent::changed(&log, KEPT) == 0
        }
        _ => false,
    }
}

// How many streams were tried, and how many differed.
#[derive(Clone, Copy, Default)]
struct Tally {
    tried: usize,
    differing: usize,
}

impl Tally {
    fn add(&mut self, tried: usize, differing: usize) {
        self.tried = self.tried.saturating_add(tried);
        self.differing = self.differing.saturating_add(differing);
    }
}

fn prefixes(stream: &[u8]) -> Tally {
    let mut tally = Tally::default();
    for n in 0..stream.len() {
        tally.add(1, usize::from(!agrees(lent::front(stream, n), ROOM)));
    }
    tally
}

// Rooms of every size up to that of eight rows.
fn rooms(stream: &[u8]) -> Tally {
    let mut tally = Tally::default();
    for room in 0..=ROOM {
        tally.add(1, usize::from(!agrees(stream, room)));
    }
    tally
}

const BYTES: usize = 256;

// The byte at a place changed to every value, and then back.
fn values(stream: &mut [u8], at: usize) -> usize
    ensures { result ≤ 256 }
{
    let before = stream.get(at).copied().unwrap_or(0);
    let mut differing: usize = 0;
    for value in 0..BYTES {
        word::put(stream, at, value as u8);
        differing += usize::from(!agrees(stream, ROOM));
    }
    word::put(stream, at, before);
    differing
}

fn every_byte(stream: &mut [u8]) -> Tally {
    let mut tally = Tally::default();
    for at in 0..stream.len() {
        tally.add(BYTES, values(stream, at));
    }
    tally
}

fn show(rt: &impl Print, label: &str, what: &str, tally: Tally) -> io::Result<()> {
    println!(rt;
        "{label} {what} {} differing {}",
        tally.tried, tally.differing
    )
}

pub fn show_damage(rt: &impl Print, label: &str, stream: &mut [u8]) -> io::Result<()> {
    show(rt, label, "prefixes", prefixes(stream))?;
    show(rt, label, "rooms", rooms(stream))?;
    show(rt, label, "bytes changed", every_byte(stream))
}

// Calls of the window engine: what they ask, what they are lent, and what stands there before them.
use preference::PreferenceList;

pub const MARK: u8 = 238;

pub const WORD: u32 = 77;

// How many marks and how many numbers of the work list.
#[derive(Clone, Copy)]
pub struct Room {
    pub marks: usize,
    pub work: usize,
}

impl Room {
    // The least room of a call.
    pub fn least(rows: usize, w: u32) -> Room {
        Room {
            marks: rows,
            work: rows.saturating_add(w as usize).saturating_mul(2),
        }
    }
}

// A list and a log, the window, and the room for it.
#[derive(Clone, Copy)]
pub struct Call<'a> {
    pub list: PreferenceList,
    pub log: &'a [i32],
    pub w: u32,
    pub room: Room,
}

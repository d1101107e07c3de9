// The limits of document 01, under the names that include/shortlist.h gives them.
// specs/Limits.antt has the same numbers for specifications, each with its sentence.
#![tactic(auto)]

// How many numbers a row has.
pub const COLUMNS: usize = 8;

pub const MAX_RUNS: usize = 1024;

// How many numbers the longest log has.
pub const MAX_VALUES: usize = COLUMNS * MAX_RUNS;

// How many numbers the longest level table has: two planes, each as long as the longest log.
pub const MAX_TABLE: usize = 2 * MAX_VALUES;

pub const MAX_WISHES: usize = 8;

pub const MAX_NAMED: usize = 64;

// The greatest top layer of a LAYERED wish.
pub const MAX_LAYER: u8 = 15;

// The greatest level of an accepted wish.
pub const GREATEST_LEVEL: u64 = 65535;

// How many levels there are up to the greatest: a level table holds its levels modulo this.
pub const LEVEL_COUNT: u64 = GREATEST_LEVEL + 1;

pub const MAX_NODES: usize = 32768;

// A budget that suffices for every log.
pub const ENOUGH_BUDGET: u32 = 262144;

pub const MAX_WINDOW: u32 = 1024;

// How many numbers of a work list suffice for every log and window.
pub const MAX_WORK: usize = 2 * (MAX_RUNS + MAX_WINDOW as usize);

// The program's window where the lattice is too large.
pub const PROGRAM_WINDOW: u32 = 64;

// How many bytes the longest accepted stream has.
pub const MAX_STREAM_BYTES: usize = 34334;

// How many bytes the longest shift sheet has.
pub const MAX_SHEET_BYTES: usize = 108732;

// A sheet told byte by byte, apart from the product: what stands at a place follows from the place alone. Lines are
// counted over all pages, 52 to a page, and numbers are read from their right end, at distance 0.
ghost use Rattle.std.specs.Prelude.{◌≤◌};

fn letter(text: &[u8], at: usize) -> u8 {
    text.get(at).copied().unwrap_or(b' ')
}

// ---- numbers

// What is left of n without its last d figures.
fn without(n: u64, d: usize) -> u64 {
    let mut left = n;
    for _ in 0..d {
        left /= 10;
    }
    left
}

// A number with no fewer figures than the least.
#[derive(Clone, Copy)]
struct Number {
    size: u64,
    negative: bool,
    least: usize,
}

impl Number {
    fn new(v: i32, least: usize) -> Number {
        Number {
            size: u64::from(v.unsigned_abs()),
            negative: v < 0,
            least,
        }
    }

    fn count(n: usize) -> Number {
        Number {
            size: n as u64,
            negative: false,
            least: 1,
        }
    }

    fn has_figure(self, d: usize) -> bool {
        d < self.least || 0 < without(self.size, d)
    }

    // At distance d: a figure, the sign in front of them, or a blank.
    fn letter(self, d: usize) -> u8 {
        if self.has_figure(d) {
            return b'0' + (without(self.size, d) % 10) as u8;
        }
        match d.checked_sub(1) {
            Some(next) if self.negative && self.has_figure(next) => b'-',
            _ => b' ',
        }
    }
}

fn hours(v: i32, d: usize) -> u8 {
    let number = Number::new(v, 3);
    match d {
        0 | 1 => number.letter(d),
        2 => b'.',
        _ => number.letter(d - 1),
    }
}

// ---- lines: the byte at a place in one

const HEADING: &[u8] =
    b" ROW        HOURS     CUBIC M     DENSITY        FUEL     SUCTION   DISCHARGE       DEPTH        SOIL";

// A marked run: its row, and its values.
#[derive(Clone, Copy)]
pub struct Run {
    pub row: usize,
    pub values: [i32; 8],
}

impl Run {
    fn value(&self, column: usize) -> i32 {
        self.values.get(column).copied().unwrap_or(0)
    }

    fn letter(&self, at: usize) -> u8 {
        if at < 4 {
            return Number::count(self.row).letter(3 - at);
        }
        if at < 17 {
            return hours(self.value(0), 16 - at);
        }
        let value = self.value((at - 17) / 12 + 1);
        Number::new(value, 1).letter(11 - (at - 17) % 12)
    }
}

// The text is written backwards, n for a number; generated sheets have fewer than ten pages.
fn in_foot(page: usize, pages: usize, d: usize) -> u8 {
    match d {
        0 => Number::count(pages).letter(0),
        5 => Number::count(page).letter(0),
        _ => letter(b"n FO n EGAP", d),
    }
}

// ---- the sheet of some runs

// The number of its last line, counted from 0: the foot behind the last run. No log has more than 1,024.
pub fn last_line(runs: &[Run]) -> usize
    ensures { result ≤ 2000 }
{
    match runs.len().min(1024).checked_sub(1) {
        Some(last) => last + last / 50 * 2 + 2,
        None => 1,
    }
}

fn in_line(runs: &[Run], line: usize, at: usize) -> u8 {
    let last = last_line(runs);
    let k = line % 52;
    if 100 < at {
        return b'\n';
    }
    if k == 0 {
        return letter(HEADING, at);
    }
    if k == 51 || line == last {
        return in_foot(line / 52 + 1, last / 52 + 1, 100 - at);
    }
    match runs.get(line / 52 * 50 + k - 1) {
        Some(run) => run.letter(at),
        None => b' ',
    }
}

// The byte at a place of the sheet; what was there past its end.
pub fn byte(runs: &[Run], i: usize, old: u8) -> u8 {
    let line = i / 102;
    if last_line(runs) < line {
        return old;
    }
    in_line(runs, line, i % 102)
}

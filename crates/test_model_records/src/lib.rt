// A reader's verdict on a stream, written apart from the reader, from document 01 and order 2 of document 02 alone: no
// type, rule or number is shared. Proved safe and ending, no more.
#![tactic(auto)]

ghost use Rattle.std.specs.Prelude.{◌≤◌, length, IfOk};

const MOST_NAMES: usize = 64;

const MOST_ROWS: usize = 1024;

// Why a stream is refused, by document 01's numbers.
#[derive(Clone, Copy, PartialEq, Eq)]
pub enum Fault {
    NoWish = 1,
    UnknownKind = 2,
    OutOfOrder = 3,
    CutShort = 4,
    Column = 5,
    Figures = 6,
    TooMuch = 7,
    Room = 10,
}

impl From<Fault> for u8 {
    fn from(fault: Fault) -> u8 {
        fault as u8
    }
}

#[derive(Clone, Copy, PartialEq, Eq)]
pub struct Refused {
    pub fault: Fault,
    pub place: usize,
}

#[derive(Clone, Copy, PartialEq, Eq, Default)]
pub struct Counts {
    pub rows: usize,
    pub wishes: usize,
    pub names: usize,
}

#[derive(Clone, Copy, PartialEq, Eq)]
enum Kind {
    Lowest,
    Highest,
    Around,
    Between,
    Layered,
    Name,
    Run,
    BothSides,
}

impl TryFrom<u8> for Kind {
    type Error = Fault;

    fn try_from(byte: u8) -> Result<Kind, Fault> {
        match byte {
            1 => Ok(Kind::Lowest),
            2 => Ok(Kind::Highest),
            3 => Ok(Kind::Around),
            4 => Ok(Kind::Between),
            5 => Ok(Kind::Layered),
            6 => Ok(Kind::Name),
            7 => Ok(Kind::Run),
            8 => Ok(Kind::BothSides),
            _ => Err(Fault::UnknownKind),
        }
    }
}

impl Kind {
    // How many bytes follow that of the kind.
    fn body(self) -> usize {
        match self {
            Kind::Lowest | Kind::Highest => 13,
            Kind::Around => 17,
            Kind::Between | Kind::BothSides => 21,
            Kind::Layered => 3,
            Kind::Name => 5,
            Kind::Run => 32,
        }
    }
}

// The values low to up are wished for, of lo to hi, and no distance may take more than 65,535 steps.
fn check_target(
    lo: &[u8; 4],
    hi: &[u8; 4],
    step: &[u8; 4],
    low: &[u8; 4],
    up: &[u8; 4],
) -> Result<(), Fault> {
    let lo = i64::from(i32::from_le_bytes(*lo));
    let hi = i64::from(i32::from_le_bytes(*hi));
    let step = i64::from(u32::from_le_bytes(*step));
    let low = i64::from(i32::from_le_bytes(*low));
    let up = i64::from(i32::from_le_bytes(*up));
    if step == 0 || low < lo || up < low || hi < up {
        return Err(Fault::Figures);
    }
    if 65535 * step < (low - lo).max(hi - up) {
        return Err(Fault::TooMuch);
    }
    Ok(())
}

// LOWEST and HIGHEST have three numbers, and are as far from lo as from hi; AROUND has four, BETWEEN and kind 08 five.
fn check_numbers(figures: &[u8]) -> Result<(), Fault> {
    let (numbers, _) = figures.as_chunks();
    match numbers {
        [lo, hi, step] => check_target(lo, hi, step, lo, lo),
        [lo, hi, step, z] => check_target(lo, hi, step, z, z),
        [lo, hi, step, low, up] => check_target(lo, hi, step, low, up),
        _ => Err(Fault::CutShort),
    }
}

fn check_layers(top: u8, others: u8) -> Result<(), Fault> {
    if top == 0 || 15 < top || top < others {
        return Err(Fault::Figures);
    }
    Ok(())
}

// What was read before a place: the counts, the columns taken, the kind of the last record, and the top layer of the
// last LAYERED wish.
#[derive(Default, Drop)]
struct Before {
    counts: Counts,
    columns: [bool; 8],
    last: Option<Kind>,
    top: u8,
}

impl Before {
    fn is_out_of_order(&self, kind: Kind) -> bool {
        match kind {
            Kind::Run => self.counts.wishes == 0,
            Kind::Name => self.last != Some(Kind::Layered) && self.last != Some(Kind::Name),
            _ => self.counts.rows != 0,
        }
    }

    fn take_row(&mut self) -> Result<(), Fault> {
        if MOST_ROWS <= self.counts.rows {
            return Err(Fault::TooMuch);
        }
        self.counts.rows += 1;
        Ok(())
    }

    fn take_name(&mut self, layer: u8) -> Result<(), Fault> {
        if self.top < layer {
            return Err(Fault::Figures);
        }
        if MOST_NAMES <= self.counts.names {
            return Err(Fault::TooMuch);
        }
        self.counts.names += 1;
        Ok(())
    }

    fn take_wish(&mut self, column: u8, figures: &[u8]) -> Result<(), Fault> {
        match self.columns.get_mut(usize::from(column)) {
            Some(taken) if !*taken => *taken = true,
            _ => return Err(Fault::Column),
        }
        self.counts.wishes = self.counts.wishes.saturating_add(1);
        match figures {
            [top, others] => {
                self.top = *top;
                check_layers(*top, *others)
            }
            _ => check_numbers(figures),
        }
    }

    fn take(&mut self, kind: Kind, body: &[u8]) -> Result<(), Fault> {
        match (kind, body) {
            (Kind::Run, _) => self.take_row(),
            (Kind::Name, [.., layer]) => self.take_name(*layer),
            (_, [column, figures @ ..]) => self.take_wish(*column, figures),
            _ => Err(Fault::CutShort),
        }
    }

    // Reads a record, and gives what follows it.
    fn read<'a>(&mut self, kind: u8, after: &'a [u8]) -> Result<&'a [u8], Fault>
        ensures { IfOk result (λ rest. length rest.now ≤ length after.now) }
    {
        let kind = Kind::try_from(kind)?;
        if self.is_out_of_order(kind) {
            return Err(Fault::OutOfOrder);
        }
        let (body, rest) = after.split_at_checked(kind.body()).ok_or(Fault::CutShort)?;
        self.take(kind, body)?;
        self.last = Some(kind);
        Ok(rest)
    }
}

// The verdict on a stream read into a log of so many numbers.
pub fn judge(stream: &[u8], room: usize) -> Result<Counts, Refused> {
    let mut before = Before::default();
    let mut rest = stream;
    while let Some((kind, after)) = rest.split_first() {
        let place = stream.len() - rest.len();
        rest = before
            .read(*kind, after)
            .map_err(|fault| Refused { fault, place })?;
    }
    let counts = before.counts;
    let place = stream.len();
    if counts.wishes == 0 {
        return Err(Refused {
            fault: Fault::NoWish,
            place,
        });
    }
    if room / 8 < counts.rows {
        return Err(Refused {
            fault: Fault::Room,
            place,
        });
    }
    Ok(counts)
}

// Reads a stream from standard input and prints the shift sheet of its shortlist.
#![tactic(auto)]

ghost use Rattle.std.specs.Prelude.{◌+◌, ◌≤◌, length};
ghost use Rattle.limits.specs.Limits.{max_stream_bytes, max_sheet_bytes};
ghost use Rattle.stream_format.specs.Kinds.{run_record};
ghost use Rattle.sheet_report.specs.Sheet.{SheetFront};

// The descriptors of standard input and output. They are read and written by the kit's io, which assumes `read` and
// `write` alone: std's streams assume two functions more (docs/TRUST.md).
const STDIN_FILENO: i32 = 0;

const STDOUT_FILENO: i32 = 1;

// The bytes kept for a stream, as many as `shortlist` keeps.
const STREAM_BYTES: usize = 65536;

// The sheet of a stream, by the n bytes of it that were read: all, or as many as the buffer holds. A record begins
// within the first 34,334 bytes and has at most 33, so that no longer stream is told apart from its front; and there is
// room for every sheet.
fn sheet_front(buffer: &[u8], n: usize, out: &mut [u8]) -> usize
    requires { (max_stream_bytes + run_record ≤ length buffer.now) × (n ≤ length buffer.now)
        × (max_sheet_bytes ≤ length out.old) }
    ensures sheet_front { SheetFront buffer.now n out.old out.new result }
    ensures upper_bound { result ≤ max_sheet_bytes }
{
    sheet_report::report(&buffer[..n], out)
}

fn main() {
    let mut stream = [0u8; STREAM_BYTES];
    let n = io::read_full(STDIN_FILENO, &mut stream);
    let mut out = [0u8; limits::MAX_SHEET_BYTES];
    let end = sheet_front(&stream, n, &mut out);
    io::write_all(STDOUT_FILENO, &out[..end]);
}

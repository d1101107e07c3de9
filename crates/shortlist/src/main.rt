// Reads a stream from standard input and prints its report.
#![tactic(auto)]

ghost use Rattle.std.specs.Prelude.{◌+◌, ◌≤◌, length};
ghost use Rattle.limits.specs.Limits.{max_stream_bytes};
ghost use Rattle.stream_format.specs.Kinds.{run_record};
ghost use Rattle.report.specs.Report.{report_end, ReportsFront};

// The descriptors of standard input and output. They are read and written by the kit's io, which assumes `read` and
// `write` alone: std's streams assume two functions more (docs/TRUST.md).
const STDIN_FILENO: i32 = 0;

const STDOUT_FILENO: i32 = 1;

// The bytes kept for a stream and for its report.
const STREAM_BYTES: usize = 65536;

const REPORT_BYTES: usize = 32768;

// The report on a stream, by the n bytes of it that were read: all, or as many as the buffer holds. A record begins
// within the first 34,334 bytes and has at most 33, so that no longer stream is told apart from its front.
fn report_front(buffer: &[u8], n: usize, out: &mut [u8]) -> usize
    requires { (max_stream_bytes + run_record ≤ length buffer.now) × (n ≤ length buffer.now) }
    ensures reports_front { ReportsFront buffer.now n out.old out.new result }
    ensures upper_bound { result ≤ report_end }
{
    report::report(&buffer[..n], out)
}

fn main() {
    let mut stream = [0u8; STREAM_BYTES];
    let n = io::read_full(STDIN_FILENO, &mut stream);
    let mut out = [0u8; REPORT_BYTES];
    let end = report_front(&stream, n, &mut out);
    io::write_all(STDOUT_FILENO, &out[..end]);
}

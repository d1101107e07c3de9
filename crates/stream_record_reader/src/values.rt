// The values of a run, stored in the lent log.
ghost use Rattle.std.specs.Prelude.{◌≡◌, ◌+◌, ◌<◌, ◌≤◌, length};
ghost use Rattle.std.proofs.lemmas.List.Edits.{sets};
ghost use Rattle.stream_format.specs.Kinds.{run_body};
ghost use Rattle.stream_format.specs.Read.{ints_at};

// Stores the eight values of the whole run that the bytes begin with, where there is room for them.
#[tactic(auto, using(crate::proofs::Run::one_by_one))]
pub fn put_run(bytes: &[u8], log: &mut [i32], to: usize)
    requires whole { run_body < length bytes.now }
    requires room { to + 8 ≤ length log.old }
    ensures { log.new ≡ sets log.old to (ints_at 8 bytes.now 1) }
{
    let (figures, _) = bytes[1..1 + stream_format::RUN_BODY].as_chunks();
    for (i, figure) in figures.iter().enumerate() {
        log[to + i] = i32::from_le_bytes(*figure);
    }
}

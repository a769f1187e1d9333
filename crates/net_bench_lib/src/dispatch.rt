//! From the bytes that are read to the bytes that are written.

// Why: A line of mode `stream` goes through `execute`. To `replay` it as a list of one is the same (law `calls`),
// and asks for memory once more. The line of an error is an `arrayvec`, since memory may be what is missing.

ghost use Rattle.std.specs.Prelude.{◌≡◌, IfSome, IfErr, OnOk, None};
ghost use Rattle.std.specs.Io.KnownBytes.{Appends};
ghost use Rattle.net_bench_lib.specs.Transcript.{ErrorOfInput};
ghost use Rattle.net_bench_lib.specs.Modes.{Ring, output, fault, transcript_of};
ghost use Rattle.net_bench_lib.specs.Kinds.{mode_value};
ghost use Rattle.net_bench_lib.specs.declared.mode.ModeKind.TheVariants as kinds;

use crate::asm::AsmSession;
use crate::bench::run_lines;
use crate::error::BenchError;
use crate::mode::{Mode, ModeKind, MostRuns};
use crate::ring::RingSession;
use crate::stream::StreamSession;
use net_receiver::laws;
use std::alloc::Allocator;
use std::io::{Read, Write};

/// Executes the lines that the reader gives, and writes the replies. It returns at the reader's
/// end, at a failed read or at the first fault. If the bytes of reader and writer are known to
/// contracts, as they are over memory:
pub fn run<A: Allocator + Copy, R: Read, W: Write>(
    alloc: A,
    mode: Mode,
    reader: &mut R,
    writer: &mut W,
) -> Result<(), BenchError>
    // no line has a fault, and the output text was written;
    ensures ok { OnOk result (IfSome (R.remaining reader.old) (λ input.
        (fault mode input ≡ None)
        × Appends (W.contents writer.old) (W.contents writer.new) (output mode input))) }
    // or what the table of errors says.
    ensures err { IfErr result (λ e. IfSome (R.remaining reader.old) (λ input.
        ErrorOfInput (transcript_of mode) input (R.remaining reader.new)
        (W.contents writer.old) (W.contents writer.new) e)) }
{
    match mode.kind() {
        ModeKind::Ring(capacity) => run_ring(alloc, capacity, reader, writer),
        ModeKind::Asm(MostRuns::Four) => run_lines(alloc, AsmSession::<4>::new(), reader, writer),
        ModeKind::Asm(MostRuns::ThirtyTwo) => {
            run_lines(alloc, AsmSession::<32>::new(), reader, writer)
        }
        ModeKind::Stream(first, capacity, most_runs) => {
            run_stream(alloc, first, capacity, most_runs, reader, writer)
        }
    }
}

/// Does what `run` does in mode `ring`, over `capacity` bytes of storage, all 0.
fn run_ring<A: Allocator + Copy, R: Read, W: Write>(
    alloc: A,
    capacity: usize,
    reader: &mut R,
    writer: &mut W,
) -> Result<(), BenchError>
    ensures ok { OnOk result (IfSome (R.remaining reader.old) (λ input.
        (fault (Ring capacity) input ≡ None)
        × Appends (W.contents writer.old) (W.contents writer.new) (output (Ring capacity) input))) }
    ensures err { IfErr result (λ e. IfSome (R.remaining reader.old) (λ input.
        ErrorOfInput (transcript_of (Ring capacity)) input (R.remaining reader.new)
        (W.contents writer.old) (W.contents writer.new) e)) }
{
    let Ok(mut storage) = vec![in alloc; 0u8; capacity] else {
        return Err(BenchError::OutOfMemory);
    };
    run_lines(alloc, RingSession::new(&mut storage), reader, writer)
}

/// Runs mode `stream` over `capacity` bytes of zeroed storage, with at most `most_runs` held runs.
fn run_stream<A: Allocator + Copy, R: Read, W: Write>(
    alloc: A,
    first: u64,
    capacity: usize,
    most_runs: MostRuns,
    reader: &mut R,
    writer: &mut W,
) -> Result<(), BenchError>
    ensures ok { let mode = mode_value (kinds.Stream first capacity most_runs) in
        OnOk result (IfSome (R.remaining reader.old) (λ input. (fault mode input ≡ None)
        × Appends (W.contents writer.old) (W.contents writer.new) (output mode input))) }
    ensures err { let mode = mode_value (kinds.Stream first capacity most_runs) in
        IfErr result (λ e. IfSome (R.remaining reader.old) (λ input.
        ErrorOfInput (transcript_of mode) input (R.remaining reader.new)
        (W.contents writer.old) (W.contents writer.new) e)) }
{
    laws::schedules();
    let Ok(mut storage) = vec![in alloc; 0u8; capacity] else {
        return Err(BenchError::OutOfMemory);
    };
    // The storage of the second schedule, for which memory is taken when it begins.
    let mut second = Vec::new(alloc);
    match most_runs {
        MostRuns::Four => {
            let session = StreamSession::<A, 4>::new(first, &mut storage, &mut second);
            run_lines(alloc, session, reader, writer)
        }
        MostRuns::ThirtyTwo => {
            let session = StreamSession::<A, 32>::new(first, &mut storage, &mut second);
            run_lines(alloc, session, reader, writer)
        }
    }
}

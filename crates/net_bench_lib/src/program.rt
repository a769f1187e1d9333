//! The program `net_bench`, from its words and streams to its exit status.
ghost use Rattle.std.specs.Prelude.{◌≡◌, ◌≤◌, ◌↔◌, map, IfSome, OnOk, IfErr, None, string_bytes};
ghost use Rattle.std.specs.Io.KnownBytes.{Appends, Keeps};
ghost use Rattle.net_bench_lib.specs.Writer.{AppendsPrefix};
ghost use Rattle.net_bench_lib.specs.Transcript.{ErrorOfInput};
ghost use Rattle.net_bench_lib.specs.Modes.{output, fault, mode_of, transcript_of};
ghost use Rattle.net_bench_lib.specs.Program.{usage_line, AppendsSome, FailsOnInput};

use crate::dispatch::run;
use crate::error::BenchError;
use crate::mode::Mode;
use crate::writer::write_text;
use arrayvec::ArrayString;
use std::alloc::Allocator;
use std::fmt::Write as _;
use std::io::{Read, Write};

/// The line on standard error for words that name no mode.
const USAGE: &str = "usage: net_bench ring CAP | asm N | stream CAP N [FIRST]\n";

/// The bytes of the longest line that says an error, and some more.
const ERROR_ROOM: usize = 64;

/// Calls `run` in the mode that the words name and flushes the writer once; if `run` returned Ok, a
/// flush that fails is a failed write. An error is written to `errors` as a line; if `errors`
/// doesn't take it, nothing else changes. The result is the exit status: 0 if `run` and the flush
/// returned Ok, 1 after an error, and 2 if the words name no mode: then nothing is read, and only
/// the usage line is written, to `errors`.
pub fn serve<A: Allocator + Copy, R: Read, W: Write, E: Write>(
    alloc: A,
    words: &[String],
    reader: &mut R,
    writer: &mut W,
    errors: &mut E,
) -> u8
    ensures status { result ≤ 2 }
    ensures usage { (result ≡ 2) ↔ (mode_of (map string_bytes words.now) ≡ None) }
    ensures unchanged { result ≡ 2 →
        Keeps (R.remaining reader.old) (R.remaining reader.new)
        × Keeps (W.contents writer.old) (W.contents writer.new) }
    ensures told { result ≡ 2 →
        AppendsPrefix (E.contents errors.old) (E.contents errors.new) usage_line }
    ensures ok { result ≡ 0 → IfSome (mode_of (map string_bytes words.now)) (λ mode.
        IfSome (R.remaining reader.old) (λ input. (fault mode input ≡ None)
        × Appends (W.contents writer.old) (W.contents writer.new) (output mode input))) }
    ensures quiet { result ≡ 0 → Keeps (E.contents errors.old) (E.contents errors.new) }
    ensures err { result ≡ 1 → IfSome (mode_of (map string_bytes words.now)) (λ mode.
        FailsOnInput (transcript_of mode) (R.remaining reader.old) (R.remaining reader.new)
        (W.contents writer.old) (W.contents writer.new)
        (E.contents errors.old) (E.contents errors.new)) }
{
    let Some(mode) = Mode::from_words(words) else {
        let _ = write_text(errors, USAGE.as_bytes());
        return 2;
    };
    match run_and_flush(alloc, mode, reader, writer) {
        Ok(()) => 0,
        Err(error) => {
            tell(&error, errors);
            1
        }
    }
}

/// Calls `run`, and flushes the writer then.
fn run_and_flush<A: Allocator + Copy, R: Read, W: Write>(
    alloc: A,
    mode: Mode,
    reader: &mut R,
    writer: &mut W,
) -> Result<(), BenchError>
    ensures ok { OnOk result (IfSome (R.remaining reader.old) (λ input.
        (fault mode input ≡ None)
        × Appends (W.contents writer.old) (W.contents writer.new) (output mode input))) }
    ensures err { IfErr result (λ e. IfSome (R.remaining reader.old) (λ input.
        ErrorOfInput (transcript_of mode) input (R.remaining reader.new)
        (W.contents writer.old) (W.contents writer.new) e)) }
{
    let outcome = run(alloc, mode, reader, writer);
    let flushed = writer.flush();
    if outcome.is_ok() && flushed.is_err() {
        return Err(BenchError::WriteFailed);
    }
    outcome
}

/// Writes the line that says an error, or a prefix of it before a write that fails. Tests show the line.
// The line is made on the stack, since memory may be what is missing.
fn tell<E: Write>(error: &BenchError, errors: &mut E)
    ensures { AppendsSome (E.contents errors.old) (E.contents errors.new) }
{
    let mut line = ArrayString::<ERROR_ROOM>::new();
    if writeln!(line, "{error}").is_ok() {
        let _ = write_text(errors, line.as_bytes());
    }
}

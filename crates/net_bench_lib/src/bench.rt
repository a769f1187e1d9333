//! Lines in, replies out, for any mode.
ghost use Rattle.std.specs.Prelude.{◌≡◌, ℕ, List, [], ◌∷◌, ◌++◌, Some, None, Ok, IfSome, IfOk, IfErr, OnOk};
ghost use Rattle.std.specs.Io.KnownBytes.{Appends};
ghost use Rattle.net_bench_lib.specs.Text.{lines_of, next_number};
ghost use Rattle.net_bench_lib.specs.Transcript.{line_step, transcript, ErrorOfLines, ErrorOfInput};
ghost use Rattle.net_bench_lib.specs.Progress.{HasNoFeed, RunsLines};
ghost use Rattle.net_bench_lib.specs.declared.error.BenchError.{BenchError};

use crate::error::BenchError;
use crate::fault::Fault;
use crate::limits::{MAX_LINE, ROOM};
use crate::session::Session;
use crate::writer::write_text;
use memchr::memchr;
use std::alloc::Allocator;
use std::io::{Read, Write};

/// A mode's state, the number of the next line, and the replies that aren't written yet. `reply` is
/// memory for one, used again for each.
#[derive(Drop)]
struct Bench<A: Allocator + Copy, S> {
    alloc: A,
    session: S,
    number: u64,
    reply: String<A>,
    replies: Vec<u8, A>,
}

impl<A: Allocator + Copy, S: Session<A>> Bench<A, S> {
    /// Executes a line, and adds its reply to the others.
    fn run_line(&mut self, line: &[u8]) -> Result<(), BenchError>
        ensures ok { OnOk result ((reply : List ℕ)
            × (line_step S.rules self.old.session line.now ≡ Ok (self.new.session, reply))
            × (self.new.number ≡ next_number self.old.number)
            × Appends (Some self.old.replies.items) (Some self.new.replies.items) reply) }
        ensures err { IfErr result (λ e. (more : List (List ℕ)) →
            ErrorOfLines (transcript S.rules S.closing self.old.number self.old.session)
            (line.now ∷ more) (Some self.old.replies.items) (Some self.new.replies.items) e) }
    {
        if line.len() > MAX_LINE {
            return Err(Fault::LineTooLong.at(self.number));
        }
        self.reply.clear();
        if let Err(refusal) = self.session.apply_line(self.alloc, line, &mut self.reply) {
            return Err(refusal.at(self.number));
        }
        self.replies.extend_from_slice(self.reply.as_bytes())?;
        self.number = self.number.saturating_add(1);
        Ok(())
    }

    /// Executes the lines that end in these bytes, and returns how many bytes the beginning of the
    /// next one has.
    fn run_ended_lines(&mut self, bytes: &[u8]) -> Result<usize, BenchError>
        ensures ok { IfOk result (λ held.
            RunsLines S.rules bytes.now held self.old.number self.old.session
            self.new.number self.new.session
            (Some self.old.replies.items) (Some self.new.replies.items)) }
        ensures err { IfErr result (λ e. (more : List ℕ) →
            ErrorOfLines (transcript S.rules S.closing self.old.number self.old.session)
            (lines_of (bytes.now ++ more))
            (Some self.old.replies.items) (Some self.new.replies.items) e) }
    {
        let mut rest = bytes;
        // The label is the loop's name in its proof.
        'lines: while let Some(at) = memchr(b'\n', rest) {
            self.run_line(&rest[..at])?;
            rest = &rest[at + 1..];
        }
        if rest.len() > MAX_LINE {
            return Err(Fault::LineTooLong.at(self.number));
        }
        Ok(rest.len())
    }

    /// Adds the closing text to the replies.
    fn close(&mut self) -> Result<(), BenchError>
        ensures ok { OnOk result (Appends (Some self.old.replies.items)
            (Some self.new.replies.items) (S.closing self.old.session)) }
        ensures err { IfErr result (λ e. (e ≡ BenchError.OutOfMemory)
            × (self.new.replies.items ≡ self.old.replies.items)) }
    {
        let closing = self.session.closing_text();
        self.replies.extend_from_slice(closing.as_bytes())?;
        Ok(())
    }

    /// Executes the last line, if it has bytes, and adds its reply and the closing text.
    fn run_last_line(&mut self, line: &[u8]) -> Result<(), BenchError>
        requires { HasNoFeed line.now }
        ensures ok { OnOk result (
            let all = transcript S.rules S.closing self.old.number self.old.session in
            (all.fault (lines_of line.now) ≡ None)
            × Appends (Some self.old.replies.items) (Some self.new.replies.items)
            (all.text (lines_of line.now))) }
        ensures err { IfErr result (λ e.
            ErrorOfLines (transcript S.rules S.closing self.old.number self.old.session)
            (lines_of line.now) (Some self.old.replies.items) (Some self.new.replies.items) e) }
    {
        if line.is_empty() {
            return self.close();
        }
        self.run_line(line)?;
        self.close()
    }

    /// Does what `run_ended_lines` does, and writes the replies.
    fn take<W: Write>(&mut self, bytes: &[u8], writer: &mut W) -> Result<usize, BenchError>
        requires { self.old.replies.items ≡ [] }
        ensures ok { IfOk result (λ held.
            RunsLines S.rules bytes.now held self.old.number self.old.session
            self.new.number self.new.session (W.contents writer.old) (W.contents writer.new)) }
        ensures emptied { OnOk result (self.new.replies.items ≡ []) }
        ensures err { IfErr result (λ e. (more : List ℕ) →
            ErrorOfLines (transcript S.rules S.closing self.old.number self.old.session)
            (lines_of (bytes.now ++ more)) (W.contents writer.old) (W.contents writer.new) e) }
    {
        let outcome = self.run_ended_lines(bytes);
        write_text(writer, &self.replies)?;
        self.replies.clear();
        outcome
    }

    /// Does what `run_last_line` does, and writes the replies.
    fn finish<W: Write>(&mut self, line: &[u8], writer: &mut W) -> Result<(), BenchError>
        requires unended { HasNoFeed line.now }
        requires emptied { self.old.replies.items ≡ [] }
        ensures ok { OnOk result (
            let all = transcript S.rules S.closing self.old.number self.old.session in
            (all.fault (lines_of line.now) ≡ None)
            × Appends (W.contents writer.old) (W.contents writer.new)
            (all.text (lines_of line.now))) }
        ensures err { IfErr result (λ e.
            ErrorOfLines (transcript S.rules S.closing self.old.number self.old.session)
            (lines_of line.now) (W.contents writer.old) (W.contents writer.new) e) }
    {
        let outcome = self.run_last_line(line);
        write_text(writer, &self.replies)?;
        outcome
    }
}

/// Executes the lines that the reader gives, from their first to their last, and writes the replies
/// of those that end in the bytes of a read before the next one.
pub fn run_lines<A: Allocator + Copy, S: Session<A> + Drop, R: Read, W: Write>(
    alloc: A,
    session: S,
    reader: &mut R,
    writer: &mut W,
) -> Result<(), BenchError>
    ensures ok { OnOk result (IfSome (R.remaining reader.old) (λ input.
        let all = transcript S.rules S.closing 1 session in
        let lines = lines_of input in
        (all.fault lines ≡ None)
        × Appends (W.contents writer.old) (W.contents writer.new) (all.text lines))) }
    ensures err { IfErr result (λ e. IfSome (R.remaining reader.old) (λ input.
        ErrorOfInput (transcript S.rules S.closing 1 session) input (R.remaining reader.new)
        (W.contents writer.old) (W.contents writer.new) e)) }
{
    let mut bench = Bench {
        alloc,
        session,
        number: 1,
        reply: String::new(alloc),
        replies: Vec::new(alloc),
    };
    let mut buffer = [0u8; ROOM];
    // How many bytes of the next line are at the front of the buffer.
    let mut held = 0;
    // The bound shows that the loop ends; the label is the loop's name in its proof.
    'reads: for _ in 0..u64::MAX {
        match reader.read(&mut buffer[held..]) {
            Ok(0) => return bench.finish(&buffer[..held], writer),
            Ok(count) => {
                let end = held + count;
                held = bench.take(&buffer[..end], writer)?;
                buffer.copy_within(end - held..end, 0);
            }
            Err(_) => return Err(BenchError::ReadFailed),
        }
    }
    Err(BenchError::ReadFailed)
}

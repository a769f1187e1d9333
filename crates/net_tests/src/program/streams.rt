//! Each read, write and flush fails in turn, standard error too, by readers and writers that move few bytes a call;
//! words that name no mode; and long inputs, which catch a body that gives up from some size on. What is written then
//! is what docs/BENCH.md says.
use crate::assertions::{assert_bytes, assert_count, assert_holds};
use crate::program::memory::words_of;
use crate::program::program_rows::{ASSEMBLERS, RINGS, SCHEDULES, STREAMS};
use crate::program::rows::Row;
use crate::testing::{NEVER, Sink, Source};
use net_bench_lib::{Mode, number, run, serve};
use std::alloc::{AllocError, Global};
use std::io::ErrorKind;
use std::process::Abort;
use std::test::Fail;

/// How many bytes a read and a write move at most, which of them fail, and whether the flush does.
#[derive(Clone, Copy)]
pub struct Streams {
    most_read: usize,
    most_written: usize,
    failing_read: usize,
    failing_write: usize,
    fails_to_flush: bool,
}

/// How call number `call` fails: by an error, or a write by taking nothing.
fn kind_of(call: usize) -> Option<ErrorKind> {
    match call % 3 {
        0 => Some(ErrorKind::Other),
        1 => Some(ErrorKind::Interrupted),
        _ => None,
    }
}

impl Streams {
    /// Returns streams that never fail, of at most so many bytes a call.
    pub fn new(most_read: usize, most_written: usize) -> Streams {
        Streams {
            most_read: most_read.max(1),
            most_written: most_written.max(1),
            failing_read: NEVER,
            failing_write: NEVER,
            fails_to_flush: false,
        }
    }

    /// Returns the same streams, of which these calls fail.
    fn failing(self, failing_read: usize, failing_write: usize) -> Streams {
        Streams {
            failing_read,
            failing_write,
            ..self
        }
    }

    /// Returns how many reads give bytes of this input.
    fn giving_reads(self, input: &[u8]) -> usize {
        input.len().div_ceil(self.most_read.max(1))
    }

    fn open(self, alloc: Global, input: &[u8]) -> Result<(Source<'_>, Sink), AllocError> {
        let kind = kind_of(self.failing_write);
        let mut sink = Sink::failing(alloc, self.most_written, self.failing_write, kind)?;
        sink.flush_kind = self.fails_to_flush.then_some(ErrorKind::Other);
        let kind = kind_of(self.failing_read).unwrap_or(ErrorKind::BrokenPipe);
        let source = Source::failing(input, self.most_read, self.failing_read, kind);
        Ok((source, sink))
    }
}

/// Returns the index after the first line feed.
fn line_end(bytes: &[u8]) -> Option<usize> {
    let at = bytes.iter().position(|byte| *byte == b'\n')?;
    Some(at.saturating_add(1))
}

/// Returns how many bytes of the output are the replies to the lines that end in these first bytes of an input, and
/// whether these have a fault. A reply is one line, and a first `--` has none; another line without one is faulty.
fn replies_to(given: &[u8], output: &[u8]) -> (usize, bool) {
    let (mut lines, mut replies, mut is_second) = (given, output, false);
    for _ in 0..given.len() {
        let Some(end) = line_end(lines) else {
            break;
        };
        let begins = lines.starts_with(b"--\n");
        lines = lines.get(end..).unwrap_or(b"");
        if begins && !is_second {
            is_second = true;
            continue;
        }
        match line_end(replies) {
            Some(end) if !begins => replies = replies.get(end..).unwrap_or(b""),
            _ => return (output.len(), true),
        }
    }
    let written = output.len().saturating_sub(replies.len());
    (written, lines.len() > 4096)
}

/// Returns the error by which a row ends over these streams, with these writes and flushes, and how many bytes of the
/// output are written at least and at most.
fn end_of<'a>(row: Row<'a>, by: Streams, sink: &Sink) -> (&'a str, usize, usize) {
    let (_, _, input, output, error) = row;
    if sink.calls > by.failing_write {
        let most = by.failing_write.saturating_mul(by.most_written);
        return ("write failed", by.failing_write, most);
    }
    let given = by.failing_read.saturating_mul(by.most_read);
    let (written, is_faulty) = replies_to(input.get(..given).unwrap_or(input), output);
    // One more read than those that give bytes finds the end.
    if by.failing_read <= by.giving_reads(input) && !is_faulty {
        return ("read failed", written, written);
    }
    let is_unflushed = by.fails_to_flush && sink.flushes > 0 && error.is_empty();
    let error = if is_unflushed { "write failed" } else { error };
    (error, output.len(), output.len())
}

/// Stops the test unless a row ended over these streams as it has to, with this error. No call is tried again.
fn check_end(
    rt: &impl Abort,
    (row, by): (Row<'_>, Streams),
    (source, sink): (&Source<'_>, &Sink),
    said: &[u8],
) {
    let (error, least, most) = end_of(row, by, sink);
    let taken = sink.bytes.len();
    assert_bytes(rt, said, error.as_bytes(), (row.0, taken));
    let is_prefix = row.3.starts_with(&sink.bytes);
    assert_holds(
        rt,
        is_prefix && least <= taken && taken <= most,
        (row.0, taken),
    );
    let is_read = source.calls.saturating_sub(1) <= by.failing_read;
    let is_written = sink.calls.saturating_sub(1) <= by.failing_write;
    assert_holds(rt, is_read && is_written, (row.0, taken));
}

/// Calls `run`, which doesn't flush, and then `serve` for a row over these streams: it says the error in a line of
/// standard error, and then the status is 1. The writer is flushed once, standard error never. Returns how many writes
/// there were.
pub fn check(rt: &impl Abort, alloc: Global, row: Row<'_>, by: Streams) -> Result<usize, Fail> {
    let words = words_of(alloc, row.1)?;
    let Some(mode) = Mode::from_words(&words) else {
        return Err(Fail::from(AllocError));
    };
    let (mut source, mut sink) = by.open(alloc, row.2)?;
    let said = match run(alloc, mode, &mut source, &mut sink) {
        Ok(()) => String::new(alloc),
        Err(error) => format!(in alloc; "{error}")?,
    };
    assert_count(rt, sink.flushes, 0, (row.0, 0));
    check_end(rt, (row, by), (&source, &sink), said.as_bytes());
    let (mut source, mut sink) = by.open(alloc, row.2)?;
    let mut errors = Sink::new(alloc)?;
    let status = serve(alloc, &words, &mut source, &mut sink, &mut errors);
    let (said, feed) = errors.bytes.split_at(errors.bytes.len().saturating_sub(1));
    assert_holds(rt, feed.is_empty() || feed == b"\n".as_slice(), (row.0, 1));
    assert_count(rt, status as usize, feed.len(), (row.0, 2));
    assert_holds(rt, sink.flushes == 1 && errors.flushes == 0, (row.0, 3));
    check_end(rt, (row, by), (&source, &sink), said);
    Ok(sink.calls)
}

/// Runs a row whose reads fail in turn, and then its writes, each up to a call that isn't made, and then its flush.
fn fail_each(rt: &impl Abort, alloc: Global, row: Row<'_>, mut by: Streams) -> Result<(), Fail> {
    for call in 0..by.giving_reads(row.2).saturating_add(2) {
        check(rt, alloc, row, by.failing(call, NEVER))?;
    }
    for call in 0..row.3.len().saturating_add(2) {
        if check(rt, alloc, row, by.failing(NEVER, call))? <= call {
            break;
        }
    }
    by.fails_to_flush = true;
    check(rt, alloc, row, by)?;
    Ok(())
}

/// Does what `fail_each` does for each row, by few bytes a call and by all.
fn fail_rows(rt: &impl Abort, alloc: Global, rows: &[Row<'_>]) -> Result<(), Fail> {
    for row in rows {
        for (most_read, most_written) in [(1, 1), (3, usize::MAX), (usize::MAX, 3)] {
            fail_each(rt, alloc, *row, Streams::new(most_read, most_written))?;
        }
    }
    Ok(())
}

#[test]
fn each_read_and_each_write_fails_in_turn(rt: HostRuntime) -> Result<(), Fail> {
    fail_rows(&rt, rt.alloc(), &RINGS)?;
    fail_rows(&rt, rt.alloc(), &ASSEMBLERS)?;
    fail_rows(&rt, rt.alloc(), &STREAMS)?;
    fail_rows(&rt, rt.alloc(), &SCHEDULES)
}

/// Calls `serve` by standard error that takes a byte a call and fails at this call: so many bytes of the line are
/// written, and the status stays. If it is 2, nothing is read, written or flushed.
fn fail_errors(
    rt: &impl Abort,
    alloc: Global,
    (words, line, status): (&str, &[u8], usize),
    call: usize,
) -> Result<(), Fail> {
    let list = words_of(alloc, words)?;
    let (mut source, mut sink) = (Source::new(b"w 61\nx\nw"), Sink::new(alloc)?);
    let mut errors = Sink::failing(alloc, 1, call, kind_of(call))?;
    let found = serve(alloc, &list, &mut source, &mut sink, &mut errors);
    let place = (words, call);
    let told = line.get(..call).unwrap_or(line);
    assert_bytes(rt, &errors.bytes, told, place);
    assert_count(rt, found as usize, status, place);
    let writes = line.len().min(call.saturating_add(1));
    assert_count(rt, errors.calls, writes, place);
    for calls in [source.calls, sink.calls, sink.flushes] {
        assert_count(rt, calls, 2usize.saturating_sub(status), place);
    }
    Ok(())
}

/// Words that name no mode, those of one command line after those of another.
const NO_MODES: &str = "|--help|ring|ring 65537|ring 08|ring -1|ring 8 9|Ring 8|asm|asm 5|asm 04|\
    asm 4 4|stream 16|stream 65537 4|stream 16 5|stream 8 01|stream 8 4 01|stream 8 4 0 0|\
    stream 8 4 18446744073709551616|ring 8 a word_and_one_of_more_than_twenty_bytes";

/// The usage line.
const USAGE: &[u8] = b"usage: net_bench ring CAP | asm N | stream CAP N [FIRST]\n";

#[test]
fn standard_error_fails(rt: HostRuntime) -> Result<(), Fail> {
    for call in 0..60 {
        for words in NO_MODES.split('|') {
            fail_errors(&rt, rt.alloc(), (words, USAGE, 2), call)?;
        }
        let bad = ("ring 8", b"line 2: bad command\n".as_slice(), 1);
        fail_errors(&rt, rt.alloc(), bad, call)?;
    }
    Ok(())
}

/// 60,000 lines, of which two leave their mode as they found it, and the longest lines: the words of a mode, what is
/// before a text, the text and how often it is given, what is after it, a reply and how often it is written, the error.
static LONG: [&'static str; 9] = [
    "ring 5||w 616263\nr 9\n|30000||took 3\nread 616263\n|30000|",
    "asm 4||a 10 5\nt 0 10\n|30000|x|ok\nfront 15\n|30000|line 60001: bad command",
    "stream 8 4||s 2 61\nr 9\n|30000||kept 1 queued 0 sack 2-3\nread -\n|30000|",
    "ring 4096|w |6|4094|\n|took 2047\n|1|",
    "ring 4096|w |6|4094||took 2047\n|1|",
    "ring 4096|w |6|4095|\n||0|line 1: line too long",
    "ring 4096|r 1\nw |6|4095||read -\n|1|line 2: line too long",
    "ring 8||w|4096|||0|line 1: bad command",
    "ring 8||w|4097|||0|line 1: line too long",
];

/// Returns the fields of a row of `LONG`.
fn fields_of(row: &str) -> [&str; 8] {
    let mut fields = [""; 8];
    for (number, text) in row.split('|').enumerate() {
        if number < 8 {
            fields[number] = text;
        }
    }
    fields
}

/// Adds a text so often.
fn add(bytes: &mut Vec<u8>, text: &str, times: &str) -> Result<(), AllocError> {
    for _ in 0..number(times.as_bytes()).unwrap_or(0) {
        bytes.extend_from_slice(text.as_bytes())?;
    }
    Ok(())
}

/// By reads that fail beside the last one that gives bytes, and by the last write.
#[test]
fn long_inputs(rt: HostRuntime) -> Result<(), Fail> {
    for row in LONG {
        let [words, first, text, times, last, reply, replies, error] = fields_of(row);
        let (mut input, mut output) = (Vec::new(rt.alloc()), Vec::new(rt.alloc()));
        add(&mut input, first, "1")?;
        add(&mut input, text, times)?;
        add(&mut input, last, "1")?;
        add(&mut output, reply, replies)?;
        let row = (words, words, input.as_slice(), output.as_slice(), error);
        let by = Streams::new(input.len() / 4096, output.len() / 4096);
        let reads = by.giving_reads(&input);
        for call in reads.saturating_sub(1)..reads.saturating_add(2) {
            check(&rt, rt.alloc(), row, by.failing(call, NEVER))?;
        }
        let writes = output.len().div_ceil(by.most_written.max(1));
        check(
            &rt,
            rt.alloc(),
            row,
            by.failing(NEVER, writes.saturating_sub(1)),
        )?;
    }
    Ok(())
}

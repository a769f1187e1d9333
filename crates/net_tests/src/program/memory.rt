//! Requests for memory that are refused, each in turn.
use crate::assertions::{assert_count, assert_holds};
use crate::testing::{NEVER, Refusing, Sink, Source, refuse_each};
use net_bench_lib::{BenchError, Mode, run};
use std::alloc::{AllocError, Global};
use std::io::ErrorKind;
use std::process::Abort;
use std::test::Fail;

/// Words of modes, an input without a fault, and its replies, one for each line, and then the closing text.
type Script = (
    &'static [&'static str],
    &'static [u8],
    &'static [&'static [u8]],
);

/// Lines of each mode, shorter and longer ones.
static SCRIPTS: [Script; 4] = rows! {
    (&["ring 16"], b"w 6162\nw -\nr 1\nw 636465666768696A6B6C6D6E6F70\nr 99\nr 9", &[b"took 2\n", b"took 0\n",
        b"read 61\n", b"took 14\n", b"read 62636465666768696a6b6c6d6e6f70\n", b"read -\n"]);
    (&["asm 4", "asm 32"], b"a 2 3\nt 0 1\np\nf\np", &[b"ok\n", b"front 1\n", b"[ (1) 3 ]\n", b"front 0\n",
        b"[ (1) 3 ]\n"]);
    (&["stream 8 4", "stream 8 32"], b"s 2 6162\n?\ns 0 6364\n?\nr 9\nr 9\n--\ns 0 63646162\nr 4",
        &[b"kept 2 queued 0 sack 2-4\n", b"next 0 queued 0 window 8 held 2-4\n", b"kept 2 queued 4 sack -\n",
        b"next 4 queued 4 window 4 held -\n", b"read 63646162\n", b"read -\n", b"kept 4 queued 4 sack -\n",
        b"read 63646162\n", b"same\n"]);
    (&["stream 4 4 1000"], b"s 1000 61\n--", &[b"kept 1 queued 1 sack -\n", b"differs\n"]);
};

/// Returns the words of a command line.
pub fn words_of(alloc: Global, line: &str) -> Result<Vec<String>, AllocError> {
    let mut words = Vec::new(alloc);
    for word in line.split(' ') {
        words.push(String::from_str(alloc, word)?)?;
    }
    Ok(words)
}

/// Returns whether these bytes are the first replies, whole ones.
fn are_replies(bytes: &[u8], replies: &[&[u8]]) -> bool {
    let mut rest = bytes;
    for reply in replies {
        match rest.strip_prefix(*reply) {
            Some(after) => rest = after,
            None => return rest.is_empty(),
        }
    }
    rest.is_empty()
}

/// Runs lines by reads of `most` bytes in this memory. Returns whether it ended with Ok and all replies were written,
/// or not, with the error of memory and the first replies; or `None` if neither is so.
fn runs(
    alloc: Global,
    memory: &Refusing,
    words: &str,
    (input, replies): (&[u8], &[&[u8]]),
    most: usize,
) -> Option<bool> {
    let words = words_of(alloc, words).ok()?;
    let mode = Mode::from_words(&words)?;
    let mut sink = Sink::new(alloc).ok()?;
    let mut source = Source::failing(input, most, NEVER, ErrorKind::Other);
    match run(memory, mode, &mut source, &mut sink) {
        Ok(()) => are_all(&sink.bytes, replies).then_some(true),
        Err(BenchError::OutOfMemory) => are_replies(&sink.bytes, replies).then_some(false),
        Err(_) => None,
    }
}

/// Returns whether these bytes are all replies.
fn are_all(bytes: &[u8], replies: &[&[u8]]) -> bool {
    let mut length = 0usize;
    for reply in replies {
        length = length.saturating_add(reply.len());
    }
    bytes.len() == length && are_replies(bytes, replies)
}

/// Each request of a run is refused in turn, until none is: at least four are made.
fn check_refusals(
    rt: &impl Abort,
    alloc: Global,
    words: &str,
    lines: (&[u8], &[&[u8]]),
    most: usize,
) {
    let mut is_right = true;
    let made = refuse_each(alloc, |memory| {
        let ended = runs(alloc, memory, words, lines, most);
        is_right = is_right && ended.is_some();
        ended == Some(true)
    });
    let enough = made.is_some_and(|made| made >= 4);
    assert_holds(rt, is_right && enough, (words, most));
}

#[test]
fn each_request_for_memory_is_refused_in_turn(rt: HostRuntime) {
    for (modes, input, replies) in SCRIPTS {
        for words in modes {
            for most in [1, 7, usize::MAX] {
                check_refusals(&rt, rt.alloc(), words, (input, replies), most);
            }
        }
    }
}

/// Returns the most bytes that a run has at one time, or `None` if it doesn't end with Ok.
fn most_bytes(
    alloc: Global,
    words: &str,
    (input, length): (&[u8], usize),
) -> Result<Option<usize>, Fail> {
    let memory = Refusing::new(alloc, NEVER);
    let words = words_of(alloc, words)?;
    let Some(mode) = Mode::from_words(&words) else {
        return Ok(None);
    };
    let mut sink = Sink::new(alloc)?;
    let outcome = run(&memory, mode, &mut Source::new(input), &mut sink);
    let is_whole = outcome.is_ok() && sink.bytes.len() == length;
    Ok(is_whole.then_some(memory.most()))
}

/// The storage of a second schedule is asked for when it begins.
#[test]
fn a_second_schedule_asks_for_its_storage_when_it_begins(rt: HostRuntime) -> Result<(), Fail> {
    let one = (b"s 0 41\n".as_slice(), 23);
    let two = (b"s 0 41\n--\ns 0 41\n".as_slice(), 51);
    for (input, least) in [(one, 64_000), (two, 128_000)] {
        let Some(most) = most_bytes(rt.alloc(), "stream 64000 4", input)? else {
            return Err(Fail::from(AllocError));
        };
        assert_count(&rt, most / 64_000, least / 64_000, ("bytes", most));
    }
    Ok(())
}

//! The words of the command line, with memory and without.
use crate::assertions::assert_holds;
use crate::testing::{NEVER, Refusing};
use net_bench_lib::command_words;
use std::alloc::Global;
use std::env::{Env, FillError};
use std::test::Fail;

/// A command line of these words, of which the first is the program's name.
#[derive(Drop)]
struct CommandLine<'a>(&'a [&'a [u8]]);

impl Env for CommandLine<'_> {
    fn arg(&self, i: usize, buf: &mut [u8]) -> Result<usize, FillError> {
        if i >= self.0.len() {
            return Err(FillError::NotPresent);
        }
        let word = self.0[i];
        if word.len() > buf.len() {
            return Err(FillError::TooLong);
        }
        buf[..word.len()].copy_from_slice(word);
        Ok(word.len())
    }

    fn var(&self, _name: &str, _buf: &mut [u8]) -> Result<usize, FillError> {
        Err(FillError::NotPresent)
    }

    fn var_at(&self, _i: usize, _buf: &mut [u8]) -> Result<usize, FillError> {
        Err(FillError::NotPresent)
    }
}

/// Returns whether the words of a command line are those after its first, byte for byte; or none, if that is wanted.
fn has_words<R: Env + Alloc>(rt: &R, line: &[&[u8]], is_read: bool) -> bool {
    let words = command_words(rt);
    if !is_read {
        return words.is_empty();
    }
    if words.len() != line.len().saturating_sub(1) {
        return false;
    }
    for index in 0..words.len() {
        if words[index].as_bytes() != line[index + 1] {
            return false;
        }
    }
    true
}

/// Does what `has_words` does for this command line.
fn reads(alloc: Global, line: &[&[u8]], is_read: bool) -> bool {
    has_words(&(CommandLine(&*line), alloc), line, is_read)
}

/// Command lines. Their words have letters other than those of English, capitals, spaces, bytes of more than one
/// character, and no bytes; some come twice.
static LINES: [&'static [&'static [u8]]; 5] = rows! {
    &[b"program", b"stream", b"8", b"4", b"1000", b"", b"x"];
    &[b"program", b"Ring", b" 8 ", b"8", b"8", b"\xc3\xa9\xf0\x9f\xa6\x80", b"\t", b"--", b"Ring"];
    &[b"program", b"1", b"2", b"3", b"4", b"5", b"a_word_of_more_than_twenty_bytes_which_says_nothing"];
    &[b"program"];
    &[];
};

#[test]
fn the_words_of_a_command_line_are_those_after_its_first(rt: HostRuntime) -> Result<(), Fail> {
    for (number, line) in LINES.iter().enumerate() {
        assert_holds(&rt, reads(rt.alloc(), line, true), ("line", number));
    }
    let long = vec![in rt.alloc(); b'7'; 5_000]?;
    assert_holds(
        &rt,
        reads(rt.alloc(), &[b"program", &long, b"8", &long], true),
        ("long", 0),
    );
    let unreadable = [b"program".as_slice(), b"8", b"\xff"];
    assert_holds(&rt, reads(rt.alloc(), &unreadable, false), ("no UTF-8", 0));
    Ok(())
}

/// Returns whether there are all words of a command line or none in memory that refuses this request, and how many
/// requests are made.
fn all_or_none(alloc: Global, line: &[&[u8]], refused: usize) -> (bool, usize) {
    let memory = Refusing::new(alloc, refused);
    let words = CommandLine(&*line);
    if has_words(&(words, &memory), line, false) {
        return (true, memory.requests());
    }
    let memory = Refusing::new(alloc, refused);
    let all = has_words(&(CommandLine(&*line), &memory), line, true);
    (all, memory.requests())
}

#[test]
fn there_are_all_words_or_none(rt: HostRuntime) {
    let (all, requests) = all_or_none(rt.alloc(), LINES[0], NEVER);
    assert_holds(&rt, all && requests > 5, ("requests", requests));
    for refused in 0..requests {
        let (is_right, _) = all_or_none(rt.alloc(), LINES[0], refused);
        assert_holds(&rt, is_right, ("request", refused));
    }
}

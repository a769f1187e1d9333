//! The modes of the bench.
ghost use Rattle.std.specs.Prelude.{◌≡◌, [], ◌∷◌, map, string_bytes, Option, Some, option_map, option_and_then};
ghost use Rattle.net_bench_lib.specs.Kinds.{most_runs_value};
ghost use Rattle.net_bench_lib.specs.Numeral.{number_of};
ghost use Rattle.net_bench_lib.specs.Modes.{mode_of, stream_of, at_most_64k, four_or_32};

use crate::limits::MAX_CAPACITY;
use crate::numeral::number;
use std::marker::Model;

/// The most runs that an assembler may have.
#[derive(Debug, Clone, Copy, PartialEq, Eq)]
pub(crate) enum MostRuns {
    /// Four runs.
    Four,
    /// Thirty-two runs.
    ThirtyTwo,
}

/// A mode with its numbers.
#[derive(Debug, Drop)]
pub(crate) enum ModeKind {
    /// A ring over this many bytes of storage.
    Ring(usize),
    /// An assembler of at most this number of runs.
    Asm(MostRuns),
    /// Receivers of a stream that begins at this position, over this many bytes of storage, with at
    /// most this number of held runs.
    Stream(u64, usize, MostRuns),
}

/// A mode of `run`, as the words of a command line name it.
#[derive(Debug, Drop)]
pub struct Mode {
    kind: ModeKind,
}

impl Model for Mode {
    ghost use Rattle.net_bench_lib.specs.Modes as modes;

    ghost Value = { modes.Mode };

    ghost use Rattle.net_bench_lib.specs.Kinds.{mode_value};

    ghost view = { λ m. mode_value m.kind };
}

/// Returns the capacity that a word names, from 0 to 65,536, if it names one.
fn capacity(word: &[u8]) -> Option<usize>
    ensures { result ≡ option_and_then at_most_64k (number_of word.now) }
{
    let number = number(word)?;
    if number > MAX_CAPACITY {
        return None;
    }
    Some(number as usize)
}

/// Returns the most runs that a word names, 4 or 32, if it names one of these.
fn most_runs_of(word: &[u8]) -> Option<MostRuns>
    ensures { option_map most_runs_value result ≡ option_and_then four_or_32 (number_of word.now) }
{
    let number = number(word)?;
    if number == 4 {
        return Some(MostRuns::Four);
    }
    if number == 32 {
        return Some(MostRuns::ThirtyTwo);
    }
    None
}

/// Returns the mode that two words name, if they name one.
fn two_words(name: &[u8], number: &[u8]) -> Option<Mode>
    ensures { result ≡ mode_of (name.now ∷ number.now ∷ []) }
{
    if name == b"ring".as_slice() {
        let capacity = capacity(number)?;
        return Some(Mode {
            kind: ModeKind::Ring(capacity),
        });
    }
    if name == b"asm".as_slice() {
        let most_runs = most_runs_of(number)?;
        return Some(Mode {
            kind: ModeKind::Asm(most_runs),
        });
    }
    None
}

/// Returns mode `stream` with the numbers that these words write, and this first position, if these
/// are its words.
fn stream(
    name: &[u8],
    capacity_word: &[u8],
    most_runs_word: &[u8],
    first: Option<u64>,
) -> Option<Mode>
    ensures { result ≡ stream_of name.now capacity_word.now most_runs_word.now first }
{
    if name != b"stream".as_slice() {
        return None;
    }
    let capacity = capacity(capacity_word)?;
    let most_runs = most_runs_of(most_runs_word)?;
    let first = first?;
    Some(Mode {
        kind: ModeKind::Stream(first, capacity, most_runs),
    })
}

impl Mode {
    ghost use Rattle.net_bench_lib.specs.Kinds.{mode_value};

    /// Returns the mode that these words name: `ring CAP`, `asm N`, `stream CAP N` or `stream CAP N
    /// FIRST`. No other words name one.
    pub fn from_words(words: &[String]) -> Option<Mode>
        ensures { result ≡ mode_of (map string_bytes words.now) }
    {
        if words.len() == 2 {
            return two_words(words[0].as_bytes(), words[1].as_bytes());
        }
        if words.len() == 3 {
            return stream(
                words[0].as_bytes(),
                words[1].as_bytes(),
                words[2].as_bytes(),
                Some(0),
            );
        }
        if words.len() == 4 {
            return stream(
                words[0].as_bytes(),
                words[1].as_bytes(),
                words[2].as_bytes(),
                number(words[3].as_bytes()),
            );
        }
        None
    }

    /// Returns the mode with its numbers.
    pub(crate) fn kind(self) -> ModeKind
        ensures { mode_value result ≡ self }
    {
        self.kind
    }
}

//! A reader over memory that can fail.
ghost use Rattle.std.specs.Prelude.{◌≡◌, Some};

use std::io;
use std::io::{ErrorKind, Read};

/// The number of a call that is never made.
pub const NEVER: usize = usize::MAX;

/// A reader over bytes. It gives at most `bytes_per_call` bytes a call, and one if that is 0. Only
/// its call number `failing_call`, counted from 0, fails, with an error of its kind.
#[derive(Drop)]
pub struct Source<'a> {
    /// The bytes that are not yet read.
    pub bytes: &'a [u8],
    /// The most bytes that a call gives.
    pub bytes_per_call: usize,
    /// How many calls there were.
    pub calls: usize,
    /// The number of the call that fails.
    pub failing_call: usize,
    /// The kind of its error.
    pub kind: ErrorKind,
}

impl<'a> Source<'a> {
    /// Returns a reader that gives all that is asked for, and never fails.
    pub fn new(bytes: &'a [u8]) -> Source<'a>
        ensures bytes { result.bytes.now ≡ bytes.now }
        ensures limits { (result.bytes_per_call ≡ 18446744073709551615)
            × (result.failing_call ≡ 18446744073709551615) }
        ensures calls { result.calls ≡ 0 }
    {
        Source::failing(bytes, usize::MAX, NEVER, ErrorKind::Other)
    }

    /// Returns a reader that gives at most `bytes_per_call` bytes a call, and fails at this call.
    pub fn failing(
        bytes: &'a [u8],
        bytes_per_call: usize,
        failing_call: usize,
        kind: ErrorKind,
    ) -> Source<'a>
        ensures bytes { result.bytes.now ≡ bytes.now }
        ensures limits { (result.bytes_per_call ≡ bytes_per_call)
            × (result.failing_call ≡ failing_call) × (result.kind ≡ kind) }
        ensures calls { result.calls ≡ 0 }
    {
        Source {
            bytes,
            bytes_per_call,
            calls: 0,
            failing_call,
            kind,
        }
    }
}

impl Read for Source<'_> {
    ghost remaining = { λ s. Some s.bytes.now };

    fn read(&mut self, buf: &mut [u8]) -> io::Result<usize> {
        let call = self.calls;
        self.calls = call.saturating_add(1);
        if call == self.failing_call {
            return Err(io::Error::from(self.kind));
        }
        let count = buf
            .len()
            .min(self.bytes.len())
            .min(self.bytes_per_call.max(1));
        let (first, rest) = self.bytes.split_at(count);
        buf[..count].copy_from_slice(first);
        self.bytes = rest;
        Ok(count)
    }
}

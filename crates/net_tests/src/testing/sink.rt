//! A writer to memory that can fail.
ghost use Rattle.std.specs.Prelude.{◌≡◌, [], None, Some, IfOk};

use crate::testing::source::NEVER;
use std::alloc::{AllocError, Global};
use std::io;
use std::io::{ErrorKind, Write};

/// A writer to memory. It takes at most `bytes_per_call` bytes a call. Its call number
/// `failing_call`, counted from 0, fails with an error of its kind, or takes no byte if it has no
/// kind. Each flush fails with an error of the kind `flush_kind`, if there is one.
#[derive(Drop)]
pub struct Sink {
    /// The bytes that were taken.
    pub bytes: Vec<u8>,
    /// The most bytes that a call takes.
    pub bytes_per_call: usize,
    /// How many calls of `write` there were.
    pub calls: usize,
    /// The number of the call that fails.
    pub failing_call: usize,
    /// The kind of its error, if it has one.
    pub kind: Option<ErrorKind>,
    /// How many flushes there were.
    pub flushes: usize,
    /// The kind of the error of each flush, if they fail.
    pub flush_kind: Option<ErrorKind>,
}

impl Sink {
    /// Returns a writer that takes all, and never fails. Memory for 8,192 bytes is taken here.
    pub fn new(alloc: Global) -> Result<Sink, AllocError>
        ensures { IfOk result (λ sink. (sink.bytes.items ≡ []) × (sink.calls ≡ 0)
            × (sink.bytes_per_call ≡ 18446744073709551615)
            × (sink.failing_call ≡ 18446744073709551615)
            × (sink.flushes ≡ 0) × (sink.flush_kind ≡ None)) }
    {
        Sink::failing(alloc, usize::MAX, NEVER, None)
    }

    /// Returns a writer that takes at most `bytes_per_call` bytes a call, and fails at this call. Memory for
    /// 8,192 bytes is taken here.
    pub fn failing(
        alloc: Global,
        bytes_per_call: usize,
        failing_call: usize,
        kind: Option<ErrorKind>,
    ) -> Result<Sink, AllocError>
        ensures { IfOk result (λ sink. (sink.bytes.items ≡ []) × (sink.calls ≡ 0)
            × (sink.bytes_per_call ≡ bytes_per_call) × (sink.failing_call ≡ failing_call)
            × (sink.kind ≡ kind) × (sink.flushes ≡ 0) × (sink.flush_kind ≡ None)) }
    {
        Ok(Sink {
            bytes: Vec::with_capacity(alloc, 8192)?,
            bytes_per_call,
            calls: 0,
            failing_call,
            kind,
            flushes: 0,
            flush_kind: None,
        })
    }
}

impl Write for Sink {
    ghost contents = { λ s. Some s.bytes.items };

    fn write(&mut self, buf: &[u8]) -> io::Result<usize> {
        let call = self.calls;
        self.calls = call.saturating_add(1);
        if call == self.failing_call {
            let Some(kind) = self.kind else {
                return Ok(0);
            };
            return Err(io::Error::from(kind));
        }
        let count = buf.len().min(self.bytes_per_call);
        self.bytes.extend_from_slice(&buf[..count])?;
        Ok(count)
    }

    fn flush(&mut self) -> io::Result<()> {
        self.flushes = self.flushes.saturating_add(1);
        let Some(kind) = self.flush_kind else {
            return Ok(());
        };
        Err(io::Error::from(kind))
    }
}

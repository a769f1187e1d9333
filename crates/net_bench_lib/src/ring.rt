//! Mode `ring`: bytes go in, and come out in order.
ghost use Rattle.std.specs.Prelude.{◌≡◌, [], IfOk, OnOk, string_bytes, option_map, length};
ghost use Rattle.net_bench_lib.specs.Text.{words_of};
ghost use Rattle.net_bench_lib.specs.RingMode.{ring_rules, ring_command, ring_does, fresh_ring_mode, Write, Read};
ghost use Rattle.net_bench_lib.specs.RingLines.{ring_command_value};

use crate::fault::{Fault, Refusal};
use crate::numeral::number;
use crate::session::Session;
use crate::words::Words;
use crate::{text, words};
use net_ring::{ManagedSlice, RingBuffer};
use std::alloc::{AllocError, Allocator};
use std::marker::Model;

/// A line of the mode.
#[derive(Drop)]
pub enum RingLine<A: Allocator + Copy> {
    /// `w HEX`: these bytes come in.
    Write(Vec<u8, A>),
    /// `r NUM`: at most NUM bytes go out.
    Read(u64),
}

/// A ring of bytes that lines fill and empty. A contract sees its queue and its capacity, and not
/// where in the storage it is read.
#[derive(Drop)]
pub struct RingSession<'a> {
    ring: RingBuffer<'a, u8>,
}

impl<'a> Model for RingSession<'a> {
    ghost use Rattle.net_bench_lib.specs.RingMode.{RingModeState};

    ghost Value = { RingModeState };

    ghost use Rattle.std.specs.Prelude.{◌≡◌, length};
    ghost use Rattle.net_ring.specs.Ring.{capacity, queue};

    ghost view = { λ s. record { capacity = capacity s.ring; bytes = queue s.ring } };

    ghost invariant = { λ s. length (queue s.ring) ≡ s.ring.count };
}

/// Returns the meaning of a line, if it is one of the mode's.
fn ring_line<A: Allocator + Copy>(alloc: A, line: &[u8]) -> Result<Option<RingLine<A>>, AllocError>
    ensures { IfOk result (λ found.
        option_map ring_command_value found ≡ ring_command (words_of line.now)) }
{
    match words::split_words(line) {
        Words::Two(verb, word) => {
            if verb == b"w".as_slice() {
                return Ok(text::bytes(alloc, word)?.map(|bytes| RingLine::Write(bytes)));
            }
            if verb == b"r".as_slice() {
                return Ok(number(word).map(|number| RingLine::Read(number)));
            }
            Ok(None)
        }
        Words::One(_) | Words::Three(_, _, _) | Words::More => Ok(None),
    }
}

impl<'a> RingSession<'a> {
    /// Returns an empty ring over this storage.
    pub fn new(storage: &'a mut [u8]) -> RingSession<'a>
        ensures { result ≡ fresh_ring_mode (length storage.old) }
    {
        RingSession {
            ring: RingBuffer::new(ManagedSlice::from(storage)),
        }
    }

    /// Enqueues as many bytes as there is room for, and replies how many.
    fn write<A: Allocator + Copy>(
        &mut self,
        bytes: &[u8],
        reply: &mut String<A>,
    ) -> Result<(), AllocError>
        requires { string_bytes reply.old ≡ [] }
        ensures { OnOk result
            (ring_does self.old (Write bytes.now) ≡ (self.new, string_bytes reply.new)) }
    {
        let count = self.ring.enqueue_slice(bytes);
        write!(reply, "took {count}\n")
    }

    /// Dequeues at most `number` bytes, and replies with them.
    fn read<A: Allocator + Copy>(
        &mut self,
        alloc: A,
        number: u64,
        reply: &mut String<A>,
    ) -> Result<(), AllocError>
        requires { string_bytes reply.old ≡ [] }
        ensures { OnOk result
            (ring_does self.old (Read number) ≡ (self.new, string_bytes reply.new)) }
    {
        let count = (self.ring.len() as u64).min(number) as usize;
        let mut bytes = vec![in alloc; 0u8; count]?;
        let _ = self.ring.dequeue_slice(&mut bytes);
        text::show_bytes(alloc, &bytes, reply)
    }
}

impl<A: Allocator + Copy> Session<A> for RingSession<'_> {
    ghost rules = { ring_rules };

    ghost closing = { λ _. [] };

    fn apply_line(&mut self, alloc: A, line: &[u8], reply: &mut String<A>) -> Result<(), Refusal> {
        match ring_line(alloc, line)? {
            Some(RingLine::Write(bytes)) => self.write(&bytes, reply)?,
            Some(RingLine::Read(number)) => self.read(alloc, number, reply)?,
            None => return Err(Refusal::Fault(Fault::BadCommand)),
        }
        Ok(())
    }

    fn closing_text(&self) -> &'static str {
        ""
    }
}

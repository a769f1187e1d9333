//! Mode `stream`: segments of a stream arrive in any order, and its bytes are read in order.
ghost use Rattle.std.specs.Prelude.{◌≡◌, [], IfOk, OnOk, IfErr, Ok, string_bytes, option_map, ◌≤◌, length};
ghost use Rattle.net_receiver.specs.Execution.{command_value};
ghost use Rattle.net_bench_lib.specs.Numeral.{number_of};
ghost use Rattle.net_bench_lib.specs.Text.{words_of, hex_bytes};
ghost use Rattle.net_bench_lib.specs.StreamMode.{ToReceiver, NextSchedule, segment_command, stream_command};
ghost use Rattle.net_bench_lib.specs.StreamMode.{first_schedule, stream_does, stream_rules, stream_closing, end_fits};
ghost use Rattle.net_bench_lib.specs.Refusal.{IsRefusalOf};
ghost use Rattle.net_bench_lib.specs.StreamLines.{stream_command_value};
ghost use Rattle.net_bench_lib.specs.StreamReceivers.{receiver_schedule_ops};

use crate::fault::{Fault, Refusal};
use crate::numeral::number;
use crate::session::Session;
use crate::words::Words;
use crate::{text, words};
use net_receiver::{Command, Receiver, execute};
use net_ring::ManagedSlice;
use std::alloc::{AllocError, Allocator};
use std::marker::Model;
use std::mem;

mod reply_lines;

/// A line of the mode.
#[derive(Drop)]
pub enum StreamLine<A: Allocator + Copy> {
    /// `s NUM HEX`, `r NUM` or `?`: a command to the receiver.
    ToReceiver(Command<A>),
    /// `--`: the second schedule begins.
    NextSchedule,
}

/// A receiver that lines send segments to and read from, and after `--` also the one before it.
///
/// The storage of the second schedule is made when it begins, in the list that `second` lends.
#[derive(Drop)]
pub struct StreamSession<'a, A: Allocator + Copy, const N: usize> {
    first: u64,
    capacity: usize,
    present: Receiver<'a, N>,
    ended: Option<Receiver<'a, N>>,
    second: Option<&'a mut Vec<u8, A>>,
}

impl<'a, A: Allocator + Copy, const N: usize> Model for StreamSession<'a, A, N> {
    ghost use Rattle.std.specs.Prelude.{◌≡◌, ◌≤◌, None, IsSome};
    ghost use Rattle.net_receiver.specs.ReceiverState.{ReceiverState};
    ghost use Rattle.net_bench_lib.specs.StreamMode.{Schedules};
    ghost use Rattle.net_bench_lib.specs.StreamReceivers.{schedules_code};

    ghost Value = { Schedules ReceiverState };

    ghost coded = { schedules_code };

    ghost view = { λ s. record {
      setting = record { first = s.first; capacity = s.capacity; most_runs = N };
      present = s.present;
      ended = s.ended;
    } };

    ghost invariant = { λ s. (1 ≤ N) × (s.ended ≡ None → IsSome s.second) };
}

/// Returns the segment that two words name, if they name one.
fn segment<A: Allocator + Copy>(
    alloc: A,
    position: &[u8],
    bytes: &[u8],
) -> Result<Option<StreamLine<A>>, AllocError>
    ensures { IfOk result (λ found. option_map stream_command_value found
        ≡ segment_command (number_of position.now) (hex_bytes bytes.now)) }
{
    let Some(pos) = number(position) else {
        return Ok(None);
    };
    let Some(bytes) = text::bytes(alloc, bytes)? else {
        return Ok(None);
    };
    Ok(Some(StreamLine::ToReceiver(Command::Segment { pos, bytes })))
}

/// Returns the meaning of a line, if it is one of the mode's.
fn stream_line<A: Allocator + Copy>(
    alloc: A,
    line: &[u8],
) -> Result<Option<StreamLine<A>>, AllocError>
    ensures { IfOk result (λ found.
        option_map stream_command_value found ≡ stream_command (words_of line.now)) }
{
    match words::split_words(line) {
        Words::One(verb) => {
            if verb == b"?".as_slice() {
                return Ok(Some(StreamLine::ToReceiver(Command::Show)));
            }
            if verb == b"--".as_slice() {
                return Ok(Some(StreamLine::NextSchedule));
            }
            Ok(None)
        }
        Words::Two(verb, count) => {
            if verb == b"r".as_slice() {
                return Ok(number(count).map(|count| StreamLine::ToReceiver(Command::Read(count))));
            }
            Ok(None)
        }
        Words::Three(verb, position, bytes) => {
            if verb == b"s".as_slice() {
                return segment(alloc, position, bytes);
            }
            Ok(None)
        }
        Words::More => Ok(None),
    }
}

/// Returns whether a segment's end is at most the greatest number.
fn fits<A: Allocator + Copy, const N: usize>(command: &Command<A>) -> bool
    ensures { result ≡ end_fits (command_value command.now) }
{
    match command {
        Command::Segment { pos, bytes } => Receiver::<N>::fits(*pos, bytes.len()),
        Command::Read(_) | Command::Show => true,
    }
}

impl<'a, A: Allocator + Copy, const N: usize> StreamSession<'a, A, N> {
    /// Returns a session with a fresh receiver of a stream that begins at `first`, over this
    /// storage. The storage of the second schedule takes the place of the present value of
    /// `second`.
    pub fn new(
        first: u64,
        storage: &'a mut [u8],
        second: &'a mut Vec<u8, A>,
    ) -> StreamSession<'a, A, N>
        requires { 1 ≤ N }
        ensures { result ≡ first_schedule receiver_schedule_ops
            (record { first = first; capacity = length storage.old; most_runs = N }) }
    {
        StreamSession {
            first,
            capacity: storage.len(),
            present: Receiver::new_at(ManagedSlice::from(storage), first),
            ended: None,
            second: Some(second),
        }
    }

    /// Does a command, and shows its reply.
    fn command(
        &mut self,
        alloc: A,
        command: &Command<A>,
        reply: &mut String<A>,
    ) -> Result<(), Refusal>
        requires { string_bytes reply.old ≡ [] }
        ensures ok { let done =
            stream_does receiver_schedule_ops self.old (ToReceiver (command_value command.now)) in
            OnOk result (done ≡ Ok (self.new, string_bytes reply.new)) }
        ensures err { let done =
            stream_does receiver_schedule_ops self.old (ToReceiver (command_value command.now)) in
            IfErr result (λ e. IsRefusalOf e done) }
    {
        if !fits::<A, N>(command) {
            return Err(Refusal::Fault(Fault::RangeTooLong));
        }
        let answer = execute(alloc, &mut self.present, command)?;
        reply_lines::show_reply(alloc, &answer, reply)?;
        Ok(())
    }

    /// Begins the second schedule, which has no reply.
    fn next_schedule(&mut self, alloc: A) -> Result<(), Refusal>
        ensures ok { OnOk result
            (stream_does receiver_schedule_ops self.old NextSchedule ≡ Ok (self.new, [])) }
        ensures err { IfErr result (λ e.
            IsRefusalOf e (stream_does receiver_schedule_ops self.old NextSchedule)) }
    {
        if self.ended.is_some() {
            return Err(Refusal::Fault(Fault::TooManySchedules));
        }
        let storage = vec![in alloc; 0u8; self.capacity]?;
        let second = self.second.take().unwrap();
        *second = storage;
        let fresh = Receiver::new_at(ManagedSlice::from(second.as_mut_slice()), self.first);
        self.ended = Some(mem::replace(&mut self.present, fresh));
        Ok(())
    }
}

impl<A: Allocator + Copy, const N: usize> Session<A> for StreamSession<'_, A, N> {
    ghost rules = { stream_rules receiver_schedule_ops };

    ghost closing = { stream_closing receiver_schedule_ops };

    fn apply_line(&mut self, alloc: A, line: &[u8], reply: &mut String<A>) -> Result<(), Refusal> {
        match stream_line(alloc, line)? {
            Some(StreamLine::ToReceiver(command)) => self.command(alloc, &command, reply),
            Some(StreamLine::NextSchedule) => self.next_schedule(alloc),
            None => Err(Refusal::Fault(Fault::BadCommand)),
        }
    }

    fn closing_text(&self) -> &'static str {
        match &self.ended {
            None => "",
            Some(ended) if ended.same_state(&self.present) => "same\n",
            Some(_) => "differs\n",
        }
    }
}

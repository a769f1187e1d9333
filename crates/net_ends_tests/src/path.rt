//! A text goes from a sending end to a receiving end over a path that loses, doubles, reorders and delays segments, and
//! forges none. What is read is a prefix of the text, and all of it once the receiver says so, whatever is
//! acknowledged, by forged segments too, and whatever the timer and the windows say.
//!
//! `carry` says so, in three clauses about the text and what was read. They hold for any list of events, in any order,
//! and for storages of any lengths. By `first_missing` what the receiver lacks can always be sent again, if no
//! acknowledgement says more than arrived. Nothing says that a segment arrives: the path may lose each of them.
//!
//! `IsCarried` is what stays true from event to event, by the clauses of both ends and the laws over them.
ghost use Rattle.std.specs.Prelude.{◌≡◌, ◌≤◌, ◌<◌, ℕ, List, length, take, drop, All, IfOk, IsTrue, IsFalse};
ghost use Rattle.net_receiver.specs.ReceiverState.{next_position};
ghost use Rattle.net_receiver.specs.Finite.{MatchesFinite, acknowledged, is_complete};
ghost use Rattle.net_receiver.specs.FiniteSender.{first_number};
ghost use Rattle.net_ends_tests.specs.Path.{IsCarried, IsOfText, IsReading, IsSending, IsWriting};

use net_base::time::{Duration, Instant};
use net_ends::{AckSegment, ReceivingEnd, SendingEnd, laws};
use net_receiver::{FiniteReceiver, FiniteSender};
use net_ring::ManagedSlice;
use net_tcp::{Announcement, TimeoutBounds};
use std::alloc::{AllocError, Allocator};
use std::ops::Range;

/// What happens next. Nothing says in which order, or that it happens at all.
#[derive(Drop)]
pub enum Event {
    /// As much of the text is written as there is room for, and after its last byte the end.
    Write,
    /// The path takes the segment that is to be sent now, if one is.
    Send {
        congestion_window: u64,
        now: Instant,
    },
    /// Segment number `index` that the path took arrives, perhaps not for the first time.
    Arrive {
        index: usize,
    },
    /// An acknowledgement arrives with a block, whatever they say.
    Acknowledge {
        it: Announcement,
        block: Range<u64>,
        now: Instant,
    },
    /// The timer is looked at.
    Look {
        now: Instant,
    },
    /// All that is queued is read.
    Read,
}

/// A segment on its way.
#[derive(Drop)]
pub struct Segment<A: Allocator + Copy> {
    pub pos: u64,
    pub bytes: Vec<u8, A>,
    pub is_last: bool,
}

/// Both ends, the segments that the path took, and how many bytes were written and read.
#[derive(Drop)]
pub struct Transfer<'s, 'r, A: Allocator + Copy> {
    pub sender: SendingEnd<'s, 4>,
    pub receiver: ReceivingEnd<'r, 4>,
    pub path: Vec<Segment<A>, A>,
    pub written: usize,
    pub read: usize,
}

/// Carries a text over a path of which nothing is known but that it forges no segment. Returns how many bytes were read
/// into `into`, and whether the receiver says that these are all.
pub fn carry<A: Allocator + Copy>(
    alloc: A,
    text: &[u8],
    events: &[Event],
    to_send: &mut [u8],
    to_receive: &mut [u8],
    into: &mut [u8],
    bounds: TimeoutBounds,
) -> Result<(usize, bool), AllocError>
    ensures prefix { IfOk result (λ r. take r.0 into.new ≡ take r.0 text.now) }
    ensures within { IfOk result (λ r. (r.0 ≤ length into.new) × (r.0 ≤ length text.now)) }
    ensures whole { IfOk result (λ r. IsTrue r.1 → r.0 ≡ length text.now) }
{
    net_receiver::laws::finite_receivers();
    net_receiver::laws::finite_senders();
    let second = Duration::from_micros(1_000_000);
    let mut transfer = Transfer {
        sender: SendingEnd::over_at(ManagedSlice::Borrowed(to_send), 0, second, bounds),
        receiver: ReceivingEnd::over_at(ManagedSlice::Borrowed(to_receive), 0, 536),
        path: Vec::new(alloc),
        written: 0,
        read: 0,
    };
    'events: for event in events {
        happen(alloc, event, text, &mut transfer, into)?;
    }
    Ok(outcome(&transfer))
}

/// One event.
pub fn happen<A: Allocator + Copy>(
    alloc: A,
    event: &Event,
    text: &[u8],
    it: &mut Transfer<'_, '_, A>,
    into: &mut [u8],
) -> Result<(), AllocError>
    requires { IsCarried text.now it.old into.old }
    ensures { IfOk result (λ _. IsCarried text.now it.new into.new) }
{
    match event {
        Event::Write => it.written = write_more(&mut it.sender, text, it.written),
        Event::Send {
            congestion_window,
            now,
        } => {
            send(
                alloc,
                &mut it.sender,
                *congestion_window,
                *now,
                &mut it.path,
            )?
        }
        Event::Arrive { index } => arrive(&it.path, *index, &mut it.receiver),
        Event::Acknowledge {
            it: said,
            block,
            now,
        } => acknowledge(*said, block.start..block.end, *now, &mut it.sender),
        Event::Look { now } => look(*now, &mut it.sender),
        Event::Read => it.read = read_more(&mut it.receiver, into, it.read),
    }
    Ok(())
}

/// Writes more of a text, of which `from` bytes were written, and closes the end after the last one.
fn write_more(sender: &mut SendingEnd<'_, 4>, text: &[u8], from: usize) -> usize
    requires { from ≤ length text.now }
    ensures writing { IsWriting text.now from sender.old.sender →
        IsWriting text.now result sender.new.sender }
    ensures within { result ≤ length text.now }
{
    net_receiver::laws::finite_senders();
    let written = from + sender.write(&text[from..]);
    if written == text.len() {
        sender.close();
    }
    written
}

/// Puts the segment on the path that is to be sent now, if one is.
fn send<A: Allocator + Copy>(
    alloc: A,
    sender: &mut SendingEnd<'_, 4>,
    congestion_window: u64,
    now: Instant,
    path: &mut Vec<Segment<A>, A>,
) -> Result<(), AllocError>
    ensures writing { (text : List ℕ) (n : ℕ) → IsWriting text n sender.old.sender →
        IsWriting text n sender.new.sender }
    ensures path { IfOk result (λ _. (text : List ℕ) (n : ℕ) → IsWriting text n sender.old.sender →
        All (IsOfText text) path.old.items → All (IsOfText text) path.new.items) }
{
    net_receiver::laws::finite_senders();
    laws::sending_ends();
    let Some(next) = sender.next_segment(congestion_window, now) else {
        return Ok(());
    };
    put(alloc, sender, next.range(), path)
}

/// Puts a segment on the path: a copy of what the end lends.
fn put<A: Allocator + Copy>(
    alloc: A,
    sender: &SendingEnd<'_, 4>,
    range: Range<u64>,
    path: &mut Vec<Segment<A>, A>,
) -> Result<(), AllocError>
    ensures { IfOk result (λ _. (text : List ℕ) (n : ℕ) → IsWriting text n sender.now.sender →
        sender.now.sender.sender.first_unacknowledged ≤ range.start →
        All (IsOfText text) path.old.items → All (IsOfText text) path.new.items) }
{
    laws::both_ends();
    net_receiver::laws::matches_stream();
    path.reserve(1)?;
    let pos = range.start;
    let lent = sender.bytes(range);
    let mut bytes = Vec::from_slice(alloc, lent.front)?;
    bytes.extend_from_slice(lent.back)?;
    path.push_reserved(Segment {
        pos,
        bytes,
        is_last: lent.fin,
    });
    Ok(())
}

/// A segment that is on the path arrives, and stays there.
fn arrive<A: Allocator + Copy>(
    path: &[Segment<A>],
    index: usize,
    receiver: &mut ReceivingEnd<'_, 4>,
)
    ensures { (text : List ℕ) (n : ℕ) (into : List ℕ) → All (IsOfText text) path.now →
        IsReading text n into receiver.old.receiver → IsReading text n into receiver.new.receiver }
{
    if index < path.len() {
        let it = &path[index];
        take(receiver, it.pos, &it.bytes, it.is_last);
    }
}

/// Takes a segment.
fn take(receiver: &mut ReceivingEnd<'_, 4>, pos: u64, bytes: &[u8], is_last: bool)
    ensures { (text : List ℕ) (n : ℕ) (into : List ℕ) → MatchesFinite 0 text pos bytes.now is_last →
        IsReading text n into receiver.old.receiver → IsReading text n into receiver.new.receiver }
{
    net_receiver::laws::finite_receivers();
    net_receiver::laws::numbers();
    let _kept = receiver.arrived(pos, bytes, is_last).is_ok();
}

/// Takes an acknowledgement, whatever it says.
fn acknowledge(it: Announcement, block: Range<u64>, now: Instant, sender: &mut SendingEnd<'_, 4>)
    ensures { (text : List ℕ) (n : ℕ) → IsWriting text n sender.old.sender →
        IsWriting text n sender.new.sender }
{
    net_receiver::laws::finite_senders();
    laws::sending_ends();
    let _taken = sender.acknowledged(it, &[block], AckSegment::Pure, now);
}

/// Looks at the timer.
fn look(now: Instant, sender: &mut SendingEnd<'_, 4>)
    ensures { (text : List ℕ) (n : ℕ) → IsWriting text n sender.old.sender →
        IsWriting text n sender.new.sender }
{
    let _expired = sender.expired(now);
}

/// Reads more into a buffer, into which `from` bytes were read. Returns how many are read then.
fn read_more(receiver: &mut ReceivingEnd<'_, 4>, into: &mut [u8], from: usize) -> usize
    requires { from ≤ length into.old }
    ensures reading { (text : List ℕ) → IsReading text from into.old receiver.old.receiver →
        IsReading text result into.new receiver.new.receiver }
    ensures within { result ≤ length into.new }
{
    net_receiver::laws::finite_receivers();
    from + receiver.read(&mut into[from..])
}

/// Returns how many bytes were read, and whether the receiver says that these are all.
fn outcome<A: Allocator + Copy>(it: &Transfer<'_, '_, A>) -> (usize, bool)
    ensures read { result.0 ≡ it.now.read }
    ensures whole { (text into : List ℕ) →
        IsReading text it.now.read into it.now.receiver.receiver → IsTrue result.1 →
        it.now.read ≡ length text }
{
    (it.read, has_all(&it.receiver))
}

/// Returns whether all has arrived and was read.
fn has_all(receiver: &ReceivingEnd<'_, 4>) -> bool
    ensures { (text : List ℕ) (n : ℕ) (into : List ℕ) →
        IsReading text n into receiver.now.receiver → IsTrue result → n ≡ length text }
{
    net_receiver::laws::finite_receivers();
    net_receiver::laws::is_sound_end(receiver.receiver());
    receiver.receiver().has_read_all()
}

/// Lends the bytes from the receiver's first missing position on. What it acknowledged leaves the sender's storage;
/// what it lacks is still there, once it was written.
///
/// # Requires
///
/// Not all has arrived, and the sender was told of nothing that hasn't.
pub fn first_missing<'s>(sender: &'s FiniteSender<'_>, receiver: &FiniteReceiver<'_, 4>) -> &'s [u8]
    requires more { IsFalse (is_complete receiver.now) }
    requires kept { first_number sender.now ≤ acknowledged receiver.now }
    ensures bytes { (text : List ℕ) (n : ℕ) → IsSending text n sender.now →
        result.now ≡ take (length result.now) (drop (next_position receiver.now.receiver) (take n text)) }
    ensures not_empty { (text : List ℕ) (n : ℕ) → IsSending text n sender.now →
        next_position receiver.now.receiver < n → 0 < length result.now }
{
    net_receiver::laws::is_sound_sent(sender);
    net_receiver::laws::lent_segments();
    sender.peek_at(receiver.receiver().next(), u64::MAX).bytes
}

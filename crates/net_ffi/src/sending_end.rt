//! The sending side of a TCP connection: a sender of a stream that ends, what the peer has reported, what is
//! lost, the timer, and the peer's window. A program needs few of the fields below: it fills in `TimeoutBounds`, and
//! net_bound.h has calls that read those of `sender`. All others, such as those of `LossRecovery`, are for the calls
//! alone, and may differ in the next version.
//!
//! A head of zeros is new, of a stream that begins at position 0, whose first timeout is 1 second within the RFC's
//! bounds. All of an end is in its head but the bytes: at most 16 ranges are remembered of what was reported, enough
//! for windows of 128 segments on paths that lose or reorder. `net_base_sending_end_write` alone is passed the storage:
//! others need at most its capacity. When the peer's SYN has come, `net_base_sending_end_open` begins with it. What a
//! segment acknowledges, pass to `net_base_sending_end_acknowledged`. `net_base_sending_end_next_segment` says what to
//! send, until it says that nothing is, and `net_base_sending_end_bytes` where that is. At the moment that
//! `net_base_sending_end_expires_at` writes, call `net_base_sending_end_expired`.
//!
//! A number whose flag is false doesn't count, whatever it is.

// Why: The rules are those of `SendingHead`, over runs that are lent. An end of C lends the 16 in its struct, so that
// all of it but the bytes is one struct. Each flag and each number of the head has a meaning. So
// `is_sound`, which each call asks, looks at the sender and at what was reported, and at nothing else.

ghost use Rattle.std.specs.Prelude.{◌≡◌, ◌↔◌, ◌+◌, ◌-◌, ◌<◌, ◌≤◌, ◌^◌, ◌==◌, ◌++◌, ◌||◌, ℕ, List, length, min, take};
ghost use Rattle.std.specs.Prelude.{drop, slice_get, IsTrue, IsFalse, is_some, is_none, unwrap_or, Option, Some, None};
ghost use Rattle.std.specs.Prelude.{true, false};
ghost use Rattle.net_receiver.specs.Finite.{no_end};
ghost use Rattle.net_receiver.specs.FiniteSender.{IsSoundFiniteSender, finite_room};
ghost use Rattle.net_receiver.specs.FiniteSender.{finite_sender_of, sender_after_command, Acknowledges, Marks};
ghost use Rattle.net_tcp.specs.LossRecovery.{is_active, is_wrong, taken_back};
ghost use Rattle.net_tcp.specs.Retransmission.{expires_at, has_expired};
ghost use Rattle.net_tcp.specs.Windows.{empty_segment_position};
ghost use Rattle.net_ends.specs.Ends.{new_end, after_event, Opened, Enabled, Opening, Wrote, Shut, IsSegment};
ghost use Rattle.net_ends.specs.Ends.{first, Resumed};
ghost use Rattle.net_ffi.specs.Refusals.{no_number};
ghost use Rattle.net_ffi.specs.Retransmission.{given_or, bounds_of};
ghost use Rattle.net_ffi.specs.SendingEnds.{sending_of, begun_at, IsSoundSending, AreBlocks, taken_fields};
ghost use Rattle.net_ffi.specs.SendingEnds.{ended_fields, outgoing_fields, ranges_of};
ghost use Rattle.net_ends.specs.Receiving.{range_of};
ghost use Rattle.net_tcp.specs.Sack.{is_permitted};
ghost use Rattle.net_ends.specs.Calls.{Hears, Looks, Chooses};
ghost use Rattle.net_ends.specs.Rules.{queued_of};

use crate::receiver::RUNS;
use crate::receiving_end::are_sixteen;
use crate::refusals::{
    AcknowledgedStatus, ExpiredStatus, NET_BASE_ANSWER, NET_BASE_DONE, NET_BASE_LOST,
    NET_BASE_NOTHING, NET_BASE_OLD, NET_BASE_OVERDUE, NET_BASE_PROBE, NET_BASE_REFUSED,
    OutgoingStatus, no_number,
};
use crate::retransmission::{FIRST_TIMEOUT, TimeoutBounds, bounds_from, given_or};
use net_assembler::Run;
use net_base::time::{Duration, Instant};
use net_ends::{Acknowledged, Expired, Outgoing, Queued, SendingHead};
use net_receiver::{FiniteSenderHead, HeldRun, SentNumbers};
use net_tcp::{Announcement, Expiry, Sack};
use std::ops::Range;

/// How many blocks an acknowledgement has room for: TCP's options have room for four.
const BLOCKS: usize = 4;

/// The sending end of a stream.
#[repr(C)]
#[derive(Copy, Clone, Debug)]
pub struct SendingEnd {
    /// The sender.
    pub sender: FiniteSenderHead,
    /// The runs of what was reported.
    pub runs: [Run; RUNS],
    /// All else that it knows.
    pub head: SendingHead,
    /// The timeout before any sample. 0 counts as 1 second.
    pub first_timeout: u64,
    /// The bounds of the timeout.
    pub bounds: TimeoutBounds,
}

/// What an acknowledgement said.
#[repr(C)]
#[derive(Copy, Clone, Debug)]
pub struct TakenAcknowledgement {
    /// What became of it.
    pub status: AcknowledgedStatus,
    /// How many positions it acknowledged that weren't before.
    pub count: u64,
    /// Whether a block of it reports what wasn't known.
    pub reports: bool,
    /// Whether it begins a recovery: then halve the congestion window.
    pub begins: bool,
}

/// Whether the timer has ended, and what that means.
#[repr(C)]
#[derive(Copy, Clone, Debug)]
pub struct EndedTimer {
    /// What it means.
    pub status: ExpiredStatus,
    /// Whether `NET_BASE_EXPIRED_OVERDUE` begins a recovery: then halve the congestion window. False at all others.
    pub begins: bool,
}

/// A segment to send now.
#[repr(C)]
#[derive(Copy, Clone, Debug)]
pub struct OutgoingSegment {
    /// Whether there is one.
    pub status: OutgoingStatus,
    /// The position of its first byte, or of the end; 0 if there is none.
    pub position: u64,
    /// The position after its last one, where the end has one too; 0 if there is none.
    pub end: u64,
    /// Whether some of it was sent before.
    pub is_again: bool,
}

/// Where the bytes of a segment are, in two parts, and whether it ends the stream.
#[repr(C)]
#[derive(Copy, Clone, Debug)]
pub struct SegmentParts {
    /// The index of the first byte; `NET_BASE_NONE` if the call was refused.
    pub from: usize,
    /// How many bytes are from there on.
    pub count: usize,
    /// The index of the bytes after these.
    pub rest_from: usize,
    /// How many bytes are from there on.
    pub rest_count: usize,
    /// Whether the segment ends the stream.
    pub is_last: bool,
}

/// The acknowledgement of a refused call.
#[inline(always)]
pub fn refused_taken_acknowledgement() -> TakenAcknowledgement
    ensures status { result.status ≡ NET_BASE_REFUSED }
    ensures none { (result.count ≡ 0) × IsFalse result.reports × IsFalse result.begins }
{
    taken(NET_BASE_REFUSED)
}

/// The timer's end of a refused call.
#[inline(always)]
pub fn refused_ended_timer() -> EndedTimer
    ensures status { result.status ≡ NET_BASE_REFUSED }
    ensures none { IsFalse result.begins }
{
    ended(NET_BASE_REFUSED, false)
}

/// The segment of a refused call.
#[inline(always)]
pub fn refused_outgoing_segment() -> OutgoingSegment
    ensures status { result.status ≡ NET_BASE_REFUSED }
    ensures none { (result.position ≡ 0) × (result.end ≡ 0) × IsFalse result.is_again }
{
    no_segment(NET_BASE_REFUSED)
}

/// The parts of a refused call.
#[inline(always)]
pub fn refused_segment_parts() -> SegmentParts
    ensures from { result.from ≡ no_number }
    ensures none { (result.count ≡ 0) × (result.rest_from ≡ 0) × (result.rest_count ≡ 0) }
    ensures end { IsFalse result.is_last }
{
    SegmentParts {
        from: no_number(),
        count: 0,
        rest_from: 0,
        rest_count: 0,
        is_last: false,
    }
}

/// Returns an acknowledgement that says nothing.
#[inline(always)]
fn taken(status: AcknowledgedStatus) -> TakenAcknowledgement
    ensures { result ≡ record { status = status; count = 0; reports = false; begins = false } }
{
    TakenAcknowledgement {
        status,
        count: 0,
        reports: false,
        begins: false,
    }
}

/// Returns what an acknowledgement said.
#[inline(always)]
fn fields_of_acknowledged(said: Acknowledged) -> TakenAcknowledgement
    ensures { result ≡ taken_fields said }
{
    match said {
        Acknowledged::Refused => taken(NET_BASE_ANSWER),
        Acknowledged::Old => taken(NET_BASE_OLD),
        Acknowledged::Taken {
            new,
            reports,
            begins,
        } => TakenAcknowledgement {
            status: NET_BASE_DONE,
            count: new,
            reports,
            begins,
        },
    }
}

/// Returns what the timer's end means, as one struct.
#[inline(always)]
fn ended(status: ExpiredStatus, begins: bool) -> EndedTimer
    ensures { result ≡ record { status = status; begins = begins } }
{
    EndedTimer { status, begins }
}

/// Returns what the timer's end means.
#[inline(always)]
fn fields_of_expired(said: Expired) -> EndedTimer
    ensures { result ≡ ended_fields said }
{
    match said {
        Expired::No => ended(NET_BASE_DONE, false),
        Expired::Overdue { begins } => ended(NET_BASE_OVERDUE, begins),
        Expired::Probe => ended(NET_BASE_PROBE, false),
        Expired::Lost => ended(NET_BASE_LOST, false),
    }
}

/// Returns that there is no segment.
#[inline(always)]
fn no_segment(status: OutgoingStatus) -> OutgoingSegment
    ensures { result ≡ record { status = status; position = 0; end = 0; is_again = false } }
{
    OutgoingSegment {
        status,
        position: 0,
        end: 0,
        is_again: false,
    }
}

/// Returns the segment that is to be sent.
#[inline(always)]
fn fields_of_outgoing(it: Outgoing) -> OutgoingSegment
    ensures { result ≡ outgoing_fields (Some it) }
{
    OutgoingSegment {
        status: NET_BASE_DONE,
        position: it.pos,
        end: it.end,
        is_again: it.is_again,
    }
}

/// Returns a block, or an empty one if there are fewer.
#[inline(always)]
fn block_at(blocks: &[HeldRun], at: usize) -> Range<u64>
    ensures { result ≡ range_of (unwrap_or (slice_get blocks.now at) (0, 0)) }
{
    if at < blocks.len() {
        let block = blocks[at];
        block.start..block.end
    } else {
        0..0
    }
}

/// Returns blocks as ranges, and empty ones after them. Rust promises no layout of a range, so these are copied.
#[inline(always)]
fn ranges_of(blocks: &[HeldRun]) -> [Range<u64>; BLOCKS]
    requires { AreBlocks blocks.now }
    ensures { take (length blocks.now) result ≡ ranges_of blocks.now }
{
    [
        block_at(blocks, 0),
        block_at(blocks, 1),
        block_at(blocks, 2),
        block_at(blocks, 3),
    ]
}

/// Returns whether the first number that isn't acknowledged fits 64 bits.
#[inline(always)]
fn has_first(sender: &FiniteSenderHead) -> bool
    ensures { IsTrue result
        ↔ (sender.now.sender.first_unacknowledged + sender.now.finished < 2 ^ 64) }
{
    sender.finished <= u64::MAX - sender.sender.first_unacknowledged
}

/// Returns the sender's numbers.
#[inline(always)]
fn numbers_from(sender: &FiniteSenderHead) -> SentNumbers
    requires { sender.now.sender.first_unacknowledged + sender.now.finished < 2 ^ 64 }
    ensures { result ≡ record {
      first_unacknowledged = sender.now.sender.first_unacknowledged + sender.now.finished;
      sent = sender.now.sent;
    } }
{
    SentNumbers {
        first_unacknowledged: sender.first_number(),
        sent: sender.sent,
    }
}

/// Returns whether the peer reports blocks.
#[inline(always)]
fn sack_of(reports: bool) -> Sack
    ensures { is_permitted result ≡ reports }
{
    if reports {
        Sack::Permitted
    } else {
        Sack::Absent
    }
}

/// Returns a moment.
#[inline(always)]
fn moment(now: i64) -> Instant
    ensures { result ≡ now }
{
    Instant::from_micros(now)
}

/// Returns whether the parts of an end over `capacity` bytes are sound.
#[inline(always)]
fn is_sound(end: &SendingEnd, capacity: usize) -> bool
    ensures { IsTrue result ↔ IsSoundSending capacity end.now }
{
    end.sender.is_sound(capacity) && end.head.buffer.is_sound(&end.runs)
}

/// Returns what a sender over `capacity` bytes has sent, and what is queued.
#[inline(always)]
fn queued_from(sender: &FiniteSenderHead, _capacity: usize) -> Queued
    requires { IsSoundFiniteSender _capacity sender.now }
    ensures value { (storage : List ℕ) → length storage ≡ _capacity →
        result ≡ queued_of (finite_sender_of sender.now storage) }
    ensures order { result.numbers.first_unacknowledged ≤ result.numbers.sent }
{
    Queued {
        numbers: numbers_from(sender),
        end: sender.numbers_end(),
        is_closed: sender.is_closed(),
    }
}

/// Has the sender take an acknowledgement, if it does.
#[inline(always)]
fn acknowledge(sender: &mut FiniteSenderHead, capacity: usize, ack: u64)
    requires { IsSoundFiniteSender capacity sender.old }
    ensures sound { IsSoundFiniteSender capacity sender.new }
    ensures step { (storage : List ℕ) → length storage ≡ capacity →
        finite_sender_of sender.new storage
        ≡ sender_after_command (finite_sender_of sender.old storage) (Acknowledges ack) }
{
    let _is_taken = sender.acknowledge(capacity, ack);
}

/// Has the sender take notice that numbers below `to` are sent.
#[inline(always)]
fn mark(sender: &mut FiniteSenderHead, capacity: usize, to: u64)
    requires { IsSoundFiniteSender capacity sender.old }
    ensures sound { IsSoundFiniteSender capacity sender.new }
    ensures step { (storage : List ℕ) → length storage ≡ capacity →
        finite_sender_of sender.new storage
        ≡ sender_after_command (finite_sender_of sender.old storage) (Marks to) }
{
    let _is_written = sender.mark_sent(capacity, to);
}

/// Returns the timeout before any sample.
#[inline(always)]
fn first_timeout(end: &SendingEnd) -> Duration
    ensures { result ≡ given_or end.now.first_timeout 1000000 }
{
    Duration::from_micros(given_or(end.first_timeout, FIRST_TIMEOUT))
}

/// Returns the end of a stream that begins at position `first`, to which nothing was written.
fn new_end(first: u64, first_timeout: u64, bounds: &TimeoutBounds) -> SendingEnd
    requires { first < no_end }
    ensures numbers { result ≡ begun_at first first_timeout bounds.now }
    ensures state { (storage : List ℕ) → sending_of result storage
        ≡ new_end (length storage) first (given_or first_timeout 1000000) (bounds_of bounds.now) }
    ensures sound { (capacity : ℕ) → IsSoundSending capacity result }
{
    SendingEnd {
        sender: FiniteSenderHead::new(first),
        runs: [Run { start: 0, end: 0 }; RUNS],
        head: SendingHead::new_at(
            first,
            Duration::from_micros(given_or(first_timeout, FIRST_TIMEOUT)),
        ),
        first_timeout,
        bounds: *bounds,
    }
}

/// Makes `end` the sending side of a connection, whose stream begins at position `first`, and to which nothing was
/// written. `first_timeout` is the timeout, in microseconds, before any round trip was measured. 0 means 1,000,000, as
/// RFC 6298 (2.1) says. In `bounds` zeros mean what the RFC says, but set `ack_delay`: 200,000 for TCP, or 0 if the
/// peer answers at once. The storage may have any values.
///
/// It is refused if `first` is `u64::MAX`, since an end there would have no number after it: false, and nothing
/// changes.
#[unsafe(no_mangle)]
pub extern "C" fn net_base_sending_end_init(
    end: &mut SendingEnd,
    first: u64,
    first_timeout: u64,
    bounds: &TimeoutBounds,
) -> bool
    ensures done { IsTrue result ↔ (first < no_end) }
    ensures state { first < no_end → (storage : List ℕ) → sending_of end.new storage
        ≡ new_end (length storage) first (given_or first_timeout 1000000) (bounds_of bounds.now) }
    ensures sound { first < no_end → (capacity : ℕ) → IsSoundSending capacity end.new }
    ensures numbers { first < no_end → end.new ≡ begun_at first first_timeout bounds.now }
    ensures refused { IsFalse result → end.new ≡ end.old }
{
    if first == u64::MAX {
        return false;
    }
    *end = new_end(first, first_timeout, bounds);
    true
}

/// Returns whether the end is sound over a storage of `capacity` bytes: `sender` is that of a sender over as many, and
/// `runs` are those of `head.buffer.scoreboard`. All other numbers may be any. It looks at each used run. Calls that
/// need it test it themselves.
#[unsafe(no_mangle)]
pub extern "C" fn net_base_sending_end_is_sound(end: &SendingEnd, capacity: usize) -> bool
    ensures { IsTrue result ↔ IsSoundSending capacity end.now }
{
    is_sound(end, capacity)
}

/// Begins with a peer, whose SYN announced a window, how many bytes a segment may have, and whether it reports blocks
/// (SACK). Without SACK there is no early loss probe, as the peer couldn't answer it: a lost last segment is sent again
/// when the timer ends. Window probes are sent all the same. `announcement.seq` is the SYN's position,
/// and `announcement.ack` your first position, even if the SYN has no ACK. `segment_size` counts bytes of the stream
/// alone: pass the peer's MSS less the options that each of your segments has (RFC 6691). What was written stays. Call
/// it once, before anything is sent. A second call begins with another peer.
///
/// It is refused if `end` isn't sound over `capacity` bytes: false, and nothing changes.
#[unsafe(no_mangle)]
pub extern "C" fn net_base_sending_end_open(
    end: &mut SendingEnd,
    capacity: usize,
    announcement: &Announcement,
    segment_size: usize,
    reports: bool,
    now: i64,
) -> bool
    ensures done { IsTrue result ↔ IsSoundSending capacity end.old }
    ensures state { IsTrue result → (storage : List ℕ) → length storage ≡ capacity →
        let it = announcement.now in sending_of end.new storage
        ≡ after_event (sending_of end.old storage)
        (Opened it.seq it.ack it.window segment_size reports now) }
    ensures sound { IsTrue result → IsSoundSending capacity end.new }
    ensures refused { IsFalse result → end.new ≡ end.old }
{
    if !is_sound(end, capacity) {
        return false;
    }
    let (numbers, first) = (numbers_from(&end.sender), first_timeout(end));
    end.head.open(
        numbers,
        first,
        *announcement,
        segment_size,
        sack_of(reports),
        moment(now),
    );
    true
}

/// Returns whether a SYN is to be sent now, the first one or one after a timeout, and starts the timer for the next.
/// Ask it only until your SYN is acknowledged: it doesn't test that.
///
/// It is refused if `end` isn't sound over `capacity` bytes: false, and nothing changes.
#[unsafe(no_mangle)]
pub extern "C" fn net_base_sending_end_is_opening_due(
    end: &mut SendingEnd,
    capacity: usize,
    now: i64,
) -> bool
    ensures value { IsSoundSending capacity end.old → (storage : List ℕ) →
        length storage ≡ capacity → let timer = (sending_of end.old storage).timer in
        result ≡ (has_expired timer now || is_none (expires_at timer)) }
    ensures state { IsSoundSending capacity end.old → (storage : List ℕ) →
        length storage ≡ capacity → sending_of end.new storage
        ≡ after_event (sending_of end.old storage) (Opening now) }
    ensures sound { IsSoundSending capacity end.old → IsSoundSending capacity end.new }
    ensures refused { (IsSoundSending capacity end.old → ⊥) →
        IsFalse result × (end.new ≡ end.old) }
{
    if !is_sound(end, capacity) {
        return false;
    }
    end.head
        .is_opening_due(bounds_from(&end.bounds), moment(now))
}

/// Enables Nagle's rule (RFC 9293, 3.7.4), or disables it. While something that was sent isn't acknowledged, less than
/// a whole segment waits by it, unless the stream is closed or the timer has ended. It is enabled at first.
#[unsafe(no_mangle)]
pub extern "C" fn net_base_sending_end_set_nagle_enabled(end: &mut SendingEnd, enabled: bool)
    ensures state { (storage : List ℕ) → sending_of end.new storage
        ≡ after_event (sending_of end.old storage) (Enabled enabled) }
    ensures sound { (capacity : ℕ) → IsSoundSending capacity end.old →
        IsSoundSending capacity end.new }
{
    end.head.set_nagle_enabled(enabled);
}

/// Enqueues the first of these bytes, as many as there is room for, and returns how many: none of a stream that is
/// closed.
///
/// It is refused if `sender` isn't that of a sender over `storage.len()` bytes: `NET_BASE_NONE`, and nothing changes.
#[unsafe(no_mangle)]
pub extern "C" fn net_base_sending_end_write(
    end: &mut SendingEnd,
    storage: &mut [u8],
    bytes: &[u8],
) -> usize
    ensures count { IsSoundFiniteSender (length storage.old) end.old.sender → result
        ≡ min (length bytes.now) (finite_room (sending_of end.old storage.old).sender) }
    ensures state { IsSoundFiniteSender (length storage.old) end.old.sender →
        sending_of end.new storage.new
        ≡ after_event (sending_of end.old storage.old) (Wrote bytes.now) }
    ensures sound { IsSoundSending (length storage.old) end.old →
        IsSoundSending (length storage.old) end.new }
    ensures refused { (IsSoundFiniteSender (length storage.old) end.old.sender → ⊥) →
        (result ≡ no_number) × (end.new ≡ end.old) × (storage.new ≡ storage.old) }
{
    if !end.sender.is_sound(storage.len()) {
        return no_number();
    }
    end.sender.write(storage, bytes)
}

/// Ends the stream after what was written. A second call changes nothing.
#[unsafe(no_mangle)]
pub extern "C" fn net_base_sending_end_close(end: &mut SendingEnd)
    ensures state { (storage : List ℕ) → sending_of end.new storage
        ≡ after_event (sending_of end.old storage) Shut }
    ensures sound { (capacity : ℕ) → IsSoundSending capacity end.old →
        IsSoundSending capacity end.new }
{
    end.sender.close();
}

/// Takes what a segment acknowledges and announces, and the blocks that it reports, as positions. Pass `is_empty` if
/// the segment has no byte and no FIN. Blocks of what wasn't sent are ignored.
///
/// It is refused if `end` isn't sound over `capacity` bytes, or if there are more than 4 blocks: `count` is 0,
/// `reports` and `begins` are false, the status is `NET_BASE_REFUSED`, and nothing changes.
#[unsafe(no_mangle)]
pub extern "C" fn net_base_sending_end_acknowledged(
    end: &mut SendingEnd,
    capacity: usize,
    announcement: &Announcement,
    blocks: &[HeldRun],
    is_empty: bool,
    now: i64,
) -> TakenAcknowledgement
    ensures value { IsSoundSending capacity end.old → AreBlocks blocks.now →
        (storage : List ℕ) → length storage ≡ capacity → let it = announcement.now in
        (said : Acknowledged) × (result ≡ taken_fields said)
        × Hears 16 (sending_of end.old storage) it.seq it.ack it.window
        (ranges_of blocks.now) is_empty now said (sending_of end.new storage) }
    ensures sound { IsSoundSending capacity end.old → IsSoundSending capacity end.new }
    ensures refused { (IsSoundSending capacity end.old × AreBlocks blocks.now → ⊥) →
        (result ≡ record { status = 2; count = 0; reports = false; begins = false })
        × (end.new ≡ end.old) }
{
    if blocks.len() > BLOCKS || !is_sound(end, capacity) {
        return refused_taken_acknowledgement();
    }
    are_sixteen(end.runs);
    let ranges = ranges_of(blocks);
    let numbers = numbers_from(&end.sender);
    let said = end.head.acknowledged(
        &mut end.runs,
        numbers,
        bounds_from(&end.bounds),
        *announcement,
        &ranges[..blocks.len()],
        is_empty,
        moment(now),
    );
    acknowledge(&mut end.sender, capacity, announcement.ack);
    fields_of_acknowledged(said)
}

/// Returns whether the timer has ended, and what that means. If it has, it starts again, and
/// `net_base_sending_end_next_segment` says what is then to be sent.
///
/// It is refused if `end` isn't sound over `capacity` bytes: `begins` is false, the status is `NET_BASE_REFUSED`,
/// and nothing changes.
#[unsafe(no_mangle)]
pub extern "C" fn net_base_sending_end_expired(
    end: &mut SendingEnd,
    capacity: usize,
    now: i64,
) -> EndedTimer
    ensures value { IsSoundSending capacity end.old → (storage : List ℕ) →
        length storage ≡ capacity → (said : Expired) × (result ≡ ended_fields said)
        × Looks (sending_of end.old storage) now said (sending_of end.new storage) }
    ensures sound { IsSoundSending capacity end.old → IsSoundSending capacity end.new }
    ensures refused { (IsSoundSending capacity end.old → ⊥) →
        (result ≡ record { status = 2; begins = false }) × (end.new ≡ end.old) }
{
    if !is_sound(end, capacity) {
        return refused_ended_timer();
    }
    match end.head.timer.expire(bounds_from(&end.bounds), moment(now)) {
        Some(Expiry::Probe) => {
            let queued = queued_from(&end.sender, capacity);
            fields_of_expired(end.head.take_silence(&end.runs, queued))
        }
        Some(Expiry::Timeout) => {
            let queued = queued_from(&end.sender, capacity);
            fields_of_expired(end.head.take_timeout(queued))
        }
        None => ended(NET_BASE_DONE, false),
    }
}

/// Returns whether the last recovery was spurious, and ends it then: nothing had been lost, since all that was sent
/// again came twice (RFC 3708), and the rest arrived. Then restore the congestion window of before the recovery. Ask it
/// after each acknowledgement, an old one too. It is true at most once after each sign of congestion: a `begins` that
/// is true, or `NET_BASE_EXPIRED_LOST`.
///
/// It is refused if `end` isn't sound over `capacity` bytes: false, and nothing changes.
#[unsafe(no_mangle)]
pub extern "C" fn net_base_sending_end_take_back(end: &mut SendingEnd, capacity: usize) -> bool
    ensures value { IsSoundSending capacity end.old → (storage : List ℕ) →
        length storage ≡ capacity → let e = sending_of end.old storage in
        result ≡ is_wrong e.recovery (first e) e.reported }
    ensures state { IsSoundSending capacity end.old → (storage : List ℕ) →
        length storage ≡ capacity → let e = sending_of end.old storage in sending_of end.new storage
        ≡ after_event e (Resumed (taken_back (first e) e.reported e.recovery)) }
    ensures sound { IsSoundSending capacity end.old → IsSoundSending capacity end.new }
    ensures refused { (IsSoundSending capacity end.old → ⊥) →
        IsFalse result × (end.new ≡ end.old) }
{
    if !is_sound(end, capacity) {
        return false;
    }
    let numbers = numbers_from(&end.sender);
    end.head.buffer.take_back(&end.runs, numbers)
}

/// Returns the segment that is to be sent now, and counts it as sent: if the peer's window and the congestion window
/// have room for one, or as a window probe or a loss probe. `congestion_window` is how many bytes may be in flight, but
/// one segment may be, however small it is. Less than a whole segment may be held back (RFC 9293, 3.8.6.2.1, and
/// Nagle's rule).
///
/// It is refused if `end` isn't sound over `capacity` bytes: `position` and `end` are 0, `is_again` is false, the
/// status is `NET_BASE_REFUSED`, and nothing changes.
#[unsafe(no_mangle)]
pub extern "C" fn net_base_sending_end_next_segment(
    end: &mut SendingEnd,
    capacity: usize,
    congestion_window: u64,
    now: i64,
) -> OutgoingSegment
    ensures value { IsSoundSending capacity end.old → (storage : List ℕ) →
        length storage ≡ capacity → (said : Option Outgoing) × (result ≡ outgoing_fields said)
        × Chooses (sending_of end.old storage) congestion_window now said
        (sending_of end.new storage) }
    ensures sound { IsSoundSending capacity end.old → IsSoundSending capacity end.new }
    ensures refused { (IsSoundSending capacity end.old → ⊥) →
        (result ≡ record { status = 2; position = 0; end = 0; is_again = false })
        × (end.new ≡ end.old) }
{
    if !is_sound(end, capacity) {
        return refused_outgoing_segment();
    }
    let queued = queued_from(&end.sender, capacity);
    let said = end.head.next_segment(
        &end.runs,
        queued,
        bounds_from(&end.bounds),
        congestion_window,
        moment(now),
    );
    match said {
        None => no_segment(NET_BASE_NOTHING),
        Some(it) => {
            mark(&mut end.sender, capacity, it.end);
            fields_of_outgoing(it)
        }
    }
}

/// Returns where the bytes of a segment from `position` on, and below `limit`, are, in two parts, and whether the
/// stream ends after them. Of a position that is acknowledged there are none.
///
/// It is refused if `sender` isn't that of a sender over `capacity` bytes: `from` is `NET_BASE_NONE`, `count`,
/// `rest_from` and `rest_count` are 0, `is_last` is false.
#[unsafe(no_mangle)]
pub extern "C" fn net_base_sending_end_bytes(
    end: &SendingEnd,
    capacity: usize,
    position: u64,
    limit: u64,
) -> SegmentParts
    ensures within { IsSoundFiniteSender capacity end.now.sender → (result.from + result.count ≤
        capacity) × (result.rest_from + result.rest_count ≤ capacity) }
    ensures value { IsSoundFiniteSender capacity end.now.sender → (storage : List ℕ) →
        length storage ≡ capacity → IsSegment (sending_of end.now storage).sender position limit
        (take result.count (drop result.from storage)
        ++ take result.rest_count (drop result.rest_from storage)) result.is_last }
    ensures refused { (IsSoundFiniteSender capacity end.now.sender → ⊥) →
        (result.from ≡ no_number) × (result.count ≡ 0) × (result.rest_from ≡ 0)
        × (result.rest_count ≡ 0) × IsFalse result.is_last }
{
    if !end.sender.is_sound(capacity) {
        return refused_segment_parts();
    }
    let (front, _ends) = end.sender.peek_at(capacity, position, limit);
    let after = position + front.contiguous as u64;
    let (back, is_last) = end.sender.peek_at(capacity, after, limit);
    SegmentParts {
        from: front.from,
        count: front.contiguous,
        rest_from: back.from,
        rest_count: back.contiguous,
        is_last,
    }
}

/// Returns whether all that was written is acknowledged, and the end. Once it is so it stays so.
#[unsafe(no_mangle)]
pub extern "C" fn net_base_sending_end_is_done(end: &SendingEnd) -> bool
    ensures { (storage : List ℕ) → result ≡ ((sending_of end.now storage).sender.finished == 1) }
{
    end.sender.is_closed_and_acknowledged()
}

/// Returns whether the timer runs, and if so writes to `moment` when to call `net_base_sending_end_expired`.
#[unsafe(no_mangle)]
pub extern "C" fn net_base_sending_end_expires_at(end: &SendingEnd, moment: &mut i64) -> bool
    ensures value { (storage : List ℕ) →
        result ≡ is_some (expires_at (sending_of end.now storage).timer) }
    ensures moment { (storage : List ℕ) →
        moment.new ≡ unwrap_or (expires_at (sending_of end.now storage).timer) moment.old }
{
    match end.head.timer.expires_at() {
        Some(at) => {
            *moment = at.total_micros();
            true
        }
        None => false,
    }
}

/// Returns the position that an empty segment has, as an acknowledgement alone: its sequence number.
///
/// It is refused if the first position that isn't acknowledged doesn't fit 64 bits: `u64::MAX`.
#[unsafe(no_mangle)]
pub extern "C" fn net_base_sending_end_empty_segment_position(end: &SendingEnd) -> u64
    ensures value { end.now.sender.sender.first_unacknowledged + end.now.sender.finished < 2 ^ 64 →
        (storage : List ℕ) → let e = sending_of end.now storage in
        result ≡ empty_segment_position e.peer (first e) e.sender.sent }
    ensures refused { 2 ^ 64 ≤ end.now.sender.sender.first_unacknowledged
        + end.now.sender.finished → result ≡ 2 ^ 64 - 1 }
{
    if !has_first(&end.sender) {
        return u64::MAX;
    }
    end.head
        .peer_window
        .empty_segment_position(numbers_from(&end.sender))
}

/// Returns whether a recovery from a loss is in progress.
///
/// It is refused if the first position that isn't acknowledged doesn't fit 64 bits: false.
#[unsafe(no_mangle)]
pub extern "C" fn net_base_sending_end_is_recovering(end: &SendingEnd) -> bool
    ensures value { end.now.sender.sender.first_unacknowledged + end.now.sender.finished < 2 ^ 64 →
        (storage : List ℕ) → let e = sending_of end.now storage in
        result ≡ is_active e.recovery (first e) }
    ensures refused { 2 ^ 64 ≤ end.now.sender.sender.first_unacknowledged
        + end.now.sender.finished → IsFalse result }
{
    has_first(&end.sender)
        && end
            .head
            .buffer
            .recovery
            .is_active(numbers_from(&end.sender))
}

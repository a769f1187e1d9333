//! The receiving side of a TCP connection: a receiver of a stream that ends, the window that it announces, when
//! it acknowledges, and what an acknowledgement lists. A connection of TCP has one of these, one `SendingEnd` and one
//! `AnswerLimit`. In the order of a connection:
//! - Both directions have a *first position*, which `.._init` and `.._open` are passed: that of the first byte after
//!   the SYN. The SYN has the position before it, and the FIN the one after the last byte.
//! - Before the peer's SYN has come (SYN-SENT), don't ask `net_base_receiving_end_classify`: a segment acknowledges
//!   your SYN if its acknowledgement number is that of your first position.
//! - After the peer's SYN, your SYN is acknowledged once `net_base_sending_end_acknowledged` has the status
//!   `NET_BASE_ACKNOWLEDGED_DONE`. At another status before that, send a RST with that acknowledgement's number, and
//!   take nothing of the segment (RFC 9293, 3.10.7.4).
//! - A segment whose bytes are in several buffers is classified once, and then passed to
//!   `net_base_receiving_end_arrived` piece by piece. Each piece counts as a segment, so the second one makes an
//!   acknowledgement due.
//! - If `net_base_receiving_end_arrived` returns `NET_BASE_SEGMENT_TOO_MANY_RUNS` or `NET_BASE_SEGMENT_OTHER_END`, go
//!   on: nothing of the segment was kept, and an acknowledgement is due, by which the peer knows what to send again.
//! - The peer's FIN may arrive before bytes that are missing. All has come up to it once
//!   `net_bound_receiving_end_is_complete` is true: then `receiver.after_end` isn't 0, and
//!   `net_base_finite_receiver_acknowledged` writes the same.
//! - No call gives up. How long nothing may be acknowledged until you do is yours to count: 100 seconds at least, and 3
//!   minutes for a SYN (RFC 9293, 3.8.3).
//!
//! A head of zeros is new, of a stream that begins at position 0, with segments of no bytes. All of an end is in its
//! head but the bytes: at most 16 ranges wait. A segment is classified, and arrives if it is to be taken;
//! `net_base_receiving_end_answer` is for one that is only answered. While `net_base_receiving_end_is_due` is true, an
//! acknowledgement is to be sent at once. While `net_base_receiving_end_is_wanted` is true, one is to be sent within
//! half a second, unless a segment with bytes is sent before that and announces. Two calls of a finite receiver may be
//! passed `receiver`: `net_base_finite_receiver_acknowledged` writes the first missing position, and
//! `net_base_finite_receiver_has_read_all` returns whether the peer's stream has ended and was read.

// Why: This end is over a `FiniteReceiverHead`, whose calls take the storage. A `ReceivingEndOver` that an export
// made of a lent storage would leave nothing known of that, since no contract says that it keeps the reference. So
// the calls of the receiver, and the list of blocks, are here once more, with the definitions of `net_ends` as
// contracts. The rules, which are of numbers, are those of its `ReceivingHead`.

ghost use Rattle.std.specs.Prelude.{◌≡◌, ◌↔◌, ◌-◌, ◌<◌, ◌≤◌, ◌++◌, ◌&&◌, ◌||◌, ℕ, List, length, min, take, drop};
ghost use Rattle.std.specs.Prelude.{nat_lt, nat_le, not, IsTrue, IsFalse, MatchResult, OnErr, if◌then◌else◌};
ghost use Rattle.std.specs.Option.{option_to_list};
ghost use Rattle.net_assembler.specs.RunLists.{IsCanonical};
ghost use Rattle.net_ring.specs.Ring.{queue};
ghost use Rattle.net_ring.specs.RingHead.{ring_at};
ghost use Rattle.net_receiver.specs.Head.{HasSoundHeld};
ghost use Rattle.net_receiver.specs.NewestRuns.{with_starts};
ghost use Rattle.net_receiver.specs.Finite.{no_end, acknowledged, is_complete, finite_result};
ghost use Rattle.net_receiver.specs.FiniteHead.{finite_storage_after, next_of};
ghost use Rattle.net_tcp.specs.Windows.{IsArrival};
ghost use Rattle.net_ends.specs.Receiving.{new_receiving, opened, opening_field, free_end, is_worth, field_of, listed};
ghost use Rattle.net_ends.specs.Receiving.{reported, arrival_result, after_event, Arrived, Announced, Acknowledged};
ghost use Rattle.net_ends.specs.Receiving.{Took, WaitsAfter, is_empty, after_arrival};
ghost use Rattle.net_ffi.specs.ReceiverParts.{IsReadable};
ghost use Rattle.net_ffi.specs.Refusals.{no_number};
ghost use Rattle.net_ffi.specs.Results.{status_of_finite};
ghost use Rattle.net_ends.specs.ReceivingRules.{room_of};
ghost use Rattle.net_ffi.specs.ReceivingEnds.{receiving_of, begun_receiving, waits_of, IsPlausibleEnd, HasSoundEnd};
ghost use Rattle.net_ffi.specs.ReceivingEnds.{fields_of};

use crate::finite_receiver::has_number;
use crate::receiver::{KeptCounts, RUNS, is_plausible, is_readable};
use crate::refusals::{
    ArrivalStatus, NET_BASE_ACKNOWLEDGEMENT_ONLY, NET_BASE_ANSWER, NET_BASE_DONE, NET_BASE_IGNORE,
    NET_BASE_OTHER_END, NET_BASE_REFUSED, NET_BASE_RESET, NET_BASE_TAKE, NET_BASE_TOO_MANY_RUNS,
    SegmentStatus, no_number,
};
use crate::results::number_of;
use net_assembler::Run;
use net_ends::{ReceivingHead, Room};
use net_receiver::{FiniteError, FiniteReceiverHead, HeldRun, KeptBytes};
use net_tcp::Segment;

/// The receiving end of a stream.
#[repr(C)]
#[derive(Debug, Clone, Copy)]
pub struct ReceivingEnd {
    /// The receiver.
    pub receiver: FiniteReceiverHead,
    /// The ranges that wait.
    pub runs: [Run; RUNS],
    /// All else that it knows.
    pub head: ReceivingHead,
}

/// What a segment without bytes tells the peer.
#[repr(C)]
#[derive(Debug, Clone, Copy)]
pub struct Acknowledgement {
    /// The first position that is missing. The end of the stream has one too, after the last byte.
    pub next: u64,
    /// What came twice since the last one (RFC 2883), unless an end in order let go of it; and then the newest waiting
    /// ranges, the newest first.
    pub blocks: [HeldRun; 4],
    /// How many blocks there are. The others are zeros.
    pub block_count: usize,
    /// The window, in units of the scale.
    pub window: u16,
}

const NO_BLOCK: HeldRun = HeldRun { start: 0, end: 0 };

impl ReceivingEnd {
    /// Returns the end of a stream that begins at position `first`, at which nothing has arrived.
    fn new(first: u64, segment_size: u16) -> Self
        requires { first < no_end }
        ensures state { (storage : List ℕ) →
            receiving_of result storage ≡ new_receiving (length storage) first segment_size }
        ensures sound { (capacity : ℕ) → HasSoundEnd capacity result }
        ensures canonical { IsCanonical result.receiver.receiver.held }
        ensures numbers { result ≡ begun_receiving first segment_size }
    {
        ReceivingEnd {
            receiver: FiniteReceiverHead::new(first),
            runs: [Run { start: 0, end: 0 }; RUNS],
            head: ReceivingHead::new(first, segment_size),
        }
    }

    /// Returns the receiver's numbers.
    #[inline(always)]
    fn room(&self, capacity: usize) -> Room
        requires { HasSoundEnd capacity self.now }
        ensures value { (storage : List ℕ) → length storage ≡ capacity →
            result ≡ room_of (receiving_of self.now storage).receiver }
        ensures order { result.next ≤ result.end }
    {
        let (next, end) = self.free(capacity);
        Room {
            next,
            end,
            capacity: capacity as u64,
            is_complete: self.receiver.is_complete(),
        }
    }

    /// Returns the number that an acknowledgement names, and the end of the free room, or the last position if that
    /// doesn't fit 64 bits.
    #[inline(always)]
    fn free(&self, capacity: usize) -> (u64, u64)
        requires { HasSoundEnd capacity self.now }
        ensures value { (storage : List ℕ) → length storage ≡ capacity →
            let s = (receiving_of self.now storage).receiver in
            result ≡ (acknowledged s, free_end s) }
        ensures order { result.0 ≤ result.1 }
    {
        let next = self.receiver.acknowledged();
        match self.receiver.window_end(capacity) {
            Some(end) => (next, end),
            None => (next, u64::MAX),
        }
    }

    /// Takes a segment. One with neither a byte nor the end changes nothing.
    #[inline(always)]
    fn arrived(
        &mut self,
        storage: &mut [u8],
        pos: u64,
        bytes: &[u8],
        is_last: bool,
    ) -> Result<KeptBytes, FiniteError>
        requires { HasSoundEnd (length storage.old) self.old }
        ensures sound { HasSoundEnd (length storage.new) self.new }
        ensures value { result ≡ arrival_result 16 (receiving_of self.old storage.old).receiver pos
            bytes.now is_last }
        ensures twice { WaitsAfter (receiving_of self.old storage.old) pos (length bytes.now)
            (waits_of self.new) }
        ensures step { receiving_of self.new storage.new ≡ after_event 16
            (receiving_of self.old storage.old)
            (Arrived pos bytes.now is_last (waits_of self.new)) }
        ensures stored { storage.new ≡ (if is_empty bytes.now is_last then storage.old
            else finite_storage_after self.old.receiver storage.old self.old.runs pos bytes.now
            is_last) }
        ensures canonical { IsCanonical self.old.receiver.receiver.held →
            IsCanonical self.new.receiver.receiver.held }
        ensures unchanged { OnErr result ((self.new.receiver ≡ self.old.receiver)
            × (self.new.runs ≡ self.old.runs) × (storage.new ≡ storage.old)) }
    {
        if bytes.is_empty() && !is_last {
            return Ok(KeptBytes { kept: 0, queued: 0 });
        }
        self.take(storage, pos, bytes, is_last)
    }

    /// Takes a segment that has a byte or the end.
    fn take(
        &mut self,
        storage: &mut [u8],
        pos: u64,
        bytes: &[u8],
        is_last: bool,
    ) -> Result<KeptBytes, FiniteError>
        requires { HasSoundEnd (length storage.old) self.old }
        ensures sound { HasSoundEnd (length storage.new) self.new }
        ensures value { result
            ≡ finite_result 16 (receiving_of self.old storage.old).receiver pos bytes.now is_last }
        ensures twice { WaitsAfter (receiving_of self.old storage.old) pos (length bytes.now)
            (waits_of self.new) }
        ensures step { receiving_of self.new storage.new
            ≡ after_arrival 16 (receiving_of self.old storage.old) pos bytes.now is_last
            (waits_of self.new) }
        ensures stored { storage.new ≡ finite_storage_after self.old.receiver storage.old
            self.old.runs pos bytes.now is_last }
        ensures canonical { IsCanonical self.old.receiver.receiver.held →
            IsCanonical self.new.receiver.receiver.held }
        ensures unchanged { OnErr result ((self.new.receiver ≡ self.old.receiver)
            × (self.new.runs ≡ self.old.runs) × (storage.new ≡ storage.old)) }
    {
        are_sixteen(self.runs);
        let end = pos.saturating_add(bytes.len() as u64);
        let part = self.receiver.receiver.duplicate_of(&self.runs, pos, end);
        let held = self.receiver.receiver.held.used;
        let kept = self
            .receiver
            .keep(storage, &mut self.runs, pos, bytes, is_last);
        self.head.take(pos, is_last, part, held, kept);
        kept
    }

    /// Lists the newest runs, at most four, and returns how many.
    fn list_runs(&mut self) -> ([HeldRun; 4], usize)
        requires { HasSoundHeld self.old.receiver.receiver self.old.runs }
        ensures value { (storage : List ℕ) → HasSoundEnd (length storage) self.old →
            let list = listed (receiving_of self.old storage) in
            (result.0 ≡ fields_of list) × (result.1 ≡ length list) }
        ensures few { result.1 ≤ 4 }
        ensures recent { (storage : List ℕ) → HasSoundEnd (length storage) self.old →
            let e = receiving_of self.old storage in
            self.new.head.recent ≡ with_starts e.recent (listed e) }
        ensures rest { self.new ≡ record self.old {
          head = record self.old.head { recent = self.new.head.recent };
        } }
    {
        let mut runs = [NO_BLOCK; 4];
        let count = self.receiver.receiver.newest_runs(
            &self.runs,
            self.head.newest,
            &mut self.head.recent,
            &mut runs,
        );
        (runs, count)
    }

    /// Returns what a segment without bytes tells, and takes notice that it does.
    #[inline(always)]
    fn acknowledgement(&mut self, capacity: usize) -> Acknowledgement
        requires { HasSoundEnd capacity self.old }
        ensures numbers { (storage : List ℕ) → length storage ≡ capacity →
            let e = receiving_of self.old storage in
            (result.next ≡ acknowledged e.receiver) × (result.window ≡ field_of e) }
        ensures blocks { (storage : List ℕ) → length storage ≡ capacity →
            let e = receiving_of self.old storage in let list = reported e ++ listed e in
            (result.blocks ≡ fields_of list) × (result.block_count ≡ min (length list) 4) }
        ensures step { (storage : List ℕ) → length storage ≡ capacity →
            receiving_of self.new storage
            ≡ after_event 16 (receiving_of self.old storage) Acknowledged }
        ensures sound { HasSoundEnd capacity self.new }
        ensures receiver { self.new.receiver ≡ self.old.receiver }
    {
        let room = self.room(capacity);
        let (next, window) = self.head.acknowledge(room);
        let duplicate = self.head.take_duplicate(room.next, room.is_complete);
        let (runs, count) = self.list_runs();
        let (blocks, block_count) = in_front(duplicate, runs, count);
        Acknowledgement {
            next,
            blocks,
            block_count,
            window,
        }
    }
}

/// There are 16 runs.
#[inline(always)]
pub(crate) fn are_sixteen(runs: [Run; RUNS])
    ensures { length runs ≡ 16 }
{
    let _ = runs;
}

/// Returns so many runs, at most four, with what came twice in front, if anything did, and how many these are then.
fn in_front(
    duplicate: Option<(u64, u64)>,
    runs: [HeldRun; 4],
    count: usize,
) -> ([HeldRun; 4], usize)
    requires { count ≤ 4 }
    ensures { (list : List (ℕ × ℕ)) → runs ≡ fields_of list → count ≡ length list →
        let all = option_to_list duplicate ++ list in
        (result.0 ≡ fields_of all) × (result.1 ≡ min (length all) 4) }
{
    match duplicate {
        Some((start, end)) => (
            [HeldRun { start, end }, runs[0], runs[1], runs[2]],
            count.saturating_add(1).min(4),
        ),
        None => (runs, count),
    }
}

/// Makes `end` the receiving side of a connection, whose stream begins at position `first`, at which nothing has
/// arrived. The peer's segments have at most `segment_size` bytes, which is the MSS of your SYN. The storage may have
/// any values.
///
/// It is refused if `first` is `u64::MAX`: false, and nothing changes.
#[unsafe(no_mangle)]
pub extern "C" fn net_base_receiving_end_init(
    end: &mut ReceivingEnd,
    first: u64,
    segment_size: u16,
) -> bool
    ensures done { IsTrue result ↔ (first < no_end) }
    ensures state { IsTrue result → (storage : List ℕ) →
        receiving_of end.new storage ≡ new_receiving (length storage) first segment_size }
    ensures sound { IsTrue result → (capacity : ℕ) → HasSoundEnd capacity end.new }
    ensures numbers { IsTrue result → end.new ≡ begun_receiving first segment_size }
    ensures unchanged { IsFalse result → end.new ≡ end.old }
{
    if first == u64::MAX {
        return false;
    }
    *end = ReceivingEnd::new(first, segment_size);
    true
}

/// Returns whether this head is sound over a storage of `capacity` bytes: its receiver is, with the runs. It looks at
/// each used run, and at no byte. Ask it of a struct that anything but these calls may have written.
#[unsafe(no_mangle)]
pub extern "C" fn net_base_receiving_end_is_sound(end: &ReceivingEnd, capacity: usize) -> bool
    ensures { IsTrue result ↔ HasSoundEnd capacity end.now }
{
    end.receiver.is_sound(capacity, &end.runs)
}

/// Begins again with a stream that begins at position `first`, and whose windows have this scale. `capacity` is how
/// many bytes the storage has. Writes to `window` what a SYN announces, which has no scale, and returns true. Pass the
/// smallest scale for which `capacity >> scale` is at most 65535: a window is announced in whole units of `1 << scale`.
/// One above 14 counts as 14.
///
/// It is refused if `first` is `u64::MAX`: false, and nothing changes.
#[unsafe(no_mangle)]
pub extern "C" fn net_base_receiving_end_open(
    end: &mut ReceivingEnd,
    capacity: usize,
    first: u64,
    scale: u8,
    window: &mut u16,
) -> bool
    ensures done { IsTrue result ↔ (first < no_end) }
    ensures window { IsTrue result → (storage : List ℕ) → length storage ≡ capacity →
        window.new ≡ opening_field (receiving_of end.old storage) first }
    ensures step { IsTrue result → (storage : List ℕ) → length storage ≡ capacity →
        receiving_of end.new storage ≡ opened (receiving_of end.old storage) first scale }
    ensures sound { IsTrue result → HasSoundEnd capacity end.new }
    ensures canonical { IsTrue result → IsCanonical end.new.receiver.receiver.held }
    ensures unchanged { IsFalse result → (end.new ≡ end.old) × (window.new ≡ window.old) }
{
    if first == u64::MAX {
        return false;
    }
    let segment_size = end.head.segment_size;
    *end = ReceivingEnd::new(first, segment_size);
    let room = end.room(capacity);
    *window = end.head.open(room, first, scale);
    true
}

/// Returns what to do with a segment that arrives after the peer's SYN, in the window that was announced, whatever is
/// free now. `capacity` is how many bytes the storage has. It is as RFC 9293, section 3.10.7.4, has it; resets and SYNs
/// are answered as RFC 5961 has it. While your window is shut, acknowledgements are taken all the same, so that two
/// full ends hear of one another.
///
/// Afterwards `net_base_sending_end_acknowledged` tests what the segment acknowledges.
#[unsafe(no_mangle)]
pub extern "C" fn net_base_receiving_end_classify(
    end: &ReceivingEnd,
    capacity: usize,
    segment: &Segment,
) -> ArrivalStatus
    ensures value { (storage : List ℕ) → HasSoundEnd (length storage) end.now →
        let e = receiving_of end.now storage in
        IsArrival NET_BASE_TAKE NET_BASE_ACKNOWLEDGEMENT_ONLY NET_BASE_ANSWER NET_BASE_RESET
        NET_BASE_IGNORE (acknowledged e.receiver) (e.edge - acknowledged e.receiver) capacity
        segment.now result }
    ensures refused { (next_of end.now.receiver < no_end → ⊥) → result ≡ NET_BASE_IGNORE }
{
    if !has_number(&end.receiver) {
        return NET_BASE_IGNORE;
    }
    let next = end.receiver.acknowledged();
    let arrival = end
        .head
        .advertised
        .classify(next, capacity as u64, *segment);
    number_of(arrival)
}

/// Takes the bytes of a segment, the first at `position`, and the end if it `is_last`, writes to `counts` how many were
/// kept, and returns what `net_base_finite_receiver_segment` does. An acknowledgement is due for each second segment,
/// and for one out of order, with the end, or not kept. One with neither bytes nor the end changes nothing. It is
/// refused if `end` isn't one over `storage.len()` bytes: `NET_BASE_REFUSED`, and nothing changes.
///
/// # Requires
///
/// The head is sound, as `net_base_receiving_end_is_sound` tests.
#[unsafe(no_mangle)]
pub extern "C" fn net_base_receiving_end_arrived(
    end: &mut ReceivingEnd,
    storage: &mut [u8],
    position: u64,
    bytes: &[u8],
    is_last: bool,
    counts: &mut KeptCounts,
) -> SegmentStatus
    requires sound { IsPlausibleEnd (length storage.old) end.old →
        HasSoundEnd (length storage.old) end.old }
    ensures result { IsPlausibleEnd (length storage.old) end.old →
        MatchResult (arrival_result 16 (receiving_of end.old storage.old).receiver position
        bytes.now is_last)
        (λ k. (result ≡ NET_BASE_DONE) × (counts.new.kept ≡ k.kept)
        × (counts.new.queued ≡ k.queued))
        (λ e. (result ≡ status_of_finite e) × (counts.new ≡ counts.old)
        × (end.new.receiver ≡ end.old.receiver) × (end.new.runs ≡ end.old.runs)
        × (storage.new ≡ storage.old)) }
    ensures twice { IsPlausibleEnd (length storage.old) end.old →
        WaitsAfter (receiving_of end.old storage.old) position (length bytes.now)
        (waits_of end.new) }
    ensures step { IsPlausibleEnd (length storage.old) end.old →
        receiving_of end.new storage.new ≡ after_event 16 (receiving_of end.old storage.old)
        (Arrived position bytes.now is_last (waits_of end.new)) }
    ensures stored { IsPlausibleEnd (length storage.old) end.old → storage.new ≡
        (if is_empty bytes.now is_last then storage.old else finite_storage_after
        end.old.receiver storage.old end.old.runs position bytes.now is_last) }
    ensures sound { IsPlausibleEnd (length storage.old) end.old →
        HasSoundEnd (length storage.new) end.new }
    ensures canonical { IsCanonical end.old.receiver.receiver.held →
        IsCanonical end.new.receiver.receiver.held }
    ensures refused { (IsPlausibleEnd (length storage.old) end.old → ⊥) →
        (result ≡ NET_BASE_REFUSED) × (end.new ≡ end.old) × (storage.new ≡ storage.old)
        × (counts.new ≡ counts.old) }
{
    if !is_plausible(&end.receiver.receiver, storage.len(), RUNS) {
        return NET_BASE_REFUSED;
    }
    match end.arrived(storage, position, bytes, is_last) {
        Ok(it) => {
            *counts = KeptCounts {
                kept: it.kept,
                queued: it.queued,
            };
            NET_BASE_DONE
        }
        Err(FiniteError::TooManyHoles) => NET_BASE_TOO_MANY_RUNS,
        Err(FiniteError::OtherEnd) => NET_BASE_OTHER_END,
    }
}

/// Makes `net_base_receiving_end_is_due` true: an acknowledgement is to be sent at once.
#[unsafe(no_mangle)]
pub extern "C" fn net_base_receiving_end_answer(end: &mut ReceivingEnd)
    ensures { end.new ≡ record end.old { head = record end.old.head { unanswered = 2 } } }
{
    end.head.answer();
}

/// Returns whether an acknowledgement is to be sent at once.
#[unsafe(no_mangle)]
pub extern "C" fn net_base_receiving_end_is_due(end: &ReceivingEnd) -> bool
    ensures { result ≡ nat_le 2 end.now.head.unanswered }
{
    end.head.is_due()
}

/// Returns whether an acknowledgement is to be sent within half a second (RFC 9293, 3.8.6.3): a segment waits for one,
/// or an update of the window is worth a segment. It is true too while `net_base_receiving_end_is_due` is. `capacity` is
/// how many bytes the storage has. Once all has arrived, no update is wanted. Ask it before you wait. A segment with
/// bytes that you send in the meantime acknowledges too: ask again before you send one without.
///
/// It is refused if `end` isn't one over `capacity` bytes: false.
///
/// # Requires
///
/// The head is sound with the storage, as `net_base_receiving_end_is_sound` tests.
#[unsafe(no_mangle)]
pub extern "C" fn net_base_receiving_end_is_wanted(end: &ReceivingEnd, capacity: usize) -> bool
    requires sound { IsPlausibleEnd capacity end.now → HasSoundEnd capacity end.now }
    ensures value { IsPlausibleEnd capacity end.now → (storage : List ℕ) →
        length storage ≡ capacity → let e = receiving_of end.now storage in
        result ≡ (nat_lt 0 e.unanswered || (not (is_complete e.receiver) && is_worth e)) }
    ensures refused { (IsPlausibleEnd capacity end.now → ⊥) → IsFalse result }
{
    is_plausible(&end.receiver.receiver, capacity, RUNS) && end.head.is_wanted(end.room(capacity))
}

/// Writes what a segment with bytes of its own tells, and returns true: the first missing position to `next`, and to
/// `window` the window, in units of the scale. Once you have called it, send the segment. An acknowledgement that is
/// due stays due, since this segment lists no ranges.
///
/// It is refused if `end` isn't one over `capacity` bytes: false, and nothing changes.
///
/// # Requires
///
/// The head is sound, as `net_base_receiving_end_is_sound` tests.
#[unsafe(no_mangle)]
pub extern "C" fn net_base_receiving_end_announce(
    end: &mut ReceivingEnd,
    capacity: usize,
    next: &mut u64,
    window: &mut u16,
) -> bool
    requires sound { IsPlausibleEnd capacity end.old → HasSoundEnd capacity end.old }
    ensures done { IsTrue result ↔ IsPlausibleEnd capacity end.old }
    ensures value { IsTrue result → (storage : List ℕ) → length storage ≡ capacity →
        let e = receiving_of end.old storage in
        (next.new ≡ acknowledged e.receiver) × (window.new ≡ field_of e) }
    ensures step { IsTrue result → (storage : List ℕ) → length storage ≡ capacity →
        receiving_of end.new storage ≡ after_event 16 (receiving_of end.old storage) Announced }
    ensures sound { IsTrue result → HasSoundEnd capacity end.new }
    ensures receiver { end.new.receiver ≡ end.old.receiver }
    ensures unchanged { IsFalse result →
        (end.new ≡ end.old) × (next.new ≡ next.old) × (window.new ≡ window.old) }
{
    if !is_plausible(&end.receiver.receiver, capacity, RUNS) {
        return false;
    }
    let room = end.room(capacity);
    (*next, *window) = end.head.announce(room);
    true
}

/// Writes what a segment without bytes tells, and returns true. Once you have called it, send the segment: what came
/// twice is told once. `capacity` is how many bytes the storage has.
///
/// It is refused if `end` isn't one over `capacity` bytes: false, and nothing changes.
///
/// # Requires
///
/// The head is sound with the storage, as `net_base_receiving_end_is_sound` tests.
#[unsafe(no_mangle)]
pub extern "C" fn net_base_receiving_end_acknowledgement(
    end: &mut ReceivingEnd,
    capacity: usize,
    acknowledgement: &mut Acknowledgement,
) -> bool
    requires sound { IsPlausibleEnd capacity end.old → HasSoundEnd capacity end.old }
    ensures done { IsTrue result ↔ IsPlausibleEnd capacity end.old }
    ensures value { IsTrue result → (storage : List ℕ) → length storage ≡ capacity →
        let e = receiving_of end.old storage in
        (acknowledgement.new.next ≡ acknowledged e.receiver)
        × (acknowledgement.new.window ≡ field_of e) }
    ensures blocks { IsTrue result → (storage : List ℕ) → length storage ≡ capacity →
        let e = receiving_of end.old storage in let list = reported e ++ listed e in
        (acknowledgement.new.blocks ≡ fields_of list)
        × (acknowledgement.new.block_count ≡ min (length list) 4) }
    ensures step { IsTrue result → (storage : List ℕ) → length storage ≡ capacity →
        receiving_of end.new storage
        ≡ after_event 16 (receiving_of end.old storage) Acknowledged }
    ensures sound { IsTrue result → HasSoundEnd capacity end.new }
    ensures receiver { end.new.receiver ≡ end.old.receiver }
    ensures unchanged { IsFalse result →
        (end.new ≡ end.old) × (acknowledgement.new ≡ acknowledgement.old) }
{
    if !is_plausible(&end.receiver.receiver, capacity, RUNS) {
        return false;
    }
    *acknowledgement = end.acknowledgement(capacity);
    true
}

/// Copies bytes from the beginning of the queue to that of `into`, takes them off the queue, and returns how many: as
/// many as are queued and as `into` has room for. The rest of `into` stays as it is.
///
/// It is refused if `end` isn't one over `storage.len()` bytes: `NET_BASE_NONE`, and nothing changes.
#[unsafe(no_mangle)]
pub extern "C" fn net_base_receiving_end_read(
    end: &mut ReceivingEnd,
    storage: &[u8],
    into: &mut [u8],
) -> usize
    ensures count { IsReadable (length storage.now) end.old.receiver.receiver →
        result ≡ min (length into.old) end.old.receiver.receiver.place.length }
    ensures into { IsReadable (length storage.now) end.old.receiver.receiver →
        let queued = queue (ring_at storage.now end.old.receiver.receiver.place) in
        into.new ≡ take (length into.old) queued ++ drop (length queued) into.old }
    ensures step { IsReadable (length storage.now) end.old.receiver.receiver →
        HasSoundEnd (length storage.now) end.old → receiving_of end.new storage.now
        ≡ after_event 16 (receiving_of end.old storage.now) (Took (length into.old)) }
    ensures sound { IsReadable (length storage.now) end.old.receiver.receiver →
        HasSoundEnd (length storage.now) end.old → HasSoundEnd (length storage.now) end.new }
    ensures refused { (IsReadable (length storage.now) end.old.receiver.receiver → ⊥) →
        (result ≡ no_number) × (end.new ≡ end.old) × (into.new ≡ into.old) }
{
    if !is_readable(&end.receiver.receiver, storage.len()) {
        return no_number();
    }
    end.receiver.read(storage, into)
}

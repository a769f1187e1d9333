//! A receiver of a stream that ends, in parts.
#![tactic(auto, using(crate::proofs::FiniteReceivers::ends))]

ghost use Rattle.std.specs.Prelude.{◌≡◌, ◌↔◌, ℕ, ◌+◌, ◌-◌, ◌<◌, ◌≤◌, ◌^◌, min, max, List, length, IsTrue, OnErr, Some};
ghost use Rattle.std.specs.Prelude.{None, ◌==◌, ◌++◌, take, drop, nat_lt, nat_le, ◌&&◌, not, if◌then◌else◌};
ghost use Rattle.net_ring.specs.Ring.{queue};
ghost use Rattle.net_ring.specs.RingHead.{IsSound as IsSoundPlace, ring_at};
ghost use Rattle.net_receiver.specs.Finite.{no_end, fresh_finite, can_end_by, finite_after, finite_result};
ghost use Rattle.net_receiver.specs.Finite.{finite_after_read, is_complete, acknowledged, has_read_all};
ghost use Rattle.net_receiver.specs.ReceiverState.{count_between, limit_of};
ghost use Rattle.net_receiver.specs.Head.{head_after_read, held_at, top_at, HasSoundHeld, receiver_of};
ghost use Rattle.net_receiver.specs.FiniteHead.{finite_at, finite_of, HasSoundFinite, next_of, end_of, end_with};
ghost use Rattle.net_receiver.specs.FiniteHead.{finite_storage_after, usual_storage_after};
ghost use Rattle.net_receiver.specs.Finite.{queue_alone, usual_after, usual_result};
ghost use Rattle.net_receiver.specs.NewHeads.{finite_receiver_head};
ghost use Rattle.net_assembler.specs.RunLists.{IsCanonical};

use crate::kept::{FiniteError, KeptBytes};
use crate::receiver_head::ReceiverHead;
use net_assembler::Run;

/// The end's position while that isn't known: no stream ends there.
pub(crate) const NO_END: u64 = u64::MAX;

/// What a receiver of a stream that ends has besides its storage and its held runs: numbers.
///
/// The end is the position after the stream's last byte. It has a number, as a byte has (a TCP
/// segment with FIN has one sequence number more than bytes), and needs no room. It is known once a
/// segment has said so, in whatever order the segments arrive; then no byte at or above it is kept.
///
/// Head, storage and runs are *sound* if they are those of such a receiver, as `is_sound` tests:
/// `HasSoundFinite` in contracts, where `finite_of` is what is stored. A head of zeros is new, of a stream
/// that begins at position 0. smoltcp has no such type.
#[repr(C)]
#[derive(Debug, Clone, Copy)]
pub struct FiniteReceiverHead {
    /// The receiver of the bytes.
    pub receiver: ReceiverHead,
    /// The position after the end's, or 0 while the end isn't known. It is acknowledged once all has arrived.
    pub after_end: u64,
}

// These are functions of a head's fields: of `after_end`, the number after the end's, and of the receiver. A
// `FiniteReceiverOver`, which has them apart, calls them too.

/// Returns the position after the last byte, or the greatest number of 64 bits while it isn't known: no byte
/// that is kept has that position.
#[inline(always)]
pub(crate) fn end_or_max(after_end: u64) -> u64
    ensures { result ≡ end_with after_end }
{
    after_end.wrapping_sub(1)
}

/// Returns the number after that of an end, or 0 for `NO_END`.
#[inline(always)]
pub(crate) fn number_after(end: u64) -> u64
    ensures { end_with result ≡ end }
{
    end.wrapping_add(1)
}

/// Returns whether an end is at most the end of the free window, which has `window` bytes from `next` on.
#[inline(always)]
pub(crate) fn is_reached(next: u64, window: usize, end: u64) -> bool
    ensures { result ≡ nat_le end (next + window) }
{
    end.saturating_sub(next) <= window as u64
}

/// Returns the end, or while that isn't known the greatest number that an end can have.
#[inline(always)]
pub(crate) fn bytes_end(after_end: u64) -> u64
    ensures { result ≡ min (end_with after_end) (no_end - 1) }
{
    end_or_max(after_end).min(NO_END - 1)
}

/// Returns how many of `len` bytes at `pos` are below the end, or while that isn't known below the
/// greatest number that an end can have.
#[inline(always)]
pub(crate) fn count_below(after_end: u64, pos: u64, len: usize) -> usize
    ensures { result ≡ min len (min (end_with after_end) (no_end - 1) - pos) }
{
    let end = bytes_end(after_end);
    (len as u64).min(end.saturating_sub(pos)) as usize
}

/// Returns the number that an acknowledgement carries, where `next` is the first missing position.
#[inline(always)]
pub(crate) fn acknowledged(next: u64, after_end: u64) -> u64
    requires { next < no_end }
    ensures { result ≡ (if next == end_with after_end then next + 1 else next) }
{
    let end = end_or_max(after_end);
    if next == end { next + 1 } else { next }
}

/// Returns the position after the last byte, once it is known.
#[inline(always)]
pub(crate) fn known_end(after_end: u64) -> Option<u64>
    ensures some { end_with after_end < no_end → result ≡ Some (end_with after_end) }
    ensures none { no_end ≤ end_with after_end → result ≡ None }
{
    after_end.checked_sub(1)
}

/// Returns whether the stream can end at `pos`, as `FiniteReceiverHead::can_end` does.
fn can_end(receiver: &ReceiverHead, after_end: u64, runs: &[Run], pos: u64) -> bool
    requires { HasSoundHeld receiver.now runs.now }
    ensures { result ≡ can_end_by (end_with after_end) (top_at receiver.now runs.now) pos }
{
    match known_end(after_end) {
        Some(end) => pos == end,
        None => pos < NO_END && receiver.has_all_below(runs, pos),
    }
}

/// Returns `after_end` after a segment that ends at `last`, where the storage has `capacity` bytes.
#[inline]
pub(crate) fn after_end_with(
    receiver: &ReceiverHead,
    after_end: u64,
    capacity: usize,
    last: u64,
    is_last: bool,
) -> u64
    requires place { receiver.now.place.length ≤ capacity }
    requires fits { receiver.now.first + receiver.now.count_read + receiver.now.place.length
        < 2 ^ 64 }
    ensures { end_with result ≡ (if is_last && nat_le last
        (receiver.now.first + receiver.now.count_read + capacity)
        then last else end_with after_end) }
{
    if is_last && is_reached(receiver.next(), receiver.window(capacity), last) {
        number_after(last)
    } else {
        after_end
    }
}

/// Returns whether a last segment from `pos` to `last` ends the stream in order, while something is
/// missing.
#[inline]
fn ends_in_order(
    receiver: &ReceiverHead,
    after_end: u64,
    capacity: usize,
    pos: u64,
    last: u64,
) -> bool
    requires place { receiver.now.place.length ≤ capacity }
    requires fits { next_of (finite_at receiver.now after_end) < no_end }
    ensures { result ≡ (nat_le pos (next_of (finite_at receiver.now after_end))
        && nat_le (next_of (finite_at receiver.now after_end)) last
        && nat_le last (receiver.now.first + receiver.now.count_read + capacity)
        && nat_lt last no_end
        && not (next_of (finite_at receiver.now after_end) == end_with after_end)) }
{
    let next = receiver.next();
    pos <= next
        && next <= last
        && is_reached(next, receiver.window(capacity), last)
        && last < NO_END
        && next != end_or_max(after_end)
}

/// Lets go of what is held, and of the end.
#[inline]
fn keep_queue_alone(receiver: &mut ReceiverHead, after_end: &mut u64)
    ensures sound { (capacity : ℕ) (runs : List (ℕ × ℕ)) →
        HasSoundFinite (finite_at receiver.old after_end.old) capacity runs →
        HasSoundFinite (finite_at receiver.new after_end.new) capacity runs }
    ensures state { (storage : List ℕ) (runs : List (ℕ × ℕ)) →
        finite_of (finite_at receiver.new after_end.new) storage runs
        ≡ queue_alone (finite_of (finite_at receiver.old after_end.old) storage runs) }
    ensures place { receiver.new ≡ record receiver.old { held = receiver.new.held } }
    ensures canonical { IsCanonical receiver.new.held }
{
    receiver.release_held();
    *after_end = 0;
}

/// Keeps a segment by what the receiver has.
#[inline]
fn keep_usual(
    receiver: &mut ReceiverHead,
    after_end: &mut u64,
    storage: &mut [u8],
    runs: &mut [Run],
    pos: u64,
    bytes: &[u8],
    is_last: bool,
) -> Result<KeptBytes, FiniteError>
    requires { HasSoundFinite (finite_at receiver.old after_end.old) (length storage.old) runs.old }
    ensures sound { HasSoundFinite (finite_at receiver.new after_end.new)
        (length storage.new) runs.new }
    ensures state { finite_of (finite_at receiver.new after_end.new) storage.new runs.new
        ≡ usual_after (length runs.old)
        (finite_of (finite_at receiver.old after_end.old) storage.old runs.old)
        pos bytes.now is_last }
    ensures value { result ≡ usual_result (length runs.old)
        (finite_of (finite_at receiver.old after_end.old) storage.old runs.old)
        pos bytes.now is_last }
    ensures stored { storage.new
        ≡ usual_storage_after (length runs.old) (finite_at receiver.old after_end.old) storage.old
        (finite_of (finite_at receiver.old after_end.old) storage.old runs.old)
        pos bytes.now is_last }
    ensures unchanged { OnErr result ((receiver.new ≡ receiver.old)
        × (after_end.new ≡ after_end.old) × (storage.new ≡ storage.old) × (runs.new ≡ runs.old)) }
    ensures canonical { IsCanonical receiver.old.held → IsCanonical receiver.new.held }
{
    // A sum above 64 bits becomes `u64::MAX`, which `can_end` refuses.
    let last = pos.saturating_add(bytes.len() as u64);
    if is_last && !can_end(receiver, *after_end, runs, last) {
        return Err(FiniteError::OtherEnd);
    }
    let end_after = after_end_with(receiver, *after_end, storage.len(), last, is_last);
    let count = count_below(*after_end, pos, bytes.len());
    match receiver.keep(storage, runs, pos, &bytes[..count]) {
        Ok(kept) => {
            *after_end = end_after;
            Ok(kept)
        }
        Err(_) => Err(FiniteError::TooManyHoles),
    }
}

/// Keeps a segment, as `FiniteReceiverHead::keep` does, whose fields the first two are.
#[inline]
pub(crate) fn keep_ending(
    receiver: &mut ReceiverHead,
    after_end: &mut u64,
    storage: &mut [u8],
    runs: &mut [Run],
    pos: u64,
    bytes: &[u8],
    is_last: bool,
) -> Result<KeptBytes, FiniteError>
    requires { HasSoundFinite (finite_at receiver.old after_end.old) (length storage.old) runs.old }
    ensures sound { HasSoundFinite (finite_at receiver.new after_end.new)
        (length storage.new) runs.new }
    ensures state { finite_of (finite_at receiver.new after_end.new) storage.new runs.new
        ≡ finite_after (length runs.old)
        (finite_of (finite_at receiver.old after_end.old) storage.old runs.old)
        pos bytes.now is_last }
    ensures value { result ≡ finite_result (length runs.old)
        (finite_of (finite_at receiver.old after_end.old) storage.old runs.old)
        pos bytes.now is_last }
    ensures stored { storage.new
        ≡ finite_storage_after (finite_at receiver.old after_end.old) storage.old runs.old
        pos bytes.now is_last }
    ensures unchanged { OnErr result ((receiver.new ≡ receiver.old)
        × (after_end.new ≡ after_end.old) × (storage.new ≡ storage.old) × (runs.new ≡ runs.old)) }
    ensures canonical { IsCanonical receiver.old.held → IsCanonical receiver.new.held }
{
    // A sum above 64 bits becomes `u64::MAX`, where no stream ends.
    let last = pos.saturating_add(bytes.len() as u64);
    if is_last && ends_in_order(receiver, *after_end, storage.len(), pos, last) {
        keep_queue_alone(receiver, after_end);
    }
    keep_usual(receiver, after_end, storage, runs, pos, bytes, is_last)
}

impl FiniteReceiverHead {
    /// Returns the head of a receiver of a stream that begins at position `first`; nothing has
    /// arrived. It is sound with every storage and all runs.
    ///
    /// # Requires
    ///
    /// `first` is below `u64::MAX`: an end there would have no number after it.
    pub const fn new(first: u64) -> Self
        requires { first < no_end }
        ensures sound { (capacity : ℕ) (runs : List (ℕ × ℕ)) → HasSoundFinite result capacity runs }
        ensures state { (storage : List ℕ) (runs : List (ℕ × ℕ)) →
            finite_of result storage runs ≡ fresh_finite first (length storage) }
        ensures canonical { IsCanonical result.receiver.held }
        ensures numbers { result ≡ finite_receiver_head first }
    {
        FiniteReceiverHead {
            receiver: ReceiverHead::new(first),
            after_end: 0,
        }
    }

    /// Returns whether this head, a storage of `capacity` bytes and runs are sound: they are those of a receiver, and
    /// the position after its last byte, held ones too, is at most the end, if that is known, and below 2^64 - 1. It
    /// looks at each held run, and at no byte.
    pub fn is_sound(&self, capacity: usize, runs: &[Run]) -> bool
        ensures { IsTrue result ↔ HasSoundFinite self.now capacity runs.now }
    {
        let end = bytes_end(self.after_end);
        self.receiver.is_sound(capacity, runs) && self.receiver.has_all_below(runs, end)
    }

    /// Returns whether the stream can end at `pos`: it is the end that is known, or none is, and it
    /// isn't below the first missing position or a held run's end. 2^64 - 1 is no end.
    ///
    /// # Requires
    ///
    /// Head and runs are sound, as `is_sound` tests, with a storage of some length.
    pub fn can_end(&self, runs: &[Run], pos: u64) -> bool
        requires { HasSoundHeld self.now.receiver runs.now }
        ensures { result ≡ can_end_by (end_of self.now) (top_at self.now.receiver runs.now) pos }
    {
        can_end(&self.receiver, self.after_end, runs, pos)
    }

    /// Copies the bytes of a storage to a larger one, for which the head then is, with the same runs.
    ///
    /// # Requires
    ///
    /// The queue is in the storage, and the other one is no smaller.
    pub(crate) fn grow(&mut self, storage: &[u8], larger: &mut [u8])
        requires place { IsSoundPlace (length storage.now) self.old.receiver.place }
        requires larger { length storage.now ≤ length larger.old }
        ensures sound { (runs : List (ℕ × ℕ)) → HasSoundFinite self.old (length storage.now) runs →
            HasSoundFinite self.new (length larger.new) runs }
        ensures state { (runs : List (ℕ × ℕ)) → HasSoundFinite self.old (length storage.now) runs →
            finite_of self.new larger.new runs ≡ record (finite_of self.old storage.now runs) {
              receiver = record (receiver_of self.old.receiver storage.now runs) {
                capacity = length larger.new;
              };
            } }
    {
        self.receiver.grow(storage, larger);
    }

    /// Copies the held runs to the beginning of others, with which the head then is sound as it was with these.
    ///
    /// # Requires
    ///
    /// Head and runs are sound, as `is_sound` tests, with a storage of some length, and the others are no fewer.
    pub(crate) fn move_runs(&self, runs: &[Run], more: &mut [Run])
        requires held { HasSoundHeld self.now.receiver runs.now }
        requires more { length runs.now ≤ length more.old }
        ensures sound { (capacity : ℕ) → HasSoundFinite self.now capacity runs.now →
            HasSoundFinite self.now capacity more.new }
        ensures state { (storage : List ℕ) →
            finite_of self.now storage more.new ≡ finite_of self.now storage runs.now }
        ensures moved { take self.now.receiver.held.used more.new
            ≡ take self.now.receiver.held.used runs.now }
    {
        let used = self.receiver.held.used;
        more[..used].copy_from_slice(&runs[..used]);
    }

    /// Keeps the bytes of a segment that are in the free window and below the end, and takes the end, as
    /// `FiniteReceiverOver::keep` does. If it is refused, head, storage and runs stay as they were.
    ///
    /// # Requires
    ///
    /// Head, storage and runs are sound, as `is_sound` tests.
    #[inline]
    pub fn keep(
        &mut self,
        storage: &mut [u8],
        runs: &mut [Run],
        pos: u64,
        bytes: &[u8],
        is_last: bool,
    ) -> Result<KeptBytes, FiniteError>
        requires { HasSoundFinite self.old (length storage.old) runs.old }
        ensures sound { HasSoundFinite self.new (length storage.new) runs.new }
        ensures state { finite_of self.new storage.new runs.new
            ≡ finite_after (length runs.old) (finite_of self.old storage.old runs.old)
            pos bytes.now is_last }
        ensures value { result ≡ finite_result (length runs.old)
            (finite_of self.old storage.old runs.old) pos bytes.now is_last }
        ensures stored { storage.new
            ≡ finite_storage_after self.old storage.old runs.old pos bytes.now is_last }
        ensures unchanged { OnErr result ((self.new ≡ self.old) × (storage.new ≡ storage.old)
            × (runs.new ≡ runs.old)) }
        ensures canonical { IsCanonical self.old.receiver.held →
            IsCanonical self.new.receiver.held }
    {
        keep_ending(
            &mut self.receiver,
            &mut self.after_end,
            storage,
            runs,
            pos,
            bytes,
            is_last,
        )
    }

    /// Returns whether all bytes and the end have arrived. Once it is so it stays so.
    ///
    /// # Requires
    ///
    /// The first missing position and the one after it fit 64 bits, as they do where head, storage
    /// and runs are sound.
    #[inline]
    pub fn is_complete(&self) -> bool
        requires { next_of self.now < no_end }
        ensures value { result ≡ (next_of self.now == end_of self.now) }
        ensures state { (storage : List ℕ) (runs : List (ℕ × ℕ)) →
            HasSoundFinite self.now (length storage) runs →
            result ≡ is_complete (finite_of self.now storage runs) }
    {
        self.receiver.next() == end_or_max(self.after_end)
    }

    /// Returns the number that an acknowledgement carries: the first missing position, or, once all
    /// bytes and the end have arrived, the end plus 1, since the end has a number.
    ///
    /// # Requires
    ///
    /// The first missing position and the one after it fit 64 bits, as they do where head, storage
    /// and runs are sound.
    #[inline]
    pub fn acknowledged(&self) -> u64
        requires { next_of self.now < no_end }
        ensures state { (storage : List ℕ) (runs : List (ℕ × ℕ)) →
            HasSoundFinite self.now (length storage) runs →
            result ≡ acknowledged (finite_of self.now storage runs) }
        ensures value { result
            ≡ (if next_of self.now == end_of self.now then next_of self.now + 1
            else next_of self.now) }
    {
        acknowledged(self.receiver.next(), self.after_end)
    }

    /// Returns whether all bytes were read, up to the end. Once it is so it stays so.
    ///
    /// # Requires
    ///
    /// The first missing position and the one after it fit 64 bits, as they do where head, storage
    /// and runs are sound.
    #[inline]
    pub fn has_read_all(&self) -> bool
        requires { next_of self.now < no_end }
        ensures state { (storage : List ℕ) (runs : List (ℕ × ℕ)) →
            result ≡ has_read_all (finite_of self.now storage runs) }
    {
        self.receiver.first + self.receiver.count_read == end_or_max(self.after_end)
    }

    /// Returns the end of the window to announce, where the storage has `capacity` bytes: that of the free
    /// window, or `acknowledged` if that is greater, as where the end is acknowledged and the storage is
    /// full. `None` if the free window's end doesn't fit 64 bits.
    ///
    /// # Requires
    ///
    /// The first missing position and the one after it fit 64 bits, as they do where head, storage
    /// and runs are sound.
    #[inline]
    pub fn window_end(&self, capacity: usize) -> Option<u64>
        requires { next_of self.now < no_end }
        ensures some { let limit = self.now.receiver.first
            + self.now.receiver.count_read + capacity in
            limit < 2 ^ 64 → result ≡ Some (max limit
            (if next_of self.now == end_of self.now then next_of self.now + 1
            else next_of self.now)) }
        ensures none { 2 ^ 64 ≤ self.now.receiver.first + self.now.receiver.count_read + capacity →
            result ≡ None }
        ensures state { (storage : List ℕ) (runs : List (ℕ × ℕ)) → length storage ≡ capacity →
            HasSoundFinite self.now capacity runs →
            limit_of (finite_of self.now storage runs).receiver < 2 ^ 64 →
            result ≡ Some (max (limit_of (finite_of self.now storage runs).receiver)
            (acknowledged (finite_of self.now storage runs))) }
    {
        let end = self.receiver.window_end(capacity)?;
        Some(end.max(self.acknowledged()))
    }

    /// Moves bytes from the head of the queue to the beginning of `into`, and returns how many: as
    /// many as are queued and as `into` has room for. The rest of `into` stays as it is.
    ///
    /// # Requires
    ///
    /// The queue is in the storage, and the first missing position fits 64 bits, as they do where
    /// head, storage and runs are sound.
    #[inline]
    pub fn read(&mut self, storage: &[u8], into: &mut [u8]) -> usize
        requires place { IsSoundPlace (length storage.now) self.old.receiver.place }
        requires fits { next_of self.old < 2 ^ 64 }
        ensures count { result ≡ min (length into.old) self.old.receiver.place.length }
        ensures into { let queued = queue (ring_at storage.now self.old.receiver.place) in
            into.new ≡ take (length into.old) queued ++ drop (length queued) into.old }
        ensures head { self.new.receiver
            ≡ head_after_read (length storage.now) result self.old.receiver }
        ensures end { self.new.after_end ≡ self.old.after_end }
        ensures sound { (runs : List (ℕ × ℕ)) → HasSoundFinite self.old (length storage.now) runs →
            HasSoundFinite self.new (length storage.now) runs }
        ensures state { (runs : List (ℕ × ℕ)) → HasSoundFinite self.old (length storage.now) runs →
            finite_of self.new storage.now runs
            ≡ finite_after_read (finite_of self.old storage.now runs) (length into.old) }
    {
        self.receiver.read(storage, into)
    }

    /// Removes the first `count` bytes of the queue, as `read` does, and copies none. `capacity` is
    /// how many bytes the storage has.
    ///
    /// # Requires
    ///
    /// The queue is in the storage, it has `count` bytes, and the first missing position fits 64
    /// bits, as they do where head, storage and runs are sound.
    #[inline]
    pub fn remove(&mut self, capacity: usize, count: usize)
        requires place { IsSoundPlace capacity self.old.receiver.place }
        requires queued { count ≤ self.old.receiver.place.length }
        requires fits { next_of self.old < 2 ^ 64 }
        ensures head { self.new.receiver ≡ head_after_read capacity count self.old.receiver }
        ensures end { self.new.after_end ≡ self.old.after_end }
        ensures sound { (runs : List (ℕ × ℕ)) → HasSoundFinite self.old capacity runs →
            HasSoundFinite self.new capacity runs }
        ensures state { (storage : List ℕ) (runs : List (ℕ × ℕ)) → length storage ≡ capacity →
            HasSoundFinite self.old capacity runs → finite_of self.new storage runs
            ≡ finite_after_read (finite_of self.old storage runs) count }
    {
        self.receiver.remove(capacity, count);
    }

    /// Returns how many bytes of a segment of `len` bytes at `position` would be new, where the
    /// storage has `capacity` bytes: those in the free window and below the end whose positions are
    /// not held. It is asked before the segment is kept, since the bytes whose positions are held
    /// are kept again, and counted. The result is 0 for a duplicate, which TCP may report, for a
    /// segment that is beyond the free window, and for one without bytes. It looks at each held run.
    ///
    /// # Requires
    ///
    /// Head, storage and runs are sound, as `is_sound` tests.
    pub fn count_new(&self, capacity: usize, runs: &[Run], position: u64, len: usize) -> usize
        requires sound { HasSoundFinite self.now capacity runs.now }
        ensures { result ≡ count_between (next_of self.now)
            (self.now.receiver.first + self.now.receiver.count_read + capacity)
            (held_at self.now.receiver runs.now) position
            (min len (min (end_of self.now) (no_end - 1) - position)) }
    {
        let count = count_below(self.after_end, position, len);
        self.receiver.count_part(capacity, runs, position, count)
    }
}

//! A sender in parts: a head of numbers, and a storage that is kept elsewhere.
#![tactic(auto, using(crate::proofs::Senders::heads))]

ghost use Rattle.std.specs.Prelude.{◌≡◌, ◌↔◌, ◌+◌, ◌-◌, ◌<◌, ◌≤◌, ◌^◌, ℕ, List, [], length, take, drop};
ghost use Rattle.std.specs.Prelude.{min, IsTrue, IsFalse};
ghost use Rattle.net_ring.specs.Ring.{queue, rewind_if_empty, with_enqueued, write_at, with_elements_wrapping};
ghost use Rattle.net_ring.specs.RingHead.{ring_at, queued_index, dequeued_place};
ghost use Rattle.net_receiver.specs.SenderState.{sender_state, room_of, contiguous_end, Sends, with_written};
ghost use Rattle.net_receiver.specs.SenderState.{sender_from, sender_of, IsSoundHead, moved_sender};
ghost use Rattle.net_receiver.specs.NewHeads.{sender_head};

use net_ring::{RingHead, Span};

/// What a sender has besides its storage: numbers.
///
/// It serves callers who keep the storage elsewhere, as in the memory of a program in C. Each call
/// takes it as a slice, or takes how many bytes it has.
///
/// A head is *sound* for a storage if it is that of a sender over it, as `is_sound` tests:
/// `IsSoundHead` in contracts, where `sender_of` is what is stored. A call that requires this can't
/// be made with the storage of another head. smoltcp has no such type.
#[repr(C)]
#[derive(Debug, Clone, Copy)]
pub struct SenderHead {
    /// The position of the queue's first byte.
    pub first_unacknowledged: u64,
    /// Where the queue is in the storage.
    pub place: RingHead,
}

impl SenderHead {
    /// Returns the head of a sender of a stream that begins at position `first`, to which nothing
    /// was written. It is sound for every storage.
    pub(crate) const fn new(first: u64) -> Self
        ensures sound { (capacity : ℕ) → IsSoundHead capacity result }
        ensures state { (storage : List ℕ) → sender_of result storage
            ≡ sender_state (length storage) first [] (first + length storage) }
        ensures numbers { result ≡ sender_head first }
    {
        SenderHead {
            first_unacknowledged: first,
            place: RingHead {
                read_at: 0,
                length: 0,
            },
        }
    }

    /// Copies the queue to the beginning of a larger storage, for which the head then is.
    ///
    /// # Requires
    ///
    /// The head is sound for the storage, and the other one is no smaller.
    pub(crate) fn grow(&mut self, storage: &[u8], larger: &mut [u8])
        requires sound { IsSoundHead (length storage.now) self.old }
        requires larger { length storage.now ≤ length larger.old }
        ensures sound { IsSoundHead (length larger.new) self.new }
        ensures place { self.new.place.length ≡ self.old.place.length }
        ensures state { sender_of self.new larger.new
            ≡ moved_sender (sender_of self.old storage.now) (length larger.new) }
    {
        self.place.read_allocated(storage, 0, larger);
        self.place.read_at = 0;
    }

    /// Returns whether this head is sound for a storage of `capacity` bytes: `place` is that of a
    /// ring of as many, and the position after the queue fits 64 bits.
    pub(crate) fn is_sound(&self, capacity: usize) -> bool
        ensures { IsTrue result ↔ IsSoundHead capacity self.now }
    {
        self.place.is_sound(capacity)
            && self.place.length as u64 <= u64::MAX - self.first_unacknowledged
    }

    /// Returns the position after the last byte that was written.
    ///
    /// # Requires
    ///
    /// It fits 64 bits, as it does where the head is sound for a storage.
    #[inline]
    pub(crate) fn end(&self) -> u64
        requires { self.now.first_unacknowledged + self.now.place.length < 2 ^ 64 }
        ensures { result ≡ self.now.first_unacknowledged + self.now.place.length }
    {
        self.first_unacknowledged + self.place.length as u64
    }

    /// Returns how many bytes `write` would take: as many as have room in a storage of `capacity`
    /// bytes and below the last position, 2^64 - 1.
    ///
    /// # Requires
    ///
    /// The head is sound for a storage of `capacity` bytes.
    #[inline]
    pub(crate) fn room(&self, capacity: usize) -> usize
        requires { IsSoundHead capacity self.now }
        ensures value { result ≡ min (capacity - self.now.place.length)
            (2 ^ 64 - 1 - (self.now.first_unacknowledged + self.now.place.length)) }
    {
        let free = (capacity - self.place.length) as u64;
        free.min(u64::MAX - self.end()) as usize
    }

    /// Enqueues the first of these bytes, as many as `room` says, and returns how many. An empty
    /// queue is rewound before, also for no bytes.
    ///
    /// # Requires
    ///
    /// The head is sound for the storage.
    #[inline]
    pub(crate) fn write(&mut self, storage: &mut [u8], bytes: &[u8]) -> usize
        requires { IsSoundHead (length storage.old) self.old }
        ensures sound { IsSoundHead (length storage.old) self.new }
        ensures count { result ≡ min (length bytes.now) (room_of (sender_of self.old storage.old)) }
        ensures state { sender_of self.new storage.new
            ≡ with_written (sender_of self.old storage.old) (take result bytes.now) }
        ensures ring { let g = rewind_if_empty (ring_at storage.old self.old.place) in
            ring_at storage.new self.new.place
            ≡ with_enqueued result (with_elements_wrapping g (write_at g) (take result bytes.now)) }
    {
        let count = bytes.len().min(self.room(storage.len()));
        self.place.enqueue_slice(storage, &bytes[..count])
    }

    /// Returns where at most `max` queued bytes are, from the one at `pos` on; none if the byte at
    /// `pos` isn't queued. The storage has `capacity` bytes.
    ///
    /// # Requires
    ///
    /// The head is sound for a storage of `capacity` bytes.
    #[inline]
    pub(crate) fn peek_at(&self, capacity: usize, pos: u64, max: usize) -> Span
        requires { IsSoundHead capacity self.now }
        ensures from { self.now.first_unacknowledged ≤ pos → result.from
            ≡ queued_index capacity self.now.place (pos - self.now.first_unacknowledged) }
        ensures count { self.now.first_unacknowledged ≤ pos → result.count
            ≡ min max (self.now.place.length - (pos - self.now.first_unacknowledged)) }
        ensures contiguous { self.now.first_unacknowledged ≤ pos →
            result.contiguous ≡ min result.count (capacity - result.from) }
        ensures before { pos < self.now.first_unacknowledged →
            (result.from ≡ 0) × (result.count ≡ 0) × (result.contiguous ≡ 0) }
        ensures within { result.from + result.contiguous ≤ capacity }
        ensures end { (storage : List ℕ) → length storage ≡ capacity →
            self.now.first_unacknowledged ≤ pos → result.contiguous
            ≡ min max (contiguous_end (sender_of self.now storage) pos - pos) }
        ensures bytes { (storage : List ℕ) → length storage ≡ capacity →
            take result.contiguous (drop result.from storage)
            ≡ take result.contiguous (drop (pos - self.now.first_unacknowledged)
            (queue (ring_at storage self.now.place))) }
    {
        if pos < self.first_unacknowledged {
            return Span {
                from: 0,
                count: 0,
                contiguous: 0,
            };
        }
        let offset = (pos - self.first_unacknowledged).min(self.place.length as u64) as usize;
        self.place.allocated(capacity, offset, max)
    }

    /// Drops the bytes below `next`, and returns whether it did: false, and nothing changes, if
    /// `next` is below `first_unacknowledged` or above `end`. The storage has `capacity` bytes.
    ///
    /// # Requires
    ///
    /// The head is sound for a storage of `capacity` bytes.
    #[inline]
    pub(crate) fn acknowledge(&mut self, capacity: usize, next: u64) -> bool
        requires { IsSoundHead capacity self.old }
        ensures sound { IsSoundHead capacity self.new }
        ensures accepted { IsTrue result ↔ ((self.old.first_unacknowledged ≤ next)
            × (next ≤ self.old.first_unacknowledged + self.old.place.length)) }
        ensures first { IsTrue result → self.new.first_unacknowledged ≡ next }
        ensures place { IsTrue result → self.new.place ≡ dequeued_place capacity
            (next - self.old.first_unacknowledged) self.old.place }
        ensures state { IsTrue result → (storage : List ℕ) → length storage ≡ capacity →
            sender_of self.new storage ≡ sender_from (sender_of self.old storage) next }
        ensures sends { (storage : List ℕ) → length storage ≡ capacity → (f : ℕ) (w : List ℕ) →
            Sends f w (sender_of self.old storage) → Sends f w (sender_of self.new storage) }
        ensures refused { IsFalse result → self.new ≡ self.old }
    {
        if next < self.first_unacknowledged || next > self.end() {
            return false;
        }
        prove!(
            next - self.first_unacknowledged <= self.place.length as u64,
            "in any `usize`"
        );
        let count = (next - self.first_unacknowledged) as usize;
        self.place.dequeue(capacity, count);
        self.first_unacknowledged = next;
        true
    }
}

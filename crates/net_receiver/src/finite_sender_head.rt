//! A sender of a stream that ends, in parts.
#![tactic(auto, using(crate::proofs::Senders::heads))]

ghost use Rattle.std.specs.Prelude.{◌≡◌, ◌↔◌, ◌+◌, ◌-◌, ◌<◌, ◌≤◌, ◌==◌, ℕ, List};
ghost use Rattle.std.specs.Prelude.{◌^◌, length, take, min, max, IsTrue, IsFalse};
ghost use Rattle.std.specs.Int.{from_bool};
ghost use Rattle.net_ring.specs.Ring.{rewind_if_empty, with_elements_wrapping, with_enqueued, write_at};
ghost use Rattle.net_ring.specs.RingHead.{ring_at};
ghost use Rattle.net_receiver.specs.SenderState.{Sends};
ghost use Rattle.net_receiver.specs.Finite.{no_end};
ghost use Rattle.net_receiver.specs.NewHeads.{finite_sender_head};
ghost use Rattle.net_receiver.specs.FiniteSender.{finite_sender_of, IsSoundFiniteSender, fresh_finite_sender};
ghost use Rattle.net_receiver.specs.FiniteSender.{finite_room, with_bytes, closed_sender, acknowledged_below};
ghost use Rattle.net_receiver.specs.FiniteSender.{head_after_sending, LendsAt, moved_finite_sender};

use crate::sender_head::SenderHead;
use net_ring::Span;

/// What a sender of a stream that ends has besides its storage: numbers.
///
/// Once it is closed nothing can be written, and the end has the number after the last byte's: it
/// is sent, reported and acknowledged as a byte is, and takes no room. smoltcp has no such type.
#[repr(C)]
#[derive(Debug, Clone, Copy)]
pub struct FiniteSenderHead {
    /// The sender of the bytes.
    pub sender: SenderHead,
    /// 1 once it is closed, 0 before.
    pub closed: u64,
    /// 1 once the end is acknowledged, 0 before.
    pub finished: u64,
    /// The number after the last one that was ever sent.
    pub sent: u64,
}

impl FiniteSenderHead {
    /// Returns the head of a sender of a stream that begins at position `first`; nothing was
    /// written. It is sound for every storage.
    ///
    /// # Requires
    ///
    /// `first` is below `u64::MAX`: an end there would have no number after it.
    pub const fn new(first: u64) -> Self
        requires { first < no_end }
        ensures sound { (capacity : ℕ) → IsSoundFiniteSender capacity result }
        ensures state { (storage : List ℕ) →
            finite_sender_of result storage ≡ fresh_finite_sender (length storage) first }
        ensures numbers { result ≡ finite_sender_head first }
    {
        FiniteSenderHead {
            sender: SenderHead::new(first),
            closed: 0,
            finished: 0,
            sent: first,
        }
    }

    /// Returns whether this head is sound for a storage of `capacity` bytes: `sender.place` is that of a ring of as
    /// many; `closed` and `finished` are 0 or 1, and `finished` is 1 only if `closed` is and the queue is empty; and
    /// `sent` is from the first number that isn't acknowledged up to the number after the last one, which fits 64 bits.
    pub fn is_sound(&self, capacity: usize) -> bool
        ensures { IsTrue result ↔ IsSoundFiniteSender capacity self.now }
    {
        if !self.sender.is_sound(capacity) || self.closed > 1 || self.finished > self.closed {
            return false;
        }
        if self.finished > 0 && self.sender.place.length > 0 {
            return false;
        }
        let end = self.sender.end();
        if end == u64::MAX {
            return false;
        }
        self.sender.first_unacknowledged + self.finished <= self.sent
            && self.sent <= end + self.closed
    }

    /// Copies the queue to the beginning of a larger storage, for which the head then is.
    ///
    /// # Requires
    ///
    /// The head is sound for the storage, and the other one is no smaller.
    pub(crate) fn grow(&mut self, storage: &[u8], larger: &mut [u8])
        requires sound { IsSoundFiniteSender (length storage.now) self.old }
        requires larger { length storage.now ≤ length larger.old }
        ensures sound { IsSoundFiniteSender (length larger.new) self.new }
        ensures state { finite_sender_of self.new larger.new
            ≡ moved_finite_sender (finite_sender_of self.old storage.now) (length larger.new) }
    {
        self.sender.grow(storage, larger);
    }

    /// Returns the first number that isn't acknowledged.
    ///
    /// # Requires
    ///
    /// It fits 64 bits, as it does where the head is sound.
    #[inline]
    pub fn first_number(&self) -> u64
        requires { self.now.sender.first_unacknowledged + self.now.finished < 2 ^ 64 }
        ensures { result ≡ self.now.sender.first_unacknowledged + self.now.finished }
    {
        self.sender.first_unacknowledged + self.finished
    }

    /// Returns the number after the last byte's, and after the end's once the sender is closed.
    ///
    /// # Requires
    ///
    /// It fits 64 bits, as it does where the head is sound.
    #[inline]
    pub fn numbers_end(&self) -> u64
        requires { self.now.sender.first_unacknowledged + self.now.sender.place.length
            + self.now.closed < 2 ^ 64 }
        ensures { result ≡ self.now.sender.first_unacknowledged + self.now.sender.place.length
            + self.now.closed }
    {
        self.sender.end() + self.closed
    }

    /// Returns how many bytes `write` would take: none once the sender is closed. The number 2^64 - 2 is
    /// kept for the end, which has one after it.
    ///
    /// # Requires
    ///
    /// The head is sound for a storage of `capacity` bytes, as in each call below that takes one.
    #[inline]
    pub fn room(&self, capacity: usize) -> usize
        requires { IsSoundFiniteSender capacity self.now }
        ensures { (storage : List ℕ) → length storage ≡ capacity →
            result ≡ finite_room (finite_sender_of self.now storage) }
    {
        if self.closed != 0 {
            return 0;
        }
        let room = self.sender.room(capacity) as u64;
        room.min(u64::MAX - 1 - self.sender.end()) as usize
    }

    /// Enqueues the first of these bytes, as many as `room` says, and returns how many. Unless the
    /// sender is closed, an empty queue is rewound before, also for no bytes.
    #[inline]
    pub fn write(&mut self, storage: &mut [u8], bytes: &[u8]) -> usize
        requires { IsSoundFiniteSender (length storage.old) self.old }
        ensures sound { IsSoundFiniteSender (length storage.old) self.new }
        ensures count { result
            ≡ min (length bytes.now) (finite_room (finite_sender_of self.old storage.old)) }
        ensures state { finite_sender_of self.new storage.new
            ≡ with_bytes (finite_sender_of self.old storage.old) (take result bytes.now) }
        ensures ring { self.old.closed ≡ 0 →
            let g = rewind_if_empty (ring_at storage.old self.old.sender.place) in
            ring_at storage.new self.new.sender.place
            ≡ with_enqueued result (with_elements_wrapping g (write_at g) (take result bytes.now)) }
        ensures closed { 0 < self.old.closed → (self.new ≡ self.old) × (storage.new ≡ storage.old) }
    {
        if self.closed != 0 {
            return 0;
        }
        let count = bytes.len().min(self.room(storage.len()));
        self.sender.write(storage, &bytes[..count])
    }

    /// Ends the stream after what was written. A second call changes nothing.
    #[inline]
    pub fn close(&mut self)
        ensures sound { (capacity : ℕ) → IsSoundFiniteSender capacity self.old →
            IsSoundFiniteSender capacity self.new }
        ensures state { (storage : List ℕ) →
            finite_sender_of self.new storage ≡ closed_sender (finite_sender_of self.old storage) }
    {
        self.closed = 1;
    }

    /// Returns where the bytes of a segment from `pos` on are, none if the byte at `pos` isn't
    /// queued, and whether the segment ends the stream: the sender is closed, and the bytes end
    /// where it does. Its numbers, the end's among them, are below `limit`: the end of the window is
    /// one, and `pos` plus the segment size another. A segment at `pos` without bytes that ends the
    /// stream is the end alone.
    #[inline]
    pub fn peek_at(&self, capacity: usize, pos: u64, limit: u64) -> (Span, bool)
        requires { IsSoundFiniteSender capacity self.now }
        ensures { LendsAt capacity self.now pos limit result.0.from result.0.count
            result.0.contiguous result.1 }
    {
        let room = limit
            .saturating_sub(pos)
            .min(self.sender.place.length as u64) as usize;
        let span = self.sender.peek_at(capacity, pos, room);
        let is_last = self.ends_below(pos + span.contiguous as u64, limit);
        (span, is_last)
    }

    /// Returns whether a segment whose bytes end at `pos` ends the stream, with an end below `limit`.
    #[inline]
    fn ends_below(&self, pos: u64, limit: u64) -> bool
        requires { self.now.sender.first_unacknowledged + self.now.sender.place.length < no_end }
        ensures { IsTrue result ↔ ((self.now.closed ≡ 1) × (pos
            ≡ self.now.sender.first_unacknowledged + self.now.sender.place.length)
            × (pos < limit) × (self.now.finished ≡ 0)) }
    {
        self.closed == 1 && pos == self.sender.end() && pos < limit && self.finished == 0
    }

    /// Returns what `peek_at` does, and notes that the segment was sent: `sent` is the number after
    /// its last one, the end's counted, unless that is below. It changes nothing if the segment has
    /// no number.
    // Proof: A function of its own, since it is about numbers alone: its caller lends the bytes too.
    #[inline]
    pub(crate) fn send_at(&mut self, capacity: usize, pos: u64, limit: u64) -> (Span, bool)
        requires { IsSoundFiniteSender capacity self.old }
        ensures sound { IsSoundFiniteSender capacity self.new }
        ensures mark { self.new ≡ head_after_sending self.old pos
            (result.0.contiguous + from_bool result.1) }
        ensures lends { LendsAt capacity self.old pos limit
            result.0.from result.0.count result.0.contiguous result.1 }
    {
        let (span, is_last) = self.peek_at(capacity, pos, limit);
        let count = span.contiguous as u64 + u64::from(is_last);
        if count > 0 {
            self.sent = self.sent.max(pos + count);
        }
        (span, is_last)
    }

    /// Notes that all numbers below `pos` were sent, the end's among them if `pos` is past it.
    /// Returns false, and changes nothing, if `pos` is above `numbers_end`.
    #[inline]
    pub fn mark_sent(&mut self, capacity: usize, pos: u64) -> bool
        requires { IsSoundFiniteSender capacity self.old }
        ensures sound { IsSoundFiniteSender capacity self.new }
        ensures accepted { IsTrue result ↔ (pos ≤ self.old.sender.first_unacknowledged
            + self.old.sender.place.length + self.old.closed) }
        ensures mark { IsTrue result → self.new ≡ record self.old { sent = max self.old.sent pos } }
        ensures refused { IsFalse result → self.new ≡ self.old }
    {
        if pos > self.numbers_end() {
            return false;
        }
        self.sent = pos.max(self.sent);
        true
    }

    /// Drops the bytes below `next`, and notes that the end is acknowledged if `next` is past it.
    /// Returns false, and changes nothing, if `next` is below `first_number` or above what was sent.
    #[inline]
    pub fn acknowledge(&mut self, capacity: usize, next: u64) -> bool
        requires { IsSoundFiniteSender capacity self.old }
        ensures sound { IsSoundFiniteSender capacity self.new }
        ensures accepted { IsTrue result ↔ ((self.old.sender.first_unacknowledged
            + self.old.finished ≤ next) × (next ≤ self.old.sent)) }
        ensures first { IsTrue result →
            self.new.sender.first_unacknowledged + self.new.finished ≡ next }
        ensures state { IsTrue result → (storage : List ℕ) → length storage ≡ capacity →
            finite_sender_of self.new storage
            ≡ acknowledged_below (finite_sender_of self.old storage) next }
        ensures sends { (storage : List ℕ) → length storage ≡ capacity → (f : ℕ) (w : List ℕ) →
            Sends f w (finite_sender_of self.old storage).sender →
            Sends f w (finite_sender_of self.new storage).sender }
        ensures refused { IsFalse result → self.new ≡ self.old }
    {
        if next < self.first_number() || next > self.sent {
            return false;
        }
        let last = next.min(self.sender.end());
        self.finished = next - last;
        self.sender.acknowledge(capacity, last)
    }

    /// Returns whether the sender is closed.
    #[inline]
    pub fn is_closed(&self) -> bool
        ensures { result ≡ (self.now.closed == 1) }
    {
        self.closed == 1
    }

    /// Returns whether all bytes and the end are acknowledged. Once it is so it stays so.
    #[inline]
    pub fn is_closed_and_acknowledged(&self) -> bool
        ensures { result ≡ (self.now.finished == 1) }
    {
        self.finished == 1
    }
}

//! A sender of a stream that ends.
#![tactic(auto, using(crate::proofs::Senders::senders))]

ghost use Rattle.std.specs.Prelude.{◌≡◌, ◌↔◌, ◌+◌, ◌<◌, ◌≤◌, ◌==◌, ◌++◌, ℕ, List, [], length, take, min, max, IsTrue};
ghost use Rattle.std.specs.Prelude.{IsFalse};
ghost use Rattle.std.specs.Int.{from_bool};
ghost use Rattle.std.specs.Borrow.{sem};
ghost use Rattle.net_receiver.specs.{end_of, Sends, no_end, MatchesFinite, IsLent, IsSoundSent, finite_sender_of};
ghost use Rattle.net_receiver.specs.{IsSoundFiniteSender, fresh_finite_sender, first_number, numbers_end, finite_room};
ghost use Rattle.net_receiver.specs.{with_bytes, closed_sender, acknowledged_below, sent_after};
ghost use Rattle.net_receiver.specs.FiniteSender.{moved_finite_sender};
ghost use Rattle.net_receiver.specs.Segments.{IsSegment};

use crate::finite_sender_head::FiniteSenderHead;
use crate::laws;
use crate::lent_bytes::LentBytes;
use crate::segment_bytes::SegmentBytes;
use crate::sent_numbers::SentNumbers;
use net_ring::{ManagedSlice, Storage};
use std::marker::Model;
use std::mem::replace;
use std::ops::Range;

/// A [`FiniteSender`] over any storage.
///
/// Its queue has the bytes that were written and aren't acknowledged yet. It serves as the sending half of a TCP
/// socket: `send_at` lends the bytes of a segment, and notes that they were sent.
///
/// A position is the number of a byte in its stream, 64 bits. The storage's length is the most bytes that can be
/// queued.
///
/// Once it is closed nothing can be written, and the FIN has the position after the last byte's. The FIN is sent,
/// reported and acknowledged as a byte is, and takes no room. A position is kept free for it, so the sender can always
/// be closed. If the stream doesn't end, never close it.
///
/// No call allocates. smoltcp's TCP socket has its transmit buffer inside.
///
/// ```
/// use net_base::finite::FiniteSenderOver;
///
/// let mut sender = FiniteSenderOver::over([0u8; 8]);
/// assert_eq!(sender.write(b"abc"), 3);
/// sender.close();
/// assert_eq!(sender.send_at(0, 9).bytes, b"abc"); // and the FIN, at position 3
/// assert!(sender.acknowledge(4) && sender.is_closed_and_acknowledged());
/// ```
pub struct FiniteSenderOver<S: Storage<u8>> {
    // Invariant: the end is acknowledged only once the sender is closed and its queue is empty. What
    // was sent ends between what is acknowledged and what was written, the end counted. The end's
    // number fits 64 bits.
    head: FiniteSenderHead,
    storage: S,
}

/// A sender of a stream that ends. Its storage is lent or owned, and its calls are those of [`FiniteSenderOver`].
///
/// ```
/// use net_base::finite::FiniteSender;
///
/// let mut storage = [0u8; 4];
/// let mut sender = FiniteSender::new_at(&mut storage[..], 0);
/// assert_eq!(sender.write(b"abcde"), 4);
/// assert_eq!(sender.send_at(0, 3).bytes, b"abc");
/// assert!(sender.acknowledge(3));
/// assert_eq!((sender.first_number(), sender.len()), (3, 1));
/// ```
pub type FiniteSender<'a> = FiniteSenderOver<ManagedSlice<'a, u8>>;

/// Contracts see a `SenderState`: the capacity, the first unacknowledged position, which is that of the
/// queue's head, the queue, and the position at which the storage begins again. They also see 1 or 0 for
/// whether it is closed, and for whether the end is acknowledged; and the number after the last one that
/// was sent. `Sends f w` says of such a state that all bytes that were ever written are `w`, the first at
/// position `f`.
impl<S: Storage<u8>> Model for FiniteSenderOver<S> {
    ghost use Rattle.std.specs.Prelude.{length};
    ghost use Rattle.net_receiver.specs.FiniteSender.{FiniteSenderState, finite_sender_of};
    ghost use Rattle.net_receiver.specs.FiniteSender.{IsSoundFiniteSender};

    ghost Value = { FiniteSenderState };

    ghost view = { λ s. finite_sender_of s.head (S.elements s.storage) };

    ghost invariant = { λ s. IsSoundFiniteSender (length (S.elements s.storage)) s.head };
}

/// Written by hand, so that storage that isn't `Drop` can be used too.
impl<S: Storage<u8> + Drop> Drop for FiniteSenderOver<S> {
    fn drop(self) {
        let FiniteSenderOver { head: _, storage } = self;
        drop(storage);
    }
}

impl<S: Storage<u8>> FiniteSenderOver<S> {
    ghost use Rattle.net_receiver.specs.SenderLends.{ends_as};

    /// Returns a sender of a stream that begins at position 0: `over_at` with 0.
    #[must_use]
    pub const fn over(storage: S) -> Self
        ensures state { result ≡ fresh_finite_sender (length (S.elements storage)) 0 }
        ensures sends { Sends 0 [] result.sender }
    {
        Self::over_at(storage, 0)
    }

    /// Returns a sender of a stream that begins at position `first`, to which nothing was written.
    ///
    /// Its capacity is the length of `storage`, which may be 0.
    ///
    /// # Requires
    ///
    /// `first` is below `u64::MAX`: no stream can end there.
    #[must_use]
    #[track_caller]
    pub const fn over_at(storage: S, first: u64) -> Self
        requires { first < no_end }
        ensures state { result ≡ fresh_finite_sender (length (S.elements storage)) first }
        ensures sends { Sends first [] result.sender }
    {
        prove!(first < u64::MAX, "no number is left for an end");
        FiniteSenderOver {
            head: FiniteSenderHead::new(first),
            storage,
        }
    }

    /// Returns the sender that a head and a storage represent.
    ///
    /// # Requires
    ///
    /// The head is sound for the storage, as `FiniteSenderHead::is_sound` tests.
    pub fn from_parts(head: FiniteSenderHead, storage: S) -> Self
        requires { IsSoundFiniteSender (length (S.elements storage)) head }
        ensures { result ≡ finite_sender_of head (S.elements storage) }
    {
        FiniteSenderOver { head, storage }
    }

    /// Returns the head and the storage, which represent the sender.
    pub fn into_parts(self) -> (FiniteSenderHead, S)
        ensures sound { IsSoundFiniteSender (length (S.elements result.1)) result.0 }
        ensures state { finite_sender_of result.0 (S.elements result.1) ≡ self }
    {
        let FiniteSenderOver { head, storage } = self;
        (head, storage)
    }

    /// Returns the storage. Its contents are unspecified.
    #[must_use]
    pub fn into_storage(self) -> S
        ensures { length (S.elements result) ≡ self.sender.capacity }
    {
        let FiniteSenderOver { head: _, storage } = self;
        storage
    }

    /// Begins again over the same storage: a stream that begins at position `first`, to which nothing
    /// was written.
    ///
    /// ```
    /// # use net_base::finite::FiniteSender;
    /// # let mut storage = [0u8; 8];
    /// # let mut sender = FiniteSender::new_at(&mut storage[..], 100);
    /// assert_eq!(sender.write(b"abc"), 3);
    /// sender.reset_at(7);
    /// assert_eq!((sender.first_number(), sender.is_empty()), (7, true));
    /// ```
    ///
    /// # Requires
    ///
    /// `first` is below `u64::MAX`: no stream can end there.
    #[track_caller]
    pub fn reset_at(&mut self, first: u64)
        requires { first < no_end }
        ensures state { self.new ≡ fresh_finite_sender self.old.sender.capacity first }
        ensures sends { Sends first [] self.new.sender }
    {
        prove!(first < u64::MAX, "no number is left for an end");
        self.head = FiniteSenderHead::new(first);
    }

    /// Moves the queue to a larger storage, and returns the old one, whose contents are unspecified. All positions
    /// stay, and `window` grows by as much as the storage does, as far as there are positions.
    ///
    /// ```
    /// # use net_base::finite::FiniteSender;
    /// let mut sender = FiniteSender::new_at(vec![0; 4], 100);
    /// assert_eq!(sender.write(b"abcdef"), 4);
    /// sender.grow(vec![0; 16].into());
    /// assert_eq!((sender.write(b"ef"), sender.first_number(), sender.numbers_end()), (2, 100, 106));
    /// assert_eq!(sender.send_at(100, 106).bytes, b"abcdef");
    /// ```
    ///
    /// # Requires
    ///
    /// `larger` is at least as long as the storage.
    #[track_caller]
    pub fn grow(&mut self, mut larger: S) -> S
        requires { self.old.sender.capacity ≤ length (S.elements larger) }
        ensures state { self.new ≡ moved_finite_sender self.old (length (S.elements larger)) }
        ensures old { length (S.elements result) ≡ self.old.sender.capacity }
        ensures sends { (f : ℕ) (w : List ℕ) → Sends f w self.old.sender →
            Sends f w self.new.sender }
    {
        prove!(larger.count() >= self.capacity(), "a smaller storage");
        let count = larger.count();
        let bytes = larger.part_mut(0, count);
        let capacity = self.storage.count();
        self.head.grow(self.storage.part(0, capacity), bytes);
        replace(&mut self.storage, larger)
    }

    /// Returns the first position that isn't acknowledged: TCP's SND.UNA. Once the FIN is acknowledged it is
    /// `numbers_end`.
    ///
    /// ```
    /// # use net_base::finite::FiniteSender;
    /// # let mut storage = [0u8; 8];
    /// # let mut sender = FiniteSender::new_at(&mut storage[..], 100);
    /// assert!(sender.write(b"abc") == 3 && sender.mark_sent(103) && sender.first_number() == 100);
    /// assert!(sender.acknowledge(102) && sender.first_number() == 102);
    /// ```
    #[must_use]
    pub fn first_number(&self) -> u64
        ensures { result ≡ first_number self.now }
    {
        self.head.first_number()
    }

    /// Returns the position after the last byte, or after the FIN once the sender is closed.
    ///
    /// ```
    /// # use net_base::finite::FiniteSender;
    /// # let mut storage = [0u8; 8];
    /// # let mut sender = FiniteSender::new_at(&mut storage[..], 100);
    /// assert!(sender.write(b"abc") == 3 && sender.numbers_end() == 103);
    /// sender.close();
    /// assert_eq!(sender.numbers_end(), 104);
    /// ```
    #[must_use]
    pub fn numbers_end(&self) -> u64
        ensures { result ≡ numbers_end self.now }
    {
        self.head.numbers_end()
    }

    /// Returns the position after the last one that was ever sent: TCP's SND.MAX.
    ///
    /// ```
    /// # use net_base::finite::FiniteSender;
    /// # let mut storage = [0u8; 8];
    /// # let mut sender = FiniteSender::new_at(&mut storage[..], 100);
    /// assert!(sender.write(b"abc") == 3 && sender.sent() == 100);
    /// assert_eq!(sender.send_at(100, 102).bytes, b"ab");
    /// assert_eq!(sender.sent(), 102);
    /// ```
    #[must_use]
    pub fn sent(&self) -> u64
        ensures { result ≡ self.now.sent }
    {
        self.head.sent
    }

    /// Returns `first_number` and `sent`, as windows and timers take them.
    ///
    /// ```
    /// # use net_base::finite::FiniteSender;
    /// # let mut storage = [0u8; 8];
    /// # let mut sender = FiniteSender::new_at(&mut storage[..], 100);
    /// assert!(sender.write(b"abc") == 3 && sender.mark_sent(102));
    /// let numbers = sender.sent_numbers();
    /// assert_eq!((numbers.first_unacknowledged, numbers.sent, numbers.flight_size()), (100, 102, 2));
    /// ```
    #[must_use]
    pub fn sent_numbers(&self) -> SentNumbers
        ensures value { result ≡ record {
          first_unacknowledged = first_number self.now;
          sent = self.now.sent;
        } }
        ensures sound { IsSoundSent self.now }
    {
        self.is_sound();
        SentNumbers {
            first_unacknowledged: self.first_number(),
            sent: self.sent(),
        }
    }

    /// Returns how many bytes are queued.
    ///
    /// ```
    /// # use net_base::finite::FiniteSender;
    /// # let mut storage = [0u8; 8];
    /// # let mut sender = FiniteSender::new_at(&mut storage[..], 100);
    /// assert!(sender.write(b"abc") == 3 && sender.mark_sent(102) && sender.acknowledge(102));
    /// assert_eq!(sender.len(), 1);
    /// ```
    #[must_use]
    pub fn len(&self) -> usize
        ensures { result ≡ length self.now.sender.queue }
    {
        self.head.sender.place.length
    }

    /// Returns whether all bytes that were written are acknowledged.
    ///
    /// ```
    /// # use net_base::finite::FiniteSender;
    /// # let mut storage = [0u8; 8];
    /// # let mut sender = FiniteSender::new_at(&mut storage[..], 100);
    /// assert!(sender.is_empty() && sender.write(b"a") == 1 && !sender.is_empty());
    /// ```
    #[must_use]
    pub fn is_empty(&self) -> bool
        ensures { result ≡ (length self.now.sender.queue == 0) }
    {
        self.len() == 0
    }

    /// Returns the storage's length: the most bytes that can be queued.
    ///
    /// ```
    /// # use net_base::finite::FiniteSender;
    /// # let mut storage = [0u8; 8];
    /// # let mut sender = FiniteSender::new_at(&mut storage[..], 100);
    /// assert!(sender.write(b"abc") == 3 && sender.capacity() == 8);
    /// ```
    #[must_use]
    pub fn capacity(&self) -> usize
        ensures { result ≡ self.now.sender.capacity }
    {
        self.storage.count()
    }

    /// Returns how many bytes `write` would take: those for which the storage has room, and none once the sender is
    /// closed. The last position, `u64::MAX - 1`, is kept for the FIN.
    ///
    /// ```
    /// # use net_base::finite::FiniteSender;
    /// # let mut storage = [0u8; 4];
    /// assert_eq!(FiniteSender::new_at(&mut storage[..], u64::MAX - 3).window(), 2);
    /// ```
    #[must_use]
    pub fn window(&self) -> usize
        ensures { result ≡ finite_room self.now }
    {
        self.head.room(self.storage.count())
    }

    /// Enqueues the first of these bytes, up to `window`, and returns how many.
    ///
    /// ```
    /// # use net_base::finite::FiniteSender;
    /// # let mut storage = [0u8; 4];
    /// # let mut sender = FiniteSender::new_at(&mut storage[..], 0);
    /// assert_eq!((sender.write(b"abc"), sender.write(b"def")), (3, 1));
    /// assert_eq!(sender.peek_at(0, 9).bytes, b"abcd");
    /// ```
    #[must_use]
    pub fn write(&mut self, bytes: &[u8]) -> usize
        // Guarantee.
        ensures count { result ≡ min (length bytes.now) (finite_room self.old) }
        ensures state { self.new ≡ with_bytes self.old (take result bytes.now) }
        ensures sends { (f : ℕ) (w : List ℕ) → Sends f w self.old.sender
            → Sends f (w ++ take result bytes.now) self.new.sender }
        ensures number { first_number self.new ≡ first_number self.old }
    {
        let capacity = self.storage.count();
        self.head.write(self.storage.part_mut(0, capacity), bytes)
    }

    /// Ends the stream after what was written. A second call changes nothing.
    ///
    /// ```
    /// # use net_base::finite::FiniteSender;
    /// # let mut storage = [0u8; 8];
    /// # let mut sender = FiniteSender::new_at(&mut storage[..], 100);
    /// assert_eq!(sender.write(b"abc"), 3);
    /// sender.close();
    /// assert_eq!((sender.window(), sender.write(b"def"), sender.numbers_end()), (0, 0, 104));
    /// ```
    pub fn close(&mut self)
        ensures state { self.new ≡ closed_sender self.old }
        ensures sends { (f : ℕ) (w : List ℕ) → Sends f w self.old.sender →
            Sends f w self.new.sender }
        ensures number { first_number self.new ≡ first_number self.old }
    {
        self.head.close();
    }

    /// Lends the queued bytes of a segment from the one at `pos` on, without a copy, up to the storage's end, where the
    /// queue wraps. It lends none if the byte at `pos` isn't queued.
    ///
    /// `fin` says that the segment has the FIN: the sender is closed, the bytes reach the end, and the FIN isn't
    /// acknowledged. It may have no bytes.
    ///
    /// All its positions, the FIN's included, are below `limit`. Pass the end of the peer's window, as
    /// `PeerWindow::send_limit` returns it, or `(pos + mss).min(send_limit)` to keep the segment size too.
    ///
    /// Whatever is written later, the segment is one of the stream. Law `lent_segments` (`docs/laws.md`) says which
    /// positions it has.
    ///
    /// ```
    /// # use net_base::finite::{FiniteSender, LentBytes};
    /// # let mut storage = [0u8; 4];
    /// # let mut sender = FiniteSender::new_at(&mut storage[..], 100);
    /// assert!(sender.write(b"abcd") == 4 && sender.mark_sent(103) && sender.acknowledge(103));
    /// assert_eq!(sender.write(b"ef"), 2);
    /// sender.close();
    /// // The queue wraps in the storage: the segment from 103 on has one byte.
    /// assert_eq!(sender.peek_at(103, 999), LentBytes { bytes: b"d", fin: false });
    /// assert_eq!(sender.peek_at(104, 999), LentBytes { bytes: b"ef", fin: true });
    /// ```
    #[must_use]
    pub fn peek_at(&self, pos: u64, limit: u64) -> LentBytes<'_>
        ensures lent { IsLent self.now pos limit result.bytes.now result.fin }
        ensures later { (f : ℕ) (w more : List ℕ) → Sends f w self.now.sender →
            self.now.sender.first_unacknowledged ≤ pos → (self.now.closed ≡ 1 → more ≡ []) →
            MatchesFinite f (w ++ more) pos result.bytes.now result.fin }
    {
        laws::matches_stream();
        let lent = self.head.peek_at(self.storage.count(), pos, limit);
        let from = lent.0.from;
        LentBytes {
            bytes: self.storage.part(from, from + lent.0.contiguous),
            fin: lent.1,
        }
    }

    /// Lends what `peek_at` does, and notes that the segment was sent: `sent` rises to the position after its last one,
    /// the FIN's included, unless it is above. A segment without bytes and FIN changes nothing.
    ///
    /// ```
    /// # use net_base::finite::{FiniteSender, LentBytes};
    /// # let mut storage = [0u8; 8];
    /// # let mut sender = FiniteSender::new_at(&mut storage[..], 100);
    /// assert_eq!(sender.write(b"hello"), 5);
    /// sender.close();
    /// let bytes = sender.send_at(100, 105); // the FIN's position is 105
    /// assert_eq!(bytes, LentBytes { bytes: b"hello", fin: false });
    /// assert_eq!(sender.send_at(105, 106), LentBytes { bytes: b"", fin: true });
    /// assert_eq!(sender.sent(), 106);
    /// ```
    pub fn send_at(&mut self, pos: u64, limit: u64) -> LentBytes<'_>
        ensures* marks { sem 𝓛 (ends_as S.row S.Storage self.entry (record self.old {
          sent = sent_after self.old.sent pos (length result.bytes.now + from_bool result.fin);
        })) }
        ensures lent { IsLent self.old pos limit result.bytes.now result.fin }
        ensures later { (f : ℕ) (w more : List ℕ) → Sends f w self.old.sender →
            self.old.sender.first_unacknowledged ≤ pos → (self.old.closed ≡ 1 → more ≡ []) →
            MatchesFinite f (w ++ more) pos result.bytes.now result.fin }
    {
        laws::matches_stream();
        let lent = self.head.send_at(self.storage.count(), pos, limit);
        let from = lent.0.from;
        LentBytes {
            bytes: self.storage.part(from, from + lent.0.contiguous),
            fin: lent.1,
        }
    }

    /// Notes that all positions below `pos` were sent, the FIN's if it is one of them, and returns true. Returns false,
    /// and changes nothing, if `pos` is above `numbers_end`.
    ///
    /// ```
    /// # use net_base::finite::FiniteSender;
    /// # let mut storage = [0u8; 4];
    /// # let mut sender = FiniteSender::new_at(&mut storage[..], 100);
    /// assert_eq!(sender.write(b"abc"), 3);
    /// assert!(sender.mark_sent(102) && sender.mark_sent(101));
    /// assert!(sender.sent() == 102 && !sender.mark_sent(104));
    /// ```
    #[must_use]
    pub fn mark_sent(&mut self, pos: u64) -> bool
        // Guarantee.
        ensures accepted { IsTrue result ↔ (pos ≤ numbers_end self.old) }
        ensures mark { IsTrue result → self.new ≡ record self.old { sent = max self.old.sent pos } }
        ensures sends { (f : ℕ) (w : List ℕ) → Sends f w self.old.sender →
            Sends f w self.new.sender }
        ensures number { first_number self.new ≡ first_number self.old }
        // Guarantee.
        ensures refused { IsFalse result → self.new ≡ self.old }
    {
        self.head.mark_sent(self.storage.count(), pos)
    }

    /// Dequeues the bytes below `next`, notes that the FIN is acknowledged if its position is below `next`, and returns
    /// true. Returns false, and changes nothing, if `next` is below `first_number` or above `sent`. RFC 9293, section
    /// 3.10.7.4, wants an acknowledgement above `sent` refused.
    ///
    /// ```
    /// # use net_base::finite::FiniteSender;
    /// # let mut storage = [0u8; 4];
    /// # let mut sender = FiniteSender::new_at(&mut storage[..], 100);
    /// assert!(sender.write(b"abc") == 3 && sender.mark_sent(102));
    /// assert!(!sender.acknowledge(103) && sender.acknowledge(102));
    /// assert_eq!(sender.peek_at(102, 109).bytes, b"c");
    /// ```
    #[must_use]
    pub fn acknowledge(&mut self, next: u64) -> bool
        // Guarantee.
        ensures accepted { IsTrue result
            ↔ ((first_number self.old ≤ next) × (next ≤ self.old.sent)) }
        ensures state { IsTrue result → self.new ≡ acknowledged_below self.old next }
        ensures sends { (f : ℕ) (w : List ℕ) → Sends f w self.old.sender →
            Sends f w self.new.sender }
        // Guarantee.
        ensures number { IsTrue result → first_number self.new ≡ next }
        ensures refused { IsFalse result → self.new ≡ self.old }
    {
        self.head.acknowledge(self.storage.count(), next)
    }

    /// Returns whether the sender is closed.
    ///
    /// ```
    /// # use net_base::finite::FiniteSender;
    /// # let mut storage = [0u8; 8];
    /// # let mut sender = FiniteSender::new_at(&mut storage[..], 100);
    /// assert!(!sender.is_closed());
    /// sender.close();
    /// assert!(sender.is_closed());
    /// ```
    #[must_use]
    pub fn is_closed(&self) -> bool
        ensures { result ≡ (self.now.closed == 1) }
    {
        self.head.is_closed()
    }

    /// Returns whether all bytes and the FIN are acknowledged. Once true it stays true, until `reset_at`.
    ///
    /// ```
    /// # use net_base::finite::FiniteSender;
    /// # let mut storage = [0u8; 8];
    /// # let mut sender = FiniteSender::new_at(&mut storage[..], 100);
    /// sender.close();
    /// assert!(sender.mark_sent(101) && !sender.is_closed_and_acknowledged());
    /// assert!(sender.acknowledge(101) && sender.is_closed_and_acknowledged());
    /// ```
    #[must_use]
    pub fn is_closed_and_acknowledged(&self) -> bool
        ensures { result ≡ (self.now.finished == 1) }
    {
        self.head.is_closed_and_acknowledged()
    }

    /// States what is true of every sender; it does nothing. Callers use `laws::is_sound_sent`.
    pub(crate) fn is_sound(&self)
        ensures sent { IsSoundSent self.now }
        ensures fits { end_of self.now.sender < no_end }
        ensures top { numbers_end self.now ≤ no_end }
        ensures room { length self.now.sender.queue ≤ self.now.sender.capacity }
    {
        let _ = &self.head;
    }

    /// Lends the bytes of a range in two parts, where `peek_at` lends those up to the storage's end. The result's `fin`
    /// is whether the stream ends after them. It lends none if the range begins below `first_number`.
    ///
    /// ```
    /// # use net_base::finite::FiniteSender;
    /// # let mut storage = [0u8; 64];
    /// # let mut sender = FiniteSender::new_at(&mut storage[..], 0);
    /// assert_eq!(sender.write(b"abcdef"), 6);
    /// sender.close();
    /// assert_eq!((sender.segment_bytes(2..5).front, sender.segment_bytes(2..5).fin), (&b"cde"[..], false));
    /// // The FIN's position is 6.
    /// assert_eq!((sender.segment_bytes(2..7).front, sender.segment_bytes(2..7).fin), (&b"cdef"[..], true));
    /// ```
    #[must_use]
    #[tactic(auto, using(crate::proofs::Segments::segments))]
    pub fn segment_bytes(&self, range: Range<u64>) -> SegmentBytes<'_>
        ensures { IsSegment self.now range.start range.end
            (result.front.now ++ result.back.now) result.fin }
    {
        let front = self.peek_at(range.start, range.end).bytes;
        let after = range.start + front.len() as u64;
        let back = self.peek_at(after, range.end);
        SegmentBytes {
            front,
            back: back.bytes,
            fin: back.fin,
        }
    }
}

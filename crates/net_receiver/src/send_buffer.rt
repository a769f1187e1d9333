//! What a stream that ends sends, and sends again: its bytes, in a ring, and their positions, as `SendRanges` knows
//! them.
#![tactic(auto, using(crate::proofs::SendRanges::buffers))]

ghost use Rattle.std.specs.Prelude.{◌≡◌, ◌↔◌, ◌-◌, ◌+◌, ◌<◌, ◌≤◌, ◌&&◌, ◌++◌, ◌==◌, ℕ, None, IsTrue, IsFalse, IfSome};
ghost use Rattle.std.specs.Prelude.{IsErr, IfOk, min, max, length, not, nat_le, nat_lt, true, if◌then◌else◌};
ghost use Rattle.net_assembler.specs.Positions.{contains, front, missing_count, with_range};
ghost use Rattle.net_receiver.specs.FiniteSender.{sender_after_command, Writes, Closes, Marks, Acknowledges};
ghost use Rattle.net_receiver.specs.FiniteSender.{finite_room, first_number, moved_finite_sender};
ghost use Rattle.net_receiver.specs.Finite.{no_end};
ghost use Rattle.net_receiver.specs.Scoreboards.{HasNoRoom, IsReport};
ghost use Rattle.net_receiver.specs.SendRanges.{new_send_buffer, end_number, is_open, is_within, data_top, IsNext};
ghost use Rattle.net_receiver.specs.SendRanges.{LacksRoom, Loses, NoneIsOpen, NoneIsOpenBelow};
ghost use Rattle.net_receiver.specs.SendRanges.{Told, IsMarked, IsLost, AllLost, IsOther, flight_count};
ghost use Rattle.net_receiver.specs.Segments.{IsSegment};

use crate::finite_sender::FiniteSenderOver;
use crate::laws;
use crate::segment_bytes::SegmentBytes;
use crate::send_ranges::{Acknowledged, NotSent, SendRangesOver};
use crate::sent_numbers::SentNumbers;
use net_assembler::Run;
use net_ring::{ManagedSlice, Storage};
use std::marker::Model;
use std::ops::Range;

/// The sending side of a QUIC stream: its bytes, and which of them are acknowledged, in flight and lost. Its storages
/// are lent or owned, and its calls are those of [`SendBufferOver`].
///
/// ```
/// use net_base::finite::SendBuffer;
/// use net_base::storage::Run;
///
/// // 64 bytes may wait. 4 ranges are remembered that are acknowledged out of order, and 4 in flight above a loss.
/// let (mut storage, mut acknowledged, mut sent) = ([0; 64], [Run::EMPTY; 4], [Run::EMPTY; 4]);
/// let buffer = SendBuffer::new_at(&mut storage, &mut acknowledged, &mut sent, 0);
/// assert_eq!((buffer.window(), buffer.numbers_end()), (64, 0));
/// ```
pub type SendBuffer<'a> = SendBufferOver<ManagedSlice<'a, u8>, ManagedSlice<'a, Run>>;

/// A [`SendBuffer`] over any storages. (Not in smoltcp.)
///
/// It is a [`SendRangesOver`] that also keeps the bytes, in a ring. The page of that type says what a position is, and
/// how many ranges are enough.
///
/// No call allocates.
///
/// ```
/// use net_base::finite::SendBuffer;
/// use net_base::storage::Run;
///
/// // A stream of QUIC. Its peer's MAX_STREAM_DATA is 19, and a frame has room for 8 bytes.
/// let mut stream = SendBuffer::new_at(vec![0; 64], vec![Run::EMPTY; 4], vec![Run::EMPTY; 4], 0);
/// assert_eq!(stream.write(b"nineteen bytes here"), 19);
/// stream.close();
/// let mut frames = Vec::new();
/// while let Some(range) = stream.next(19, 8) {
///     let lent = stream.bytes(range.clone());
///     frames.push((range.start, [lent.front, lent.back].concat(), lent.fin));
///     assert!(stream.mark(range));
/// }
/// assert_eq!(frames[0], (0, b"nineteen".to_vec(), false));
/// assert_eq!(frames[2], (16, b"ere".to_vec(), true)); // range 16..20: the FIN's position is 19
/// assert_eq!(frames.len(), 3);
/// // The packets of the first and the last frame are lost, and that of the second one is acknowledged.
/// assert_eq!(stream.acknowledge(8..16).map(|it| it.new), Ok(8));
/// assert!(stream.lose(16..20) && stream.lose(0..8));
/// assert_eq!(stream.next(19, 8), Some(0..8));
/// assert!(stream.mark(0..8));
/// assert_eq!(stream.next(19, 8), Some(16..20));
/// assert!(stream.mark(16..20));
/// assert_eq!(stream.next(19, 8), None);
/// assert_eq!(stream.acknowledge(16..20).map(|it| it.freed), Ok(0));
/// assert_eq!(stream.acknowledge(0..8).map(|it| it.freed), Ok(20));
/// assert!(stream.is_done());
/// ```
pub struct SendBufferOver<S: Storage<u8>, R: Storage<Run>> {
    sender: FiniteSenderOver<S>,
    ranges: SendRangesOver<R>,
}

/// Contracts see the bytes and the numbers.
impl<S: Storage<u8>, R: Storage<Run>> Model for SendBufferOver<S, R> {
    ghost use Rattle.std.specs.Coded.{codes};
    ghost use Rattle.net_receiver.specs.SendRanges.{SendBuffer, IsSoundBuffer, positions_code};

    ghost Value = { SendBuffer };

    ghost coded = { Prim.hlevel (codes, positions_code) };

    ghost view = { λ b. record { sender = b.sender; ranges = b.ranges } };

    ghost invariant = { λ b. IsSoundBuffer (record { sender = b.sender; ranges = b.ranges }) };
}

/// Written by hand, so that storage that isn't `Drop` can be used too.
impl<S: Storage<u8> + Drop, R: Storage<Run> + Drop> Drop for SendBufferOver<S, R> {
    fn drop(self) {
        let SendBufferOver { sender, ranges } = self;
        drop(sender);
        drop(ranges);
    }
}

impl<S: Storage<u8>, R: Storage<Run>> SendBufferOver<S, R> {
    /// Returns the buffer of a stream that begins at position `first`, to which nothing was written. `acknowledged`
    /// stores ranges that were acknowledged out of order, and `sent` stores ranges in flight above the first lost byte.
    /// Both have room for the same number of ranges.
    ///
    /// ```
    /// # use net_base::finite::SendBufferOver;
    /// # use net_base::storage::Run;
    /// let buffer = SendBufferOver::over_at([0; 64], [Run::EMPTY; 4], [Run::EMPTY; 4], 100);
    /// assert_eq!((buffer.window(), buffer.numbers_end()), (64, 100));
    /// ```
    ///
    /// # Requires
    ///
    /// `acknowledged` and `sent` have the same length, which may be 0, and `first` is below `u64::MAX`: no stream can
    /// end there.
    #[must_use]
    #[track_caller]
    pub fn over_at(storage: S, acknowledged: R, sent: R, first: u64) -> Self
        requires runs { length (R.elements sent) ≡ length (R.elements acknowledged) }
        requires end { first < no_end }
        ensures { result
            ≡ new_send_buffer (length (S.elements storage)) (length (R.elements acknowledged))
            first }
    {
        prove!(sent.count() == acknowledged.count(), "two numbers of runs");
        prove!(first < u64::MAX, "no number is left for an end");
        SendBufferOver {
            sender: FiniteSenderOver::over_at(storage, first),
            ranges: SendRangesOver::over_at(acknowledged, sent, first),
        }
    }

    /// Returns the storages: that of the bytes, `acknowledged`, and `sent`. Their contents are unspecified.
    ///
    /// ```
    /// # use net_base::finite::SendBufferOver;
    /// # use net_base::storage::Run;
    /// let buffer = SendBufferOver::over_at([0; 64], [Run::EMPTY; 4], [Run::EMPTY; 4], 100);
    /// assert_eq!(buffer.into_storages().0.len(), 64);
    /// ```
    #[must_use]
    pub fn into_storages(self) -> (S, R, R)
        ensures bytes { length (S.elements result.0) ≡ self.sender.sender.capacity }
        ensures acknowledged { length (R.elements result.1) ≡ self.ranges.most_runs }
        ensures sent { length (R.elements result.2) ≡ self.ranges.most_runs }
    {
        let SendBufferOver { sender, ranges } = self;
        let (acknowledged, settled) = ranges.into_storages();
        (sender.into_storage(), acknowledged, settled)
    }

    /// Begins again over the same storages: a stream that begins at position `first`, to which nothing was written.
    ///
    /// ```
    /// # use net_base::finite::SendBuffer;
    /// # use net_base::storage::Run;
    /// # let mut buffer = SendBuffer::new_at(vec![0; 64], vec![Run::EMPTY; 4], vec![Run::EMPTY; 4], 0);
    /// assert_eq!(buffer.write(b"abc"), 3);
    /// buffer.reset_at(100);
    /// assert_eq!((buffer.window(), buffer.numbers_end()), (64, 100));
    /// ```
    ///
    /// # Requires
    ///
    /// `first` is below `u64::MAX`: no stream can end there.
    #[track_caller]
    pub fn reset_at(&mut self, first: u64)
        requires { first < no_end }
        ensures { self.new
            ≡ new_send_buffer self.old.sender.sender.capacity self.old.ranges.most_runs first }
    {
        prove!(first < u64::MAX, "no number is left for an end");
        self.sender.reset_at(first);
        self.ranges.reset_at(first);
    }

    /// Moves the bytes to a larger storage, and returns the old one, as `FiniteSenderOver::grow` does. What is
    /// acknowledged, in flight and lost stays so.
    ///
    /// ```
    /// # use net_base::finite::SendBuffer;
    /// # use net_base::storage::Run;
    /// let mut buffer = SendBuffer::new_at(vec![0; 4], vec![Run::EMPTY; 4], vec![Run::EMPTY; 4], 0);
    /// assert!(buffer.write(b"abcdef") == 4 && buffer.mark(0..4));
    /// buffer.grow(vec![0; 16].into());
    /// assert_eq!((buffer.write(b"ef"), buffer.next(u64::MAX, 100)), (2, Some(4..6)));
    /// ```
    ///
    /// # Requires
    ///
    /// `larger` has at least as many bytes as the storage.
    #[track_caller]
    pub fn grow(&mut self, larger: S) -> S
        requires { self.old.sender.sender.capacity ≤ length (S.elements larger) }
        ensures state { self.new ≡ record self.old {
          sender = moved_finite_sender self.old.sender (length (S.elements larger));
        } }
        ensures old { length (S.elements result) ≡ self.old.sender.sender.capacity }
    {
        prove!(larger.count() >= self.capacity(), "a smaller storage");
        self.sender.grow(larger)
    }

    /// Moves the ranges to larger storages, and returns the old ones, as `SendRangesOver::grow_runs` does.
    ///
    /// ```
    /// # use net_base::finite::SendBuffer;
    /// # use net_base::storage::Run;
    /// let mut buffer = SendBuffer::new_at(vec![0; 64], vec![], vec![], 0);
    /// assert!(buffer.write(&[7; 40]) == 40 && buffer.mark(0..40));
    /// buffer.grow_runs(vec![Run::EMPTY; 4].into(), vec![Run::EMPTY; 4].into());
    /// assert_eq!(buffer.acknowledge(8..16).map(|it| it.new), Ok(8));
    /// ```
    ///
    /// # Requires
    ///
    /// Both storages have the same length, which is at least `most_runs`.
    #[track_caller]
    pub fn grow_runs(&mut self, acknowledged: R, sent: R) -> (R, R)
        requires runs { length (R.elements sent) ≡ length (R.elements acknowledged) }
        requires more { self.old.ranges.most_runs ≤ length (R.elements acknowledged) }
        ensures state { self.new ≡ record self.old {
          ranges = record self.old.ranges { most_runs = length (R.elements acknowledged) };
        } }
        ensures acknowledged { length (R.elements result.0) ≡ self.old.ranges.most_runs }
        ensures sent { length (R.elements result.1) ≡ self.old.ranges.most_runs }
    {
        prove!(sent.count() == acknowledged.count(), "two numbers of runs");
        prove!(acknowledged.count() >= self.most_runs(), "fewer runs");
        self.ranges.grow_runs(acknowledged, sent)
    }

    /// Returns how many ranges `acknowledged` and `sent` have room for each.
    ///
    /// ```
    /// # use net_base::finite::SendBuffer;
    /// # use net_base::storage::Run;
    /// # let buffer = SendBuffer::new_at(vec![0; 64], vec![Run::EMPTY; 4], vec![Run::EMPTY; 4], 0);
    /// assert_eq!(buffer.most_runs(), 4);
    /// ```
    #[must_use]
    pub fn most_runs(&self) -> usize
        ensures { result ≡ self.now.ranges.most_runs }
    {
        self.ranges.most_runs()
    }

    /// Returns the length of the bytes' storage.
    ///
    /// ```
    /// # use net_base::finite::SendBuffer;
    /// # use net_base::storage::Run;
    /// # let buffer = SendBuffer::new_at(vec![0; 64], vec![Run::EMPTY; 4], vec![Run::EMPTY; 4], 0);
    /// assert_eq!(buffer.capacity(), 64);
    /// ```
    #[must_use]
    pub fn capacity(&self) -> usize
        ensures { result ≡ self.now.sender.sender.capacity }
    {
        self.sender.capacity()
    }

    /// Returns how many bytes `write` would take.
    #[must_use]
    pub fn window(&self) -> usize
        ensures { result ≡ finite_room self.now.sender }
    {
        self.sender.window()
    }

    /// Returns whether the stream is closed, and all its bytes and the FIN are acknowledged.
    ///
    /// ```
    /// # use net_base::finite::SendBuffer;
    /// # use net_base::storage::Run;
    /// # let mut buffer = SendBuffer::new_at(vec![0; 64], vec![Run::EMPTY; 4], vec![Run::EMPTY; 4], 0);
    /// assert_eq!(buffer.write(b"abc"), 3);
    /// buffer.close();
    /// assert!(buffer.mark(0..4) && !buffer.is_done());
    /// assert!(buffer.acknowledge(0..4).is_ok());
    /// assert!(buffer.is_done());
    /// ```
    #[must_use]
    pub fn is_done(&self) -> bool
        ensures { result ≡ (self.now.sender.finished == 1) }
    {
        self.sender.is_closed_and_acknowledged()
    }

    /// Returns whether the stream is closed: it ends after what was written.
    #[must_use]
    pub fn is_closed(&self) -> bool
        ensures { result ≡ self.now.ranges.closed }
    {
        self.ranges.is_closed()
    }

    /// Returns the first position that isn't acknowledged, and the one after the last that was sent. A range from
    /// `next` that starts below the second is a retransmission.
    ///
    /// ```
    /// # use net_base::finite::SendBuffer;
    /// # use net_base::storage::Run;
    /// # let mut buffer = SendBuffer::new_at(vec![0; 64], vec![Run::EMPTY; 4], vec![Run::EMPTY; 4], 0);
    /// assert!(buffer.write(b"abc") == 3 && buffer.mark(0..3));
    /// assert_eq!(buffer.acknowledge(0..2).map(|it| it.freed), Ok(2));
    /// assert_eq!((buffer.numbers().first_unacknowledged, buffer.numbers().sent), (2, 3));
    /// ```
    #[must_use]
    pub fn numbers(&self) -> SentNumbers
        ensures first { result.first_unacknowledged ≡ front self.now.ranges.acknowledged }
        ensures sent { result.sent ≡ self.now.ranges.sent }
        ensures order { result.first_unacknowledged ≤ result.sent }
        ensures written { result.sent ≤ end_number self.now.ranges }
    {
        self.ranges.numbers()
    }

    /// Returns the position after the last byte, or after the FIN once the stream is closed.
    #[must_use]
    pub fn numbers_end(&self) -> u64
        ensures { result ≡ end_number self.now.ranges }
    {
        self.ranges.numbers_end()
    }

    /// Enqueues the first of these bytes, up to `window`, and returns how many.
    ///
    /// ```
    /// # use net_base::finite::SendBuffer;
    /// # use net_base::storage::Run;
    /// # let mut buffer = SendBuffer::new_at(vec![0; 64], vec![Run::EMPTY; 4], vec![Run::EMPTY; 4], 0);
    /// assert_eq!((buffer.write(&[7; 60]), buffer.write(&[7; 60])), (60, 4));
    /// ```
    #[must_use]
    pub fn write(&mut self, bytes: &[u8]) -> usize
        // Guarantee.
        ensures count { result ≡ min (length bytes.now) (finite_room self.old.sender) }
        ensures state { self.new ≡ record self.old {
          sender = sender_after_command self.old.sender (Writes bytes.now);
          ranges = record self.old.ranges { written = self.old.ranges.written + result };
        } }
    {
        let count = self.sender.write(bytes);
        let _ = self.ranges.write(count as u64);
        count
    }

    /// Ends the stream after what was written.
    ///
    /// ```
    /// # use net_base::finite::SendBuffer;
    /// # use net_base::storage::Run;
    /// # let mut buffer = SendBuffer::new_at(vec![0; 64], vec![Run::EMPTY; 4], vec![Run::EMPTY; 4], 0);
    /// assert_eq!(buffer.write(b"abc"), 3);
    /// buffer.close();
    /// // The FIN has a position too, and nothing is written after it.
    /// assert_eq!((buffer.numbers_end(), buffer.write(b"d")), (4, 0));
    /// // It is sent without bytes, if they were sent before.
    /// assert!(buffer.mark(0..3));
    /// assert_eq!(buffer.next(3, 8), Some(3..4));
    /// ```
    pub fn close(&mut self)
        ensures { self.new ≡ record self.old {
          sender = sender_after_command self.old.sender Closes;
          ranges = record self.old.ranges { closed = true };
        } }
    {
        self.sender.close();
        self.ranges.close();
    }

    /// Lends the bytes of a range in two parts. The result's `fin` is whether the stream ends after them. It lends none
    /// if the range begins below `numbers().first_unacknowledged`. Bytes acknowledged out of order are lent too.
    ///
    /// ```
    /// # use net_base::finite::SendBuffer;
    /// # use net_base::storage::Run;
    /// # let mut buffer = SendBuffer::new_at(vec![0; 64], vec![Run::EMPTY; 4], vec![Run::EMPTY; 4], 0);
    /// assert_eq!(buffer.write(b"abcdef"), 6);
    /// buffer.close();
    /// assert_eq!((buffer.bytes(2..5).front, buffer.bytes(2..5).fin), (&b"cde"[..], false));
    /// // The FIN's position is 6.
    /// assert_eq!((buffer.bytes(2..7).front, buffer.bytes(2..7).fin), (&b"cdef"[..], true));
    /// ```
    #[must_use]
    pub fn bytes(&self, range: Range<u64>) -> SegmentBytes<'_>
        ensures { IsSegment self.now.sender range.start range.end
            (result.front.now ++ result.back.now) result.fin }
    {
        self.sender.segment_bytes(range)
    }

    /// Returns how many positions are in flight: marked, not lost since, and not acknowledged. It goes once over the
    /// ranges in flight, and searches at each.
    ///
    /// ```
    /// # use net_base::finite::SendBuffer;
    /// # use net_base::storage::Run;
    /// # let mut buffer = SendBuffer::new_at(vec![0; 64], vec![Run::EMPTY; 4], vec![Run::EMPTY; 4], 0);
    /// assert!(buffer.write(&[7; 40]) == 40 && buffer.mark(0..30));
    /// assert!(buffer.acknowledge(8..16).is_ok() && buffer.lose(14..20));
    /// // 30 were sent, 8 are acknowledged, and 4 are lost.
    /// assert_eq!(buffer.in_flight(), 18);
    /// ```
    #[must_use]
    pub fn in_flight(&self) -> u64
        ensures { result ≡ flight_count self.now.ranges 0 self.now.ranges.sent }
    {
        self.ranges.in_flight()
    }

    /// Returns whether a position is acknowledged.
    ///
    /// ```
    /// # use net_base::finite::SendBuffer;
    /// # use net_base::storage::Run;
    /// # let mut buffer = SendBuffer::new_at(vec![0; 64], vec![Run::EMPTY; 4], vec![Run::EMPTY; 4], 0);
    /// assert!(buffer.write(&[7; 16]) == 16 && buffer.mark(0..16) && buffer.acknowledge(8..16).is_ok());
    /// assert!(!buffer.is_acknowledged(7) && buffer.is_acknowledged(8));
    /// ```
    #[must_use]
    pub fn is_acknowledged(&self, pos: u64) -> bool
        ensures { result ≡ contains self.now.ranges.acknowledged pos }
    {
        self.ranges.is_acknowledged(pos)
    }

    /// Returns whether a position is neither acknowledged nor in flight: it is lost, or was never sent.
    ///
    /// ```
    /// # use net_base::finite::SendBuffer;
    /// # use net_base::storage::Run;
    /// # let mut buffer = SendBuffer::new_at(vec![0; 64], vec![Run::EMPTY; 4], vec![Run::EMPTY; 4], 0);
    /// assert!(buffer.write(&[7; 16]) == 16 && buffer.mark(0..8));
    /// assert!(!buffer.is_open(0) && buffer.is_open(8));
    /// assert!(buffer.lose(0..8) && buffer.is_open(0));
    /// ```
    #[must_use]
    pub fn is_open(&self, pos: u64) -> bool
        ensures { result ≡ is_open self.now.ranges pos }
    {
        self.ranges.is_open(pos)
    }

    /// Returns the range to send next, as `SendRangesOver::next` does: what is lost, else what was never sent. All its
    /// bytes are below `limit`, such as QUIC's MAX_STREAM_DATA, and there are at most `size` of them (one, if that is
    /// 0). `None` if nothing below the limit is lost or unsent.
    ///
    /// ```
    /// # use net_base::finite::SendBuffer;
    /// # use net_base::storage::Run;
    /// # let mut buffer = SendBuffer::new_at(vec![0; 64], vec![Run::EMPTY; 4], vec![Run::EMPTY; 4], 0);
    /// assert_eq!(buffer.write(&[7; 12]), 12);
    /// let mut sent = vec![];
    /// while let Some(range) = buffer.next(10, 8) {
    ///     sent.push(range.clone());
    ///     assert!(buffer.mark(range));
    /// }
    /// assert_eq!(sent, [0..8, 8..10]);
    /// ```
    #[must_use]
    pub fn next(&self, limit: u64, size: usize) -> Option<Range<u64>>
        ensures some { IfSome result (λ r.
            IsNext self.now.ranges (data_top self.now.ranges limit) (max 1 size) r.start r.end) }
        ensures none { result ≡ None →
            NoneIsOpenBelow self.now.ranges (data_top self.now.ranges limit) }
    {
        self.ranges.next(limit, size)
    }

    /// Marks a range as sent: it is in flight, and no longer lost. Returns false, and changes nothing, if the range is
    /// empty or ends above `numbers_end`.
    ///
    /// Pass what `next` returned, or the first part of it: for that there is always room. If you mark a range above
    /// positions that were never sent, these count as lost. If there is no room for another range, what was lost or
    /// unsent stays so, and is sent again. The call doesn't report that: make room as [`SendRangesOver`] says.
    ///
    /// ```
    /// # use net_base::finite::SendBuffer;
    /// # use net_base::storage::Run;
    /// # let mut buffer = SendBuffer::new_at(vec![0; 64], vec![Run::EMPTY; 4], vec![Run::EMPTY; 4], 0);
    /// assert_eq!(buffer.write(&[7; 3]), 3);
    /// assert!(!buffer.mark(0..4)); // only 3 bytes were written
    /// assert!(!buffer.mark(2..2)); // nothing was sent
    /// assert!(buffer.mark(0..3));
    /// assert_eq!(buffer.numbers().sent, 3);
    /// ```
    #[must_use]
    pub fn mark(&mut self, range: Range<u64>) -> bool
        ensures accepted { result ≡ (nat_lt range.start range.end
            && nat_le range.end (end_number self.old.ranges)) }
        // Guarantee.
        ensures refused { IsFalse result → self.new ≡ self.old }
        ensures numbers { IsTrue result → self.new.ranges ≡ record self.old.ranges {
          sent = max self.old.ranges.sent range.end;
          settled = self.new.ranges.settled;
        } }
        ensures sender { IsTrue result →
            self.new.sender ≡ sender_after_command self.old.sender (Marks range.end) }
        ensures others { (p : ℕ) → IsFalse (is_within range.start range.end p) →
            is_open self.new.ranges p ≡ is_open self.old.ranges p }
        ensures sent { (p : ℕ) →
            IsTrue (is_open self.new.ranges p) → IsTrue (is_open self.old.ranges p) }
        ensures first { IsTrue result → NoneIsOpenBelow self.old.ranges range.start →
            NoneIsOpen self.new.ranges range.start range.end }
        ensures told { Told (IsMarked range.start range.end) self.old.ranges self.new.ranges }
        ensures room { IsTrue result →
            IsReport (front self.old.ranges.settled) range.end range.start range.end →
            (HasNoRoom self.old.ranges.most_runs self.old.ranges.settled range.start
            (range.end - range.start) → ⊥) → NoneIsOpen self.new.ranges range.start range.end }
    {
        let end = range.end;
        if !self.ranges.mark(range) {
            return false;
        }
        let _ = self.sender.mark_sent(end);
        true
    }

    /// Marks a range as acknowledged, when its packet is. Whether it was in flight or lost, none of it is sent again.
    /// The room of its bytes is free once all before them are acknowledged.
    ///
    /// A range that begins above the first unacknowledged position isn't remembered if that would make more than
    /// `most_runs` ranges: it is lost then, and `sent_again` is set. The same is true of a range that ends 2^32
    /// positions or more above that first one, where growing doesn't help. An old acknowledgement is no error: `new` is
    /// 0.
    ///
    /// ```
    /// # use net_base::finite::{NotSent, SendBuffer};
    /// # use net_base::storage::Run;
    /// # let mut buffer = SendBuffer::new_at(vec![0; 64], vec![Run::EMPTY; 4], vec![Run::EMPTY; 4], 0);
    /// assert!(buffer.write(&[7; 32]) == 32 && buffer.mark(0..32));
    /// // Ranges in any order.
    /// assert_eq!(buffer.acknowledge(8..16).map(|it| (it.new, it.freed)), Ok((8, 0)));
    /// assert_eq!(buffer.acknowledge(0..8).map(|it| (it.new, it.freed)), Ok((8, 16)));
    /// assert_eq!(buffer.acknowledge(4..12).map(|it| (it.new, it.freed)), Ok((0, 0)));
    /// assert_eq!(buffer.acknowledge(30..33), Err(NotSent));
    /// ```
    ///
    /// # Errors
    ///
    /// `NotSent`, and nothing changes, if the range ends above what was sent.
    pub fn acknowledge(&mut self, range: Range<u64>) -> Result<Acknowledged, NotSent>
        ensures refused { IsErr result ↔ (self.old.ranges.sent < range.end) }
        // Guarantee.
        ensures unchanged { IsErr result → self.new ≡ self.old }
        ensures none { range.end ≤ range.start → self.new ≡ self.old }
        ensures again { IfOk result (λ it. IsTrue it.sent_again ↔ ((range.start < range.end)
            × LacksRoom self.old.ranges.most_runs self.old.ranges.acknowledged
            range.start range.end)) }
        ensures new { IfOk result (λ it. it.new ≡ (if it.sent_again then 0 else
            missing_count self.old.ranges.acknowledged range.start (range.end - range.start))) }
        ensures freed { IfOk result (λ it. it.freed
            ≡ front self.new.ranges.acknowledged - front self.old.ranges.acknowledged) }
        ensures numbers { self.new.ranges ≡ record self.old.ranges {
          acknowledged = self.new.ranges.acknowledged;
          settled = self.new.ranges.settled;
        } }
        ensures sender { IfOk result (λ it. 0 < it.freed → self.new.sender
            ≡ sender_after_command self.old.sender
            (Acknowledges (front self.new.ranges.acknowledged))) }
        ensures stays { IfOk result (λ it. it.freed ≡ 0 → self.new.sender ≡ self.old.sender) }
        ensures taken { IfOk result (λ it. IsFalse it.sent_again → self.new.ranges.acknowledged
            ≡ with_range self.old.ranges.acknowledged range.start (range.end - range.start)) }
        ensures rest { IfOk result (λ it. IsFalse it.sent_again → (p : ℕ) →
            is_open self.new.ranges p
            ≡ (is_open self.old.ranges p && not (is_within range.start range.end p))) }
        ensures lost { IfOk result (λ it. IsTrue it.sent_again →
            Loses self.old.ranges range.start range.end self.new.ranges) }
        ensures told { Told IsOther self.old.ranges self.new.ranges }
    {
        match self.ranges.acknowledge(range) {
            Ok(said) => {
                if said.freed > 0 {
                    accept(&mut self.sender, self.ranges.numbers().first_unacknowledged);
                }
                Ok(said)
            }
            Err(error) => Err(error),
        }
    }

    /// Marks a range as lost, when loss detection says so of its packet (RFC 9002, section 6): what isn't acknowledged
    /// of it is sent again. Ranges may be lost in any order. Returns false, and changes nothing, if the range ends
    /// above what was sent.
    ///
    /// A loss in the middle of a range in flight leaves two ranges. If there is no room for one more, some of what is
    /// in flight beside it is lost too. The call doesn't report that: make room as [`SendRangesOver`] says.
    ///
    /// ```
    /// # use net_base::finite::SendBuffer;
    /// # use net_base::storage::Run;
    /// # let mut buffer = SendBuffer::new_at(vec![0; 64], vec![Run::EMPTY; 4], vec![Run::EMPTY; 4], 0);
    /// assert!(buffer.write(&[7; 40]) == 40 && buffer.mark(0..40));
    /// assert!(buffer.lose(30..40) && buffer.lose(8..16) && !buffer.lose(30..41));
    /// let range = buffer.next(u64::MAX, 100).expect("what was lost");
    /// assert!(range == (8..16) && buffer.mark(range));
    /// assert_eq!(buffer.next(u64::MAX, 100), Some(30..40));
    /// ```
    #[must_use]
    pub fn lose(&mut self, range: Range<u64>) -> bool
        ensures accepted { result ≡ nat_le range.end self.old.ranges.sent }
        // Guarantee.
        ensures refused { IsFalse result → self.new ≡ self.old }
        ensures sender { self.new.sender ≡ self.old.sender }
        ensures none { range.end ≤ range.start → self.new ≡ self.old }
        ensures lost { IsTrue result → Loses self.old.ranges range.start range.end self.new.ranges }
        ensures told { IsTrue result →
            Told (IsLost range.start range.end) self.old.ranges self.new.ranges }
    {
        self.ranges.lose(range)
    }

    /// Loses all that was sent and isn't acknowledged.
    ///
    /// ```
    /// # use net_base::finite::SendBuffer;
    /// # use net_base::storage::Run;
    /// # let mut buffer = SendBuffer::new_at(vec![0; 64], vec![Run::EMPTY; 4], vec![Run::EMPTY; 4], 0);
    /// assert!(buffer.write(&[7; 32]) == 32 && buffer.mark(0..32));
    /// assert!(buffer.acknowledge(8..16).is_ok());
    /// assert_eq!(buffer.next(u64::MAX, 100), None);
    /// buffer.lose_all();
    /// assert_eq!(buffer.next(u64::MAX, 100), Some(0..8));
    /// ```
    pub fn lose_all(&mut self)
        ensures others { self.new ≡ record self.old {
          ranges = record self.old.ranges { settled = self.new.ranges.settled };
        } }
        ensures lost { (p : ℕ) →
            is_open self.new.ranges p ≡ not (contains self.old.ranges.acknowledged p) }
        ensures told { Told AllLost self.old.ranges self.new.ranges }
    {
        self.ranges.lose_all();
    }
}

/// Has a sender take an acknowledgement of all below `ack`.
fn accept<S: Storage<u8>>(sender: &mut FiniteSenderOver<S>, ack: u64)
    requires low { first_number sender.old ≤ ack }
    requires high { ack ≤ sender.old.sent }
    ensures first { first_number sender.new ≡ ack }
    ensures sent { sender.new.sent ≡ sender.old.sent }
    ensures step { sender.new ≡ sender_after_command sender.old (Acknowledges ack) }
{
    let _ = sender.acknowledge(ack);
}

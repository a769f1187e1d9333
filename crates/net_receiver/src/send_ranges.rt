//! Which positions of a stream that ends are acknowledged, in flight and lost, where each range that was sent is
//! answered for by itself, as in QUIC.
//!
//! ```text
//!   acknowledged  |  acknowledged, in flight or lost  |  written, never sent
//!               first                               sent                     end
//! ```
//!
//! Two sets of numbers are kept. What is `settled` was sent, and not lost since; what of it isn't acknowledged is in
//! flight. A number that neither set has is open: below `sent` it is lost, and else it was never sent.

// Why: Where a set has no room for one more run, a range isn't added, or more is taken out. Both make more numbers
// open, and never fewer. So no number is forgotten, whatever the number of runs: at worst it is sent twice. What `next`
// returns is the first that is open, so all below it may be settled with it, which takes no run: `mark` of that is
// never refused, and a loop over `next` ends.
#![tactic(auto, using(crate::proofs::SendRanges::buffers))]

ghost use Rattle.std.specs.Prelude.{◌≡◌, ◌↔◌, ◌-◌, ◌+◌, ◌<◌, ◌≤◌, ◌&&◌, ◌||◌, ◌==◌, ℕ, None, IsTrue, IsFalse, IfSome};
ghost use Rattle.std.specs.Prelude.{IsErr, IfOk, min, max, length, not, nat_le, nat_lt, true, if◌then◌else◌, ◌≢◌};
ghost use Rattle.net_assembler.specs.Positions.{contains, front, missing_count, with_range};
ghost use Rattle.net_receiver.specs.Finite.{no_end};
ghost use Rattle.net_receiver.specs.Scoreboards.{HasNoRoom, IsReport};
ghost use Rattle.net_receiver.specs.SendRanges.{new_ranges, end_number, is_open, is_within, data_top, IsNext, Loses};
ghost use Rattle.net_receiver.specs.SendRanges.{LacksRoom, NoneIsOpen, NoneIsOpenBelow};
ghost use Rattle.net_receiver.specs.SendRanges.{Told, IsMarked, IsLost, AllLost, IsOther, flight_count};

use crate::board::Board;
use crate::sent_numbers::SentNumbers;
use net_assembler::Run;
use net_ring::{ManagedSlice, Storage};
use std::marker::Model;
use std::ops::Range;
use thiserror::Error;

/// What an acknowledgement changed.
///
/// ```
/// use net_base::finite::{Acknowledged, NotSent, SendRanges};
/// use net_base::storage::Run;
///
/// // One range can be remembered above the first position that isn't acknowledged.
/// let mut ranges = SendRanges::new_at(vec![Run::EMPTY; 1], vec![Run::EMPTY; 1], 0);
/// assert!(ranges.write(40) == 40 && ranges.mark(0..40));
/// let said = ranges.acknowledge(10..20);
/// assert_eq!(said, Ok(Acknowledged { new: 10, freed: 0, sent_again: false }));
/// // Five of these ten were known.
/// assert_eq!(ranges.acknowledge(15..25).map(|it| it.new), Ok(5));
/// let said = ranges.acknowledge(30..40);
/// assert_eq!(said, Ok(Acknowledged { new: 0, freed: 0, sent_again: true }));
/// assert_eq!(ranges.next(u64::MAX, 100), Some(30..40));
/// assert_eq!(ranges.acknowledge(0..10).map(|it| (it.new, it.freed)), Ok((10, 25)));
/// assert_eq!(ranges.acknowledge(30..41), Err(NotSent));
/// ```
#[derive(Copy, Clone, Debug, PartialEq, Eq)]
pub struct Acknowledged {
    /// How many positions of the range weren't acknowledged before, the FIN's included. It is 0 if the acknowledgement
    /// is an old one, or if the range is sent again.
    pub new: u64,
    /// By how many positions `numbers().first_unacknowledged` rose. The bytes there needn't be kept any longer. The
    /// FIN's position, which may be among them, has no byte.
    pub freed: u64,
    /// True if there was no room to remember the range. It counts as lost then: `next` returns it again, even if the
    /// stream waited only for acknowledgements. A caller whose storages can grow may call `grow_runs`, and
    /// `acknowledge` again. That doesn't help if the range ends 2^32 positions or more above the first unacknowledged
    /// one.
    pub sent_again: bool,
}

/// The acknowledged range ends above what was sent: no such packet was sent, or `mark` had another range for it.
/// Nothing changes.
///
/// ```
/// use net_base::finite::{NotSent, SendRanges};
/// use net_base::storage::Run;
///
/// let mut ranges = SendRanges::new_at(vec![Run::EMPTY; 1], vec![Run::EMPTY; 1], 0);
/// assert_eq!(ranges.acknowledge(0..1), Err(NotSent));
/// ```
#[derive(Copy, Clone, Debug, PartialEq, Eq, Hash, Drop, Error)]
#[error("the range ends above what was sent: pass a range that was marked")]
pub struct NotSent;

/// A [`SendRanges`] over any storages.
///
/// It knows which positions of a stream are acknowledged, in flight and lost; the program keeps the bytes. A position
/// is the number of a byte in its stream, 64 bits. The FIN of a closed stream has the position after the last byte's.
/// `mark`, `acknowledge` and `lose` take ranges of positions in any order. Loss detection, timers, windows and packet
/// sizes are the connection's. `next` returns what is lost, and then what was never sent. (Not in smoltcp.)
///
/// There are two storages of ranges, which names call *runs*, with room for `most_runs` each. `acknowledged` stores
/// ranges that were acknowledged out of order, and `sent` stores ranges in flight above the first lost byte. Where one
/// has no room, some positions are sent twice, but none is forgotten: each is acknowledged, in flight, or offered again
/// by `next`. With no room at all, a loss or an acknowledgement out of order loses all that was sent from there on.
///
/// Room for half as many ranges as packets sent from the first unacknowledged byte on is always enough, and mostly less
/// is. If the storages can grow, make room before the first packet is lost or is acknowledged out of order. Count the
/// calls of `lose` since `next` last returned new bytes or `None`, and grow before there are more of them than
/// `most_runs`. If `acknowledge` sets `sent_again`, grow, and call it once more.
///
/// No call allocates.
pub struct SendRangesOver<R: Storage<Run>> {
    acknowledged: Board<R>,
    settled: Board<R>,
    written: u64,
    sent: u64,
    closed: bool,
}

/// Which bytes of a QUIC stream are acknowledged, in flight and lost, for a program that keeps the bytes itself. Its
/// storages are lent or owned, and its calls are those of [`SendRangesOver`].
///
/// ```
/// use net_base::finite::SendRanges;
/// use net_base::storage::Run;
///
/// // A stream of QUIC, whose bytes are kept elsewhere. Its peer's MAX_STREAM_DATA is 19, and a frame has room for
/// // 8 bytes.
/// let text = b"nineteen bytes here";
/// let mut ranges = SendRanges::new_at(vec![Run::EMPTY; 4], vec![Run::EMPTY; 4], 0);
/// assert_eq!(ranges.write(19), 19);
/// ranges.close();
/// let mut frames = Vec::new();
/// while let Some(range) = ranges.next(19, 8) {
///     let bytes = &text[range.start as usize..range.end.min(19) as usize];
///     frames.push((range.start, bytes, range.end > 19));
///     assert!(ranges.mark(range));
/// }
/// assert_eq!(frames[0], (0, &b"nineteen"[..], false));
/// assert_eq!(frames[2], (16, &b"ere"[..], true)); // range 16..20: the FIN's position is 19
/// // The packet of the first frame is lost, and those of the others are acknowledged.
/// assert!(ranges.lose(0..8));
/// assert_eq!(ranges.acknowledge(8..20).map(|it| it.new), Ok(12));
/// assert_eq!((ranges.in_flight(), ranges.next(19, 8)), (0, Some(0..8)));
/// assert!(ranges.mark(0..8));
/// assert_eq!(ranges.acknowledge(0..8).map(|it| it.freed), Ok(20));
/// assert!(ranges.is_done());
/// ```
pub type SendRanges<'a> = SendRangesOver<ManagedSlice<'a, Run>>;

/// Contracts see the numbers and both sets.
impl<R: Storage<Run>> Model for SendRangesOver<R> {
    ghost use Rattle.std.specs.Coded.{codes};
    ghost use Rattle.std.specs.Prelude.{◌≡◌};
    ghost use Rattle.net_receiver.specs.SendRanges.{RangesState, IsSoundRanges, positions_code, ranges_of};

    ghost Value = { RangesState };

    ghost coded = { Prim.hlevel (codes, positions_code) };

    ghost view = { λ b. ranges_of b.acknowledged b.settled.positions b.written b.sent b.closed };

    ghost invariant = { λ b. (b.settled.most_runs ≡ b.acknowledged.most_runs) × IsSoundRanges
        (ranges_of b.acknowledged b.settled.positions b.written b.sent b.closed) };
}

/// Written by hand, so that storage that isn't `Drop` can be used too.
impl<R: Storage<Run> + Drop> Drop for SendRangesOver<R> {
    fn drop(self) {
        let SendRangesOver {
            acknowledged,
            settled,
            written: _,
            sent: _,
            closed: _,
        } = self;
        drop(acknowledged);
        drop(settled);
    }
}

impl<R: Storage<Run>> SendRangesOver<R> {
    /// Returns the ranges of a stream that begins at position `first`, to which nothing was written. `acknowledged`
    /// stores ranges that were acknowledged out of order. `sent` stores ranges in flight above the first lost byte, so
    /// it is empty until something is lost. Both have room for the same number of ranges.
    ///
    /// ```
    /// # use net_base::finite::SendRangesOver;
    /// # use net_base::storage::Run;
    /// let ranges = SendRangesOver::over_at([Run::EMPTY; 4], [Run::EMPTY; 4], 100);
    /// assert_eq!((ranges.most_runs(), ranges.numbers_end()), (4, 100));
    /// ```
    ///
    /// # Requires
    ///
    /// Both storages have the same length, which may be 0, and `first` is below `u64::MAX`: no stream can end there.
    #[must_use]
    #[track_caller]
    pub fn over_at(acknowledged: R, sent: R, first: u64) -> Self
        requires runs { length (R.elements sent) ≡ length (R.elements acknowledged) }
        requires end { first < no_end }
        ensures { result ≡ new_ranges (length (R.elements acknowledged)) first }
    {
        prove!(sent.count() == acknowledged.count(), "two numbers of runs");
        prove!(first < u64::MAX, "no number is left for an end");
        SendRangesOver {
            acknowledged: Board::over_at(acknowledged, first),
            settled: Board::over_at(sent, first),
            written: first,
            sent: first,
            closed: false,
        }
    }

    /// Returns both storages, `acknowledged` and then `sent`. Their contents are unspecified.
    ///
    /// ```
    /// # use net_base::finite::SendRangesOver;
    /// # use net_base::storage::Run;
    /// let ranges = SendRangesOver::over_at([Run::EMPTY; 4], [Run::EMPTY; 4], 100);
    /// assert_eq!(ranges.into_storages().0.len(), 4);
    /// ```
    #[must_use]
    pub fn into_storages(self) -> (R, R)
        ensures acknowledged { length (R.elements result.0) ≡ self.most_runs }
        ensures sent { length (R.elements result.1) ≡ self.most_runs }
    {
        let SendRangesOver {
            acknowledged,
            settled,
            written: _,
            sent: _,
            closed: _,
        } = self;
        (acknowledged.into_storage(), settled.into_storage())
    }

    /// Begins again over the same storages: a stream that begins at position `first`, to which nothing was written.
    ///
    /// ```
    /// # use net_base::finite::SendRanges;
    /// # use net_base::storage::Run;
    /// # let mut ranges = SendRanges::new_at(vec![Run::EMPTY; 4], vec![Run::EMPTY; 4], 0);
    /// assert_eq!(ranges.write(3), 3);
    /// ranges.reset_at(100);
    /// assert_eq!((ranges.numbers().sent, ranges.numbers_end()), (100, 100));
    /// ```
    ///
    /// # Requires
    ///
    /// `first` is below `u64::MAX`: no stream can end there.
    #[track_caller]
    pub fn reset_at(&mut self, first: u64)
        requires { first < no_end }
        ensures { self.new ≡ new_ranges self.old.most_runs first }
    {
        prove!(first < u64::MAX, "no number is left for an end");
        self.acknowledged.reset_at(first);
        self.settled.reset_at(first);
        self.written = first;
        self.sent = first;
        self.closed = false;
    }

    /// Moves the ranges to larger storages, and returns the old ones, whose contents are unspecified. What is
    /// acknowledged, in flight and lost stays so.
    ///
    /// ```
    /// # use net_base::finite::SendRanges;
    /// # use net_base::storage::Run;
    /// let mut ranges = SendRanges::new_at(vec![], vec![], 0);
    /// assert!(ranges.write(40) == 40 && ranges.mark(0..40));
    /// // There is no room for a range, so what is acknowledged out of order is sent again.
    /// assert!(ranges.acknowledge(8..16).is_ok_and(|it| it.sent_again) && ranges.mark(8..40));
    /// ranges.grow_runs(vec![Run::EMPTY; 4].into(), vec![Run::EMPTY; 4].into());
    /// assert_eq!(ranges.acknowledge(8..16).map(|it| it.new), Ok(8));
    /// ```
    ///
    /// # Requires
    ///
    /// Both storages have the same length, which is at least `most_runs`.
    #[track_caller]
    pub fn grow_runs(&mut self, acknowledged: R, sent: R) -> (R, R)
        requires runs { length (R.elements sent) ≡ length (R.elements acknowledged) }
        requires more { self.old.most_runs ≤ length (R.elements acknowledged) }
        ensures state { self.new
            ≡ record self.old { most_runs = length (R.elements acknowledged) } }
        ensures acknowledged { length (R.elements result.0) ≡ self.old.most_runs }
        ensures sent { length (R.elements result.1) ≡ self.old.most_runs }
    {
        prove!(sent.count() == acknowledged.count(), "two numbers of runs");
        prove!(acknowledged.count() >= self.most_runs(), "fewer runs");
        (
            self.acknowledged.grow(acknowledged),
            self.settled.grow(sent),
        )
    }

    /// Returns how many ranges each storage has room for.
    ///
    /// ```
    /// # use net_base::finite::SendRanges;
    /// # use net_base::storage::Run;
    /// # let ranges = SendRanges::new_at(vec![Run::EMPTY; 4], vec![Run::EMPTY; 4], 0);
    /// assert_eq!(ranges.most_runs(), 4);
    /// ```
    #[must_use]
    pub fn most_runs(&self) -> usize
        ensures { result ≡ self.now.most_runs }
    {
        self.acknowledged.most_runs()
    }

    /// Returns whether the stream is closed, and all its bytes and the FIN are acknowledged.
    ///
    /// ```
    /// # use net_base::finite::SendRanges;
    /// # use net_base::storage::Run;
    /// # let mut ranges = SendRanges::new_at(vec![Run::EMPTY; 4], vec![Run::EMPTY; 4], 0);
    /// assert_eq!(ranges.write(3), 3);
    /// ranges.close();
    /// assert!(ranges.mark(0..4) && !ranges.is_done());
    /// assert!(ranges.acknowledge(0..4).is_ok() && ranges.is_done());
    /// ```
    #[must_use]
    pub fn is_done(&self) -> bool
        ensures { result
            ≡ (self.now.closed && nat_lt self.now.written (front self.now.acknowledged)) }
    {
        self.closed && self.acknowledged.first_unreported() > self.written
    }

    /// Returns whether the stream is closed: it ends after what was written.
    #[must_use]
    pub fn is_closed(&self) -> bool
        ensures { result ≡ self.now.closed }
    {
        self.closed
    }

    /// Returns the first position that isn't acknowledged, and the one after the last that was sent. A range from
    /// `next` that starts below the second is a retransmission.
    ///
    /// ```
    /// # use net_base::finite::SendRanges;
    /// # use net_base::storage::Run;
    /// # let mut ranges = SendRanges::new_at(vec![Run::EMPTY; 4], vec![Run::EMPTY; 4], 0);
    /// assert!(ranges.write(3) == 3 && ranges.mark(0..3));
    /// assert_eq!(ranges.acknowledge(0..2).map(|it| it.freed), Ok(2));
    /// assert_eq!((ranges.numbers().first_unacknowledged, ranges.numbers().sent), (2, 3));
    /// ```
    #[must_use]
    pub fn numbers(&self) -> SentNumbers
        ensures first { result.first_unacknowledged ≡ front self.now.acknowledged }
        ensures sent { result.sent ≡ self.now.sent }
        ensures order { result.first_unacknowledged ≤ result.sent }
        ensures written { result.sent ≤ end_number self.now }
    {
        SentNumbers {
            first_unacknowledged: self.acknowledged.first_unreported(),
            sent: self.sent,
        }
    }

    /// Returns how many positions are in flight: marked, not lost since, and not acknowledged. It goes once over the
    /// ranges in flight, and searches at each.
    ///
    /// ```
    /// # use net_base::finite::SendRanges;
    /// # use net_base::storage::Run;
    /// # let mut ranges = SendRanges::new_at(vec![Run::EMPTY; 4], vec![Run::EMPTY; 4], 0);
    /// assert!(ranges.write(40) == 40 && ranges.mark(0..30));
    /// assert!(ranges.acknowledge(8..16).is_ok() && ranges.lose(14..20));
    /// // 30 were sent, 8 are acknowledged, and 4 are lost.
    /// assert_eq!(ranges.in_flight(), 18);
    /// ```
    #[must_use]
    #[tactic(auto, using(crate::proofs::SendRanges::flights))]
    pub fn in_flight(&self) -> u64
        ensures { result ≡ flight_count self.now 0 self.now.sent }
    {
        let mut pos = self.acknowledged.first_unreported();
        let mut count = 0;
        while pos < self.sent {
            let end = hole_start(&self.settled, pos, self.sent);
            count += self.acknowledged.missing_between(pos..end);
            pos = if end < self.sent {
                hole_end(&self.settled, end, self.sent)
            } else {
                end
            };
        }
        count
    }

    /// Returns the position after the last byte, or after the FIN once the stream is closed.
    #[must_use]
    pub fn numbers_end(&self) -> u64
        ensures { result ≡ end_number self.now }
    {
        self.written + u64::from(self.closed)
    }

    /// Returns whether a range has the FIN, as a frame with the FIN bit does: the stream is closed, and the range ends
    /// above the FIN's position. Then all its other positions have bytes.
    ///
    /// ```
    /// # use net_base::finite::SendRanges;
    /// # use net_base::storage::Run;
    /// # let mut ranges = SendRanges::new_at(vec![Run::EMPTY; 4], vec![Run::EMPTY; 4], 0);
    /// assert_eq!(ranges.write(12), 12);
    /// ranges.close();
    /// assert!(!ranges.has_fin(&(0..8)) && !ranges.has_fin(&(8..12)) && ranges.has_fin(&(8..13)));
    /// ```
    #[must_use]
    pub fn has_fin(&self, range: &Range<u64>) -> bool
        ensures { result ≡ (self.now.closed && nat_lt self.now.written range.now.end) }
    {
        self.closed && self.written < range.end
    }

    /// Returns the position after the last byte that was sent: the final size of a stream that is reset now.
    ///
    /// ```
    /// # use net_base::finite::SendRanges;
    /// # use net_base::storage::Run;
    /// # let mut ranges = SendRanges::new_at(vec![Run::EMPTY; 4], vec![Run::EMPTY; 4], 0);
    /// assert!(ranges.write(12) == 12 && ranges.mark(0..8));
    /// assert_eq!(ranges.final_size(), 8);
    /// ranges.close();
    /// assert!(ranges.mark(8..13));
    /// assert_eq!(ranges.final_size(), 12); // the FIN is no byte
    /// ```
    #[must_use]
    pub fn final_size(&self) -> u64
        ensures { result ≡ min self.now.sent self.now.written }
    {
        self.sent.min(self.written)
    }

    /// Notes that `count` bytes were written, and returns how many have positions: all that fit 64 bits, and none once
    /// the stream is closed.
    ///
    /// ```
    /// # use net_base::finite::SendRanges;
    /// # use net_base::storage::Run;
    /// # let mut ranges = SendRanges::new_at(vec![Run::EMPTY; 4], vec![Run::EMPTY; 4], 0);
    /// assert_eq!((ranges.write(60), ranges.write(4), ranges.numbers_end()), (60, 4, 64));
    /// assert_eq!(ranges.write(u64::MAX), u64::MAX - 65); // the FIN has a position too
    /// ```
    #[must_use]
    pub fn write(&mut self, count: u64) -> u64
        ensures count { result
            ≡ if self.old.closed then 0 else min count (no_end - 1 - self.old.written) }
        ensures state { self.new ≡ record self.old { written = self.old.written + result } }
        ensures told { Told IsOther self.old self.new }
    {
        if self.closed {
            return 0;
        }
        let count = count.min(u64::MAX - 1 - self.written);
        self.written += count;
        count
    }

    /// Ends the stream after what was written.
    ///
    /// ```
    /// # use net_base::finite::SendRanges;
    /// # use net_base::storage::Run;
    /// # let mut ranges = SendRanges::new_at(vec![Run::EMPTY; 4], vec![Run::EMPTY; 4], 0);
    /// assert_eq!(ranges.write(3), 3);
    /// ranges.close();
    /// // The FIN has a position too, and nothing is written after it.
    /// assert_eq!((ranges.numbers_end(), ranges.write(1)), (4, 0));
    /// // It is sent without bytes, if they were sent before.
    /// assert!(ranges.mark(0..3));
    /// assert_eq!(ranges.next(3, 8), Some(3..4));
    /// ```
    pub fn close(&mut self)
        ensures state { self.new ≡ record self.old { closed = true } }
        ensures told { Told IsOther self.old self.new }
    {
        self.closed = true;
    }

    /// Returns whether a position is acknowledged.
    ///
    /// ```
    /// # use net_base::finite::SendRanges;
    /// # use net_base::storage::Run;
    /// # let mut ranges = SendRanges::new_at(vec![Run::EMPTY; 4], vec![Run::EMPTY; 4], 0);
    /// assert!(ranges.write(16) == 16 && ranges.mark(0..16) && ranges.acknowledge(8..16).is_ok());
    /// assert!(!ranges.is_acknowledged(7) && ranges.is_acknowledged(8));
    /// ```
    #[must_use]
    pub fn is_acknowledged(&self, pos: u64) -> bool
        ensures { result ≡ contains self.now.acknowledged pos }
    {
        self.acknowledged.contains(pos)
    }

    /// Returns whether a position is neither acknowledged nor in flight: it is lost, or was never sent.
    ///
    /// ```
    /// # use net_base::finite::SendRanges;
    /// # use net_base::storage::Run;
    /// # let mut ranges = SendRanges::new_at(vec![Run::EMPTY; 4], vec![Run::EMPTY; 4], 0);
    /// assert!(ranges.write(16) == 16 && ranges.mark(0..8));
    /// assert!(!ranges.is_open(0) && ranges.is_open(8));
    /// assert!(ranges.lose(0..8) && ranges.is_open(0));
    /// ```
    #[must_use]
    pub fn is_open(&self, pos: u64) -> bool
        ensures { result ≡ is_open self.now pos }
    {
        !self.acknowledged.contains(pos) && !self.settled.contains(pos)
    }

    /// Returns the first open number below `limit`, or one that isn't below.
    fn first_open(&self, limit: u64) -> u64
        ensures before { (p : ℕ) → p < result → p < limit → IsFalse (is_open self.now p) }
        ensures here { result < limit → IsTrue (is_open self.now result) }
    {
        let mut pos = self.settled.first_unreported();
        if pos >= self.sent {
            // Nothing is lost.
            return self.sent;
        }
        while pos < limit {
            let next = next_open(&self.acknowledged, &self.settled, pos, limit);
            if next == pos {
                return pos;
            }
            pos = next;
        }
        pos
    }

    /// Returns the range to send next: what is lost, else what was never sent. All its bytes are below `limit`, such as
    /// QUIC's MAX_STREAM_DATA, and there are at most `size` of them (one, if that is 0). `None` if nothing below the
    /// limit is lost or unsent.
    ///
    /// The FIN of a closed stream comes with the last bytes, or alone if these were sent before. It counts neither
    /// towards `size` nor towards `limit`. No range has both lost and new bytes. A loop that marks what `next` returns
    /// ends.
    ///
    /// ```
    /// # use net_base::finite::SendRanges;
    /// # use net_base::storage::Run;
    /// # let mut ranges = SendRanges::new_at(vec![Run::EMPTY; 4], vec![Run::EMPTY; 4], 0);
    /// assert_eq!(ranges.write(12), 12);
    /// let mut sent = vec![];
    /// while let Some(range) = ranges.next(10, 8) {
    ///     sent.push(range.clone());
    ///     assert!(ranges.mark(range));
    /// }
    /// assert_eq!(sent, [0..8, 8..10]);
    /// ```
    #[must_use]
    #[tactic(auto, using(crate::proofs::SendRanges::next))]
    pub fn next(&self, limit: u64, size: usize) -> Option<Range<u64>>
        ensures some { IfSome result (λ r.
            IsNext self.now (data_top self.now limit) (max 1 size) r.start r.end) }
        ensures none { result ≡ None → NoneIsOpenBelow self.now (data_top self.now limit) }
        // Guarantee.
        ensures range { IfSome result (λ range. (range.start < range.end)
            × (range.end ≤ end_number self.now)) }
        // Guarantee.
        ensures rest { (p : ℕ) → result ≡ None → p < limit → p < end_number self.now →
            IsFalse (is_open self.now p) }
    {
        let end = self.written;
        let top = if end <= limit {
            self.numbers_end()
        } else {
            limit
        };
        let from = self.first_open(top);
        if from >= top {
            return None;
        }
        let to = self.open_end(from, top);
        Some(from..with_room(from, to, size, end))
    }

    /// Returns where the open numbers from an open one on end, that are all lost or were all never sent.
    fn open_end(&self, from: u64, top: u64) -> u64
        requires below { from < top }
        requires open { IsTrue (is_open self.now from) }
        ensures some { from < result }
        ensures within { result ≤ top }
        ensures all_open { (p : ℕ) → from ≤ p → p < result → IsTrue (is_open self.now p) }
        ensures one_kind { from < self.now.sent → result ≤ self.now.sent }
        ensures whole { result < top → IsTrue (is_open self.now result) → result ≡ self.now.sent }
    {
        let sent = self.sent;
        if from >= sent {
            return top;
        }
        let top = sent.min(top);
        let known = hole_end(&self.acknowledged, from, top);
        hole_end(&self.settled, from, known)
    }

    /// Marks a range as sent: it is in flight, and no longer lost. Returns false, and changes nothing, if the range is
    /// empty or ends above `numbers_end`.
    ///
    /// Pass what `next` returned, or the first part of it: for that there is always room. If you mark a range above
    /// positions that were never sent, these count as lost. If there is no room for another range, what was lost or
    /// unsent stays so, and is sent again. The call doesn't report that: make room as [`SendRangesOver`] says.
    ///
    /// ```
    /// # use net_base::finite::SendRanges;
    /// # use net_base::storage::Run;
    /// # let mut ranges = SendRanges::new_at(vec![Run::EMPTY; 4], vec![Run::EMPTY; 4], 0);
    /// assert_eq!(ranges.write(3), 3);
    /// assert!(!ranges.mark(0..4)); // only 3 bytes were written
    /// assert!(!ranges.mark(2..2)); // nothing was sent
    /// assert!(ranges.mark(0..3));
    /// assert_eq!(ranges.numbers().sent, 3);
    /// ```
    #[must_use]
    pub fn mark(&mut self, range: Range<u64>) -> bool
        ensures accepted { result ≡ (nat_lt range.start range.end
            && nat_le range.end (end_number self.old)) }
        // Guarantee.
        ensures refused { IsFalse result → self.new ≡ self.old }
        ensures numbers { IsTrue result → self.new ≡ record self.old {
          sent = max self.old.sent range.end;
          settled = self.new.settled;
        } }
        ensures others { (p : ℕ) → IsFalse (is_within range.start range.end p) →
            is_open self.new p ≡ is_open self.old p }
        // Guarantee.
        ensures sent { (p : ℕ) → IsTrue (is_open self.new p) → IsTrue (is_open self.old p) }
        ensures first { IsTrue result → NoneIsOpenBelow self.old range.start →
            NoneIsOpen self.new range.start range.end }
        ensures told { Told (IsMarked range.start range.end) self.old self.new }
        ensures room { IsTrue result →
            IsReport (front self.old.settled) range.end range.start range.end →
            (HasNoRoom self.old.most_runs self.old.settled range.start
            (range.end - range.start) → ⊥) → NoneIsOpen self.new range.start range.end }
    {
        if range.start >= range.end {
            return false;
        }
        if range.end > self.numbers_end() {
            return false;
        }
        let is_first = self.first_open(range.start) >= range.start;
        self.sent = self.sent.max(range.end);
        if is_first {
            self.settled.acknowledge(range.end);
        } else {
            add(&mut self.settled, range.start, range.end);
        }
        true
    }

    /// Marks a range as acknowledged, when its packet is. Whether it was in flight or lost, none of it is sent again.
    ///
    /// A range that begins above the first unacknowledged position isn't remembered if that would make more than
    /// `most_runs` ranges: it is lost then, and `sent_again` is set. The same is true of a range that ends 2^32
    /// positions or more above that first one, where growing doesn't help. An old acknowledgement is no error: `new` is
    /// 0.
    ///
    /// ```
    /// # use net_base::finite::{NotSent, SendRanges};
    /// # use net_base::storage::Run;
    /// # let mut ranges = SendRanges::new_at(vec![Run::EMPTY; 4], vec![Run::EMPTY; 4], 0);
    /// assert!(ranges.write(32) == 32 && ranges.mark(0..32));
    /// // Ranges in any order.
    /// assert_eq!(ranges.acknowledge(8..16).map(|it| (it.new, it.freed)), Ok((8, 0)));
    /// assert_eq!(ranges.acknowledge(0..8).map(|it| (it.new, it.freed)), Ok((8, 16)));
    /// assert_eq!(ranges.acknowledge(4..12).map(|it| (it.new, it.freed)), Ok((0, 0)));
    /// assert_eq!(ranges.acknowledge(30..33), Err(NotSent));
    /// ```
    ///
    /// # Errors
    ///
    /// `NotSent`, and nothing changes, if the range ends above what was sent.
    #[tactic(auto, using(crate::proofs::SendRanges::loses))]
    pub fn acknowledge(&mut self, range: Range<u64>) -> Result<Acknowledged, NotSent>
        // Guarantee.
        ensures refused { IsErr result ↔ (self.old.sent < range.end) }
        // Guarantee.
        ensures unchanged { IsErr result → self.new ≡ self.old }
        ensures none { range.end ≤ range.start → self.new ≡ self.old }
        ensures again { IfOk result (λ it. IsTrue it.sent_again ↔ ((range.start < range.end)
            × LacksRoom self.old.most_runs self.old.acknowledged range.start range.end)) }
        ensures new { IfOk result (λ it. it.new ≡ (if it.sent_again then 0
            else missing_count self.old.acknowledged range.start (range.end - range.start))) }
        ensures grows { front self.old.acknowledged ≤ front self.new.acknowledged }
        ensures freed { IfOk result (λ it. it.freed
            ≡ front self.new.acknowledged - front self.old.acknowledged) }
        ensures numbers { self.new ≡ record self.old {
          acknowledged = self.new.acknowledged;
          settled = self.new.settled;
        } }
        ensures taken { IfOk result (λ it. IsFalse it.sent_again → self.new.acknowledged
            ≡ with_range self.old.acknowledged range.start (range.end - range.start)) }
        ensures rest { IfOk result (λ it. IsFalse it.sent_again → (p : ℕ) →
            is_open self.new p ≡ (is_open self.old p && not (is_within range.start range.end p))) }
        ensures lost { IfOk result (λ it. IsTrue it.sent_again →
            Loses self.old range.start range.end self.new) }
        ensures told { Told IsOther self.old self.new }
    {
        if self.sent < range.end {
            return Err(NotSent);
        }
        if range.start >= range.end {
            return Ok(Acknowledged {
                new: 0,
                freed: 0,
                sent_again: false,
            });
        }
        let first = self.acknowledged.first_unreported();
        let new = self.acknowledged.missing_between(range.start..range.end);
        if !remember(&mut self.acknowledged, range.start, range.end) {
            self.settled.forget(range);
            return Ok(Acknowledged {
                new: 0,
                freed: 0,
                sent_again: true,
            });
        }
        let next = self.acknowledged.first_unreported();
        add(&mut self.settled, range.start, range.end);
        self.settled.acknowledge(next);
        Ok(Acknowledged {
            new,
            freed: next - first,
            sent_again: false,
        })
    }

    /// Marks a range as lost, when loss detection says so of its packet (RFC 9002, section 6): what isn't acknowledged
    /// of it is sent again. Ranges may be lost in any order. Returns false, and changes nothing, if the range ends
    /// above what was sent.
    ///
    /// A loss in the middle of a range in flight leaves two ranges. If there is no room for one more, some of what is
    /// in flight beside it is lost too. The call doesn't report that: make room as [`SendRangesOver`] says.
    ///
    /// ```
    /// # use net_base::finite::SendRanges;
    /// # use net_base::storage::Run;
    /// # let mut ranges = SendRanges::new_at(vec![Run::EMPTY; 4], vec![Run::EMPTY; 4], 0);
    /// assert!(ranges.write(40) == 40 && ranges.mark(0..40));
    /// assert!(ranges.lose(30..40) && ranges.lose(8..16) && !ranges.lose(30..41));
    /// let range = ranges.next(u64::MAX, 100).expect("what was lost");
    /// assert!(range == (8..16) && ranges.mark(range));
    /// assert_eq!(ranges.next(u64::MAX, 100), Some(30..40));
    /// ```
    #[must_use]
    #[tactic(auto, using(crate::proofs::SendRanges::loses))]
    pub fn lose(&mut self, range: Range<u64>) -> bool
        ensures accepted { result ≡ nat_le range.end self.old.sent }
        // Guarantee.
        ensures refused { IsFalse result → self.new ≡ self.old }
        ensures none { range.end ≤ range.start → self.new ≡ self.old }
        ensures lost { IsTrue result → Loses self.old range.start range.end self.new }
        ensures told { IsTrue result → Told (IsLost range.start range.end) self.old self.new }
    {
        if self.sent < range.end {
            return false;
        }
        let start = range.start.max(self.acknowledged.first_unreported());
        self.settled.forget(start..range.end);
        true
    }

    /// Loses all that was sent and isn't acknowledged.
    ///
    /// ```
    /// # use net_base::finite::SendRanges;
    /// # use net_base::storage::Run;
    /// # let mut ranges = SendRanges::new_at(vec![Run::EMPTY; 4], vec![Run::EMPTY; 4], 0);
    /// assert!(ranges.write(32) == 32 && ranges.mark(0..32));
    /// assert!(ranges.acknowledge(8..16).is_ok());
    /// assert_eq!(ranges.next(u64::MAX, 100), None);
    /// ranges.lose_all();
    /// assert_eq!(ranges.next(u64::MAX, 100), Some(0..8));
    /// ```
    pub fn lose_all(&mut self)
        ensures others { self.new ≡ record self.old { settled = self.new.settled } }
        ensures lost { (p : ℕ) → is_open self.new p ≡ not (contains self.old.acknowledged p) }
        ensures told { Told AllLost self.old self.new }
    {
        self.settled.reset_at(self.acknowledged.first_unreported());
    }
}

/// Returns where a range of at most `size` bytes ends, or `to` if that isn't above. Data ends at `end`: the end's
/// number comes with the last bytes, and takes no room.
fn with_room(from: u64, to: u64, size: usize, end: u64) -> u64
    requires { from < to }
    ensures some { from < result }
    ensures within { result ≤ to }
    ensures bytes { min result end ≤ from + max 1 size }
    ensures cut { result < to → (result ≡ from + max 1 size) × (result ≢ end) }
{
    let most = from.saturating_add(size.max(1) as u64);
    if most == end { to } else { to.min(most) }
}

/// Adds a range that isn't empty, and returns whether there is room.
#[tactic(auto, using(crate::proofs::SendRanges::remembers))]
fn remember<R: Storage<Run>>(board: &mut Board<R>, start: u64, end: u64) -> bool
    requires { start < end }
    ensures refused { IsFalse result ↔ LacksRoom board.old.most_runs board.old.positions start end }
    ensures after { IsFalse result → front board.old.positions < start }
    ensures unchanged { IsFalse result → board.new ≡ board.old }
    ensures taken { IsTrue result → board.new ≡ record board.old {
      positions = with_range board.old.positions start (end - start);
    } }
    ensures grows { IsTrue result → front board.old.positions ≤ front board.new.positions }
    ensures below { (n : ℕ) → end ≤ n →
        ((p : ℕ) → IsTrue (contains board.old.positions p) → p < n) →
        (p : ℕ) → IsTrue (contains board.new.positions p) → p < n }
    ensures within { (n : ℕ) → end ≤ n →
        ((p : ℕ) → IsTrue (contains board.old.positions p) → p < n) →
        front board.new.positions ≤ n }
{
    board.report(start..end, end).is_ok()
}

/// Returns the first number from `pos` on that isn't settled, or from there the first that isn't acknowledged, or one
/// that isn't below `limit`.
fn next_open<R: Storage<Run>>(
    acknowledged: &Board<R>,
    settled: &Board<R>,
    pos: u64,
    limit: u64,
) -> u64
    requires { pos < limit }
    ensures from { pos ≤ result }
    ensures before { (p : ℕ) → pos ≤ p → p < result →
        IsTrue (contains settled.now.positions p || contains acknowledged.now.positions p) }
    ensures here { result ≡ pos →
        IsFalse (contains settled.now.positions pos || contains acknowledged.now.positions pos) }
{
    let from = hole_start(settled, pos, limit);
    hole_start(acknowledged, from, limit)
}

/// Returns the first position from `pos` on that wasn't reported, or `limit` if that isn't below.
fn hole_start<R: Storage<Run>>(board: &Board<R>, pos: u64, limit: u64) -> u64
    requires { pos ≤ limit }
    ensures from { pos ≤ result }
    ensures within { result ≤ limit }
    ensures before { (p : ℕ) → pos ≤ p → p < result → IsTrue (contains board.now.positions p) }
    ensures here { result < limit → IsFalse (contains board.now.positions result) }
{
    match board.next_hole(pos, limit) {
        Some(hole) => hole.start,
        None => limit,
    }
}

/// Returns the end of the hole that begins at `pos`, or `limit` if that isn't below.
fn hole_end<R: Storage<Run>>(board: &Board<R>, pos: u64, limit: u64) -> u64
    requires below { pos < limit }
    requires missing { IsFalse (contains board.now.positions pos) }
    ensures some { pos < result }
    ensures within { result ≤ limit }
    ensures missing { (p : ℕ) → pos ≤ p → p < result → IsFalse (contains board.now.positions p) }
    ensures here { result < limit → IsTrue (contains board.now.positions result) }
{
    match board.next_hole(pos, limit) {
        Some(hole) => hole.end,
        None => limit,
    }
}

/// Adds a range, if there is room.
fn add<R: Storage<Run>>(board: &mut Board<R>, start: u64, end: u64)
    ensures runs { board.new.most_runs ≡ board.old.most_runs }
    ensures less { (p : ℕ) → IsTrue (contains board.new.positions p) →
        IsFalse (contains board.old.positions p) → IsTrue (is_within start end p) }
    ensures more { (p : ℕ) → IsTrue (contains board.old.positions p) →
        IsTrue (contains board.new.positions p) }
    ensures added { IsReport (front board.old.positions) end start end →
        (HasNoRoom board.old.most_runs board.old.positions start (end - start) → ⊥) →
        board.new.positions ≡ with_range board.old.positions start (end - start) }
{
    let _ = board.report(start..end, end);
}

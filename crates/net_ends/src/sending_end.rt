//! What sends a stream that ends.
//!
//! ```text
//!   acknowledged  |  in flight, lost or reported  |  written, never sent  |  room to write
//!               first                            sent                    end
//! ```
//!
//! `first` is TCP's SND.UNA, `sent` its SND.NXT (SND.MAX, where something is sent again), and `end` is after the last
//! byte, and after the end of the stream once it is closed. The peer's `edge`, SND.UNA + SND.WND, can be anywhere: what
//! is sent ends at it, but for a probe, which is the position `first` alone.

// Why: What is held back for a small window waits for the timer that there is, as RFC 9293 allows. If nothing was in
// flight, nothing was lost, so `expired` answers `Probe` then, and no congestion window is cut. Copies are never
// held back, nor a probe for an answer. Nagle's rule has half of the greatest window wait too, so at most one
// segment in flight is less than a whole one, but for the timer's.
//
// A timeout leaves what was reported. RFC 2018, section 8, has a sender forget all reports then, since the peer may
// have dropped what it reported. Only a peer that has dropped it acknowledges up to a number that it reported. So
// after each acknowledgement the first number that isn't acknowledged counts as missing (`missing` in the contract of
// `acknowledged`), and a timeout sends it again.

ghost use Rattle.std.specs.Prelude.{◌≡◌, ◌-◌, ◌+◌, ◌<◌, ◌≤◌, ◌==◌, ◌||◌, ◌++◌, length, min, is_none};
ghost use Rattle.net_tcp.specs.LossRecovery.{is_active, is_wrong, taken_back};
ghost use Rattle.net_receiver.specs.FiniteSender.{finite_room};
ghost use Rattle.net_receiver.specs.Finite.{no_end};
ghost use Rattle.net_tcp.specs.Sack.{is_permitted};
ghost use Rattle.net_ends.specs.Calls.{Hears, Looks, Chooses};
ghost use Rattle.net_ends.specs.Ends.{new_end, is_pure, first, after_event, Wrote, Shut, Resumed, IsSegment};
ghost use Rattle.net_ends.specs.Ends.{round_trip, Opened, Forgot, Opening, Enabled};
ghost use Rattle.net_receiver.specs.Scoreboards.{IsSoundBoard};
ghost use Rattle.net_ends.specs.Parts.{end_of};
ghost use Rattle.net_ends.specs.Rules.{queued_of};
ghost use Rattle.net_tcp.specs.Retransmission.{has_expired, expires_at};
ghost use Rattle.net_tcp.specs.Windows.{empty_segment_position};

use crate::sending_head::SendingHead;
use crate::tcp_buffer::Queued;
use net_assembler::Run;
use net_base::time::{Duration, Instant};
use net_receiver::{FiniteSenderOver, SegmentBytes, SentNumbers};
use net_ring::{ManagedSlice, Storage};
use net_tcp::{Announcement, Expiry, Sack, TimeoutBounds};
use std::marker::Model;
use std::ops::Range;

/// What an acknowledgement was.
///
/// ```
/// # use net_tcp::{AckSegment, Acknowledged, SendingEnd};
/// # use net_tcp::{Announcement, Sack, TimeoutBounds};
/// # use net_base::time::{Duration, Instant};
/// # let mut storage = [0u8; 64];
/// # let (second, bounds) = (Duration::from_secs(1), TimeoutBounds::default());
/// # let mut sending = SendingEnd::<4>::new_at(&mut storage[..], 100, second, bounds);
/// sending.open(Announcement { seq: 1, ack: 100, window: 1000 }, 8, Sack::Permitted, Instant::ZERO);
/// let announcement = Announcement { seq: 1, ack: 101, window: 1000 };
/// match sending.acknowledged(announcement, &[], AckSegment::Pure, Instant::ZERO) {
///     Acknowledged::Refused => println!("101 was never sent: answer the segment, and take nothing"),
///     other => panic!("{other:?}"),
/// }
/// ```
#[derive(Copy, Clone, Debug, PartialEq, Eq)]
pub enum Acknowledged {
    /// One that no peer sends: of what was never sent, or too far below what is acknowledged. Nothing of its segment is
    /// to be taken, and it is answered (RFC 5961, section 5).
    Refused,
    /// An old one. It says nothing but what came twice, and the bytes of its segment may be new.
    Old,
    /// It was taken.
    Taken {
        /// How many positions it acknowledged that weren't before.
        new: u64,
        /// Whether a block of it reports what wasn't known.
        reports: bool,
        /// Whether it begins a recovery: then halve the congestion window.
        begins: bool,
    },
}

/// Whether the segment that brings an acknowledgement has anything else.
///
/// ```
/// # use net_tcp::{AckSegment, Acknowledged, SendingEnd};
/// # use net_tcp::{Announcement, Sack, TimeoutBounds};
/// # use net_base::time::{Duration, Instant};
/// # let mut storage = [0u8; 64];
/// # let (second, bounds) = (Duration::from_secs(1), TimeoutBounds::default());
/// # let mut sending = SendingEnd::<4>::new_at(&mut storage[..], 100, second, bounds);
/// # sending.open(Announcement { seq: 1, ack: 100, window: 1000 }, 8, Sack::Permitted, Instant::ZERO);
/// // The peer has bytes of its own to send, and acknowledges with them: that is no repeated acknowledgement.
/// let announcement = Announcement { seq: 1, ack: 100, window: 1000 };
/// let taken = sending.acknowledged(announcement, &[], AckSegment::WithData, Instant::ZERO);
/// assert_eq!(taken, Acknowledged::Taken { new: 0, reports: false, begins: false });
/// ```
#[derive(Copy, Clone, Debug, PartialEq, Eq, Hash)]
pub enum AckSegment {
    /// Neither a byte nor a FIN: a pure acknowledgement.
    Pure,
    /// Bytes, or a FIN.
    WithData,
}

impl AckSegment {
    /// Returns whether it has neither a byte nor a FIN.
    fn is_pure(self) -> bool
        ensures { result ≡ is_pure self }
    {
        matches!(self, AckSegment::Pure)
    }
}

/// What [`SendingEnd::expired`] says: whether the timer has ended, and what to do then.
///
/// ```
/// # use net_tcp::{Expired, SendingEnd};
/// # use net_tcp::{Announcement, Sack, TimeoutBounds};
/// # use net_base::time::{Duration, Instant};
/// # let mut storage = [0u8; 64];
/// # let (second, bounds) = (Duration::from_secs(1), TimeoutBounds::default());
/// # let mut sending = SendingEnd::<4>::new_at(&mut storage[..], 100, second, bounds);
/// # sending.open(Announcement { seq: 1, ack: 100, window: 1000 }, 8, Sack::Permitted, Instant::ZERO);
/// let _taken = sending.write(b"abc");
/// let _segment_to_send = sending.next_segment(1200, Instant::ZERO);
/// // Before any sample the timeout is all that the timer waits for.
/// assert_eq!(sending.expired(Instant::from_millis(999)), Expired::No);
/// assert_eq!(sending.expired(Instant::from_secs(1)), Expired::Lost);
/// ```
#[derive(Copy, Clone, Debug, PartialEq, Eq)]
pub enum Expired {
    /// It hasn't ended, or a probe is due and the peer reports nothing, so that it couldn't answer.
    No,
    /// No answer has come in time. What is late counts as lost, and `next_segment` sends it again. If it has none to
    /// send, it sends a probe, which asks for an answer.
    Overdue {
        /// Whether it begins a recovery: then halve the congestion window.
        begins: bool,
    },
    /// The peer's window is shut, and the next segment is a probe of it; or nothing is in flight, and the next segment
    /// has what was held back. That is no sign of congestion: leave the congestion window as it is.
    Probe,
    /// All that was sent is lost: let one segment be in flight. `take_back` may undo that, as it does a halving.
    Lost,
}

/// A segment to send now, whose bytes `SendingEnd::bytes` lends.
///
/// ```
/// # use net_tcp::SendingEnd;
/// # use net_tcp::{Announcement, Sack, TimeoutBounds};
/// # use net_base::time::{Duration, Instant};
/// # let mut storage = [0u8; 64];
/// # let (second, bounds) = (Duration::from_secs(1), TimeoutBounds::default());
/// # let mut sending = SendingEnd::<4>::new_at(&mut storage[..], 100, second, bounds);
/// # sending.open(Announcement { seq: 1, ack: 100, window: 1000 }, 8, Sack::Permitted, Instant::ZERO);
/// let _taken = sending.write(b"abc");
/// let segment = sending.next_segment(1200, Instant::ZERO);
/// assert_eq!(segment.map(|it| (it.pos, it.end, it.is_again)), Some((100, 103, false)));
/// ```
#[derive(Copy, Clone, Debug, PartialEq, Eq)]
pub struct Outgoing {
    /// The position of its first byte, or of the end.
    pub pos: u64,
    /// The position after its last one. The end of the stream has one too.
    pub end: u64,
    /// Whether some of it was sent before.
    pub is_again: bool,
}

impl Outgoing {
    /// Returns its positions, as `SendingEnd::bytes` takes them.
    #[must_use]
    pub fn range(&self) -> Range<u64>
        ensures { result ≡ record { start = self.now.pos; end = self.now.end } }
    {
        self.pos..self.end
    }
}

/// The sending half of a TCP connection: its bytes, the peer's window, the retransmission timer, and what is lost. It
/// is over storage that is lent or owned, and its calls are those of [`SendingEndOver`].
///
/// ```
/// use net_tcp::SendingEnd;
/// use net_tcp::TimeoutBounds;
/// use net_base::time::Duration;
///
/// // 64 bytes may wait, and at most 4 ranges are remembered of what the peer reports.
/// let (mut storage, bounds) = ([0u8; 64], TimeoutBounds::default());
/// let sending = SendingEnd::<4>::new_at(&mut storage[..], 100, Duration::from_secs(1), bounds);
/// assert_eq!((sending.window(), sending.flight_size()), (64, 0));
/// ```
pub type SendingEnd<'a, const N: usize> = SendingEndOver<ManagedSlice<'a, u8>, N>;

/// A [`SendingEnd`] over any storage. It has no clock and no congestion window: each call is told the time, and
/// `next_segment` how much may be in flight.
///
/// ```
/// use net_tcp::{AckSegment, Acknowledged, Expired, SendingEnd};
/// use net_tcp::{Announcement, Sack, TimeoutBounds};
/// use net_base::time::{Duration, Instant};
///
/// let second = Duration::from_secs(1);
/// let bounds = TimeoutBounds::default();
/// let mut storage = [0u8; 64];
/// let mut sending = SendingEnd::<4>::new_at(&mut storage[..], 100, second, bounds);
/// // The peer's SYN announces a window of 1000 bytes, and agrees to SACK. A segment has at most 8 bytes.
/// let mut now = Instant::ZERO;
/// sending.open(Announcement { seq: 1, ack: 100, window: 1000 }, 8, Sack::Permitted, now);
/// assert_eq!(sending.write(b"sixteen bytes ok"), 16);
/// let mut segments = Vec::new();
/// while let Some(segment) = sending.next_segment(1200, now) {
///     let bytes = sending.bytes(segment.range());
///     segments.push((segment.pos, [bytes.front, bytes.back].concat()));
/// }
/// assert_eq!(segments, [(100, b"sixteen ".to_vec()), (108, b"bytes ok".to_vec())]);
/// // An acknowledgement of the first one.
/// now += Duration::from_millis(100);
/// let announcement = Announcement { seq: 1, ack: 108, window: 1000 };
/// let taken = sending.acknowledged(announcement, &[], AckSegment::Pure, now);
/// assert_eq!(taken, Acknowledged::Taken { new: 8, reports: false, begins: false });
/// // None of the second one: when the timer ends, a probe asks for one, and in the end all is lost.
/// while sending.expired(now) != Expired::Lost {
///     let _segment_to_send = sending.next_segment(1200, now);
///     now = sending.expires_at().expect("something is in flight");
/// }
/// let segment = sending.next_segment(8, now).expect("what was lost");
/// assert_eq!((segment.range(), segment.is_again), (108..116, true));
/// ```
#[derive(Drop)]
pub struct SendingEndOver<S: Storage<u8>, const N: usize> {
    sender: FiniteSenderOver<S>,
    runs: [Run; N],
    head: SendingHead,
    first_timeout: Duration,
    bounds: TimeoutBounds,
}

impl<S: Storage<u8>, const N: usize> Model for SendingEndOver<S, N> {
    ghost use Rattle.std.specs.Coded.{codes};
    ghost use Rattle.std.specs.Prelude.{◌≡◌, length};
    ghost use Rattle.net_receiver.specs.Scoreboards.{IsSoundBoard};
    ghost use Rattle.net_ends.specs.Ends.{End, positions_code};
    ghost use Rattle.net_ends.specs.Parts.{end_of};

    ghost Value = { End };

    ghost coded = { Prim.hlevel (codes, positions_code) };

    ghost view = { λ s. end_of s.sender s.head s.runs s.first_timeout s.bounds };

    ghost invariant = { λ s. IsSoundBoard s.head.buffer.scoreboard s.runs × (length s.runs ≡ N) };
}

impl<S: Storage<u8>, const N: usize> SendingEndOver<S, N> {
    /// Returns the end of a stream that begins at position `first`, to which nothing was written. `first_timeout` is
    /// that before any sample: 1 second for TCP (RFC 6298, 2.1).
    ///
    /// A program in which `N` is 0 does not compile.
    ///
    /// # Requires
    ///
    /// `first` is below `u64::MAX`: an end there would have no number after it.
    #[must_use]
    #[track_caller]
    pub fn over_at(storage: S, first: u64, first_timeout: Duration, bounds: TimeoutBounds) -> Self
        requires runs { 1 ≤ N }
        requires end { first < no_end }
        ensures { result ≡ new_end (length (S.elements storage)) first first_timeout bounds }
    {
        prove!(N >= 1, "N is at least 1");
        prove!(first < u64::MAX, "no number is left for an end");
        SendingEndOver {
            sender: FiniteSenderOver::over_at(storage, first),
            runs: [Run { start: 0, end: 0 }; N],
            head: SendingHead::new_at(first, first_timeout),
            first_timeout,
            bounds,
        }
    }

    /// Begins again over the same storage, without a peer: a stream that begins at position `first`, to which nothing
    /// was written. Whether Nagle's rule is enabled stays. It begins a new connection after one that was reset.
    ///
    /// # Requires
    ///
    /// `first` is below `u64::MAX`: an end there would have no number after it.
    ///
    /// ```
    /// # use net_tcp::{SendingEnd};
    /// # use net_tcp::{Announcement, Sack, TimeoutBounds};
    /// # use net_base::time::{Duration, Instant};
    /// # let mut storage = [0u8; 64];
    /// # let (second, bounds) = (Duration::from_secs(1), TimeoutBounds::default());
    /// # let mut sending = SendingEnd::<4>::new_at(&mut storage[..], 100, second, bounds);
    /// # sending.open(Announcement { seq: 1, ack: 100, window: 1000 }, 8, Sack::Permitted, Instant::ZERO);
    /// let _taken = sending.write(b"abc");
    /// sending.reset_at(5_000);
    /// assert_eq!((sending.window(), sending.numbers().sent), (64, 5_000));
    /// ```
    #[track_caller]
    pub fn reset_at(&mut self, first: u64)
        requires { first < no_end }
        ensures { self.new ≡ record (new_end self.old.sender.sender.capacity first
            self.old.first_timeout self.old.bounds) { nagle = self.old.nagle } }
    {
        prove!(first < u64::MAX, "no number is left for an end");
        self.sender.reset_at(first);
        let no_delay = self.head.no_delay;
        self.head = SendingHead::new_at(first, self.first_timeout);
        self.head.no_delay = no_delay;
    }

    /// Enqueues the first of these bytes, as many as there is room for, and returns how many.
    ///
    /// ```
    /// # use net_tcp::SendingEnd;
    /// # use net_tcp::{Announcement, TimeoutBounds};
    /// # use net_base::time::{Duration, Instant};
    /// # let mut storage = [0u8; 64];
    /// # let (second, bounds) = (Duration::from_secs(1), TimeoutBounds::default());
    /// # let mut sending = SendingEnd::<4>::new_at(&mut storage[..], 100, second, bounds);
    /// assert_eq!((sending.write(&[7; 60]), sending.write(&[7; 60])), (60, 4));
    /// ```
    #[must_use]
    pub fn write(&mut self, bytes: &[u8]) -> usize
        ensures count { result ≡ min (length bytes.now) (finite_room self.old.sender) }
        ensures step { self.new ≡ after_event self.old (Wrote bytes.now) }
    {
        self.sender.write(bytes)
    }

    /// Ends the stream after what was written.
    ///
    /// ```
    /// # use net_tcp::SendingEnd;
    /// # use net_tcp::{Announcement, Sack, TimeoutBounds};
    /// # use net_base::time::{Duration, Instant};
    /// # let mut storage = [0u8; 64];
    /// # let (second, bounds) = (Duration::from_secs(1), TimeoutBounds::default());
    /// # let mut sending = SendingEnd::<4>::new_at(&mut storage[..], 100, second, bounds);
    /// # sending.open(Announcement { seq: 1, ack: 100, window: 1000 }, 8, Sack::Permitted, Instant::ZERO);
    /// let _taken = sending.write(b"abc");
    /// sending.close();
    /// // The end has a position, too.
    /// let segment = sending.next_segment(1200, Instant::ZERO).expect("three bytes and the end");
    /// assert_eq!((segment.pos, segment.end), (100, 104));
    /// ```
    pub fn close(&mut self)
        ensures { self.new ≡ after_event self.old Shut }
    {
        self.sender.close();
    }

    /// Lends the bytes of a segment in two parts. The result's `fin` is whether the stream ends after them. If the
    /// range begins at a position that is acknowledged, it lends none.
    ///
    /// ```
    /// # use net_tcp::SendingEnd;
    /// # use net_tcp::{Announcement, Sack, TimeoutBounds};
    /// # use net_base::time::{Duration, Instant};
    /// # let mut storage = [0u8; 64];
    /// # let (second, bounds) = (Duration::from_secs(1), TimeoutBounds::default());
    /// # let mut sending = SendingEnd::<4>::new_at(&mut storage[..], 100, second, bounds);
    /// # sending.open(Announcement { seq: 1, ack: 100, window: 1000 }, 8, Sack::Permitted, Instant::ZERO);
    /// let _taken = sending.write(b"abc");
    /// sending.close();
    /// let segment = sending.next_segment(1200, Instant::ZERO).expect("three bytes and the end");
    /// let bytes = sending.bytes(segment.range());
    /// assert_eq!((bytes.front, bytes.back, bytes.fin), (&b"abc"[..], &b""[..], true));
    /// ```
    #[must_use]
    pub fn bytes(&self, range: Range<u64>) -> SegmentBytes<'_>
        ensures { IsSegment self.now.sender range.start range.end
            (result.front.now ++ result.back.now) result.fin }
    {
        self.sender.segment_bytes(range)
    }

    /// Returns whether all that was written is acknowledged, and the end.
    ///
    /// ```
    /// # use net_tcp::{AckSegment, SendingEnd};
    /// # use net_tcp::{Announcement, Sack, TimeoutBounds};
    /// # use net_base::time::{Duration, Instant};
    /// # let mut storage = [0u8; 64];
    /// # let (second, bounds) = (Duration::from_secs(1), TimeoutBounds::default());
    /// # let mut sending = SendingEnd::<4>::new_at(&mut storage[..], 100, second, bounds);
    /// # sending.open(Announcement { seq: 1, ack: 100, window: 1000 }, 8, Sack::Permitted, Instant::ZERO);
    /// let _taken = sending.write(b"abc");
    /// sending.close();
    /// let now = Instant::ZERO;
    /// let _segment_to_send = sending.next_segment(1200, now);
    /// assert!(!sending.is_done());
    /// let announcement = Announcement { seq: 1, ack: 104, window: 1000 };
    /// let _taken = sending.acknowledged(announcement, &[], AckSegment::Pure, now);
    /// assert!(sending.is_done());
    /// ```
    #[must_use]
    pub fn is_done(&self) -> bool
        ensures { result ≡ (self.now.sender.finished == 1) }
    {
        self.sender.is_closed_and_acknowledged()
    }

    /// Returns how many bytes `write` would take.
    #[must_use]
    pub fn window(&self) -> usize
        ensures { result ≡ finite_room self.now.sender }
    {
        self.sender.window()
    }
}

impl<S: Storage<u8>, const N: usize> SendingEndOver<S, N> {
    /// Begins with a peer, whose SYN announced a window, how many bytes a segment may have, and whether it reports
    /// blocks: one that doesn't couldn't answer a probe, and is sent none. What was written stays. It is done
    /// once, before anything is sent; a second time begins with another peer, and the timer runs if something is in
    /// flight.
    ///
    /// ```
    /// # use net_tcp::SendingEnd;
    /// # use net_tcp::{Announcement, Sack, TimeoutBounds};
    /// # use net_base::time::{Duration, Instant};
    /// # let mut storage = [0u8; 64];
    /// # let (second, bounds) = (Duration::from_secs(1), TimeoutBounds::default());
    /// # let mut sending = SendingEnd::<4>::new_at(&mut storage[..], 100, second, bounds);
    /// let announcement = Announcement { seq: 1, ack: 100, window: 1000 };
    /// sending.open(announcement, 536, Sack::Permitted, Instant::ZERO);
    /// assert_eq!(sending.segment_size(), 536);
    /// ```
    pub fn open(&mut self, it: Announcement, segment_size: usize, sack: Sack, now: Instant)
        ensures { self.new ≡ after_event self.old
            (Opened it.seq it.ack it.window segment_size (is_permitted sack) now) }
    {
        let numbers = self.numbers();
        self.head
            .open(numbers, self.first_timeout, it, segment_size, sack, now);
    }

    /// Begins again without a peer: the timer stops, unless something is in flight. What was written stays.
    pub fn forget(&mut self, now: Instant)
        ensures { self.new ≡ after_event self.old (Forgot now) }
    {
        let numbers = self.numbers();
        self.head.forget(numbers, self.first_timeout, now);
    }

    /// Returns whether a SYN is to be sent now, the first one or one after a timeout, and starts the timer for the
    /// next. Ask it only until your SYN is acknowledged: it doesn't test that.
    ///
    /// ```
    /// # use net_tcp::SendingEnd;
    /// # use net_tcp::{Announcement, TimeoutBounds};
    /// # use net_base::time::{Duration, Instant};
    /// # let mut storage = [0u8; 64];
    /// # let (second, bounds) = (Duration::from_secs(1), TimeoutBounds::default());
    /// # let mut sending = SendingEnd::<4>::new_at(&mut storage[..], 100, second, bounds);
    /// // A SYN is sent now, and again after a second.
    /// assert!(sending.is_opening_due(Instant::ZERO));
    /// assert!(!sending.is_opening_due(Instant::from_millis(999)));
    /// assert!(sending.is_opening_due(Instant::from_secs(1)));
    /// ```
    pub fn is_opening_due(&mut self, now: Instant) -> bool
        ensures value { result ≡ (has_expired self.old.timer now
            || is_none (expires_at self.old.timer)) }
        ensures step { self.new ≡ after_event self.old (Opening now) }
    {
        self.head.is_opening_due(self.bounds, now)
    }

    /// Takes what a segment acknowledges and announces, the blocks that it reports, and whether it has anything
    /// besides. Whatever it says, it can't break the end.
    ///
    /// A block counts that begins above the first position that isn't reported, has a position, and ends where
    /// something was sent and less than 2^32 above that one, if what is reported beyond that one is at most `N` ranges
    /// then. Any other block says nothing.
    ///
    /// ```
    /// # use net_tcp::{AckSegment, Acknowledged, SendingEnd};
    /// # use net_tcp::{Announcement, Sack, TimeoutBounds};
    /// # use net_base::time::{Duration, Instant};
    /// # let mut storage = [0u8; 64];
    /// # let (second, bounds) = (Duration::from_secs(1), TimeoutBounds::default());
    /// # let mut sending = SendingEnd::<4>::new_at(&mut storage[..], 100, second, bounds);
    /// # sending.open(Announcement { seq: 1, ack: 100, window: 1000 }, 8, Sack::Permitted, Instant::ZERO);
    /// let (now, _taken) = (Instant::ZERO, sending.write(&[7; 32]));
    /// while let Some(_segment_to_send) = sending.next_segment(1200, now) {}
    /// // The first of four segments is missing, and the other three have come: a recovery begins.
    /// let announcement = Announcement { seq: 1, ack: 100, window: 1000 };
    /// let taken = sending.acknowledged(announcement, &[108..132], AckSegment::Pure, now);
    /// assert_eq!(taken, Acknowledged::Taken { new: 0, reports: true, begins: true });
    /// let segment = sending.next_segment(1200, now).expect("what was lost");
    /// assert_eq!((segment.pos, segment.end, segment.is_again), (100, 108, true));
    /// ```
    pub fn acknowledged(
        &mut self,
        it: Announcement,
        blocks: &[Range<u64>],
        segment: AckSegment,
        now: Instant,
    ) -> Acknowledged
        ensures { Hears N self.old it.seq it.ack it.window blocks.now (is_pure segment) now result
            self.new }
    {
        let numbers = self.numbers();
        let said = self.head.acknowledged(
            &mut self.runs,
            numbers,
            self.bounds,
            it,
            blocks,
            segment.is_pure(),
            now,
        );
        let _is_taken = self.sender.acknowledge(it.ack);
        said
    }

    /// Returns the first position that isn't acknowledged, near which those of an acknowledgement are, and the one
    /// after the last that was sent.
    ///
    /// ```
    /// # use net_tcp::SendingEnd;
    /// # use net_tcp::{Announcement, Sack, TimeoutBounds};
    /// # use net_base::time::{Duration, Instant};
    /// # let mut storage = [0u8; 64];
    /// # let (second, bounds) = (Duration::from_secs(1), TimeoutBounds::default());
    /// # let mut sending = SendingEnd::<4>::new_at(&mut storage[..], 100, second, bounds);
    /// # sending.open(Announcement { seq: 1, ack: 100, window: 1000 }, 8, Sack::Permitted, Instant::ZERO);
    /// let _taken = sending.write(b"abc");
    /// let _segment_to_send = sending.next_segment(1200, Instant::ZERO);
    /// let numbers = sending.numbers();
    /// assert_eq!((numbers.first_unacknowledged, numbers.sent), (100, 103));
    /// ```
    #[must_use]
    pub fn numbers(&self) -> SentNumbers
        ensures value { result ≡ record {
          first_unacknowledged = first self.now;
          sent =
              self.now.sender.sent;
        } }
        ensures order { result.first_unacknowledged ≤ result.sent }
    {
        self.sender.sent_numbers()
    }

    /// Returns what the sender has sent, and what is queued.
    fn queued(&self) -> Queued
        ensures value { result ≡ queued_of self.now.sender }
        ensures order { result.numbers.first_unacknowledged ≤ result.numbers.sent }
    {
        Queued {
            numbers: self.sender.sent_numbers(),
            end: self.sender.numbers_end(),
            is_closed: self.sender.is_closed(),
        }
    }

    /// Returns whether the timer has ended, and what that means. If it has, it starts again, and `next_segment` returns
    /// what is then to be sent.
    ///
    /// ```
    /// # use net_tcp::{Expired, SendingEnd};
    /// # use net_tcp::{Announcement, Sack, TimeoutBounds};
    /// # use net_base::time::{Duration, Instant};
    /// # let mut storage = [0u8; 64];
    /// # let (second, bounds) = (Duration::from_secs(1), TimeoutBounds::default());
    /// # let mut sending = SendingEnd::<4>::new_at(&mut storage[..], 100, second, bounds);
    /// # sending.open(Announcement { seq: 1, ack: 100, window: 1000 }, 8, Sack::Permitted, Instant::ZERO);
    /// let _taken = sending.write(b"abc");
    /// let _segment_to_send = sending.next_segment(1200, Instant::ZERO);
    /// let now = sending.expires_at().expect("something is in flight");
    /// assert_eq!((sending.expired(now), sending.timeouts()), (Expired::Lost, 1));
    /// let segment = sending.next_segment(1200, now).expect("what was lost");
    /// assert!(segment.is_again);
    /// ```
    pub fn expired(&mut self, now: Instant) -> Expired
        ensures { Looks self.old now result self.new }
    {
        match self.head.timer.expire(self.bounds, now) {
            Some(Expiry::Probe) => {
                let queued = self.queued();
                self.head.take_silence(&self.runs, queued)
            }
            Some(Expiry::Timeout) => {
                let queued = self.queued();
                self.head.take_timeout(queued)
            }
            None => Expired::No,
        }
    }

    /// Returns the segment that is to be sent now, and counts it as sent: if the peer's window and the congestion
    /// window have room for one, or as a probe. One segment may be in flight, however small the congestion window is.
    /// What was never sent is held back if it is less than a segment, unless it is all that is left, or half of the
    /// greatest window that the peer announced (RFC 9293, 3.8.6.2.1), and Nagle's rule doesn't have it wait. Once the
    /// timer has ended, the next segment isn't held back. While anything that was written isn't acknowledged, the timer
    /// runs.
    ///
    /// ```
    /// # use net_tcp::SendingEnd;
    /// # use net_tcp::{Announcement, Sack, TimeoutBounds};
    /// # use net_base::time::{Duration, Instant};
    /// # let mut storage = [0u8; 64];
    /// # let (second, bounds) = (Duration::from_secs(1), TimeoutBounds::default());
    /// # let mut sending = SendingEnd::<4>::new_at(&mut storage[..], 100, second, bounds);
    /// # sending.open(Announcement { seq: 1, ack: 100, window: 1000 }, 8, Sack::Permitted, Instant::ZERO);
    /// let _taken = sending.write(&[7; 20]);
    /// // 16 positions may be in flight: two segments of 8.
    /// let mut sent = vec![];
    /// while let Some(segment) = sending.next_segment(16, Instant::ZERO) {
    ///     sent.push((segment.pos, segment.end));
    /// }
    /// assert_eq!(sent, [(100, 108), (108, 116)]);
    /// ```
    pub fn next_segment(&mut self, congestion_window: u64, now: Instant) -> Option<Outgoing>
        ensures { Chooses self.old congestion_window now result self.new }
    {
        let queued = self.queued();
        let Some(it) = self
            .head
            .next_segment(&self.runs, queued, self.bounds, congestion_window, now)
        else {
            return None;
        };
        let _is_written = self.sender.mark_sent(it.end);
        Some(it)
    }

    /// Returns when `expired` is to be asked.
    ///
    /// ```
    /// # use net_tcp::SendingEnd;
    /// # use net_tcp::{Announcement, Sack, TimeoutBounds};
    /// # use net_base::time::{Duration, Instant};
    /// # let mut storage = [0u8; 64];
    /// # let (second, bounds) = (Duration::from_secs(1), TimeoutBounds::default());
    /// # let mut sending = SendingEnd::<4>::new_at(&mut storage[..], 100, second, bounds);
    /// # sending.open(Announcement { seq: 1, ack: 100, window: 1000 }, 8, Sack::Permitted, Instant::ZERO);
    /// assert_eq!(sending.expires_at(), None);
    /// let _taken = sending.write(b"abc");
    /// let _segment_to_send = sending.next_segment(1200, Instant::from_millis(5));
    /// assert_eq!(sending.expires_at(), Some(Instant::from_millis(1_005)));
    /// ```
    #[must_use]
    pub fn expires_at(&self) -> Option<Instant>
        ensures { result ≡ expires_at self.now.timer }
    {
        self.head.timer.expires_at()
    }

    /// Returns how often the timeout has passed in a row, without anything new that was acknowledged or reported in
    /// between, that of a SYN too: enough of them, and the peer is gone. Probes of a window that is shut count too,
    /// though each is answered.
    #[must_use]
    pub fn timeouts(&self) -> u64
        ensures { result ≡ self.now.timer.timeouts }
    {
        self.head.timer.timeouts()
    }

    /// Returns the smoothed time of a round trip, once there was a sample.
    #[must_use]
    pub fn round_trip(&self) -> Option<Duration>
        ensures { result ≡ round_trip self.now.timer.timeout.estimate }
    {
        self.head.round_trip()
    }

    /// Returns whether the last recovery was spurious, and ends it then: nothing had been lost, since all that was sent
    /// again came twice (RFC 3708), and the rest arrived. Then restore the congestion window of before the recovery.
    /// Ask it after each acknowledgement, an old one too. It is true at most once after each sign of congestion: a
    /// `begins` that is true, or `Expired::Lost`.
    ///
    /// ```
    /// # use net_tcp::{AckSegment, SendingEnd};
    /// # use net_tcp::{Announcement, Sack, TimeoutBounds};
    /// # use net_base::time::{Duration, Instant};
    /// # let mut storage = [0u8; 64];
    /// # let (second, bounds) = (Duration::from_secs(1), TimeoutBounds::default());
    /// # let mut sending = SendingEnd::<4>::new_at(&mut storage[..], 100, second, bounds);
    /// # sending.open(Announcement { seq: 1, ack: 100, window: 1000 }, 8, Sack::Permitted, Instant::ZERO);
    /// let (now, _taken) = (Instant::ZERO, sending.write(&[7; 64]));
    /// while let Some(_segment_to_send) = sending.next_segment(1200, now) {}
    /// // Three segments beyond the first were reported: halve the congestion window, and send it again.
    /// let announcement = Announcement { seq: 1, ack: 100, window: 1000 };
    /// let _taken = sending.acknowledged(announcement, &[108..132], AckSegment::Pure, now);
    /// let _segment_to_send = sending.next_segment(1200, now).expect("what was lost");
    /// // It came twice: the first one was late, and not lost.
    /// let announcement = Announcement { seq: 1, ack: 132, window: 1000 };
    /// let _taken = sending.acknowledged(announcement, &[100..108], AckSegment::Pure, now);
    /// assert!(sending.take_back()); // so undo that
    /// ```
    #[must_use]
    pub fn take_back(&mut self) -> bool
        ensures value { result ≡ is_wrong self.old.recovery (first self.old) self.old.reported }
        ensures step { self.new ≡ after_event self.old
            (Resumed (taken_back (first self.old) self.old.reported self.old.recovery)) }
    {
        let numbers = self.numbers();
        self.head.buffer.take_back(&self.runs, numbers)
    }

    /// Returns whether a recovery lasts.
    ///
    /// ```
    /// # use net_tcp::{AckSegment, SendingEnd};
    /// # use net_tcp::{Announcement, Sack, TimeoutBounds};
    /// # use net_base::time::{Duration, Instant};
    /// # let mut storage = [0u8; 64];
    /// # let (second, bounds) = (Duration::from_secs(1), TimeoutBounds::default());
    /// # let mut sending = SendingEnd::<4>::new_at(&mut storage[..], 100, second, bounds);
    /// # sending.open(Announcement { seq: 1, ack: 100, window: 1000 }, 8, Sack::Permitted, Instant::ZERO);
    /// let (now, _taken) = (Instant::ZERO, sending.write(&[7; 32]));
    /// while let Some(_segment_to_send) = sending.next_segment(1200, now) {}
    /// let announcement = Announcement { seq: 1, ack: 100, window: 1000 };
    /// let _taken = sending.acknowledged(announcement, &[108..132], AckSegment::Pure, now);
    /// assert!(sending.is_recovering()); // until all is acknowledged that was sent by now
    /// ```
    #[must_use]
    pub fn is_recovering(&self) -> bool
        ensures { result ≡ is_active self.now.recovery (first self.now) }
    {
        self.head.buffer.recovery.is_active(self.numbers())
    }

    /// Returns how many positions were sent and aren't acknowledged.
    #[must_use]
    pub fn flight_size(&self) -> u64
        ensures { result ≡ self.now.sender.sent - first self.now }
    {
        self.numbers().flight_size()
    }

    /// Returns the position of an empty segment, such as an acknowledgement alone: the sequence number that its header
    /// has.
    ///
    /// ```
    /// # use net_tcp::SendingEnd;
    /// # use net_tcp::{Announcement, Sack, TimeoutBounds};
    /// # use net_base::time::{Duration, Instant};
    /// # let mut storage = [0u8; 64];
    /// # let (second, bounds) = (Duration::from_secs(1), TimeoutBounds::default());
    /// # let mut sending = SendingEnd::<4>::new_at(&mut storage[..], 100, second, bounds);
    /// # sending.open(Announcement { seq: 1, ack: 100, window: 1000 }, 8, Sack::Permitted, Instant::ZERO);
    /// let _taken = sending.write(b"abc");
    /// let _segment_to_send = sending.next_segment(1200, Instant::ZERO);
    /// assert_eq!(sending.empty_segment_position(), 103);
    /// ```
    #[must_use]
    pub fn empty_segment_position(&self) -> u64
        ensures { result ≡ empty_segment_position self.now.peer (first self.now)
            self.now.sender.sent }
    {
        self.head.peer_window.empty_segment_position(self.numbers())
    }

    /// Enables Nagle's rule (RFC 9293, 3.7.4), or disables it. While something that was sent isn't acknowledged, less
    /// than a whole segment waits by it, unless the stream is closed or the timer has ended. It is enabled at first, as
    /// in a socket of smoltcp: the RFC wants it so. Disable it where few bytes are written at a time, and none of them
    /// is to wait.
    ///
    /// ```
    /// # use net_tcp::SendingEnd;
    /// # use net_tcp::{Announcement, Sack, TimeoutBounds};
    /// # use net_base::time::{Duration, Instant};
    /// # let mut storage = [0u8; 64];
    /// # let (second, bounds) = (Duration::from_secs(1), TimeoutBounds::default());
    /// # let mut sending = SendingEnd::<4>::new_at(&mut storage[..], 100, second, bounds);
    /// # sending.open(Announcement { seq: 1, ack: 100, window: 1000 }, 8, Sack::Permitted, Instant::ZERO);
    /// let (now, _taken) = (Instant::ZERO, sending.write(b"abc"));
    /// let _segment_to_send = sending.next_segment(1200, now);
    /// // Three more bytes are less than a segment, and something is in flight.
    /// let _taken = sending.write(b"def");
    /// assert_eq!(sending.next_segment(1200, now), None);
    /// sending.set_nagle_enabled(false);
    /// assert!(sending.next_segment(1200, now).is_some());
    /// ```
    pub fn set_nagle_enabled(&mut self, enabled: bool)
        ensures { self.new ≡ after_event self.old (Enabled enabled) }
    {
        self.head.set_nagle_enabled(enabled);
    }

    /// Returns whether Nagle's rule is enabled.
    #[must_use]
    pub fn nagle_enabled(&self) -> bool
        ensures { result ≡ self.now.nagle }
    {
        self.head.nagle_enabled()
    }

    /// Returns the most bytes of a segment.
    #[must_use]
    pub fn segment_size(&self) -> usize
        ensures { result ≡ self.now.size }
    {
        self.head.segment_size()
    }
}

//! What receives a stream that ends.
ghost use Rattle.std.specs.Prelude.{◌≡◌, ◌-◌, ◌+◌, ◌<◌, ◌≤◌, ℕ, min, max, length, take, drop, ◌++◌, nat_eq, nat_lt};
ghost use Rattle.std.specs.Prelude.{nat_le, ◌&&◌, ◌||◌, not, if◌then◌else◌, List, false, [], ◌∷◌};
ghost use Rattle.std.specs.Option.{option_to_list, option_or};
ghost use Rattle.std.specs.Fn.{FnOnceTakesAt, FnOnceReturnsAt};
ghost use Rattle.net_tcp.specs.Windows.{IsArrival, announced, field_for};
ghost use Rattle.net_receiver.specs.ReceiverState.{first_part, contiguous_count, pair_of};
ghost use Rattle.net_receiver.specs.NewestRuns.{with_starts};
ghost use Rattle.net_receiver.specs.Finite.{no_end, acknowledged, is_complete, finite_result};
ghost use Rattle.net_ends.specs.Receiving.{new_receiving, opened, opening_field, is_worth, field_of};
ghost use Rattle.net_ends.specs.Receiving.{sack_blocks, range_at, count_of, listed, blocks_of, arrival_result};
ghost use Rattle.net_ends.specs.Receiving.{after_event, Arrived, Answered, Announced, Acknowledged, Took};
ghost use Rattle.net_ends.specs.Receiving.{after_arrival, adds, reported, part_reported, WaitsAfter};
ghost use Rattle.net_ends.specs.ReceivingRules.{room_of, waiting, worth_at, field_at, promise_at};

use net_receiver::{FiniteError, FiniteReceiverOver, HeldRun, KeptBytes};
use net_ring::{ManagedSlice, Storage};
use net_tcp::{AdvertisedWindow, Arrival, Segment};
use std::marker::Model;
use std::ops::Range;

pub mod laws;

/// What a segment without bytes tells the peer.
///
/// ```
/// use net_tcp::ReceivingEnd;
///
/// let mut storage = [0u8; 64];
/// let mut receiving = ReceivingEnd::<4>::new_at(&mut storage[..], 100, 8);
/// let _window = receiving.open(100, 0);
/// receiving.arrived(108, &[7; 8], false).expect("one range may wait");
/// let told = receiving.acknowledgement();
/// assert_eq!((told.next, told.window, told.blocks.as_slice()), (100, 64, &[108..116][..]));
/// ```
#[derive(Debug, Drop)]
pub struct Acknowledgement {
    /// The first position that is missing. The end of the stream has one too, after the last byte.
    pub next: u64,
    /// The window, in units of the scale.
    pub window: u16,
    /// What came twice since the last one, if anything did (RFC 2883), and then the newest ranges that wait beyond
    /// `next`, the newest first.
    pub blocks: SackBlocks,
}

/// The blocks of an acknowledgement, at most four, as TCP's options have room for: what has arrived out of order.
///
/// ```
/// use net_tcp::ReceivingEnd;
///
/// let mut storage = [0u8; 64];
/// let mut receiving = ReceivingEnd::<4>::new_at(&mut storage[..], 100, 8);
/// let _window = receiving.open(100, 0);
/// receiving.arrived(108, &[7; 8], false).expect("one range may wait");
/// receiving.arrived(124, &[7; 8], false).expect("two ranges may wait");
/// // The newest one is the first.
/// let blocks = receiving.acknowledgement().blocks;
/// assert_eq!(blocks.as_slice(), [124..132, 108..116]);
/// ```
#[derive(Debug, Drop)]
pub struct SackBlocks {
    blocks: [Range<u64>; 4],
    count: usize,
}

/// Contracts see the list of them.
impl Model for SackBlocks {
    ghost use Rattle.std.specs.Prelude.{ℕ, List, take, ◌≤◌, ◌≡◌, length};
    ghost use Rattle.std.specs.declared.ops.Range.{Range};

    ghost Value = { List (Range ℕ) };

    ghost view = { λ b. take b.count b.blocks };

    ghost invariant = { λ b. (b.count ≤ 4) × (length b.blocks ≡ 4) };
}

impl SackBlocks {
    /// Lends them, as `SendingEnd::acknowledged` takes them.
    #[must_use]
    pub fn as_slice(&self) -> &[Range<u64>]
        ensures { result.now ≡ self.now }
    {
        &self.blocks[..self.count]
    }

    /// Returns those of which there are any: no block is after one that there isn't.
    #[tactic(auto, using(crate::proofs::Blocks::blocks))]
    fn of(blocks: [Option<(u64, u64)>; 4]) -> Self
        ensures { (list : List (ℕ × ℕ)) → blocks ≡ blocks_of list → result ≡ sack_blocks list }
    {
        SackBlocks {
            blocks: [
                range_at(blocks[0]),
                range_at(blocks[1]),
                range_at(blocks[2]),
                range_at(blocks[3]),
            ],
            count: count_of(blocks),
        }
    }
}

/// Returns a block as a range, which is empty if there is none.
fn range_at(block: Option<(u64, u64)>) -> Range<u64>
    ensures { result ≡ range_at block }
{
    match block {
        Some((start, end)) => start..end,
        None => 0..0,
    }
}

/// Returns how many blocks are before the first that there isn't.
fn count_of(blocks: [Option<(u64, u64)>; 4]) -> usize
    ensures value { result ≡ count_of blocks }
    ensures within { result ≤ 4 }
{
    if blocks[0].is_none() {
        0
    } else if blocks[1].is_none() {
        1
    } else if blocks[2].is_none() {
        2
    } else if blocks[3].is_none() {
        3
    } else {
        4
    }
}

/// What a segment with bytes of its own tells the peer.
///
/// ```
/// use net_tcp::{AckFields, ReceivingEnd};
///
/// let mut storage = [0u8; 64];
/// let mut receiving = ReceivingEnd::<4>::new_at(&mut storage[..], 100, 8);
/// let _window = receiving.open(100, 0);
/// receiving.arrived(100, b"abc", false).expect("it is in order");
/// assert_eq!(receiving.announce(), AckFields { next: 103, window: 61 });
/// ```
#[derive(Copy, Clone, Debug, PartialEq, Eq)]
pub struct AckFields {
    /// The first position that is missing. The end of the stream has one too, after the last byte.
    pub next: u64,
    /// The window, in units of the scale.
    pub window: u16,
}

/// What the rules of a receiving end know of its receiver: numbers.
#[derive(Copy, Clone, Debug, PartialEq, Eq)]
pub struct Room {
    /// The number that an acknowledgement names.
    pub next: u64,
    /// The end of the free room, or the last position if that doesn't fit 64 bits.
    pub end: u64,
    /// How many bytes the storage has.
    pub capacity: u64,
    /// Whether all bytes and the end have arrived.
    pub is_complete: bool,
}

/// All of a receiving end but its receiver: what it announced, when it acknowledges, and what came twice.
///
/// Its calls are given the receiver's numbers; who holds both has the receiver take what arrives. It is numbers alone,
/// so that C has it as it is. One of zeros is new, of a stream that begins at position 0, with segments of no bytes.
#[repr(C)]
#[derive(Debug, Clone, Copy)]
pub struct ReceivingHead {
    /// What was announced.
    pub advertised: AdvertisedWindow,
    /// The position of the newest segment.
    pub newest: u64,
    /// The starts of the ranges that were listed last.
    pub recent: [u64; 4],
    /// What came twice, and wasn't reported yet.
    pub duplicate: HeldRun,
    /// The most bytes of a segment.
    pub segment_size: u16,
    /// The scale of the windows.
    pub scale: u8,
    /// How many segments wait for an acknowledgement, 2 at most: it is due if as many do.
    pub unanswered: u8,
    /// Whether anything came twice, and wasn't reported yet.
    pub has_duplicate: bool,
}

impl ReceivingHead {
    /// Returns the rules of a stream that begins at position `first`, of which nothing was announced.
    pub const fn new(first: u64, segment_size: u16) -> Self
        ensures { result ≡ record {
          advertised = record { edge = first };
          newest = first;
          recent = 0 ∷ 0 ∷ 0 ∷ 0 ∷ [];
          duplicate = (0, 0);
          segment_size = segment_size;
          scale = 0;
          unanswered = 0;
          has_duplicate = false;
        } }
    {
        ReceivingHead {
            advertised: AdvertisedWindow::new(first),
            newest: first,
            recent: [0; 4],
            duplicate: HeldRun { start: 0, end: 0 },
            segment_size,
            scale: 0,
            unanswered: 0,
            has_duplicate: false,
        }
    }

    /// Begins again with a stream that begins at position `first`, as `ReceivingEndOver::open` says. `room` is the
    /// receiver's then.
    pub fn open(&mut self, room: Room, first: u64, scale: u8) -> u16
        ensures window { result ≡ field_for 0 (room.end - room.next) }
        ensures state { self.new ≡ record {
          advertised = record { edge = max first (announced room.next 0 result) };
          newest = first;
          recent = 0 ∷ 0 ∷ 0 ∷ 0 ∷ [];
          duplicate = (0, 0);
          has_duplicate = false;
          segment_size = self.old.segment_size;
          scale = scale;
          unanswered = 0;
        } }
    {
        *self = ReceivingHead::new(first, self.segment_size);
        self.scale = scale;
        self.advertised.announce(0, room.next, room.end)
    }

    /// Takes notice of a segment at `pos`, which is the last one or not: what of it came before, how many runs were
    /// held before it, and what the receiver said of it.
    pub fn take(
        &mut self,
        pos: u64,
        is_last: bool,
        part: Option<(u64, u64)>,
        held: usize,
        kept: Result<KeptBytes, FiniteError>,
    )
        ensures part { waiting self.new ≡ option_or part (waiting self.old) }
        ensures rest { self.new ≡ record self.old {
          newest = pos;
          duplicate = self.new.duplicate;
          has_duplicate = self.new.has_duplicate;
          unanswered = if nat_eq held 0 && not is_last && adds kept
              then min (self.old.unanswered + 1) 2 else 2;
        } }
    {
        if let Some((start, end)) = part {
            self.duplicate = HeldRun { start, end };
            self.has_duplicate = true;
        }
        self.newest = pos;
        self.unanswered = match kept {
            Ok(kept) if held == 0 && !is_last && kept.queued > 0 => {
                self.unanswered.saturating_add(1).min(2)
            }
            _ => 2,
        };
    }

    /// Makes `is_due` true: an acknowledgement is to be sent at once.
    pub fn answer(&mut self)
        ensures { self.new ≡ record self.old { unanswered = 2 } }
    {
        self.unanswered = 2;
    }

    /// Returns whether an acknowledgement is to be sent at once.
    pub fn is_due(&self) -> bool
        ensures { result ≡ nat_le 2 self.now.unanswered }
    {
        self.unanswered >= 2
    }

    /// Returns whether an acknowledgement is to be sent within half a second, as `ReceivingEndOver::is_wanted`.
    ///
    /// # Requires
    ///
    /// The room ends at or beyond its number.
    pub fn is_wanted(&self, room: Room) -> bool
        requires { room.next ≤ room.end }
        ensures { result ≡ (nat_lt 0 self.now.unanswered
            || (not room.is_complete && worth_at self.now room)) }
    {
        self.unanswered > 0 || self.is_update_due(room)
    }

    /// Returns whether an update of the window is worth a segment.
    fn is_update_due(&self, room: Room) -> bool
        requires { room.next ≤ room.end }
        ensures { result ≡ (not room.is_complete && worth_at self.now room) }
    {
        !room.is_complete
            && self.advertised.is_update_due(
                self.scale,
                room.next,
                room.end,
                room.capacity,
                self.segment_size,
            )
    }

    /// Returns what a segment with bytes of its own tells, as `ReceivingEndOver::announce` says.
    pub fn announce(&mut self, room: Room) -> (u64, u16)
        ensures value { result ≡ (room.next, field_at self.old room) }
        ensures state { self.new ≡ record self.old {
          advertised = record { edge = max self.old.advertised.edge (promise_at self.old room) };
          unanswered = if nat_lt self.old.unanswered 2 then 0 else self.old.unanswered;
        } }
    {
        // What waits for an acknowledgement has it, unless one is due.
        if self.unanswered < 2 {
            self.unanswered = 0;
        }
        self.promise(room)
    }

    /// Returns the number and the window of a segment without bytes, and counts them as told.
    pub fn acknowledge(&mut self, room: Room) -> (u64, u16)
        ensures value { result ≡ (room.next, field_at self.old room) }
        ensures state { self.new ≡ record self.old {
          advertised = record { edge = max self.old.advertised.edge (promise_at self.old room) };
          unanswered = 0;
        } }
    {
        self.unanswered = 0;
        self.promise(room)
    }

    /// Returns the number and the window to announce, and promises that.
    fn promise(&mut self, room: Room) -> (u64, u16)
        ensures value { result ≡ (room.next, field_at self.old room) }
        ensures state { self.new ≡ record self.old {
          advertised = record { edge = max self.old.advertised.edge (promise_at self.old room) };
        } }
    {
        let window = self.advertised.announce_in_steps(
            self.scale,
            room.next,
            room.end,
            room.capacity,
            self.segment_size,
        );
        (room.next, window)
    }

    /// Takes what came twice, if it is to be reported: an end in order lets go of what was held beyond it.
    pub fn take_duplicate(&mut self, next: u64, is_complete: bool) -> Option<(u64, u64)>
        ensures value { option_to_list result ≡ part_reported next is_complete (waiting self.old) }
        ensures state { self.new ≡ record self.old { duplicate = (0, 0); has_duplicate = false } }
    {
        let part = self.reported(next, is_complete);
        self.duplicate = HeldRun { start: 0, end: 0 };
        self.has_duplicate = false;
        part
    }

    /// Returns what came twice, if it is to be reported.
    fn reported(&self, next: u64, is_complete: bool) -> Option<(u64, u64)>
        ensures { option_to_list result ≡ part_reported next is_complete (waiting self.now) }
    {
        if !self.has_duplicate {
            return None;
        }
        let part = self.duplicate;
        if part.end <= next || !is_complete {
            Some((part.start, part.end))
        } else {
            None
        }
    }
}

/// The receiving half of a TCP connection: a `FiniteReceiver`, the window that it announced, and what to acknowledge.
/// It is over storage that is lent or owned, and its calls are those of [`ReceivingEndOver`].
///
/// ```
/// use net_tcp::ReceivingEnd;
///
/// // 64 bytes may wait, and at most 4 ranges that arrived out of order. A segment has at most 8 bytes.
/// let mut storage = [0u8; 64];
/// let mut receiving = ReceivingEnd::<4>::new_at(&mut storage[..], 100, 8);
/// assert_eq!(receiving.open(100, 0), 64);
/// ```
pub type ReceivingEnd<'a, const N: usize> = ReceivingEndOver<ManagedSlice<'a, u8>, N>;

/// A [`ReceivingEnd`] over any storage. It has no clock: how long an acknowledgement waits is its caller's choice.
///
/// ```
/// use net_tcp::ReceivingEnd;
///
/// let mut storage = [0u8; 64];
/// let mut receiving = ReceivingEnd::<4>::new_at(&mut storage[..], 100, 8);
/// assert_eq!(receiving.open(100, 0), 64);
/// // The second segment comes first: it is answered at once, and reported.
/// assert!(receiving.arrived(108, b"bytes ok", true).is_ok() && receiving.is_due());
/// let ack = receiving.acknowledgement();
/// assert_eq!((ack.next, ack.window, ack.blocks.as_slice()), (100, 64, &[108..116][..]));
/// assert!(receiving.arrived(100, b"sixteen ", false).is_ok());
/// let mut bytes = [0; 64];
/// assert_eq!(receiving.read(&mut bytes), 16);
/// assert!(receiving.receiver().has_read_all() && receiving.is_due());
/// assert_eq!(receiving.acknowledgement().next, 117);
/// ```
#[derive(Drop)]
pub struct ReceivingEndOver<S: Storage<u8>, const N: usize> {
    receiver: FiniteReceiverOver<S, N>,
    head: ReceivingHead,
}

impl<S: Storage<u8>, const N: usize> Model for ReceivingEndOver<S, N> {
    ghost use Rattle.std.specs.Coded.{codes};
    ghost use Rattle.net_receiver.specs.Finite.{finite_code};
    ghost use Rattle.net_ends.specs.Receiving.{Receiving};
    ghost use Rattle.net_ends.specs.ReceivingRules.{receiving_of};

    ghost Value = { Receiving };

    ghost coded = { Prim.hlevel (codes, finite_code) };

    ghost view = { λ s. receiving_of s.receiver s.head };
}

impl<S: Storage<u8>, const N: usize> ReceivingEndOver<S, N> {
    /// Returns the end of a stream that begins at position `first`, at which nothing has arrived. A segment has at most
    /// `segment_size` bytes.
    ///
    /// A program in which `N` is 0 does not compile.
    ///
    /// # Requires
    ///
    /// `first` is below `u64::MAX`: an end there would have no number after it.
    #[must_use]
    #[track_caller]
    pub fn over_at(storage: S, first: u64, segment_size: u16) -> Self
        requires runs { 1 ≤ N }
        requires end { first < no_end }
        ensures { result ≡ new_receiving (length (S.elements storage)) first segment_size }
    {
        prove!(N >= 1, "N is at least 1");
        prove!(first < u64::MAX, "no number is left for an end");
        ReceivingEndOver {
            receiver: FiniteReceiverOver::over_at(storage, first),
            head: ReceivingHead::new(first, segment_size),
        }
    }

    /// Begins again with a stream that begins at position `first`, and whose windows have this scale. Returns the
    /// window that a SYN announces, which has no scale. Pass the smallest scale for which `capacity >> scale` is at
    /// most 65535: a window is announced in whole units of `1 << scale`. One above 14 counts as 14.
    ///
    /// # Requires
    ///
    /// `first` is below `u64::MAX`: an end there would have no number after it.
    ///
    /// ```
    /// # use net_tcp::ReceivingEnd;
    /// # let mut storage = [0u8; 64];
    /// # let mut receiving = ReceivingEnd::<4>::new_at(&mut storage[..], 100, 8);
    /// assert_eq!(receiving.open(100, 3), 64); // in a SYN the window has no scale
    /// assert_eq!(receiving.announce().window, 8); // in units of 2^3
    /// ```
    #[track_caller]
    pub fn open(&mut self, first: u64, scale: u8) -> u16
        requires { first < no_end }
        ensures window { result ≡ opening_field self.old first }
        ensures step { self.new ≡ opened self.old first scale }
    {
        prove!(first < u64::MAX, "no number is left for an end");
        self.receiver.reset_at(first);
        let room = self.room();
        self.head.open(room, first, scale)
    }

    /// Returns what to do with a segment, as `classify` says, in the window that was announced. Its
    /// acknowledgement is taken if it is of a peer that hears of what is announced here, whatever the path does: law
    /// `heard_ends` (`docs/laws.md`).
    ///
    /// ```
    /// # use net_tcp::ReceivingEnd;
    /// # let mut storage = [0u8; 64];
    /// # let mut receiving = ReceivingEnd::<4>::new_at(&mut storage[..], 100, 8);
    /// use net_tcp::{Arrival, Segment};
    ///
    /// let _window = receiving.open(100, 0);
    /// let text = |seq| Segment::new(seq, 8, 0x10);
    /// assert_eq!(receiving.classify(text(100)), Arrival::Take);
    /// assert_eq!(receiving.classify(text(164)), Arrival::Answer);
    /// ```
    #[must_use]
    pub fn classify(&self, segment: Segment) -> Arrival
        ensures { IsArrival Arrival.Take Arrival.AcknowledgementOnly Arrival.Answer
            Arrival.Reset Arrival.Ignore
            (acknowledged self.now.receiver) (self.now.edge - acknowledged self.now.receiver)
            self.now.receiver.receiver.capacity segment result }
    {
        self.head.advertised.classify(
            self.receiver.acknowledged(),
            self.receiver.receiver().capacity() as u64,
            segment,
        )
    }

    /// Takes the bytes of a segment, and the stream's end after them if `fin` says so. A segment out of order, one with
    /// the end, and one that is refused are answered at once; of the others each second one is. What of its bytes came
    /// before is reported by the next acknowledgement, as `Receiver::duplicate_of` tells it. One with neither bytes nor
    /// the end changes nothing.
    ///
    /// # Errors
    ///
    /// As `FiniteReceiver::keep`.
    ///
    /// ```
    /// # use net_tcp::ReceivingEnd;
    /// # let mut storage = [0u8; 64];
    /// # let mut receiving = ReceivingEnd::<4>::new_at(&mut storage[..], 100, 8);
    /// let _window = receiving.open(100, 0);
    /// let kept = receiving.arrived(103, b"def", true).expect("one range may wait");
    /// assert_eq!((kept.kept, kept.queued), (3, 0));
    /// let kept = receiving.arrived(100, b"abc", false).expect("it is in order");
    /// assert_eq!((kept.kept, kept.queued), (3, 6));
    /// ```
    pub fn arrived(&mut self, pos: u64, bytes: &[u8], fin: bool) -> Result<KeptBytes, FiniteError>
        ensures value { result ≡ arrival_result N self.old.receiver pos bytes.now fin }
        ensures twice { WaitsAfter self.old pos (length bytes.now) self.new.duplicate }
        ensures step { self.new ≡ after_event N self.old
            (Arrived pos bytes.now fin self.new.duplicate) }
    {
        if bytes.is_empty() && !fin {
            return Ok(KeptBytes { kept: 0, queued: 0 });
        }
        self.take(pos, bytes, fin)
    }

    /// Takes a segment that has a byte or the end. A function of its own: `arrived` says what one of neither does.
    fn take(&mut self, pos: u64, bytes: &[u8], fin: bool) -> Result<KeptBytes, FiniteError>
        ensures value { result ≡ finite_result N self.old.receiver pos bytes.now fin }
        ensures twice { WaitsAfter self.old pos (length bytes.now) self.new.duplicate }
        ensures step { self.new ≡ after_arrival N self.old pos bytes.now fin
            self.new.duplicate }
    {
        let came = pair_of(self.receiver.receiver().duplicate_of(pos, bytes.len()));
        let held = self.receiver.receiver().held_count();
        let kept = self.receiver.keep(pos, bytes, fin);
        self.head.take(pos, fin, came, held, kept);
        kept
    }

    /// Makes `is_due` true: an acknowledgement is to be sent at once.
    ///
    /// ```
    /// # use net_tcp::ReceivingEnd;
    /// # let mut storage = [0u8; 64];
    /// # let mut receiving = ReceivingEnd::<4>::new_at(&mut storage[..], 100, 8);
    /// let _window = receiving.open(100, 0);
    /// receiving.answer(); // a segment was out of the window
    /// assert!(receiving.is_due());
    /// ```
    pub fn answer(&mut self)
        ensures { self.new ≡ after_event N self.old Answered }
    {
        self.head.answer();
    }

    /// Returns whether an acknowledgement is to be sent at once.
    ///
    /// ```
    /// # use net_tcp::ReceivingEnd;
    /// # let mut storage = [0u8; 64];
    /// # let mut receiving = ReceivingEnd::<4>::new_at(&mut storage[..], 100, 8);
    /// let _window = receiving.open(100, 0);
    /// // One segment may wait for a second one.
    /// receiving.arrived(100, &[7; 8], false).expect("it is in order");
    /// assert!(!receiving.is_due() && receiving.is_wanted());
    /// receiving.arrived(108, &[7; 8], false).expect("it is in order");
    /// assert!(receiving.is_due());
    /// ```
    #[must_use]
    pub fn is_due(&self) -> bool
        ensures { result ≡ nat_le 2 self.now.unanswered }
    {
        self.head.is_due()
    }

    /// Returns whether an acknowledgement is to be sent within half a second (RFC 9293, 3.8.6.3): a segment waits for
    /// one, or an update of the window is worth a segment. No update is, once all bytes and the end have arrived:
    /// nothing follows that needs room, and a peer that has closed its connection would answer it by a reset. Ask it
    /// before you wait, and again before you then send one: a segment with bytes may have acknowledged in the meantime.
    ///
    /// ```
    /// # use net_tcp::ReceivingEnd;
    /// # let mut storage = [0u8; 64];
    /// # let mut receiving = ReceivingEnd::<4>::new_at(&mut storage[..], 100, 8);
    /// let _window = receiving.open(100, 0);
    /// assert!(!receiving.is_wanted());
    /// receiving.arrived(100, b"abc", false).expect("it is in order");
    /// assert!(receiving.is_wanted());
    /// receiving.acknowledgement();
    /// assert!(!receiving.is_wanted());
    /// ```
    #[must_use]
    pub fn is_wanted(&self) -> bool
        ensures { result ≡ (nat_lt 0 self.now.unanswered
            || (not (is_complete self.now.receiver) && is_worth self.now)) }
    {
        self.head.is_wanted(self.room())
    }

    /// Returns what a segment with bytes of its own tells, and counts it as told: the first position that is missing,
    /// and the window, in units of the scale. The window's edge is moved only if that is worth a segment. An
    /// acknowledgement that is due stays so, since it lists ranges.
    ///
    /// ```
    /// # use net_tcp::ReceivingEnd;
    /// # let mut storage = [0u8; 64];
    /// # let mut receiving = ReceivingEnd::<4>::new_at(&mut storage[..], 100, 8);
    /// let _window = receiving.open(100, 0);
    /// receiving.arrived(100, b"abc", false).expect("it is in order");
    /// let told = receiving.announce();
    /// assert_eq!((told.next, told.window), (103, 61));
    /// assert!(!receiving.is_wanted()); // the segment with bytes tells it
    /// ```
    pub fn announce(&mut self) -> AckFields
        ensures value { result ≡ record {
          next = acknowledged self.old.receiver;
          window = field_of self.old;
        } }
        ensures step { self.new ≡ after_event N self.old Announced }
    {
        let room = self.room();
        let (next, window) = self.head.announce(room);
        AckFields { next, window }
    }

    /// Returns what a segment without bytes tells, and counts it as told. What came twice is told once.
    ///
    /// ```
    /// # use net_tcp::ReceivingEnd;
    /// # let mut storage = [0u8; 64];
    /// # let mut receiving = ReceivingEnd::<4>::new_at(&mut storage[..], 100, 8);
    /// let _window = receiving.open(100, 0);
    /// receiving.arrived(100, b"abc", false).expect("it is in order");
    /// receiving.arrived(100, b"abc", false).expect("it came twice");
    /// let told = receiving.acknowledgement();
    /// assert_eq!((told.next, told.window, told.blocks.as_slice()), (103, 61, &[100..103][..]));
    /// assert!(receiving.acknowledgement().blocks.as_slice().is_empty());
    /// ```
    pub fn acknowledgement(&mut self) -> Acknowledgement
        ensures value { result ≡ record {
          next = acknowledged self.old.receiver;
          window = field_of self.old;
          blocks = sack_blocks (reported self.old ++ listed self.old);
        } }
        ensures step { self.new ≡ after_event N self.old Acknowledged }
    {
        let room = self.room();
        let (next, window) = self.head.acknowledge(room);
        let duplicate = self.head.take_duplicate(room.next, room.is_complete);
        let blocks = SackBlocks::of(in_front(duplicate, self.runs()));
        Acknowledgement {
            next,
            window,
            blocks,
        }
    }

    /// Lists the newest runs, at most four.
    // Proof: A function of its own, since the search doesn't find what `acknowledgement` tells with these calls in it.
    fn runs(&mut self) -> [Option<(u64, u64)>; 4]
        ensures value { result ≡ blocks_of (listed self.old) }
        ensures state { self.new ≡ record self.old {
          recent = with_starts self.old.recent (listed self.old);
        } }
    {
        let mut runs = self
            .receiver
            .receiver()
            .newest_runs(self.head.newest, &mut self.head.recent);
        [runs.next(), runs.next(), runs.next(), runs.next()]
    }

    /// Copies bytes from the beginning of the queue to that of `into`, takes them off the queue, and returns how many:
    /// as many as are queued and as `into` has room for. The rest of `into` stays as it is.
    ///
    /// ```
    /// # use net_tcp::ReceivingEnd;
    /// # let mut storage = [0u8; 64];
    /// # let mut receiving = ReceivingEnd::<4>::new_at(&mut storage[..], 100, 8);
    /// let _window = receiving.open(100, 0);
    /// receiving.arrived(100, b"abc", false).expect("it is in order");
    /// let mut into = [0; 8];
    /// assert_eq!((receiving.read(&mut into), &into[..3]), (3, &b"abc"[..]));
    /// ```
    pub fn read(&mut self, into: &mut [u8]) -> usize
        ensures count { result ≡ min (length into.old) (length self.old.receiver.receiver.queue) }
        ensures into { into.new ≡ take (length into.old) self.old.receiver.receiver.queue
            ++ drop (length self.old.receiver.receiver.queue) into.old }
        ensures step { self.new ≡ after_event N self.old (Took (length into.old)) }
    {
        self.receiver.read(into)
    }

    /// Calls `f` on the first part of the queue, takes as many bytes off the queue as `f` counts, and returns what `f`
    /// returned. The part is empty only if the queue is.
    ///
    /// # Requires
    ///
    /// `f` takes that part, and counts at most as many bytes as it was lent.
    #[track_caller]
    pub fn read_with<R, F: FnOnce(&[u8]) -> (usize, R)>(&mut self, f: F) -> (usize, R)
        requires callable { FnOnceTakesAt F.FnOnce f (first_part self.old.receiver.receiver) }
        requires count { (r : ℕ × R) →
            FnOnceReturnsAt F.FnOnce f (first_part self.old.receiver.receiver) r →
            r.0 ≤ length (first_part self.old.receiver.receiver) }
        ensures called { FnOnceReturnsAt F.FnOnce f (first_part self.old.receiver.receiver) result }
        ensures count { result.0 ≤ contiguous_count self.old.receiver.receiver }
        ensures not_empty { 0 < length self.old.receiver.receiver.queue →
            0 < contiguous_count self.old.receiver.receiver }
        ensures step { self.new ≡ after_event N self.old (Took result.0) }
    {
        let part = self.first_part();
        let lent = part.len();
        let answer = f(part);
        prove!(answer.0 <= lent, "more bytes than were lent");
        self.receiver.remove(answer.0);
        answer
    }

    /// Lends the first part of the queue, which is empty only if the queue is.
    // Proof: A function of its own, since what `f` is lent has to be known before it is called.
    #[tactic(auto, using(crate::proofs::Receiving::from_first))]
    fn first_part(&self) -> &[u8]
        ensures value { result.now ≡ first_part self.now.receiver.receiver }
        ensures some { 0 < length self.now.receiver.receiver.queue →
            0 < contiguous_count self.now.receiver.receiver }
    {
        let receiver = self.receiver.receiver();
        receiver.peek(0, receiver.queued())
    }

    /// Lends the receiver, for reading.
    ///
    /// ```
    /// # use net_tcp::ReceivingEnd;
    /// # let mut storage = [0u8; 64];
    /// # let mut receiving = ReceivingEnd::<4>::new_at(&mut storage[..], 100, 8);
    /// let _window = receiving.open(100, 0);
    /// receiving.arrived(100, b"abc", true).expect("it is in order");
    /// assert!(!receiving.receiver().has_read_all());
    /// assert_eq!(receiving.read(&mut [0; 8]), 3);
    /// assert!(receiving.receiver().has_read_all());
    /// ```
    #[must_use]
    pub fn receiver(&self) -> &FiniteReceiverOver<S, N>
        ensures { result.now ≡ self.now.receiver }
    {
        &self.receiver
    }

    /// Returns the receiver's numbers.
    fn room(&self) -> Room
        ensures value { result ≡ room_of self.now.receiver }
        ensures order { result.next ≤ result.end }
    {
        Room {
            next: self.receiver.acknowledged(),
            end: self.receiver.window_end().unwrap_or(u64::MAX),
            capacity: self.receiver.receiver().capacity() as u64,
            is_complete: self.receiver.is_complete(),
        }
    }
}

/// Returns four blocks with what came twice in front, if anything did, in place of the last one.
// Proof: A function of its own, since the search doesn't find what `acknowledgement` tells with this test in it.
fn in_front(
    duplicate: Option<(u64, u64)>,
    blocks: [Option<(u64, u64)>; 4],
) -> [Option<(u64, u64)>; 4]
    ensures { (list : List (ℕ × ℕ)) → blocks ≡ blocks_of list →
        result ≡ blocks_of (option_to_list duplicate ++ list) }
{
    match duplicate {
        Some(part) => [Some(part), blocks[0], blocks[1], blocks[2]],
        None => blocks,
    }
}

/// Returns the start and the end of a range, if there is one.
fn pair_of(range: Option<Range<u64>>) -> Option<(u64, u64)>
    ensures { result ≡ pair_of range }
{
    range.map(|range| (range.start, range.end))
}

//! The window that the peer announced.
ghost use Rattle.std.specs.Prelude.{◌≡◌, ◌↔◌, ◌-◌, ◌*◌, ◌^◌, ◌<◌, ◌≤◌, IsTrue, IsFalse, min, max};
ghost use Rattle.net_tcp.specs.Windows.{shift_count, Replaces, window_from, after_update};
ghost use Rattle.net_tcp.specs.Windows.{empty_segment_position, no_window};

use crate::advertised_window::MAX_SCALE;
use net_receiver::SentNumbers;

/// What a segment announces: the window from the position that it acknowledges on, and the numbers by
/// which its age is told.
///
/// ```
/// use net_tcp::{scaled, Announcement, PeerWindow};
///
/// // A header has the acknowledgement number of position 200 and 50 in its window field, and the scale is 2^2.
/// let announcement = Announcement { seq: 7, ack: 200, window: scaled(50, 2) };
/// assert_eq!(PeerWindow::of(announcement).edge(), 400);
/// ```
#[repr(C)]
#[derive(Copy, Clone, Debug, PartialEq, Eq, Hash)]
pub struct Announcement {
    /// The position of the segment's first byte, in the peer's stream.
    pub seq: u64,
    /// The position that it acknowledges.
    pub ack: u64,
    /// How many bytes may be sent from there on: the field of a header, shifted left by the scale.
    pub window: u64,
}

/// The window that the peer announced, and the segment that it is from. It is kept as its right edge, a
/// position.
///
/// ```
/// use net_tcp::{Announcement, PeerWindow, SentNumbers};
///
/// let numbers = SentNumbers { first_unacknowledged: 100, sent: 150 };
/// let mut window = PeerWindow::of(Announcement { seq: 7, ack: 100, window: 60 });
/// // Of the bytes below 500, those below 160 may be sent.
/// assert_eq!(window.send_limit(500), 160);
/// // A later segment shuts the window; an older one doesn't open it again.
/// assert!(window.update(numbers, Announcement { seq: 8, ack: 100, window: 0 }));
/// assert!(!window.update(numbers, Announcement { seq: 7, ack: 100, window: 60 }));
/// assert!(window.is_probe_allowed(100, 500));
/// ```
#[repr(C)]
#[derive(Copy, Clone, Debug, PartialEq, Eq, Hash)]
pub struct PeerWindow {
    /// The position after the window's last one.
    edge: u64,
    /// The position of the segment that the window is from, by the peer's numbers.
    seq: u64,
    /// The position that this segment acknowledged.
    ack: u64,
}

/// Returns how many bytes the field of a segment announces. A scale above 14 counts as 14, as RFC 7323,
/// section 2.3, has it.
///
/// ```
/// use net_tcp::scaled;
///
/// assert_eq!((scaled(50, 2), scaled(50, 0)), (200, 50));
/// ```
#[must_use]
#[tactic(auto, using(crate::proofs::WindowFacts::scaled_few))]
pub fn scaled(field: u16, scale: u8) -> u64
    // Guarantee.
    ensures value { result ≡ field * 2 ^ shift_count scale }
    // Guarantee.
    ensures few { result < 2 ^ 30 }
{
    u64::from(field) << scale.min(MAX_SCALE)
}

impl PeerWindow {
    /// Returns the window before any segment: nothing may be sent but a probe, and no segment is older.
    #[must_use]
    pub const fn new() -> Self
        ensures { result ≡ no_window }
    {
        PeerWindow {
            edge: 0,
            seq: 0,
            ack: 0,
        }
    }

    /// Returns the window that a segment announced.
    ///
    /// ```
    /// # use net_tcp::{Announcement, PeerWindow};
    /// let window = PeerWindow::of(Announcement { seq: 7, ack: 100, window: 60 });
    /// assert_eq!(window.edge(), 160);
    /// ```
    #[must_use]
    pub fn of(it: Announcement) -> Self
        ensures { result ≡ window_from it.seq it.ack it.window }
    {
        PeerWindow {
            edge: it.ack.saturating_add(it.window),
            seq: it.seq,
            ack: it.ack,
        }
    }

    /// Returns the position after the last that may be sent.
    #[must_use]
    pub const fn edge(&self) -> u64
        ensures { result ≡ self.now.edge }
    {
        self.edge
    }

    /// Lets all positions below `edge` be sent, unless more may be already: for a protocol that announces
    /// a position, and no number that tells which of two segments is the older one. Such a window doesn't shrink.
    ///
    /// ```
    /// use net_tcp::PeerWindow;
    ///
    /// let mut window = PeerWindow::new();
    /// window.open_to(1_000); // a MAX_STREAM_DATA
    /// window.open_to(900); // an older one
    /// assert_eq!(window.edge(), 1_000);
    /// ```
    pub fn open_to(&mut self, edge: u64)
        ensures { self.new ≡ record self.old { edge = max self.old.edge edge } }
    {
        self.edge = self.edge.max(edge);
    }

    /// Takes over the window of an acceptable segment, unless it acknowledges a position below
    /// the first unacknowledged one or above what was sent, or is older than the one before and
    /// acknowledges no more. Returns whether it did. A window may shrink.
    ///
    /// RFC 9293 takes none of an older number. So one forged segment ahead in the window would shut out
    /// each later one. It makes no difference whether the sender takes what the segment acknowledges
    /// before this call or after it.
    ///
    /// ```
    /// use net_tcp::{Announcement, PeerWindow, SentNumbers};
    ///
    /// let numbers = SentNumbers { first_unacknowledged: 100, sent: 150 };
    /// let mut window = PeerWindow::of(Announcement { seq: 7, ack: 100, window: 60 });
    /// assert!(window.update(numbers, Announcement { seq: 7, ack: 120, window: 60 }));
    /// // It acknowledges what was never sent.
    /// assert!(!window.update(numbers, Announcement { seq: 9, ack: 151, window: 60 }));
    /// assert_eq!(window.edge(), 180);
    /// ```
    pub fn update(&mut self, numbers: SentNumbers, it: Announcement) -> bool
        // Guarantee.
        ensures accepted { IsTrue result ↔ ((numbers.first_unacknowledged ≤ it.ack)
            × (it.ack ≤ numbers.sent) × (Replaces self.old it.seq it.ack)) }
        ensures state { self.new ≡ after_update self.old
            numbers.first_unacknowledged numbers.sent it.seq it.ack it.window }
    {
        let is_possible = numbers.first_unacknowledged <= it.ack && it.ack <= numbers.sent;
        let is_later = self.seq < it.seq || self.seq == it.seq && self.ack <= it.ack;
        let is_taken = is_possible && (self.ack < it.ack || is_later);
        if is_taken {
            *self = PeerWindow::of(it);
        }
        is_taken
    }

    /// Returns the end of what may be sent of the bytes below `end`.
    ///
    /// ```
    /// use net_tcp::{Announcement, PeerWindow};
    ///
    /// let window = PeerWindow::of(Announcement { seq: 7, ack: 100, window: 60 });
    /// assert_eq!((window.send_limit(500), window.send_limit(130)), (160, 130));
    /// ```
    #[must_use]
    pub fn send_limit(&self, end: u64) -> u64
        // Guarantee.
        ensures { result ≡ min self.now.edge end }
    {
        self.edge.min(end)
    }

    /// Returns whether a probe may be sent, the one byte at `first_unacknowledged`: the window has
    /// closed, and there are bytes below `end` that wait.
    ///
    /// ```
    /// use net_tcp::{Announcement, PeerWindow};
    ///
    /// let shut = PeerWindow::of(Announcement { seq: 7, ack: 100, window: 0 });
    /// assert!(shut.is_probe_allowed(100, 500) && !shut.is_probe_allowed(100, 100));
    /// ```
    #[must_use]
    pub fn is_probe_allowed(&self, first_unacknowledged: u64, end: u64) -> bool
        // Guarantee.
        ensures value { IsTrue result
            ↔ ((self.now.edge ≤ first_unacknowledged) × (first_unacknowledged < end)) }
        // Guarantee.
        ensures progress { first_unacknowledged < end → IsFalse result →
            first_unacknowledged < min self.now.edge end }
    {
        self.edge <= first_unacknowledged && first_unacknowledged < end
    }

    /// Returns the number of a segment without positions, as an acknowledgement is: `sent`, or the end of
    /// the window if that is below it, or the first unacknowledged position if the window ends before that.
    ///
    /// A peer whose window is shut takes no number beyond it, though a probe was sent there, nor what
    /// such a segment acknowledges.
    ///
    /// ```
    /// use net_tcp::{Announcement, PeerWindow, SentNumbers};
    ///
    /// // The window ends at 160, and a probe was sent there.
    /// let window = PeerWindow::of(Announcement { seq: 7, ack: 160, window: 0 });
    /// let numbers = SentNumbers { first_unacknowledged: 160, sent: 161 };
    /// assert_eq!(window.empty_segment_position(numbers), 160);
    /// ```
    #[must_use]
    pub fn empty_segment_position(&self, numbers: SentNumbers) -> u64
        ensures value { result ≡ empty_segment_position self.now
            numbers.first_unacknowledged numbers.sent }
        // Guarantee.
        ensures sent { result ≤ numbers.sent }
        // Guarantee.
        ensures promised { result ≤ max self.now.edge numbers.first_unacknowledged }
        // Guarantee.
        ensures first { numbers.first_unacknowledged ≤ numbers.sent →
            numbers.first_unacknowledged ≤ result }
    {
        let first = numbers.first_unacknowledged;
        numbers.sent.min(self.edge.max(first))
    }
}

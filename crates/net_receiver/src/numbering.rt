//! The numbers of a stream's bytes, and their positions.
ghost use Rattle.std.specs.Prelude.{◌≡◌, ℕ, ◌+◌, ◌<◌, ◌≤◌, ◌^◌};
ghost use Rattle.net_receiver.specs.SequenceNumbers.{number_at, IsNear, IsNearAround};

use crate::sequence_number::SequenceNumber;

/// How a stream's bytes are numbered: the first one has the position 2^32 and the number `first`.
///
/// Since the first position is 2^32, the numbers before `first`, which old duplicates have, are those of positions too.
/// A receiver or a sender that begins at `first_position()` takes these as they are: they are below what is missing, or
/// not above what is acknowledged.
///
/// ```
/// use net_base::receiver::Receiver;
/// use net_base::sequence_number::{Numbering, SequenceNumber};
///
/// let numbering = Numbering { first: SequenceNumber::new(7) };
/// let mut ring = [0; 8];
/// let mut receiver = Receiver::<4>::new_at(&mut ring[..], Numbering::first_position());
/// let pos = numbering.position(SequenceNumber::new(5), receiver.next());
/// assert_eq!(pos, Numbering::first_position() - 2);
/// assert!(receiver.keep(pos, b"..ab").is_ok());
/// assert_eq!(numbering.number(receiver.next()).get(), 9);
/// ```
#[derive(Debug, Copy, Clone, PartialEq, Eq)]
pub struct Numbering {
    /// The number of the stream's first byte. In TCP it is the initial sequence number, that of the SYN, plus 1.
    pub first: SequenceNumber,
}

impl Numbering {
    /// Returns the position of a stream's first byte, 2^32.
    ///
    /// ```
    /// # use net_base::sequence_number::Numbering;
    /// assert_eq!(Numbering::first_position(), 1 << 32);
    /// ```
    #[inline]
    #[must_use]
    pub const fn first_position() -> u64
        ensures { result ≡ 2 ^ 32 }
    {
        0x1_0000_0000
    }

    /// Returns the number of a position.
    ///
    /// ```
    /// # use net_base::sequence_number::{Numbering, SequenceNumber};
    /// let numbering = Numbering { first: SequenceNumber::new(u32::MAX) };
    /// assert_eq!(numbering.number(Numbering::first_position()), numbering.first);
    /// assert_eq!(numbering.number(Numbering::first_position() + 1).get(), 0);
    /// ```
    #[inline]
    #[must_use]
    pub fn number(self, pos: u64) -> SequenceNumber
        ensures { result ≡ number_at self.first pos }
    {
        SequenceNumber::at(self.first, pos)
    }

    /// Returns the position nearest to `near` that has a number: less than 2^31 after `near`, or at most 2^31 before
    /// it.
    ///
    /// Positions go round at 2^64 here: where `near` is below 2^31, which no position of the stream is, or within 2^31
    /// of 2^64, the result may be at the other end. `SequenceNumber::position` returns `None` then.
    ///
    /// ```
    /// # use net_base::sequence_number::{Numbering, SequenceNumber};
    /// let numbering = Numbering { first: SequenceNumber::new(7) };
    /// let near = Numbering::first_position() + (1 << 40);
    /// assert_eq!(numbering.position(SequenceNumber::new(9), near), near + 2);
    /// assert_eq!(numbering.position(SequenceNumber::new(6), near), near - 1);
    /// ```
    #[inline]
    #[must_use]
    pub fn position(self, number: SequenceNumber, near: u64) -> u64
        // Guarantee.
        ensures number { number_at self.first result ≡ number }
        ensures around { IsNearAround near result }
        // Guarantee.
        ensures near { 2 ^ 31 ≤ near → near + 2 ^ 31 ≤ 2 ^ 64 → IsNear near result }
        // Guarantee.
        ensures found { (pos : ℕ) → pos < 2 ^ 64 → number_at self.first pos ≡ number →
            IsNear near pos →
            result ≡ pos }
    {
        let ahead = number.ahead_of(self.number(near));
        if ahead < 0x8000_0000 {
            near.wrapping_add(u64::from(ahead))
        } else {
            near.wrapping_sub(0x1_0000_0000 - u64::from(ahead))
        }
    }
}

//! Sequence numbers, which wrap.
ghost use Rattle.std.specs.Prelude.{◌≡◌, ℕ, ◌<◌, ◌^◌, IfSome, Some};
ghost use Rattle.net_receiver.specs.SequenceNumbers.{number_at, ahead_of, IsNear};

use std::marker::Model;
use std::ops::Add;

/// The number by which TCP names a byte of a stream. It has 32 bits, and 0 follows the greatest
/// one.
///
/// A receiver counts in positions of 64 bits, which do not wrap; `at` and `position` convert between the
/// two. smoltcp's `TcpSeqNumber` is an `i32` and has no positions.
///
/// ```
/// use net_base::sequence_number::SequenceNumber;
///
/// let last = SequenceNumber::new(u32::MAX);
/// assert_eq!((last + 1).get(), 0);
/// assert_eq!((last + 1).ahead_of(last), 1);
/// ```
#[derive(Debug, Copy, Clone, PartialEq, Eq)]
pub struct SequenceNumber {
    number: u32,
}

/// Contracts see a whole number below 2^32.
impl Model for SequenceNumber {
    ghost Value = { ℕ };

    ghost view = { λ s. s.number };

    ghost inverse = { λ n. record { number = n } };
}

impl SequenceNumber {
    /// Returns this number.
    ///
    /// ```
    /// # use net_base::sequence_number::SequenceNumber;
    /// assert_eq!(SequenceNumber::new(7).get(), 7);
    /// ```
    #[inline]
    #[must_use]
    pub const fn new(number: u32) -> Self
        ensures { result ≡ number }
    {
        SequenceNumber { number }
    }

    /// Returns the number as it is sent.
    ///
    /// ```
    /// # use net_base::sequence_number::SequenceNumber;
    /// assert_eq!(SequenceNumber::new(7).get(), 7);
    /// ```
    #[inline]
    #[must_use]
    pub const fn get(self) -> u32
        ensures { result ≡ self }
    {
        self.number
    }

    /// Returns the number of a stream's position, if position 0 has the number `initial`. In TCP
    /// the first byte's number is the initial sequence number, that of the SYN, plus 1: `initial`
    /// is this sum if the stream's first byte has position 0.
    ///
    /// ```rust
    /// let window = receiver.window().min(65_535) as u16;
    /// (SequenceNumber::at(initial, receiver.next()), window)
    /// ```
    ///
    /// ```
    /// # use net_base::sequence_number::SequenceNumber;
    /// let initial = SequenceNumber::new(u32::MAX);
    /// assert_eq!(SequenceNumber::at(initial, 3).get(), 2);
    /// ```
    #[inline]
    #[must_use]
    pub fn at(initial: SequenceNumber, pos: u64) -> Self
        ensures { result ≡ number_at initial pos }
    {
        SequenceNumber {
            number: initial.number.wrapping_add((pos & 0xffff_ffff) as u32),
        }
    }

    /// Returns the position nearest to `next` that has this number, if position 0 has the number
    /// `initial`: less than 2^31 after `next`, or at most 2^31 before it. `None` if no position
    /// there has it.
    ///
    /// ```rust
    /// if let Some(pos) = number.position(initial, receiver.next()) {
    ///     let _kept = receiver.keep(pos, payload).is_ok();
    /// }
    /// ```
    ///
    /// ```
    /// # use net_base::sequence_number::SequenceNumber;
    /// let (initial, number) = (SequenceNumber::new(u32::MAX), SequenceNumber::new(2));
    /// assert_eq!(number.position(initial, 0), Some(3));
    /// assert_eq!(number.position(initial, 1 << 32), Some((1 << 32) + 3));
    /// assert_eq!(SequenceNumber::new(u32::MAX - 1).position(initial, 0), None);
    /// ```
    #[inline]
    #[must_use]
    pub fn position(self, initial: SequenceNumber, next: u64) -> Option<u64>
        // Guarantee.
        ensures number { IfSome result (λ pos. number_at initial pos ≡ self) }
        // Guarantee.
        ensures near { IfSome result (λ pos. IsNear next pos) }
        // Guarantee.
        ensures found { (pos : ℕ) → pos < 2 ^ 64 → number_at initial pos ≡ self → IsNear next pos →
            result ≡ Some pos }
    {
        let ahead = self.ahead_of(Self::at(initial, next));
        if ahead < 0x8000_0000 {
            next.checked_add(u64::from(ahead))
        } else {
            next.checked_sub(0x1_0000_0000 - u64::from(ahead))
        }
    }

    /// Returns how far this number is ahead of another one, modulo 2^32. TCP takes it for a later one if
    /// that is above 0 and below 2^31.
    ///
    /// ```
    /// # use net_base::sequence_number::SequenceNumber;
    /// assert_eq!(SequenceNumber::new(2).ahead_of(SequenceNumber::new(u32::MAX)), 3);
    /// ```
    #[inline]
    #[must_use]
    pub fn ahead_of(self, other: SequenceNumber) -> u32
        ensures { result ≡ ahead_of other self }
    {
        self.number.wrapping_sub(other.number)
    }
}

/// Adds a count of bytes to a number, modulo 2^32.
impl Add<u32> for SequenceNumber {
    type Output = SequenceNumber;

    ghost use Rattle.std.specs.Prelude.{◌+◌, ◌%◌};

    ghost add_gives = { λ s n r. r ≡ (s + n) % 2 ^ 32 };

    /// Returns the number `rhs` bytes after this one.
    ///
    /// ```
    /// # use net_base::sequence_number::SequenceNumber;
    /// assert_eq!(SequenceNumber::new(u32::MAX) + 3, SequenceNumber::new(2));
    /// ```
    #[inline]
    fn add(self, rhs: u32) -> SequenceNumber {
        SequenceNumber {
            number: self.number.wrapping_add(rhs),
        }
    }
}

//! The Internet checksum (RFC 1071), over one part or several, and its update (RFC 1624).

// Why: Words are added whose low byte comes first, of 64 bits where registers have as many, else of 32. By one lemma
// any such sum is the right one once its two bytes are exchanged. No one text was the fastest for both.

#![tactic(auto, using(crate::proofs::WordSums::parts))]

ghost use Rattle.std.specs.Prelude.{◌≡◌, ◌↔◌, ℕ, ◌+◌, ◌-◌, ◌*◌, ◌%◌, ◌^◌, ◌<◌, ◌≤◌, List, [], ◌++◌, ◌/◌};
ghost use Rattle.std.specs.Prelude.{length, IsTrue, IsFalse};
ghost use Rattle.net_base.specs.InternetChecksum.{folded, word_sum, internet_checksum, updated, Sums, is_odd};
ghost use Rattle.net_base.specs.InternetChecksum.{sum_with, word_bytes};

use net_ring::width::most;

/// The sum of the 16-bit words of a message, which is given in parts of any lengths, one after another.
/// One of zeros is that of no bytes.
///
/// ```
/// use net_base::checksum::{checksum, PartsSum};
///
/// // A header and its text, in two pieces.
/// let mut sum = PartsSum::new();
/// sum.add(b"head");
/// sum.add(b"text");
/// assert_eq!(sum.checksum(), checksum(b"headtext"));
/// ```
#[repr(C)]
#[derive(Copy, Clone, Debug, PartialEq, Eq, Hash)]
pub struct PartsSum {
    /// The sum of the words, folded to 16 bits; 0 only if that sum is 0.
    sum: u16,
    /// Whether the next byte is the low byte of a word.
    odd: bool,
}

impl PartsSum {
    /// Returns the sum of no bytes.
    #[must_use]
    pub const fn new() -> Self
        ensures nothing { Sums result [] }
        ensures zeros { (result.sum ≡ 0) × IsFalse result.odd }
    {
        PartsSum { sum: 0, odd: false }
    }

    /// Adds the bytes of the next part.
    ///
    /// ```
    /// # use net_base::checksum::PartsSum;
    /// let mut sum = PartsSum::new();
    /// sum.add(&[1]);
    /// sum.add(&[2, 3]);
    /// assert_eq!(sum, PartsSum::new().with(&[1, 2, 3]));
    /// ```
    pub fn add(&mut self, part: &[u8])
        ensures value { self.new ≡ sum_with self.old part.now }
        ensures bytes { (xs : List ℕ) → Sums self.old xs → Sums self.new (xs ++ part.now) }
    {
        *self = self.with(part);
    }

    /// Returns the sum with the bytes of the next part added.
    ///
    /// ```
    /// # use net_base::checksum::{checksum, PartsSum};
    /// let header = PartsSum::new().with(b"head");
    /// assert_eq!(header.with(b"text").checksum(), checksum(b"headtext"));
    /// ```
    #[must_use]
    pub fn with(self, part: &[u8]) -> Self
        ensures value { result ≡ sum_with self part.now }
        ensures bytes { (xs : List ℕ) → Sums self xs → Sums result (xs ++ part.now) }
    {
        let sum = u32::from(swapped(self.sum));
        if !self.odd {
            return sum_from(sum, part);
        }
        match part.split_first() {
            Some((low, words)) => sum_from(sum + u32::from(*low) * 256, words),
            None => self,
        }
    }

    /// Returns the sum with the two bytes of a word added, such as one of a pseudo-header. It is
    /// the same as `with(&word.to_be_bytes())`.
    ///
    /// ```
    /// # use net_base::checksum::PartsSum;
    /// let (even, odd) = (PartsSum::new(), PartsSum::new().with(&[7]));
    /// assert_eq!(even.with_word(0x1234), even.with(&[0x12, 0x34]));
    /// assert_eq!(odd.with_word(0x1234), odd.with(&[0x12, 0x34]));
    /// ```
    #[must_use]
    pub fn with_word(self, word: u16) -> Self
        ensures value { result ≡ sum_with self (word_bytes word) }
        ensures bytes { (xs : List ℕ) → Sums self xs → Sums result (xs ++ word_bytes word) }
    {
        let word = if self.odd { swapped(word) } else { word };
        PartsSum {
            sum: fold(u32::from(self.sum) + u32::from(word)),
            odd: self.odd,
        }
    }

    /// Returns the checksum of the bytes that were added. In a message its high byte comes first.
    ///
    /// UDP sends 65535 in place of 0, since there 0 means that there is no checksum (RFC 768). A
    /// message with either is valid.
    ///
    /// ```
    /// # use net_base::checksum::PartsSum;
    /// // RFC 1071's example.
    /// let sum = PartsSum::new().with(&[0x00, 0x01, 0xf2, 0x03, 0xf4, 0xf5, 0xf6, 0xf7]);
    /// assert_eq!(sum.checksum(), 0x220d);
    /// ```
    #[must_use]
    pub fn checksum(&self) -> u16
        ensures value { result ≡ 65535 - self.now.sum }
        ensures bytes { (xs : List ℕ) → Sums self.now xs → result ≡ internet_checksum xs }
    {
        u16::MAX - self.sum
    }

    /// Returns whether the bytes that were added, with a checksum among them at an even offset, are
    /// valid. If none were added, they aren't.
    ///
    /// ```
    /// # use net_base::checksum::PartsSum;
    /// let sum = PartsSum::new().with(&[0x00, 0x01, 0xf2, 0x03, 0xf4, 0xf5, 0xf6, 0xf7]);
    /// assert!(!sum.is_valid() && sum.with(&[0x22, 0x0d]).is_valid());
    /// ```
    #[must_use]
    pub fn is_valid(&self) -> bool
        ensures value { IsTrue result ↔ (self.now.sum ≡ 65535) }
        ensures bytes { (xs : List ℕ) → Sums self.now xs
            → (IsTrue result ↔ (folded (word_sum xs) ≡ 65535)) }
    {
        self.sum == u16::MAX
    }
}

/// Returns the checksum of these bytes.
///
/// ```
/// # use net_base::checksum::checksum;
/// // RFC 1071's example.
/// assert_eq!(checksum(&[0x00, 0x01, 0xf2, 0x03, 0xf4, 0xf5, 0xf6, 0xf7]), 0x220d);
/// ```
#[must_use]
pub fn checksum(bytes: &[u8]) -> u16
    ensures { result ≡ internet_checksum bytes.now }
{
    u16::MAX - turned(sum_words(0, bytes))
}

/// Returns whether these bytes, with their checksum among them at an even offset, are valid.
///
/// ```
/// # use net_base::checksum::is_valid;
/// assert!(is_valid(&[0x00, 0x01, 0xff, 0xfe]) && !is_valid(&[0x00, 0x02, 0xff, 0xfe]));
/// ```
#[must_use]
pub fn is_valid(bytes: &[u8]) -> bool
    ensures { IsTrue result ↔ (folded (word_sum bytes.now) ≡ 65535) }
{
    turned(sum_words(0, bytes)) == u16::MAX
}

/// Returns the new checksum of a message in which the word `old`, at an even offset, became `new`
/// (RFC 1624, equation 3). `checksum` is the one before. If the message is all zeros now, the
/// result is 0 in place of 65535. In a message the high byte of checksums and words comes first.
///
/// ```
/// # use net_base::checksum::{checksum, updated_checksum};
/// // A router lowers the time to live from 64 to 63.
/// let before = checksum(&[0x45, 0x00, 0x40, 0x06]);
/// assert_eq!(updated_checksum(before, 0x4006, 0x3f06), checksum(&[0x45, 0x00, 0x3f, 0x06]));
/// ```
#[must_use]
pub fn updated_checksum(checksum: u16, old: u16, new: u16) -> u16
    ensures { result ≡ updated checksum old new }
{
    let without = u32::from(u16::MAX - checksum) + u32::from(u16::MAX - old);
    u16::MAX - fold(without + u32::from(new))
}

/// Returns the sum of some words, whose low byte comes first, and of these bytes, the first of which is a high byte.
fn sum_from(start: u32, bytes: &[u8]) -> PartsSum
    requires { start < 2 ^ 17 }
    ensures sum { result.sum ≡ folded (256 * start + word_sum bytes.now) }
    ensures odd { result.odd ≡ is_odd bytes.now }
{
    PartsSum {
        sum: turned(sum_words(start, bytes)),
        odd: bytes.len() % 2 == 1,
    }
}

/// How many bytes are summed with no fold: their sum has room in 32 bits.
const BLOCK: usize = 1 << 16;

/// Adds the words of these bytes to a sum. It sums words whose low byte comes first: 256 times their sum folds to that
/// of the words whose high byte does, since 256 times 256 is one more than a multiple of 65535.
#[tactic(auto, using(crate::proofs::WordSums::block_more, crate::proofs::WordSums::folded_le))]
fn sum_words(start: u32, bytes: &[u8]) -> u32
    requires { start < 2 ^ 17 }
    ensures { folded (256 * result) ≡ folded (256 * start + word_sum bytes.now) }
{
    let mut sum = start;
    let mut rest = bytes;
    while rest.len() > BLOCK {
        let (block, after) = rest.split_at(BLOCK);
        sum = u32::from(fold(sum_block(sum, block)));
        rest = after;
    }
    sum_block(sum, rest)
}

/// Adds the words of a block to a sum.
#[inline]
fn sum_block(start: u32, bytes: &[u8]) -> u32
    requires start { start < 2 ^ 17 }
    requires few { length bytes.now ≤ BLOCK }
    ensures { folded (256 * result) ≡ folded (256 * start + word_sum bytes.now) }
{
    if has_wide_registers() {
        sum_eights(start, bytes)
    } else {
        sum_fours(start, bytes)
    }
}

/// Returns whether registers have 64 bits, as a `usize` has then. It has no contract: both ways are proved for all.
#[inline]
const fn has_wide_registers() -> bool {
    most() as u64 > 0xffff_ffff
}

/// Adds the words of a block to a sum, eight bytes at a time. The loop has no carries, so that it is done by vectors.
#[inline]
#[tactic(auto, using(crate::proofs::WordSums::eight_more))]
fn sum_eights(start: u32, bytes: &[u8]) -> u32
    requires start { start < 2 ^ 17 }
    requires few { length bytes.now ≤ BLOCK }
    ensures { folded (256 * result) ≡ folded (256 * start + word_sum bytes.now) }
{
    let mut sum = u64::from(start);
    let mut rest = bytes;
    while let Some((eight, after)) = rest.split_first_chunk::<8>() {
        let word = u64::from_le_bytes(*eight);
        sum += word / (1 << 32) + word % (1 << 32);
        rest = after;
    }
    sum_few(halved(sum), rest)
}

/// Returns a number of 18 bits that folds as a sum does.
// Proof: A function of its own, since its proof is of a sum alone.
#[inline]
fn halved(sum: u64) -> u32
    ensures same { folded result ≡ folded sum }
    ensures few { result < 2 ^ 18 }
{
    let sum = sum / (1 << 32) + sum % (1 << 32);
    (sum / (1 << 16)) as u32 + (sum % (1 << 16)) as u32
}

/// Adds the words of at most seven bytes to a sum.
// Proof: A function of its own, since the search doesn't find what `sum_eights` returns with this in it.
#[inline]
fn sum_few(start: u32, bytes: &[u8]) -> u32
    requires start { start < 2 ^ 18 }
    requires few { length bytes.now < 8 }
    ensures { folded (256 * result) ≡ folded (256 * start + word_sum bytes.now) }
{
    match bytes.split_first_chunk::<4>() {
        Some((four, after)) => sum_last(start + halves(u32::from_le_bytes(*four)), after),
        None => sum_last(start, bytes),
    }
}

/// Adds the words of a block to a sum, four bytes at a time.
#[inline]
#[tactic(auto, using(crate::proofs::WordSums::four_more))]
fn sum_fours(start: u32, bytes: &[u8]) -> u32
    requires start { start < 2 ^ 17 }
    requires few { length bytes.now ≤ BLOCK }
    ensures { folded (256 * result) ≡ folded (256 * start + word_sum bytes.now) }
{
    let mut sum = start;
    let mut rest = bytes;
    while let Some((four, after)) = rest.split_first_chunk::<4>() {
        sum += halves(u32::from_le_bytes(*four));
        rest = after;
    }
    sum_last(sum, rest)
}

/// Returns the sum of the halves of a number.
#[inline]
fn halves(word: u32) -> u32
    ensures same { folded result ≡ folded word }
    ensures few { result < 2 ^ 17 }
{
    word % (1 << 16) + word / (1 << 16)
}

/// Adds the words of at most three bytes to a sum.
#[inline]
fn sum_last(start: u32, bytes: &[u8]) -> u32
    requires start { start < 2 ^ 31 + 2 ^ 18 }
    requires few { length bytes.now < 4 }
    ensures { folded (256 * result) ≡ folded (256 * start + word_sum bytes.now) }
{
    match bytes.split_first_chunk::<2>() {
        Some((two, after)) => sum_byte(start + u32::from(u16::from_le_bytes(*two)), after),
        None => sum_byte(start, bytes),
    }
}

/// Adds the word of at most one byte to a sum.
#[inline]
fn sum_byte(start: u32, bytes: &[u8]) -> u32
    requires start { start < 2 ^ 31 + 2 ^ 19 }
    requires few { length bytes.now < 2 }
    ensures { folded (256 * result) ≡ folded (256 * start + word_sum bytes.now) }
{
    match bytes.first() {
        Some(low) => start + u32::from(*low),
        None => start,
    }
}

/// Folds a sum of words whose low byte comes first to a word whose high byte does.
#[inline]
fn turned(sum: u32) -> u16
    ensures { result ≡ folded (256 * sum) }
{
    swapped(fold(sum))
}

/// Returns a word with its bytes exchanged.
#[inline]
fn swapped(word: u16) -> u16
    ensures { result ≡ word % 256 * 256 + word / 256 }
{
    word % 256 * 256 + word / 256
}

/// Folds a sum to one word.
#[inline]
fn fold(sum: u32) -> u16
    ensures { result ≡ folded sum }
{
    let sum = sum / (1 << 16) + sum % (1 << 16);
    (sum / (1 << 16) + sum % (1 << 16)) as u16
}

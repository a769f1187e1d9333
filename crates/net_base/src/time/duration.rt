//! Lengths of time, in whole microseconds.
ghost use Rattle.std.specs.Prelude.{◌≡◌, ◌↔◌, IsTrue, Some, ◌+◌, ◌-◌, ◌*◌, ◌/◌, ◌%◌, ◌^◌, ◌<◌, ◌≤◌, min, SomeIff, IfOk};
ghost use Rattle.std.specs.Fmt.InlineText.{inline_text};
ghost use Rattle.std.specs.Duration.{as_nanos};
ghost use Rattle.net_base.specs.Time.{IsLength, length_millis, length_text};

use crate::time::LONGEST_TEXT;
use std::fmt::{self, InlineText, Write};
use std::marker::Model;
use std::ops::{
    Add, AddAssign, Div, DivAssign, Mul, MulAssign, Shl, ShlAssign, Shr, ShrAssign, Sub, SubAssign,
};

/// A length of time, in microseconds. By default it is zero. It serves for timeouts, and for the
/// distance between two moments.
///
/// It has 0 to 2^64 - 1 microseconds. Quotients are rounded down.
///
/// ```
/// use net_base::time::Duration;
///
/// let timeout = Duration::from_millis(13) * 22;
/// assert_eq!((timeout.total_micros(), timeout.to_string()), (286_000, "0.286s".into()));
/// ```
#[derive(Debug, Default, Copy, Clone, PartialEq, Eq, PartialOrd, Ord, Hash)]
pub struct Duration {
    micros: u64,
}

/// Contracts see the microseconds.
impl Model for Duration {
    ghost use Rattle.std.specs.Prelude.{ℕ};

    ghost Value = { ℕ };

    ghost view = { λ d. d.micros };

    ghost inverse = { λ m. record { micros = m } };
}

impl Duration {
    /// No time.
    ///
    /// ```
    /// # use net_base::time::Duration;
    /// assert_eq!(Duration::ZERO, Duration::default());
    /// ```
    pub const ZERO: Duration = Duration { micros: 0 };

    /// The greatest length, of 2^64 - 1 microseconds.
    ///
    /// ```
    /// # use net_base::time::Duration;
    /// assert_eq!(Duration::MAX.total_micros(), u64::MAX);
    /// ```
    pub const MAX: Duration = Duration { micros: u64::MAX };

    /// Returns a length of `micros` microseconds.
    ///
    /// ```
    /// # use net_base::time::Duration;
    /// assert_eq!(Duration::from_micros(1_500).total_millis(), 1);
    /// ```
    #[inline]
    #[must_use]
    pub const fn from_micros(micros: u64) -> Duration
        ensures { result ≡ micros }
    {
        Duration { micros }
    }

    /// Returns whether the microseconds fit a `u64`. If they don't, `from_millis` panics.
    ///
    /// ```
    /// # use net_base::time::Duration;
    /// assert!(Duration::fits_millis(1_000) && !Duration::fits_millis(u64::MAX));
    /// ```
    #[inline]
    #[must_use]
    pub const fn fits_millis(millis: u64) -> bool
        ensures { IsTrue result ↔ IsLength (millis * 1_000) }
    {
        matches!(millis.checked_mul(1_000), Some(_))
    }

    /// Returns a length of `millis` milliseconds.
    ///
    /// ```
    /// # use net_base::time::Duration;
    /// assert_eq!(Duration::from_millis(5).total_micros(), 5_000);
    /// ```
    ///
    /// # Requires
    ///
    /// The microseconds fit a `u64`, as `fits_millis` tests.
    #[inline]
    #[track_caller]
    #[must_use]
    pub const fn from_millis(millis: u64) -> Duration
        requires fits_millis { IsLength (millis * 1_000) }
        ensures { result ≡ millis * 1_000 }
    {
        prove!(
            Self::fits_millis(millis),
            "attempt to multiply with overflow"
        );
        Duration {
            micros: millis * 1_000,
        }
    }

    /// Returns whether the microseconds fit a `u64`. If they don't, `from_secs` panics.
    ///
    /// ```
    /// # use net_base::time::Duration;
    /// assert!(Duration::fits_secs(1_000) && !Duration::fits_secs(u64::MAX));
    /// ```
    #[inline]
    #[must_use]
    pub const fn fits_secs(secs: u64) -> bool
        ensures { IsTrue result ↔ IsLength (secs * 1_000_000) }
    {
        matches!(secs.checked_mul(1_000_000), Some(_))
    }

    /// Returns a length of `secs` seconds.
    ///
    /// ```
    /// # use net_base::time::Duration;
    /// assert_eq!(Duration::from_secs(5).total_millis(), 5_000);
    /// ```
    ///
    /// # Requires
    ///
    /// The microseconds fit a `u64`, as `fits_secs` tests.
    #[inline]
    #[track_caller]
    #[must_use]
    pub const fn from_secs(secs: u64) -> Duration
        requires fits_secs { IsLength (secs * 1_000_000) }
        ensures { result ≡ secs * 1_000_000 }
    {
        prove!(Self::fits_secs(secs), "attempt to multiply with overflow");
        Duration {
            micros: secs * 1_000_000,
        }
    }

    /// Returns the whole milliseconds beyond the whole seconds.
    ///
    /// ```
    /// # use net_base::time::Duration;
    /// assert_eq!(Duration::from_millis(4_934).millis(), 934);
    /// ```
    #[inline]
    #[must_use]
    pub const fn millis(&self) -> u64
        ensures { result ≡ length_millis self.now }
    {
        self.micros / 1_000 % 1_000
    }

    /// Returns the microseconds beyond the whole seconds.
    ///
    /// ```
    /// # use net_base::time::Duration;
    /// assert_eq!(Duration::from_millis(4_934).micros(), 934_000);
    /// ```
    #[inline]
    #[must_use]
    pub const fn micros(&self) -> u64
        ensures { result ≡ self.now % 1_000_000 }
    {
        self.micros % 1_000_000
    }

    /// Returns the whole seconds.
    ///
    /// ```
    /// # use net_base::time::Duration;
    /// assert_eq!(Duration::from_millis(4_934).secs(), 4);
    /// ```
    #[inline]
    #[must_use]
    pub const fn secs(&self) -> u64
        ensures { result ≡ self.now / 1_000_000 }
    {
        self.micros / 1_000_000
    }

    /// Returns the whole milliseconds.
    ///
    /// ```
    /// # use net_base::time::Duration;
    /// assert_eq!(Duration::from_micros(4_934).total_millis(), 4);
    /// ```
    #[inline]
    #[must_use]
    pub const fn total_millis(&self) -> u64
        ensures { result ≡ self.now / 1_000 }
    {
        self.micros / 1_000
    }

    /// Returns all of the microseconds.
    ///
    /// ```
    /// # use net_base::time::Duration;
    /// assert_eq!(Duration::from_millis(4).total_micros(), 4_000);
    /// ```
    #[inline]
    #[must_use]
    pub const fn total_micros(&self) -> u64
        ensures { result ≡ self.now }
    {
        self.micros
    }

    /// Returns whether the whole microseconds of a duration of `core` fit a `u64`.
    ///
    /// ```
    /// # use net_base::time::Duration;
    /// assert!(!Duration::fits_core(core::time::Duration::MAX));
    /// ```
    #[must_use]
    pub fn fits_core(duration: std::time::Duration) -> bool
        ensures { IsTrue result ↔ IsLength (as_nanos duration / 1_000) }
    {
        u64::try_from(duration.as_micros()).is_ok()
    }

    /// Returns the whole microseconds of a duration of the standard library; the nanoseconds beyond
    /// them are dropped.
    ///
    /// ```
    /// # use net_base::time::Duration;
    /// let duration = Duration::from_core(core::time::Duration::from_nanos(1_999));
    /// assert_eq!(duration, Duration::from_micros(1));
    /// ```
    ///
    /// # Requires
    ///
    /// The microseconds fit a `u64`, as `fits_core` tests.
    #[track_caller]
    #[must_use]
    pub fn from_core(duration: std::time::Duration) -> Duration
        requires fits_core { IsLength (as_nanos duration / 1_000) }
        ensures { result ≡ as_nanos duration / 1_000 }
    {
        prove!(
            Self::fits_core(duration),
            "attempt to multiply with overflow"
        );
        Duration {
            micros: duration.as_micros() as u64,
        }
    }

    /// Returns whether the sum is at most [`Duration::MAX`]. If it isn't, `+` and `+=` panic.
    ///
    /// ```
    /// # use net_base::time::Duration;
    /// assert!(!Duration::MAX.can_add(Duration::from_micros(1)));
    /// ```
    #[inline]
    #[must_use]
    pub fn can_add(&self, duration: Duration) -> bool
        ensures { IsTrue result ↔ IsLength (self.now + duration) }
    {
        self.micros.checked_add(duration.micros).is_some()
    }

    /// Returns whether the difference is at least 0. If it isn't, `-` and `-=` panic.
    ///
    /// ```
    /// # use net_base::time::Duration;
    /// let short = Duration::from_millis(1);
    /// assert!(short.can_sub(short) && !short.can_sub(Duration::from_millis(2)));
    /// ```
    #[inline]
    #[must_use]
    pub fn can_sub(&self, duration: Duration) -> bool
        ensures { IsTrue result ↔ (duration ≤ self.now) }
    {
        duration.micros <= self.micros
    }

    /// Returns whether the product is at most [`Duration::MAX`]. If it isn't, `*` and `*=` panic.
    ///
    /// ```
    /// # use net_base::time::Duration;
    /// assert!(Duration::MAX.can_mul(1) && !Duration::MAX.can_mul(2));
    /// ```
    #[inline]
    #[must_use]
    pub fn can_mul(&self, factor: u32) -> bool
        ensures { IsTrue result ↔ IsLength (self.now * factor) }
    {
        self.micros.checked_mul(u64::from(factor)).is_some()
    }

    /// Returns the sum, or `None` if it is above the greatest length.
    ///
    /// ```
    /// # use net_base::time::Duration;
    /// assert_eq!(Duration::MAX.checked_add(Duration::from_micros(1)), None);
    /// ```
    #[inline]
    pub fn checked_add(self, rhs: Duration) -> Option<Duration>
        ensures { SomeIff result (IsLength (self + rhs)) (self + rhs) }
    {
        self.micros
            .checked_add(rhs.micros)
            .map(Duration::from_micros)
    }

    /// Returns the difference, or `None` if `rhs` is the longer one.
    ///
    /// ```
    /// # use net_base::time::Duration;
    /// assert_eq!(Duration::ZERO.checked_sub(Duration::from_micros(1)), None);
    /// ```
    #[inline]
    pub fn checked_sub(self, rhs: Duration) -> Option<Duration>
        ensures { SomeIff result (rhs ≤ self) (self - rhs) }
    {
        self.micros
            .checked_sub(rhs.micros)
            .map(Duration::from_micros)
    }

    /// Returns the product, or `None` if it is above the greatest length.
    ///
    /// ```
    /// # use net_base::time::Duration;
    /// assert_eq!(Duration::MAX.checked_mul(2), None);
    /// ```
    #[inline]
    pub fn checked_mul(self, rhs: u32) -> Option<Duration>
        ensures { SomeIff result (IsLength (self * rhs)) (self * rhs) }
    {
        self.micros
            .checked_mul(u64::from(rhs))
            .map(Duration::from_micros)
    }

    /// Returns the quotient, or `None` if the divisor is 0.
    ///
    /// ```
    /// # use net_base::time::Duration;
    /// assert_eq!(Duration::MAX.checked_div(0), None);
    /// ```
    #[inline]
    pub fn checked_div(self, rhs: u32) -> Option<Duration>
        ensures { SomeIff result (0 < rhs) (self / rhs) }
    {
        self.micros
            .checked_div(u64::from(rhs))
            .map(Duration::from_micros)
    }

    /// Returns the sum, or the greatest length if the sum is above it.
    ///
    /// ```
    /// # use net_base::time::Duration;
    /// assert_eq!(Duration::MAX.saturating_add(Duration::from_micros(1)), Duration::MAX);
    /// ```
    #[inline]
    #[must_use]
    pub fn saturating_add(self, rhs: Duration) -> Duration
        ensures { result ≡ min (self + rhs) (2 ^ 64 - 1) }
    {
        Duration::from_micros(self.micros.saturating_add(rhs.micros))
    }

    /// Returns the difference, or zero if `rhs` is the longer one.
    ///
    /// ```
    /// # use net_base::time::Duration;
    /// assert_eq!(Duration::ZERO.saturating_sub(Duration::from_micros(1)), Duration::ZERO);
    /// ```
    #[inline]
    #[must_use]
    pub fn saturating_sub(self, rhs: Duration) -> Duration
        ensures { result ≡ self - rhs }
    {
        Duration::from_micros(self.micros.saturating_sub(rhs.micros))
    }

    /// Returns the product, or the greatest length if the product is above it.
    ///
    /// ```rust
    /// self.timeout = self.timeout.saturating_mul(2);
    /// self.deadline = now.saturating_add(self.timeout);
    /// ```
    ///
    /// ```
    /// # use net_base::time::Duration;
    /// assert_eq!(Duration::MAX.saturating_mul(2), Duration::MAX);
    /// ```
    #[inline]
    #[must_use]
    pub fn saturating_mul(self, rhs: u32) -> Duration
        ensures { result ≡ min (self * rhs) (2 ^ 64 - 1) }
    {
        Duration::from_micros(self.micros.saturating_mul(u64::from(rhs)))
    }

    /// Returns the text of the length, whatever the options.
    fn text(&self) -> Result<InlineText<LONGEST_TEXT>, fmt::Error>
        ensures { IfOk result (λ text. inline_text text ≡ length_text self.now) }
    {
        let secs = self.secs();
        let millis = self.millis();
        let mut text = InlineText::new();
        write!(text, "{secs}.{millis:0>3}s")?;
        Ok(text)
    }
}

/// `{secs}.{millis}s`, the milliseconds filled on the left by the digit 0 to three places:
/// `4.934s`. Options such as a width change nothing.
impl fmt::Display for Duration {
    ghost output = { λ d. Some (length_text d) };

    ghost styled_output = { λ d _. Some (length_text d) };

    fn fmt<W: fmt::Write>(&self, f: &mut fmt::Formatter<W>) -> fmt::Result {
        let text = self.text()?;
        f.write_str(text.as_str())
    }
}

/// Returns the sum. It panics if that is above [`Duration::MAX`], as `can_add` tests.
impl Add for Duration {
    type Output = Duration;

    ghost can_add = { λ d e. IsLength (d + e) };

    ghost add_gives = { λ d e r. r ≡ d + e };

    #[inline]
    #[track_caller]
    fn add(self, rhs: Duration) -> Duration {
        prove!(self.can_add(rhs), "attempt to add with overflow");
        Duration {
            micros: self.micros + rhs.micros,
        }
    }
}

/// Adds a length. It panics if the sum is above [`Duration::MAX`], as `can_add` tests.
impl AddAssign for Duration {
    ghost can_add_assign = { λ d e. IsLength (d + e) };

    ghost add_assign_gives = { λ d e r. r ≡ d + e };

    #[inline]
    #[track_caller]
    fn add_assign(&mut self, rhs: Duration) {
        prove!(self.can_add(rhs), "attempt to add with overflow");
        self.micros += rhs.micros;
    }
}

/// Returns the difference. It panics if that is below 0, as `can_sub` tests.
impl Sub for Duration {
    type Output = Duration;

    ghost can_sub = { λ d e. e ≤ d };

    ghost sub_gives = { λ d e r. r ≡ d - e };

    #[inline]
    #[track_caller]
    fn sub(self, rhs: Duration) -> Duration {
        prove!(self.can_sub(rhs), "overflow when subtracting durations");
        Duration {
            micros: self.micros - rhs.micros,
        }
    }
}

/// Subtracts a length. It panics if the difference is below 0, as `can_sub` tests.
impl SubAssign for Duration {
    ghost can_sub_assign = { λ d e. e ≤ d };

    ghost sub_assign_gives = { λ d e r. r ≡ d - e };

    #[inline]
    #[track_caller]
    fn sub_assign(&mut self, rhs: Duration) {
        prove!(self.can_sub(rhs), "overflow when subtracting durations");
        self.micros -= rhs.micros;
    }
}

/// Returns the product. It panics if that is above [`Duration::MAX`], as `can_mul` tests.
impl Mul<u32> for Duration {
    type Output = Duration;

    ghost can_mul = { λ d k. IsLength (d * k) };

    ghost mul_gives = { λ d k r. r ≡ d * k };

    #[inline]
    #[track_caller]
    fn mul(self, rhs: u32) -> Duration {
        prove!(self.can_mul(rhs), "attempt to multiply with overflow");
        Duration {
            micros: self.micros * u64::from(rhs),
        }
    }
}

/// Multiplies the length. It panics if the product is above [`Duration::MAX`], as `can_mul` tests.
impl MulAssign<u32> for Duration {
    ghost can_mul_assign = { λ d k. IsLength (d * k) };

    ghost mul_assign_gives = { λ d k r. r ≡ d * k };

    #[inline]
    #[track_caller]
    fn mul_assign(&mut self, rhs: u32) {
        prove!(self.can_mul(rhs), "attempt to multiply with overflow");
        self.micros *= u64::from(rhs);
    }
}

/// Returns the quotient. It panics if the divisor is 0.
impl Div<u32> for Duration {
    type Output = Duration;

    ghost can_div = { λ _ k. 0 < k };

    ghost div_gives = { λ d k r. r ≡ d / k };

    #[inline]
    #[track_caller]
    fn div(self, rhs: u32) -> Duration {
        prove!(rhs > 0, "attempt to divide by zero");
        Duration {
            micros: self.micros / u64::from(rhs),
        }
    }
}

/// Divides the length. It panics if the divisor is 0.
impl DivAssign<u32> for Duration {
    ghost can_div_assign = { λ _ k. 0 < k };

    ghost div_assign_gives = { λ d k r. r ≡ d / k };

    #[inline]
    #[track_caller]
    fn div_assign(&mut self, rhs: u32) {
        prove!(rhs > 0, "attempt to divide by zero");
        self.micros /= u64::from(rhs);
    }
}

/// Returns the low 64 bits of the microseconds, shifted left. It panics if the shift is above 63.
impl Shl<u32> for Duration {
    type Output = Duration;

    ghost can_shl = { λ _ k. k < 64 };

    ghost shl_gives = { λ d k r. r ≡ d * 2 ^ k % 2 ^ 64 };

    #[inline]
    #[track_caller]
    fn shl(self, rhs: u32) -> Duration {
        prove!(rhs < 64, "attempt to shift left with overflow");
        Duration {
            micros: self.micros << rhs,
        }
    }
}

/// Shifts the microseconds left, and keeps the low 64 bits. It panics if the shift is above 63.
impl ShlAssign<u32> for Duration {
    ghost can_shl_assign = { λ _ k. k < 64 };

    ghost shl_assign_gives = { λ d k r. r ≡ d * 2 ^ k % 2 ^ 64 };

    #[inline]
    #[track_caller]
    fn shl_assign(&mut self, rhs: u32) {
        prove!(rhs < 64, "attempt to shift left with overflow");
        self.micros <<= rhs;
    }
}

/// Returns the microseconds, shifted right. It panics if the shift is above 63.
impl Shr<u32> for Duration {
    type Output = Duration;

    ghost can_shr = { λ _ k. k < 64 };

    ghost shr_gives = { λ d k r. r ≡ d / 2 ^ k };

    #[inline]
    #[track_caller]
    fn shr(self, rhs: u32) -> Duration {
        prove!(rhs < 64, "attempt to shift right with overflow");
        Duration {
            micros: self.micros >> rhs,
        }
    }
}

/// Shifts the microseconds right. It panics if the shift is above 63.
impl ShrAssign<u32> for Duration {
    ghost can_shr_assign = { λ _ k. k < 64 };

    ghost shr_assign_gives = { λ d k r. r ≡ d / 2 ^ k };

    #[inline]
    #[track_caller]
    fn shr_assign(&mut self, rhs: u32) {
        prove!(rhs < 64, "attempt to shift right with overflow");
        self.micros >>= rhs;
    }
}

/// Returns the same length as a duration of the standard library.
impl From<Duration> for std::time::Duration {
    ghost from_gives = { λ d r. as_nanos r ≡ d * 1_000 };

    #[inline]
    fn from(duration: Duration) -> std::time::Duration {
        std::time::Duration::from_micros(duration.micros)
    }
}

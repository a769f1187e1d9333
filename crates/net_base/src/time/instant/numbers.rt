//! Moments of numbers, of which Rust's take all that converts to an `i64`.
ghost use Rattle.std.specs.Prelude.{◌≡◌, pos, ◌*ℤ◌};
ghost use Rattle.net_base.specs.Time.{IsMoment};

use crate::time::Instant;

impl Instant {
    /// Returns the moment `micros` microseconds after the origin.
    ///
    /// ```
    /// # use net_base::time::Instant;
    /// assert_eq!(Instant::from_micros(1_500).total_millis(), 1);
    /// ```
    #[inline]
    pub fn from_micros(micros: i64) -> Instant
        ensures { result ≡ micros }
    {
        Instant::from_micros_const(micros)
    }

    /// Returns the moment `millis` milliseconds after the origin.
    ///
    /// ```
    /// # use net_base::time::Instant;
    /// assert_eq!(Instant::from_millis(-5).total_micros(), -5_000);
    /// ```
    ///
    /// # Requires
    ///
    /// So many microseconds fit 64 bits with a sign, as `fits_millis` tests.
    #[inline]
    #[track_caller]
    pub fn from_millis(millis: i64) -> Instant
        requires fits_millis { IsMoment (millis *ℤ pos 1_000) }
        ensures { result ≡ millis *ℤ pos 1_000 }
    {
        Instant::from_millis_const(millis)
    }

    /// Returns the moment `secs` seconds after the origin.
    ///
    /// ```
    /// # use net_base::time::Instant;
    /// assert_eq!(Instant::from_secs(5).total_millis(), 5_000);
    /// ```
    ///
    /// # Requires
    ///
    /// So many microseconds fit 64 bits with a sign, as `fits_secs` tests.
    #[inline]
    #[track_caller]
    pub fn from_secs(secs: i64) -> Instant
        requires fits_secs { IsMoment (secs *ℤ pos 1_000_000) }
        ensures { result ≡ secs *ℤ pos 1_000_000 }
    {
        Instant::from_secs_const(secs)
    }
}

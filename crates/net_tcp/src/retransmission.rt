//! The time until a retransmission.
ghost use Rattle.std.specs.Prelude.{◌≡◌, ◌≤◌, ◌^◌, ◌/◌, min, max};
ghost use Rattle.net_tcp.specs.Retransmission.{sample, first_estimate, next_estimate, within, timeout_of, doubled};
ghost use Rattle.net_tcp.specs.Retransmission.{after_acknowledgement, after_sample, before_samples};

use net_base::time::{Duration, Instant};
use std::marker::Model;

/// The longest round trip that counts, in microseconds: 2^60, some 36,000 years.
const LONGEST_SAMPLE: u64 = 1 << 60;

/// An estimate of the time of a round trip: the smoothed time, in eighths of a microsecond, and its
/// variation, in quarters.
///
/// ```
/// use net_tcp::RttEstimate;
/// use net_base::time::Duration;
///
/// let estimate = RttEstimate::first(Duration::from_millis(80));
/// assert_eq!(estimate.srtt(), Duration::from_millis(80));
/// assert_eq!(estimate.with_sample(Duration::from_millis(160)).srtt(), Duration::from_millis(90));
/// ```
#[derive(Copy, Clone, Debug, PartialEq, Eq, Hash)]
pub struct RttEstimate {
    srtt_8: u64,
    rttvar_4: u64,
}

impl Model for RttEstimate {
    ghost use Rattle.net_tcp.specs.Estimate.{Estimate, IsSmall};

    ghost Value = { Estimate };

    ghost view = { λ e. record { srtt_8 = e.srtt_8; rttvar_4 = e.rttvar_4 } };

    ghost invariant = { λ e. IsSmall (record { srtt_8 = e.srtt_8; rttvar_4 = e.rttvar_4 }) };

    ghost inverse = { λ e. record { srtt_8 = e.srtt_8; rttvar_4 = e.rttvar_4 } };
}

/// The bounds of a timeout, the tick of the clock that the samples are read from, and how long a peer delays an
/// acknowledgement.
///
/// ```
/// use net_tcp::{RttEstimate, TimeoutBounds};
/// use net_base::time::Duration;
///
/// let mut bounds = TimeoutBounds::new();
/// bounds.least = Duration::from_millis(200);
/// // The smoothed time and four times its variation, which is half of the first sample.
/// let after = |millis| RttEstimate::first(Duration::from_millis(millis)).timeout(bounds);
/// assert_eq!((after(100), after(10)), (Duration::from_millis(300), Duration::from_millis(200)));
/// ```
#[derive(Copy, Clone, Debug, PartialEq, Eq, Hash)]
pub struct TimeoutBounds {
    /// The least timeout.
    pub least: Duration,
    /// The greatest, unless `least` is above it.
    pub most: Duration,
    /// The time between two ticks of the clock.
    pub tick: Duration,
    /// The longest time for which the peer delays the acknowledgement of one segment: 200 ms for TCP (RFC 8985, 7.2),
    /// and 25 ms for QUIC, unless its peer says another.
    pub ack_delay: Duration,
}

/// When an acknowledged segment was sent. A segment that was sent again gives no sample: which of
/// the copies was acknowledged is not known (Karn).
///
/// ```
/// use net_tcp::{RetransmissionTimeout, TimeoutBounds, Transmission};
/// use net_base::time::{Duration, Instant};
///
/// let (bounds, now) = (TimeoutBounds::default(), Instant::from_millis(500));
/// let mut timeout = RetransmissionTimeout::new(Duration::from_secs(1));
/// timeout.acknowledged(bounds, Transmission::Repeated, now);
/// assert_eq!(timeout.rtt(), None);
/// timeout.acknowledged(bounds, Transmission::Once(Instant::ZERO), now);
/// assert_eq!(timeout.timeout(), Duration::from_millis(1_500));
/// ```
#[derive(Copy, Clone, Debug, PartialEq, Eq, Hash)]
pub enum Transmission {
    /// Once, at this moment.
    Once(Instant),
    /// More than once.
    Repeated,
}

impl RttEstimate {
    /// Returns the estimate after the first sample.
    ///
    /// ```
    /// # use net_tcp::RttEstimate;
    /// # use net_base::time::Duration;
    /// assert_eq!(RttEstimate::first(Duration::from_millis(80)).srtt(), Duration::from_millis(80));
    /// ```
    #[must_use]
    pub fn first(time: Duration) -> Self
        ensures { result ≡ first_estimate (sample time) }
    {
        let time = time.total_micros().min(LONGEST_SAMPLE);
        RttEstimate {
            srtt_8: time * 8,
            rttvar_4: time * 2,
        }
    }

    /// Returns the estimate after one more sample.
    ///
    /// ```
    /// # use net_tcp::RttEstimate;
    /// # use net_base::time::Duration;
    /// let estimate = RttEstimate::first(Duration::from_millis(80));
    /// assert_eq!(estimate.with_sample(Duration::from_millis(160)).srtt(), Duration::from_millis(90));
    /// ```
    #[must_use]
    pub fn with_sample(self, time: Duration) -> Self
        ensures { result ≡ next_estimate self (sample time) }
    {
        let time = time.total_micros().min(LONGEST_SAMPLE);
        RttEstimate {
            srtt_8: self.srtt_8 - (self.srtt_8 >> 3) + time,
            rttvar_4: self.rttvar_4 - (self.rttvar_4 >> 2) + (self.srtt_8 >> 3).abs_diff(time),
        }
    }

    /// Returns the estimate of these numbers: eight times the smoothed time, of which no more than 2^63
    /// count, and four times its variation, of which no more than 2^62 do. Samples give no more.
    #[inline]
    #[must_use]
    pub fn from_scaled(srtt_8: u64, rttvar_4: u64) -> Self
        ensures { result ≡ within srtt_8 rttvar_4 }
    {
        RttEstimate {
            srtt_8: srtt_8.min(1 << 63),
            rttvar_4: rttvar_4.min(1 << 62),
        }
    }

    /// Returns eight times the smoothed time, in microseconds.
    #[must_use]
    pub const fn srtt_8(self) -> u64
        ensures value { result ≡ self.srtt_8 }
        ensures small { result ≤ 2 ^ 63 }
    {
        self.srtt_8
    }

    /// Returns four times its variation, in microseconds.
    #[must_use]
    pub const fn rttvar_4(self) -> u64
        ensures value { result ≡ self.rttvar_4 }
        ensures small { result ≤ 2 ^ 62 }
    {
        self.rttvar_4
    }

    /// Returns the smoothed time.
    ///
    /// ```
    /// # use net_tcp::RttEstimate;
    /// # use net_base::time::Duration;
    /// let estimate = RttEstimate::first(Duration::from_micros(10));
    /// // A sample moves it by an eighth of the difference.
    /// let estimate = estimate.with_sample(Duration::from_micros(18));
    /// assert_eq!(estimate.srtt(), Duration::from_micros(11));
    /// ```
    #[inline]
    #[must_use]
    pub fn srtt(self) -> Duration
        ensures { result ≡ self.srtt_8 / 8 }
    {
        Duration::from_micros(self.srtt_8 >> 3)
    }

    /// Returns the timeout that it gives: at least the smoothed time, but for the greatest timeout.
    ///
    /// ```
    /// # use net_tcp::{RttEstimate, TimeoutBounds};
    /// # use net_base::time::Duration;
    /// let estimate = RttEstimate::first(Duration::from_millis(400));
    /// assert_eq!(estimate.timeout(TimeoutBounds::default()), Duration::from_millis(1_200));
    /// ```
    #[must_use]
    pub fn timeout(self, bounds: TimeoutBounds) -> Duration
        ensures { result ≡ timeout_of bounds self }
    {
        let variation = bounds.tick.total_micros().max(self.rttvar_4);
        let time = (self.srtt_8 >> 3).saturating_add(variation);
        bounded(bounds, time)
    }
}

/// The time until a retransmission.
///
/// ```
/// use net_tcp::{RetransmissionTimeout, TimeoutBounds};
/// use net_base::time::Duration;
///
/// let bounds = TimeoutBounds::default();
/// let mut timeout = RetransmissionTimeout::new(Duration::from_secs(1));
/// timeout.take_sample(bounds, Duration::from_millis(400));
/// assert_eq!(timeout.timeout(), Duration::from_millis(1_200));
/// timeout.expired(bounds);
/// assert_eq!(timeout.timeout(), Duration::from_millis(2_400));
/// ```
#[derive(Copy, Clone, Debug, PartialEq, Eq, Hash)]
pub struct RetransmissionTimeout {
    estimate: Option<RttEstimate>,
    timeout: Duration,
}

impl RetransmissionTimeout {
    /// Returns a timeout before any sample. The RFC has 1 second.
    ///
    /// ```
    /// # use net_tcp::{RetransmissionTimeout};
    /// # use net_base::time::Duration;
    /// let timeout = RetransmissionTimeout::new(Duration::from_secs(1));
    /// assert_eq!((timeout.rtt(), timeout.timeout()), (None, Duration::from_secs(1)));
    /// ```
    #[must_use]
    pub const fn new(timeout: Duration) -> Self
        ensures { result ≡ before_samples timeout }
    {
        RetransmissionTimeout {
            estimate: None,
            timeout,
        }
    }

    /// Returns a timeout with the estimate of the samples so far, if there were any.
    #[must_use]
    pub const fn from_parts(estimate: Option<RttEstimate>, timeout: Duration) -> Self
        ensures { result ≡ record { estimate = estimate; timeout = timeout } }
    {
        RetransmissionTimeout { estimate, timeout }
    }

    /// Returns the estimate, if there was a sample.
    #[must_use]
    pub fn rtt(&self) -> Option<RttEstimate>
        ensures { result ≡ self.now.estimate }
    {
        self.estimate
    }

    /// Returns the timeout.
    #[must_use]
    pub fn timeout(&self) -> Duration
        ensures { result ≡ self.now.timeout }
    {
        self.timeout
    }

    /// Takes over the sample of a segment that was acknowledged now, if it was sent once.
    ///
    /// ```
    /// # use net_tcp::{RetransmissionTimeout, TimeoutBounds, Transmission};
    /// # use net_base::time::{Duration, Instant};
    /// let mut timeout = RetransmissionTimeout::default();
    /// let sent = Transmission::Once(Instant::ZERO);
    /// timeout.acknowledged(TimeoutBounds::default(), sent, Instant::from_millis(400));
    /// assert_eq!(timeout.timeout(), Duration::from_millis(1_200));
    /// ```
    pub fn acknowledged(&mut self, bounds: TimeoutBounds, sent: Transmission, now: Instant)
        ensures { self.new ≡ after_acknowledgement bounds sent now self.old }
    {
        match sent {
            Transmission::Once(at) => self.take_sample(bounds, now.saturating_duration_since(at)),
            Transmission::Repeated => {}
        }
    }

    /// Takes over a sample, the time from when a segment was sent until it was acknowledged. The
    /// segment was sent once: of one that was sent again it is not known which of the copies was
    /// acknowledged.
    ///
    /// ```
    /// # use net_tcp::{RetransmissionTimeout, TimeoutBounds};
    /// # use net_base::time::Duration;
    /// let mut timeout = RetransmissionTimeout::default();
    /// timeout.take_sample(TimeoutBounds::default(), Duration::from_millis(400));
    /// assert_eq!(timeout.timeout(), Duration::from_millis(1_200));
    /// ```
    pub fn take_sample(&mut self, bounds: TimeoutBounds, time: Duration)
        ensures { self.new ≡ after_sample bounds time self.old }
    {
        let estimate = match self.estimate {
            Some(estimate) => estimate.with_sample(time),
            None => RttEstimate::first(time),
        };
        self.estimate = Some(estimate);
        self.timeout = estimate.timeout(bounds);
    }

    /// Doubles the timeout within the bounds, after it passed.
    ///
    /// ```
    /// # use net_tcp::{RetransmissionTimeout, TimeoutBounds};
    /// # use net_base::time::Duration;
    /// let mut timeout = RetransmissionTimeout::default();
    /// timeout.expired(TimeoutBounds::default());
    /// assert_eq!(timeout.timeout(), Duration::from_secs(2));
    /// ```
    pub fn expired(&mut self, bounds: TimeoutBounds)
        ensures timeout { self.new.timeout ≡ doubled bounds self.old.timeout }
        ensures estimate { self.new.estimate ≡ self.old.estimate }
    {
        self.timeout = bounded(bounds, self.timeout.total_micros().saturating_mul(2));
    }
}

/// Returns a time within the bounds.
fn bounded(bounds: TimeoutBounds, time: u64) -> Duration
    ensures { result ≡ max bounds.least (min bounds.most time) }
{
    let most = bounds.most.total_micros().min(time);
    Duration::from_micros(bounds.least.total_micros().max(most))
}

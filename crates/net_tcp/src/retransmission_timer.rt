//! The timer of retransmissions.

// Why: A probe of a segment alone waits for a delayed acknowledgement until eight weren't late. Without the longer
// wait each of 100 requests was sent twice to Linux where answers came after 20 ms. With none of it after eight, one
// or two were on a busy machine. With all of it always, the timeout comes before the probe.

ghost use Rattle.std.specs.Prelude.{◌≡◌, IsFalse, Some};
ghost use Rattle.net_tcp.specs.Retransmission.{new_timer, restarted, started, stopped, times, timed_after};
ghost use Rattle.net_tcp.specs.Retransmission.{after_sending, with_sample, after_acknowledged, has_expired};
ghost use Rattle.net_tcp.specs.Retransmission.{after_report, after_expiry, expiry, expires_at, first_wait, allowance};
ghost use Rattle.net_tcp.specs.Retransmission.{new_fields, timer_of, untimed, running, probed, timed_out, waiting};
ghost use Rattle.net_tcp.specs.Retransmission.{after_news, prompt_after};
ghost use Rattle.net_base.specs.Time.{moment_after};
ghost use Rattle.net_tcp.specs.Sack.{is_permitted};

use crate::retransmission::{RetransmissionTimeout, RttEstimate, TimeoutBounds};
use crate::sack::Sack;
use net_base::time::{Duration, Instant};
use net_receiver::SentNumbers;
use std::ops::Range;

/// The least time without an answer after which a probe is sent, in microseconds.
const LEAST_WAIT: u64 = 2_000;

/// The timeout of a timer of zeros, in microseconds: 1 second, as RFC 6298 begins (2.1).
const FIRST_TIMEOUT: u64 = 1_000_000;

/// After so many segments alone in a row whose acknowledgements weren't late, that of the next isn't expected to be.
const PROMPT: u64 = 8;

/// What [`RetransmissionTimer::expire`] says is to be sent.
///
/// ```
/// use net_tcp::{Expiry, RetransmissionTimer, Sack, SentNumbers, TimeoutBounds};
/// use net_base::time::{Duration, Instant};
///
/// let mut timer = RetransmissionTimer::new(Duration::from_secs(1), Sack::Permitted);
/// let numbers = SentNumbers { first_unacknowledged: 0, sent: 0 };
/// timer.sent(TimeoutBounds::default(), 0..10, numbers, Instant::ZERO);
/// // Without a sample there is no probe.
/// let said = timer.expire(TimeoutBounds::default(), Instant::from_secs(1));
/// assert_eq!(said, Some(Expiry::Timeout));
/// ```
#[derive(Copy, Clone, Debug, PartialEq, Eq, Hash)]
pub enum Expiry {
    /// A probe: nothing is known to be lost, and the timeout passes when it would have passed.
    Probe,
    /// A retransmission: all that was sent and isn't acknowledged is lost. The timeout has doubled.
    Timeout,
}

/// A segment that is timed: it was sent once.
///
/// ```
/// use net_tcp::{RetransmissionTimer, Sack, SentNumbers, TimeoutBounds};
/// use net_base::time::{Duration, Instant};
///
/// let mut timer = RetransmissionTimer::new(Duration::from_secs(1), Sack::Permitted);
/// let numbers = SentNumbers { first_unacknowledged: 0, sent: 0 };
/// timer.sent(TimeoutBounds::default(), 0..10, numbers, Instant::from_millis(5));
/// let timed = timer.timed().expect("a segment");
/// assert_eq!((timed.pos, timed.since), (0, Instant::from_millis(5)));
/// ```
#[derive(Copy, Clone, Debug, PartialEq, Eq, Hash)]
pub struct TimedSegment {
    /// Its first position.
    pub pos: u64,
    /// When it was sent.
    pub since: Instant,
}

/// The timer of retransmissions, by the rules of RFC 6298, section 5, and the one segment that is timed
/// for a sample.
///
/// It has two deadlines. The timeout passes where nothing new was acknowledged or reported for its length, whatever
/// probes are sent. A probe is due before that or not at all: where nothing new was acknowledged or reported for two
/// round trips (RFC 8985, section 7), and again after twice that time (RFC 9002, section 6.2). Before the first sample
/// there is none, nor after a timeout until something new is acknowledged or reported, nor if the peer reports no
/// blocks: it couldn't answer. Where at most one segment is on the way, its acknowledgement may be delayed, and a probe
/// waits longer by `ack_delay`, until a second segment is sent. If 8 samples in a row of one segment alone weren't
/// late, it waits longer by a quarter of that: a sample is late if such a probe would have come before it. A late one
/// ends that, and after a probe one more that isn't late is wanted.
///
/// Positions and calls are those of a sender. The timer runs while something that was sent isn't
/// acknowledged; `start` also starts it where something else is waited for, as a window that opens. Then it
/// runs until `stop`, or until all that was sent is acknowledged, if some of it wasn't before. What is sent where
/// nothing is on the way starts it anew: its time isn't that of what was waited for.
///
/// It is numbers and flags alone, so that C has it as it is: what there may be has a flag that says so. One of zeros is
/// new, with a timeout of 1 second, of a peer that reports no blocks.
///
/// ```
/// use net_tcp::{RetransmissionTimer, Sack, SentNumbers, TimeoutBounds};
/// use net_base::time::{Duration, Instant};
///
/// let bounds = TimeoutBounds::default();
/// let mut timer = RetransmissionTimer::new(Duration::from_secs(1), Sack::Permitted);
/// timer.sent(bounds, 0..10, SentNumbers { first_unacknowledged: 0, sent: 0 }, Instant::ZERO);
/// assert_eq!(timer.expires_at(), Some(Instant::from_secs(1)));
/// // All is acknowledged after 400 ms: the timer stops, and has a sample.
/// let numbers = SentNumbers { first_unacknowledged: 0, sent: 10 };
/// timer.acknowledged(bounds, numbers, 10, Instant::from_millis(400));
/// assert_eq!((timer.expires_at(), timer.timeout()), (None, Duration::from_millis(1_200)));
/// ```
#[repr(C)]
#[derive(Copy, Clone, Debug, PartialEq, Eq, Hash)]
pub struct RetransmissionTimer {
    /// Eight times the smoothed time of a round trip. No more than 2^63 of it counts, which samples don't exceed.
    srtt_8: u64,
    /// Four times its variation. No more than 2^62 of it counts.
    rttvar_4: u64,
    /// The timeout, if `has_timeout`; else it is 1 second.
    timeout: u64,
    /// When the timeout passes, while it runs.
    ends_at: i64,
    /// When a probe is due, if the timer runs and that is earlier.
    probe_at: i64,
    /// How long the probe has waited then. The next one waits twice that.
    wait: u64,
    /// The position of the timed segment, if there is one.
    timed: u64,
    /// When that was sent.
    timed_since: i64,
    /// Where the last segment begins that had something new.
    last: u64,
    /// How often the timeout has passed since anything new was acknowledged or reported.
    timeouts: u64,
    /// How many samples in a row of one segment alone weren't late, up to 8.
    prompt: u64,
    /// Whether there was a sample.
    has_estimate: bool,
    /// Whether `timeout` counts: always but in a timer of zeros.
    has_timeout: bool,
    /// Whether it runs.
    is_running: bool,
    /// Whether it waits for an acknowledgement that may be delayed.
    is_alone: bool,
    /// Whether a segment is timed.
    is_timing: bool,
    /// Whether the peer reports blocks.
    reports: bool,
}

impl RetransmissionTimer {
    /// Returns a timer that doesn't run, with a timeout before any sample, which the RFC has as 1 second. Without
    /// selective acknowledgements no probe is ever due.
    #[must_use]
    pub const fn new(timeout: Duration, sack: Sack) -> Self
        ensures state { timer_of result ≡ new_timer timeout (is_permitted sack) }
        ensures numbers { result ≡ new_fields timeout (is_permitted sack) }
    {
        RetransmissionTimer {
            srtt_8: 0,
            rttvar_4: 0,
            timeout: timeout.total_micros(),
            ends_at: 0,
            probe_at: 0,
            wait: 0,
            timed: 0,
            timed_since: 0,
            last: 0,
            timeouts: 0,
            prompt: 0,
            has_estimate: false,
            has_timeout: true,
            is_running: false,
            is_alone: false,
            is_timing: false,
            reports: sack.is_permitted(),
        }
    }

    /// Returns the timeout.
    #[must_use]
    pub fn timeout(&self) -> Duration
        ensures { result ≡ (timer_of self.now).timeout.timeout }
    {
        if self.has_timeout {
            Duration::from_micros(self.timeout)
        } else {
            Duration::from_micros(FIRST_TIMEOUT)
        }
    }

    /// Returns the estimate of the time of a round trip, if there was a sample.
    ///
    /// ```
    /// # use net_tcp::{RetransmissionTimer, Sack, SentNumbers, TimeoutBounds};
    /// # use net_base::time::{Duration, Instant};
    /// # let (bounds, numbers) = (TimeoutBounds::default(), SentNumbers { first_unacknowledged: 0, sent: 0 });
    /// # let mut timer = RetransmissionTimer::new(Duration::from_secs(1), Sack::Permitted);
    /// timer.sent(bounds, 0..10, numbers, Instant::ZERO);
    /// timer.acknowledged(bounds, SentNumbers { sent: 10, ..numbers }, 10, Instant::from_millis(80));
    /// assert_eq!(timer.rtt().map(|it| it.srtt()), Some(Duration::from_millis(80)));
    /// ```
    #[inline]
    #[must_use]
    pub fn rtt(&self) -> Option<RttEstimate>
        ensures { result ≡ (timer_of self.now).timeout.estimate }
    {
        if self.has_estimate {
            Some(RttEstimate::from_scaled(self.srtt_8, self.rttvar_4))
        } else {
            None
        }
    }

    /// Returns when it expires, if it runs: when the timeout passes, or a probe is due before that.
    #[must_use]
    pub fn expires_at(&self) -> Option<Instant>
        ensures { result ≡ expires_at (timer_of self.now) }
    {
        if !self.is_running {
            return None;
        }
        let at = if self.reports && self.probe_at < self.ends_at {
            self.probe_at
        } else {
            self.ends_at
        };
        Some(Instant::from_micros(at))
    }

    /// Returns the segment that is timed, if there is one.
    #[must_use]
    pub fn timed(&self) -> Option<TimedSegment>
        ensures { result ≡ (timer_of self.now).timed }
    {
        if !self.is_timing {
            return None;
        }
        Some(TimedSegment {
            pos: self.timed,
            since: Instant::from_micros(self.timed_since),
        })
    }

    /// Returns how often the timeout has passed in a row, without anything new that was acknowledged or reported in
    /// between: enough of them, and the peer is gone. Those at a window that is shut count too, though each is
    /// answered.
    ///
    /// ```
    /// # use net_tcp::{Expiry, RetransmissionTimer, Sack, SentNumbers, TimeoutBounds};
    /// # use net_base::time::{Duration, Instant};
    /// # let (bounds, numbers) = (TimeoutBounds::default(), SentNumbers { first_unacknowledged: 0, sent: 0 });
    /// # let mut timer = RetransmissionTimer::new(Duration::from_secs(1), Sack::Permitted);
    /// timer.sent(bounds, 0..10, numbers, Instant::ZERO);
    /// assert_eq!(timer.expire(bounds, Instant::from_secs(1)), Some(Expiry::Timeout));
    /// assert_eq!((timer.timeouts(), timer.timeout()), (1, Duration::from_secs(2)));
    /// ```
    #[must_use]
    pub fn timeouts(&self) -> u64
        ensures { result ≡ (timer_of self.now).timeouts }
    {
        self.timeouts
    }

    /// Starts the timer, unless it runs, where nothing is on the way: the timeout from `now` on it expires, and no
    /// probe is due.
    ///
    /// ```
    /// # use net_tcp::{RetransmissionTimer, Sack};
    /// # use net_base::time::{Duration, Instant};
    /// # let mut timer = RetransmissionTimer::new(Duration::from_secs(1), Sack::Permitted);
    /// timer.start(Instant::ZERO); // the peer's window is shut
    /// assert_eq!(timer.expires_at(), Some(Instant::from_secs(1)));
    /// timer.stop();
    /// assert_eq!(timer.expires_at(), None);
    /// ```
    pub fn start(&mut self, now: Instant)
        ensures state { timer_of self.new ≡ started now (timer_of self.old) }
    {
        if !self.is_running {
            self.wait_for_timeout(now);
        }
    }

    /// Stops the timer. A segment that is timed stays so.
    pub fn stop(&mut self)
        ensures state { timer_of self.new ≡ stopped (timer_of self.old) }
    {
        self.is_running = false;
        self.ends_at = 0;
    }

    /// Takes notice that the segment with these positions is sent `now`, and starts the timer, unless it runs and
    /// something is on the way. `numbers` are the sender's before that. Nothing changes if there are no positions.
    ///
    /// If no segment is timed, one of which nothing was sent before is then. One that was timed is no
    /// longer if it is sent again: which of the copies an acknowledgement is for is not known (Karn).
    ///
    /// Where nothing else is on the way, the probe waits longer by `ack_delay`, or by a quarter of it. The second
    /// segment that has something new brings it to two round trips from `now`.
    ///
    /// ```
    /// # use net_tcp::{RetransmissionTimer, Sack, SentNumbers, TimeoutBounds};
    /// # use net_base::time::{Duration, Instant};
    /// # let (bounds, numbers) = (TimeoutBounds::default(), SentNumbers { first_unacknowledged: 0, sent: 0 });
    /// # let mut timer = RetransmissionTimer::new(Duration::from_secs(1), Sack::Permitted);
    /// timer.sent(bounds, 0..10, numbers, Instant::from_millis(5));
    /// assert_eq!(timer.expires_at(), Some(Instant::from_millis(1_005)));
    /// ```
    pub fn sent(
        &mut self,
        bounds: TimeoutBounds,
        positions: Range<u64>,
        numbers: SentNumbers,
        now: Instant,
    )
        ensures state { timer_of self.new ≡ after_sending bounds positions.start positions.end
            numbers.first_unacknowledged numbers.sent now (timer_of self.old) }
    {
        if positions.start >= positions.end {
            return;
        }
        let is_new = numbers.sent < positions.end;
        let is_alone = numbers.sent <= numbers.first_unacknowledged;
        self.run(bounds.ack_delay, is_alone, is_new, now);
        if is_new {
            self.last = positions.start;
        }
        self.time(positions.start, positions.end, numbers.sent, now);
    }

    /// Starts the timer if it doesn't run, or one segment `is_alone`: what it ran for is no longer waited for.
    /// Otherwise a second segment that `is_new` brings the probe of one that was alone.
    fn run(&mut self, ack_delay: Duration, is_alone: bool, is_new: bool, now: Instant)
        ensures state { timer_of self.new
            ≡ running ack_delay is_alone is_new now (timer_of self.old) }
    {
        if !self.is_running || is_alone {
            self.restart(ack_delay, is_alone, now);
        } else if self.is_alone && is_new {
            // Two round trips from now on.
            let wait = first_wait(self.rtt());
            self.wait = wait.total_micros();
            self.probe_at = now.saturating_add(wait).total_micros();
            self.is_alone = false;
        }
    }

    /// Times a range that is sent now, or no longer times one that is in it.
    fn time(&mut self, pos: u64, end: u64, sent: u64, now: Instant)
        ensures state { timer_of self.new ≡ timed_after pos end sent now (timer_of self.old) }
    {
        if self.times(pos, end) {
            self.untime();
        } else if !self.is_timing && sent <= pos {
            self.timed = pos;
            self.timed_since = now.total_micros();
            self.is_timing = true;
        }
    }

    /// Times no segment.
    fn untime(&mut self)
        ensures state { timer_of self.new ≡ untimed (timer_of self.old) }
    {
        self.timed = 0;
        self.timed_since = 0;
        self.is_timing = false;
    }

    /// Takes the sample of the timed segment, if there is one, since it has arrived: as `acknowledged`
    /// finds out, and as a SACK block may say.
    ///
    /// ```
    /// # use net_tcp::{RetransmissionTimer, Sack, SentNumbers, TimeoutBounds};
    /// # use net_base::time::{Duration, Instant};
    /// # let (bounds, numbers) = (TimeoutBounds::default(), SentNumbers { first_unacknowledged: 0, sent: 0 });
    /// # let mut timer = RetransmissionTimer::new(Duration::from_secs(1), Sack::Permitted);
    /// timer.sent(bounds, 0..10, numbers, Instant::ZERO);
    /// timer.take_sample(bounds, Instant::from_millis(400)); // a block reports it
    /// assert_eq!(timer.timeout(), Duration::from_millis(1_200));
    /// ```
    pub fn take_sample(&mut self, bounds: TimeoutBounds, now: Instant)
        ensures state { timer_of self.new ≡ with_sample bounds now (timer_of self.old) }
    {
        if let Some(segment) = self.timed() {
            let time = now.saturating_duration_since(segment.since);
            self.prompt = self.prompt_after(bounds.ack_delay, time);
            let mut timeout = RetransmissionTimeout::from_parts(self.rtt(), self.timeout());
            timeout.take_sample(bounds, time);
            self.set_timeout(timeout);
            self.untime();
        }
    }

    /// Sets the timeout, and the estimate.
    fn set_timeout(&mut self, timeout: RetransmissionTimeout)
        ensures state { timer_of self.new ≡ record (timer_of self.old) { timeout = timeout } }
    {
        match timeout.rtt() {
            Some(estimate) => {
                self.srtt_8 = estimate.srtt_8();
                self.rttvar_4 = estimate.rttvar_4();
                self.has_estimate = true;
            }
            None => {
                self.srtt_8 = 0;
                self.rttvar_4 = 0;
                self.has_estimate = false;
            }
        }
        self.timeout = timeout.timeout().total_micros();
        self.has_timeout = true;
    }

    /// Returns how many segments alone in a row weren't acknowledged late, after one more sample.
    fn prompt_after(&self, ack_delay: Duration, time: Duration) -> u64
        ensures { result ≡ prompt_after ack_delay time (timer_of self.now) }
    {
        if !self.is_alone {
            return self.prompt;
        }
        // How long the first probe waits if the acknowledgement isn't expected to be late.
        let wait = first_wait(self.rtt())
            .total_micros()
            .saturating_add(allowance(ack_delay, true, PROMPT));
        if time.total_micros() <= wait {
            self.prompt.saturating_add(1).min(PROMPT)
        } else {
            0
        }
    }

    /// Takes an acknowledgement of all positions below `next`: the sample of the timed segment, if that is below; then,
    /// if it acknowledges something new, it stops the timer if all that was sent is below `next`, and otherwise starts
    /// it again. A repeated acknowledgement does neither, also if nothing is on the way and `start` began the timer.
    /// One of what was never sent changes nothing.
    ///
    /// `numbers` are the sender's before it takes the acknowledgement.
    ///
    /// ```
    /// # use net_tcp::{RetransmissionTimer, Sack, SentNumbers, TimeoutBounds};
    /// # use net_base::time::{Duration, Instant};
    /// # let (bounds, numbers) = (TimeoutBounds::default(), SentNumbers { first_unacknowledged: 0, sent: 0 });
    /// # let mut timer = RetransmissionTimer::new(Duration::from_secs(1), Sack::Permitted);
    /// timer.sent(bounds, 0..10, numbers, Instant::ZERO);
    /// timer.acknowledged(bounds, SentNumbers { sent: 10, ..numbers }, 10, Instant::from_millis(400));
    /// assert_eq!((timer.expires_at(), timer.timeout()), (None, Duration::from_millis(1_200)));
    /// ```
    pub fn acknowledged(
        &mut self,
        bounds: TimeoutBounds,
        numbers: SentNumbers,
        next: u64,
        now: Instant,
    )
        ensures state { timer_of self.new ≡ after_acknowledged bounds
            numbers.first_unacknowledged numbers.sent next now (timer_of self.old) }
    {
        if numbers.sent < next {
            return;
        }
        let ack_delay = bounds.ack_delay;
        if self.times(0, next) {
            self.take_sample(bounds, now);
        }
        if next <= numbers.first_unacknowledged {
            return;
        }
        self.take_news(ack_delay, numbers.sent, next, now);
    }

    /// Takes an acknowledgement of something new, below `next`.
    fn take_news(&mut self, ack_delay: Duration, sent: u64, next: u64, now: Instant)
        ensures state { timer_of self.new ≡ after_news ack_delay sent next now (timer_of self.old) }
    {
        let is_alone = self.last <= next;
        self.timeouts = 0;
        if sent <= next {
            self.stop();
        } else {
            self.restart(ack_delay, is_alone, now);
        }
    }

    /// Takes notice that a block has reported what wasn't known: a timer that runs is started again. A peer that
    /// reports delays no acknowledgement.
    ///
    /// ```
    /// # use net_tcp::{RetransmissionTimer, Sack, SentNumbers, TimeoutBounds};
    /// # use net_base::time::{Duration, Instant};
    /// # let (bounds, numbers) = (TimeoutBounds::default(), SentNumbers { first_unacknowledged: 0, sent: 0 });
    /// # let mut timer = RetransmissionTimer::new(Duration::from_secs(1), Sack::Permitted);
    /// timer.sent(bounds, 0..10, numbers, Instant::ZERO);
    /// timer.reported(Instant::from_millis(300));
    /// assert_eq!(timer.expires_at(), Some(Instant::from_millis(1_300)));
    /// ```
    pub fn reported(&mut self, now: Instant)
        ensures state { timer_of self.new ≡ after_report now (timer_of self.old) }
    {
        self.timeouts = 0;
        if self.is_running {
            self.restart(Duration::ZERO, false, now);
        }
    }

    /// If the timer has expired, returns what is due; otherwise nothing changes.
    ///
    /// After a probe the next one waits twice as long, and the timeout passes when it would have passed. After the
    /// timeout that is doubled within the bounds, and the timer starts again; no segment is timed any longer, and no
    /// probe is due until something new is acknowledged or reported.
    ///
    /// ```
    /// # use net_tcp::{Expiry, RetransmissionTimer, Sack, SentNumbers, TimeoutBounds};
    /// # use net_base::time::{Duration, Instant};
    /// # let (bounds, numbers) = (TimeoutBounds::default(), SentNumbers { first_unacknowledged: 0, sent: 0 });
    /// # let mut timer = RetransmissionTimer::new(Duration::from_secs(1), Sack::Permitted);
    /// timer.sent(bounds, 0..10, numbers, Instant::ZERO);
    /// assert_eq!(timer.expire(bounds, Instant::from_millis(999)), None);
    /// assert_eq!(timer.expire(bounds, Instant::from_secs(1)), Some(Expiry::Timeout));
    /// assert_eq!(timer.expires_at(), Some(Instant::from_secs(3)));
    /// ```
    pub fn expire(&mut self, bounds: TimeoutBounds, now: Instant) -> Option<Expiry>
        ensures result { result ≡ expiry (timer_of self.old) now }
        ensures state { timer_of self.new ≡ after_expiry bounds now (timer_of self.old) }
        ensures unchanged { IsFalse (has_expired (timer_of self.old) now) → self.new ≡ self.old }
    {
        if !self.is_running {
            return None;
        }
        if self.ends_at <= now.total_micros() {
            self.time_out(bounds, now);
            return Some(Expiry::Timeout);
        }
        if self.reports && self.probe_at <= now.total_micros() {
            self.probe(now);
            return Some(Expiry::Probe);
        }
        None
    }

    /// Doubles the timeout, and starts the timer again.
    fn time_out(&mut self, bounds: TimeoutBounds, now: Instant)
        ensures state { timer_of self.new ≡ timed_out bounds now (timer_of self.old) }
    {
        if !self.has_timeout {
            self.timeout = FIRST_TIMEOUT;
            self.has_timeout = true;
        }
        let mut timeout = RetransmissionTimeout::new(Duration::from_micros(self.timeout));
        timeout.expired(bounds);
        self.timeout = timeout.timeout().total_micros();
        self.timeouts = self.timeouts.saturating_add(1);
        self.wait_for_timeout(now);
        self.untime();
    }

    /// Has the next probe wait twice as long, and one more sample be wanted that isn't late.
    // Proof: A function of its own, since the search doesn't find what `expire` leaves with this in it.
    fn probe(&mut self, now: Instant)
        ensures state { timer_of self.new ≡ probed now (timer_of self.old) }
    {
        self.prompt = self.prompt.min(PROMPT - 1);
        self.wait = self.wait.saturating_mul(2);
        let wait = Duration::from_micros(self.wait);
        self.probe_at = now.saturating_add(wait).total_micros();
    }

    /// Starts the timer, whether it runs or not. At most one segment is on the way if one `is_alone`.
    fn restart(&mut self, ack_delay: Duration, is_alone: bool, now: Instant)
        ensures state { timer_of self.new ≡ restarted ack_delay is_alone now (timer_of self.old) }
    {
        let wait = first_wait(self.rtt());
        self.end_after_timeout(now);
        self.wait = wait
            .total_micros()
            .saturating_add(allowance(ack_delay, is_alone, self.prompt));
        let wait = Duration::from_micros(self.wait);
        self.probe_at = now.saturating_add(wait).total_micros();
        self.is_alone = is_alone;
    }

    /// Has the timeout pass its length from now on.
    fn end_after_timeout(&mut self, now: Instant)
        ensures state { timer_of self.new ≡ record (timer_of self.old) {
          ends_at = Some (moment_after now (timer_of self.old).timeout.timeout);
        } }
    {
        self.ends_at = now.saturating_add(self.timeout()).total_micros();
        self.is_running = true;
    }

    /// Starts the timer without a probe.
    fn wait_for_timeout(&mut self, now: Instant)
        ensures state { timer_of self.new ≡ waiting now (timer_of self.old) }
    {
        self.end_after_timeout(now);
        self.wait = u64::MAX;
        self.probe_at = now.saturating_add(Duration::MAX).total_micros();
        self.is_alone = false;
    }

    /// Returns whether the timed segment is at `from` or above, and below `to`.
    fn times(&self, from: u64, to: u64) -> bool
        ensures { result ≡ times (timer_of self.now) from to }
    {
        self.is_timing && from <= self.timed && self.timed < to
    }
}

/// Returns how long the acknowledgement of a segment that is alone is expected to be delayed, in microseconds.
fn allowance(ack_delay: Duration, is_alone: bool, prompt: u64) -> u64
    ensures { result ≡ allowance ack_delay is_alone prompt }
{
    if !is_alone {
        0
    } else if prompt < PROMPT {
        ack_delay.total_micros()
    } else {
        ack_delay.total_micros() / 4
    }
}

/// Returns how long the first probe waits: two round trips, but for the least time; without a sample there is none.
fn first_wait(estimate: Option<RttEstimate>) -> Duration
    ensures { result ≡ first_wait estimate }
{
    match estimate {
        Some(estimate) => {
            Duration::from_micros(
                estimate
                    .srtt()
                    .total_micros()
                    .saturating_mul(2)
                    .max(LEAST_WAIT),
            )
        }
        None => Duration::MAX,
    }
}

//! How often a segment is answered of which nothing is taken.

// Why: It is a type of its own, since it needs a clock, which a receiving end has not.

ghost use Rattle.std.specs.Prelude.{◌≡◌, ◌≤◌, ◌^◌, negsuc, ◌-◌, IsTrue, IsFalse};
ghost use Rattle.net_tcp.specs.AnswerLimit.{allows, after_question, is_limited};

use crate::arriving::Segment;
use net_base::time::{Duration, Instant};

/// After an answer to a segment that may be an answer itself, the next one waits so long, in microseconds.
const PERIOD: u64 = 500_000;

/// Limits how often you answer segments of which nothing is taken: those of which `classify` says `Answer`, or that
/// acknowledge what `is_acknowledgement` refuses. Whatever a peer or a forger sends, no two ends then answer each
/// other's answers without end (RFC 5961, section 7).
///
/// A segment without positions, which may be an answer itself, and a SYN are answered at most twice a second, as Linux
/// does. A segment with bytes or a FIN is answered each time: no answer has any, and a peer that sends them again needs
/// to know. What `AcknowledgementOnly` asks for isn't limited: by law `acknowledgements` (`docs/laws.md`) the end that
/// takes such an answer doesn't send such a segment again, unless something new comes; and each question whether this
/// end is there is answered.
///
/// ```
/// use net_tcp::{classify, AnswerLimit, Arrival, Segment};
/// use net_base::time::Instant;
///
/// let mut limit = AnswerLimit::new();
/// let forged = Segment::new(5_000, 0, 0x10);
/// let mut answers = 0;
/// for millis in 0..1_000 {
///     let is_refused = classify(100, 10, 10, forged) == Arrival::Answer;
///     answers += u32::from(is_refused && limit.allows(forged, Instant::from_millis(millis)));
/// }
/// assert_eq!(answers, 2);
/// ```
#[derive(Copy, Clone, Debug, PartialEq, Eq, Hash)]
pub struct AnswerLimit {
    /// When the next such segment is answered.
    pub until: Instant,
}

impl AnswerLimit {
    /// Returns a limit before any answer, which allows one at any moment.
    ///
    /// ```
    /// use net_tcp::{AnswerLimit, Segment};
    /// use net_base::time::Instant;
    ///
    /// let acknowledgement = Segment::new(7, 0, 1 << 4);
    /// let mut limit = AnswerLimit::new();
    /// assert!(limit.allows(acknowledgement, Instant::from_millis(3)));
    /// assert!(!limit.allows(acknowledgement, Instant::from_millis(502)));
    /// assert!(limit.allows(Segment::new(7, 1, 1 << 4), Instant::from_millis(502)));
    /// assert!(limit.allows(acknowledgement, Instant::from_millis(503)));
    /// ```
    #[must_use]
    pub const fn new() -> Self
        ensures { result.until ≡ negsuc (2 ^ 63 - 1) }
    {
        AnswerLimit {
            until: Instant::from_micros_const(i64::MIN),
        }
    }

    /// Returns whether to answer a segment of which nothing is taken, and if so counts it as answered. Moments are
    /// those of one clock; if that is set back, the limit stays until the moment that it was.
    ///
    /// ```
    /// # use net_tcp::{AnswerLimit, Segment};
    /// # use net_base::time::Instant;
    /// let (mut limit, text) = (AnswerLimit::new(), Segment::new(7, 1, 1 << 4));
    /// // A segment with bytes is answered each time.
    /// assert!(limit.allows(text, Instant::ZERO) && limit.allows(text, Instant::ZERO));
    /// ```
    #[must_use]
    pub fn allows(&mut self, segment: Segment, now: Instant) -> bool
        ensures value { result ≡ allows self.old segment now }
        ensures state { self.new ≡ after_question self.old segment now }
        // Guarantee.
        ensures each { IsFalse segment.syn → 1 ≤ segment.len → IsTrue result }
    {
        let is_limited = segment.syn || segment.len == 0;
        if !is_limited {
            return true;
        }
        if now < self.until {
            return false;
        }
        self.until = now.saturating_add(Duration::from_micros(PERIOD));
        true
    }
}

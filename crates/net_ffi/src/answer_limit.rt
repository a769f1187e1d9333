//! A limit of answers to segments of which nothing is taken (RFC 5961, section 7). Moments are in microseconds, of one
//! clock.
//!
//! A limit of zeros allows an answer from moment 0 on.
ghost use Rattle.std.specs.Prelude.{◌≡◌, ◌^◌, ◌-◌, negsuc};
ghost use Rattle.net_tcp.specs.AnswerLimit.{allows, after_question};
ghost use Rattle.net_ffi.specs.AnswerLimit.{limit_of};

use net_base::time::Instant;
use net_tcp::Segment;

/// A limit of answers. Keep one for each connection.
#[repr(C)]
#[derive(Copy, Clone, Debug)]
pub struct AnswerLimit {
    /// From this moment on a segment that may itself be an answer is answered again.
    pub until: i64,
}

/// Makes `limit` one before any answer, which allows one at any moment.
#[unsafe(no_mangle)]
pub extern "C" fn net_base_answer_limit_init(limit: &mut AnswerLimit)
    ensures { limit.new.until ≡ negsuc (2 ^ 63 - 1) }
{
    *limit = AnswerLimit { until: i64::MIN };
}

/// Returns whether to answer a segment of which nothing is taken, `NET_BASE_ARRIVAL_ANSWER` of
/// `net_base_receiving_end_classify` or `NET_BASE_ACKNOWLEDGED_ANSWER` of `net_base_sending_end_acknowledged`, and if
/// so counts it as answered. A segment without positions, which may be an answer itself, and a SYN are answered at most
/// twice a second, so that two ends don't answer each other's answers without end (RFC 5961, section 7). Any other is
/// answered each time. If the clock is set back, the limit stays until the moment that it was.
#[unsafe(no_mangle)]
pub extern "C" fn net_base_answer_limit_allows(
    limit: &mut AnswerLimit,
    segment: &Segment,
    now: i64,
) -> bool
    ensures value { result ≡ allows (limit_of limit.old) segment.now now }
    ensures state { limit_of limit.new ≡ after_question (limit_of limit.old) segment.now now }
{
    let mut it = net_tcp::AnswerLimit {
        until: Instant::from_micros(limit.until),
    };
    let is_allowed = it.allows(*segment, Instant::from_micros(now));
    limit.until = it.until.total_micros();
    is_allowed
}

//! Equal acknowledgements.
ghost use Rattle.std.specs.Prelude.{◌≡◌};
ghost use Rattle.net_tcp.specs.LossRecovery.{is_equal_acknowledgement};

use net_receiver::SentNumbers;

/// Returns whether an acknowledgement of all below `next` is an equal one (RFC 5681, section 2): it says again what was
/// acknowledged, while something isn't; and its segment `is_bare`. Such a segment has no byte, no SYN, no FIN and no
/// block, and announces the window that was announced last. Something has arrived then, and the peer doesn't say where.
///
/// ```
/// use net_tcp::{is_equal_acknowledgement, SentNumbers};
///
/// let numbers = SentNumbers { first_unacknowledged: 10, sent: 30 };
/// assert!(is_equal_acknowledgement(numbers, 10, true));
/// assert!(!is_equal_acknowledgement(numbers, 20, true));
/// ```
#[must_use]
pub fn is_equal_acknowledgement(numbers: SentNumbers, next: u64, is_bare: bool) -> bool
    ensures { result
        ≡ is_equal_acknowledgement numbers.first_unacknowledged numbers.sent next is_bare }
{
    next == numbers.first_unacknowledged && numbers.first_unacknowledged < numbers.sent && is_bare
}

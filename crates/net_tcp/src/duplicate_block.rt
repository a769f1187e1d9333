//! Reports of what came twice.
ghost use Rattle.std.specs.Prelude.{◌≡◌, option_copied};
ghost use Rattle.net_tcp.specs.LossRecovery.{is_duplicate_block};

use std::ops::Range;

/// Returns whether the first block of an acknowledgement reports what came twice (RFC 2883, section 4): it has a
/// position, and it ends at `next` or below, which is what is acknowledged, or it is in the second block. A block that
/// only says again what was reported doesn't: an acknowledgement repeats blocks.
///
/// ```
/// use net_tcp::is_duplicate_block;
///
/// assert!(is_duplicate_block(20, &(10..20), None));
/// assert!(is_duplicate_block(20, &(30..40), Some(&(25..50))));
/// assert!(!is_duplicate_block(20, &(30..40), Some(&(50..60))));
/// ```
#[must_use]
pub fn is_duplicate_block(next: u64, block: &Range<u64>, second: Option<&Range<u64>>) -> bool
    ensures { result ≡ is_duplicate_block next block.now (option_copied second.entry) }
{
    if block.start >= block.end {
        return false;
    }
    if block.end <= next {
        return true;
    }
    match second {
        Some(other) => other.start <= block.start && block.end <= other.end,
        None => false,
    }
}

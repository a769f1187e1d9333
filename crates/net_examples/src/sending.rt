//! All of a stream that may be sent.
ghost use Rattle.std.specs.Prelude.{◌≡◌, ◌<◌, ℕ, IsFalse};
ghost use Rattle.net_receiver.specs.SendRanges.{data_top, is_open};

use net_assembler::Run;
use net_receiver::SendRangesOver;
use net_ring::Storage;

/// Marks all that may be sent below `limit`, in frames of at most `size` bytes. Whatever the limit is, the loop ends:
/// each frame leaves fewer open numbers.
pub fn send_all<R: Storage<Run>>(ranges: &mut SendRangesOver<R>, limit: u64, size: usize)
    ensures silent { (p : ℕ) → p < data_top ranges.old limit → IsFalse (is_open ranges.new p) }
{
    // The label is the loop's name in its proof.
    'sending: while let Some(range) = ranges.next(limit, size) {
        let _is_marked = ranges.mark(range);
    }
}

//! A TCP segment that is kept, and its acknowledgement.
ghost use Rattle.std.specs.Prelude.{◌≡◌, ℕ, ◌+◌, ◌-◌, ◌<◌, ◌^◌, List, length, min};
ghost use Rattle.net_receiver.specs.OneStream.{ReceivesFrom, MatchesInWindow};
ghost use Rattle.net_receiver.specs.SequenceNumbers.{number_at, IsNear};
ghost use Rattle.net_receiver.specs.ReceiverState.{next_position};

use net_receiver::{Receiver, SequenceNumber};

/// Takes a TCP segment, and keeps its bytes within the window. Returns the acknowledgement to send:
/// the number of the first missing byte, and the window, the number of bytes that have room from
/// there on, at most 65,535.
///
/// `initial` is the number of the stream's first byte, the initial sequence number plus 1, and `number` is that
/// of the segment's first byte.
pub fn acknowledge(
    receiver: &mut Receiver<'_, 4>,
    initial: SequenceNumber,
    number: SequenceNumber,
    payload: &[u8],
) -> (SequenceNumber, u16)
    ensures number { result.0 ≡ number_at initial (next_position receiver.new) }
    ensures window { result.1 ≡ min 65535 (receiver.new.capacity - length receiver.new.queue) }
    ensures receives { (x : List ℕ) (pos : ℕ) → pos + length payload.now < 2 ^ 64 →
        IsNear (next_position receiver.old) pos → number_at initial pos ≡ number →
        ReceivesFrom 0 x receiver.old → MatchesInWindow 0 x receiver.old pos payload.now →
        ReceivesFrom 0 x receiver.new }
{
    if let Some(pos) = number.position(initial, receiver.next()) {
        let _kept = receiver.keep(pos, payload).is_ok();
    }
    let window = receiver.window().min(65_535) as u16;
    (SequenceNumber::at(initial, receiver.next()), window)
}

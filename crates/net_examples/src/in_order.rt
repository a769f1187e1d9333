//! Segments that come in any order, and bytes that are read in order.
ghost use Rattle.std.specs.Prelude.{◌≡◌, ℕ, ◌+◌, List, take, slice_range};
ghost use Rattle.net_receiver.specs.OneStream.{ReceivesFrom, MatchesInWindow};

use net_receiver::{Receiver, laws};
use net_ring::ManagedSlice;

/// Takes a segment, and reads: the bytes read are the stream's next ones.
pub fn receive(receiver: &mut Receiver<'_, 4>, pos: u64, payload: &[u8], into: &mut [u8]) -> usize
    ensures receives { (x : List ℕ) → ReceivesFrom 0 x receiver.old →
        MatchesInWindow 0 x receiver.old pos payload.now → ReceivesFrom 0 x receiver.new }
    ensures bytes { (x : List ℕ) → ReceivesFrom 0 x receiver.old →
        MatchesInWindow 0 x receiver.old pos payload.now →
        take result into.new ≡ slice_range x receiver.old.read (receiver.old.read + result) }
{
    if Receiver::<4>::fits(pos, payload.len()) {
        let _accepted = receiver.segment(pos, payload).is_ok();
    }
    receiver.read(into)
}

/// Returns a receiver of the two halves of a stream, in the wrong order.
pub fn receive_halves<'a>(storage: &'a mut [u8], stream: &[u8]) -> Receiver<'a, 4>
    ensures { ReceivesFrom 0 stream.now result }
{
    laws::matches_stream();
    let mut receiver = Receiver::new(ManagedSlice::Borrowed(storage));
    let half = stream.len() / 2;
    let _held = receiver.segment(half as u64, &stream[half..]).is_ok();
    let _queued = receiver.segment(0, &stream[..half]).is_ok();
    receiver
}

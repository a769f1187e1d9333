//! Bytes that are queued as far as there is room.
ghost use Rattle.std.specs.Prelude.{◌≡◌, ◌+◌, ◌++◌, length, take, min};
ghost use Rattle.net_ring.specs.Ring.{queue, window};

use net_ring::RingBuffer;

/// Enqueues as many bytes as there is room for, and returns how many are left over.
pub fn send_part(ring: &mut RingBuffer<'_, u8>, bytes: &[u8]) -> usize
    ensures queue { queue ring.new ≡ queue ring.old ++ take (window ring.old) bytes.now }
    ensures rest { result + min (length bytes.now) (window ring.old) ≡ length bytes.now }
{
    let count = ring.enqueue_slice(bytes);
    bytes.len() - count
}

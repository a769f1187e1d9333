//! What is tested of a receiver.
ghost use Rattle.std.specs.Prelude.{◌↔◌, ◌+◌, ◌<◌, ◌^◌, IsTrue};
ghost use Rattle.net_ffi.specs.ReceiverParts.{IsReadable, IsPlausible, HasRuns};

use net_receiver::ReceiverHead;

/// The most runs that an end of a stream stores: they are in its head.
pub(crate) const RUNS: usize = 16;

/// How many bytes of a segment were kept, and how many joined the queue.
#[repr(C)]
#[derive(Debug, Clone, Copy)]
pub struct KeptCounts {
    /// How many bytes were kept: those of the segment whose positions are in the free window, and below an end that
    /// is known.
    pub kept: usize,
    /// How many bytes joined the queue: by how many positions the first missing position moved up.
    pub queued: usize,
}

/// Returns whether the first missing position fits 64 bits.
#[inline(always)]
pub(crate) fn has_next(receiver: &ReceiverHead) -> bool
    ensures { IsTrue result ↔ (receiver.now.first + receiver.now.count_read +
        receiver.now.place.length < 2 ^ 64) }
{
    match receiver.first.checked_add(receiver.count_read) {
        Some(read) => receiver.place.length as u64 <= u64::MAX - read,
        None => false,
    }
}

/// Returns whether the queue is in a storage of `capacity` bytes, and the first missing position fits 64 bits.
#[inline(always)]
pub(crate) fn is_readable(receiver: &ReceiverHead, capacity: usize) -> bool
    ensures { IsTrue result ↔ IsReadable capacity receiver.now }
{
    receiver.place.is_sound(capacity) && has_next(receiver)
}

/// Returns whether the head is readable, and `held.used` is at most `run_count`.
#[inline(always)]
pub(crate) fn is_plausible(receiver: &ReceiverHead, capacity: usize, run_count: usize) -> bool
    ensures { IsTrue result ↔ IsPlausible capacity run_count receiver.now }
{
    is_readable(receiver, capacity) && receiver.held.used <= run_count
}

/// Returns whether the first missing position fits 64 bits, and `held.used` is at most `run_count`.
#[inline(always)]
pub(crate) fn has_runs(receiver: &ReceiverHead, run_count: usize) -> bool
    ensures { IsTrue result ↔ HasRuns run_count receiver.now }
{
    has_next(receiver) && receiver.held.used <= run_count
}

//! Segments of a stream that ends.
ghost use Rattle.std.specs.Prelude.{◌≡◌, ◌↔◌, ◌+◌, ◌<◌, ◌≤◌, ◌^◌, ◌==◌, ℕ, List, length, max};
ghost use Rattle.std.specs.Prelude.{IsTrue, IsFalse, MatchResult, if◌then◌else◌};
ghost use Rattle.net_receiver.specs.Finite.{no_end, acknowledged, finite_after, finite_result};
ghost use Rattle.net_receiver.specs.ReceiverState.{limit_of};
ghost use Rattle.net_assembler.specs.RunLists.{IsCanonical};
ghost use Rattle.net_receiver.specs.FiniteHead.{finite_of, finite_storage_after, HasSoundFinite, next_of, end_of};
ghost use Rattle.net_ffi.specs.ReceiverParts.{IsPlausible};
ghost use Rattle.net_ffi.specs.Results.{status_of_finite};

use crate::receiver::{KeptCounts, has_next, is_plausible};
use crate::refusals::{
    NET_BASE_DONE, NET_BASE_OTHER_END, NET_BASE_REFUSED, NET_BASE_TOO_MANY_RUNS, SegmentStatus,
};
use net_assembler::Run;
use net_receiver::{FiniteError, FiniteReceiverHead};

/// Returns whether the first missing position and the number after it fit 64 bits.
#[inline(always)]
pub(crate) fn has_number(receiver: &FiniteReceiverHead) -> bool
    ensures { IsTrue result ↔ (next_of receiver.now < no_end) }
{
    has_next(&receiver.receiver) && receiver.receiver.next() < u64::MAX
}

/// Keeps the bytes of a segment, the first at `position`, that are in the free window and below the end, and writes to
/// `counts` how many. If it `is_last`, the stream ends after it. While something is missing, a last segment is *in
/// order* if it begins at or below the first missing position, and ends at or above that and within the free window.
/// Its end is always taken: it replaces an end that was known, and drops what waits beyond. For any other last segment
/// this returns `NET_BASE_OTHER_END` if the stream can't end there, as `net_base_finite_receiver_can_end` tells. Else it
/// returns `NET_BASE_TOO_MANY_RUNS` if the segment lacks the next missing byte and would make one waiting range too
/// many. After both nothing has changed. It is refused if the head isn't one over such storage and runs:
/// `NET_BASE_REFUSED`, and nothing changes.
///
/// # Requires
///
/// Head and runs are sound, as `net_base_finite_receiver_is_sound` tests.
#[unsafe(no_mangle)]
pub extern "C" fn net_base_finite_receiver_segment(
    receiver: &mut FiniteReceiverHead,
    storage: &mut [u8],
    runs: &mut [Run],
    position: u64,
    bytes: &[u8],
    is_last: bool,
    counts: &mut KeptCounts,
) -> SegmentStatus
    requires sound { IsPlausible (length storage.old) (length runs.old) receiver.old.receiver →
        HasSoundFinite receiver.old (length storage.old) runs.old }
    ensures result { IsPlausible (length storage.old) (length runs.old) receiver.old.receiver →
        MatchResult (finite_result (length runs.old) (finite_of receiver.old storage.old runs.old)
        position bytes.now is_last) (λ k. (result ≡ NET_BASE_DONE) × (counts.new.kept ≡ k.kept) ×
        (counts.new.queued ≡ k.queued)) (λ e. (result ≡ status_of_finite e) × (counts.new ≡
        counts.old) × (receiver.new ≡ receiver.old) × (storage.new ≡ storage.old) × (runs.new ≡
        runs.old)) }
    ensures state { IsPlausible (length storage.old) (length runs.old) receiver.old.receiver →
        finite_of receiver.new storage.new runs.new ≡ finite_after (length runs.old) (finite_of
        receiver.old storage.old runs.old) position bytes.now is_last }
    ensures stored { IsPlausible (length storage.old) (length runs.old) receiver.old.receiver →
        storage.new ≡ finite_storage_after receiver.old storage.old runs.old position bytes.now
        is_last }
    ensures canonical { IsCanonical receiver.old.receiver.held → IsCanonical
        receiver.new.receiver.held }
    ensures sound { IsPlausible (length storage.old) (length runs.old) receiver.old.receiver →
        HasSoundFinite receiver.new (length storage.new) runs.new }
    ensures refused { (IsPlausible (length storage.old) (length runs.old) receiver.old.receiver →
        ⊥) → (result ≡ NET_BASE_REFUSED) × (receiver.new ≡ receiver.old) × (storage.new ≡
        storage.old) × (runs.new ≡ runs.old) × (counts.new ≡ counts.old) }
{
    if !is_plausible(&receiver.receiver, storage.len(), runs.len()) {
        return NET_BASE_REFUSED;
    }
    match receiver.keep(storage, runs, position, bytes, is_last) {
        Ok(it) => {
            *counts = KeptCounts {
                kept: it.kept,
                queued: it.queued,
            };
            NET_BASE_DONE
        }
        Err(FiniteError::TooManyHoles) => NET_BASE_TOO_MANY_RUNS,
        Err(FiniteError::OtherEnd) => NET_BASE_OTHER_END,
    }
}

/// Writes the end of the free window to `end`, and returns true. That is the first position that isn't kept, which you
/// may announce. It is never below what `net_base_finite_receiver_acknowledged` writes.
///
/// It is refused if more than `capacity` bytes are queued, or if that end or the position after the first missing one
/// doesn't fit 64 bits: false, and nothing changes.
#[unsafe(no_mangle)]
pub extern "C" fn net_base_finite_receiver_window_end(
    receiver: &FiniteReceiverHead,
    capacity: usize,
    end: &mut u64,
) -> bool
    ensures fits { IsTrue result ↔ ((receiver.now.receiver.place.length ≤ capacity) × (next_of
        receiver.now < no_end) × (receiver.now.receiver.first + receiver.now.receiver.count_read +
        capacity < 2 ^ 64)) }
    ensures end { IsTrue result → end.new ≡ max (receiver.now.receiver.first +
        receiver.now.receiver.count_read + capacity) (if next_of receiver.now == end_of
        receiver.now then next_of receiver.now + 1 else next_of receiver.now) }
    ensures limit { (storage : List ℕ) (runs : List (ℕ × ℕ)) → length storage ≡ capacity →
        HasSoundFinite receiver.now capacity runs → IsTrue result → end.new ≡ max (limit_of
        (finite_of receiver.now storage runs).receiver) (acknowledged (finite_of receiver.now
        storage runs)) }
    ensures unchanged { IsFalse result → end.new ≡ end.old }
{
    if receiver.receiver.place.length > capacity || !has_number(receiver) {
        return false;
    }
    match receiver.window_end(capacity) {
        Some(position) => {
            *end = position;
            true
        }
        None => false,
    }
}

//! A stream out of segments, for QUIC or a protocol of your own. The stream is *finite* if a segment
//! says where it ends; otherwise it has no end. The end is the position after the last byte. It
//! takes a position, as TCP's FIN does, but no room.
//!
//! A head of zeros is new, of a stream that begins at position 0.
//! `net_base_finite_receiver_segment` takes what arrives, and `net_base_finite_receiver_read`
//! copies what is in order. To read in place, pass `receiver.place` to `net_base_ring_allocated`,
//! which says where the queue is, and then take the bytes off by `net_base_finite_receiver_remove`.
//! `net_base_finite_receiver_acknowledged` says up to where all has arrived, and
//! `net_base_finite_receiver_has_read_all` that the stream has ended and all of it was read.
//!
//! The first missing position is `receiver.first`, plus the bytes read, plus those queued. Waiting
//! range k, of `receiver.held.used`, is from that position plus `receiver.held.first_start` plus
//! `runs[k].start` on, and its end likewise. The rest of the storage is free, and waiting ranges
//! are kept in it.
//!
//! An end in order is never refused, as `net_base_finite_receiver_segment` says: what waits beyond it
//! is dropped, and an end that was known is replaced. An end beyond the free window isn't taken.
ghost use Rattle.net_assembler.specs.RunLists.{IsCanonical};
ghost use Rattle.net_ffi.specs.ReceiverParts.{HasRuns, IsReadable};
ghost use Rattle.net_ffi.specs.Refusals.{no_number};
ghost use Rattle.net_receiver.specs.Finite.{acknowledged, can_end_by, finite_after_read, fresh_finite};
ghost use Rattle.net_receiver.specs.Finite.{has_read_all, no_end};
ghost use Rattle.net_receiver.specs.FiniteHead.{HasSoundFinite, end_of, finite_of, next_of};
ghost use Rattle.net_receiver.specs.Head.{HasSoundHeld, head_after_read, top_at};
ghost use Rattle.net_receiver.specs.NewHeads.{finite_receiver_head};
ghost use Rattle.net_ring.specs.Ring.{queue};
ghost use Rattle.net_ring.specs.RingHead.{IsSound as IsSoundPlace, ring_at};
ghost use Rattle.std.specs.Prelude.{IsFalse, IsTrue, List, drop, if◌then◌else◌, length, min, take, ℕ, ◌++◌, ◌+◌};
ghost use Rattle.std.specs.Prelude.{◌-◌, ◌<◌, ◌==◌, ◌^◌, ◌↔◌, ◌≡◌, ◌≤◌};

use crate::finite_receiver::has_number;
use crate::receiver::{has_next, has_runs};
use crate::refusals::no_number;
use net_assembler::Run;
use net_receiver::FiniteReceiverHead;

/// Makes `receiver` the head of a receiver of a stream that begins at position `first`; nothing has
/// arrived. Storage and runs may have any values.
///
/// It is refused if `first` is `u64::MAX`: false, and nothing changes.
#[unsafe(no_mangle)]
pub extern "C" fn net_base_finite_receiver_init(
    receiver: &mut FiniteReceiverHead,
    first: u64,
) -> bool
    ensures done { IsTrue result ↔ (first < no_end) }
    ensures sound { IsTrue result → (capacity : ℕ) (runs : List (ℕ × ℕ))
        → HasSoundFinite receiver.new capacity runs }
    ensures state { IsTrue result → (storage : List ℕ) (runs : List (ℕ × ℕ))
        → finite_of receiver.new storage runs ≡ fresh_finite first (length storage) }
    ensures canonical { IsTrue result → IsCanonical receiver.new.receiver.held }
    ensures numbers { IsTrue result → receiver.new ≡ finite_receiver_head first }
    ensures unchanged { IsFalse result → (receiver.new ≡ receiver.old) }
{
    if first == u64::MAX {
        return false;
    }
    *receiver = FiniteReceiverHead::new(first);
    true
}

/// Returns whether head and runs are sound over a storage of `capacity` bytes: they are those of a
/// receiver, and the position after its last byte, also of those that wait, is at most the end, if
/// that is known, and below 2^64 - 1. It looks at each used run, and at no byte.
#[unsafe(no_mangle)]
pub extern "C" fn net_base_finite_receiver_is_sound(
    receiver: &FiniteReceiverHead,
    capacity: usize,
    runs: &[Run],
) -> bool
    ensures { IsTrue result ↔ HasSoundFinite receiver.now capacity runs.now }
{
    receiver.is_sound(capacity, runs)
}

/// Returns whether the stream can end at `position`: it is the end that is known, or none is, and
/// it isn't below the first missing position or the end of a waiting range. 2^64 - 1 is no end.
/// `net_base_finite_receiver_segment` takes an end in order even if this is false.
///
/// It is refused if the first missing position doesn't fit 64 bits, or `held.used` is above
/// `runs.len()`: false.
///
/// # Requires
///
/// Head and runs are sound, as `net_base_finite_receiver_is_sound` tests.
#[unsafe(no_mangle)]
pub extern "C" fn net_base_finite_receiver_can_end(
    receiver: &FiniteReceiverHead,
    runs: &[Run],
    position: u64,
) -> bool
    requires sound { HasRuns (length runs.now) receiver.now.receiver
        → HasSoundHeld receiver.now.receiver runs.now }
    ensures value { HasRuns (length runs.now) receiver.now.receiver
        → result
        ≡ can_end_by (end_of receiver.now) (top_at receiver.now.receiver runs.now) position }
    ensures refused { (HasRuns (length runs.now) receiver.now.receiver → ⊥) → IsFalse result }
{
    if !has_runs(&receiver.receiver, runs.len()) {
        return false;
    }
    receiver.can_end(runs, position)
}

/// Writes to `number` the number that an acknowledgement carries: the first missing position, or,
/// once all bytes and the end have arrived, the end plus 1, since the end takes a position.
///
/// It is refused if the position after the first missing one doesn't fit 64 bits: false, and
/// nothing changes.
#[unsafe(no_mangle)]
pub extern "C" fn net_base_finite_receiver_acknowledged(
    receiver: &FiniteReceiverHead,
    number: &mut u64,
) -> bool
    ensures done { IsTrue result ↔ (next_of receiver.now < no_end) }
    ensures state { IsTrue result → (storage : List ℕ) (runs : List (ℕ × ℕ))
        → HasSoundFinite receiver.now (length storage) runs
        → number.new ≡ acknowledged (finite_of receiver.now storage runs) }
    ensures value { IsTrue result
        → number.new ≡ (if next_of receiver.now == end_of receiver.now then next_of receiver.now + 1
        else next_of receiver.now) }
    ensures unchanged { IsFalse result → (number.new ≡ number.old) }
{
    if !has_number(receiver) {
        return false;
    }
    *number = receiver.acknowledged();
    true
}

/// Returns whether all bytes were read, up to the end. Once it is so it stays so.
///
/// It is refused if the position after the first missing one doesn't fit 64 bits: false.
#[unsafe(no_mangle)]
pub extern "C" fn net_base_finite_receiver_has_read_all(receiver: &FiniteReceiverHead) -> bool
    ensures state { next_of receiver.now < no_end → (storage : List ℕ) (runs : List (ℕ × ℕ))
        → result ≡ has_read_all (finite_of receiver.now storage runs) }
    ensures refused { (next_of receiver.now < no_end → ⊥) → IsFalse result }
{
    if !has_number(receiver) {
        return false;
    }
    receiver.has_read_all()
}

/// Copies bytes from the beginning of the queue to that of `into`, takes them off the queue, and
/// returns how many: as many as are queued and as `into` has room for. The rest of `into` stays as
/// it is.
///
/// It is refused if `receiver.receiver.place` isn't that of a ring of `storage.len()` elements, or
/// if the first missing position doesn't fit 64 bits: `NET_BASE_NONE`, and nothing changes.
#[unsafe(no_mangle)]
pub extern "C" fn net_base_finite_receiver_read(
    receiver: &mut FiniteReceiverHead,
    storage: &[u8],
    into: &mut [u8],
) -> usize
    ensures count { IsReadable (length storage.now) receiver.old.receiver
        → result ≡ min (length into.old) receiver.old.receiver.place.length }
    ensures into { let queued = queue (ring_at storage.now receiver.old.receiver.place) in
        IsReadable (length storage.now) receiver.old.receiver
        → into.new ≡ take (length into.old) queued ++ drop (length queued) into.old }
    ensures head { IsReadable (length storage.now) receiver.old.receiver
        → receiver.new.receiver
        ≡ head_after_read (length storage.now) result receiver.old.receiver }
    ensures end { IsReadable (length storage.now) receiver.old.receiver
        → receiver.new.after_end ≡ receiver.old.after_end }
    ensures sound { IsReadable (length storage.now) receiver.old.receiver → (runs : List (ℕ × ℕ))
        → HasSoundFinite receiver.old (length storage.now) runs
        → HasSoundFinite receiver.new (length storage.now) runs }
    ensures state { IsReadable (length storage.now) receiver.old.receiver → (runs : List (ℕ × ℕ))
        → HasSoundFinite receiver.old (length storage.now) runs
        → finite_of receiver.new storage.now runs
        ≡ finite_after_read (finite_of receiver.old storage.now runs) (length into.old) }
    ensures refused { (IsReadable (length storage.now) receiver.old.receiver → ⊥)
        → (result ≡ no_number) × (receiver.new ≡ receiver.old) × («into».new ≡ «into».old) }
{
    if !receiver.receiver.place.is_sound(storage.len()) || !has_next(&receiver.receiver) {
        return no_number();
    }
    receiver.read(storage, into)
}

/// Takes the first `count` bytes off the queue, as `net_base_finite_receiver_read` does, and copies
/// none: they were read in place. `capacity` is how many bytes the storage has.
///
/// It is refused if `receiver.receiver.place` isn't that of a ring of `capacity` elements, or if
/// fewer than `count` elements are queued, or if the first missing position doesn't fit 64 bits:
/// false, and nothing changes.
#[unsafe(no_mangle)]
pub extern "C" fn net_base_finite_receiver_remove(
    receiver: &mut FiniteReceiverHead,
    capacity: usize,
    count: usize,
) -> bool
    ensures done { IsTrue result ↔ ((IsSoundPlace capacity receiver.old.receiver.place)
        × (count ≤ receiver.old.receiver.place.length) × (next_of receiver.old < 2 ^ 64)) }
    ensures head { IsTrue result
        → receiver.new.receiver ≡ head_after_read capacity count receiver.old.receiver }
    ensures end { IsTrue result → receiver.new.after_end ≡ receiver.old.after_end }
    ensures sound { IsTrue result → (runs : List (ℕ × ℕ))
        → HasSoundFinite receiver.old capacity runs → HasSoundFinite receiver.new capacity runs }
    ensures state { IsTrue result → (storage : List ℕ) (runs : List (ℕ × ℕ))
        → length storage ≡ capacity → HasSoundFinite receiver.old capacity runs
        → finite_of receiver.new storage runs
        ≡ finite_after_read (finite_of receiver.old storage runs) count }
    ensures unchanged { IsFalse result → (receiver.new ≡ receiver.old) }
{
    if !receiver.receiver.place.is_sound(capacity)
        || count > receiver.receiver.place.length
        || !has_next(&receiver.receiver)
    {
        return false;
    }
    receiver.remove(capacity, count);
    true
}

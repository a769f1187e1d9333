//! A queue of bytes or other elements: where they are in a storage that the caller keeps.
//!
//! A head of zeros is new. If the elements aren't bytes, pass only the capacity: the call returns
//! indices, and you copy.
//!
//! The elements that a call found stay where they are. Queued ones do until they are dequeued,
//! whatever is enqueued. Free ones do until they are enqueued, whatever is dequeued; but
//! `enqueue_slice` writes free elements, and if the queue is empty it moves them to the storage's
//! beginning. So to fill the storage by DMA, ask `unallocated`, start the DMA there, and `enqueue`
//! as many elements once it has ended. Until then call neither `enqueue_slice` nor `init`; all
//! others may be called. No lock is needed while the DMA runs: duty 3 is about the calls alone. The
//! same is true of elements that you copy yourself. One writer fills at a time, since `unallocated`
//! finds the same elements until they are enqueued.
//!
//! A call is refused if the head doesn't fit the capacity. An empty queue may begin at any index;
//! `read_at` is 0 if the capacity is. A call that takes the last element off leaves `read_at` after
//! it, and doesn't go back to 0. In a span of no elements `from` is where the first would be.
ghost use Rattle.net_ffi.specs.Refusals.{no_number, nowhere};
ghost use Rattle.net_ring.specs.Ring.{Dequeues, Enqueues, queue, rewind_if_empty, window};
ghost use Rattle.net_ring.specs.Ring.{with_dequeued, with_elements_wrapping, with_enqueued, write_at};
ghost use Rattle.net_ring.specs.RingHead.{IsSound, IsWithin, dequeued_place, enqueued_place, free_index};
ghost use Rattle.net_ring.specs.RingHead.{place as place_of, queued_index, ring_at};
ghost use Rattle.std.specs.Prelude.{IsFalse, IsTrue, drop, length, min, take, ◌++◌, ◌+◌, ◌-◌, ◌↔◌, ◌≡◌, ◌≤◌};

use crate::refusals::{no_number, refused_span};
use net_ring::{RingHead, Span};

/// Makes `ring` the head of an empty ring, for a storage of any length.
#[unsafe(no_mangle)]
pub extern "C" fn net_base_ring_init(ring: &mut RingHead)
    ensures { ring.new ≡ place_of 0 0 }
{
    *ring = RingHead::new();
}

/// Returns where at most `size` free elements are, from the one at `offset` on; none if `offset` is
/// past the free elements.
///
/// It is refused if `ring` isn't the head of a ring of `capacity` elements: `from` is `NET_BASE_NONE`,
/// `count` and `contiguous` are 0.
#[unsafe(no_mangle)]
pub extern "C" fn net_base_ring_unallocated(
    ring: &RingHead,
    capacity: usize,
    offset: usize,
    size: usize,
) -> Span
    ensures from { IsSound capacity ring.now → result.from ≡ free_index capacity ring.now offset }
    ensures count { IsSound capacity ring.now
        → result.count ≡ min size (capacity - ring.now.length - offset) }
    ensures contiguous { IsSound capacity ring.now
        → result.contiguous ≡ min result.count (capacity - result.from) }
    ensures within { IsSound capacity ring.now
        → (result.from ≤ capacity) × IsWithin capacity result }
    ensures refused { (IsSound capacity ring.now → ⊥) → result ≡ nowhere }
{
    if !ring.is_sound(capacity) {
        return refused_span();
    }
    ring.unallocated(capacity, offset, size)
}

/// Returns where at most `size` elements of the queue are, from the one at `offset` on; none if
/// `offset` is past the queue.
///
/// It is refused if `ring` isn't the head of a ring of `capacity` elements: `from` is `NET_BASE_NONE`,
/// `count` and `contiguous` are 0.
#[unsafe(no_mangle)]
pub extern "C" fn net_base_ring_allocated(
    ring: &RingHead,
    capacity: usize,
    offset: usize,
    size: usize,
) -> Span
    ensures from { IsSound capacity ring.now
        → result.from ≡ queued_index capacity ring.now offset }
    ensures count { IsSound capacity ring.now
        → result.count ≡ min size (ring.now.length - offset) }
    ensures contiguous { IsSound capacity ring.now
        → result.contiguous ≡ min result.count (capacity - result.from) }
    ensures within { IsSound capacity ring.now
        → (result.from ≤ capacity) × IsWithin capacity result }
    ensures refused { (IsSound capacity ring.now → ⊥) → result ≡ nowhere }
{
    if !ring.is_sound(capacity) {
        return refused_span();
    }
    ring.allocated(capacity, offset, size)
}

/// Enqueues `count` elements that you have written to the storage before.
///
/// It is refused if `ring` isn't the head of a ring of `capacity` elements, or if fewer than
/// `count` elements are free: false, and nothing changes.
#[unsafe(no_mangle)]
pub extern "C" fn net_base_ring_enqueue(ring: &mut RingHead, capacity: usize, count: usize) -> bool
    ensures done { IsTrue result
        ↔ ((IsSound capacity ring.old) × (count ≤ capacity - ring.old.length)) }
    ensures place { IsTrue result → ring.new ≡ enqueued_place count ring.old }
    ensures sound { IsTrue result → IsSound capacity ring.new }
    ensures unchanged { IsFalse result → (ring.new ≡ ring.old) }
{
    if !ring.is_sound(capacity) || count > capacity - ring.length {
        return false;
    }
    ring.enqueue(capacity, count);
    true
}

/// Dequeues `count` elements.
///
/// It is refused if `ring` isn't the head of a ring of `capacity` elements, or if fewer than `count`
/// elements are queued: false, and nothing changes.
#[unsafe(no_mangle)]
pub extern "C" fn net_base_ring_dequeue(ring: &mut RingHead, capacity: usize, count: usize) -> bool
    ensures done { IsTrue result ↔ ((IsSound capacity ring.old) × (count ≤ ring.old.length)) }
    ensures place { IsTrue result → ring.new ≡ dequeued_place capacity count ring.old }
    ensures sound { IsTrue result → IsSound capacity ring.new }
    ensures unchanged { IsFalse result → (ring.new ≡ ring.old) }
{
    if !ring.is_sound(capacity) || count > ring.length {
        return false;
    }
    ring.dequeue(capacity, count);
    true
}

/// Enqueues as many elements of `data` as there is room for, and returns how many. An empty ring
/// first moves its read index to the storage's beginning, even if nothing is enqueued.
///
/// It is refused if `ring` isn't the head of a ring of `storage.len()` elements: `NET_BASE_NONE`, and
/// nothing changes.
#[unsafe(no_mangle)]
pub extern "C" fn net_base_ring_enqueue_slice(
    ring: &mut RingHead,
    storage: &mut [u8],
    data: &[u8],
) -> usize
    ensures count { IsSound (length storage.old) ring.old
        → result ≡ min (length «data».now) (window (ring_at storage.old ring.old)) }
    ensures ring { let g = rewind_if_empty (ring_at storage.old ring.old) in
        IsSound (length storage.old) ring.old
        → ring_at storage.new ring.new
        ≡ with_enqueued result (with_elements_wrapping g (write_at g) (take result «data».now)) }
    ensures enqueued { IsSound (length storage.old) ring.old
        → Enqueues (rewind_if_empty (ring_at storage.old ring.old)) (take result «data».now)
        (ring_at storage.new ring.new) }
    ensures queue { IsSound (length storage.old) ring.old
        → queue (ring_at storage.new ring.new)
        ≡ queue (ring_at storage.old ring.old) ++ take result «data».now }
    ensures same { IsSound (length storage.old) ring.old
        → (ring.new.length ≡ ring.old.length + result)
        × (length storage.new ≡ length storage.old) }
    ensures sound { IsSound (length storage.old) ring.old
        → IsSound (length storage.new) ring.new }
    ensures refused { (IsSound (length storage.old) ring.old → ⊥)
        → (result ≡ no_number) × (ring.new ≡ ring.old) × (storage.new ≡ storage.old) }
{
    if !ring.is_sound(storage.len()) {
        return no_number();
    }
    ring.enqueue_slice(storage, data)
}

/// Dequeues as many elements as `into` has room for and are queued, copies them to the beginning of
/// `into`, and returns how many. The rest of `into` stays as it is.
///
/// It is refused if `ring` isn't the head of a ring of `storage.len()` elements: `NET_BASE_NONE`, and
/// nothing changes.
#[unsafe(no_mangle)]
pub extern "C" fn net_base_ring_dequeue_slice(
    ring: &mut RingHead,
    storage: &[u8],
    into: &mut [u8],
) -> usize
    ensures count { IsSound (length storage.now) ring.old
        → result ≡ min (length «into».old) ring.old.length }
    ensures given { IsSound (length storage.now) ring.old
        → «into».new
        ≡ take result (queue (ring_at storage.now ring.old)) ++ drop result «into».old }
    ensures ring { IsSound (length storage.now) ring.old
        → ring_at storage.now ring.new ≡ with_dequeued result (ring_at storage.now ring.old) }
    ensures dequeued { IsSound (length storage.now) ring.old
        → Dequeues (ring_at storage.now ring.old) result
        (take result (queue (ring_at storage.now ring.old))) (ring_at storage.now ring.new) }
    ensures queue { IsSound (length storage.now) ring.old
        → queue (ring_at storage.now ring.new)
        ≡ drop result (queue (ring_at storage.now ring.old)) }
    ensures sound { IsSound (length storage.now) ring.old
        → IsSound (length storage.now) ring.new }
    ensures refused { (IsSound (length storage.now) ring.old → ⊥)
        → (result ≡ no_number) × (ring.new ≡ ring.old) × («into».new ≡ «into».old) }
{
    if !ring.is_sound(storage.len()) {
        return no_number();
    }
    ring.dequeue_slice(storage, into)
}

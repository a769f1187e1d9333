//! A law whose premise is an equation, as the contracts of calls state it, laws of refusals, and of each `usize`.
//!
//! No function here does anything. A law of `ring_buffer::laws` is about `overwrite xs i ws`
//! itself; `element_after_overwrite` and `element_set` are about any list that is equal to it, such
//! as a field after a call.
ghost use Rattle.std.specs.Prelude.{◌≡◌, ◌+◌, ◌-◌, ◌<◌, ◌≤◌, ◌&&◌, nat_le, nat_lt, ℕ, List, length, slice_index_or};
ghost use Rattle.std.specs.Prelude.{if◌then◌else◌, IsTrue, ◌≢◌, ◌∷◌, [], slice_get, slice_set, Some};
ghost use Rattle.net_ring.specs.{overwrite, ring, place, ring_at, IsSound, free_index, queued_index, rewound};
ghost use Rattle.net_ring.specs.{enqueued_place, dequeued_place};
ghost use Rattle.net_ring.specs.Width.{IsUsize};
ghost use Rattle.net_ring.specs.declared.head.RingHead.{RingHead};

use crate::error::{Empty, Full};
use crate::ring_buffer::laws::overwritten;

/// States that an overwritten list has at each index the element that was written there, or the old
/// one if none was, and that its length is unchanged.
pub fn element_after_overwrite<T>()
    ensures length { (xs ys ws : List T) (i : ℕ) → ys ≡ overwrite xs i ws →
        length ys ≡ length xs }
    ensures element { (xs ys ws : List T) (i k : ℕ) (d : T) → ys ≡ overwrite xs i ws →
        k < length xs → slice_index_or ys k d ≡ (if nat_le i k && nat_lt k (i + length ws)
        then slice_index_or ws (k - i) d else slice_index_or xs k d) }
    ensures written { (xs ys ws : List T) (i k : ℕ) (d : T) → ys ≡ overwrite xs i ws →
        i + length ws ≤ length xs → i ≤ k → k < i + length ws →
        slice_index_or ys k d ≡ slice_index_or ws (k - i) d }
    ensures before { (xs ys ws : List T) (i k : ℕ) (d : T) → ys ≡ overwrite xs i ws →
        k < length xs → k < i → slice_index_or ys k d ≡ slice_index_or xs k d }
    ensures behind { (xs ys ws : List T) (i k : ℕ) (d : T) → ys ≡ overwrite xs i ws →
        k < length xs → i + length ws ≤ k → slice_index_or ys k d ≡ slice_index_or xs k d }
{
    overwritten::<T>();
}

/// States that overwriting a list with one element sets that element and leaves the others
/// unchanged.
#[tactic(auto, using(crate::specs::StorageLaws::element_set_written, crate::proofs::Rotations::one_set))]
pub fn element_set<T>()
    ensures set { (xs ys : List T) (i : ℕ) (x : T) → ys ≡ overwrite xs i (x ∷ []) →
        ys ≡ slice_set xs i x }
    ensures there { (xs ys : List T) (i : ℕ) (x : T) → ys ≡ overwrite xs i (x ∷ []) →
        i < length xs → slice_get ys i ≡ Some x }
    ensures others { (xs ys : List T) (i k : ℕ) (x : T) → ys ≡ overwrite xs i (x ∷ []) →
        k ≢ i → slice_get ys k ≡ slice_get xs k }
{}

/// States that a head of two zeros is that of an empty ring, whatever its storage.
pub fn head_of_zeros<T>()
    ensures sound { (capacity : ℕ) → IsSound capacity (place 0 0) }
    ensures ring { (xs : List T) → ring_at xs (place 0 0) ≡ ring xs 0 0 }
{}

/// States what is lent across calls: free elements have the same indices after others are dequeued, and
/// queued ones after others are enqueued. What rewinds an empty ring moves its free elements; one with a
/// queue isn't rewound.
pub fn lent_stays()
    ensures free { (c k i : ℕ) (p : RingHead) → IsSound c p → k ≤ p.length → i ≤ c - p.length →
        free_index c (dequeued_place c k p) i ≡ free_index c p i }
    ensures queued { (c k i : ℕ) (p : RingHead) → i ≤ p.length →
        queued_index c (enqueued_place k p) i ≡ queued_index c p i }
    ensures unmoved { (p : RingHead) → 1 ≤ p.length → rewound p ≡ p }
{}

/// States that refusals of one kind are equal, and that a clone of one is never refused.
pub fn refusals(full: &Full, other_full: &Full, empty: &Empty, other_empty: &Empty)
    ensures equal { IsTrue (⟦<Full as PartialEq>⟧.eq full.now other_full.now)
        × IsTrue (⟦<Empty as PartialEq>⟧.eq empty.now other_empty.now) }
    ensures never_refused { ⟦<Full as Clone>⟧.is_infallible full.now
        × ⟦<Empty as Clone>⟧.is_infallible empty.now }
{}

/// States that a number of type `usize` is a number of the machine's `usize`, however many bits that has.
///
/// It is given a parameter, a field, a length or what a call returned, and no sum: a sum has to be shown to
/// be one.
pub fn is_usize(n: usize)
    ensures { IsUsize n }
{}

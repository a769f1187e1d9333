//! Laws of rings and of their storage, over the definitions alone: the functions do nothing.
ghost use Rattle.std.specs.Prelude.{◌≡◌, ◌+◌, ◌++◌, ◌∷◌, [], List, length, take, drop, ℕ, slice_set};
ghost use Rattle.net_ring.specs.{overwrite, OverwritesAt, RingState, ring, capacity, window, queue, spare};
ghost use Rattle.net_ring.specs.{IsWellFormed, RingCall, MakesAll, history};

/// States that the numbers of queued and of free elements are the lengths of a ring's two parts,
/// and add up to its capacity.
pub fn count_and_window_are_capacity<T>()
    ensures { (g : RingState T) → IsWellFormed g → (g.count + window g ≡ capacity g)
        × (length (queue g) ≡ g.count) × (length (spare g) ≡ window g) }
{}

/// States that the k-th element to leave is the k-th that was enqueued. Over any calls, in any
/// order, from a new ring on, the elements that left, in order, followed by those that are still
/// queued, are exactly the elements that were enqueued, in order. An element leaves with the value
/// that is shown then, and this is the value last written to it while it was queued, by the call
/// that enqueued it or through a loan. Elements that `clear` and `reset` drop count as never
/// enqueued. What a `RingCall` makes of a ring (`Makes`) follows from the clauses of that call.
#[tactic(auto, using(crate::proofs::RingOrder::in_turn))]
pub fn elements_leave_in_turn<T>()
    ensures { (storage : List T) (calls : List (RingCall T)) (g : RingState T)
        → MakesAll calls (ring storage 0 0) g
        → (history calls).left ++ queue g ≡ (history calls).accepted }
{}

/// States that an overwritten list has as many elements as before, and at each index the element
/// that was written there, or the old one if none was; that writing a part of a list over itself
/// changes nothing; and that overwriting one element sets it.
#[tactic(auto, using(crate::specs::StorageLaws::element_set_written))]
pub fn overwritten<T>()
    ensures count { (xs ws : List T) (i : ℕ) → length (overwrite xs i ws) ≡ length xs }
    ensures element { (xs ws : List T) (i k : ℕ) (x : T) → OverwritesAt xs i ws k x }
    ensures same { (xs : List T) (i n : ℕ) → overwrite xs i (take n (drop i xs)) ≡ xs }
    ensures one { (xs : List T) (i : ℕ) (x : T) → overwrite xs i (x ∷ []) ≡ slice_set xs i x }
{}

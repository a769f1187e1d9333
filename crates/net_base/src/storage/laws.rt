//! A law of an overwritten list and a set of positions. Its premises are equations, as the contracts of a ring's and
//! of an assembler's calls state them. The function does nothing.
ghost use Rattle.std.specs.Prelude.{◌≡◌, ◌+◌, ◌<◌, ◌≤◌, ℕ, List, [], ◌∷◌, length, slice_index_or, IsTrue};
ghost use Rattle.net_ring.specs.Overwrite.{overwrite};
ghost use Rattle.net_assembler.specs.Positions.{Positions, with_range, front, nothing};
ghost use Rattle.net_base.specs.Fragments.{Reassembles, is_in_writes, newest_element};

use net_assembler::assembler::laws::{front as front_is_least, members};
use net_ring::laws::element_after_overwrite;

/// States that `Reassembles` holds of a buffer and the empty set before any write, and after each
/// further write of a list over the buffer whose range is added to the set; and that no element is
/// missing below the front of the set.
pub fn reassembling<T>()
    ensures none { (buffer : List T) → Reassembles [] buffer nothing }
    ensures more { (writes : List (ℕ × List T)) (offset : ℕ) (xs old new : List T)
        (present after : Positions) → new ≡ overwrite old offset xs →
        after ≡ with_range present offset (length xs) → offset + length xs ≤ length old →
        Reassembles writes old present → Reassembles ((offset, xs) ∷ writes) new after }
    ensures whole { (writes : List (ℕ × List T)) (buffer : List T) (present : Positions) (n p : ℕ) →
        Reassembles writes buffer present → n ≤ front present → p < n →
        IsTrue (is_in_writes p writes) }
    ensures element { (writes : List (ℕ × List T)) (buffer : List T) (present : Positions) (n p : ℕ)
        (x : T) → Reassembles writes buffer present → n ≤ front present → p < n →
        slice_index_or buffer p x ≡ newest_element writes p x }
{
    members();
    front_is_least();
    element_after_overwrite::<T>();
}

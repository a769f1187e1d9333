//! Laws of packets that arrive in fragments. No function here does anything.
#![tactic(auto, using(crate::proofs::FragmentFacts::laws))]

ghost use Rattle.std.specs.Prelude.{◌≡◌, ◌<◌, ℕ, IsTrue, List, length, slice_index_or};
ghost use Rattle.net_assembler.specs.Positions.{contains, nothing};
ghost use Rattle.net_base.specs.Fragments.{FragmentsState, after_fragments, last_byte};
ghost use Rattle.net_base.specs.declared.storage.fragments.FragmentError.{FragmentError};
ghost use Rattle.net_base.specs.Values.{ClonesAreSame, ComparesValues};

use super::FragmentError;
use net_assembler::assembler;
use net_ring::ring_buffer;

/// States that after any accepted fragments, in any order and however they overlap, the byte at
/// each position that arrived is that of the last fragment there, whatever was in the buffer
/// before.
pub fn latest_arrival_wins()
    ensures each { (b : FragmentsState) (fs : List (ℕ × List ℕ)) (p d : ℕ) → p < length b.bytes
        → slice_index_or (after_fragments b fs).bytes p d
        ≡ last_byte p (slice_index_or b.bytes p d) fs }
    ensures old_bytes { (b : FragmentsState) (fs : List (ℕ × List ℕ)) (p d : ℕ)
        → b.present ≡ nothing → p < length b.bytes
        → IsTrue (contains (after_fragments b fs).present p)
        → slice_index_or (after_fragments b fs).bytes p 0 ≡ last_byte p d fs }
{
    assembler::laws::members();
    ring_buffer::laws::overwritten::<u8>();
}

/// States that two refusals are equal exactly if they are the same, and that a clone of one is the same, and is never
/// refused.
pub fn refusals()
    ensures equal { ComparesValues ⟦<FragmentError as PartialEq>⟧.eq }
    ensures clones { ClonesAreSame ⟦<FragmentError as Clone>⟧.is_clone
        ⟦<FragmentError as Clone>⟧.is_infallible }
{}

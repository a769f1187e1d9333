//! Sequence numbers of 32 bits, which wrap, and the positions of 64 bits, which don't.
//!
//! A receiver and a sender count in positions; TCP's segments have numbers. If position 0 has the number `initial`,
//! each position has one number, and a number has at most one position near a given one. In TCP segments with numbers
//! before that of the first byte arrive too, as old duplicates. If the first byte has position 0, no position near 0
//! has such a number. If it has the position 2^32 + its number, each has one: then `initial` is 0, and the low 32 bits
//! of a position are its number.
ghost use Rattle.std.specs.Prelude.{◌≡◌, ◌<◌, ◌^◌, ℕ, IsTrue, IsFalse};
ghost use Rattle.net_receiver.specs.SequenceNumbers.{number_at, IsNear};

use net_receiver::SequenceNumber;

/// Returns whether a position near `next` has a number, if position 0 has the number `initial`, and if so writes it to
/// `position`: it is less than 2^31 after `next`, or at most 2^31 before it.
#[unsafe(no_mangle)]
pub extern "C" fn net_base_sequence_number_position(
    number: u32,
    initial: u32,
    next: u64,
    position: &mut u64,
) -> bool
    ensures number { IsTrue result → number_at initial position.new ≡ number }
    ensures near { IsTrue result → IsNear next position.new }
    ensures found { (pos : ℕ) → pos < 2 ^ 64 → number_at initial pos ≡ number → IsNear next pos →
        IsTrue result × (position.new ≡ pos) }
    ensures unchanged { IsFalse result → position.new ≡ position.old }
{
    let number = SequenceNumber::new(number);
    match number.position(SequenceNumber::new(initial), next) {
        Some(pos) => {
            *position = pos;
            true
        }
        None => false,
    }
}

//! Packets in the order of their arrival: where each has its slots and its bytes.
//!
//! A head of zeros is new. A packet's bytes are contiguous. If it doesn't fit before the storage's
//! end, it is placed at its beginning, and the bytes before the end are a *gap*. A packet uses one
//! slot, and a gap before it one more: have a slot more than packets. Calls write the slots. What
//! you know of a packet besides, such as its address, keep in an array of your own, of as many
//! elements as there are slots, at the index `slot` that the call returned.
ghost use Rattle.net_packets.specs.Packets.{with_last_size};
ghost use Rattle.net_packets.specs.PacketsHead.{CanShorten, HasSoundSlots, IsSoundHead, last_slot, last_slot_index};
ghost use Rattle.net_packets.specs.PacketsHead.{packet_slot, packets_head, queue_of};
ghost use Rattle.net_ring.specs.RingHead.{place};
ghost use Rattle.std.specs.Prelude.{IsFalse, IsTrue, List, length, set, ℕ, ◌-◌, ◌↔◌, ◌≡◌};

use net_packets::{PacketSlot, PacketsHead};

/// Makes `packets` the head of a queue with no packets.
#[unsafe(no_mangle)]
pub extern "C" fn net_base_packets_init(packets: &mut PacketsHead)
    ensures { packets.new ≡ packets_head (place 0 0) (place 0 0) }
{
    *packets = PacketsHead::new();
}

/// Takes the last `count` bytes off the last packet, lowers the size in its slot, and returns true:
/// for a caller that wrote fewer bytes than it placed. Returns false, and changes nothing, if there
/// is no packet, or it has fewer bytes.
///
/// It is refused if the numbers of `packets` aren't those of rings of `slots.len()` slots and of
/// `capacity` bytes: false, and nothing changes.
#[unsafe(no_mangle)]
pub extern "C" fn net_base_packets_shorten_last(
    packets: &mut PacketsHead,
    slots: &mut [PacketSlot],
    capacity: usize,
    count: usize,
) -> bool
    ensures done { IsSoundHead (length slots.old) capacity packets.old
        → (IsTrue result ↔ CanShorten packets.old (last_slot packets.old slots.old) count) }
    ensures head { IsTrue result
        → (packets.new.slots ≡ packets.old.slots)
        × (packets.new.bytes ≡ place packets.old.bytes.read_at (packets.old.bytes.length - count)) }
    ensures slots { IsTrue result
        → slots.new ≡ set slots.old (last_slot_index packets.old slots.old)
        (packet_slot ((last_slot packets.old slots.old).size - count)) }
    ensures unchanged { IsFalse result → (packets.new ≡ packets.old) × (slots.new ≡ slots.old) }
    ensures sound { IsSoundHead (length slots.old) capacity packets.old
        → IsSoundHead (length slots.old) capacity packets.new }
    ensures sound_slots { IsSoundHead (length slots.old) capacity packets.old
        → HasSoundSlots capacity packets.old slots.old
        → HasSoundSlots capacity packets.new slots.new }
    ensures state { IsTrue result → (xs : List ℕ) → length xs ≡ capacity
        → HasSoundSlots capacity packets.old slots.old
        → queue_of packets.new slots.new xs ≡ with_last_size
        ((last_slot packets.old slots.old).size - count) (queue_of packets.old slots.old xs) }
    ensures refused { (IsSoundHead (length slots.old) capacity packets.old → ⊥)
        → (IsFalse result) × (packets.new ≡ packets.old) × (slots.new ≡ slots.old) }
{
    if !packets.is_sound(slots.len(), capacity) {
        return false;
    }
    packets.shorten_last_in(slots, capacity, count)
}

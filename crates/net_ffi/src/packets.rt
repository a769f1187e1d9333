//! Packets that are placed, taken and looked at.

// Why: Slots have no header in C. A slot of Rattle and Rust has the header in it, of a type that no export knows. So
// `PacketsOver` asks its head where a packet is placed, and writes its slots itself.

ghost use Rattle.std.specs.Prelude.{◌≡◌, ◌≤◌, ◌⊎◌, ℕ, List, length};
ghost use Rattle.std.specs.declared.option.Option.TheVariants.{Some, None};
ghost use Rattle.net_ring.specs.RingHead.{place};
ghost use Rattle.net_packets.specs.Packets.{with_packet_if_room, without_first_and_gap};
ghost use Rattle.net_packets.specs.PacketsHead.{IsSoundHead, placement_in, place_after_gap, with_packet_placed};
ghost use Rattle.net_packets.specs.PacketsHead.{HasSoundSlots, queue_of, slots_written, HasFirst, first_packet};
ghost use Rattle.net_packets.specs.PacketsHead.{head_after_first, IsFirstAt};
ghost use Rattle.net_packets.specs.declared.packet_slot.PacketSlot.{PacketSlot};
ghost use Rattle.net_ffi.specs.PacketPlaces.{no_place, nonsense_place, no_first, nonsense_first};

use crate::refusals::no_number;
use net_packets::{FirstPacket, PacketPlace, PacketSlot, PacketsHead};

/// What is returned if there is no room.
#[inline(always)]
fn no_place() -> PacketPlace
    ensures { result ≡ no_place }
{
    PacketPlace {
        gap: 0,
        gap_slot: no_number(),
        slot: no_number(),
        from: no_number(),
    }
}

/// What is returned in place of a place that is refused.
#[inline(always)]
pub fn refused_packet_place() -> PacketPlace
    ensures { result ≡ nonsense_place }
{
    PacketPlace {
        gap: no_number(),
        gap_slot: no_number(),
        slot: no_number(),
        from: no_number(),
    }
}

/// What is returned if there is no packet.
#[inline(always)]
fn no_first() -> FirstPacket
    ensures { result ≡ no_first }
{
    FirstPacket {
        gap: 0,
        slot: no_number(),
        from: no_number(),
        size: 0,
    }
}

/// What is returned in place of a first packet that is refused.
#[inline(always)]
pub fn refused_first_packet() -> FirstPacket
    ensures { result ≡ nonsense_first }
{
    FirstPacket {
        gap: no_number(),
        slot: no_number(),
        from: no_number(),
        size: 0,
    }
}

/// Appends a packet of `size` bytes, writes its slot and that of its gap, whose `is_gap` is 1, and returns where they
/// and the packet's bytes are: at the storage's beginning if no byte is in use.
///
/// If there are no `size` contiguous free bytes, or no slots for packet and gap, `gap` is 0, the others are
/// `NET_BASE_NONE`. A head that isn't that of the slots and of `capacity` bytes is refused: then all four are
/// `NET_BASE_NONE`.
#[unsafe(no_mangle)]
pub extern "C" fn net_base_packets_enqueue(
    packets: &mut PacketsHead,
    slots: &mut [PacketSlot],
    capacity: usize,
    size: usize,
) -> PacketPlace
    ensures placed { let n = length slots.old in IsSoundHead n capacity packets.old → (gap : ℕ) →
        placement_in n capacity packets.old size ≡ Some gap → (result ≡ place_after_gap n capacity
        packets.old gap) × (packets.new ≡ with_packet_placed gap size packets.old) × (slots.new ≡
        slots_written result size slots.old) }
    ensures full { IsSoundHead (length slots.old) capacity packets.old → placement_in (length
        slots.old) capacity packets.old size ≡ None → (result ≡ no_place) × (packets.new ≡
        packets.old) × (slots.new ≡ slots.old) }
    ensures refused { (IsSoundHead (length slots.old) capacity packets.old → ⊥) → (result ≡
        nonsense_place) × (packets.new ≡ packets.old) × (slots.new ≡ slots.old) }
    ensures state { (xs : List ℕ) → length xs ≡ capacity → HasSoundSlots capacity packets.old
        slots.old → queue_of packets.new slots.new xs ≡ with_packet_if_room (queue_of packets.old
        slots.old xs) size tt }
    ensures sound { HasSoundSlots capacity packets.old slots.old → HasSoundSlots capacity
        packets.new slots.new }
{
    if !packets.is_sound(slots.len(), capacity) {
        return refused_packet_place();
    }
    match packets.enqueue(slots, capacity, size) {
        Some(place) => place,
        None => no_place(),
    }
}

/// Takes the first packet off, and the gap before it, and returns where it is. Its bytes stay until another packet is
/// placed there.
///
/// If there is none, `gap` and `size` are 0, the others `NET_BASE_NONE`. A head or a first slot that calls of this kind
/// didn't write is refused: then `gap` is `NET_BASE_NONE` too. In both cases nothing changes.
#[unsafe(no_mangle)]
pub extern "C" fn net_base_packets_dequeue(
    packets: &mut PacketsHead,
    slots: &[PacketSlot],
    capacity: usize,
) -> FirstPacket
    ensures taken { IsSoundHead (length slots.now) capacity packets.old → HasFirst capacity
        packets.old slots.now → (result ≡ first_packet capacity packets.old slots.now) ×
        (packets.new ≡ head_after_first capacity packets.old slots.now) }
    ensures empty { IsSoundHead (length slots.now) capacity packets.old → packets.old.slots.length
        ≡ 0 → (result ≡ no_first) × (packets.new ≡ packets.old) }
    ensures refused { (IsSoundHead (length slots.now) capacity packets.old × (HasFirst capacity
        packets.old slots.now ⊎ (packets.old.slots.length ≡ 0)) → ⊥) → (result ≡ nonsense_first) ×
        (packets.new ≡ packets.old) }
    ensures first { HasSoundSlots capacity packets.old slots.now → 1 ≤ packets.old.slots.length →
        HasFirst capacity packets.old slots.now }
    ensures state { (xs : List ℕ) → length xs ≡ capacity → HasSoundSlots capacity packets.old
        slots.now → 1 ≤ packets.old.slots.length → (queue_of packets.new slots.now xs ≡
        without_first_and_gap (queue_of packets.old slots.now xs)) × IsFirstAt (queue_of
        packets.old slots.now xs) result }
    ensures sound { HasSoundSlots capacity packets.old slots.now → HasSoundSlots capacity
        packets.new slots.now }
{
    if !packets.is_sound(slots.len(), capacity) {
        return refused_first_packet();
    }
    if packets.slots.length == 0 {
        return no_first();
    }
    match packets.dequeue(slots, capacity) {
        Some(first) => first,
        None => refused_first_packet(),
    }
}

/// Returns where the first packet is, which stays; otherwise what `net_base_packets_dequeue` returns.
#[unsafe(no_mangle)]
pub extern "C" fn net_base_packets_peek(
    packets: &PacketsHead,
    slots: &[PacketSlot],
    capacity: usize,
) -> FirstPacket
    ensures first { IsSoundHead (length slots.now) capacity packets.now → HasFirst capacity
        packets.now slots.now → result ≡ first_packet capacity packets.now slots.now }
    ensures empty { IsSoundHead (length slots.now) capacity packets.now → packets.now.slots.length
        ≡ 0 → result ≡ no_first }
    ensures refused { (IsSoundHead (length slots.now) capacity packets.now × (HasFirst capacity
        packets.now slots.now ⊎ (packets.now.slots.length ≡ 0)) → ⊥) → result ≡ nonsense_first }
    ensures state { (xs : List ℕ) → length xs ≡ capacity → HasSoundSlots capacity packets.now
        slots.now → 1 ≤ packets.now.slots.length → IsFirstAt (queue_of packets.now slots.now xs)
        result }
{
    if !packets.is_sound(slots.len(), capacity) {
        return refused_first_packet();
    }
    if packets.slots.length == 0 {
        return no_first();
    }
    match packets.peek(slots, capacity) {
        Some(first) => first,
        None => refused_first_packet(),
    }
}

//! Laws of packet queues. No function here does anything: each is called for its contract.
ghost use Rattle.std.specs.Prelude.{◌≡◌, ◌≢◌, ◌≤◌, ◌<◌, ◌+◌, ◌++◌, ◌∷◌, ◌↔◌, [], ℕ, List, Bool, length, take, drop};
ghost use Rattle.std.specs.Prelude.{if◌then◌else◌};
ghost use Rattle.std.specs.declared.option.Option.TheVariants.{Some, None};
ghost use Rattle.net_packets.specs.{PacketsState, IsWellPlaced, no_packets, IsFirst, after_drops, without_oldest};
ghost use Rattle.net_packets.specs.{HasNoRoom, HasNoRoomBefore, placement, with_packet_if_room, with_last_bytes};
ghost use Rattle.net_packets.specs.{with_last_size, without_gap, first_size, with_first_bytes, without_first};
ghost use Rattle.net_packets.specs.{after_hand_out, without_first_and_gap, packets_at, IsSoundHead, packets_head};
ghost use Rattle.net_packets.specs.{contents, QueueCall, MakesAll, history};
ghost use Rattle.net_ring.specs.RingHead.{place};

use crate::packet_buffer::PacketsOver;
use crate::packet_metadata::PacketMetadata;
use net_ring::Storage;

/// States that every queue is well placed: its packets fit into its storage, the bytes of each are
/// contiguous, its gaps end at the storage's end, and there is a slot for each packet and gap. The
/// other laws are about such queues.
pub fn well_placed<H, M: Storage<PacketMetadata<H>>, B: Storage<u8>>(queue: &PacketsOver<H, M, B>)
    ensures { IsWellPlaced queue.now }
{
    let _slots = queue.slots.count();
}

/// States that a head of zeros is that of a queue with no packets, whatever its slots and bytes.
pub fn head_of_zeros<H>()
    ensures sound { (slot_count capacity : ℕ) →
        IsSoundHead slot_count capacity (packets_head (place 0 0) (place 0 0)) }
    ensures queue { (slots : List (PacketMetadata H)) (bytes : List ℕ) →
        packets_at (packets_head (place 0 0) (place 0 0)) slots bytes
        ≡ no_packets (length slots) bytes }
{}

/// States that a queue's contents have as many entries as it has packets, and so none exactly if it
/// has no packets.
#[tactic(auto, using(crate::proofs::PacketOrder::contents_count, crate::proofs::PacketOrder::contents_none))]
pub fn contents_are_packets<H>()
    ensures count { (q : PacketsState H) → length (contents q) ≡ length q.packets }
    ensures empty { (q : PacketsState H) → (contents q ≡ []) ↔ (length q.packets ≡ 0) }
{}

/// States that a queue with no packets takes a packet exactly if it has a slot, and at least as
/// many bytes as the packet. The packet is placed without a gap, even if the last packet to leave
/// was in the middle of the storage.
#[tactic(auto, using(crate::proofs::PacketOrder::empty_queues))]
pub fn empty_queue_takes_what_fits<H>()
    ensures taken { (q : PacketsState H) (size : ℕ) → contents q ≡ []
        → 0 < q.slot_count → size ≤ length q.storage → placement q size ≡ Some 0 }
    ensures no_slot { (q : PacketsState H) (size : ℕ) → contents q ≡ []
        → q.slot_count ≡ 0 → placement q size ≡ None }
    ensures too_long { (q : PacketsState H) (size : ℕ) → contents q ≡ []
        → length q.storage < size → placement q size ≡ None }
{}

/// States that packets leave in the order in which they were accepted, each with the header and the
/// bytes last written by the call that put it in or by a closure that refused it: in `contents`,
/// the list of headers and bytes, an accepted packet is appended, a closure that refuses overwrites
/// the first entry, the first entry is the one that is shown and taken off, and dropping a gap
/// changes nothing.
pub fn packets_leave_in_order<H>()
    ensures accepted { (q : PacketsState H) (size : ℕ) (header : H) (ws : List ℕ)
        → IsWellPlaced q → placement q size ≢ None → length ws ≡ size
        → contents (with_last_bytes (with_packet_if_room q size header) ws)
        ≡ contents q ++ (header, ws) ∷ [] }
    ensures accepted_with { (q : PacketsState H) (size count : ℕ) (header : H) (ws : List ℕ)
        → IsWellPlaced q → placement q size ≢ None → length ws ≡ size → count ≤ size
        → contents (with_last_size count (with_last_bytes (with_packet_if_room q size header) ws))
        ≡ contents q ++ (header, take count ws) ∷ [] }
    ensures gap_dropped { (q : PacketsState H) → IsWellPlaced q
        → contents (without_gap q) ≡ contents q }
    ensures shown { (q : PacketsState H) (header : H) (ws : List ℕ)
        → IsWellPlaced q → IsFirst q header ws
        → contents q ≡ (header, ws) ∷ drop 1 (contents q) }
    ensures refused { (q : PacketsState H) (header : H) (ws : List ℕ)
        → IsWellPlaced q → q.packets ≢ [] → length ws ≡ first_size q.packets
        → contents (with_first_bytes (without_gap q) header ws)
        ≡ (header, ws) ∷ drop 1 (contents q) }
    ensures left { (q : PacketsState H) → IsWellPlaced q
        → contents (without_first_and_gap q) ≡ drop 1 (contents q) }
    ensures left_with { (q : PacketsState H) (header : H) (ws : List ℕ)
        → IsWellPlaced q → length ws ≡ first_size q.packets
        → contents (without_first (with_first_bytes (without_gap q) header ws))
        ≡ drop 1 (contents q) }
{}

/// States that showing a packet changes nothing: after `peek` the same packet is taken off, and a
/// closure that changes neither the header nor the bytes of the first packet leaves the contents as
/// they were, without the packet if it returned `Ok`.
#[tactic(auto, using(crate::proofs::PacketOrder::first_packets))]
pub fn showing_changes_nothing<H>()
    ensures peeked { (q : PacketsState H) → IsWellPlaced q
        → contents (without_first_and_gap (without_gap q)) ≡ drop 1 (contents q) }
    ensures still_there { (q : PacketsState H) → length (without_gap q).packets ≡ length q.packets }
    ensures unwritten { (q : PacketsState H) (header : H) (ws : List ℕ) (gone : Bool)
        → IsWellPlaced q → IsFirst q header ws
        → contents (after_hand_out gone q header ws)
        ≡ (if gone then drop 1 (contents q) else contents q) }
{}

/// States that the k-th packet to leave is the k-th that was accepted. Over any calls, in any
/// order, from a new queue on, the packets that left, in order, followed by those that are still in
/// the queue, are exactly the packets that were accepted, in order. Each left, or stays, with the
/// header and the bytes last written to it: by the call that put it in, through `last_mut`, or by a
/// closure that refused it. What `reset` drops counts as never accepted.
#[tactic(auto, using(crate::proofs::PacketOrder::in_turn))]
pub fn accepted_packets_leave_in_turn<H>()
    ensures { (slot_count : ℕ) (storage : List ℕ) (calls : List (QueueCall H)) (r : PacketsState H)
        → MakesAll calls (no_packets slot_count storage) r
        → (history calls).left ++ contents r ≡ (history calls).accepted }
{}

/// States how a queue changes in a loop that drops its oldest packets until a new one has room, for the
/// invariant of that loop: by contents, and by states, in words of `PacketHistory.antt` that a caller's
/// proof keeps as names.
pub fn drops<H>()
    ensures contents { (k : ℕ) (p q r : PacketsState H) → contents q ≡ drop k (contents p)
        → contents r ≡ drop 1 (contents q) → contents r ≡ drop (k + 1) (contents p) }
    ensures none { (p : PacketsState H) (s : ℕ) → (p ≡ after_drops 0 p) × HasNoRoomBefore 0 p s }
    ensures one_more { (k : ℕ) (p q r : PacketsState H) → q ≡ after_drops k p
        → r ≡ without_oldest q → r ≡ after_drops (k + 1) p }
    ensures lacks { (k : ℕ) (p q : PacketsState H) (s : ℕ) → HasNoRoomBefore k p s
        → q ≡ after_drops k p
        → HasNoRoom q s → HasNoRoomBefore (k + 1) p s }
{}

/// States that a clone of a slot is the same, if that of a header is, and is never refused, if that of a header isn't.
pub fn packet_metadata_clone<H: Clone>(slot: &PacketMetadata<H>, clone: &PacketMetadata<H>)
    ensures same { ((x y : H) → H.is_clone x y → y ≡ x)
        → ⟦<PacketMetadata<H> as Clone>⟧.is_clone slot.now clone.now → clone.now ≡ slot.now }
    ensures never_refused { ((x : H) → H.is_infallible x)
        → ⟦<PacketMetadata<H> as Clone>⟧.is_infallible slot.now }
{}

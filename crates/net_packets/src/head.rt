//! The head of a packet queue, which is a queue without its storages: where packets are placed, and how
//! they are taken off.
//!
//! [`PacketsOver`](crate::PacketsOver) places packets by the rule here. A caller that has slots and bytes
//! elsewhere, as a program in C, calls these functions with the number of slots, or the slots, and with
//! the number of bytes.
//!
//! What is `#[inline]` was chosen by counted instructions and bytes (docs/PERFORMANCE.md).
ghost use Rattle.std.specs.Prelude.{◌≡◌, ◌≢◌, ◌↔◌, ◌≤◌, ◌<◌, ◌-◌, ◌+◌, ◌∷◌, ℕ, List, length, set, slice_get, ⊤};
ghost use Rattle.std.specs.Prelude.{IsTrue, IsFalse, IsNone, IfSome};
ghost use Rattle.std.specs.declared.option.Option.TheVariants.{Some, None};
ghost use Rattle.net_ring.specs.Ring.{index_after};
ghost use Rattle.net_ring.specs.RingHead.{place, IsSound, rewound, contiguous_free};
ghost use Rattle.net_packets.specs.PacketsHead.{HasSoundSlots, AreSlotsAfter, metadata, queue_of, CanTake, CanShorten};
ghost use Rattle.net_packets.specs.PacketsHead.{after_slot, packet_slot, slots_written, last_slot_index, last_slot};
ghost use Rattle.net_packets.specs.PacketsHead.{HasFirst, IsFirstAt, first_packet, first_slot, head_after_gap};
ghost use Rattle.net_packets.specs.PacketsHead.{head_after_first, IsFirstSlot, packets_head, IsSoundHead, placement_in};
ghost use Rattle.net_packets.specs.PacketsHead.{with_packet_placed, place_after_gap, with_slot_taken};
ghost use Rattle.net_packets.specs.Packets.{gap_for, slots_for, if_slots, with_last_size, with_packet_if_room};
ghost use Rattle.net_packets.specs.Packets.{without_first_and_gap};
ghost use Rattle.net_packets.specs.declared.packet_metadata.PacketMetadata.{PacketMetadata};

use crate::packet_slot::PacketSlot;
use net_ring::RingHead;

/// The head of a packet queue: the heads of its two rings.
///
/// A packet uses one slot, and a gap one more, before it. A head is sound for storages if its heads are sound for them,
/// as [`is_sound`](PacketsHead::is_sound) tells. The other calls require a head that is sound for the number of slots
/// and of bytes that they take, and leave such a head. smoltcp has no such type.
#[repr(C)]
#[derive(Debug, Clone, Copy)]
pub struct PacketsHead {
    /// The head of the ring of slots.
    pub slots: RingHead,
    /// The head of the ring of bytes.
    pub bytes: RingHead,
}

/// Where a packet was placed.
#[repr(C)]
#[derive(Debug, Clone, Copy)]
pub struct PacketPlace {
    /// How many bytes are skipped before the packet: 0, or those up to the storage's end.
    pub gap: usize,
    /// The index of the slot of the gap. If the gap has 0 bytes, it has no slot, and this is `slot`.
    pub gap_slot: usize,
    /// The index of the packet's slot.
    pub slot: usize,
    /// The index of the packet's first byte.
    pub from: usize,
}

/// Where the first packet is.
#[repr(C)]
#[derive(Debug, Clone, Copy)]
pub struct FirstPacket {
    /// How many bytes are skipped before the packet.
    pub gap: usize,
    /// The index of the packet's slot.
    pub slot: usize,
    /// The index of the packet's first byte.
    pub from: usize,
    /// How many bytes the packet has.
    pub size: usize,
}

/// The calls that take the number of slots.
impl PacketsHead {
    /// Returns the head of a queue with no packets.
    #[inline]
    pub const fn new() -> Self
        ensures { result ≡ packets_head (place 0 0) (place 0 0) }
    {
        PacketsHead {
            slots: RingHead::new(),
            bytes: RingHead::new(),
        }
    }

    /// Returns whether the head is sound for `slot_count` slots and `capacity` bytes.
    #[inline]
    pub fn is_sound(self, slot_count: usize, capacity: usize) -> bool
        ensures { IsTrue result ↔ IsSoundHead slot_count capacity self }
    {
        self.slots.is_sound(slot_count) && self.bytes.is_sound(capacity)
    }

    /// Returns how many bytes are skipped before a packet of `size` bytes; `None` if there are no
    /// `size` contiguous free bytes, or no slot for the packet or its gap.
    #[inline]
    pub(crate) fn placement(self, slot_count: usize, capacity: usize, size: usize) -> Option<usize>
        requires sound { IsSoundHead slot_count capacity self }
        ensures gap { result ≡ placement_in slot_count capacity self size }
    {
        let contiguous = contiguous_if_placed(self.bytes, capacity);
        let gap = gap_for(size, contiguous, capacity - self.bytes.length);
        if_slots(slot_count - self.slots.length, gap)
    }

    /// Appends a packet of `size` bytes, and returns where its slots and its bytes are; `None`, and
    /// nothing changes, if [`placement`](PacketsHead::placement) returns that.
    ///
    /// An empty queue begins at the storage's beginning. The caller writes the size of the gap, if
    /// it has a slot, and size and header of the packet to their slots.
    #[inline]
    pub(crate) fn place(
        &mut self,
        slot_count: usize,
        capacity: usize,
        size: usize,
    ) -> Option<PacketPlace>
        requires sound { IsSoundHead slot_count capacity self.old }
        ensures full { IsNone result ↔ (placement_in slot_count capacity self.old size ≡ None) }
        ensures unchanged { IsNone result → self.new ≡ self.old }
        ensures gap { IfSome result
            (λ p. placement_in slot_count capacity self.old size ≡ Some p.gap) }
        ensures slots { IfSome result (λ p. let m = self.old.slots in
            (p.gap_slot ≡ index_after slot_count m.read_at m.length)
            × (p.slot ≡ index_after slot_count m.read_at (m.length + (slots_for p.gap - 1)))) }
        ensures from { IfSome result (λ p. let b = rewound self.old.bytes in
            p.from ≡ index_after capacity b.read_at (b.length + p.gap)) }
        ensures within { IfSome result (λ p. (p.gap_slot < slot_count) × (p.slot < slot_count)) }
        ensures contiguous { IfSome result (λ p. p.from + size ≤ capacity) }
        ensures placed { IfSome result (λ p. self.new ≡ with_packet_placed p.gap size self.old) }
        ensures sound { IsSoundHead slot_count capacity self.new }
    {
        let gap = self.placement(slot_count, capacity, size)?;
        let used = slots_for(gap);
        let gap_slot = self.slots.index(slot_count, self.slots.length);
        prove!(
            self.slots.length + (used - 1) <= slot_count,
            "in any `usize`"
        );
        let slot = self.slots.index(slot_count, self.slots.length + (used - 1));
        self.slots.enqueue(slot_count, used);
        self.bytes.rewind_if_empty();
        prove!(self.bytes.length + gap <= capacity, "in any `usize`");
        let from = self.bytes.index(capacity, self.bytes.length + gap);
        prove!(gap + size <= capacity, "in any `usize`");
        self.bytes.enqueue(capacity, gap + size);
        Some(PacketPlace {
            gap,
            gap_slot,
            slot,
            from,
        })
    }

    /// Takes the first slot and its `size` bytes off, and returns the index of the first of these
    /// bytes: of a gap before the first packet, or of the first packet.
    ///
    /// # Requires
    ///
    /// The head is sound, a slot is used, and at least `size` bytes are.
    #[inline]
    pub(crate) fn take(&mut self, slot_count: usize, capacity: usize, size: usize) -> usize
        requires sound { IsSoundHead slot_count capacity self.old }
        requires slot { 1 ≤ self.old.slots.length }
        requires size { size ≤ self.old.bytes.length }
        ensures from { result ≡ self.old.bytes.read_at }
        ensures taken { self.new ≡ with_slot_taken slot_count capacity size self.old }
        ensures sound { IsSoundHead slot_count capacity self.new }
    {
        let from = self.bytes.read_at;
        self.slots.dequeue(slot_count, 1);
        self.bytes.dequeue(capacity, size);
        from
    }

    /// Takes the last `count` bytes off the last packet, after a closure or another program wrote
    /// fewer bytes than were placed. The caller lowers the size in the packet's slot.
    ///
    /// # Requires
    ///
    /// At least `count` bytes are used.
    #[inline]
    pub(crate) fn shorten_last(&mut self, count: usize)
        requires size { count ≤ self.old.bytes.length }
        ensures slots { self.new.slots ≡ self.old.slots }
        ensures bytes { self.new.bytes
            ≡ place self.old.bytes.read_at (self.old.bytes.length - count) }
        ensures sound { (n c : ℕ) → IsSoundHead n c self.old → IsSoundHead n c self.new }
    {
        self.bytes.drop_last(count);
    }
}

/// The calls that take slots without headers, as a slice or one of them.
impl PacketsHead {
    /// Returns whether head and slots are those of a queue over `capacity` bytes: the numbers are
    /// those of a ring of the slots and of one of the bytes; the packets and gaps of the slots in
    /// use take the bytes in use; each packet is contiguous; and a gap has bytes, ends at the
    /// storage's end and has a packet after it. It looks at each slot in use.
    pub fn has_sound_slots(self, slots: &[PacketSlot], capacity: usize) -> bool
        ensures { IsTrue result ↔ HasSoundSlots capacity self slots.now }
    {
        if !self.is_sound(slots.len(), capacity) {
            return false;
        }
        let mut done = Progress { offset: 0, gap: 0 };
        for k in 0..self.slots.length {
            let slot = &slots[self.slots.index(slots.len(), k)];
            let Some(next) = self.progress(capacity, done, slot) else {
                return false;
            };
            done = next;
        }
        done.gap == 0 && done.offset == self.bytes.length
    }

    /// Returns how far the test has come after a slot, if that can follow. A gap can't follow a gap, has bytes, and
    /// ends at the storage's end; a packet ends there or before.
    #[inline]
    #[tactic(auto, using(crate::proofs::HeadQueue::follows))]
    fn progress(self, capacity: usize, done: Progress, slot: &PacketSlot) -> Option<Progress>
        requires sound { IsSound capacity self.bytes }
        requires within { done.offset + done.gap ≤ self.bytes.length }
        requires ends { done.gap ≢ 0 →
            index_after capacity self.bytes.read_at done.offset + done.gap ≡ capacity }
        ensures none { IsNone result → (ms : List (PacketMetadata ⊤)) →
            AreSlotsAfter capacity self.bytes done.offset done.gap (metadata slot.now ∷ ms) → ⊥ }
        ensures next { IfSome result (λ next. (ms : List (PacketMetadata ⊤)) →
            AreSlotsAfter capacity self.bytes done.offset done.gap (metadata slot.now ∷ ms)
            ↔ AreSlotsAfter capacity self.bytes next.offset next.gap ms) }
        ensures within { IfSome result (λ next. next.offset + next.gap ≤ self.bytes.length) }
        ensures ends { IfSome result (λ next. next.gap ≢ 0 →
            index_after capacity self.bytes.read_at next.offset + next.gap ≡ capacity) }
    {
        if slot.size > self.bytes.length - done.offset - done.gap {
            return None;
        }
        prove!(
            done.offset + done.gap <= self.bytes.length,
            "in any `usize`"
        );
        let from = self.bytes.index(capacity, done.offset + done.gap);
        if slot.size > capacity - from {
            return None;
        }
        if slot.is_gap == 0 {
            prove!(
                done.offset + done.gap + slot.size <= self.bytes.length,
                "in any `usize`"
            );
            return Some(Progress {
                offset: done.offset + done.gap + slot.size,
                gap: 0,
            });
        }
        if done.gap > 0 || slot.size == 0 || slot.size < capacity - from {
            return None;
        }
        Some(Progress {
            offset: done.offset,
            gap: slot.size,
        })
    }

    /// Returns whether `first` can be the first slot in use: its bytes are used and contiguous, and
    /// a gap has some and ends at the storage's end.
    #[inline]
    pub fn can_take(self, slot_count: usize, capacity: usize, first: &PacketSlot) -> bool
        requires sound { IsSoundHead slot_count capacity self }
        ensures can { IsTrue result ↔ CanTake capacity self first.now }
        ensures first { (ss : List PacketSlot) → length ss ≡ slot_count →
            HasSoundSlots capacity self ss → IsFirstSlot self ss first.now
            → CanTake capacity self first.now }
    {
        let to_end = capacity - self.bytes.read_at;
        let fits = self.slots.length > 0 && first.size <= self.bytes.length && first.size <= to_end;
        fits && (first.is_gap == 0 || (first.size > 0 && first.size == to_end))
    }

    /// Takes the first slot in use, `first`, off with its bytes, and returns the index of the first of
    /// these bytes: of the gap before the first packet, or of the first packet.
    ///
    /// # Requires
    ///
    /// The head is sound, and [`can_take`](PacketsHead::can_take) returns true.
    #[inline]
    pub fn take_slot(&mut self, slot_count: usize, capacity: usize, first: &PacketSlot) -> usize
        requires sound { IsSoundHead slot_count capacity self.old }
        requires first { CanTake capacity self.old first.now }
        ensures from { result ≡ self.old.bytes.read_at }
        ensures taken { self.new ≡ with_slot_taken slot_count capacity first.now.size self.old }
        ensures sound { IsSoundHead slot_count capacity self.new }
        ensures slots { (ss : List PacketSlot) → length ss ≡ slot_count →
            HasSoundSlots capacity self.old ss
            → slice_get ss self.old.slots.read_at ≡ Some first.now
            → HasSoundSlots capacity self.new ss }
        ensures state { (ss : List PacketSlot) (xs : List ℕ) → length ss ≡ slot_count →
            length xs ≡ capacity → HasSoundSlots capacity self.old ss →
            slice_get ss self.old.slots.read_at ≡ Some first.now →
            queue_of self.new ss xs ≡ after_slot first.now (queue_of self.old ss xs) }
    {
        self.take(slot_count, capacity, first.size)
    }

    /// Returns whether `last` can be the slot of the last packet, and has at least `count` bytes.
    #[inline]
    fn can_shorten(self, last: &PacketSlot, count: usize) -> bool
        ensures { IsTrue result ↔ CanShorten self last.now count }
    {
        self.slots.length > 0
            && last.is_gap == 0
            && last.size <= self.bytes.length
            && count <= last.size
    }

    /// Takes the last `count` bytes off the last packet, whose slot is `last`, and lowers the size
    /// there.
    #[inline]
    #[tactic(auto, using(crate::proofs::HeadQueue::last_shortened))]
    fn shorten_slot(&mut self, last: &mut PacketSlot, count: usize)
        requires last { CanShorten self.old last.old count }
        ensures slot { last.new ≡ packet_slot (last.old.size - count) }
        ensures slots { self.new.slots ≡ self.old.slots }
        ensures bytes { self.new.bytes
            ≡ place self.old.bytes.read_at (self.old.bytes.length - count) }
        ensures sound { (n c : ℕ) → IsSoundHead n c self.old → IsSoundHead n c self.new }
        ensures sound_slots { (c : ℕ) (ss : List PacketSlot) → HasSoundSlots c self.old ss →
            slice_get ss (last_slot_index self.old ss) ≡ Some last.old →
            HasSoundSlots c self.new (set ss (last_slot_index self.old ss) last.new) }
        ensures state { (c : ℕ) (ss : List PacketSlot) (xs : List ℕ) → length xs ≡ c →
            HasSoundSlots c self.old ss →
            slice_get ss (last_slot_index self.old ss) ≡ Some last.old →
            queue_of self.new (set ss (last_slot_index self.old ss) last.new) xs
            ≡ with_last_size (last.old.size - count) (queue_of self.old ss xs) }
    {
        self.shorten_last(count);
        last.size -= count;
    }

    /// Takes the last `count` bytes off the last packet, lowers the size in its slot, and returns
    /// true. It is for a caller that wrote fewer bytes than it placed.
    ///
    /// Returns false, and changes nothing, if no slot is in use, if the last one is a gap's, or if
    /// its size is below `count` or above the number of bytes in use.
    #[inline]
    pub fn shorten_last_in(
        &mut self,
        slots: &mut [PacketSlot],
        capacity: usize,
        count: usize,
    ) -> bool
        requires sound { IsSoundHead (length slots.old) capacity self.old }
        ensures done { IsTrue result ↔ CanShorten self.old (last_slot self.old slots.old) count }
        ensures head { IsTrue result → (self.new.slots ≡ self.old.slots) × (self.new.bytes
            ≡ place self.old.bytes.read_at (self.old.bytes.length - count)) }
        ensures slots { IsTrue result
            → slots.new ≡ set slots.old (last_slot_index self.old slots.old)
            (packet_slot ((last_slot self.old slots.old).size - count)) }
        ensures unchanged { IsFalse result → (self.new ≡ self.old) × (slots.new ≡ slots.old) }
        ensures sound { IsSoundHead (length slots.old) capacity self.new }
        ensures sound_slots { HasSoundSlots capacity self.old slots.old →
            HasSoundSlots capacity self.new slots.new }
        ensures state { IsTrue result → (xs : List ℕ) → length xs ≡ capacity →
            HasSoundSlots capacity self.old slots.old → queue_of self.new slots.new xs
            ≡ with_last_size ((last_slot self.old slots.old).size - count)
            (queue_of self.old slots.old xs) }
    {
        if self.slots.length == 0 {
            return false;
        }
        let last = self.slots.index(slots.len(), self.slots.length - 1);
        if !self.can_shorten(&slots[last], count) {
            return false;
        }
        self.shorten_slot(&mut slots[last], count);
        true
    }

    /// Appends a packet of `size` bytes as [`place`](PacketsHead::place) does, and writes its slots.
    #[inline]
    #[tactic(auto, using(crate::proofs::HeadQueue::none_enqueued))]
    pub fn enqueue(
        &mut self,
        slots: &mut [PacketSlot],
        capacity: usize,
        size: usize,
    ) -> Option<PacketPlace>
        requires sound { IsSoundHead (length slots.old) capacity self.old }
        ensures full { IsNone result
            ↔ (placement_in (length slots.old) capacity self.old size ≡ None) }
        ensures unchanged { IsNone result → (self.new ≡ self.old) × (slots.new ≡ slots.old) }
        ensures gap { IfSome result
            (λ p. placement_in (length slots.old) capacity self.old size ≡ Some p.gap) }
        ensures place { IfSome result
            (λ p. p ≡ place_after_gap (length slots.old) capacity self.old p.gap) }
        ensures placed { IfSome result (λ p. self.new ≡ with_packet_placed p.gap size self.old) }
        ensures slots { IfSome result (λ p. slots.new ≡ slots_written p size slots.old) }
        ensures sound { IsSoundHead (length slots.old) capacity self.new }
        ensures sound_slots { HasSoundSlots capacity self.old slots.old →
            HasSoundSlots capacity self.new slots.new }
        ensures state { (xs : List ℕ) → length xs ≡ capacity →
            HasSoundSlots capacity self.old slots.old → queue_of self.new slots.new xs
            ≡ with_packet_if_room (queue_of self.old slots.old xs) size tt }
    {
        let place = self.place(slots.len(), capacity, size)?;
        write_slots(slots, place, size);
        Some(place)
    }

    /// Takes the first packet off, and the gap before it, and returns where it is.
    ///
    /// `None`, and nothing changes, if no slot is in use, or the first ones can't be those of a
    /// packet.
    #[inline]
    pub fn dequeue(&mut self, slots: &[PacketSlot], capacity: usize) -> Option<FirstPacket>
        requires sound { IsSoundHead (length slots.now) capacity self.old }
        ensures none { IsNone result ↔ (HasFirst capacity self.old slots.now → ⊥) }
        ensures unchanged { IsNone result → self.new ≡ self.old }
        ensures first { IfSome result (λ p. p ≡ first_packet capacity self.old slots.now) }
        ensures taken { IfSome result
            (λ p. self.new ≡ head_after_first capacity self.old slots.now) }
        ensures sound { IsSoundHead (length slots.now) capacity self.new }
        ensures has_first { HasSoundSlots capacity self.old slots.now →
            1 ≤ self.old.slots.length → HasFirst capacity self.old slots.now }
        ensures sound_slots { HasSoundSlots capacity self.old slots.now →
            HasSoundSlots capacity self.new slots.now }
        ensures state { IfSome result (λ p. (xs : List ℕ) → length xs ≡ capacity →
            HasSoundSlots capacity self.old slots.now → queue_of self.new slots.now xs
            ≡ without_first_and_gap (queue_of self.old slots.now xs)) }
        ensures place { IfSome result (λ p. (xs : List ℕ) → length xs ≡ capacity →
            HasSoundSlots capacity self.old slots.now →
            IsFirstAt (queue_of self.old slots.now xs) p) }
    {
        self.take_first(slots, capacity)
    }

    /// Returns where the first packet is.
    ///
    /// `None` if no slot is in use, or the first ones can't be those of a packet.
    #[inline]
    pub fn peek(self, slots: &[PacketSlot], capacity: usize) -> Option<FirstPacket>
        requires sound { IsSoundHead (length slots.now) capacity self }
        ensures none { IsNone result ↔ (HasFirst capacity self slots.now → ⊥) }
        ensures first { IfSome result (λ p. p ≡ first_packet capacity self slots.now) }
        ensures has_first { HasSoundSlots capacity self slots.now → 1 ≤ self.slots.length →
            HasFirst capacity self slots.now }
        ensures place { IfSome result (λ p. (xs : List ℕ) → length xs ≡ capacity →
            HasSoundSlots capacity self slots.now → IsFirstAt (queue_of self slots.now xs) p) }
    {
        let mut head = self;
        head.dequeue(slots, capacity)
    }

    /// Takes the first packet off, and the gap before it, and returns where it is.
    #[inline]
    fn take_first(&mut self, slots: &[PacketSlot], capacity: usize) -> Option<FirstPacket>
        requires sound { IsSoundHead (length slots.now) capacity self.old }
        ensures none { IsNone result ↔ (HasFirst capacity self.old slots.now → ⊥) }
        ensures unchanged { IsNone result → self.new ≡ self.old }
        ensures some { IfSome result (λ p. 1 ≤ self.old.slots.length) }
        ensures first { IfSome result (λ p. p ≡ first_packet capacity self.old slots.now) }
        ensures taken { IfSome result
            (λ p. self.new ≡ head_after_first capacity self.old slots.now) }
        ensures sound { IsSoundHead (length slots.now) capacity self.new }
    {
        let mut head = *self;
        let gap = head.skip_gap(slots, capacity)?;
        let packet = head.take_packet(slots, capacity, gap)?;
        *self = head;
        Some(packet)
    }

    /// Takes the gap before the first packet off, if there is one, and returns how many bytes it
    /// has. `None`, and nothing changes, if no slot is in use, or the first one can't be a gap's.
    #[inline]
    fn skip_gap(&mut self, slots: &[PacketSlot], capacity: usize) -> Option<usize>
        requires sound { IsSoundHead (length slots.now) capacity self.old }
        ensures none { IsNone result ↔ ((1 ≤ self.old.slots.length)
            × ((first_slot self.old slots.now).is_gap ≢ 0
            → CanTake capacity self.old (first_slot self.old slots.now)) → ⊥) }
        ensures some { IfSome result (λ gap. 1 ≤ self.old.slots.length) }
        ensures gap { IfSome result (λ gap. gap ≡ (first_packet capacity self.old slots.now).gap) }
        ensures skipped { IfSome result
            (λ gap. self.new ≡ head_after_gap capacity self.old slots.now) }
        ensures sound { IsSoundHead (length slots.now) capacity self.new }
    {
        if self.slots.length == 0 {
            return None;
        }
        let first = &slots[self.slots.read_at];
        if first.is_gap == 0 {
            return Some(0);
        }
        if !self.can_take(slots.len(), capacity, first) {
            return None;
        }
        self.take_slot(slots.len(), capacity, first);
        Some(first.size)
    }

    /// Takes the first packet off, after a gap of `gap` bytes that is gone, and returns where it is.
    #[inline]
    fn take_packet(
        &mut self,
        slots: &[PacketSlot],
        capacity: usize,
        gap: usize,
    ) -> Option<FirstPacket>
        requires sound { IsSoundHead (length slots.now) capacity self.old }
        ensures none { IsNone result ↔ (((first_slot self.old slots.now).is_gap ≡ 0)
            × CanTake capacity self.old (first_slot self.old slots.now) → ⊥) }
        ensures first { IfSome result
            (λ p. (p.gap ≡ gap) × (p.slot ≡ self.old.slots.read_at)
            × (p.from ≡ self.old.bytes.read_at)
            × (p.size ≡ (first_slot self.old slots.now).size)) }
        ensures taken { IfSome result (λ p. self.new ≡ with_slot_taken (length slots.now) capacity
            (first_slot self.old slots.now).size self.old) }
        ensures sound { IsSoundHead (length slots.now) capacity self.new }
    {
        if self.slots.length == 0 {
            return None;
        }
        let slot = self.slots.read_at;
        let first = &slots[slot];
        if first.is_gap != 0 || !self.can_take(slots.len(), capacity, first) {
            return None;
        }
        let from = self.take_slot(slots.len(), capacity, first);
        Some(FirstPacket {
            gap,
            slot,
            from,
            size: first.size,
        })
    }
}

/// Returns how many free bytes are contiguous for a packet that is placed. In an empty ring all are
/// contiguous, since it is then read from the storage's beginning.
#[inline]
fn contiguous_if_placed(bytes: RingHead, capacity: usize) -> usize
    requires { IsSound capacity bytes }
    ensures count { result ≡ contiguous_free capacity (rewound bytes) }
    ensures within { result ≤ capacity - bytes.length }
{
    if bytes.length == 0 {
        capacity
    } else {
        bytes.contiguous_window(capacity)
    }
}

/// Returns the gap before a packet of `size` bytes, if `window` bytes are free, of which the first
/// `contiguous` are contiguous; `None` if it does not fit.
#[inline]
fn gap_for(size: usize, contiguous: usize, window: usize) -> Option<usize>
    requires { contiguous ≤ window }
    ensures { result ≡ gap_for size contiguous window }
{
    // `p` are the bytes of the packet, `x` and `y` those of others, and `-` the gap.
    if size <= contiguous {
        // [ . . . x x x y y p p . ]
        Some(0)
    } else if size <= window - contiguous {
        // [ p p p x x x y y - - - ]
        Some(contiguous)
    } else {
        // [ . . . x x x y y . . . ]    four bytes have no room
        None
    }
}

/// Returns how many slots a packet after a gap of `gap` bytes uses.
#[inline]
pub(crate) fn slots_for(gap: usize) -> usize
    ensures count { result ≡ slots_for gap }
    ensures some { 1 ≤ result }
    ensures one { result ≤ 1 → gap ≡ 0 }
    ensures two { 1 < result → 0 < gap }
{
    if gap == 0 { 1 } else { 2 }
}

/// Returns the gap, if `free` slots are enough for it and its packet.
#[inline]
fn if_slots(free: usize, gap: Option<usize>) -> Option<usize>
    ensures { result ≡ if_slots free gap }
{
    gap.filter(|&gap| slots_for(gap) <= free)
}

/// Writes the slots of a packet of `size` bytes and of its gap, if that has one.
#[inline]
fn write_slots(slots: &mut [PacketSlot], place: PacketPlace, size: usize)
    requires gap_slot { place.gap_slot < length slots.old }
    requires slot { place.slot < length slots.old }
    ensures { slots.new ≡ slots_written place size slots.old }
{
    if place.gap > 0 {
        slots[place.gap_slot] = PacketSlot {
            size: place.gap,
            is_gap: 1,
        };
    }
    slots[place.slot] = PacketSlot { size, is_gap: 0 };
}

/// How far a test of the slots has come: packets and their gaps before it take `offset` bytes, and a
/// gap of `gap` bytes follows them, if that isn't 0.
#[derive(Debug, Clone, Copy)]
struct Progress {
    offset: usize,
    gap: usize,
}

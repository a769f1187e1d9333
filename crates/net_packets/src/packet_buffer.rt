//! A queue of packets, each with a header, over storage that is lent or owned.
ghost use Rattle.std.specs.Prelude.{◌≡◌, ◌≢◌, ◌↔◌, ◌<◌, ◌≤◌, ◌==◌, ◌-◌, ◌∷◌, ◌++◌, [], ℕ, List, length, take, drop};
ghost use Rattle.std.specs.Prelude.{min, set, slice_get, filter, is_some, IsTrue, IsErr, IsNone, IsSome, IfOk, IfSome};
ghost use Rattle.std.specs.Prelude.{OnErr, OnOk};
ghost use Rattle.std.specs.Borrow.{sem};
ghost use Rattle.std.specs.Fn.{FnOnceTakesAtMut, FnOnceReturnsAtMut};
ghost use Rattle.std.specs.declared.option.Option.TheVariants.{Some, None};
ghost use Rattle.net_packets.specs.{IsRoom, WritesPacket, TakesFirstPacket, HandsPacket, CopiesOut, contents};
ghost use Rattle.net_packets.specs.{with_bytes_in_last_entry, head_bytes, Makes, Reset, Enqueue, Place, WriteLast};
ghost use Rattle.net_packets.specs.{Dequeue, Take, WriteLastDequeued, Peek, slot, slots_with, IsWellPlaced, bytes_used};
ghost use Rattle.net_packets.specs.{slots_used, no_packets, placement, with_packet_if_room, with_packet_of, only_last};
ghost use Rattle.net_packets.specs.{last_bytes, with_last_bytes, first_size, first_gap, first_bytes, IsFirst};
ghost use Rattle.net_packets.specs.{IsFirstSized, without_gap, without_first, without_first_and_gap, with_bytes};
ghost use Rattle.net_packets.specs.{AreLastDequeued, last_dequeued_bytes, last_dequeued_bytes_index};

use crate::head::{PacketPlace, PacketsHead};
use crate::packet_metadata::PacketMetadata;
use net_ring::{Empty, Full, ManagedSlice, Storage};
use std::marker::{Model, PhantomData};

pub mod laws;
mod managed;

/// A [`PacketBuffer`] over any storage: `M` has the slots and `B` the bytes.
///
/// A packet has a header and bytes that are contiguous in the storage. If a packet does not fit
/// before the storage's end, it is placed at the storage's beginning, and the bytes before the end
/// are skipped as its gap. A packet uses one slot, and a gap, which never has 0 bytes, one more.
/// Packets leave in the order in which they came.
///
/// ```text
/// bytes    y y y y y y x x x x x x x x - -     x of 8 bytes, then y of 6 after a gap of 2
/// slots    x, gap, y
/// ```
///
/// In guarantees `contents` has the packets in order, as pairs of a header and bytes. `head_bytes`
/// has the bytes of the first one, and `++` joins lists.
#[derive(Debug, Drop)]
pub struct PacketsOver<H, M: Storage<PacketMetadata<H>>, B: Storage<u8>> {
    // Invariant: the head is sound for the storages. The slots in use are packets and gaps, whose sizes
    // add up to the bytes in use. A packet is contiguous; a gap has bytes, ends at the storage's end, and
    // has a packet after it.
    head: PacketsHead,
    slots: M,
    bytes: B,
    headers: PhantomData<H>,
}

/// A first-in, first-out queue of whole packets, each with a header, over storage that is lent or
/// owned. Its methods are those of [`PacketsOver`].
///
/// It serves sockets of datagrams, such as those of UDP and ICMP. It refuses a packet that doesn't
/// fit: it returns an error, and changes nothing.
///
/// ```
/// use net_base::storage::{Full, PacketBuffer, PacketMetadata};
///
/// let mut slots = [PacketMetadata::EMPTY; 4];
/// let mut bytes = [0u8; 16];
/// let mut queue = PacketBuffer::new(&mut slots[..], &mut bytes[..]);
/// queue.enqueue(3, 53u16)?.copy_from_slice(b"abc");
/// assert_eq!(queue.enqueue(14, 54), Err(Full));
/// let (port, payload) = queue.dequeue().expect("a packet is queued");
/// assert!(port == 53 && payload == b"abc");
/// # Ok::<(), Full>(())
/// ```
pub type PacketBuffer<'a, H> = PacketsOver<
    H,
    ManagedSlice<'a, PacketMetadata<H>>,
    ManagedSlice<'a, u8>,
>;

/// Contracts see the number of slots, the storage, the read index and the list of packets (header,
/// size, gap). They lead with `contents q`, the list of the headers and bytes of a queue's packets.
impl<H, M: Storage<PacketMetadata<H>>, B: Storage<u8>> Model for PacketsOver<H, M, B> {
    ghost use Rattle.net_packets.specs.{PacketsState, packets_at, AreSoundParts};

    ghost Value = { PacketsState H };

    ghost view = { λ a. packets_at a.head (M.elements a.slots) (B.elements a.bytes) };

    ghost invariant = { λ a. AreSoundParts a.head (M.elements a.slots) (B.elements a.bytes) };
}

/// Making, emptying and measuring a queue.
impl<H, M: Storage<PacketMetadata<H>>, B: Storage<u8>> PacketsOver<H, M, B> {
    /// Returns an empty queue over storage of any type. (Not in smoltcp.) [`PacketBuffer::new`]
    /// takes slices, vectors or boxes.
    ///
    /// ```
    /// # use net_base::storage::{PacketMetadata, PacketsOver};
    /// let mut slots = [PacketMetadata::EMPTY; 4];
    /// let mut bytes = [0u8; 16];
    /// let mut queue = PacketsOver::over(&mut slots[..], &mut bytes[..]);
    /// assert_eq!(queue.push_slice(53u16, b"abc"), Ok(()));
    /// ```
    #[tactic(auto, using(crate::proofs::PacketOrder::no_contents))]
    pub const fn over(slots: M, bytes: B) -> Self
        ensures empty { contents result ≡ [] }
        ensures made { result ≡ no_packets (length (M.elements slots)) (B.elements bytes) }
    {
        PacketsOver {
            head: PacketsHead::new(),
            slots,
            bytes,
            headers: PhantomData,
        }
    }

    /// Returns whether the queue has no packets.
    ///
    /// ```
    /// # use net_base::storage::{PacketBuffer, PacketMetadata};
    /// # let mut slots = [PacketMetadata::EMPTY; 4];
    /// # let mut bytes = [0u8; 16];
    /// # let mut queue = PacketBuffer::new(&mut slots[..], &mut bytes[..]);
    /// assert!(queue.is_empty());
    /// assert!(queue.enqueue(0, ()).is_ok());
    /// assert!(!queue.is_empty());
    /// ```
    #[inline]
    #[must_use]
    #[tactic(auto, using(crate::proofs::HeadParts::is_empty, crate::proofs::PacketOrder::is_empty_none))]
    pub fn is_empty(&self) -> bool
        ensures empty { IsTrue result ↔ (contents self.now ≡ []) }
        ensures packets { result ≡ (length self.now.packets == 0) }
    {
        self.head.slots.length == 0
    }

    /// Returns whether no slot is free. A queue that is not full still refuses a packet if there
    /// are too few free bytes, or no slot for its gap.
    ///
    /// ```
    /// # use net_base::storage::{PacketBuffer, PacketMetadata};
    /// # let mut slots = [PacketMetadata::EMPTY; 1];
    /// # let mut bytes = [0u8; 16];
    /// # let mut queue = PacketBuffer::new(&mut slots[..], &mut bytes[..]);
    /// assert!(queue.enqueue(2, ()).is_ok());
    /// assert!(queue.is_full());
    /// ```
    #[tactic(auto, using(crate::proofs::HeadParts::is_full))]
    #[inline]
    #[must_use]
    pub fn is_full(&self) -> bool
        ensures { result ≡ (self.now.slot_count - slots_used self.now.packets == 0) }
    {
        self.head.slots.length == self.slots.count()
    }

    /// Returns whether a packet of `size` bytes can be appended. (Not in smoltcp.)
    ///
    /// ```
    /// # use net_base::storage::{PacketBuffer, PacketMetadata};
    /// # let mut slots = [PacketMetadata::EMPTY; 4];
    /// # let mut bytes = [0u8; 16];
    /// # let mut queue = PacketBuffer::new(&mut slots[..], &mut bytes[..]);
    /// assert!(queue.enqueue(3, ()).is_ok());
    /// assert!(queue.has_room(13) && !queue.has_room(14));
    /// ```
    #[inline]
    #[must_use]
    pub fn has_room(&self, size: usize) -> bool
        ensures { IsTrue result ↔ IsSome (placement self.now size) }
    {
        self.placement(size).is_some()
    }

    /// Returns the number of slots.
    ///
    /// ```
    /// # use net_base::storage::{PacketBuffer, PacketMetadata};
    /// # let mut slots = [PacketMetadata::<()>::EMPTY; 4];
    /// # let mut bytes = [0u8; 16];
    /// assert_eq!(PacketBuffer::new(&mut slots[..], &mut bytes[..]).packet_capacity(), 4);
    /// ```
    #[inline]
    #[must_use]
    pub fn packet_capacity(&self) -> usize
        ensures { result ≡ self.now.slot_count }
    {
        self.slots.count()
    }

    /// Returns the number of bytes of the storage, used or not.
    ///
    /// ```
    /// # use net_base::storage::{PacketBuffer, PacketMetadata};
    /// # let mut slots = [PacketMetadata::<()>::EMPTY; 4];
    /// # let mut bytes = [0u8; 16];
    /// assert_eq!(PacketBuffer::new(&mut slots[..], &mut bytes[..]).payload_capacity(), 16);
    /// ```
    #[inline]
    #[must_use]
    pub fn payload_capacity(&self) -> usize
        ensures { result ≡ length self.now.storage }
    {
        self.bytes.count()
    }

    /// Returns the number of bytes that packets take, gaps included. A call that drops the gap
    /// before the first packet lowers this number.
    ///
    /// ```
    /// # use net_base::storage::{PacketBuffer, PacketMetadata};
    /// # let mut slots = [PacketMetadata::EMPTY; 4];
    /// # let mut bytes = [0u8; 16];
    /// # let mut queue = PacketBuffer::new(&mut slots[..], &mut bytes[..]);
    /// assert!(queue.enqueue(3, ()).is_ok());
    /// assert_eq!(queue.payload_bytes_count(), 3);
    /// ```
    #[inline]
    #[must_use]
    pub fn payload_bytes_count(&self) -> usize
        ensures { result ≡ bytes_used self.now.packets }
    {
        self.head.bytes.length
    }

    /// Returns the number of slots used: one for each packet and one for each gap. (Not in
    /// smoltcp.)
    ///
    /// ```
    /// # use net_base::storage::{PacketBuffer, PacketMetadata};
    /// # let mut slots = [PacketMetadata::EMPTY; 4];
    /// # let mut bytes = [0u8; 16];
    /// # let mut queue = PacketBuffer::new(&mut slots[..], &mut bytes[..]);
    /// assert!(queue.enqueue(3, ()).is_ok());
    /// assert_eq!(queue.slots_used(), 1);
    /// ```
    #[tactic(auto, using(crate::proofs::HeadParts::slots_count))]
    #[inline]
    #[must_use]
    pub fn slots_used(&self) -> usize
        ensures { result ≡ slots_used self.now.packets }
    {
        self.head.slots.length
    }

    /// Returns how many packets the queue has. It looks at each slot in use, to leave out the gaps.
    /// (Not in smoltcp.)
    ///
    /// ```
    /// # use net_base::storage::{PacketBuffer, PacketMetadata};
    /// # let mut slots = [PacketMetadata::EMPTY; 4];
    /// # let mut bytes = [0u8; 16];
    /// # let mut queue = PacketBuffer::new(&mut slots[..], &mut bytes[..]);
    /// assert!(queue.enqueue(3, ()).is_ok());
    /// assert_eq!(queue.len(), 1);
    /// ```
    #[must_use]
    pub fn len(&self) -> usize
        ensures contents { result ≡ length (contents self.now) }
        ensures packets { result ≡ length self.now.packets }
    {
        let from = self.head.slots.read_at;
        let cut = self.head.slots.contiguous_queue(self.slots.count());
        let first = self.slots.part(from, from + cut);
        let second = self.slots.part(0, self.head.slots.length - cut);
        let count = count_packets(first) + count_packets(second);
        prove!(count <= self.head.slots.length, "in any `usize`");
        count
    }

    /// Empties the queue. The bytes of the storage stay as they are. It is unspecified when headers
    /// are dropped.
    ///
    /// In smoltcp this call is private.
    ///
    /// ```
    /// # use net_base::storage::{PacketBuffer, PacketMetadata};
    /// # let mut slots = [PacketMetadata::EMPTY; 4];
    /// # let mut bytes = [0u8; 16];
    /// # let mut queue = PacketBuffer::new(&mut slots[..], &mut bytes[..]);
    /// assert!(queue.enqueue(3, ()).is_ok());
    /// queue.reset();
    /// assert!(queue.is_empty());
    /// ```
    #[tactic(auto, using(crate::proofs::PacketOrder::no_contents))]
    pub fn reset(&mut self)
        ensures empty { contents self.new ≡ [] }
        ensures made { self.new ≡ no_packets self.old.slot_count self.old.storage }
        ensures call { Makes Reset self.old self.new }
    {
        self.head = PacketsHead::new();
    }
}

/// Appending packets.
impl<H: Drop, M: Storage<PacketMetadata<H>>, B: Storage<u8>> PacketsOver<H, M, B> {
    ghost use Rattle.net_packets.specs.PacketLends.{lends_bytes, lends_bytes_if};

    /// Appends a packet of `size` bytes, and lends them as the storage has them. An empty queue
    /// starts over at the storage's beginning.
    ///
    /// ```
    /// # use net_base::storage::{Full, PacketBuffer, PacketMetadata};
    /// # let mut slots = [PacketMetadata::EMPTY; 4];
    /// # let mut bytes = [0u8; 16];
    /// # let mut queue = PacketBuffer::new(&mut slots[..], &mut bytes[..]);
    /// queue.enqueue(3, 1)?.copy_from_slice(b"abc");
    /// assert_eq!(queue.peek().ok(), Some((&1, &b"abc"[..])));
    /// # Ok::<(), Full>(())
    /// ```
    ///
    /// # Errors
    ///
    /// `Full` if there are no `size` contiguous free bytes, or no slot for the packet or its gap.
    /// Then the header is dropped, and nothing changes. smoltcp can leave a gap with no packet
    /// then.
    pub fn enqueue(&mut self, size: usize, header: H) -> Result<&mut [u8], Full>
        ensures* writes_back { sem 𝓛 (lends_bytes_if H.row M.row B.row M.Storage B.Storage
            self.entry result (with_last_bytes (with_packet_if_room self.old size header))) }
        ensures accepted { IfOk result (λ r. (ws : List ℕ) → length ws ≡ size
            → contents (with_last_bytes (with_packet_if_room self.old size header) ws)
            ≡ contents self.old ++ (header, ws) ∷ []) }
        ensures full { IsErr result ↔ (placement self.old size ≡ None) }
        ensures value { IfOk result
            (λ r. r.now ≡ last_bytes (with_packet_if_room self.old size header)) }
        // Guarantee.
        ensures size { IfOk result (λ r. length r.now ≡ size) }
        ensures call { IfOk result (λ r. (ws : List ℕ) → length ws ≡ size
            → Makes (Enqueue header ws)
            self.old (with_last_bytes (with_packet_if_room self.old size header) ws)) }
    {
        let Ok(()) = self.place(size, header) else {
            return Err(Full);
        };
        Ok(self.last_part_mut(size))
    }

    /// Appends a packet of `size` bytes, as [`PacketsOver::enqueue`] does, of which this is the
    /// first step: [`PacketsOver::last_mut`] lends the bytes.
    ///
    /// ```
    /// # use net_base::storage::{PacketBuffer, PacketMetadata};
    /// # let mut slots = [PacketMetadata::EMPTY; 4];
    /// # let mut bytes = [0u8; 16];
    /// # let mut queue = PacketBuffer::new(&mut slots[..], &mut bytes[..]);
    /// assert_eq!(queue.place(3, 1), Ok(()));
    /// queue.last_mut().copy_from_slice(b"abc");
    /// assert_eq!(queue.peek().ok(), Some((&1, &b"abc"[..])));
    /// ```
    ///
    /// # Errors
    ///
    /// `Full` if [`PacketsOver::enqueue`] returns it. Then the header is dropped, and nothing
    /// changes.
    #[tactic(auto, using(crate::proofs::HeadParts::placement_is))]
    pub fn place(&mut self, size: usize, header: H) -> Result<(), Full>
        ensures accepted { OnOk result ((ws : List ℕ) → length ws ≡ size
            → contents (with_last_bytes self.new ws) ≡ contents self.old ++ (header, ws) ∷ []) }
        // Guarantee.
        ensures stands { OnOk result
            (contents self.new ≡ contents self.old ++ (header, last_bytes self.new) ∷ []) }
        // Guarantee.
        ensures unchanged { OnErr result (self.new ≡ self.old) }
        ensures full { IsErr result ↔ (placement self.old size ≡ None) }
        ensures placed { self.new ≡ with_packet_if_room self.old size header }
        ensures size { OnOk result (first_size (only_last self.new.packets) ≡ size) }
        ensures capacity { (self.new.slot_count ≡ self.old.slot_count)
            × (length self.new.storage ≡ length self.old.storage) }
        ensures call { OnOk result (Makes (Place header (last_bytes self.new)) self.old self.new) }
    {
        let slot_count = self.slots.count();
        let capacity = self.bytes.count();
        let mut head = self.head;
        let Some(place) = head.place(slot_count, capacity, size) else {
            return Err(Full);
        };
        // The head is written last: if the drop of a header that was in a slot panics, as in Rust it
        // may, the queue is as it was.
        write_slots(&mut self.slots, place, size, header);
        self.head = head;
        Ok(())
    }

    /// Lends the bytes of the last packet, or none if the queue has no packets.
    ///
    /// ```
    /// # use net_base::storage::{PacketBuffer, PacketMetadata};
    /// # let mut slots = [PacketMetadata::EMPTY; 4];
    /// # let mut bytes = [0u8; 16];
    /// # let mut queue = PacketBuffer::new(&mut slots[..], &mut bytes[..]);
    /// assert_eq!(queue.last_mut(), b"");
    /// assert_eq!(queue.push_slice(1, b"abc"), Ok(()));
    /// queue.last_mut()[0] = b'x';
    /// assert_eq!(queue.peek(), Ok((&1, &b"xbc"[..])));
    /// ```
    #[tactic(auto, using(crate::proofs::PacketOrder::last_lent))]
    pub fn last_mut(&mut self) -> &mut [u8]
        ensures* writes_back { sem 𝓛 (lends_bytes H.row M.row B.row M.Storage B.Storage
            self.entry result (with_last_bytes self.old)) }
        ensures written { (ws : List ℕ) → length ws ≡ length result.now
            → contents (with_last_bytes self.old ws)
            ≡ with_bytes_in_last_entry ws (contents self.old) }
        ensures value { result.now ≡ last_bytes self.old }
        ensures size { length result.now ≡ first_size (only_last self.old.packets) }
        ensures capacity { (ws : List ℕ) → length (with_last_bytes self.old ws).storage
            ≡ length self.old.storage }
        ensures call { (ws : List ℕ) → self.old.packets ≢ [] → length ws ≡ length result.now
            → Makes (WriteLast ws) self.old (with_last_bytes self.old ws) }
    {
        let size = self.last_size();
        self.last_part_mut(size)
    }

    /// Appends a packet whose bytes are `data`, as [`PacketsOver::enqueue`] does. (Not in smoltcp.)
    ///
    /// ```
    /// # use net_base::storage::{Full, PacketBuffer, PacketMetadata};
    /// # let mut slots = [PacketMetadata::EMPTY; 4];
    /// # let mut bytes = [0u8; 16];
    /// # let mut queue = PacketBuffer::new(&mut slots[..], &mut bytes[..]);
    /// assert_eq!(queue.push_slice(1, b"abc"), Ok(()));
    /// assert_eq!(queue.push_slice(2, &[0; 14]), Err(Full));
    /// ```
    ///
    /// # Errors
    ///
    /// `Full` if [`PacketsOver::enqueue`] returns it. Then the header is dropped, and nothing
    /// changes.
    pub fn push_slice(&mut self, header: H, data: &[u8]) -> Result<(), Full>
        // Guarantee.
        ensures pushed { OnOk result
            (contents self.new ≡ contents self.old ++ (header, «data».now) ∷ []) }
        ensures full { IsErr result ↔ (placement self.old (length «data».now) ≡ None) }
        // Guarantee.
        ensures unchanged { OnErr result (self.new ≡ self.old) }
        ensures made { OnOk result (self.new ≡ with_packet_of self.old header «data».now) }
        ensures capacity { (self.new.slot_count ≡ self.old.slot_count)
            × (length self.new.storage ≡ length self.old.storage) }
        ensures call { OnOk result (Makes (Enqueue header «data».now) self.old self.new) }
    {
        self.place(data.len(), header)?;
        self.last_part_mut(data.len()).copy_from_slice(data);
        Ok(())
    }

    /// Appends a packet that `f` writes. `f` is lent `max_size` bytes, and returns how many of the
    /// first ones are the packet. That number is returned.
    ///
    /// smoltcp places these packets by a rule of its own and can take more than `max_size` bytes.
    ///
    /// ```
    /// # use net_base::storage::{PacketBuffer, PacketMetadata};
    /// # let mut slots = [PacketMetadata::EMPTY; 4];
    /// # let mut bytes = [0u8; 16];
    /// # let mut queue = PacketBuffer::new(&mut slots[..], &mut bytes[..]);
    /// let written = queue.enqueue_with_infallible(8, 1, |payload| {
    ///     payload[..3].copy_from_slice(b"abc");
    ///     3
    /// });
    /// assert_eq!(written, Ok(3));
    /// assert_eq!(queue.peek().ok(), Some((&1, &b"abc"[..])));
    /// ```
    ///
    /// # Errors
    ///
    /// `Full` if [`PacketsOver::enqueue`] returns it for `max_size` bytes. Then the header is
    /// dropped, `f` isn't called, and nothing changes.
    ///
    /// # Requires
    ///
    /// `f` returns at most `max_size`.
    #[track_caller]
    #[tactic(auto, using(crate::proofs::HeadParts::placement_is))]
    pub fn enqueue_with_infallible<F: FnOnce(&mut [u8]) -> usize>(
        &mut self,
        max_size: usize,
        header: H,
        f: F,
    ) -> Result<usize, Full>
        requires callable { (room : List ℕ) → IsRoom self.old max_size header room
            → FnOnceTakesAtMut F.FnOnce f room }
        requires count { (room ws : List ℕ) (k : ℕ) → IsRoom self.old max_size header room
            → FnOnceReturnsAtMut F.FnOnce f room k ws → k ≤ max_size }
        ensures full { IsErr result ↔ (placement self.old max_size ≡ None) }
        ensures unchanged { OnErr result (self.new ≡ self.old) }
        ensures wrote { IfOk result
            (λ k. WritesPacket F.FnOnce f self.old max_size header k self.new) }
        ensures capacity { (self.new.slot_count ≡ self.old.slot_count)
            × (length self.new.storage ≡ length self.old.storage) }
    {
        let slot_count = self.slots.count();
        let capacity = self.bytes.count();
        let mut head = self.head;
        let Some(place) = head.place(slot_count, capacity, max_size) else {
            return Err(Full);
        };
        let count = f(self.bytes.part_mut(place.from, place.from + max_size));
        prove!(count <= max_size, "more bytes than were lent");
        head.shorten_last(max_size - count);
        // The head is written last, as in `place`.
        write_slots(&mut self.slots, place, count, header);
        self.head = head;
        Ok(count)
    }
}

/// Reading the first packet, and taking it off.
impl<H: Drop, M: Storage<PacketMetadata<H>>, B: Storage<u8>> PacketsOver<H, M, B> {
    ghost use Rattle.net_packets.specs.PacketLends.{lends_bytes, lends_packet_if, ends_as};

    /// Calls `f` on the header and the bytes of the first packet, and drops its gap. If `f` returns
    /// `Ok`, the packet is taken off; if it returns `Err`, the packet stays first, with what `f`
    /// wrote to its header and bytes.
    ///
    /// ```
    /// # use net_base::storage::{Full, PacketBuffer, PacketMetadata};
    /// # let mut slots = [PacketMetadata::EMPTY; 4];
    /// # let mut bytes = [0u8; 16];
    /// # let mut queue = PacketBuffer::new(&mut slots[..], &mut bytes[..]);
    /// queue.enqueue(3, 1)?.copy_from_slice(b"abc");
    /// assert_eq!(queue.dequeue_with(|_, _| Err::<(), _>("later")), Ok(Err("later")));
    /// assert_eq!(queue.dequeue_with(|header, payload| Ok::<_, ()>((*header, payload[0]))), Ok(Ok((1, b'a'))));
    /// assert!(queue.is_empty());
    /// # Ok::<(), Full>(())
    /// ```
    ///
    /// # Errors
    ///
    /// `Empty` if the queue has no packets. Then `f` isn't called, and nothing changes.
    pub fn dequeue_with<R, E, F: FnOnce(&mut H, &mut [u8]) -> Result<R, E>>(
        &mut self,
        f: F,
    ) -> Result<Result<R, E>, Empty>
        requires { TakesFirstPacket F.FnOnce f self.old }
        ensures empty { IsErr result ↔ (contents self.old ≡ []) }
        ensures no_packet { IsErr result ↔ (length self.old.packets ≡ 0) }
        ensures unchanged { OnErr result (self.new ≡ self.old) }
        ensures handed { IfOk result (λ answer. HandsPacket F.FnOnce f self.old answer self.new) }
        ensures capacity { (self.new.slot_count ≡ self.old.slot_count)
            × (length self.new.storage ≡ length self.old.storage) }
    {
        self.skip();
        if self.head.slots.length == 0 {
            return Err(Empty);
        }
        let slot_count = self.slots.count();
        let capacity = self.bytes.count();
        let from = self.head.bytes.read_at;
        let slot = self.slots.element_mut(self.head.slots.read_at);
        let size = slot.size;
        let Some(header) = slot.header.as_mut() else {
            return Err(Empty);
        };
        let answer = f(header, self.bytes.part_mut(from, from + size));
        if answer.is_ok() {
            self.head.take(slot_count, capacity, size);
        }
        Ok(answer)
    }

    /// Takes the first packet and its gap off, returns its header and lends its bytes.
    ///
    /// ```
    /// # use net_base::storage::{Empty, Full, PacketBuffer, PacketMetadata};
    /// # let mut slots = [PacketMetadata::EMPTY; 4];
    /// # let mut bytes = [0u8; 16];
    /// # let mut queue = PacketBuffer::new(&mut slots[..], &mut bytes[..]);
    /// queue.enqueue(3, 1)?.copy_from_slice(b"abc");
    /// let (header, payload) = queue.dequeue().unwrap();
    /// assert_eq!((header, &payload[..]), (1, &b"abc"[..]));
    /// assert_eq!(queue.dequeue(), Err(Empty));
    /// # Ok::<(), Full>(())
    /// ```
    ///
    /// # Errors
    ///
    /// `Empty` if the queue has no packets. Then nothing changes.
    pub fn dequeue(&mut self) -> Result<(H, &mut [u8]), Empty>
        ensures* writes_back { sem 𝓛 (lends_packet_if H.row M.row B.row M.Storage B.Storage
            self.entry result (with_bytes (without_first_and_gap self.old)
            (without_gap self.old).read_at)) }
        ensures empty { IsErr result ↔ (contents self.old ≡ []) }
        // Guarantee.
        ensures shown { IfOk result
            (λ r. contents self.old ≡ (r.0, r.1.now) ∷ drop 1 (contents self.old)) }
        ensures left { IfOk result (λ r. (ws : List ℕ) → length ws ≡ length r.1.now
            → contents (with_bytes (without_first_and_gap self.old)
            (without_gap self.old).read_at ws)
            ≡ drop 1 (contents self.old)) }
        ensures no_packet { IsErr result ↔ (length self.old.packets ≡ 0) }
        ensures first { IfOk result (λ r. IsFirst self.old r.0 r.1.now) }
        ensures call { IfOk result (λ r. (ws : List ℕ) → length ws ≡ length r.1.now
            → Makes (Dequeue r.0 r.1.now ws) self.old
            (with_bytes (without_first_and_gap self.old) (without_gap self.old).read_at ws)) }
    {
        let Ok((header, size)) = self.take() else {
            return Err(Empty);
        };
        Ok((header, self.last_dequeued_mut(size)))
    }

    /// Takes the first packet and its gap off, and returns its header and how many bytes it has, as
    /// [`PacketsOver::dequeue`] does, of which this is the first step:
    /// [`PacketsOver::last_dequeued_mut`] lends the bytes.
    ///
    /// ```
    /// # use net_base::storage::{PacketBuffer, PacketMetadata};
    /// # let mut slots = [PacketMetadata::EMPTY; 4];
    /// # let mut bytes = [0u8; 16];
    /// # let mut queue = PacketBuffer::new(&mut slots[..], &mut bytes[..]);
    /// assert_eq!(queue.push_slice(1, b"abc"), Ok(()));
    /// assert_eq!(queue.take(), Ok((1, 3)));
    /// assert_eq!(queue.last_dequeued_mut(3), b"abc");
    /// ```
    ///
    /// # Errors
    ///
    /// `Empty` if the queue has no packets. Then nothing changes.
    #[tactic(auto, using(crate::proofs::PacketSteps::close_gap, crate::proofs::PacketOrder::left_as))]
    pub fn take(&mut self) -> Result<(H, usize), Empty>
        ensures empty { IsErr result ↔ (contents self.old ≡ []) }
        // Guarantee.
        ensures taken { IfOk result
            (λ r. contents self.old ≡ (r.0, last_dequeued_bytes self.new r.1) ∷ contents self.new) }
        // Guarantee.
        ensures left { OnOk result (contents self.new ≡ drop 1 (contents self.old)) }
        ensures no_packet { IsErr result ↔ (length self.old.packets ≡ 0) }
        ensures unchanged { OnErr result (self.new ≡ self.old) }
        ensures first { IfOk result (λ r. IsFirstSized self.old.packets r.0 r.1) }
        ensures dequeued { OnOk result (self.new ≡ without_first_and_gap self.old) }
        ensures last_dequeued { IfOk result
            (λ r. AreLastDequeued self.new r.1
            × (last_dequeued_bytes_index self.new r.1 ≡ (without_gap self.old).read_at)) }
        ensures capacity { (self.new.slot_count ≡ self.old.slot_count)
            × (length self.new.storage ≡ length self.old.storage) }
        ensures call { IfOk result
            (λ r. Makes (Take r.0 (last_dequeued_bytes self.new r.1)) self.old self.new) }
    {
        self.skip();
        let Some((header, size)) = self.take_first() else {
            return Err(Empty);
        };
        Ok((header, size))
    }

    /// Lends the `size` bytes before the read index: those of the packet that was taken off last.
    ///
    /// ```
    /// # use net_base::storage::{Empty, PacketBuffer, PacketMetadata};
    /// # let mut slots = [PacketMetadata::EMPTY; 4];
    /// # let mut bytes = [0u8; 16];
    /// # let mut queue = PacketBuffer::new(&mut slots[..], &mut bytes[..]);
    /// assert_eq!(queue.push_slice(1, b"abc"), Ok(()));
    /// let (_header, size) = queue.take()?;
    /// queue.last_dequeued_mut(size).make_ascii_uppercase();
    /// assert_eq!(queue.last_dequeued_mut(size), b"ABC");
    /// # Ok::<(), Empty>(())
    /// ```
    ///
    /// # Requires
    ///
    /// The `size` bytes before the read index are contiguous and none is a packet's, as after a
    /// call of [`PacketsOver::take`] that returned `size`.
    #[track_caller]
    pub fn last_dequeued_mut(&mut self, size: usize) -> &mut [u8]
        requires { AreLastDequeued self.old size }
        ensures* writes_back { sem 𝓛 (lends_bytes H.row M.row B.row M.Storage B.Storage
            self.entry result (with_bytes self.old (last_dequeued_bytes_index self.old size))) }
        ensures unseen { (ws : List ℕ) → length ws ≡ size
            → contents (with_bytes self.old (last_dequeued_bytes_index self.old size) ws)
            ≡ contents self.old }
        ensures value { result.now ≡ last_dequeued_bytes self.old size }
        ensures size { length result.now ≡ size }
        ensures capacity { (ws : List ℕ) → length (with_bytes self.old
            (last_dequeued_bytes_index self.old size) ws).storage ≡ length self.old.storage }
        ensures call { (ws : List ℕ) → length ws ≡ size → Makes (WriteLastDequeued ws) self.old
            (with_bytes self.old (last_dequeued_bytes_index self.old size) ws) }
    {
        let capacity = self.bytes.count();
        prove!(
            size <= capacity - self.head.bytes.length,
            "the bytes are not free"
        );
        let from = self.head.bytes.last_dequeued_index(capacity, size);
        prove!(size <= capacity - from, "the bytes are not contiguous");
        self.bytes.part_mut(from, from + size)
    }

    /// Takes the first packet and its gap off, copies as many of its bytes as `into` has room for,
    /// and returns its header and how many bytes were copied. Bytes that don't fit are lost.
    ///
    /// (Not in smoltcp.)
    ///
    /// ```
    /// # use net_base::storage::{PacketBuffer, PacketMetadata};
    /// # let mut slots = [PacketMetadata::EMPTY; 4];
    /// # let mut bytes = [0u8; 16];
    /// # let mut queue = PacketBuffer::new(&mut slots[..], &mut bytes[..]);
    /// assert_eq!(queue.push_slice(1, b"abc"), Ok(()));
    /// let mut into = *b"-----";
    /// assert_eq!((queue.pop_slice(&mut into), &into), (Ok((1, 3)), b"abc--"));
    /// ```
    ///
    /// # Errors
    ///
    /// `Empty` if the queue has no packets. Then nothing changes.
    #[tactic(auto, using(crate::proofs::PacketOrder::last_dequeued_stay))]
    pub fn pop_slice(&mut self, into: &mut [u8]) -> Result<(H, usize), Empty>
        ensures empty { IsErr result ↔ (contents self.old ≡ []) }
        ensures popped { IfOk result
            (λ r. CopiesOut (contents self.old) r.0 into.old r.1 (contents self.new) into.new) }
        // Guarantee.
        ensures count { IfOk result
            (λ r. r.1 ≡ min (length (head_bytes (contents self.old))) (length into.old)) }
        // Guarantee.
        ensures bytes { IfOk result
            (λ r. into.new ≡ take r.1 (head_bytes (contents self.old)) ++ drop r.1 into.old) }
        // Guarantee.
        ensures left { OnOk result (contents self.new ≡ drop 1 (contents self.old)) }
        ensures no_packet { IsErr result ↔ (length self.old.packets ≡ 0) }
        ensures unchanged { OnErr result ((self.new ≡ self.old) × (into.new ≡ into.old)) }
        ensures made { OnOk result (self.new ≡ without_first_and_gap self.old) }
        ensures capacity { (self.new.slot_count ≡ self.old.slot_count)
            × (length self.new.storage ≡ length self.old.storage) }
        ensures call { IfOk result
            (λ r. Makes (Take r.0 (head_bytes (contents self.old))) self.old self.new) }
    {
        let (header, size) = self.take()?;
        let count = copy(into, self.last_dequeued_mut(size));
        Ok((header, count))
    }

    /// Shows the header and the bytes of the first packet, and drops its gap.
    ///
    /// ```
    /// # use net_base::storage::{Full, PacketBuffer, PacketMetadata};
    /// # let mut slots = [PacketMetadata::EMPTY; 4];
    /// # let mut bytes = [0u8; 16];
    /// # let mut queue = PacketBuffer::new(&mut slots[..], &mut bytes[..]);
    /// queue.enqueue(3, 1)?.copy_from_slice(b"abc");
    /// assert_eq!(queue.peek(), Ok((&1, &b"abc"[..])));
    /// assert_eq!(queue.peek(), Ok((&1, &b"abc"[..])));
    /// # Ok::<(), Full>(())
    /// ```
    ///
    /// # Errors
    ///
    /// `Empty` if the queue has no packets. Then nothing changes.
    pub fn peek(&mut self) -> Result<(&H, &[u8]), Empty>
        ensures* skips { sem 𝓛 (ends_as H.row M.row B.row M.Storage B.Storage
            self.entry (without_gap self.old)) }
        ensures empty { IsErr result ↔ (contents self.old ≡ []) }
        // Guarantee.
        ensures shown { IfOk result
            (λ r. contents self.old ≡ (r.0.now, r.1.now) ∷ drop 1 (contents self.old)) }
        ensures same { contents (without_gap self.old) ≡ contents self.old }
        ensures no_packet { IsErr result ↔ (length self.old.packets ≡ 0) }
        ensures unchanged { OnErr result (without_gap self.old ≡ self.old) }
        ensures first { IfOk result (λ r. IsFirstSized self.old.packets r.0.now (length r.1.now)) }
        ensures bytes { IfOk result (λ r. r.1.now ≡ first_bytes (without_gap self.old)) }
        ensures call { Makes Peek self.old (without_gap self.old) }
    {
        self.skip();
        self.first()
    }
}

/// Steps that the calls share.
impl<H, M: Storage<PacketMetadata<H>>, B: Storage<u8>> PacketsOver<H, M, B> {
    /// Returns the gap before a packet of `size` bytes, if it can be placed.
    #[inline]
    #[tactic(auto, using(crate::proofs::HeadParts::placement_is))]
    fn placement(&self, size: usize) -> Option<usize>
        ensures { result ≡ placement self.now size }
    {
        self.head
            .placement(self.slots.count(), self.bytes.count(), size)
    }

    /// Returns the gap before the first packet, or 0 if there is none.
    #[inline]
    fn first_gap(&self) -> usize
        ensures gap { result ≡ first_gap self.now.packets }
        ensures well_placed { IsWellPlaced self.now }
    {
        if self.head.slots.length == 0 {
            return 0;
        }
        let slot = self.slots.element(self.head.slots.read_at);
        match &slot.header {
            Some(_header) => 0,
            None => slot.size,
        }
    }

    /// Drops the gap before the first packet.
    #[inline]
    fn skip(&mut self)
        ensures skipped { self.new ≡ without_gap self.old }
        ensures unchanged { first_gap self.old.packets ≡ 0 → self.new ≡ self.old }
        ensures well_placed { IsWellPlaced self.old }
    {
        let gap = self.first_gap();
        if gap > 0 {
            self.head.take(self.slots.count(), self.bytes.count(), gap);
        }
    }

    /// Returns the first packet, which has no gap before it.
    #[tactic(auto, using(crate::proofs::HeadParts::some_in))]
    fn first(&self) -> Result<(&H, &[u8]), Empty>
        requires { first_gap self.now.packets ≡ 0 }
        ensures no_packet { IsErr result ↔ (length self.now.packets ≡ 0) }
        ensures first { IfOk result (λ r. IsFirstSized self.now.packets r.0.now (length r.1.now)) }
        ensures bytes { IfOk result (λ r. r.1.now ≡ first_bytes self.now) }
    {
        if self.head.slots.length == 0 {
            return Err(Empty);
        }
        // Called only for its clauses, by which the sum below does not wrap.
        let _capacity = self.bytes.count();
        let slot = self.slots.element(self.head.slots.read_at);
        let from = self.head.bytes.read_at;
        match &slot.header {
            Some(header) => Ok((header, self.bytes.part(from, from + slot.size))),
            None => Err(Empty),
        }
    }

    /// Returns the size of the last packet, or 0 if there is none.
    #[tactic(auto, using(crate::proofs::HeadParts::last_size_is))]
    fn last_size(&self) -> usize
        ensures size { result ≡ first_size (only_last self.now.packets) }
        ensures well_placed { IsWellPlaced self.now }
    {
        if self.head.slots.length == 0 {
            return 0;
        }
        let last = self
            .head
            .slots
            .index(self.slots.count(), self.head.slots.length - 1);
        self.slots.element(last).size
    }
}

impl<H: Drop, M: Storage<PacketMetadata<H>>, B: Storage<u8>> PacketsOver<H, M, B> {
    ghost use Rattle.net_packets.specs.PacketLends.{lends_bytes};

    /// Lends the last `size` bytes, which are those of the last packet.
    #[tactic(auto, using(crate::proofs::HeadParts::last_in, crate::proofs::HeadParts::last_fits))]
    fn last_part_mut(&mut self, size: usize) -> &mut [u8]
        requires { size ≡ first_size (only_last self.old.packets) }
        ensures* writes_back { sem 𝓛 (lends_bytes H.row M.row B.row M.Storage B.Storage
            self.entry result (with_last_bytes self.old)) }
        ensures value { result.now ≡ last_bytes self.old }
        ensures size { length result.now ≡ first_size (only_last self.old.packets) }
    {
        let before = self.head.bytes.length - size;
        let from = self.head.bytes.index(self.bytes.count(), before);
        self.bytes.part_mut(from, from + size)
    }

    /// Takes the first packet, which has no gap before it, off, and returns its header and size.
    #[tactic(auto, using(crate::proofs::HeadParts::first_slots))]
    fn take_first(&mut self) -> Option<(H, usize)>
        requires { first_gap self.old.packets ≡ 0 }
        ensures none { IsNone result ↔ (length self.old.packets ≡ 0) }
        ensures unchanged { IsNone result → self.new ≡ self.old }
        ensures first { IfSome result (λ r. IsFirstSized self.old.packets r.0 r.1) }
        ensures left { IfSome result (λ r. self.new ≡ without_first self.old) }
    {
        if self.head.slots.length == 0 {
            return None;
        }
        let Some((size, header)) = lift_header(&mut self.slots, self.head.slots.read_at) else {
            return None;
        };
        let slot_count = self.slots.count();
        let capacity = self.bytes.count();
        self.head.take(slot_count, capacity, size);
        Some((header, size))
    }
}

/// Returns how many of the slots are those of packets, not of gaps.
fn count_packets<H>(slots: &[PacketMetadata<H>]) -> usize
    ensures count { result ≡ length (filter (λ m. is_some m.header) slots.now) }
    ensures within { result ≤ length slots.now }
{
    slots.iter().filter(|slot| slot.header.is_some()).count()
}

/// Copies as many bytes as both have, and returns how many.
fn copy(into: &mut [u8], bytes: &[u8]) -> usize
    ensures count { result ≡ min (length bytes.now) (length into.old) }
    ensures copied { into.new ≡ take result bytes.now ++ drop result into.old }
{
    let count = bytes.len().min(into.len());
    into[..count].copy_from_slice(&bytes[..count]);
    count
}

/// Writes the slots of a packet of `size` bytes and of its gap, if that has one.
#[inline]
fn write_slots<H: Drop, M: Storage<PacketMetadata<H>>>(
    slots: &mut M,
    place: PacketPlace,
    size: usize,
    header: H,
)
    requires gap_slot { place.gap_slot < length (M.elements slots.old) }
    requires slot { place.slot < length (M.elements slots.old) }
    ensures { M.elements slots.new ≡ slots_with place size header (M.elements slots.old) }
{
    if place.gap > 0 {
        *slots.element_mut(place.gap_slot) = PacketMetadata {
            size: place.gap,
            header: None,
        };
    }
    *slots.element_mut(place.slot) = PacketMetadata {
        size,
        header: Some(header),
    };
}

/// Takes the header out of the slot at the index `at`, and returns the slot's size and the header;
/// `None`, and nothing changes, if it has none.
fn lift_header<H: Drop, M: Storage<PacketMetadata<H>>>(
    slots: &mut M,
    at: usize,
) -> Option<(usize, H)>
    requires { at < length (M.elements slots.old) }
    ensures none { IsNone result → (size : _) (h : _) →
        slice_get (M.elements slots.old) at ≡ Some (slot size (Some h)) → ⊥ }
    ensures some { IfSome result
        (λ r. slice_get (M.elements slots.old) at ≡ Some (slot r.0 (Some r.1))) }
    ensures left { IfSome result
        (λ r. M.elements slots.new ≡ set (M.elements slots.old) at (slot r.0 None)) }
{
    let slot = slots.element_mut(at);
    let size = slot.size;
    let header = slot.header.take()?;
    Some((size, header))
}

//! The head of a ring, which is a ring without its storage: where elements are, and what calls leave.
//!
//! [`RingOver`](crate::RingOver) is a storage and a head. A caller that has the storage elsewhere, as a
//! program in C, calls the functions here with its capacity, or with the storage as a slice.

// Why: No remainder is computed: indices are compared, and offsets clamped to the window or the queue, before
// anything is added. So a capacity of 0 and zero-sized elements need no case of their own.

#![tactic(auto, using(crate::proofs::RingFacts::heads))]

ghost use Rattle.std.specs.Prelude.{◌≡◌, ◌↔◌, ◌≤◌, ◌-◌, ◌+◌, ◌++◌, ℕ, IsTrue, min, length, take, drop};
ghost use Rattle.net_ring.specs.Overwrite.{overwrite};
ghost use Rattle.net_ring.specs.Ring.{index_after, queue, window, with_elements_wrapping, with_enqueued, with_dequeued};
ghost use Rattle.net_ring.specs.Ring.{rewind_if_empty, write_at, spare_index, WritesSpare, Enqueues, Dequeues};
ghost use Rattle.net_ring.specs.RingHead.{place, IsSound, IsWithin, ring_at, free_index, queued_index, contiguous_free};
ghost use Rattle.net_ring.specs.RingHead.{rewound, enqueued_place, dequeued_place, written_span, elements_at};

/// The head of a ring: its numbers without its storage.
///
/// A head is sound for a storage, as [`is_sound`](RingHead::is_sound) tells, if it is that of a ring of
/// as many elements. The other calls require a head that is sound for the capacity or the storage that
/// they take, and leave such a head. smoltcp has no such type.
#[repr(C)]
#[derive(Debug, Clone, Copy)]
pub struct RingHead {
    /// The index of the first element of the queue, 0 if the storage is empty.
    pub read_at: usize,
    /// How many elements are queued.
    pub length: usize,
}

/// A range of a ring: `contiguous` elements from the index `from` on, and the rest of `count` from
/// index 0 on.
///
/// ```
/// use net_base::storage::SplitCounts;
///
/// // An empty ring of four elements that is written from index 3 on.
/// let span = SplitCounts { written: 3, taken: 3 }.free(4, 9).span;
/// assert_eq!((span.from, span.contiguous, span.count), (3, 1, 4));
/// ```
#[repr(C)]
#[derive(Debug, Clone, Copy, PartialEq, Eq)]
pub struct Span {
    /// The index of the first one.
    pub from: usize,
    /// How many there are.
    pub count: usize,
    /// How many of them are contiguous, from the first one on.
    pub contiguous: usize,
}

/// Where elements are.
impl RingHead {
    /// Returns the head of an empty ring, which is sound for each storage.
    #[inline]
    pub const fn new() -> Self
        ensures { result ≡ place 0 0 }
    {
        RingHead {
            read_at: 0,
            length: 0,
        }
    }

    /// Returns whether the head is that of a ring of `capacity` elements: its read index is an
    /// index of the storage, or 0, and it has no more elements than the storage.
    #[inline]
    pub fn is_sound(self, capacity: usize) -> bool
        ensures { IsTrue result ↔ IsSound capacity self }
    {
        (self.read_at == 0 || self.read_at < capacity) && self.length <= capacity
    }

    /// Returns the index in the storage that is `offset` elements after the read index, wrapping at
    /// the storage's end.
    ///
    /// # Requires
    ///
    /// The head is sound, and `offset` is at most `capacity`.
    #[inline]
    pub fn index(self, capacity: usize, offset: usize) -> usize
        requires sound { IsSound capacity self }
        requires offset { offset ≤ capacity }
        ensures index { result ≡ index_after capacity self.read_at offset }
        ensures within { result ≤ capacity }
    {
        // Of seven elements, read from index 3 on, the offsets by index:
        // [ 4 5 6 0 1 2 3 ]
        let to_end = capacity - self.read_at;
        if offset < to_end {
            prove!(self.read_at + offset <= capacity, "in any `usize`");
            self.read_at + offset
        } else {
            offset - to_end
        }
    }

    /// Clamps `size` elements from `offset` on to the `available` ones that begin `start` elements
    /// after the read index, and returns where they are.
    #[inline]
    fn span(
        self,
        capacity: usize,
        start: usize,
        available: usize,
        offset: usize,
        size: usize,
    ) -> Span
        requires sound { IsSound capacity self }
        requires available { start + available ≤ capacity }
        ensures from { result.from
            ≡ index_after capacity self.read_at (start + min offset available) }
        ensures count { result.count ≡ min size (available - offset) }
        ensures contiguous { result.contiguous ≡ min result.count (capacity - result.from) }
        ensures within { (result.from ≤ capacity) × IsWithin capacity result }
    {
        let offset = offset.min(available);
        prove!(start + offset <= capacity, "in any `usize`");
        let from = self.index(capacity, start + offset);
        let count = size.min(available - offset);
        let contiguous = count.min(capacity - from);
        Span {
            from,
            count,
            contiguous,
        }
    }

    /// Returns where at most `size` free elements are, from the one at `offset` on; none if `offset`
    /// is past the free elements.
    #[inline]
    pub fn unallocated(self, capacity: usize, offset: usize, size: usize) -> Span
        requires sound { IsSound capacity self }
        ensures from { result.from ≡ free_index capacity self offset }
        ensures count { result.count ≡ min size (capacity - self.length - offset) }
        ensures contiguous { result.contiguous ≡ min result.count (capacity - result.from) }
        ensures within { (result.from ≤ capacity) × IsWithin capacity result }
    {
        self.span(capacity, self.length, capacity - self.length, offset, size)
    }

    /// Returns where at most `size` elements of the queue are, from the one at `offset` on; none if
    /// `offset` is past the queue.
    #[inline]
    pub fn allocated(self, capacity: usize, offset: usize, size: usize) -> Span
        requires sound { IsSound capacity self }
        ensures from { result.from ≡ queued_index capacity self offset }
        ensures count { result.count ≡ min size (self.length - offset) }
        ensures contiguous { result.contiguous ≡ min result.count (capacity - result.from) }
        ensures within { (result.from ≤ capacity) × IsWithin capacity result }
    {
        self.span(capacity, 0, self.length, offset, size)
    }

    /// Returns how many elements can be enqueued before the storage's end.
    #[inline]
    pub fn contiguous_window(self, capacity: usize) -> usize
        requires sound { IsSound capacity self }
        ensures count { result ≡ contiguous_free capacity self }
        ensures within { (result ≤ capacity - self.length)
            × (index_after capacity self.read_at self.length + result ≤ capacity) }
    {
        let to_end = capacity - self.read_at;
        if self.length < to_end {
            // The spare part wraps: [ . . a b c . . ], or begins at index 0: [ a b c . . . . ].
            to_end - self.length
        } else {
            // The queue reaches the storage's end: [ d e . . a b c ], or [ . . . . a b c ].
            capacity - self.length
        }
    }

    /// Returns how many elements of the queue are contiguous, from the first one on.
    #[inline]
    pub fn contiguous_queue(self, capacity: usize) -> usize
        requires sound { IsSound capacity self }
        ensures count { result ≡ min self.length (capacity - self.read_at) }
    {
        self.length.min(capacity - self.read_at)
    }

    /// Returns the index in the storage that is `size` elements before the read index, wrapping at
    /// its beginning. If as many are free, the last free ones begin there: those that were dequeued
    /// last.
    ///
    /// # Requires
    ///
    /// The head is sound, and `size` is at most `capacity`.
    #[inline]
    pub fn last_dequeued_index(self, capacity: usize, size: usize) -> usize
        requires sound { IsSound capacity self }
        requires size { size ≤ capacity }
        ensures { result ≡ index_after capacity self.read_at (capacity - size) }
    {
        if size <= self.read_at {
            self.read_at - size
        } else {
            capacity - (size - self.read_at)
        }
    }
}

/// What calls leave.
impl RingHead {
    /// Empties the queue, and moves the read index to the storage's beginning.
    #[inline]
    pub(crate) fn clear(&mut self)
        ensures { self.new ≡ place 0 0 }
    {
        *self = RingHead::new();
    }

    /// Moves the read index of an empty ring to the storage's beginning: then all its free elements
    /// are contiguous. Otherwise the head stays as it is.
    #[inline]
    pub fn rewind_if_empty(&mut self)
        ensures place { self.new ≡ rewound self.old }
        ensures sound { (c : ℕ) → IsSound c self.old → IsSound c self.new }
    {
        if self.length == 0 {
            self.read_at = 0;
        }
    }

    /// Enqueues `count` elements, with what the storage has there.
    ///
    /// # Requires
    ///
    /// The head is sound, and `count` elements are free.
    #[inline]
    pub fn enqueue(&mut self, capacity: usize, count: usize)
        requires sound { IsSound capacity self.old }
        requires free { count ≤ capacity - self.old.length }
        ensures place { self.new ≡ enqueued_place count self.old }
        ensures sound { IsSound capacity self.new }
    {
        self.length += count;
        prove!(self.length <= capacity, "in any `usize`");
    }

    /// Dequeues `count` elements.
    ///
    /// # Requires
    ///
    /// The head is sound, and `count` elements are queued.
    #[inline]
    pub fn dequeue(&mut self, capacity: usize, count: usize)
        requires sound { IsSound capacity self.old }
        requires queued { count ≤ self.old.length }
        ensures place { self.new ≡ dequeued_place capacity count self.old }
        ensures sound { IsSound capacity self.new }
    {
        self.read_at = self.index(capacity, count);
        self.length -= count;
    }

    /// Dequeues `count` contiguous elements. It is [`dequeue`](RingHead::dequeue), with one comparison.
    #[inline]
    pub(crate) fn dequeue_contiguous(&mut self, capacity: usize, count: usize)
        requires sound { IsSound capacity self.old }
        requires queued { count ≤ self.old.length }
        requires contiguous { self.old.read_at + count ≤ capacity }
        ensures place { self.new ≡ dequeued_place capacity count self.old }
        ensures sound { IsSound capacity self.new }
    {
        let next = self.read_at + count;
        prove!(next <= capacity, "in any `usize`");
        self.read_at = if next < capacity { next } else { 0 };
        self.length -= count;
    }

    /// Takes the last `count` elements off the queue: they are then the first free ones.
    ///
    /// # Requires
    ///
    /// `count` elements are queued.
    #[inline]
    pub fn drop_last(&mut self, count: usize)
        requires queued { count ≤ self.old.length }
        ensures place { self.new ≡ place self.old.read_at (self.old.length - count) }
        ensures sound { (c : ℕ) → IsSound c self.old → IsSound c self.new }
    {
        self.length -= count;
    }

    /// Enqueues as many elements as there is room for, at most `size`, and returns where they are.
    ///
    /// An empty ring first moves its read index to the storage's beginning.
    #[inline]
    pub fn enqueue_span(&mut self, capacity: usize, size: usize) -> Span
        requires sound { IsSound capacity self.old }
        ensures from { result.from ≡ free_index capacity (rewound self.old) 0 }
        ensures count { result.count ≡ min size (capacity - self.old.length) }
        ensures contiguous { result.contiguous ≡ min result.count (capacity - result.from) }
        ensures within { (result.from ≤ capacity) × IsWithin capacity result }
        ensures place { self.new ≡ enqueued_place result.count (rewound self.old) }
        ensures sound { IsSound capacity self.new }
    {
        self.rewind_if_empty();
        let span = self.unallocated(capacity, 0, size);
        self.length += span.count;
        prove!(self.length <= capacity, "in any `usize`");
        span
    }

    /// Enqueues contiguous elements, at most `size`, and returns where they are: the span has no
    /// others.
    ///
    /// An empty ring first moves its read index to the storage's beginning.
    #[inline]
    pub(crate) fn enqueue_many(&mut self, capacity: usize, size: usize) -> Span
        requires sound { IsSound capacity self.old }
        ensures from { result.from ≡ free_index capacity (rewound self.old) 0 }
        ensures count { result.count
            ≡ min size (min (capacity - self.old.length) (capacity - result.from)) }
        ensures contiguous { result.contiguous ≡ result.count }
        ensures within { (result.from ≤ capacity) × IsWithin capacity result }
        ensures place { self.new ≡ enqueued_place result.count (rewound self.old) }
        ensures sound { IsSound capacity self.new }
    {
        self.rewind_if_empty();
        let from = self.index(capacity, self.length);
        let count = size.min(self.contiguous_window(capacity));
        self.length += count;
        prove!(self.length <= capacity, "in any `usize`");
        Span {
            from,
            count,
            contiguous: count,
        }
    }

    /// Dequeues as many elements as are queued, at most `size`, and returns where they are.
    #[inline]
    pub fn dequeue_span(&mut self, capacity: usize, size: usize) -> Span
        requires sound { IsSound capacity self.old }
        ensures from { result.from ≡ queued_index capacity self.old 0 }
        ensures count { result.count ≡ min size self.old.length }
        ensures contiguous { result.contiguous ≡ min result.count (capacity - result.from) }
        ensures within { (result.from ≤ capacity) × IsWithin capacity result }
        ensures place { self.new ≡ dequeued_place capacity result.count self.old }
        ensures sound { IsSound capacity self.new }
    {
        let span = self.allocated(capacity, 0, size);
        self.dequeue(capacity, span.count);
        span
    }

    /// Dequeues contiguous elements, at most `size`, and returns where they are: the span has no
    /// others.
    #[inline]
    pub(crate) fn dequeue_many(&mut self, capacity: usize, size: usize) -> Span
        requires sound { IsSound capacity self.old }
        ensures from { result.from ≡ self.old.read_at }
        ensures count { result.count
            ≡ min size (min self.old.length (capacity - self.old.read_at)) }
        ensures contiguous { result.contiguous ≡ result.count }
        ensures within { (result.from ≤ capacity) × IsWithin capacity result }
        ensures place { self.new ≡ dequeued_place capacity result.count self.old }
        ensures sound { IsSound capacity self.new }
    {
        let from = self.read_at;
        let count = size.min(self.contiguous_queue(capacity));
        self.dequeue_contiguous(capacity, count);
        Span {
            from,
            count,
            contiguous: count,
        }
    }
}

/// Elements that are copied into a storage and out of it. The clauses are those of the calls of
/// the same names of [`RingOver`](crate::RingOver), of the ring that a storage and the head are.
impl RingHead {
    /// Writes as many elements of `data` as there is room for to the free elements from the one at
    /// `offset` on, and returns how many; 0 if `offset` is past the free elements. Nothing is
    /// enqueued.
    #[inline]
    pub fn write_unallocated<T: Copy>(self, storage: &mut [T], offset: usize, data: &[T]) -> usize
        requires sound { IsSound (length storage.old) self }
        ensures count { result
            ≡ min (length «data».now) (window (ring_at storage.old self) - offset) }
        ensures ring { let g = ring_at storage.old self in ring_at storage.new self
            ≡ with_elements_wrapping g (spare_index g offset) (take result «data».now) }
        ensures written { WritesSpare (ring_at storage.old self) offset (take result «data».now)
            (ring_at storage.new self) }
        ensures size { length storage.new ≡ length storage.old }
    {
        let span = self.unallocated(storage.len(), offset, data.len());
        write_span(storage, span, data);
        span.count
    }

    /// Copies as many elements of the queue as `into` has room for, from the one at `offset` on, to
    /// the beginning of `into`, and returns how many; 0 if `offset` is past the queue. The rest of
    /// `into` stays as it is, and nothing is dequeued.
    #[inline]
    pub fn read_allocated<T: Copy>(self, storage: &[T], offset: usize, into: &mut [T]) -> usize
        requires sound { IsSound (length storage.now) self }
        ensures count { result ≡ min (length «into».old) (self.length - offset) }
        ensures given { «into».new ≡ take result (drop offset (queue (ring_at storage.now self)))
            ++ drop result «into».old }
    {
        let span = self.allocated(storage.len(), offset, into.len());
        read_span(storage, span, into);
        span.count
    }

    /// Enqueues as many elements of `data` as there is room for, and returns how many.
    ///
    /// An empty ring first moves its read index to the storage's beginning, even if nothing is
    /// enqueued.
    #[inline]
    pub fn enqueue_slice<T: Copy>(&mut self, storage: &mut [T], data: &[T]) -> usize
        requires sound { IsSound (length storage.old) self.old }
        ensures count { result ≡ min (length «data».now) (window (ring_at storage.old self.old)) }
        ensures ring { let g = rewind_if_empty (ring_at storage.old self.old) in
            ring_at storage.new self.new
            ≡ with_enqueued result (with_elements_wrapping g (write_at g)
            (take result «data».now)) }
        ensures enqueued { Enqueues (rewind_if_empty (ring_at storage.old self.old))
            (take result «data».now) (ring_at storage.new self.new) }
        ensures queue { queue (ring_at storage.new self.new)
            ≡ queue (ring_at storage.old self.old) ++ take result «data».now }
        ensures same { (self.new.length ≡ self.old.length + result)
            × (length storage.new ≡ length storage.old) }
        ensures sound { IsSound (length storage.new) self.new }
    {
        self.rewind_if_empty();
        let count = self.write_unallocated(storage, 0, data);
        self.enqueue(storage.len(), count);
        count
    }

    /// Dequeues as many elements as `into` has room for and are queued, copies them to the beginning
    /// of `into`, and returns how many. The rest of `into` stays as it is.
    #[inline]
    pub fn dequeue_slice<T: Copy>(&mut self, storage: &[T], into: &mut [T]) -> usize
        requires sound { IsSound (length storage.now) self.old }
        ensures count { result ≡ min (length «into».old) self.old.length }
        ensures given { «into».new ≡ take result (queue (ring_at storage.now self.old))
            ++ drop result «into».old }
        ensures ring { ring_at storage.now self.new
            ≡ with_dequeued result (ring_at storage.now self.old) }
        ensures dequeued { Dequeues (ring_at storage.now self.old) result
            (take result (queue (ring_at storage.now self.old))) (ring_at storage.now self.new) }
        ensures queue { queue (ring_at storage.now self.new)
            ≡ drop result (queue (ring_at storage.now self.old)) }
        ensures sound { IsSound (length storage.now) self.new }
    {
        let count = self.read_allocated(storage, 0, into);
        self.dequeue(storage.len(), count);
        count
    }
}

/// What moves a queue.
impl RingHead {
    /// Copies the queue to the beginning of a larger storage, for which the head then is.
    ///
    /// # Requires
    ///
    /// The head is sound for the storage, and the other one is no smaller.
    pub(crate) fn move_queue<T: Copy>(&mut self, storage: &[T], larger: &mut [T])
        requires sound { IsSound (length storage.now) self.old }
        requires larger { length storage.now ≤ length larger.old }
        ensures place { self.new ≡ place 0 self.old.length }
        ensures larger { larger.new
            ≡ queue (ring_at storage.now self.old) ++ drop self.old.length larger.old }
        ensures queue { queue (ring_at larger.new self.new) ≡ queue (ring_at storage.now self.old) }
        ensures sound { IsSound (length larger.new) self.new }
    {
        self.read_allocated(storage, 0, larger);
        self.read_at = 0;
    }
}

/// Copies the first elements of `data` over those of a span, as many as it has.
#[inline]
fn write_span<T: Copy>(storage: &mut [T], span: Span, data: &[T])
    requires within { IsWithin (length storage.old) span }
    requires data { span.count ≤ length «data».now }
    ensures { storage.new ≡ written_span storage.old span (take span.count «data».now) }
{
    let Span {
        from,
        count,
        contiguous,
    } = span;
    // Of the data 0 1 2 3 4 the first three are up to the storage's end, and the rest wraps:
    // [ 3 4 . . . 0 1 2 ]
    copy_over(storage, from, &data[..contiguous]);
    if contiguous < count {
        copy_over(storage, 0, &data[contiguous..count]);
    }
}

/// Copies `data` over the elements of a storage from the index `at` on.
#[inline(always)]
fn copy_over<T: Copy>(storage: &mut [T], at: usize, data: &[T])
    requires { at + length «data».now ≤ length storage.old }
    ensures { storage.new ≡ overwrite storage.old at «data».now }
{
    storage[at..at + data.len()].copy_from_slice(data);
}

/// Copies the elements of a span to the beginning of `into`, whose rest stays as it is.
#[inline]
fn read_span<T: Copy>(storage: &[T], span: Span, into: &mut [T])
    requires within { IsWithin (length storage.now) span }
    requires room { span.count ≤ length «into».old }
    ensures { «into».new ≡ elements_at storage.now span ++ drop span.count «into».old }
{
    let Span {
        from,
        count,
        contiguous,
    } = span;
    into[..contiguous].copy_from_slice(&storage[from..from + contiguous]);
    // The rest of a span that wraps is at the storage's beginning.
    if contiguous < count {
        into[contiguous..count].copy_from_slice(&storage[..count - contiguous]);
    }
}

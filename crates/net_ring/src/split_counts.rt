//! A ring of which each end has a count of its own: an interrupt and a program, or two threads, use it without a lock.

// Why: Each count is below twice the capacity, so any capacity will do, where free-running counts want a power of
// two. A refused call gives the end's own count to store, since any other breaks the ring.
//
// No storage crosses a call. A call that took it would have a slice of all of it while the other end writes, which
// Rust forbids. The order of memory is the caller's, since no contract can say what an atomic gives.

#![tactic(auto, using(crate::proofs::SplitNumbers::counts))]

ghost use Rattle.std.specs.Prelude.{◌≡◌, ◌↔◌, ◌≤◌, ◌-◌, ◌+◌, IsTrue, min, length, take, drop, ◌++◌};
ghost use Rattle.net_ring.specs.Width.{IsUsize};
ghost use Rattle.net_ring.specs.RingHead.{IsSound, IsWithin, free_index, queued_index, ring_at};
ghost use Rattle.net_ring.specs.Ring.{queue, window};
ghost use Rattle.net_ring.specs.SplitRing.{IsCount, AreCounts, ahead, count_after, counts, index_of, seen};
ghost use Rattle.net_ring.specs.SplitRing.{written_over};

use crate::head::{RingHead, Span};
use crate::width::most;

pub mod laws;

/// The two counts of a ring, as one of its ends knows them: its own, and the other's as it last loaded it.
///
/// Only the end that writes stores `written`, and only the end that reads stores `taken`. Both
/// begin at 0, and wrap at twice the capacity, so that a full ring isn't taken for an empty one.
/// The capacity is at most half of `usize::MAX`.
///
/// The other end's count may be old when it is used. Then an end sees less room, or fewer elements,
/// than there are, and never more. A load must not return an older count than the one before it.
///
/// Memory ordering is up to the caller: load the other end's count with `Ordering::Acquire`. Store
/// your own with `Ordering::Release`, after you have written or read the elements. Between an
/// interrupt and what it interrupts on one processor, `Relaxed` and `compiler_fence` are enough.
/// (Not in smoltcp.)
///
/// ```
/// use net_base::storage::SplitCounts;
///
/// let mut storage = [0; 4];
/// // The end that writes has room for four bytes, and writes two.
/// let lent = SplitCounts::new().free(4, 2);
/// storage[lent.span.from..][..lent.span.count].copy_from_slice(b"ab");
/// let written = lent.next;
/// // The end that reads loads that count, and finds them.
/// let lent = SplitCounts { written, taken: 0 }.queued(4, 4);
/// assert_eq!(&storage[lent.span.from..][..lent.span.count], b"ab");
/// let taken = lent.next;
/// // Until the end that writes loads that one, it has room for two more.
/// assert_eq!(SplitCounts { written, taken: 0 }.free(4, 4).span.count, 2);
/// assert_eq!(SplitCounts { written, taken }.free(4, 4).span.count, 4);
/// ```
#[derive(Debug, Default, Clone, Copy, PartialEq, Eq)]
pub struct SplitCounts {
    /// How many elements were written, modulo twice the capacity.
    pub written: usize,
    /// How many elements were taken, modulo twice the capacity.
    pub taken: usize,
}

/// The elements that one end may write or read, and the count that it stores after them. If it
/// wrote or read fewer, ask the same counts for that many, and store that `next`.
///
/// ```
/// use net_base::storage::SplitCounts;
///
/// // Room for one element. After it the count is twice the capacity, and so 0 again.
/// let lent = SplitCounts { written: 7, taken: 4 }.free(4, 9);
/// assert_eq!((lent.span.from, lent.span.count, lent.next), (3, 1, 0));
/// ```
#[derive(Debug, Clone, Copy, PartialEq, Eq)]
pub struct SplitSpan {
    /// Where they are.
    pub span: Span,
    /// The count that the end stores once it has written or read them.
    pub next: usize,
}

impl SplitCounts {
    /// Returns the counts of an empty ring.
    ///
    /// ```
    /// # use net_base::storage::SplitCounts;
    /// assert_eq!(SplitCounts::new().free(4, 9).span.count, 4);
    /// ```
    #[inline]
    #[must_use]
    pub const fn new() -> Self
        ensures { result ≡ counts 0 0 }
    {
        SplitCounts {
            written: 0,
            taken: 0,
        }
    }

    /// Returns whether the counts are those of a ring of `capacity` elements: twice the capacity is a `usize`, each
    /// count is below it, or 0, and at most `capacity` elements were written and not taken.
    ///
    /// ```
    /// # use net_base::storage::SplitCounts;
    /// let full = SplitCounts { written: 4, taken: 0 };
    /// assert!(full.is_sound(4) && !full.is_sound(3));
    /// ```
    #[inline(always)]
    #[must_use]
    pub fn is_sound(self, capacity: usize) -> bool
        ensures { IsTrue result ↔ AreCounts capacity self }
    {
        if capacity > most() / 2 {
            return false;
        }
        is_count(capacity, self.written)
            && is_count(capacity, self.taken)
            && distance(capacity, self.taken, self.written) <= capacity
    }

    /// Returns the head of the ring as this end knows it.
    #[inline]
    fn head(self, capacity: usize) -> RingHead
        requires sound { AreCounts capacity self }
        ensures place { result ≡ seen capacity self.taken self.written }
        ensures sound { IsSound capacity result }
    {
        RingHead {
            read_at: index(capacity, self.taken),
            length: distance(capacity, self.taken, self.written),
        }
    }

    /// Returns where the end that writes may write at most `size` elements, and the count to store once it has.
    ///
    /// ```
    /// # use net_base::storage::SplitCounts;
    /// let lent = SplitCounts { written: 3, taken: 1 }.free(4, 9);
    /// assert_eq!((lent.span.from, lent.span.count, lent.next), (3, 2, 5));
    /// ```
    ///
    /// # Requires
    ///
    /// The counts are sound for `capacity`, as `is_sound` tests.
    #[inline(always)]
    #[track_caller]
    #[must_use]
    pub fn free(self, capacity: usize, size: usize) -> SplitSpan
        requires sound { AreCounts capacity self }
        ensures from { result.span.from
            ≡ free_index capacity (seen capacity self.taken self.written) 0 }
        ensures count { result.span.count
            ≡ min size (capacity - (seen capacity self.taken self.written).length) }
        ensures contiguous { result.span.contiguous
            ≡ min result.span.count (capacity - result.span.from) }
        ensures within { (result.span.from ≤ capacity) × IsWithin capacity result.span }
        ensures next { result.next ≡ count_after capacity self.written result.span.count }
        ensures sound { AreCounts capacity (counts result.next self.taken) }
    {
        prove!(
            self.is_sound(capacity),
            "the counts are not those of such a ring"
        );
        let room = capacity - distance(capacity, self.taken, self.written);
        span(capacity, self.written, room.min(size))
    }

    /// Returns where the end that reads finds at most `size` elements, and the count to store once it has read them.
    ///
    /// ```
    /// # use net_base::storage::SplitCounts;
    /// let lent = SplitCounts { written: 3, taken: 1 }.queued(4, 9);
    /// assert_eq!((lent.span.from, lent.span.count, lent.next), (1, 2, 3));
    /// ```
    ///
    /// # Requires
    ///
    /// The counts are sound for `capacity`, as `is_sound` tests.
    #[inline(always)]
    #[track_caller]
    #[must_use]
    pub fn queued(self, capacity: usize, size: usize) -> SplitSpan
        requires sound { AreCounts capacity self }
        ensures from { result.span.from
            ≡ queued_index capacity (seen capacity self.taken self.written) 0 }
        ensures count { result.span.count
            ≡ min size (seen capacity self.taken self.written).length }
        ensures contiguous { result.span.contiguous
            ≡ min result.span.count (capacity - result.span.from) }
        ensures within { (result.span.from ≤ capacity) × IsWithin capacity result.span }
        ensures next { result.next ≡ count_after capacity self.taken result.span.count }
        ensures sound { AreCounts capacity (counts self.written result.next) }
    {
        prove!(
            self.is_sound(capacity),
            "the counts are not those of such a ring"
        );
        let length = distance(capacity, self.taken, self.written);
        span(capacity, self.taken, length.min(size))
    }

    /// Writes as many elements of `data` as there is room for, and returns the count to store.
    /// Nothing else may use the storage meanwhile.
    ///
    /// ```
    /// # use net_base::storage::SplitCounts;
    /// let mut storage = *b"----";
    /// let ends = SplitCounts { written: 3, taken: 3 };
    /// assert_eq!((ends.write(&mut storage, b"abcde"), &storage), (7, b"bcda"));
    /// ```
    ///
    /// # Requires
    ///
    /// The counts are sound for the length of the storage, as `is_sound` tests.
    #[inline]
    #[track_caller]
    #[must_use]
    pub fn write<T: Copy>(self, storage: &mut [T], data: &[T]) -> usize
        requires sound { AreCounts (length storage.old) self }
        ensures storage { let g =
            ring_at storage.old (seen (length storage.old) self.taken self.written) in
            storage.new ≡ written_over g 0 «data».now }
        ensures next { let g = ring_at storage.old
            (seen (length storage.old) self.taken self.written) in
            result ≡ count_after (length storage.old) self.written
            (min (length «data».now) (window g)) }
    {
        prove!(
            self.is_sound(storage.len()),
            "the counts are not those of such a ring"
        );
        let count = self.head(storage.len()).write_unallocated(storage, 0, data);
        after(storage.len(), self.written, count)
    }

    /// Copies as many elements as are queued and fit to the beginning of `into`, and returns the
    /// count to store. The rest of `into` stays as it is.
    ///
    /// ```
    /// # use net_base::storage::SplitCounts;
    /// let mut into = *b"------";
    /// let ends = SplitCounts { written: 7, taken: 3 };
    /// assert_eq!((ends.read(b"bcda", &mut into), &into), (7, b"abcd--"));
    /// ```
    ///
    /// # Requires
    ///
    /// The counts are sound for the length of the storage, as `is_sound` tests.
    #[inline]
    #[track_caller]
    #[must_use]
    pub fn read<T: Copy>(self, storage: &[T], into: &mut [T]) -> usize
        requires sound { AreCounts (length storage.now) self }
        ensures given { let g = ring_at storage.now
            (seen (length storage.now) self.taken self.written) in
            «into».new ≡ take (min (length «into».old) g.count) (queue g)
            ++ drop (min (length «into».old) g.count) «into».old }
        ensures next { let g = ring_at storage.now
            (seen (length storage.now) self.taken self.written) in
            result ≡ count_after (length storage.now) self.taken (min (length «into».old) g.count) }
    {
        prove!(
            self.is_sound(storage.len()),
            "the counts are not those of such a ring"
        );
        let count = self.head(storage.len()).read_allocated(storage, 0, into);
        after(storage.len(), self.taken, count)
    }
}

/// Returns where as many elements are as are counted after a count, and the count after them.
#[inline(always)]
fn span(capacity: usize, at: usize, count: usize) -> SplitSpan
    requires fits { IsUsize (capacity + capacity) }
    requires at { IsCount capacity at }
    requires count { count ≤ capacity }
    ensures from { result.span.from ≡ index_of capacity at }
    ensures count { result.span.count ≡ count }
    ensures contiguous { result.span.contiguous ≡ min count (capacity - result.span.from) }
    ensures within { (result.span.from ≤ capacity) × IsWithin capacity result.span }
    ensures next { result.next ≡ count_after capacity at count }
{
    let round = round(capacity);
    if at < capacity {
        let next = at + count;
        prove!(next <= round, "in any `usize`");
        let contiguous = count.min(capacity - at);
        return SplitSpan {
            span: Span {
                from: at,
                count,
                contiguous,
            },
            next,
        };
    }
    SplitSpan {
        span: Span {
            from: at - capacity,
            count,
            contiguous: count.min(round - at),
        },
        next: after(capacity, at, count),
    }
}

/// Returns the index in the storage of the element after a count.
#[inline(always)]
fn index(capacity: usize, count: usize) -> usize
    ensures { result ≡ index_of capacity count }
{
    if count < capacity {
        count
    } else {
        count - capacity
    }
}

/// Returns twice the capacity, where counts begin at 0 again.
#[inline(always)]
fn round(capacity: usize) -> usize
    requires { IsUsize (capacity + capacity) }
    ensures { result ≡ capacity + capacity }
{
    let round = capacity + capacity;
    prove!(round <= most(), "in any `usize`");
    round
}

/// Returns whether a count is below twice the capacity, or 0.
#[inline(always)]
fn is_count(capacity: usize, count: usize) -> bool
    requires { IsUsize (capacity + capacity) }
    ensures { IsTrue result ↔ IsCount capacity count }
{
    count < round(capacity) || count == 0
}

/// Returns how far the count `to` is ahead of `from`.
#[inline(always)]
fn distance(capacity: usize, from: usize, to: usize) -> usize
    requires size { IsUsize (capacity + capacity) }
    requires from { IsCount capacity from }
    ensures { result ≡ ahead capacity from to }
{
    if from <= to {
        to - from
    } else {
        round(capacity) - (from - to)
    }
}

/// Returns the count `n` elements after `count`.
#[inline(always)]
fn after(capacity: usize, count: usize, n: usize) -> usize
    requires size { IsUsize (capacity + capacity) }
    requires count { IsCount capacity count }
    requires n { n ≤ capacity }
    ensures { result ≡ count_after capacity count n }
{
    let round = round(capacity);
    let to_end = round - count;
    if n < to_end {
        prove!(count + n <= round, "in any `usize`");
        count + n
    } else {
        n - to_end
    }
}

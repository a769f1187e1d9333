//! A ring of elements over storage that is lent or owned.
#![tactic(auto, using(crate::proofs::RingFacts::rings))]

ghost use Rattle.std.specs.Prelude.{◌≡◌, ◌≢◌, ◌↔◌, ◌≤◌, ◌<◌, ◌==◌, ◌-◌, ◌+◌, ◌^◌, ◌∷◌, ◌++◌, [], List, length, take};
ghost use Rattle.std.specs.Prelude.{drop, min, slice_get, IsTrue, IsErr, OnErr, IfOk, is_ok, if◌then◌else◌};
ghost use Rattle.std.specs.Borrow.{sem};
ghost use Rattle.std.specs.Fn.{FnOnceTakesAtMut};
ghost use Rattle.std.specs.List.{AllZip};
ghost use Rattle.net_ring.specs.{ring, capacity, window, queue, spare, write_at, IsWellFormed, contiguous_window};
ghost use Rattle.net_ring.specs.{contiguous_spare, contiguous_unallocated, spare_index, contiguous_queued};
ghost use Rattle.net_ring.specs.{contiguous_queue, contiguous_allocated, with_elements, with_elements_wrapping};
ghost use Rattle.net_ring.specs.{with_enqueued, with_dequeued, with_one_enqueued, with_one_dequeued, rewind_if_empty};
ghost use Rattle.net_ring.specs.{Enqueues, Dequeues, WritesSpare, TakesFirstOf, CalledOnNext, CalledOnFirst};
ghost use Rattle.net_ring.specs.{CountsWithin, CalledOnSpare, CalledOnQueue, place, IsSound, ring_at};

use crate::error::{Empty, Full};
use crate::head::RingHead;
use crate::managed::{ManagedSlice, Storage};
use crate::resettable::Resettable;
pub use iter::Iter;
use std::marker::{Model, PhantomData};
use std::mem::replace;

mod iter;
pub mod laws;
mod managed;

/// A [`RingBuffer`] over any storage.
///
/// The queued elements wrap at the storage's end, and so do the free ones:
///
/// ```text
/// index      0 1 2 3 4 5 6 7
/// storage    f g . . . c d e     read from index 5 on: the queue is c d e f g
/// ```
///
/// Calls that copy elements require `T: Copy`. The others lend parts of the storage, mostly as
/// `&mut`, so that you can write elements in place.
///
/// In guarantees `queue` has the queued elements in order, and `spare` the free ones, the next one
/// to fill first. `++` joins lists.
#[derive(Debug)]
pub struct RingOver<T, S: Storage<T>> {
    // Invariant: the head is sound for the storage.
    storage: S,
    head: RingHead,
    elements: PhantomData<T>,
}

/// A first-in, first-out queue of elements, over storage that is lent or owned. Its methods are
/// those of [`RingOver`].
///
/// It also serves as the buffer of a stream: elements can be written ahead of the queue, and be
/// enqueued later.
///
/// ```
/// use net_base::storage::RingBuffer;
///
/// let mut storage = [0u8; 4];
/// let mut ring = RingBuffer::new(&mut storage[..]);
/// assert_eq!(ring.enqueue_slice(b"abc"), 3);
/// let mut into = [0; 2];
/// assert_eq!((ring.dequeue_slice(&mut into), &into), (2, b"ab"));
/// assert_eq!(ring.enqueue_slice(b"defg"), 3);
/// assert_eq!((ring.get_allocated(0, 4), ring.get_allocated(2, 4)), (&b"cd"[..], &b"ef"[..]));
/// ```
pub type RingBuffer<'a, T> = RingOver<T, ManagedSlice<'a, T>>;

/// Contracts see a ring as its storage, the index where it is read and how many elements are
/// queued.
impl<T, S: Storage<T>> Model for RingOver<T, S> {
    ghost use Rattle.net_ring.specs.{RingState};

    ghost Value = { RingState T };

    ghost use Rattle.net_ring.specs.{IsWellFormed, ring_at};

    ghost view = { λ a. ring_at (S.elements a.storage) a.head };

    ghost invariant = { λ a. IsWellFormed (ring_at (S.elements a.storage) a.head) };
}

/// Written by hand, so that only the storage has to be `Drop`, and not `T`.
impl<T, S: Storage<T> + Drop> Drop for RingOver<T, S> {
    fn drop(self) {
        let RingOver {
            storage,
            head: _,
            elements: _,
        } = self;
        drop(storage);
    }
}

/// Making, emptying and measuring a ring.
impl<T, S: Storage<T>> RingOver<T, S> {
    /// Returns an empty ring over storage of any type. The storage's elements stay as they are.
    ///
    /// (Not in smoltcp.) [`RingBuffer::new`] takes a slice, a `Vec` or a `Box`.
    ///
    /// ```
    /// # use net_base::storage::RingOver;
    /// let mut storage = *b"abcd";
    /// let mut ring = RingOver::over(&mut storage[..]);
    /// // What was in the storage is free, and is enqueued as it is.
    /// ring.enqueue_unallocated(2);
    /// assert_eq!(ring.as_slices(), (&b"ab"[..], &b""[..]));
    /// ```
    pub const fn over(storage: S) -> Self
        ensures ring { result ≡ ring (S.elements storage) 0 0 }
        ensures parts { (queue result ≡ []) × (spare result ≡ S.elements storage) }
    {
        RingOver {
            storage,
            head: RingHead::new(),
            elements: PhantomData,
        }
    }

    /// Returns the ring of a storage and of a head, as [`into_parts`] returns them.
    ///
    /// (Not in smoltcp.)
    ///
    /// # Requires
    ///
    /// The head is that of a ring of as many elements as the storage has, as [`RingHead::is_sound`]
    /// tells.
    ///
    /// [`into_parts`]: RingOver::into_parts
    pub fn from_parts(storage: S, head: RingHead) -> Self
        requires sound { IsSound (length (S.elements storage)) head }
        ensures ring { result ≡ ring_at (S.elements storage) head }
    {
        RingOver {
            storage,
            head,
            elements: PhantomData,
        }
    }

    /// Returns the ring's storage and its head. [`from_parts`] makes the same ring of them.
    ///
    /// (Not in smoltcp.)
    ///
    /// [`from_parts`]: RingOver::from_parts
    pub fn into_parts(self) -> (S, RingHead)
        ensures ring { ring_at (S.elements result.0) result.1 ≡ self }
        ensures sound { IsSound (length (S.elements result.0)) result.1 }
    {
        let RingOver {
            storage,
            head,
            elements: _,
        } = self;
        (storage, head)
    }

    /// Returns the index where the ring is read, and how many elements are queued.
    ///
    /// (Not in smoltcp.)
    #[inline]
    pub fn head(&self) -> RingHead
        ensures head { result ≡ place self.now.read_at self.now.count }
        ensures sound { IsSound (capacity self.now) result }
    {
        self.head
    }

    /// Empties the ring, and leaves the storage as it is.
    ///
    /// ```
    /// # use net_base::storage::RingBuffer;
    /// # let mut storage = [0u8; 4];
    /// # let mut ring = RingBuffer::new(&mut storage[..]);
    /// ring.enqueue_unallocated(3);
    /// ring.clear();
    /// assert!(ring.is_empty());
    /// ```
    pub fn clear(&mut self)
        ensures ring { self.new ≡ ring self.old.storage 0 0 }
        ensures parts { (queue self.new ≡ []) × (spare self.new ≡ self.old.storage) }
    {
        self.head.clear();
    }

    /// Returns how many elements the ring has room for, queued ones included.
    ///
    /// ```
    /// # use net_base::storage::RingBuffer;
    /// let mut storage = [0u8; 4];
    /// assert_eq!(RingBuffer::new(&mut storage[..]).capacity(), 4);
    /// ```
    #[inline]
    #[must_use]
    pub fn capacity(&self) -> usize
        ensures capacity { result ≡ capacity self.now }
        ensures well_formed { IsWellFormed self.now }
        ensures fits { capacity self.now < 2 ^ 64 }
    {
        self.storage.count()
    }

    /// Empties the ring, and resets each element of the storage by [`Resettable::reset`].
    ///
    /// ```
    /// # use net_base::storage::{Resettable, RingBuffer};
    /// # struct Slot(u32);
    /// # impl Resettable for Slot { fn reset(&mut self) { self.0 = 0; } }
    /// let mut slots = [Slot(7), Slot(8)];
    /// RingBuffer::new(&mut slots[..]).reset();
    /// assert_eq!((slots[0].0, slots[1].0), (0, 0));
    /// ```
    pub fn reset(&mut self)
    where
        T: Resettable,
        ensures ring { self.new ≡ ring self.new.storage 0 0 }
        ensures parts { (queue self.new ≡ []) × (spare self.new ≡ self.new.storage) }
        ensures reset { AllZip T.IsReset self.old.storage self.new.storage }
    {
        let count = self.capacity();
        self.clear();
        reset_each(self.storage.part_mut(0, count));
    }

    /// Returns how many elements are queued.
    ///
    /// ```
    /// # use net_base::storage::RingBuffer;
    /// # let mut storage = [0u8; 4];
    /// # let mut ring = RingBuffer::new(&mut storage[..]);
    /// ring.enqueue_unallocated(3);
    /// assert_eq!(ring.len(), 3);
    /// ```
    #[inline]
    #[must_use]
    pub fn len(&self) -> usize
        ensures count { result ≡ self.now.count }
        ensures queue { result ≡ length (queue self.now) }
        ensures within { result ≤ capacity self.now }
    {
        self.head.length
    }

    /// Returns how many elements can still be enqueued.
    ///
    /// ```
    /// # use net_base::storage::RingBuffer;
    /// # let mut storage = [0u8; 4];
    /// # let mut ring = RingBuffer::new(&mut storage[..]);
    /// ring.enqueue_unallocated(3);
    /// assert_eq!(ring.window(), 1);
    /// ```
    #[inline]
    #[must_use]
    pub fn window(&self) -> usize
        ensures window { result ≡ window self.now }
        ensures spare { result ≡ length (spare self.now) }
        ensures sum { self.now.count + result ≡ capacity self.now }
    {
        self.capacity() - self.len()
    }

    /// Returns how many elements can be enqueued before the storage's end.
    ///
    /// If the ring is empty, `enqueue_many` may enqueue more, since it first moves the read index
    /// to the storage's beginning.
    ///
    /// ```
    /// # use net_base::storage::RingBuffer;
    /// # let mut storage = [0u8; 4];
    /// # let mut ring = RingBuffer::new(&mut storage[..]);
    /// ring.enqueue_unallocated(3);
    /// ring.dequeue_allocated(2);
    /// assert_eq!((ring.window(), ring.contiguous_window()), (3, 1));
    /// ```
    #[must_use]
    pub fn contiguous_window(&self) -> usize
        ensures count { result ≡ contiguous_window self.now }
    {
        self.head.contiguous_window(self.capacity())
    }

    /// Returns whether no element is queued.
    ///
    /// ```
    /// # use net_base::storage::RingBuffer;
    /// let mut storage = [0u8; 4];
    /// assert!(RingBuffer::new(&mut storage[..]).is_empty());
    /// ```
    #[inline]
    #[must_use]
    pub fn is_empty(&self) -> bool
        ensures count { result ≡ (self.now.count == 0) }
        ensures none_queued { IsTrue result ↔ (queue self.now ≡ []) }
        ensures sum { self.now.count + window self.now ≡ capacity self.now }
    {
        self.len() == 0
    }

    /// Returns whether no element can be enqueued.
    ///
    /// ```
    /// # use net_base::storage::RingBuffer;
    /// let mut storage = [0u8; 0];
    /// assert!(RingBuffer::new(&mut storage[..]).is_full());
    /// ```
    #[inline]
    #[must_use]
    pub fn is_full(&self) -> bool
        ensures room { result ≡ (window self.now == 0) }
        ensures none_spare { IsTrue result ↔ (spare self.now ≡ []) }
        ensures sum { self.now.count + window self.now ≡ capacity self.now }
    {
        // `window() == 0` says the same. This form tells the compiler that the length of a ring
        // that isn't full is not the greatest one, so that adding 1 can't make it 0.
        self.len() >= self.capacity()
    }

    /// Moves the read index of an empty ring to the storage's beginning, so that all free elements
    /// are contiguous. A ring with queued elements stays as it is.
    ///
    /// (Not in smoltcp.) It serves callers that write to free elements first, and enqueue them
    /// later.
    ///
    /// ```
    /// # use net_base::storage::RingBuffer;
    /// # let mut storage = [0u8; 4];
    /// # let mut ring = RingBuffer::new(&mut storage[..]);
    /// ring.enqueue_unallocated(3);
    /// ring.dequeue_allocated(3);
    /// assert_eq!(ring.contiguous_window(), 1);
    /// ring.rewind_if_empty();
    /// assert_eq!(ring.contiguous_window(), 4);
    /// ```
    #[inline]
    pub fn rewind_if_empty(&mut self)
        ensures ring { self.new ≡ rewind_if_empty self.old }
    {
        self.head.rewind_if_empty();
    }
}

/// One element at a time. The error of a full ring is `Full`, and that of an empty one `Empty`.
impl<T, S: Storage<T>> RingOver<T, S> {
    ghost use Rattle.net_ring.specs.RingLends.{lends_one, lends_one_if};

    /// Calls `f` on the next free element, enqueues the element if `f` returns `Ok`, and returns
    /// what `f` returned.
    ///
    /// What `f` wrote stays in the storage either way.
    ///
    /// ```
    /// # use net_base::storage::RingBuffer;
    /// # let mut storage = [0u8; 4];
    /// # let mut ring = RingBuffer::new(&mut storage[..]);
    /// assert_eq!(ring.enqueue_one_with(|byte| { *byte = 7; Ok::<_, ()>(*byte) }), Ok(Ok(7)));
    /// assert_eq!(ring.enqueue_one_with(|_| Err::<(), _>("no")), Ok(Err("no")));
    /// assert_eq!(ring.len(), 1);
    /// ```
    ///
    /// # Errors
    ///
    /// `Full` if the ring is full. Then it stays as it is, and `f` isn't called.
    pub fn enqueue_one_with<R, E, F: FnOnce(&mut T) -> Result<R, E>>(
        &mut self,
        f: F,
    ) -> Result<Result<R, E>, Full>
        requires callable { TakesFirstOf F.FnOnce f (spare self.old) }
        ensures full { IsErr result ↔ (window self.old ≡ 0) }
        ensures unchanged { OnErr result (self.new ≡ self.old) }
        ensures called { IfOk result (λ answer. CalledOnNext F.FnOnce f self.old answer self.new) }
        ensures room { IfOk result (λ answer.
            window self.new + (if is_ok answer then 1 else 0) ≡ window self.old) }
        ensures capacity { capacity self.new ≡ capacity self.old }
    {
        if self.is_full() {
            return Err(Full);
        }
        let capacity = self.capacity();
        let at = self.head.index(capacity, self.head.length);
        let answer = f(self.storage.element_mut(at));
        if answer.is_ok() {
            self.head.enqueue(capacity, 1);
        }
        Ok(answer)
    }

    /// Enqueues the next free element with the value that it has, and lends it.
    ///
    /// ```
    /// # use net_base::storage::{Full, RingBuffer};
    /// # let mut storage = [0u8; 1];
    /// # let mut ring = RingBuffer::new(&mut storage[..]);
    /// *ring.enqueue_one()? = 7;
    /// assert_eq!(ring.enqueue_one(), Err(Full));
    /// # Ok::<(), Full>(())
    /// ```
    ///
    /// # Errors
    ///
    /// `Full` if the ring is full. Then it stays as it is.
    pub fn enqueue_one(&mut self) -> Result<&mut T, Full>
        ensures* writes_back { sem 𝓛 (lends_one_if T.row S.row S.Storage self.entry
            (with_enqueued 1 self.old) (write_at self.old) result) }
        ensures full { IsErr result ↔ (window self.old ≡ 0) }
        ensures value { IfOk result (λ r. spare self.old ≡ r.now ∷ drop 1 (spare self.old)) }
        ensures enqueued { window self.old ≢ 0 → (w : T)
            → Enqueues self.old (w ∷ []) (with_one_enqueued self.old w) }
        ensures room { window self.old ≢ 0 → (w : T)
            → window (with_one_enqueued self.old w) + 1 ≡ window self.old }
        ensures capacity { window self.old ≢ 0 → (w : T)
            → capacity (with_one_enqueued self.old w) ≡ capacity self.old }
    {
        if self.is_full() {
            return Err(Full);
        }
        Ok(self.enqueue_next())
    }

    /// Enqueues the next free element of a ring that has room, and lends it.
    // Proof: A function of its own, since `enqueue_one` lends by the clause of one call.
    fn enqueue_next(&mut self) -> &mut T
        requires { window self.old ≢ 0 }
        ensures* writes_back { sem 𝓛 (lends_one T.row S.row S.Storage self.entry
            (with_enqueued 1 self.old) (write_at self.old) result) }
        ensures value { spare self.old ≡ result.now ∷ drop 1 (spare self.old) }
        ensures enqueued { (w : T) → Enqueues self.old (w ∷ []) (with_one_enqueued self.old w) }
        ensures room { (w : T) → window (with_one_enqueued self.old w) + 1 ≡ window self.old }
        ensures capacity { (w : T) → capacity (with_one_enqueued self.old w) ≡ capacity self.old }
    {
        let capacity = self.capacity();
        let at = self.head.index(capacity, self.head.length);
        self.head.enqueue(capacity, 1);
        self.storage.element_mut(at)
    }

    /// Calls `f` on the first element of the queue, dequeues the element if `f` returns `Ok`, and
    /// returns what `f` returned.
    ///
    /// What `f` wrote stays in the storage either way.
    ///
    /// ```
    /// # use net_base::storage::{Empty, RingBuffer};
    /// # let mut storage = [0u8; 4];
    /// # let mut ring = RingBuffer::new(&mut storage[..]);
    /// assert_eq!(ring.enqueue_slice(b"a"), 1);
    /// assert_eq!(ring.dequeue_one_with(|_| Err::<(), _>("later")), Ok(Err("later")));
    /// assert_eq!(ring.dequeue_one_with(|byte| Ok::<_, ()>(*byte)), Ok(Ok(b'a')));
    /// assert_eq!(ring.dequeue_one_with(|byte| Ok::<_, ()>(*byte)), Err(Empty));
    /// ```
    ///
    /// # Errors
    ///
    /// `Empty` if the ring is empty. Then it stays as it is, and `f` isn't called.
    pub fn dequeue_one_with<R, E, F: FnOnce(&mut T) -> Result<R, E>>(
        &mut self,
        f: F,
    ) -> Result<Result<R, E>, Empty>
        requires callable { TakesFirstOf F.FnOnce f (queue self.old) }
        ensures empty { IsErr result ↔ (self.old.count ≡ 0) }
        ensures unchanged { OnErr result (self.new ≡ self.old) }
        ensures called { IfOk result (λ answer. CalledOnFirst F.FnOnce f self.old answer self.new) }
        ensures room { IfOk result (λ answer.
            window self.new ≡ window self.old + (if is_ok answer then 1 else 0)) }
        ensures capacity { capacity self.new ≡ capacity self.old }
    {
        if self.is_empty() {
            return Err(Empty);
        }
        let capacity = self.capacity();
        let answer = f(self.storage.element_mut(self.head.read_at));
        if answer.is_ok() {
            self.head.dequeue_contiguous(capacity, 1);
        }
        Ok(answer)
    }

    /// Dequeues the first element of the queue, and lends it.
    ///
    /// ```
    /// # use net_base::storage::{Empty, RingBuffer};
    /// # let mut storage = [0u8; 4];
    /// # let mut ring = RingBuffer::new(&mut storage[..]);
    /// assert_eq!(ring.enqueue_slice(b"a"), 1);
    /// assert_eq!(ring.dequeue_one(), Ok(&mut b'a'));
    /// assert_eq!(ring.dequeue_one(), Err(Empty));
    /// ```
    ///
    /// # Errors
    ///
    /// `Empty` if the ring is empty. Then it stays as it is.
    pub fn dequeue_one(&mut self) -> Result<&mut T, Empty>
        ensures* writes_back { sem 𝓛 (lends_one_if T.row S.row S.Storage self.entry
            (with_dequeued 1 self.old) self.old.read_at result) }
        ensures empty { IsErr result ↔ (self.old.count ≡ 0) }
        // Guarantee.
        ensures value { IfOk result (λ r. queue self.old ≡ r.now ∷ drop 1 (queue self.old)) }
        ensures dequeued { self.old.count ≢ 0 → (w : T)
            → Dequeues self.old 1 (w ∷ []) (with_one_dequeued self.old w) }
        ensures room { self.old.count ≢ 0 → (w : T)
            → window (with_one_dequeued self.old w) ≡ window self.old + 1 }
        ensures capacity { self.old.count ≢ 0 → (w : T)
            → capacity (with_one_dequeued self.old w) ≡ capacity self.old }
    {
        if self.is_empty() {
            return Err(Empty);
        }
        Ok(self.dequeue_first())
    }

    /// Dequeues the first element of a ring that is not empty, and lends it.
    // Proof: A function of its own, since `dequeue_one` lends by the clause of one call.
    fn dequeue_first(&mut self) -> &mut T
        requires { self.old.count ≢ 0 }
        ensures* writes_back { sem 𝓛 (lends_one T.row S.row S.Storage self.entry
            (with_dequeued 1 self.old) self.old.read_at result) }
        ensures value { queue self.old ≡ result.now ∷ drop 1 (queue self.old) }
        ensures dequeued { (w : T) → Dequeues self.old 1 (w ∷ []) (with_one_dequeued self.old w) }
        ensures room { (w : T) → window (with_one_dequeued self.old w) ≡ window self.old + 1 }
        ensures capacity { (w : T) → capacity (with_one_dequeued self.old w) ≡ capacity self.old }
    {
        let at = self.head.read_at;
        self.head.dequeue_contiguous(self.storage.count(), 1);
        self.storage.element_mut(at)
    }
}

/// Many elements at a time. Calls that lend elements stop at the storage's end. Calls that copy
/// them go on at its beginning.
impl<T, S: Storage<T>> RingOver<T, S> {
    ghost use Rattle.net_ring.specs.RingLends.{lends_many};

    /// Calls `f` on the next free elements, as many as are contiguous. `f` returns how many of the
    /// first ones to enqueue, and a result. Both are returned.
    ///
    /// An empty ring first moves its read index to the storage's beginning. What `f` wrote stays in
    /// the storage, even where it isn't enqueued.
    ///
    /// ```
    /// # use net_base::storage::RingBuffer;
    /// # let mut storage = [0u8; 4];
    /// # let mut ring = RingBuffer::new(&mut storage[..]);
    /// assert_eq!(ring.enqueue_many_with(|free| { free[..2].copy_from_slice(b"ab"); (2, free.len()) }), (2, 4));
    /// assert_eq!(ring.get_allocated(0, 4), b"ab");
    /// ```
    ///
    /// # Requires
    ///
    /// The count that `f` returns is at most the length of the slice that it was lent.
    #[track_caller]
    pub fn enqueue_many_with<R, F: FnOnce(&mut [T]) -> (usize, R)>(&mut self, f: F) -> (usize, R)
        requires callable { FnOnceTakesAtMut F.FnOnce f
            (contiguous_spare (rewind_if_empty self.old)) }
        requires count { CountsWithin F.FnOnce f (contiguous_spare (rewind_if_empty self.old))
            (contiguous_window (rewind_if_empty self.old)) }
        ensures called { CalledOnSpare F.FnOnce f (rewind_if_empty self.old) result self.new }
    {
        self.rewind_if_empty();
        let capacity = self.capacity();
        let from = self.head.index(capacity, self.head.length);
        let to = from + self.head.contiguous_window(capacity);
        prove!(to <= capacity, "in any `usize`");
        let answer = f(self.storage.part_mut(from, to));
        prove!(answer.0 <= to - from, "more elements than were lent");
        self.head.enqueue(capacity, answer.0);
        answer
    }

    /// Enqueues the next free elements with the values that they have, and lends them: at most
    /// `size`, and as many as are contiguous.
    ///
    /// An empty ring first moves its read index to the storage's beginning.
    ///
    /// ```
    /// # use net_base::storage::RingBuffer;
    /// # let mut storage = [0u8; 4];
    /// # let mut ring = RingBuffer::new(&mut storage[..]);
    /// ring.enqueue_many(3).copy_from_slice(b"abc");
    /// assert_eq!(ring.enqueue_many(3).len(), 1);
    /// ```
    #[must_use]
    pub fn enqueue_many(&mut self, size: usize) -> &mut [T]
        ensures* writes_back { sem 𝓛 (lends_many T.row S.row S.Storage self.entry
            (with_enqueued (min size (contiguous_window (rewind_if_empty self.old)))
            (rewind_if_empty self.old))
            (write_at (rewind_if_empty self.old)) result) }
        ensures count { length result.now
            ≡ min size (contiguous_window (rewind_if_empty self.old)) }
        // Guarantee.
        ensures not_empty { window self.old ≢ 0 → 0 < size → 0 < length result.now }
        ensures value { result.now ≡ take (length result.now) (spare (rewind_if_empty self.old)) }
        ensures enqueued { let g = rewind_if_empty self.old in
            let k = min size (contiguous_window g) in
            (ws : List T) → length ws ≡ k → Enqueues g ws
            (with_elements (with_enqueued k g) (write_at g) ws) }
        ensures room { let g = rewind_if_empty self.old in let k = min size (contiguous_window g) in
            (ws : List T) → window (with_elements (with_enqueued k g) (write_at g) ws) + k
            ≡ window self.old }
        ensures capacity { let g = rewind_if_empty self.old in
            let k = min size (contiguous_window g) in
            (ws : List T) → capacity (with_elements (with_enqueued k g) (write_at g) ws)
            ≡ capacity self.old }
    {
        let span = self.head.enqueue_many(self.storage.count(), size);
        self.storage.part_mut(span.from, span.from + span.count)
    }

    /// Enqueues as many elements of `data` as there is room for, and returns how many.
    ///
    /// An empty ring first moves its read index to the storage's beginning, even if nothing is
    /// enqueued.
    ///
    /// ```
    /// # use net_base::storage::RingBuffer;
    /// # let mut storage = [0u8; 4];
    /// # let mut ring = RingBuffer::new(&mut storage[..]);
    /// assert_eq!(ring.enqueue_slice(b"abcdef"), 4);
    /// assert_eq!(ring.get_allocated(0, 4), b"abcd");
    /// ```
    #[must_use]
    pub fn enqueue_slice(&mut self, data: &[T]) -> usize
    where
        T: Copy,
        // Guarantee.
        ensures count { result ≡ min (length «data».now) (window self.old) }
        ensures ring { let g = rewind_if_empty self.old in self.new
            ≡ with_enqueued result (with_elements_wrapping g (write_at g)
            (take result «data».now)) }
        ensures enqueued { Enqueues (rewind_if_empty self.old)
            (take result «data».now) self.new }
        // Guarantee.
        ensures queue { queue self.new ≡ queue self.old ++ take result «data».now }
        ensures same { (self.new.count ≡ self.old.count + result)
            × (capacity self.new ≡ capacity self.old) }
    {
        let capacity = self.storage.count();
        self.head
            .enqueue_slice(self.storage.part_mut(0, capacity), data)
    }

    /// Calls `f` on the first elements of the queue, as many as are contiguous. `f` returns how
    /// many of the first ones to dequeue, and a result. Both are returned.
    ///
    /// What `f` wrote stays in the storage.
    ///
    /// ```
    /// # use net_base::storage::RingBuffer;
    /// # let mut storage = [0u8; 4];
    /// # let mut ring = RingBuffer::new(&mut storage[..]);
    /// assert_eq!(ring.enqueue_slice(b"abc"), 3);
    /// assert_eq!(ring.dequeue_many_with(|queued| (2, queued.len())), (2, 3));
    /// assert_eq!(ring.get_allocated(0, 4), b"c");
    /// ```
    ///
    /// # Requires
    ///
    /// The count that `f` returns is at most the length of the slice that it was lent.
    #[track_caller]
    pub fn dequeue_many_with<R, F: FnOnce(&mut [T]) -> (usize, R)>(&mut self, f: F) -> (usize, R)
        requires callable { FnOnceTakesAtMut F.FnOnce f (contiguous_queue self.old) }
        requires count { CountsWithin F.FnOnce f (contiguous_queue self.old)
            (contiguous_queued self.old) }
        ensures called { CalledOnQueue F.FnOnce f self.old result self.new }
    {
        let capacity = self.capacity();
        let from = self.head.read_at;
        let to = from + self.head.contiguous_queue(capacity);
        prove!(to <= capacity, "in any `usize`");
        let answer = f(self.storage.part_mut(from, to));
        prove!(answer.0 <= to - from, "more elements than were lent");
        self.head.dequeue_contiguous(capacity, answer.0);
        answer
    }

    /// Dequeues at most `size` elements, and lends them: as many as are contiguous.
    ///
    /// ```
    /// # use net_base::storage::RingBuffer;
    /// # let mut storage = [0u8; 4];
    /// # let mut ring = RingBuffer::new(&mut storage[..]);
    /// assert_eq!(ring.enqueue_slice(b"abc"), 3);
    /// assert_eq!(ring.dequeue_many(2), b"ab");
    /// assert_eq!(ring.dequeue_many(2), b"c");
    /// ```
    #[must_use]
    pub fn dequeue_many(&mut self, size: usize) -> &mut [T]
        ensures* writes_back { sem 𝓛 (lends_many T.row S.row S.Storage self.entry
            (with_dequeued (min size (contiguous_queued self.old)) self.old)
            self.old.read_at result) }
        ensures count { length result.now ≡ min size (contiguous_queued self.old) }
        // Guarantee.
        ensures not_empty { self.old.count ≢ 0 → 0 < size → 0 < length result.now }
        // Guarantee.
        ensures value { result.now ≡ take (length result.now) (queue self.old) }
        ensures dequeued { let k = min size (contiguous_queued self.old) in
            (ws : List T) → length ws ≡ k → Dequeues self.old k ws
            (with_elements (with_dequeued k self.old) self.old.read_at ws) }
        ensures room { let k = min size (contiguous_queued self.old) in
            (ws : List T) → window (with_elements (with_dequeued k self.old) self.old.read_at ws)
            ≡ window self.old + k }
        ensures capacity { let k = min size (contiguous_queued self.old) in
            (ws : List T) → capacity (with_elements (with_dequeued k self.old) self.old.read_at ws)
            ≡ capacity self.old }
    {
        let span = self.head.dequeue_many(self.storage.count(), size);
        self.storage.part_mut(span.from, span.from + span.count)
    }

    /// Dequeues as many elements as are queued and fit into `data`, copies them to its beginning,
    /// and returns how many. The rest of `data` stays as it is.
    ///
    /// ```
    /// # use net_base::storage::RingBuffer;
    /// # let mut storage = [0u8; 4];
    /// # let mut ring = RingBuffer::new(&mut storage[..]);
    /// assert_eq!(ring.enqueue_slice(b"abc"), 3);
    /// let mut into = *b"-----";
    /// assert_eq!((ring.dequeue_slice(&mut into), &into), (3, b"abc--"));
    /// ```
    #[must_use]
    pub fn dequeue_slice(&mut self, data: &mut [T]) -> usize
    where
        T: Copy,
        // Guarantee.
        ensures count { result ≡ min (length «data».old) self.old.count }
        ensures of_queue { result ≡ min (length «data».old) (length (queue self.old)) }
        // Guarantee.
        ensures given { «data».new ≡ take result (queue self.old) ++ drop result «data».old }
        ensures ring { self.new ≡ with_dequeued result self.old }
        ensures dequeued { Dequeues self.old result (take result (queue self.old)) self.new }
        // Guarantee.
        ensures queue { queue self.new ≡ drop result (queue self.old) }
        ensures same { (self.new.count ≡ self.old.count - result)
            × (capacity self.new ≡ capacity self.old) }
    {
        let capacity = self.storage.count();
        self.head
            .dequeue_slice(self.storage.part(0, capacity), data)
    }
}

/// Elements at an offset, counted from the first free one or from the first one in the queue.
impl<T, S: Storage<T>> RingOver<T, S> {
    ghost use Rattle.net_ring.specs.RingLends.{lends_many};

    /// Returns how many elements `get_unallocated` would lend. Ask before that call: the ring is
    /// borrowed while a part of it is lent. (Not in smoltcp.)
    ///
    /// ```
    /// # use net_base::storage::RingBuffer;
    /// # let mut storage = [0u8; 4];
    /// # let mut ring = RingBuffer::new(&mut storage[..]);
    /// ring.enqueue_unallocated(3);
    /// ring.dequeue_allocated(2);
    /// // The first free element is at the storage's end, the others at its beginning.
    /// assert_eq!((ring.contiguous_unallocated(0, 3), ring.contiguous_unallocated(1, 3)), (1, 2));
    /// ```
    #[must_use]
    pub fn contiguous_unallocated(&self, offset: usize, size: usize) -> usize
        ensures count { result ≡ contiguous_unallocated self.now offset size }
        ensures within { (result ≤ size) × (result ≤ window self.now - offset) }
        ensures not_empty { offset < window self.now → 0 < size → 0 < result }
    {
        self.head
            .unallocated(self.capacity(), offset, size)
            .contiguous
    }

    /// Lends at most `size` free elements from the one at `offset` on, as many as are contiguous;
    /// none if `offset` is past the window. They stay free.
    ///
    /// ```
    /// # use net_base::storage::RingBuffer;
    /// # let mut storage = [0u8; 4];
    /// # let mut ring = RingBuffer::new(&mut storage[..]);
    /// ring.get_unallocated(1, 2).copy_from_slice(b"bc");
    /// ring.enqueue_unallocated(3);
    /// assert_eq!(ring.get_allocated(1, 2), b"bc");
    /// assert_eq!(ring.get_unallocated(2, 1), b"");
    /// ```
    #[must_use]
    pub fn get_unallocated(&mut self, offset: usize, size: usize) -> &mut [T]
        ensures* writes_back { sem 𝓛 (lends_many T.row S.row S.Storage self.entry
            self.old (spare_index self.old offset) result) }
        ensures count { length result.now ≡ contiguous_unallocated self.old offset size }
        // Guarantee.
        ensures not_empty { offset < window self.old → 0 < size → 0 < length result.now }
        // Guarantee.
        ensures value { result.now ≡ take (length result.now) (drop offset (spare self.old)) }
        ensures written { (ws : List T) → length ws ≡ contiguous_unallocated self.old offset size →
            WritesSpare self.old offset ws
            (with_elements self.old (spare_index self.old offset) ws) }
    {
        let span = self.head.unallocated(self.capacity(), offset, size);
        self.storage
            .part_mut(span.from, span.from + span.contiguous)
    }

    /// Copies as many elements of `data` as there is room for to the free elements from the one at
    /// `offset` on, and returns how many; 0 if `offset` is past the window. Nothing is enqueued.
    ///
    /// ```
    /// # use net_base::storage::RingBuffer;
    /// # let mut storage = [0u8; 4];
    /// # let mut ring = RingBuffer::new(&mut storage[..]);
    /// assert_eq!(ring.write_unallocated(2, b"cdef"), 2);
    /// assert_eq!(ring.write_unallocated(0, b"ab"), 2);
    /// ring.enqueue_unallocated(4);
    /// assert_eq!(ring.get_allocated(0, 4), b"abcd");
    /// ```
    #[must_use]
    pub fn write_unallocated(&mut self, offset: usize, data: &[T]) -> usize
    where
        T: Copy,
        // Guarantee.
        ensures count { result ≡ min (length «data».now) (window self.old - offset) }
        ensures ring { self.new
            ≡ with_elements_wrapping self.old (spare_index self.old offset)
            (take result «data».now) }
        ensures written { WritesSpare self.old offset (take result «data».now) self.new }
        ensures same { (self.new.count ≡ self.old.count) × (capacity self.new ≡ capacity self.old) }
    {
        let capacity = self.storage.count();
        self.head
            .write_unallocated(self.storage.part_mut(0, capacity), offset, data)
    }

    /// Enqueues the next `count` free elements with the values that they have.
    ///
    /// ```
    /// # use net_base::storage::RingBuffer;
    /// # let mut storage = *b"abcd";
    /// # let mut ring = RingBuffer::new(&mut storage[..]);
    /// ring.enqueue_unallocated(2);
    /// assert_eq!(ring.get_allocated(0, 4), b"ab");
    /// ```
    ///
    /// # Requires
    ///
    /// `count` is at most `window()`.
    #[track_caller]
    pub fn enqueue_unallocated(&mut self, count: usize)
        requires window { count ≤ window self.old }
        ensures ring { self.new ≡ with_enqueued count self.old }
        ensures enqueued { Enqueues self.old (take count (spare self.old)) self.new }
    {
        prove!(count <= self.window(), "no room for so many elements");
        self.head.enqueue(self.storage.count(), count);
    }

    /// Shows at most `size` elements of the queue from the one at `offset` on, as many as are
    /// contiguous; none if `offset` is past the queue.
    ///
    /// ```
    /// # use net_base::storage::RingBuffer;
    /// # let mut storage = [0u8; 4];
    /// # let mut ring = RingBuffer::new(&mut storage[..]);
    /// assert_eq!(ring.enqueue_slice(b"abc"), 3);
    /// assert_eq!((ring.get_allocated(1, 9), ring.get_allocated(4, 9)), (&b"bc"[..], &b""[..]));
    /// ```
    #[must_use]
    #[tactic(auto, using(crate::proofs::RingFacts::shown_parts))]
    pub fn get_allocated(&self, offset: usize, size: usize) -> &[T]
        ensures count { length result.now ≡ contiguous_allocated self.now offset size }
        // Guarantee.
        ensures not_empty { offset < self.now.count → 0 < size → 0 < length result.now }
        // Guarantee.
        ensures value { result.now ≡ take (length result.now) (drop offset (queue self.now)) }
        ensures first { 0 < size → slice_get result.now 0 ≡ slice_get (queue self.now) offset }
    {
        let span = self.head.allocated(self.capacity(), offset, size);
        self.storage.part(span.from, span.from + span.contiguous)
    }

    /// Copies as many elements of the queue as `data` has room for, from the one at `offset` on, to
    /// the beginning of `data`, and returns how many; 0 if `offset` is past the queue. The rest of
    /// `data` stays as it is, and nothing is dequeued.
    ///
    /// ```
    /// # use net_base::storage::RingBuffer;
    /// # let mut storage = [0u8; 4];
    /// # let mut ring = RingBuffer::new(&mut storage[..]);
    /// assert_eq!(ring.enqueue_slice(b"abc"), 3);
    /// let mut into = *b"----";
    /// assert_eq!((ring.read_allocated(1, &mut into), &into), (2, b"bc--"));
    /// ```
    #[must_use]
    pub fn read_allocated(&mut self, offset: usize, data: &mut [T]) -> usize
    where
        T: Copy,
        // Guarantee.
        ensures count { result ≡ min (length «data».old) (self.old.count - offset) }
        // Guarantee.
        ensures given { «data».new
            ≡ take result (drop offset (queue self.old)) ++ drop result «data».old }
        ensures unchanged { self.new ≡ self.old }
    {
        let capacity = self.storage.count();
        self.head
            .read_allocated(self.storage.part(0, capacity), offset, data)
    }

    /// Dequeues `count` elements.
    ///
    /// ```
    /// # use net_base::storage::RingBuffer;
    /// # let mut storage = [0u8; 4];
    /// # let mut ring = RingBuffer::new(&mut storage[..]);
    /// assert_eq!(ring.enqueue_slice(b"abc"), 3);
    /// ring.dequeue_allocated(2);
    /// assert_eq!(ring.get_allocated(0, 4), b"c");
    /// ```
    ///
    /// # Requires
    ///
    /// `count` is at most `len()`.
    #[track_caller]
    pub fn dequeue_allocated(&mut self, count: usize)
        requires len { count ≤ self.old.count }
        ensures ring { self.new ≡ with_dequeued count self.old }
        ensures dequeued { Dequeues self.old count (take count (queue self.old)) self.new }
        // Guarantee.
        ensures room { window self.new ≡ window self.old + count }
    {
        prove!(count <= self.len(), "fewer elements are queued");
        self.head.dequeue(self.storage.count(), count);
    }
}

impl<T, S: Storage<T>> RingOver<T, S> {
    /// Moves the queue to the beginning of a larger storage, and returns the old storage. The other
    /// elements of the larger one stay as they are. (Not in smoltcp.)
    ///
    /// ```
    /// # use net_base::storage::RingBuffer;
    /// let mut ring = RingBuffer::new(vec![0u8; 4]);
    /// assert_eq!(ring.enqueue_slice(b"abcdef"), 4);
    /// ring.grow(vec![0; 16].into());
    /// assert_eq!((ring.enqueue_slice(b"ef"), ring.get_allocated(0, 9)), (2, &b"abcdef"[..]));
    /// ```
    ///
    /// # Requires
    ///
    /// `larger` has at least `capacity()` elements.
    #[track_caller]
    pub fn grow(&mut self, mut larger: S) -> S
    where
        T: Copy,
        requires { length self.old.storage ≤ length (S.elements larger) }
        ensures ring { self.new
            ≡ ring (queue self.old ++ drop self.old.count (S.elements larger)) 0 self.old.count }
        // Guarantee.
        ensures queue { queue self.new ≡ queue self.old }
        ensures old { S.elements result ≡ self.old.storage }
    {
        prove!(larger.count() >= self.capacity(), "a smaller storage");
        let count = larger.count();
        let elements = larger.part_mut(0, count);
        let capacity = self.storage.count();
        self.head
            .move_queue(self.storage.part(0, capacity), elements);
        replace(&mut self.storage, larger)
    }
}

/// The queue, shown as std's `VecDeque` shows it. (Not in smoltcp.)
impl<T, S: Storage<T>> RingOver<T, S> {
    /// Shows the queue, in order, in two parts: the elements up to the storage's end, and those from
    /// its beginning on. The second part is empty unless the queue wraps.
    ///
    /// ```
    /// # use net_base::storage::RingBuffer;
    /// # let mut storage = [0u8; 4];
    /// # let mut ring = RingBuffer::new(&mut storage[..]);
    /// assert_eq!(ring.enqueue_slice(b"abc"), 3);
    /// ring.dequeue_allocated(2);
    /// assert_eq!(ring.enqueue_slice(b"def"), 3);
    /// assert_eq!(ring.as_slices(), (&b"cd"[..], &b"ef"[..]));
    /// ```
    #[tactic(auto, using(crate::proofs::RingFacts::cut_parts))]
    #[must_use]
    pub fn as_slices(&self) -> (&[T], &[T])
        // Guarantee.
        ensures queue { result.0.now ++ result.1.now ≡ queue self.now }
        ensures cut { length result.0.now ≡ contiguous_queued self.now }
        ensures count { length result.0.now + length result.1.now ≡ self.now.count }
        ensures fits { self.now.count < 2 ^ 64 }
        // Guarantee.
        ensures not_empty { self.now.count ≢ 0 → 0 < length result.0.now }
    {
        // [ e f . . c d ] is c d and then e f.
        let from = self.head.read_at;
        let first = self.head.contiguous_queue(self.capacity());
        (
            self.storage.part(from, from + first),
            self.storage.part(0, self.head.length - first),
        )
    }

    /// Returns an iterator over the queue, which shows the elements in order.
    ///
    /// ```
    /// # use net_base::storage::RingBuffer;
    /// # let mut storage = [0u8; 4];
    /// # let mut ring = RingBuffer::new(&mut storage[..]);
    /// assert_eq!(ring.enqueue_slice(b"abc"), 3);
    /// ring.dequeue_allocated(2);
    /// assert_eq!(ring.enqueue_slice(b"def"), 3);
    /// assert!(ring.iter().eq(b"cdef") && ring.iter().rev().eq(b"fedc"));
    /// ```
    #[must_use]
    pub fn iter(&self) -> Iter<'_, T>
        ensures queue { result ≡ queue self.now }
        ensures count { length result ≡ self.now.count }
    {
        let _length = self.len();
        crate::laws::is_usize(_length);
        let (first, second) = self.as_slices();
        Iter { first, second }
    }
}

impl<'a, T> From<ManagedSlice<'a, T>> for RingBuffer<'a, T> {
    ghost use Rattle.net_ring.specs.Managed.{elements};

    ghost from_gives = { λ s r. (r ≡ ring (elements s) 0 0)
        × (queue r ≡ []) × (spare r ≡ elements s) };

    /// Returns an empty ring over the storage, whose elements stay as they are.
    fn from(storage: ManagedSlice<'a, T>) -> Self {
        RingOver::over(storage)
    }
}

impl<'a, T> From<&'a mut [T]> for RingBuffer<'a, T> {
    ghost from_gives = { λ s r. (r ≡ ring s.now 0 0) × (queue r ≡ []) × (spare r ≡ s.now) };

    /// Returns an empty ring over a slice that is lent, whose elements stay as they are.
    fn from(elements: &'a mut [T]) -> Self {
        RingOver::over(ManagedSlice::Borrowed(elements))
    }
}

impl<'a, T, const N: usize> From<&'a mut [T; N]> for RingBuffer<'a, T> {
    ghost from_gives = { λ s r. (r ≡ ring s.now 0 0) × (queue r ≡ []) × (spare r ≡ s.now) };

    /// Returns an empty ring over an array that is lent, whose elements stay as they are.
    fn from(elements: &'a mut [T; N]) -> Self {
        RingOver::over(ManagedSlice::Borrowed(elements))
    }
}

impl<'a, T> From<Vec<T>> for RingBuffer<'a, T> {
    ghost from_gives = { λ s r. (r ≡ ring s.items 0 0) × (queue r ≡ []) × (spare r ≡ s.items) };

    /// Returns an empty ring over a vector, whose elements stay as they are.
    fn from(elements: Vec<T>) -> Self {
        RingOver::over(ManagedSlice::Owned(elements))
    }
}

/// Resets each element once.
// Proof: The loop of `reset` is a function of its own, so that its invariant is on a list and not on a ring.
fn reset_each<T: Resettable>(elements: &mut [T])
    ensures { AllZip T.IsReset elements.old elements.new }
{
    for element in elements.iter_mut() {
        element.reset();
    }
}

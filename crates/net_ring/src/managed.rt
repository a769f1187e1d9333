//! Storage that is lent or owned.
ghost use Rattle.std.specs.Prelude.{◌≡◌, ◌≤◌, ◌<◌, ◌-◌, length, take, drop, ◌∷◌, [], ℕ, List, slice_set, slice_get};
ghost use Rattle.std.specs.Prelude.{slice_index_or, Some};
ghost use Rattle.std.specs.Borrow.{sem, Lends, Array};
ghost use Rattle.net_ring.specs.{overwrite};
ghost use Rattle.net_ring.specs.ManagedLends.{lends_lent, lends_owned};

use std::ops::IndexMut;

/// The memory of a ring, a packet queue or another buffer: elements, which it shows and lends.
///
/// Slices, arrays, vectors and boxes implement it, lent or owned. You can implement it for other
/// memory. Then all calls must be about the same elements, whose number never changes. Otherwise a
/// buffer may panic, or show other elements than were written, but it touches no other memory.
///
/// ```
/// use net_base::storage::{RingOver, Storage};
///
/// struct Page([u8; 512]);
///
/// impl Storage<u8> for Page {
///     fn count(&self) -> usize {
///         self.0.len()
///     }
///     fn part(&self, from: usize, to: usize) -> &[u8] {
///         &self.0[from..to]
///     }
///     fn part_mut(&mut self, from: usize, to: usize) -> &mut [u8] {
///         &mut self.0[from..to]
///     }
///     fn element_mut(&mut self, at: usize) -> &mut u8 {
///         &mut self.0[at]
///     }
///     fn element(&self, at: usize) -> &u8 {
///         &self.0[at]
///     }
/// }
///
/// let mut ring = RingOver::over(Page([0; 512]));
/// assert_eq!((ring.enqueue_slice(b"abc"), ring.window()), (3, 509));
/// ```
pub trait Storage<T> {
    /// The elements, in order.
    ghost elements: { Self → List T };

    /// The value with a list written over its elements from an index on.
    ghost with_part: { Self → ℕ → List T → Self };

    /// The value with one element replaced.
    ghost with_element: { Self → ℕ → T → Self };

    /// Returns how many elements there are.
    fn count(&self) -> usize
        ensures { result ≡ length (elements self.now) };

    /// Shows the elements from the index `from` up to `to`.
    ///
    /// # Requires
    ///
    /// `from` is at most `to`, and `to` at most `count()`.
    fn part(&self, from: usize, to: usize) -> &[T]
        requires count { (from ≤ to) × (to ≤ length (elements self.now)) }
        ensures { result.now ≡ take (to - from) (drop from (elements self.now)) };

    /// Lends the elements from the index `from` up to `to`.
    ///
    /// # Requires
    ///
    /// `from` is at most `to`, and `to` at most `count()`.
    fn part_mut(&mut self, from: usize, to: usize) -> &mut [T]
        requires count { (from ≤ to) × (to ≤ length (elements self.old)) }
        ensures* writes_back { sem 𝓛 (Lends Self.row (Array T.row 0) self.entry result
            (with_part self.old from)) }
        ensures value { result.now ≡ take (to - from) (drop from (elements self.old)) };

    /// Lends the element at the index `at`.
    ///
    /// # Requires
    ///
    /// `at` is below `count()`.
    fn element_mut(&mut self, at: usize) -> &mut T
        requires count { at < length (elements self.old) }
        ensures* writes_back { sem 𝓛 (Lends Self.row T.row self.entry result
            (with_element self.old at)) }
        ensures value { result.now ≡ slice_index_or (elements self.old) at result.now };

    /// Shows the element at the index `at`.
    ///
    /// # Requires
    ///
    /// `at` is below `count()`.
    fn element(&self, at: usize) -> &T
        requires count { at < length (elements self.now) }
        ensures { slice_get (elements self.now) at ≡ Some result.now };

    /// The elements after a list was written over a part of them.
    ghost part_written: { (s : Self) (i : ℕ) (ws : List T) →
        elements (with_part s i ws) ≡ overwrite (elements s) i ws };

    /// The elements after one was replaced.
    ghost element_written: { (s : Self) (i : ℕ) (w : T) →
        elements (with_element s i w) ≡ overwrite (elements s) i (w ∷ []) };

    /// The same, as a list of which one element is set.
    ghost element_set: { (s : Self) (i : ℕ) (w : T) →
        elements (with_element s i w) ≡ slice_set (elements s) i w };
}

impl<'a, T> Storage<T> for &'a mut [T] {
    ghost use denote.Ref.{at_last};
    ghost use Rattle.std.specs.Prelude.{refl};
    ghost use Rattle.net_ring.specs.StorageLaws.{element_set_written};

    ghost elements = { λ s. s.now };

    ghost with_part = { λ s i ws. at_last s (overwrite s.now i ws) };

    ghost with_element = { λ s i w. at_last s (slice_set s.now i w) };

    fn count(&self) -> usize {
        self.len()
    }

    fn part(&self, from: usize, to: usize) -> &[T] {
        &self[from..to]
    }

    fn part_mut(&mut self, from: usize, to: usize) -> &mut [T] {
        &mut self[from..to]
    }

    fn element_mut(&mut self, at: usize) -> &mut T {
        &mut self[at]
    }

    fn element(&self, at: usize) -> &T {
        let slice = &**self;
        &slice[at]
    }

    ghost part_written = { λ s i ws. refl };

    ghost element_written = { λ s i w. element_set_written s.now i w };

    ghost element_set = { λ s i w. refl };
}

impl<T> Storage<T> for Vec<T> {
    ghost use Rattle.std.specs.Vec.{with_items_from, with_item};
    ghost use Rattle.std.specs.Prelude.{refl};
    ghost use Rattle.net_ring.specs.StorageLaws.{vec-part_written, element_set_written};

    ghost elements = { λ v. v.items };

    ghost with_part = { with_items_from };

    ghost with_element = { with_item };

    fn count(&self) -> usize {
        self.len()
    }

    fn part(&self, from: usize, to: usize) -> &[T] {
        &self.as_slice()[from..to]
    }

    fn part_mut(&mut self, from: usize, to: usize) -> &mut [T] {
        self.slice_mut(from..to)
    }

    fn element_mut(&mut self, at: usize) -> &mut T {
        self.index_mut(at)
    }

    fn element(&self, at: usize) -> &T {
        &self.as_slice()[at]
    }

    ghost part_written = { vec-part_written };

    ghost element_written = { λ s i w. element_set_written s.items i w };

    ghost element_set = { λ s i w. refl };
}

/// Storage that is lent as a slice, or owned as a vector. So the same code works with a heap and
/// without.
///
/// ```
/// use net_base::managed::ManagedSlice;
///
/// let mut bytes = [1u8, 2, 3];
/// let mut storage = ManagedSlice::from(&mut bytes[..]);
/// storage[0] = 4;
/// assert_eq!(&storage[..], [4, 2, 3]);
/// ```
#[derive(Debug)]
pub enum ManagedSlice<'a, T> {
    /// Elements that are stored elsewhere, and lent.
    Borrowed(&'a mut [T]),
    /// Elements that it owns.
    Owned(Vec<T>),
}

/// Written by hand, so that a struct with a derived `Drop` over two of these can be a local: the
/// borrow checker doesn't cover the derived drop of an enum that has a `&mut` and is in a field.
impl<'a, T: Drop> Drop for ManagedSlice<'a, T> {
    fn drop(self) {
        match self {
            ManagedSlice::Borrowed(_) => {}
            ManagedSlice::Owned(vec) => drop(vec),
        }
    }
}

impl<'a, T> Storage<T> for ManagedSlice<'a, T> {
    ghost use Rattle.net_ring.specs.Managed.{elements, with_part, with_element};
    ghost use Rattle.net_ring.specs.StorageLaws.{part_written, element_written, element_set};

    ghost elements = { elements };

    ghost with_part = { with_part };

    ghost with_element = { with_element };

    fn count(&self) -> usize {
        match self {
            ManagedSlice::Borrowed(slice) => slice.count(),
            ManagedSlice::Owned(vec) => vec.count(),
        }
    }

    fn part(&self, from: usize, to: usize) -> &[T] {
        match self {
            ManagedSlice::Borrowed(slice) => slice.part(from, to),
            ManagedSlice::Owned(vec) => vec.part(from, to),
        }
    }

    fn part_mut(&mut self, from: usize, to: usize) -> &mut [T] {
        match self {
            ManagedSlice::Borrowed(slice) => slice.part_mut(from, to),
            ManagedSlice::Owned(vec) => vec.part_mut(from, to),
        }
    }

    fn element_mut(&mut self, at: usize) -> &mut T {
        match self {
            ManagedSlice::Borrowed(slice) => slice.element_mut(at),
            ManagedSlice::Owned(vec) => vec.element_mut(at),
        }
    }

    fn element(&self, at: usize) -> &T {
        match self {
            ManagedSlice::Borrowed(slice) => slice.element(at),
            ManagedSlice::Owned(vec) => vec.element(at),
        }
    }

    ghost part_written = { part_written };

    ghost element_written = { element_written };

    ghost element_set = { element_set };
}

impl<'a, T> From<&'a mut [T]> for ManagedSlice<'a, T> {
    ghost use Rattle.net_ring.specs.Managed.{elements};

    ghost from_gives = { λ s r. elements r ≡ s.now };

    /// Returns storage that is lent as a slice.
    fn from(slice: &'a mut [T]) -> Self {
        Self::Borrowed(slice)
    }
}

impl<'a, T, const N: usize> From<&'a mut [T; N]> for ManagedSlice<'a, T> {
    ghost use Rattle.net_ring.specs.Managed.{elements};

    ghost from_gives = { λ s r. elements r ≡ s.now };

    /// Returns storage that is lent as an array.
    fn from(array: &'a mut [T; N]) -> Self {
        Self::Borrowed(array)
    }
}

impl<'a, T> From<Vec<T>> for ManagedSlice<'a, T> {
    ghost use Rattle.net_ring.specs.Managed.{elements};

    ghost from_gives = { λ s r. elements r ≡ s.items };

    /// Returns storage that is owned.
    fn from(vec: Vec<T>) -> Self {
        Self::Owned(vec)
    }
}

impl<'a, T> ManagedSlice<'a, T> {
    ghost use Rattle.net_ring.specs.Managed.{elements};
    ghost use Rattle.net_ring.specs.ManagedLends.{lends_elements};

    /// Returns how many elements the storage has.
    ///
    /// ```
    /// # use net_base::managed::ManagedSlice;
    /// assert_eq!(ManagedSlice::from(&mut [1u8, 2, 3]).len(), 3);
    /// ```
    #[must_use]
    pub fn len(&self) -> usize
        ensures { result ≡ length (elements self.now) }
    {
        self.count()
    }

    /// Shows all elements.
    ///
    /// ```
    /// # use net_base::managed::ManagedSlice;
    /// assert_eq!(ManagedSlice::from(&mut [1u8, 2, 3]).as_slice(), [1, 2, 3]);
    /// ```
    #[must_use]
    pub fn as_slice(&self) -> &[T]
        ensures { result.now ≡ elements self.now }
    {
        let count = self.count();
        self.part(0, count)
    }

    /// Lends all elements.
    ///
    /// A caller's proof learns what was written, here or by the calls of [`Storage`], only through a
    /// type parameter `S: Storage<T>`: a function that has to know it takes such a parameter.
    ///
    /// ```
    /// # use net_base::managed::ManagedSlice;
    /// let mut bytes = [1u8, 2, 3];
    /// ManagedSlice::from(&mut bytes).as_mut_slice().fill(7);
    /// assert_eq!(bytes, [7, 7, 7]);
    /// ```
    pub fn as_mut_slice(&mut self) -> &mut [T]
        ensures* writes_back { sem 𝓛 (lends_elements T.row self.entry result) }
        ensures value { result.now ≡ elements self.old }
    {
        match self {
            ManagedSlice::Borrowed(slice) => lent_whole(slice),
            ManagedSlice::Owned(vec) => owned_whole(vec),
        }
    }
}

/// Lends all elements of a lent slice.
// Proof: The two arms of `as_mut_slice` are functions of their own, since an arm lends by the clause of one call.
fn lent_whole<'s, 'a, T>(slice: &'s mut &'a mut [T]) -> &'s mut [T]
    ensures* writes_back { sem 𝓛 (lends_lent T.row slice.entry result) }
    ensures value { result.now ≡ slice.old.now }
{
    slice
}

/// Lends all elements of a vector.
fn owned_whole<T>(vec: &mut Vec<T>) -> &mut [T]
    ensures* writes_back { sem 𝓛 (lends_owned T.row vec.entry result) }
    ensures value { result.now ≡ vec.old.items }
{
    let count = vec.len();
    vec.slice_mut(0..count)
}

//! Values that can be reset in place.

/// A value that can be reset in place.
///
/// ```
/// use net_base::storage::{Resettable, RingBuffer};
///
/// struct Slot(u32);
///
/// impl Resettable for Slot {
///     fn reset(&mut self) {
///         self.0 = 0;
///     }
/// }
///
/// let mut slots = [Slot(1), Slot(2)];
/// let mut ring = RingBuffer::new(&mut slots[..]);
/// ring.reset();
/// assert_eq!(ring.enqueue_one().map(|slot| slot.0).ok(), Some(0));
/// ```
pub trait Resettable {
    /// What `reset` leaves, as a relation of the old and the new value.
    ghost IsReset: { Self → Self → Type 0 };

    /// Resets the value.
    ///
    /// ```
    /// # use net_base::storage::Resettable;
    /// # struct Slot(u32);
    /// # impl Resettable for Slot { fn reset(&mut self) { self.0 = 0; } }
    /// let mut slot = Slot(7);
    /// slot.reset();
    /// assert_eq!(slot.0, 0);
    /// ```
    fn reset(&mut self)
        ensures { IsReset self.old self.new };
}

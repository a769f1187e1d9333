//! A ring over a [`ManagedSlice`], of which Rust's takes all that converts to one.
ghost use Rattle.std.specs.Prelude.{◌≡◌, []};
ghost use Rattle.net_ring.specs.{ring, queue, spare};

use crate::managed::ManagedSlice;
use crate::ring_buffer::{RingBuffer, RingOver};

impl<'a, T> RingBuffer<'a, T> {
    ghost use Rattle.net_ring.specs.Managed.{elements};

    /// Returns an empty ring over the storage, whose elements stay as they are.
    pub fn new(storage: ManagedSlice<'a, T>) -> Self
        ensures ring { result ≡ ring (elements storage.entry) 0 0 }
        ensures parts { (queue result ≡ []) × (spare result ≡ elements storage.entry) }
    {
        RingOver::over(storage)
    }
}

//! A struct with a ring, which lends a part of that ring.
ghost use Rattle.std.specs.Prelude.{◌≡◌, length, List, ℕ};
ghost use Rattle.std.specs.Borrow.{sem};
ghost use Rattle.net_ring.specs.Ring.{contiguous_unallocated, spare_index, with_elements, WritesSpare};

use net_ring::{RingOver, Storage};

/// A line of bytes, over any storage.
#[derive(Drop)]
pub struct Line<S: Storage<u8>> {
    pub ring: RingOver<u8, S>,
}

impl<S: Storage<u8>> Line<S> {
    ghost use Rattle.net_examples.specs.Line.{lends_free};

    /// Lends contiguous free bytes from the one at `offset` on.
    pub fn free(&mut self, offset: usize, size: usize) -> &mut [u8]
        ensures* writes_back { sem 𝓛 (lends_free S.row S.Storage self.entry offset result) }
        ensures count { length result.now ≡ contiguous_unallocated self.old.ring offset size }
        ensures written { (ws : List ℕ)
            → length ws ≡ contiguous_unallocated self.old.ring offset size
            → WritesSpare self.old.ring offset ws
            (with_elements self.old.ring (spare_index self.old.ring offset) ws) }
    {
        self.ring.get_unallocated(offset, size)
    }
}

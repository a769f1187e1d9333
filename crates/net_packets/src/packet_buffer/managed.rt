//! A queue over two [`ManagedSlice`], of which Rust's takes all that converts to them.
ghost use Rattle.std.specs.Prelude.{◌≡◌, [], length};
ghost use Rattle.net_packets.specs.PacketHistory.{contents};
ghost use Rattle.net_packets.specs.{no_packets};

use crate::packet_buffer::{PacketBuffer, PacketsOver};
use crate::packet_metadata::PacketMetadata;
use net_ring::ManagedSlice;

impl<'a, H> PacketBuffer<'a, H> {
    ghost use Rattle.net_ring.specs.Managed.{elements};

    /// Returns a queue with no packets, which has as many slots as `slots` has elements, and room
    /// for as many bytes as `bytes` has.
    pub fn new(slots: ManagedSlice<'a, PacketMetadata<H>>, bytes: ManagedSlice<'a, u8>) -> Self
        ensures empty { contents result ≡ [] }
        ensures made { result ≡ no_packets (length (elements slots.entry)) (elements bytes.entry) }
    {
        PacketsOver::over(slots, bytes)
    }
}

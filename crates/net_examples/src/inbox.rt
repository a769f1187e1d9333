//! A queue of datagrams that shows its first one in place.
ghost use Rattle.std.specs.Prelude.{◌≡◌, ◌∷◌, [], ◌↔◌, IsErr, IfOk, drop};
ghost use Rattle.std.specs.Borrow.{sem};
ghost use Rattle.net_packets.specs.PacketHistory.{contents};

use crate::endpoint::Endpoint;
use net_packets::packet_buffer::laws;
use net_packets::{PacketMetadata, PacketsOver};
use net_ring::{Empty, Storage};
use std::marker::Model;

/// Received datagrams, over any storage.
///
/// Generic in the storage, since over a `PacketBuffer` in a field no contract could say what the loan leaves.
///
/// Contracts see the list of the datagrams, each with its endpoint and its bytes.
#[derive(Drop)]
pub struct Inbox<M: Storage<PacketMetadata<Endpoint>>, B: Storage<u8>> {
    queue: PacketsOver<Endpoint, M, B>,
}

impl<M: Storage<PacketMetadata<Endpoint>>, B: Storage<u8>> Model for Inbox<M, B> {
    ghost use Rattle.std.specs.Prelude.{List, ℕ};
    ghost use Rattle.net_packets.specs.PacketHistory.{contents};
    ghost use Rattle.net_examples.specs.declared.endpoint.Endpoint.{Endpoint};

    ghost Value = { List (Endpoint × List ℕ) };

    ghost view = { λ i. contents i.queue };
}

impl<M: Storage<PacketMetadata<Endpoint>>, B: Storage<u8>> Inbox<M, B> {
    ghost use Rattle.net_examples.specs.InboxLends.{stays};

    /// Returns an inbox of the packets of the queue.
    pub fn new(queue: PacketsOver<Endpoint, M, B>) -> Self
        ensures { result ≡ contents queue }
    {
        Inbox { queue }
    }

    /// Shows the first datagram: where it came from, and its bytes in place. No datagram is
    /// changed.
    pub fn first(&mut self) -> Result<(&Endpoint, &[u8]), Empty>
        ensures* unchanged { sem 𝓛 (stays M.row B.row M.Storage B.Storage self.entry) }
        ensures empty { IsErr result ↔ (self.old ≡ []) }
        ensures first { IfOk result (λ r. self.old ≡ (r.0.now, r.1.now) ∷ drop 1 self.old) }
    {
        laws::contents_are_packets::<Endpoint>();
        laws::packets_leave_in_order::<Endpoint>();
        laws::well_placed(&self.queue);
        self.queue.peek()
    }
}

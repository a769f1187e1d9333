//! Packets that are written, and wiped, where they are.
ghost use Rattle.std.specs.Prelude.{◌≡◌, ◌↔◌, ◌∷◌, ◌++◌, [], OnOk, OnErr, IsErr, drop, length};
ghost use Rattle.std.specs.declared.option.Option.TheVariants.{None};
ghost use Rattle.net_packets.specs.PacketHistory.{contents};
ghost use Rattle.net_packets.specs.Packets.{placement};

use net_packets::PacketBuffer;
use net_ring::{Empty, Full};

/// Writes a packet in place. It is refused exactly if the queue can't place these bytes.
pub fn push_packet(queue: &mut PacketBuffer<'_, u16>, header: u16, bytes: &[u8]) -> Result<(), Full>
    ensures full { IsErr result ↔ (placement queue.old (length bytes.now) ≡ None) }
    ensures pushed { OnOk result
        (contents queue.new ≡ contents queue.old ++ (header, bytes.now) ∷ []) }
    ensures unchanged { OnErr result (queue.new ≡ queue.old) }
{
    queue.place(bytes.len(), header)?;
    queue.last_mut().copy_from_slice(bytes);
    Ok(())
}

/// Takes a packet off, if there is one, and overwrites its bytes where they were.
pub fn wipe_first(queue: &mut PacketBuffer<'_, u16>) -> Result<usize, Empty>
    ensures empty { IsErr result ↔ (contents queue.old ≡ []) }
    ensures taken { OnOk result (contents queue.new ≡ drop 1 (contents queue.old)) }
    ensures unchanged { OnErr result (queue.new ≡ queue.old) }
{
    let (_header, size) = queue.take()?;
    let bytes = queue.last_dequeued_mut(size);
    bytes.fill(0);
    Ok(bytes.len())
}

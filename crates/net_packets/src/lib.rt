//! Queues of packets over two rings, one of slots and one of bytes.
//!
//! # Calling from a proof: Packet queues
//!
//! `placement q size` is the size of a packet's gap, and `None` if the packet is refused. After `enqueue` and
//! `dequeue` a generated proof knows nothing of the queue once the loan ends. So use the two steps, as
//! `crates/net_examples/src/packets.rt`: `enqueue(size, header)` is `place(size, header)` and then `last_mut()`;
//! `dequeue()` is `take()` and then `last_dequeued_mut(size)`. Each call on the first packet drops the gap before
//! it. After each other call the prover knows contents, number of packets, slots and bytes.
//!
//! What a closure captured and changed isn't known: look with `peek`, act, and then `take`. `WritesPacket` and
//! `HandsPacket` say what a closure was lent, left and returned. Laws on what a call leaves have the premise
//! `IsWellPlaced q`, which `well_placed(&queue)` gives: call it again after a change. So `slots_used()` and
//! `payload_bytes_count()` are within the capacities. `drops` is for a loop that drops packets, as in `push_newest`.
//! For `accepted_packets_leave_in_turn` clause `call` of a call (the field `call`, if it takes a closure) says which
//! step it is.
//!
//! `PacketsHead.antt` defines `queue_of h slots xs`, the queue with headers `tt` that a head, slots and a storage
//! represent. `HasSoundSlots c h slots` says that head and slots are those of a queue, with each storage of `c`
//! bytes. Clause `state` of a call says of `queue_of` what a queue's call says of it. With slots of another type
//! than `PacketSlot` write those of a packet that `place` placed.
#![tactic(auto)]

pub mod head;
pub mod packet_buffer;
mod packet_metadata;
pub mod packet_slot;

pub use head::{FirstPacket, PacketPlace, PacketsHead};
pub use packet_buffer::{PacketBuffer, PacketsOver};
pub use packet_metadata::PacketMetadata;
pub use packet_slot::PacketSlot;

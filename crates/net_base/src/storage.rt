//! Storage for packets and streams: rings, packet queues, and the assembler of data that arrives out
//! of order.
//!
//! Each of the three is a crate of its own, `net_ring`, `net_packets` and `net_assembler`; this
//! module re-exports them, and has the one law that is about two of them.

pub mod fragments;
pub mod laws;

pub use fragments::{FragmentBuffer, FragmentError, FragmentsHead, FragmentsOver};
pub use net_assembler::{
    Assembler, AssemblerHead, HoleIter, IterData, Run, RunIter, TooManyHolesError, Turns, assembler,
};
pub use net_packets::{
    PacketBuffer, PacketMetadata, PacketPlace, PacketsHead, PacketsOver, packet_buffer,
};
pub use net_ring::{
    Empty, Full, ManagedSlice, Resettable, RingBuffer, RingHead, RingOver, Span, Storage,
    ring_buffer,
};

//! The two ends of a connection, each of them one machine.
#![tactic(auto)]

pub mod laws;
pub mod receiving_end;
pub mod sending_end;
pub mod sending_head;
pub mod tcp_buffer;

pub use receiving_end::{
    AckFields, Acknowledgement, ReceivingEnd, ReceivingEndOver, ReceivingHead, Room, SackBlocks,
};
pub use sending_end::{AckSegment, Acknowledged, Expired, Outgoing, SendingEnd, SendingEndOver};
pub use sending_head::SendingHead;
pub use tcp_buffer::{AckKind, BufferHead, Queued, Sending, TakenAck};

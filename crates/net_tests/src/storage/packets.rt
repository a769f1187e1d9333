//! The tests of packet queues.

mod packet_buffer;

//! The tests of `net_ring`, `net_packets` and `net_assembler`, each through its public calls.

mod assembler_text;
mod counted;
mod packets;
mod ring;

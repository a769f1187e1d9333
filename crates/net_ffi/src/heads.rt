//! Exports that are methods of heads: a test of what the method requires, then the call.
pub mod finite_receiver;
pub mod fragments;
pub mod packets;
pub mod parts_sum;
pub mod ring;

//! The tests of `net_receiver`, each through its public calls.

mod ranges;
pub mod schedule;

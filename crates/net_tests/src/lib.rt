//! The tests of `net_ring`, `net_packets`, `net_assembler`, `net_base`, `net_receiver` and `net_bench_lib`, each
//! through its public calls.
//!
//! They are in a crate of their own, so that crates that use these libraries don't wait for them, and link nothing that
//! only tests need. Calls that are drawn are of the erased text, in `rust/tests`.
#![tactic(auto)]

/// A table of rows, each up to a semicolon.
macro_rules! rows {
    ($($row:expr;)*) => { [$($row),*] };
}

#[cfg(test)]
mod assertions;
#[cfg(test)]
mod base;
#[cfg(test)]
mod program;
#[cfg(test)]
mod receiver;
#[cfg(test)]
mod storage;
pub mod testing;
#[cfg(test)]
mod worked;

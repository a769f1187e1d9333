//! Worked rows: calls with the answers that they must have. Each row has a plain name, which is that of smoltcp's test
//! if there is one. The names of these rows and of the program's are printed by
//!
//! ```text
//! grep -rnoE '\(?"[a-z][a-z_0-9]{5,}",' crates/net_tests/src
//! ```
//!
//! The tests of devices have no table: they are functions of `base`.

mod assembler;
mod assembler_rows;
mod packets;
mod packets_rows;
mod random;
mod receiver;
mod receiver_rows;
mod ring;
mod ring_rows;
mod times;

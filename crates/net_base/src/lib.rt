//! Storage, time, network devices, checksums and random words: what a small TCP/IP stack needs.
//!
//! # Calling from a proof: Times and devices
//!
//! Module `storage` of `net_base` re-exports the three crates above, so a crate that names only `net_base` in
//! `crates.txt` may import their definitions, as `Rattle.net_base.specs.Ring.{queue}`. Each `clone` returns `Ok`,
//! but that of a `PacketMetadata<H>`, where the header's `clone` decides. A `FragmentsHead` of `new` is exact,
//! `IsExact`, and each call of a head leaves it so. Law `storage::laws::reassembling` is about a buffer of your
//! own that lists are written into, and an assembler with their ranges (`Reassembles`).
//!
//! An `Instant` is a whole number of microseconds that fits an `i64` (`IsMoment`), a `Duration` a natural number of
//! them that fits a `u64` (`IsLength`). A call that requires that its result fits has a test beside it, such as
//! `fits_millis` or `can_add`; moments saturate (docs/DIFFERENCES.md).
//!
//! A `Loopback` has a `medium` and a list `frames`, the next one first. A contract sees a device of your own through
//! ghost members, relations on its states, which `src/phy/device.rt` explains. `taken`, `sent`, `abilities`, and
//! `bytes` of its `RxToken`, must be stated. Both tokens are `Drop`.
#![tactic(auto)]

pub mod checksum;
pub mod phy;
pub mod rand;
pub mod storage;
pub mod time;

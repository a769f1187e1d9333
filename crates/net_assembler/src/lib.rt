//! The assembler of data that arrives out of order, and finite sets of positions.
//!
//! # Calling from a proof: Assemblers
//!
//! An `Assembler<N>` is a finite set of positions. `runs` is how many maximal runs it has, and `front` the length of
//! the run at position 0. Clause `room` of `remove_front` says that there is room after a front was removed. A
//! refusal of a call of an `AssemblerHead` leaves the runs too (clause `unchanged`). To compare two `&Assembler<N>`
//! write `*a == *b`.
//!
//! To know the first of these, call the second before, of `assembler::laws`:
//!
//! - that `add` is accepted after `is_empty()` was true: `number_of_runs()`
//! - the same after `iter_data().count() < N`: `maximal_runs()`
//! - that no position is present after `clear()`, or if `is_empty()` is true: `members()`
//! - that the front is 0 after `clear()`: `members()` and `front()`
//! - that positions below `peek_front()` are present: `front()`
#![tactic(auto)]

pub mod assembler;

pub use assembler::{
    Assembler, AssemblerHead, HoleIter, IterData, Run, RunIter, TooManyHolesError, Turns,
};

//! The tests of `net_bench_lib`: worked rows of the program, whole and over streams that fail at each call, and what
//! wants the kit's memory, which is words, requests that are refused, and how many bytes a run has.

mod arguments;
mod memory;
mod program_rows;
mod rows;
mod streams;

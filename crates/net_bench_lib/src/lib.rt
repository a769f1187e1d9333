//! Lines in, reply lines out, over a ring, an assembler or a receiver.
#![tactic(auto)]

mod arguments;
mod asm;
mod bench;
mod dispatch;
mod error;
mod fault;
pub mod laws;
mod limits;
mod mode;
mod numeral;
mod program;
mod ring;
mod session;
mod stream;
mod text;
mod words;
mod writer;

pub use arguments::command_words;
pub use dispatch::run;
pub use error::BenchError;
pub use mode::Mode;
pub use numeral::number;
pub use program::serve;

//! Small users of the laws of `net_ends`, and a text that is carried from one end to the other.
//!
//! They are in a crate of their own, so that the tests of the other libraries don't wait for both ends.
#![tactic(auto)]

mod ends;
mod heard;
mod path;

pub use ends::{begin, read_first, send_late, take_acknowledgement, take_last, take_segment};
pub use heard::{answer_of_answer, have_come, hear, promised_end};
pub use path::{Event, Segment, Transfer, carry, first_missing, happen};

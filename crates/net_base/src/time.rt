//! Moments and lengths of time, in whole microseconds.

mod duration;
mod instant;
pub mod laws;

pub use duration::Duration;
pub use instant::Instant;

/// The length of the longest text, that of the first moment, in bytes.
const LONGEST_TEXT: usize = 20;

//! The Internet checksum (RFC 1071), over one part or several, and its update (RFC 1624).

pub mod internet_sum;
pub mod laws;

pub use internet_sum::{PartsSum, checksum, is_valid, updated_checksum};

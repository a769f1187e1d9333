//! Where a datagram comes from, or where it goes.

/// Where a datagram comes from, or where it goes.
#[derive(Debug, Clone, Copy, PartialEq, Eq, Drop)]
pub struct Endpoint {
    /// An IPv4 address, its first byte the most significant.
    pub address: u32,
    /// A port.
    pub port: u16,
}

//! The slots of a packet queue.

/// A slot of a packet queue. It has a packet's size and header, or the size of a gap, in bytes.
///
/// ```
/// use net_base::storage::PacketMetadata;
///
/// let slots: [PacketMetadata<u16>; 4] = [PacketMetadata::EMPTY; 4];
/// # assert_eq!(slots.len(), 4);
/// ```
#[derive(Debug, Clone, Copy, Drop)]
pub struct PacketMetadata<H> {
    pub(crate) size: usize,
    pub(crate) header: Option<H>,
}

impl<H> PacketMetadata<H> {
    /// An empty slot. Storage of slots is made of it.
    ///
    /// ```
    /// # use net_base::storage::PacketMetadata;
    /// let slots = [PacketMetadata::<()>::EMPTY; 2];
    /// # assert_eq!(slots.len(), 2);
    /// ```
    pub const EMPTY: PacketMetadata<H> = PacketMetadata {
        size: 0,
        header: None,
    };
}

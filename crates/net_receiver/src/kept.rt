//! The results of a segment: what was kept, or why a receiver of a stream that ends refuses it.
use thiserror::Error;

/// How many bytes of a segment were kept, how many became readable, and the first ranges that wait: what `segment`
/// returns.
///
/// ```
/// use net_base::receiver::{Kept, Receiver};
///
/// let mut storage = [0u8; 16];
/// let mut receiver = Receiver::<4>::new(&mut storage[..]);
/// let Ok(Kept { kept, queued, sack, .. }) = receiver.segment(5, b"fg") else {
///     panic!("a first run is never refused");
/// };
/// assert_eq!((kept, queued, sack), (2, 0, [Some((5, 7)), None, None]));
/// ```
#[derive(Debug, Clone, Copy, PartialEq, Eq, Hash)]
pub struct Kept {
    /// How many bytes of the segment were kept: those whose positions are in the free window.
    pub kept: usize,
    /// How many bytes became readable by this call: by how much `next` rose. The method `queued` counts all readable
    /// bytes.
    pub queued: usize,
    /// The first three waiting ranges after the call, as positions (start, end), the end not included, in rising order.
    /// `None` fills the rest. They are listed even if no byte was kept.
    pub sack: [Option<(u64, u64)>; 3],
}

/// How many bytes of a segment were kept, and how many became readable: what `keep` returns.
///
/// ```
/// use net_base::receiver::{KeptBytes, Receiver};
///
/// let mut storage = [0u8; 4];
/// let mut receiver = Receiver::<4>::new(&mut storage[..]);
/// // One byte of three is beyond the window, and the first one is missing.
/// assert_eq!(receiver.keep(2, b"cde").map(|it| (it.kept, it.queued)), Ok((2, 0)));
/// assert_eq!(receiver.keep(0, b"ab").map(|it| (it.kept, it.queued)), Ok((2, 4)));
/// ```
#[derive(Debug, Clone, Copy, PartialEq, Eq)]
pub struct KeptBytes {
    /// How many bytes of the segment were kept: those whose positions are in the free window.
    pub kept: usize,
    /// How many bytes became readable by this call: by how much `next` rose. The method `queued` counts all readable
    /// bytes.
    pub queued: usize,
}

/// Where the bytes of a segment are, each counted once: what `parts_of` returns.
///
/// ```
/// use net_base::receiver::{Receiver, SegmentParts};
///
/// let mut storage = [0u8; 4];
/// let mut receiver = Receiver::<4>::new(&mut storage[..]);
/// assert!(receiver.keep(0, b"ab").is_ok());
/// let SegmentParts { old, in_window, beyond, past_end: _, .. } = receiver.parts_of(1, 5);
/// assert_eq!((old, in_window, beyond), (1, 2, 2));
/// ```
#[derive(Debug, Clone, Copy, PartialEq, Eq)]
pub struct SegmentParts {
    /// How many are below `next`: read, queued, or before the stream's first byte.
    pub old: usize,
    /// How many are in the free window. `keep` keeps them, unless it returns an error.
    pub in_window: usize,
    /// How many are at the end of the free window or above it, or at `u64::MAX` or above, where no stream has bytes.
    pub beyond: usize,
    /// How many are at the stream's end or above it, and in no other count. A `Receiver` counts none.
    pub past_end: usize,
}

/// Why a segment was refused. Nothing has changed then.
///
/// ```
/// use net_base::finite::{FiniteError, FiniteReceiver};
///
/// let mut storage = [0u8; 16];
/// let mut receiver = FiniteReceiver::<1>::new_at(&mut storage[..], 0);
/// assert!(receiver.keep(2, b"cd", false).is_ok());
/// assert_eq!(receiver.keep(6, b"g", false), Err(FiniteError::TooManyHoles));
/// assert_eq!(receiver.keep(2, b"c", true), Err(FiniteError::OtherEnd));
/// ```
#[derive(Debug, Clone, Copy, PartialEq, Eq, Hash, Drop, Error)]
pub enum FiniteError {
    /// The segment's bytes would make more waiting ranges than there is room for. Grow the storage up to a limit of
    /// yours and call again, or drop the packet without acknowledging it: the peer sends it again.
    #[error("too many holes: the segment must be sent again")]
    TooManyHoles,
    /// The segment says that the stream ends where it can't: elsewhere than at the known end, below `next` or the end
    /// of a waiting range, or at `u64::MAX`. Over TCP drop the segment. Over QUIC it is a FINAL_SIZE_ERROR (RFC 9000,
    /// section 4.5).
    #[error("the end contradicts what has arrived: drop the segment, or in QUIC close the connection")]
    OtherEnd,
}

//! Refusals of rings and packet queues.
use thiserror::Error;

/// The error of a call that enqueues: the ring or the packet queue has no room.
///
/// Its text is "buffer full".
///
/// ```
/// use net_base::storage::{Full, RingBuffer};
///
/// let mut storage = [0u8; 0];
/// assert_eq!(RingBuffer::new(&mut storage[..]).enqueue_one(), Err(Full));
/// ```
#[derive(Debug, Clone, Copy, PartialEq, Eq, Hash, Drop, Error)]
#[error("buffer full")]
pub struct Full;

/// The error of a call that dequeues: the ring or the packet queue is empty.
///
/// Its text is "buffer empty".
///
/// ```
/// use net_base::storage::{Empty, RingBuffer};
///
/// let mut storage = [0u8; 4];
/// assert_eq!(RingBuffer::new(&mut storage[..]).dequeue_one(), Err(Empty));
/// ```
#[derive(Debug, Clone, Copy, PartialEq, Eq, Hash, Drop, Error)]
#[error("buffer empty")]
pub struct Empty;

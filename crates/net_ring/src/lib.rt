//! Rings over storage that is lent or owned, and rings whose two ends run apart. The greatest `usize`.
//!
//! # Calling from a proof: Rings
//!
//! ```text
//! RingBuffer::new(ManagedSlice::Borrowed(&mut bytes))     over lent storage: a slice, or an array
//! RingBuffer::new(ManagedSlice::Owned(vector))            over a Vec
//! RingOver::over(storage)                                 over any storage; a const fn
//! ```
//!
//! `queue g` is the list of the queued elements, and `spare g` that of the free ones, in the order in which they are
//! filled. `g.count` and `window g` are their lengths, and `capacity g` is the sum. After each call the prover knows
//! queue, count, window and capacity. While a part of a ring is lent, nothing else can be asked of it, so ask
//! `contiguous_unallocated(offset, n)` first. After `*ring.enqueue_one()? = byte` the queue is `queue ring.old ++
//! byte ∷ []`, and after `ring.get_unallocated(i, 1)[0] = byte` the spare part is `overwrite (spare ring.old) i
//! (byte ∷ [])`.
//!
//! To know the first of these, call the second before:
//!
//! - window and capacity after `dequeue_many_with`, if the closure counts fewer than it is lent: `window()`
//! - that `len() + window()` fits `usize`: `capacity()`
//! - `slice_set`, or `slice_get` of each index, after a write over one element: `laws::element_set::<T>()`
//!
//! Three facts want a function of its own, with a clause:
//!
//! - what a closure of `enqueue_many_with` wrote, if it writes a part;
//! - that a whole queue was copied, `into.new ≡ queue ring.old`, which requires `length into.old ≡ length (queue
//!   ring.old)`;
//! - that `buffer[at..at + n].copy_from_slice(..)` is `overwrite buffer.old at ..`.
//!
//! `elements storage` is the list of a `ManagedSlice`'s elements. Whoever writes through one that it names itself
//! has no proof of what was written: take any storage, `&mut S`, as `set_first` in
//! `crates/net_examples/src/first_element.rt`.
//!
//! ## A struct of your own
//!
//! A struct that holds a ring or a packet queue, and lends from it, is generic in the storage, as `RingOver<T, S>`
//! is. One with a lifetime that holds a `RingBuffer<'a, T>` can use every call, but a loan clause of its own gets no
//! proof. In `crates/net_examples/src`, `line.rt` is over a ring, `inbox.rt` over a packet queue, `samples.rt` over
//! a bare storage.
#![tactic(auto)]

mod error;
pub mod head;
pub mod laws;
mod managed;
mod resettable;
pub mod ring_buffer;
pub mod split_counts;
pub mod width;

pub use error::{Empty, Full};
pub use head::{RingHead, Span};
pub use managed::{ManagedSlice, Storage};
pub use resettable::Resettable;
pub use ring_buffer::{RingBuffer, RingOver};
pub use split_counts::{SplitCounts, SplitSpan};

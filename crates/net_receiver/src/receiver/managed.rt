//! Receivers over a [`ManagedSlice`], of which Rust's take all that converts to one.
ghost use Rattle.std.specs.Prelude.{◌≡◌, ◌≤◌, ℕ, List, length};
ghost use Rattle.net_receiver.specs.{fresh_receiver, ReceivesFrom};

use crate::receiver::{Receiver, ReceiverOver};
use net_ring::ManagedSlice;

impl<'a, const N: usize> Receiver<'a, N> {
    ghost use Rattle.net_ring.specs.Managed.{elements};

    /// Returns a receiver of a stream that begins at position 0: `new_at` with 0.
    ///
    /// ```rust
    /// let mut storage = [0u8; 16];
    /// let mut receiver = Receiver::<4>::new(ManagedSlice::Borrowed(&mut storage));
    /// ```
    ///
    /// A program in which `N` is 0 does not compile.
    pub const fn new(storage: ManagedSlice<'a, u8>) -> Self
        requires { 1 ≤ N }
        ensures state { result ≡ fresh_receiver 0 (length (elements storage.entry)) }
        ensures receives { (x : List ℕ) → ReceivesFrom 0 x result }
    {
        ReceiverOver::over_at(storage, 0)
    }

    /// Returns a receiver of a stream that begins at position `first`: `ReceiverOver::over_at`.
    ///
    /// A program in which `N` is 0 does not compile.
    pub const fn new_at(storage: ManagedSlice<'a, u8>, first: u64) -> Self
        requires { 1 ≤ N }
        ensures state { result ≡ fresh_receiver first (length (elements storage.entry)) }
        ensures receives { (x : List ℕ) → ReceivesFrom first x result }
    {
        ReceiverOver::over_at(storage, first)
    }
}

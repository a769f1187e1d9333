//! A buffer over a [`ManagedSlice`], of which Rust's takes all that converts to one.
ghost use Rattle.std.specs.Prelude.{◌≡◌, ◌≤◌};
ghost use Rattle.net_base.specs.Fragments.{empty};

use crate::storage::fragments::{FragmentBuffer, FragmentsOver};
use crate::time::Instant;
use net_ring::ManagedSlice;

impl<'a, const N: usize> FragmentBuffer<'a, N> {
    ghost use Rattle.net_ring.specs.Managed.{elements};

    /// Returns an empty buffer that expires after `expires_at`.
    ///
    /// A program in which `N` is 0 does not compile.
    pub fn new(bytes: ManagedSlice<'a, u8>, expires_at: Instant) -> Self
        requires { 1 ≤ N }
        ensures { result ≡ empty (elements bytes.entry) expires_at }
    {
        FragmentsOver::over(bytes, expires_at)
    }
}

//! The call whose `N` is 4 in Rust, where it isn't named.
ghost use Rattle.std.specs.Prelude.{◌≡◌, ◌≤◌};
ghost use Rattle.net_assembler.specs.Positions.{nothing, runs};

use crate::assembler::Assembler;

impl<const N: usize> Assembler<N> {
    /// Returns an assembler with no position, as [`empty`](Assembler::empty) does.
    ///
    /// ```
    /// # use net_base::storage::Assembler;
    /// assert!(Assembler::new().is_empty());
    /// ```
    ///
    /// A program in which `N` is 0 does not compile.
    pub const fn new() -> Self
        requires { 1 ≤ N }
        ensures empty { result ≡ nothing }
        ensures bound { runs result ≤ N }
    {
        Self::empty()
    }
}

//! Numbers other than 0.
ghost use Rattle.std.specs.Prelude.{◌≡◌, ◌<◌, MatchOption};

use std::marker::Model;

/// A `u16` other than 0.
#[derive(Debug, PartialEq, Eq, Hash, Clone, Copy)]
pub struct NonZeroU16 {
    value: u16,
}

impl Model for NonZeroU16 {
    ghost use Rattle.std.specs.Prelude.{ℕ, ◌<◌};

    ghost Value = { ℕ };

    ghost view = { λ n. n.value };

    ghost invariant = { λ n. 0 < n.value };

    ghost inverse = { λ n. record { value = n } };
}

impl NonZeroU16 {
    /// Returns the number, or `None` exactly for 0.
    pub fn new(value: u16) -> Option<NonZeroU16>
        ensures { MatchOption result (value ≡ 0) (λ n. (n ≡ value) × (0 < value)) }
    {
        if value == 0 {
            return None;
        }
        Some(NonZeroU16 { value })
    }

    /// Returns the number, which is not 0.
    pub fn get(self) -> u16
        ensures value { result ≡ self }
        ensures positive { 0 < result }
    {
        self.value
    }
}

/// A `usize` other than 0.
#[derive(Debug, PartialEq, Eq, Hash, Clone, Copy)]
pub struct NonZeroUsize {
    value: usize,
}

impl Model for NonZeroUsize {
    ghost use Rattle.std.specs.Prelude.{ℕ, ◌<◌};

    ghost Value = { ℕ };

    ghost view = { λ n. n.value };

    ghost invariant = { λ n. 0 < n.value };

    ghost inverse = { λ n. record { value = n } };
}

impl NonZeroUsize {
    /// Returns the number, or `None` exactly for 0.
    pub fn new(value: usize) -> Option<NonZeroUsize>
        ensures { MatchOption result (value ≡ 0) (λ n. (n ≡ value) × (0 < value)) }
    {
        if value == 0 {
            return None;
        }
        Some(NonZeroUsize { value })
    }

    /// Returns the number, which is not 0.
    pub fn get(self) -> usize
        ensures value { result ≡ self }
        ensures positive { 0 < result }
    {
        self.value
    }
}

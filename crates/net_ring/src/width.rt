//! The greatest `usize`. No other function, but one law, knows how many bits a `usize` has.
ghost use Rattle.std.specs.Prelude.{◌≡◌, ◌+◌, ◌≤◌, ◌^◌};
ghost use Rattle.net_ring.specs.Width.{shortfall};

/// Returns the greatest `usize`, which has at least 32 bits.
#[inline(always)]
pub const fn most() -> usize
    ensures greatest { result + 1 + shortfall ≡ 2 ^ 64 }
    ensures least { 2 ^ 32 ≤ result + 1 }
{
    usize::MAX
}

//! Laws of all moments and lengths, and of the constants. No function here changes anything.

ghost use Rattle.std.specs.Prelude.{◌≡◌, ◌-◌, ◌^◌, ◌<◌, ◌<ℤ◌, pos, Some, ℕ, ℤ};
ghost use Rattle.std.specs.Ordering.{MatchOrdering};
ghost use Rattle.net_base.specs.Time.{distance, moment_text, length_text};
ghost use Rattle.std.specs.Fmt.{format_spec};
ghost use Rattle.net_base.specs.Values.{ClonesAreSame, ComparesValues};

use crate::time::{Duration, Instant};
use std::fmt::Display;

/// Returns the origin of moments, no time and the greatest length: 0, 0 and 2^64 - 1 microseconds. A constant has no
/// contract: this is theirs.
pub fn constants() -> (Instant, Duration, Duration)
    ensures { result ≡ (pos 0, 0, 2 ^ 64 - 1) }
{
    (Instant::ZERO, Duration::ZERO, Duration::MAX)
}

/// States that the order of moments is that of their microseconds, and two moments are equal
/// exactly if they are the same.
pub fn instant_order()
    ensures order { (x y : _) →
        MatchOrdering (⟦<Instant as Ord>⟧.cmp x y) (x <ℤ y) (x ≡ y) (y <ℤ x) }
    ensures partial { (x y : _) → ⟦<Instant as PartialOrd>⟧.partial_cmp x y
        ≡ Some (⟦<Instant as Ord>⟧.cmp x y) }
    ensures equality { ComparesValues ⟦<Instant as PartialEq>⟧.eq }
{}

/// States that the order of lengths is that of their microseconds, and two lengths are equal
/// exactly if they are the same.
pub fn duration_order()
    ensures order { (x y : _) →
        MatchOrdering (⟦<Duration as Ord>⟧.cmp x y) (x < y) (x ≡ y) (y < x) }
    ensures partial { (x y : _) → ⟦<Duration as PartialOrd>⟧.partial_cmp x y
        ≡ Some (⟦<Duration as Ord>⟧.cmp x y) }
    ensures equality { ComparesValues ⟦<Duration as PartialEq>⟧.eq }
{}

/// States that the distance between two moments is the same both ways.
pub fn distance_both_ways()
    ensures { (x y : ℤ) → distance x y ≡ distance y x }
{}

/// States that a clone of a moment or of a length is the same, and is never refused.
pub fn clones()
    ensures instant { ClonesAreSame ⟦<Instant as Clone>⟧.is_clone
        ⟦<Instant as Clone>⟧.is_infallible }
    ensures duration { ClonesAreSame ⟦<Duration as Clone>⟧.is_clone
        ⟦<Duration as Clone>⟧.is_infallible }
{}

/// States that the default length is zero.
pub fn default()
    ensures { (x : _) → ⟦<Duration as Default>⟧.is_default x → x ≡ 0 }
{}

/// States that no option changes the text of a moment or of a length.
pub fn texts()
    ensures instant { (x : _) (fill align flags width precision : ℕ)
        → ⟦<Instant as Display>⟧.styled_output x (format_spec fill align flags width precision)
        ≡ Some (moment_text x) }
    ensures duration { (x : _) (fill align flags width precision : ℕ)
        → ⟦<Duration as Display>⟧.styled_output x (format_spec fill align flags width precision)
        ≡ Some (length_text x) }
{}

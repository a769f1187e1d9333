//! The bounds of a timeout, as C has them. Those of zeros are RFC 6298's.
ghost use Rattle.std.specs.Prelude.{◌≡◌};
ghost use Rattle.net_ffi.specs.Retransmission.{bounds_of, given_or};

use net_base::time::Duration;

/// What a timeout of 0 counts as, and a least one: 1 second.
pub(crate) const FIRST_TIMEOUT: u64 = 1_000_000;

/// What a greatest timeout of 0 counts as: 60 seconds.
const MOST_TIMEOUT: u64 = 60_000_000;

/// The bounds of a timeout, the tick of the clock that the samples are read from, and how long a peer delays an
/// acknowledgement.
#[repr(C)]
#[derive(Copy, Clone, Debug)]
pub struct TimeoutBounds {
    /// The least timeout. 0 counts as 1 second (RFC 6298, 2.4).
    pub least: u64,
    /// The greatest, unless `least` is above it. 0 counts as 60 seconds (2.5).
    pub most: u64,
    /// The time between two ticks of the clock; 0 if it counts each microsecond.
    pub tick: u64,
    /// The longest time for which the peer delays the acknowledgement of one segment: 200,000 for TCP. A loss probe
    /// waits for that, so it has no effect without SACK.
    pub ack_delay: u64,
}

/// Returns a number, or another one in place of 0.
#[inline(always)]
pub(crate) fn given_or(number: u64, other: u64) -> u64
    ensures { result ≡ given_or number other }
{
    if number == 0 { other } else { number }
}

/// Returns the bounds.
#[inline(always)]
pub(crate) fn bounds_from(bounds: &TimeoutBounds) -> net_tcp::TimeoutBounds
    ensures { result ≡ bounds_of bounds.now }
{
    net_tcp::TimeoutBounds {
        least: Duration::from_micros(given_or(bounds.least, FIRST_TIMEOUT)),
        most: Duration::from_micros(given_or(bounds.most, MOST_TIMEOUT)),
        tick: Duration::from_micros(bounds.tick),
        ack_delay: Duration::from_micros(bounds.ack_delay),
    }
}

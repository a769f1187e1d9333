//! A timer that waits longer each time.
ghost use Rattle.std.specs.Prelude.{◌≡◌, ◌↔◌, ◌*◌, ◌-◌, ◌^◌, ◌+ℤ◌, ◌≤ℤ◌, pos, min, IsTrue};
ghost use Rattle.net_base.specs.Time.{IsMoment};

use net_base::time::{Duration, Instant};

/// A timer that expires a timeout after it was armed. Each time it can be made to wait twice as
/// long.
#[derive(Debug, Clone, Copy)]
pub struct Timer {
    timeout: Duration,
    deadline: Instant,
}

impl Timer {
    /// Returns a timer that was armed at `now`.
    pub fn new(timeout: Duration, now: Instant) -> Timer
        ensures timeout { result.timeout ≡ timeout }
        ensures deadline { IsMoment (now +ℤ pos timeout)
            → result.deadline ≡ now +ℤ pos timeout }
    {
        Timer {
            timeout,
            deadline: now.saturating_add(timeout),
        }
    }

    /// Returns whether the deadline has come.
    pub fn is_expired(&self, now: Instant) -> bool
        ensures { IsTrue result ↔ (self.now.deadline ≤ℤ now) }
    {
        self.deadline <= now
    }

    /// Arms the timer again, to wait twice as long as before, or the longest time there is.
    pub fn back_off(&mut self, now: Instant)
        ensures timeout { self.new.timeout ≡ min (self.old.timeout * 2) (2 ^ 64 - 1) }
        ensures deadline { IsMoment (now +ℤ pos self.new.timeout)
            → self.new.deadline ≡ now +ℤ pos self.new.timeout }
    {
        self.timeout = self.timeout.saturating_mul(2);
        self.deadline = now.saturating_add(self.timeout);
    }
}

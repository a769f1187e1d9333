//! What was reported, as a recovery reads it.
ghost use Rattle.std.specs.Prelude.{◌≡◌, ◌≤◌, ◌-◌};
ghost use Rattle.net_assembler.specs.Positions.{Positions, contains, missing_count};
ghost use Rattle.net_receiver.specs.Scoreboards.{IsHole, IsLossBound, IsEnd, IsSoundBoard, reported_by};

use net_assembler::Run;
use net_receiver::{Scoreboard, ScoreboardHead};
use std::marker::Model;

/// Which positions a sender knows that the other end has: a `Scoreboard`, or a head and lent runs.
///
/// ```
/// use net_base::scoreboard::Scoreboard;
/// use net_tcp::Reported;
///
/// fn missing<B: Reported>(reported: &B) -> u64 {
///     reported.missing_between(0, 60)
/// }
///
/// let mut scoreboard = Scoreboard::<4>::empty();
/// assert_eq!(scoreboard.report(20..40, 60), Ok(()));
/// assert_eq!(missing(&scoreboard), 40);
/// ```
pub trait Reported {
    /// The positions.
    ghost set: { Self → Positions };

    /// Returns whether a position was reported.
    fn contains(&self, pos: u64) -> bool
        ensures { result ≡ contains (set self.now) pos };

    /// Returns the position after the highest that was reported.
    fn highest_reported(&self) -> u64
        ensures { IsEnd (set self.now) result };

    /// Returns how many positions of a range weren't reported.
    fn missing_between(&self, start: u64, end: u64) -> u64
        ensures count { result ≡ missing_count (set self.now) start (end - start) }
        ensures few { result ≤ end - start };

    /// Returns the first range from `pos` on and below `limit` that wasn't reported.
    fn next_hole(&self, pos: u64, limit: u64) -> Option<(u64, u64)>
        ensures { IsHole (set self.now) pos limit result };

    /// Returns below which position all is lost that wasn't reported.
    fn lost_below(&self, duplicates: usize, segment_size: usize) -> u64
        ensures { IsLossBound duplicates segment_size (set self.now) result };
}

impl<const N: usize> Reported for Scoreboard<N> {
    ghost set = { λ s. s };

    fn contains(&self, pos: u64) -> bool {
        self.contains(pos)
    }

    fn highest_reported(&self) -> u64 {
        self.highest_reported()
    }

    fn missing_between(&self, start: u64, end: u64) -> u64 {
        self.missing_between(start..end)
    }

    fn next_hole(&self, pos: u64, limit: u64) -> Option<(u64, u64)> {
        self.next_hole(pos, limit)
            .map(|hole| (hole.start, hole.end))
    }

    fn lost_below(&self, duplicates: usize, segment_size: usize) -> u64 {
        self.lost_below(duplicates, segment_size)
    }
}

/// A scoreboard whose runs are lent, for reading.
#[derive(Drop)]
pub struct LentScoreboard<'a> {
    head: ScoreboardHead,
    runs: &'a [Run],
}

impl<'a> Model for LentScoreboard<'a> {
    ghost use Rattle.std.specs.Coded.{coded_ℕ};
    ghost use Rattle.std.specs.FinSet as set;
    ghost use Rattle.net_assembler.specs.Positions.{Positions};
    ghost use Rattle.net_receiver.specs.Scoreboards.{reported_by, IsSoundBoard};

    ghost Value = { Positions };

    ghost coded = { set.code coded_ℕ };

    ghost view = { λ b. reported_by b.head b.runs.now };

    ghost invariant = { λ b. IsSoundBoard b.head b.runs.now };
}

impl<'a> LentScoreboard<'a> {
    /// Returns the scoreboard of a head and runs.
    ///
    /// # Requires
    ///
    /// They are sound, as `ScoreboardHead::is_sound` tests.
    pub fn new(head: ScoreboardHead, runs: &'a [Run]) -> Self
        requires { IsSoundBoard head runs.now }
        ensures { result ≡ reported_by head runs.now }
    {
        LentScoreboard { head, runs }
    }
}

impl Reported for LentScoreboard<'_> {
    ghost set = { λ s. s };

    fn contains(&self, pos: u64) -> bool {
        self.head.contains(self.runs, pos)
    }

    fn highest_reported(&self) -> u64 {
        self.head.highest_reported(self.runs)
    }

    fn missing_between(&self, start: u64, end: u64) -> u64 {
        self.head.missing_between(self.runs, start, end)
    }

    #[inline]
    fn next_hole(&self, pos: u64, limit: u64) -> Option<(u64, u64)> {
        let (start, end) = self.head.next_hole(self.runs, pos, limit);
        if start < end {
            Some((start, end))
        } else {
            None
        }
    }

    fn lost_below(&self, duplicates: usize, segment_size: usize) -> u64 {
        self.head.lost_below(self.runs, duplicates, segment_size)
    }
}

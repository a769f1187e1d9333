//! A scoreboard in parts: a head, and runs that are kept elsewhere.

// Why: A scoreboard counts from the first position that wasn't reported. So an acknowledgement is never refused, and
// offsets fit 32 bits.

#![tactic(auto, using(crate::proofs::Scoreboards::heads))]

ghost use Rattle.std.specs.Prelude.{◌≡◌, ◌↔◌, ◌-◌, ◌<◌, ◌≤◌, ◌^◌, List, ℕ, length, min, IsTrue, Err, OnOk, OnErr};
ghost use Rattle.net_assembler.specs.Positions.{contains, first_missing, front, maximal_runs, missing_count};
ghost use Rattle.net_assembler.specs.Positions.{nothing, with_range};
ghost use Rattle.net_assembler.specs.AssemblerLaws.{CutsRun};
ghost use Rattle.net_assembler.specs.RunLists.{IsCanonical, set_of};
ghost use Rattle.net_ring.specs.Width.{shortfall};
ghost use Rattle.net_receiver.specs.Scoreboards.{Forgets, HasNoRoom, IsEnd, IsNextHole, IsReport, IsSoundBoard, beyond};
ghost use Rattle.net_receiver.specs.Scoreboards.{reported_by, IsLossBound};
ghost use Rattle.net_receiver.specs.NewHeads.{scoreboard_head};

use crate::held_runs::{HeldRunIter, were_at_most};
use net_assembler::assembler::{Turns, laws};
use net_assembler::{AssemblerHead, Run};
use net_ring::width::most;
use thiserror::Error;

/// Why a SACK block was refused. Nothing has changed then.
///
/// ```
/// use net_base::scoreboard::{ReportError, Scoreboard};
///
/// let mut scoreboard = Scoreboard::<1>::empty();
/// assert_eq!(scoreboard.report(5..9, 8), Err(ReportError::NoBlock)); // only 8 bytes were sent
/// assert_eq!(scoreboard.report(5..9, 20), Ok(()));
/// assert_eq!(scoreboard.report(12..14, 20), Err(ReportError::TooManyHoles));
/// ```
#[derive(Debug, Clone, Copy, PartialEq, Eq, Hash, Drop, Error)]
pub enum ReportError {
    /// The block is empty, ends above what was sent, or ends too far above the first position that wasn't reported.
    /// Ignore it.
    #[error("the block isn't of what was sent: ignore it")]
    NoBlock,
    /// The block would make more ranges than there is room for. Ignore it: its bytes are sent again.
    #[error("too many holes: ignore the block")]
    TooManyHoles,
}

/// What a scoreboard has besides its runs.
///
/// Positions are absolute. `base` is the first one that wasn't reported: all below it were, most often
/// as acknowledged. `reported` and the runs, which the caller keeps, are an assembler of the positions
/// beyond, counted from `base`. The slice's length is the most runs that are stored. In contracts
/// `reported_by` is the set of the reported positions.
///
/// A scoreboard is *sound* with runs if its assembler is, if `base` isn't reported, and if each end is a number of 64
/// bits, as `is_sound` tests. smoltcp has no such type: its TCP socket sends again from the first unacknowledged
/// position on.
#[repr(C)]
#[derive(Debug, Clone, Copy)]
pub struct ScoreboardHead {
    /// The first position that wasn't reported.
    pub base: u64,
    /// The positions beyond that were, counted from `base`: the head of an assembler.
    pub reported: AssemblerHead,
}

impl ScoreboardHead {
    /// Returns a scoreboard of a stream that begins at position `first`, to which nothing was reported,
    /// whatever its runs. All positions below `first` count as reported.
    #[must_use]
    pub const fn new_at(first: u64) -> Self
        ensures sound { (runs : List (ℕ × ℕ)) → IsSoundBoard result runs }
        ensures empty { (runs : List (ℕ × ℕ)) →
            reported_by result runs ≡ with_range nothing 0 first }
        ensures numbers { result ≡ scoreboard_head first }
    {
        ScoreboardHead {
            base: first,
            reported: AssemblerHead::new(),
        }
    }

    /// Returns a scoreboard to which nothing was reported, whatever its runs: `new_at` with 0.
    pub(crate) const fn new() -> Self
        ensures sound { (runs : List (ℕ × ℕ)) → IsSoundBoard result runs }
        ensures empty { (runs : List (ℕ × ℕ)) → reported_by result runs ≡ nothing }
        ensures numbers { result ≡ scoreboard_head 0 }
    {
        ScoreboardHead::new_at(0)
    }

    /// Begins again: a scoreboard of a stream that begins at position `first`, as `new_at` returns it.
    // Proof: A function of its own, since the prover can't put a new head beside an array of runs in its caller.
    pub(crate) fn reset_at(&mut self, first: u64)
        ensures sound { (runs : List (ℕ × ℕ)) → IsSoundBoard self.new runs }
        ensures empty { (runs : List (ℕ × ℕ)) →
            reported_by self.new runs ≡ with_range nothing 0 first }
        ensures numbers { self.new ≡ scoreboard_head first }
    {
        *self = ScoreboardHead::new_at(first);
    }

    /// Returns whether the scoreboard is sound with these runs, for any numbers in both: `reported`
    /// and they are those of an assembler, `base` isn't reported, and each end fits 64 bits. It
    /// looks at each used run.
    pub fn is_sound(&self, runs: &[Run]) -> bool
        ensures { IsTrue result ↔ IsSoundBoard self.now runs.now }
    {
        if !self.reported.is_sound(runs) {
            return false;
        }
        if self.reported.peek_front(runs) != 0 {
            return false;
        }
        self.reported.end(runs) as u64 <= u64::MAX - self.base
    }

    /// Reports the positions from `start` on and below `end`, as a SACK block of an acknowledgement
    /// does. Blocks may overlap. Positions below `base` are known already. `sent` is the position
    /// after the last byte that was ever sent.
    ///
    /// Returns `NoBlock`, and changes nothing, if no such block can be: `start` isn't below `end`,
    /// `end` is above `sent`, or the block begins beyond `base` and ends 2^32 or more above it,
    /// while TCP's numbers have 32 bits.
    ///
    /// Returns `TooManyHoles`, and changes nothing, if such a block can be, it begins beyond
    /// `base`, and there would be more runs than the slice has elements. Then the block isn't
    /// known, and its bytes are sent again.
    ///
    /// # Requires
    ///
    /// The scoreboard is sound with the runs.
    #[inline]
    pub fn report(
        &mut self,
        runs: &mut [Run],
        start: u64,
        end: u64,
        sent: u64,
    ) -> Result<(), ReportError>
        requires { IsSoundBoard self.old runs.old }
        ensures sound { IsSoundBoard self.new runs.new }
        ensures no_block { (result ≡ Err ReportError.NoBlock)
            ↔ (IsReport self.old.base sent start end → ⊥) }
        ensures too_many { (result ≡ Err ReportError.TooManyHoles)
            ↔ (IsReport self.old.base sent start end
            × HasNoRoom (length runs.old) (reported_by self.old runs.old) start (end - start)) }
        ensures ok { OnOk result (reported_by self.new runs.new
            ≡ with_range (reported_by self.old runs.old) start (end - start)) }
        ensures unchanged { OnErr result ((self.new ≡ self.old) × (runs.new ≡ runs.old)) }
        ensures canonical { IsCanonical self.old.reported → IsCanonical self.new.reported }
    {
        if !is_report(self.base, start, end, sent) {
            return Err(ReportError::NoBlock);
        }
        if start <= self.base {
            self.acknowledge(runs, end);
            return Ok(());
        }
        prove!(end - self.base <= most() as u64, "in any `usize`");
        prove!(start - self.base <= most() as u64, "in any `usize`");
        prove!(end - start <= most() as u64, "in any `usize`");
        let offset = (start - self.base) as usize;
        let size = (end - start) as usize;
        match self.reported.add(runs, offset, size) {
            Ok(()) => Ok(()),
            Err(_) => Err(ReportError::TooManyHoles),
        }
    }

    /// Reports all positions below `next`, whatever the number of runs.
    ///
    /// # Requires
    ///
    /// The scoreboard is sound with the runs.
    #[inline]
    pub fn acknowledge(&mut self, runs: &mut [Run], next: u64)
        requires sound { IsSoundBoard self.old runs.old }
        ensures sound { IsSoundBoard self.new runs.new }
        ensures set { reported_by self.new runs.new
            ≡ with_range (reported_by self.old runs.old) 0 next }
        ensures canonical { IsCanonical self.old.reported → IsCanonical self.new.reported }
    {
        if next <= self.base {
            return;
        }
        // All offsets are below the greatest `usize`.
        let count = (next - self.base).min(most() as u64) as usize;
        self.reported.shift(runs, count);
        let front = self.reported.remove_front(runs);
        self.base = next + front as u64;
    }

    /// Copies the runs to the beginning of others, with which the head then is sound as it was with these.
    ///
    /// # Requires
    ///
    /// The scoreboard is sound with the runs, and the others are no fewer.
    pub(crate) fn move_runs(&self, runs: &[Run], more: &mut [Run])
        requires sound { IsSoundBoard self.now runs.now }
        requires more { length runs.now ≤ length more.old }
        ensures sound { IsSoundBoard self.now more.new }
        ensures set { reported_by self.now more.new ≡ reported_by self.now runs.now }
    {
        let used = self.reported.used;
        more[..used].copy_from_slice(&runs[..used]);
    }

    /// Forgets the positions from `start` on and below `end`.
    ///
    /// If that would cut a run in two, and there are as many runs as the slice has elements, the shorter part of it is
    /// forgotten too; of the positions below `base`, those at or after `end`. If `start` is below `base`, and a
    /// position 2^32 or more above it was reported, all from `start` on are forgotten.
    ///
    /// # Requires
    ///
    /// The scoreboard is sound with the runs.
    pub(crate) fn forget(&mut self, runs: &mut [Run], start: u64, end: u64)
        requires { IsSoundBoard self.old runs.old }
        ensures sound { IsSoundBoard self.new runs.new }
        ensures forgets { Forgets self.old.reported.used (length runs.old)
            (reported_by self.old runs.old) start end (reported_by self.new runs.new) }
        ensures none { end ≤ start → (self.new ≡ self.old) × (runs.new ≡ runs.old) }
        ensures canonical { IsCanonical self.old.reported → IsCanonical self.new.reported }
    {
        if start >= end {
            return;
        }
        if start < self.base {
            self.forget_below(runs, start, end);
        } else {
            self.forget_beyond(runs, start, end);
        }
    }

    /// Forgets a range that begins below `base`.
    fn forget_below(&mut self, runs: &mut [Run], start: u64, end: u64)
        requires sound { IsSoundBoard self.old runs.old }
        requires some { start < end }
        requires below { start < self.old.base }
        ensures sound { IsSoundBoard self.new runs.new }
        ensures forgets { Forgets self.old.reported.used (length runs.old)
            (reported_by self.old runs.old) start end (reported_by self.new runs.new) }
        ensures canonical { IsCanonical self.old.reported → IsCanonical self.new.reported }
    {
        let base = self.base;
        let to = self.offset_of(end);
        self.reported.remove_below(runs, to);
        if base - start + self.reported.end(runs) as u64 > u64::from(u32::MAX) {
            *self = ScoreboardHead::new_at(start);
            return;
        }
        self.base = start;
        prove!(base - start <= most() as u64, "in any `usize`");
        self.reported.raise(runs, (base - start) as usize);
        if end < base {
            prove!(end - start <= most() as u64, "in any `usize`");
            prove!(base - end <= most() as u64, "in any `usize`");
            // Without room for one more run these are forgotten too.
            let _ = self
                .reported
                .add(runs, (end - start) as usize, (base - end) as usize);
        }
    }

    /// Forgets a range that begins at `base` or beyond it.
    fn forget_beyond(&mut self, runs: &mut [Run], start: u64, end: u64)
        requires sound { IsSoundBoard self.old runs.old }
        requires some { start < end }
        requires beyond { self.old.base ≤ start }
        ensures sound { IsSoundBoard self.new runs.new }
        ensures forgets { Forgets self.old.reported.used (length runs.old)
            (reported_by self.old runs.old) start end (reported_by self.new runs.new) }
        ensures canonical { IsCanonical self.old.reported → IsCanonical self.new.reported }
    {
        let from = self.offset_of(start);
        let to = self.offset_of(end);
        if self.reported.remove_range(runs, from, to).is_ok() {
            return;
        }
        // It is within a run, and there is no room for another: one part of the run goes with it.
        let (low, high) = self.part_of_run(runs, from, to);
        let _ = self.reported.remove_range(runs, low, high);
    }

    /// Returns a range of offsets with what is before it in its run, or with what is after it, whichever is less.
    /// Without that the run isn't cut in two.
    fn part_of_run(&self, runs: &[Run], from: usize, to: usize) -> (usize, usize)
        requires sound { IsSoundBoard self.now runs.now }
        requires order { from ≤ to }
        ensures low { result.0 ≤ from }
        ensures high { to ≤ result.1 }
        ensures whole { CutsRun (set_of self.now.reported runs.now)
            result.0 (result.1 - result.0) → ⊥ }
    {
        let last = self.reported.first_missing(runs, to);
        let by = self.reported.runs_by(runs, from);
        match self.reported.run_at(runs, by.saturating_sub(1)) {
            Some((first, _)) => {
                if first > from || from - first >= last - to {
                    return (from, last);
                }
                (first, to)
            }
            None => (from, last),
        }
    }

    /// Returns the first position that wasn't reported.
    #[must_use]
    pub fn first_unreported(&self) -> u64
        ensures value { result ≡ self.now.base }
        ensures state { (runs : List (ℕ × ℕ)) → IsSoundBoard self.now runs →
            result ≡ front (reported_by self.now runs) }
    {
        self.base
    }

    /// Returns whether `pos` was reported.
    ///
    /// # Requires
    ///
    /// The scoreboard is sound with the runs.
    #[inline]
    #[must_use]
    pub fn contains(&self, runs: &[Run], pos: u64) -> bool
        requires { IsSoundBoard self.now runs.now }
        ensures { result ≡ contains (reported_by self.now runs.now) pos }
    {
        if pos < self.base {
            return true;
        }
        let offset = pos - self.base;
        if offset > most() as u64 {
            return false;
        }
        prove!(offset <= most() as u64, "in any `usize`");
        self.reported.contains(runs, offset as usize)
    }

    /// Returns the runs beyond the first position that wasn't reported, as absolute (start, end), the end
    /// not included, in rising order.
    ///
    /// # Requires
    ///
    /// The scoreboard is sound with the runs.
    pub(crate) fn reported<'a>(&self, runs: &'a [Run]) -> HeldRunIter<'a>
        requires { IsSoundBoard self.now runs.now }
        ensures runs { result ≡ maximal_runs (beyond (reported_by self.now runs.now)) }
        ensures bound { length result ≤ length runs.now }
    {
        laws::maximal_runs();
        HeldRunIter::over(self.reported.iter_data(runs), self.base)
    }

    /// Returns the position after the last one that was reported; 0 if none was.
    ///
    /// # Requires
    ///
    /// The scoreboard is sound with the runs.
    #[inline]
    #[must_use]
    pub fn highest_reported(&self, runs: &[Run]) -> u64
        requires { IsSoundBoard self.now runs.now }
        ensures { IsEnd (reported_by self.now runs.now) result }
    {
        self.base + self.reported.end(runs) as u64
    }

    /// Returns the first position from `pos` on that wasn't reported.
    ///
    /// # Requires
    ///
    /// The scoreboard is sound with the runs.
    #[inline]
    #[must_use]
    #[tactic(auto, using(crate::proofs::BoardSearches::searches))]
    pub fn first_missing(&self, runs: &[Run], pos: u64) -> u64
        requires { IsSoundBoard self.now runs.now }
        ensures { result ≡ first_missing (reported_by self.now runs.now) pos }
    {
        let from = pos.max(self.base);
        let missing = self.reported.first_missing(runs, self.offset_of(from));
        from.max(self.base + missing as u64)
    }

    /// Returns how many positions from `start` on and below `end` weren't reported. It looks only at runs that start
    /// below `end` and at the one before them, which it finds by a search.
    ///
    /// # Requires
    ///
    /// The scoreboard is sound with the runs.
    #[inline]
    #[must_use]
    #[tactic(auto, using(crate::proofs::BoardSearches::searches))]
    pub fn missing_between(&self, runs: &[Run], start: u64, end: u64) -> u64
        requires { IsSoundBoard self.now runs.now }
        ensures count { result ≡ missing_count (reported_by self.now runs.now) start (end - start) }
        ensures few { result ≤ end - start }
    {
        let from = start.max(self.base);
        let reported = self
            .reported
            .count_between(runs, self.offset_of(from), self.offset_of(end));
        end.saturating_sub(from) - reported as u64
    }

    /// Returns the offset of a position, 0 if it is below `base`, and the greatest `usize` if the offset is above
    /// that: no position is reported there.
    #[inline(always)]
    fn offset_of(&self, pos: u64) -> usize
        ensures { result ≡ min (pos - self.now.base) (2 ^ 64 - 1 - shortfall) }
    {
        pos.saturating_sub(self.base).min(most() as u64) as usize
    }

    /// Returns the position below which all that wasn't reported is lost, by the rule of RFC 6675,
    /// section 4: from it on `duplicates` runs were reported (3 in TCP; 0 counts as 1), or more
    /// bytes than `duplicates - 1` segments of `segment_size` bytes have. It is the start of a run,
    /// the last one of which this is so, or 0 if nothing is lost. A run counts as above a position
    /// if it begins above it; of a position that wasn't reported that is the RFC's rule exactly, by
    /// law `losses` (`docs/laws.md`).
    ///
    /// # Requires
    ///
    /// The scoreboard is sound with the runs.
    #[inline]
    #[must_use]
    pub fn lost_below(&self, runs: &[Run], duplicates: usize, segment_size: usize) -> u64
        requires { IsSoundBoard self.now runs.now }
        ensures { IsLossBound duplicates segment_size (reported_by self.now runs.now) result }
    {
        let most = (duplicates.saturating_sub(1) as u64).saturating_mul(segment_size as u64);
        let used = self.reported.used;
        let enough = duplicates.max(1);
        let mut turns = Turns::new();
        let mut bytes = 0;
        // From the last run down, and no more of them than are enough.
        for above in 0..used.min(enough) {
            turns.look();
            let Some((start, end)) = self.reported.run_at(runs, used - 1 - above) else {
                return 0;
            };
            bytes += (end - start) as u64;
            prove!(above + 1 <= enough, "in any `usize`");
            if above + 1 == enough || bytes > most {
                were_at_most(&turns, enough);
                return self.base + start as u64;
            }
        }
        were_at_most(&turns, enough);
        0
    }

    /// Returns the next range that wasn't reported, as a start and an end: it begins at the first
    /// position from `pos` on that wasn't reported, and ends at the next one that was, or at
    /// `limit`. If there is none below `limit`, both are `limit`. Most of it may be in flight:
    /// `lost_below` gives the limit of what is lost.
    ///
    /// # Requires
    ///
    /// The scoreboard is sound with the runs.
    #[must_use]
    #[tactic(auto, using(crate::proofs::BoardSearches::searches))]
    pub fn next_hole(&self, runs: &[Run], pos: u64, limit: u64) -> (u64, u64)
        requires { IsSoundBoard self.now runs.now }
        ensures { IsNextHole (reported_by self.now runs.now) pos limit result.0 result.1 }
    {
        let from = pos.max(self.base);
        let (start, end) = self.reported.next_hole(runs, self.offset_of(from));
        let start = from.max(self.base + start as u64).min(limit);
        match end {
            Some(end) => (start, limit.min(self.base + end as u64)),
            None => (start, limit),
        }
    }
}

/// Returns whether a SACK block can be right: it has a position, and none from `sent` on; and if it
/// begins beyond `first`, the first position that wasn't reported, it ends less than 2^32 above it.
fn is_report(first: u64, start: u64, end: u64, sent: u64) -> bool
    ensures { IsTrue result ↔ IsReport first sent start end }
{
    start < end && end <= sent && (start <= first || end - first <= u64::from(u32::MAX))
}

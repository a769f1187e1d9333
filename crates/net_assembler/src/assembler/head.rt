//! An assembler in parts: a head of two numbers, and runs that are kept elsewhere.
//!
//! What is inline, and what is a call of its own, was chosen by counted instructions and bytes.

// Why: Pairs (start, end) are counted from where the first run starts, `first_start`. So if data that comes next
// arrives while runs wait, `first_start` is lowered, and no pair is touched.
//
// A head has no index of its first run, so removing that moves all others. With an index each head would have a word
// more, in C too, and stored numbers would wrap, so that two heads could not be compared as they are. With 4 runs
// little is saved.
//
// A range that starts in the last run or after it is added (`add_last`) before the rule is called (`join_apart`):
// the rule saves registers at its entry, which costs as much as these frequent cases do.
//
// The first run that a range meets is found by halves, the last in turn (`runs_met`). Mostly the range ends before
// the second of them, and one look is enough. Each run that is passed is taken into the range, so these looks and
// the runs that move down are together at most as many as the runs: both count as moves, and the bound on
// `add_counted` holds, and on `add`, which is one call of it.

#![tactic(auto, using(crate::proofs::SoundHeads::heads))]

ghost use Rattle.std.specs.Prelude.{◌≡◌, ℕ, List, ◌+◌, ◌-◌, ◌*◌, ◌<◌, ◌≤◌, ◌++◌, ◌∷◌, ◌^◌, ◌↔◌, drop, get_or, max};
ghost use Rattle.std.specs.Prelude.{length, take, IsFalse, IsTrue, IfSome, MatchOption, MatchResult, None, OnErr};
ghost use Rattle.net_assembler.specs.Assembler.{MakesTooManyRuns};
ghost use Rattle.std.specs.List.{slice_get};
ghost use Rattle.net_assembler.specs.AssemblerLaws.{Adds, AddsThenRemovesFront, CutsRun, Removes, RemovesFront};
ghost use Rattle.net_assembler.specs.Heads.{AddsInPlace, FrontEnds, IsCut, StartsInRuns, StartsLast};
ghost use Rattle.net_assembler.specs.Positions.{EndsHole, IsEnd, RangeFits, are_same, contains, first_missing, front};
ghost use Rattle.net_assembler.specs.Positions.{holes, holes_before, maximal_runs, nothing, present_count};
ghost use Rattle.net_assembler.specs.Positions.{runs as run_count, shift_down, shift_up, without_range};
ghost use Rattle.net_assembler.specs.RunLists.{AreRuns, AreUsize, FitsFrom, HasSoundRuns, IsCanonical, IsRising};
ghost use Rattle.net_assembler.specs.RunLists.{SplitsRuns, end_at, runs_of, runs_shifted_down, runs_wrapped, set_of};
ghost use Rattle.net_assembler.specs.RunLists.{set_of_runs, start_at, used_runs, wrapped_run};
ghost use Rattle.net_assembler.specs.Turns.{TurnsWithin, binary_digits};
ghost use Rattle.net_ring.specs.Width.{IsUsize};

use super::run::{Run, end_of, start_of};
use super::turns::Turns;
use super::{HoleIter, RunIter, TooManyHolesError};
use net_ring::width::most;

/// What an assembler has besides its runs: how many there are, and where the first of them starts.
///
/// It serves callers who keep the runs of an assembler elsewhere, as in the memory of a program in
/// C. Each call takes them as a slice, whose length is the most runs that the assembler may have.
/// The first `used` elements are its runs: they rise, with a hole between neighbours, and the
/// others aren't read. Position p is stored as p - `first_start`, which is where the first run
/// starts: if positions below it are removed, only that changes. With no run it has no meaning.
///
/// A head is canonical (`IsCanonical`) if both numbers are 0 where there is no run. `new` and `clear`
/// make it so, and each call leaves it so.
///
/// A head is sound with runs if they are so, and each end is a `usize` also where it is
/// counted from position 0. In contracts that is `HasSoundRuns`, and `set_of` is the set of present
/// positions. `is_sound` tests it. smoltcp has no such type: its assembler is one value.
#[repr(C)]
#[derive(Debug, Clone, Copy)]
pub struct AssemblerHead {
    /// How many runs are stored.
    pub used: usize,
    /// The position at which the first run starts. Where there is none it has no meaning, and is 0 if the head is
    /// canonical.
    pub first_start: usize,
}

impl AssemblerHead {
    /// Returns the head of an assembler with no position, whatever its runs.
    pub const fn new() -> Self
        ensures no_run { result.used ≡ 0 }
        ensures no_start { result.first_start ≡ 0 }
        ensures sound { (runs : List (ℕ × ℕ)) → HasSoundRuns result runs }
        ensures empty { (runs : List (ℕ × ℕ)) → set_of result runs ≡ nothing }
    {
        AssemblerHead {
            used: 0,
            first_start: 0,
        }
    }

    /// Returns whether the head is sound with these runs, for any numbers in both: there are `used`
    /// runs, which rise, with a hole between neighbours; the first starts at 0; and each end is a
    /// `usize` with `first_start` added, too. It looks at each used run.
    pub fn is_sound(&self, runs: &[Run]) -> bool
        ensures { IsTrue result ↔ HasSoundRuns self.now runs.now }
    {
        if self.used > runs.len() {
            return false;
        }
        if self.used == 0 {
            return true;
        }
        let first_end = end_of(runs, 0);
        start_of(runs, 0) == 0
            && first_end > 0
            && self.first_start <= most()
            && first_end <= most() - self.first_start
            && rise_after(&runs[1..self.used], first_end, self.first_start)
    }

    /// Removes every position, so that the head is that of `new`. It need not be sound before.
    pub(crate) fn clear(&mut self)
        ensures no_start { self.new.first_start ≡ 0 }
        ensures sound { (runs : List (ℕ × ℕ)) → HasSoundRuns self.new runs }
        ensures empty { (runs : List (ℕ × ℕ)) → set_of self.new runs ≡ nothing }
    {
        *self = AssemblerHead::new();
    }

    /// Returns the length of the run at position 0, or 0 if position 0 is missing.
    ///
    /// # Requires
    ///
    /// The head is sound with the runs, as `is_sound` tests.
    #[inline(always)]
    pub fn peek_front(&self, runs: &[Run]) -> usize
        requires { HasSoundRuns self.now runs.now }
        ensures { result ≡ front (set_of self.now runs.now) }
    {
        if self.first_start != 0 {
            return 0;
        }
        if self.used == 0 { 0 } else { end_of(runs, 0) }
    }

    /// Returns whether no position is present.
    #[inline]
    pub fn is_empty(&self) -> bool
        ensures used { IsTrue result ↔ (self.now.used ≡ 0) }
        ensures empty { (runs : List (ℕ × ℕ)) → HasSoundRuns self.now runs →
            (IsTrue result ↔ (set_of self.now runs ≡ nothing)) }
    {
        self.used == 0
    }

    /// Returns how many maximal runs there are: `used`.
    #[inline]
    pub fn run_count(&self) -> usize
        ensures used { result ≡ self.now.used }
        ensures count { (runs : List (ℕ × ℕ)) → HasSoundRuns self.now runs →
            result ≡ run_count (set_of self.now runs) }
    {
        self.used
    }

    /// Returns whether `offset + size` fits `usize`, which all calls that add a range require.
    #[inline]
    pub fn fits(offset: usize, size: usize) -> bool
        ensures { IsTrue result ↔ RangeFits offset size }
    {
        offset <= most() && size <= most() - offset
    }

    /// Adds the positions from `offset` to `offset + size - 1`; none if `size` is 0. Ranges that
    /// touch form one run.
    ///
    /// Returns `TooManyHolesError`, and changes nothing, if there would be more runs than the slice
    /// has elements.
    ///
    /// # Requires
    ///
    /// The head is sound with the runs, as `is_sound` tests, and the range ends at a `usize`, as
    /// `fits` tests.
    #[inline(never)]
    pub fn add(
        &mut self,
        runs: &mut [Run],
        offset: usize,
        size: usize,
    ) -> Result<(), TooManyHolesError>
        requires sound { HasSoundRuns self.old runs.old }
        requires range { RangeFits offset size }
        ensures sound { HasSoundRuns self.new runs.new }
        ensures added { Adds (length runs.old) (set_of self.old runs.old) offset size
            result (set_of self.new runs.new) }
        ensures unchanged { OnErr result ((self.new ≡ self.old) × (runs.new ≡ runs.old)) }
        ensures canonical { IsCanonical self.old → IsCanonical self.new }
    {
        let mut turns = Turns::new();
        if self.starts_in_runs(runs, offset, size) {
            return self.join_apart(runs, offset, size, &mut turns);
        }
        self.add_last(runs, offset, size, &mut turns)
    }

    /// Adds a range as `add` does, with all of the rule inlined, and counts as `Assembler::add_counted` does.
    #[inline(always)]
    pub(crate) fn add_inlined(
        &mut self,
        runs: &mut [Run],
        offset: usize,
        size: usize,
        turns: &mut Turns,
    ) -> Result<(), TooManyHolesError>
        requires sound { HasSoundRuns self.old runs.old }
        requires range { RangeFits offset size }
        ensures sound { HasSoundRuns self.new runs.new }
        ensures added { Adds (length runs.old) (set_of self.old runs.old) offset size
            result (set_of self.new runs.new) }
        ensures unchanged { OnErr result ((self.new ≡ self.old) × (runs.new ≡ runs.old)) }
        ensures canonical { IsCanonical self.old → IsCanonical self.new }
        ensures turns { let n = length runs.old in
            TurnsWithin (2 * binary_digits n) n turns.old turns.new }
    {
        if self.starts_in_runs(runs, offset, size) {
            return self.join(runs, offset, size, turns);
        }
        self.add_last(runs, offset, size, turns)
    }

    /// Removes the run at position 0, counts all later positions from its end, and returns its
    /// length.
    ///
    /// If position 0 is missing it returns 0, and head and runs stay as they were.
    ///
    /// # Requires
    ///
    /// The head is sound with the runs, as `is_sound` tests.
    #[inline(always)]
    pub fn remove_front(&mut self, runs: &mut [Run]) -> usize
        requires { HasSoundRuns self.old runs.old }
        ensures sound { HasSoundRuns self.new runs.new }
        ensures removed { RemovesFront (length runs.old) (set_of self.old runs.old)
            result (set_of self.new runs.new) }
        ensures unchanged { result ≡ 0 → (self.new ≡ self.old) × (runs.new ≡ runs.old) }
        ensures fewer { 0 < result → run_count (set_of self.new runs.new) + 1
            ≡ run_count (set_of self.old runs.old) }
        ensures room { 0 < result → run_count (set_of self.new runs.new) < length runs.old }
        ensures canonical { IsCanonical self.old → IsCanonical self.new }
    {
        if self.first_start != 0 || self.used == 0 {
            return 0;
        }
        let size = end_of(runs, 0);
        self.drop_front(runs, 1, size);
        size
    }

    /// Removes the positions below `count`, and counts the others from there, so that position
    /// `count` is position 0 then. A run that `count` cuts keeps what is at or after it.
    ///
    /// # Requires
    ///
    /// The head is sound with the runs, as `is_sound` tests.
    pub fn shift(&mut self, runs: &mut [Run], count: usize)
        requires { HasSoundRuns self.old runs.old }
        ensures sound { HasSoundRuns self.new runs.new }
        ensures set { set_of self.new runs.new ≡ shift_down (set_of self.old runs.old) count }
        ensures fewer { run_count (set_of self.new runs.new)
            ≤ run_count (set_of self.old runs.old) }
        ensures canonical { IsCanonical self.old → IsCanonical self.new }
    {
        // All runs are at or after `count`.
        if count <= self.first_start {
            self.first_start -= count;
            return;
        }
        if self.used == 0 {
            return;
        }
        // The last run that starts by then is cut, or ends by then; those before it end by then.
        let by = count - self.first_start;
        let met = self.runs_by(runs, count);
        let last = met - 1;
        let end = end_of(runs, last);
        if end <= by {
            self.drop_front(runs, met, by);
            return;
        }
        runs[last] = Run { start: by, end };
        self.drop_front(runs, last, by);
    }

    /// Counts all positions from `by` positions before: position p becomes `by + p`.
    ///
    /// # Requires
    ///
    /// The head is sound with the runs, as `is_sound` tests, and each run ends at a `usize` then.
    pub fn raise(&mut self, runs: &[Run], by: usize)
        requires sound { HasSoundRuns self.old runs.now }
        requires fits { (p : ℕ) → IsTrue (contains (set_of self.old runs.now) p) →
            IsUsize (by + p + 1) }
        ensures sound { HasSoundRuns self.new runs.now }
        ensures set { set_of self.new runs.now ≡ shift_up (set_of self.old runs.now) by }
        ensures used { self.new.used ≡ self.old.used }
        ensures canonical { IsCanonical self.old → IsCanonical self.new }
    {
        if self.used > 0 {
            let start = self.first_start + by;
            prove!(start <= most(), "in any `usize`");
            self.first_start = start;
        }
    }

    /// Removes the positions below `end`.
    ///
    /// # Requires
    ///
    /// The head is sound with the runs, as `is_sound` tests.
    pub fn remove_below(&mut self, runs: &mut [Run], end: usize)
        requires { HasSoundRuns self.old runs.old }
        ensures sound { HasSoundRuns self.new runs.new }
        ensures set { set_of self.new runs.new ≡ without_range (set_of self.old runs.old) 0 end }
        ensures fewer { self.new.used ≤ self.old.used }
        ensures canonical { IsCanonical self.old → IsCanonical self.new }
    {
        self.shift(runs, end);
        self.raise(runs, end);
    }

    /// Removes the positions from `start` on and below `end`, which cuts one run in two, or cuts the runs at both
    /// ends, and takes out those between them. It searches once, and moves the later runs once.
    ///
    /// Returns `TooManyHolesError`, and changes nothing, if one run is cut in two and there are as many runs as the
    /// slice has elements.
    ///
    /// # Requires
    ///
    /// The head is sound with the runs, as `is_sound` tests.
    pub fn remove_range(
        &mut self,
        runs: &mut [Run],
        start: usize,
        end: usize,
    ) -> Result<(), TooManyHolesError>
        requires { HasSoundRuns self.old runs.old }
        ensures sound { HasSoundRuns self.new runs.new }
        ensures removed { Removes (length runs.old) (set_of self.old runs.old) start (end - start)
            result (set_of self.new runs.new) }
        ensures unchanged { OnErr result ((self.new ≡ self.old) × (runs.new ≡ runs.old)) }
        ensures canonical { IsCanonical self.old → IsCanonical self.new }
    {
        if start >= end {
            return Ok(());
        }
        if self.used == 0 {
            return Ok(());
        }
        if start <= self.first_start {
            self.remove_below(runs, end);
            return Ok(());
        }
        let from = start - self.first_start;
        let to = end - self.first_start;
        let Some(used) = cut(runs, self.used, from, to) else {
            return Err(TooManyHolesError);
        };
        self.used = used;
        Ok(())
    }

    /// Adds the positions from `offset` to `offset + size - 1`, and then removes the run at
    /// position 0, returns its length, and counts all later positions from its end. If position 0
    /// is missing, it removes nothing, and the length is 0.
    ///
    /// Returns `TooManyHolesError`, and changes nothing, if `offset` isn't 0 and there would be
    /// more runs than the slice has elements.
    ///
    /// # Requires
    ///
    /// The head is sound with the runs, as `is_sound` tests, and the range ends at a `usize`, as
    /// `fits` tests.
    #[inline(always)]
    pub fn add_then_remove_front(
        &mut self,
        runs: &mut [Run],
        offset: usize,
        size: usize,
    ) -> Result<usize, TooManyHolesError>
        requires sound { HasSoundRuns self.old runs.old }
        requires range { RangeFits offset size }
        ensures sound { HasSoundRuns self.new runs.new }
        ensures both { AddsThenRemovesFront (length runs.old) (set_of self.old runs.old)
            offset size result (set_of self.new runs.new) }
        ensures unchanged { OnErr result ((self.new ≡ self.old) × (runs.new ≡ runs.old)) }
        ensures more { run_count (set_of self.new runs.new)
            ≤ run_count (set_of self.old runs.old) + 1 }
        ensures canonical { IsCanonical self.old → IsCanonical self.new }
    {
        if offset == 0 {
            //  0 |=== range ===|                           nothing waits, the range is the front
            if self.used == 0 {
                return Ok(size);
            }
            //  0 |=== range ===|    |--- first ---|      the range is the front, the runs remain
            if size < self.first_start {
                self.first_start -= size;
                return Ok(size);
            }
        }
        let end = self.reach_front(runs, offset, size)?;
        if end == 0 {
            return Ok(0);
        }
        let front = self.first_start + end;
        prove!(front <= most(), "in any `usize`");
        self.drop_front(runs, 1, end);
        Ok(front)
    }

    /// Returns the maximal runs as (start, end), the end not included, in rising order.
    ///
    /// # Requires
    ///
    /// The head is sound with the runs, as `is_sound` tests.
    #[inline]
    pub fn iter_data<'a>(&self, runs: &'a [Run]) -> RunIter<'a>
        requires { HasSoundRuns self.now runs.now }
        ensures runs { result ≡ maximal_runs (set_of self.now runs.now) }
        ensures bound { length result ≤ length runs.now }
    {
        RunIter::over(&runs[..self.used], self.first_start)
    }

    /// Returns the maximal run with number `k`, counted from 0 in rising order, as (start, end),
    /// the end not included; `None` exactly if there are no more than `k`.
    ///
    /// # Requires
    ///
    /// The head is sound with the runs, as `is_sound` tests.
    #[inline]
    pub fn run_at(&self, runs: &[Run], k: usize) -> Option<(usize, usize)>
        requires { HasSoundRuns self.now runs.now }
        ensures run { result ≡ slice_get (maximal_runs (set_of self.now runs.now)) k }
        ensures some { IfSome result (λ r. r.0 < r.1) }
    {
        if k < self.used {
            let start = self.first_start + start_of(runs, k);
            let end = self.first_start + end_of(runs, k);
            prove!(start <= most(), "in any `usize`");
            prove!(end <= most(), "in any `usize`");
            Some((start, end))
        } else {
            None
        }
    }

    /// Returns whether `position` is present.
    ///
    /// # Requires
    ///
    /// The head is sound with the runs, as `is_sound` tests.
    pub fn contains(&self, runs: &[Run], position: usize) -> bool
        requires { HasSoundRuns self.now runs.now }
        ensures { result ≡ contains (set_of self.now runs.now) position }
    {
        position < self.end_of_first(runs, self.runs_by(runs, position))
    }

    /// Returns how many maximal runs start at or before `position`. It looks at as many runs as the number of
    /// runs has binary digits.
    ///
    /// # Requires
    ///
    /// The head is sound with the runs, as `is_sound` tests.
    pub fn runs_by(&self, runs: &[Run], position: usize) -> usize
        requires { HasSoundRuns self.now runs.now }
        ensures { SplitsRuns (maximal_runs (set_of self.now runs.now)) position result }
    {
        if position < self.first_start {
            return 0;
        }
        let mut turns = Turns::new();
        let offset = position - self.first_start;
        let count = runs_starting_by(runs, self.used, offset, &mut turns);
        turns.were_a_search(runs);
        count
    }

    /// Returns the position after the last one that is present; 0 if none is.
    ///
    /// # Requires
    ///
    /// The head is sound with the runs, as `is_sound` tests.
    pub fn end(&self, runs: &[Run]) -> usize
        requires { HasSoundRuns self.now runs.now }
        ensures { IsEnd (set_of self.now runs.now) result }
    {
        self.end_of_first(runs, self.used)
    }

    /// Returns the first missing position from `position` on.
    ///
    /// # Requires
    ///
    /// The head is sound with the runs, as `is_sound` tests.
    pub fn first_missing(&self, runs: &[Run], position: usize) -> usize
        requires { HasSoundRuns self.now runs.now }
        ensures { result ≡ first_missing (set_of self.now runs.now) position }
    {
        position.max(self.end_of_first(runs, self.runs_by(runs, position)))
    }

    /// Returns the first missing position from `position` on, and the end of the missing range that begins
    /// there, the end not included: `None` if no later position is present.
    ///
    /// # Requires
    ///
    /// The head is sound with the runs, as `is_sound` tests.
    pub fn next_hole(&self, runs: &[Run], position: usize) -> (usize, Option<usize>)
        requires { HasSoundRuns self.now runs.now }
        ensures begins { result.0 ≡ first_missing (set_of self.now runs.now) position }
        ensures ends { EndsHole (set_of self.now runs.now) result.0 result.1 }
    {
        let count = self.runs_by(runs, position);
        let start = position.max(self.end_of_first(runs, count));
        if count == self.used {
            return (start, None);
        }
        let end = self.first_start + start_of(runs, count);
        prove!(end <= most(), "in any `usize`");
        (start, Some(end))
    }

    /// Returns how many positions from `start` on and below `end` are present. It looks at one run more than have
    /// some of them, at most, and finds the first of these as `runs_by` does.
    ///
    /// # Requires
    ///
    /// The head is sound with the runs, as `is_sound` tests.
    #[tactic(auto, using(crate::proofs::SoundHeads::heads, crate::proofs::Searches::counts))]
    pub fn count_between(&self, runs: &[Run], start: usize, end: usize) -> usize
        requires { HasSoundRuns self.now runs.now }
        ensures { result ≡ present_count (set_of self.now runs.now) start (end - start) }
    {
        let mut turns = Turns::new();
        let from = start.saturating_sub(self.first_start);
        let to = end.saturating_sub(self.first_start);
        let first = self.runs_by(runs, start).saturating_sub(1);
        let mut count = 0;
        for k in first..self.used {
            let start = start_of(runs, k);
            turns.step();
            if start >= to {
                turns.were_a_pass(runs);
                return count;
            }
            count += end_of(runs, k).min(to).saturating_sub(start.max(from));
            prove!(count <= most(), "in any `usize`");
        }
        turns.were_a_pass(runs);
        count
    }

    /// Returns where the last of the first `count` runs ends; 0 if `count` is 0.
    #[inline(always)]
    fn end_of_first(&self, runs: &[Run], count: usize) -> usize
        requires sound { HasSoundRuns self.now runs.now }
        requires count { count ≤ self.now.used }
        ensures none { count ≡ 0 → result ≡ 0 }
        ensures some { 0 < count → result ≡ self.now.first_start + end_at runs.now (count - 1) }
    {
        if count == 0 {
            return 0;
        }
        let end = self.first_start + end_of(runs, count - 1);
        prove!(end <= most(), "in any `usize`");
        end
    }

    /// Returns the holes as (start, end), the end not included, in rising order.
    ///
    /// # Requires
    ///
    /// The head is sound with the runs, as `is_sound` tests.
    #[inline]
    pub(crate) fn holes<'a>(&self, runs: &'a [Run]) -> HoleIter<'a>
        requires { HasSoundRuns self.now runs.now }
        ensures holes { result ≡ holes (set_of self.now runs.now) }
        ensures bound { length result ≤ length runs.now }
    {
        let mut rest = self.iter_data(runs);
        if self.first_start > 0 {
            return HoleIter::before(rest, 0);
        }
        // No hole is before a run at 0, nor where there is no run.
        match rest.next() {
            Some((_, end)) => HoleIter::before(rest, end),
            None => HoleIter::before(rest, 0),
        }
    }

    /// Returns the hole with number `k`, counted from 0 in rising order, as (start, end), the end not included; `None`
    /// exactly if there are no more than `k`. Holes are the missing ranges below the end of the last run.
    ///
    /// # Requires
    ///
    /// The head is sound with the runs, as `is_sound` tests.
    pub fn hole_at(&self, runs: &[Run], k: usize) -> Option<(usize, usize)>
        requires { HasSoundRuns self.now runs.now }
        ensures hole { result ≡ slice_get (holes (set_of self.now runs.now)) k }
    {
        if self.first_start == 0 {
            return self.hole_after(runs, k);
        }
        if k > 0 {
            return self.hole_after(runs, k - 1);
        }
        if self.used > 0 {
            Some((0, self.first_start))
        } else {
            None
        }
    }

    /// Returns whether the same positions are present in another assembler.
    ///
    /// # Requires
    ///
    /// Both heads are sound with their runs, as `is_sound` tests.
    pub fn is_same(&self, runs: &[Run], other: &AssemblerHead, other_runs: &[Run]) -> bool
        requires sound { HasSoundRuns self.now runs.now }
        requires other_sound { HasSoundRuns other.now other_runs.now }
        ensures test { result ≡ are_same (set_of self.now runs.now)
            (set_of other.now other_runs.now) }
        ensures same { IsTrue result
            ↔ (set_of self.now runs.now ≡ set_of other.now other_runs.now) }
    {
        if self.used == 0 {
            return other.used == 0;
        }
        self.first_start == other.first_start && runs[..self.used] == other_runs[..other.used]
    }

    /// Returns whether a range that isn't empty starts before the last run.
    #[inline(always)]
    fn starts_in_runs(&self, runs: &[Run], offset: usize, size: usize) -> bool
        requires { HasSoundRuns self.now runs.now }
        ensures starts { IsTrue result → StartsInRuns self.now runs.now offset size }
        ensures last { IsFalse result → StartsLast self.now runs.now offset size }
    {
        match last_of(runs, self.used) {
            Some(last) => {
                let start = self.first_start + last.start;
                prove!(start <= most(), "in any `usize`");
                size > 0 && offset < start
            }
            None => false,
        }
    }

    /// Adds a range that is empty, or doesn't start before the last run. These cases are the most
    /// frequent, and take no loop, so no turn is counted.
    #[inline(always)]
    fn add_last(
        &mut self,
        runs: &mut [Run],
        offset: usize,
        size: usize,
        turns: &mut Turns,
    ) -> Result<(), TooManyHolesError>
        requires sound { HasSoundRuns self.old runs.old }
        requires range { RangeFits offset size }
        requires last { StartsLast self.old runs.old offset size }
        ensures { AddsInPlace self.old runs.old offset size result self.new runs.new
            turns.old turns.new }
    {
        if size == 0 {
            return Ok(());
        }
        let used = self.used;
        let Some(last) = last_of(runs, used) else {
            if runs.is_empty() {
                return Err(TooManyHolesError);
            }
            //  |=== range ===|                        it is the only run
            self.first_start = offset;
            self.used = 1;
            runs[0] = Run {
                start: 0,
                end: size,
            };
            return Ok(());
        };
        let start = offset - self.first_start;
        let end = start + size;
        prove!(end <= most(), "in any `usize`");
        if start <= last.end {
            //  |--- last ---|
            //       |=== range ===|                   that run grows
            runs[used - 1] = Run {
                start: last.start,
                end: last.end.max(end),
            };
            return Ok(());
        }
        //  |--- last ---|    |=== range ===|          it is a run of its own, the last
        if used >= runs.len() {
            return Err(TooManyHolesError);
        }
        runs[used] = Run { start, end };
        self.used = used + 1;
        prove!(self.used <= runs.len(), "in any `usize`");
        Ok(())
    }

    /// Joins a range as `join` does. It isn't marked inline: where several places call it, it is a call.
    fn join_apart(
        &mut self,
        runs: &mut [Run],
        offset: usize,
        size: usize,
        turns: &mut Turns,
    ) -> Result<(), TooManyHolesError>
        requires sound { HasSoundRuns self.old runs.old }
        requires range { RangeFits offset size }
        requires last { StartsInRuns self.old runs.old offset size }
        ensures { AddsInPlace self.old runs.old offset size result self.new runs.new
            turns.old turns.new }
    {
        self.join(runs, offset, size, turns)
    }

    /// Joins a range that isn't empty, and starts before the last run, with the runs.
    #[inline(always)]
    fn join(
        &mut self,
        runs: &mut [Run],
        offset: usize,
        size: usize,
        turns: &mut Turns,
    ) -> Result<(), TooManyHolesError>
        requires sound { HasSoundRuns self.old runs.old }
        requires range { RangeFits offset size }
        requires last { StartsInRuns self.old runs.old offset size }
        ensures { AddsInPlace self.old runs.old offset size result self.new runs.new
            turns.old turns.new }
    {
        let by = self.first_start.saturating_sub(offset);
        let start = offset.saturating_sub(self.first_start);
        let mut first = 0;
        let mut begin = by;
        if by == 0 {
            first = runs_ending_before(runs, self.used, start, turns);
            begin = start_of(runs, first);
        }
        self.join_here(runs, first, by, begin, start, size, turns)
    }

    /// Joins a range with the runs that it meets or touches. `first` is the first run that doesn't end
    /// before it. `start` is counted from `by` positions before the first run of all, and so are the
    /// runs then; `by` is 0 unless the range starts there. The first run starts at `begin`, counted so.
    ///
    /// One rule: the runs from `first` up to `next` become one with the range, and those after them
    /// move up or down, or stay.
    #[inline(always)]
    fn join_here(
        &mut self,
        runs: &mut [Run],
        first: usize,
        by: usize,
        begin: usize,
        start: usize,
        size: usize,
        turns: &mut Turns,
    ) -> Result<(), TooManyHolesError>
        requires sound { HasSoundRuns self.old runs.old }
        requires first { first < self.old.used }
        requires before { (k : ℕ) → k < first → end_at runs.old k < start }
        requires reached { start ≤ end_at runs.old first }
        requires by { by ≤ self.old.first_start }
        requires begin { begin ≡ by + start_at runs.old first }
        requires one_way { 0 < by → start ≡ 0 }
        requires size { 0 < size }
        requires fits { IsUsize (self.old.first_start - by + start + size) }
        ensures added { let offset = self.old.first_start - by + start in
            AddsInPlace self.old runs.old offset size result self.new runs.new turns.old turns.new }
        ensures looks { turns.new.0 ≤ turns.old.0 + binary_digits (length runs.old) }
    {
        let used = self.used;
        let end = start + size;
        prove!(end <= most(), "in any `usize`");
        prove!(first + 1 <= used, "in any `usize`");
        if end < begin {
            //  |--- first - 1 ---|    |=== range ===|    |--- first ---|      it is a run of its own
            if used >= runs.len() {
                return Err(TooManyHolesError);
            }
            self.used = used + 1;
            prove!(self.used <= runs.len(), "in any `usize`");
            self.first_start -= by;
            insert_run(runs, used, first, Run { start, end }, by, turns);
            return Ok(());
        }
        //  |--- first ---|  ..  |--- next - 1 ---|    |--- next ---|
        //         |====== range ======|                                    they become one with it
        let next = runs_met(runs, used, first + 1, end - by, turns);
        let last_end = by + end_of(runs, next - 1);
        prove!(last_end <= most(), "in any `usize`");
        runs[first] = Run {
            start: start.min(begin),
            end: end.max(last_end),
        };
        if by == 0 && next == first + 1 {
            return Ok(());
        }
        self.first_start -= by;
        self.used = if next == used {
            first + 1
        } else {
            take_out(runs, used, first + 1, next, by, turns)
        };
        Ok(())
    }

    /// Adds a range, if it can't be removed with the first run alone, and returns where the front ends then,
    /// counted as the runs are; 0 if there is none. A range at 0 reaches the first run.
    #[inline(always)]
    fn reach_front(
        &mut self,
        runs: &mut [Run],
        offset: usize,
        size: usize,
    ) -> Result<usize, TooManyHolesError>
        requires sound { HasSoundRuns self.old runs.old }
        requires range { RangeFits offset size }
        requires some { offset ≡ 0 → 0 < self.old.used }
        requires reached { offset ≡ 0 → self.old.first_start ≤ size }
        ensures front { MatchResult result
            (λ end. FrontEnds self.old runs.old offset size self.new runs.new end)
            (λ _. (0 < offset) × MakesTooManyRuns (length runs.old)
            (set_of self.old runs.old) offset size) }
        ensures unchanged { OnErr result ((self.new ≡ self.old) × (runs.new ≡ runs.old)) }
        ensures canonical { IsCanonical self.old → IsCanonical self.new }
    {
        if offset == 0 {
            //  0 |=== range ===|
            //             |--- first ---|    |--- second ---|      both are the front, the others remain
            let end = self.end_with_first(runs, size);
            if end > 0 {
                return Ok(end);
            }
        }
        self.add(runs, offset, size)?;
        Ok(self.peek_front(runs))
    }

    /// Returns where the front ends, counted as the runs are, if a range of `size` positions at 0 reaches
    /// the first run and not the second; otherwise 0.
    #[inline(always)]
    fn end_with_first(&self, runs: &[Run], size: usize) -> usize
        requires sound { HasSoundRuns self.now runs.now }
        requires some { 0 < self.now.used }
        requires reached { self.now.first_start ≤ size }
        ensures end { 0 < result → result ≡ max (end_at runs.now 0) (size - self.now.first_start) }
        ensures second { 0 < result → 1 < self.now.used →
            size - self.now.first_start < start_at runs.now 1 }
    {
        let by = size - self.first_start;
        if self.used > 1 && start_of(runs, 1) <= by {
            return 0;
        }
        end_of(runs, 0).max(by)
    }

    /// Removes the first `count` runs and all positions below `end`, and counts the others from
    /// there. `end` is counted as the runs are.
    #[inline(always)]
    fn drop_front(&mut self, runs: &mut [Run], count: usize, end: usize)
        requires room { self.old.used ≤ length runs.old }
        requires runs { AreRuns (used_runs self.old runs.old) }
        requires fits { FitsFrom self.old.first_start (used_runs self.old runs.old) }
        requires count { count ≤ self.old.used }
        requires after { count < self.old.used → end ≤ start_at runs.old count }
        ensures sound { HasSoundRuns self.new runs.new }
        ensures runs { runs_of self.new runs.new
            ≡ runs_shifted_down end (drop count (used_runs self.old runs.old)) }
        ensures number { self.new.used + count ≡ self.old.used }
        ensures canonical { IsCanonical self.new }
    {
        let used = self.used;
        let start = if count < used {
            start_of(runs, count)
        } else {
            end
        };
        self.first_start = start - end;
        let mut turns = Turns::new();
        // A sum that wraps lowers their numbers.
        self.used = take_out(runs, used, 0, count, start.wrapping_neg(), &mut turns);
        turns.were_a_pass(runs);
    }

    /// Returns the hole after the run `k`, if there is a run after it.
    #[inline(always)]
    fn hole_after(&self, runs: &[Run], k: usize) -> Option<(usize, usize)>
        requires { HasSoundRuns self.now runs.now }
        ensures hole { let rs = runs_of self.now runs.now in
            result ≡ slice_get (holes_before (end_at rs 0) (drop 1 rs)) k }
    {
        if self.used.saturating_sub(k) < 2 {
            return None;
        }
        let next = k + 1;
        prove!(next <= self.used, "in any `usize`");
        let start = self.first_start + end_of(runs, k);
        let end = self.first_start + start_of(runs, next);
        prove!(start <= most(), "in any `usize`");
        prove!(end <= most(), "in any `usize`");
        Some((start, end))
    }
}

/// Returns whether runs rise, with a hole before each of them, the first of these after `after`, and
/// end at a `usize` also where they are counted from `first_start`.
fn rise_after(runs: &[Run], after: usize, first_start: usize) -> bool
    requires { IsUsize first_start }
    ensures { IsTrue result ↔ (IsRising (after + 1) runs.now × FitsFrom first_start runs.now) }
{
    let last = most() - first_start;
    let mut end = after;
    for k in 0..runs.len() {
        let start = start_of(runs, k);
        if start <= end {
            return false;
        }
        end = end_of(runs, k);
        if end <= start || end > last {
            return false;
        }
    }
    true
}

/// Returns the last of the `used` runs, or `None` if there is none. A number below 0 wraps, so one
/// comparison tests both.
#[inline(always)]
fn last_of(runs: &[Run], used: usize) -> Option<Run>
    requires { used ≤ length runs.now }
    ensures { MatchOption result (used ≡ 0)
        (λ run. (0 < used) × (run ≡ get_or runs.now (used - 1) (0, 0))) }
{
    runs.get(used.wrapping_sub(1)).copied()
}

/// Returns whether the run with number `k` ends before `offset`. Here and in `starts_by` it is `get`
/// and not an index, since an index also has a call that panics.
#[inline(always)]
fn ends_before(runs: &[Run], k: usize, offset: usize) -> bool
    requires { k < length runs.now }
    ensures { IsTrue result ↔ (end_at runs.now k < offset) }
{
    match runs.get(k) {
        Some(run) => run.end < offset,
        None => false,
    }
}

/// Returns whether the run with number `k` starts at or before `end`.
#[inline(always)]
fn starts_by(runs: &[Run], k: usize, end: usize) -> bool
    requires { k < length runs.now }
    ensures { IsTrue result ↔ (start_at runs.now k ≤ end) }
{
    match runs.get(k) {
        Some(run) => run.start <= end,
        None => false,
    }
}

/// Returns how many of the `used` runs end before `offset`, which the last doesn't. The first is tested
/// by itself.
#[inline(always)]
fn runs_ending_before(runs: &[Run], used: usize, offset: usize, turns: &mut Turns) -> usize
    requires used { used ≤ length runs.now }
    requires runs { AreRuns (take used runs.now) }
    requires some { 0 < used }
    requires last { offset ≤ end_at runs.now (used - 1) }
    ensures within { result < used }
    ensures before { (k : ℕ) → k < result → end_at runs.now k < offset }
    ensures after { (k : ℕ) → result ≤ k → k < used → offset ≤ end_at runs.now k }
    ensures looks { (b : ℕ) → used < 2 ^ b → turns.new.0 ≤ turns.old.0 + b }
    ensures no_look_lost { turns.old.0 ≤ turns.new.0 }
    ensures moves { turns.new.1 ≡ turns.old.1 }
{
    if !ends_before(runs, 0, offset) {
        return 0;
    }
    let mut low = 1;
    let mut high = used - 1;
    while low < high {
        let middle = low + (high - low) / 2;
        prove!(middle < high, "in any `usize`");
        if ends_before(runs, middle, offset) {
            low = middle + 1;
        } else {
            high = middle;
        }
        prove!(low <= high, "in any `usize`");
        turns.look();
    }
    low
}

/// Returns how many of the `used` runs start at or before `end`.
#[inline(always)]
fn runs_starting_by(runs: &[Run], used: usize, end: usize, turns: &mut Turns) -> usize
    requires used { used ≤ length runs.now }
    requires runs { AreRuns (take used runs.now) }
    ensures within { result ≤ used }
    ensures before { (k : ℕ) → k < result → start_at runs.now k ≤ end }
    ensures after { (k : ℕ) → result ≤ k → k < used → end < start_at runs.now k }
    ensures looks { (b : ℕ) → used < 2 ^ b → turns.new.0 ≤ turns.old.0 + b }
    ensures moves { turns.new.1 ≡ turns.old.1 }
{
    let mut low = 0;
    let mut high = used;
    while low < high {
        let middle = low + (high - low) / 2;
        prove!(middle < high, "in any `usize`");
        if starts_by(runs, middle, end) {
            low = middle + 1;
        } else {
            high = middle;
        }
        prove!(low <= high, "in any `usize`");
        turns.look();
    }
    low
}

/// Returns how many of the `used` runs start at or before `end`, but at least `from`. It looks at the runs
/// in turn: mostly the first that it looks at starts after `end`. Each that starts by then is taken into a
/// range that ends there, which counts as a move.
#[inline(always)]
fn runs_met(runs: &[Run], used: usize, from: usize, end: usize, turns: &mut Turns) -> usize
    requires used { used ≤ length runs.now }
    requires runs { AreRuns (take used runs.now) }
    requires from { from ≤ used }
    ensures from { from ≤ result }
    ensures within { result ≤ used }
    ensures before { (k : ℕ) → from ≤ k → k < result → start_at runs.now k ≤ end }
    ensures after { (k : ℕ) → result ≤ k → k < used → end < start_at runs.now k }
    ensures looks { turns.new.0 ≡ turns.old.0 }
    ensures moves { turns.new.1 + from ≡ turns.old.1 + result }
{
    let mut next = from;
    while next < used && start_of(runs, next) <= end {
        next += 1;
        prove!(next <= used, "in any `usize`");
        turns.step();
    }
    next
}

/// Returns the run with number `k`, counted `by` higher, in numbers that wrap: so it is counted lower if `by` is the
/// negative of a number.
#[inline(always)]
fn wrapped(runs: &[Run], k: usize, by: usize) -> Run
    requires run { k < length runs.now }
    requires fits { let run = wrapped_run by (get_or runs.now k (0, 0)) in
        IsUsize run.0 × IsUsize run.1 }
    ensures { result ≡ wrapped_run by (get_or runs.now k (0, 0)) }
{
    let start = by.wrapping_add(start_of(runs, k));
    let end = by.wrapping_add(end_of(runs, k));
    prove!(start <= most(), "in any `usize`");
    prove!(end <= most(), "in any `usize`");
    Run { start, end }
}

/// Makes `entry` the run with number `at`, and moves the later ones up by one, each counted `by`
/// higher. There is room for one more.
#[inline(always)]
fn insert_run(runs: &mut [Run], used: usize, at: usize, entry: Run, by: usize, turns: &mut Turns)
    requires at { at ≤ used }
    requires room { used < length runs.old }
    requires fits { AreUsize (runs_wrapped by (drop at (take used runs.old))) }
    ensures runs { take (used + 1) runs.new
        ≡ take at runs.old ++ entry ∷ runs_wrapped by (drop at (take used runs.old)) }
    ensures looks { turns.new.0 ≡ turns.old.0 }
    ensures moves { turns.new.1 + at ≡ turns.old.1 + used }
{
    let mut k = used;
    while k > at {
        runs[k] = wrapped(runs, k - 1, by);
        k -= 1;
        turns.step();
    }
    runs[at] = entry;
}

/// Takes the positions from `from` on and below `to` out of the runs, after whose first position they start.
/// Returns how many runs there are then, or `None`, and changes nothing, if there is no room for one more.
fn cut(runs: &mut [Run], used: usize, from: usize, to: usize) -> Option<usize>
    requires used { used ≤ length runs.old }
    requires runs { AreRuns (take used runs.old) }
    requires fits { FitsFrom 0 (take used runs.old) }
    requires some { 0 < used }
    requires first { start_at runs.old 0 < from }
    requires order { from < to }
    ensures room { IfSome result (λ n. (0 < n) × (n ≤ length runs.new)) }
    ensures cut { IfSome result (λ n. IsCut (take used runs.old) from to (take n runs.new)) }
    ensures unchanged { result ≡ None → runs.new ≡ runs.old }
    ensures refused { (result ≡ None) ↔ (CutsRun (set_of_runs (take used runs.old)) from (to - from)
        × (length runs.old ≤ used)) }
{
    let mut turns = Turns::new();
    let met = runs_starting_by(runs, used, from - 1, &mut turns);
    let next = runs_met(runs, used, met, to - 1, &mut turns);
    let last_end = end_of(runs, next - 1);
    if last_end > to && next == met {
        //  |------------ met - 1 ------------|
        //         |=== range ===|                         one run becomes two
        if used >= runs.len() {
            return None;
        }
        runs[met - 1] = Run {
            start: start_of(runs, met - 1),
            end: from,
        };
        let rest = Run {
            start: to,
            end: last_end,
        };
        insert_run(runs, used, met, rest, 0, &mut turns);
        prove!(used + 1 <= runs.len(), "in any `usize`");
        return Some(used + 1);
    }
    //  |--- met - 1 ---|    ..    |--- next - 1 ---|
    //              |====== range ======|               those at its ends are cut, those between go
    runs[met - 1] = Run {
        start: start_of(runs, met - 1),
        end: end_of(runs, met - 1).min(from),
    };
    if last_end <= to {
        return Some(take_out(runs, used, met, next, 0, &mut turns));
    }
    runs[next - 1] = Run {
        start: to,
        end: last_end,
    };
    Some(take_out(runs, used, met, next - 1, 0, &mut turns))
}

/// Takes out the runs from `at` up to `from`, and moves the later ones down, each counted `by` higher. Returns how many
/// runs there are then. It isn't marked inline: where several places call it, it is a call.
fn take_out(
    runs: &mut [Run],
    used: usize,
    at: usize,
    from: usize,
    by: usize,
    turns: &mut Turns,
) -> usize
    requires at { at ≤ from }
    requires from { from ≤ used }
    requires used { used ≤ length runs.old }
    requires fits { AreUsize (runs_wrapped by (drop from (take used runs.old))) }
    ensures count { result + from ≡ at + used }
    ensures runs { let all = take used runs.old in
        take result runs.new ≡ take at runs.old ++ runs_wrapped by (drop from all) }
    ensures looks { turns.new.0 ≡ turns.old.0 }
    ensures moves { turns.new.1 + from ≡ turns.old.1 + used }
{
    let mut to = at;
    for k in from..used.min(runs.len()) {
        runs[to] = wrapped(runs, k, by);
        to += 1;
        prove!(to <= used, "in any `usize`");
        turns.step();
    }
    to
}

//! A scoreboard whose runs are in storage.
#![tactic(auto, using(crate::proofs::Scoreboards::scoreboards))]

ghost use Rattle.std.specs.Prelude.{◌≡◌, ◌↔◌, ◌-◌, ◌≤◌, length, Err, OnOk, OnErr};
ghost use Rattle.net_assembler.specs.Positions.{contains, front, missing_count, nothing, with_range};
ghost use Rattle.net_receiver.specs.{IsHole, HasNoRoom, IsReport, pair_of};
ghost use Rattle.net_receiver.specs.Scoreboards.{Forgets};
ghost use Rattle.net_receiver.specs.SendRanges.{runs_beyond};

use crate::scoreboard_head::{ReportError, ScoreboardHead};
use net_assembler::Run;
use net_ring::Storage;
use std::marker::Model;
use std::mem::replace;
use std::ops::Range;

/// A `Scoreboard` whose runs are in storage: how many it can have is a number at run time. It may be 0.
pub(crate) struct Board<R: Storage<Run>> {
    // Invariant: that of a `Scoreboard`.
    head: ScoreboardHead,
    runs: R,
}

/// Contracts see the set of the positions that were reported, and how many runs it can have.
impl<R: Storage<Run>> Model for Board<R> {
    ghost use Rattle.std.specs.Coded.{codes};
    ghost use Rattle.std.specs.Prelude.{length};
    ghost use Rattle.net_assembler.specs.RunLists.{IsCanonical};
    ghost use Rattle.net_receiver.specs.Scoreboards.{reported_by, IsSoundBoard};
    ghost use Rattle.net_receiver.specs.SendRanges.{Board, positions_code};

    ghost Value = { Board };

    ghost coded = { Prim.hlevel (codes, positions_code) };

    ghost view = { λ b. record {
      most_runs = length (R.elements b.runs);
      positions = reported_by b.head (R.elements b.runs);
    } };

    ghost invariant = { λ b. IsSoundBoard b.head (R.elements b.runs)
        × IsCanonical b.head.reported };
}

/// Written by hand, so that storage that isn't `Drop` can be used too.
impl<R: Storage<Run> + Drop> Drop for Board<R> {
    fn drop(self) {
        let Board { head: _, runs } = self;
        drop(runs);
    }
}

impl<R: Storage<Run>> Board<R> {
    /// Returns the scoreboard of a stream that begins at position `first`, to which nothing was reported.
    pub(crate) fn over_at(runs: R, first: u64) -> Self
        ensures runs { result.most_runs ≡ length (R.elements runs) }
        ensures set { result.positions ≡ with_range nothing 0 first }
    {
        Board {
            head: ScoreboardHead::new_at(first),
            runs,
        }
    }

    /// Returns the storage. What is in it can be any.
    pub(crate) fn into_storage(self) -> R
        ensures { length (R.elements result) ≡ self.most_runs }
    {
        let Board { head: _, runs } = self;
        runs
    }

    /// Begins again, as `over_at` does.
    pub(crate) fn reset_at(&mut self, first: u64)
        ensures { self.new ≡ record self.old { positions = with_range nothing 0 first } }
    {
        self.head = ScoreboardHead::new_at(first);
    }

    /// Moves the runs to a larger storage, and returns the one from before.
    pub(crate) fn grow(&mut self, mut larger: R) -> R
        requires { self.old.most_runs ≤ length (R.elements larger) }
        ensures state { self.new ≡ record self.old { most_runs = length (R.elements larger) } }
        ensures old { length (R.elements result) ≡ self.old.most_runs }
    {
        let count = larger.count();
        let to = larger.part_mut(0, count);
        self.head.move_runs(every(&self.runs), to);
        replace(&mut self.runs, larger)
    }

    /// Returns how many runs there can be.
    pub(crate) fn most_runs(&self) -> usize
        ensures { result ≡ self.now.most_runs }
    {
        self.runs.count()
    }

    /// Reports the positions of `range`, as `Scoreboard::report` does.
    pub(crate) fn report(&mut self, range: Range<u64>, sent: u64) -> Result<(), ReportError>
        ensures runs { self.new.most_runs ≡ self.old.most_runs }
        ensures no_block { (result ≡ Err ReportError.NoBlock)
            ↔ (IsReport (front self.old.positions) sent range.start range.end → ⊥) }
        ensures too_many { (result ≡ Err ReportError.TooManyHoles)
            ↔ (IsReport (front self.old.positions) sent range.start range.end
            × HasNoRoom self.old.most_runs self.old.positions range.start
            (range.end - range.start)) }
        ensures ok { OnOk result (self.new.positions
            ≡ with_range self.old.positions range.start (range.end - range.start)) }
        ensures unchanged { OnErr result (self.new ≡ self.old) }
    {
        let count = self.runs.count();
        let runs = self.runs.part_mut(0, count);
        self.head.report(runs, range.start, range.end, sent)
    }

    /// Reports all positions below `next`.
    pub(crate) fn acknowledge(&mut self, next: u64)
        ensures { self.new ≡ record self.old { positions = with_range self.old.positions 0 next } }
    {
        let count = self.runs.count();
        let runs = self.runs.part_mut(0, count);
        self.head.acknowledge(runs, next);
    }

    /// Forgets the positions of `range`, as `ScoreboardHead::forget` does.
    pub(crate) fn forget(&mut self, range: Range<u64>)
        ensures runs { self.new.most_runs ≡ self.old.most_runs }
        ensures forgets { Forgets (runs_beyond self.old.positions) self.old.most_runs
            self.old.positions range.start range.end self.new.positions }
        ensures none { range.end ≤ range.start → self.new ≡ self.old }
    {
        let count = self.runs.count();
        let runs = self.runs.part_mut(0, count);
        self.head.forget(runs, range.start, range.end);
    }

    /// Returns the first position that wasn't reported.
    pub(crate) fn first_unreported(&self) -> u64
        ensures { result ≡ front self.now.positions }
    {
        self.head.first_unreported()
    }

    /// Returns whether a position was reported.
    pub(crate) fn contains(&self, pos: u64) -> bool
        ensures { result ≡ contains self.now.positions pos }
    {
        self.head.contains(every(&self.runs), pos)
    }

    /// Returns how many positions of `range` weren't reported.
    pub(crate) fn missing_between(&self, range: Range<u64>) -> u64
        ensures count { result
            ≡ missing_count self.now.positions range.start (range.end - range.start) }
        ensures few { result ≤ range.end - range.start }
    {
        self.head
            .missing_between(every(&self.runs), range.start, range.end)
    }

    /// Returns the next range that wasn't reported, as `Scoreboard::next_hole` does.
    #[tactic(auto, using(crate::proofs::Scoreboards::no_hole))]
    pub(crate) fn next_hole(&self, pos: u64, limit: u64) -> Option<Range<u64>>
        ensures { IsHole self.now.positions pos limit (pair_of result) }
    {
        let (start, end) = self.head.next_hole(every(&self.runs), pos, limit);
        if start < end { Some(start..end) } else { None }
    }
}

/// Shows all runs of a storage.
pub(crate) fn every<R: Storage<Run>>(runs: &R) -> &[Run]
    ensures { result.now ≡ R.elements runs.now }
{
    runs.part(0, runs.count())
}

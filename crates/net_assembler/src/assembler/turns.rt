//! Counts of iterations, which only contracts see.
ghost use Rattle.std.specs.Prelude.{◌≡◌, ◌+◌, ◌≤◌, length};
ghost use Rattle.net_assembler.specs.Turns.{binary_digits};

use super::run::Run;
use std::marker::Model;
use std::mem;
use std::snapshot::Snapshot;

/// A whole number with no greatest value, which takes no bytes when the program runs.
#[derive(Drop)]
enum Count {
    Zero,
    Next(Snapshot<Count>),
}

/// How often loops looked at a run, and how often they moved one, or took one into a range.
///
/// The type takes no bytes when the program runs, and no code can read the counts.
#[derive(Drop)]
pub struct Turns {
    looks: Snapshot<Count>,
    moves: Snapshot<Count>,
}

/// Contracts see the two counts as whole numbers with no greatest value, looks first.
impl Model for Turns {
    ghost use Rattle.std.specs.Prelude.{ℕ};
    ghost use Rattle.net_assembler.specs.Turns.{number};

    ghost Value = { ℕ × ℕ };

    ghost view = { λ t. (number t.looks.value, number t.moves.value) };
}

impl Turns {
    /// Returns counts of no looks and no moves.
    pub fn new() -> Turns
        ensures looks { result.0 ≡ 0 }
        ensures moves { result.1 ≡ 0 }
    {
        Turns {
            looks: Snapshot::of(&Count::Zero),
            moves: Snapshot::of(&Count::Zero),
        }
    }

    /// Counts an iteration that looks at a run.
    #[inline]
    pub fn look(&mut self)
        ensures looks { self.new.0 ≡ self.old.0 + 1 }
        ensures moves { self.new.1 ≡ self.old.1 }
    {
        let before = mem::replace(&mut self.looks, Snapshot::of(&Count::Zero));
        self.looks = Snapshot::of(&Count::Next(before));
    }

    /// Counts an iteration that moves a run, or takes one into a range.
    #[inline]
    pub fn step(&mut self)
        ensures looks { self.new.0 ≡ self.old.0 }
        ensures moves { self.new.1 ≡ self.old.1 + 1 }
    {
        let before = mem::replace(&mut self.moves, Snapshot::of(&Count::Zero));
        self.moves = Snapshot::of(&Count::Next(before));
    }

    /// States that a loop over these runs was a search: it looked at as many as their number has binary digits, at
    /// most. It does nothing.
    #[inline(always)]
    pub(crate) fn were_a_search(&self, runs: &[Run])
        requires { self.now.0 + self.now.1 ≤ binary_digits (length runs.now) }
    {
        let _ = runs;
    }

    /// States that a loop passed these runs once, at most. It does nothing.
    #[inline(always)]
    pub fn were_a_pass(&self, runs: &[Run])
        requires { self.now.0 + self.now.1 ≤ length runs.now }
    {
        let _ = runs;
    }
}

const _: () = prove!(size_of::<Turns>() == 0);

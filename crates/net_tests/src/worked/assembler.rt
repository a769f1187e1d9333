//! Rows of assemblers of 1, 4 and 32 runs.
ghost use Rattle.std.specs.Prelude.{◌≤◌};

use crate::assertions::{Expected, assert_holds};
use crate::worked::assembler_rows::{ROWS_0, ROWS_1, ROWS_2};
use net_assembler::{Assembler, Turns};
use std::fmt::Write;

/// A call with its answer, or what is then seen.
#[derive(Clone, Copy, Drop)]
pub enum Step {
    /// `add` of an offset and a size, and whether it is accepted.
    Add(usize, usize, bool),
    /// The same of `add_counted`.
    AddCounted(usize, usize, bool),
    /// As many `add` as there may be runs, each of three positions: at 10, 20 and so on.
    Fill,
    /// `add_then_remove_front` of an offset and a size, and the length that is removed, unless it is refused.
    AddThenRemove(usize, usize, Option<usize>),
    /// `remove_front`, and the length that is removed.
    Remove(usize),
    /// The runs.
    Runs(&'static [(usize, usize)]),
    /// The run of a number, as `run_at` answers it.
    RunAt(usize, Option<(usize, usize)>),
    /// Whether a position is in the set.
    Contains(usize, bool),
    /// Whether a range of an offset and a size fits.
    Fits(usize, usize, bool),
    /// The text.
    Text(&'static str),
}

use Step::{Add, AddCounted, AddThenRemove, Contains, Fill, Fits, Remove, RunAt, Runs, Text};

/// A name, how many runs there may be, and the steps on a new assembler.
pub type Row = (&'static str, usize, &'static [Step]);

/// Returns whether this is an assembler's text.
fn has_text<const N: usize>(assembler: &Assembler<N>, text: &'static str) -> bool {
    let mut expected = Expected::of(text);
    write!(expected, "{assembler}").is_ok() && expected.is_whole()
}

/// Returns whether these are the runs.
fn has_runs<const N: usize>(assembler: &Assembler<N>, runs: &[(usize, usize)]) -> bool {
    let mut number = 0usize;
    for run in assembler.iter_data() {
        if runs.get(number).copied() != Some(run) {
            return false;
        }
        number = number.saturating_add(1);
    }
    number == runs.len()
}

/// Adds a range, and returns whether it was accepted.
fn adds<const N: usize>(assembler: &mut Assembler<N>, offset: usize, size: usize) -> bool {
    Assembler::<N>::fits(offset, size) && assembler.add(offset, size).is_ok()
}

/// Adds as many runs as there may be.
fn fills<const N: usize>(assembler: &mut Assembler<N>) -> bool {
    for number in 0..N {
        let offset = number.saturating_mul(10).saturating_add(10);
        if !adds(assembler, offset, 3) {
            return false;
        }
    }
    true
}

/// Adds a range and removes the front. Returns the length that was removed, unless it was refused.
fn removes<const N: usize>(
    assembler: &mut Assembler<N>,
    offset: usize,
    size: usize,
) -> Option<usize> {
    if !Assembler::<N>::fits(offset, size) {
        return None;
    }
    assembler.add_then_remove_front(offset, size).ok()
}

/// The same of `add_counted`.
fn adds_counted<const N: usize>(assembler: &mut Assembler<N>, offset: usize, size: usize) -> bool {
    Assembler::<N>::fits(offset, size)
        && assembler
            .add_counted(offset, size, &mut Turns::new())
            .is_ok()
}

/// Does a step that changes the assembler, and returns whether it has the answer that it must have.
fn changes<const N: usize>(assembler: &mut Assembler<N>, step: &Step) -> bool {
    match step {
        Add(offset, size, accepted) => adds(assembler, *offset, *size) == *accepted,
        AddCounted(offset, size, accepted) => adds_counted(assembler, *offset, *size) == *accepted,
        Fill => fills(assembler),
        AddThenRemove(offset, size, removed) => removes(assembler, *offset, *size) == *removed,
        Remove(removed) => assembler.remove_front() == *removed,
        _ => false,
    }
}

/// Returns whether a question has the answer that it must have.
fn answers<const N: usize>(assembler: &Assembler<N>, step: &Step) -> bool {
    match step {
        Runs(runs) => has_runs(assembler, runs),
        RunAt(number, run) => assembler.run_at(*number) == *run,
        Contains(position, is_in) => assembler.contains(*position) == *is_in,
        Fits(offset, size, fits) => Assembler::<N>::fits(*offset, *size) == *fits,
        Text(text) => has_text(assembler, text),
        _ => false,
    }
}

/// Does the steps on a new assembler, and returns the number of the first that has another answer.
fn goes<const N: usize>(assembler: &mut Assembler<N>, steps: &[Step]) -> Option<usize>
    requires { 1 ≤ N }
{
    for (number, step) in steps.iter().enumerate() {
        if !answers(assembler, step) && !changes(assembler, step) {
            return Some(number);
        }
    }
    None
}

/// Returns whether each step of a row has its answer.
fn is_row(most: usize, steps: &[Step]) -> bool {
    let wrong = match most {
        1 => goes(&mut Assembler::<1>::empty(), steps),
        4 => goes(&mut Assembler::<4>::empty(), steps),
        32 => goes(&mut Assembler::<32>::empty(), steps),
        _ => Some(0),
    };
    wrong.is_none()
}

#[test]
fn first_rows(rt: HostRuntime) {
    for (name, most, steps) in &ROWS_0 {
        assert_holds(&rt, is_row(*most, steps), (name, *most));
    }
}

#[test]
fn second_rows(rt: HostRuntime) {
    for (name, most, steps) in &ROWS_1 {
        assert_holds(&rt, is_row(*most, steps), (name, *most));
    }
}

#[test]
fn third_rows(rt: HostRuntime) {
    for (name, most, steps) in &ROWS_2 {
        assert_holds(&rt, is_row(*most, steps), (name, *most));
    }
}

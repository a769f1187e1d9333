//! A run, as an assembler stores it.
ghost use Rattle.std.specs.Prelude.{◌≡◌, ◌<◌, length};
ghost use Rattle.net_assembler.specs.RunLists.{end_at, start_at};

use std::marker::Model;

/// A range of positions that is stored as a run: from `start` on, up to `end`, which is not
/// included.
///
/// An assembler counts both from where its first run starts. smoltcp stores a hole's size and the
/// size of the data after it.
#[repr(C)]
#[derive(Debug, Clone, Copy, PartialEq, Eq)]
pub struct Run {
    /// The first position.
    pub start: usize,
    /// The position after the last one.
    pub end: usize,
}

/// Contracts see the pair (start, end).
impl Model for Run {
    ghost use Rattle.std.specs.Prelude.{ℕ};

    ghost Value = { ℕ × ℕ };

    ghost view = { λ run. (run.start, run.end) };

    ghost inverse = { λ pair. record { start = pair.0; end = pair.1 } };
}

/// Returns where the run with number `k` starts.
#[inline(always)]
pub(crate) fn start_of(runs: &[Run], k: usize) -> usize
    requires { k < length runs.now }
    ensures { result ≡ start_at runs.now k }
{
    let run = &runs[k];
    run.start
}

/// Returns where the run with number `k` ends.
#[inline(always)]
pub(crate) fn end_of(runs: &[Run], k: usize) -> usize
    requires { k < length runs.now }
    ensures { result ≡ end_at runs.now k }
{
    let run = &runs[k];
    run.end
}

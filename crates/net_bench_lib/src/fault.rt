//! Why a line has no reply.
ghost use Rattle.std.specs.Prelude.{◌≡◌};
ghost use Rattle.net_bench_lib.specs.Transcript.{error_at};
ghost use Rattle.net_bench_lib.specs.Refusal.{refusal_at};
ghost use Rattle.net_bench_lib.specs.declared.fault.Refusal.TheVariants.{OutOfMemory};

use crate::error::BenchError;
use std::alloc::AllocError;

/// A fault of a line.
#[derive(Clone, Copy, Debug, PartialEq, Eq)]
pub enum Fault {
    /// It is not a line of the mode.
    BadCommand,
    /// The end of its range is above the greatest number.
    RangeTooLong,
    /// It has more than 4,096 bytes.
    LineTooLong,
    /// It begins a third schedule.
    TooManySchedules,
}

impl Fault {
    /// Returns the fault as an error, for the line of this number.
    pub fn at(self, number: u64) -> BenchError
        ensures { result ≡ error_at number self }
    {
        match self {
            Fault::BadCommand => BenchError::BadCommand(number),
            Fault::RangeTooLong => BenchError::RangeTooLong(number),
            Fault::LineTooLong => BenchError::LineTooLong(number),
            Fault::TooManySchedules => BenchError::TooManySchedules(number),
        }
    }
}

/// Why a line has no reply.
#[derive(Debug, Drop)]
pub enum Refusal {
    /// It has this fault.
    Fault(Fault),
    /// A request for memory was refused.
    OutOfMemory,
}

impl Refusal {
    /// Returns the error that `run` returns for the line of this number.
    pub fn at(self, number: u64) -> BenchError
        ensures { result ≡ refusal_at number self }
    {
        match self {
            Refusal::Fault(fault) => fault.at(number),
            Refusal::OutOfMemory => BenchError::OutOfMemory,
        }
    }
}

impl From<AllocError> for Refusal {
    ghost from_gives = { λ _ e. e ≡ OutOfMemory };

    fn from(_e: AllocError) -> Refusal {
        Refusal::OutOfMemory
    }
}

//! The errors that `run` returns.
ghost use Rattle.std.specs.Prelude.{◌≡◌};
ghost use Rattle.net_bench_lib.specs.declared.error.BenchError.TheVariants.{OutOfMemory};

use std::alloc::AllocError;
use thiserror::Error;

/// An error of `run`. A number is that of the faulty line, counted from 1.
#[derive(Debug, Drop, Error)]
pub enum BenchError {
    /// The line is not one of the mode.
    #[error("line {0}: bad command")]
    BadCommand(u64),
    /// The end of the line's range is above the greatest number.
    #[error("line {0}: range too long")]
    RangeTooLong(u64),
    /// The line has more than 4,096 bytes.
    #[error("line {0}: line too long")]
    LineTooLong(u64),
    /// The line begins a third schedule.
    #[error("line {0}: too many schedules")]
    TooManySchedules(u64),
    /// A request for memory was refused.
    #[error("out of memory")]
    OutOfMemory,
    /// A read returned an error, or 2^64 - 1 reads were made.
    #[error("read failed")]
    ReadFailed,
    /// A write returned an error, or took no byte.
    #[error("write failed")]
    WriteFailed,
}

impl From<AllocError> for BenchError {
    ghost from_gives = { λ _ e. e ≡ OutOfMemory };

    fn from(_e: AllocError) -> BenchError {
        BenchError::OutOfMemory
    }
}

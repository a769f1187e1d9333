//! Lines of each mode, by a reader and a writer that move few bytes a call. The erased text has the same rows, and
//! drawn ones.
use crate::program::program_rows::{ASSEMBLERS, NO_LINES, RINGS, SCHEDULES, STREAMS};
use crate::program::streams::{Streams, check};
use std::alloc::Global;
use std::process::Abort;
use std::test::Fail;

/// A name, the words of a mode, the input, the output, and what standard error says, without its line feed: nothing if
/// there is no error.
pub type Row<'a> = (&'a str, &'a str, &'a [u8], &'a [u8], &'a str);

/// Runs each row by one byte a call, and by all bytes.
fn check_rows(rt: &impl Abort, alloc: Global, rows: &[Row<'_>]) -> Result<(), Fail> {
    for row in rows {
        for most in [1, usize::MAX] {
            check(rt, alloc, *row, Streams::new(most, most))?;
        }
    }
    Ok(())
}

#[test]
fn the_program_answers_lines(rt: HostRuntime) -> Result<(), Fail> {
    check_rows(&rt, rt.alloc(), &RINGS)?;
    check_rows(&rt, rt.alloc(), &ASSEMBLERS)?;
    check_rows(&rt, rt.alloc(), &STREAMS)?;
    check_rows(&rt, rt.alloc(), &SCHEDULES)?;
    check_rows(&rt, rt.alloc(), &NO_LINES)
}

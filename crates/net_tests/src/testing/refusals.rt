//! Calls over memory that refuses each request in turn.
use crate::testing::refusing::Refusing;
use std::alloc::Allocator;

/// The most calls that `refuse_each` makes: more than the requests of any test.
const MOST_REQUESTS: usize = 1_000_000;

/// Calls `run` with memory that refuses its first request, then its second, and so on, until a call
/// succeeds. Returns how many requests that call makes.
///
/// Each call of `run` begins anew, with the memory that it is given, and returns whether it
/// succeeded. The result is `None` if a call fails though no request was refused, succeeds though
/// one was, or doesn't give all its memory back. It is also `None` after 1,000,000 calls, which
/// happens only if `run` makes at least as many requests.
///
/// # Requires
///
/// The closure may be called with any memory, each time again (`IsAlwaysCallable`).
pub fn refuse_each<A: Allocator + Copy, F: FnMut(&Refusing<A>) -> bool>(
    alloc: A,
    mut run: F,
) -> Option<usize>
    requires { F.IsAlwaysCallable run }
{
    for refused in 0..MOST_REQUESTS {
        let memory = Refusing::new(alloc, refused);
        let succeeded = run(&memory);
        let was_refused = memory.requests() > refused;
        if succeeded == was_refused || memory.live() > 0 {
            return None;
        }
        if succeeded {
            return Some(memory.requests());
        }
    }
    None
}

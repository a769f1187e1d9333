//! Results of methods, as exports return them.
ghost use Rattle.std.specs.Prelude.{◌≡◌, ◌↔◌};
ghost use Rattle.net_ffi.specs.Results.{done_or_error, IsStatus};
ghost use Rattle.net_tcp.specs.declared.arriving.Arrival.TheVariants.{Take, AcknowledgementOnly, Answer, Ignore, Reset};

use crate::refusals::{
    NET_BASE_ACKNOWLEDGEMENT_ONLY, NET_BASE_ANSWER, NET_BASE_DONE, NET_BASE_IGNORE,
    NET_BASE_OTHER_SIZE, NET_BASE_RESET, NET_BASE_TAKE, NET_BASE_TOO_LONG, NET_BASE_TOO_MANY_RUNS,
    Status,
};
use net_base::storage::FragmentError;
use net_tcp::Arrival;

/// Returns the status of a call that takes a fragment or a size.
#[inline(always)]
pub(crate) fn status_of_fragment(done: Result<(), FragmentError>) -> Status
    ensures same { done_or_error result ≡ done }
    ensures status { IsStatus result }
{
    match done {
        Ok(()) => NET_BASE_DONE,
        Err(FragmentError::TooManyHoles) => NET_BASE_TOO_MANY_RUNS,
        Err(FragmentError::TooLong) => NET_BASE_TOO_LONG,
        Err(FragmentError::OtherSize) => NET_BASE_OTHER_SIZE,
    }
}

/// Returns the number of what to do with a segment.
#[inline(always)]
pub(crate) fn number_of(arrival: Arrival) -> Status
    ensures take { (result ≡ NET_BASE_TAKE) ↔ (arrival ≡ Take) }
    ensures only { (result ≡ NET_BASE_ACKNOWLEDGEMENT_ONLY) ↔ (arrival ≡ AcknowledgementOnly) }
    ensures answer { (result ≡ NET_BASE_ANSWER) ↔ (arrival ≡ Answer) }
    ensures ignore { (result ≡ NET_BASE_IGNORE) ↔ (arrival ≡ Ignore) }
    ensures reset { (result ≡ NET_BASE_RESET) ↔ (arrival ≡ Reset) }
{
    match arrival {
        Arrival::Take => NET_BASE_TAKE,
        Arrival::AcknowledgementOnly => NET_BASE_ACKNOWLEDGEMENT_ONLY,
        Arrival::Answer => NET_BASE_ANSWER,
        Arrival::Ignore => NET_BASE_IGNORE,
        Arrival::Reset => NET_BASE_RESET,
    }
}

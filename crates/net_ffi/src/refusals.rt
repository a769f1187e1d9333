//! What calls answer: a status, or a number in place of one.
ghost use Rattle.std.specs.Prelude.{◌≡◌};
ghost use Rattle.net_ffi.specs.Refusals.{no_number, nowhere};

use net_ring::Span;
use net_ring::width::most;

/// What a call answers that can be done, refused, or more: each kind of call one of some of these numbers.
pub type Status = u32;

/// What became of a fragment: `DONE`, `TOO_MANY_RUNS`, `TOO_LONG`, `OTHER_SIZE` or `REFUSED`.
pub type FragmentStatus = u32;

/// What became of the size of a packet: `DONE`, `TOO_LONG`, `OTHER_SIZE` or `REFUSED`.
pub type SizeStatus = u32;

/// What became of a segment: `DONE`, `TOO_MANY_RUNS`, `OTHER_END` or `REFUSED`.
///
/// - `TOO_MANY_RUNS`: more ranges would wait than there is room for. Nothing of it is kept: the peer has to send it
///   again.
/// - `OTHER_END`: it says that the stream ends where it can't, and isn't in order. Nothing of it is kept.
pub type SegmentStatus = u32;

/// What to do with a segment that arrives: `TAKE`, `ACKNOWLEDGEMENT_ONLY`, `ANSWER`, `IGNORE`, `RESET`; `REFUSED` for
/// null alone.
pub type ArrivalStatus = u32;

/// What became of an acknowledgement: `DONE`, `OLD`, `ANSWER` or `REFUSED`.
///
/// - `DONE`: it was taken.
/// - `ANSWER`: no peer sends it. Answer its segment, and take nothing of that (RFC 5961, section 5). Nothing changes.
pub type AcknowledgedStatus = u32;

/// What the timer's end means: `DONE`, `OVERDUE`, `PROBE`, `LOST` or `REFUSED`.
///
/// - `DONE`: the timer hasn't ended, or a loss probe is due that the peer couldn't answer, since it reports nothing.
/// - `PROBE`: the next segment is a window probe, which asks whether the peer's shut window has opened; or, with nothing
///   in flight, it has what was held back. That is no sign of congestion: leave the congestion window as it is.
pub type ExpiredStatus = u32;

/// Whether a segment is to be sent: `DONE`, `NOTHING` or `REFUSED`.
///
/// - `DONE`: one is.
pub type OutgoingStatus = u32;

/// The call was done.
pub const NET_BASE_DONE: Status = 0;

/// There would be more runs than the array has elements. Nothing changes.
pub const NET_BASE_TOO_MANY_RUNS: Status = 1;

/// What was passed is nonsense. Nothing changes.
pub const NET_BASE_REFUSED: Status = 2;

/// The fragment or the size reaches past the end of the buffer. Nothing changes.
pub const NET_BASE_TOO_LONG: Status = 3;

/// It contradicts the packet's size: another size is known, or a byte at that size or above has arrived, or the
/// fragment reaches past a known size. Nothing changes.
pub const NET_BASE_OTHER_SIZE: Status = 4;

/// The segment says that the stream ends where it can't, and isn't in order. Nothing changes.
pub const NET_BASE_OTHER_END: Status = 5;

/// Take what a segment acknowledges, its window, its bytes and its end.
pub const NET_BASE_TAKE: Status = 6;

/// Take what a segment acknowledges and its window, but not its bytes, and answer it: your window is shut, and the peer
/// asks whether it has opened; or the segment is empty and below the window, as an old acknowledgement or a keep-alive.
pub const NET_BASE_ACKNOWLEDGEMENT_ONLY: Status = 7;

/// Send an acknowledgement, and take nothing of a segment. If it has neither SYN nor RST, and all its bytes are below
/// the first missing position, also pass these to `net_base_receiving_end_arrived`, before or after
/// `net_base_receiving_end_answer`: it keeps none, but the acknowledgement that follows reports what came twice (RFC
/// 2883).
pub const NET_BASE_ANSWER: Status = 8;

/// Take nothing of a segment, and send nothing.
pub const NET_BASE_IGNORE: Status = 9;

/// The peer has reset the connection.
pub const NET_BASE_RESET: Status = 10;

/// The next segment is a window probe, or, with nothing in flight, has what was held back.
pub const NET_BASE_PROBE: Status = 11;

/// No answer has come in time. What is late counts as lost, and `net_base_sending_end_next_segment` sends it again. If
/// it has none to send, it sends a loss probe (RFC 8985, 7.3): a segment that asks for an answer.
pub const NET_BASE_OVERDUE: Status = 13;

/// All that was sent is lost: let one segment be in flight. `net_base_sending_end_take_back` may undo that, as it does
/// a halving.
pub const NET_BASE_LOST: Status = 14;

/// An old acknowledgement: of it only a first block that says what came twice counts, and nothing else changes. Then
/// `net_base_sending_end_take_back` may be true. The bytes of its segment may be new.
pub const NET_BASE_OLD: Status = 15;

/// Nothing is to be sent now.
pub const NET_BASE_NOTHING: Status = 16;

/// States each number of this module: callers may be compiled with it.
pub fn numbers()
    ensures done { NET_BASE_DONE ≡ 0 }
    ensures too_many_runs { NET_BASE_TOO_MANY_RUNS ≡ 1 }
    ensures refused { NET_BASE_REFUSED ≡ 2 }
    ensures too_long { NET_BASE_TOO_LONG ≡ 3 }
    ensures other_size { NET_BASE_OTHER_SIZE ≡ 4 }
    ensures other_end { NET_BASE_OTHER_END ≡ 5 }
    ensures take { NET_BASE_TAKE ≡ 6 }
    ensures acknowledgement_only { NET_BASE_ACKNOWLEDGEMENT_ONLY ≡ 7 }
    ensures answer { NET_BASE_ANSWER ≡ 8 }
    ensures ignore { NET_BASE_IGNORE ≡ 9 }
    ensures reset { NET_BASE_RESET ≡ 10 }
    ensures probe { NET_BASE_PROBE ≡ 11 }
    ensures overdue { NET_BASE_OVERDUE ≡ 13 }
    ensures lost { NET_BASE_LOST ≡ 14 }
    ensures old { NET_BASE_OLD ≡ 15 }
    ensures nothing { NET_BASE_NOTHING ≡ 16 }
{}

/// In place of a length, an index or a count: what was passed is nonsense, or there is none.
#[inline(always)]
pub fn no_number() -> usize
    ensures { result ≡ no_number }
{
    most()
}

/// The span of a refused call.
#[inline(always)]
pub fn refused_span() -> Span
    ensures { result ≡ nowhere }
{
    Span {
        from: no_number(),
        count: 0,
        contiguous: 0,
    }
}

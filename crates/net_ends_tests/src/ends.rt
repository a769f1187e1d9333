//! What laws say of both ends of a connection: small functions, each with a contract that is by a law.
ghost use Rattle.std.specs.Prelude.{◌≡◌, ◌<◌, ◌≤◌, ℕ, List, IsTrue, IsSome, is_some, take};
ghost use Rattle.net_receiver.specs.Finite.{MatchesFinite, acknowledged};
ghost use Rattle.net_receiver.specs.FiniteSender.{IsSoundSent};
ghost use Rattle.net_ends.specs.Ends.{IsUnacknowledged, rest, runs, Event, small_sends, expiries, has_timed_out};
ghost use Rattle.net_ends.specs.Ends.{first, end};
ghost use Rattle.net_ends.specs.Receiving.{IsSoundReceiving};

use net_base::time::Instant;
use net_ends::{
    AckSegment, Acknowledged, Acknowledgement, Outgoing, ReceivingEnd, ReceivingEndOver,
    SendingEndOver, laws, receiving_end,
};
use net_ring::{ManagedSlice, Storage};
use net_tcp::{Announcement, Sack};

/// Takes an acknowledgement, and returns when the timer ends. It runs while something that was sent isn't acknowledged,
/// if it did before.
pub fn take_acknowledgement<S: Storage<u8>, const N: usize>(
    sender: &mut SendingEndOver<S, N>,
    it: Announcement,
    now: Instant,
) -> Option<Instant>
    ensures { (IsUnacknowledged sender.old → IsTrue (runs sender.old)) →
        IsUnacknowledged sender.new → IsSome result }
{
    laws::sending_ends();
    let _taken = sender.acknowledged(it, &[], AckSegment::Pure, now);
    sender.expires_at()
}

/// Takes an acknowledgement, and returns whether it says something new. If one number was left, all is acknowledged
/// then.
pub fn take_last<S: Storage<u8>, const N: usize>(
    sender: &mut SendingEndOver<S, N>,
    it: Announcement,
    now: Instant,
) -> bool
    ensures { IsSoundSent sender.old.sender → rest sender.old ≤ 1 → IsTrue result →
        rest sender.new ≡ 0 }
{
    laws::progress();
    match sender.acknowledged(it, &[], AckSegment::Pure, now) {
        Acknowledged::Taken { new, .. } => new > 0,
        _ => false,
    }
}

/// Begins with a peer. Whatever happens then, what isn't worth a segment is sent no more often than the timer ends.
pub fn begin<S: Storage<u8>, const N: usize>(
    sender: &mut SendingEndOver<S, N>,
    it: Announcement,
    segment_size: usize,
    now: Instant,
)
    ensures { (vs : List Event) → small_sends sender.new vs ≤ expiries sender.new vs }
{
    laws::small_segments();
    sender.open(it, segment_size, Sack::Permitted, now);
}

/// Looks at the timer, and sends what is next, and returns it. If the timeout has passed, nothing is in flight, and
/// something waits, that is a segment, however small the peer's window is.
pub fn send_late<S: Storage<u8>, const N: usize>(
    sender: &mut SendingEndOver<S, N>,
    congestion_window: u64,
    now: Instant,
) -> Option<Outgoing>
    ensures { IsTrue (has_timed_out sender.old now) → first sender.old ≡ sender.old.sender.sent →
        first sender.old < end sender.old → IsTrue (is_some result) }
{
    let _expired = sender.expired(now);
    sender.next_segment(congestion_window, now)
}

/// Takes a segment, whatever it says, and returns what acknowledges it: no number below those that were acknowledged,
/// and what was promised stays promised.
pub fn take_segment<S: Storage<u8>, const N: usize>(
    receiver: &mut ReceivingEndOver<S, N>,
    pos: u64,
    bytes: &[u8],
    fin: bool,
) -> Acknowledgement
    ensures number { IsSoundReceiving receiver.old →
        acknowledged receiver.old.receiver ≤ result.next }
    ensures edge { IsSoundReceiving receiver.old → receiver.old.edge ≤ receiver.new.edge }
    ensures sound { IsSoundReceiving receiver.old → IsSoundReceiving receiver.new }
{
    receiving_end::laws::announcements();
    let _kept = receiver.arrived(pos, bytes, fin).is_ok();
    receiver.acknowledgement()
}

/// Takes one segment at a new end and reads. What is read is the beginning of each stream of which it is a segment.
pub fn read_first(storage: &mut [u8], pos: u64, bytes: &[u8], fin: bool, into: &mut [u8]) -> usize
    ensures { (x : List ℕ) → MatchesFinite 0 x pos bytes.now fin →
        take result «into».new ≡ take result x }
{
    receiving_end::laws::receiving_ends();
    let mut end = ReceivingEnd::<4>::over_at(ManagedSlice::Borrowed(storage), 0, 536);
    let _kept = end.arrived(pos, bytes, fin).is_ok();
    end.read(into)
}

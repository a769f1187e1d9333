//! Laws of the receiving end. No function here changes anything: its contract is the law.
ghost use Rattle.std.specs.Prelude.{◌≡◌, ℕ, ◌+◌, ◌<◌, ◌≤◌, ◌^◌, List, All, IsTrue, take};
ghost use Rattle.net_tcp.specs.Windows.{shift_count};
ghost use Rattle.net_receiver.specs.ReceiverState.{next_position};
ghost use Rattle.net_receiver.specs.Finite.{FiniteState, finite_after_commands, fresh_finite, acknowledged, no_end};
ghost use Rattle.net_receiver.specs.Finite.{IsSoundEnd, CommandMatches, bytes_taken, has_read_all};
ghost use Rattle.net_ends.specs.Receiving.{Receiving, Event, after_events, commands, new_receiving, opened, promise};
ghost use Rattle.net_ends.specs.Receiving.{free_end, IsSoundReceiving};

/// States of every end and of every list of what happens to it, forged segments among it, that its receiver is that
/// of a list of the receiver's own commands (`refines`). So the bytes that are read, from a new end on, are those of
/// the stream from its first one on, if each segment that came is one of the stream; and all of them, once the
/// receiver says so (`reads`).
pub fn receiving_ends()
    ensures refines { (most_runs : ℕ) (e : Receiving) (vs : List Event) →
        (after_events most_runs e vs).receiver
        ≡ finite_after_commands most_runs e.receiver (commands vs) }
    ensures reads { (most_runs f capacity : ℕ) (x : List ℕ) (e : Receiving)
        (vs : List Event) → f < no_end →
        e.receiver ≡ fresh_finite f capacity → All (CommandMatches f x) (commands vs) →
        let t = (after_events most_runs e vs).receiver in
        (bytes_taken most_runs e.receiver (commands vs) ≡ take t.receiver.read x)
        × (IsTrue (has_read_all t) → bytes_taken most_runs e.receiver (commands vs) ≡ x) }
{
    net_receiver::laws::finite_receivers();
}

/// States what an end announces, whatever happens to it, forged segments among it. A new end is sound (`new`), so is
/// one that begins again with a peer (`opened`), and it stays so (`sound`). What was promised stays promised (`edge`),
/// and the number that an acknowledgement names never falls (`number`). A window promises no more than there is room
/// for (`room`), and reaches to all that was promised before, but for less than a unit of the scale: with a scale of
/// 0 no window goes back (`kept`). The number after the end is named only once all bytes before the end are queued or
/// were read (`last`).
pub fn announcements()
    ensures new { (capacity first size : ℕ) → first < no_end →
        IsSoundReceiving (new_receiving capacity first size) }
    ensures opened { (e : Receiving) (first scale : ℕ) → first < no_end →
        IsSoundReceiving (opened e first scale) }
    ensures sound { (most_runs : ℕ) (e : Receiving) (vs : List Event) → IsSoundReceiving e →
        IsSoundReceiving (after_events most_runs e vs) }
    ensures edge { (most_runs : ℕ) (e : Receiving) (vs : List Event) → IsSoundReceiving e →
        e.edge ≤ (after_events most_runs e vs).edge }
    ensures number { (most_runs : ℕ) (e : Receiving) (vs : List Event) → IsSoundReceiving e →
        acknowledged e.receiver ≤ acknowledged (after_events most_runs e vs).receiver }
    ensures room { (e : Receiving) → IsSoundReceiving e → promise e ≤ free_end e.receiver }
    ensures kept { (e : Receiving) → IsSoundReceiving e →
        e.edge < promise e + 2 ^ shift_count e.scale }
    ensures last { (s : FiniteState) → IsSoundEnd s → s.end < acknowledged s →
        next_position s.receiver ≡ s.end }
{
    net_receiver::laws::numbers();
    net_receiver::laws::finite_receivers();
}

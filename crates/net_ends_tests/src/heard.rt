//! What two ends know of one another, in every state that both reach, whatever honest path lies between them.
ghost use Rattle.std.specs.Prelude.{◌≡◌, ◌+◌, ◌^◌, ◌<◌, ◌≤◌, ◌⊎◌, ℕ, ℤ, Bool, IsTrue, List, [], ◌∷◌, length};
ghost use Rattle.net_assembler.specs.Positions.{Positions};
ghost use Rattle.net_tcp.specs.LossRecovery.{Recovery as LossRecovery};
ghost use Rattle.net_tcp.specs.Windows.{shift_count};
ghost use Rattle.net_receiver.specs.Finite.{no_end};
ghost use Rattle.net_ends.specs.Chains.{AreTurns, Host, Turn, new_numbers};
ghost use Rattle.net_ends.specs.Ends.{End, first, Heard};
ghost use Rattle.net_ends.specs.Receiving.{IsSoundReceiving, Receiving};
ghost use Rattle.net_ends.specs.Pair.{AtSender, Pair, Step, Told, begun, after_step, after_steps, AreHonest};
ghost use Rattle.net_ends.specs.Rounds.{AreCarried, AreRounds, IsReached, Round, steps};

use net_ends::{ReceivingEnd, SendingEnd, laws};
use net_tcp::{Arrival, Segment};

/// Returns what the receiving end of a stream does with an acknowledgement that the sending end sends now.
pub fn hear(sender: &SendingEnd<'_, 4>, receiver: &ReceivingEnd<'_, 4>) -> Arrival
    ensures { (e : End) (r : Receiving) (scale seq size : ℕ) (reports : Bool) (now : ℤ)
        (vs : List Step) → first e ≡ e.sender.sent → first e < no_end →
        let p = begun e r scale seq size reports now in AreHonest 4 p vs →
        let q = after_steps 4 p vs in q.sender ≡ sender.now → q.receiver ≡ receiver.now →
        (result ≡ Arrival.Take) ⊎ (result ≡ Arrival.AcknowledgementOnly) }
{
    laws::heard_ends();
    receiver.classify(Segment {
        seq: sender.empty_segment_position(),
        len: 0,
        syn: false,
        ack: true,
        rst: false,
    })
}

/// Returns the number after the promised window, as far as a sending end knows it that has sent all of that.
pub fn promised_end(sender: &SendingEnd<'_, 4>) -> u64
    ensures { (f : ℕ) (x : List ℕ) (p : Pair) (t : Told) (older : List Told) (s : Positions)
        (r : LossRecovery) (says : Bool) (seq : ℕ) (now : ℤ) → IsReached 4 f x p →
        p.told ≡ t ∷ older → (first p.sender < t.ack) ⊎ (p.sender.peer.seq ≤ seq) →
        let q = after_step 4 p (AtSender (Heard s r says seq t.ack t.window now)) in
        q.sender ≡ sender.now → q.receiver.edge ≤ q.sender.sender.sent →
        q.receiver.edge < result + 2 ^ shift_count q.receiver.scale }
{
    laws::windows();
    sender.empty_segment_position()
}

/// Returns whether all numbers below one have come at the receiving end.
pub fn have_come(receiver: &ReceivingEnd<'_, 4>, number: u64) -> bool
    ensures { (f : ℕ) (x : List ℕ) (p : Pair) (us : List Round) → IsReached 4 f x p →
        AreCarried 4 f x p (steps us) → AreRounds 4 p us →
        (after_steps 4 p (steps us)).receiver ≡ receiver.now →
        number ≤ first p.sender + length us → IsTrue result }
{
    laws::rounds();
    number <= receiver.receiver().acknowledged()
}

/// States that an answer is answered only where something new has come at one of the hosts.
pub fn answer_of_answer()
    ensures { (near far : Host) (t u : Turn) → IsSoundReceiving near.receiver →
        IsSoundReceiving far.receiver → AreTurns 4 near far (t ∷ u ∷ []) →
        0 < new_numbers 4 near far (t ∷ u ∷ []) }
{
    laws::answers();
}

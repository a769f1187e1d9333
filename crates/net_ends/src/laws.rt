//! Laws of the sending end, and of both ends. No function here changes anything: its contract is the law.
ghost use Rattle.std.specs.Prelude.{◌≡◌, ℕ, ℤ, ◌+◌, ◌-◌, ◌<◌, ◌≤◌, ◌⊎◌, ◌∷◌, List, All, Bool, IsTrue, IsFalse};
ghost use Rattle.std.specs.Prelude.{length, max, pos, ◌*◌, ◌^◌, ◌≤ℤ◌, ◌+ℤ◌, ◌-ℤ◌};
ghost use Rattle.net_assembler.specs.Positions.{Positions};
ghost use Rattle.net_tcp.specs.LossRecovery.{Recovery as LossRecovery};
ghost use Rattle.net_receiver.specs.FiniteSender.{sender_after_commands, accepts, IsSoundSent};
ghost use Rattle.net_ends.specs.Ends.{End, Event, after_event, after_events, commands, run, begun, IsAllowed, first};
ghost use Rattle.net_ends.specs.Ends.{rest, IsUnacknowledged, runs, Heard, Rested, end, news, IsNoWrite, hurries};
ghost use Rattle.net_ends.specs.Ends.{small_sends, expiries, may_send, asks, Looked};
ghost use Rattle.net_ends.specs.Path.{LentIsWritten, EndsCarry};
ghost use Rattle.net_receiver.specs.Finite.{no_end, acknowledged, is_complete};
ghost use Rattle.net_receiver.specs.ReceiverState.{limit_of};
ghost use Rattle.net_tcp.specs.Retransmission.{has_ended};
ghost use Rattle.net_tcp.specs.Windows.{empty_segment_position, IsScaleFor};
ghost use Rattle.net_ends.specs.Receiving.{Receiving, promise, IsSoundReceiving};
ghost use Rattle.net_ends.specs.Pair.{Pair, Step, begun as begun_pair, after_steps, AreHonest, number, has_come};
ghost use Rattle.net_ends.specs.Pair.{IsAnswerTaken, Told, AtSender, after_step};
ghost use Rattle.net_ends.specs.Chains.{Host, Turn, AreTurns, new_numbers, AreWithin, answered};
ghost use Rattle.net_tcp.specs.declared.answer_limit.AnswerLimit.{AnswerLimit};
ghost use Rattle.net_tcp.specs.declared.arriving.Segment.{Segment};
ghost use Rattle.net_ends.specs.Rounds.{IsReached, KnowsWindow, Round, steps, AreCarried, AreRounds};

/// States of every end and of every list of what happens to it, forged acknowledgements among it: that its sender is
/// that of a list of the sender's own commands; that nothing is sent beyond the greatest edge that the peer gave, but a
/// probe, which is the first number that isn't acknowledged; and that its timer runs while something that was sent
/// isn't acknowledged, if it did at first. And an acknowledgement of something new leaves less to be acknowledged, by
/// what is new.
#[tactic(auto, using(crate::proofs::Ends::ends))]
pub fn sending_ends()
    ensures refines { (e : End) (vs : List Event) →
        (after_events e vs).sender ≡ sender_after_commands e.sender (commands e vs) }
    ensures edge { (e : End) (vs : List Event) → All IsAllowed (run (begun e) vs).log }
    ensures runs { (e : End) (vs : List Event) → (IsUnacknowledged e → IsTrue (runs e)) →
        IsUnacknowledged (after_events e vs) → IsTrue (runs (after_events e vs)) }
    ensures waits { (e : End) (now : ℤ) → first e < end e →
        IsTrue (runs (after_event e (Rested now))) }
    ensures falls { (e : End) (s : Positions) (r : LossRecovery) (says : Bool)
        (seq ack window : ℕ) (now : ℤ) →
        IsSoundSent e.sender → IsTrue (accepts e.sender ack) →
        rest (after_event e (Heard s r says seq ack window now)) ≡ rest e - (ack - first e) }
{}

/// States that all is acknowledged in the end: of a sound end to which nothing more is written, once as many
/// acknowledgements came that each said something new as there were numbers to be acknowledged, whatever else came. And
/// that an end stays sound, whatever happens.
#[tactic(auto, using(crate::proofs::Progress::progress))]
pub fn progress()
    ensures finishes { (e : End) (vs : List Event) → IsSoundSent e.sender → All IsNoWrite vs →
        rest e ≤ news e vs →
        rest (after_events e vs) ≡ 0 }
    ensures sound { (e : End) (vs : List Event) → IsSoundSent e.sender →
        IsSoundSent (after_events e vs).sender }
{}

/// States what a receiving end reads of what a sending end lends, whatever the path between them does. What a sending
/// end lends is of the stream that is written to it in the end, whatever is acknowledged (`lent`). If each segment that
/// arrives at a new receiving end was lent by a new sending end at some moment, what is read is a prefix of what is
/// written, and all of it once the receiver says so. If no acknowledgement says more than the receiver has, what it
/// lacks can be sent again: the sender has all that was written from the receiver's first missing position on, and its
/// end isn't acknowledged (`carry`).
pub fn both_ends()
    ensures lent { LentIsWritten }
    ensures carry { EndsCarry }
{
    net_receiver::laws::finite_senders();
    net_receiver::laws::transfers();
}

/// States that small segments are rare, of every end and of every list of what happens to it. What was never sent, and
/// isn't worth a segment, is sent no more often than the timer ends, if it asked for no segment at first. A whole
/// segment is worth one; and, unless Nagle's rule has it wait, all that is left, or half of the greatest window that
/// the peer announced.
#[tactic(auto, using(crate::proofs::Small::small))]
pub fn small_segments()
    ensures rare { (e : End) (vs : List Event) → IsFalse (hurries e) →
        small_sends e vs ≤ expiries e vs }
{}

/// States that two ends hear one another, whatever honest path lies between them: one that loses, copies, delays and
/// reorders what both send, and forges nothing. A connection begins with the window of the receiving end's SYN. Then,
/// in every state that such a history reaches, an acknowledgement that the sending end sends has a number that the
/// receiving one takes (`heard`): now, and whenever it arrives, unless what the sending end sent later for the first
/// time has come before it, which itself acknowledges more (`later`). So no acknowledgement is refused for ever. And
/// what takes an acknowledgement answers it by a number that isn't below what it acknowledges (`ends`): the end that
/// sent it doesn't answer that again, unless more has come, by law `acknowledgements` of `net_tcp`.
pub fn heard_ends()
    ensures heard { (most_runs : ℕ) (e : End) (r : Receiving) (scale seq size : ℕ)
        (reports : Bool) (now : ℤ) (vs : List Step) → first e ≡ e.sender.sent → first e < no_end →
        let p = begun_pair e r scale seq size reports now in AreHonest most_runs p vs →
        let q = after_steps most_runs p vs in IsAnswerTaken q (number q) }
    ensures later { (most_runs : ℕ) (e : End) (r : Receiving) (scale seq size : ℕ)
        (reports : Bool) (now : ℤ) (vs later : List Step) → first e ≡ e.sender.sent → first e < no_end →
        let p = begun_pair e r scale seq size reports now in
        let q = after_steps most_runs p vs in
        let u = after_steps most_runs q later in
        AreHonest most_runs p vs → AreHonest most_runs q later → has_come u ≤ q.sender.sender.sent →
        IsAnswerTaken u (number q) }
    ensures ends { (e : End) (s : Positions) (r : LossRecovery) (says : Bool)
        (seq ack window : ℕ) (now : ℤ) → IsTrue (accepts e.sender ack) →
        let f = after_event e (Heard s r says seq ack window now) in
        ack ≤ empty_segment_position f.peer (first f) f.sender.sent }
{
    net_receiver::laws::numbers();
    net_receiver::laws::finite_receivers();
}

/// States what a sending end knows of its peer's window in the end, on any honest path that carries one stream. The
/// acknowledgement that the receiving end said last tells where the promised window ends, but for less than a unit of
/// the scale (`latest`). It needs to acknowledge something new, or to have a number that isn't below that of the
/// window known. Else the next round brings one that acknowledges something new, by law `rounds`. Once the timeout has
/// passed, the first number that isn't acknowledged may be sent, whatever window is known (`asks`). At a shut window
/// it is asked for, so `next_segment` sends it. A receiving end that has a capacity and the scale for it, and whose
/// program has read all that came, promises a window whenever it says anything (`opens`).
pub fn windows()
    ensures latest { (most_runs f : ℕ) (x : List ℕ) (p : Pair) (t : Told) (older : List Told)
        (s : Positions) (r : LossRecovery) (says : Bool) (seq : ℕ) (now : ℤ) →
        IsReached most_runs f x p → p.told ≡ t ∷ older →
        (first p.sender < t.ack) ⊎ (p.sender.peer.seq ≤ seq) →
        KnowsWindow (after_step most_runs p (AtSender (Heard s r says seq t.ack t.window now))) }
    ensures asks { (e : End) (r : LossRecovery) (now : ℤ) → first e < end e →
        IsTrue (has_ended e.timer now) →
        let f = after_event e (Looked r now) in
        IsTrue (may_send f (first e) (first e + 1)) × (e.peer.edge ≤ first e → IsTrue (asks f)) }
    ensures opens { (r : Receiving) →
        IsScaleFor r.receiver.receiver.capacity r.scale → 0 < r.receiver.receiver.capacity →
        r.size ≤ 65535 → IsFalse (is_complete r.receiver) →
        length r.receiver.receiver.queue ≡ 0 → limit_of r.receiver.receiver < 2 ^ 64 →
        acknowledged r.receiver < max r.edge (promise r) }
{
    net_receiver::laws::numbers();
    net_receiver::laws::completion();
    net_receiver::laws::finite_receivers();
}

/// States that two ends progress, from every state that an honest history reaches. In a round a segment comes that has
/// the first number which isn't acknowledged, and the promised window has room for it. Then an acknowledgement is
/// heard that was said after that. Whatever else happens meanwhile, each round has one more number acknowledged, and
/// what is acknowledged has come (`arrives`). So all comes that was written, in as many rounds as it has numbers. By
/// law `windows` such a segment may be sent once the timeout has passed, and a program that reads makes room. That a
/// round comes is no law.
pub fn rounds()
    ensures arrives { (most_runs f : ℕ) (x : List ℕ) (p : Pair) (us : List Round) →
        IsReached most_runs f x p → AreCarried most_runs f x p (steps us) →
        AreRounds most_runs p us → let q = after_steps most_runs p (steps us) in
        (first p.sender + length us ≤ first q.sender) × (first q.sender ≤ has_come q) }
{
    net_receiver::laws::numbers();
    net_receiver::laws::completion();
    net_receiver::laws::finite_receivers();
}

/// States that no two ends answer one another without end. An acknowledgement is answered if its number is below the
/// first one that is missing; so is the answer, and so on, whatever else happens at both hosts meanwhile. Each accepts
/// what the other acknowledges. Then there are at most as many answers as numbers come at both meanwhile, and one
/// (`few`): where none comes, no answer is answered. Of what isn't taken, from whomever, an `AnswerLimit` counts
/// segments without positions and SYNs. At moments that don't fall it allows one answer to them, and one more for each
/// half second (`limited`).
pub fn answers()
    ensures few { (most_runs : ℕ) (near far : Host) (ts : List Turn) →
        IsSoundReceiving near.receiver → IsSoundReceiving far.receiver →
        AreTurns most_runs near far ts → length ts ≤ 1 + new_numbers most_runs near far ts }
    ensures limited { (l : AnswerLimit) (from to : ℤ) (qs : List (Segment × ℤ)) →
        AreWithin from to qs → (to +ℤ pos 500000) ≤ℤ pos (2 ^ 63 - 1) →
        pos (500000 * answered l qs) ≤ℤ ((to -ℤ from) +ℤ pos 500000) }
{
    net_receiver::laws::numbers();
    net_receiver::laws::finite_receivers();
}

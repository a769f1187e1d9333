//! Laws of the machines. No function here changes anything: its contract is the law.
ghost use Rattle.std.specs.Prelude.{◌≡◌, ℕ, ◌+◌, ◌-◌, ◌*◌, ◌^◌, ◌<◌, ◌≤◌, ◌⊎◌, IsTrue, IsFalse, min, max};
ghost use Rattle.std.specs.Prelude.{◌/◌, List, [], ◌∷◌, ◌++◌, All, Some, Bool, ℤ, false, true, ◌&&◌, ◌||◌, not, nat_lt};
ghost use Rattle.std.specs.Fn.{iterate};
ghost use Rattle.net_tcp.specs.Windows.{IsAcceptable, IsInTable, IsScaleFor, announced, field_for, gain, worth};
ghost use Rattle.net_tcp.specs.Windows.{IsBehind, IsHeard, IsTaken, window_from, with_segment, no_window, BothEnds};
ghost use Rattle.net_tcp.specs.Windows.{Announcement, empty_segment_position, Heard, acknowledged, updated, heard};
ghost use Rattle.net_tcp.specs.Windows.{heard_all, IsNoLater, IsNoNewer, IsFromNoNewer};
ghost use Rattle.net_tcp.specs.Estimate.{Estimate};
ghost use Rattle.net_tcp.specs.Retransmission.{next_estimate, distance, doubled, IsSettled, Event, Connection};
ghost use Rattle.net_tcp.specs.Retransmission.{opened, after_event, after_events, runs, sends_over, IsNoStart};
ghost use Rattle.net_tcp.specs.Retransmission.{IsNoStop, IsUnacknowledged, IsEnd, IsMove, IsUntil, expires_at, expiry};
ghost use Rattle.net_tcp.specs.declared.peer_window.PeerWindow.{PeerWindow};
ghost use Rattle.net_tcp.specs.declared.retransmission.TimeoutBounds.{TimeoutBounds};
ghost use Rattle.net_tcp.specs.declared.retransmission_timer.TimedSegment.{TimedSegment};
ghost use Rattle.net_tcp.specs.declared.retransmission_timer.Expiry.TheVariants.{Probe};
ghost use Rattle.net_assembler.specs.Positions.{Positions, contains};
ghost use Rattle.net_tcp.specs.LossRecovery.{is_active, was_sent_again, after_sending, after_report};
ghost use Rattle.net_tcp.specs.LossRecovery.{after_silence, is_answered, overtaken, begun, after_probe, found};
ghost use Rattle.net_tcp.specs.LossRecovery.{after_hearing, after_answer, answers_copy, withdrawn};
ghost use Rattle.net_tcp.specs.LossRecovery.{unsent_lost, blind_lost, is_wrong, taken_back, after_copies, after_stall, Recovery};

/// States how acceptable segments and the table of RFC 9293 are related: what the table accepts is
/// acceptable, and what is acceptable is in the table, unless it begins before the window and ends after
/// it.
pub fn acceptable_segments()
    ensures table { (next window seq len : ℕ) → IsInTable next window seq len →
        IsAcceptable next window seq len }
    ensures covers { (next window seq len : ℕ) → IsAcceptable next window seq len →
        IsInTable next window seq len ⊎ ((seq < next) × (next + window < seq + len)) }
{}

/// States that windows open, of a receiver that has a capacity and the scale for it: an empty one
/// announces a part of its capacity; and once all is read, and less than a unit of what was promised is
/// left, an update is worth a segment. A promise is kept whole if there is room for it, and its rest is
/// a multiple of the unit that a number can say; `not_each` shows that not every promise can be: 100
/// positions were promised in units of 4, and one byte came.
#[tactic(auto, using(crate::proofs::WindowFacts::announced_windows))]
pub fn announced_windows()
    ensures opens { (capacity scale : ℕ) → IsScaleFor capacity scale → 0 < capacity →
        0 < field_for scale capacity }
    ensures reopens { (capacity scale edge next mss : ℕ) →
        IsScaleFor capacity scale → 0 < capacity →
        edge < next + 2 ^ scale → mss ≤ 65535 →
        worth capacity mss ≤ gain edge scale next (next + capacity) }
    ensures whole { (edge scale next window_end k : ℕ) → edge ≡ next + k * 2 ^ scale →
        edge ≤ window_end → k ≤ 65535 →
        edge ≤ announced next scale (field_for scale (window_end - next)) }
    ensures not_each { (field : ℕ) → 100 ≤ announced 1 2 field → 100 < announced 1 2 field }
{}

/// States that it makes no difference whether a segment's acknowledgement is taken before its window or
/// after it; that two segments of a peer leave the same window, and the same first position that isn't
/// acknowledged, in either order of arrival, if neither number of the one is below that of the other, and their
/// numbers aren't the same; that in whatever order and however often segments come, they leave the window of the one
/// that acknowledges most, and of those with as much the highest number, if none has its numbers and another window:
/// so of the last that a peer sent, as far as numbers tell; that of two with the same numbers, as an update of the
/// window has, the one that arrives last decides; that a segment of an older number that acknowledges nothing more, as
/// a copy of one that was lost, changes nothing; that after any list of segments, forged ones too, one that
/// acknowledges something new is taken; and that no segment is older than a window of zeros.
#[tactic(auto, using(crate::proofs::WindowFacts::peer_windows))]
pub fn peer_windows()
    ensures calls { (h : Heard) (s : Announcement) →
        updated (acknowledged h s) s ≡ acknowledged (updated h s) s }
    ensures order { (h : Heard) (s t : Announcement) → IsNoLater s t → s.ack ≤ s.sent →
        t.ack ≤ t.sent →
        heard (heard h s) t ≡ heard (heard h t) s }
    ensures latest { (h : Heard) (before : List Announcement) (last : Announcement)
        (after : List Announcement) → IsFromNoNewer h last → last.ack ≤ last.sent →
        All (λ t. IsNoNewer t last) before → All (λ t. IsNoNewer t last) after →
        (heard_all h (before ++ last ∷ after)).peer
        ≡ window_from last.seq last.ack last.window }
    ensures same_numbers { (h : Heard) (s t : Announcement) →
        h.peer ≡ window_from s.seq s.ack s.window → t.seq ≡ s.seq → t.ack ≡ s.ack →
        h.first ≤ t.ack → t.ack ≤ t.sent → (heard h t).peer ≡ window_from t.seq t.ack t.window }
    ensures older { (h : Heard) (t : Announcement) → t.seq < h.peer.seq → t.ack ≤ h.peer.ack →
        (heard h t).peer ≡ h.peer }
    ensures taken { (h : Heard) (before : List Announcement) (s : Announcement) →
        h.peer.ack ≤ h.first →
        (heard_all h before).first < s.ack → s.ack ≤ s.sent →
        (heard (heard_all h before) s).peer ≡ window_from s.seq s.ack s.window }
    ensures zeros { (seq ack window : ℕ) →
        with_segment no_window seq ack window ≡ window_from seq ack window }
{}

/// States what estimates and timeouts do: an estimate follows the formulas of RFC 6298, (7 / 8) * SRTT + R / 8
/// and (3 / 4) * RTTVAR + |SRTT - R| / 4, but for less than the eighth or quarter of a microsecond that is
/// rounded; equal samples settle it; and a timeout within its bounds that passes k times becomes 2^k times as
/// long, up to the greatest.
#[tactic(auto, using(crate::proofs::Timers::timeouts))]
pub fn timeouts()
    ensures formulas { (e : Estimate) (r : ℕ) → let n = next_estimate e r in
        (7 * e.srtt_8 + 8 * r ≤ 8 * n.srtt_8) × (8 * n.srtt_8 < 7 * e.srtt_8 + 8 * r + 8)
        × (3 * e.rttvar_4 + 4 * distance (e.srtt_8 / 8) r ≤ 4 * n.rttvar_4)
        × (4 * n.rttvar_4 < 3 * e.rttvar_4 + 4 * distance (e.srtt_8 / 8) r + 4) }
    ensures settle { (e : Estimate) (r : ℕ) →
        (n : ℕ) × ((m : ℕ) → n ≤ m → IsSettled r (iterate (λ e. next_estimate e r) m e)) }
    ensures doubles { (b : TimeoutBounds) (k t : ℕ) → b.least ≤ t → t ≤ b.most →
        iterate (doubled b) k t ≡ min b.most (t * 2 ^ k) }
{}

/// States of a new timer, and of every list of sends, acknowledgements, reports, looks, starts and stops: a
/// timed position was sent once, as the first of a range, at the moment that its sample is counted from; unless
/// it is stopped, the timer runs while something that was sent isn't acknowledged; and unless it is started, only
/// then. A timer that runs, whatever started it, runs until it is stopped, or until all that was sent is
/// acknowledged, if some of it wasn't before; and only the timeout, what acknowledges or reports something new, and
/// what is sent where nothing is on the way move the moment at which the timeout passes. So that is the timeout after
/// the last event that armed the timer, whatever probes were sent, and the timer expires no later. A timer whose peer
/// reports no blocks has no probe.
#[tactic(auto, using(crate::proofs::Timers::timers))]
pub fn timers()
    ensures once { (b : TimeoutBounds) (t : ℕ) (says : Bool) (first : ℕ) (es : List Event) →
        let c = after_events b (opened t says first) es in
        (s : TimedSegment) → c.timer.timed ≡ Some s →
        sends_over s.pos c.log ≡ (s.pos, s.since) ∷ [] }
    ensures runs { (b : TimeoutBounds) (t : ℕ) (says : Bool) (first : ℕ) (es : List Event) →
        All IsNoStop es →
        let c = after_events b (opened t says first) es in IsUnacknowledged c → IsTrue (runs c) }
    ensures rests { (b : TimeoutBounds) (t : ℕ) (says : Bool) (first : ℕ) (es : List Event) →
        All IsNoStart es →
        let c = after_events b (opened t says first) es in IsTrue (runs c) → IsUnacknowledged c }
    ensures ends { (b : TimeoutBounds) (c : Connection) (e : Event) → IsTrue (runs c) →
        IsFalse (runs (after_event b c e)) → IsEnd c e }
    ensures moves { (b : TimeoutBounds) (c : Connection) (e : Event) → IsTrue (runs c) →
        ((after_event b c e).timer.ends_at ≡ c.timer.ends_at) ⊎ IsMove c e }
    ensures armed { (b : TimeoutBounds) (t : ℕ) (says : Bool) (first : ℕ) (es : List Event) →
        let c = after_events b (opened t says first) es in
        IsTrue (runs c) → c.timer.ends_at ≡ Some c.due }
    ensures until { (b : TimeoutBounds) (t : ℕ) (says : Bool) (first : ℕ) (es : List Event) →
        let c = after_events b (opened t says first) es in IsUntil c.due (expires_at c.timer) }
    ensures silent { (b : TimeoutBounds) (t first : ℕ) (es : List Event) (now : ℤ) →
        let c = after_events b (opened t false first) es in expiry c.timer now ≡ Some Probe → ⊥ }
{}

/// States that the edge of what a sender was told is not beyond what the receiver promised, now or
/// before; and that a segment with positions, all below an edge that was promised, is acceptable to a
/// receiver whose window reaches to all that it promised, unless all of them came already. That it is
/// acceptable doesn't say that it is kept: a receiver may still refuse it for want of runs.
pub fn agreement()
    ensures knows { (edge next scale field seq : ℕ) →
        (window_from seq next (field * 2 ^ scale)).edge ≤ max edge (announced next scale field) }
    ensures sent { (peer_edge edge next seq len : ℕ) → 0 < len → seq + len ≤ peer_edge →
        peer_edge ≤ edge → next < seq + len → IsAcceptable next (edge - next) seq len }
{}

/// States that a segment without positions, whose number is that of `PeerWindow::empty_segment_position`, is taken by
/// the peer, or what it acknowledges is (`heard`): whatever window is known here, and whatever the peer has kept. It
/// needs that the edge known was promised, that no more is acknowledged than was promised, that the peer has kept
/// nothing that wasn't sent, and that no more is on the way than the greatest window, or one position if that is 0. So
/// it is of both ends of any path, by `heard_ends` of `net_ends`. No lower number is taken than such an end may have
/// (`exact`), and the number is not below what was acknowledged: the peer that acknowledged it finds it at its first
/// missing position or above, unless more has come since, and doesn't answer it (`ends`).
///
/// It also states when the number is in the table of RFC 9293, so that a peer of other rules takes it: where the window
/// known here is shut, unless the peer has kept a probe (`shut`); where the peer promised more since, unless it has
/// kept what is beyond the window known here (`later`); and where it didn't, unless all of the window was sent and some
/// of it is missing: then the number is the edge (`known`). The number after a probe is not in the table at a shut
/// window (`next_number`).
pub fn acknowledgements()
    ensures heard { (w : PeerWindow) (first sent next edge most : ℕ) →
        BothEnds w first sent next edge most →
        IsTaken next (edge - next) (empty_segment_position w first sent) 0
        ⊎ IsHeard next (edge - next) most (empty_segment_position w first sent) 0 }
    ensures exact { (next most seq : ℕ) → IsBehind next most seq 0 →
        let w = window_from 0 seq 0 in
        BothEnds w seq next next next most × (empty_segment_position w seq next ≡ seq) }
    ensures ends { (w : PeerWindow) (first sent next most : ℕ) → next ≤ first → first ≤ sent →
        IsBehind next most (empty_segment_position w first sent) 0 → ⊥ }
    ensures shut { (w : PeerWindow) (first sent next edge most : ℕ) →
        BothEnds w first sent next edge most → w.edge ≤ first → first ≡ next →
        IsInTable next (edge - next) (empty_segment_position w first sent) 0 }
    ensures known { (w : PeerWindow) (first sent next edge most : ℕ) →
        BothEnds w first sent next edge most → first ≤ next → next ≤ edge → w.edge ≡ edge →
        IsInTable next (edge - next) (empty_segment_position w first sent) 0
        ⊎ ((empty_segment_position w first sent ≡ edge) × (next < edge) × (edge ≤ sent)) }
    ensures later { (w : PeerWindow) (first sent next edge most : ℕ) →
        BothEnds w first sent next edge most → first ≤ next → next ≤ edge → w.edge < edge →
        next ≤ max w.edge first →
        IsInTable next (edge - next) (empty_segment_position w first sent) 0 }
    ensures next_number { (next sent : ℕ) → next < sent → IsInTable next 0 sent 0 → ⊥ }
{}

/// States what passes do: each position that is sent counts as sent again, so that by clause `once` of
/// `next_segment` it isn't sent any more; it counts so after each acknowledgement and each silence, unless a probe
/// was answered, or enough is reported of what was sent after it; what an acknowledgement answers leaves it so too,
/// also where finding something lost was wrong; and after the timeout the first position is to be sent, so that by
/// clause `progress` it is.
#[tactic(auto, using(crate::proofs::Passes::passes))]
pub fn passes()
    ensures sent { (r : Recovery) (first sent start end p : ℕ) → IsTrue (is_active r first) →
        start < min sent end → p < end →
        IsTrue (was_sent_again (after_sending first sent start end r) first p) }
    ensures stays { (size first sent : ℕ) (s : Positions) (lost highest : ℕ)
        (r : Recovery) (p : ℕ) →
        IsTrue (is_active r first) → IsTrue (was_sent_again r first p) →
        IsFalse (was_sent_again (after_report size first sent s lost highest r) first p) →
        IsTrue (is_answered s r.probe) ⊎ (IsTrue (overtaken size s sent r) × (p < r.resume)) }
    ensures answer { (size before first sent : ℕ) (reports equal : Bool) (unsent : ℕ)
        (s : Positions) (r : Recovery)
        (p : ℕ) → IsTrue (was_sent_again r first p) →
        IsTrue (was_sent_again (after_answer size before first sent reports equal
        unsent s r) first p) }
    ensures silence { (r : Recovery) (first sent highest p : ℕ) → IsTrue (is_active r first) →
        was_sent_again (after_silence first sent highest r) first p ≡ was_sent_again r first p }
    ensures expiry { (r : Recovery) (first sent : ℕ) → first < sent →
        IsTrue (is_active (begun first sent sent r) first)
        × IsFalse (was_sent_again (begun first sent sent r) first first) }
{}

/// States what arrives tells: where the peer reports, all is lost that was sent before a probe which is answered, and
/// an equal acknowledgement tells no more than one that isn't equal; and where finding something lost was wrong,
/// nothing is lost any more that wasn't sent again. Where it doesn't report, outside of a recovery, and of its end, the
/// third equal acknowledgement loses the first segment, and the second doesn't; and in a recovery an acknowledgement of
/// something new loses what follows.
#[tactic(auto, using(crate::proofs::Arrivals::arrivals))]
pub fn arrivals()
    ensures probe { (size first sent : ℕ) (s : Positions) (lost highest : ℕ) (r : Recovery) →
        IsTrue (is_active r first) → IsFalse r.is_blind → IsTrue (is_answered s r.probe) →
        r.asked ≤ (after_report size first sent s lost highest r).lost }
    ensures wrong { (first : ℕ) (s : Positions) (r : Recovery) →
        unsent_lost (withdrawn r) first s ≡ 0 }
    ensures third { (size first sent : ℕ) (r : Recovery) → IsFalse (is_active r first) →
        IsFalse (answers_copy first r) → IsTrue r.is_blind → r.duplicates ≡ 3 → r.unknown ≡ 0 →
        0 < size → first + 4 * size ≤ sent → sent < 2 ^ 64 →
        let one = after_hearing size first first sent false true r in
        let two = after_hearing size first first sent false true one in
        let three = after_hearing size first first sent false true two in
        (blind_lost size first first sent two ≡ 0)
        × (blind_lost size first first sent three ≡ first + size) }
    ensures partial { (size before first sent : ℕ) (r : Recovery) →
        IsTrue (is_active r first) → IsTrue r.is_blind →
        before < first → first < sent → sent < 2 ^ 64 → 0 < size →
        first < blind_lost size before first sent r }
    ensures bare { (size before first sent : ℕ) (reports equal : Bool) (unsent : ℕ) (s : Positions)
        (r : Recovery) → IsFalse r.is_blind →
        after_answer size before first sent reports equal unsent s r
        ≡ after_answer size before first sent reports false unsent s r }
{}

/// States when a recovery is taken back: not as it begins, where the first position is missing (`begins`); nor once
/// something was sent again in it (`sent`), until as many positions came twice (`twice`); and when it is, it has ended,
/// and isn't taken back again (`once`). It is taken back only after a sign of congestion (`congestion`). A stall is
/// none (`stalled`). A timeout is one, and of the other calls those that return that a recovery begins (`reported`,
/// `silent`, `dropped`), and no others (`others`). So no recovery is taken back of which the caller wasn't told.
#[tactic(auto, using(crate::proofs::Wrongs::wrongs))]
pub fn take_backs()
    ensures begins { (first sent lost : ℕ) (s : Positions) (r : Recovery) →
        first < sent → first < lost → IsFalse (contains s first) →
        IsFalse (is_wrong (begun first sent lost r) first s) }
    ensures sent { (r : Recovery) (first sent start end next : ℕ) (s : Positions) →
        IsTrue (is_active r first) → start < min sent end →
        IsFalse (is_wrong (after_sending first sent start end r) next s) }
    ensures twice { (r : Recovery) (first sent start end next : ℕ) (s : Positions) →
        end - start < r.copies →
        IsFalse (is_wrong (after_copies first sent start end r) next s) }
    ensures once { (r : Recovery) (first next : ℕ) (s t : Positions) →
        IsTrue (is_wrong r first s) → IsFalse (is_active (taken_back first s r) next)
        × IsFalse (is_wrong (taken_back first s r) next t) }
    ensures congestion { (r : Recovery) (first : ℕ) (s : Positions) →
        IsFalse r.is_congestion → IsFalse (is_wrong r first s) }
    ensures stalled { (r : Recovery) (first sent : ℕ) →
        (after_stall first sent r).is_congestion ≡ (is_active r first && r.is_congestion) }
    ensures reported { (size first sent lost highest : ℕ) (s : Positions) (r : Recovery) →
        (after_report size first sent s lost highest r).is_congestion
        ≡ (r.is_congestion || (not (is_active r first) && nat_lt first (found s lost highest r))) }
    ensures silent { (first sent highest : ℕ) (r : Recovery) →
        (after_silence first sent highest r).is_congestion
        ≡ (r.is_congestion || (not (is_active r first) && nat_lt first highest)) }
    ensures dropped { (first sent lost : ℕ) (r : Recovery) →
        (begun first sent lost r).is_congestion ≡ (r.is_congestion || not (is_active r first)) }
    ensures others { (size before first sent start end unsent : ℕ) (reports equal : Bool) (s : Positions)
        (r : Recovery) →
        ((after_answer size before first sent reports equal unsent s r).is_congestion ≡ r.is_congestion)
        × ((after_copies first sent start end r).is_congestion ≡ r.is_congestion)
        × ((after_sending first sent start end r).is_congestion ≡ r.is_congestion)
        × ((after_probe first sent start end r).is_congestion ≡ r.is_congestion) }
{}

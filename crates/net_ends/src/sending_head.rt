//! The rules of a sending end, of numbers alone: what a sender of TCP does with an acknowledgement, with the end of its
//! timer, and with what is to be sent. Rust and C have the same.

ghost use Rattle.std.specs.Prelude.{◌≡◌, ◌-◌, ◌+◌, ◌<◌, ◌≤◌, ◌&&◌, ◌==◌, ℕ, Option, Some, IsTrue, IsFalse, min, IfSome};
ghost use Rattle.std.specs.Prelude.{is_some, is_none, ◌||◌, not, false, length, List, max, true};
ghost use Rattle.net_assembler.specs.Positions.{with_range, nothing};
ghost use Rattle.net_tcp.specs.LossRecovery.{is_active, next_probe, as_range, new_recovery, no_loss, recovery_of};
ghost use Rattle.net_receiver.specs.FiniteSender.{sender_after_command, Acknowledges, FiniteSenderState};
ghost use Rattle.net_ends.specs.Ends.{greatest_of, told, round_trip, synchronized, sampled, kept};
ghost use Rattle.net_ends.specs.Acknowledgements.{reported_by, numbers_of, unsent_at, Recovers};
ghost use Rattle.net_receiver.specs.Scoreboards.{IsEnd, IsHole, IsSoundBoard};
ghost use Rattle.net_tcp.specs.Sack.{is_permitted};
ghost use Rattle.net_ends.specs.Parts.{end_of, marked};
ghost use Rattle.net_ends.specs.Calls.{Hears, Silent, TimesOut, Chooses};
ghost use Rattle.net_ends.specs.Rules.{queued_of, known_of, known_by, low, high, window_shut, asks_window, room_to};
ghost use Rattle.net_ends.specs.Rules.{most_to, in_hurry, enough, worth_sending, due, HolesOf, next_of, due_part};
ghost use Rattle.net_ends.specs.Rules.{ProbedOf, probe_part, is_probing, renewed_by};
ghost use Rattle.net_ends.specs.Buffers.{board_of, is_window_probe, is_tail_probe};
ghost use Rattle.net_tcp.specs.Retransmission.{new_timer, new_fields, started, timer_of, has_expired, after_expiry};
ghost use Rattle.net_tcp.specs.Retransmission.{after_acknowledged, expires_at};
ghost use Rattle.net_receiver.specs.NewHeads.{scoreboard_head};
ghost use Rattle.net_tcp.specs.Windows.{no_window, window_from, after_update};
ghost use Rattle.std.specs.Option.{option_or};

use crate::sending_end::{Acknowledged, Expired, Outgoing};
use crate::tcp_buffer::{AckKind, BufferHead, Queued, Sending, TakenAck};
use net_assembler::Run;
use net_base::time::{Duration, Instant};
use net_receiver::SentNumbers;
use net_tcp::{
    Announcement, PeerWindow, RetransmissionTimer, Sack, TimeoutBounds, is_acknowledgement,
};
use std::ops::Range;

/// All of a sending end but its sender and the times that were set: what was reported and what is lost, the timer, and
/// what the peer announced.
///
/// Its calls are given the sender's numbers; who holds both has the sender take what they say. It is numbers and flags
/// alone, so that C has it as it is. One of zeros is new. It is sound if the scoreboard is, with its runs.
#[repr(C)]
#[derive(Copy, Clone, Debug)]
pub struct SendingHead {
    /// What was reported and what is lost.
    pub buffer: BufferHead,
    /// The timer.
    pub timer: RetransmissionTimer,
    /// The peer's window.
    pub peer_window: PeerWindow,
    /// The greatest window that the peer ever announced.
    pub greatest_window: u64,
    /// The window that it announced last.
    pub last_window: u64,
    /// The most bytes of a segment. 0 counts as 1.
    pub segment_size: usize,
    /// Whether Nagle's rule is disabled.
    pub no_delay: bool,
    /// Whether the peer has acknowledged anything, if only this end's SYN.
    pub is_open: bool,
    /// Whether the timeout has passed and nothing was sent since then: nothing is held back, and if the window is
    /// shut, the next segment is a probe of it.
    pub is_window_probe_due: bool,
    /// Whether the next segment is a probe for an answer, if nothing else may be sent.
    pub is_overdue: bool,
}

impl SendingHead {
    /// Returns the rules of an end without a peer, of a stream that begins at position `first`.
    pub const fn new_at(first: u64, first_timeout: Duration) -> Self
        ensures sound { (runs : List (ℕ × ℕ)) → IsSoundBoard result.buffer.scoreboard runs }
        ensures reported { (runs : List (ℕ × ℕ)) →
            board_of result.buffer runs ≡ with_range nothing 0 first }
        ensures recovery { recovery_of result.buffer.recovery ≡ new_recovery }
        ensures timer { timer_of result.timer ≡ new_timer first_timeout false }
        ensures numbers { (result.buffer.scoreboard ≡ scoreboard_head first)
            × (result.buffer.recovery ≡ no_loss)
            × (result.timer ≡ new_fields first_timeout false) }
        ensures rest { result ≡ record {
          buffer = result.buffer;
          timer = result.timer;
          peer_window = no_window;
          greatest_window = 0;
          last_window = 0;
          segment_size = 0;
          no_delay = false;
          is_open = false;
          is_window_probe_due = false;
          is_overdue = false;
        } }
    {
        SendingHead {
            buffer: BufferHead::new_at(first),
            timer: RetransmissionTimer::new(first_timeout, Sack::Absent),
            peer_window: PeerWindow::new(),
            greatest_window: 0,
            last_window: 0,
            segment_size: 0,
            no_delay: false,
            is_open: false,
            is_window_probe_due: false,
            is_overdue: false,
        }
    }

    /// Begins with a peer, whose SYN announced a window, how many bytes a segment may have, and whether it reports
    /// blocks: one that doesn't couldn't answer a probe, and is sent none. What was written stays. It is done
    /// once, before anything is sent; a second time begins with another peer, and the timer runs if something is in
    /// flight.
    #[inline]
    pub fn open(
        &mut self,
        numbers: SentNumbers,
        first_timeout: Duration,
        it: Announcement,
        segment_size: usize,
        sack: Sack,
        now: Instant,
    )
        ensures rest { self.new ≡ record self.old {
          buffer = self.new.buffer;
          timer = self.new.timer;
          peer_window = window_from it.seq it.ack it.window;
          greatest_window = it.window;
          last_window = it.window;
          segment_size = segment_size;
          is_open = false;
          is_window_probe_due = false;
          is_overdue = false;
        } }
        ensures scoreboard { self.new.buffer.scoreboard ≡ self.old.buffer.scoreboard }
        ensures recovery { recovery_of self.new.buffer.recovery
            ≡ record (recovery_of self.old.buffer.recovery) { is_blind = not (is_permitted sack); unknown = 0 } }
        ensures timer { timer_of self.new.timer
            ≡ renewed_by numbers first_timeout (is_permitted sack) now }
    {
        self.buffer.recovery.opened(sack);
        self.renew(numbers, first_timeout, sack, now);
        self.peer_window = PeerWindow::of(it);
        self.greatest_window = it.window;
        self.last_window = it.window;
        self.segment_size = segment_size;
        self.is_window_probe_due = false;
        self.is_overdue = false;
    }

    /// Begins again without a peer: the timer stops, unless something is in flight. What was written stays.
    #[inline]
    pub fn forget(&mut self, numbers: SentNumbers, first_timeout: Duration, now: Instant)
        ensures rest { self.new ≡ record self.old { timer = self.new.timer; is_open = false } }
        ensures timer { timer_of self.new.timer ≡ renewed_by numbers first_timeout false now }
    {
        self.renew(numbers, first_timeout, Sack::Absent, now);
    }

    /// Begins with a timer that had no sample.
    #[inline]
    fn renew(&mut self, numbers: SentNumbers, first_timeout: Duration, sack: Sack, now: Instant)
        ensures rest { self.new ≡ record self.old { timer = self.new.timer; is_open = false } }
        ensures timer { timer_of self.new.timer
            ≡ renewed_by numbers first_timeout (is_permitted sack) now }
    {
        self.timer = RetransmissionTimer::new(first_timeout, sack);
        if numbers.first_unacknowledged < numbers.sent {
            self.timer.start(now);
        }
        self.is_open = false;
    }

    /// Returns whether a SYN is to be sent now, the first one or one after a timeout, and starts the timer for the
    /// next. Ask it only until your SYN is acknowledged: it doesn't test that.
    #[inline]
    pub fn is_opening_due(&mut self, bounds: TimeoutBounds, now: Instant) -> bool
        ensures value { result ≡ (has_expired (timer_of self.old.timer) now
            || is_none (expires_at (timer_of self.old.timer))) }
        ensures rest { self.new ≡ record self.old { timer = self.new.timer } }
        ensures timer { timer_of self.new.timer
            ≡ started now (after_expiry bounds now (timer_of self.old.timer)) }
    {
        let is_first = self.timer.expires_at().is_none();
        let has_expired = self.timer.expire(bounds, now).is_some();
        self.timer.start(now);
        has_expired || is_first
    }

    /// Takes what a segment acknowledges and announces, and the blocks that it reports. It `is_empty` if it has no byte
    /// and no FIN. Whatever it says, it can't break the end.
    ///
    /// A block counts that begins above the first number that isn't reported, has a number, and ends where something
    /// was sent and less than 2^32 above that one, if what is reported beyond that one is at most `N` runs then. Any
    /// other block says nothing.
    pub fn acknowledged(
        &mut self,
        runs: &mut [Run],
        numbers: SentNumbers,
        bounds: TimeoutBounds,
        it: Announcement,
        blocks: &[Range<u64>],
        is_empty: bool,
        now: Instant,
    ) -> Acknowledged
        requires { IsSoundBoard self.old.buffer.scoreboard runs.old }
        ensures sound { IsSoundBoard self.new.buffer.scoreboard runs.new }
        ensures length { length runs.new ≡ length runs.old }
        ensures hears { (s : FiniteSenderState) (timeout : ℕ) → numbers_of s ≡ numbers →
            Hears (length runs.old) (end_of s self.old runs.old timeout bounds) it.seq it.ack
            it.window blocks.now is_empty now result
            (end_of (sender_after_command s (Acknowledges it.ack)) self.new runs.new timeout bounds) }
    {
        if !is_acknowledgement(numbers, self.greatest_window, it.ack) {
            return Acknowledged::Refused;
        }
        if it.ack < numbers.first_unacknowledged || numbers.sent < it.ack {
            self.buffer.note_duplicate(numbers, it.ack, blocks);
            return Acknowledged::Old;
        }
        let taken = self.take_accepted(runs, numbers, bounds, it, blocks, is_empty, now);
        Acknowledged::Taken {
            new: taken.new,
            reports: taken.reports,
            begins: taken.begins,
        }
    }

    /// Takes an acknowledgement that the sender takes, and returns what it said.
    fn take_accepted(
        &mut self,
        runs: &mut [Run],
        numbers: SentNumbers,
        bounds: TimeoutBounds,
        it: Announcement,
        blocks: &[Range<u64>],
        is_empty: bool,
        now: Instant,
    ) -> TakenAck
        requires { IsSoundBoard self.old.buffer.scoreboard runs.old }
        ensures sound { IsSoundBoard self.new.buffer.scoreboard runs.new }
        ensures count { length runs.new ≡ length runs.old }
        ensures rest { self.new ≡ record self.old {
          buffer = self.new.buffer;
          timer = self.new.timer;
          peer_window = after_update self.old.peer_window numbers.first_unacknowledged numbers.sent
              it.seq it.ack it.window;
          greatest_window = greatest_of self.old.peer_window self.old.greatest_window
              numbers.first_unacknowledged numbers.sent it.seq it.ack it.window;
          last_window = it.window;
          is_open = true;
        } }
        ensures timer { timer_of self.new.timer ≡ told result.reports now (after_acknowledged bounds
            numbers.first_unacknowledged numbers.sent it.ack now
            (sampled (board_of self.new.buffer runs.new) bounds now
            (synchronized self.old.is_open numbers.first_unacknowledged numbers.sent
            (timer_of self.old.timer)))) }
        ensures reported { board_of self.new.buffer runs.new
            ≡ kept (reported_by (length runs.old) numbers.sent (board_of self.old.buffer runs.old) it.ack
            blocks.now).0 it.ack numbers.sent }
        ensures new { result.new ≡ it.ack - numbers.first_unacknowledged }
        ensures reports { result.reports
            ≡ (reported_by (length runs.old) numbers.sent (board_of self.old.buffer runs.old) it.ack
            blocks.now).1 }
        ensures recovery { Recovers (length runs.old) (max self.old.segment_size 1) numbers
            (unsent_at numbers.first_unacknowledged (board_of self.old.buffer runs.old)
            (recovery_of self.old.buffer.recovery)) (board_of self.old.buffer runs.old)
            (recovery_of self.old.buffer.recovery) it.ack blocks.now
            (is_empty && (it.window == self.old.last_window)) result.reports
            (recovery_of self.new.buffer.recovery) result.begins }
    {
        let kind = if is_empty && it.window == self.last_window {
            AckKind::Repeat
        } else {
            AckKind::Other
        };
        let size = self.segment_size();
        let taken = self
            .buffer
            .acknowledged(runs, numbers, it.ack, blocks, size, kind);
        self.take_window(numbers, it);
        self.update_timer(runs, numbers, bounds, it.ack, taken.reports, now);
        taken
    }

    /// Takes the window that is announced, and that a peer answers.
    fn take_window(&mut self, numbers: SentNumbers, it: Announcement)
        ensures rest { self.new ≡ record self.old {
          timer = self.new.timer;
          peer_window = after_update self.old.peer_window numbers.first_unacknowledged numbers.sent
              it.seq it.ack it.window;
          greatest_window = greatest_of self.old.peer_window self.old.greatest_window
              numbers.first_unacknowledged numbers.sent it.seq it.ack it.window;
          last_window = it.window;
          is_open = true;
        } }
        ensures timer { timer_of self.new.timer ≡ synchronized self.old.is_open
            numbers.first_unacknowledged numbers.sent (timer_of self.old.timer) }
    {
        // The timer of the SYN stops, if this is the first acknowledgement and nothing is in flight.
        if !self.is_open && numbers.sent <= numbers.first_unacknowledged {
            self.timer.stop();
        }
        self.is_open = true;
        self.greatest_window = greatest_after_update(
            &mut self.peer_window,
            self.greatest_window,
            numbers,
            it,
        );
        self.last_window = it.window;
    }

    /// Takes the sample of a timed segment that is reported, and tells the timer what was acknowledged, and whether a
    /// block reported what wasn't known.
    fn update_timer(
        &mut self,
        runs: &[Run],
        numbers: SentNumbers,
        bounds: TimeoutBounds,
        ack: u64,
        reports: bool,
        now: Instant,
    )
        requires { IsSoundBoard self.old.buffer.scoreboard runs.now }
        ensures rest { self.new ≡ record self.old { timer = self.new.timer } }
        ensures timer { timer_of self.new.timer ≡ told reports now (after_acknowledged bounds
            numbers.first_unacknowledged numbers.sent ack now
            (sampled (board_of self.old.buffer runs.now) bounds now (timer_of self.old.timer))) }
    {
        // A copy: one with times isn't passed twice.
        let sampling = TimeoutBounds {
            least: bounds.least,
            most: bounds.most,
            tick: bounds.tick,
            ack_delay: bounds.ack_delay,
        };
        if let Some(segment) = self.timer.timed() {
            if self.buffer.contains(runs, segment.pos) {
                self.timer.take_sample(sampling, now);
            }
        }
        self.timer.acknowledged(bounds, numbers, ack, now);
        if reports {
            self.timer.reported(now);
        }
    }

    /// Takes notice that the timer's probe is due, and returns what that means. Finds what is overdue, unless the
    /// peer's window is shut, or it reports nothing: then it is sent no probe.
    #[inline]
    pub fn take_silence(&mut self, runs: &[Run], queued: Queued) -> Expired
        requires { IsSoundBoard self.old.buffer.scoreboard runs.now }
        ensures rest { self.new ≡ record self.old {
          buffer = self.new.buffer;
          is_window_probe_due = false;
          is_overdue = self.new.is_overdue;
        } }
        ensures scoreboard { self.new.buffer.scoreboard ≡ self.old.buffer.scoreboard }
        ensures silent { (s : FiniteSenderState) (timeout : ℕ) (bounds : TimeoutBounds) →
            queued_of s ≡ queued → Silent (end_of s self.old runs.now timeout bounds) result
            (end_of s self.new runs.now timeout bounds) }
    {
        self.is_window_probe_due = false;
        self.is_overdue = false;
        if self.buffer.recovery.is_blind() {
            return Expired::No;
        }
        if self.is_shut(queued) {
            return Expired::Overdue { begins: false };
        }
        self.is_overdue = true;
        Expired::Overdue {
            begins: self.buffer.fell_silent(runs, queued.numbers),
        }
    }

    /// Takes notice that the timeout has passed, and returns what that means. Loses all that was sent and isn't
    /// reported.
    #[inline]
    pub fn take_timeout(&mut self, queued: Queued) -> Expired
        ensures rest { self.new ≡ record self.old {
          buffer = self.new.buffer;
          is_window_probe_due = true;
          is_overdue = false;
        } }
        ensures scoreboard { self.new.buffer.scoreboard ≡ self.old.buffer.scoreboard }
        ensures late { (s : FiniteSenderState) (runs : List (ℕ × ℕ)) (timeout : ℕ)
            (bounds : TimeoutBounds) → queued_of s ≡ queued →
            TimesOut (end_of s self.old runs timeout bounds) result (end_of s self.new runs timeout bounds) }
    {
        self.is_window_probe_due = true;
        self.is_overdue = false;
        if self.is_shut(queued) || queued.numbers.flight_size() == 0 {
            self.buffer.recovery.stalled(queued.numbers);
            Expired::Probe
        } else {
            self.buffer.recovery.timed_out(queued.numbers);
            Expired::Lost
        }
    }

    /// Returns whether the peer's window is shut, and something waits.
    fn is_shut(&self, queued: Queued) -> bool
        ensures { result ≡ window_shut (known_by self.now queued) }
    {
        self.peer_window
            .is_probe_allowed(queued.numbers.first_unacknowledged, queued.end)
    }

    /// Returns the range that is to be sent next, and why: of a window that is shut a probe, once the timeout has
    /// passed; else what `next_range` returns; and else, where no answer came, a probe for one.
    fn choose(
        &self,
        runs: &[Run],
        queued: Queued,
        congestion_window: u64,
    ) -> (Option<Range<u64>>, Sending)
        requires sound { IsSoundBoard self.now.buffer.scoreboard runs.now }
        requires order { queued.numbers.first_unacknowledged ≤ queued.numbers.sent }
        ensures within { let k = known_of self.now runs.now queued in
            IfSome result.0 (λ r. (r.start < r.end) × (r.end ≤ most_to k) × (low k ≤ r.start)) }
        ensures probe { let k = known_of self.now runs.now queued in
            IsTrue (asks_window k) → result.0 ≡ Some (record { start = low k; end = low k + 1 }) }
        ensures asks { is_window_probe result.1 ≡ asks_window (known_of self.now runs.now queued) }
        ensures overdue { IsTrue (is_tail_probe result.1) →
            IsTrue (known_of self.now runs.now queued).overdue }
        ensures due { let k = known_of self.now runs.now queued in
            IfSome result.0 (λ r. IsTrue (due k r.start r.end)) }
        ensures next { let k = known_of self.now runs.now queued in
            (lost others : Option (ℕ × ℕ)) → IsFalse (asks_window k) → IsFalse k.overdue →
            HolesOf k (room_to k) lost others →
            result.0 ≡ due_part k (next_of k (room_to k) congestion_window lost others) }
        ensures answer { let k = known_of self.now runs.now queued in
            (lost others : Option (ℕ × ℕ)) (highest : ℕ) (hole : Option (ℕ × ℕ)) →
            IsFalse (asks_window k) → IsTrue k.overdue → HolesOf k (room_to k) lost others →
            ProbedOf k (room_to k) highest hole → result.0 ≡ option_or
            (due_part k (next_of k (room_to k) congestion_window lost others))
            (probe_part k (room_to k) highest hole) }
        ensures counts { let k = known_of self.now runs.now queued in
            (lost others : Option (ℕ × ℕ)) → HolesOf k (room_to k) lost others →
            is_tail_probe result.1 ≡ is_probing k congestion_window lost others }
        ensures late { let k = known_of self.now runs.now queued in
            IsTrue k.probes → IsFalse (is_active k.recovery (low k)) → low k ≡ high k →
            low k < k.queued.end → IsTrue (is_some result.0) }
    {
        let first = queued.numbers.first_unacknowledged;
        if self.is_window_probe_due && self.is_shut(queued) {
            return (Some(first..first + 1), Sending::WindowProbe);
        }
        let limit = self.peer_window.send_limit(queued.end);
        let next = self.next_range(runs, queued, limit, congestion_window);
        if next.is_some() || !self.is_overdue {
            return (next, Sending::Segment);
        }
        (
            self.next_probe(runs, queued.numbers, limit),
            Sending::TailProbe,
        )
    }

    /// Returns what a probe for an answer sends below a limit.
    // Proof: A function of its own, since the search doesn't find what `choose` says with this call in it.
    fn next_probe(&self, runs: &[Run], numbers: SentNumbers, limit: u64) -> Option<Range<u64>>
        requires sound { IsSoundBoard self.now.buffer.scoreboard runs.now }
        requires order { numbers.first_unacknowledged ≤ numbers.sent }
        ensures within { IfSome result (λ r. (r.start < r.end) × (r.end ≤ limit)
            × (numbers.first_unacknowledged ≤ r.start)) }
        ensures value { (highest : ℕ) (hole : Option (ℕ × ℕ)) →
            IsEnd (board_of self.now.buffer runs.now) highest →
            IsHole (board_of self.now.buffer runs.now) numbers.first_unacknowledged
            (min numbers.sent limit) hole →
            result ≡ as_range (next_probe (recovery_of self.now.buffer.recovery)
            (max 1 (max self.now.segment_size 1)) numbers.first_unacknowledged numbers.sent limit
            highest hole) }
    {
        self.buffer
            .next_probe(runs, numbers, limit, self.segment_size())
    }

    /// Returns what the recovery sends next below a limit, unless that is held back.
    fn next_range(
        &self,
        runs: &[Run],
        queued: Queued,
        limit: u64,
        congestion_window: u64,
    ) -> Option<Range<u64>>
        requires sound { IsSoundBoard self.now.buffer.scoreboard runs.now }
        requires order { queued.numbers.first_unacknowledged ≤ queued.numbers.sent }
        ensures next { let k = known_of self.now runs.now queued in (lost others : Option (ℕ × ℕ)) →
            HolesOf k limit lost others →
            result ≡ due_part k (next_of k limit congestion_window lost others) }
        ensures within { let k = known_of self.now runs.now queued in
            IfSome result (λ r. (r.start < r.end) × (r.end ≤ limit) × (low k ≤ r.start)) }
        ensures due { let k = known_of self.now runs.now queued in
            IfSome result (λ r. IsTrue (due k r.start r.end)) }
        ensures late { let k = known_of self.now runs.now queued in IsTrue (in_hurry k) →
            IsFalse (is_active k.recovery (low k)) → low k ≡ high k → low k < limit →
            IsTrue (is_some result) }
    {
        let range = self.buffer.next(
            runs,
            queued.numbers,
            limit,
            congestion_window,
            self.segment_size(),
        )?;
        if self.is_due(queued, range.start, range.end) {
            Some(range)
        } else {
            None
        }
    }

    /// Returns whether a range isn't held back: the timer asks for it, it was sent before, or it is worth a segment.
    fn is_due(&self, queued: Queued, from: u64, to: u64) -> bool
        ensures { result ≡ due (known_by self.now queued) from to }
    {
        let hurries = self.is_window_probe_due || self.is_overdue;
        hurries || from < queued.numbers.sent || self.is_worth(queued, from, to)
    }

    /// Returns whether a range is worth a segment (RFC 9293, 3.8.6.2.1): a whole one; or, unless Nagle's rule has it
    /// wait, all that is left, or half of the greatest window that the peer announced. By that rule it waits while
    /// something is in flight, and the stream isn't closed.
    fn is_worth(&self, queued: Queued, from: u64, to: u64) -> bool
        ensures { result ≡ worth_sending (known_by self.now queued) from to }
    {
        let numbers = queued.numbers;
        let is_whole = self.segment_size() as u64 <= to.saturating_sub(from);
        let waits = self.nagle_enabled()
            && numbers.first_unacknowledged < numbers.sent
            && !queued.is_closed;
        is_whole || self.is_enough(queued, from, to) && !waits
    }

    /// Returns whether a range is all that is left, or half of the greatest window that the peer announced.
    fn is_enough(&self, queued: Queued, from: u64, to: u64) -> bool
        ensures { result ≡ enough (known_by self.now queued) from to }
    {
        let len = to.saturating_sub(from);
        queued.end <= to || self.greatest_window.saturating_sub(len) <= len
    }

    /// Returns the segment that is to be sent now, and counts it as sent: if the peer's window and the congestion
    /// window have room for one, or as a probe. What was never sent is held back if it is less than a segment, unless
    /// it is all that is left, or half of the greatest window that the peer announced (RFC 9293, 3.8.6.2.1), and
    /// Nagle's rule doesn't have it wait. Once the timer has ended, the next segment isn't held back. While anything
    /// that was written isn't acknowledged, the timer runs.
    pub fn next_segment(
        &mut self,
        runs: &[Run],
        queued: Queued,
        bounds: TimeoutBounds,
        congestion_window: u64,
        now: Instant,
    ) -> Option<Outgoing>
        requires sound { IsSoundBoard self.old.buffer.scoreboard runs.now }
        requires order { queued.numbers.first_unacknowledged ≤ queued.numbers.sent }
        ensures sound { IsSoundBoard self.new.buffer.scoreboard runs.now }
        ensures chooses { (s : FiniteSenderState) (timeout : ℕ) → queued_of s ≡ queued →
            Chooses (end_of s self.old runs.now timeout bounds) congestion_window now result
            (end_of (marked s result) self.new runs.now timeout bounds) }
    {
        let (chosen, sending) = self.choose(runs, queued, congestion_window);
        let Some(range) = chosen else {
            // Not before something is sent: what `start` starts has no probe.
            if queued.numbers.first_unacknowledged < queued.end {
                self.timer.start(now);
            }
            return None;
        };
        let (from, to) = (range.start, range.end);
        self.timer.sent(bounds, from..to, queued.numbers, now);
        self.is_window_probe_due = false;
        self.is_overdue = false;
        self.buffer.sent(queued.numbers, range, sending);
        Some(Outgoing {
            pos: from,
            end: to,
            is_again: from < queued.numbers.sent,
        })
    }

    /// Returns the smoothed time of a round trip, once there was a sample.
    #[inline]
    #[must_use]
    pub fn round_trip(&self) -> Option<Duration>
        ensures { result ≡ round_trip (timer_of self.now.timer).timeout.estimate }
    {
        self.timer.rtt().map(|estimate| estimate.srtt())
    }

    /// Returns whether Nagle's rule is enabled.
    #[must_use]
    #[inline]
    pub fn nagle_enabled(&self) -> bool
        ensures { result ≡ not self.now.no_delay }
    {
        !self.no_delay
    }

    /// Returns the most bytes of a segment.
    #[must_use]
    #[inline]
    pub fn segment_size(&self) -> usize
        ensures { result ≡ max self.now.segment_size 1 }
    {
        self.segment_size.max(1)
    }

    /// Enables Nagle's rule (RFC 9293, 3.7.4), or disables it. While something that was sent isn't acknowledged, less
    /// than a whole segment waits by it, unless the stream is closed or the timer has ended. It is enabled at first, as
    /// in a socket of smoltcp: the RFC wants it so. Disable it where few bytes are written at a time, and none of them
    /// is to wait.
    #[inline]
    pub fn set_nagle_enabled(&mut self, enabled: bool)
        ensures rest { self.new ≡ record self.old { no_delay = self.new.no_delay } }
        ensures value { not self.new.no_delay ≡ enabled }
    {
        self.no_delay = !enabled;
    }
}

/// Takes the window that is announced. Returns the greatest one so far.
// Proof: A function of its own, since the search doesn't find what `take_window` leaves with this test in it.
fn greatest_after_update(
    peer: &mut PeerWindow,
    greatest: u64,
    numbers: SentNumbers,
    it: Announcement,
) -> u64
    ensures value { result ≡ greatest_of peer.old greatest numbers.first_unacknowledged numbers.sent
        it.seq it.ack it.window }
    ensures state { peer.new ≡ after_update peer.old numbers.first_unacknowledged numbers.sent
        it.seq it.ack it.window }
{
    if peer.update(numbers, it) {
        greatest.max(it.window)
    } else {
        greatest
    }
}

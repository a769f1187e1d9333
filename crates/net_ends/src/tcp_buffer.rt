//! What a sending end of TCP has sent, without a clock: what was reported of it, and what is lost by TCP's rules. (A
//! stream of QUIC has `net_receiver`'s `SendBuffer`, which is told of each loss.)
ghost use Rattle.std.specs.Prelude.{◌≡◌, ◌-◌, ◌+◌, ◌<◌, ◌≤◌, ℕ, Option, IsTrue, IsFalse, min, max, IfSome};
ghost use Rattle.std.specs.Prelude.{is_some, true, length, ◌↔◌, List};
ghost use Rattle.net_assembler.specs.Positions.{contains, with_range, nothing};
ghost use Rattle.net_tcp.specs.LossRecovery.{is_wrong, taken_back, was_sent_again, is_active, in_flight, next_segment};
ghost use Rattle.net_tcp.specs.LossRecovery.{next_range, resumed, recovery_of, as_range, gone_on, begins_at};
ghost use Rattle.net_tcp.specs.LossRecovery.{next_probe, new_recovery, no_loss};
ghost use Rattle.net_receiver.specs.Scoreboards.{IsEnd, IsHole, IsSoundBoard, reported_by as reported_to};
ghost use Rattle.net_receiver.specs.NewHeads.{scoreboard_head};
ghost use Rattle.net_ends.specs.Ends.{kept, has_dropped};
ghost use Rattle.net_ends.specs.Buffers.{board_of, is_repeat, is_window_probe, is_tail_probe};
ghost use Rattle.net_ends.specs.Acknowledgements.{with_block, is_new, after_blocks, reported_by, has_block, doubted};
ghost use Rattle.net_ends.specs.Acknowledgements.{is_duplicated, unsent_at, IsLeft, Recovers, begins_by, after_segment};
ghost use Rattle.net_ends.specs.Acknowledgements.{after_wait};

use net_assembler::Run;
use net_receiver::{ScoreboardHead, SentNumbers};
use net_tcp::{Answer, LentScoreboard, LossRecovery, is_duplicate_block, is_equal_acknowledgement};
use std::ops::Range;

/// What a sender has sent, and what is queued, in numbers.
#[derive(Copy, Clone, Debug, PartialEq, Eq)]
pub struct Queued {
    /// The first number that isn't acknowledged, and the one after the last that was sent.
    pub numbers: SentNumbers,
    /// The number after the last byte's, and after the end's once the stream is closed.
    pub end: u64,
    /// Whether the stream ends after what was written.
    pub is_closed: bool,
}

/// What was reported and what is lost of what a sender has sent: a scoreboard, and a recovery.
///
/// Its calls are given the sender's numbers and the scoreboard's runs; who holds both has the sender take what they
/// say. A head of zeros is new, of a stream that begins at position 0. It is sound if the scoreboard is, with the runs.
#[repr(C)]
#[derive(Copy, Clone, Debug)]
pub struct BufferHead {
    /// What was reported, with runs that the caller keeps.
    pub scoreboard: ScoreboardHead,
    /// What is lost.
    pub recovery: LossRecovery,
}

/// What kind of segment an acknowledgement came in. By it a sender of TCP tells one that only repeats the last, from
/// which it learns that a segment has arrived (RFC 5681, section 2).
#[derive(Copy, Clone, Debug, PartialEq, Eq)]
pub enum AckKind {
    /// It has no byte and no FIN, and announces the window that was announced last.
    Repeat,
    /// Any other: it has bytes or a FIN, or announces another window.
    Other,
}

impl AckKind {
    /// Returns whether it only repeats the last.
    fn is_repeat(self) -> bool
        ensures { result ≡ is_repeat self }
    {
        matches!(self, AckKind::Repeat)
    }
}

/// What an acknowledgement said that was taken.
#[derive(Copy, Clone, Debug, PartialEq, Eq)]
pub struct TakenAck {
    /// How many numbers it acknowledged that weren't before.
    pub new: u64,
    /// Whether a block of it reports what wasn't known.
    pub reports: bool,
    /// Whether it begins a recovery: then halve the congestion window.
    pub begins: bool,
}

/// Why a range is sent.
#[derive(Copy, Clone, Debug, PartialEq, Eq)]
pub enum Sending {
    /// As `next` returned it: a segment, or a part of it from its start on.
    Segment,
    /// As `next_probe` returned it: a probe for an answer (RFC 8985, 7.3).
    TailProbe,
    /// The peer's window is shut, so that it drops the range: a probe of the window (RFC 9293, 3.8.6.1).
    WindowProbe,
}

impl BufferHead {
    /// Returns that nothing was reported of a stream that begins at position `first`, and nothing is lost.
    pub const fn new_at(first: u64) -> Self
        ensures sound { (runs : List (ℕ × ℕ)) → IsSoundBoard result.scoreboard runs }
        ensures reported { (runs : List (ℕ × ℕ)) →
            board_of result runs ≡ with_range nothing 0 first }
        ensures recovery { recovery_of result.recovery ≡ new_recovery }
        ensures numbers { result ≡ record {
          scoreboard = scoreboard_head first;
          recovery = no_loss;
        } }
    {
        BufferHead {
            scoreboard: ScoreboardHead::new_at(first),
            recovery: LossRecovery::new(),
        }
    }

    /// Returns whether the scoreboard is sound with its runs. It looks at each used run.
    pub fn is_sound(&self, runs: &[Run]) -> bool
        ensures { IsTrue result ↔ IsSoundBoard self.now.scoreboard runs.now }
    {
        self.scoreboard.is_sound(runs)
    }

    /// Lends the scoreboard.
    fn board<'a>(&self, runs: &'a [Run]) -> LentScoreboard<'a>
        requires { IsSoundBoard self.now.scoreboard runs.now }
        ensures { result ≡ board_of self.now runs.now }
    {
        LentScoreboard::new(self.scoreboard, runs)
    }

    /// Returns whether a position was reported.
    pub fn contains(&self, runs: &[Run], pos: u64) -> bool
        requires { IsSoundBoard self.now.scoreboard runs.now }
        ensures { result ≡ contains (board_of self.now runs.now) pos }
    {
        self.scoreboard.contains(runs, pos)
    }

    /// Takes an acknowledgement of all below `ack` that the sender takes, with its blocks, in a segment of that
    /// kind. `numbers` are the sender's before that.
    pub fn acknowledged(
        &mut self,
        runs: &mut [Run],
        numbers: SentNumbers,
        ack: u64,
        blocks: &[Range<u64>],
        segment_size: usize,
        kind: AckKind,
    ) -> TakenAck
        requires { IsSoundBoard self.old.scoreboard runs.old }
        ensures sound { IsSoundBoard self.new.scoreboard runs.new }
        ensures length { length runs.new ≡ length runs.old }
        ensures reported { board_of self.new runs.new
            ≡ kept (reported_by (length runs.old) numbers.sent (board_of self.old runs.old) ack blocks.now).0
            ack numbers.sent }
        ensures new { result.new ≡ ack - numbers.first_unacknowledged }
        ensures reports { result.reports
            ≡ (reported_by (length runs.old) numbers.sent (board_of self.old runs.old) ack blocks.now).1 }
        ensures recovery { Recovers (length runs.old) segment_size numbers
            (unsent_at numbers.first_unacknowledged (board_of self.old runs.old) (recovery_of self.old.recovery))
            (board_of self.old runs.old) (recovery_of self.old.recovery) ack blocks.now (is_repeat kind) result.reports
            (recovery_of self.new.recovery) result.begins }
    {
        let before = self.recovery.before(numbers, &self.board(runs));
        self.scoreboard.acknowledge(runs, ack);
        let reports = report_blocks(&mut self.scoreboard, runs, blocks, numbers.sent);
        let is_bare = kind.is_repeat() && !has_block(blocks);
        let answer = Answer {
            before,
            reports,
            is_equal: is_equal_acknowledgement(numbers, ack, is_bare),
        };
        let begins = self.find_losses(runs, numbers, ack, blocks, segment_size, answer);
        TakenAck {
            new: ack.saturating_sub(numbers.first_unacknowledged),
            reports,
            begins,
        }
    }

    /// Finds what is lost by an acknowledgement, and returns whether a recovery begins.
    fn find_losses(
        &mut self,
        runs: &[Run],
        numbers: SentNumbers,
        ack: u64,
        blocks: &[Range<u64>],
        segment_size: usize,
        answer: Answer,
    ) -> bool
        requires { IsSoundBoard self.old.scoreboard runs.now }
        ensures sound { IsSoundBoard self.new.scoreboard runs.now }
        ensures reported { board_of self.new runs.now
            ≡ kept (board_of self.old runs.now) ack numbers.sent }
        ensures recovery { IsLeft segment_size ack numbers.sent answer (board_of self.old runs.now)
            (doubted numbers ack blocks.now (recovery_of self.old.recovery))
            (recovery_of self.new.recovery) result }
    {
        self.note_duplicate(numbers, ack, blocks);
        let after = SentNumbers {
            first_unacknowledged: ack,
            sent: numbers.sent,
        };
        find_losses(
            &mut self.recovery,
            &mut self.scoreboard,
            runs,
            after,
            segment_size,
            answer,
        )
    }

    /// Tells the recovery, if the first block reports what came twice.
    pub fn note_duplicate(&mut self, numbers: SentNumbers, ack: u64, blocks: &[Range<u64>])
        ensures rest { self.new.scoreboard ≡ self.old.scoreboard }
        ensures recovery { recovery_of self.new.recovery
            ≡ doubted numbers ack blocks.now (recovery_of self.old.recovery) }
    {
        if is_duplicated(ack, blocks) {
            let block = &blocks[0];
            self.recovery.came_twice(numbers, block.start..block.end);
        }
    }

    /// Returns whether the last recovery was for nothing, and ends it then.
    pub fn take_back(&mut self, runs: &[Run], numbers: SentNumbers) -> bool
        requires { IsSoundBoard self.old.scoreboard runs.now }
        ensures rest { self.new.scoreboard ≡ self.old.scoreboard }
        ensures value { result
            ≡ is_wrong (recovery_of self.old.recovery) numbers.first_unacknowledged (board_of self.old runs.now) }
        ensures state { recovery_of self.new.recovery ≡ taken_back numbers.first_unacknowledged
            (board_of self.old runs.now) (recovery_of self.old.recovery) }
    {
        let board = self.board(runs);
        self.recovery.take_back(numbers, &board)
    }

    /// Finds what is overdue, where nothing was reported for two round trips, and returns whether a recovery begins.
    pub fn fell_silent(&mut self, runs: &[Run], numbers: SentNumbers) -> bool
        requires { IsSoundBoard self.old.scoreboard runs.now }
        ensures rest { self.new.scoreboard ≡ self.old.scoreboard }
        ensures recovery { (highest : ℕ) → IsEnd (board_of self.old runs.now) highest →
            recovery_of self.new.recovery
            ≡ after_wait true numbers highest (recovery_of self.old.recovery) }
        ensures begins { (highest : ℕ) → IsEnd (board_of self.old runs.now) highest →
            result ≡ begins_by numbers highest (recovery_of self.old.recovery) }
    {
        let board = self.board(runs);
        self.recovery.fell_silent(numbers, &board)
    }

    /// Returns the range to send next below `limit`, at most a segment: what is lost, else what was never sent. `None`
    /// if there is none, or if with a whole segment more than the congestion window would be in flight. The first
    /// unacknowledged number is sent whatever is in flight.
    pub fn next(
        &self,
        runs: &[Run],
        numbers: SentNumbers,
        limit: u64,
        congestion_window: u64,
        segment_size: usize,
    ) -> Option<Range<u64>>
        requires { IsSoundBoard self.now.scoreboard runs.now }
        ensures next { (lost others : Option (ℕ × ℕ)) → let low = numbers.first_unacknowledged in
            let r = recovery_of self.now.recovery in
            IsHole (board_of self.now runs.now) (resumed r low) (min (min r.turn r.lost) limit) lost →
            IsHole (board_of self.now runs.now) (gone_on r low) (min r.lost limit) others →
            result ≡ as_range (next_segment low (in_flight r low numbers.sent (board_of self.now runs.now))
            congestion_window (max 1 segment_size) (next_range r low numbers.sent limit lost others)) }
        ensures within { IfSome result (λ r. (r.start < r.end) × (r.end ≤ limit)
            × (r.end ≤ r.start + max 1 segment_size)) }
        ensures begins { let low = numbers.first_unacknowledged in
            IsFalse (is_active (recovery_of self.now.recovery) low) →
            low ≡ numbers.sent → low < limit → IsTrue (begins_at low result) }
        ensures after { numbers.first_unacknowledged ≤ numbers.sent →
            IfSome result (λ r. numbers.first_unacknowledged ≤ r.start) }
        ensures once { IfSome result (λ r. (p : ℕ) → r.start ≤ p → p < r.end → p < numbers.sent →
            IsFalse (contains (board_of self.now runs.now) p)
            × IsFalse (was_sent_again (recovery_of self.now.recovery) numbers.first_unacknowledged p)) }
        ensures fresh { IsFalse (is_active (recovery_of self.now.recovery) numbers.first_unacknowledged) →
            IfSome result (λ r. r.start ≡ numbers.sent) }
    {
        self.recovery.next_segment(
            numbers,
            &self.board(runs),
            limit,
            congestion_window,
            segment_size,
        )
    }

    /// Returns what a probe for an answer sends below `limit`, whatever is in flight: in a recovery the first segment
    /// that isn't reported, else a new one, and if the limit allows none, the last one.
    pub fn next_probe(
        &self,
        runs: &[Run],
        numbers: SentNumbers,
        limit: u64,
        segment_size: usize,
    ) -> Option<Range<u64>>
        requires { IsSoundBoard self.now.scoreboard runs.now }
        ensures value { (highest : ℕ) (hole : Option (ℕ × ℕ)) →
            let low = numbers.first_unacknowledged in
            IsEnd (board_of self.now runs.now) highest →
            IsHole (board_of self.now runs.now) low (min numbers.sent limit) hole →
            result ≡ as_range (next_probe (recovery_of self.now.recovery) (max 1 segment_size) low
            numbers.sent limit highest hole) }
        ensures progress { numbers.first_unacknowledged < min numbers.sent limit →
            IsFalse (contains (board_of self.now runs.now) numbers.first_unacknowledged) →
            IsTrue (is_some result) }
        ensures unreported { IfSome result (λ r. (p : ℕ) → r.start ≤ p → p < r.end →
            p < numbers.sent → IsFalse (contains (board_of self.now runs.now) p)) }
        ensures within { IfSome result (λ r. (r.start < r.end) × (r.end ≤ limit)
            × (r.end ≤ r.start + max 1 segment_size)) }
        ensures after { numbers.first_unacknowledged ≤ numbers.sent →
            IfSome result (λ r. numbers.first_unacknowledged ≤ r.start) }
    {
        self.recovery
            .next_probe(numbers, &self.board(runs), limit, segment_size)
    }

    /// Takes notice that a range is sent now, and why. `numbers` are the sender's before that.
    pub fn sent(&mut self, numbers: SentNumbers, range: Range<u64>, sending: Sending)
        ensures rest { self.new.scoreboard ≡ self.old.scoreboard }
        ensures recovery { recovery_of self.new.recovery
            ≡ after_segment numbers range.start range.end (is_window_probe sending) (is_tail_probe sending)
            (recovery_of self.old.recovery) }
    {
        match sending {
            Sending::Segment => self.recovery.sent(numbers, range),
            Sending::TailProbe => self.recovery.probe_sent(numbers, range),
            // The peer drops it.
            Sending::WindowProbe => self.recovery.stalled(SentNumbers {
                first_unacknowledged: numbers.first_unacknowledged,
                sent: numbers.sent.max(range.end),
            }),
        }
    }
}

/// Finds what is lost by an acknowledgement, and returns whether a recovery begins. If the peer has dropped what it had
/// reported, that is lost: else it would acknowledge it (RFC 2018, section 8). Nothing counts as reported any more
/// then. A function of its own: where something was dropped, nothing is searched.
fn find_losses(
    recovery: &mut LossRecovery,
    board: &mut ScoreboardHead,
    runs: &[Run],
    after: SentNumbers,
    segment_size: usize,
    answer: Answer,
) -> bool
    requires { IsSoundBoard board.old runs.now }
    ensures sound { IsSoundBoard board.new runs.now }
    ensures reported { reported_to board.new runs.now
        ≡ kept (reported_to board.old runs.now) after.first_unacknowledged after.sent }
    ensures recovery { IsLeft segment_size after.first_unacknowledged after.sent answer
        (reported_to board.old runs.now) (recovery_of recovery.old) (recovery_of recovery.new) result }
{
    let seen = LentScoreboard::new(*board, runs);
    if has_dropped(board, runs, after) {
        let begins = recovery.reports_dropped(after, &seen);
        *board = ScoreboardHead::new_at(after.first_unacknowledged);
        return begins;
    }
    recovery.acknowledged(after, &seen, segment_size, answer)
}

/// Returns whether the peer has dropped what it had reported: it acknowledges up to such a number.
fn has_dropped(board: &ScoreboardHead, runs: &[Run], after: SentNumbers) -> bool
    requires { IsSoundBoard board.now runs.now }
    ensures { result
        ≡ has_dropped (reported_to board.now runs.now) after.first_unacknowledged after.sent }
{
    after.first_unacknowledged < after.sent && board.contains(runs, after.first_unacknowledged)
}

/// Reports blocks. Returns whether one of them reports what wasn't known.
fn report_blocks(
    board: &mut ScoreboardHead,
    runs: &mut [Run],
    blocks: &[Range<u64>],
    sent: u64,
) -> bool
    requires { IsSoundBoard board.old runs.old }
    ensures sound { IsSoundBoard board.new runs.new }
    ensures length { length runs.new ≡ length runs.old }
    ensures state { reported_to board.new runs.new
        ≡ (after_blocks (length runs.old) sent (reported_to board.old runs.old) blocks.now).0 }
    ensures value { result
        ≡ (after_blocks (length runs.old) sent (reported_to board.old runs.old) blocks.now).1 }
{
    let mut reports = false;
    for block in blocks {
        if report_block(board, runs, block, sent) {
            reports = true;
        }
    }
    reports
}

/// Reports a block, if it begins beyond the first position that wasn't reported. Returns whether that wasn't known:
/// what is refused is sent again.
// Proof: A function of its own, so that a step of the loop is one call.
fn report_block(board: &mut ScoreboardHead, runs: &mut [Run], block: &Range<u64>, sent: u64) -> bool
    requires { IsSoundBoard board.old runs.old }
    ensures sound { IsSoundBoard board.new runs.new }
    ensures length { length runs.new ≡ length runs.old }
    ensures state { reported_to board.new runs.new
        ≡ with_block (length runs.old) sent (reported_to board.old runs.old) block.now }
    ensures value { result
        ≡ is_new (length runs.old) sent (reported_to board.old runs.old) block.now }
{
    if block.start <= board.first_unreported() {
        return false;
    }
    let is_new = board.first_missing(runs, block.start) < block.end;
    board.report(runs, block.start, block.end, sent).is_ok() && is_new
}

/// Returns whether one of the blocks has a position.
fn has_block(blocks: &[Range<u64>]) -> bool
    ensures { result ≡ has_block blocks.now }
{
    blocks.iter().any(|block| block.start < block.end)
}

/// Returns whether the first block reports what came twice.
fn is_duplicated(ack: u64, blocks: &[Range<u64>]) -> bool
    ensures { result ≡ is_duplicated ack blocks.now }
{
    if blocks.is_empty() {
        return false;
    }
    is_duplicate_block(ack, &blocks[0], blocks.get(1))
}

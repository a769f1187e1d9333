//! The ranges of a stream that have arrived, for a program that keeps the bytes itself.

// Why: A call of `keep` takes one part of a segment, and the program calls it until there is none. So the ranges change
// only with a part that the program has, and no part waits in a value that it could forget. A segment of several parts
// is the exception. Each part but a lone one joins a held run, so no refusal comes between the parts of a segment.
#![tactic(auto)]

ghost use Rattle.std.specs.Prelude.{◌≡◌, ◌≤◌, ◌<◌, ◌-◌, ◌+◌, ◌^◌, length, Some, None, Err, OnErr, IsTrue, IsFalse, min};
ghost use Rattle.std.specs.Prelude.{List, ℕ, ◌==◌};
ghost use Rattle.net_assembler.specs.Positions.{contains, first_missing, maximal_runs};
ghost use Rattle.net_assembler.specs.RunLists.{HasSoundRuns, set_of};
ghost use Rattle.net_receiver.specs.StreamRanges.{fresh_ranges, next_of_ranges, limit_of_ranges, ranges_can_end};
ghost use Rattle.net_receiver.specs.StreamRanges.{KeepsNew, ranges_after_read, ranges_of, HasSoundRanges, IsNewPart};
ghost use Rattle.net_receiver.specs.Head.{next_at};
ghost use Rattle.net_receiver.specs.{no_end};

use crate::finite_receiver_head::{FiniteReceiverHead, after_end_with, bytes_end, known_end};
use crate::held_runs::HeldRunIter;
use crate::kept::FiniteError;
use crate::stream_receiver::every;
use net_assembler::{AssemblerHead, Run};
use net_ring::{ManagedSlice, Storage};
use std::marker::Model;
use std::mem::replace;
use std::ops::Range;

/// [`StreamRanges`] over any storage.
///
/// It tells which bytes of a stream have arrived, for a program that keeps them itself, as where QUIC's frames share
/// the memory of their datagram. A position is the number of a byte in its stream, 64 bits. Store the bytes of each
/// part that `keep` returns. Those below `next`, the first missing position, can be read. Above it are waiting ranges,
/// which names call *runs* or *held*, and what is missing before one is a hole. No call allocates. (Not in smoltcp.)
///
/// It differs from a `StreamReceiver` in two ways. Bytes that arrive again never replace waiting ones, since each
/// position comes in one part alone. And a FIN that contradicts what has arrived is refused, even one in order.
pub struct StreamRangesOver<R: Storage<Run>> {
    // Invariant: head and runs are sound for the capacity. Of the head's ring only the length is used.
    head: FiniteReceiverHead,
    capacity: usize,
    runs: R,
}

/// Which bytes of a stream have arrived, for a program that keeps them itself. Its storage is lent or owned, and its
/// calls are those of [`StreamRangesOver`].
///
/// ```
/// use net_base::finite::StreamRanges;
/// use net_base::storage::Run;
/// use std::collections::BTreeMap;
///
/// let mut ranges = StreamRanges::new_at(vec![Run::EMPTY; 8], 0, 1000);
/// let mut chunks = BTreeMap::new();
/// // Three frames of "stream of bytes". The second one has the first one's bytes too.
/// for (start, bytes, fin) in [(7, &b"of "[..], false), (5, &b"m of bytes"[..], true), (0, &b"stream"[..], false)] {
///     let range = start..start + bytes.len() as u64;
///     while let Some(part) = ranges.keep(range.clone(), fin)? {
///         chunks.insert(part.start, &bytes[(part.start - start) as usize..(part.end - start) as usize]);
///     }
/// }
/// assert_eq!((ranges.next(), ranges.is_complete()), (15, true));
/// assert_eq!(chunks.into_values().collect::<Vec<_>>().concat(), b"stream of bytes");
/// # Ok::<(), net_base::finite::FiniteError>(())
/// ```
pub type StreamRanges<'a> = StreamRangesOver<ManagedSlice<'a, Run>>;

/// Contracts see which positions have arrived, and the numbers.
impl<R: Storage<Run>> Model for StreamRangesOver<R> {
    ghost use Rattle.net_receiver.specs.StreamRanges.{RangesState, ranges_code, ranges_of, HasSoundRanges};

    ghost Value = { RangesState };

    ghost coded = { ranges_code };

    ghost view = { λ a. ranges_of a.head a.capacity (R.elements a.runs) };

    ghost invariant = { λ a. HasSoundRanges a.head a.capacity (R.elements a.runs) };
}

/// Written by hand, so that storage that isn't `Drop` can be used too.
impl<R: Storage<Run> + Drop> Drop for StreamRangesOver<R> {
    fn drop(self) {
        let StreamRangesOver {
            head: _,
            capacity: _,
            runs,
        } = self;
        drop(runs);
    }
}

impl<R: Storage<Run>> StreamRangesOver<R> {
    /// Returns the ranges of a stream that begins at position `first`; nothing has arrived.
    ///
    /// `capacity` bytes can arrive from the first unread one on. Pass `usize::MAX` if you enforce the window yourself.
    /// `runs` has an element for each waiting range; without any, only what comes in order is taken.
    ///
    /// ```
    /// # use net_base::finite::StreamRangesOver;
    /// # use net_base::storage::Run;
    /// let ranges = StreamRangesOver::over_at([Run::EMPTY; 3], 100, 16);
    /// assert_eq!((ranges.next(), ranges.capacity(), ranges.most_runs()), (100, 16, 3));
    /// ```
    ///
    /// # Requires
    ///
    /// `first` is below `u64::MAX`: no stream can end there.
    #[must_use]
    #[track_caller]
    pub const fn over_at(runs: R, first: u64, capacity: usize) -> Self
        requires { first < no_end }
        ensures { result ≡ fresh_ranges first capacity (length (R.elements runs)) }
    {
        prove!(first < u64::MAX, "no number is left for an end");
        StreamRangesOver {
            head: FiniteReceiverHead::new(first),
            capacity,
            runs,
        }
    }

    /// Returns the storage. Its contents are unspecified.
    ///
    /// ```
    /// # use net_base::finite::StreamRangesOver;
    /// # use net_base::storage::Run;
    /// assert_eq!(StreamRangesOver::over_at([Run::EMPTY; 3], 0, 16).into_storage().len(), 3);
    /// ```
    #[must_use]
    pub fn into_storage(self) -> R
        ensures { length (R.elements result) ≡ self.most_runs }
    {
        let StreamRangesOver {
            head: _,
            capacity: _,
            runs,
        } = self;
        runs
    }

    /// Begins again, with the same storage and capacity: a stream that begins at position `first`; nothing has arrived.
    ///
    /// ```
    /// # use net_base::finite::StreamRanges;
    /// # use net_base::storage::Run;
    /// let mut ranges = StreamRanges::new_at(vec![Run::EMPTY; 3], 0, 16);
    /// assert_eq!(ranges.keep(0..3, true), Ok(Some(0..3)));
    /// ranges.reset_at(7);
    /// assert_eq!((ranges.next(), ranges.queued(), ranges.end()), (7, 0, None));
    /// ```
    ///
    /// # Requires
    ///
    /// `first` is below `u64::MAX`: no stream can end there.
    #[track_caller]
    pub fn reset_at(&mut self, first: u64)
        requires { first < no_end }
        ensures { self.new ≡ fresh_ranges first self.old.capacity self.old.most_runs }
    {
        prove!(first < u64::MAX, "no number is left for an end");
        self.head = FiniteReceiverHead::new(first);
    }

    /// Sets the capacity to a larger one: so many bytes can arrive, from the first unread one on.
    ///
    /// ```
    /// # use net_base::finite::StreamRanges;
    /// # use net_base::storage::Run;
    /// let mut ranges = StreamRanges::new_at(vec![Run::EMPTY; 3], 0, 4);
    /// assert_eq!(ranges.keep(0..9, false), Ok(Some(0..4)));
    /// ranges.grow(16);
    /// assert_eq!(ranges.keep(0..9, false), Ok(Some(4..9)));
    /// ```
    ///
    /// # Requires
    ///
    /// `larger` is at least `capacity`.
    #[track_caller]
    pub fn grow(&mut self, larger: usize)
        requires { self.old.capacity ≤ larger }
        ensures { self.new ≡ record self.old { capacity = larger } }
    {
        prove!(larger >= self.capacity(), "a smaller capacity");
        self.capacity = larger;
    }

    /// Moves the waiting ranges to a larger storage, and returns the old one, whose contents are unspecified.
    ///
    /// ```
    /// # use net_base::finite::{FiniteError, StreamRanges};
    /// # use net_base::storage::Run;
    /// let mut ranges = StreamRanges::new_at(Vec::new(), 0, 16);
    /// assert_eq!(ranges.keep(3..4, false), Err(FiniteError::TooManyHoles));
    /// ranges.grow_runs(vec![Run::EMPTY; 8].into());
    /// assert_eq!(ranges.keep(3..4, false), Ok(Some(3..4)));
    /// ```
    ///
    /// # Requires
    ///
    /// `more` has at least `most_runs` elements.
    #[track_caller]
    pub fn grow_runs(&mut self, mut more: R) -> R
        requires { self.old.most_runs ≤ length (R.elements more) }
        ensures state { self.new ≡ record self.old { most_runs = length (R.elements more) } }
        ensures old { length (R.elements result) ≡ self.old.most_runs }
    {
        prove!(more.count() >= self.most_runs(), "fewer runs");
        let count = more.count();
        let to = more.part_mut(0, count);
        self.head.move_runs(every(&self.runs), to);
        replace(&mut self.runs, more)
    }

    /// Keeps the first new part of a segment, and returns it: `None` if none of the segment is new.
    ///
    /// A position is new if it is in the free window, below the end, and in no part yet. `fin` says that the stream
    /// ends where the range ends, also if no position of the range is new. A FIN above `window_end` isn't kept, and has
    /// to come again.
    ///
    /// Call it until it returns `None`, since waiting ranges can divide the segment. Only the first of these calls can
    /// return an error. An empty or reversed range has no position.
    ///
    /// ```
    /// # use net_base::finite::{FiniteError, StreamRanges};
    /// # use net_base::storage::Run;
    /// let mut ranges = StreamRanges::new_at(vec![Run::EMPTY; 1], 0, 16);
    /// assert_eq!(ranges.keep(2..4, false), Ok(Some(2..4)));
    /// assert_eq!(ranges.keep(6..8, false), Err(FiniteError::TooManyHoles));
    /// assert_eq!(ranges.keep(0..3, true), Err(FiniteError::OtherEnd));
    /// assert_eq!(ranges.keep(0..6, true), Ok(Some(0..2)));
    /// assert_eq!(ranges.keep(0..6, true), Ok(Some(4..6)));
    /// assert_eq!((ranges.keep(0..6, true), ranges.is_complete()), (Ok(None), true));
    /// ```
    ///
    /// # Errors
    ///
    /// `OtherEnd` if the stream can't end there, as `can_end` tells. Else `TooManyHoles` if the part would make too
    /// many waiting ranges; a part that begins at `next` never does. After an error nothing has changed.
    #[inline]
    pub fn keep(&mut self, range: Range<u64>, fin: bool) -> Result<Option<Range<u64>>, FiniteError>
        ensures kept { KeepsNew self.old range.start range.end fin result self.new }
        // Guarantee.
        ensures unchanged { OnErr result (self.new ≡ self.old) }
    {
        let count = self.runs.count();
        let runs = self.runs.part_mut(0, count);
        keep_part(&mut self.head, runs, self.capacity, range, fin)
    }

    /// Counts the first `count` queued bytes as read: the program has taken them.
    ///
    /// ```
    /// # use net_base::finite::StreamRanges;
    /// # use net_base::storage::Run;
    /// let mut ranges = StreamRanges::new_at(vec![Run::EMPTY; 3], 0, 16);
    /// assert_eq!(ranges.keep(0..3, false), Ok(Some(0..3)));
    /// ranges.read(2);
    /// assert_eq!((ranges.first_unread(), ranges.queued(), ranges.window_end()), (2, 1, Some(18)));
    /// ```
    ///
    /// # Requires
    ///
    /// At least `count` bytes are queued.
    #[inline]
    #[track_caller]
    pub fn read(&mut self, count: usize)
        requires { count ≤ self.old.queued }
        ensures { self.new ≡ ranges_after_read self.old count }
    {
        prove!(count <= self.queued(), "more bytes than are queued");
        read_queued(&mut self.head, count);
    }

    /// Returns whether the stream can end at a position. It can end at the known end alone or, while none is known,
    /// anywhere not below `next` or a waiting range's end. No stream ends at `u64::MAX`.
    ///
    /// ```
    /// # use net_base::finite::StreamRanges;
    /// # use net_base::storage::Run;
    /// let mut ranges = StreamRanges::new_at(vec![Run::EMPTY; 3], 0, 16);
    /// assert_eq!(ranges.keep(2..4, false), Ok(Some(2..4)));
    /// assert!(ranges.can_end(4) && !ranges.can_end(3));
    /// ```
    #[must_use]
    pub fn can_end(&self, pos: u64) -> bool
        ensures { result ≡ ranges_can_end self.now pos }
    {
        self.head.can_end(every(&self.runs), pos)
    }

    /// Returns the stream's end, QUIC's final size: the position after the last byte. `None` while it isn't known.
    ///
    /// ```
    /// # use net_base::finite::StreamRanges;
    /// # use net_base::storage::Run;
    /// let mut ranges = StreamRanges::new_at(vec![Run::EMPTY; 3], 0, 16);
    /// assert!(ranges.end().is_none() && ranges.keep(5..6, true).is_ok());
    /// assert_eq!(ranges.end(), Some(6));
    /// ```
    #[must_use]
    pub fn end(&self) -> Option<u64>
        ensures some { self.now.end < no_end → result ≡ Some self.now.end }
        ensures none { no_end ≤ self.now.end → result ≡ None }
    {
        known_end(self.head.after_end)
    }

    /// Returns whether all bytes and the end have arrived.
    ///
    /// ```
    /// # use net_base::finite::StreamRanges;
    /// # use net_base::storage::Run;
    /// let mut ranges = StreamRanges::new_at(vec![Run::EMPTY; 3], 0, 16);
    /// assert!(ranges.keep(2..3, true).is_ok() && !ranges.is_complete());
    /// assert!(ranges.keep(0..2, false).is_ok() && ranges.is_complete());
    /// ```
    #[inline]
    #[must_use]
    pub fn is_complete(&self) -> bool
        ensures { result ≡ (next_of_ranges self.now == self.now.end) }
    {
        self.head.is_complete()
    }

    /// Returns whether all bytes were read, up to the end.
    ///
    /// ```
    /// # use net_base::finite::StreamRanges;
    /// # use net_base::storage::Run;
    /// let mut ranges = StreamRanges::new_at(vec![Run::EMPTY; 3], 0, 16);
    /// assert!(ranges.keep(0..3, true).is_ok() && !ranges.has_read_all());
    /// ranges.read(3);
    /// assert!(ranges.has_read_all());
    /// ```
    #[inline]
    #[must_use]
    pub fn has_read_all(&self) -> bool
        ensures { result ≡ (self.now.first + self.now.read == self.now.end) }
    {
        self.head.has_read_all()
    }

    /// Returns the first missing position. All bytes below it have arrived.
    ///
    /// ```
    /// # use net_base::finite::StreamRanges;
    /// # use net_base::storage::Run;
    /// let mut ranges = StreamRanges::new_at(vec![Run::EMPTY; 3], 0, 16);
    /// assert!(ranges.keep(0..3, false).is_ok() && ranges.next() == 3);
    /// ```
    #[inline]
    #[must_use]
    pub fn next(&self) -> u64
        ensures { result ≡ next_of_ranges self.now }
    {
        self.head.receiver.next()
    }

    /// Returns the position of the first byte that wasn't read.
    ///
    /// ```
    /// # use net_base::finite::StreamRanges;
    /// # use net_base::storage::Run;
    /// let mut ranges = StreamRanges::new_at(vec![Run::EMPTY; 3], 0, 16);
    /// assert!(ranges.keep(0..3, false).is_ok());
    /// ranges.read(1);
    /// assert_eq!(ranges.first_unread(), 1);
    /// ```
    #[inline]
    #[must_use]
    pub fn first_unread(&self) -> u64
        ensures { result ≡ self.now.first + self.now.read }
    {
        self.head.receiver.first + self.head.receiver.count_read
    }

    /// Returns how many bytes can be read: those from `first_unread` on and below `next`.
    ///
    /// ```
    /// # use net_base::finite::StreamRanges;
    /// # use net_base::storage::Run;
    /// let mut ranges = StreamRanges::new_at(vec![Run::EMPTY; 3], 0, 16);
    /// assert!(ranges.keep(0..3, false).is_ok() && ranges.queued() == 3);
    /// ```
    #[inline]
    #[must_use]
    pub fn queued(&self) -> usize
        ensures { result ≡ self.now.queued }
    {
        self.head.receiver.queued()
    }

    /// Returns the window: how many bytes can arrive from `next` on, waiting ones included.
    ///
    /// ```
    /// # use net_base::finite::StreamRanges;
    /// # use net_base::storage::Run;
    /// let mut ranges = StreamRanges::new_at(vec![Run::EMPTY; 3], 0, 16);
    /// assert!(ranges.keep(0..3, false).is_ok() && ranges.window() == 13);
    /// ```
    #[inline]
    #[must_use]
    pub fn window(&self) -> usize
        ensures { result ≡ self.now.capacity - self.now.queued }
    {
        self.head.receiver.window(self.capacity)
    }

    /// Returns the end of the free window, `next` plus `window`, which a peer may be told. `None` if it doesn't fit 64
    /// bits. It never falls.
    ///
    /// ```
    /// # use net_base::finite::StreamRanges;
    /// # use net_base::storage::Run;
    /// let mut ranges = StreamRanges::new_at(vec![Run::EMPTY; 3], 5, 16);
    /// assert!(ranges.keep(5..8, false).is_ok() && ranges.window_end() == Some(21));
    /// ```
    #[inline]
    #[must_use]
    pub fn window_end(&self) -> Option<u64>
        ensures some { limit_of_ranges self.now < 2 ^ 64 →
            result ≡ Some (limit_of_ranges self.now) }
        ensures none { 2 ^ 64 ≤ limit_of_ranges self.now → result ≡ None }
    {
        self.head.receiver.window_end(self.capacity)
    }

    /// Returns the waiting ranges as positions (start, end), the end not included, in rising order. All are above
    /// `next`.
    ///
    /// ```
    /// # use net_base::finite::StreamRanges;
    /// # use net_base::storage::Run;
    /// let mut ranges = StreamRanges::new_at(vec![Run::EMPTY; 3], 0, 16);
    /// assert!(ranges.keep(2..4, false).is_ok());
    /// assert!(ranges.held().eq([(2, 4)]));
    /// ```
    #[must_use]
    pub fn held(&self) -> HeldRunIter<'_>
        ensures { result ≡ maximal_runs self.now.held }
    {
        self.head.receiver.held(every(&self.runs))
    }

    /// Returns how many bytes can arrive from the first unread one on.
    ///
    /// ```
    /// # use net_base::finite::StreamRanges;
    /// # use net_base::storage::Run;
    /// assert_eq!(StreamRanges::new_at(vec![Run::EMPTY; 3], 0, 16).capacity(), 16);
    /// ```
    #[inline]
    #[must_use]
    pub fn capacity(&self) -> usize
        ensures { result ≡ self.now.capacity }
    {
        self.capacity
    }

    /// Returns how many ranges can wait.
    ///
    /// ```
    /// # use net_base::finite::StreamRanges;
    /// # use net_base::storage::Run;
    /// assert_eq!(StreamRanges::new_at(vec![Run::EMPTY; 3], 0, 16).most_runs(), 3);
    /// ```
    #[inline]
    #[must_use]
    pub fn most_runs(&self) -> usize
        ensures { result ≡ self.now.most_runs }
    {
        self.runs.count()
    }
}

/// Keeps the first new part of a segment, as `StreamRangesOver::keep` does.
#[inline]
fn keep_part(
    head: &mut FiniteReceiverHead,
    runs: &mut [Run],
    capacity: usize,
    range: Range<u64>,
    fin: bool,
) -> Result<Option<Range<u64>>, FiniteError>
    requires { HasSoundRanges head.old capacity runs.old }
    ensures sound { HasSoundRanges head.new capacity runs.new }
    ensures keeps { KeepsNew (ranges_of head.old capacity runs.old) range.start range.end fin result
        (ranges_of head.new capacity runs.new) }
{
    if fin && !head.can_end(runs, range.end) {
        return Err(FiniteError::OtherEnd);
    }
    keep_new(head, runs, capacity, range, fin)
}

/// Keeps the first new part of a segment after which the stream can end.
#[inline]
fn keep_new(
    head: &mut FiniteReceiverHead,
    runs: &mut [Run],
    capacity: usize,
    range: Range<u64>,
    fin: bool,
) -> Result<Option<Range<u64>>, FiniteError>
    requires sound { HasSoundRanges head.old capacity runs.old }
    requires end { IsTrue fin →
        IsTrue (ranges_can_end (ranges_of head.old capacity runs.old) range.end) }
    ensures sound { HasSoundRanges head.new capacity runs.new }
    ensures keeps { KeepsNew (ranges_of head.old capacity runs.old) range.start range.end fin result
        (ranges_of head.new capacity runs.new) }
{
    let after_end = after_end_with(&head.receiver, head.after_end, capacity, range.end, fin);
    let (from, to) = new_offsets(head, runs, capacity, range.start, range.end);
    if from >= to {
        head.after_end = after_end;
        return Ok(None);
    }
    let next = head.receiver.next();
    net_ring::laws::is_usize(capacity);
    let Ok(queued) = head
        .receiver
        .held
        .add_then_remove_front(runs, from, to - from)
    else {
        return Err(FiniteError::TooManyHoles);
    };
    head.receiver.place.length += queued;
    prove!(head.receiver.place.length <= capacity, "in any `usize`");
    head.after_end = after_end;
    Ok(Some(next + from as u64..next + to as u64))
}

/// Returns the first new part of a segment, as offsets from the first missing position: its end isn't above its start
/// if there is none.
#[inline]
#[tactic(auto, using(crate::proofs::StreamRanges::no_part, crate::proofs::StreamRanges::not_next))]
fn new_offsets(
    head: &FiniteReceiverHead,
    runs: &[Run],
    capacity: usize,
    start: u64,
    end: u64,
) -> (usize, usize)
    requires { HasSoundRanges head.now capacity runs.now }
    ensures none { result.1 ≤ result.0 →
        IsNewPart (ranges_of head.now capacity runs.now) start end None }
    ensures some { result.0 < result.1 → IsNewPart (ranges_of head.now capacity runs.now) start end
        (Some (next_at head.now.receiver + result.0, next_at head.now.receiver + result.1)) }
    ensures in_order { start ≤ next_at head.now.receiver → 0 < result.0 → ⊥ }
    ensures within { result.1 ≤ capacity - head.now.receiver.place.length }
{
    let next = head.receiver.next();
    let window = head.receiver.window(capacity);
    let from = start.saturating_sub(next).min(window as u64) as usize;
    let below = end.min(bytes_end(head.after_end));
    let to = below.saturating_sub(next).min(window as u64) as usize;
    first_hole(&head.receiver.held, runs, from, to)
}

/// Returns the first range of missing offsets from `from` on and below `to`: its end isn't above its start if there is
/// none.
#[inline]
#[tactic(auto, using(crate::proofs::StreamRanges::holes))]
fn first_hole(held: &AssemblerHead, runs: &[Run], from: usize, to: usize) -> (usize, usize)
    requires { HasSoundRuns held.now runs.now }
    ensures begins { result.0 ≡ first_missing (set_of held.now runs.now) from }
    ensures within { result.1 ≤ to }
    ensures missing { (q : ℕ) → result.0 ≤ q → q < result.1 →
        IsFalse (contains (set_of held.now runs.now) q) }
    ensures ended { result.1 < to → (result.0 < result.1)
        × IsTrue (contains (set_of held.now runs.now) result.1) }
{
    if held.is_empty() {
        return (from, to);
    }
    let (start, end) = held.next_hole(runs, from);
    match end {
        Some(end) => (start, to.min(end)),
        None => (start, to),
    }
}

/// Takes the first `count` positions off the queue.
#[inline]
fn read_queued(head: &mut FiniteReceiverHead, count: usize)
    requires count { count ≤ head.old.receiver.place.length }
    requires fits { head.old.receiver.first + head.old.receiver.count_read
        + head.old.receiver.place.length < 2 ^ 64 }
    ensures sound { (capacity : ℕ) (runs : List (ℕ × ℕ)) → HasSoundRanges head.old capacity runs →
        HasSoundRanges head.new capacity runs }
    ensures state { (capacity : ℕ) (runs : List (ℕ × ℕ)) → ranges_of head.new capacity runs
        ≡ ranges_after_read (ranges_of head.old capacity runs) count }
{
    head.receiver.place.length -= count;
    head.receiver.count_read += count as u64;
}

//! A receiver in parts: a head of numbers, a storage, and runs that are kept elsewhere.
#![tactic(auto, using(crate::proofs::OneStream::heads))]

ghost use Rattle.std.specs.Prelude.{◌≡◌, ◌↔◌, ℕ, ◌+◌, ◌-◌, ◌<◌, ◌≤◌, ◌^◌, ◌%◌, List, length, All, IsTrue, IfOk, OnErr};
ghost use Rattle.std.specs.Prelude.{Some, None, min, ◌++◌, take, drop, ◌∷◌, ◌⊎◌};
ghost use Rattle.net_assembler.specs.Positions.{contains, maximal_runs, runs as run_count};
ghost use Rattle.net_assembler.specs.RunLists.{HasSoundRuns, IsCanonical, set_of};
ghost use Rattle.net_receiver.specs.Schedule.{piece};
ghost use Rattle.net_receiver.specs.ReceiverState.{verdict, state_after, numbers, first_three, fresh_receiver, domain};
ghost use Rattle.net_receiver.specs.ReceiverState.{IsSameState, receiver_after_read, count_between};
ghost use Rattle.net_receiver.specs.Finite.{queue_only};
ghost use Rattle.net_receiver.specs.NewHeads.{receiver_head};
ghost use Rattle.net_receiver.specs.Duplicates.{came, TellsPart, TellsFirst};
ghost use Rattle.net_receiver.specs.PartsOf.{parts_between};
ghost use Rattle.net_receiver.specs.Head.{receiver_of, HasSoundParts, HasSoundHeld, storage_after, head_after_read};
ghost use Rattle.net_receiver.specs.Head.{next_at, held_at, top_at, verdict_at, counts_of, with_admitted};
ghost use Rattle.net_ring.specs.Ring.{queue, contiguous_allocated, contiguous_queued};
ghost use Rattle.net_ring.specs.RingHead.{IsSound as IsSoundPlace, ring_at};
ghost use Rattle.net_receiver.specs.NewestRuns.{newest_runs, with_starts, run_at, with_run};

use crate::held_runs::{HeldRun, HeldRunIter, is_listed, remember};
use crate::kept::{KeptBytes, SegmentParts};
use net_assembler::assembler::Turns;
use net_assembler::{AssemblerHead, Run, TooManyHolesError};
use net_ring::RingHead;
use net_ring::width::most;

/// What a receiver has besides its storage and its held runs: numbers.
///
/// It serves callers who keep both elsewhere, as in the memory of a program in C. Each call takes
/// them as slices: as many bytes can be stored as the storage has, and as many runs can be held as
/// the slice of runs has elements.
///
/// A head, a storage and runs are *sound* if they are those of a receiver, as `is_sound` tests:
/// `HasSoundParts` in contracts, where `receiver_of` is what they store. Only the storage's length
/// matters, not its bytes. A call that requires this can't be made with a head and the runs of
/// another one, or a storage of another length. smoltcp has no such type.
#[repr(C)]
#[derive(Debug, Clone, Copy)]
pub struct ReceiverHead {
    /// The position of the stream's first byte.
    pub first: u64,
    /// How many bytes were read.
    pub count_read: u64,
    /// Where the queue is in the storage.
    pub place: RingHead,
    /// What the held runs are counted from, and how many there are.
    pub held: AssemblerHead,
}

impl ReceiverHead {
    /// Returns the head of a receiver of a stream that begins at position `first`; nothing is read,
    /// queued or held. It is sound with every storage and all runs.
    pub const fn new(first: u64) -> Self
        ensures sound { (capacity : ℕ) (runs : List (ℕ × ℕ)) → HasSoundParts result capacity runs }
        ensures state { (storage : List ℕ) (runs : List (ℕ × ℕ)) →
            receiver_of result storage runs ≡ fresh_receiver first (length storage) }
        ensures canonical { IsCanonical result.held }
        ensures numbers { result ≡ receiver_head first }
    {
        ReceiverHead {
            first,
            count_read: 0,
            place: RingHead {
                read_at: 0,
                length: 0,
            },
            held: AssemblerHead::new(),
        }
    }

    /// Begins again: the head of a receiver of a stream that begins at position `first`, as `new`
    /// returns it.
    // Proof: A function of its own, since the prover can't put a new head beside an array of runs in its caller.
    #[inline]
    pub(crate) fn reset_at(&mut self, first: u64)
        ensures sound { (capacity : ℕ) (runs : List (ℕ × ℕ)) →
            HasSoundParts self.new capacity runs }
        ensures state { (storage : List ℕ) (runs : List (ℕ × ℕ)) →
            receiver_of self.new storage runs ≡ fresh_receiver first (length storage) }
        ensures canonical { IsCanonical self.new.held }
    {
        *self = ReceiverHead::new(first);
    }

    /// Lets go of the held runs.
    // Proof: A function of its own, since its clauses are proved once of all storages, and its caller cites them.
    #[inline]
    pub(crate) fn release_held(&mut self)
        ensures sound { (capacity : ℕ) (runs : List (ℕ × ℕ)) →
            HasSoundParts self.old capacity runs →
            HasSoundParts self.new capacity runs }
        ensures state { (storage : List ℕ) (runs : List (ℕ × ℕ)) →
            receiver_of self.new storage runs ≡ queue_only (receiver_of self.old storage runs) }
        ensures place { self.new ≡ record self.old { held = self.new.held } }
        ensures canonical { IsCanonical self.new.held }
    {
        self.held = AssemblerHead::new();
    }

    /// Copies the bytes of a storage to a larger one, for which the head then is, with the same runs. A byte has
    /// another index there: the stream's byte number i is at i modulo the capacity.
    ///
    /// # Requires
    ///
    /// The queue is in the storage, and the other one is no smaller.
    pub(crate) fn grow(&mut self, storage: &[u8], larger: &mut [u8])
        requires place { IsSoundPlace (length storage.now) self.old.place }
        requires larger { length storage.now ≤ length larger.old }
        ensures sound { (runs : List (ℕ × ℕ)) → HasSoundParts self.old (length storage.now) runs →
            HasSoundParts self.new (length larger.new) runs }
        ensures state { (runs : List (ℕ × ℕ)) → HasSoundParts self.old (length storage.now) runs →
            receiver_of self.new larger.new runs
            ≡ record (receiver_of self.old storage.now runs) { capacity = length larger.new } }
        ensures numbers { (self.new.first ≡ self.old.first)
            × (self.new.count_read ≡ self.old.count_read)
            × (self.new.place.length ≡ self.old.place.length) }
        ensures held { self.new.held ≡ self.old.held }
    {
        let from = self.place.read_at;
        let to = RingHead {
            read_at: self.first_index(larger.len()),
            length: 0,
        };
        // The storage from its first queued byte on, and then the bytes before that.
        to.write_unallocated(larger, 0, &storage[from..]);
        to.write_unallocated(larger, storage.len() - from, &storage[..from]);
        self.place.read_at = to.read_at;
    }

    /// Returns the index of the first byte that wasn't read, in a storage of `capacity` bytes.
    fn first_index(&self, capacity: usize) -> usize
        ensures some { 0 < capacity → result ≡ self.now.count_read % capacity }
        ensures none { capacity ≡ 0 → result ≡ 0 }
        ensures within { (result ≡ 0) ⊎ (result < capacity) }
    {
        if capacity == 0 {
            return 0;
        }
        let index = self.count_read % capacity as u64;
        prove!(index < capacity as u64, "in any `usize`");
        index as usize
    }

    /// Returns whether this head, a storage of `capacity` bytes and runs are sound: `place` is that
    /// of a ring of the storage, whose `read_at` is `count_read` modulo the capacity; the first
    /// missing position fits 64 bits; `held` and the runs are those of an assembler without
    /// position 0; and each held position is in the free window, and the one after it fits 64 bits.
    /// It looks at each held run, and at no byte.
    pub fn is_sound(&self, capacity: usize, runs: &[Run]) -> bool
        ensures { IsTrue result ↔ HasSoundParts self.now capacity runs.now }
    {
        if !self.place.is_sound(capacity) {
            return false;
        }
        if !self.held.is_sound(runs) {
            return false;
        }
        if !self.reads_in_turn(capacity) {
            return false;
        }
        if !self.next_fits() {
            return false;
        }
        let positions = u64::MAX - self.next();
        let window = self.window(capacity);
        self.is_held_below((window as u64).min(positions), runs)
    }

    /// Returns whether the queue begins where the byte after those read has its index.
    fn reads_in_turn(&self, capacity: usize) -> bool
        ensures { IsTrue result ↔ (0 < capacity →
            self.now.place.read_at ≡ self.now.count_read % capacity) }
    {
        if capacity == 0 {
            return true;
        }
        self.place.read_at as u64 == self.count_read % capacity as u64
    }

    /// Returns whether the first missing position fits 64 bits.
    fn next_fits(&self) -> bool
        ensures { IsTrue result
            ↔ (self.now.first + self.now.count_read + self.now.place.length < 2 ^ 64) }
    {
        let rest = u64::MAX - self.first;
        if self.count_read > rest {
            return false;
        }
        self.place.length as u64 <= rest - self.count_read
    }

    /// Returns whether the offset of each held byte is above 0 and below `limit`.
    fn is_held_below(&self, limit: u64, runs: &[Run]) -> bool
        requires { HasSoundRuns self.now.held runs.now }
        ensures { IsTrue result ↔ ((p : ℕ) →
            IsTrue (contains (set_of self.now.held runs.now) p) → (0 < p) × (p < limit)) }
    {
        let used = self.held.used;
        if used == 0 {
            return true;
        }
        if self.held.first_start == 0 {
            return false;
        }
        let last = &runs[used - 1];
        let end = self.held.first_start + last.end;
        prove!(end <= most(), "in any `usize`");
        end as u64 <= limit
    }

    /// Returns the first three held runs.
    #[inline(always)]
    pub(crate) fn first_runs(&self, runs: &[Run]) -> [Option<(u64, u64)>; 3]
        requires { HasSoundHeld self.now runs.now }
        ensures { result ≡ first_three (maximal_runs (held_at self.now runs.now)) }
    {
        let mut held = self.held(runs);
        [held.next(), held.next(), held.next()]
    }

    /// Keeps the bytes of a segment that are in the free window, as `ReceiverOver::keep` does. If it is
    /// refused, head, storage and runs stay as they were, with the runs that aren't in use.
    ///
    /// # Requires
    ///
    /// Head, storage and runs are sound, as `is_sound` tests, and the segment ends within 64 bits,
    /// as `ReceiverOver::fits` tests.
    #[inline(always)]
    pub fn keep(
        &mut self,
        storage: &mut [u8],
        runs: &mut [Run],
        pos: u64,
        bytes: &[u8],
    ) -> Result<KeptBytes, TooManyHolesError>
        requires sound { HasSoundParts self.old (length storage.old) runs.old }
        requires fits { pos + length bytes.now < 2 ^ 64 }
        ensures state { let v = receiver_of self.old storage.old runs.old in
            receiver_of self.new storage.new runs.new ≡ state_after v
            (verdict (length runs.old) v (piece pos bytes.now)) }
        ensures stored { let v = receiver_of self.old storage.old runs.old in
            storage.new ≡ storage_after self.old storage.old
            (verdict (length runs.old) v (piece pos bytes.now)) }
        ensures numbers { let v = receiver_of self.old storage.old runs.old in
            result ≡ numbers v
            (verdict (length runs.old) v (piece pos bytes.now)) }
        ensures sound { HasSoundParts self.new (length storage.new) runs.new }
        ensures unchanged { OnErr result ((self.new ≡ self.old) × (storage.new ≡ storage.old)
            × (runs.new ≡ runs.old)) }
        ensures canonical { IsCanonical self.old.held → IsCanonical self.new.held }
    {
        let place = self.place;
        let it = self.admit(runs, storage.len(), pos, bytes.len())?;
        if it.counts.kept == 0 {
            // Numbers written out: with `it.counts` this path is three times as slow.
            return Ok(KeptBytes { kept: 0, queued: 0 });
        }
        let rest = &bytes[it.skip..];
        let part = &rest[..it.counts.kept];
        place.write_unallocated(storage, it.offset, part);
        Ok(it.counts)
    }

    /// Takes the numbers of a segment of `len` bytes, as `keep` does, where the storage has `capacity` bytes. It writes
    /// no byte: what it returns says which bytes are kept, and where.
    // Proof: A function of its own, since its clauses are proved once of all bytes of a storage, before `keep` writes
    // some.
    #[inline(always)]
    pub(crate) fn admit(
        &mut self,
        runs: &mut [Run],
        capacity: usize,
        pos: u64,
        len: usize,
    ) -> Result<Admitted, TooManyHolesError>
        requires sound { HasSoundParts self.old capacity runs.old }
        requires fits { pos + len < 2 ^ 64 }
        ensures sound { HasSoundParts self.new capacity runs.new }
        // Whatever the storage's bytes and the segment's are.
        ensures state { (xs bytes : List ℕ) → length xs ≡ capacity → length bytes ≡ len →
            let x = verdict_at self.old runs.old xs pos bytes in
            receiver_of self.new (storage_after self.old xs x) runs.new
            ≡ state_after (receiver_of self.old xs runs.old) x }
        ensures numbers { (xs bytes : List ℕ) → length xs ≡ capacity → length bytes ≡ len →
            let x = verdict_at self.old runs.old xs pos bytes in
            counts_of result ≡ numbers (receiver_of self.old xs runs.old) x }
        ensures stored { (xs bytes : List ℕ) → length xs ≡ capacity → length bytes ≡ len →
            let x = verdict_at self.old runs.old xs pos bytes in
            storage_after self.old xs x ≡ with_admitted self.old xs result bytes }
        ensures within { IfOk result (λ it. (it.skip + it.counts.kept ≤ len)
            × (it.counts.kept ≤ capacity - self.old.place.length - it.offset)) }
        ensures none { IfOk result (λ it. it.counts.kept ≡ 0 → it.counts.queued ≡ 0) }
        ensures unchanged { OnErr result ((self.new ≡ self.old) × (runs.new ≡ runs.old)) }
        ensures canonical { IsCanonical self.old.held → IsCanonical self.new.held }
    {
        let next = self.next();
        let window = self.window(capacity);
        let late = next.saturating_sub(pos);
        let ahead = pos.saturating_sub(next);
        if late >= len as u64 || ahead >= window as u64 {
            let counts = KeptBytes { kept: 0, queued: 0 };
            return Ok(Admitted {
                skip: 0,
                offset: 0,
                counts,
            });
        }
        prove!(late <= len as u64, "in any `usize`");
        let skip = late as usize;
        prove!(ahead <= window as u64, "in any `usize`");
        let offset = ahead as usize;
        let kept = (len - skip).min(window - offset);
        net_ring::laws::is_usize(window);
        let queued = self.held.add_then_remove_front(runs, offset, kept)?;
        self.place.enqueue(capacity, queued);
        Ok(Admitted {
            skip,
            offset,
            counts: KeptBytes { kept, queued },
        })
    }

    /// Moves bytes from the head of the queue to the beginning of `into`, and returns how many: as
    /// many as are queued and as `into` has room for. The rest of `into` stays as it is.
    ///
    /// # Requires
    ///
    /// The queue is in the storage, and the first missing position fits 64 bits, as they do where
    /// head, storage and runs are sound.
    #[inline]
    pub fn read(&mut self, storage: &[u8], into: &mut [u8]) -> usize
        requires place { IsSoundPlace (length storage.now) self.old.place }
        requires fits { self.old.first + self.old.count_read + self.old.place.length < 2 ^ 64 }
        ensures count { result ≡ min (length into.old) self.old.place.length }
        ensures into { let queued = queue (ring_at storage.now self.old.place) in
            into.new ≡ take (length into.old) queued ++ drop (length queued) into.old }
        ensures head { self.new ≡ head_after_read (length storage.now) result self.old }
        ensures sound { (runs : List (ℕ × ℕ)) → HasSoundParts self.old (length storage.now) runs →
            HasSoundParts self.new (length storage.now) runs }
        ensures state { (runs : List (ℕ × ℕ)) → HasSoundParts self.old (length storage.now) runs →
            receiver_of self.new storage.now runs
            ≡ receiver_after_read (receiver_of self.old storage.now runs) (length into.old) }
    {
        let count = self.place.dequeue_slice(storage, into);
        self.count_read += count as u64;
        count
    }

    /// Copies bytes from the head of the queue to the beginning of `into`, and returns how many: as
    /// many as are queued and as `into` has room for. The rest of `into` stays as it is, and the
    /// queue too.
    ///
    /// # Requires
    ///
    /// The queue is in the storage.
    // Proof: A function of its own, since its clauses are about a slice, and those of its caller about any storage.
    #[inline]
    pub(crate) fn peek_slice(&self, storage: &[u8], into: &mut [u8]) -> usize
        requires { IsSoundPlace (length storage.now) self.now.place }
        ensures count { result ≡ min (length into.old) self.now.place.length }
        ensures into { let queued = queue (ring_at storage.now self.now.place) in
            into.new ≡ take (length into.old) queued ++ drop (length queued) into.old }
    {
        self.place.read_allocated(storage, 0, into)
    }

    /// Shows bytes of the queue that are contiguous, from its byte `offset` on: `size`, or as many
    /// as there are up to the end of the queue or of the storage.
    ///
    /// # Requires
    ///
    /// The queue is in the storage.
    #[inline]
    pub(crate) fn peek<'a>(&self, storage: &'a [u8], offset: usize, size: usize) -> &'a [u8]
        requires { IsSoundPlace (length storage.now) self.now.place }
        ensures count { let g = ring_at storage.now self.now.place in
            length result.now ≡ contiguous_allocated g offset size }
        ensures not_empty { offset < self.now.place.length → 0 < size → 0 < length result.now }
        ensures value { let g = ring_at storage.now self.now.place in
            result.now ≡ take (length result.now) (drop offset (queue g)) }
    {
        let span = self.place.allocated(storage.len(), offset, size);
        &storage[span.from..span.from + span.contiguous]
    }

    /// Shows the queue, in order, in two parts: the bytes up to the storage's end, and those from
    /// its beginning on. The second part is empty unless the queue wraps.
    ///
    /// # Requires
    ///
    /// The queue is in the storage.
    // Proof: A function of its own, since its clauses are about a slice, and those of its caller about any storage.
    #[inline]
    pub(crate) fn as_slices<'a>(&self, storage: &'a [u8]) -> (&'a [u8], &'a [u8])
        requires { IsSoundPlace (length storage.now) self.now.place }
        ensures queue { result.0.now ++ result.1.now ≡ queue (ring_at storage.now self.now.place) }
        ensures cut { length result.0.now ≡ contiguous_queued (ring_at storage.now self.now.place) }
    {
        let span = self.place.allocated(storage.len(), 0, self.place.length);
        (
            &storage[span.from..span.from + span.contiguous],
            &storage[..span.count - span.contiguous],
        )
    }

    /// Removes the first `count` bytes of the queue, as `read` does, and copies none. `capacity` is
    /// how many bytes the storage has.
    ///
    /// # Requires
    ///
    /// The queue is in the storage, it has `count` bytes, and the first missing position fits 64
    /// bits.
    #[inline]
    pub fn remove(&mut self, capacity: usize, count: usize)
        requires place { IsSoundPlace capacity self.old.place }
        requires queued { count ≤ self.old.place.length }
        requires fits { self.old.first + self.old.count_read + self.old.place.length < 2 ^ 64 }
        ensures head { self.new ≡ head_after_read capacity count self.old }
        ensures sound { (runs : List (ℕ × ℕ)) → HasSoundParts self.old capacity runs →
            HasSoundParts self.new capacity runs }
        ensures state { (storage : List ℕ) (runs : List (ℕ × ℕ)) → length storage ≡ capacity →
            HasSoundParts self.old capacity runs → receiver_of self.new storage runs
            ≡ receiver_after_read (receiver_of self.old storage runs) count }
    {
        self.place.dequeue(capacity, count);
        self.count_read += count as u64;
    }

    /// Returns the first missing position: the first position, plus the count of bytes read, plus
    /// those queued.
    ///
    /// # Requires
    ///
    /// The sum fits 64 bits, as it does where head, storage and runs are sound.
    #[inline(always)]
    pub fn next(&self) -> u64
        requires { self.now.first + self.now.count_read + self.now.place.length < 2 ^ 64 }
        ensures { result ≡ self.now.first + self.now.count_read + self.now.place.length }
    {
        self.first + self.count_read + self.place.length as u64
    }

    /// Returns how many bytes are queued.
    #[inline(always)]
    pub(crate) fn queued(&self) -> usize
        ensures { result ≡ self.now.place.length }
    {
        self.place.length
    }

    /// Returns the window, where the storage has `capacity` bytes: how many bytes have room after
    /// the queue, held ones among them.
    ///
    /// # Requires
    ///
    /// No more is queued than the capacity, as is so where head, storage and runs are sound.
    #[inline(always)]
    pub fn window(&self, capacity: usize) -> usize
        requires { self.now.place.length ≤ capacity }
        ensures { result ≡ capacity - self.now.place.length }
    {
        capacity - self.place.length
    }

    /// Returns the end of the free window, where the storage has `capacity` bytes: the first
    /// position for which there is no room. `None` if it doesn't fit 64 bits.
    #[inline(always)]
    pub fn window_end(&self, capacity: usize) -> Option<u64>
        ensures some { self.now.first + self.now.count_read + capacity < 2 ^ 64 →
            result ≡ Some (self.now.first + self.now.count_read + capacity) }
        ensures none { 2 ^ 64 ≤ self.now.first + self.now.count_read + capacity → result ≡ None }
    {
        let read = self.first.checked_add(self.count_read)?;
        read.checked_add(capacity as u64)
    }

    /// Returns the held runs, as `ReceiverOver::held` does: at most as many as `runs` has elements.
    ///
    /// # Requires
    ///
    /// Head and runs are sound, as `is_sound` tests, with a storage of some length.
    #[inline(always)]
    pub fn held<'a>(&self, runs: &'a [Run]) -> HeldRunIter<'a>
        requires { HasSoundHeld self.now runs.now }
        ensures runs { result ≡ maximal_runs (held_at self.now runs.now) }
        ensures bound { length result ≤ length runs.now }
        ensures above { All (λ run. (next_at self.now < run.0) × (run.0 < run.1)) result }
        ensures within { (capacity : ℕ) → HasSoundParts self.now capacity runs.now →
            All (λ run. run.1 ≤ self.now.first + self.now.count_read + capacity) result }
    {
        HeldRunIter::over(self.held.iter_data(runs), self.next())
    }

    /// Returns how many runs are held, without a look at them.
    #[inline(always)]
    pub(crate) fn held_count(&self) -> usize
        ensures value { result ≡ self.now.held.used }
        ensures state { (storage : List ℕ) (runs : List (ℕ × ℕ)) →
            HasSoundParts self.now (length storage) runs →
            result ≡ run_count (domain (receiver_of self.now storage runs).held) }
    {
        self.held.used
    }

    /// Lists held runs at the beginning of `into`, the newest first, and returns how many: as many
    /// as are held, or as `into` has elements. The rest of `into` stays as it is.
    ///
    /// The first is the run that has `position`, that of the segment just taken, if it is held; then come the runs that
    /// have the positions in `recent`, in their order, and then the others, in rising order; each comes once. The call
    /// writes the starts of the runs that it lists to the beginning of `recent`, as many as there is room for. The
    /// caller sets `recent` to zeros before the first call, and doesn't change it afterwards. It is enough if `recent`
    /// and `into` have as many elements in each call as the longest acknowledgement has SACK blocks; a shorter one has
    /// the first of them. RFC 2018, section 4, wants this order. Each run that is listed is found by a search.
    ///
    /// # Requires
    ///
    /// Head and runs are sound, as `is_sound` tests, with a storage of some length.
    pub fn newest_runs(
        &self,
        runs: &[Run],
        position: u64,
        recent: &mut [u64],
        into: &mut [HeldRun],
    ) -> usize
        requires { HasSoundHeld self.now runs.now }
        ensures listed { take result into.new ≡ newest_runs (length into.old)
            (held_at self.now runs.now) (position ∷ recent.old) }
        ensures count { result ≤ length into.old }
        ensures rest { drop result into.new ≡ drop result into.old }
        ensures recent { recent.new
            ≡ with_starts recent.old (take result into.new) }
    {
        let count = self.list_runs(runs, position, recent, into);
        remember(recent, &into[..count]);
        count
    }

    /// Lists the runs as `newest_runs` does, and leaves `recent` as it is.
    fn list_runs(&self, runs: &[Run], position: u64, recent: &[u64], into: &mut [HeldRun]) -> usize
        requires { HasSoundHeld self.now runs.now }
        ensures listed { take result into.new ≡ newest_runs (length into.old)
            (held_at self.now runs.now) (position ∷ recent.now) }
        ensures count { result ≤ length into.old }
        ensures rest { drop result into.new ≡ drop result into.old }
    {
        let mut count = self.list_run(runs, position, into, 0);
        for i in 0..recent.len() {
            count = self.list_run(runs, recent[i], into, count);
        }
        for (start, _) in self.held(runs) {
            if count == into.len() {
                return count;
            }
            count = self.list_run(runs, start, into, count);
        }
        count
    }

    /// Lists the run that has a position after the first `count`, unless one of them has it, and
    /// returns how many are listed then.
    fn list_run(&self, runs: &[Run], position: u64, into: &mut [HeldRun], count: usize) -> usize
        requires sound { HasSoundHeld self.now runs.now }
        requires count { count ≤ length into.old }
        ensures listed { take result into.new ≡ with_run (length into.old)
            (held_at self.now runs.now) (take count into.old) position }
        ensures count { result ≤ length into.old }
        ensures rest { drop result into.new ≡ drop result into.old }
    {
        if count == into.len() || is_listed(&into[..count], position) {
            return count;
        }
        match self.run_at(runs, position) {
            Some((start, end)) => {
                into[count] = HeldRun { start, end };
                prove!(count + 1 <= into.len(), "in any `usize`");
                count + 1
            }
            None => count,
        }
    }

    /// Returns the held run that has a position, as (start, end), the end not included; `None` if
    /// the position isn't held.
    #[tactic(auto, using(crate::proofs::HeldSearches::held_runs))]
    fn run_at(&self, runs: &[Run], position: u64) -> Option<(u64, u64)>
        requires { HasSoundHeld self.now runs.now }
        ensures { result ≡ run_at (held_at self.now runs.now) position }
    {
        let next = self.next();
        if position < next {
            return None;
        }
        let offset = (position - next).min(most() as u64) as usize;
        let count = self.held.runs_by(runs, offset);
        if count == 0 {
            return None;
        }
        match self.held.run_at(runs, count - 1) {
            Some((start, end)) => {
                if offset < end {
                    Some((next + start as u64, next + end as u64))
                } else {
                    None
                }
            }
            None => None,
        }
    }

    /// Returns what of the positions from `pos` on and below `end` came before, as
    /// `ReceiverOver::duplicate_of` does.
    ///
    /// # Requires
    ///
    /// Head and runs are sound, as `is_sound` tests, with a storage of some length.
    pub fn duplicate_of(&self, runs: &[Run], pos: u64, end: u64) -> Option<(u64, u64)>
        requires { HasSoundHeld self.now runs.now }
        ensures { TellsPart (came self.now.first (next_at self.now) (held_at self.now runs.now))
            pos end result }
    {
        let next = self.next();
        let start = pos.max(self.first);
        let stop = end.min(next);
        if start < stop {
            return Some((start, stop));
        }
        self.held_part(runs, pos.max(next), end)
    }

    /// Returns the first of the positions from `from` on and below `end` that are held, up to the end of
    /// their run.
    #[tactic(auto, using(crate::proofs::HeldSearches::held_runs, crate::proofs::Duplicates::parts))]
    fn held_part(&self, runs: &[Run], from: u64, end: u64) -> Option<(u64, u64)>
        requires sound { HasSoundHeld self.now runs.now }
        requires from { next_at self.now ≤ from }
        ensures { TellsPart (λ q. contains (held_at self.now runs.now) q) from end result }
    {
        let next = self.next();
        let offset = (from - next).min(most() as u64) as usize;
        match self.first_held(runs, offset) {
            Some(start) => {
                let missing = self.held.first_missing(runs, start);
                let begin = next + start as u64;
                let stop = end.min(next + missing as u64);
                if begin < stop {
                    Some((begin, stop))
                } else {
                    None
                }
            }
            None => None,
        }
    }

    /// Returns the first offset of a held byte from `offset` on.
    #[tactic(auto, using(crate::proofs::Duplicates::here_first, crate::proofs::Duplicates::after_first))]
    fn first_held(&self, runs: &[Run], offset: usize) -> Option<usize>
        requires { HasSoundRuns self.now.held runs.now }
        ensures { TellsFirst (set_of self.now.held runs.now) offset result }
    {
        let (missing, after) = self.held.next_hole(runs, offset);
        if missing > offset {
            return Some(offset);
        }
        after
    }

    /// Returns where the bytes of a segment are, where the storage has `capacity` bytes, as
    /// `ReceiverOver::parts_of` does.
    ///
    /// # Requires
    ///
    /// No more is queued than the capacity, and the first missing position fits 64 bits, as is so where head,
    /// storage and runs are sound.
    #[inline]
    pub(crate) fn parts_of(&self, capacity: usize, pos: u64, len: usize) -> SegmentParts
        requires queued { self.now.place.length ≤ capacity }
        requires fits { next_at self.now < 2 ^ 64 }
        ensures { let limit = self.now.first + self.now.count_read + capacity in
            result ≡ parts_between (next_at self.now) limit pos len }
    {
        let next = self.next();
        let old = (len as u64).min(next.saturating_sub(pos)) as usize;
        let from = pos.max(next) - next;
        let room = (self.window(capacity) as u64).min(u64::MAX - next);
        let rest = len - old;
        let in_window = (rest as u64).min(room.saturating_sub(from)) as usize;
        SegmentParts {
            old,
            in_window,
            beyond: rest - in_window,
            past_end: 0,
        }
    }

    /// Counts those of a segment that ends within 64 bits.
    #[tactic(auto, using(crate::proofs::HeldSearches::new_in))]
    pub(crate) fn count_part(
        &self,
        capacity: usize,
        runs: &[Run],
        position: u64,
        len: usize,
    ) -> usize
        requires sound { HasSoundParts self.now capacity runs.now }
        requires fits { position + len < 2 ^ 64 }
        ensures { result ≡ count_between (next_at self.now)
            (self.now.first + self.now.count_read + capacity) (held_at self.now runs.now)
            position len }
    {
        // The part in the free window, counted from the first missing position.
        let next = self.next();
        let window = self.window(capacity);
        let from = position.saturating_sub(next).min(window as u64) as usize;
        let end = position + len as u64;
        let to = end.saturating_sub(next).min(window as u64) as usize;
        to.saturating_sub(from) - self.held.count_between(runs, from, to)
    }

    /// Returns whether the first missing position and the end of each held run are at most a position.
    ///
    /// # Requires
    ///
    /// Head and runs are sound, as `is_sound` tests, with a storage of some length.
    pub(crate) fn has_all_below(&self, runs: &[Run], pos: u64) -> bool
        requires { HasSoundHeld self.now runs.now }
        ensures { IsTrue result ↔ (top_at self.now runs.now ≤ pos) }
    {
        let next = self.next();
        next <= pos && self.is_held_below(pos - next, runs)
    }

    /// Compares two receivers, as `ReceiverOver::same_state` does.
    ///
    /// # Requires
    ///
    /// Both heads are sound with their storages and runs, as `is_sound` tests.
    // Proof: A function of its own, since its clause is about two slices, and that of `same_state` about storage of two
    // types.
    pub(crate) fn is_same_state(
        &self,
        storage: &[u8],
        runs: &[Run],
        other: &ReceiverHead,
        other_storage: &[u8],
        other_runs: &[Run],
    ) -> bool
        requires sound { HasSoundParts self.now (length storage.now) runs.now }
        requires other_sound { HasSoundParts other.now (length other_storage.now) other_runs.now }
        ensures { IsTrue result ↔ IsSameState (receiver_of self.now storage.now runs.now)
            (receiver_of other.now other_storage.now other_runs.now) }
    {
        self.first == other.first
            && self.count_read == other.count_read
            && self.is_same_queue(storage, other, other_storage)
            && self.held.is_same(runs, &other.held, other_runs)
    }

    /// Returns whether two receivers have equal queues, compared slice by slice.
    fn is_same_queue(&self, storage: &[u8], other: &ReceiverHead, other_storage: &[u8]) -> bool
        requires place { IsSoundPlace (length storage.now) self.now.place }
        requires other_place { IsSoundPlace (length other_storage.now) other.now.place }
        ensures { IsTrue result ↔ (queue (ring_at storage.now self.now.place)
            ≡ queue (ring_at other_storage.now other.now.place)) }
    {
        let length = self.place.length;
        if length != other.place.length {
            return false;
        }
        let mut at = 0;
        while at < length {
            let here = self.peek(storage, at, length - at);
            let there = other.peek(other_storage, at, here.len());
            let here = &here[..there.len()];
            if here != there {
                return false;
            }
            at += there.len();
            prove!(at <= length, "in any `usize`");
        }
        true
    }
}

/// The part of a segment that is kept: how many bytes are before it, how far after the queue it goes, and the counts.
#[derive(Debug, Clone, Copy)]
pub(crate) struct Admitted {
    pub skip: usize,
    pub offset: usize,
    pub counts: KeptBytes,
}

/// Returns how many of `len` positions from `pos` on a stream can have.
#[inline]
pub(crate) fn count_existing(pos: u64, len: usize) -> usize
    ensures { result ≡ min len (2 ^ 64 - 1 - pos) }
{
    (len as u64).min(u64::MAX - pos) as usize
}

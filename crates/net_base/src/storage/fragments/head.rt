//! The head of a buffer of fragments: what it has besides its bytes and runs, which each call takes as slices.
#![tactic(auto, using(crate::proofs::FragmentFacts::refused_adds))]

ghost use Rattle.std.specs.Prelude.{◌≡◌, ◌↔◌, ◌+◌, ◌<◌, ◌≤◌, ◌<ℤ◌, ℕ, List, length, IsTrue, IsSome, IfSome, OnOk};
ghost use Rattle.std.specs.Prelude.{OnErr, unwrap_or, false, true};
ghost use Rattle.std.specs.declared.option.Option.TheVariants.{Some};
ghost use Rattle.net_assembler.specs.Positions.{nothing};
ghost use Rattle.net_assembler.specs.RunLists.{set_of, HasSoundRuns};
ghost use Rattle.net_base.specs.Fragments.{IsComplete, IsBelow, begun, Adds, TakesSize, Differs, HasOther, Meets};
ghost use Rattle.net_base.specs.Fragments.{total_of, fragments_of, HasSoundParts, IsExact, zero_fragments};

use super::FragmentError;
use net_assembler::{AssemblerHead, Run, Turns, assembler};

/// What a buffer of fragments has besides its bytes and runs.
///
/// It serves callers who keep these elsewhere, as a program in C. Each call takes them as slices:
/// the longest packet has as many bytes as the one, and at most as many maximal runs of bytes are
/// kept as the other has elements. A head of zeros, but for `expires_at`, is that of an empty
/// buffer. smoltcp has no such type: its buffer is one value.
///
/// A head is exact (`IsExact`) if no number says nothing: both of `present` are 0 where there is no run, and `total` is
/// 0 while the size isn't known. `new` and `reset` make it so, and each call leaves it so.
///
/// Head, bytes and runs are those of a buffer if the runs are those of an assembler and end within the bytes, and
/// within a known size, which is at most that of the bytes: `HasSoundParts` in contracts. `is_sound` tests it.
#[repr(C)]
#[derive(Debug, Clone, Copy)]
pub struct FragmentsHead {
    /// The positions that arrived: the head of an assembler.
    pub present: AssemblerHead,
    /// Whether the packet's size is known.
    pub has_total: bool,
    /// The packet's size in bytes, once it is known.
    pub total: usize,
    /// The last moment at which the packet is waited for, in microseconds.
    pub expires_at: i64,
}

impl FragmentsHead {
    /// Returns the head of an empty buffer, whose packet is waited for up to `expires_at`, in
    /// microseconds. It is sound for any memory.
    pub const fn new(expires_at: i64) -> Self
        ensures sound { (bytes : List ℕ) (runs : List (ℕ × ℕ)) → HasSoundParts result bytes runs }
        ensures nothing { (runs : List (ℕ × ℕ)) → set_of result.present runs ≡ nothing }
        ensures value { result ≡ zero_fragments expires_at }
        ensures exact { IsExact result }
    {
        FragmentsHead {
            present: AssemblerHead::new(),
            has_total: false,
            total: 0,
            expires_at,
        }
    }

    /// Begins again, for a packet that expires after `expires_at`.
    pub(crate) fn reset(&mut self, expires_at: i64)
        ensures sound { (bytes : List ℕ) (runs : List (ℕ × ℕ)) →
            HasSoundParts self.new bytes runs }
        ensures nothing { (runs : List (ℕ × ℕ)) → set_of self.new.present runs ≡ nothing }
        ensures value { self.new ≡ zero_fragments expires_at }
        ensures exact { IsExact self.new }
    {
        *self = FragmentsHead::new(expires_at);
    }

    /// Returns whether head and runs are those of a buffer of `capacity` bytes, for any numbers: `present` and the runs
    /// are those of an assembler, which end at `capacity` or below, and at a known size or below, which is at most
    /// `capacity`. It looks at each used run.
    pub fn is_sound(&self, capacity: usize, runs: &[Run]) -> bool
        ensures { (bytes : List ℕ) → length bytes ≡ capacity →
            (IsTrue result ↔ HasSoundParts self.now bytes runs.now) }
    {
        let limit = self.limit(capacity);
        if limit > capacity || !self.present.is_sound(runs) {
            return false;
        }
        self.is_below(runs, limit)
    }

    /// Returns where fragments must end: at a known size, or else at `capacity`.
    fn limit(&self, capacity: usize) -> usize
        ensures { result ≡ unwrap_or (total_of self.now) capacity }
    {
        if self.has_total { self.total } else { capacity }
    }

    /// Returns whether all bytes that arrived are below `limit`.
    fn is_below(&self, runs: &[Run], limit: usize) -> bool
        requires { HasSoundRuns self.now.present runs.now }
        ensures { IsTrue result ↔ IsBelow (set_of self.now.present runs.now) limit }
    {
        assembler::laws::maximal_runs();
        let last = self.present.run_count().saturating_sub(1);
        match self.present.run_at(runs, last) {
            Some((_, end)) => end <= limit,
            None => true,
        }
    }

    /// Adds a fragment, whose first byte is that of the packet at `offset`. One without bytes has
    /// its end at `offset`, and adds nothing.
    ///
    /// Returns `TooLong`, and changes nothing, if the fragment reaches past the buffer's end, or
    /// else `OtherSize` if it reaches past a known size, or else `TooManyHoles` if there would be
    /// more runs than the slice has elements.
    ///
    /// # Requires
    ///
    /// Head, bytes and runs are those of a buffer.
    pub fn add(
        &mut self,
        bytes: &mut [u8],
        runs: &mut [Run],
        offset: usize,
        data: &[u8],
    ) -> Result<(), FragmentError>
        requires sound { HasSoundParts self.old bytes.old runs.old }
        ensures sound { HasSoundParts self.new bytes.new runs.new }
        ensures adds { Adds (length runs.old) (fragments_of self.old bytes.old runs.old)
            offset «data».now
            false result (fragments_of self.new bytes.new runs.new) }
        ensures unchanged { OnErr result
            ((self.new ≡ self.old) × (bytes.new ≡ bytes.old) × (runs.new ≡ runs.old)) }
        ensures others { (self.new.has_total ≡ self.old.has_total)
            × (self.new.total ≡ self.old.total) × (self.new.expires_at ≡ self.old.expires_at) }
        ensures exact { IsExact self.old → IsExact self.new }
    {
        assembler::laws::members();
        let capacity = bytes.len();
        if ends_above(capacity, offset, data.len()) {
            return Err(FragmentError::TooLong);
        }
        if ends_above(self.limit(capacity), offset, data.len()) {
            return Err(FragmentError::OtherSize);
        }
        net_ring::laws::is_usize(capacity);
        let Ok(()) = self.present.add(runs, offset, data.len()) else {
            return Err(FragmentError::TooManyHoles);
        };
        bytes[offset..offset + data.len()].copy_from_slice(data);
        Ok(())
    }

    /// Adds a fragment, as `add` does, and takes its end as the packet's if it is the last one. If it is
    /// refused, nothing changes.
    ///
    /// # Requires
    ///
    /// Head, bytes and runs are those of a buffer.
    pub(crate) fn add_fragment(
        &mut self,
        bytes: &mut [u8],
        runs: &mut [Run],
        offset: usize,
        data: &[u8],
        is_last: bool,
    ) -> Result<(), FragmentError>
        requires { HasSoundParts self.old bytes.old runs.old }
        ensures sound { HasSoundParts self.new bytes.new runs.new }
        ensures adds { Adds (length runs.old) (fragments_of self.old bytes.old runs.old)
            offset «data».now
            is_last result (fragments_of self.new bytes.new runs.new) }
        ensures unchanged { OnErr result
            ((self.new ≡ self.old) × (bytes.new ≡ bytes.old) × (runs.new ≡ runs.old)) }
        ensures exact { IsExact self.old → IsExact self.new }
    {
        if !is_last {
            return self.add(bytes, runs, offset, data);
        }
        let capacity = bytes.len();
        if ends_above(capacity, offset, data.len()) {
            return Err(FragmentError::TooLong);
        }
        prove!(offset + data.len() <= capacity, "in any `usize`");
        let mut head = *self;
        head.set_total_size(capacity, runs, offset + data.len())?;
        head.add(bytes, runs, offset, data)?;
        *self = head;
        Ok(())
    }

    /// Begins again, for a packet that expires after `expires_at`, with this fragment of it. If it is
    /// refused, nothing changes.
    ///
    /// # Errors
    ///
    /// It is refused as `add_fragment` refuses it in an empty buffer.
    ///
    /// # Requires
    ///
    /// Head, bytes and runs are those of a buffer.
    pub(crate) fn reset_with(
        &mut self,
        bytes: &mut [u8],
        runs: &mut [Run],
        offset: usize,
        data: &[u8],
        is_last: bool,
        expires_at: i64,
    ) -> Result<(), FragmentError>
        requires { HasSoundParts self.old bytes.old runs.old }
        ensures sound { HasSoundParts self.new bytes.new runs.new }
        ensures adds { Adds (length runs.old)
            (begun (fragments_of self.old bytes.old runs.old) expires_at) offset
            «data».now is_last result (fragments_of self.new bytes.new runs.new) }
        ensures unchanged { OnErr result
            ((self.new ≡ self.old) × (bytes.new ≡ bytes.old) × (runs.new ≡ runs.old)) }
        ensures exact { IsExact self.old → IsExact self.new }
    {
        let mut head = FragmentsHead::new(expires_at);
        head.add_fragment(bytes, runs, offset, data, is_last)?;
        *self = head;
        Ok(())
    }

    /// Sets the packet's size to `size` bytes, of a buffer of `capacity` bytes.
    ///
    /// Returns `TooLong`, and changes nothing, if the buffer has fewer bytes, or else `OtherSize`
    /// if another size is known, or a byte at `size` or above has arrived.
    ///
    /// # Requires
    ///
    /// The runs are sound.
    pub fn set_total_size(
        &mut self,
        capacity: usize,
        runs: &[Run],
        size: usize,
    ) -> Result<(), FragmentError>
        requires sound { HasSoundRuns self.old.present runs.now }
        ensures ok { OnOk result (self.new ≡ record self.old { has_total = true; total = size }) }
        ensures total { OnOk result (total_of self.new ≡ Some size) }
        ensures sound { OnOk result ((bytes : List ℕ) → length bytes ≡ capacity →
            HasSoundParts self.old bytes runs.now → HasSoundParts self.new bytes runs.now) }
        ensures unchanged { OnErr result (self.new ≡ self.old) }
        ensures takes { TakesSize capacity (set_of self.old.present runs.now)
            (total_of self.old) size result }
        ensures exact { IsExact self.old → IsExact self.new }
    {
        if size > capacity {
            return Err(FragmentError::TooLong);
        }
        let can_be = if self.has_total {
            self.total == size
        } else {
            self.is_below(runs, size)
        };
        if !can_be {
            return Err(FragmentError::OtherSize);
        }
        self.has_total = true;
        self.total = size;
        Ok(())
    }

    /// Returns the packet's size, once it is known.
    // Proof: A function of its own, since the prover fails on its body where it stands in the buffer's call.
    pub(crate) fn total_size(&self) -> Option<usize>
        ensures { result ≡ total_of self.now }
    {
        self.has_total.then_some(self.total)
    }

    /// Returns whether one of the `len` positions from `offset` on has arrived: whether a fragment there
    /// overlaps bytes that are present. They need not be within the buffer.
    ///
    /// It is asked before `add`, by callers who refuse a packet whose fragments overlap (RFC 5722). A
    /// fragment that arrives twice overlaps too.
    ///
    /// # Requires
    ///
    /// The runs are sound.
    pub fn overlaps(&self, runs: &[Run], offset: usize, len: usize) -> bool
        requires sound { HasSoundRuns self.now.present runs.now }
        ensures { IsTrue result ↔ Meets (set_of self.now.present runs.now) offset len }
    {
        let (missing, end) = self.present.next_hole(runs, offset);
        if offset < missing {
            return len > 0;
        }
        match end {
            Some(end) => end - offset < len,
            None => false,
        }
    }

    /// Returns whether a byte that arrived differs from that of the fragment whose first byte is that of the packet at
    /// `offset`. The fragment need not be within the buffer.
    ///
    /// # Requires
    ///
    /// Head, bytes and runs are those of a buffer.
    pub fn differs(&self, bytes: &[u8], runs: &[Run], offset: usize, data: &[u8]) -> bool
        requires sound { HasSoundParts self.now bytes.now runs.now }
        ensures { IsTrue result
            ↔ Differs (fragments_of self.now bytes.now runs.now) offset «data».now }
    {
        assembler::laws::maximal_runs();
        let mut turns = Turns::new();
        // The runs before the last one that starts by `offset` end by then.
        let first = self.present.runs_by(runs, offset).saturating_sub(1);
        for k in first..self.present.run_count() {
            turns.step();
            turns.were_a_pass(runs);
            let Some((start, end)) = self.present.run_at(runs, k) else {
                return false;
            };
            if start.saturating_sub(offset) >= data.len() {
                return false;
            }
            if run_differs(bytes, start, end, offset, data) {
                return true;
            }
        }
        false
    }

    /// Returns the packet's size, if it is known and all its bytes have arrived: they are the first
    /// ones of the buffer.
    ///
    /// # Requires
    ///
    /// The runs are sound.
    pub fn complete(&self, runs: &[Run]) -> Option<usize>
        requires sound { HasSoundRuns self.now.present runs.now }
        ensures complete { (bytes : List ℕ) → (IsSome result
            ↔ ((size : ℕ) × IsComplete (fragments_of self.now bytes runs.now) size)) }
        ensures size { IfSome result (λ size. (bytes : List ℕ) →
            IsComplete (fragments_of self.now bytes runs.now) size) }
        ensures fits { IfSome result (λ size. (bytes : List ℕ) →
            HasSoundParts self.now bytes runs.now → size ≤ length bytes) }
    {
        assembler::laws::front();
        if !self.has_total || self.present.peek_front(runs) < self.total {
            return None;
        }
        Some(self.total)
    }

    /// Returns whether `now` is after the last moment at which the packet is waited for.
    pub fn is_expired(&self, now: i64) -> bool
        ensures { IsTrue result ↔ (self.now.expires_at <ℤ now) }
    {
        self.expires_at < now
    }
}

/// Returns whether a fragment of `len` bytes at `offset` reaches past `limit`.
fn ends_above(limit: usize, offset: usize, len: usize) -> bool
    ensures { IsTrue result ↔ (limit < offset + len) }
{
    offset > limit || len > limit - offset
}

/// Returns whether the fragment at `offset` has another byte than one of a run from `start` to `end`, which is within
/// the bytes.
#[tactic(auto, using(crate::proofs::FragmentFacts::slices_differ))]
fn run_differs(bytes: &[u8], start: usize, end: usize, offset: usize, data: &[u8]) -> bool
    requires { end ≤ length bytes.now }
    ensures { IsTrue result
        ↔ ((p : ℕ) × (start ≤ p) × (p < end) × HasOther bytes.now offset «data».now p) }
{
    let first = start.saturating_sub(offset);
    let last = end.saturating_sub(offset).min(data.len());
    first < last && bytes[start.max(offset)..offset + last] != data[first..last]
}

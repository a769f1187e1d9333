//! The assembler of ranges that arrive out of order.
#![tactic(auto, using(crate::proofs::SoundHeads::assemblers))]

ghost use Rattle.std.specs.Prelude.{◌≡◌, ◌+◌, ◌<◌, ◌≤◌, ◌*◌, ◌↔◌, ◌++◌, ⊤, length, Some, IsTrue, IsOk, IsErr, IfSome};
ghost use Rattle.std.specs.Prelude.{OnOk, OnErr, MatchResult};
ghost use Rattle.std.specs.Cmp.{on_equiv, on_per, partial_equiv_from_equiv};
ghost use Rattle.std.specs.Cmp.Lexicographic.{nat_list_eq_equiv};
ghost use Rattle.std.specs.Fmt.{decimal};
ghost use Rattle.std.specs.Iterator.{UpTo, YieldsFirst, at_most, item_count};
ghost use Rattle.std.specs.Iterator.SizeHint.{IsWithinCount};
ghost use Rattle.std.specs.List.{slice_get};
ghost use Rattle.net_assembler.specs.Assembler.{MakesTooManyRuns, display_text, hole_text};
ghost use Rattle.net_assembler.specs.Positions.{RangeFits, are_same, contains, front, holes, holes_before};
ghost use Rattle.net_assembler.specs.Positions.{maximal_runs, nothing, positions, runs, runs as run_count};
ghost use Rattle.net_assembler.specs.Positions.{runs_shifted_up, shift_down, with_range};
ghost use Rattle.net_assembler.specs.RunLists.{AreRuns, FitsFrom, HasSoundRuns, IsRising, set_of};
ghost use Rattle.net_assembler.specs.Turns.{binary_digits};

mod error;
mod head;
pub mod laws;
mod new;
mod run;
mod turns;

pub use error::TooManyHolesError;
pub use head::AssemblerHead;
use net_ring::width::most;
pub use run::Run;
use std::alloc::AllocError;
use std::marker::Model;
use std::{fmt, mem};
pub use turns::Turns;

/// The positions that have arrived, such as those of a stream's bytes, in at most `N` ranges.
///
/// It serves to reassemble data that arrives in any order: it says up to which position everything
/// has arrived.
///
/// Positions are counted from 0. A *range*, which names call a *run*, is as long as it can be: ranges that touch become
/// one. A *hole* is what is missing before a range. Two assemblers are equal if they have the same positions.
///
/// ```
/// use net_base::storage::Assembler;
///
/// let mut assembler = Assembler::<1>::empty();
/// assert!(assembler.add(4, 2).is_ok() && assembler.add(6, 2).is_ok());
/// assert!(assembler.add(0, 2).is_err()); // A second range.
/// assert_eq!(assembler.add_then_remove_front(0, 4), Ok(8));
/// ```
#[derive(Debug, Drop)]
pub struct Assembler<const N: usize> {
    // Invariant: the first `head.used` runs rise, with a hole between neighbours. They are counted from
    // where the first of them starts, so that it starts at 0; that position is `head.first_start`. Each
    // end is a `usize` also where it is counted from position 0.
    // The head precedes the runs: so close to the value's beginning, its numbers are read by short
    // instructions.
    head: AssemblerHead,
    runs: [Run; N],
}

impl<const N: usize> Model for Assembler<N> {
    ghost use Rattle.std.specs.Coded.{coded_ℕ};
    ghost use Rattle.std.specs.FinSet as set;
    ghost use Rattle.net_assembler.specs.Positions.{Positions};

    ghost Value = { Positions };

    ghost coded = { set.code coded_ℕ };

    ghost use Rattle.std.specs.Prelude.{◌≡◌, length};
    ghost use Rattle.net_assembler.specs.RunLists.{set_of, HasSoundRuns};

    ghost view = { λ a. set_of a.head a.runs };

    ghost invariant = { λ a. HasSoundRuns a.head a.runs × (length a.runs ≡ N) };
}

impl<const N: usize> Assembler<N> {
    /// Returns an empty assembler with room for `N` ranges.
    ///
    /// smoltcp has only `new`, whose room its features set. Here `new` has room for 4 ranges, whatever a feature says.
    ///
    /// ```
    /// # use net_base::storage::Assembler;
    /// assert!(Assembler::<32>::empty().is_empty());
    /// ```
    ///
    /// ```compile_fail,E0080
    /// # use net_base::storage::Assembler;
    /// let assembler = Assembler::<0>::empty();
    /// ```
    ///
    /// A program in which `N` is 0 does not compile.
    #[must_use]
    pub const fn empty() -> Self
        requires { 1 ≤ N }
        ensures { result ≡ nothing }
    {
        prove!(N >= 1, "N is at least 1");
        Assembler {
            head: AssemblerHead::new(),
            runs: [Run { start: 0, end: 0 }; N],
        }
    }

    /// Removes every position.
    ///
    /// ```
    /// # use net_base::storage::Assembler;
    /// # let mut assembler = Assembler::new();
    /// assert_eq!(assembler.add(3, 2), Ok(()));
    /// assembler.clear();
    /// assert_eq!(assembler, Assembler::new());
    /// ```
    pub fn clear(&mut self)
        ensures empty { self.new ≡ nothing }
        ensures bound { runs self.new ≤ N }
    {
        self.head.clear();
    }

    /// Returns the length of the range at position 0, or 0 if position 0 is missing.
    ///
    /// ```
    /// # use net_base::storage::Assembler;
    /// # let mut assembler = Assembler::new();
    /// assert_eq!(assembler.add(0, 3), Ok(()));
    /// assert_eq!(assembler.peek_front(), 3);
    /// ```
    #[must_use]
    pub fn peek_front(&self) -> usize
        ensures { result ≡ front self.now }
    {
        self.head.peek_front(&self.runs)
    }

    /// Returns whether no position is present.
    ///
    /// ```
    /// # use net_base::storage::Assembler;
    /// # let mut assembler = Assembler::new();
    /// assert_eq!(assembler.add(5, 0), Ok(()));
    /// assert!(assembler.is_empty());
    /// ```
    #[must_use]
    pub fn is_empty(&self) -> bool
        ensures { IsTrue result ↔ (self.now ≡ nothing) }
    {
        self.head.is_empty()
    }

    /// Returns how many ranges there are, in constant time. (Not in smoltcp.)
    ///
    /// ```
    /// # use net_base::storage::Assembler;
    /// # let mut assembler = Assembler::new();
    /// assert_eq!((assembler.add(0, 3), assembler.add(3, 2)), (Ok(()), Ok(())));
    /// assert_eq!(assembler.run_count(), 1);
    /// ```
    #[must_use]
    pub fn run_count(&self) -> usize
        ensures count { result ≡ runs self.now }
        ensures bound { result ≤ N }
    {
        self.head.run_count()
    }

    /// Returns whether `offset + size` fits a `usize`, as all calls that add a range require. (Not
    /// in smoltcp, where such a sum overflows.)
    ///
    /// ```
    /// # use net_base::storage::Assembler;
    /// assert!(Assembler::<4>::fits(usize::MAX, 0) && !Assembler::<4>::fits(usize::MAX, 1));
    /// ```
    #[inline]
    #[must_use]
    pub fn fits(offset: usize, size: usize) -> bool
        ensures { IsTrue result ↔ RangeFits offset size }
    {
        AssemblerHead::fits(offset, size)
    }

    /// Adds the `size` positions from `offset` on. In the guarantees `with_range(a, offset, size)` is
    /// what `a` has, and these positions.
    ///
    /// The call is inlined: fast, but large. Where code must be small take `add_then_remove_front`,
    /// which calls one shared function.
    ///
    /// ```
    /// # use net_base::storage::Assembler;
    /// # let mut assembler = Assembler::new();
    /// assert_eq!(assembler.add(4, 4), Ok(()));
    /// assert_eq!(assembler.add(6, 4), Ok(()));
    /// assert!(assembler.iter_data().eq([(4, 10)]));
    /// ```
    ///
    /// # Errors
    ///
    /// `TooManyHolesError` if there would be more than `N` ranges. Then nothing changes. It can't
    /// happen while there are fewer than `N`.
    ///
    /// # Requires
    ///
    /// `offset + size` fits a `usize`, as `fits` tests.
    #[inline(always)]
    #[track_caller]
    pub fn add(&mut self, offset: usize, size: usize) -> Result<(), TooManyHolesError>
        requires { RangeFits offset size }
        // Guarantee.
        ensures ok { OnOk result (self.new ≡ with_range self.old offset size) }
        ensures unchanged { OnErr result (self.new ≡ self.old) }
        ensures refused { IsErr result ↔ MakesTooManyRuns N self.old offset size }
        // Guarantee.
        ensures accepted { runs self.old < N → IsOk result }
        // Guarantee.
        ensures more { runs self.new ≤ runs self.old + 1 }
        ensures bound { runs self.new ≤ N }
    {
        prove!(
            Self::fits(offset, size),
            "the range's end is above `usize::MAX`"
        );
        self.add_counted(offset, size, &mut Turns::new())
    }

    /// Adds a range as `add` does. Contracts count each iteration of a loop: a move if it moves a
    /// range or joins one with the new one, otherwise a look. (Not in smoltcp.)
    ///
    /// Looks rise by at most twice the number of binary digits of `N`, which is 3 for 4 and 6 for
    /// 32, moves by at most `N`, and both together by at most `4 * N`. Neither count falls.
    ///
    /// # Errors
    ///
    /// `TooManyHolesError` if `add` returns it. Then nothing changes.
    ///
    /// # Requires
    ///
    /// `offset + size` fits a `usize`, as `fits` tests.
    #[inline(always)]
    #[track_caller]
    pub fn add_counted(
        &mut self,
        offset: usize,
        size: usize,
        turns: &mut Turns,
    ) -> Result<(), TooManyHolesError>
        requires { RangeFits offset size }
        ensures ok { OnOk result (self.new ≡ with_range self.old offset size) }
        ensures unchanged { OnErr result (self.new ≡ self.old) }
        ensures refused { IsErr result ↔ MakesTooManyRuns N self.old offset size }
        ensures accepted { runs self.old < N → IsOk result }
        ensures more { runs self.new ≤ runs self.old + 1 }
        ensures bound { runs self.new ≤ N }
        ensures turns { turns.new.0 + turns.new.1 ≤ turns.old.0 + turns.old.1 + 4 * N }
        ensures looks { turns.new.0 ≤ turns.old.0 + 2 * binary_digits N }
        ensures moves { turns.new.1 ≤ turns.old.1 + N }
        ensures no_look_lost { turns.old.0 ≤ turns.new.0 }
        ensures no_move_lost { turns.old.1 ≤ turns.new.1 }
    {
        prove!(
            Self::fits(offset, size),
            "the range's end is above `usize::MAX`"
        );
        self.head.add_inlined(&mut self.runs, offset, size, turns)
    }

    /// Removes the range at position 0, and returns its length. Later positions are counted from
    /// its end then.
    ///
    /// If position 0 is missing, it returns 0 and changes nothing. Otherwise there is room for one
    /// more range, so the next `add` succeeds.
    ///
    /// ```
    /// # use net_base::storage::Assembler;
    /// # let mut assembler = Assembler::new();
    /// assert_eq!((assembler.add(0, 3), assembler.add(5, 1)), (Ok(()), Ok(())));
    /// assert_eq!(assembler.remove_front(), 3);
    /// assert!(assembler.iter_data().eq([(2, 3)]));
    /// ```
    #[inline(always)]
    pub fn remove_front(&mut self) -> usize
        // Guarantee.
        ensures length { result ≡ front self.old }
        ensures rest { self.new ≡ shift_down self.old (front self.old) }
        // Guarantee.
        ensures fewer { 0 < result → runs self.new + 1 ≡ runs self.old }
        // Guarantee.
        ensures room { 0 < result → runs self.new < N }
        ensures bound { runs self.new ≤ N }
    {
        self.head.remove_front(&mut self.runs)
    }

    /// Removes the positions below `count`. The others are counted from there then: position
    /// `count` becomes position 0. A range that `count` cuts keeps its later part. (Not in
    /// smoltcp.)
    ///
    /// It serves a sender whose peer acknowledged `count` more positions, and has some beyond them.
    ///
    /// ```
    /// # use net_base::storage::Assembler;
    /// # let mut assembler = Assembler::new();
    /// assert_eq!((assembler.add(0, 3), assembler.add(5, 1)), (Ok(()), Ok(())));
    /// assembler.shift(2);
    /// assert!(assembler.iter_data().eq([(0, 1), (3, 4)]));
    /// ```
    pub fn shift(&mut self, count: usize)
        ensures set { self.new ≡ shift_down self.old count }
        // Guarantee.
        ensures fewer { runs self.new ≤ runs self.old }
        ensures bound { runs self.new ≤ N }
    {
        self.head.shift(&mut self.runs, count);
    }

    /// Adds a range as `add` does, then removes the range at position 0 as `remove_front` does, and
    /// returns its length.
    ///
    /// Even if `size` is 0, a range can be removed.
    ///
    /// ```
    /// # use net_base::storage::{Assembler, TooManyHolesError};
    /// let mut assembler = Assembler::<1>::empty();
    /// assert_eq!(assembler.add_then_remove_front(4, 2), Ok(0));
    /// assert_eq!(assembler.add_then_remove_front(8, 2), Err(TooManyHolesError));
    /// assert_eq!(assembler.add_then_remove_front(0, 2), Ok(2));
    /// assert!(assembler.iter_data().eq([(2, 4)]));
    /// ```
    ///
    /// # Errors
    ///
    /// `TooManyHolesError` if `offset` isn't 0 and `add` returns it. Then nothing changes. A range
    /// at 0 is never refused, since it is removed at once. TCP depends on that: if the segment that
    /// it waits for were refused, the connection would stall.
    ///
    /// # Requires
    ///
    /// `offset + size` fits a `usize`, as `fits` tests.
    #[inline(always)]
    #[track_caller]
    pub fn add_then_remove_front(
        &mut self,
        offset: usize,
        size: usize,
    ) -> Result<usize, TooManyHolesError>
        requires { RangeFits offset size }
        ensures value { let all = with_range self.old offset size in MatchResult result
            (λ n. (n ≡ front all) × (self.new ≡ shift_down all n))
            (λ _. self.new ≡ self.old) }
        ensures refused { let too_many = MakesTooManyRuns N self.old offset size in
            IsErr result ↔ ((0 < offset) × too_many) }
        // Guarantee.
        ensures accepted { runs self.old < N → IsOk result }
        // Guarantee.
        ensures more { runs self.new ≤ runs self.old + 1 }
        ensures bound { runs self.new ≤ N }
    {
        // A range at 0 fits, so its fast path needs no test of that.
        prove!(
            offset == 0 || Self::fits(offset, size),
            "the range's end is above `usize::MAX`"
        );
        self.head
            .add_then_remove_front(&mut self.runs, offset, size)
    }

    /// Returns the ranges as (start, end), the end not included, in rising order.
    ///
    /// smoltcp's documentation says offset and size, but its code also yields start and end.
    ///
    /// ```
    /// # use net_base::storage::Assembler;
    /// # let mut assembler = Assembler::new();
    /// assert_eq!((assembler.add(5, 1), assembler.add(0, 3)), (Ok(()), Ok(())));
    /// assert!(assembler.iter_data().eq([(0, 3), (5, 6)]));
    /// ```
    #[must_use]
    pub fn iter_data(&self) -> IterData<'_, N>
        ensures runs { result ≡ maximal_runs self.now }
        // Guarantee.
        ensures bound { length result ≤ N }
    {
        self.head.iter_data(&self.runs)
    }

    /// Returns the range with the number `k`, counted from 0, as (start, end), the end not
    /// included; `None` if there is none. (Not in smoltcp.)
    ///
    /// It takes constant time.
    ///
    /// ```
    /// # use net_base::storage::Assembler;
    /// # let mut assembler = Assembler::new();
    /// assert_eq!((assembler.add(5, 1), assembler.add(0, 3)), (Ok(()), Ok(())));
    /// assert_eq!((assembler.run_at(1), assembler.run_at(2)), (Some((5, 6)), None));
    /// ```
    #[must_use]
    pub fn run_at(&self, k: usize) -> Option<(usize, usize)>
        ensures run { result ≡ slice_get (maximal_runs self.now) k }
    {
        self.head.run_at(&self.runs, k)
    }

    /// Returns whether `position` is present. (Not in smoltcp.)
    ///
    /// ```
    /// # use net_base::storage::Assembler;
    /// # let mut assembler = Assembler::new();
    /// assert_eq!(assembler.add(5, 1), Ok(()));
    /// assert!(assembler.contains(5) && !assembler.contains(6));
    /// ```
    #[must_use]
    pub fn contains(&self, position: usize) -> bool
        ensures { result ≡ contains self.now position }
    {
        self.head.contains(&self.runs, position)
    }

    /// Returns the holes as (start, end), the end not included, in rising order. (Not in smoltcp.)
    ///
    /// ```
    /// # use net_base::storage::Assembler;
    /// # let mut assembler = Assembler::new();
    /// assert_eq!((assembler.add(5, 1), assembler.add(2, 2)), (Ok(()), Ok(())));
    /// assert!(assembler.holes().eq([(0, 2), (4, 5)]));
    /// ```
    #[must_use]
    pub fn holes(&self) -> HoleIter<'_>
        ensures holes { result ≡ holes self.now }
        ensures bound { length result ≤ N }
    {
        self.head.holes(&self.runs)
    }

    /// Returns the hole with the number `k`, counted from 0, as (start, end), the end not included;
    /// `None` if there is none. Holes are what a sender sends again, for example. (Not in smoltcp.)
    ///
    /// ```
    /// # use net_base::storage::Assembler;
    /// # let mut assembler = Assembler::new();
    /// assert_eq!((assembler.add(5, 1), assembler.add(0, 2)), (Ok(()), Ok(())));
    /// assert_eq!((assembler.hole_at(0), assembler.hole_at(1)), (Some((2, 5)), None));
    /// ```
    #[must_use]
    pub fn hole_at(&self, k: usize) -> Option<(usize, usize)>
        ensures hole { result ≡ slice_get (holes self.now) k }
    {
        self.head.hole_at(&self.runs, k)
    }
}

/// A clone always succeeds, and is the same set.
impl<const N: usize> Clone for Assembler<N> {
    ghost is_clone = { λ s t. t ≡ s };

    ghost is_infallible = { λ _. ⊤ };

    fn clone(&self) -> Result<Self, AllocError> {
        Ok(Assembler {
            head: self.head,
            runs: self.runs,
        })
    }
}

impl<const N: usize> PartialEq for Assembler<N> {
    ghost eq = { are_same };

    ghost laws = { on_per positions (partial_equiv_from_equiv nat_list_eq_equiv) };

    fn eq(&self, other: &Self) -> bool
        ensures test { result ≡ are_same self.now other.now }
        ensures same { IsTrue result ↔ (self.now ≡ other.now) }
    {
        self.head.is_same(&self.runs, &other.head, &other.runs)
    }
}

impl<const N: usize> Eq for Assembler<N> {
    ghost laws = { on_equiv positions nat_list_eq_equiv };
}

/// A hole, and the present data after it, as sizes in positions.
#[derive(Drop)]
struct Contig {
    hole_size: usize,
    data_size: usize,
}

/// The hole in parentheses, left out if it is 0, and the data.
impl fmt::Display for Contig {
    ghost output = { λ c. Some (hole_text c.hole_size ++ decimal c.data_size) };

    fn fmt<W: fmt::Write>(&self, f: &mut fmt::Formatter<W>) -> fmt::Result {
        if self.hole_size != 0 {
            write!(f, "({}) ", self.hole_size)?;
        }
        write!(f, "{}", self.data_size)
    }
}

/// Prints the length of each range, and before it, in parentheses, that of its hole if there is
/// one: `[ (3) 2 (4) 1 ]`. An empty assembler prints `[ ]`.
impl<const N: usize> fmt::Display for Assembler<N> {
    ghost output = { λ s. Some (display_text s) };

    fn fmt<W: fmt::Write>(&self, f: &mut fmt::Formatter<W>) -> fmt::Result {
        write!(f, "[ ")?;
        let mut from = 0;
        for (start, end) in self.iter_data() {
            let contig = Contig {
                hole_size: start - from,
                data_size: end - start,
            };
            write!(f, "{contig} ")?;
            from = end;
        }
        write!(f, "]")
    }
}

/// An iterator over the ranges of an assembler, made by `iter_data`.
///
/// It yields each range as (start, end), the end not included, in rising order.
///
/// ```
/// # use net_base::storage::Assembler;
/// # let mut assembler = Assembler::new();
/// assert_eq!((assembler.add(5, 1), assembler.add(0, 3)), (Ok(()), Ok(())));
/// let mut runs = assembler.iter_data();
/// assert_eq!((runs.next(), runs.len()), (Some((0, 3)), 1));
/// ```
#[derive(Drop)]
pub struct RunIter<'a> {
    rest: &'a [Run],
    first_start: usize,
}

/// The iterator of an `Assembler<N>`, which yields at most `N` ranges.
///
/// ```
/// # use net_base::storage::{Assembler, IterData};
/// # let assembler = Assembler::<4>::empty();
/// let runs: IterData<'_, 4> = assembler.iter_data();
/// assert_eq!(runs.len(), 0);
/// ```
pub type IterData<'a, const N: usize> = RunIter<'a>;

impl<'a> Model for RunIter<'a> {
    ghost use Rattle.std.specs.Prelude.{List, ℕ};

    ghost Value = { List (ℕ × ℕ) };

    ghost use Rattle.net_assembler.specs.Positions.{runs_shifted_up};
    ghost use Rattle.net_assembler.specs.RunLists.{AreRuns, FitsFrom};

    ghost view = { λ s. runs_shifted_up s.first_start s.rest.now };

    ghost invariant = { λ s. AreRuns s.rest.now × FitsFrom s.first_start s.rest.now };
}

impl<'a> RunIter<'a> {
    /// Returns these runs, counted from `first_start`.
    #[inline]
    pub(crate) fn over(runs: &'a [Run], first_start: usize) -> Self
        requires runs { AreRuns runs.now }
        requires fits { FitsFrom first_start runs.now }
        ensures { result ≡ runs_shifted_up first_start runs.now }
    {
        RunIter {
            rest: runs,
            first_start,
        }
    }
}

impl<'a> Iterator for RunIter<'a> {
    type Item = (usize, usize);

    ghost next_gives = { YieldsFirst (λ s. s) };

    ghost remaining = { item_count (λ s. s) };

    #[inline]
    fn next(&mut self) -> Option<(usize, usize)> {
        let (run, rest) = self.rest.split_first()?;
        self.rest = rest;
        let start = self.first_start + run.start;
        let end = self.first_start + run.end;
        prove!(start <= most(), "in any `usize`");
        prove!(end <= most(), "in any `usize`");
        Some((start, end))
    }

    #[inline]
    fn size_hint(&self) -> (usize, Option<usize>)
        ensures lower { IsWithinCount result.0 (at_most (length self.now)) }
        ensures upper { IfSome result.1 (UpTo (at_most (length self.now))) }
        ensures exact { result ≡ (length self.now, Some (length self.now)) }
    {
        let count = self.rest.len();
        (count, Some(count))
    }
}

/// An iterator over the holes of an assembler, made by `holes`.
///
/// It yields each hole as (start, end), the end not included, in rising order.
///
/// ```
/// # use net_base::storage::Assembler;
/// # let mut assembler = Assembler::new();
/// assert_eq!((assembler.add(5, 1), assembler.add(0, 3)), (Ok(()), Ok(())));
/// let mut holes = assembler.holes();
/// assert_eq!((holes.next(), holes.next()), (Some((3, 5)), None));
/// ```
#[derive(Drop)]
pub struct HoleIter<'a> {
    // The runs that are left, and where the one before them ended.
    runs: RunIter<'a>,
    from: usize,
}

impl<'a> Model for HoleIter<'a> {
    ghost use Rattle.std.specs.Prelude.{List, ℕ};

    ghost Value = { List (ℕ × ℕ) };

    ghost use Rattle.std.specs.Prelude.{◌+◌};
    ghost use Rattle.net_assembler.specs.Positions.{holes_before};
    ghost use Rattle.net_assembler.specs.RunLists.{IsRising};

    ghost view = { λ s. holes_before s.from s.runs };

    ghost invariant = { λ s. IsRising (s.from + 1) s.runs };
}

impl<'a> HoleIter<'a> {
    /// Returns the hole before each of these runs. The first hole begins at `from`.
    #[inline]
    pub(crate) fn before(runs: RunIter<'a>, from: usize) -> Self
        requires { IsRising (from + 1) runs }
        ensures { result ≡ holes_before from runs.entry }
    {
        HoleIter { runs, from }
    }
}

impl<'a> Iterator for HoleIter<'a> {
    type Item = (usize, usize);

    ghost next_gives = { YieldsFirst (λ s. s) };

    ghost remaining = { item_count (λ s. s) };

    #[inline]
    fn next(&mut self) -> Option<(usize, usize)> {
        let (start, end) = self.runs.next()?;
        let from = mem::replace(&mut self.from, end);
        Some((from, start))
    }

    #[inline]
    fn size_hint(&self) -> (usize, Option<usize>)
        ensures lower { IsWithinCount result.0 (at_most (length self.now)) }
        ensures upper { IfSome result.1 (UpTo (at_most (length self.now))) }
        ensures exact { result ≡ (length self.now, Some (length self.now)) }
    {
        self.runs.size_hint()
    }
}

//! Laws of sets of positions and of an assembler's calls.
//!
//! Each function does nothing: its contract is the law, for all sets, ranges and results. The laws
//! of calls are about everything that the contracts of these calls allow, so they hold of every
//! body that meets the contracts.
#![tactic(auto, using(crate::proofs::Calls::laws))]

ghost use Rattle.std.specs.Prelude.{◌≡◌, ◌↔◌, ◌||◌, ℕ, ◌+◌, ◌<◌, ◌≤◌, ◌^◌, Bool, List, length, drop};
ghost use Rattle.std.specs.Prelude.{Option, Result, Ok, IsTrue, IsOk, IsErr, OnOk, OnErr};
ghost use Rattle.std.specs.List.Sorted.{IsPermutation};
ghost use Rattle.net_assembler.specs.declared.assembler.error.TooManyHolesError.{TooManyHolesError};
ghost use Rattle.net_assembler.specs.Assembler.{MakesTooManyRuns};
ghost use Rattle.net_assembler.specs.AssemblerLaws.{Adds, AddsThenRemovesFront, CallsNext, Compares};
ghost use Rattle.net_assembler.specs.AssemblerLaws.{MaximalRunsOfEverySet, MembersOfNothing, MembersWithRange};
ghost use Rattle.net_assembler.specs.AssemblerLaws.{RemovesFront, lies_in_some, results_of_next, with_ranges};
ghost use Rattle.net_assembler.specs.Positions.{AreMaximalRuns, IsFirstMissing, Positions, contains, first_missing};
ghost use Rattle.net_assembler.specs.Positions.{front, maximal_runs, nothing, runs, shift_down, with_range};
ghost use Rattle.net_assembler.specs.RunLists.{HasSoundRuns, IsCanonical, set_of, zero_head};
ghost use Rattle.net_assembler.specs.Turns.{binary_digits};

use super::TooManyHolesError;

/// States that two sets are equal exactly if they have the same members, and what the members are
/// of the empty set, of a set with a range, and of a set that was shifted down.
pub fn members()
    ensures equal { (s t : Positions) → (s ≡ t) ↔ ((p : ℕ) → contains s p ≡ contains t p) }
    ensures nothing { MembersOfNothing }
    ensures with_range { MembersWithRange }
    ensures shifted_down { (s : Positions) (m p : ℕ) →
        contains (shift_down s m) p ≡ contains s (p + m) }
{}

/// States that the first missing position from any position on is the least one from there on that
/// is not in the set.
pub fn first_missing()
    ensures { (s : Positions) (p : ℕ) → IsFirstMissing s p (first_missing s p) }
{}

/// States that the front of a set is the least position that is not in it.
pub fn front()
    ensures { (s : Positions) → IsFirstMissing s 0 (front s) }
{}

/// States that the list of maximal runs has, for every set, exactly its maximal runs: each position
/// of the set is in exactly one of them, they rise with a hole between neighbours, and there are as
/// many as the set has positions that begin a run.
pub fn maximal_runs()
    ensures { MaximalRunsOfEverySet }
{}

/// States that two assemblers are equal exactly if their sets have the same members.
pub fn equal_assemblers()
    ensures { (s t : Positions) (equal : Bool) → Compares s t equal →
        IsTrue equal ↔ ((p : ℕ) → contains s p ≡ contains t p) }
{}

/// States that adding an accepted range again is accepted and changes nothing, by the clauses of
/// `add` for the second call.
pub fn adding_again()
    ensures set { (s : Positions) (offset size : ℕ) →
        with_range (with_range s offset size) offset size ≡ with_range s offset size }
    ensures calls { (most_runs offset size : ℕ) (s once twice : Positions)
        (again : Result (Unit {0}) TooManyHolesError) →
        once ≡ with_range s offset size → runs once ≤ most_runs →
        OnOk again (twice ≡ with_range once offset size) → OnErr again (twice ≡ once) →
        (IsErr again ↔ MakesTooManyRuns most_runs once offset size) →
        (again ≡ Ok tt) × (twice ≡ once) }
{}

/// States that the empty set has no run, and a range makes at most one run more. So a range is
/// accepted if there are fewer than `N` runs.
pub fn number_of_runs()
    ensures of_nothing { runs nothing ≡ 0 }
    ensures with_range { (s : Positions) (offset size : ℕ) →
        runs (with_range s offset size) ≤ runs s + 1 }
{}

/// States that ranges that are added one after another leave the union, whatever their order: a
/// position is present exactly if it was before or is in one of the ranges, and ranges in another
/// order, or any that have the same positions, leave the same set.
#[tactic(auto, using(crate::proofs::Calls::orders))]
pub fn ranges_in_any_order()
    ensures members { (s : Positions) (ranges : List (ℕ × ℕ)) (p : ℕ) →
        contains (with_ranges s ranges) p ≡ (contains s p || lies_in_some p ranges) }
    ensures same { (s : Positions) (ranges others : List (ℕ × ℕ)) →
        ((p : ℕ) → lies_in_some p ranges ≡ lies_in_some p others) →
        with_ranges s ranges ≡ with_ranges s others }
    ensures reordered { (s : Positions) (ranges others : List (ℕ × ℕ)) →
        IsPermutation ranges others → with_ranges s ranges ≡ with_ranges s others }
{}

/// States that two ranges that are accepted in both orders leave equal assemblers.
pub fn adding_in_both_orders()
    ensures { (most_runs a m b n : ℕ) (s one two ab ba : Positions) (equal : Bool) →
        Adds most_runs s a m (Ok tt) one → Adds most_runs one b n (Ok tt) ab →
        Adds most_runs s b n (Ok tt) two → Adds most_runs two a m (Ok tt) ba →
        Compares ab ba equal → IsTrue equal }
{}

/// States that `add_then_remove_front` does what `add` and then `remove_front` do whenever that
/// `add` is accepted, and with offset 0 it is never refused.
pub fn adding_then_removing()
    ensures same { (most_runs offset size count : ℕ) (s all rest both : Positions)
        (result : Result ℕ TooManyHolesError) →
        Adds most_runs s offset size (Ok tt) all → RemovesFront most_runs all count rest →
        AddsThenRemovesFront most_runs s offset size result both →
        (result ≡ Ok count) × (both ≡ rest) }
    ensures at_zero { (most_runs size : ℕ) (s both : Positions)
        (result : Result ℕ TooManyHolesError) →
        AddsThenRemovesFront most_runs s 0 size result both → IsOk result }
{}

/// States that `iter_data` gives the maximal runs, at most as many as the assembler has room for,
/// and ends: however often `next` is called, it returns the runs in turn and then `None`.
pub fn iterating()
    ensures { (most_runs : ℕ) (s : Positions) (left last : List (ℕ × ℕ))
        (results : List (Option (ℕ × ℕ))) →
        left ≡ maximal_runs s → length left ≤ most_runs → CallsNext left results last →
        AreMaximalRuns s left × (length left ≤ most_runs)
        × (results ≡ results_of_next left (length results))
        × (last ≡ drop (length results) left) }
{}

/// States how many binary digits a number has, which bounds the looks of `add_counted`: b digits
/// are enough exactly for the numbers below 2 to the power b.
pub fn counting_binary_digits()
    ensures { (n b : ℕ) → (n < 2 ^ b) ↔ (binary_digits n ≤ b) }
{}

/// States that two refusals are equal, and a clone of one is never refused.
pub fn too_many_holes(x: &TooManyHolesError, y: &TooManyHolesError)
    ensures equal { IsTrue (⟦<TooManyHolesError as PartialEq>⟧.eq x.now y.now) }
    ensures never_refused { ⟦<TooManyHolesError as Clone>⟧.is_infallible x.now }
{}

/// States that a head of two zeros is that of an assembler with no position, whatever its runs.
pub fn head_of_zeros()
    ensures sound { (runs : List (ℕ × ℕ)) → HasSoundRuns zero_head runs }
    ensures empty { (runs : List (ℕ × ℕ)) → set_of zero_head runs ≡ nothing }
    ensures canonical { IsCanonical zero_head }
{}

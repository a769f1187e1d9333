//! Laws of every generator. No function here does anything.

// Why: These laws take no parameters. They are on every state, so a caller needs no two generators to cite `period`.

ghost use Rattle.std.specs.Prelude.{◌≡◌, ◌<◌, ◌^◌, ℕ};
ghost use Rattle.net_base.specs.Generator.{LeadsTo, IsPeriod};

/// States that from every state every state is reached, in 1 to 2^64 steps.
#[tactic(auto, using(crate::proofs::Draws::leads_to))]
pub fn full_period()
    ensures { (s t : ℕ) → t < 2 ^ 64 → LeadsTo s t }
{}

/// States that the period is 2^64: that many steps lead from each state to itself, and fewer never
/// do.
pub fn period()
    ensures { (s : ℕ) → s < 2 ^ 64 → (n : ℕ) × (n ≡ 2 ^ 64) × IsPeriod s n }
{}

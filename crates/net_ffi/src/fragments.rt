//! What is tested of a buffer of fragments, and whether a packet is complete.
ghost use Rattle.std.specs.Prelude.{◌≡◌, ◌↔◌, ℕ, List, length, IsTrue, IsFalse};
ghost use Rattle.net_assembler.specs.RunLists.{HasSoundRuns};
ghost use Rattle.net_base.specs.Fragments.{IsComplete, IsPlausible, fragments_of};

use net_assembler::Run;
use net_base::storage::FragmentsHead;

/// Returns whether there are as many runs as are used, and a known size is at most `capacity`.
#[inline(always)]
pub(crate) fn is_plausible(fragments: &FragmentsHead, capacity: usize, run_count: usize) -> bool
    ensures { IsTrue result ↔ IsPlausible capacity run_count fragments.now }
{
    fragments.present.used <= run_count && (!fragments.has_total || fragments.total <= capacity)
}

/// Returns whether the packet's size is known and all its bytes have arrived, and if so writes the size to `size`. Its
/// bytes are the first ones of the storage, which has `capacity` bytes.
///
/// It is refused if `present.used` is above `runs.len()` or a known size above `capacity`: false, and nothing changes.
///
/// # Requires
///
/// Head and runs are sound, as `net_base_fragments_is_sound` tests.
#[unsafe(no_mangle)]
pub extern "C" fn net_base_fragments_complete(
    fragments: &FragmentsHead,
    capacity: usize,
    runs: &[Run],
    size: &mut usize,
) -> bool
    requires sound { IsPlausible capacity (length runs.now) fragments.now → HasSoundRuns
        fragments.now.present runs.now }
    ensures done { IsPlausible capacity (length runs.now) fragments.now → (bytes : List ℕ) (n : ℕ)
        → IsComplete (fragments_of fragments.now bytes runs.now) n → IsTrue result × (size.new ≡ n) }
    ensures missing { IsPlausible capacity (length runs.now) fragments.now → (bytes : List ℕ) →
        (((n : ℕ) × IsComplete (fragments_of fragments.now bytes runs.now) n) → ⊥) → IsFalse result }
    ensures refused { (IsPlausible capacity (length runs.now) fragments.now → ⊥) → IsFalse result }
    ensures unchanged { IsFalse result → size.new ≡ size.old }
{
    if !is_plausible(fragments, capacity, runs.len()) {
        return false;
    }
    match fragments.complete(runs) {
        Some(length) => {
            *size = length;
            true
        }
        None => false,
    }
}

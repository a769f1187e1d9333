//! Packets that arrive in fragments, as those of IPv4 do, over bytes and runs that the caller
//! keeps.
//!
//! A head of zeros is that of an empty buffer, whose packet is waited for up to moment 0. The
//! longest packet has as many bytes as the storage. Fragments may overlap: at each position the
//! byte is that of the last fragment there. `present` has the runs of what has arrived.
ghost use Rattle.net_assembler.specs.Positions.{nothing};
ghost use Rattle.net_assembler.specs.RunLists.{HasSoundRuns, set_of};
ghost use Rattle.net_base.specs.Fragments.{Adds, Differs, HasSoundParts, IsExact, IsPlausible, TakesSize};
ghost use Rattle.net_base.specs.Fragments.{fragments_of, total_of, zero_fragments};
ghost use Rattle.net_ffi.specs.Results.{IsStatus, done_or_error};
ghost use Rattle.std.specs.Prelude.{IsTrue, List, OnErr, OnOk, false, length, true, ℕ, ◌↔◌, ◌≡◌, ◌≤◌};
ghost use Rattle.std.specs.declared.option.Option.TheVariants.{Some};

use crate::fragments::is_plausible;
use crate::refusals::{FragmentStatus, NET_BASE_REFUSED, SizeStatus};
use crate::results::status_of_fragment;
use net_assembler::Run;
use net_base::storage::FragmentsHead;

/// Makes `fragments` the head of an empty buffer, whose packet is waited for up to `expires_at`, in
/// microseconds. Storage and runs may have any values.
#[unsafe(no_mangle)]
pub extern "C" fn net_base_fragments_init(fragments: &mut FragmentsHead, expires_at: i64)
    ensures sound { (storage : List ℕ) (runs : List (ℕ × ℕ))
        → HasSoundParts fragments.new storage runs }
    ensures nothing { (runs : List (ℕ × ℕ)) → set_of fragments.new.present runs ≡ nothing }
    ensures value { fragments.new ≡ zero_fragments expires_at }
    ensures exact { IsExact fragments.new }
{
    *fragments = FragmentsHead::new(expires_at);
}

/// Returns whether head and runs are sound over a storage of `capacity` bytes, whatever numbers
/// they have: the runs rise without touching, end at `capacity` or below, and at a known size or
/// below, which is at most `capacity`. It looks at each used run.
#[unsafe(no_mangle)]
pub extern "C" fn net_base_fragments_is_sound(
    fragments: &FragmentsHead,
    capacity: usize,
    runs: &[Run],
) -> bool
    ensures { (storage : List ℕ) → length storage ≡ capacity
        → (IsTrue result ↔ HasSoundParts fragments.now storage runs.now) }
{
    fragments.is_sound(capacity, runs)
}

/// Sets the packet's size to `size` bytes. `capacity` is how many bytes the storage has. Returns
/// `NET_BASE_TOO_LONG` if the storage has fewer, or else `NET_BASE_OTHER_SIZE` if another size is
/// known, or a byte at `size` or above has arrived; then nothing changes.
///
/// It is refused if `present.used` is above `runs.len()`: `NET_BASE_REFUSED`, and nothing changes.
///
/// # Requires
///
/// Head and runs are sound, as `net_base_fragments_is_sound` tests.
#[unsafe(no_mangle)]
pub extern "C" fn net_base_fragments_set_total_size(
    fragments: &mut FragmentsHead,
    capacity: usize,
    runs: &[Run],
    size: usize,
) -> SizeStatus
    requires sound { fragments.old.present.used ≤ length runs.now
        → HasSoundRuns fragments.old.present runs.now }
    ensures ok { fragments.old.present.used ≤ length runs.now
        → OnOk (done_or_error result)
        (fragments.new ≡ record fragments.old { has_total = true; total = size }) }
    ensures total { fragments.old.present.used ≤ length runs.now
        → OnOk (done_or_error result) (total_of fragments.new ≡ Some size) }
    ensures sound { fragments.old.present.used ≤ length runs.now
        → OnOk (done_or_error result) ((storage : List ℕ) → length storage ≡ capacity
        → HasSoundParts fragments.old storage runs.now
        → HasSoundParts fragments.new storage runs.now) }
    ensures unchanged { fragments.old.present.used ≤ length runs.now
        → OnErr (done_or_error result) (fragments.new ≡ fragments.old) }
    ensures takes { fragments.old.present.used ≤ length runs.now
        → TakesSize capacity (set_of fragments.old.present runs.now) (total_of fragments.old) size
        (done_or_error result) }
    ensures exact { IsExact fragments.old → IsExact fragments.new }
    ensures status { fragments.old.present.used ≤ length runs.now → IsStatus result }
    ensures refused { (fragments.old.present.used ≤ length runs.now → ⊥)
        → (result ≡ NET_BASE_REFUSED) × (fragments.new ≡ fragments.old) }
{
    if fragments.present.used > runs.len() {
        return NET_BASE_REFUSED;
    }
    status_of_fragment(fragments.set_total_size(capacity, runs, size))
}

/// Adds a fragment, whose first byte is that of the packet at `offset`. Returns `NET_BASE_TOO_LONG`
/// if it reaches past the buffer's end, or else `NET_BASE_OTHER_SIZE` past a known size, or else
/// `NET_BASE_TOO_MANY_RUNS`; then nothing changes. It is refused if `present.used` is above
/// `runs.len()`, or a known size above `storage.len()`: `NET_BASE_REFUSED`, and nothing changes.
///
/// # Requires
///
/// Head and runs are sound, as `net_base_fragments_is_sound` tests.
#[unsafe(no_mangle)]
pub extern "C" fn net_base_fragments_add(
    fragments: &mut FragmentsHead,
    storage: &mut [u8],
    runs: &mut [Run],
    offset: usize,
    data: &[u8],
) -> FragmentStatus
    requires sound { IsPlausible (length storage.old) (length runs.old) fragments.old
        → HasSoundParts fragments.old storage.old runs.old }
    ensures sound { IsPlausible (length storage.old) (length runs.old) fragments.old
        → HasSoundParts fragments.new storage.new runs.new }
    ensures adds { IsPlausible (length storage.old) (length runs.old) fragments.old
        → Adds (length runs.old) (fragments_of fragments.old storage.old runs.old) offset «data».now
        false (done_or_error result) (fragments_of fragments.new storage.new runs.new) }
    ensures unchanged { IsPlausible (length storage.old) (length runs.old) fragments.old
        → OnErr (done_or_error result)
        ((fragments.new ≡ fragments.old) × (storage.new ≡ storage.old) × (runs.new ≡ runs.old)) }
    ensures others { (fragments.new.has_total ≡ fragments.old.has_total)
        × (fragments.new.total ≡ fragments.old.total)
        × (fragments.new.expires_at ≡ fragments.old.expires_at) }
    ensures exact { IsExact fragments.old → IsExact fragments.new }
    ensures status { IsPlausible (length storage.old) (length runs.old) fragments.old
        → IsStatus result }
    ensures refused { (IsPlausible (length storage.old) (length runs.old) fragments.old → ⊥)
        → (result ≡ NET_BASE_REFUSED) × (fragments.new ≡ fragments.old)
        × (storage.new ≡ storage.old) × (runs.new ≡ runs.old) }
{
    if !is_plausible(fragments, storage.len(), runs.len()) {
        return NET_BASE_REFUSED;
    }
    status_of_fragment(fragments.add(storage, runs, offset, data))
}

/// Returns whether a byte that arrived differs from that of the fragment whose first byte is that
/// of the packet at `offset`. The fragment need not be within the buffer.
///
/// It is refused if `present.used` is above `runs.len()`, or a known size above `storage.len()`:
/// true, as of a packet that isn't to be trusted.
///
/// # Requires
///
/// Head and runs are sound, as `net_base_fragments_is_sound` tests.
#[unsafe(no_mangle)]
pub extern "C" fn net_base_fragments_differs(
    fragments: &FragmentsHead,
    storage: &[u8],
    runs: &[Run],
    offset: usize,
    data: &[u8],
) -> bool
    requires sound { IsPlausible (length storage.now) (length runs.now) fragments.now
        → HasSoundParts fragments.now storage.now runs.now }
    ensures value { IsPlausible (length storage.now) (length runs.now) fragments.now
        → (IsTrue result
        ↔ Differs (fragments_of fragments.now storage.now runs.now) offset «data».now) }
    ensures refused { (IsPlausible (length storage.now) (length runs.now) fragments.now → ⊥)
        → IsTrue result }
{
    if !is_plausible(fragments, storage.len(), runs.len()) {
        return true;
    }
    fragments.differs(storage, runs, offset, data)
}

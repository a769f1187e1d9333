//! Reassembles several packets at a time: each packet has a key, and a slot with a buffer.
//!
//! You lend the slots, one for each packet that can wait at a time. Before each fragment, free the
//! slots of packets that have expired. smoltcp's table is `PacketAssemblerSet`.
//!
//! ```
//! use net_base::storage::fragment_table::{accept, remove_expired, take_complete, FragmentSlot};
//! use net_base::storage::fragment_table::AcceptError;
//! use net_base::time::{Duration, Instant};
//!
//! let mut bytes = [[0u8; 8]; 2];
//! let mut slots = bytes.each_mut().map(|bytes| FragmentSlot::<_, _, 4>::over(&mut bytes[..]));
//! let (now, one, other) = (Instant::ZERO, ("10.0.0.1", 7), ("10.0.0.2", 7));
//! for (key, offset, data, is_last) in
//!     [(one, 2, b"cd", true), (other, 0, b"xy", false), (one, 0, b"ab", false)]
//! {
//!     remove_expired(&mut slots, now);
//!     accept(&mut slots, key, offset, data, is_last, now + Duration::from_secs(60))?;
//! }
//! let at = take_complete(&mut slots, one).expect("all its bytes");
//! assert_eq!(slots[at].buffer.assemble(), Some(&b"abcd"[..]));
//! assert_eq!(take_complete(&mut slots, other), None);
//! # Ok::<(), AcceptError>(())
//! ```
#![tactic(auto, using(crate::proofs::FragmentFacts::slots))]

ghost use Rattle.std.specs.Prelude.{◌≡◌, ◌↔◌, ◌<◌, ◌≤◌, ◌<ℤ◌, ℕ, length, set, is_none, slice_get, pos, []};
ghost use Rattle.std.specs.Prelude.{IsNone, IfSome, OnErr, OnOk, Ok, Err, ◌≢◌};
ghost use Rattle.std.specs.declared.option.Option.TheVariants.{Some, None};
ghost use Rattle.std.specs.List.{position, AllZip};
ghost use Rattle.net_base.specs.Fragments.{IsComplete, empty, is_for, ExpiresFirst, IsSlotFor, Accepts};
ghost use Rattle.net_base.specs.Fragments.{buffer_for, key_for, refusal_of};

use super::{FragmentError, FragmentsOver};
use crate::time::Instant;
use net_ring::Storage;
use thiserror::Error;

/// Why a fragment is refused. Nothing changes, and the packet can still be completed by other
/// fragments.
///
/// ```
/// use net_base::storage::fragment_table::{accept, AcceptError, FragmentSlot};
/// use net_base::time::Instant;
///
/// let mut slots = [FragmentSlot::<u16, _, 4>::over([0; 8])];
/// let refused = accept(&mut slots, 7, 6, b"abc", true, Instant::ZERO);
/// assert_eq!((refused, slots[0].key), (Err(AcceptError::TooLong), None));
/// ```
#[derive(Debug, Clone, Copy, PartialEq, Eq, Hash, Drop, Error)]
pub enum AcceptError {
    /// It has no bytes.
    #[error("the fragment has no bytes: drop it")]
    NoBytes,
    /// There are no slots.
    #[error("the table has no slots: make it with at least one")]
    NoSlot,
    /// A byte of it differs from one that has arrived.
    #[error("the fragment contradicts bytes that have arrived: drop it")]
    OtherBytes,
    /// It ends past the buffer.
    #[error("the fragment ends past the buffer: drop it")]
    TooLong,
    /// There would be more than `N` ranges of bytes, with holes between them.
    #[error("too many holes: drop the fragment")]
    TooManyHoles,
    /// It ends past the packet, or is the last one, and the packet can't end there.
    #[error("the fragment contradicts the packet's size: drop it")]
    OtherSize,
}

/// Returns the same refusal, of a table.
fn refusal(error: FragmentError) -> AcceptError
    ensures { result ≡ refusal_of error }
{
    match error {
        FragmentError::TooLong => AcceptError::TooLong,
        FragmentError::TooManyHoles => AcceptError::TooManyHoles,
        FragmentError::OtherSize => AcceptError::OtherSize,
    }
}

/// A buffer of fragments, and the key of its packet; a free slot has no key.
///
/// ```
/// use net_base::storage::fragment_table::FragmentSlot;
///
/// let slots = [(); 2].map(|()| FragmentSlot::<u16, _, 8>::over([0; 1_500]));
/// assert!(slots.iter().all(|slot| slot.key.is_none()));
/// ```
#[derive(Drop)]
pub struct FragmentSlot<K, B: Storage<u8>, const N: usize> {
    /// The key of the packet, such as its source, destination, protocol and identification.
    pub key: Option<K>,
    /// The packet's fragments; in a free slot, those of an earlier packet.
    pub buffer: FragmentsOver<B, N>,
}

impl<K: Copy + Eq, B: Storage<u8>, const N: usize> FragmentSlot<K, B, N> {
    /// Returns a free slot, whose empty buffer is over these bytes.
    ///
    /// ```
    /// # use net_base::storage::fragment_table::FragmentSlot;
    /// let slot = FragmentSlot::<u16, _, 4>::over([0; 8]);
    /// assert!(slot.key.is_none() && slot.buffer.is_empty());
    /// ```
    ///
    /// A program in which `N` is 0 does not compile.
    pub const fn over(bytes: B) -> Self
        requires { 1 ≤ N }
        ensures key { result.key ≡ None }
        ensures buffer { result.buffer ≡ empty (B.elements bytes) (pos 0) }
    {
        prove!(N >= 1, "N is at least 1");
        FragmentSlot {
            key: None,
            buffer: FragmentsOver::over(bytes, Instant::ZERO),
        }
    }

    /// Returns whether the slot is for the packet of this key.
    fn is_for(&self, key: K) -> bool
        ensures { result ≡ is_for K.PartialEq.eq key self.now.key }
    {
        match &self.key {
            Some(own) => *own == key,
            None => false,
        }
    }

    /// Adds a fragment of the packet of this key, for which it begins if it isn't for that packet already, and
    /// returns `at`. If it is refused, nothing changes.
    fn accept(
        &mut self,
        at: usize,
        key: K,
        offset: usize,
        data: &[u8],
        is_last: bool,
        expires_at: Instant,
    ) -> Result<usize, AcceptError>
        ensures key { OnOk result (self.new.key ≡ key_for K.PartialEq.eq key self.old.key) }
        ensures at { OnOk result (result ≡ Ok at) }
        ensures buffer { Accepts N
            (buffer_for K.PartialEq.eq key expires_at self.old.key self.old.buffer)
            offset «data».now is_last at result self.new.buffer }
        ensures unchanged { OnErr result (self.new ≡ self.old) }
        ensures no_bytes { result ≢ Err AcceptError.NoBytes }
        ensures no_slot { result ≢ Err AcceptError.NoSlot }
    {
        if !self.is_for(key) {
            return match self.buffer.reset_with(offset, data, is_last, expires_at) {
                Ok(()) => {
                    self.key = Some(key);
                    Ok(at)
                }
                Err(error) => Err(refusal(error)),
            };
        }
        if self.buffer.differs(offset, data) {
            return Err(AcceptError::OtherBytes);
        }
        match self.buffer.add_fragment(offset, data, is_last) {
            Ok(()) => Ok(at),
            Err(error) => Err(refusal(error)),
        }
    }

    /// Frees the slot if its packet is waited for up to a moment before `now`.
    fn expire(&mut self, now: Instant)
        ensures expired { self.old.buffer.expires_at <ℤ now → self.new.key ≡ None }
        ensures kept { (self.old.buffer.expires_at <ℤ now → ⊥) → self.new.key ≡ self.old.key }
        ensures buffer { self.new.buffer ≡ self.old.buffer }
    {
        if self.buffer.is_expired(now) {
            self.key = None;
        }
    }
}

/// Returns the first slot for the packet of this key.
fn find<K: Copy + Eq, B: Storage<u8>, const N: usize>(
    slots: &[FragmentSlot<K, B, N>],
    key: K,
) -> Option<usize>
    ensures first { result ≡ position (λ s. is_for K.PartialEq.eq key s.key) slots.now }
    ensures within { IfSome result (λ at. at < length slots.now) }
{
    for at in 0..slots.len() {
        if slots[at].is_for(key) {
            return Some(at);
        }
    }
    None
}

/// Returns the first slot without a key.
fn find_free<K: Copy + Eq, B: Storage<u8>, const N: usize>(
    slots: &[FragmentSlot<K, B, N>],
) -> Option<usize>
    ensures first { result ≡ position (λ s. is_none s.key) slots.now }
    ensures within { IfSome result (λ at. at < length slots.now) }
{
    for at in 0..slots.len() {
        if slots[at].key.is_none() {
            return Some(at);
        }
    }
    None
}

/// Adds a fragment at `offset` of the packet with this key, and returns the index of the packet's
/// slot. `is_last` says that the packet ends with it. `take_complete` then returns a packet that is
/// whole.
///
/// The slot is the packet's own, or else a free one, or else the one that expires first, whose
/// packet is dropped. So a new packet never waits for old ones. It is waited for up to
/// `expires_at`.
///
/// Bytes that have arrived stay. A fragment with other bytes in their place is refused, and a copy
/// is accepted. RFC 5722 asks to drop a packet whose fragments overlap. Here it stays: otherwise
/// anyone who knows its key could end it with one fragment. To drop it, set its slot's `key` to
/// `None`.
///
/// ```
/// # use net_base::storage::fragment_table::{accept, AcceptError, FragmentSlot};
/// # use net_base::time::Instant;
/// # let mut slots = [FragmentSlot::<u16, _, 4>::over([0; 8])];
/// let until = Instant::from_secs(60);
/// assert_eq!(accept(&mut slots, 7, 0, b"ab", false, until), Ok(0));
/// let other = accept(&mut slots, 7, 1, b"x", true, until);
/// assert_eq!(other, Err(AcceptError::OtherBytes));
/// // No slot is free: packet 7 is given up for packet 8.
/// assert_eq!(accept(&mut slots, 8, 0, b"xy", true, until), Ok(0));
/// assert_eq!(slots[0].key, Some(8));
/// ```
///
/// # Errors
///
/// `NoBytes` if the fragment is empty; else `NoSlot` if the table is; else `OtherBytes` if a byte
/// differs from one that has arrived; else the error of [`FragmentsOver::add_fragment`], on an
/// empty buffer if the packet is new. Nothing changes then: a fragment that is refused takes no
/// slot from another packet.
pub fn accept<K: Copy + Eq, B: Storage<u8>, const N: usize>(
    slots: &mut [FragmentSlot<K, B, N>],
    key: K,
    offset: usize,
    data: &[u8],
    is_last: bool,
    expires_at: Instant,
) -> Result<usize, AcceptError>
    ensures no_bytes { (result ≡ Err AcceptError.NoBytes) ↔ («data».now ≡ []) }
    ensures no_slot { (result ≡ Err AcceptError.NoSlot) ↔ ((«data».now ≢ []) × (slots.old ≡ [])) }
    ensures unchanged { OnErr result (slots.new ≡ slots.old) }
    ensures slot { «data».now ≢ [] → slots.old ≢ [] → (at : ℕ) × (s : _) × (t : _)
        × IsSlotFor K.PartialEq.eq (λ x. x.key) (λ x. x.buffer.expires_at) key slots.old at
        × (slice_get slots.old at ≡ Some s) × (slots.new ≡ set slots.old at t)
        × OnOk result ((result ≡ Ok at) × (t.key ≡ key_for K.PartialEq.eq key s.key))
        × Accepts N (buffer_for K.PartialEq.eq key expires_at s.key s.buffer) offset «data».now
        is_last at result t.buffer }
{
    if data.is_empty() {
        return Err(AcceptError::NoBytes);
    }
    match slot_for(slots, key) {
        Some(at) => slots[at].accept(at, key, offset, data, is_last, expires_at),
        None => Err(AcceptError::NoSlot),
    }
}

/// Returns the slot for the packet of this key: the first that is for it, or else the first free one, or else
/// the first of those that expire before all others.
fn slot_for<K: Copy + Eq, B: Storage<u8>, const N: usize>(
    slots: &[FragmentSlot<K, B, N>],
    key: K,
) -> Option<usize>
    ensures none { (result ≡ None) ↔ (slots.now ≡ []) }
    ensures some { IfSome result (λ at. (at < length slots.now)
        × IsSlotFor K.PartialEq.eq (λ x. x.key) (λ x. x.buffer.expires_at) key slots.now at) }
{
    if slots.is_empty() {
        return None;
    }
    if let Some(at) = find(slots, key) {
        return Some(at);
    }
    if let Some(at) = find_free(slots) {
        return Some(at);
    }
    Some(first_to_expire(slots))
}

/// Returns the first of the slots that expire before all others.
fn first_to_expire<K: Copy + Eq, B: Storage<u8>, const N: usize>(
    slots: &[FragmentSlot<K, B, N>],
) -> usize
    requires { 0 < length slots.now }
    ensures { ExpiresFirst (λ s. s.buffer.expires_at) slots.now result }
{
    let mut first = 0;
    for at in 1..slots.len() {
        if slots[at].buffer.expires_at() < slots[first].buffer.expires_at() {
            first = at;
        }
    }
    first
}

/// Frees the slots of packets that have expired at the moment `now`. Until a slot is used again,
/// its buffer shows what arrived.
///
/// ```
/// # use net_base::storage::fragment_table::{accept, remove_expired, FragmentSlot};
/// # use net_base::time::{Duration, Instant};
/// # let mut slots = [FragmentSlot::<u16, _, 4>::over([0; 8])];
/// let until = Instant::from_secs(60);
/// assert_eq!(accept(&mut slots, 7, 0, b"ab", false, until), Ok(0));
/// remove_expired(&mut slots, until);
/// assert_eq!(slots[0].key, Some(7));
/// remove_expired(&mut slots, until + Duration::from_micros(1));
/// assert_eq!(slots[0].key, None);
/// ```
pub fn remove_expired<K: Copy + Eq, B: Storage<u8>, const N: usize>(
    slots: &mut [FragmentSlot<K, B, N>],
    now: Instant,
)
    ensures each { AllZip (λ s t. (s.buffer.expires_at <ℤ now → t.key ≡ None)
        × ((s.buffer.expires_at <ℤ now → ⊥) → t.key ≡ s.key)
        × (t.buffer ≡ s.buffer)) slots.old slots.new }
{
    for slot in slots.iter_mut() {
        slot.expire(now);
    }
}

/// Frees the slot of the packet with this key if the packet is whole, and returns the slot's index.
/// So a packet is returned once. Until the slot is used again, `assemble` of its buffer shows the
/// packet.
///
/// If no slot is for the packet, or a byte of it is missing, it returns `None` and changes nothing.
///
/// ```
/// # use net_base::storage::fragment_table::{accept, take_complete, FragmentSlot};
/// # use net_base::time::Instant;
/// # let mut slots = [FragmentSlot::<u16, _, 4>::over([0; 8])];
/// assert_eq!(accept(&mut slots, 7, 0, b"ab", true, Instant::ZERO), Ok(0));
/// assert_eq!((take_complete(&mut slots, 7), take_complete(&mut slots, 7)), (Some(0), None));
/// assert_eq!(slots[0].buffer.assemble(), Some(&b"ab"[..]));
/// ```
#[must_use]
pub fn take_complete<K: Copy + Eq, B: Storage<u8>, const N: usize>(
    slots: &mut [FragmentSlot<K, B, N>],
    key: K,
) -> Option<usize>
    ensures found { IfSome result (λ at.
        position (λ s. is_for K.PartialEq.eq key s.key) slots.old ≡ Some at) }
    ensures complete { IfSome result (λ at. (s : _) → slice_get slots.old at ≡ Some s →
        ((size : ℕ) × IsComplete s.buffer size)
        × (slots.new ≡ set slots.old at (record { key = None; buffer = s.buffer }))) }
    ensures missing { IsNone result → (at : ℕ) (s : _) →
        position (λ s. is_for K.PartialEq.eq key s.key) slots.old ≡ Some at →
        slice_get slots.old at ≡ Some s → (size : ℕ) → IsComplete s.buffer size → ⊥ }
    ensures unchanged { IsNone result → slots.new ≡ slots.old }
{
    let at = find(slots, key)?;
    slots[at].buffer.assemble()?;
    slots[at].key = None;
    Some(at)
}

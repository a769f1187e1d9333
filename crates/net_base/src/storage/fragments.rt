//! A packet that arrives in fragments: a buffer of its bytes and runs, its head, and a table of such buffers.
#![tactic(auto, using(crate::proofs::FragmentFacts::buffers))]

ghost use Rattle.std.specs.Prelude.{◌≡◌, ◌↔◌, ◌+◌, ◌<◌, ◌≤◌, ◌^◌, ℕ, IsTrue, IsSome, IfSome, OnOk, OnErr, ◌<ℤ◌};
ghost use Rattle.std.specs.Prelude.{length, take, slice_range, false};
ghost use Rattle.std.specs.declared.option.Option.TheVariants.{Some};
ghost use Rattle.net_assembler.specs.Positions.{nothing};
ghost use Rattle.net_base.specs.Fragments.{fragments_of, HasSoundParts, IsExact, limit_of, IsBelow, IsComplete};
ghost use Rattle.net_base.specs.Fragments.{Differs, Adds, TakesSize, Meets, HasRange, empty, begun};

use crate::time::Instant;
use net_assembler::{Run, assembler};
use net_ring::{ManagedSlice, Storage};
use std::marker::Model;
use thiserror::Error;

mod head;
pub mod laws;
mod managed;
pub mod table;

pub use head::FragmentsHead;

/// Why a fragment or a packet's size is refused. Nothing changes.
///
/// Drop the fragment. If the packet needed it, the packet stays incomplete, and expires.
///
/// ```
/// use net_base::storage::{FragmentBuffer, FragmentError};
/// use net_base::time::Instant;
///
/// let mut bytes = [0u8; 4];
/// let mut buffer = FragmentBuffer::<4>::new(&mut bytes[..], Instant::ZERO);
/// assert_eq!(buffer.add(0, b"abcde"), Err(FragmentError::TooLong));
/// assert!(buffer.is_empty());
/// ```
#[derive(Debug, Clone, Copy, PartialEq, Eq, Hash, Drop, Error)]
pub enum FragmentError {
    /// It ends past the buffer.
    #[error("the fragment ends past the buffer: drop it")]
    TooLong,
    /// There would be more than `N` ranges of bytes, with holes between them.
    #[error("too many holes: drop the fragment")]
    TooManyHoles,
    /// It contradicts the packet's size: another size is known, a byte at that size or above has
    /// arrived, or the fragment ends past a known size.
    #[error("the fragment contradicts the packet's size: drop it")]
    OtherSize,
}

/// A [`FragmentBuffer`] over any storage.
///
/// `N` is how many ranges of bytes it has room for, with holes between them. Names call such a range a *run*. Where
/// fragments overlap, the last one that came wins:
///
/// ```text
/// add(0, "abcde")    abcde.....
/// add(7, "hij")      abcde..hij
/// add(3, "DEFG")     abcDEFGhij
/// ```
#[derive(Drop)]
pub struct FragmentsOver<B: Storage<u8>, const N: usize> {
    // Invariant: the runs are those of an assembler, the positions of the bytes that arrived. They end
    // within the storage and, if the total is known, within that, for which the storage has room. The
    // head is exact.
    head: FragmentsHead,
    bytes: B,
    runs: [Run; N],
}

/// Puts one packet together out of IP fragments that arrive in any order, over bytes that are lent
/// or owned. Its methods are those of [`FragmentsOver`].
///
/// Where fragments overlap, the last one that came wins. To refuse such fragments, ask
/// [`overlaps`](FragmentsOver::overlaps) or [`differs`](FragmentsOver::differs) before `add`.
///
/// ```
/// use net_base::storage::{FragmentBuffer, FragmentError};
/// use net_base::time::Instant;
///
/// let mut bytes = [0u8; 8];
/// let mut buffer = FragmentBuffer::<4>::new(&mut bytes[..], Instant::from_secs(60));
/// buffer.add_fragment(2, b"cd", true)?;
/// buffer.add_fragment(0, b"ab", false)?;
/// assert_eq!(buffer.assemble(), Some(&b"abcd"[..]));
/// # Ok::<(), FragmentError>(())
/// ```
pub type FragmentBuffer<'a, const N: usize> = FragmentsOver<ManagedSlice<'a, u8>, N>;

/// Contracts see the bytes of the storage, the set of the positions that arrived, the packet's
/// size, once it is known, and the moment up to which the packet is waited for.
impl<B: Storage<u8>, const N: usize> Model for FragmentsOver<B, N> {
    ghost use Rattle.std.specs.Prelude.{◌≡◌, length};
    ghost use Rattle.net_base.specs.Fragments.{FragmentsState, state_code, fragments_of, HasSoundParts, IsExact};

    ghost Value = { FragmentsState };

    ghost coded = { state_code };

    ghost view = { λ b. fragments_of b.head (B.elements b.bytes) b.runs };

    ghost invariant = { λ b.
        HasSoundParts b.head (B.elements b.bytes) b.runs × (length b.runs ≡ N) × IsExact b.head };
}

impl<B: Storage<u8>, const N: usize> FragmentsOver<B, N> {
    /// Returns an empty buffer over storage of any type. Its packet expires after `expires_at`.
    ///
    /// ```
    /// # use net_base::storage::FragmentsOver;
    /// # use net_base::time::Instant;
    /// let buffer = FragmentsOver::<_, 4>::over([0; 8], Instant::ZERO);
    /// assert_eq!(buffer.capacity(), 8);
    /// ```
    ///
    /// A program in which `N` is 0 does not compile.
    pub const fn over(bytes: B, expires_at: Instant) -> Self
        requires { 1 ≤ N }
        ensures { result ≡ empty (B.elements bytes) expires_at }
    {
        prove!(N >= 1, "N is at least 1");
        FragmentsOver {
            head: FragmentsHead::new(expires_at.total_micros()),
            bytes,
            runs: [Run { start: 0, end: 0 }; N],
        }
    }

    /// Returns the storage, with the bytes that fragments wrote to it.
    ///
    /// ```
    /// # use net_base::storage::FragmentsOver;
    /// # use net_base::time::Instant;
    /// let mut buffer = FragmentsOver::<_, 4>::over([0; 3], Instant::ZERO);
    /// assert_eq!(buffer.add(1, b"bc"), Ok(()));
    /// assert_eq!(buffer.into_storage(), *b"\0bc");
    /// ```
    pub fn into_storage(self) -> B
        ensures { B.elements result ≡ self.bytes }
    {
        let FragmentsOver {
            head: _,
            bytes,
            runs: _,
        } = self;
        bytes
    }

    /// Returns the number of bytes of the buffer: the size of the longest packet that fits.
    ///
    /// ```
    /// # use net_base::storage::FragmentBuffer;
    /// # use net_base::time::Instant;
    /// # let mut bytes = [0u8; 8];
    /// assert_eq!(FragmentBuffer::<4>::new(&mut bytes[..], Instant::ZERO).capacity(), 8);
    /// ```
    #[must_use]
    pub fn capacity(&self) -> usize
        ensures { result ≡ length self.now.bytes }
    {
        self.bytes.count()
    }

    /// Returns whether no byte has arrived since the buffer was made or reset.
    ///
    /// ```
    /// # use net_base::storage::FragmentBuffer;
    /// # use net_base::time::Instant;
    /// # let mut bytes = [0u8; 8];
    /// # let mut buffer = FragmentBuffer::<4>::new(&mut bytes[..], Instant::ZERO);
    /// assert!(buffer.add(2, b"").is_ok() && buffer.is_empty());
    /// assert!(buffer.add(2, b"c").is_ok() && !buffer.is_empty());
    /// ```
    #[must_use]
    pub fn is_empty(&self) -> bool
        ensures { IsTrue result ↔ (self.now.present ≡ nothing) }
    {
        self.head.present.is_empty()
    }

    /// Returns the moment up to which the packet is waited for. It expires after that moment.
    ///
    /// ```
    /// # use net_base::storage::FragmentBuffer;
    /// # use net_base::time::Instant;
    /// # let mut bytes = [0u8; 8];
    /// let buffer = FragmentBuffer::<4>::new(&mut bytes[..], Instant::from_millis(5));
    /// assert_eq!(buffer.expires_at(), Instant::from_millis(5));
    /// ```
    #[must_use]
    pub fn expires_at(&self) -> Instant
        ensures { result ≡ self.now.expires_at }
    {
        moment_of(&self.head)
    }

    /// Adds a fragment, whose first byte is the packet's byte at `offset`.
    ///
    /// ```
    /// # use net_base::storage::{FragmentBuffer, FragmentError};
    /// # use net_base::time::Instant;
    /// # let mut bytes = [0u8; 8];
    /// let mut buffer = FragmentBuffer::<1>::new(&mut bytes[..], Instant::ZERO);
    /// assert_eq!(buffer.add(6, b"ghi"), Err(FragmentError::TooLong));
    /// assert_eq!(buffer.add(6, b"gh"), Ok(()));
    /// assert_eq!(buffer.add(0, b"ab"), Err(FragmentError::TooManyHoles));
    /// ```
    ///
    /// # Errors
    ///
    /// `TooLong` if the fragment ends past the buffer; else `OtherSize` if it ends past a known
    /// size; else `TooManyHoles` if there would be more than `N` ranges. Nothing changes then. A
    /// fragment without bytes ends at `offset`.
    pub fn add(&mut self, offset: usize, data: &[u8]) -> Result<(), FragmentError>
        ensures adds { Adds N self.old offset «data».now false result self.new }
        ensures unchanged { OnErr result (self.new ≡ self.old) }
        ensures fits { OnOk result (offset + length «data».now < 2 ^ 64) }
    {
        let count = self.bytes.count();
        let bytes = self.bytes.part_mut(0, count);
        self.head.add(bytes, &mut self.runs, offset, data)
    }

    /// Adds a fragment as `add` does. If it is the last one, its end is the packet's size.
    ///
    /// ```
    /// # use net_base::storage::{FragmentBuffer, FragmentError};
    /// # use net_base::time::Instant;
    /// # let mut bytes = [0u8; 8];
    /// # let mut buffer = FragmentBuffer::<4>::new(&mut bytes[..], Instant::ZERO);
    /// buffer.add_fragment(3, b"de", true)?;
    /// assert_eq!(buffer.add_fragment(0, b"abc", true), Err(FragmentError::OtherSize));
    /// buffer.add_fragment(0, b"abc", false)?;
    /// assert_eq!(buffer.assemble(), Some(&b"abcde"[..]));
    /// # Ok::<(), FragmentError>(())
    /// ```
    ///
    /// # Errors
    ///
    /// `TooLong` if the fragment ends past the buffer; else `OtherSize` if it ends past a known
    /// size, or is the last one and the packet can't end there; else `TooManyHoles` if there would
    /// be more than `N` ranges. Nothing changes then.
    pub fn add_fragment(
        &mut self,
        offset: usize,
        data: &[u8],
        is_last: bool,
    ) -> Result<(), FragmentError>
        ensures adds { Adds N self.old offset «data».now is_last result self.new }
        ensures unchanged { OnErr result (self.new ≡ self.old) }
    {
        let count = self.bytes.count();
        let bytes = self.bytes.part_mut(0, count);
        self.head
            .add_fragment(bytes, &mut self.runs, offset, data, is_last)
    }

    /// Starts over with a fragment of another packet, which is waited for up to `expires_at`. If
    /// the fragment is refused, nothing changes.
    ///
    /// ```
    /// # use net_base::storage::{FragmentBuffer, FragmentError};
    /// # use net_base::time::Instant;
    /// # let mut bytes = [0u8; 8];
    /// # let mut buffer = FragmentBuffer::<4>::new(&mut bytes[..], Instant::ZERO);
    /// buffer.add(0, b"abc")?;
    /// let refused = buffer.reset_with(7, b"de", true, Instant::ZERO);
    /// assert_eq!(refused, Err(FragmentError::TooLong));
    /// buffer.reset_with(0, b"de", true, Instant::ZERO)?;
    /// assert_eq!(buffer.assemble(), Some(&b"de"[..]));
    /// # Ok::<(), FragmentError>(())
    /// ```
    ///
    /// # Errors
    ///
    /// Those of `add_fragment` on an empty buffer.
    pub fn reset_with(
        &mut self,
        offset: usize,
        data: &[u8],
        is_last: bool,
        expires_at: Instant,
    ) -> Result<(), FragmentError>
        ensures adds { Adds N (begun self.old expires_at) offset «data».now is_last
            result self.new }
        ensures unchanged { OnErr result (self.new ≡ self.old) }
    {
        let until = expires_at.total_micros();
        let count = self.bytes.count();
        let bytes = self.bytes.part_mut(0, count);
        self.head
            .reset_with(bytes, &mut self.runs, offset, data, is_last, until)
    }

    /// Sets the packet's size to `size` bytes.
    ///
    /// ```
    /// # use net_base::storage::{FragmentBuffer, FragmentError};
    /// # use net_base::time::Instant;
    /// # let mut bytes = [0u8; 8];
    /// # let mut buffer = FragmentBuffer::<4>::new(&mut bytes[..], Instant::ZERO);
    /// buffer.add(0, b"abc")?;
    /// assert_eq!(buffer.set_total_size(9), Err(FragmentError::TooLong));
    /// assert_eq!(buffer.set_total_size(2), Err(FragmentError::OtherSize));
    /// assert_eq!(buffer.set_total_size(3), Ok(()));
    /// assert_eq!(buffer.add(3, b"d"), Err(FragmentError::OtherSize));
    /// assert_eq!(buffer.assemble(), Some(&b"abc"[..]));
    /// # Ok::<(), FragmentError>(())
    /// ```
    ///
    /// # Errors
    ///
    /// `TooLong` if the buffer has fewer bytes; else `OtherSize` if another size is known, or a
    /// byte at `size` or above has arrived. Nothing changes then.
    pub fn set_total_size(&mut self, size: usize) -> Result<(), FragmentError>
        ensures ok { OnOk result (self.new ≡ record self.old { total = Some size }) }
        ensures unchanged { OnErr result (self.new ≡ self.old) }
        ensures takes { TakesSize (length self.old.bytes) self.old.present
            self.old.total size result }
    {
        self.head
            .set_total_size(self.bytes.count(), &self.runs, size)
    }

    /// Returns the packet's size, once it is known.
    ///
    /// ```
    /// # use net_base::storage::{FragmentBuffer, FragmentError};
    /// # use net_base::time::Instant;
    /// # let mut bytes = [0u8; 8];
    /// # let mut buffer = FragmentBuffer::<4>::new(&mut bytes[..], Instant::ZERO);
    /// assert_eq!(buffer.total_size(), None);
    /// buffer.add_fragment(3, b"de", true)?;
    /// assert_eq!(buffer.total_size(), Some(5));
    /// # Ok::<(), FragmentError>(())
    /// ```
    #[must_use]
    pub fn total_size(&self) -> Option<usize>
        ensures size { result ≡ self.now.total }
        ensures room { limit_of self.now ≤ length self.now.bytes }
        ensures below { IsBelow self.now.present (limit_of self.now) }
    {
        self.head.total_size()
    }

    /// Returns whether a fragment of `len` bytes at `offset` overlaps bytes that have arrived. It
    /// may end past the buffer.
    ///
    /// Ask before `add`, to drop a packet whose fragments overlap (RFC 5722). A fragment that
    /// arrives twice overlaps too: to allow that, ask `differs`.
    ///
    /// ```
    /// # use net_base::storage::{FragmentBuffer, FragmentError};
    /// # use net_base::time::Instant;
    /// # let mut bytes = [0u8; 8];
    /// # let mut buffer = FragmentBuffer::<4>::new(&mut bytes[..], Instant::ZERO);
    /// buffer.add(2, b"cd")?;
    /// assert!(buffer.overlaps(0, 3) && !buffer.overlaps(0, 2) && !buffer.overlaps(2, 0));
    /// # Ok::<(), FragmentError>(())
    /// ```
    #[must_use]
    pub fn overlaps(&self, offset: usize, len: usize) -> bool
        ensures { IsTrue result ↔ Meets self.now.present offset len }
    {
        self.head.overlaps(&self.runs, offset, len)
    }

    /// Returns whether a fragment at `offset` has another byte than one that has arrived. It may
    /// end past the buffer.
    ///
    /// Ask before `add`, to refuse fragments that disagree, and accept one that arrives twice.
    ///
    /// ```
    /// # use net_base::storage::{FragmentBuffer, FragmentError};
    /// # use net_base::time::Instant;
    /// # let mut bytes = [0u8; 8];
    /// # let mut buffer = FragmentBuffer::<4>::new(&mut bytes[..], Instant::ZERO);
    /// buffer.add(2, b"cd")?;
    /// assert!(!buffer.differs(2, b"cd") && !buffer.differs(0, b"abcdef"));
    /// assert!(buffer.differs(3, b"De") && !buffer.differs(4, b"De"));
    /// # Ok::<(), FragmentError>(())
    /// ```
    #[must_use]
    pub fn differs(&self, offset: usize, data: &[u8]) -> bool
        ensures { IsTrue result ↔ Differs self.now offset «data».now }
    {
        let bytes = self.bytes.part(0, self.bytes.count());
        self.head.differs(bytes, &self.runs, offset, data)
    }

    /// Shows the bytes of the packet; `None` if its size isn't known, or one of its bytes is
    /// missing.
    ///
    /// ```
    /// # use net_base::storage::{FragmentBuffer, FragmentError};
    /// # use net_base::time::Instant;
    /// # let mut bytes = [0u8; 8];
    /// # let mut buffer = FragmentBuffer::<4>::new(&mut bytes[..], Instant::ZERO);
    /// buffer.add(0, b"abc")?;
    /// assert_eq!(buffer.assemble(), None);
    /// buffer.set_total_size(3)?;
    /// assert_eq!(buffer.assemble(), Some(&b"abc"[..]));
    /// # Ok::<(), FragmentError>(())
    /// ```
    #[must_use]
    pub fn assemble(&self) -> Option<&[u8]>
        ensures complete { IsSome result ↔ ((size : ℕ) × IsComplete self.now size) }
        ensures bytes { IfSome result
            (λ r. (size : ℕ) × IsComplete self.now size × (r.now ≡ take size self.now.bytes)) }
    {
        match self.head.complete(&self.runs) {
            Some(size) => Some(self.bytes.part(0, size)),
            None => None,
        }
    }

    /// Shows the `len` bytes of the packet from `offset` on, even if others are missing; `None` if
    /// one of them is missing or past the buffer.
    ///
    /// ICMP's "time exceeded" (RFC 792) quotes the first bytes of a packet that has expired.
    ///
    /// ```
    /// # use net_base::storage::{FragmentBuffer, FragmentError};
    /// # use net_base::time::Instant;
    /// # let mut bytes = [0u8; 8];
    /// # let mut buffer = FragmentBuffer::<4>::new(&mut bytes[..], Instant::ZERO);
    /// buffer.add(2, b"cdef")?;
    /// assert_eq!(buffer.get(3, 2), Some(&b"de"[..]));
    /// assert_eq!((buffer.get(1, 2), buffer.get(5, 2)), (None, None));
    /// # Ok::<(), FragmentError>(())
    /// ```
    #[must_use]
    pub fn get(&self, offset: usize, len: usize) -> Option<&[u8]>
        ensures arrived { IsSome result ↔ ((offset + len ≤ length self.now.bytes)
            × HasRange self.now.present offset len) }
        ensures bytes { IfSome result (λ r. r.now
            ≡ slice_range self.now.bytes offset (offset + len)) }
    {
        assembler::laws::first_missing();
        let count = self.bytes.count();
        if offset > count || len > count - offset {
            return None;
        }
        if self.head.present.first_missing(&self.runs, offset) - offset < len {
            return None;
        }
        Some(self.bytes.part(offset, offset + len))
    }

    /// Returns whether `now` is after the moment up to which the packet is waited for.
    ///
    /// ```
    /// # use net_base::storage::FragmentBuffer;
    /// # use net_base::time::Instant;
    /// # let mut bytes = [0u8; 8];
    /// let buffer = FragmentBuffer::<4>::new(&mut bytes[..], Instant::from_millis(5));
    /// assert!(!buffer.is_expired(Instant::from_millis(5)));
    /// assert!(buffer.is_expired(Instant::from_micros(5_001)));
    /// ```
    #[must_use]
    pub fn is_expired(&self, now: Instant) -> bool
        ensures { IsTrue result ↔ (self.now.expires_at <ℤ now) }
    {
        self.head.is_expired(now.total_micros())
    }

    /// Starts over for another packet, which is waited for up to `expires_at`.
    ///
    /// ```
    /// # use net_base::storage::{FragmentBuffer, FragmentError};
    /// # use net_base::time::Instant;
    /// # let mut bytes = [0u8; 8];
    /// # let mut buffer = FragmentBuffer::<4>::new(&mut bytes[..], Instant::ZERO);
    /// buffer.add(0, b"abc")?;
    /// buffer.set_total_size(3)?;
    /// buffer.reset(Instant::from_millis(5));
    /// assert!(buffer.is_empty() && buffer.assemble().is_none());
    /// # Ok::<(), FragmentError>(())
    /// ```
    pub fn reset(&mut self, expires_at: Instant)
        ensures { self.new ≡ begun self.old expires_at }
    {
        self.head.reset(expires_at.total_micros());
    }
}

/// The last moment at which the packet is waited for.
fn moment_of(head: &FragmentsHead) -> Instant
    ensures { result ≡ head.now.expires_at }
{
    Instant::from_micros(head.expires_at)
}

//! A device that receives what it sends. Rust's is by hand, in `rust/src/phy/loopback.rs`, and the examples here are
//! of that one.

ghost use Rattle.std.specs.Prelude.{◌≡◌, ℕ, List, [], ◌∷◌, ◌++◌, MatchOption};
ghost use Rattle.std.proofs.Common.{ap};
ghost use Rattle.net_base.specs.Phy.{LoopbackState, loopback_capabilities};

use crate::phy::{
    self, ChecksumCapabilities, Device, DeviceCapabilities, FrameLists, Medium,
    SegmentationCapabilities,
};
use crate::time::Instant;
use std::alloc::{AllocError, Allocator, Global};
use std::collections::VecDeque;
use std::marker::Model;

/// The longest frame that the capabilities name, in bytes.
const LONGEST_FRAME: usize = 65_535;

/// A device that receives what it sends, in the order in which it was sent. It serves for tests, and to connect
/// two ends in one program.
///
/// Contracts see its medium and the list of its frames, the next first. It stores its allocator,
/// from which `send` takes the room in its queue and the bytes of each frame. Frames of any length
/// are sent, even those longer than the `max_transmission_unit` of its capabilities.
///
/// ```
/// use net_base::phy::{Device, Loopback, Medium, RxToken, TxToken};
/// use net_base::time::Instant;
///
/// let mut device = Loopback::new(Medium::Ethernet);
/// let token = device.transmit(Instant::ZERO).expect("it always sends");
/// token.consume(3, |frame| frame.copy_from_slice(b"abc"));
/// let (frame, _reply) = device.receive(Instant::ZERO).expect("a frame");
/// frame.consume(|frame| assert_eq!(frame, b"abc"));
/// ```
#[derive_where(Debug)]
#[derive(Drop)]
pub struct Loopback<A: Allocator + Copy = Global> {
    queue: VecDeque<Vec<u8, A>, A>,
    medium: Medium,
}

impl<A: Allocator + Copy> Model for Loopback<A> {
    ghost use Rattle.net_base.specs.Phy.{LoopbackState, frames_of};

    ghost Value = { LoopbackState };

    ghost view = { λ d. record { medium = d.medium; frames = frames_of d.queue.items } };
}

impl<A: Allocator + Copy> Loopback<A> {
    /// Returns a device with no frames, which stores `alloc` for those to come and takes no memory
    /// yet.
    ///
    /// ```
    /// # use net_base::phy::{Device, Loopback, Medium};
    /// # use net_base::time::Instant;
    /// assert!(Loopback::new(Medium::Ip).receive(Instant::ZERO).is_none());
    /// ```
    pub fn new(alloc: A, medium: Medium) -> Loopback<A>
        ensures { result ≡ record { medium = medium; frames = [] } }
    {
        Loopback {
            queue: VecDeque::new(alloc),
            medium,
        }
    }
}

impl<A: Allocator + Copy> Device for Loopback<A> {
    type RxToken = RxToken<A>;

    type TxToken = TxToken;

    ghost taken = { λ old frame new. old ≡ record new { frames = frame ∷ new.frames } };

    ghost is_idle = { λ d. d.frames ≡ [] };

    ghost is_busy = { λ _. ⊥ };

    ghost abilities = { λ d. loopback_capabilities d.medium };

    ghost sent = { λ old frame new. new ≡ record old { frames = old.frames ++ frame ∷ [] } };

    /// Takes the first frame off the device. `None` if it has none. The timestamp is not read.
    fn receive(&mut self, _timestamp: Instant) -> Option<(RxToken<A>, TxToken)>
        ensures { MatchOption result ((self.old.frames ≡ []) × (self.new ≡ self.old))
            (λ tokens. self.old ≡ record self.new { frames = tokens.0 ∷ self.new.frames }) }
    {
        let buffer = self.queue.pop_front()?;
        Some((RxToken { buffer }, TxToken(())))
    }

    /// Always returns a token. The timestamp is not read.
    fn transmit(&mut self, _timestamp: Instant) -> Option<TxToken> {
        Some(TxToken(()))
    }

    /// Returns the given medium, frames of 65535 bytes, no checksums, bursts without a limit and no
    /// segmentation.
    fn capabilities(&self) -> DeviceCapabilities {
        DeviceCapabilities {
            medium: self.medium,
            max_transmission_unit: LONGEST_FRAME,
            max_burst_size: None,
            checksum: ChecksumCapabilities::ignored(),
            segmentation: SegmentationCapabilities::default(),
        }
    }

    /// Appends a frame to the others. Memory for its place in the queue and for its bytes is taken
    /// before `f` is called.
    fn send<R, F: FnOnce(&mut [u8]) -> R + Drop>(
        &mut self,
        _token: TxToken,
        len: usize,
        f: F,
    ) -> Result<R, AllocError> {
        self.queue.reserve(1)?;
        let mut frame = vec![in *self.queue.allocator(); 0u8; len]?;
        let answer = f(frame.as_mut_slice());
        self.queue.push_back_reserved(frame);
        Ok(answer)
    }
}

impl<A: Allocator + Copy> FrameLists for Loopback<A> {
    ghost incoming = { λ d. d.frames };

    ghost outgoing = { λ d. d.frames };

    ghost takes_first = { λ _ _ _ is. ap (λ (d : LoopbackState). d.frames) is };

    ghost keeps_all = { λ _ _ is. ap (λ (d : LoopbackState). d.frames) is };

    ghost sends_last = { λ _ _ _ is. ap (λ (d : LoopbackState). d.frames) is };
}

/// A frame that a loopback device has handed over. Contracts see its bytes.
#[derive(Drop)]
pub struct RxToken<A: Allocator + Copy = Global> {
    buffer: Vec<u8, A>,
}

impl<A: Allocator + Copy> Model for RxToken<A> {
    ghost Value = { List ℕ };

    ghost view = { λ t. t.buffer.items };
}

impl<A: Allocator + Copy> phy::RxToken for RxToken<A> {
    ghost bytes = { λ t. t };

    fn consume<R, F: FnOnce(&[u8]) -> R>(self, f: F) -> R {
        f(self.frame())
    }

    fn frame(&self) -> &[u8] {
        self.buffer.as_slice()
    }
}

/// The right to send one frame on a loopback device.
#[derive(Debug, Drop)]
pub struct TxToken(());

impl phy::TxToken for TxToken {}

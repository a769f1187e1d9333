//! The traits of a network device and of its tokens. Rust's are by hand, in `rust/src/phy/mod.rs`: no line here
//! reaches them.

// Why: A device states ghost members besides `taken` and `sent`. Without them an `echo_once` that always returns
// `Ok(false)`, or always `Err`, would be proved.

ghost use Rattle.std.specs.Prelude.{◌≡◌, ℕ, List, length, replicate, MatchOption, IfNone, IfSome, IfOk, OnErr};
ghost use Rattle.std.specs.Fn.{FnOnceReturnsAt, FnOnceTakesAt, FnOnceReturnsAtMut, FnOnceTakesAtMut};
ghost use Rattle.net_base.specs.Phy.{no_metadata};
ghost use Rattle.net_base.specs.declared.phy.DeviceCapabilities.{DeviceCapabilities};

use crate::phy::{DeviceCapabilities, PacketMeta};
use crate::time::Instant;
use std::alloc::AllocError;

/// A device that hands over received frames, and sends frames.
///
/// Tokens are owned: several can exist at once, and a transmit token can be spent on any device
/// with that type of tokens. Each device states how it changes when a frame is taken off it, when a
/// frame is sent, and when `receive` finds none.
pub trait Device {
    /// A frame that the device has handed over.
    type RxToken: RxToken;

    /// The right to send one frame.
    type TxToken: TxToken;

    /// Holds of the device before, a frame and the device after, if the frame was taken off the
    /// device.
    ghost taken: { Self → List ℕ → Self → Type 0 };

    /// Holds of a device whose `receive` may return `None`. By default it holds of every device.
    ghost is_idle: { Self → Type 0 } = { λ _. Unit {0} };

    /// Holds of the device before and after a `receive` that handed over no frame. By default the
    /// device is unchanged. A device that may drop frames then, as a driver drops damaged ones,
    /// states here which.
    ghost idled: { Self → Self → Type 0 } = { λ old new. new ≡ old };

    /// Holds of a device whose `transmit` may return `None`. By default it holds of every device.
    ghost is_busy: { Self → Type 0 } = { λ _. Unit {0} };

    /// Holds of a device whose `transmit` may return a token. By default it holds of every device.
    /// A device with room of its own for frames states here that some is free.
    ghost is_free: { Self → Type 0 } = { λ _. Unit {0} };

    /// Holds of the device before, a frame and the device after, if the frame was sent.
    ghost sent: { Self → List ℕ → Self → Type 0 };

    /// Whether `send` may lack memory for a frame of this length. By default it may, for each. A device whose frames
    /// are in memory of its own states here that it never lacks any.
    ghost lacks_memory: { Self → ℕ → Type 0 } = { λ _ _. Unit {0} };

    /// The capabilities of the device.
    ghost abilities: { Self → DeviceCapabilities };

    /// Takes the next frame off the device: a token that has it, and a token to send one frame
    /// with. Returns `None` only if `is_idle` holds of the device, as the device states it, and
    /// then the device changes as it states in `idled`.
    ///
    /// The second token lets a stack reply at once: to reply to an ICMP echo it needs no other call
    /// to get the right to send. `send` with this token can still be refused memory.
    ///
    /// The timestamp is the moment of the call. Any moment is allowed.
    ///
    /// ```rust
    /// match device.receive(Instant::ZERO) {
    ///     Some((frame, _token)) => frame.frame() == bytes,
    ///     None => false,
    /// }
    /// ```
    fn receive(&mut self, timestamp: Instant) -> Option<(Self::RxToken, Self::TxToken)>
        ensures { MatchOption result (is_idle self.old × idled self.old self.new)
            (λ tokens. taken self.old (Self.RxToken.bytes tokens.0) self.new) };

    /// Returns a token to send one frame with. Returns `None` only if `is_busy` holds of the
    /// device, and a token only if `is_free` does, as the device states them. The device stays as
    /// it was in both cases.
    ///
    /// The timestamp is the moment of the call. Any moment is allowed.
    ///
    /// ```rust
    /// let Some(token) = to.transmit(timestamp) else {
    ///     return Ok(false);
    /// };
    /// ```
    fn transmit(&mut self, timestamp: Instant) -> Option<Self::TxToken>
        ensures none { IfNone result (is_busy self.old) }
        ensures some { IfSome result (λ _. is_free self.old) }
        ensures unchanged { self.new ≡ self.old };

    /// Returns the capabilities of the device.
    fn capabilities(&self) -> DeviceCapabilities
        ensures { result ≡ abilities self.now };

    /// Sends one frame: calls `f` once on `len` zero bytes, sends the bytes that `f` made of them, and returns
    /// what `f` returned.
    ///
    /// If memory is refused, which happens only if `lacks_memory` holds of the device and `len`, as
    /// the device states it, `f` is dropped without a call (hence its bound `Drop`), and the device
    /// stays as it was. The token is spent in both cases.
    ///
    /// ```rust
    /// let frame = rx.frame();
    /// to.send(token, frame.len(), |buffer| buffer.copy_from_slice(frame))?;
    /// ```
    ///
    /// # Requires
    ///
    /// `f` may be called on `len` zero bytes.
    fn send<R, F: FnOnce(&mut [u8]) -> R + Drop>(
        &mut self,
        token: Self::TxToken,
        len: usize,
        f: F,
    ) -> Result<R, AllocError>
        requires { FnOnceTakesAtMut F.FnOnce f (replicate len 0) }
        ensures ok { IfOk result (λ r. (frame : List ℕ) × (length frame ≡ len)
            × FnOnceReturnsAtMut F.FnOnce f (replicate len 0) r frame
            × sent self.old frame self.new) }
        ensures unchanged { OnErr result (self.new ≡ self.old) }
        ensures refused { OnErr result (lacks_memory self.old len) };
}

/// A frame that a device has handed over. The frame of a token that is dropped is lost.
pub trait RxToken: Drop {
    /// The bytes of the frame.
    ghost bytes: { Self → List ℕ };

    /// Holds of a token whose frame has no metadata. By default it holds of every token.
    ghost is_plain: { Self → Type 0 } = { λ _. Unit {0} };

    /// Calls `f` once on the frame, and returns what `f` returned.
    ///
    /// # Requires
    ///
    /// `f` may be called on the frame's bytes.
    fn consume<R, F: FnOnce(&[u8]) -> R>(self, f: F) -> R
        requires { FnOnceTakesAt F.FnOnce f (bytes self) }
        ensures { FnOnceReturnsAt F.FnOnce f (bytes self) result };

    /// Shows the bytes of the frame, which stays with the token.
    fn frame(&self) -> &[u8]
        ensures { result.now ≡ bytes self.now };

    /// Returns the metadata of the frame: by default none, which is the default value. A token that
    /// has metadata writes its own method, with a contract of its own.
    fn meta(&self) -> PacketMeta
        ensures { is_plain self.now → result ≡ no_metadata }
    {
        PacketMeta::default()
    }
}

/// The right to send one frame on a device of the token's type, by `Device::send`. A token that is
/// dropped sends nothing.
pub trait TxToken: Drop {
    /// Holds of a token that has no metadata. By default it holds of every token.
    ghost is_plain: { Self → Type 0 } = { λ _. Unit {0} };

    /// Sets the metadata of the frame to be sent. By default this does nothing. A token that has
    /// metadata writes its own method, with a contract of its own.
    fn set_meta(&mut self, _meta: PacketMeta)
        ensures { is_plain self.old → self.new ≡ self.old }
    {}
}

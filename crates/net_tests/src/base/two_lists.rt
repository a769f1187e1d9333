//! A device of two lists.
ghost use Rattle.std.specs.Prelude.{◌≡◌, ◌∷◌, ◌++◌, [], List, ℕ};
ghost use Rattle.net_base.specs.Phy.{loopback_capabilities};
ghost use Rattle.net_base.specs.declared.phy.Medium.TheVariants.{Ip};

use net_base::phy::{
    ChecksumCapabilities, Device, DeviceCapabilities, Medium, PacketMeta, RxToken, TxToken,
};
use net_base::time::Instant;
use std::alloc::{AllocError, Allocator, Global};
use std::collections::VecDeque;
use std::marker::Model;

mod tests;

/// A device of two lists: received frames, and frames that were sent. It stores the moment at which it was last asked
/// for a frame and the identifier that the last frame was sent with, and counts how often it was asked for room.
#[derive(Drop)]
pub struct TwoLists<A: Allocator + Copy = Global> {
    pub to_come: VecDeque<Vec<u8, A>, A>,
    pub sent: VecDeque<Vec<u8, A>, A>,
    pub asked_at: Instant,
    pub rooms: usize,
    pub sent_with: u32,
}

impl<A: Allocator + Copy> Model for TwoLists<A> {
    ghost use Rattle.std.specs.Prelude.{ℕ, List};
    ghost use Rattle.net_base.specs.Phy.{frames_of};

    ghost Value = { List (List ℕ) × List (List ℕ) };

    ghost view = { λ d. (frames_of d.to_come.items, frames_of d.sent.items) };
}

/// A received frame.
#[derive(Drop)]
pub struct TwoListsRxToken<A: Allocator + Copy>(Vec<u8, A>);

/// The right to send a frame, and the identifier that the frame is sent with: 0 unless another one is set.
#[derive(Drop)]
pub struct TwoListsTxToken {
    id: u32,
}

impl<A: Allocator + Copy> RxToken for TwoListsRxToken<A> {
    ghost bytes = { λ t. t.0.items };

    fn consume<R, F: FnOnce(&[u8]) -> R>(self, f: F) -> R {
        f(self.0.as_slice())
    }

    fn frame(&self) -> &[u8] {
        self.0.as_slice()
    }
}

impl TxToken for TwoListsTxToken {
    ghost is_plain = { λ _. ⊥ };

    fn set_meta(&mut self, meta: PacketMeta) {
        self.id = meta.id;
    }
}

impl<A: Allocator + Copy> Device for TwoLists<A> {
    type RxToken = TwoListsRxToken<A>;

    type TxToken = TwoListsTxToken;

    ghost taken = { λ old frame new. (old.0 ≡ frame ∷ new.0) × (old.1 ≡ new.1) };

    ghost is_idle = { λ d. d.0 ≡ [] };

    ghost sent = { λ old frame new. (new.0 ≡ old.0) × (new.1 ≡ old.1 ++ frame ∷ []) };

    ghost abilities = { λ _. loopback_capabilities Ip };

    fn receive(&mut self, timestamp: Instant) -> Option<(TwoListsRxToken<A>, TwoListsTxToken)> {
        self.asked_at = timestamp;
        let frame = self.to_come.pop_front()?;
        Some((TwoListsRxToken(frame), TwoListsTxToken { id: 0 }))
    }

    fn transmit(&mut self, _timestamp: Instant) -> Option<TwoListsTxToken> {
        self.rooms = self.rooms.saturating_add(1);
        Some(TwoListsTxToken { id: 0 })
    }

    fn capabilities(&self) -> DeviceCapabilities {
        let mut capabilities = DeviceCapabilities::default();
        capabilities.medium = Medium::Ip;
        capabilities.max_transmission_unit = 65535;
        capabilities.checksum = ChecksumCapabilities::ignored();
        capabilities
    }

    fn send<R, F: FnOnce(&mut [u8]) -> R + Drop>(
        &mut self,
        token: TwoListsTxToken,
        len: usize,
        f: F,
    ) -> Result<R, AllocError> {
        self.sent_with = token.id;
        self.sent.reserve(1)?;
        let mut frame = vec![in *self.sent.allocator(); 0u8; len]?;
        let answer = f(frame.as_mut_slice());
        self.sent.push_back_reserved(frame);
        Ok(answer)
    }
}

//! What the tests of devices share.

ghost use Rattle.std.specs.Prelude.{◌≡◌, [], ◌∷◌, ◌++◌, OnOk, OnErr, IsTrue};

mod device_capabilities;
mod echo;
mod loopback;

use net_base::phy::{Device, Loopback, RxToken};
use net_base::time::Instant;
use std::alloc::{AllocError, Allocator};

/// Sends the bytes as one frame.
pub fn send_bytes<A: Allocator + Copy>(
    device: &mut Loopback<A>,
    bytes: &[u8],
) -> Result<(), AllocError>
    ensures ok { OnOk result
        (device.new ≡ record device.old { frames = device.old.frames ++ bytes.now ∷ [] }) }
    ensures unchanged { OnErr result (device.new ≡ device.old) }
{
    let token = device.transmit(Instant::ZERO).unwrap();
    device.send(token, bytes.len(), |buffer| buffer.copy_from_slice(bytes))
}

/// Sends the bytes as one frame, and returns whether there was memory for it.
pub fn sends<A: Allocator + Copy>(device: &mut Loopback<A>, bytes: &[u8]) -> bool {
    send_bytes(device, bytes).is_ok()
}

/// Takes the next frame off, if there is one, and returns whether there was none.
pub fn is_over<A: Allocator + Copy>(device: &mut Loopback<A>) -> bool {
    device.receive(Instant::ZERO).is_none()
}

/// Takes the next frame off, and returns whether it is the bytes.
pub fn next_is<A: Allocator + Copy>(device: &mut Loopback<A>, bytes: &[u8]) -> bool
    ensures { IsTrue result → device.old.frames ≡ bytes.now ∷ device.new.frames }
{
    match device.receive(Instant::ZERO) {
        Some((frame, _token)) => frame.frame() == bytes,
        None => false,
    }
}

/// Writes a frame's length into its first bytes.
pub fn write_length(frame: &mut [u8]) {
    let marks = frame.len().to_le_bytes();
    let count = frame.len().min(8);
    frame[..count].copy_from_slice(&marks[..count]);
}

/// Takes the next frame off, and returns whether it has that length and begins with it.
pub fn next_has_length(device: &mut Loopback, length: usize) -> bool {
    match device.receive(Instant::ZERO) {
        Some((frame, _token)) => has_length(frame.frame(), length),
        None => false,
    }
}

/// Returns whether a frame has that length and begins with it.
fn has_length(frame: &[u8], length: usize) -> bool {
    let marks = length.to_le_bytes();
    let count = length.min(8);
    frame.len() == length && frame.starts_with(&marks[..count])
}

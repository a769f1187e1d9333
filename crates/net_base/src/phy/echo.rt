//! A frame that is sent back, on any device.
ghost use Rattle.std.specs.Prelude.{◌≡◌, ℕ, List, length, OnErr, Ok, true, false};

use crate::phy::{Device, RxToken};
use crate::time::Instant;
use std::alloc::AllocError;

/// Takes one frame off the device and sends the same frame back. Returns whether there was one; if
/// there was none, the device changes only as it states in `idled`, by default not at all.
///
/// If memory is refused, which happens only if the device lacks it for that frame, as it states in
/// `lacks_memory`, the frame was taken off and nothing was sent.
pub fn echo_once<D: Device>(device: &mut D, timestamp: Instant) -> Result<bool, AllocError>
    ensures idle { result ≡ Ok false → D.is_idle device.old × D.idled device.old device.new }
    ensures unchanged { result ≡ Ok false → ((old new : D) → D.idled old new → new ≡ old)
        → device.new ≡ device.old }
    ensures echoed { result ≡ Ok true → (frame : List ℕ) × (between : D)
        × D.taken device.old frame between × D.sent between frame device.new }
    ensures err { OnErr result ((frame : List ℕ) × D.taken device.old frame device.new
        × D.lacks_memory device.new (length frame)) }
{
    let Some((rx, tx)) = device.receive(timestamp) else {
        return Ok(false);
    };
    let frame = rx.frame();
    device.send(tx, frame.len(), |buffer| buffer.copy_from_slice(frame))?;
    Ok(true)
}

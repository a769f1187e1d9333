//! A bridge of two devices.
ghost use Rattle.std.specs.Prelude.{◌≡◌, ◌≤◌, ◌+◌, ◌∷◌, ◌++◌, [], ℕ, List, OnErr, IfOk, Ok, true, false, length};
ghost use Rattle.net_examples.specs.Frames.{ForwardsUpTo, Stops, ForwardsAndLoses};

use net_base::phy::{Device, FrameLists, RxToken};
use net_base::time::Instant;
use std::alloc::AllocError;

/// Takes one frame off one device and sends the same frame on another. Returns whether it did. If
/// it returns false, nothing was sent: either the second device had no room to send a frame, or the
/// first had no frame to hand over. In that case the first device changes only as it states in
/// `idled`, by default not at all.
///
/// If memory is refused, which happens only if the second device lacks it for that frame, as it
/// states in `lacks_memory`, the frame was taken off and nothing was sent.
pub fn forward_one<A: Device, B: Device>(
    from: &mut A,
    to: &mut B,
    timestamp: Instant,
) -> Result<bool, AllocError>
    ensures stopped { result ≡ Ok false
        → Stops A.taken A.is_idle A.idled B.is_busy B.sent from.old from.new to.old }
    ensures unchanged { result ≡ Ok false → to.new ≡ to.old }
    ensures forwarded { result ≡ Ok true
        → (frame : List ℕ) × A.taken from.old frame from.new × B.sent to.old frame to.new }
    ensures err { OnErr result ((frame : List ℕ) × A.taken from.old frame from.new
        × (to.new ≡ to.old) × B.lacks_memory to.old (length frame)) }
{
    // Room is asked for first: a frame that was taken off without room to send it would be lost.
    let Some(token) = to.transmit(timestamp) else {
        return Ok(false);
    };
    let Some((rx, _tx)) = from.receive(timestamp) else {
        return Ok(false);
    };
    let frame = rx.frame();
    to.send(token, frame.len(), |buffer| buffer.copy_from_slice(frame))?;
    Ok(true)
}

/// Takes at most `max` frames off one device and sends them, in order, on another. Returns how
/// many: fewer than `max` only if the first device has no frame left to hand over, or the second
/// has no room to send one.
///
/// If memory is refused, the frame that was taken off last is lost, and each one before it was
/// sent. That happens only if the second device lacks memory for that frame.
pub fn forward<A: Device, B: Device>(
    from: &mut A,
    to: &mut B,
    timestamp: Instant,
    max: usize,
) -> Result<usize, AllocError>
    ensures forwarded { IfOk result (λ n. (n ≤ max)
        × ForwardsUpTo A.taken A.is_idle A.idled B.is_busy B.sent max n
        from.old from.new to.old to.new) }
    ensures err { OnErr result
        (ForwardsAndLoses A.taken B.sent B.lacks_memory max from.old from.new to.old to.new) }
{
    for count in 0..max {
        if !forward_one(from, to, timestamp)? {
            return Ok(count);
        }
    }
    Ok(max)
}

/// Does the same as `forward`, between devices whose frames are in lists. The contract says in
/// terms of lists which frames passed.
pub fn forward_lists<A: FrameLists, B: FrameLists>(
    from: &mut A,
    to: &mut B,
    timestamp: Instant,
    max: usize,
) -> Result<usize, AllocError>
    ensures forwarded { IfOk result (λ n. (n ≤ max)
        × ForwardsUpTo A.taken A.is_idle A.idled B.is_busy B.sent max n
        from.old from.new to.old to.new) }
    ensures lists { IfOk result (λ _. (moved : List (List ℕ))
        × (A.incoming from.old ≡ moved ++ A.incoming from.new)
        × (B.outgoing to.new ≡ B.outgoing to.old ++ moved)) }
    ensures count { IfOk result
        (λ n. length (A.incoming from.old) ≡ n + length (A.incoming from.new)) }
    ensures err { OnErr result
        (ForwardsAndLoses A.taken B.sent B.lacks_memory max from.old from.new to.old to.new) }
    ensures lost { OnErr result ((moved : List (List ℕ)) × (frame : List ℕ)
        × (A.incoming from.old ≡ moved ++ frame ∷ A.incoming from.new)
        × (B.outgoing to.new ≡ B.outgoing to.old ++ moved)) }
{
    forward(from, to, timestamp, max)
}

//! Frames that are sent back, with memory and without.
ghost use Rattle.std.specs.Prelude.{◌≡◌, ◌∷◌, ◌++◌, [], List, ℕ, Ok, true};

use super::{is_over, next_has_length, next_is, sends, write_length};
use crate::assertions::assert_holds;
use crate::testing::Refusing;
use net_base::phy::{Device, Loopback, Medium, echo_once};
use net_base::time::Instant;
use std::alloc::{AllocError, Allocator, Global};

/// Moves the first frame of a loopback device after the others, at that moment.
fn rotate_at(device: &mut Loopback, timestamp: Instant) -> Result<bool, AllocError>
    ensures moved { result ≡ Ok true → (frame : List ℕ) × (rest : List (List ℕ))
        × (device.old.frames ≡ frame ∷ rest) × (device.new.frames ≡ rest ++ frame ∷ []) }
{
    echo_once(device, timestamp)
}

/// Moves the first frame after the others, at `micros` microseconds, and returns whether there was
/// one.
fn rotates_at(device: &mut Loopback, micros: i64) -> bool {
    rotate_at(device, Instant::from_micros(micros)) == Ok(true)
}

/// Returns whether there is no frame to move.
fn finds_nothing(device: &mut Loopback) -> bool {
    rotate_at(device, Instant::ZERO) == Ok(false)
}

#[test]
fn echoes_on_a_loopback_device(rt: HostRuntime) {
    let mut device = Loopback::new(rt.alloc(), Medium::Ethernet);
    let sent = sends(&mut device, b"ab") && sends(&mut device, b"cd");
    assert_holds(
        &rt,
        sent && rotates_at(&mut device, 0) && next_is(&mut device, b"cd"),
        ("step", 1),
    );
    assert_holds(
        &rt,
        next_is(&mut device, b"ab") && is_over(&mut device),
        ("step", 2),
    );
}

#[test]
fn finds_nothing_on_an_empty_device(rt: HostRuntime) {
    let mut device = Loopback::new(rt.alloc(), Medium::Ethernet);
    assert_holds(&rt, finds_nothing(&mut device), ("step", 1));
    let is_dropped = device.transmit(Instant::ZERO).is_some();
    assert_holds(&rt, is_dropped && is_over(&mut device), ("step", 2));
}

/// Sends a frame of that length, and returns whether there was memory for it.
fn sends_length(device: &mut Loopback, length: usize) -> bool {
    let token = device.transmit(Instant::ZERO).unwrap();
    device.send(token, length, write_length).is_ok()
}

#[test]
fn a_thousand_frames_at_a_time_keep_their_order(rt: HostRuntime) {
    let mut device = Loopback::new(rt.alloc(), Medium::Ethernet);
    for length in 0..1_000 {
        assert_holds(&rt, sends_length(&mut device, length), ("bytes", length));
    }
    for length in 0..1_000usize {
        assert_holds(&rt, rotates_at(&mut device, 0), ("bytes", length));
    }
    for length in 0..1_000 {
        assert_holds(&rt, next_has_length(&mut device, length), ("bytes", length));
    }
    assert_holds(&rt, is_over(&mut device), ("step", 4));
}

/// The results of an echo, one of whose requests for memory was refused.
#[derive(Drop)]
struct Outcome {
    sent: bool,
    echoed: bool,
    requests: usize,
    asked: usize,
    other_is_next: bool,
    echo_is_next: bool,
    is_over: bool,
}

/// Echoes a frame of 200 bytes on a loopback device that has a frame of 2 bytes after it, and
/// refuses the request for memory of that number. Then takes the frames off the device.
fn rotate_refused(alloc: Global, refused: usize) -> Outcome {
    let memory = Refusing::new(alloc, refused);
    let mut device = Loopback::new(&memory, Medium::Ip);
    let sent = sends(&mut device, &[7; 200]) && sends(&mut device, b"ab");
    let before = memory.bytes();
    Outcome {
        sent,
        echoed: echoes(&mut device),
        requests: memory.requests(),
        asked: memory.bytes().saturating_sub(before),
        other_is_next: next_is(&mut device, b"ab"),
        echo_is_next: next_is(&mut device, &[7; 200]),
        is_over: is_over(&mut device),
    }
}

/// Echoes the next frame, and returns whether there was memory for it.
fn echoes<A: Allocator + Copy>(device: &mut Loopback<A>) -> bool {
    echo_once(device, Instant::ZERO).is_ok()
}

/// Returns whether the frame comes back exactly if it should, and everything else is as it should
/// be.
fn is_expected(outcome: &Outcome, echoed: bool) -> bool {
    outcome.sent
        && outcome.echoed == echoed
        && outcome.requests == 4
        && outcome.asked == 200
        && outcome.other_is_next
        && outcome.echo_is_next == echoed
        && outcome.is_over
}

/// Three requests are made before the echo: for the queue, and for the bytes of both frames. The
/// echo makes one, for the 200 bytes: the queue has room, since a frame was taken off it. If that
/// is refused, the frame was taken off and nothing was sent.
#[test]
fn its_request_for_memory_is_refused(rt: HostRuntime) {
    for refused in 3..5usize {
        let outcome = rotate_refused(rt.alloc(), refused);
        assert_holds(
            &rt,
            is_expected(&outcome, refused == 4),
            ("request", refused),
        );
    }
}

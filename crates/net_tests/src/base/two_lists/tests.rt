//! One frame sent back on a device of two lists, with memory and without.
ghost use Rattle.std.specs.Prelude.{◌≡◌, ◌∷◌, ◌++◌, [], List, ℕ, Ok, true, false};

use super::*;
use crate::assertions::assert_holds;
use crate::testing::Refusing;
use net_base::phy::echo_once;

fn is_back<A: Allocator + Copy>(frames: &VecDeque<Vec<u8, A>, A>, bytes: &[u8]) -> bool {
    frames.back().is_some_and(|frame| frame.as_slice() == bytes)
}

/// Sends back the first received frame.
fn send_back(device: &mut TwoLists, timestamp: Instant) -> Result<bool, AllocError>
    ensures sent { result ≡ Ok true → (frame : List ℕ)
        × (device.old.0 ≡ frame ∷ device.new.0) × (device.new.1 ≡ device.old.1 ++ frame ∷ []) }
    ensures idle { result ≡ Ok false → (device.old.0 ≡ []) × (device.new ≡ device.old) }
{
    echo_once(device, timestamp)
}

/// Returns a device over this memory, with no frames.
fn without_frames<A: Allocator + Copy>(alloc: A) -> TwoLists<A> {
    TwoLists {
        to_come: VecDeque::new(alloc),
        sent: VecDeque::new(alloc),
        asked_at: Instant::ZERO,
        rooms: 0,
        sent_with: 0,
    }
}

/// Puts these bytes after the frames.
fn put<A: Allocator + Copy>(
    frames: &mut VecDeque<Vec<u8, A>, A>,
    alloc: A,
    bytes: &[u8],
) -> Result<(), AllocError> {
    frames.push_back(Vec::from_slice(alloc, bytes)?)?;
    Ok(())
}

/// Returns whether the first frame, if there is one, is sent back at `micros` microseconds, and the device is
/// asked at that moment. Two frames are then sent, the last of which is this one. The echo is sent by the token
/// that came with the frame, as that token was: the device is never asked for room.
fn is_sent_back(device: &mut TwoLists, micros: i64, found: bool) -> bool {
    let moment = Instant::from_micros(micros);
    send_back(device, moment) == Ok(found)
        && device.asked_at == moment
        && device.rooms == 0
        && device.sent_with == 0
        && device.to_come.is_empty()
        && device.sent.len() == 2
        && is_back(&device.sent, b"ab")
}

#[test]
fn echoes_over_two_lists(rt: HostRuntime) {
    let mut device = without_frames(rt.alloc());
    let waits = put(&mut device.to_come, rt.alloc(), b"ab").is_ok();
    let is_put = put(&mut device.sent, rt.alloc(), b"xy").is_ok();
    assert_holds(
        &rt,
        waits && is_put && is_sent_back(&mut device, 7, true),
        ("step", 1),
    );
    assert_holds(&rt, is_sent_back(&mut device, 8, false), ("step", 2));
}

/// Puts in two received frames and four that were sent.
fn put_six<A: Allocator + Copy>(device: &mut TwoLists<A>, alloc: A) -> Result<(), AllocError> {
    put(&mut device.to_come, alloc, &[7; 200])?;
    put(&mut device.to_come, alloc, &[7; 2])?;
    for _ in 0..4 {
        put(&mut device.sent, alloc, &[1; 2])?;
    }
    Ok(())
}

/// Returns whether the first of two frames was taken off and, if it should be, sent.
fn is_left<A: Allocator + Copy>(device: &TwoLists<A>, is_sent: bool) -> bool {
    device.to_come.len() == 1
        && device.sent.len() == if is_sent { 5 } else { 4 }
        && is_back(&device.sent, &[7; 200]) == is_sent
}

/// Returns whether there is memory for an echo.
fn echoes<A: Allocator + Copy>(device: &mut TwoLists<A>) -> bool {
    echo_once(device, Instant::ZERO).is_ok()
}

/// Returns whether an echo in this memory succeeds exactly if it should, and `requests` requests were made.
fn goes_in(heap: &Refusing, succeeds: bool, requests: usize) -> bool {
    let mut device = without_frames(heap);
    let before = put_six(&mut device, heap).is_ok() && heap.requests() == 8;
    let echoed = echoes(&mut device) == succeeds && heap.requests() == requests;
    before && echoed && is_left(&device, succeeds)
}

/// Refuses the request for memory of that number, and returns whether an echo then goes so. All memory is given
/// back with the device, that of the frame too.
fn goes_so(alloc: Global, (refused, succeeds, requests): (usize, bool, usize)) -> bool {
    let heap = Refusing::new(alloc, refused);
    goes_in(&heap, succeeds, requests) && heap.live() == 0
}

/// Eight requests for memory are made before the echo: for two queues, and for the bytes of six
/// frames. The echo makes two: for room in the queue of frames sent, which is full with four,
/// and for the bytes.
#[test]
fn each_refusal_takes_the_frame_and_sends_nothing(rt: HostRuntime) {
    for row in [(8, false, 9), (9, false, 10), (10, true, 10)] {
        assert_holds(&rt, goes_so(rt.alloc(), row), ("request", row.0));
    }
}

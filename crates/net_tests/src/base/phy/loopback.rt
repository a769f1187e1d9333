//! Frames of a loopback device, with memory and without.
ghost use Rattle.std.specs.Prelude.{◌≡◌, List, ℕ, [], ◌∷◌, ◌++◌, codes, OnOk, IsTrue};

use super::{is_over, next_is, sends};
use crate::assertions::assert_holds;
use crate::testing::Refusing;
use net_base::phy::{Device, Loopback, Medium, RxToken};
use net_base::time::Instant;
use std::alloc::{AllocError, Allocator, Global};
use std::cell::Cell;

/// Loses the next frame by dropping its token, and drops a transmit token.
fn let_go(device: &mut Loopback) -> bool
    ensures { IsTrue result → (frame : List ℕ) × (device.old.frames ≡ frame ∷ device.new.frames) }
{
    let _unused = device.transmit(Instant::ZERO);
    device.receive(Instant::ZERO).is_some()
}

/// Spends the token of one device on another.
fn send_elsewhere(from: &mut Loopback, to: &mut Loopback) -> Result<(), AllocError>
    ensures from { from.new ≡ from.old }
    ensures to { OnOk result (to.new.frames ≡ to.old.frames ++ (codes "ab") ∷ []) }
{
    let token = from.transmit(Instant::ZERO).unwrap();
    to.send(token, 2, |buffer| buffer.copy_from_slice(b"ab"))
}

#[test]
fn frames_come_in_order_until_none_is_left(rt: HostRuntime) {
    let mut device = Loopback::new(rt.alloc(), Medium::Ethernet);
    let sent = sends(&mut device, b"ab") && sends(&mut device, b"");
    let came = let_go(&mut device) && next_is(&mut device, b"");
    assert_holds(&rt, sent && came && is_over(&mut device), ("step", 1));
}

/// Spends the token of one device on another, and returns whether the frame arrives only there.
fn comes_elsewhere(from: &mut Loopback, to: &mut Loopback) -> bool {
    send_elsewhere(from, to).is_ok() && is_over(from) && next_is(to, b"ab")
}

#[test]
fn a_token_sends_where_it_is_spent(rt: HostRuntime) {
    let mut from = Loopback::new(rt.alloc(), Medium::Ethernet);
    let mut to = Loopback::new(rt.alloc(), Medium::Ip);
    assert_holds(&rt, comes_elsewhere(&mut from, &mut to), ("step", 1));
}

/// Sends a frame of `length` bytes as it was lent, and returns whether it was lent as zeros.
fn sends_zeros(device: &mut Loopback, length: usize) -> bool {
    let token = device.transmit(Instant::ZERO).unwrap();
    let is_zeros = device.send(token, length, |buffer| {
        buffer.len() == length && buffer.iter().all(|&byte| byte == 0)
    });
    is_zeros == Ok(true)
}

/// Takes the next frame off by `consume`, and returns whether it has that length.
fn consumes_length(device: &mut Loopback, length: usize) -> bool {
    match device.receive(Instant::ZERO) {
        Some((frame, _token)) => frame.consume(|bytes| bytes.len()) == length,
        None => false,
    }
}

/// Returns whether the device says what a loopback device of medium IP can do.
fn says_what_it_can(device: &Loopback) -> bool {
    let capabilities = device.capabilities();
    capabilities.medium == Medium::Ip
        && capabilities.max_transmission_unit == 65_535
        && capabilities.max_burst_size.is_none()
        && !capabilities.checksum.tcp.rx()
}

#[test]
fn sends_frames_beyond_its_longest(rt: HostRuntime) {
    let mut device = Loopback::new(rt.alloc(), Medium::Ip);
    assert_holds(&rt, says_what_it_can(&device), ("step", 1));
    for length in [65_536, 70_001, 100_000, 1_000_000] {
        let passed = sends_zeros(&mut device, length) && consumes_length(&mut device, length);
        assert_holds(&rt, passed, ("bytes", length));
    }
}

/// A value that a closure owns, to count how often a closure is called or dropped.
struct Owned<'c> {
    drops: &'c Cell<u8>,
}

impl Drop for Owned<'_> {
    fn drop(self) {
        let Owned { drops } = self;
        drops.set(drops.get().saturating_add(1));
    }
}

/// The results of five frames that were sent in turn, one of whose requests for memory was refused.
#[derive(Drop)]
struct Outcome {
    sent: u8,
    ran: u8,
    drops: u8,
    requests: usize,
    arrived: u8,
    is_over: bool,
}

/// Sends frames of 200 bytes, five of them or until one is refused, and refuses the request for
/// memory of that number. Then takes as many frames off the device as were sent.
fn send_refused(alloc: Global, refused: usize) -> Outcome {
    let memory = Refusing::new(alloc, refused);
    let mut device = Loopback::new(&memory, Medium::Ip);
    let drops = Cell::new(0);
    let mut sent = 0u8;
    let mut ran = 0u8;
    for number in 0..5 {
        if !sends_number(&mut device, number, &mut ran, &drops) {
            break;
        }
        sent = sent.saturating_add(1);
    }
    Outcome {
        sent,
        ran,
        drops: drops.get(),
        requests: memory.requests(),
        arrived: count_arrived(&mut device, sent),
        is_over: is_over(&mut device),
    }
}

/// Sends a frame of 200 bytes that are this number, by a closure that counts how often it is called, and how
/// often it is called or dropped; returns whether there was memory for the frame.
fn sends_number<A: Allocator + Copy>(
    device: &mut Loopback<A>,
    number: u8,
    ran: &mut u8,
    drops: &Cell<u8>,
) -> bool {
    let token = device.transmit(Instant::ZERO).unwrap();
    let owned = Owned { drops };
    let sent = device.send(token, 200, move |buffer| {
        drop(owned);
        *ran = ran.saturating_add(1);
        buffer.fill(number);
    });
    sent.is_ok()
}

/// Takes `sent` frames off, and returns how many are 200 bytes that are the frame's number.
fn count_arrived<A: Allocator + Copy>(device: &mut Loopback<A>, sent: u8) -> u8 {
    let mut arrived = 0u8;
    for number in 0..sent {
        if next_is(device, &[number; 200]) {
            arrived = arrived.saturating_add(1);
        }
    }
    arrived
}

/// Returns whether `sent` frames were sent and arrived, and no others, by `requests` requests, and no
/// closure was forgotten.
fn is_expected(outcome: &Outcome, sent: u8, requests: usize) -> bool {
    outcome.sent == sent
        && outcome.ran == sent
        && outcome.drops == sent.saturating_add(1).min(5)
        && outcome.requests == requests
        && outcome.arrived == sent
        && outcome.is_over
}

/// A frame asks for room in the queue, if that is full, and then for its bytes. The queue has no
/// room at first and then for four frames, so there are seven requests: of frames 0, 0, 1, 2, 3, 4
/// and 4. The frames before the one that is refused arrive, and no others.
#[test]
fn each_request_for_memory_is_refused_in_turn(rt: HostRuntime) {
    for (refused, sent) in [0, 0, 1, 2, 3, 4, 4, 5].iter().enumerate() {
        let outcome = send_refused(rt.alloc(), refused);
        let requests = refused.min(6).saturating_add(1);
        assert_holds(
            &rt,
            is_expected(&outcome, *sent, requests),
            ("request", refused),
        );
    }
}

/// Returns whether a frame of the greatest length is refused and its closure is dropped, and not called.
fn refuses_greatest(device: &mut Loopback) -> bool {
    let drops = Cell::new(0);
    let owned = Owned { drops: &drops };
    let mut ran = false;
    let token = device.transmit(Instant::ZERO).unwrap();
    let sent = device.send(token, usize::MAX, |_buffer| {
        drop(owned);
        ran = true;
    });
    sent.is_err() && !ran && drops.get() == 1
}

#[test]
fn a_frame_beyond_all_memory_is_refused(rt: HostRuntime) {
    let mut device = Loopback::new(rt.alloc(), Medium::Ip);
    let refused = sends(&mut device, b"ab") && refuses_greatest(&mut device);
    assert_holds(
        &rt,
        refused && next_is(&mut device, b"ab") && is_over(&mut device),
        ("step", 1),
    );
}

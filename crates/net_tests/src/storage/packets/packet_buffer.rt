//! What no table of packet queues shows: closures that mustn't run, and headers that are dropped.
use crate::storage::counted::Counted;
use net_packets::{PacketBuffer, PacketMetadata};
use net_ring::{Empty, Full, ManagedSlice};
use std::cell::Cell;
use std::test::Fail;

/// Returns whether bytes go in, and come out as they were.
fn goes_in_and_out(queue: &mut PacketBuffer<'_, u8>, text: &[u8; 6]) -> bool {
    let mut out = [0u8; 6];
    queue.push_slice(7, text).is_ok() && queue.pop_slice(&mut out) == Ok((7, 6)) && out == *text
}

/// Returns whether `enqueue_with_infallible` of `size` bytes is refused and its closure isn't called.
fn refuses_closure(queue: &mut PacketBuffer<'_, u8>, size: usize) -> bool {
    let called = Cell::new(false);
    let result = queue.enqueue_with_infallible(size, 0, |_| {
        called.set(true);
        0
    });
    result == Err(Full) && !called.get()
}

/// Returns whether `dequeue_with` is refused and its closure isn't called.
fn hands_nothing(queue: &mut PacketBuffer<'_, u8>) -> bool {
    let called = Cell::new(false);
    let result = queue.dequeue_with(|_, _| -> Result<(), ()> {
        called.set(true);
        Ok(())
    });
    result == Err(Empty) && !called.get()
}

#[test]
fn refusals_run_no_closure(rt: HostRuntime) {
    let mut slots = [PacketMetadata::<u8>::EMPTY; 4];
    let mut bytes = [0u8; 16];
    let mut queue = PacketBuffer::<u8>::new(
        ManagedSlice::Borrowed(&mut slots),
        ManagedSlice::Borrowed(&mut bytes),
    );
    assert!(rt; hands_nothing(&mut queue) && refuses_closure(&mut queue, 17));
    assert!(rt; goes_in_and_out(&mut queue, b"abcdef") && hands_nothing(&mut queue));
}

/// Returns whether `place` refuses a packet of `size` bytes.
fn place_refuses<'c>(
    queue: &mut PacketBuffer<'_, Counted<'c>>,
    drops: &'c Cell<u32>,
    size: usize,
) -> bool {
    queue.place(size, Counted { drops }).is_err()
}

/// Returns whether `enqueue` refuses a packet of `size` bytes.
fn enqueue_refuses<'c>(
    queue: &mut PacketBuffer<'_, Counted<'c>>,
    drops: &'c Cell<u32>,
    size: usize,
) -> bool {
    queue.enqueue(size, Counted { drops }).is_err()
}

/// Returns whether `push_slice` refuses these bytes.
fn push_refuses<'c>(
    queue: &mut PacketBuffer<'_, Counted<'c>>,
    drops: &'c Cell<u32>,
    text: &[u8],
) -> bool {
    queue.push_slice(Counted { drops }, text).is_err()
}

/// Returns whether `enqueue_with_infallible` refuses a packet of `size` bytes.
fn closure_is_refused<'c>(
    queue: &mut PacketBuffer<'_, Counted<'c>>,
    drops: &'c Cell<u32>,
    size: usize,
) -> bool {
    queue
        .enqueue_with_infallible(size, Counted { drops }, |_| 0)
        .is_err()
}

/// Tries each call that appends a packet of these bytes, and returns how many headers were dropped,
/// or `None` if a call accepts the packet.
fn drops_of_refused<'c>(
    queue: &mut PacketBuffer<'_, Counted<'c>>,
    drops: &'c Cell<u32>,
    text: &[u8],
) -> Option<u32> {
    let before = drops.get();
    let size = text.len();
    let all_refused = place_refuses(queue, drops, size)
        && enqueue_refuses(queue, drops, size)
        && push_refuses(queue, drops, text)
        && closure_is_refused(queue, drops, size);
    all_refused.then_some(drops.get().saturating_sub(before))
}

/// Puts two packets in, tries each call that is refused, and takes the packets off. Returns whether
/// each call did what was expected. The queue and its storage are dropped at the end.
fn headers_come_and_go(drops: &Cell<u32>) -> bool {
    let mut slots = [PacketMetadata::EMPTY, PacketMetadata::EMPTY];
    let mut bytes = [0u8; 4];
    let mut queue = PacketBuffer::<Counted<'_>>::new(
        ManagedSlice::Borrowed(&mut slots),
        ManagedSlice::Borrowed(&mut bytes),
    );
    let came = !place_refuses(&mut queue, drops, 3);
    let kept = drops.get() == 0;
    // Three bytes are not free, and five are more than the storage has.
    let no_bytes = drops_of_refused(&mut queue, drops, b"abc") == Some(4);
    let too_long = drops_of_refused(&mut queue, drops, b"abcde") == Some(4);
    // No slot is free.
    let last = !place_refuses(&mut queue, drops, 0);
    let no_slot = drops_of_refused(&mut queue, drops, b"") == Some(4);
    let off = dequeue_takes_off(&mut queue);
    let off = off && drops.get() == 13 && closure_takes_off(&mut queue);
    came && kept && no_bytes && too_long && last && no_slot && off
}

/// Returns whether `dequeue` takes a packet off.
fn dequeue_takes_off(queue: &mut PacketBuffer<'_, Counted<'_>>) -> bool {
    queue.dequeue().is_ok()
}

/// Returns whether `dequeue_with` takes a packet off.
fn closure_takes_off(queue: &mut PacketBuffer<'_, Counted<'_>>) -> bool {
    queue.dequeue_with(|_, _| Result::<(), ()>::Ok(())).is_ok()
}

#[test]
fn each_header_is_dropped(rt: HostRuntime) -> Result<(), Fail> {
    let drops = Cell::new(0u32);
    assert!(rt; headers_come_and_go(&drops));
    assert_eq!(rt; drops.get(), 14);
    Ok(())
}

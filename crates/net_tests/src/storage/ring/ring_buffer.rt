//! What no table of rings shows: the kinds of storage, elements without a size, and closures that mustn't run.

use crate::assertions::assert_holds;
use net_ring::{Empty, Full, ManagedSlice, RingBuffer};
use std::cell::Cell;
use std::test::Fail;

/// Returns whether a ring of twelve elements lends eight, then four, and then none.
fn lends_eight_and_four(ring: &mut RingBuffer<'_, u8>) -> bool {
    let first = ring.enqueue_many(8).len() == 8;
    let second = ring.enqueue_many(8).len() == 4;
    first && second && ring.enqueue_many(8).is_empty()
}

#[test]
fn lent_and_owned_storage_are_alike(rt: HostRuntime) -> Result<(), Fail> {
    let vector = [0u8; 12].to_vec(rt.alloc())?;
    assert_holds(
        &rt,
        lends_eight_and_four(&mut RingBuffer::from(vector)),
        ("step", 1),
    );
    let storage = ManagedSlice::from([0u8; 12].to_vec(rt.alloc())?);
    assert_holds(
        &rt,
        lends_eight_and_four(&mut RingBuffer::from(storage)),
        ("step", 2),
    );
    assert_holds(
        &rt,
        lends_eight_and_four(&mut RingBuffer::from(&mut [0u8; 12])),
        ("step", 3),
    );
    assert_holds(
        &rt,
        lends_eight_and_four(&mut RingBuffer::from([0u8; 12].as_mut_slice())),
        ("step", 4),
    );
    Ok(())
}

/// Returns whether `enqueue_many` of five elements that have no size enqueues `count`.
fn enqueues_units(ring: &mut RingBuffer<'_, ()>, count: usize) -> bool {
    ring.enqueue_many(5).len() == count
}

/// Returns whether `enqueue_one` is refused.
fn enqueues_no_unit(ring: &mut RingBuffer<'_, ()>) -> bool {
    ring.enqueue_one().is_err()
}

/// Takes two elements that have no size off, and returns whether there were two.
fn dequeues_two_units(ring: &mut RingBuffer<'_, ()>) -> bool {
    if ring.len() < 2 {
        return false;
    }
    ring.dequeue_allocated(2);
    true
}

/// Returns whether a ring has `count` elements, and `free` free ones up to its storage's end.
fn has_units(ring: &RingBuffer<'_, ()>, count: usize, free: usize) -> bool {
    ring.len() == count && ring.window() == free && ring.contiguous_window() == free
}

#[test]
fn zero_sized_elements(rt: HostRuntime) {
    let mut buffer = [(); 3];
    let mut ring = RingBuffer::from(&mut buffer);
    let filled = enqueues_units(&mut ring, 3) && enqueues_no_unit(&mut ring);
    let taken = has_units(&ring, 3, 0) && dequeues_two_units(&mut ring);
    let again = has_units(&ring, 1, 2) && enqueues_units(&mut ring, 2);
    assert_holds(
        &rt,
        filled && taken && again && enqueues_units(&mut ring, 0),
        ("step", 1),
    );
    assert_holds(&rt, has_units(&ring, 3, 0), ("step", 2));
}

/// Returns whether `enqueue_one_with` is refused and its closure isn't called.
fn refuses_next(ring: &mut RingBuffer<'_, u8>) -> bool {
    let called = Cell::new(false);
    let result = ring.enqueue_one_with(|_| {
        called.set(true);
        Result::<(), ()>::Ok(())
    });
    result == Err(Full) && !called.get()
}

/// Returns whether `dequeue_one_with` is refused and its closure isn't called.
fn refuses_first(ring: &mut RingBuffer<'_, u8>) -> bool {
    let called = Cell::new(false);
    let result = ring.dequeue_one_with(|_| {
        called.set(true);
        Result::<(), ()>::Ok(())
    });
    result == Err(Empty) && !called.get()
}

#[test]
fn refusals_run_no_closure(rt: HostRuntime) {
    let mut buffer = [0u8; 1];
    let mut ring = RingBuffer::from(&mut buffer);
    assert_holds(
        &rt,
        refuses_first(&mut ring) && ring.enqueue_slice(b"ab") == 1,
        ("step", 1),
    );
    assert_holds(
        &rt,
        refuses_next(&mut ring) && gives_byte(&mut ring, Ok(b'a')),
        ("step", 2),
    );
}

/// Returns whether this is the first byte, which is dequeued, or there is none.
fn gives_byte(ring: &mut RingBuffer<'_, u8>, wanted: Result<u8, Empty>) -> bool {
    match ring.dequeue_one() {
        Ok(byte) => Ok(*byte) == wanted,
        Err(Empty) => wanted == Err(Empty),
    }
}

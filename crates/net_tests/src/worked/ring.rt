//! Rows of rings of bytes.
ghost use Rattle.std.specs.Prelude.{◌≡◌};

use crate::assertions::assert_holds;
use crate::worked::ring_rows::{QUEUED, UNALLOCATED};
use net_ring::{Resettable, RingBuffer};

/// A call with its answer, or what is then seen.
#[derive(Clone, Copy, Drop)]
pub enum Step {
    /// `enqueue_slice`, and how many bytes are taken.
    EnqueueSlice(&'static [u8], usize),
    /// `dequeue_slice` into as many zeros, and the bytes that are given.
    DequeueSlice(usize, &'static [u8]),
    /// `enqueue_many` of a size, what is lent, and what is written to its beginning.
    EnqueueMany(usize, &'static [u8], &'static [u8]),
    /// `dequeue_many` of a size, and what is lent.
    DequeueMany(usize, &'static [u8]),
    /// `enqueue_many_with`: how many bytes the closure gets, what it writes, and the count that it answers.
    EnqueueManyWith(usize, &'static [u8], usize),
    /// `dequeue_many_with`: how many bytes the closure gets, what it writes, and the count that it answers.
    DequeueManyWith(usize, &'static [u8], usize),
    /// `enqueue_one`, and the byte that is written, if it isn't refused.
    EnqueueOne(Option<u8>),
    /// `dequeue_one`, and the byte, if it isn't refused.
    DequeueOne(Option<u8>),
    /// `enqueue_one_with`: the closure writes the byte and refuses.
    RefuseOne(u8),
    /// `dequeue_one_with`: the closure writes the byte and refuses.
    KeepOne(u8),
    /// `get_unallocated` of an offset and a size, what is lent, and what is written to its beginning.
    Unallocated(usize, usize, &'static [u8], &'static [u8]),
    /// `write_unallocated` at an offset, and how many bytes are written.
    WriteUnallocated(usize, &'static [u8], usize),
    /// `enqueue_unallocated`.
    EnqueueUnallocated(usize),
    /// `get_allocated` of an offset and a size, and what is shown.
    Allocated(usize, usize, &'static [u8]),
    /// `read_allocated` at an offset into as many zeros, and the bytes that are given.
    ReadAllocated(usize, usize, &'static [u8]),
    /// `dequeue_allocated`.
    DequeueAllocated(usize),
    /// How many bytes are queued, and how many are free up to the storage's end.
    Has(usize, usize),
}

use Step::{
    Allocated, DequeueAllocated, DequeueMany, DequeueManyWith, DequeueOne, DequeueSlice,
    EnqueueMany, EnqueueManyWith, EnqueueOne, EnqueueSlice, EnqueueUnallocated, Has, KeepOne,
    ReadAllocated, RefuseOne, Unallocated, WriteUnallocated,
};

/// A name, the storage, and the steps on a ring over it.
pub type Row = (&'static str, &'static [u8], &'static [Step]);

/// Copies bytes to the beginning of a slice, as far as it has room.
fn write_to(lent: &mut [u8], bytes: &[u8]) {
    let count = bytes.len().min(lent.len());
    lent[..count].copy_from_slice(&bytes[..count]);
}

/// Returns whether a slice begins with these bytes, and then has zeros.
fn has_then_zeros(into: &[u8], bytes: &[u8]) -> bool {
    into.starts_with(bytes) && into[bytes.len()..].iter().all(|byte| *byte == 0)
}

/// Dequeues into zeros, and returns whether these bytes are given.
fn dequeues(ring: &mut RingBuffer<'_, u8>, count: usize, bytes: &[u8]) -> bool {
    let mut into = [0u8; 12];
    let into = &mut into[..count.min(12)];
    ring.dequeue_slice(into) == bytes.len() && has_then_zeros(into, bytes)
}

/// Reads into zeros, and returns whether these bytes are given.
fn reads(ring: &mut RingBuffer<'_, u8>, offset: usize, count: usize, bytes: &[u8]) -> bool {
    let mut into = [0u8; 12];
    let into = &mut into[..count.min(12)];
    ring.read_allocated(offset, into) == bytes.len() && has_then_zeros(into, bytes)
}

/// Enqueues elements, and returns whether these were lent, to which bytes are then written.
fn enqueues(ring: &mut RingBuffer<'_, u8>, size: usize, shown: &[u8], bytes: &[u8]) -> bool {
    let lent = ring.enqueue_many(size);
    let is_shown = *lent == *shown;
    write_to(lent, bytes);
    is_shown
}

/// Lends free elements, and returns whether these were lent, to which bytes are then written.
fn lends(ring: &mut RingBuffer<'_, u8>, part: (usize, usize), shown: &[u8], bytes: &[u8]) -> bool {
    let lent = ring.get_unallocated(part.0, part.1);
    let is_shown = *lent == *shown;
    write_to(lent, bytes);
    is_shown
}

/// Enqueues by a closure that gets `size` elements, writes bytes and answers `count`.
fn enqueues_with(ring: &mut RingBuffer<'_, u8>, size: usize, bytes: &[u8], count: usize) -> bool {
    let answered = ring.enqueue_many_with(|lent| {
        let is_size = lent.len() == size;
        write_to(lent, bytes);
        (count.min(lent.len()), is_size)
    });
    answered == (count, true)
}

/// Takes off by a closure that gets `size` elements, writes bytes and answers `count`.
fn dequeues_with(ring: &mut RingBuffer<'_, u8>, size: usize, bytes: &[u8], count: usize) -> bool {
    let answered = ring.dequeue_many_with(|lent| {
        let is_size = lent.len() == size;
        write_to(lent, bytes);
        (count.min(lent.len()), is_size)
    });
    answered == (count, true)
}

/// Enqueues a byte, or returns whether that is refused.
fn enqueues_one(ring: &mut RingBuffer<'_, u8>, byte: Option<u8>) -> bool {
    match (ring.enqueue_one(), byte) {
        (Ok(element), Some(byte)) => {
            *element = byte;
            true
        }
        (Err(_), None) => true,
        _ => false,
    }
}

/// Returns whether this byte is taken off, or that is refused.
fn dequeues_one(ring: &mut RingBuffer<'_, u8>, byte: Option<u8>) -> bool {
    ring.dequeue_one().ok().copied() == byte
}

/// Returns whether `enqueue_one_with` runs a closure that writes this byte and refuses.
fn refuses_one(ring: &mut RingBuffer<'_, u8>, byte: u8) -> bool {
    let result = ring.enqueue_one_with(|element| {
        *element = byte;
        Result::<(), ()>::Err(())
    });
    result == Ok(Err(()))
}

/// Returns whether `dequeue_one_with` runs a closure that writes this byte and refuses.
fn keeps_one(ring: &mut RingBuffer<'_, u8>, byte: u8) -> bool {
    let result = ring.dequeue_one_with(|element| {
        *element = byte;
        Result::<(), ()>::Err(())
    });
    result == Ok(Err(()))
}

/// Enqueues free elements, if there are as many.
fn enqueues_free(ring: &mut RingBuffer<'_, u8>, count: usize) -> bool {
    if count > ring.window() {
        return false;
    }
    ring.enqueue_unallocated(count);
    true
}

/// Takes elements off, if there are as many.
fn drops(ring: &mut RingBuffer<'_, u8>, count: usize) -> bool {
    if count > ring.len() {
        return false;
    }
    ring.dequeue_allocated(count);
    true
}

/// Does a step that lends, shows or copies bytes, and returns whether it has the answer that it must have.
fn answers(ring: &mut RingBuffer<'_, u8>, step: &Step) -> bool {
    match step {
        EnqueueSlice(bytes, count) => ring.enqueue_slice(bytes) == *count,
        DequeueSlice(count, bytes) => dequeues(ring, *count, bytes),
        EnqueueMany(size, shown, bytes) => enqueues(ring, *size, shown, bytes),
        DequeueMany(size, shown) => *ring.dequeue_many(*size) == **shown,
        Unallocated(offset, size, shown, bytes) => lends(ring, (*offset, *size), shown, bytes),
        WriteUnallocated(offset, bytes, count) => ring.write_unallocated(*offset, bytes) == *count,
        Allocated(offset, size, shown) => *ring.get_allocated(*offset, *size) == **shown,
        ReadAllocated(offset, count, bytes) => reads(ring, *offset, *count, bytes),
        _ => answers_otherwise(ring, step),
    }
}

/// Does a step of another kind, and returns whether it has the answer that it must have.
fn answers_otherwise(ring: &mut RingBuffer<'_, u8>, step: &Step) -> bool {
    match step {
        EnqueueManyWith(size, bytes, count) => enqueues_with(ring, *size, bytes, *count),
        DequeueManyWith(size, bytes, count) => dequeues_with(ring, *size, bytes, *count),
        EnqueueOne(byte) => enqueues_one(ring, *byte),
        DequeueOne(byte) => dequeues_one(ring, *byte),
        RefuseOne(byte) => refuses_one(ring, *byte),
        KeepOne(byte) => keeps_one(ring, *byte),
        EnqueueUnallocated(count) => enqueues_free(ring, *count),
        DequeueAllocated(count) => drops(ring, *count),
        Has(length, free) => ring.len() == *length && ring.contiguous_window() == *free,
        _ => false,
    }
}

/// Returns whether each step on a ring over a storage of these bytes has its answer.
fn is_row(bytes: &[u8], steps: &[Step]) -> bool {
    let mut storage = [0u8; 12];
    let count = bytes.len().min(12);
    write_to(&mut storage, bytes);
    let mut ring = RingBuffer::from(&mut storage[..count]);
    for step in steps {
        if !answers(&mut ring, step) {
            return false;
        }
    }
    ring.capacity() == bytes.len()
}

#[test]
fn elements_are_queued(rt: HostRuntime) {
    for (name, storage, steps) in &QUEUED {
        assert_holds(&rt, is_row(storage, steps), (name, storage.len()));
    }
}

#[test]
fn free_elements_are_written(rt: HostRuntime) {
    for (name, storage, steps) in &UNALLOCATED {
        assert_holds(&rt, is_row(storage, steps), (name, storage.len()));
    }
}

/// A byte that is reset to 0.
#[derive(Clone, Copy, Drop)]
struct Zeroed(u8);

impl Resettable for Zeroed {
    ghost IsReset = { λ _ new. new.0 ≡ 0 };

    fn reset(&mut self) {
        self.0 = 0;
    }
}

/// Every element is reset, queued or not.
#[test]
fn each_element_is_reset(rt: HostRuntime) {
    let mut elements = [Zeroed(5); 3];
    let mut ring = RingBuffer::from(&mut elements);
    let enqueued = ring.enqueue_one().is_ok();
    ring.reset();
    assert_holds(&rt, enqueued && ring.is_empty(), ("length", 0));
    let are_reset = ring.get_unallocated(0, 3).iter().all(|it| it.0 == 0);
    assert_holds(&rt, are_reset, ("each_element_is_reset", 3));
}

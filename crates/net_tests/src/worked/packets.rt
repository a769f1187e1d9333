//! Rows of packet queues whose headers are bytes.
use crate::assertions::assert_holds;
use crate::worked::packets_rows::ROWS;
use net_packets::{PacketBuffer, PacketMetadata};
use net_ring::ManagedSlice;
use std::alloc::AllocError;
use std::cell::Cell;

/// A call with its answer, or what is then seen.
#[derive(Clone, Copy, Drop)]
pub enum Step {
    /// `enqueue` of a size with the header 0, and what is written to the packet's beginning.
    Enqueue(usize, &'static [u8]),
    /// `enqueue` of a size, which is refused.
    Refuse(usize),
    /// `enqueue` of two bytes with a header.
    EnqueueHeader(u8, &'static [u8]),
    /// `enqueue_with_infallible` of a greatest size, and the length that the closure answers.
    EnqueueWith(usize, usize),
    /// `enqueue_with_infallible` of a size, which is refused; its closure isn't called.
    RefuseWith(usize),
    /// `dequeue`, and the packet's length.
    DequeueLength(usize),
    /// `dequeue`, the header and the packet.
    Dequeue(u8, &'static [u8]),
    /// `dequeue_with`: the packet that the closure gets, what it writes to header and bytes, and its refusal.
    Keep(&'static [u8], u8, &'static [u8], Result<(), u8>),
    /// `dequeue_with`: the packet that the closure gets, which it takes off.
    Take(&'static [u8]),
    /// `peek`, the header and the packet.
    Peek(u8, &'static [u8]),
    /// `peek` and `dequeue` are refused.
    Nothing,
    /// How many slots are used, and how many bytes.
    Uses(usize, usize),
    /// Whether there are no packets, and whether no slot is free.
    Is(bool, bool),
    /// `reset`.
    Reset,
}

use Step::{
    Dequeue, DequeueLength, Enqueue, EnqueueHeader, EnqueueWith, Is, Keep, Nothing, Peek, Refuse,
    RefuseWith, Reset, Take, Uses,
};

/// A name, how many slots and bytes there are, and the steps on a new queue over zeros.
pub type Row = (&'static str, usize, usize, &'static [Step]);

/// Copies bytes to the beginning of a slice, as far as it has room.
fn write_to(lent: &mut [u8], bytes: &[u8]) {
    let count = bytes.len().min(lent.len());
    lent[..count].copy_from_slice(&bytes[..count]);
}

/// Enqueues a packet and writes to its beginning, if it is accepted.
fn enqueues(queue: &mut PacketBuffer<'_, u8>, size: usize, header: u8, bytes: &[u8]) -> bool {
    match queue.enqueue(size, header) {
        Ok(packet) => {
            write_to(packet, bytes);
            packet.len() == size
        }
        Err(_) => false,
    }
}

/// Returns what `enqueue_with_infallible` answers where its closure gets `most` bytes and answers a length.
fn enqueues_with(queue: &mut PacketBuffer<'_, u8>, most: usize, length: usize) -> bool {
    let result = queue.enqueue_with_infallible(most, 0, |packet| length.min(packet.len()));
    result == Ok(length)
}

/// Returns whether `enqueue_with_infallible` is refused, and its closure isn't called.
fn refuses_with(queue: &mut PacketBuffer<'_, u8>, most: usize) -> bool {
    let called = Cell::new(false);
    let result = queue.enqueue_with_infallible(most, 0, |_| {
        called.set(true);
        0
    });
    result.is_err() && !called.get()
}

/// Takes the first packet off, and returns whether it has this length.
fn dequeues_length(queue: &mut PacketBuffer<'_, u8>, length: usize) -> bool {
    match queue.dequeue() {
        Ok((_, packet)) => packet.len() == length,
        Err(_) => false,
    }
}

/// Takes the first packet off, and returns whether it is this.
fn dequeues(queue: &mut PacketBuffer<'_, u8>, header: u8, bytes: &[u8]) -> bool {
    match queue.dequeue() {
        Ok((found, packet)) => found == header && *packet == *bytes,
        Err(_) => false,
    }
}

/// Returns whether the first packet is this.
fn peeks(queue: &mut PacketBuffer<'_, u8>, header: u8, bytes: &[u8]) -> bool {
    match queue.peek() {
        Ok((found, packet)) => *found == header && *packet == *bytes,
        Err(_) => false,
    }
}

/// Shows the first packet to a closure, which writes a header and bytes, and refuses it. Returns whether it is this.
fn keeps(
    queue: &mut PacketBuffer<'_, u8>,
    shown: &[u8],
    header: u8,
    bytes: &[u8],
    refusal: Result<(), u8>,
) -> bool {
    let result = queue.dequeue_with(|found, packet| {
        let is_shown = *packet == *shown;
        *found = header;
        write_to(packet, bytes);
        if is_shown { refusal } else { Err(0) }
    });
    result == Ok(refusal)
}

/// Shows the first packet to a closure, which takes it off. Returns whether it is this.
fn takes(queue: &mut PacketBuffer<'_, u8>, shown: &[u8]) -> bool {
    let result = queue.dequeue_with(|_, packet| Result::<bool, ()>::Ok(*packet == *shown));
    result == Ok(Ok(true))
}

/// Returns whether there is no packet to show or to take off.
fn has_nothing(queue: &mut PacketBuffer<'_, u8>) -> bool {
    queue.peek().is_err() && queue.dequeue().is_err()
}

/// Does a step that brings packets or shows counts, and returns whether it has the answer that it must have.
fn answers(queue: &mut PacketBuffer<'_, u8>, step: &Step) -> bool {
    match step {
        Enqueue(size, bytes) => enqueues(queue, *size, 0, bytes),
        EnqueueHeader(header, bytes) => enqueues(queue, 2, *header, bytes),
        Refuse(size) => queue.enqueue(*size, 0).is_err(),
        EnqueueWith(most, length) => enqueues_with(queue, *most, *length),
        RefuseWith(most) => refuses_with(queue, *most),
        Uses(slots, bytes) => queue.slots_used() == *slots && queue.payload_bytes_count() == *bytes,
        Is(empty, full) => queue.is_empty() == *empty && queue.is_full() == *full,
        _ => answers_otherwise(queue, step),
    }
}

/// Does a step of another kind, and returns whether it has the answer that it must have.
fn answers_otherwise(queue: &mut PacketBuffer<'_, u8>, step: &Step) -> bool {
    match step {
        DequeueLength(length) => dequeues_length(queue, *length),
        Dequeue(header, bytes) => dequeues(queue, *header, bytes),
        Peek(header, bytes) => peeks(queue, *header, bytes),
        Keep(shown, header, bytes, refusal) => keeps(queue, shown, *header, bytes, *refusal),
        Take(shown) => takes(queue, shown),
        Nothing => has_nothing(queue),
        Reset => {
            queue.reset();
            true
        }
        _ => false,
    }
}

/// Returns whether each step on a queue of these sizes has its answer.
fn is_row(slots: usize, bytes: usize, steps: &[Step]) -> bool {
    let mut metadata = [PacketMetadata::<u8>::EMPTY; 4];
    let mut payload = [0u8; 16];
    let mut queue = PacketBuffer::<u8>::new(
        ManagedSlice::Borrowed(&mut metadata[..slots.min(4)]),
        ManagedSlice::Borrowed(&mut payload[..bytes.min(16)]),
    );
    for step in steps {
        if !answers(&mut queue, step) {
            return false;
        }
    }
    queue.packet_capacity() == slots && queue.payload_capacity() == bytes
}

#[test]
fn packets_come_and_leave(rt: HostRuntime) {
    for (name, slots, bytes, steps) in &ROWS {
        assert_holds(&rt, is_row(*slots, *bytes, steps), (name, *bytes));
    }
}

#[test]
fn an_empty_slot_is_cloned(rt: HostRuntime) -> Result<(), AllocError> {
    let _slot = PacketMetadata::<u8>::EMPTY.clone()?;
    assert_holds(&rt, true, ("an_empty_slot_is_cloned", 0));
    Ok(())
}

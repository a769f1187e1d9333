//! Rows of receivers of four runs.
use crate::assertions::assert_holds;
use crate::receiver::schedule::{Schedule, runs_as};
use crate::worked::receiver_rows::{FIRST, PAIRS, ROWS, SECOND, THIRD};
use net_receiver::Receiver;
use net_ring::ManagedSlice;
use std::alloc::AllocError;

/// A name, and a schedule: how many bytes the storage has, the first position, and the steps.
pub type Row = (&'static str, Schedule<'static>);

#[test]
fn schedules_are_answered(rt: HostRuntime) -> Result<(), AllocError> {
    for (name, schedule) in &ROWS {
        assert_holds(&rt, runs_as(rt.alloc(), schedule)?, (name, schedule.0));
    }
    Ok(())
}

/// A segment, or how many bytes are read.
#[derive(Clone, Copy, Drop)]
pub enum Part {
    Segment(u64, &'static [u8]),
    Read(usize),
}

use Part::{Read, Segment};

/// A name, the parts of two schedules of receivers of 16 bytes, and whether their ends are the same.
pub type Pair = (&'static str, &'static [Part], &'static [Part], bool);

/// Gives a part to a receiver.
fn takes(receiver: &mut Receiver<'_, 4>, part: &Part) -> bool {
    match part {
        Segment(pos, bytes) => {
            Receiver::<4>::fits(*pos, bytes.len()) && receiver.segment(*pos, bytes).is_ok()
        }
        Read(count) => receiver.read(&mut [0u8; 16][..*count.min(&16)]) == *count,
    }
}

/// Gives parts to a receiver, and returns whether it took each.
fn takes_all(receiver: &mut Receiver<'_, 4>, parts: &[Part]) -> bool {
    for part in parts {
        if !takes(receiver, part) {
            return false;
        }
    }
    true
}

/// Returns whether the ends of two schedules are the same, exactly if they should be.
fn is_pair(one: &[Part], other: &[Part], same: bool) -> bool {
    let mut buffer = [0u8; 16];
    let mut second = [0u8; 16];
    let mut first = Receiver::<4>::new(ManagedSlice::Borrowed(&mut buffer));
    let mut second = Receiver::<4>::new(ManagedSlice::Borrowed(&mut second));
    let taken = takes_all(&mut first, one) && takes_all(&mut second, other);
    taken && first.same_state(&second) == same
}

#[test]
fn ends_are_compared(rt: HostRuntime) {
    for (name, one, other, same) in &PAIRS {
        assert_holds(&rt, is_pair(one, other, *same), (name, one.len()));
    }
}

/// Returns the byte of a position.
fn byte_at(pos: u64) -> u8 {
    (pos % 251) as u8
}

/// Sends the positions from `pos` on in a piece of at most seven, up to `end`.
fn sends_piece(receiver: &mut Receiver<'_, 4>, pos: u64, end: u64) -> bool {
    let mut piece = [0u8; 7];
    let mut next = pos;
    for byte in &mut piece {
        *byte = byte_at(next);
        next = next.saturating_add(1);
    }
    let count = end.saturating_sub(pos).min(7) as usize;
    let bytes = &piece[..count];
    Receiver::<4>::fits(pos, count) && receiver.segment(pos, bytes).is_ok()
}

/// Holds four runs of a byte, and returns whether each was kept.
fn holds_four(receiver: &mut Receiver<'_, 4>) -> bool {
    for pos in [1u64, 3, 5, 7] {
        if !sends_piece(receiver, pos, pos.saturating_add(1)) {
            return false;
        }
    }
    receiver.held().count() == 4
}

/// Reads at most seven bytes, and returns how many, if they are those of the positions from `pos` on.
fn reads_on(receiver: &mut Receiver<'_, 4>, pos: u64) -> Option<u64> {
    let mut into = [0u8; 7];
    let count = receiver.read(&mut into);
    let mut next = pos;
    for byte in into.iter().take(count) {
        if *byte != byte_at(next) {
            return None;
        }
        next = next.saturating_add(1);
    }
    Some(count as u64)
}

/// Sends the positions 0 to 63 in pieces of seven. Returns whether all are queued.
fn queues_all(receiver: &mut Receiver<'_, 4>) -> bool {
    for number in 0..10u64 {
        if !sends_piece(receiver, number.saturating_mul(7), 64) {
            return false;
        }
    }
    receiver.queued() == 64 && receiver.held().count() == 0
}

/// Sends the positions 0 to 47 in pieces of seven, with a read of seven after each. Returns whether all come out.
fn reads_all(receiver: &mut Receiver<'_, 4>) -> bool {
    let mut read = 0u64;
    for number in 0..7u64 {
        if !sends_piece(receiver, number.saturating_mul(7), 48) {
            return false;
        }
        match reads_on(receiver, read) {
            Some(count) => read = read.saturating_add(count),
            None => return false,
        }
    }
    read == 48
}

/// A stream that comes in order fills what is missing, though as many runs are held as there may be.
#[test]
fn a_stream_in_pieces_is_never_refused(rt: HostRuntime) {
    let mut storage = [0u8; 64];
    let mut receiver = Receiver::<4>::new(ManagedSlice::Borrowed(&mut storage));
    let queued = holds_four(&mut receiver) && queues_all(&mut receiver);
    assert_holds(&rt, queued, ("pieces_of_seven_are_queued", 64));
    let mut storage = [0u8; 16];
    let mut receiver = Receiver::<4>::new(ManagedSlice::Borrowed(&mut storage));
    let read = holds_four(&mut receiver) && reads_all(&mut receiver);
    assert_holds(&rt, read, ("pieces_of_seven_are_read", 48));
}

/// Where 20 segments begin, and how long they are. They overlap, and segment number i has the byte i everywhere.
pub type Twenty = [(usize, usize); 20];

/// The last byte of each position, where a segment kept it.
type Table = [Option<u8>; 64];

/// Returns the first position that has no byte.
fn missing(table: &Table) -> usize {
    table.iter().take_while(|byte| byte.is_some()).count()
}

/// Returns how many runs the positions after the first missing one have.
fn runs(table: &Table) -> usize {
    let mut count = 0usize;
    let mut was_there = false;
    for byte in table.iter().skip(missing(table)) {
        if byte.is_some() && !was_there {
            count = count.saturating_add(1);
        }
        was_there = byte.is_some();
    }
    count
}

/// Writes a segment's byte to its positions from the first missing one on. Returns how many there are.
fn write_segment(table: &mut Table, (start, size): (usize, usize), byte: u8) -> usize {
    let next = missing(table);
    let mut kept = 0usize;
    for (pos, place) in table.iter_mut().enumerate() {
        if pos >= next && pos >= start && pos < start.saturating_add(size) {
            *place = Some(byte);
            kept = kept.saturating_add(1);
        }
    }
    kept
}

/// Gives a segment to a receiver and to the table, which has it only if the receiver kept it. Returns whether it is
/// refused exactly if it misses the first missing position and makes more than four runs.
fn agrees(
    receiver: &mut Receiver<'_, 4>,
    table: &mut Table,
    segment: (usize, usize),
    byte: u8,
) -> bool {
    let (start, size) = segment;
    let mut with = *table;
    let kept = write_segment(&mut with, segment, byte);
    let is_refused = missing(&with) == missing(table) && kept > 0 && runs(&with) > 4;
    let bytes = &[byte; 9][..size.min(9)];
    if !Receiver::<4>::fits(start as u64, bytes.len()) {
        return false;
    }
    match receiver.segment(start as u64, bytes) {
        Ok(result) => {
            let queued = missing(&with).saturating_sub(missing(table));
            *table = with;
            !is_refused && result.kept == kept && result.queued == queued
        }
        Err(_) => is_refused,
    }
}

/// Gives twenty segments to a receiver and to the table, with bytes from `byte` on. Returns whether they agree.
fn agree(receiver: &mut Receiver<'_, 4>, table: &mut Table, segments: &Twenty, first: u8) -> bool {
    let mut byte = first;
    for segment in segments {
        if !agrees(receiver, table, *segment, byte) {
            return false;
        }
        byte = byte.saturating_add(1);
    }
    receiver.queued() == missing(table)
}

/// Returns whether the bytes that are read are those of the table.
fn reads_table(receiver: &mut Receiver<'_, 4>, table: &Table) -> bool {
    let mut into = [0u8; 64];
    let count = receiver.read(&mut into);
    let bytes = into.iter().take(count);
    count == missing(table)
        && bytes
            .zip(table)
            .all(|(byte, wanted)| *wanted == Some(*byte))
}

#[test]
fn sixty_segments_against_a_table(rt: HostRuntime) {
    let mut storage = [0u8; 64];
    let mut receiver = Receiver::<4>::new(ManagedSlice::Borrowed(&mut storage));
    let mut table = [None; 64];
    let first = agree(&mut receiver, &mut table, &FIRST, 0);
    assert_holds(&rt, first, ("sixty_segments", 20));
    let second = agree(&mut receiver, &mut table, &SECOND, 20);
    assert_holds(&rt, second, ("sixty_segments", 40));
    let third = agree(&mut receiver, &mut table, &THIRD, 40);
    assert_holds(&rt, third, ("sixty_segments", 60));
    assert_holds(
        &rt,
        reads_table(&mut receiver, &table),
        ("sixty_segments", 64),
    );
}

//! A stream of QUIC over ranges: its bytes are the test's.
use crate::assertions::assert_holds;
use net_assembler::Run;
use net_receiver::{Acknowledged, SendRanges, StreamRanges};
use net_ring::ManagedSlice;
use std::ops::Range;

const EMPTY: Run = Run { start: 0, end: 0 };

/// Returns whether a range is the next one to be sent, of at most 8 bytes, and marks it.
fn sends(sending: &mut SendRanges<'_>, from: u64, to: u64) -> bool {
    match sending.next(32, 8) {
        Some(range) => range.start == from && range.end == to && sending.mark(range),
        None => false,
    }
}

/// Returns whether all of a range is new, and keeps it.
fn keeps(receiving: &mut StreamRanges<'_>, frame: Range<u64>, fin: bool) -> bool {
    let (from, to) = (frame.start, frame.end);
    match receiving.keep(frame, fin) {
        Ok(Some(part)) => part.start == from && part.end == to,
        Ok(None) | Err(_) => false,
    }
}

/// Returns whether a range is acknowledged for the first time, and frees so many numbers.
fn acknowledges(sending: &mut SendRanges<'_>, range: Range<u64>, freed: u64) -> bool {
    let len = range.end.saturating_sub(range.start);
    let told = Acknowledged {
        new: len,
        freed,
        sent_again: false,
    };
    sending.acknowledge(range) == Ok(told)
}

#[test]
fn a_lost_frame_comes_again(rt: HostRuntime) {
    let (mut known, mut settled, mut held) = ([EMPTY; 2], [EMPTY; 2], [EMPTY; 2]);
    let (known, settled) = (
        ManagedSlice::Borrowed(&mut known),
        ManagedSlice::Borrowed(&mut settled),
    );
    let mut sending = SendRanges::over_at(known, settled, 0);
    let mut receiving = StreamRanges::over_at(ManagedSlice::Borrowed(&mut held), 0, 32);
    let is_written = sending.write(20) == 20;
    sending.close();
    assert_holds(&rt, is_written, ("written", 20));
    // The end's number comes with the last bytes.
    let sent = sends(&mut sending, 0, 8)
        && sends(&mut sending, 8, 16)
        && sends(&mut sending, 16, 21);
    assert_holds(&rt, sent && sending.next(32, 8).is_none(), ("sent", 21));
    // The second frame is lost.
    let came = keeps(&mut receiving, 0..8, false) && keeps(&mut receiving, 16..20, true);
    assert_holds(&rt, came && receiving.next() == 8, ("came", 8));
    let heard = acknowledges(&mut sending, 16..21, 0) && acknowledges(&mut sending, 0..8, 8);
    assert_holds(&rt, heard && sending.lose(8..16), ("lost", 8));
    let again = sends(&mut sending, 8, 16) && keeps(&mut receiving, 8..16, false);
    assert_holds(&rt, again && receiving.next() == 20, ("again", 20));
    let is_done = acknowledges(&mut sending, 8..16, 13) && sending.is_done();
    assert_holds(&rt, is_done, ("done", 21));
    receiving.read(receiving.queued().min(20));
    assert_holds(&rt, receiving.has_read_all(), ("read", 20));
}

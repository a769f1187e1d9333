//! Rows of packet queues.
use crate::worked::packets::Row;
use crate::worked::packets::Step::{
    Dequeue, DequeueLength, Enqueue, EnqueueHeader, EnqueueWith, Is, Keep, Nothing, Peek, Refuse,
    RefuseWith, Reset, Take, Uses,
};

/// Packets that come and leave, before which there is a gap or none.
pub static ROWS: [Row; 16] = rows! {
    ("test_simple", 4, 16, &[Enqueue(6, b"abcdef"), Refuse(16), Uses(1, 6), Dequeue(0, b"abcdef"), Nothing]);
    ("test_peek", 4, 16, &[Nothing, Enqueue(6, b"abcdef"), Peek(0, b"abcdef"), Dequeue(0, b"abcdef"), Nothing]);
    ("test_contiguous_window_too_small", 4, 16, &[Enqueue(4, b""), Enqueue(8, b""), DequeueLength(4), Refuse(8),
        Uses(1, 8)]);
    ("test_contiguous_window_wrap", 4, 16, &[Enqueue(15, b""), DequeueLength(15), Enqueue(16, b"")]);
    ("test_capacity_too_small", 4, 16, &[Refuse(32)]);
    ("test_metadata_full_empty", 4, 16, &[Enqueue(1, b""), Enqueue(1, b""), Enqueue(1, b""), Enqueue(1, b""),
        Is(false, true), Refuse(1)]);
    ("test_padding", 4, 16, &[Enqueue(6, b""), Enqueue(8, b""), DequeueLength(6), Enqueue(4, b"abcd"), Uses(3, 14),
        DequeueLength(8), Uses(2, 6), Peek(0, b"abcd"), Uses(1, 4), Dequeue(0, b"abcd"), Uses(0, 0)]);
    ("test_dequeue_with", 4, 16, &[Enqueue(6, b""), Enqueue(8, b""), DequeueLength(6), Enqueue(4, b"abcd"), Uses(3, 14),
        DequeueLength(8), Keep(b"abcd", 0, b"", Err(123)), Uses(1, 4), Take(b"abcd"), Uses(0, 0)]);
    ("clear", 4, 16, &[Enqueue(6, b""), Reset, Is(true, false), Enqueue(16, b"")]);
    ("test_padding_with_large_payload", 4, 16, &[Enqueue(12, b""), DequeueLength(12), Enqueue(12, b"")]);
    ("test_contig_window_prioritized", 4, 16, &[Enqueue(4, b""), DequeueLength(4), Enqueue(5, b"")]);
    ("test_enqueue_fallible_full_metadata_fn_not_called", 4, 16, &[Enqueue(12, b""), Enqueue(1, b""), Enqueue(1, b""),
        Enqueue(1, b""), DequeueLength(12), RefuseWith(5), Uses(3, 3), Enqueue(1, b"")]);
    ("an_empty_queue_is_filled_from_its_beginning", 4, 16, &[Enqueue(15, b""), DequeueLength(15), EnqueueWith(16, 2),
        Enqueue(0, b""), DequeueLength(2), DequeueLength(0)]);
    ("what_a_keeping_closure_writes_stays", 4, 16, &[EnqueueHeader(7, b"ab"), Keep(b"ab", 9, b"x", Err(1)),
        Peek(9, b"xb"), Uses(1, 2), Dequeue(9, b"xb")]);
    ("a_packet_of_no_bytes_behind_a_gap", 4, 16, &[Enqueue(10, b""), Enqueue(4, b""), DequeueLength(10),
        EnqueueWith(5, 0), Uses(3, 6), DequeueLength(4), Peek(0, b""), Uses(1, 0), Dequeue(0, b""), Nothing]);
    ("packets_of_no_bytes", 2, 0, &[Enqueue(0, b""), Refuse(1), Enqueue(0, b""), Refuse(0)]);
};

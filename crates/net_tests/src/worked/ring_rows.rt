//! Rows of rings.
use crate::worked::ring::Row;
use crate::worked::ring::Step::{
    Allocated, DequeueAllocated, DequeueMany, DequeueManyWith, DequeueOne, DequeueSlice,
    EnqueueMany, EnqueueManyWith, EnqueueOne, EnqueueSlice, EnqueueUnallocated, Has, KeepOne,
    ReadAllocated, RefuseOne, Unallocated, WriteUnallocated,
};

/// Twelve bytes, each a full stop.
const DOTS: &[u8] = b"............";

/// Slices that are copied, elements that are lent, and closures.
pub static QUEUED: [Row; 11] = rows! {
    ("test_buffer_dequeue_slice", DOTS, &[EnqueueSlice(b"abcdefghijkl", 12), DequeueSlice(8, b"abcdefgh"), Has(4, 8),
        EnqueueSlice(b"abcd", 4), DequeueSlice(8, b"ijklabcd"), Has(0, 8)]);
    ("test_buffer_read_allocated", DOTS, &[EnqueueMany(12, DOTS, b"abcdefghijkl"), DequeueMany(6, b"abcdef"),
        EnqueueMany(3, b"abc", b"mno"), ReadAllocated(3, 6, b"jklmno"), ReadAllocated(6, 6, b"mno")]);
    ("test_buffer_enqueue_many", DOTS, &[EnqueueMany(8, b"........", b""), EnqueueMany(8, b"....", b""), Has(12, 0)]);
    ("test_buffer_get_allocated", DOTS, &[EnqueueSlice(b"abcd", 4), EnqueueSlice(b"efghijkl", 8),
        DequeueMany(4, b"abcd"), Allocated(4, 8, b"ijkl"), EnqueueSlice(b"abcd", 4), Allocated(4, 8, b"ijkl")]);
    ("test_buffer_write_wholly", b"........", &[EnqueueMany(2, b"..", b"ab"), EnqueueMany(2, b"..", b"cd"),
        DequeueMany(4, b"abcd"), EnqueueMany(8, b"abcd....", b"")]);
    ("test_buffer_enqueue_many_with", DOTS, &[EnqueueManyWith(12, b"ab", 2), EnqueueManyWith(10, b"cdXX", 2),
        EnqueueManyWith(8, b"efgh", 4), DequeueMany(4, b"abcd"), EnqueueManyWith(4, b"ijkl", 4),
        EnqueueManyWith(4, b"abcd", 4), Allocated(0, 12, b"efghijkl"), Allocated(8, 4, b"abcd")]);
    ("an_empty_ring_is_enqueued_from_its_beginning", b"........", &[EnqueueMany(4, b"....", b"abcd"),
        DequeueMany(4, b"abcd"), Has(0, 4), EnqueueMany(8, b"abcd....", b"")]);
    ("what_a_refusing_closure_writes_stays", b"\0\0", &[RefuseOne(7), Has(0, 2), Unallocated(0, 1, &[7], b""),
        DequeueOne(None)]);
    ("what_a_keeping_closure_writes_stays", b"\0\0", &[EnqueueSlice(b"ab", 2), KeepOne(b'z'), Has(2, 0),
        DequeueSlice(2, b"zb")]);
    ("what_is_written_and_not_counted_stays", b"\0\0\0\0", &[EnqueueManyWith(4, b"ab", 0), Has(0, 4),
        Unallocated(0, 2, b"ab", b"")]);
    ("what_is_written_and_not_taken_off_stays", b"....", &[EnqueueSlice(b"abcd", 4), DequeueManyWith(4, b"x", 0),
        DequeueSlice(4, b"xbcd")]);
};

/// Elements that are free, by their offset.
pub static UNALLOCATED: [Row; 6] = rows! {
    ("test_buffer_write_unallocated", DOTS, &[EnqueueMany(6, b"......", b"abcdef"), DequeueMany(6, b"abcdef"),
        WriteUnallocated(0, b"ghi", 3), WriteUnallocated(3, b"jklmno", 6), Unallocated(3, 3, b"jkl", b""),
        WriteUnallocated(9, b"pqrstu", 3), Unallocated(9, 3, b"pqr", b"")]);
    ("test_buffer_get_unallocated", DOTS, &[Unallocated(16, 4, b"", b""), Unallocated(0, 4, b"....", b"abcd"),
        EnqueueMany(4, b"abcd", b"...."), Unallocated(4, 8, b"....", b"ijkl"), EnqueueMany(8, b"....ijkl", b"")]);
    ("test_buffer_with_no_capacity", b"", &[Unallocated(0, 0, b"", b""), Allocated(0, 0, b""), DequeueAllocated(0),
        EnqueueMany(0, b"", b""), EnqueueOne(None), Has(0, 0)]);
    ("what_was_written_ahead_is_enqueued", b"\0\0\0\0\0\0\0\0", &[EnqueueMany(4, b"\0\0\0\0", b""),
        DequeueMany(4, b"\0\0\0\0"), WriteUnallocated(0, b"xy", 2), EnqueueUnallocated(2), Allocated(0, 2, b"xy"),
        Has(2, 2)]);
    ("enqueue_many_forgets_what_was_written_ahead", b"\0\0\0\0\0\0\0\0", &[EnqueueMany(4, b"\0\0\0\0", b""),
        DequeueMany(4, b"\0\0\0\0"), WriteUnallocated(0, b"xy", 2), EnqueueMany(2, b"\0\0", b"")]);
    ("the_highest_offset", b"....", &[Unallocated(18446744073709551615, 1, b"", b""),
        WriteUnallocated(18446744073709551615, b"a", 0)]);
};

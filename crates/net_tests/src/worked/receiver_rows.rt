//! Rows of receivers of four runs.
use crate::receiver::schedule::Step::{Keeps, Reads, Refuses, Shows};
use crate::worked::receiver::Part::{Read, Segment};
use crate::worked::receiver::{Pair, Row, Twenty};

/// Schedules that `replay` answers so.
pub static ROWS: [Row; 12] = rows! {
    ("bytes_are_read_in_parts", (16, 0, &[Keeps(0, b"hello", 5, 5, &[]), Reads(3, b"hel"), Shows(5, 2, 14, &[])]));
    ("the_last_byte_of_each_position", (16, 0, &[Keeps(2, b"AA", 2, 0, &[(2, 4)]), Keeps(3, b"BB", 2, 0, &[(2, 5)]),
        Keeps(0, b"CC", 2, 5, &[]), Reads(5, b"CCABB")]));
    ("queued_bytes_stay", (16, 0, &[Keeps(0, b"ab", 2, 2, &[]), Keeps(0, b"xxz", 1, 1, &[]), Reads(9, b"abz")]));
    ("a_fifth_run_is_refused", (64, 0, &[Keeps(10, &[1, 1, 1], 3, 0, &[(10, 13)]),
        Keeps(20, &[2, 2, 2], 3, 0, &[(10, 13), (20, 23)]),
        Keeps(30, &[3, 3, 3], 3, 0, &[(10, 13), (20, 23), (30, 33)]),
        Keeps(40, &[4, 4, 4], 3, 0, &[(10, 13), (20, 23), (30, 33)]), Refuses(50, &[1]),
        Keeps(13, &[1], 1, 0, &[(10, 14), (20, 23), (30, 33)]), Keeps(0, b"abc", 3, 3, &[(10, 14), (20, 23), (30, 33)]),
        Shows(3, 3, 61, &[(10, 14), (20, 23), (30, 33), (40, 43)])]));
    ("a_full_window", (4, 0, &[Keeps(0, b"abcde", 4, 4, &[]), Keeps(4, b"e", 0, 0, &[]), Reads(2, b"ab"),
        Keeps(4, b"efg", 2, 2, &[]), Reads(4, b"cdef"), Keeps(8, b"j", 1, 0, &[(8, 9)]), Keeps(6, b"hi", 2, 3, &[]),
        Reads(9, b"hij")]));
    ("a_segment_beyond_the_window", (16, 0, &[Keeps(18446744073709551614, &[1], 0, 0, &[])]));
    ("runs_of_a_byte_up_to_the_windows_end", (64, 0, &[Keeps(2, &[1], 1, 0, &[(2, 3)]),
        Keeps(4, &[1], 1, 0, &[(2, 3), (4, 5)]), Keeps(6, &[1], 1, 0, &[(2, 3), (4, 5), (6, 7)]),
        Keeps(8, &[1], 1, 0, &[(2, 3), (4, 5), (6, 7)]), Refuses(10, &[1]), Refuses(62, &[1]),
        Keeps(1, &[2], 1, 0, &[(1, 3), (4, 5), (6, 7)]), Keeps(0, &[3], 1, 3, &[(4, 5), (6, 7), (8, 9)]),
        Keeps(10, &[4], 1, 0, &[(4, 5), (6, 7), (8, 9)]), Shows(3, 3, 61, &[(4, 5), (6, 7), (8, 9), (10, 11)])]));
    ("segments_that_disagree", (8, 0, &[Keeps(4, b"aa", 2, 0, &[(4, 6)]), Keeps(3, b"bbb", 3, 0, &[(3, 6)]),
        Keeps(5, b"ccccc", 3, 0, &[(3, 8)]), Keeps(0, b"dddd", 4, 8, &[]), Keeps(0, b"z", 0, 0, &[]),
        Reads(8, b"ddddbccc")]));
    ("no_storage", (0, 0, &[Keeps(0, b"a", 0, 0, &[]), Reads(1, b""), Shows(0, 0, 0, &[])]));
    ("a_stream_that_begins_at_1000", (8, 1000, &[Keeps(998, b"abcd", 2, 2, &[]), Shows(1002, 2, 6, &[]),
        Keeps(1004, b"x", 1, 0, &[(1004, 1005)]), Keeps(0, b"a", 0, 0, &[(1004, 1005)]), Reads(9, b"cd")]));
    ("a_stream_that_begins_below_the_last_position", (8, 18446744073709551614,
        &[Keeps(18446744073709551614, b"a", 1, 1, &[]), Shows(18446744073709551615, 1, 7, &[]),
        Keeps(18446744073709551615, b"", 0, 0, &[])]));
    ("a_read_of_nothing", (16, 0, &[Keeps(2, b"AA", 2, 0, &[(2, 4)]), Reads(9, b""), Keeps(0, b"BB", 2, 4, &[]),
        Reads(9, b"BBAA"), Shows(4, 0, 16, &[])]));
};

/// Two schedules each, and whether their ends are the same.
pub static PAIRS: [Pair; 4] = rows! {
    ("bytes_in_another_order", &[Segment(0, b"a"), Segment(1, b"b"), Segment(2, b"c")], &[Segment(2, b"c"),
        Segment(0, b"ab")], true);
    ("another_byte", &[Segment(0, b"ab")], &[Segment(0, b"ac")], false);
    ("another_count_of_bytes_read", &[Segment(0, b"a"), Read(1)], &[Segment(0, b"a")], false);
    ("another_byte_that_is_held", &[Segment(2, b"A")], &[Segment(2, b"B")], true);
};

/// The first twenty segments.
pub static FIRST: Twenty = [
    (5, 3),
    (12, 9),
    (20, 1),
    (7, 6),
    (30, 4),
    (44, 9),
    (29, 2),
    (13, 5),
    (40, 8),
    (21, 7),
    (58, 6),
    (26, 1),
    (60, 9),
    (35, 5),
    (2, 1),
    (3, 2),
    (17, 8),
    (33, 9),
    (9, 4),
    (50, 7),
];

/// The second twenty segments.
pub static SECOND: Twenty = [
    (1, 1),
    (45, 3),
    (52, 9),
    (24, 6),
    (6, 9),
    (15, 2),
    (38, 4),
    (62, 5),
    (28, 8),
    (11, 7),
    (0, 1),
    (1, 9),
    (43, 1),
    (19, 9),
    (31, 3),
    (47, 5),
    (8, 8),
    (55, 4),
    (36, 6),
    (22, 2),
];

/// The third twenty segments.
pub static THIRD: Twenty = [
    (4, 9),
    (27, 9),
    (41, 2),
    (34, 7),
    (16, 4),
    (56, 8),
    (10, 9),
    (25, 5),
    (48, 9),
    (0, 9),
    (18, 1),
    (39, 9),
    (30, 6),
    (57, 3),
    (63, 1),
    (46, 9),
    (53, 9),
    (23, 9),
    (32, 9),
    (61, 3),
];

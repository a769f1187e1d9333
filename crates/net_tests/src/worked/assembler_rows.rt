//! Rows of assemblers.
use crate::worked::assembler::Row;
use crate::worked::assembler::Step::{
    Add, AddCounted, AddThenRemove, Contains, Fill, Fits, Remove, RunAt, Runs, Text,
};

/// Ranges that meet.
pub static ROWS_0: [Row; 11] = rows! {
    ("test_partial_add_front", 4, &[Add(4, 8, true), Add(0, 4, true), Runs(&[(0, 12)])]);
    ("test_partial_add_back", 4, &[Add(4, 8, true), Add(12, 4, true), Runs(&[(4, 16)])]);
    ("test_partial_add_front_overlap_split", 4, &[Add(4, 8, true), Add(2, 6, true), Runs(&[(2, 12)])]);
    ("test_partial_add_back_overlap_split", 4, &[Add(4, 8, true), Add(10, 4, true), Runs(&[(4, 14)])]);
    ("test_partial_add_front_overlap", 4, &[Add(4, 8, true), Add(0, 8, true), Runs(&[(0, 12)])]);
    ("test_partial_add_back_overlap", 4, &[Add(4, 8, true), Add(8, 8, true), Runs(&[(4, 16)])]);
    ("test_partial_add_both_overlap", 4, &[Add(4, 8, true), Add(0, 16, true), Runs(&[(0, 16)])]);
    ("test_partial_add_both_overlap_split", 4, &[Add(4, 8, true), Add(2, 12, true), Runs(&[(2, 14)])]);
    ("test_join_two", 4, &[Add(10, 10, true), Add(50, 10, true), Add(15, 40, true), Runs(&[(10, 60)])]);
    ("test_join_two_overlong", 4, &[Add(50, 10, true), Add(10, 10, true), Add(15, 60, true), Runs(&[(10, 75)])]);
    ("test_issue_694", 4, &[Add(0, 1, true), Add(2, 1, true), Add(1, 1, true), Runs(&[(0, 3)])]);
};

/// Full assemblers, and the front.
pub static ROWS_1: [Row; 12] = rows! {
    ("test_rejected_add_keeps_state", 4, &[Fill, Add(1, 3, false), AddCounted(1, 3, false), AddThenRemove(1, 3, None),
        RunAt(0, Some((10, 13))), Add(13, 7, true), Add(1, 3, true), Runs(&[(1, 4), (10, 23), (30, 33), (40, 43)])]);
    ("worked_15", 4, &[Fill, Add(1, 3, false), Runs(&[(10, 13), (20, 23), (30, 33), (40, 43)])]);
    ("worked_17", 4, &[Add(2, 6, true), Add(10, 1, true), RunAt(0, Some((2, 8))), RunAt(1, Some((10, 11))),
        RunAt(2, None), Runs(&[(2, 8), (10, 11)])]);
    ("test_add_then_remove_front_at_front_full_offset_0", 4, &[Fill, AddThenRemove(0, 3, Some(3)),
        Runs(&[(7, 10), (17, 20), (27, 30), (37, 40)])]);
    ("test_add_then_remove_front", 4, &[Add(50, 10, true), AddThenRemove(10, 10, Some(0)),
        Runs(&[(10, 20), (50, 60)])]);
    ("test_add_then_remove_front_at_front", 4, &[Add(50, 10, true), AddThenRemove(0, 10, Some(10)), Runs(&[(40, 50)])]);
    ("test_add_then_remove_front_at_front_touch", 4, &[Add(50, 10, true), AddThenRemove(0, 50, Some(60)), Text("[ ]"),
        Runs(&[])]);
    ("worked_23", 4, &[Add(0, 4, true), AddThenRemove(0, 0, Some(4)), Runs(&[])]);
    ("test_trailing_data_remove_front", 4, &[Add(0, 4, true), Add(8, 4, true), Remove(4), Remove(0), Runs(&[(4, 8)])]);
    ("test_boundary_case_remove_front", 4, &[Add(0, 2, true), Add(3, 1, true), Add(5, 1, true), Add(7, 1, true),
        Remove(2), Runs(&[(1, 2), (3, 4), (5, 6)])]);
    ("test_empty_remove_front", 4, &[Remove(0), Runs(&[])]);
    ("test_iter_three_split", 4, &[Add(2, 6, true), Add(10, 1, true), Add(13, 2, true), RunAt(0, Some((2, 8))),
        RunAt(1, Some((10, 11))), RunAt(2, Some((13, 15))), RunAt(3, None), Contains(1, false), Contains(2, true),
        Contains(7, true), Contains(8, false), Contains(14, true), Contains(15, false),
        Runs(&[(2, 8), (10, 11), (13, 15)])]);
};

/// The highest positions, and a text.
pub static ROWS_2: [Row; 4] = rows! {
    ("test_add_then_remove_front_at_front_full", 32, &[Fill, Add(1, 3, false), AddThenRemove(1, 3, None),
        RunAt(0, Some((10, 13))), RunAt(31, Some((320, 323))), AddThenRemove(0, 3, Some(3)), RunAt(0, Some((7, 10))),
        RunAt(31, Some((317, 320))), Remove(0), Add(0, 320, true), Remove(320), Runs(&[])]);
    ("test_shrink_next_hole", 4, &[Add(100, 10, true), Add(50, 10, true), Add(40, 30, true),
        Text("[ (40) 30 (30) 10 ]"), Runs(&[(40, 70), (100, 110)])]);
    ("worked_30", 1, &[Add(18446744073709551613, 2, true), Add(0, 1, false), AddThenRemove(0, 1, Some(1)),
        Text("[ (18446744073709551612) 2 ]"), Fits(18446744073709551614, 1, true), Fits(18446744073709551614, 2, false),
        Runs(&[(18446744073709551612, 18446744073709551614)])]);
    ("text_1", 4, &[Add(4, 8, true), Text("[ (4) 8 ]")]);
};

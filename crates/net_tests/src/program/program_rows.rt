//! Rows of the program.
use crate::program::rows::Row;

/// Lines of rings.
pub static RINGS: [Row<'static>; 15] = rows! {
    ("a_ring_in_and_out", "ring 4", b"w 616263\nr 2\nw 646566\nr 9\nr 1\n",
        b"took 3\nread 6162\ntook 3\nread 63646566\nread -\n", "");
    ("a_full_ring_takes_a_part", "ring 4", b"w 616263\nw 646566\nr 9\n", b"took 3\ntook 1\nread 61626364\n", "");
    ("a_ring_of_no_bytes", "ring 0", b"w 61\nr 1\n", b"took 0\nread -\n", "");
    ("no_input", "ring 8", b"", b"", "");
    ("the_largest_ring", "ring 65536", b"w 61\nr 2\n", b"took 1\nread 61\n", "");
    ("test_buffer_dequeue_slice", "ring 12", b"w 6162636465666768696a6b6c\nr 8\nw 61626364\nr 8\nr 1\n",
        b"took 12\nread 6162636465666768\ntook 4\nread 696a6b6c61626364\nread -\n", "");
    ("upper_case_digits", "ring 8", b"w 4a4B\nr 2\n", b"took 2\nread 4a4b\n", "");
    ("no_bytes", "ring 8", b"w -\nr 0\nr 18446744073709551615\n", b"took 0\nread -\nread -\n", "");
    ("a_last_line_without_a_line_feed", "ring 8", b"w 6162", b"took 2\n", "");
    ("a_bad_command", "ring 8", b"w 61\nx 1\nw 62\n", b"took 1\n", "line 2: bad command");
    ("an_odd_digit_without_a_line_feed", "ring 8", b"w 61\nw 616", b"took 1\n", "line 2: bad command");
    ("an_empty_line", "ring 8", b"w 61\n\nr 1\n", b"took 1\n", "line 2: bad command");
    ("digits_of_both_cases", "ring 8", b"w -\nw aBcDeF09\nw Ff\nr 9", b"took 0\ntook 4\ntook 1\nread abcdef09ff\n", "");
    ("a_read_of_the_largest_ring", "ring 65536", b"r 1", b"read -\n", "");
    ("no_hex_digit", "ring 8", b"w 6G61", b"", "line 1: bad command");
};

/// Lines of assemblers.
pub static ASSEMBLERS: [Row<'static>; 12] = rows! {
    ("test_shrink_next_hole", "asm 4", b"a 100 10\na 50 10\na 40 30\np\n", b"ok\nok\nok\n[ (40) 30 (30) 10 ]\n", "");
    ("test_add_then_remove_front_at_front_touch", "asm 4", b"a 50 10\nt 0 50\np\nf\n", b"ok\nfront 60\n[ ]\nfront 0\n",
        "");
    ("test_add_then_remove_front_at_front_full", "asm 4", b"a 10 3\na 20 3\na 30 3\na 40 3\na 1 3\nt 1 3\nt 0 3\np\n",
        b"ok\nok\nok\nok\nrefused too many holes\nrefused too many holes\nfront 3\n[ (7) 3 (7) 3 (7) 3 (7) 3 ]\n", "");
    ("a_full_front_is_counted", "asm 4", b"a 0 2\na 10 1\na 20 1\na 30 1\nt 40 1\nt 40 0\np\n",
        b"ok\nok\nok\nok\nrefused too many holes\nfront 2\n[ (8) 1 (9) 1 (9) 1 ]\n", "");
    ("ranges_at_the_highest_positions", "asm 4",
        b"a 18446744073709551615 0\na 18446744073709551614 1\np\nt 0 18446744073709551615\np\n\
         a 18446744073709551615 1\n", b"ok\nok\n[ (18446744073709551614) 1 ]\nfront 18446744073709551615\n[ ]\n",
        "line 6: range too long");
    ("five_runs_of_thirty_two", "asm 32", b"a 10 3\na 20 3\na 30 3\na 40 3\na 1 3\np",
        b"ok\nok\nok\nok\nok\n[ (1) 3 (6) 3 (7) 3 (7) 3 (7) 3 ]\n", "");
    ("thirty_two_runs", "asm 32",
        b"a 10 3\na 20 3\na 30 3\na 40 3\na 50 3\na 60 3\na 70 3\na 80 3\na 90 3\na 100 3\na 110 3\na 120 3\na 130 3\n\
         a 140 3\na 150 3\na 160 3\na 170 3\na 180 3\na 190 3\na 200 3\na 210 3\na 220 3\na 230 3\na 240 3\na 250 3\n\
         a 260 3\na 270 3\na 280 3\na 290 3\na 300 3\na 310 3\na 320 3\na 1 3\nt 0 3\nf\na 0 320\np\nf\np\n",
        b"ok\nok\nok\nok\nok\nok\nok\nok\nok\nok\nok\nok\nok\nok\nok\nok\nok\nok\nok\nok\nok\nok\nok\nok\nok\nok\nok\n\
         ok\nok\nok\nok\nok\nrefused too many holes\nfront 3\nfront 0\nok\n[ 320 ]\nfront 320\n[ ]\n", "");
    ("a_number_beyond_the_greatest", "asm 4", b"f\na 18446744073709551616 1\n", b"front 0\n", "line 2: bad command");
    ("no_input_of_an_assembler", "asm 4", b"", b"", "");
    ("the_front_of_nothing", "asm 4", b"f\n", b"front 0\n", "");
    ("no_input_of_thirty_two_runs", "asm 32", b"", b"", "");
    ("an_empty_twelfth_line", "asm 4", b"f\nf\nf\nf\nf\nf\nf\nf\nf\nf\nf\n\nf\n",
        b"front 0\nfront 0\nfront 0\nfront 0\nfront 0\nfront 0\nfront 0\nfront 0\nfront 0\nfront 0\nfront 0\n",
        "line 12: bad command");
};

/// Lines of a stream.
pub static STREAMS: [Row<'static>; 16] = rows! {
    ("bytes_are_read_in_parts", "stream 16 4", b"s 0 68656c6c6f\nr 3\n?\n",
        b"kept 5 queued 5 sack -\nread 68656c\nnext 5 queued 2 window 14 held -\n", "");
    ("the_last_byte_of_each_position", "stream 16 4", b"s 2 4141\ns 3 4242\ns 0 4343\nr 5\n",
        b"kept 2 queued 0 sack 2-4\nkept 2 queued 0 sack 2-5\nkept 2 queued 5 sack -\nread 4343414242\n", "");
    ("queued_bytes_stay", "stream 16 4", b"s 0 6162\ns 0 78787a\nr 9\n",
        b"kept 2 queued 2 sack -\nkept 1 queued 1 sack -\nread 61627a\n", "");
    ("a_fifth_run_is_refused", "stream 64 4",
        b"s 10 010101\ns 20 020202\ns 30 030303\ns 40 040404\ns 50 01\ns 13 01\ns 0 616263\n?\n",
        b"kept 3 queued 0 sack 10-13\nkept 3 queued 0 sack 10-13,20-23\nkept 3 queued 0 sack 10-13,20-23,30-33\n\
         kept 3 queued 0 sack 10-13,20-23,30-33\nrefused too many holes\nkept 1 queued 0 sack 10-14,20-23,30-33\n\
         kept 3 queued 3 sack 10-14,20-23,30-33\nnext 3 queued 3 window 61 held 10-14,20-23,30-33,40-43\n", "");
    ("a_full_window", "stream 4 4", b"s 0 6162636465\ns 4 65\nr 2\ns 4 656667\nr 4\ns 8 6a\ns 6 6869\nr 9\n",
        b"kept 4 queued 4 sack -\nkept 0 queued 0 sack -\nread 6162\nkept 2 queued 2 sack -\nread 63646566\n\
         kept 1 queued 0 sack 8-9\nkept 2 queued 3 sack -\nread 68696a\n", "");
    ("a_segment_beyond_the_window", "stream 16 4", b"s 18446744073709551614 01\ns 18446744073709551614 0102\n",
        b"kept 0 queued 0 sack -\n", "line 2: range too long");
    ("runs_of_a_byte_up_to_the_windows_end", "stream 64 4",
        b"s 2 01\ns 4 01\ns 6 01\ns 8 01\ns 10 01\ns 62 01\ns 1 02\ns 0 03\ns 10 04\n?\n",
        b"kept 1 queued 0 sack 2-3\nkept 1 queued 0 sack 2-3,4-5\nkept 1 queued 0 sack 2-3,4-5,6-7\n\
         kept 1 queued 0 sack 2-3,4-5,6-7\nrefused too many holes\nrefused too many holes\n\
         kept 1 queued 0 sack 1-3,4-5,6-7\nkept 1 queued 3 sack 4-5,6-7,8-9\nkept 1 queued 0 sack 4-5,6-7,8-9\n\
         next 3 queued 3 window 61 held 4-5,6-7,8-9,10-11\n", "");
    ("segments_that_disagree", "stream 8 4", b"s 4 6161\ns 3 626262\ns 5 6363636363\ns 0 64646464\ns 0 7a\nr 8\n",
        b"kept 2 queued 0 sack 4-6\nkept 3 queued 0 sack 3-6\nkept 3 queued 0 sack 3-8\nkept 4 queued 8 sack -\n\
         kept 0 queued 0 sack -\nread 6464646462636363\n", "");
    ("no_storage", "stream 0 4", b"s 0 61\nr 1\n?\n",
        b"kept 0 queued 0 sack -\nread -\nnext 0 queued 0 window 0 held -\n", "");
    ("a_stream_that_begins_at_1000", "stream 8 4 1000", b"s 998 61626364\n?\ns 1004 78\ns 0 61\nr 9\n",
        b"kept 2 queued 2 sack -\nnext 1002 queued 2 window 6 held -\nkept 1 queued 0 sack 1004-1005\n\
         kept 0 queued 0 sack 1004-1005\nread 6364\n", "");
    ("a_stream_that_begins_below_the_last_position", "stream 8 4 18446744073709551614",
        b"s 18446744073709551614 61\n?\ns 18446744073709551615 -\ns 18446744073709551615 62\n",
        b"kept 1 queued 1 sack -\nnext 18446744073709551615 queued 1 window 7 held -\nkept 0 queued 0 sack -\n",
        "line 4: range too long");
    ("five_runs_are_held", "stream 65536 32", b"s 1 61\ns 3 61\ns 5 61\ns 7 61\ns 9 61\n",
        b"kept 1 queued 0 sack 1-2\nkept 1 queued 0 sack 1-2,3-4\nkept 1 queued 0 sack 1-2,3-4,5-6\n\
         kept 1 queued 0 sack 1-2,3-4,5-6\nkept 1 queued 0 sack 1-2,3-4,5-6\n", "");
    ("a_read_of_nothing", "stream 16 4", b"s 2 4141\nr 9\ns 0 4242\nr 9\n?\n",
        b"kept 2 queued 0 sack 2-4\nread -\nkept 2 queued 4 sack -\nread 42424141\nnext 4 queued 0 window 16 held -\n",
        "");
    ("a_read_of_an_empty_stream", "stream 8 4", b"r 1\n", b"read -\n", "");
    ("no_input_of_a_stream", "stream 8 32 5", b"", b"", "");
    ("a_bad_command_of_a_stream", "stream 8 4", b"q", b"", "line 1: bad command");
};

/// Lines of two streams.
pub static SCHEDULES: [Row<'static>; 13] = rows! {
    ("bytes_in_another_order", "stream 16 4", b"s 0 61\ns 1 62\ns 2 63\n--\ns 2 63\ns 0 6162\n",
        b"kept 1 queued 1 sack -\nkept 1 queued 1 sack -\nkept 1 queued 1 sack -\nkept 1 queued 0 sack 2-3\n\
         kept 2 queued 3 sack -\nsame\n", "");
    ("a_third_schedule", "stream 16 4", b"s 0 61\ns 1 62\ns 2 63\n--\ns 2 63\ns 0 6162\n--\n",
        b"kept 1 queued 1 sack -\nkept 1 queued 1 sack -\nkept 1 queued 1 sack -\nkept 1 queued 0 sack 2-3\n\
         kept 2 queued 3 sack -\n", "line 7: too many schedules");
    ("another_byte", "stream 16 4", b"s 0 6162\n--\ns 0 6163\n",
        b"kept 2 queued 2 sack -\nkept 2 queued 2 sack -\ndiffers\n", "");
    ("another_count_of_bytes_read", "stream 16 4", b"s 0 61\nr 1\n--\ns 0 61\n",
        b"kept 1 queued 1 sack -\nread 61\nkept 1 queued 1 sack -\ndiffers\n", "");
    ("another_byte_that_is_held", "stream 16 4", b"s 2 41\n--\ns 2 42\n",
        b"kept 1 queued 0 sack 2-3\nkept 1 queued 0 sack 2-3\nsame\n", "");
    ("two_fresh_receivers", "stream 16 4", b"--\n", b"same\n", "");
    ("a_bad_command_of_a_second_schedule", "stream 16 4", b"--\nq\n", b"", "line 2: bad command");
    ("a_second_schedule_without_lines", "stream 16 4", b"s 0 61\n--\n", b"kept 1 queued 1 sack -\ndiffers\n", "");
    ("a_bad_command_before_a_third_schedule", "stream 16 4", b"--\nq\n--\n", b"", "line 2: bad command");
    ("a_third_schedule_before_a_bad_command", "stream 16 4", b"--\n--\nq\n", b"", "line 2: too many schedules");
    ("two_schedules_that_begin_at_1000", "stream 8 4 1000", b"s 1000 61\n--\ns 1000 61\n",
        b"kept 1 queued 1 sack -\nkept 1 queued 1 sack -\nsame\n", "");
    ("a_full_second_schedule", "stream 4 4", b"--\ns 0 6162636465\n", b"kept 4 queued 4 sack -\ndiffers\n", "");
    ("a_third_schedule_of_thirty_two_runs", "stream 16 32 0", b"--\n--\n", b"", "line 2: too many schedules");
};

/// Lines that no mode has.
pub static NO_LINES: [Row<'static>; 28] = rows! {
    ("no_line", "ring 8", b"w 61\r\n", b"", "line 1: bad command");
    ("no_line", "ring 8", b"w  61\n", b"", "line 1: bad command");
    ("no_line", "ring 8", b" w 61\n", b"", "line 1: bad command");
    ("no_line", "ring 8", b"w 61 \n", b"", "line 1: bad command");
    ("no_line", "ring 8", b"w\n", b"", "line 1: bad command");
    ("no_line", "ring 8", b"w \n", b"", "line 1: bad command");
    ("no_line", "ring 8", b"w 6\n", b"", "line 1: bad command");
    ("no_line", "ring 8", b"w 6g\n", b"", "line 1: bad command");
    ("no_line", "ring 8", b"w\t61\n", b"", "line 1: bad command");
    ("no_line", "ring 8", b"r 18446744073709551616\n", b"", "line 1: bad command");
    ("no_line", "ring 8", b"r 01\n", b"", "line 1: bad command");
    ("no_line", "ring 8", b"r +1\n", b"", "line 1: bad command");
    ("no_line", "ring 8", b"r -\n", b"", "line 1: bad command");
    ("no_line", "ring 8", b"r 1 2\n", b"", "line 1: bad command");
    ("no_line", "asm 4", b"a 1\n", b"", "line 1: bad command");
    ("no_line", "asm 4", b"a 1 2 3\n", b"", "line 1: bad command");
    ("no_line", "asm 4", b"x 1 2\n", b"", "line 1: bad command");
    ("no_line", "asm 4", b"f 1\n", b"", "line 1: bad command");
    ("no_line", "asm 4", b"p 1\n", b"", "line 1: bad command");
    ("no_line", "asm 4", b"w 61\n", b"", "line 1: bad command");
    ("no_line", "stream 8 4", b"s 0\n", b"", "line 1: bad command");
    ("no_line", "stream 8 4", b"s 0 6\n", b"", "line 1: bad command");
    ("no_line", "stream 8 4", b"s 18446744073709551616 61\n", b"", "line 1: bad command");
    ("no_line", "stream 8 4", b"s 18446744073709551615 616\n", b"", "line 1: bad command");
    ("no_line", "stream 8 4", b"r -\n", b"", "line 1: bad command");
    ("no_line", "stream 8 4", b"? \n", b"", "line 1: bad command");
    ("no_line", "stream 8 4", b"---\n", b"", "line 1: bad command");
    ("no_line", "stream 8 4", b"a 0 1\n", b"", "line 1: bad command");
};

//! What the definitions say of some inputs, so that a wrong definition is noticed.
//!
//! Each function does nothing: its contract is the law.
ghost use Rattle.std.specs.Prelude.{◌≡◌, [], ◌∷◌, codes, Some, None, Ok};
ghost use Rattle.net_receiver.specs.ReceiverState.{Segment, SegmentReply, ShowReply};
ghost use Rattle.net_bench_lib.specs.Text.{words_of};
ghost use Rattle.net_bench_lib.specs.StreamMode.{ToReceiver, stream_command, reply_text, comparison};
ghost use Rattle.net_bench_lib.specs.Modes.{Ring, Asm, Stream, mode_of, output, fault};
ghost use Rattle.net_bench_lib.specs.declared.error.BenchError.{BenchError};

/// States what a ring's lines write, and which fault they have.
pub fn ring_lines()
    ensures took { output (Ring 4) (codes "w 616263\nr 2\nr 9")
        ≡ codes "took 3\nread 6162\nread 63\n" }
    ensures fault { fault (Ring 4) (codes "w 61\nx 1\nw 62\n") ≡ Some (BenchError.BadCommand 2) }
{}

/// States which fault an assembler's lines have.
pub fn asm_lines()
    ensures range { fault (Asm 4) (codes "p\na 18446744073709551615 1\n")
        ≡ Some (BenchError.RangeTooLong 2) }
    ensures command { fault (Asm 4) (codes "a 18446744073709551615 x\n")
        ≡ Some (BenchError.BadCommand 1) }
{}

/// States which words name mode `stream`, what its lines and replies say, and which fault they
/// have.
pub fn stream_lines()
    ensures words { mode_of (codes "stream" ∷ codes "8" ∷ codes "4" ∷ codes "1000" ∷ [])
        ≡ Some (Stream (record { first = 1000; capacity = 8; most_runs = 4 })) }
    ensures segment { stream_command (words_of (codes "s 7 6162"))
        ≡ Some (ToReceiver (Segment 7 (codes "ab"))) }
    ensures kept { let sack = Some (7, 9) ∷ Some (12, 13) ∷ None ∷ [] in
        reply_text (SegmentReply (Ok (record { kept = 2; queued = 0; sack = sack })))
        ≡ codes "kept 2 queued 0 sack 7-9,12-13\n" }
    ensures shown { reply_text (ShowReply 3 2 61 []) ≡ codes "next 3 queued 2 window 61 held -\n" }
    ensures same { comparison
        (record { read = 1; next = 3; queue = codes "bc"; held = (5, 7) ∷ [] })
        (record { read = 1; next = 3; queue = codes "bc"; held = (5, 7) ∷ [] })
        ≡ codes "same\n" }
    ensures differs { comparison
        (record { read = 1; next = 3; queue = codes "bc"; held = (5, 7) ∷ [] })
        (record { read = 1; next = 3; queue = codes "bc"; held = (5, 8) ∷ [] })
        ≡ codes "differs\n" }
    ensures second { fault (Stream (record { first = 0; capacity = 8; most_runs = 4 }))
        (codes "--\n--\nx\n")
        ≡ Some (BenchError.TooManySchedules 2) }
{}

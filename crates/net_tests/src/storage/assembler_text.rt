//! What no clause says of the text of an assembler: where a write fails, it ends.
use crate::assertions::assert_holds;
use net_assembler::Assembler;
use net_ring::laws::is_usize;
use std::fmt::{self, Write};

/// Takes `left` more writes, and refuses those after them.
#[derive(Drop)]
struct FewWrites {
    left: usize,
    refused: usize,
}

impl fmt::Write for FewWrites {
    fn write_str(&mut self, _: &str) -> fmt::Result {
        if self.left == 0 {
            self.refused = self.refused.saturating_add(1);
            return Err(fmt::Error);
        }
        self.left -= 1;
        Ok(())
    }
}

/// Returns how many writes are refused where `left` are taken, and whether the text says that it failed.
fn refusals(assembler: &Assembler<4>, left: usize) -> (usize, bool) {
    let mut text = FewWrites { left, refused: 0 };
    let has_failed = write!(text, "{assembler}").is_err();
    (text.refused, has_failed)
}

/// Returns whether two runs were added, each after a hole.
fn adds_two(assembler: &mut Assembler<4>) -> bool {
    is_usize(8);
    assembler.add(3, 2).is_ok() && assembler.add(7, 1).is_ok()
}

#[test]
fn a_text_ends_at_the_first_write_that_fails(rt: HostRuntime) {
    let mut assembler = Assembler::<4>::new();
    assert_holds(&rt, adds_two(&mut assembler), ("added", 2));
    for left in 0..8 {
        assert_holds(
            &rt,
            refusals(&assembler, left) == (1, true),
            ("refused", left),
        );
    }
    assert_holds(&rt, refusals(&assembler, 100) == (0, false), ("taken", 100));
}

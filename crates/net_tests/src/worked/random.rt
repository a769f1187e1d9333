//! Rows of generators.
use crate::assertions::assert_holds;
use net_base::rand::Rand;

/// A draw, and what it gives.
#[derive(Clone, Copy, Drop)]
enum Draw {
    Word(u32),
    Short(u16),
    Port(u16),
}

use Draw::{Port, Short, Word};

/// A name, a seed and draws.
type Row = (&'static str, u64, &'static [Draw]);

static ROWS: [Row; 7] = [
    ("words_of_seed_0", 0, &[Word(3), Word(0xfdec_f8a2)]),
    ("a_word_of_seed_1", 1, &[Word(788_327_601)]),
    ("draws_of_seed_0", 0, &[Short(3), Short(1358)]),
    ("a_draw_of_seed_1", 1, &[Short(49741)]),
    ("a_draw_and_a_word", 0, &[Short(3), Word(4_260_165_794)]),
    ("a_port_is_the_second_draw", 0, &[Port(1358)]),
    ("a_port_is_the_first_draw", 1, &[Port(49741)]),
];

/// Returns whether a draw gives what it must give.
fn gives(random: &mut Rand, draw: &Draw) -> bool {
    match draw {
        Word(word) => random.rand_u32() == *word,
        Short(short) => random.rand_u16() == *short,
        Port(port) => random.rand_source_port() == *port,
    }
}

/// Returns whether each draw after a seed gives what it must give.
fn is_row(seed: u64, draws: &[Draw]) -> bool {
    let mut random = Rand::new(seed);
    for draw in draws {
        if !gives(&mut random, draw) {
            return false;
        }
    }
    true
}

#[test]
fn numbers_are_drawn(rt: HostRuntime) {
    for (name, seed, draws) in &ROWS {
        assert_holds(&rt, is_row(*seed, draws), (name, 0));
    }
}

/// Returns the next word after the port of seed 0.
fn after_the_port() -> u32 {
    let mut random = Rand::new(0);
    let _port = random.rand_source_port();
    random.rand_u32()
}

/// Returns the next word after two draws of seed 0.
fn after_two_draws() -> u32 {
    let mut random = Rand::new(0);
    let _first = random.rand_u16();
    let _second = random.rand_u16();
    random.rand_u32()
}

#[test]
fn the_word_after_a_port(rt: HostRuntime) {
    let is_same = after_the_port() == after_two_draws();
    assert_holds(&rt, is_same, ("the_word_after_a_port", 0));
}

//! A random number generator for source ports and tests, not for secrets.
//!
//! The generator is the one of smoltcp's `rand.rs`, which names it sPCG32, with the same constants:
//! a linear congruential state of 64 bits, whose random word is the state shifted right by an amount
//! that its top three bits choose, after the family of generators PCG of M. E. O'Neill.

ghost use Rattle.std.specs.Prelude.{◌≡◌, ◌<◌, ◌*◌, ◌/◌, ◌^◌, ℕ};
ghost use Rattle.net_base.specs.Generator.{successor, random_word, draw, IsPort};

use std::marker::Model;

pub mod laws;

/// The last of the reserved ports.
const LAST_RESERVED_PORT: u16 = 1024;

/// A generator of random words.
///
/// It serves for source ports and tests, not for secrets: anyone who knows one state knows all that
/// follow.
///
/// ```
/// use net_base::rand::Rand;
///
/// let mut rand = Rand::new(1);
/// assert_eq!(rand.rand_u32(), 0x2efcecb1);
/// assert!(rand.rand_source_port() > 1024);
/// ```
#[derive(Debug, Drop)]
pub struct Rand {
    state: u64,
}

/// Contracts see its state, a number below 2^64.
impl Model for Rand {
    ghost Value = { ℕ };

    ghost view = { λ r. r.state };
}

impl Rand {
    /// The number that a step multiplies the state by.
    const MULTIPLIER: u64 = 0xbb2efcec3c39611d;

    /// The number that a step then adds.
    const INCREMENT: u64 = 0x7590ef39;

    /// Returns a generator whose state is the seed. Any seed is allowed.
    ///
    /// ```
    /// # use net_base::rand::Rand;
    /// assert_eq!(Rand::new(7).rand_u32(), Rand::new(7).rand_u32());
    /// ```
    #[must_use]
    pub const fn new(seed: u64) -> Rand
        ensures { result ≡ seed }
    {
        Rand { state: seed }
    }

    /// Returns the state. `Rand::new` of it continues where this generator is. (Not in smoltcp.)
    ///
    /// ```
    /// # use net_base::rand::Rand;
    /// let mut rand = Rand::new(7);
    /// let seed = rand.rand_u32();
    /// assert_ne!(rand.state(), u64::from(seed));
    /// assert_eq!(Rand::new(rand.state()).rand_u32(), rand.rand_u32());
    /// ```
    #[must_use]
    pub fn state(&self) -> u64
        ensures { result ≡ self.now }
    {
        self.state
    }

    /// Steps to the next state, and returns the random word of that state.
    ///
    /// ```
    /// # use net_base::rand::Rand;
    /// assert_eq!(Rand::new(0).rand_u32(), 0x3);
    /// ```
    pub fn rand_u32(&mut self) -> u32
        ensures state { self.new ≡ successor self.old }
        ensures value { result ≡ random_word self.new }
    {
        let state = self
            .state
            .wrapping_mul(Self::MULTIPLIER)
            .wrapping_add(Self::INCREMENT);
        self.state = state;
        let shift = 29 - (state >> 61);
        ((state >> shift) & 0xffff_ffff) as u32
    }

    /// Draws a random word, and returns its two halves combined by exclusive or.
    ///
    /// ```
    /// # use net_base::rand::Rand;
    /// assert_eq!(Rand::new(0).rand_u16(), 0x3);
    /// ```
    pub fn rand_u16(&mut self) -> u16
        ensures state { self.new ≡ successor self.old }
        ensures value { result ≡ draw self.new }
    {
        let n = self.rand_u32();
        ((n ^ (n >> 16)) & 0xffff) as u16
    }

    /// Draws a random word, and returns it times `bound`, divided by 2^32: a number below `bound`,
    /// or 0 if `bound` is 0. Each number is the result of equally many words, or of one more. (Not
    /// in smoltcp.)
    ///
    /// ```
    /// # use net_base::rand::Rand;
    /// assert_eq!(Rand::new(1).below(1_000), 183);
    /// ```
    pub fn below(&mut self, bound: u32) -> u32
        ensures state { self.new ≡ successor self.old }
        // Guarantee.
        ensures value { result ≡ random_word self.new * bound / 2 ^ 32 }
        ensures below { 0 < bound → result < bound }
    {
        let word = u64::from(self.rand_u32());
        (word * u64::from(bound) >> 32) as u32
    }

    /// Returns a random port above 1024: it draws 16 bits until they are.
    ///
    /// It needs at most 2^64 draws: each state leads to every other, so also to one whose draw is
    /// above 1024.
    ///
    /// ```
    /// # use net_base::rand::Rand;
    /// assert_eq!(Rand::new(0).rand_source_port(), 1_358);
    /// ```
    pub fn rand_source_port(&mut self) -> u16
        ensures { IsPort self.old result self.new }
    {
        loop {
            let port = self.rand_u16();
            if port > LAST_RESERVED_PORT {
                return port;
            }
        }
    }
}

//! The trait of a mode: a state that lines change.
ghost use Rattle.std.specs.Prelude.{◌≡◌, List, ℕ, [], Ok, OnOk, IfErr, string_bytes};
ghost use Rattle.net_bench_lib.specs.Text.{words_of};
ghost use Rattle.net_bench_lib.specs.Transcript.{Rules};
ghost use Rattle.net_bench_lib.specs.Refusal.{IsRefusalOf};

use crate::fault::Refusal;
use std::alloc::Allocator;

/// The state of a mode, whose replies are in memory of `A`.
pub trait Session<A: Allocator + Copy> {
    /// The effect of a line's words on the state, and the reply, or the line's fault.
    ghost rules: { Rules Self };

    /// The text after the last line.
    ghost closing: { Self → List ℕ };

    /// Executes a line of at most 4,096 bytes, and makes its reply, in an empty text. After an error
    /// the session is over, and the text is no reply.
    fn apply_line(&mut self, alloc: A, line: &[u8], reply: &mut String<A>) -> Result<(), Refusal>
        requires { string_bytes reply.old ≡ [] }
        ensures ok { OnOk result
            (rules self.old (words_of line.now) ≡ Ok (self.new, string_bytes reply.new)) }
        ensures err { IfErr result (λ e. IsRefusalOf e (rules self.old (words_of line.now))) };

    /// Returns the text after the last line.
    fn closing_text(&self) -> &'static str
        ensures { result.now ≡ closing self.now };
}

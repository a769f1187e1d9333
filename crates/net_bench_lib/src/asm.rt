//! Mode `asm`: ranges are added to a set of positions, and its front is removed.
ghost use Rattle.std.specs.Prelude.{◌≡◌, [], ◌≤◌, OnOk, IfErr, Ok, string_bytes};
ghost use Rattle.net_assembler.specs.Positions.{nothing};
ghost use Rattle.net_bench_lib.specs.Numeral.{number_of};
ghost use Rattle.net_bench_lib.specs.Text.{words_of};
ghost use Rattle.net_bench_lib.specs.Refusal.{IsRefusalOf};
ghost use Rattle.net_bench_lib.specs.AsmMode.{asm_rules, asm_line, range_of, asm_does};
ghost use Rattle.net_bench_lib.specs.declared.asm.AsmLine.TheVariants.{Add, AddThenRemoveFront, RemoveFront, Print};

use crate::fault::{Fault, Refusal};
use crate::numeral::number;
use crate::session::Session;
use crate::words;
use crate::words::Words;
use net_assembler::Assembler;
use std::alloc::Allocator;
use std::marker::Model;

/// The reply to a range that the assembler refuses.
const REFUSED: &str = "refused too many holes\n";

/// A line of the mode.
#[derive(Drop)]
pub enum AsmLine {
    /// `a NUM NUM`: the range of this offset and size is added.
    Add(usize, usize),
    /// `t NUM NUM`: the range is added, and then the front is removed.
    AddThenRemoveFront(usize, usize),
    /// `f`: the front is removed.
    RemoveFront,
    /// `p`: the runs are shown.
    Print,
}

/// An assembler that lines add ranges to.
#[derive(Drop)]
pub struct AsmSession<const N: usize> {
    assembler: Assembler<N>,
}

impl<const N: usize> Model for AsmSession<N> {
    ghost use Rattle.std.specs.Coded.{coded_ℕ};
    ghost use Rattle.std.specs.FinSet as set;
    ghost use Rattle.net_assembler.specs.Positions.{Positions};

    ghost Value = { Positions };

    ghost coded = { set.code coded_ℕ };

    ghost view = { λ s. s.assembler };
}

/// Returns the offset and the size of the range that two words name, if both are numbers.
fn range(offset: &[u8], size: &[u8]) -> Option<(usize, usize)>
    ensures { result ≡ range_of (number_of offset.now) (number_of size.now) }
{
    let offset = number(offset)?;
    let size = number(size)?;
    Some((offset as usize, size as usize))
}

/// Returns the meaning of a line, if it is one of the mode's.
fn asm_line(line: &[u8]) -> Option<AsmLine>
    ensures { result ≡ asm_line (words_of line.now) }
{
    match words::split_words(line) {
        Words::One(verb) => {
            if verb == b"f".as_slice() {
                return Some(AsmLine::RemoveFront);
            }
            if verb == b"p".as_slice() {
                return Some(AsmLine::Print);
            }
            None
        }
        Words::Three(verb, offset, size) => {
            if verb == b"a".as_slice() {
                let (offset, size) = range(offset, size)?;
                return Some(AsmLine::Add(offset, size));
            }
            if verb == b"t".as_slice() {
                let (offset, size) = range(offset, size)?;
                return Some(AsmLine::AddThenRemoveFront(offset, size));
            }
            None
        }
        Words::Two(_, _) | Words::More => None,
    }
}

impl<const N: usize> AsmSession<N> {
    /// Returns a session with the empty set.
    pub fn new() -> AsmSession<N>
        requires { 1 ≤ N }
        ensures { result ≡ nothing }
    {
        AsmSession {
            assembler: Assembler::new(),
        }
    }

    /// Adds a range, or finds that it is too long.
    fn add<A: Allocator + Copy>(
        &mut self,
        offset: usize,
        size: usize,
        reply: &mut String<A>,
    ) -> Result<(), Refusal>
        requires { string_bytes reply.old ≡ [] }
        ensures ok { OnOk result
            (asm_does N self.old (Add offset size) ≡ Ok (self.new, string_bytes reply.new)) }
        ensures err { IfErr result (λ e. IsRefusalOf e (asm_does N self.old (Add offset size))) }
    {
        if !Assembler::<N>::fits(offset, size) {
            return Err(Refusal::Fault(Fault::RangeTooLong));
        }
        match self.assembler.add(offset, size) {
            Ok(()) => reply.push_str("ok\n")?,
            Err(_) => reply.push_str(REFUSED)?,
        }
        Ok(())
    }

    /// Adds a range and removes the front then, or finds that the range is too long.
    fn add_then_remove_front<A: Allocator + Copy>(
        &mut self,
        offset: usize,
        size: usize,
        reply: &mut String<A>,
    ) -> Result<(), Refusal>
        requires { string_bytes reply.old ≡ [] }
        ensures ok { OnOk result (asm_does N self.old (AddThenRemoveFront offset size)
            ≡ Ok (self.new, string_bytes reply.new)) }
        ensures err { IfErr result (λ e.
            IsRefusalOf e (asm_does N self.old (AddThenRemoveFront offset size))) }
    {
        if !Assembler::<N>::fits(offset, size) {
            return Err(Refusal::Fault(Fault::RangeTooLong));
        }
        match self.assembler.add_then_remove_front(offset, size) {
            Ok(front) => write!(reply, "front {front}\n")?,
            Err(_) => reply.push_str(REFUSED)?,
        }
        Ok(())
    }

    /// Removes the front.
    fn remove_front<A: Allocator + Copy>(&mut self, reply: &mut String<A>) -> Result<(), Refusal>
        requires { string_bytes reply.old ≡ [] }
        ensures ok { OnOk result
            (asm_does N self.old RemoveFront ≡ Ok (self.new, string_bytes reply.new)) }
        ensures err { IfErr result (λ e. IsRefusalOf e (asm_does N self.old RemoveFront)) }
    {
        let front = self.assembler.remove_front();
        write!(reply, "front {front}\n")?;
        Ok(())
    }

    /// Shows the runs.
    fn print<A: Allocator + Copy>(&self, reply: &mut String<A>) -> Result<(), Refusal>
        requires { string_bytes reply.old ≡ [] }
        ensures ok { OnOk result
            (asm_does N self.now Print ≡ Ok (self.now, string_bytes reply.new)) }
        ensures err { IfErr result (λ e. IsRefusalOf e (asm_does N self.now Print)) }
    {
        let assembler = &self.assembler;
        write!(reply, "{assembler}\n")?;
        Ok(())
    }
}

impl<A: Allocator + Copy, const N: usize> Session<A> for AsmSession<N> {
    ghost rules = { asm_rules N };

    ghost closing = { λ _. [] };

    fn apply_line(&mut self, _alloc: A, line: &[u8], reply: &mut String<A>) -> Result<(), Refusal> {
        match asm_line(line) {
            Some(AsmLine::Add(offset, size)) => self.add(offset, size, reply),
            Some(AsmLine::AddThenRemoveFront(offset, size)) => {
                self.add_then_remove_front(offset, size, reply)
            }
            Some(AsmLine::RemoveFront) => self.remove_front(reply),
            Some(AsmLine::Print) => self.print(reply),
            None => Err(Refusal::Fault(Fault::BadCommand)),
        }
    }

    fn closing_text(&self) -> &'static str {
        ""
    }
}

//! Ranges of bytes that come in any order.
ghost use Rattle.std.specs.Prelude.{◌≡◌, ◌↔◌, OnOk, OnErr, IfOk, IsErr};
ghost use Rattle.net_assembler.specs.Assembler.{MakesTooManyRuns};
ghost use Rattle.net_assembler.specs.Positions.{RangeFits, front, with_range};

use net_assembler::{Assembler, TooManyHolesError};

/// Adds the range of the bytes that arrived, and returns the front: how many bytes are complete
/// from position 0 on. It is refused exactly if that would make more than `N` runs.
pub fn came<const N: usize>(
    assembler: &mut Assembler<N>,
    offset: usize,
    size: usize,
) -> Result<usize, TooManyHolesError>
    requires { RangeFits offset size }
    ensures refused { IsErr result ↔ MakesTooManyRuns N assembler.old offset size }
    ensures ok { OnOk result (assembler.new ≡ with_range assembler.old offset size) }
    ensures front { IfOk result (λ count. count ≡ front assembler.new) }
    ensures unchanged { OnErr result (assembler.new ≡ assembler.old) }
{
    assembler.add(offset, size)?;
    Ok(assembler.peek_front())
}

//! Writing a text whole.
ghost use Rattle.std.specs.Prelude.{◌≡◌, OnOk, IfErr};
ghost use Rattle.std.specs.Io.KnownBytes.{Appends};
ghost use Rattle.net_bench_lib.specs.Writer.{AppendsPrefix};
ghost use Rattle.net_bench_lib.specs.declared.error.BenchError.{BenchError};

use crate::error::BenchError;
use std::io::Write;

/// Writes all of the text. A write that returns an error or takes no byte ends it: then a prefix of
/// the text was written.
///
/// std's `write_all` tries an interrupted write again, and doesn't say what was written before an
/// error; here nothing is tried again.
pub fn write_text<W: Write>(writer: &mut W, text: &[u8]) -> Result<(), BenchError>
    ensures ok { OnOk result (Appends (W.contents writer.old) (W.contents writer.new) text.now) }
    ensures err { IfErr result (λ e. (e ≡ BenchError.WriteFailed)
        × AppendsPrefix (W.contents writer.old) (W.contents writer.new) text.now) }
{
    let mut written = 0;
    while written < text.len() {
        match writer.write(&text[written..]) {
            Ok(0) | Err(_) => return Err(BenchError::WriteFailed),
            Ok(count) => written += count,
        }
    }
    Ok(())
}

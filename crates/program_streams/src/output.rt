//! The bytes of the output.
ghost use Rattle.std.specs.Prelude.{◌≡◌, IfErr, OnOk, OnErr};
ghost use Rattle.std.specs.Io.KnownBytes.{Appends};
ghost use Rattle.statement.specs.Output.{AppendsFront};

use crate::fault::RunFault;
use kif::write_bytes;
use program_searches::Flushing;
use std::io::Write;

/// Writes all the bytes and flushes the writer. Where the writer fails it holds a beginning of them.
pub fn write_out<W: Write>(output: &mut W, bytes: &[u8]) -> Result<(), RunFault>
    ensures whole { OnOk result (Appends (W.contents output.old) (W.contents output.new) bytes.now) }
    ensures front { OnErr result (AppendsFront (W.contents output.old) (W.contents output.new) bytes.now) }
    ensures fault { IfErr result (λ fault. fault ≡ RunFault.Write) }
{
    write_and_flush(output, bytes)
}

/// Writes all the bytes, and flushes the writer behind them.
fn write_and_flush<W: Flushing>(output: &mut W, bytes: &[u8]) -> Result<(), RunFault>
    ensures whole { OnOk result (Appends (W.contents output.old) (W.contents output.new) bytes.now) }
    ensures front { OnErr result (AppendsFront (W.contents output.old) (W.contents output.new) bytes.now) }
    ensures fault { IfErr result (λ fault. fault ≡ RunFault.Write) }
    ensures flushed { OnOk result (W.is_flushed output.new) }
{
    if write_bytes(output, bytes).is_err() || output.flush_all().is_err() {
        return Err(RunFault::Write);
    }
    Ok(())
}

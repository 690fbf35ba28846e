//! The exit status, and what is told to the errors.
ghost use Rattle.std.specs.Prelude.{◌≡◌};
ghost use Rattle.statement.specs.Output.{AppendsFront};
ghost use Rattle.program_streams.specs.Exits.{exit_status, AreErrorsTold};

use crate::fault::RunFault;
use kif::write_bytes;
use statement::Status;
use std::io::Write;

/// The exit status of an answer.
const ANSWERED: u8 = 0;

/// The exit status of a refusal.
const REFUSED: u8 = 2;

/// The exit status of want of memory.
const STARVED: u8 = 3;

/// The exit status of a reader or a writer that failed.
const BROKEN: u8 = 4;

/// Writes a text to the errors. A fault in writing it is passed over.
pub fn tell<E: Write>(errors: &mut E, text: &[u8])
    ensures { AppendsFront (E.contents errors.old) (E.contents errors.new) text.now }
{
    let _ = write_bytes(errors, text);
}

/// The exit status of a run, whose fault is told to the errors: 0 for an answer, 2 for a refusal, 3 for want of memory, 4 where the input or the
/// output failed. A fault in writing to the errors is passed over.
pub fn status_of<E: Write>(ended: Result<Status, RunFault>, errors: &mut E) -> u8
    ensures status { result ≡ exit_status ended }
    ensures told { AreErrorsTold ended (E.contents errors.old) (E.contents errors.new) }
{
    match ended {
        Ok(Status::Answer) => ANSWERED,
        Ok(Status::Refused) => REFUSED,
        Err(fault) => {
            tell(errors, fault.line());
            match fault {
                RunFault::Memory => STARVED,
                RunFault::Read | RunFault::Write => BROKEN,
            }
        }
    }
}

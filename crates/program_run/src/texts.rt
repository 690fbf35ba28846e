//! Texts that are told where no command is run.
ghost use Rattle.std.specs.Prelude.{◌≡◌, None};
ghost use Rattle.std.specs.Io.KnownBytes.{Keeps};
ghost use Rattle.statement.specs.Output.{AppendsFront};
ghost use Rattle.program_streams.specs.Streams.{streams};
ghost use Rattle.program_run.specs.Commands.{HasShown};

use program_streams::{RunFault, status_of, tell, write_out};
use std::io::Write;

/// The exit status of help.
const ANSWERED: u8 = 0;

/// The exit status of words that are no command.
const MISUSED: u8 = 1;

/// Writes a text of help, and answers the exit status: 0, or 4 where the output failed.
pub fn show_help<W: Write, E: Write>(text: &str, output: &mut W, errors: &mut E) -> u8
    ensures { HasShown text.now result
        (streams None (W.contents output.old) (E.contents errors.old))
        (streams None (W.contents output.new) (E.contents errors.new)) }
{
    let Ok(()) = write_out(output, text.as_bytes()) else {
        return status_of(Err(RunFault::Write), errors);
    };
    ANSWERED
}

/// Tells the errors what is wrong with words, and answers the exit status, which is 1. A fault in writing it is passed over.
pub fn tell_misuse<E: Write>(text: &str, errors: &mut E) -> u8
    ensures status { result ≡ 1 }
    ensures told { AppendsFront (E.contents errors.old) (E.contents errors.new) text.now }
{
    tell(errors, text.as_bytes());
    MISUSED
}

//! The run of the command, from the bytes of the input to those of the output.
ghost use Rattle.std.specs.Prelude.{◌≤◌};
ghost use Rattle.program_streams.specs.Streams.{streams};
ghost use Rattle.program_unroll.specs.Unrolled.{IsUnrollRun};

use crate::told::{unroll_read, write_told};
use program_streams::status_of;
use std::alloc::AllocGlobal;
use std::io::{Read, Write};
use unroll::Bounds;

/// Runs `unroll`: reads the whole input, writes what is told of it and nothing else, tells the errors what explains a refusal, and answers
/// the exit status.
pub fn run_unroll<T: AllocGlobal, R: Read, W: Write, E: Write>(
    rt: &T,
    input: &mut R,
    output: &mut W,
    errors: &mut E,
    bounds: Bounds,
) -> u8
    ensures run { IsUnrollRun bounds result
        (streams (R.remaining input.old) (W.contents output.old) (E.contents errors.old))
        (streams (R.remaining input.new) (W.contents output.new) (E.contents errors.new)) }
    ensures statuses { result ≤ 4 }
{
    match unroll_read(rt, input, bounds) {
        Ok(told) => write_told(rt.alloc(), &told, bounds, output, errors),
        Err(fault) => status_of(Err(fault), errors),
    }
}

//! A command over a description as it is found, which is written out first.
ghost use Rattle.std.specs.Prelude.{◌≤◌};
ghost use Rattle.program_streams.specs.Streams.{streams};
ghost use Rattle.program_session.specs.Found.{IsFoundRun};

use program_run::run_explained;
use program_streams::status_of;
use program_unroll::{unroll_read, write_told};
use program_words::Command;
use statement::Status;
use std::io::{Read, Write};
use std::thread::Threads;
use unroll::Bounds;

/// Reads a description as it is found, in the whole language, and runs a command over what is written for it: what is told is what the
/// command tells where the input is that text. Where none is written the line that names why is told and explained, as by `run_unroll`. It answers the
/// exit status.
pub fn run_found<T: Threads + Sync + AllocGlobal, R: Read, W: Write, E: Write>(
    rt: &T,
    command: &Command,
    input: &mut R,
    output: &mut W,
    errors: &mut E,
    bounds: Bounds,
) -> u8
    ensures run { IsFoundRun bounds command.now result
        (streams (R.remaining input.old) (W.contents output.old) (E.contents errors.old))
        (streams (R.remaining input.new) (W.contents output.new) (E.contents errors.new)) }
    ensures statuses { result ≤ 4 }
{
    let told = match unroll_read(rt, input, bounds) {
        Ok(told) => told,
        Err(fault) => return status_of(Err(fault), errors),
    };
    match told.reply.status {
        Status::Answer => {
            let mut written = told.reply.output.as_slice();
            run_explained(rt, command, &mut written, output, errors)
        }
        Status::Refused => write_told(rt.alloc(), &told, bounds, output, errors),
    }
}

//! The command `lint`: what is lawful in rules and most likely wrong.
ghost use Rattle.std.specs.Prelude.{◌≡◌, ◌≢◌, ℕ, List, IfOk, IfErr, Ok};
ghost use Rattle.std.specs.Io.KnownBytes.{Appends, Keeps};
ghost use Rattle.statement.specs.Output.{AppendsFront};
ghost use Rattle.statement.specs.Answers.{Reply};
ghost use Rattle.program_searches.specs.Replies.{reply_of};
ghost use Rattle.program_streams.specs.Input.{IsReadFrom};
ghost use Rattle.program_run.specs.Ran.{ended_of};
ghost use Rattle.program_streams.specs.MoreTold.{TellsMore};
ghost use Rattle.program_streams.specs.Streams.{streams};
ghost use Rattle.program_run.specs.Linted.{IsLintReply, IsLintRun};

use crate::explained::explain_ran;
use crate::reporting::lint_reply;
use crate::runs::{Ran, ended};
use program_streams::{RunFault, read_input, status_of, write_out};
use program_words::Command;
use statement::Status;
use std::io::{Read, Write};
use std::thread::Threads;

/// Reads the rules, writes the findings in them and nothing else, and keeps both.
fn lint_keeping<T: AllocGlobal, R: Read, W: Write>(
    rt: &T,
    input: &mut R,
    output: &mut W,
) -> Result<Ran, RunFault>
    ensures answers { IfOk result (λ ran. IsReadFrom (R.remaining input.old) (R.remaining input.new) ran.bytes.items
        × IsLintReply ran.bytes.items (reply_of ran.reply)
        × Appends (W.contents output.old) (W.contents output.new) ran.reply.output.items) }
    ensures silent { IfErr result (λ fault. fault ≢ RunFault.Write → Keeps (W.contents output.old) (W.contents output.new)) }
    ensures broken { IfErr result (λ fault. fault ≡ RunFault.Write → (bytes : List ℕ) × (reply : Reply)
        × IsReadFrom (R.remaining input.old) (R.remaining input.new) bytes × IsLintReply bytes reply
        × AppendsFront (W.contents output.old) (W.contents output.new) reply.output) }
{
    let bytes = read_input(rt.alloc(), input)?;
    let Ok(reply) = lint_reply(rt, &bytes) else {
        return Err(RunFault::Memory);
    };
    write_out(output, &reply.output)?;
    Ok(Ran {
        bytes,
        reply,
        sizes: None,
    })
}

/// Whether a run ended with a refusal of `check`, and not with findings.
fn is_refused(ran: &Result<Ran, RunFault>) -> bool {
    match ran {
        Ok(ran) => ran.reply.output.get(..8) == Some(b"refused ".as_slice()),
        Err(_) => false,
    }
}

/// Tells the errors what explains a refusal of `check`. Findings explain themselves.
fn explain_lint<T: Threads + Sync + AllocGlobal, E: Write>(
    rt: &T,
    ran: &Result<Ran, RunFault>,
    errors: &mut E,
)
    ensures { TellsMore (ended_of ran.now ≡ Ok Status.Refused) (E.contents errors.old) (E.contents errors.new) }
{
    if !is_refused(ran) {
        return;
    }
    explain_ran(rt, &Command::Check, ran, errors);
}

/// Runs `lint`, and tells the errors what explains a refusal.
pub fn run_lint<T: Threads + Sync + AllocGlobal, R: Read, W: Write, E: Write>(
    rt: &T,
    input: &mut R,
    output: &mut W,
    errors: &mut E,
) -> u8
    ensures { IsLintRun result
        (streams (R.remaining input.old) (W.contents output.old) (E.contents errors.old))
        (streams (R.remaining input.new) (W.contents output.new) (E.contents errors.new)) }
{
    let ran = lint_keeping(rt, input, output);
    let status = status_of(ended(&ran), errors);
    explain_lint(rt, &ran, errors);
    status
}

//! Runs with explanations: behind what the errors are told of a refusal stands why, and an answer to rules that are most likely not meant
//! so has a warning.
ghost use Rattle.std.specs.Prelude.{◌≡◌, Ok};
ghost use Rattle.program_streams.specs.Streams.{streams};
ghost use Rattle.program_run.specs.Ran.{ended_of};
ghost use Rattle.program_run.specs.Explained.{IsRunExplained, IsReplied};
ghost use Rattle.program_streams.specs.MoreTold.{TellsMore};

use crate::runs::{Ran, ended, run};
use crate::warning::warnings;
use diagnose_refusals::explanation;
use game_rules::RuleGame;
use program_streams::{RunFault, status_of, tell};
use program_words::Command;
use statement::Status;
use std::alloc::Global;
use std::io::{Read, Write};
use std::thread::Threads;

/// Tells the errors what explains a reply, if it is a refusal and there is memory for it.
pub(crate) fn explain_ran<T: Threads + Sync + AllocGlobal, E: Write>(
    rt: &T,
    command: &Command,
    ran: &Result<Ran, RunFault>,
    errors: &mut E,
)
    ensures { TellsMore (ended_of ran.now ≡ Ok Status.Refused) (E.contents errors.old) (E.contents errors.new) }
{
    let Ok(ran) = ran else {
        return;
    };
    let Status::Refused = ran.reply.status else {
        return;
    };
    let Ok(text) = explanation::<RuleGame, T>(rt, command, &ran.bytes, &ran.reply.output) else {
        return;
    };
    tell(errors, &text);
}

/// Tells the errors what warns of an answer, if there is anything and memory for it.
fn warn_ran<E: Write>(alloc: Global, ran: &Result<Ran, RunFault>, errors: &mut E)
    ensures { TellsMore (ended_of ran.now ≡ Ok Status.Answer) (E.contents errors.old) (E.contents errors.new) }
{
    let Ok(ran) = ran else {
        return;
    };
    let Status::Answer = ran.reply.status else {
        return;
    };
    let Some(sizes) = &ran.sizes else {
        return;
    };
    let Ok(text) = warnings(alloc, &ran.bytes, sizes) else {
        return;
    };
    tell(errors, &text);
}

/// Whether a run ended with a refusal.
fn is_refused(ran: &Result<Ran, RunFault>) -> bool {
    match ran {
        Ok(ran) => matches!(ran.reply.status, Status::Refused),
        Err(_) => false,
    }
}

/// Tells the errors what explains a reply that is a refusal, or warns of one that is an answer.
fn comment_on<T: Threads + Sync + AllocGlobal, E: Write>(
    rt: &T,
    command: &Command,
    ran: &Result<Ran, RunFault>,
    errors: &mut E,
)
    ensures { TellsMore (IsReplied (ended_of ran.now)) (E.contents errors.old) (E.contents errors.new) }
{
    if is_refused(ran) {
        explain_ran(rt, command, ran, errors);
        return;
    }
    warn_ran(rt.alloc(), ran, errors);
}

/// Runs a command, and tells the errors what explains a refusal, or warns of an answer. It answers the exit status: 0 for an answer, 2 for a
/// refusal, 3 for want of memory, 4 where the input or the output failed.
///
/// What goes to the errors is for people: a fault in writing it is passed over, and where there is no memory for it, it is left out.
pub fn run_explained<T: Threads + Sync + AllocGlobal, R: Read, W: Write, E: Write>(
    rt: &T,
    command: &Command,
    input: &mut R,
    output: &mut W,
    errors: &mut E,
) -> u8
    ensures { IsRunExplained command.now result
        (streams (R.remaining input.old) (W.contents output.old) (E.contents errors.old))
        (streams (R.remaining input.new) (W.contents output.new) (E.contents errors.new)) }
{
    let ran = run(rt, command, input, output);
    let status = status_of(ended(&ran), errors);
    comment_on(rt, command, &ran, errors);
    status
}

//! One run: from the bytes of the input to those of the output.
ghost use Rattle.std.specs.Prelude.{◌≡◌, ◌≢◌, ℕ, List, IfOk, IfErr, OnOk, OnErr};
ghost use Rattle.std.specs.Io.KnownBytes.{Appends, Keeps};
ghost use Rattle.statement.specs.Output.{AppendsFront};
ghost use Rattle.statement.specs.Answers.{Reply};
ghost use Rattle.statement.specs.declared.status.Status.TheVariants.{Refused};
ghost use Rattle.program_searches.specs.Replies.{reply_of};
ghost use Rattle.program_searches.specs.Ready.{IsReady, lines_to_write};
ghost use Rattle.program_run.specs.Ran.{ended_of};
ghost use Rattle.program_streams.specs.Exits.{RepliedTo};
ghost use Rattle.program_run.specs.Work.{CanBeWritten, reply_by};
ghost use Rattle.statement.specs.Input.{RepliesTo};
ghost use Rattle.program_words.specs.Asked.{query_of};

use crate::sizes::Sizes;
use crate::working::{Work, work_of};
use game::Game;
use game_rules::{GroundGame, RuleGame};
use position::NetGame;
use program_searches::Deepening;
use program_streams::{RunFault, read_input, write_out};
use program_words::Command;
use statement::Status;
use std::alloc::Global;
use std::io::{Read, Write};
use std::thread::Threads;

/// A run that ended with its reply.
#[derive(Drop)]
pub struct Ran {
    /// The bytes that were read.
    pub(crate) bytes: Vec<u8>,
    /// The reply that was written. Of an answer that was written as it was found the status alone is kept.
    pub(crate) reply: program_searches::Reply,
    /// The sizes of the instantiation, if there was one.
    pub(crate) sizes: Option<Sizes>,
}

/// How a run ended, without what it kept.
pub fn ended(ran: &Result<Ran, RunFault>) -> Result<Status, RunFault>
    ensures { result ≡ ended_of ran.now }
{
    match ran {
        Ok(ran) => Ok(ran.reply.status),
        Err(fault) => Err(*fault),
    }
}

/// Writes what a command comes to, and what is kept of it.
fn write_work<G: Game + Drop, W: Write>(
    alloc: Global,
    work: Work<G>,
    output: &mut W,
) -> Result<program_searches::Reply, RunFault>
    requires { CanBeWritten G.Game work }
    ensures whole { IfOk result (λ kept. (kept.status ≡ (reply_by G.Game work).status)
        × Appends (W.contents output.old) (W.contents output.new) (reply_by G.Game work).output) }
    ensures refused { IfOk result (λ kept. kept.status ≡ Refused → kept.output.items ≡ (reply_by G.Game work).output) }
    ensures front { OnErr result (AppendsFront (W.contents output.old) (W.contents output.new) (reply_by G.Game work).output) }
    ensures fault { IfErr result (λ fault. fault ≡ RunFault.Write) }
{
    match work {
        Work::Told(reply) => {
            write_out(output, &reply.output)?;
            Ok(reply)
        }
        Work::ToWrite(deepening) => {
            write_as_found(deepening, output)?;
            Ok(program_searches::Reply {
                output: Vec::new(alloc),
                status: Status::Answer,
            })
        }
    }
}

/// Writes an answer as it is found.
fn write_as_found<G: Game + Drop, W: Write>(
    deepening: Deepening<G>,
    output: &mut W,
) -> Result<(), RunFault>
    requires { IsReady G.Game deepening }
    ensures whole { OnOk result (Appends (W.contents output.old) (W.contents output.new) (lines_to_write G.Game deepening)) }
    ensures front { OnErr result (AppendsFront (W.contents output.old) (W.contents output.new) (lines_to_write G.Game deepening)) }
    ensures fault { IfErr result (λ fault. fault ≡ RunFault.Write) }
{
    let mut deepening = deepening;
    let Ok(()) = deepening.write(output) else {
        return Err(RunFault::Write);
    };
    Ok(())
}

/// Reads the rules, writes the reply to the command and nothing else, and keeps both. The type `G` says who plays their game, and `S` who
/// tells of a state where nothing is searched.
pub fn run_with<G: GroundGame, S: GroundGame, T: Threads + Sync + AllocGlobal, R: Read, W: Write>(
    rt: &T,
    command: &Command,
    input: &mut R,
    output: &mut W,
) -> Result<Ran, RunFault>
    ensures answers { IfOk result (λ ran. RepliedTo (query_of command.now) ran.reply.status
        (R.remaining input.old) (R.remaining input.new) (W.contents output.old) (W.contents output.new)) }
    ensures refused { IfOk result (λ ran. ran.reply.status ≡ Refused
        → RepliesTo (query_of command.now) (R.remaining input.old) (R.remaining input.new) (reply_of ran.reply)
        × Appends (W.contents output.old) (W.contents output.new) ran.reply.output.items) }
    ensures silent { IfErr result (λ fault. fault ≢ RunFault.Write → Keeps (W.contents output.old) (W.contents output.new)) }
    ensures broken { IfErr result (λ fault. fault ≡ RunFault.Write → (reply : Reply)
        × RepliesTo (query_of command.now) (R.remaining input.old) (R.remaining input.new) reply
        × AppendsFront (W.contents output.old) (W.contents output.new) reply.output) }
{
    let bytes = read_input(rt.alloc(), input)?;
    let mut sizes = None;
    let Ok(work) = work_of::<G, S, T>(rt, command, &bytes, &mut sizes) else {
        return Err(RunFault::Memory);
    };
    let reply = write_work(rt.alloc(), work, output)?;
    Ok(Ran {
        bytes,
        reply,
        sizes,
    })
}

/// Reads the rules, writes the reply to the command and nothing else, and keeps both. The network of the rules plays their game, and their
/// kept instances tell of a state where nothing is searched, which needs no network.
///
/// The program runs each command by this call.
pub fn run<T: Threads + Sync + AllocGlobal, R: Read, W: Write>(
    rt: &T,
    command: &Command,
    input: &mut R,
    output: &mut W,
) -> Result<Ran, RunFault>
    ensures answers { IfOk result (λ ran. RepliedTo (query_of command.now) ran.reply.status
        (R.remaining input.old) (R.remaining input.new) (W.contents output.old) (W.contents output.new)) }
    ensures refused { IfOk result (λ ran. ran.reply.status ≡ Refused
        → RepliesTo (query_of command.now) (R.remaining input.old) (R.remaining input.new) (reply_of ran.reply)
        × Appends (W.contents output.old) (W.contents output.new) ran.reply.output.items) }
    ensures silent { IfErr result (λ fault. fault ≢ RunFault.Write → Keeps (W.contents output.old) (W.contents output.new)) }
    ensures broken { IfErr result (λ fault. fault ≡ RunFault.Write → (reply : Reply)
        × RepliesTo (query_of command.now) (R.remaining input.old) (R.remaining input.new) reply
        × AppendsFront (W.contents output.old) (W.contents output.new) reply.output) }
{
    run_with::<NetGame, RuleGame, T, R, W>(rt, command, input, output)
}

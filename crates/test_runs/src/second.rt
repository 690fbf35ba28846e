//! One run, with the game played over the kept instances.
ghost use Rattle.std.specs.Prelude.{◌≡◌, ◌≢◌, ℕ, List, IfOk, IfErr};
ghost use Rattle.std.specs.Io.KnownBytes.{Appends, Keeps};
ghost use Rattle.statement.specs.Output.{AppendsFront};
ghost use Rattle.statement.specs.Answers.{Reply};
ghost use Rattle.statement.specs.Input.{RepliesTo};
ghost use Rattle.statement.specs.declared.status.Status.TheVariants.{Refused};
ghost use Rattle.program_words.specs.Asked.{query_of};
ghost use Rattle.program_searches.specs.Replies.{reply_of};
ghost use Rattle.program_streams.specs.Exits.{RepliedTo};

use game_rules::RuleGame;
use position::NetGame;
use program_run::{Ran, RunFault, run_with};
use program_words::Command;
use std::io::{Read, Write};
use std::thread::Threads;

/// Reads the rules, and writes the reply to the command and nothing else. The kept instances of the rules play their game, and
/// their network tells of a state where nothing is searched: each the other way round than in `run`.
pub fn run_rules<T: Threads + Sync + AllocGlobal, R: Read, W: Write>(
    rt: &T,
    command: &Command,
    input: &mut R,
    output: &mut W,
) -> Result<Ran, RunFault>
    ensures answers { IfOk result (λ ran. RepliedTo (query_of command.now) ran.reply.status
        (R.remaining input.old) (R.remaining input.new) (W.contents output.old) (W.contents output.new)) }
    ensures refused { IfOk result (λ ran. ran.reply.status ≡ Refused
        → RepliesTo (query_of command.now) (R.remaining input.old) (R.remaining input.new) (reply_of ran.reply)
        × Appends (W.contents output.old) (W.contents output.new) ran.reply.output.items) }
    ensures silent { IfErr result (λ fault. fault ≢ RunFault.Write → Keeps (W.contents output.old) (W.contents output.new)) }
    ensures broken { IfErr result (λ fault. fault ≡ RunFault.Write → (reply : Reply)
        × RepliesTo (query_of command.now) (R.remaining input.old) (R.remaining input.new) reply
        × AppendsFront (W.contents output.old) (W.contents output.new) reply.output) }
{
    run_with::<RuleGame, NetGame, T, R, W>(rt, command, input, output)
}

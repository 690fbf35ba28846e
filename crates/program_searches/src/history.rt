//! From the text of a history to the state after it.
ghost use Rattle.std.specs.Prelude.{◌≡◌, ◌≢◌, ◌++◌, Ok, Err, IfOk, IfErr};
ghost use Rattle.kif.specs.View.{trees_in};
ghost use Rattle.statement.specs.TextFaults.{refusal_line};
ghost use Rattle.statement.specs.Played.{played};
ghost use Rattle.statement.specs.HistoryTexts.{history_fault_words, role_part, IsRoleOf};
ghost use Rattle.program_searches.specs.Histories.{named};
ghost use Rattle.statement.specs.Histories.{IsHistoryOf};

use crate::reply::Reply;
use bumpalo::Bump;
use game::{Game, HistoryFault, add_history_refusal, replay};
use kif::{Expr, KifFault, read};
use statement::Status;
use std::alloc::{AllocError, Allocator, Global};

/// The state after these turns.
fn after_turns<G: Game, A: Allocator>(
    alloc: Global,
    game: &G,
    turns: &[Expr<A>],
) -> Result<G::Pos, HistoryFault>
    ensures fits { IfOk result (λ p. G.fits game.now p) }
    ensures played { IfOk result (λ p. played (G.rules game.now) (G.move_name game.now) (trees_in turns.now) ≡ Ok (G.state game.now p)) }
    ensures refused { IfErr result (λ fault. fault ≢ HistoryFault.NoMemory
        → played (G.rules game.now) (G.move_name game.now) (trees_in turns.now) ≡ Err fault) }
    ensures role { IfErr result (IsRoleOf (G.rules game.now).roles) }
{
    let mut p = game.fresh()?;
    replay(alloc, game, turns, &mut p)?;
    Ok(p)
}

/// The state after the history of this text, whose trees are its turns. A text that cannot be read is a bad
/// form at turn 0, and other faults are those of `replay`.
pub fn position_after<G: Game>(alloc: Global, game: &G, after: &str) -> Result<G::Pos, HistoryFault>
    ensures fits { IfOk result (λ p. G.fits game.now p) }
    ensures played { IfOk result (λ p. IsHistoryOf (named (G.rules game.now) (G.role_name game.now) (G.move_name game.now)) after.now (Ok (G.state game.now p))) }
    ensures refused { IfErr result (λ fault. fault ≢ HistoryFault.NoMemory
        → IsHistoryOf (named (G.rules game.now) (G.role_name game.now) (G.move_name game.now)) after.now (Err fault)) }
    ensures role { IfErr result (IsRoleOf (G.rules game.now).roles) }
{
    let arena = Bump::new(alloc);
    match read(&arena, after.as_bytes()) {
        Ok(turns) => after_turns(alloc, game, &turns),
        Err(KifFault::NoMemory) => Err(HistoryFault::NoMemory),
        Err(_) => Err(HistoryFault::BadForm(0)),
    }
}

/// The refusal that names the fault of a history, and the role where one is at fault.
pub fn refused_history<G: Game>(
    alloc: Global,
    game: &G,
    fault: HistoryFault,
) -> Result<Reply, AllocError>
    requires { IsRoleOf (G.rules game.now).roles fault }
    ensures line { IfOk result (λ reply. reply.output.items ≡ refusal_line (history_fault_words fault ++ role_part (G.role_name game.now) fault)) }
    ensures status { IfOk result (λ reply. reply.status ≡ Status.Refused) }
{
    let mut output = Vec::new(alloc);
    add_history_refusal(game, fault, &mut output)?;
    Ok(Reply {
        output,
        status: Status::Refused,
    })
}

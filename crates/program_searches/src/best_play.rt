//! From a game to the search for best play that is asked for.
ghost use Rattle.std.specs.Prelude.{◌≡◌, ◌<◌, IfOk, Result};
ghost use Rattle.statement.specs.Rules.{State};
ghost use Rattle.statement.specs.declared.history_fault.HistoryFault.{HistoryFault};
ghost use Rattle.program_searches.specs.Histories.{named};
ghost use Rattle.statement.specs.Histories.{IsHistoryOf};
ghost use Rattle.statement.specs.Moving.{history_reply};
ghost use Rattle.program_searches.specs.Searching.{LinesOf, IsSearchOrReply, IsStartOrReply};
ghost use Rattle.statement.specs.ForRole.{IsRoleReply};

use crate::history::{position_after, refused_history};
use crate::reply::{Reply, refused};
use crate::roles::role_named;
use crate::search::{Search, Start};
use game::{Game, HistoryFault, Question};
use program_words::Sought;
use std::alloc::{AllocError, Global};

/// Where the search for a role after a history begins, or the reply that names the fault of the history.
fn start_after<G: Game>(
    alloc: Global,
    game: &G,
    role: usize,
    sought: &Sought,
) -> Result<Result<Start<G>, Reply>, AllocError>
    requires { role < (G.rules game.now).roles }
    ensures { IfOk result (λ found. (lines : LinesOf) → IsStartOrReply G.Game game.now lines
        (λ reply. (ended : Result State HistoryFault)
        × IsHistoryOf (named (G.rules game.now) (G.role_name game.now) (G.move_name game.now)) sought.now.after.now ended
        × (reply ≡ history_reply (named (G.rules game.now) (G.role_name game.now) (G.move_name game.now))
        (lines (named (G.rules game.now) (G.role_name game.now) (G.move_name game.now)) role sought.now.depth sought.now.at_bound) ended)) found) }
{
    match position_after(alloc, game, sought.after) {
        Ok(here) => Ok(Ok(Start {
            here,
            asked: Question {
                role,
                depth: sought.depth,
                at: sought.at_bound,
            },
            cut: sought.cut,
            table: sought.table,
        })),
        Err(HistoryFault::NoMemory) => Err(AllocError),
        Err(fault) => Ok(Err(refused_history(alloc, game, fault)?)),
    }
}

/// Where the search for the best play that is sought begins, or the reply that names the fault of the role or else of the history. It does
/// not depend on what is told after the search.
pub fn start_for<G: Game>(
    alloc: Global,
    game: &G,
    sought: &Sought,
) -> Result<Result<Start<G>, Reply>, AllocError>
    ensures { IfOk result (λ found. (lines : LinesOf) → IsStartOrReply G.Game game.now lines
        (IsRoleReply (named (G.rules game.now) (G.role_name game.now) (G.move_name game.now)) sought.now.role.now
        (λ r. lines (named (G.rules game.now) (G.role_name game.now) (G.move_name game.now)) r sought.now.depth sought.now.at_bound)
        sought.now.after.now) found) }
{
    match role_named(alloc, game, sought.role)? {
        Some(role) => start_after(alloc, game, role, sought),
        None => Ok(Err(refused(alloc, &"S1 NoSuchRole")?)),
    }
}

/// The search for the best play that is sought, or the reply that names the fault of the role or else of the history. It does not
/// depend on what is told after the search.
pub fn search_for<G: Game + Drop>(
    alloc: Global,
    game: G,
    sought: &Sought,
) -> Result<Result<Search<G>, Reply>, AllocError>
    ensures { IfOk result (λ found. (lines : LinesOf) → IsSearchOrReply G.Game lines
        (IsRoleReply (named (G.rules game) (G.role_name game) (G.move_name game)) sought.now.role.now
        (λ r. lines (named (G.rules game) (G.role_name game) (G.move_name game)) r sought.now.depth sought.now.at_bound)
        sought.now.after.now) found) }
{
    match start_for(alloc, &game, sought)? {
        Ok(start) => {
            let Start {
                here,
                asked,
                cut,
                table,
            } = start;
            Ok(Ok(Search {
                game,
                here,
                asked,
                cut,
                table,
            }))
        }
        Err(reply) => Ok(Err(reply)),
    }
}

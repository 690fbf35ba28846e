//! The reply by a game that is kept, in which several workers search if they are to.
ghost use Rattle.std.specs.Prelude.{IfOk, IfSome};
ghost use Rattle.statement.specs.Queries.{asked_in};
ghost use Rattle.statement.specs.Replies.{IsReply};
ghost use Rattle.statement.specs.Solving.{IsSolveReply};
ghost use Rattle.program_words.specs.Asked.{query_about};
ghost use Rattle.program_searches.specs.Histories.{named};
ghost use Rattle.program_searches.specs.Kept.{IsKeptSearch};
ghost use Rattle.program_searches.specs.Replies.{reply_of};
ghost use Rattle.program_replies.specs.Playing.{PlaysText};

use crate::working::told_from_start;
use game::Game;
use game_rules::GroundGame;
use program_replies::reply_by;
use program_searches::{KeptSearch, Reply, start_for};
use program_words::{Inquiry, Sought};
use statement::Width;
use std::alloc::AllocError;
use std::thread::Threads;

/// The reply to `solve`, with its search of the game shared by as many workers as its cut says. The game stays as it is.
fn solve_by_workers<T: Threads + Sync + AllocGlobal, G: Game>(
    rt: &T,
    game: &G,
    sought: &Sought,
) -> Result<Reply, AllocError>
    ensures { IfOk result (λ reply. IsSolveReply (named (G.rules game.now) (G.role_name game.now) (G.move_name game.now))
        sought.now.role.now sought.now.depth sought.now.at_bound sought.now.after.now (reply_of reply)) }
{
    match start_for(rt.alloc(), game, sought)? {
        Ok(start) => told_from_start(rt, game, start),
        Err(reply) => Ok(reply),
    }
}

/// The reply to an inquiry by a game of the rules, which pass no limit of the width. Where several workers are to search, they share the search.
/// Else the calling thread searches, and the memory of that stays in `search` for the next inquiry of the same game. The game stays as it is.
/// It fails only for want of memory.
pub fn reply_by_game<G: GroundGame, T: Threads + Sync + AllocGlobal>(
    rt: &T,
    inquiry: &Inquiry,
    width: Width,
    rules: &[u8],
    game: &G,
    search: &mut Option<KeptSearch<G>>,
) -> Result<Reply, AllocError>
    requires plays { PlaysText width rules.now (G.source game.now) (G.rules game.now) (G.role_name game.now) (G.move_name game.now) }
    requires search { IfSome search.old (IsKeptSearch G.Game game.now) }
    ensures reply { IfOk result (λ reply. IsReply (asked_in width (query_about inquiry.now)) rules.now (reply_of reply)) }
    ensures search { IfSome search.new (IsKeptSearch G.Game game.now) }
{
    match inquiry {
        Inquiry::Solve(sought) if sought.cut.workers() > 1 => solve_by_workers(rt, game, sought),
        _ => reply_by(rt.alloc(), inquiry, width, rules, game, search),
    }
}

//! The reply to what is asked of a game that was made before.
ghost use Rattle.std.specs.Prelude.{IfOk, IfSome, Ok};
ghost use Rattle.game_rules.specs.RuleState.{IsGameOver};
ghost use Rattle.program_words.specs.Asked.{query_about};
ghost use Rattle.program_searches.specs.Kept.{IsKeptSearch};
ghost use Rattle.program_replies.specs.Readings.{IsReplyOver};
ghost use Rattle.program_searches.specs.Replies.{reply_of};

use crate::sizes::reply_to_net;
use crate::standing::state_reply;
use game_rules::GroundGame;
use program_searches::{KeptSearch, Reply, Wanted, moves_reply, role_reply};
use program_words::Inquiry;
use std::alloc::{AllocError, Global};

/// The same as `reply_over`, where the memory of a search stays in `kept` for the next question about the same game, with what it keeps of
/// states.
pub fn reply_over_keeping<G: GroundGame>(
    alloc: Global,
    inquiry: &Inquiry,
    game: &G,
    kept: &mut Option<KeptSearch<G>>,
) -> Result<Reply, AllocError>
    requires game { IsGameOver (G.source game.now) (G.rules game.now) (G.role_name game.now) (G.move_name game.now) }
    requires kept { IfSome kept.old (IsKeptSearch G.Game game.now) }
    ensures reply { IfOk result (λ reply. IsReplyOver (query_about inquiry.now) (Ok (G.source game.now)) (reply_of reply)) }
    ensures kept { IfSome kept.new (IsKeptSearch G.Game game.now) }
{
    match inquiry {
        Inquiry::Net => reply_to_net(alloc, game.instantiation()),
        Inquiry::Moves { after } => moves_reply(alloc, game, after),
        Inquiry::State { after } => state_reply(alloc, game, after),
        Inquiry::Solve(sought) => role_reply(alloc, game, sought, Wanted::Whole, kept),
        Inquiry::SolveWithin(sought, window) => {
            role_reply(alloc, game, sought, Wanted::Within(*window), kept)
        }
        Inquiry::Values(sought) => role_reply(alloc, game, sought, Wanted::OfEachMove, kept),
        Inquiry::ValuesWithLines(sought) => {
            role_reply(alloc, game, sought, Wanted::LineOfEachMove, kept)
        }
        Inquiry::Deepen(sought) => role_reply(alloc, game, sought, Wanted::OfEachDepth, kept),
    }
}

/// The reply to what is asked of the instantiation that a game is made of. The calling thread does all the work, whatever the cut; the game
/// stays as it is. It fails only for want of memory.
pub fn reply_over<G: GroundGame>(
    alloc: Global,
    inquiry: &Inquiry,
    game: &G,
) -> Result<Reply, AllocError>
    requires { IsGameOver (G.source game.now) (G.rules game.now) (G.role_name game.now) (G.move_name game.now) }
    ensures { IfOk result (λ reply. IsReplyOver (query_about inquiry.now) (Ok (G.source game.now)) (reply_of reply)) }
{
    let mut kept = None;
    reply_over_keeping(alloc, inquiry, game, &mut kept)
}

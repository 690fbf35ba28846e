//! The reply by the game that is kept.
ghost use Rattle.std.specs.Prelude.{IfOk, IfSome};
ghost use Rattle.statement.specs.declared.width.Width.TheVariants.{Plain};
ghost use Rattle.statement.specs.Queries.{asked_in};
ghost use Rattle.statement.specs.Replies.{IsReply};
ghost use Rattle.program_words.specs.Asked.{query_about, query_of};
ghost use Rattle.program_searches.specs.Kept.{IsKeptSearch};
ghost use Rattle.program_searches.specs.Replies.{reply_of};
ghost use Rattle.program_replies.specs.Playing.{PlaysText};

use crate::alone::reply_alone;
use crate::making::game_alone;
use crate::over_game::{reply_over, reply_over_keeping};
use game_rules::GroundGame;
use program_searches::{KeptSearch, Reply};
use program_words::{Command, Inquiry};
use statement::Width;
use std::alloc::{AllocError, AllocGlobal, Global};

/// The reply to an inquiry by a game of the rules, which pass no limit of the width. The memory of a search stays in `search` for the next inquiry of the same game. It fails
/// only for want of memory.
pub fn reply_by<G: GroundGame>(
    alloc: Global,
    inquiry: &Inquiry,
    _width: Width,
    _rules: &[u8],
    game: &G,
    search: &mut Option<KeptSearch<G>>,
) -> Result<Reply, AllocError>
    requires plays { PlaysText _width _rules.now (G.source game.now) (G.rules game.now) (G.role_name game.now) (G.move_name game.now) }
    requires search { IfSome search.old (IsKeptSearch G.Game game.now) }
    ensures reply { IfOk result (λ reply. IsReply (asked_in _width (query_about inquiry.now)) _rules.now (reply_of reply)) }
    ensures search { IfSome search.new (IsKeptSearch G.Game game.now) }
{
    reply_over_keeping(alloc, inquiry, game, search)
}

/// The reply to an inquiry by the game that is kept of the rules, or none where none is. It fails only for want of memory.
pub fn reply_kept<G: GroundGame>(
    alloc: Global,
    inquiry: &Inquiry,
    rules: &[u8],
    made: &Option<G>,
) -> Result<Option<Reply>, AllocError>
    requires { IfSome made.now (λ g. PlaysText Plain rules.now (G.source g) (G.rules g) (G.role_name g) (G.move_name g)) }
    ensures { IfOk result (λ told. IfSome told (λ reply. IsReply (query_about inquiry.now) rules.now (reply_of reply))) }
{
    match made {
        Some(game) => Ok(Some(reply_over(alloc, inquiry, game)?)),
        None => Ok(None),
    }
}

/// The same, where the game is made first if none is kept.
fn told_alone<G: GroundGame, T: AllocGlobal>(
    rt: &T,
    inquiry: &Inquiry,
    rules: &[u8],
    made: &mut Option<G>,
) -> Result<Option<Reply>, AllocError>
    requires { IfSome made.old (λ g. PlaysText Plain rules.now (G.source g) (G.rules g) (G.role_name g) (G.move_name g)) }
    ensures reply { IfOk result (λ told. IfSome told (λ reply. IsReply (query_about inquiry.now) rules.now (reply_of reply))) }
    ensures made { IfSome made.new (λ g. PlaysText Plain rules.now (G.source g) (G.rules g) (G.role_name g) (G.move_name g)) }
{
    if made.is_none() {
        *made = game_alone::<G, T>(rt, rules)?;
    }
    reply_kept(rt.alloc(), inquiry, rules, made)
}

/// The reply to a command over the rules, by the calling thread alone. What is asked of a game is asked of the one that is kept of them, which
/// is made first where there is none; what refuses rules that have no game is made anew. It fails only for want of memory, and what is kept
/// then is still right.
pub fn replied_alone<G: GroundGame, T: AllocGlobal>(
    rt: &T,
    command: &Command,
    rules: &[u8],
    made: &mut Option<G>,
) -> Result<Reply, AllocError>
    requires { IfSome made.old (λ g. PlaysText Plain rules.now (G.source g) (G.rules g) (G.role_name g) (G.move_name g)) }
    ensures reply { IfOk result (λ reply. IsReply (query_of command.now) rules.now (reply_of reply)) }
    ensures made { IfSome made.new (λ g. PlaysText Plain rules.now (G.source g) (G.rules g) (G.role_name g) (G.move_name g)) }
{
    let told = match command {
        Command::Ask(inquiry, Width::Plain) => told_alone(rt, inquiry, rules, made)?,
        _ => None,
    };
    match told {
        Some(reply) => Ok(reply),
        None => reply_alone::<G, G, T>(rt, command, rules),
    }
}

//! The game of the rules that stand, which is kept from one question to the next, with the memory of the last search by one worker.
ghost use Rattle.std.specs.Prelude.{IfOk, IfSome};
ghost use Rattle.statement.specs.Queries.{asked_in};
ghost use Rattle.statement.specs.Replies.{IsReply};
ghost use Rattle.program_words.specs.Asked.{query_about, query_of};
ghost use Rattle.program_searches.specs.Replies.{reply_of};
ghost use Rattle.program_replies.specs.Playing.{PlaysText};
ghost use Rattle.program_session.specs.Kept.{IsKeptGame};

use game::Game;
use game_rules::GroundGame;
use ground::instantiate_flat;
use program_replies::{Reading, game_over, read};
use program_run::{reply_by_game, reply_by_workers};
use program_searches::{KeptSearch, Reply};
use program_words::{Command, Inquiry};
use statement::Width;
use std::alloc::AllocError;
use std::thread::Threads;

/// The game of the rules, and the memory of the last search of it that one worker made. Those that several share have memory of their own.
#[derive(Drop)]
pub(crate) struct KeptGame<G: Game> {
    game: G,
    search: Option<KeptSearch<G>>,
}

/// The game of rules, or none where they have a fault or pass a limit of the width.
fn game_of<G: GroundGame, T: Threads + Sync + AllocGlobal>(
    rt: &T,
    width: Width,
    rules: &[u8],
) -> Result<Option<G>, AllocError>
    ensures { IfOk result (λ made. IfSome made (λ g. PlaysText width rules.now (G.source g) (G.rules g) (G.role_name g) (G.move_name g))) }
{
    let Reading::Rules(read) = read(rt.alloc(), rules)? else {
        return Ok(None);
    };
    let instantiated = instantiate_flat(rt, &read, width);
    drop(read);
    game_over(rt.alloc(), instantiated)
}

/// The same, to be kept. No search of it was made.
fn kept_game_of<G: GroundGame, T: Threads + Sync + AllocGlobal>(
    rt: &T,
    width: Width,
    rules: &[u8],
) -> Result<Option<KeptGame<G>>, AllocError>
    ensures { IfOk result (λ made. IfSome made (IsKeptGame G.Game G.source width rules.now)) }
{
    match game_of::<G, T>(rt, width, rules)? {
        Some(game) => Ok(Some(KeptGame { game, search: None })),
        None => Ok(None),
    }
}

/// The reply to an inquiry by the game that is kept of the rules, which is made first where there is none; none where the rules have no game.
fn told_over<G: GroundGame, T: Threads + Sync + AllocGlobal>(
    rt: &T,
    inquiry: &Inquiry,
    width: Width,
    rules: &[u8],
    made: &mut Option<KeptGame<G>>,
) -> Result<Option<Reply>, AllocError>
    requires { IfSome made.old (IsKeptGame G.Game G.source width rules.now) }
    ensures reply { IfOk result (λ told. IfSome told (λ reply. IsReply (asked_in width (query_about inquiry.now)) rules.now (reply_of reply))) }
    ensures made { IfSome made.new (IsKeptGame G.Game G.source width rules.now) }
{
    if made.is_none() {
        *made = kept_game_of::<G, T>(rt, width, rules)?;
    }
    match made {
        Some(kept) => {
            let reply = reply_by_game(rt, inquiry, width, rules, &kept.game, &mut kept.search)?;
            Ok(Some(reply))
        }
        None => Ok(None),
    }
}

/// The same, where what is asked by the limits of another width is not asked of the game that is kept.
fn told_within<G: GroundGame, T: Threads + Sync + AllocGlobal>(
    rt: &T,
    inquiry: &Inquiry,
    asked: Width,
    width: Width,
    rules: &[u8],
    made: &mut Option<KeptGame<G>>,
) -> Result<Option<Reply>, AllocError>
    requires { IfSome made.old (IsKeptGame G.Game G.source width rules.now) }
    ensures reply { IfOk result (λ told. IfSome told (λ reply. IsReply (asked_in asked (query_about inquiry.now)) rules.now (reply_of reply))) }
    ensures made { IfSome made.new (IsKeptGame G.Game G.source width rules.now) }
{
    match (asked, width) {
        (Width::Plain, Width::Plain) => told_over(rt, inquiry, Width::Plain, rules, made),
        (Width::Wide, Width::Wide) => told_over(rt, inquiry, Width::Wide, rules, made),
        _ => Ok(None),
    }
}

/// The reply to a command over the rules, of which the game that is kept passes no limit of the width. What is asked of a game is asked of the
/// one that is kept of them, whatever the cut; what refuses rules that have no game is made anew. It fails only for want of memory.
pub(crate) fn replied<G: GroundGame, T: Threads + Sync + AllocGlobal>(
    rt: &T,
    command: &Command,
    width: Width,
    rules: &[u8],
    made: &mut Option<KeptGame<G>>,
) -> Result<Reply, AllocError>
    requires { IfSome made.old (IsKeptGame G.Game G.source width rules.now) }
    ensures reply { IfOk result (λ reply. IsReply (query_of command.now) rules.now (reply_of reply)) }
    ensures made { IfSome made.new (IsKeptGame G.Game G.source width rules.now) }
{
    let told = match command {
        Command::Ask(inquiry, asked) => told_within(rt, inquiry, *asked, width, rules, made)?,
        _ => None,
    };
    match told {
        Some(reply) => Ok(reply),
        None => reply_by_workers::<G, G, T>(rt, command, rules),
    }
}

//! The reply to a command, with all the work done by the calling thread.
ghost use Rattle.std.specs.Prelude.{IfOk};
ghost use Rattle.program_searches.specs.Replies.{reply_of};
ghost use Rattle.statement.specs.Replies.{IsReply};
ghost use Rattle.statement.specs.Queries.{asked_in};
ghost use Rattle.program_words.specs.Asked.{query_about, query_of};

use crate::asking::{Asked, ask};
use crate::reading::{Reading, check, read, show};
use game_rules::GroundGame;
use ground::instantiate_flat_alone;
use program_searches::{Deepening, Reply, told_alone};
use program_words::{Command, Inquiry};
use statement::Width;
use std::alloc::{AllocError, AllocGlobal};

/// The reply to an inquiry over the bytes of the input, by the limits of a width.
fn inquired_alone<G: GroundGame, S: GroundGame, T: AllocGlobal>(
    rt: &T,
    inquiry: &Inquiry,
    width: Width,
    bytes: &[u8],
) -> Result<Reply, AllocError>
    ensures { IfOk result (λ reply. IsReply (asked_in width (query_about inquiry.now)) bytes.now (reply_of reply)) }
{
    let alloc = rt.alloc();
    let rules = match read(alloc, bytes)? {
        Reading::Rules(rules) => rules,
        Reading::Refused(reply) => return Ok(reply),
    };
    let instantiated = instantiate_flat_alone(rt, &rules, width);
    drop(rules);
    match ask::<G, S>(alloc, inquiry, instantiated)? {
        Asked::Told(reply) => Ok(reply),
        Asked::ToSearch(search) => told_alone(alloc, search),
        Asked::ToDeepen(search) => Deepening::new(alloc, search)?.told(alloc),
    }
}

/// The reply to a command over the bytes of the input, by the calling thread alone. The type `G` says who plays the game, and `S` who tells
/// of a state where nothing is searched. It fails only for want of memory.
pub fn reply_alone<G: GroundGame, S: GroundGame, T: AllocGlobal>(
    rt: &T,
    command: &Command,
    bytes: &[u8],
) -> Result<Reply, AllocError>
    ensures { IfOk result (λ reply. IsReply (query_of command.now) bytes.now (reply_of reply)) }
{
    match command {
        Command::Show => show(rt.alloc(), bytes),
        Command::Check => check(rt.alloc(), bytes),
        Command::Ask(inquiry, width) => inquired_alone::<G, S, T>(rt, inquiry, *width, bytes),
    }
}

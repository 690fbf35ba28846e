//! From an instantiation to the reply, or to the search after which there is one.
ghost use Rattle.std.specs.Prelude.{IfOk, Ok};
ghost use Rattle.program_replies.specs.Asking.{IsAsked};
ghost use Rattle.program_replies.specs.Readings.{IsReplyOver};
ghost use Rattle.program_words.specs.Asked.{query_about};

use crate::games::{ask_deepen, ask_solve, reply_for_role, reply_to_moves, reply_to_state};
use crate::sizes::reply_to_net;
use game::Game;
use game_rules::GroundGame;
use ground::GroundFault;
use ground_instances::FlatGround;
use program_searches::{Reply, Search, Wanted, refused};
use program_words::Inquiry;
use std::alloc::{AllocError, Global};

/// What asking comes to: the reply, or the search of a game after which there is one.
#[derive(Drop)]
pub enum Asked<G: Game + Drop> {
    /// The reply.
    Told(Reply),
    /// The search.
    ToSearch(Search<G>),
    /// The search that is to be done turn by turn further.
    ToDeepen(Search<G>),
}

/// What is asked of the ground of rules comes to this.
fn ask_ground<G: GroundGame, S: GroundGame>(
    alloc: Global,
    inquiry: &Inquiry,
    ground: FlatGround,
) -> Result<Asked<G>, AllocError>
    ensures { IfOk result (IsAsked G.Game (IsReplyOver (query_about inquiry.now) (Ok ground))) }
{
    match inquiry {
        Inquiry::Net => Ok(Asked::Told(reply_to_net(alloc, &ground)?)),
        Inquiry::Moves { after } => { Ok(Asked::Told(reply_to_moves::<S>(alloc, ground, after)?)) }
        Inquiry::State { after } => Ok(Asked::Told(reply_to_state::<S>(alloc, ground, after)?)),
        Inquiry::Solve(sought) => ask_solve(alloc, ground, sought),
        Inquiry::SolveWithin(sought, window) => Ok(Asked::Told(reply_for_role::<G>(
            alloc,
            ground,
            sought,
            Wanted::Within(*window),
        )?)),
        Inquiry::Values(sought) => Ok(Asked::Told(reply_for_role::<G>(
            alloc,
            ground,
            sought,
            Wanted::OfEachMove,
        )?)),
        Inquiry::ValuesWithLines(sought) => Ok(Asked::Told(reply_for_role::<G>(
            alloc,
            ground,
            sought,
            Wanted::LineOfEachMove,
        )?)),
        Inquiry::Deepen(sought) => ask_deepen(alloc, ground, sought),
    }
}

/// What is asked of the instantiation of rules comes to this: the line that names the limit that they pass, or what is told of their
/// ground, or for `solve`, over a role and a history without a fault, the search after which that is told. The type `G` says who plays
/// the game, and `S` who tells of a state where nothing is searched. It fails only for want of memory.
pub fn ask<G: GroundGame, S: GroundGame>(
    alloc: Global,
    inquiry: &Inquiry,
    instantiated: Result<FlatGround, GroundFault>,
) -> Result<Asked<G>, AllocError>
    ensures { IfOk result (IsAsked G.Game (IsReplyOver (query_about inquiry.now) instantiated)) }
{
    match instantiated {
        Ok(ground) => ask_ground::<G, S>(alloc, inquiry, ground),
        Err(GroundFault::NoMemory) => Err(AllocError),
        Err(fault) => Ok(Asked::Told(refused(alloc, &fault)?)),
    }
}

//! From the ground of items to the game that it is, and to what is told of it.
ghost use Rattle.std.specs.Prelude.{IfOk, List};
ghost use Rattle.statement.specs.Tree.{Tree};
ghost use Rattle.statement.specs.declared.width.Width.{Width};
ghost use Rattle.statement.specs.Moving.{IsMovesReply};
ghost use Rattle.statement.specs.Items.{alternatives};
ghost use Rattle.statement.specs.Solving.{IsSolveReply};
ghost use Rattle.statement.specs.ForRole.{IsRoleReply};
ghost use Rattle.statement.specs.Deepening.{IsDeepenReply};
ghost use Rattle.statement.specs.Holding.{IsStateReply};
ghost use Rattle.statement.specs.Games.{IsPlayReply};
ghost use Rattle.program_replies.specs.Asking.{IsAsked};
ghost use Rattle.program_replies.specs.Games.{IsItsGround};
ghost use Rattle.program_searches.specs.Replies.{reply_of};
ghost use Rattle.program_searches.specs.Windows.{wanted_lines};

use crate::asking::Asked;
use crate::standing::state_reply;
use game_rules::GroundGame;
use ground_instances::FlatGround;
use program_searches::{Reply, Wanted, moves_reply, role_reply, search_for};
use program_words::Sought;
use std::alloc::{AllocError, Global};

/// The reply to `moves` over the ground of items, after the history of a text.
pub(crate) fn reply_to_moves<G: GroundGame>(
    alloc: Global,
    ground: FlatGround,
    after: &str,
) -> Result<Reply, AllocError>
    ensures { IfOk result (λ reply. (width : Width) (items : List Tree) → IsItsGround width items ground
        → IsPlayReply width items (λ g. IsMovesReply g after.now) (reply_of reply)) }
{
    let game = G::over(alloc, ground)?;
    moves_reply(alloc, &game, after)
}

/// The reply to `state` over the ground of items, after the history of a text.
pub(crate) fn reply_to_state<G: GroundGame>(
    alloc: Global,
    ground: FlatGround,
    after: &str,
) -> Result<Reply, AllocError>
    ensures { IfOk result (λ reply. (width : Width) (items : List Tree) → IsItsGround width items ground
        → IsPlayReply width items (λ g. IsStateReply (alternatives items) g after.now) (reply_of reply)) }
{
    let game = G::over(alloc, ground)?;
    state_reply(alloc, &game, after)
}

/// The reply to what is asked for a role over the ground of items and is found by the calling thread alone.
pub(crate) fn reply_for_role<G: GroundGame>(
    alloc: Global,
    ground: FlatGround,
    sought: &Sought,
    wanted: Wanted,
) -> Result<Reply, AllocError>
    ensures { IfOk result (λ reply. (width : Width) (items : List Tree) → IsItsGround width items ground → IsPlayReply width items
        (λ g. IsRoleReply g sought.now.role.now (λ r. wanted_lines wanted g r sought.now.depth sought.now.at_bound) sought.now.after.now)
        (reply_of reply)) }
{
    let game = G::over(alloc, ground)?;
    let mut kept = None;
    role_reply(alloc, &game, sought, wanted, &mut kept)
}

/// What `solve` over the ground of items comes to, for the best play that is sought.
pub(crate) fn ask_solve<G: GroundGame>(
    alloc: Global,
    ground: FlatGround,
    sought: &Sought,
) -> Result<Asked<G>, AllocError>
    ensures { IfOk result (IsAsked G.Game (λ reply. (width : Width) (items : List Tree) → IsItsGround width items ground → IsPlayReply width items
        (λ g. IsSolveReply g sought.now.role.now sought.now.depth sought.now.at_bound sought.now.after.now) reply)) }
{
    let game = G::over(alloc, ground)?;
    match search_for(alloc, game, sought)? {
        Ok(search) => Ok(Asked::ToSearch(search)),
        Err(reply) => Ok(Asked::Told(reply)),
    }
}

/// What `solve` turn by turn further over the ground of items comes to, for the best play that is sought.
pub(crate) fn ask_deepen<G: GroundGame>(
    alloc: Global,
    ground: FlatGround,
    sought: &Sought,
) -> Result<Asked<G>, AllocError>
    ensures { IfOk result (IsAsked G.Game (λ reply. (width : Width) (items : List Tree) → IsItsGround width items ground → IsPlayReply width items
        (λ g. IsDeepenReply g sought.now.role.now sought.now.depth sought.now.at_bound sought.now.after.now) reply)) }
{
    let game = G::over(alloc, ground)?;
    match search_for(alloc, game, sought)? {
        Ok(search) => Ok(Asked::ToDeepen(search)),
        Err(reply) => Ok(Asked::Told(reply)),
    }
}

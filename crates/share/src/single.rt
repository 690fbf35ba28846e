//! The search of a state by one worker, who needs no board.
ghost use Rattle.std.specs.Prelude.{◌≡◌, pos, slice_get};
ghost use Rattle.statement.specs.Value.{value, choice_of};
ghost use Rattle.share.specs.Desk.{HasRoom};

use crate::alone::answer_in;
use crate::desk::Desk;
use crate::gate::Gate;
use crate::node::Node;
use game::Game;
use maximin::open_room;

/// The value of the node and the place of its first best move, by the calling thread at its desk. All its tasks pass the gate in
/// their order, also those that are not searched in the end.
pub fn answer_single<G: Game, K: Gate>(node: &Node<'_, G>, gate: &K, desk: Desk<G>) -> (i16, u32)
    requires fits { G.fits node.now.game.now node.now.from.now }
    requires room { HasRoom G.Game node.now.game.now node.now.asked.depth desk }
    ensures value { result.0 ≡ pos (value (G.rules node.now.game.now) node.now.asked.role node.now.asked.depth node.now.asked.at
        (G.state node.now.game.now node.now.from.now)) }
    ensures first { choice_of (G.rules node.now.game.now) node.now.asked.role node.now.asked.depth node.now.asked.at (G.state node.now.game.now node.now.from.now)
        ≡ slice_get ((G.rules node.now.game.now).legal (G.state node.now.game.now node.now.from.now) node.now.asked.role) result.1 }
{
    for task in 0..node.plan.moves * node.plan.replies {
        gate.at(task as usize);
    }
    let mut room = open_room(node.game, desk.room);
    answer_in(node, &mut room)
}

//! The search of a state by one worker.
ghost use Rattle.std.specs.Prelude.{◌≡◌, ◌≤◌, pos, slice_get, IfSome};
ghost use Rattle.statement.specs.Value.{value, choice_of};
ghost use Rattle.maximin.specs.Room.{IsRoomOf, IsRoomKept, room_depth};

use crate::node::Node;
use game::Game;
use maximin::{Room, value_and_choice, value_and_choice_if_short};

/// The value of the node and the place of its first best move, by the calling thread in a room.
pub fn answer_in<G: Game>(node: &Node<'_, G>, room: &mut Room<G>) -> (i16, u32)
    requires fits { G.fits node.now.game.now node.now.from.now }
    requires room { IsRoomOf G.Game node.now.game.now room.old }
    requires deep { node.now.asked.depth ≤ room_depth room.old }
    ensures value { result.0 ≡ pos (value (G.rules node.now.game.now) node.now.asked.role node.now.asked.depth node.now.asked.at
        (G.state node.now.game.now node.now.from.now)) }
    ensures first { choice_of (G.rules node.now.game.now) node.now.asked.role node.now.asked.depth node.now.asked.at (G.state node.now.game.now node.now.from.now)
        ≡ slice_get ((G.rules node.now.game.now).legal (G.state node.now.game.now node.now.from.now) node.now.asked.role) result.1 }
    ensures room { IsRoomKept G.Game node.now.game.now room.old room.new }
{
    let (value, first) = value_and_choice(node.game, node.from, node.asked, room);
    (value, first as u32)
}

/// The same, where that is a short search, as `value_and_choice_if_short` says.
pub fn answer_if_short<G: Game>(node: &Node<'_, G>, room: &mut Room<G>) -> Option<(i16, u32)>
    requires fits { G.fits node.now.game.now node.now.from.now }
    requires room { IsRoomOf G.Game node.now.game.now room.old }
    requires deep { node.now.asked.depth ≤ room_depth room.old }
    ensures value { IfSome result (λ r. r.0 ≡ pos (value (G.rules node.now.game.now) node.now.asked.role node.now.asked.depth node.now.asked.at
        (G.state node.now.game.now node.now.from.now))) }
    ensures first { IfSome result (λ r. choice_of (G.rules node.now.game.now) node.now.asked.role node.now.asked.depth node.now.asked.at (G.state node.now.game.now node.now.from.now)
        ≡ slice_get ((G.rules node.now.game.now).legal (G.state node.now.game.now node.now.from.now) node.now.asked.role) r.1) }
    ensures room { IsRoomKept G.Game node.now.game.now room.old room.new }
{
    let found = value_and_choice_if_short(node.game, node.from, node.asked, room)?;
    Some((found.0, found.1 as u32))
}

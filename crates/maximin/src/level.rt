//! What the search keeps of one turn.
ghost use Rattle.std.specs.Prelude.{IfOk};
ghost use Rattle.maximin.specs.Level.{IsLevelOf};

use crate::children::{Children, new_children};
use crate::moves::{Moves, new_moves};
use game::Game;
use std::alloc::{AllocError, Global};

/// What the search keeps of one turn: the joint moves of a state, and the states after a run of them.
#[derive(Drop)]
pub struct Level<P, M> {
    pub moves: Moves,
    pub children: Children<P, M>,
}

/// A level for a game.
pub fn new_level<G: Game>(alloc: Global, game: &G) -> Result<Level<G::Pos, G::Many>, AllocError>
    ensures { IfOk result (λ level. IsLevelOf G.Game game.now level) }
{
    let moves = new_moves(alloc, game.roles())?;
    let children = new_children(game)?;
    Ok(Level { moves, children })
}

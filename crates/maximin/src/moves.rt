//! The joint moves of a state, which are gone through run by run.
ghost use Rattle.std.specs.Prelude.{◌<◌, ◌≤◌, IfOk};
ghost use Rattle.statement.specs.Rules.{choices};
ghost use Rattle.maximin.specs.Moves.{AreMovesOf, CanPlay, IsGoneOver, IsTaken};
ghost use Rattle.maximin.specs.Turns.{StandsAt};

use crate::cursor::{Cursor, next_turn};
use crate::run::{Run, add_turn, new_run};
use game::Game;
use std::alloc::{AllocError, Global};

/// The joint moves of a state: a place among them, and a run of those before it.
#[derive(Drop)]
pub struct Moves {
    pub cursor: Cursor,
    pub run: Run,
}

/// Room for the joint moves of a game with this many roles.
pub fn new_moves(alloc: Global, roles: usize) -> Result<Moves, AllocError>
    ensures { IfOk result (λ moves. AreMovesOf roles moves) }
{
    let cursor = Cursor::new(alloc, roles)?;
    let run = new_run(alloc, roles)?;
    Ok(Moves { cursor, run })
}

/// Takes the joint move at the cursor and those behind it, at most `most` of them, and goes on behind them. Tells whether there are
/// more.
pub fn gather<G: Game>(
    game: &G,
    from: &G::Pos,
    role: usize,
    own: u32,
    most: usize,
    moves: &mut Moves,
) -> bool
    requires fits { G.fits game.now from.now }
    requires own { CanPlay (G.rules game.now) (G.state game.now from.now) role own }
    requires some { 0 < most }
    requires few { most ≤ 64 }
    requires moves { AreMovesOf (G.rules game.now).roles moves.old }
    requires stands { StandsAt (choices (G.rules game.now) (G.state game.now from.now) role own) moves.old.cursor.places.items
        moves.old.cursor.joint.items }
    ensures taken { IsTaken (G.rules game.now) most moves.old moves.new }
    ensures left { IsGoneOver (choices (G.rules game.now) (G.state game.now from.now) role own) result moves.old moves.new }
{
    moves.run.count = 0;
    'turns: loop {
        add_turn(&moves.cursor.joint, &mut moves.run);
        if !next_turn(game, from, role, own, &mut moves.cursor) {
            return false;
        }
        if moves.run.count == most {
            return true;
        }
    }
}

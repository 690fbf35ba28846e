//! Whether play can go on.
ghost use Rattle.std.specs.Prelude.{◌≡◌};
ghost use Rattle.statement.specs.Rules.{is_stuck as stuck};

use crate::game::Game;

/// Whether some role has no legal move. A state in which the game has ended is not called stuck, whatever this answers.
pub fn is_stuck<G: Game>(game: &G, p: &G::Pos) -> bool
    requires { G.fits game.now p.now }
    ensures { result ≡ stuck (G.rules game.now) (G.state game.now p.now) }
{
    for role in 0..game.roles() {
        if game.legal(p, role, 0).is_none() {
            return true;
        }
    }
    false
}

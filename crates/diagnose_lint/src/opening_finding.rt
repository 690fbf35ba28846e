//! What is found of how play stands at the start.
ghost use Rattle.std.specs.Prelude.{OnOk, IfOk, List, ◌≡◌, ◌<◌, false};
ghost use Rattle.std.specs.List.{All};
ghost use Rattle.statement.specs.Clause.{Alternative};
ghost use Rattle.ground_instances.specs.GroundView.{IsGround};
ghost use Rattle.diagnose_lint.specs.Openings.{IsTrueOpening, AreOpenings};

use game::Game;
use game_rules::GroundGame;
use ground_instances::FlatGround;
use std::alloc::{AllocError, Global};

/// What is found of how play stands at the start.
#[derive(Clone, Copy, Debug, PartialEq, Eq)]
pub enum Opening {
    /// The game has ended.
    Ended,
    /// The game goes on, and the role of this number has no legal move.
    Idle(usize),
}

/// Adds a role, if it has no legal move in the start state of a game that goes on.
fn add_if_idle<G: Game>(
    game: &G,
    start: &G::Pos,
    role: usize,
    found: &mut Vec<Opening>,
) -> Result<(), AllocError>
    requires fits { G.fits game.now start.now }
    requires start { G.state game.now start.now ≡ (G.rules game.now).start }
    requires goes_on { (G.rules game.now).ended (G.rules game.now).start ≡ false }
    requires role { role < (G.rules game.now).roles }
    requires found { All (IsTrueOpening (G.rules game.now)) found.old.items }
    ensures { OnOk result (All (IsTrueOpening (G.rules game.now)) found.new.items) }
{
    if game.legal(start, role, 0).is_some() {
        return Ok(());
    }
    found.push(Opening::Idle(role))?;
    Ok(())
}

/// Adds the roles that have no legal move in the start state of a game that goes on.
fn add_idle<G: Game>(game: &G, start: &G::Pos, found: &mut Vec<Opening>) -> Result<(), AllocError>
    requires fits { G.fits game.now start.now }
    requires start { G.state game.now start.now ≡ (G.rules game.now).start }
    requires goes_on { (G.rules game.now).ended (G.rules game.now).start ≡ false }
    requires found { All (IsTrueOpening (G.rules game.now)) found.old.items }
    ensures { OnOk result (All (IsTrueOpening (G.rules game.now)) found.new.items) }
{
    for role in 0..game.roles() {
        add_if_idle(game, start, role, found)?;
    }
    Ok(())
}

/// What is found of how a game stands at the start.
fn openings_in<G: Game>(alloc: Global, game: &G) -> Result<Vec<Opening>, AllocError>
    ensures { IfOk result (λ found. All (IsTrueOpening (G.rules game.now)) found.items) }
{
    let start = game.fresh()?;
    let mut found = Vec::new(alloc);
    if game.ended(&start) {
        found.push(Opening::Ended)?;
        return Ok(found);
    }
    add_idle(game, &start, &mut found)?;
    Ok(found)
}

/// What is found of how play stands at the start of the game that an instantiation describes: that it has ended, or else the roles without a
/// legal move. The type `G` says who plays the game. It fails only for want of memory.
pub fn openings_of<G: GroundGame>(
    alloc: Global,
    ground: FlatGround,
) -> Result<Vec<Opening>, AllocError>
    ensures { IfOk result (λ found. (rules : List Alternative) → IsGround rules ground → AreOpenings rules found.items) }
{
    let game = G::over(alloc, ground)?;
    let found = openings_in(alloc, &game)?;
    Ok(found)
}

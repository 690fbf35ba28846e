//! A joint move and the state after it.
ghost use Rattle.std.specs.Prelude.{◌≡◌, IfOk};
ghost use Rattle.share.specs.Step.{IsStepOf};

use game::{Game, Joint, new_joint};
use std::alloc::{AllocError, Global};

/// The joint move of a task, and the state after it.
#[derive(Drop)]
pub struct Step<P> {
    pub joint: Joint,
    pub position: P,
}

/// A step of this game.
pub fn new_step<G: Game>(alloc: Global, game: &G) -> Result<Step<G::Pos>, AllocError>
    ensures { IfOk result (λ step. IsStepOf G.Game game.now step) }
{
    let joint = new_joint(alloc, game.roles())?;
    let position = game.fresh()?;
    Ok(Step { joint, position })
}

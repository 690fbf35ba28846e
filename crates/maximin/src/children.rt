//! The states after a run.
ghost use Rattle.std.specs.Prelude.{IfOk};
ghost use Rattle.maximin.specs.Children.{AreChildrenOf};

use crate::ahead::{Ahead, new_ahead};
use crate::run::LONGEST_RUN;
use game::Game;
use std::alloc::AllocError;

/// The states after a run of joint moves, what is known of them, and one of them that was taken.
#[derive(Drop)]
pub struct Children<P, M> {
    pub many: M,
    pub position: P,
    pub ahead: Ahead,
    /// By state the hash by which other workers mark it, where it was looked up beside others. No answer rests on them.
    pub hashes: [u64; LONGEST_RUN],
}

/// Room for the states of a game.
pub fn new_children<G: Game>(game: &G) -> Result<Children<G::Pos, G::Many>, AllocError>
    ensures { IfOk result (λ children. AreChildrenOf G.Game game.now children) }
{
    let many = game.new_many()?;
    let position = game.fresh()?;
    Ok(Children {
        many,
        position,
        ahead: new_ahead(0),
        hashes: [0; LONGEST_RUN],
    })
}

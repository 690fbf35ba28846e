//! What all levels of a search share.
ghost use Rattle.std.specs.Prelude.{IfOk};
ghost use Rattle.maximin.specs.Memory.{IsMemoryOf};

use crate::history::History;
use crate::memory::Memory;
use crate::sight::Sight;
use game::Game;
use std::alloc::AllocError;

/// What all levels of a search share: room to step many joint moves at once, what is remembered of moves and of states, and what is
/// seen of other searches.
#[derive(Drop)]
pub struct Tools<G: Game> {
    pub wide: G::Wide,
    pub history: History,
    pub memory: Memory<G>,
    pub sight: Sight,
    /// Whether joint moves of several states are judged at once.
    pub judges: bool,
}

/// What a search of a game needs besides its levels.
pub fn new_tools<G: Game>(
    game: &G,
    history: History,
    memory: Memory<G>,
    sight: Sight,
) -> Result<Tools<G>, AllocError>
    requires { IsMemoryOf G.Game game.now memory }
    ensures wide { IfOk result (λ tools. G.fits_wide game.now tools.wide) }
    ensures memory { IfOk result (λ tools. IsMemoryOf G.Game game.now tools.memory) }
{
    let judges = game.abreast() > 1;
    match game.new_wide() {
        Ok(wide) => Ok(Tools {
            wide,
            history,
            memory,
            sight,
            judges,
        }),
        Err(refused) => Err(refused),
    }
}

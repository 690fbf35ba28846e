//! The game of rules.
ghost use Rattle.std.specs.Prelude.{◌≡◌, IfOk, IfSome, Ok};
ghost use Rattle.game_rules.specs.RuleState.{IsGameOver};
ghost use Rattle.statement.specs.declared.width.Width.TheVariants.{Plain};
ghost use Rattle.program_replies.specs.Playing.{PlaysText};

use crate::reading::{Reading, read};
use game_rules::GroundGame;
use ground::{GroundFault, instantiate_flat_alone};
use ground_instances::FlatGround;
use statement::Width;
use std::alloc::{AllocError, AllocGlobal, Global};

/// The game of an instantiation, or none where there is none. It fails only for want of memory.
pub fn game_over<G: GroundGame>(
    alloc: Global,
    instantiated: Result<FlatGround, GroundFault>,
) -> Result<Option<G>, AllocError>
    ensures { IfOk result (λ made. IfSome made (λ g. (instantiated ≡ Ok (G.source g)) × IsGameOver (G.source g) (G.rules g) (G.role_name g) (G.move_name g))) }
{
    match instantiated {
        Ok(ground) => Ok(Some(G::over(alloc, ground)?)),
        Err(GroundFault::NoMemory) => Err(AllocError),
        Err(_) => Ok(None),
    }
}

/// The game of rules, or none where they have a fault or pass a limit. The calling thread does all the work. It fails only for want of
/// memory.
pub fn game_alone<G: GroundGame, T: AllocGlobal>(
    rt: &T,
    rules: &[u8],
) -> Result<Option<G>, AllocError>
    ensures { IfOk result (λ made. IfSome made (λ g. PlaysText Plain rules.now (G.source g) (G.rules g) (G.role_name g) (G.move_name g))) }
{
    let Reading::Rules(read) = read(rt.alloc(), rules)? else {
        return Ok(None);
    };
    let instantiated = instantiate_flat_alone(rt, &read, Width::Plain);
    drop(read);
    game_over(rt.alloc(), instantiated)
}

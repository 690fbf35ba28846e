//! Games that are made of an instantiation.
ghost use Rattle.std.specs.Prelude.{◌≡◌, ℕ, List, length, IfOk};
ghost use Rattle.ground_instances.specs.declared.flat_ground.FlatGround.{FlatGround};
ghost use Rattle.game.specs.Keys.{state_of_bits};
ghost use Rattle.game_rules.specs.RuleState.{IsGameOver};

use game::Game;
use ground_instances::FlatGround;
use std::alloc::{AllocError, Global};

/// A game that an instantiation describes, made of it. The type says who plays it, and over what: all of them are the same game.
pub trait GroundGame: Game + Drop {
    /// The instantiation that the game is made of.
    ghost source: { Self → FlatGround };

    /// The game of the instantiation. It fails only for want of memory.
    fn over(alloc: Global, ground: FlatGround) -> Result<Self, AllocError>
        ensures plays { IfOk result (λ game. IsGameOver ground (Self.rules game) (Self.role_name game) (Self.move_name game)) }
        ensures keeps { IfOk result (λ game. source game ≡ ground) };

    /// The instantiation that the game is made of.
    fn instantiation(&self) -> &FlatGround
        ensures { result.now ≡ source self.now };

    ghost keyed_by_bits: { (g : Self) (key : List ℕ) → Self.keyed g key ≡ state_of_bits (length (source g).starts.items) key };
}

//! The rule of the tables, and the names of its steps.
ghost use Rattle.std.specs.Prelude.{◌≡◌, ℕ};
ghost use Rattle.search_table.specs.Sharing.{AreGuarded, Holds, IsRight};

use crate::position_table::PositionTable;
use atomic_table::{Play, TableRule};
use game::Game;
use std::marker::PhantomData;

/// Each table is right where it is at home. A seat knows of which game, as the play of a step cannot read what the tables were told.
pub struct Sharing<G> {
    game: PhantomData<G>,
}

impl<G: Game> TableRule<PositionTable, G, G> for Sharing<G> {
    ghost holds = { λ game. AreGuarded (IsRight G.Game game) };

    ghost first = { λ game. game };
}

/// A table is asked for.
pub struct Takes<G> {
    game: PhantomData<G>,
}

impl<G: Game> Play<PositionTable, G> for Takes<G> {
    ghost then = { λ step before found after. found ≡ 0 → Holds (IsRight G.Game before.0) step.word after };
}

/// A table is given back.
pub struct Gives;

impl<G> Play<PositionTable, G> for Gives {
    ghost then = { λ step before found after. Unit {0} };
}

//! The laws of what a game of steps shows.
ghost use Rattle.std.specs.Prelude.{ℕ, ◌≡◌, List};
ghost use Rattle.statement.specs.Tree.{Tree};
ghost use Rattle.statement.specs.Clause.{Alternative, Relation};
ghost use Rattle.statement.specs.Dependence.{IsAcyclic, IsAmong, is_among};
ghost use Rattle.statement.specs.Items.{alternatives};
ghost use Rattle.statement.specs.Listing.{base_list};
ghost use Rattle.statement.specs.GoalsAndMoves.{dropped};
ghost use Rattle.meaning.specs.Listed.{IsWellFormed};
ghost use Rattle.meaning.specs.Extension.{AreFounded};
ghost use Rattle.unroll_strata.specs.Steps.{step_game};
ghost use Rattle.unroll_strata.specs.Founded.{IsReached, IsStepGame, StandAlone};

use crate::step_laws::{based_items_say_what_can_be, stepped_items_say_the_steps};
use meaning::{
    holds_by_a_rule, the_context_is_listed, the_listing_is_exact, what_is_possible_and_fixed_holds,
};

/// Where the game of the steps of own relations drops nothing, and play comes to all that its states can have, what is written of these
/// relations is what their rules derive.
pub fn what_play_comes_to_is_derived()
    ensures { (own below : List Relation) (rules out steps : List Alternative) → IsAcyclic out → IsWellFormed steps
        → StandAlone own below rules out → IsStepGame own below rules out steps → dropped steps ≡ 0
        → ((t : Tree) → IsAmong t (base_list steps) → (n : ℕ) × IsReached steps n t)
        → AreFounded rules out (λ p. is_among p own) }
{
    holds_by_a_rule();
    the_context_is_listed();
    the_listing_is_exact();
    what_is_possible_and_fixed_holds();
}

/// The rules of the items of a made game are what is written below, what states can have, and the steps.
pub fn step_games_have_their_rules()
    ensures { (own below : List Relation) (found written : List Tree)
        → IsStepGame own below (alternatives found) (alternatives written) (alternatives (step_game own below found written)) }
{
    stepped_items_say_the_steps();
    based_items_say_what_can_be();
}

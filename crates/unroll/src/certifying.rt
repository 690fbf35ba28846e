//! Whether the game of the steps of relations comes to all that is written of them, and to nothing else.
ghost use Rattle.std.specs.Prelude.{ℕ, ◌≡◌, map, IfOk};
ghost use Rattle.std.specs.Bool.{OnTrue};
ghost use Rattle.statement.specs.Tree.{Tree};
ghost use Rattle.statement.specs.Clause as said;
ghost use Rattle.statement.specs.Dependence.{IsAmong, is_among};
ghost use Rattle.statement.specs.GoalsAndMoves.{dropped};
ghost use Rattle.statement.specs.Items.{alternatives};
ghost use Rattle.statement.specs.Listing.{base_list};
ghost use Rattle.statement.specs.Profile.{HasNoFault};
ghost use Rattle.kif.specs.View.{trees_in};
ghost use Rattle.rules_relations.specs.Relations.{relation_in};
ghost use Rattle.meaning.specs.Extension.{AreFounded};
ghost use Rattle.unroll_strata.specs.Founded.{IsReached};

use crate::marking::comes_to_all;
use ground::{GroundFault, instantiate_flat_alone};
use kif::Expr;
use meaning::accepted_items_are_well_formed;
use rules::RuleSet;
use rules_relations::{Relation, RelationSet};
use statement::{RuleFault, Width};
use std::alloc::{AllocError, AllocGlobal, Global};
use unroll_strata::{
    stand_alone, step_game, step_games_have_their_rules, what_play_comes_to_is_derived,
};

/// Whether a game is accepted, drops nothing, and comes to each of its base propositions by instances that bring one each.
fn comes_to_its_base<T: AllocGlobal>(rt: &T, game: &[Expr<Global>]) -> Result<bool, AllocError>
    ensures { IfOk result (λ is_so. OnTrue is_so (HasNoFault (trees_in game.now) × (dropped (alternatives (trees_in game.now)) ≡ 0)
        × ((t : Tree) → IsAmong t (base_list (alternatives (trees_in game.now)))
        → (n : ℕ) × IsReached (alternatives (trees_in game.now)) n t))) }
{
    let alloc = rt.alloc();
    let rules = match RuleSet::check(alloc, game) {
        Ok(rules) => rules,
        Err(RuleFault::NoMemory) => return Err(AllocError),
        Err(_) => return Ok(false),
    };
    let ground = match instantiate_flat_alone(rt, &rules, Width::Wide) {
        Ok(ground) => ground,
        Err(GroundFault::NoMemory) => return Err(AllocError),
        Err(_) => return Ok(false),
    };
    if ground.dropped() != 0 {
        return Ok(false);
    }
    comes_to_all(alloc, &ground)
}

/// Whether what is written of own relations, and of those below them that this asks, is what the rules that were found derive of the own
/// ones: shown by the game of their steps. It is false as well where such a game cannot be made.
pub(crate) fn is_founded<'a, T: AllocGlobal>(
    rt: &T,
    found: &'a [Expr<Global>],
    written: &'a [Expr<Global>],
    own: &[Relation<'a>],
    in_own: &RelationSet<'a>,
    below: &RelationSet<'a>,
) -> Result<bool, AllocError>
    requires { (p : said.Relation) → is_among p in_own.now ≡ is_among p (map relation_in own.now) }
    ensures { IfOk result (λ is_so. OnTrue is_so (HasNoFault (trees_in written.now)
        → AreFounded (alternatives (trees_in found.now)) (alternatives (trees_in written.now)) (λ p. is_among p in_own.now))) }
{
    let alloc = rt.alloc();
    if !stand_alone(alloc, found, written, own, below)? {
        return Ok(false);
    }
    let game = step_game(alloc, found, written, in_own, below)?;
    accepted_items_are_well_formed();
    step_games_have_their_rules();
    what_play_comes_to_is_derived();
    comes_to_its_base(rt, &game)
}

//! The law of relations that are written as layers.
ghost use Rattle.std.specs.Prelude.{ℕ, Bool, List};
ghost use Rattle.statement.specs.Clause.{Alternative, Relation};
ghost use Rattle.meaning.specs.Listed.{IsWellFormed};
ghost use Rattle.meaning.specs.Extension.{IsAnswered};
ghost use Rattle.meaning.specs.Layers.{IsLayered, IsBounded};

use crate::laws::{holds_by_a_rule, kept_instances_suffice, what_is_possible_and_fixed_holds};
use crate::listing_laws::the_listing_is_exact;

/// Of relations that are written in layers, of which the last has no atom but by a way that passes one twice, what holds is what their rules
/// derive.
pub fn what_is_layered_is_answered()
    ensures { (rules out : List Alternative) (own : Relation → Bool) (word : ℕ → Relation → List ℕ) (n : ℕ) → IsWellFormed out
        → IsLayered rules out own word n → IsBounded out own word n → IsAnswered rules out own }
{
    holds_by_a_rule();
    kept_instances_suffice();
    the_listing_is_exact();
    what_is_possible_and_fixed_holds();
}

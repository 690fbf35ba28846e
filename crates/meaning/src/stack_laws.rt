//! The law of relations that are written in layers, each of which keeps the one before.
ghost use Rattle.std.specs.Prelude.{ℕ, suc, Bool, List};
ghost use Rattle.statement.specs.Clause.{Alternative, Relation};
ghost use Rattle.meaning.specs.Listed.{IsWellFormed};
ghost use Rattle.meaning.specs.Extension.{IsAnswered};
ghost use Rattle.meaning.specs.Stacks.{IsStacked, IsEnough};

use crate::laws::{holds_by_a_rule, kept_instances_suffice, what_is_possible_and_fixed_holds};
use crate::listing_laws::the_listing_is_exact;

/// Of relations that are written in layers that keep those before, of which the last has no more than the one before it, as paths through
/// different atoms are shorter, what holds is what their rules derive.
pub fn what_is_stacked_is_answered()
    ensures { (rules out : List Alternative) (own : Relation → Bool) (word : ℕ → Relation → List ℕ) (m : ℕ) → IsWellFormed out
        → IsStacked rules out own word (suc m) → IsEnough out own word m → IsAnswered rules out own }
{
    holds_by_a_rule();
    kept_instances_suffice();
    the_listing_is_exact();
    what_is_possible_and_fixed_holds();
}

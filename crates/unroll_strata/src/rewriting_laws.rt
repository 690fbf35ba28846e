//! The law of items that are written in another way.
ghost use Rattle.std.specs.Prelude.{List};
ghost use Rattle.statement.specs.Tree.{Tree};
ghost use Rattle.statement.specs.Clause.{Relation};
ghost use Rattle.statement.specs.Dependence.{is_among};
ghost use Rattle.statement.specs.Items.{alternatives};
ghost use Rattle.statement.specs.Profile.{HasNoFault};
ghost use Rattle.meaning.specs.Derivable.{IsStratified};
ghost use Rattle.meaning.specs.Extension.{IsAnswered};
ghost use Rattle.meaning.specs.Possible.{PlaysAs};
ghost use Rattle.unroll_strata.specs.Adding.{Rewrites, HasItsRanges};

use meaning::{
    accepted_items_are_well_formed, rules_stated_in_another_way_are_played_the_same,
    the_context_is_listed, the_listing_is_exact,
};

/// An accepted description that has all items of another but those of own relations, of which what holds is what that one's rules derive, and
/// behind them others of which that one says nothing, is played as that one, if its ranges are known: that one states `base` and `input`, or
/// no possible head is without effect.
pub fn what_is_rewritten_is_played_the_same()
    ensures { (own : List Relation) (items out : List Tree) → HasNoFault out → IsStratified (alternatives items) → Rewrites own items out
        → IsAnswered (alternatives items) (alternatives out) (λ p. is_among p own) → HasItsRanges items out
        → PlaysAs (alternatives items) (alternatives out) }
{
    accepted_items_are_well_formed();
    the_listing_is_exact();
    the_context_is_listed();
    rules_stated_in_another_way_are_played_the_same();
}

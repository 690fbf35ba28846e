//! The law of items that cross nothing.
ghost use Rattle.std.specs.Prelude.{List, All};
ghost use Rattle.statement.specs.Tree.{Tree};
ghost use Rattle.statement.specs.Items.{alternatives};
ghost use Rattle.meaning.specs.Derivable.{IsStratified};
ghost use Rattle.unroll_strata.specs.Resting.{RestsOnItsNegation};

/// Items of which none rests on itself through a negated atom are stratified.
pub fn items_that_cross_nothing_are_stratified()
    ensures { (items : List Tree) → All (λ t. ¬ RestsOnItsNegation items t) items → IsStratified (alternatives items) }
{}

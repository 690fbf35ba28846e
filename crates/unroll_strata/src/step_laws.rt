//! The laws of items that are turned into steps.
ghost use Rattle.std.specs.Prelude.{◌≡◌, List, map};
ghost use Rattle.statement.specs.Tree.{Tree};
ghost use Rattle.statement.specs.Clause.{Relation};
ghost use Rattle.statement.specs.Items.{item_alternatives};
ghost use Rattle.unroll_strata.specs.Steps.{based, based_item, stepped, step_item};

/// The alternatives of an item as a step are those of the item, each as a step.
pub fn stepped_items_say_the_steps()
    ensures { (own : List Relation) (t : Tree) → item_alternatives (step_item own t) ≡ map (stepped own) (item_alternatives t) }
{}

/// The alternatives of an item as what a state can have are those of the item, each as what a state can have.
pub fn based_items_say_what_can_be()
    ensures { (t : Tree) → item_alternatives (based_item t) ≡ map based (item_alternatives t) }
{}

//! The law of items in the form of the profile.
ghost use Rattle.std.specs.Prelude.{◌≡◌, true};
ghost use Rattle.statement.specs.Tree.{Tree, no_trees};
ghost use Rattle.statement.specs.Items.{item_alternatives};
ghost use Rattle.meaning.specs.Literals.{is_whole_item, whole_item_alternatives};
ghost use Rattle.unroll_strata.specs.Plain.{plain_item, role_literal};

/// An item of the whole language whose role is named, or that is no goal, has the same alternatives in the form of the profile.
pub fn plain_items_say_the_same()
    ensures { (t : Tree) → is_whole_item t ≡ true → role_literal t ≡ no_trees
        → item_alternatives (plain_item t) ≡ whole_item_alternatives t }
{}

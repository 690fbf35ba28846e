//! The laws of the orders of trees.
ghost use Rattle.std.specs.Prelude.{◌≡◌};
ghost use Rattle.std.specs.Cmp.{IsTotalOrder};
ghost use Rattle.std.specs.declared.cmp.Ordering.TheVariants.{Equal};
ghost use Rattle.statement.specs.Tree.{Tree, printed_cmp};
ghost use Rattle.statement.specs.Lexical.{HasNames};
ghost use Rattle.kif.specs.Marks.{marked_cmp};

/// Printed order is a total order, in which two trees are equal exactly if they are one tree, where
/// the names are of name bytes.
pub fn printed_order_is_a_total_order()
    ensures total { IsTotalOrder printed_cmp }
    ensures same { (t : Tree) → printed_cmp t t ≡ Equal }
    ensures only { (t u : Tree) → HasNames t → HasNames u → printed_cmp t u ≡ Equal → t ≡ u }
{}

/// What `order` answers is a total order of all trees, and is printed order where the names are of
/// name bytes.
pub fn order_is_a_total_order()
    ensures total { IsTotalOrder marked_cmp }
    ensures printed { (t u : Tree) → HasNames t → HasNames u → marked_cmp t u ≡ printed_cmp t u }
{}

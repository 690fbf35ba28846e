//! The items without what they state of `base` and `input`.
ghost use Rattle.std.specs.Prelude.{◌≡◌, ◌++◌, ◌∷◌, [], IfOk, OnOk};
ghost use Rattle.kif.specs.View.{tree_of, trees_in};
ghost use Rattle.unroll.specs.Played as play;
ghost use Rattle.unroll.specs.Played.{unranged};

use kif::{Expr, copy_to};
use rules_relations::{Relation, heads};
use std::alloc::{AllocError, Global};

/// Whether an item states which propositions there are, or which moves.
fn heads_a_range(item: &Expr<Global>) -> bool
    ensures { result ≡ play.heads_a_range (tree_of item.now) }
{
    let base = Relation {
        word: b"base",
        arity: 1,
    };
    let input = Relation {
        word: b"input",
        arity: 2,
    };
    heads(item, &base) || heads(item, &input)
}

/// Adds an item, unless it states which propositions or which moves there are.
fn add_unless_a_range(
    alloc: Global,
    item: &Expr<Global>,
    made: &mut Vec<Expr<Global>>,
) -> Result<(), AllocError>
    ensures { OnOk result (trees_in made.new.items ≡ trees_in made.old.items ++ unranged (tree_of item.now ∷ [])) }
{
    if heads_a_range(item) {
        return Ok(());
    }
    let copy = copy_to(alloc, item)?;
    made.push(copy)?;
    Ok(())
}

/// Adds those items that state neither.
fn add_unranged(
    alloc: Global,
    items: &[Expr<Global>],
    made: &mut Vec<Expr<Global>>,
) -> Result<(), AllocError>
    ensures { OnOk result (trees_in made.new.items ≡ trees_in made.old.items ++ unranged (trees_in items.now)) }
{
    for item in items {
        add_unless_a_range(alloc, item, made)?;
    }
    Ok(())
}

/// The items without those that state which propositions or which moves there are.
pub(crate) fn without_ranges(
    alloc: Global,
    items: &[Expr<Global>],
) -> Result<Vec<Expr<Global>>, AllocError>
    ensures { IfOk result (λ made. trees_in made.items ≡ unranged (trees_in items.now)) }
{
    let mut made = Vec::new(alloc);
    add_unranged(alloc, items, &mut made)?;
    Ok(made)
}

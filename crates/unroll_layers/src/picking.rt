//! Items that head a relation, in their order.
ghost use Rattle.std.specs.Prelude.{◌≡◌, map, filter, IfOk};
ghost use Rattle.kif.specs.View.{trees_in};
ghost use Rattle.rules_relations.specs.Relations.{relation_in};
ghost use Rattle.rules_relations.specs.Asking.{heads_it};
ghost use Rattle.unroll_layers.specs.Kinds as kind;
ghost use Rattle.unroll_layers.specs.Listing.{trees_at};

use crate::kinds::is_of_kind;
use kif::Expr;
use rules_relations::{Relation, heads};
use std::alloc::{AllocError, Global};

/// The items that head a relation and have own atoms, or none where they are not inner.
pub(crate) fn of_kind<'a>(
    alloc: Global,
    items: &'a [Expr<Global>],
    own: &[Relation],
    relation: &Relation,
    is_inner: bool,
) -> Result<Vec<&'a Expr<Global>>, AllocError>
    ensures { IfOk result (λ made. trees_at made.items
        ≡ filter (kind.is_of_kind (map relation_in own.now) (relation_in relation.now) is_inner) (trees_in items.now)) }
{
    let mut made = Vec::new(alloc);
    for item in items {
        if is_of_kind(item, own, relation, is_inner) {
            made.push(item)?;
        }
    }
    Ok(made)
}

/// The items that head a relation.
pub(crate) fn heading<'a>(
    alloc: Global,
    items: &'a [Expr<Global>],
    relation: &Relation,
) -> Result<Vec<&'a Expr<Global>>, AllocError>
    ensures { IfOk result (λ made. trees_at made.items ≡ filter (heads_it (relation_in relation.now)) (trees_in items.now)) }
{
    let mut made = Vec::new(alloc);
    for item in items {
        if heads(item, relation) {
            made.push(item)?;
        }
    }
    Ok(made)
}

//! Items that say that own atoms hold where they do in a layer.
ghost use Rattle.std.specs.Prelude.{◌≡◌, map};
ghost use Rattle.std.specs.List.{list_any};
ghost use Rattle.statement.specs.Items.{atom_in};
ghost use Rattle.kif.specs.View.{tree_of, trees_in};
ghost use Rattle.rules_relations.specs.Relations.{relation_in};
ghost use Rattle.rules_relations.specs.Asking.{some_item};
ghost use Rattle.meaning.specs.Names.{names_of};
ghost use Rattle.unroll_layers.specs.Layering as test;

use crate::kinds::{heads_one, is_plain};
use crate::literals::is_renamed;
use kif::Expr;
use rules_profile::split_item;
use rules_relations::Relation;
use std::alloc::Global;

/// Whether the second tree is the atom that the first is, in some layer.
fn is_in_some_layer(
    first: &Expr<Global>,
    second: &Expr<Global>,
    own: &[Relation],
    layers: &[Vec<Vec<u8>>],
) -> bool
    ensures { result ≡ list_any (λ names. test.is_renamed (map relation_in own.now) names (atom_in (tree_of first.now)) (tree_of second.now))
        (names_of layers.now) }
{
    for names in layers {
        if is_renamed(first, second, own, names) {
            return true;
        }
    }
    false
}

/// Whether the one literal of a body is the head in some layer.
fn is_top_body(
    head: &Expr<Global>,
    body: &[Expr<Global>],
    own: &[Relation],
    layers: &[Vec<Vec<u8>>],
) -> bool
    ensures { result ≡ test.is_top_body (map relation_in own.now) (names_of layers.now) (atom_in (tree_of head.now)) (trees_in body.now) }
{
    match body {
        [literal] => {
            let is_top = is_in_some_layer(head, literal, own, layers);
            is_plain(literal) && is_top
        }
        _ => false,
    }
}

/// Whether an item heads an own relation, and does not say that what is in a layer holds.
fn is_stray_top(item: &Expr<Global>, own: &[Relation], layers: &[Vec<Vec<u8>>]) -> bool
    ensures { result ≡ test.is_stray_top (map relation_in own.now) (names_of layers.now) (tree_of item.now) }
{
    if !heads_one(item, own) {
        return false;
    }
    let (head, body) = split_item(item);
    !is_top_body(head, body, own, layers)
}

/// Whether some item heads an own relation, and does not say that what is in a layer holds.
pub(crate) fn is_some_stray_top(
    items: &[Expr<Global>],
    own: &[Relation],
    layers: &[Vec<Vec<u8>>],
) -> bool
    ensures { result ≡ some_item (test.is_stray_top (map relation_in own.now) (names_of layers.now)) (trees_in items.now) }
{
    for item in items {
        if is_stray_top(item, own, layers) {
            return true;
        }
    }
    false
}

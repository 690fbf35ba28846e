//! The items of a layer, beside those that were found, and the one that carries the layer before.
ghost use Rattle.std.specs.Prelude.{◌≡◌, map};
ghost use Rattle.statement.specs.Tree.{trees_of};
ghost use Rattle.statement.specs.Items.{atom_in};
ghost use Rattle.kif.specs.View.{tree_of, trees_in};
ghost use Rattle.rules_relations.specs.Relations.{relation_in};
ghost use Rattle.unroll_layers.specs.Naming.{words_in};
ghost use Rattle.unroll_layers.specs.Layering as test;
ghost use Rattle.unroll_layers.specs.Layering.{pairwise, pairwise_and_last};
ghost use Rattle.unroll_layers.specs.Listing.{trees_at};

use crate::kinds::is_plain;
use crate::literals::{is_atom_of, is_item_of};
use kif::Expr;
use rules_profile::split_item;
use rules_relations::{Relation, split_atom};
use std::alloc::Global;

/// Whether items are others in a layer, each that at its place.
pub(crate) fn are_items_of(
    firsts: &[&Expr<Global>],
    seconds: &[&Expr<Global>],
    own: &[Relation],
    names: &[Vec<u8>],
    before: &[Vec<u8>],
) -> bool
    ensures { result ≡ pairwise (test.is_item_of (map relation_in own.now) (words_in names.now) (words_in before.now))
        (trees_at firsts.now) (trees_at seconds.now) }
{
    if firsts.len() != seconds.len() {
        return false;
    }
    for (place, first) in firsts.iter().enumerate() {
        if !is_item_of(first, seconds[place], own, names, before) {
            return false;
        }
    }
    true
}

/// Whether the one literal of a body is the head under another name.
fn is_carried_body(head: &Expr<Global>, body: &[Expr<Global>], word: &[u8]) -> bool
    ensures { result ≡ test.is_carried_body word.now (atom_in (tree_of head.now)) (trees_in body.now) }
{
    match body {
        [literal] => {
            let (_, terms) = split_atom(head);
            let is_carried = is_atom_of(literal, word, terms);
            is_plain(literal) && is_carried
        }
        _ => false,
    }
}

/// Whether an item says that what it heads holds where the same does under another name.
fn is_carrying(item: &Expr<Global>, word: &[u8]) -> bool
    ensures { result ≡ test.is_carrying word.now (tree_of item.now) }
{
    let (head, body) = split_item(item);
    is_carried_body(head, body, word)
}

/// Whether items are others in a layer, each that at its place, and behind them there is one that carries what has another name.
pub(crate) fn are_kept(
    firsts: &[&Expr<Global>],
    seconds: &[&Expr<Global>],
    own: &[Relation],
    names: &[Vec<u8>],
    before: &[Vec<u8>],
    word: &[u8],
) -> bool
    ensures { result ≡ pairwise_and_last (test.is_item_of (map relation_in own.now) (words_in names.now) (words_in before.now)) (test.is_carrying word.now)
        (trees_at firsts.now) (trees_at seconds.now) }
{
    let Some((last, others)) = seconds.split_last() else {
        return false;
    };
    let is_last = is_carrying(last, word);
    is_last && are_items_of(firsts, others, own, names, before)
}

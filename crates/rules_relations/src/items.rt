//! What single items and lists of items state and ask.
ghost use Rattle.std.specs.Prelude.{◌≡◌, ◌&&◌};
ghost use Rattle.kif.specs.View.{tree_of, trees_in};
ghost use Rattle.rules_relations.specs.Relations.{relation_in};
ghost use Rattle.rules_relations.specs.Asking.{heads_it, asks_it, binds_it, links_them, some_item};

use crate::literals::some_in_all;
use crate::probe::Probe;
use crate::relation::{Relation, head_of, is_same};
use kif::Expr;
use rules_profile::split_item;
use std::alloc::Allocator;

/// Whether an item heads a relation.
pub fn heads<A: Allocator>(item: &Expr<A>, relation: &Relation) -> bool
    ensures { result ≡ heads_it (relation_in relation.now) (tree_of item.now) }
{
    let head = head_of(item);
    is_same(head.word, head.arity, relation)
}

/// Whether a literal of an item's body has a relation.
pub fn asks<A: Allocator>(item: &Expr<A>, relation: &Relation) -> bool
    ensures { result ≡ asks_it (relation_in relation.now) (tree_of item.now) }
{
    let (_, body) = split_item(item);
    some_in_all(body, Probe::Relation, relation.word, relation.arity)
}

/// Whether a positive literal of an item's body, other than a `distinct`, has a variable.
pub fn binds<A: Allocator>(item: &Expr<A>, variable: &[u8]) -> bool
    ensures { result ≡ binds_it variable.now (tree_of item.now) }
{
    let (_, body) = split_item(item);
    some_in_all(body, Probe::Variable, variable, 0)
}

/// Whether some item heads a relation.
pub fn is_stated<A: Allocator>(items: &[Expr<A>], relation: &Relation) -> bool
    ensures { result ≡ some_item (heads_it (relation_in relation.now)) (trees_in items.now) }
{
    for item in items {
        if heads(item, relation) {
            return true;
        }
    }
    false
}

/// Whether an item heads the first relation and asks the second.
fn links<A: Allocator>(item: &Expr<A>, from: &Relation, to: &Relation) -> bool
    ensures { result ≡ links_them (relation_in from.now) (relation_in to.now) (tree_of item.now) }
{
    heads(item, from) && asks(item, to)
}

/// Whether some item heads the first relation and asks the second: each is looked at.
fn some_links<A: Allocator>(items: &[Expr<A>], from: &Relation, to: &Relation) -> bool
    ensures { result ≡ some_item (links_them (relation_in from.now) (relation_in to.now)) (trees_in items.now) }
{
    for item in items {
        if links(item, from, to) {
            return true;
        }
    }
    false
}

/// Whether some item heads the first relation and asks the second. The item at a place is looked at first, so that a right guess saves the
/// look at all others.
pub fn leads_to<A: Allocator>(
    items: &[Expr<A>],
    from: &Relation,
    to: &Relation,
    guess: usize,
) -> bool
    ensures { result ≡ some_item (links_them (relation_in from.now) (relation_in to.now)) (trees_in items.now) }
{
    if guess < items.len() && links(&items[guess], from, to) {
        return true;
    }
    some_links(items, from, to)
}

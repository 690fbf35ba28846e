//! Ways from relation to relation, along what items head and ask.
ghost use Rattle.std.specs.Prelude.{◌≡◌, ◌&&◌, ◌<◌, true, length, map, IfOk, IfSome};
ghost use Rattle.statement.specs.Clause.{relation_of};
ghost use Rattle.statement.specs.Items.{item_head};
ghost use Rattle.kif.specs.View.{tree_of, trees_in};
ghost use Rattle.rules_relations.specs.Relations.{relation_in};
ghost use Rattle.diagnose_explain.specs.Ways.{is_chain, ends_with, asks_first, IsWayToSome};

use crate::graph::shortest;
use kif::Expr;
use rules_relations::{Relation, asks, head_of, is_same, leads_to};
use std::alloc::{AllocError, Allocator, Global};

/// The place of an item that may lead to a step.
fn guess_at(places: &[usize], step: usize) -> usize {
    match places.get(step) {
        Some(place) => *place,
        None => usize::MAX,
    }
}

/// Whether each relation leads to the next, from one that stands before them. For each step the item at a place is looked at first.
fn is_chain<A: Allocator>(
    items: &[Expr<A>],
    from: &Relation,
    steps: &[Relation],
    places: &[usize],
) -> bool
    ensures { result ≡ is_chain (trees_in items.now) (relation_in from.now) (map relation_in steps.now) }
{
    let mut here = *from;
    let mut at: usize = 0;
    for step in steps {
        if !leads_to(items, &here, step, guess_at(places, at)) {
            return false;
        }
        here = *step;
        at = at.wrapping_add(1);
    }
    true
}

/// Whether the last of the relations is this one.
fn ends_with(steps: &[Relation], to: &Relation) -> bool
    ensures { result ≡ ends_with (relation_in to.now) (map relation_in steps.now) }
{
    match steps.last() {
        Some(last) => is_same(last.word, last.arity, to),
        None => false,
    }
}

/// Whether an item asks the first of the relations.
fn asks_first<A: Allocator>(item: &Expr<A>, steps: &[Relation]) -> bool
    ensures { result ≡ asks_first (tree_of item.now) (map relation_in steps.now) }
{
    match steps.first() {
        Some(first) => asks(item, first),
        None => false,
    }
}

/// Whether the relations are a way from an item's own relation to this one, by what the item asks.
fn is_way<A: Allocator>(
    items: &[Expr<A>],
    item: &Expr<A>,
    steps: &[Relation],
    places: &[usize],
    to: &Relation,
) -> bool
    ensures { result ≡ (ends_with (relation_in to.now) (map relation_in steps.now)
        && (asks_first (tree_of item.now) (map relation_in steps.now)
        && is_chain (trees_in items.now) (relation_of (item_head (tree_of item.now))) (map relation_in steps.now))) }
{
    let from = head_of(item);
    ends_with(steps, to) && asks_first(item, steps) && is_chain(items, &from, steps, places)
}

/// Whether relations are a way from an item's own relation to one of some, by what the item asks.
fn is_way_to_some<A: Allocator>(
    items: &[Expr<A>],
    item: &Expr<A>,
    steps: &[Relation],
    places: &[usize],
    targets: &[Relation],
) -> bool
    ensures { result ≡ true → IsWayToSome (trees_in items.now) (tree_of item.now) (map relation_in targets.now) (map relation_in steps.now) }
{
    for to in targets {
        if is_way(items, item, steps, places, to) {
            return true;
        }
    }
    false
}

/// A shortest way from an item's own relation to one of some relations, by what the item asks: the relations behind the item's own, each
/// of which the one before leads to, with one of these at the end.
pub fn way_from<'a, A: Allocator>(
    alloc: Global,
    items: &'a [Expr<A>],
    item: &'a Expr<A>,
    targets: &[Relation],
) -> Result<Option<Vec<Relation<'a>>>, AllocError>
    ensures { IfOk result (λ found. IfSome found (λ steps. IsWayToSome (trees_in items.now) (tree_of item.now) (map relation_in targets.now) (map relation_in steps.items))) }
{
    let Some(trail) = shortest(alloc, items, item, targets)? else {
        return Ok(None);
    };
    if !is_way_to_some(items, item, &trail.steps, &trail.places, targets) {
        return Ok(None);
    }
    Ok(Some(trail.steps))
}

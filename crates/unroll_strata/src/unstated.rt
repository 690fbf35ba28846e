//! Rules that ask what play can come to, where no item states it.
ghost use Rattle.std.specs.Prelude.{◌≡◌, ◌&&◌, ◌||◌, not, IfErr, IsTrue, OnOk};
ghost use Rattle.kif.specs.View.{tree_of, trees_in};
ghost use Rattle.rules.specs.ItemLinks.{IsFirstSuch};
ghost use Rattle.rules_relations.specs.Relations.{relation_in};
ghost use Rattle.rules_relations.specs.Asking.{asks_it, heads_it, some_item};
ghost use Rattle.unroll_strata.specs.Lawful.{IsRefusal};
ghost use Rattle.unroll_strata.specs.Missing.{AreRangesStated, AsksUnstated};

use crate::fault::UnrollFault;
use kif::Expr;
use rules_relations::{Relation, asks, is_stated};
use std::alloc::Global;

/// A relation, and whether some item states it.
#[derive(Clone, Copy)]
struct Range {
    relation: Relation<'static>,
    is_stated: bool,
}

/// Whether an item asks a relation that no item states.
fn is_missed(item: &Expr<Global>, range: &Range) -> bool
    ensures { result ≡ (not range.now.is_stated && asks_it (relation_in range.now.relation) (tree_of item.now)) }
{
    !range.is_stated && asks(item, &range.relation)
}

/// The number, from 1, of the first item that asks one of two relations, where no item states it.
fn first_asking(items: &[Expr<Global>], one: &Range, other: &Range) -> Option<usize>
    ensures { IsFirstSuch (λ item. IsTrue ((not one.now.is_stated && asks_it (relation_in one.now.relation) (tree_of item))
        || (not other.now.is_stated && asks_it (relation_in other.now.relation) (tree_of item)))) items.now result }
{
    for (place, item) in items.iter().enumerate() {
        if is_missed(item, one) || is_missed(item, other) {
            return Some(place + 1);
        }
    }
    None
}

/// A relation, and whether an item states it.
fn range_of(items: &[Expr<Global>], relation: Relation<'static>) -> Range
    ensures relation { result.relation ≡ relation.entry }
    ensures stated { result.is_stated ≡ some_item (heads_it (relation_in relation.entry)) (trees_in items.now) }
{
    Range {
        relation,
        is_stated: is_stated(items, &relation),
    }
}

/// The number, from 1, of the first item that asks `base` or `input`, where no item states it.
fn first_unstated(items: &[Expr<Global>]) -> Option<usize>
    ensures { IsFirstSuch (AsksUnstated (trees_in items.now)) (trees_in items.now) result }
{
    let base = range_of(
        items,
        Relation {
            word: b"base",
            arity: 1,
        },
    );
    let input = range_of(
        items,
        Relation {
            word: b"input",
            arity: 2,
        },
    );
    first_asking(items, &base, &input)
}

/// Refuses items that ask `base` or `input`, and of which none states it. What is stated for play would be seen by them.
pub fn refuse_unstated(items: &[Expr<Global>]) -> Result<(), UnrollFault>
    ensures stated { OnOk result (AreRangesStated (trees_in items.now)) }
    ensures fault { IfErr result (IsRefusal (trees_in items.now)) }
{
    match first_unstated(items) {
        None => Ok(()),
        Some(item) => Err(UnrollFault::Unstated(item)),
    }
}

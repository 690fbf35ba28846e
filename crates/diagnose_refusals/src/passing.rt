//! The item with which rules pass a limit of instantiation.
use bumpalo::Bump;
use ground::{GroundFault, instantiate_flat_alone};
use indexmap::IndexMap;
use kif::{Expr, KifFault, read, write};
use rules::{RuleFault, RuleSet};
use rules_profile::Word;
use rules_relations::{Relation, head_of};
use statement::Width;
use std::alloc::{AllocError, AllocGlobal, Allocator, Global};

/// The relations that head items, with their ranks: that of `role` first, since no description is without it, and the others in the order
/// of instantiation.
fn ranks_of<'a>(
    alloc: Global,
    rules: &'a RuleSet,
) -> Result<IndexMap<Relation<'a>, usize>, AllocError> {
    let mut ranks = IndexMap::new(alloc);
    for (rank, number) in rules.relations_in_order().iter().enumerate() {
        if *number < rules.count_relations() {
            let signature = rules.relation(*number);
            if signature.word < rules.count_symbols() {
                let relation = Relation {
                    word: rules.symbol(signature.word),
                    arity: signature.arity,
                };
                ranks.insert(relation, rank.saturating_add(1))?;
            }
        }
    }
    Ok(ranks)
}

/// The rank of an item.
fn rank_of<'a>(ranks: &IndexMap<Relation<'a>, usize>, head: Relation<'a>) -> usize {
    if Word::Role.is_named(head.word) {
        return 0;
    }
    match ranks.get(&head) {
        Some(rank) => *rank,
        None => usize::MAX,
    }
}

/// The places of the items in the order in which they are instantiated.
fn order_of<'a, A: Allocator>(
    alloc: Global,
    items: &'a [Expr<A>],
    rules: &'a RuleSet,
) -> Result<Vec<(usize, usize)>, AllocError> {
    let ranks = ranks_of(alloc, rules)?;
    let mut order = Vec::new(alloc);
    for (place, item) in items.iter().enumerate() {
        order.push((rank_of(&ranks, head_of(item)), place))?;
    }
    order.sort()?;
    Ok(order)
}

/// Whether items pass a limit where they are a description by themselves.
fn pass_limit<T: AllocGlobal, A: Allocator>(
    rt: &T,
    items: &[Expr<A>],
    places: &[(usize, usize)],
    width: Width,
) -> Result<bool, AllocError> {
    let alloc = rt.alloc();
    let mut text = Vec::new(alloc);
    for (_, place) in places {
        if let Some(item) = items.get(*place) {
            write(item, &mut text).map_err(|_| AllocError)?;
            text.push(b'\n')?;
        }
    }
    let arena = Bump::new(alloc);
    let some = match read(&arena, &text) {
        Ok(some) => some,
        Err(KifFault::NoMemory) => return Err(AllocError),
        Err(_) => return Ok(false),
    };
    let rules = match RuleSet::check(alloc, &some) {
        Ok(rules) => rules,
        Err(RuleFault::NoMemory) => return Err(AllocError),
        Err(_) => return Ok(false),
    };
    match instantiate_flat_alone(rt, &rules, width) {
        Ok(_) => Ok(false),
        Err(GroundFault::TooMany(_)) => Ok(true),
        Err(GroundFault::NoMemory) => Err(AllocError),
    }
}

/// The number of the item with which rules pass a limit, counted from 1: those that are instantiated before it pass none. It takes as many
/// instantiations as the number of items has binary digits.
pub(crate) fn item_over<T: AllocGlobal, A: Allocator>(
    rt: &T,
    items: &[Expr<A>],
    rules: &RuleSet,
    width: Width,
) -> Result<Option<usize>, AllocError> {
    let order = order_of(rt.alloc(), items, rules)?;
    let mut within: usize = 0;
    let mut over = order.len();
    for _ in 0..usize::BITS {
        let middle = within.saturating_add(over.saturating_sub(within) / 2);
        if middle <= within {
            break;
        }
        if pass_limit(rt, items, order.get(..middle).unwrap_or(&[]), width)? {
            over = middle;
        } else {
            within = middle;
        }
    }
    match order.get(over.saturating_sub(1)) {
        Some((_, place)) => Ok(Some(place.saturating_add(1))),
        None => Ok(None),
    }
}

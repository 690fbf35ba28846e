//! Rules with one for each reading of their bodies in their place.
ghost use Rattle.std.specs.Prelude.{◌≡◌, ◌++◌, map, IfOk, OnOk};
ghost use Rattle.statement.specs.Items.{alternatives};
ghost use Rattle.statement.specs.Dependence as rests;
ghost use Rattle.kif.specs.View.{tree_of, trees_in};
ghost use Rattle.rules_relations.specs.Relations.{relation_in};
ghost use Rattle.unroll_strata.specs.Readings as by;
ghost use Rattle.unroll_strata.specs.Listing.{trees_at, ways_at};

use crate::ways::ways_of_all;
use kif::{Expr, copy_to};
use rules_profile::split_item;
use rules_relations::{Relation, head_of, is_same};
use std::alloc::{AllocError, Global};

/// Whether a relation is among others.
fn is_among(relation: &Relation, own: &[Relation]) -> bool
    ensures { result ≡ rests.is_among (relation_in relation.now) (map relation_in own.now) }
{
    for other in own {
        if is_same(relation.word, relation.arity, other) {
            return true;
        }
    }
    false
}

/// Whether an item heads one of the relations.
fn heads_one(item: &Expr<Global>, own: &[Relation]) -> bool
    ensures { result ≡ by.heads_one (map relation_in own.now) (tree_of item.now) }
{
    is_among(&head_of(item), own)
}

/// Whether an item is a rule that heads one of the relations.
fn is_parted(item: &Expr<Global>, own: &[Relation]) -> bool
    ensures { result ≡ by.is_parted (map relation_in own.now) (tree_of item.now) }
{
    let (_, body) = split_item(item);
    let is_own = heads_one(item, own);
    is_own && !body.is_empty()
}

/// Adds copies of trees.
fn add_copies(
    alloc: Global,
    trees: &[&Expr<Global>],
    made: &mut Vec<Expr<Global>>,
) -> Result<(), AllocError>
    ensures { OnOk result (trees_in made.new.items ≡ trees_in made.old.items ++ trees_at trees.now) }
{
    for tree in trees {
        let copy = copy_to(alloc, tree)?;
        made.push(copy)?;
    }
    Ok(())
}

/// The rule that has a head and literals.
fn rule(
    alloc: Global,
    head: &Expr<Global>,
    literals: &[&Expr<Global>],
) -> Result<Expr<Global>, AllocError>
    ensures { IfOk result (λ made. tree_of made ≡ by.rule_of (tree_of head.now) (trees_at literals.now)) }
{
    let mut parts = Vec::new(alloc);
    parts.push(Expr::Name(Vec::from_slice(alloc, b"<=")?))?;
    let copy = copy_to(alloc, head)?;
    parts.push(copy)?;
    add_copies(alloc, literals, &mut parts)?;
    Ok(Expr::List(parts))
}

/// Adds a rule for each reading.
fn add_rules(
    alloc: Global,
    head: &Expr<Global>,
    ways: &[Vec<&Expr<Global>>],
    made: &mut Vec<Expr<Global>>,
) -> Result<(), AllocError>
    ensures { OnOk result (trees_in made.new.items
        ≡ trees_in made.old.items ++ map (by.rule_of (tree_of head.now)) (ways_at ways.now)) }
{
    for way in ways {
        let one = rule(alloc, head, way)?;
        made.push(one)?;
    }
    Ok(())
}

/// Adds a rule for each reading of an item's body where it is a rule that heads one of the relations, and else the item.
fn add_item(
    alloc: Global,
    item: &Expr<Global>,
    own: &[Relation],
    made: &mut Vec<Expr<Global>>,
) -> Result<(), AllocError>
    ensures { OnOk result (trees_in made.new.items
        ≡ trees_in made.old.items ++ by.item_by_reading (map relation_in own.now) (tree_of item.now)) }
{
    if !is_parted(item, own) {
        let copy = copy_to(alloc, item)?;
        made.push(copy)?;
        return Ok(());
    }
    let (head, body) = split_item(item);
    let ways = ways_of_all(body, alloc)?;
    add_rules(alloc, head, &ways, made)
}

/// The items, with one for each reading of its body in place of each rule that heads one of the relations: so none of these has a literal with `or` or `and`. They have the same alternatives, in the same order.
pub fn items_by_reading(
    alloc: Global,
    items: &[Expr<Global>],
    own: &[Relation],
) -> Result<Vec<Expr<Global>>, AllocError>
    ensures exact { IfOk result (λ made. trees_in made.items ≡ by.items_by_reading (map relation_in own.now) (trees_in items.now)) }
    ensures same { IfOk result (λ made. alternatives (trees_in made.items) ≡ alternatives (trees_in items.now)) }
{
    let mut made = Vec::new(alloc);
    for item in items {
        add_item(alloc, item, own, &mut made)?;
    }
    Ok(made)
}

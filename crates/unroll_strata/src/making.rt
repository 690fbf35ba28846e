//! A game whose turns are steps of derivation, made from a description.
ghost use Rattle.std.specs.Prelude.{◌≡◌, ◌++◌, ◌∷◌, [], map, filter, IfOk, OnOk};
ghost use Rattle.kif.specs.View.{tree_of, trees_in};
ghost use Rattle.unroll_strata.specs.Steps.{based_item, heads_one, step_item, step_game as game_of};

use crate::items::{based, step};
use kif::{Expr, copy_to};
use rules_relations::{RelationSet, head_of};
use std::alloc::{AllocError, Global};

/// Adds an item, if it heads a relation of a set.
fn add_written<'a>(
    alloc: Global,
    item: &'a Expr<Global>,
    below: &RelationSet<'a>,
    made: &mut Vec<Expr<Global>>,
) -> Result<(), AllocError>
    ensures { OnOk result (trees_in made.new.items ≡ trees_in made.old.items ++ filter (heads_one below.now) (tree_of item.now ∷ [])) }
{
    if !below.contains(head_of(item)) {
        return Ok(());
    }
    let copy = copy_to(alloc, item)?;
    made.push(copy)?;
    Ok(())
}

/// Adds the items that head a relation of a set.
fn add_all_written<'a>(
    alloc: Global,
    items: &'a [Expr<Global>],
    below: &RelationSet<'a>,
    made: &mut Vec<Expr<Global>>,
) -> Result<(), AllocError>
    ensures { OnOk result (trees_in made.new.items ≡ trees_in made.old.items ++ filter (heads_one below.now) (trees_in items.now)) }
{
    for item in items {
        add_written(alloc, item, below, made)?;
    }
    Ok(())
}

/// Adds an item as what a state can have, if it heads a relation of a set.
fn add_based<'a>(
    alloc: Global,
    item: &'a Expr<Global>,
    own: &RelationSet<'a>,
    made: &mut Vec<Expr<Global>>,
) -> Result<(), AllocError>
    ensures { OnOk result (trees_in made.new.items
        ≡ trees_in made.old.items ++ map based_item (filter (heads_one own.now) (tree_of item.now ∷ []))) }
{
    if !own.contains(head_of(item)) {
        return Ok(());
    }
    let one = based(alloc, item)?;
    made.push(one)?;
    Ok(())
}

/// Adds the items that head a relation of a set, each as what a state can have.
fn add_all_based<'a>(
    alloc: Global,
    items: &'a [Expr<Global>],
    own: &RelationSet<'a>,
    made: &mut Vec<Expr<Global>>,
) -> Result<(), AllocError>
    ensures { OnOk result (trees_in made.new.items
        ≡ trees_in made.old.items ++ map based_item (filter (heads_one own.now) (trees_in items.now))) }
{
    for item in items {
        add_based(alloc, item, own, made)?;
    }
    Ok(())
}

/// Adds an item as a step, if it heads an own relation.
fn add_step<'a>(
    alloc: Global,
    item: &'a Expr<Global>,
    own: &RelationSet<'a>,
    made: &mut Vec<Expr<Global>>,
) -> Result<(), AllocError>
    ensures { OnOk result (trees_in made.new.items
        ≡ trees_in made.old.items ++ map (step_item own.now) (filter (heads_one own.now) (tree_of item.now ∷ []))) }
{
    if !own.contains(head_of(item)) {
        return Ok(());
    }
    let one = step(alloc, item, own)?;
    made.push(one)?;
    Ok(())
}

/// Adds the items that head an own relation, each as a step.
fn add_all_steps<'a>(
    alloc: Global,
    items: &'a [Expr<Global>],
    own: &RelationSet<'a>,
    made: &mut Vec<Expr<Global>>,
) -> Result<(), AllocError>
    ensures { OnOk result (trees_in made.new.items
        ≡ trees_in made.old.items ++ map (step_item own.now) (filter (heads_one own.now) (trees_in items.now))) }
{
    for item in items {
        add_step(alloc, item, own, made)?;
    }
    Ok(())
}

/// The game whose turns are steps of derivation of the own relations, by the items that were found for them. What the written items say
/// of the relations below always holds.
pub fn step_game<'a>(
    alloc: Global,
    found: &'a [Expr<Global>],
    written: &'a [Expr<Global>],
    own: &RelationSet<'a>,
    below: &RelationSet<'a>,
) -> Result<Vec<Expr<Global>>, AllocError>
    ensures { IfOk result (λ made. trees_in made.items ≡ game_of own.now below.now (trees_in found.now) (trees_in written.now)) }
{
    let mut made = Vec::new(alloc);
    add_all_written(alloc, written, below, &mut made)?;
    add_all_based(alloc, written, own, &mut made)?;
    add_all_steps(alloc, found, own, &mut made)?;
    Ok(made)
}

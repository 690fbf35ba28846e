//! Whether what is written of an own relation in each layer is what was found for it.
ghost use Rattle.std.specs.Prelude.{◌≡◌, map, IfOk};
ghost use Rattle.std.specs.List.{list_all};
ghost use Rattle.kif.specs.View.{trees_in};
ghost use Rattle.rules_relations.specs.Relations.{relation_in};
ghost use Rattle.meaning.specs.Names.{names_of};
ghost use Rattle.unroll_layers.specs.Naming.{words_in};
ghost use Rattle.unroll_layers.specs.Layering as test;
ghost use Rattle.unroll_layers.specs.Listing.{trees_at};

use crate::items::{are_items_of, are_kept};
use crate::naming::{in_layer, name_of};
use crate::picking::{heading, of_kind};
use kif::Expr;
use rules_relations::Relation;
use std::alloc::{AllocError, Global};

/// Whether the written items of a relation in a layer are those that were found, in the layer.
fn is_layer(
    alloc: Global,
    found: &[&Expr<Global>],
    written: &[Expr<Global>],
    own: &[Relation],
    relation: &Relation,
    names: &[Vec<u8>],
    before: &[Vec<u8>],
) -> Result<bool, AllocError>
    ensures { IfOk result (λ is_so. is_so ≡ test.is_layer (map relation_in own.now) (relation_in relation.now)
        (words_in names.now) (words_in before.now) (trees_at found.now) (trees_in written.now)) }
{
    let layer = in_layer(relation, own, names);
    let items = heading(alloc, written, &layer)?;
    Ok(are_items_of(found, &items, own, names, before))
}

/// Whether the written items of a relation in a layer are those that were found, in the layer, and behind them the one that carries the layer before where layers keep those.
fn is_next(
    alloc: Global,
    keeps: bool,
    found: &[&Expr<Global>],
    written: &[Expr<Global>],
    own: &[Relation],
    relation: &Relation,
    names: &[Vec<u8>],
    before: &[Vec<u8>],
) -> Result<bool, AllocError>
    ensures { IfOk result (λ is_so. is_so ≡ test.is_next (map relation_in own.now) (relation_in relation.now) keeps
        (words_in names.now) (words_in before.now) (trees_at found.now) (trees_in written.now)) }
{
    if !keeps {
        return is_layer(alloc, found, written, own, relation, names, before);
    }
    let layer = in_layer(relation, own, names);
    let items = heading(alloc, written, &layer)?;
    let word = name_of(relation, own, before);
    Ok(are_kept(found, &items, own, names, before, word))
}

/// Whether this is so in each layer behind one.
fn are_next(
    alloc: Global,
    keeps: bool,
    found: &[&Expr<Global>],
    written: &[Expr<Global>],
    own: &[Relation],
    relation: &Relation,
    first: &[Vec<u8>],
    layers: &[Vec<Vec<u8>>],
) -> Result<bool, AllocError>
    ensures { IfOk result (λ is_so. is_so ≡ test.are_next (map relation_in own.now) (relation_in relation.now) keeps
        (words_in first.now) (names_of layers.now) (trees_at found.now) (trees_in written.now)) }
{
    let mut before = first;
    for names in layers {
        let is_so = is_next(alloc, keeps, found, written, own, relation, names, before)?;
        if !is_so {
            return Ok(false);
        }
        before = names;
    }
    Ok(true)
}

/// Whether the items without own atoms are those of a relation in the first layer, and those with such are those in each layer behind it.
fn are_layers(
    alloc: Global,
    keeps: bool,
    found: &[Expr<Global>],
    written: &[Expr<Global>],
    own: &[Relation],
    relation: &Relation,
    layers: &[Vec<Vec<u8>>],
) -> Result<bool, AllocError>
    ensures { IfOk result (λ is_so. is_so ≡ test.are_layers (map relation_in own.now) (relation_in relation.now) keeps (names_of layers.now)
        (trees_in found.now) (trees_in written.now)) }
{
    let Some((names, rest)) = layers.split_first() else {
        return Ok(true);
    };
    let starts = of_kind(alloc, found, own, relation, false)?;
    let is_first = is_layer(alloc, &starts, written, own, relation, names, names)?;
    if !is_first {
        return Ok(false);
    }
    let inner = of_kind(alloc, found, own, relation, true)?;
    are_next(alloc, keeps, &inner, written, own, relation, names, rest)
}

/// Whether what is written of each own relation in each layer is what was found for it.
pub(crate) fn are_all_layers(
    alloc: Global,
    keeps: bool,
    found: &[Expr<Global>],
    written: &[Expr<Global>],
    own: &[Relation],
    layers: &[Vec<Vec<u8>>],
) -> Result<bool, AllocError>
    ensures { IfOk result (λ is_so. is_so ≡ list_all (λ p. test.are_layers (map relation_in own.now) p keeps (names_of layers.now)
        (trees_in found.now) (trees_in written.now)) (map relation_in own.now)) }
{
    for relation in own {
        let is_so = are_layers(alloc, keeps, found, written, own, relation, layers)?;
        if !is_so {
            return Ok(false);
        }
    }
    Ok(true)
}

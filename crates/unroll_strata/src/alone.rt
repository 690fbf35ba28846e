//! Whether own relations stand alone: their rules ask own ones alone, and what is written of them asks what is below alone.
ghost use Rattle.std.specs.Prelude.{◌≡◌, map, IfOk};
ghost use Rattle.std.specs.Bool.{OnTrue};
ghost use Rattle.std.specs.List.{list_any};
ghost use Rattle.statement.specs.Items.{alternatives};
ghost use Rattle.kif.specs.View.{tree_of, trees_in};
ghost use Rattle.rules_relations.specs.Relations.{relation_in};
ghost use Rattle.rules_relations.specs.Asking.{some_item};
ghost use Rattle.unroll_strata.specs.Founded.{StandAlone};
ghost use Rattle.unroll_strata.specs.Alone as test;

use crate::relations::{is_distinct, is_some_unfit, says_states, set_of};
use kif::Expr;
use rules_relations::{Relation, RelationSet, asked_by, head_of};
use std::alloc::{AllocError, Global};

/// Whether a relation is neither `distinct` nor one of those that may be asked.
fn is_stray<'a>(relation: Relation<'a>, may_ask: &RelationSet<'a>) -> bool
    ensures { result ≡ test.is_stray may_ask.now (relation_in relation.entry) }
{
    let is_distinct = is_distinct(&relation);
    let is_asked = may_ask.contains(relation);
    !is_distinct && !is_asked
}

/// Whether some relation of a list is neither `distinct` nor one of those that may be asked.
fn is_some_stray<'a>(relations: &[Relation<'a>], may_ask: &RelationSet<'a>) -> bool
    ensures { result ≡ list_any (test.is_stray may_ask.now) (map relation_in relations.now) }
{
    for relation in relations {
        if is_stray(*relation, may_ask) {
            return true;
        }
    }
    false
}

/// Whether an item heads a relation of the first set, and asks one that it may not ask.
fn strays<'a>(
    alloc: Global,
    item: &'a Expr<Global>,
    heads: &RelationSet<'a>,
    may_ask: &RelationSet<'a>,
) -> Result<bool, AllocError>
    ensures { IfOk result (λ is_so. is_so ≡ test.strays heads.now may_ask.now (tree_of item.now)) }
{
    if !heads.contains(head_of(item)) {
        return Ok(false);
    }
    let asked = asked_by(alloc, item)?;
    Ok(is_some_stray(&asked, may_ask))
}

/// Whether some item heads a relation of the first set, and asks one that it may not ask.
fn is_some_straying<'a>(
    alloc: Global,
    items: &'a [Expr<Global>],
    heads: &RelationSet<'a>,
    may_ask: &RelationSet<'a>,
) -> Result<bool, AllocError>
    ensures { IfOk result (λ is_so. is_so ≡ some_item (test.strays heads.now may_ask.now) (trees_in items.now)) }
{
    for item in items {
        let is_so = strays(alloc, item, heads, may_ask)?;
        if is_so {
            return Ok(true);
        }
    }
    Ok(false)
}

/// Whether own relations are no words of play, their rules ask own ones alone, and what is written of them, and of all that this asks,
/// stands below, without `base` and `next`.
pub fn stand_alone<'a>(
    alloc: Global,
    found: &'a [Expr<Global>],
    written: &'a [Expr<Global>],
    own: &[Relation<'a>],
    below: &RelationSet<'a>,
) -> Result<bool, AllocError>
    ensures { IfOk result (λ is_so. OnTrue is_so (StandAlone (map relation_in own.now) below.now
        (alternatives (trees_in found.now)) (alternatives (trees_in written.now)))) }
{
    if says_states(below) {
        return Ok(false);
    }
    if is_some_unfit(own, below) {
        return Ok(false);
    }
    let is_written_straying = is_some_straying(alloc, written, below, below)?;
    if is_written_straying {
        return Ok(false);
    }
    let set = set_of(alloc, own)?;
    let is_found_straying = is_some_straying(alloc, found, &set, &set)?;
    Ok(!is_found_straying)
}

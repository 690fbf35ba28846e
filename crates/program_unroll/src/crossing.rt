//! The way by which a relation rests on itself through a negated atom.
ghost use Rattle.std.specs.Prelude.{◌≡◌, true, map, IfOk, IfSome};
ghost use Rattle.statement.specs.Dependence.{is_among};
ghost use Rattle.kif.specs.View.{tree_of, trees_in};
ghost use Rattle.rules_relations.specs.Relations.{relation_in};
ghost use Rattle.program_unroll.specs.Crossing.{begins_among, IsWayThroughNegation};

use diagnose_explain::way_from;
use kif::Expr;
use rules_relations::{Relation, head_of, is_same};
use std::alloc::{AllocError, Global};
use unroll_strata::negated_by;

/// An atom of a relation, whatever its arguments.
fn atom_of(alloc: Global, relation: &Relation) -> Result<Expr<Global>, AllocError> {
    let mut parts = Vec::new(alloc);
    parts.push(Expr::Name(Vec::from_slice(alloc, relation.word)?))?;
    for _ in 0..relation.arity {
        parts.push(Expr::Name(Vec::from_slice(alloc, b"x")?))?;
    }
    Ok(Expr::List(parts))
}

/// A rule with the head's relation of an item that asks the relations of its negated atoms alone. No clause says anything of it: who takes a
/// way from it tests where that begins.
pub(crate) fn negations_alone(
    alloc: Global,
    item: &Expr<Global>,
) -> Result<Expr<Global>, AllocError> {
    let mut parts = Vec::new(alloc);
    parts.push(Expr::Name(Vec::from_slice(alloc, b"<=")?))?;
    parts.push(atom_of(alloc, &head_of(item))?)?;
    for relation in &negated_by(alloc, item)? {
        parts.push(atom_of(alloc, relation)?)?;
    }
    Ok(Expr::List(parts))
}

/// Whether a relation is one of some.
fn is_one_of(relation: &Relation, some: &[Relation]) -> bool
    ensures { result ≡ true → is_among (relation_in relation.now) (map relation_in some.now) ≡ true }
{
    for other in some {
        if is_same(relation.word, relation.arity, other) {
            return true;
        }
    }
    false
}

/// Whether the first of the steps is one of some relations.
fn begins_among(steps: &[Relation], some: &[Relation]) -> bool
    ensures { result ≡ true → begins_among (map relation_in some.now) (map relation_in steps.now) ≡ true }
{
    match steps.first() {
        Some(first) => is_one_of(first, some),
        None => false,
    }
}

/// A way by which the relation of an item rests on itself through a negated atom of its body: the relations behind the item's own, the first
/// of which the body negates, each of which the one before leads to, with the item's own at the end. It is the shortest that begins as
/// `negations` does.
pub(crate) fn way_through_negation<'a>(
    alloc: Global,
    items: &'a [Expr<Global>],
    item: &'a Expr<Global>,
    negations: &'a Expr<Global>,
) -> Result<Option<Vec<Relation<'a>>>, AllocError>
    ensures { IfOk result (λ found. IfSome found (λ steps. IsWayThroughNegation (trees_in items.now) (tree_of item.now) (map relation_in steps.items))) }
{
    let Some(steps) = way_from(alloc, items, negations, &[head_of(item)])? else {
        return Ok(None);
    };
    let negated = negated_by(alloc, item)?;
    if !begins_among(&steps, &negated) {
        return Ok(None);
    }
    Ok(Some(steps))
}

//! How many own atoms the items have that were found for own relations.
ghost use Rattle.std.specs.Prelude.{◌≡◌, map};
ghost use Rattle.statement.specs.Dependence as rests;
ghost use Rattle.std.specs.List.{list_all};
ghost use Rattle.kif.specs.View.{tree_of, trees_in};
ghost use Rattle.rules_relations.specs.Relations.{relation_in};
ghost use Rattle.rules_relations.specs.Asking.{some_item};
ghost use Rattle.unroll_layers.specs.Kinds as test;

use kif::Expr;
use rules_profile::{Connective, connective_of, split_item, split_word};
use rules_relations::{Relation, head_of, heads, is_same, split_atom};
use std::alloc::Global;

/// Whether a literal is an atom, without `or`, `and` and `not`.
pub(crate) fn is_plain(e: &Expr<Global>) -> bool
    ensures { result ≡ test.is_plain (tree_of e.now) }
{
    match e {
        Expr::Name(_) => true,
        Expr::List(parts) => match split_word(parts) {
            None => false,
            Some((word, _)) => match connective_of(word) {
                Connective::Nothing => true,
                Connective::Or | Connective::And | Connective::Not => false,
            },
        },
    }
}

/// Whether a literal is an atom or its negation.
fn is_single(e: &Expr<Global>) -> bool
    ensures { result ≡ test.is_single (tree_of e.now) }
{
    match e {
        Expr::Name(_) => true,
        Expr::List(parts) => match split_word(parts) {
            None => false,
            Some((word, _)) => match connective_of(word) {
                Connective::Nothing | Connective::Not => true,
                Connective::Or | Connective::And => false,
            },
        },
    }
}

/// Whether each literal is an atom or its negation.
fn are_single(body: &[Expr<Global>]) -> bool
    ensures { result ≡ list_all test.is_single (trees_in body.now) }
{
    for part in body {
        if !is_single(part) {
            return false;
        }
    }
    true
}

/// Whether a relation is among others.
fn is_among(relation: &Relation, own: &[Relation]) -> bool
    ensures { result ≡ rests.is_among (relation_in relation.now) (map relation_in own.now) }
{
    for other in own {
        if is_same(relation.word, relation.arity, other) {
            return true;
        }
    }
    false
}

/// Whether a literal is an atom of an own relation.
pub(crate) fn is_own_atom(e: &Expr<Global>, own: &[Relation]) -> bool
    ensures { result ≡ test.is_own_atom (map relation_in own.now) (tree_of e.now) }
{
    let (word, terms) = split_atom(e);
    let relation = Relation {
        word,
        arity: terms.len(),
    };
    let is_own = is_among(&relation, own);
    is_plain(e) && is_own
}

/// How many literals are atoms of own relations.
fn count_own(body: &[Expr<Global>], own: &[Relation]) -> usize
    ensures { result ≡ test.count_own (map relation_in own.now) (trees_in body.now) }
{
    body.iter().filter(|part| is_own_atom(part, own)).count()
}

/// Whether an item heads an own relation.
pub(crate) fn heads_one(item: &Expr<Global>, own: &[Relation]) -> bool
    ensures { result ≡ test.heads_one (map relation_in own.now) (tree_of item.now) }
{
    is_among(&head_of(item), own)
}

/// Whether so many own atoms are too many in one body: more than one, where layers do not keep those before.
fn is_too_many(count: usize, keeps: bool) -> bool
    ensures { result ≡ test.is_too_many keeps count }
{
    !keeps && count > 1
}

/// Whether an item heads an own relation, and has a literal that is neither an atom nor its negation, or too many own atoms.
fn is_unclear(item: &Expr<Global>, own: &[Relation], keeps: bool) -> bool
    ensures { result ≡ test.is_unclear (map relation_in own.now) keeps (tree_of item.now) }
{
    if !heads_one(item, own) {
        return false;
    }
    let (_, body) = split_item(item);
    if !are_single(body) {
        return true;
    }
    is_too_many(count_own(body, own), keeps)
}

/// Whether some item heads an own relation, and has such a literal, or too many own atoms.
pub(crate) fn is_some_unclear(items: &[Expr<Global>], own: &[Relation], keeps: bool) -> bool
    ensures { result ≡ some_item (test.is_unclear (map relation_in own.now) keeps) (trees_in items.now) }
{
    for item in items {
        if is_unclear(item, own, keeps) {
            return true;
        }
    }
    false
}

/// Whether there are so many own atoms: some where an item is inner, and else none.
fn is_count(count: usize, is_inner: bool) -> bool
    ensures { result ≡ test.is_count is_inner count }
{
    if is_inner { count > 0 } else { count == 0 }
}

/// Whether an item heads a relation, and has own atoms, or none where it is not inner.
pub(crate) fn is_of_kind(
    item: &Expr<Global>,
    own: &[Relation],
    relation: &Relation,
    is_inner: bool,
) -> bool
    ensures { result ≡ test.is_of_kind (map relation_in own.now) (relation_in relation.now) is_inner (tree_of item.now) }
{
    if !heads(item, relation) {
        return false;
    }
    let (_, body) = split_item(item);
    is_count(count_own(body, own), is_inner)
}

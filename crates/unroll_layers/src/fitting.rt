//! Whether relations and names may be those of layers.
ghost use Rattle.std.specs.Prelude.{◌≡◌, false, map, IfOk};
ghost use Rattle.std.specs.List.{list_any};
ghost use Rattle.statement.specs.Clause as said;
ghost use Rattle.statement.specs.Dependence as rests;
ghost use Rattle.rules_relations.specs.Relations.{relation_in};
ghost use Rattle.meaning.specs.Names.{names_of};
ghost use Rattle.unroll_layers.specs.Naming as test;
ghost use Rattle.unroll_layers.specs.Naming.{repeats};

use crate::naming::in_layers;
use rules_relations::{Relation, RelationSet, is_same};
use std::alloc::{AllocError, Global};

/// Whether a relation has this name and this number of arguments.
fn is_word(relation: &Relation, word: &[u8], arity: usize) -> bool
    ensures { result ≡ said.is_word word.now arity (relation_in relation.now) }
{
    is_same(relation.word, relation.arity, &Relation { word, arity })
}

/// Whether a relation changes from state to state by its own meaning.
fn is_moving(relation: &Relation) -> bool
    ensures { result ≡ rests.is_moving (relation_in relation.now) }
{
    let is_state = is_word(relation, b"true", 1);
    let is_move = is_word(relation, b"does", 2);
    let is_next = is_word(relation, b"next", 1);
    let is_legal = is_word(relation, b"legal", 2);
    let is_goal = is_word(relation, b"goal", 2);
    let is_end = is_word(relation, b"terminal", 0);
    is_state || is_move || is_next || is_legal || is_goal || is_end
}

/// Whether the rules of the language give a relation a meaning.
fn has_meaning(relation: &Relation) -> bool
    ensures { result ≡ test.has_meaning (relation_in relation.now) }
{
    let is_moving = is_moving(relation);
    let is_distinct = is_word(relation, b"distinct", 2);
    is_moving || is_distinct
}

/// Whether the rules of the language give some relation of a list a meaning.
fn has_some_meaning(relations: &[Relation]) -> bool
    ensures { result ≡ list_any test.has_meaning (map relation_in relations.now) }
{
    for relation in relations {
        if has_meaning(relation) {
            return true;
        }
    }
    false
}

/// Whether some relation stands in a list twice.
fn has_repeated(alloc: Global, relations: &[Relation]) -> Result<bool, AllocError>
    ensures { IfOk result (λ is_so. is_so ≡ repeats (λ p. false) (map relation_in relations.now)) }
{
    let mut known = RelationSet::new(alloc);
    for relation in relations {
        if known.contains(*relation) {
            return Ok(true);
        }
        known.insert(*relation)?;
    }
    Ok(false)
}

/// Whether the rules of the language give meaning to an own relation or to one of a layer, or two relations of layers are the same.
pub(crate) fn are_unfit(
    alloc: Global,
    own: &[Relation],
    layers: &[Vec<Vec<u8>>],
) -> Result<bool, AllocError>
    ensures { IfOk result (λ is_so. is_so ≡ test.are_unfit (map relation_in own.now) (names_of layers.now)) }
{
    let all = in_layers(alloc, own, layers)?;
    let is_repeated = has_repeated(alloc, &all)?;
    let has_own = has_some_meaning(own);
    let has_other = has_some_meaning(&all);
    Ok(has_own || has_other || is_repeated)
}

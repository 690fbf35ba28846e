//! Which relations can be own.
ghost use Rattle.std.specs.Prelude.{◌≡◌, map, IfOk};
ghost use Rattle.std.specs.List.{list_any};
ghost use Rattle.statement.specs.Clause as said;
ghost use Rattle.statement.specs.Dependence as rests;
ghost use Rattle.statement.specs.Dependence.{is_among};
ghost use Rattle.rules_relations.specs.Relations.{relation_in};
ghost use Rattle.unroll_strata.specs.Alone as test;

use crate::adding::is_word;
use rules_profile::is_variable_name;
use rules_relations::{Relation, RelationSet};
use std::alloc::{AllocError, Global};

/// The set of the relations of a list.
pub fn set_of<'a>(alloc: Global, relations: &[Relation<'a>]) -> Result<RelationSet<'a>, AllocError>
    ensures { IfOk result (λ set. (p : said.Relation) → is_among p set ≡ is_among p (map relation_in relations.now)) }
{
    let mut set = RelationSet::new(alloc);
    for relation in relations {
        set.insert(*relation)?;
    }
    Ok(set)
}

/// Whether a relation is `distinct`.
pub(crate) fn is_distinct(relation: &Relation) -> bool
    ensures { result ≡ rests.is_distinct (relation_in relation.now) }
{
    is_word(relation, b"distinct", 2)
}

/// Whether a relation changes from state to state by its own meaning.
fn is_moving(relation: &Relation) -> bool
    ensures { result ≡ rests.is_moving (relation_in relation.now) }
{
    let is_state = is_word(relation, b"true", 1);
    let is_move = is_word(relation, b"does", 2);
    let is_next = is_word(relation, b"next", 1);
    let is_legal = is_word(relation, b"legal", 2);
    let is_goal = is_word(relation, b"goal", 2);
    let is_end = is_word(relation, b"terminal", 0);
    is_state || is_move || is_next || is_legal || is_goal || is_end
}

/// Whether a relation can't be own.
fn is_unfit<'a>(relation: Relation<'a>, below: &RelationSet<'a>) -> bool
    ensures { result ≡ test.is_unfit below.now (relation_in relation.entry) }
{
    let is_below = below.contains(relation);
    let is_moving = is_moving(&relation);
    let is_distinct = is_distinct(&relation);
    let is_variable = is_variable_name(relation.word);
    !is_below || is_moving || is_distinct || is_variable
}

/// Whether some relation of a list can't be own.
pub(crate) fn is_some_unfit<'a>(relations: &[Relation<'a>], below: &RelationSet<'a>) -> bool
    ensures { result ≡ list_any (test.is_unfit below.now) (map relation_in relations.now) }
{
    for relation in relations {
        if is_unfit(*relation, below) {
            return true;
        }
    }
    false
}

/// Whether relations say what states can have, or what comes next.
pub(crate) fn says_states(below: &RelationSet) -> bool
    ensures { result ≡ test.says_states below.now }
{
    let base = Relation {
        word: b"base",
        arity: 1,
    };
    let next = Relation {
        word: b"next",
        arity: 1,
    };
    below.contains(base) || below.contains(next)
}

//! What the relations of a description mean to the language.
ghost use Rattle.std.specs.Prelude.{◌≡◌, ◌<◌, length, IfOk};
ghost use Rattle.rules_clauses.specs.Adding.{HaveNames};
ghost use Rattle.statement.specs.Dependence.{is_moving};
ghost use Rattle.statement.specs.Clause.{relation_eq};
ghost use Rattle.rules.specs.ItemLinks.{bound_of, AreBounds};
ghost use Rattle.rules.specs.Numbering.{AreTests};
ghost use Rattle.statement.specs.Profile.{does_relation};
ghost use Rattle.rules_clauses.specs.Store.{relation_at};
ghost use Rattle.rules_clauses.specs.StoreView.{data_of};

use crate::item_links::Bound;
use rules_clauses::Store;
use rules_profile::Word;
use std::alloc::{AllocError, Global};

/// What the items of a relation may rest on.
fn bound_of_relation(store: &Store, relation: usize) -> Bound
    requires names { HaveNames (data_of store.now) }
    requires relation { relation < length (data_of store.now).signatures }
    ensures { result ≡ bound_of (relation_at (data_of store.now) relation) }
{
    if store.is_word(relation, Word::Legal)
        || store.is_word(relation, Word::Goal)
        || store.is_word(relation, Word::Terminal)
    {
        Bound::NoMove
    } else if store.is_word(relation, Word::Base)
        || store.is_word(relation, Word::Input)
        || store.is_word(relation, Word::Init)
    {
        Bound::FixedOnly
    } else {
        Bound::Free
    }
}

/// Whether the atoms of a relation change from state to state by their own meaning.
fn is_moving_relation(store: &Store, relation: usize) -> bool
    requires names { HaveNames (data_of store.now) }
    requires relation { relation < length (data_of store.now).signatures }
    ensures { result ≡ is_moving (relation_at (data_of store.now) relation) }
{
    store.is_word(relation, Word::True)
        || store.is_word(relation, Word::Does)
        || store.is_word(relation, Word::Next)
        || store.is_word(relation, Word::Legal)
        || store.is_word(relation, Word::Goal)
        || store.is_word(relation, Word::Terminal)
}

/// For each relation, what its items may rest on.
pub(crate) fn bounds_of(alloc: Global, store: &Store) -> Result<Vec<Bound>, AllocError>
    requires { HaveNames (data_of store.now) }
    ensures length { IfOk result (λ bounds. length bounds.items ≡ length (data_of store.now).signatures) }
    ensures bounds { IfOk result (λ bounds. AreBounds (length (data_of store.now).signatures) (λ r. relation_at (data_of store.now) r) bounds.items) }
{
    let mut bounds = Vec::new(alloc);
    for relation in 0..store.count_relations() {
        bounds.push(bound_of_relation(store, relation))?;
    }
    Ok(bounds)
}

/// For each relation, whether its atoms change by their own meaning.
pub(crate) fn moving_of(alloc: Global, store: &Store) -> Result<Vec<bool>, AllocError>
    requires { HaveNames (data_of store.now) }
    ensures length { IfOk result (λ tests. length tests.items ≡ length (data_of store.now).signatures) }
    ensures tests { IfOk result (λ tests. AreTests (length (data_of store.now).signatures) (λ r. relation_at (data_of store.now) r) is_moving
        tests.items) }
{
    let mut tests = Vec::new(alloc);
    for relation in 0..store.count_relations() {
        tests.push(is_moving_relation(store, relation))?;
    }
    Ok(tests)
}

/// For each relation, whether it is that of moves.
pub(crate) fn moves_of(alloc: Global, store: &Store) -> Result<Vec<bool>, AllocError>
    requires { HaveNames (data_of store.now) }
    ensures length { IfOk result (λ tests. length tests.items ≡ length (data_of store.now).signatures) }
    ensures tests { IfOk result (λ tests. AreTests (length (data_of store.now).signatures) (λ r. relation_at (data_of store.now) r)
        (λ q. relation_eq q does_relation) tests.items) }
{
    let mut tests = Vec::new(alloc);
    for relation in 0..store.count_relations() {
        tests.push(store.is_word(relation, Word::Does))?;
    }
    Ok(tests)
}

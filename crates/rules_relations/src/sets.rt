//! Sets of relations, and those that items state and ask.
ghost use Rattle.std.specs.Prelude.{◌≡◌, ◌||◌, false, map, length, OnOk, IfOk};
ghost use Rattle.statement.specs.Clause as said;
ghost use Rattle.statement.specs.Clause.{relation_eq};
ghost use Rattle.statement.specs.Dependence.{is_among};
ghost use Rattle.kif.specs.View.{trees_in};
ghost use Rattle.rules_relations.specs.Relations.{relation_in};
ghost use Rattle.rules_relations.specs.Asking.{heads_it, asks_it, some_item};

use crate::asked::asked_by;
use crate::relation::{Relation, head_of};
use kif::Expr;
use std::alloc::{AllocError, Allocator, Global};
use std::collections::BTreeSet;
use std::marker::Model;

/// Relations, each once.
#[derive(Drop)]
pub struct RelationSet<'a> {
    known: BTreeSet<Relation<'a>>,
}

impl<'a> Model for RelationSet<'a> {
    ghost use Rattle.std.specs.Prelude.{List, map};
    ghost use Rattle.statement.specs.Clause as said;
    ghost use Rattle.rules_relations.specs.Relations.{relation_in};

    ghost Value = { List said.Relation };

    ghost view = { λ s. map relation_in s.known.keys };
}

impl<'a> RelationSet<'a> {
    /// No relations yet.
    pub fn new(alloc: Global) -> Self
        ensures { (p : said.Relation) → is_among p result ≡ false }
    {
        RelationSet {
            known: BTreeSet::new(alloc),
        }
    }

    /// Whether a relation is there.
    pub fn contains(&self, relation: Relation<'a>) -> bool
        ensures { result ≡ is_among (relation_in relation.entry) self.now }
    {
        self.known.contains(&relation)
    }

    /// Adds a relation, and answers whether it was new.
    pub fn insert(&mut self, relation: Relation<'a>) -> Result<bool, AllocError>
        ensures { OnOk result ((p : said.Relation) → is_among p self.new ≡ (is_among p self.old || relation_eq p (relation_in relation.entry))) }
    {
        let is_new = self.known.insert(relation)?;
        Ok(is_new)
    }
}

/// Adds relations.
fn insert_all<'a>(set: &mut RelationSet<'a>, relations: &[Relation<'a>]) -> Result<(), AllocError>
    ensures { OnOk result ((p : said.Relation) → is_among p set.new ≡ (is_among p set.old || is_among p (map relation_in relations.now))) }
{
    for relation in relations {
        set.insert(*relation)?;
    }
    Ok(())
}

/// The relations that items head.
pub fn stated_in<A: Allocator>(alloc: Global, items: &[Expr<A>]) -> Result<RelationSet, AllocError>
    ensures { IfOk result (λ set. (p : said.Relation) → is_among p set ≡ some_item (heads_it p) (trees_in items.now)) }
{
    let mut set = RelationSet::new(alloc);
    for item in items {
        set.insert(head_of(item))?;
    }
    Ok(set)
}

/// The relations of the literals in the bodies of items.
pub fn asked_in<A: Allocator>(alloc: Global, items: &[Expr<A>]) -> Result<RelationSet, AllocError>
    ensures { IfOk result (λ set. (p : said.Relation) → is_among p set ≡ some_item (asks_it p) (trees_in items.now)) }
{
    let mut set = RelationSet::new(alloc);
    for item in items {
        let asked = asked_by(alloc, item)?;
        insert_all(&mut set, &asked)?;
    }
    Ok(set)
}

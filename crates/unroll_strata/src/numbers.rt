//! Relations by number.
ghost use Rattle.std.specs.Prelude.{◌≡◌, ◌||◌, [], ◌++◌, ◌∷◌, false, length, map, IfOk, OnOk};
ghost use Rattle.statement.specs.Clause as said;
ghost use Rattle.statement.specs.Clause.{relation_eq};
ghost use Rattle.statement.specs.Dependence.{is_among, is_distinct};
ghost use Rattle.kif.specs.View.{trees_in};
ghost use Rattle.rules_relations.specs.Relations.{relation_in};
ghost use Rattle.rules_relations.specs.Asking.{heads_it, some_item};
ghost use Rattle.unroll_strata.specs.Numbering.{number_in, numbers_in};

use indexmap::IndexSet;
use kif::Expr;
use rules_relations::{Relation, head_of, is_same};
use std::alloc::{AllocError, Global};
use std::marker::Model;

/// Relations, each once, numbered in the order in which they were added.
#[derive(Drop)]
pub(crate) struct Numbers<'a> {
    known: IndexSet<Relation<'a>>,
}

impl<'a> Model for Numbers<'a> {
    ghost use Rattle.std.specs.Prelude.{List, map};
    ghost use Rattle.statement.specs.Clause as said;
    ghost use Rattle.rules_relations.specs.Relations.{relation_in};

    ghost Value = { List said.Relation };

    ghost view = { λ s. map relation_in s.known.keys };
}

impl<'a> Numbers<'a> {
    /// No relations yet.
    fn new(alloc: Global) -> Self
        ensures { (p : said.Relation) → is_among p result ≡ false }
    {
        Numbers {
            known: IndexSet::new(alloc),
        }
    }

    /// Adds a relation.
    fn add(&mut self, relation: Relation<'a>) -> Result<(), AllocError>
        ensures { OnOk result ((p : said.Relation) → is_among p self.new ≡ (is_among p self.old || relation_eq p (relation_in relation.entry))) }
    {
        self.known.insert(relation)?;
        Ok(())
    }

    /// How many there are.
    pub(crate) fn len(&self) -> usize
        ensures { result ≡ length self.now }
    {
        self.known.len()
    }

    /// The number of a relation: its place, or how many there are if it is none of them.
    pub(crate) fn number(&self, relation: &Relation<'a>) -> usize
        ensures { result ≡ number_in self.now (relation_in relation.now) }
    {
        match self.known.get_index_of(relation) {
            Some(place) => place,
            None => self.known.len(),
        }
    }
}

/// The relations that items head.
pub(crate) fn heads_in<'a>(
    alloc: Global,
    items: &'a [Expr<Global>],
) -> Result<Numbers<'a>, AllocError>
    ensures { IfOk result (λ numbers. (p : said.Relation) → is_among p numbers ≡ some_item (heads_it p) (trees_in items.now)) }
{
    let mut numbers = Numbers::new(alloc);
    for item in items {
        numbers.add(head_of(item))?;
    }
    Ok(numbers)
}

/// Whether a relation is that of `distinct`.
fn is_distinct_relation(relation: &Relation) -> bool
    ensures { result ≡ is_distinct (relation_in relation.now) }
{
    is_same(b"distinct", 2, relation)
}

/// Adds the number of a relation, if that is not `distinct`.
fn add_number<'a>(
    numbers: &Numbers<'a>,
    relation: &Relation<'a>,
    found: &mut Vec<usize>,
) -> Result<(), AllocError>
    ensures { OnOk result (found.new.items ≡ found.old.items ++ numbers_in numbers.now (relation_in relation.now ∷ [])) }
{
    if is_distinct_relation(relation) {
        return Ok(());
    }
    found.push(numbers.number(relation))?;
    Ok(())
}

/// The numbers of relations but for `distinct`.
pub(crate) fn numbers_of<'a>(
    alloc: Global,
    numbers: &Numbers<'a>,
    relations: &[Relation<'a>],
) -> Result<Vec<usize>, AllocError>
    ensures { IfOk result (λ found. found.items ≡ numbers_in numbers.now (map relation_in relations.now)) }
{
    let mut found = Vec::new(alloc);
    for relation in relations {
        add_number(numbers, relation, &mut found)?;
    }
    Ok(found)
}

//! The relations that the bodies of an item name.
//!
//! Each stands once and by rising number, so the graph has no more arrows from an item than there are relations in it.
ghost use Rattle.std.specs.Prelude.{◌≡◌, ◌<◌, ◌++◌, ◌∷◌, [], length, IfOk, OnOk, if◌then◌else◌};
ghost use Rattle.std.specs.List.Sorted.{IsStrictlyIncreasing};
ghost use Rattle.rules.specs.Bodies.{named_relations, all_named_relations, HaveSame, has_literal, is_longer};
ghost use Rattle.statement.specs.Dependence.{is_distinct};
ghost use Rattle.rules_clauses.specs.Marks.{literal_in, IsInside, AreInside, AreAllInside};
ghost use Rattle.rules_clauses.specs.Spread.{lists_of};
ghost use Rattle.rules_clauses.specs.Store.{relation_at};
ghost use Rattle.rules_clauses.specs.StoreView.{data_of};

use rules_clauses::{Item, Store, numbers_at};
use std::alloc::{AllocError, Global};

/// Adds the relation of a literal, unless it is `distinct`.
fn add_relation(
    store: &Store,
    from: usize,
    number: usize,
    out: &mut Vec<usize>,
) -> Result<(), AllocError>
    requires number { number < length (data_of store.now).literals }
    requires inside { IsInside from (data_of store.now) (literal_in (data_of store.now) number).atom }
    ensures { OnOk result (out.new.items ≡ out.old.items
        ++ (if is_distinct (relation_at (data_of store.now) (literal_in (data_of store.now) number).atom.relation)
        then [] else (literal_in (data_of store.now) number).atom.relation ∷ [])) }
{
    let relation = store.literal(number).atom.relation;
    if store.is_distinct(relation) {
        return Ok(());
    }
    out.push(relation)?;
    Ok(())
}

/// Adds the relations of the literals of a body.
fn add_relations(
    store: &Store,
    from: usize,
    body: &[usize],
    out: &mut Vec<usize>,
) -> Result<(), AllocError>
    requires { AreInside from (data_of store.now) body.now }
    ensures { OnOk result (out.new.items ≡ out.old.items ++ named_relations (data_of store.now) body.now) }
{
    for number in body {
        add_relation(store, from, *number, out)?;
    }
    Ok(())
}

/// Sorts numbers, and keeps each once.
fn keep_once(numbers: &mut Vec<usize>)
    ensures same { HaveSame numbers.new.items numbers.old.items }
    ensures rising { IsStrictlyIncreasing numbers.new.items }
{
    numbers.sort_unstable();
    numbers.dedup();
}

/// The relations of the literals of all bodies of an item, each once, by number.
pub(crate) fn relations_of(
    alloc: Global,
    store: &Store,
    item: &Item,
) -> Result<Vec<usize>, AllocError>
    requires { AreAllInside item.now.variables.from (data_of store.now) (lists_of item.now.bodies.items) }
    ensures same { IfOk result (λ out. HaveSame out.items (all_named_relations (data_of store.now) (lists_of item.now.bodies.items))) }
    ensures rising { IfOk result (λ out. IsStrictlyIncreasing out.items) }
{
    let mut out = Vec::new(alloc);
    for body in &item.bodies {
        let numbers = numbers_at(alloc, body)?;
        add_relations(store, item.variables.from, &numbers, &mut out)?;
        keep_once(&mut out);
    }
    Ok(out)
}

/// Whether there is a number.
fn is_some(numbers: &[usize]) -> bool
    ensures { result ≡ is_longer numbers.now }
{
    !numbers.is_empty()
}

/// Whether some body of an item has a literal.
pub(crate) fn is_resting(alloc: Global, item: &Item) -> Result<bool, AllocError>
    ensures { IfOk result (λ rests. rests ≡ has_literal (lists_of item.now.bodies.items)) }
{
    for body in &item.bodies {
        let numbers = numbers_at(alloc, body)?;
        if is_some(&numbers) {
            return Ok(true);
        }
    }
    Ok(false)
}

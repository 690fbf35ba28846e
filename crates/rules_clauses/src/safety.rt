//! Whether alternatives are safe.
ghost use Rattle.std.specs.Prelude.{ℕ, ◌≡◌, ◌+◌, ◌-◌, ◌≤◌, ◌<◌, ◌&&◌, [], length, IfOk, if◌then◌else◌};
ghost use Rattle.rules_clauses.specs.Marks.{variable_numbers, with_marks, all_marked, NumbersBelow, literal_in, atom_numbers, binds, bound_numbers};
ghost use Rattle.rules_clauses.specs.Marks.{needed_numbers, IsInside, AreInside, AreAllInside, is_safe_by, are_safe_by};
ghost use Rattle.rules_clauses.specs.Spread.{lists_of};
ghost use Rattle.rules_clauses.specs.StoreView.{data_of};

use crate::items::Item;
use crate::numbered::{Atom, Literal, Part};
use crate::spread::numbers_at;
use crate::store::Store;
use std::alloc::{AllocError, Global};

/// Marks the variables that stand in parts.
fn mark_variables(marks: &mut [bool], parts: &[Part])
    requires { NumbersBelow (length marks.old) (variable_numbers parts.now) }
    ensures { marks.new ≡ with_marks marks.old (variable_numbers parts.now) }
{
    for part in parts {
        if let Part::Variable(number) = part {
            marks[*number] = true;
        }
    }
}

/// Whether each variable that stands in parts is marked.
fn are_marked(marks: &[bool], parts: &[Part]) -> bool
    requires { NumbersBelow (length marks.now) (variable_numbers parts.now) }
    ensures { result ≡ all_marked marks.now (variable_numbers parts.now) }
{
    for part in parts {
        if let Part::Variable(number) = part {
            if !marks[*number] {
                return false;
            }
        }
    }
    true
}

/// Whether a literal binds its variables: it is positive, and no `distinct`.
fn is_binding(store: &Store, literal: Literal, from: usize) -> bool
    requires { IsInside from (data_of store.now) literal.atom }
    ensures { result ≡ binds (data_of store.now) literal }
{
    !literal.is_negated && !store.is_distinct(literal.atom.relation)
}

/// The parts of the terms of an atom.
fn terms_of(store: &Store, atom: Atom, from: usize) -> &[Part]
    requires { IsInside from (data_of store.now) atom }
    ensures numbers { variable_numbers result.now ≡ atom_numbers (data_of store.now) atom }
    ensures below { (many : ℕ) → length (data_of store.now).variables ≡ from + many → NumbersBelow many (variable_numbers result.now) }
{
    store.parts_at(atom.terms)
}

/// Marks the variables of a literal that binds them.
fn mark_literal(store: &Store, marks: &mut [bool], from: usize, number: usize)
    requires number { number < length (data_of store.now).literals }
    requires inside { IsInside from (data_of store.now) (literal_in (data_of store.now) number).atom }
    requires marks { length (data_of store.now).variables ≡ from + length marks.old }
    ensures { marks.new ≡ with_marks marks.old
        (if binds (data_of store.now) (literal_in (data_of store.now) number)
        then atom_numbers (data_of store.now) (literal_in (data_of store.now) number).atom else []) }
{
    let literal = store.literal(number);
    if is_binding(store, literal, from) {
        mark_variables(marks, terms_of(store, literal.atom, from));
    }
}

/// Marks the variables that a body binds.
fn mark_bound(store: &Store, marks: &mut [bool], from: usize, body: &[usize])
    requires inside { AreInside from (data_of store.now) body.now }
    requires marks { length (data_of store.now).variables ≡ from + length marks.old }
    ensures { marks.new ≡ with_marks marks.old (bound_numbers (data_of store.now) body.now) }
{
    for number in body {
        mark_literal(store, marks, from, *number);
    }
}

/// Whether a literal binds its variables, or they are marked.
fn is_literal_marked(store: &Store, marks: &[bool], from: usize, number: usize) -> bool
    requires number { number < length (data_of store.now).literals }
    requires inside { IsInside from (data_of store.now) (literal_in (data_of store.now) number).atom }
    requires marks { length (data_of store.now).variables ≡ from + length marks.now }
    ensures { result ≡ all_marked marks.now
        (if binds (data_of store.now) (literal_in (data_of store.now) number)
        then [] else atom_numbers (data_of store.now) (literal_in (data_of store.now) number).atom) }
{
    let literal = store.literal(number);
    if is_binding(store, literal, from) {
        true
    } else {
        are_marked(marks, terms_of(store, literal.atom, from))
    }
}

/// Whether the variables of the literals that bind none are marked.
fn are_needed_marked(store: &Store, marks: &[bool], from: usize, body: &[usize]) -> bool
    requires inside { AreInside from (data_of store.now) body.now }
    requires marks { length (data_of store.now).variables ≡ from + length marks.now }
    ensures { result ≡ all_marked marks.now (needed_numbers (data_of store.now) body.now) }
{
    for number in body {
        if !is_literal_marked(store, marks, from, *number) {
            return false;
        }
    }
    true
}

/// Whether the variables of the head, and those of the literals that bind none, are marked.
fn are_all_marked(store: &Store, marks: &[bool], from: usize, head: Atom, body: &[usize]) -> bool
    requires head { IsInside from (data_of store.now) head }
    requires inside { AreInside from (data_of store.now) body.now }
    requires marks { length (data_of store.now).variables ≡ from + length marks.now }
    ensures { result ≡ (all_marked marks.now (atom_numbers (data_of store.now) head)
        && all_marked marks.now (needed_numbers (data_of store.now) body.now)) }
{
    are_marked(marks, terms_of(store, head, from)) && are_needed_marked(store, marks, from, body)
}

/// Whether an alternative is safe, which has so many variables from a place on.
fn is_safe_alternative(
    alloc: Global,
    store: &Store,
    from: usize,
    variables: usize,
    head: Atom,
    body: &[usize],
) -> Result<bool, AllocError>
    requires head { IsInside from (data_of store.now) head }
    requires inside { AreInside from (data_of store.now) body.now }
    requires variables { length (data_of store.now).variables ≡ from + variables }
    ensures { IfOk result (λ is_safe. is_safe ≡ is_safe_by variables (data_of store.now) head body.now) }
{
    let mut marks = vec![in alloc; false; variables]?;
    mark_bound(store, &mut marks, from, body);
    Ok(are_all_marked(store, &marks, from, head, body))
}

/// Whether each alternative of an item is safe.
pub fn is_safe_item(alloc: Global, store: &Store, item: &Item) -> Result<bool, AllocError>
    requires head { IsInside item.now.variables.from (data_of store.now) item.now.head }
    requires bodies { AreAllInside item.now.variables.from (data_of store.now) (lists_of item.now.bodies.items) }
    requires order { item.now.variables.from ≤ item.now.variables.to }
    requires to { item.now.variables.to ≡ length (data_of store.now).variables }
    ensures { IfOk result (λ is_safe. is_safe ≡ are_safe_by (item.now.variables.to - item.now.variables.from) (data_of store.now) item.now.head
        (lists_of item.now.bodies.items)) }
{
    let from = item.variables.from;
    let variables = item.variables.to - from;
    for body in &item.bodies {
        let numbers = numbers_at(alloc, body)?;
        if !is_safe_alternative(alloc, store, from, variables, item.head, &numbers)? {
            return Ok(false);
        }
    }
    Ok(true)
}

//! Which trees are terms, atoms, literals and items.
ghost use Rattle.std.specs.Prelude.{◌≡◌, ◌∷◌, ◌&&◌, not, MatchOption};
ghost use Rattle.std.specs.List.{list_all};
ghost use Rattle.statement.specs.Tree.{name, name_eq, tree, trees_of};
ghost use Rattle.statement.specs.Lexical.{is_lower_name_byte};
ghost use Rattle.kif.specs.View.{tree_of, trees_in};
ghost use Rattle.statement.specs.Clause.{is_variable};
ghost use Rattle.statement.specs.Items.{is_name, is_constant, is_connective, begins_compound, is_term, are_terms, is_atom, is_one_atom, is_literal};
ghost use Rattle.statement.specs.Items.{are_literals, is_item, head_tree, body_trees};
ghost use Rattle.rules_profile.specs.First.{IsFirstFailing};
ghost use Rattle.statement.specs.Profile.{bad_form};
ghost use Rattle.rules_profile.specs.Connectives.{IsConnectiveOf};
ghost use Rattle.rules_profile.specs.Parts.{HasNoWord};

use kif::{Expr, NAME_LIMIT};
use std::alloc::Allocator;

/// Whether two names have the same bytes.
pub fn is_same_name(one: &[u8], other: &[u8]) -> bool
    ensures { result ≡ name_eq one.now other.now }
{
    one == other
}

/// Whether a byte may stand in a name of a tree.
fn may_name(byte: u8) -> bool
    ensures { result ≡ is_lower_name_byte byte }
{
    matches!(byte, b'!'..=b'~') && !matches!(byte, b'A'..=b'Z' | b'(' | b')' | b';' | b'"' | b'|')
}

fn may_all_name(bytes: &[u8]) -> bool
    ensures { result ≡ list_all is_lower_name_byte bytes.now }
{
    bytes.iter().all(|byte| may_name(*byte))
}

/// Whether the bytes are a name that a text can have.
#[tactic(auto, using(crate::proofs::FormTests::byte_tests))]
fn is_lawful_name(bytes: &[u8]) -> bool
    ensures { result ≡ is_name bytes.now }
{
    match bytes {
        [] => false,
        _ => bytes.len() <= NAME_LIMIT && may_all_name(bytes),
    }
}

pub fn is_variable_name(bytes: &[u8]) -> bool
    ensures { result ≡ is_variable bytes.now }
{
    matches!(bytes, [b'?', ..])
}

/// Whether the bytes are a name that is no variable.
fn is_lawful_constant(bytes: &[u8]) -> bool
    ensures { result ≡ is_constant bytes.now }
{
    is_lawful_name(bytes) && !is_variable_name(bytes)
}

/// Whether the bytes may stand in front of the terms of an atom.
fn is_atom_word(bytes: &[u8]) -> bool
    ensures { result ≡ (is_constant bytes.now && not (is_connective bytes.now)) }
{
    is_lawful_constant(bytes)
        && !(is_same_name(bytes, b"<=")
            || is_same_name(bytes, b"not")
            || is_same_name(bytes, b"or")
            || is_same_name(bytes, b"and"))
}

/// The name that a list begins with, and the parts behind it.
pub fn split_word<A: Allocator>(parts: &[Expr<A>]) -> Option<(&[u8], &[Expr<A>])>
    ensures { MatchOption result (HasNoWord (trees_in parts.now))
        (λ split. trees_in parts.now ≡ name split.0.now ∷ trees_in split.1.now) }
{
    let (first, rest) = parts.split_first()?;
    match first {
        Expr::Name(word) => Some((word, rest)),
        Expr::List(_) => None,
    }
}

/// Whether a word and the parts behind it can be a term: a constant with at least one part.
fn begins_term<A: Allocator>(word: &[u8], rest: &[Expr<A>]) -> bool
    ensures { result ≡ begins_compound (tree (name word.now) (trees_of (trees_in rest.now))) }
{
    !rest.is_empty() && is_lawful_constant(word)
}

/// Whether the tree is a term: a name, or a list of a constant and at least one term.
#[cycle(terms)]
fn is_term_tree<A: Allocator>(e: &Expr<A>) -> bool
    ensures { result ≡ is_term (tree_of e.now) }
{
    match e {
        Expr::Name(name) => is_lawful_name(name),
        Expr::List(parts) => match split_word(parts) {
            None => false,
            Some((word, rest)) => begins_term(word, rest) && are_term_trees(rest),
        },
    }
}

#[cycle(terms)]
fn are_term_trees<A: Allocator>(parts: &[Expr<A>]) -> bool
    ensures { result ≡ are_terms (trees_of (trees_in parts.now)) }
{
    for part in parts {
        if !is_term_tree(part) {
            return false;
        }
    }
    true
}

/// What the word in front of a literal makes of it.
#[derive(Clone, Copy, PartialEq, Eq)]
pub enum Connective {
    Or,
    And,
    Not,
    Nothing,
}

pub fn connective_of(word: &[u8]) -> Connective
    ensures { IsConnectiveOf word.now result }
{
    if is_same_name(word, b"or") {
        Connective::Or
    } else if is_same_name(word, b"and") {
        Connective::And
    } else if is_same_name(word, b"not") {
        Connective::Not
    } else {
        Connective::Nothing
    }
}

/// Whether the tree is an atom: a constant, or a list of a constant and any number of terms.
fn is_atom_tree<A: Allocator>(e: &Expr<A>) -> bool
    ensures { result ≡ is_atom (tree_of e.now) }
{
    match e {
        Expr::Name(name) => is_atom_word(name),
        Expr::List(parts) => match split_word(parts) {
            None => false,
            Some((word, terms)) => is_atom_word(word) && are_term_trees(terms),
        },
    }
}

fn is_one_atom_tree<A: Allocator>(parts: &[Expr<A>]) -> bool
    ensures { result ≡ is_one_atom (trees_of (trees_in parts.now)) }
{
    match parts {
        [part] => is_atom_tree(part),
        _ => false,
    }
}

/// Whether the tree is a literal: an atom, `(not x)` with an atom, or `(or l ..)` or `(and l ..)`
/// with literals.
#[cycle(literals)]
fn is_literal_tree<A: Allocator>(e: &Expr<A>) -> bool
    ensures { result ≡ is_literal (tree_of e.now) }
{
    match e {
        Expr::Name(name) => is_atom_word(name),
        Expr::List(parts) => match split_word(parts) {
            None => false,
            Some((word, rest)) => match connective_of(word) {
                Connective::Or | Connective::And => !rest.is_empty() && are_literal_trees(rest),
                Connective::Not => is_one_atom_tree(rest),
                Connective::Nothing => is_atom_word(word) && are_term_trees(rest),
            },
        },
    }
}

#[cycle(literals)]
fn are_literal_trees<A: Allocator>(parts: &[Expr<A>]) -> bool
    ensures { result ≡ are_literals (trees_of (trees_in parts.now)) }
{
    for part in parts {
        if !is_literal_tree(part) {
            return false;
        }
    }
    true
}

/// The head of an item, and the parts of its body; a fact has none.
pub fn split_item<A: Allocator>(e: &Expr<A>) -> (&Expr<A>, &[Expr<A>])
    ensures head { head_tree (tree_of e.now) ≡ tree_of result.0.now }
    ensures body { body_trees (tree_of e.now) ≡ trees_of (trees_in result.1.now) }
{
    let Expr::List(parts) = e else {
        return (e, &[]);
    };
    let Some((word, rest)) = split_word(parts) else {
        return (e, &[]);
    };
    let Some((head, body)) = rest.split_first() else {
        return (e, &[]);
    };
    if is_same_name(word, b"<=") {
        (head, body)
    } else {
        (e, &[])
    }
}

/// Whether the tree is an item: an atom, or `(<= head l ..)` with an atom as head and literals.
pub(crate) fn is_item_tree<A: Allocator>(e: &Expr<A>) -> bool
    ensures { result ≡ is_item (tree_of e.now) }
{
    let (head, body) = split_item(e);
    is_atom_tree(head) && are_literal_trees(body)
}

/// The number of the first tree that is no item. Trees are numbered from 1.
pub(crate) fn first_bad_form<A: Allocator>(items: &[Expr<A>]) -> Option<usize>
    ensures { IsFirstFailing bad_form (λ t. not (is_item t)) (trees_in items.now) result }
{
    for (index, item) in items.iter().enumerate() {
        if !is_item_tree(item) {
            return Some(index + 1);
        }
    }
    None
}

//! Where the words of the language may stand, and with how many arguments.
ghost use Rattle.std.specs.Prelude.{◌≡◌, ◌&&◌, ◌||◌, ◌==◌, not, true};
ghost use Rattle.std.specs.List.{list_all};
ghost use Rattle.statement.specs.Tree.{name_eq, trees_of};
ghost use Rattle.kif.specs.View.{tree_of, trees_in};
ghost use Rattle.rules_profile.specs.First.{IsFirstFailing};
ghost use Rattle.statement.specs.Clause.{atom_of, relation_of};
ghost use Rattle.statement.specs.Items.{atom_in, is_item, negated};
ghost use Rattle.rules_profile.specs.Parts.{AreItems};
ghost use Rattle.statement.specs.Profile.{bad_keyword, heads_well, stands_well, body_stands_well, uses, is_empty, misuses_word};
ghost use Rattle.statement.specs.Safety.{variables, variables_in};
ghost use Rattle.rules_profile.specs.Standing.{literals_in, literals_of_all};
ghost use Rattle.rules_profile.specs.Uses.{keeps_body, keeps_head};
ghost use Rattle.statement.specs.Words.{w_role};

use crate::forms::{
    Connective, connective_of, is_same_name, is_variable_name, split_item, split_word,
};
use crate::words::{WORDS, Word};
use kif::Expr;
use std::alloc::Allocator;

/// The name of an atom, and its number of terms.
pub(crate) fn signature_of<A: Allocator>(e: &Expr<A>) -> (&[u8], usize)
    ensures { relation_of (atom_in (tree_of e.now)) ≡ record { word = result.0.now; arity = result.1 } }
{
    match e {
        Expr::Name(name) => (name, 0),
        Expr::List(parts) => match split_word(parts) {
            Some((word, terms)) => (word, terms.len()),
            None => (b"", 0),
        },
    }
}

/// Whether a relation does not have this word's name, or has its number of arguments and the word may head an item.
fn keeps_head(word: &[u8], arity: usize, known: Word) -> bool
    ensures { result ≡ keeps_head (record { word = word.now; arity = arity }) known }
{
    let usage = known.usage();
    !is_same_name(word, usage.name) || (arity == usage.arity && usage.may_head)
}

/// Whether a relation does not have this word's name, or has its number of arguments and the word may stand in a body.
fn keeps_body(word: &[u8], arity: usize, known: Word) -> bool
    ensures { result ≡ keeps_body (record { word = word.now; arity = arity }) known }
{
    let usage = known.usage();
    !is_same_name(word, usage.name) || (arity == usage.arity && usage.may_stand)
}

fn keeps_heads(word: &[u8], arity: usize, words: &[Word]) -> bool
    ensures { result ≡ list_all (λ known. keeps_head (record { word = word.now; arity = arity }) known) words.now }
{
    words.iter().all(|known| keeps_head(word, arity, *known))
}

fn keeps_bodies(word: &[u8], arity: usize, words: &[Word]) -> bool
    ensures { result ≡ list_all (λ known. keeps_body (record { word = word.now; arity = arity }) known) words.now }
{
    words.iter().all(|known| keeps_body(word, arity, *known))
}

/// Whether a relation may head an item.
fn may_head(word: &[u8], arity: usize) -> bool
    ensures { result ≡ heads_well (record { word = word.now; arity = arity }) uses }
{
    keeps_heads(word, arity, &WORDS)
}

/// Whether a relation may stand in a body.
fn may_stand(word: &[u8], arity: usize) -> bool
    ensures { result ≡ stands_well (record { word = word.now; arity = arity }) uses }
{
    keeps_bodies(word, arity, &WORDS)
}

/// The name of a negated literal's atom, and its number of terms; `parts` stand behind the `not`.
fn negated_signature<A: Allocator>(parts: &[Expr<A>]) -> (&[u8], usize)
    ensures { relation_of (atom_of (negated (trees_of (trees_in parts.now)))) ≡ record { word = result.0.now; arity = result.1 } }
{
    match parts.split_first() {
        Some((part, _)) => signature_of(part),
        None => (b"", 0),
    }
}

/// Whether the relation of each literal in the tree may stand in a body.
#[cycle(standing)]
fn literal_may_stand<A: Allocator>(e: &Expr<A>) -> bool
    ensures { result ≡ body_stands_well (literals_in (tree_of e.now)) }
{
    match e {
        Expr::Name(name) => may_stand(name, 0),
        Expr::List(parts) => match split_word(parts) {
            None => true,
            Some((word, rest)) => match connective_of(word) {
                Connective::Or | Connective::And => literals_may_stand(rest),
                Connective::Not => {
                    let (word, arity) = negated_signature(rest);
                    may_stand(word, arity)
                }
                Connective::Nothing => may_stand(word, rest.len()),
            },
        },
    }
}

#[cycle(standing)]
fn literals_may_stand<A: Allocator>(parts: &[Expr<A>]) -> bool
    ensures { result ≡ body_stands_well (literals_of_all (trees_of (trees_in parts.now))) }
{
    for part in parts {
        if !literal_may_stand(part) {
            return false;
        }
    }
    true
}

/// Whether the tree has no variable.
#[cycle(ground_trees)]
fn is_without_variables<A: Allocator>(e: &Expr<A>) -> bool
    ensures { result ≡ is_empty (variables (tree_of e.now)) }
{
    match e {
        Expr::Name(name) => !is_variable_name(name),
        Expr::List(parts) => are_without_variables(parts),
    }
}

#[cycle(ground_trees)]
fn are_without_variables<A: Allocator>(parts: &[Expr<A>]) -> bool
    ensures { result ≡ is_empty (variables_in (trees_of (trees_in parts.now))) }
{
    for part in parts {
        if !is_without_variables(part) {
            return false;
        }
    }
    true
}

/// Whether an item is no rule for `role`, or states a role as a fact without variables.
fn keeps_role(word: &[u8], is_without_variables: bool, is_fact: bool) -> bool
    ensures { result ≡ (not (name_eq word.now w_role) || (is_fact && is_without_variables)) }
{
    !Word::Role.is_named(word) || (is_fact && is_without_variables)
}

/// Whether an item uses a word of the language with another number of arguments or in another place,
/// or states a role in another form than a fact without variables.
pub(crate) fn is_misusing_words<A: Allocator>(e: &Expr<A>) -> bool
    requires { is_item (tree_of e.now) ≡ true }
    ensures { result ≡ misuses_word (tree_of e.now) }
{
    let (head, body) = split_item(e);
    let (word, arity) = signature_of(head);
    if !may_head(word, arity) {
        return true;
    }
    if !literals_may_stand(body) {
        return true;
    }
    !keeps_role(word, is_without_variables(head), body.is_empty())
}

/// The number of the first item that misuses a word. Items are numbered from 1.
pub(crate) fn first_misused_word<A: Allocator>(items: &[Expr<A>]) -> Option<usize>
    requires { AreItems (trees_in items.now) }
    ensures { IsFirstFailing bad_keyword misuses_word (trees_in items.now) result }
{
    for (index, item) in items.iter().enumerate() {
        if is_misusing_words(item) {
            return Some(index + 1);
        }
    }
    None
}

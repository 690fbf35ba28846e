//! What is looked for in the literals of a body.
ghost use Rattle.std.specs.Prelude.{◌≡◌, ◌&&◌, not};
ghost use Rattle.statement.specs.Clause.{relation_eq};
ghost use Rattle.statement.specs.Items.{atom_in};
ghost use Rattle.statement.specs.Tree.{name, name_eq, trees_of};
ghost use Rattle.statement.specs.Safety.{variables, variables_in, is_name_in};
ghost use Rattle.kif.specs.View.{tree_of, trees_in};
ghost use Rattle.rules_relations.specs.Probes.{literal_of, literal_as, passes};

use crate::relation::{is_same_name, split_atom};
use kif::Expr;
use rules_profile::is_variable_name;
use std::alloc::Allocator;

/// What a literal is asked for: its relation, or whether it binds a variable.
#[derive(Clone, Copy)]
pub(crate) enum Probe {
    Relation,
    Variable,
}

/// Whether a variable stands in a name: the name is that variable.
fn is_variable_of(word: &[u8], variable: &[u8]) -> bool
    ensures { result ≡ is_name_in variable.now (variables (name word.now)) }
{
    is_variable_name(word) && is_same_name(variable, word)
}

/// Whether a variable stands in a tree.
#[cycle(variables)]
pub fn has_variable<A: Allocator>(e: &Expr<A>, variable: &[u8]) -> bool
    ensures { result ≡ is_name_in variable.now (variables (tree_of e.now)) }
{
    match e {
        Expr::Name(word) => is_variable_of(word, variable),
        Expr::List(parts) => have_variable(parts, variable),
    }
}

/// Whether a variable stands in one of the trees.
#[cycle(variables)]
pub(crate) fn have_variable<A: Allocator>(parts: &[Expr<A>], variable: &[u8]) -> bool
    ensures { result ≡ is_name_in variable.now (variables_in (trees_of (trees_in parts.now))) }
{
    for part in parts {
        if has_variable(part, variable) {
            return true;
        }
    }
    false
}

/// Whether a name with so many arguments is the word and number that are looked for.
fn is_wanted(word: &[u8], arity: usize, wanted: &[u8], count: usize) -> bool
    ensures { result ≡ relation_eq (record { word = word.now; arity = arity }) (record { word = wanted.now; arity = count }) }
{
    is_same_name(word, wanted) && arity == count
}

/// Whether an atom or a negated atom is what is looked for: it has the name with so many arguments; or it is an atom other than a
/// `distinct`, and has the name as a variable.
pub(crate) fn passes_literal<A: Allocator>(
    probe: Probe,
    wanted: &[u8],
    count: usize,
    word: &[u8],
    terms: &[Expr<A>],
    is_negated: bool,
) -> bool
    ensures { result ≡ passes probe wanted.now count (literal_of is_negated word.now (trees_of (trees_in terms.now))) }
{
    match probe {
        Probe::Relation => is_wanted(word, terms.len(), wanted, count),
        Probe::Variable => {
            let is_distinct = is_wanted(word, terms.len(), b"distinct", 2);
            let is_there = have_variable(terms, wanted);
            is_bound(is_negated, is_distinct, is_there)
        }
    }
}

/// Whether a literal binds a variable that may be there.
fn is_bound(is_negated: bool, is_distinct: bool, is_there: bool) -> bool
    ensures { result ≡ (not is_negated && (not is_distinct && is_there)) }
{
    !is_negated && !is_distinct && is_there
}

/// Whether an atom, or its negation, is what is looked for.
pub(crate) fn passes_atom<A: Allocator>(
    e: &Expr<A>,
    is_negated: bool,
    probe: Probe,
    wanted: &[u8],
    count: usize,
) -> bool
    ensures { result ≡ passes probe wanted.now count (literal_as is_negated (atom_in (tree_of e.now))) }
{
    let (word, terms) = split_atom(e);
    passes_literal(probe, wanted, count, word, terms, is_negated)
}

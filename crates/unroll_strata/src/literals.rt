//! Literals whose own atoms are asked of the state.
ghost use Rattle.std.specs.Prelude.{◌≡◌, ◌++◌, map, IfOk, OnOk};
ghost use Rattle.statement.specs.Clause.{relation_of};
ghost use Rattle.statement.specs.Dependence.{is_among};
ghost use Rattle.statement.specs.Items.{atom_in};
ghost use Rattle.statement.specs.Tree.{name, list, tree, trees_of};
ghost use Rattle.kif.specs.View.{tree_of, trees_in};
ghost use Rattle.unroll_strata.specs.Steps.{step_atom, step_literal, step_literals};

use crate::parts::{begun, pair, term_of};
use kif::{Expr, copy_to};
use rules_profile::{Connective, connective_of, split_word};
use rules_relations::{Relation, RelationSet, split_atom};
use std::alloc::{AllocError, Global};

/// Whether the relation of an atom is own.
fn is_own<'a>(e: &'a Expr<Global>, own: &RelationSet<'a>) -> bool
    ensures { result ≡ is_among (relation_of (atom_in (tree_of e.now))) own.now }
{
    let (word, terms) = split_atom(e);
    own.contains(Relation {
        word,
        arity: terms.len(),
    })
}

/// An atom, or the question whether it is in the state.
fn asked<'a>(
    e: &'a Expr<Global>,
    alloc: Global,
    own: &RelationSet<'a>,
) -> Result<Expr<Global>, AllocError>
    ensures { IfOk result (λ made. tree_of made ≡ step_atom own.now (tree_of e.now)) }
{
    if !is_own(e, own) {
        return copy_to(alloc, e);
    }
    let term = term_of(alloc, e)?;
    pair(alloc, b"true", term)
}

/// A literal whose own atoms are asked of the state.
#[cycle(stepping)]
fn literal<'a>(
    e: &'a Expr<Global>,
    alloc: Global,
    own: &RelationSet<'a>,
) -> Result<Expr<Global>, AllocError>
    ensures { IfOk result (λ made. tree_of made ≡ step_literal own.now (tree_of e.now)) }
{
    match e {
        Expr::Name(_) => asked(e, alloc, own),
        Expr::List(parts) => match split_word(parts) {
            None => copy_to(alloc, e),
            Some((word, rest)) => match connective_of(word) {
                Connective::Or | Connective::And => joined(rest, alloc, word, own),
                Connective::Not => copy_to(alloc, e),
                Connective::Nothing => asked(e, alloc, own),
            },
        },
    }
}

/// A list of a word and of literals whose own atoms are asked of the state.
#[cycle(stepping)]
fn joined<'a>(
    parts: &'a [Expr<Global>],
    alloc: Global,
    word: &[u8],
    own: &RelationSet<'a>,
) -> Result<Expr<Global>, AllocError>
    ensures { IfOk result (λ made. tree_of made
        ≡ list (tree (name word.now) (step_literals own.now (trees_of (trees_in parts.now))))) }
{
    let mut made = begun(alloc, word)?;
    add_literals(parts, alloc, own, &mut made)?;
    Ok(Expr::List(made))
}

/// Adds literals whose own atoms are asked of the state.
#[cycle(stepping)]
pub(crate) fn add_literals<'a>(
    parts: &'a [Expr<Global>],
    alloc: Global,
    own: &RelationSet<'a>,
    made: &mut Vec<Expr<Global>>,
) -> Result<(), AllocError>
    ensures { OnOk result (trees_in made.new.items
        ≡ trees_in made.old.items ++ map (step_literal own.now) (trees_in parts.now)) }
{
    for part in parts {
        let one = literal(part, alloc, own)?;
        made.push(one)?;
    }
    Ok(())
}

//! Trees in memory, from their parts.
ghost use Rattle.std.specs.Prelude.{◌≡◌, ◌++◌, ◌∷◌, [], IfOk, OnOk};
ghost use Rattle.statement.specs.Clause as said;
ghost use Rattle.statement.specs.Clause.{tree_at};
ghost use Rattle.statement.specs.Items.{atom_in};
ghost use Rattle.statement.specs.Tree.{name, trees_of};
ghost use Rattle.kif.specs.View.{tree_of, trees_in};
ghost use Rattle.unroll_strata.specs.Steps.{pair as word_and};

use kif::{Expr, copy_to};
use rules_relations::split_atom;
use std::alloc::{AllocError, Global};

/// A name as a tree.
fn named(alloc: Global, bytes: &[u8]) -> Result<Expr<Global>, AllocError>
    ensures { IfOk result (λ e. tree_of e ≡ name bytes.now) }
{
    Ok(Expr::Name(Vec::from_slice(alloc, bytes)?))
}

/// A list that is begun with a word.
pub(crate) fn begun(alloc: Global, word: &[u8]) -> Result<Vec<Expr<Global>>, AllocError>
    ensures { IfOk result (λ made. trees_in made.items ≡ name word.now ∷ []) }
{
    let mut made = Vec::new(alloc);
    let first = named(alloc, word)?;
    made.push(first)?;
    Ok(made)
}

/// A list of a word and a tree.
pub(crate) fn pair(alloc: Global, word: &[u8], e: Expr<Global>) -> Result<Expr<Global>, AllocError>
    ensures { IfOk result (λ both. tree_of both ≡ word_and word.now (tree_of e)) }
{
    let mut parts = begun(alloc, word)?;
    parts.push(e)?;
    Ok(Expr::List(parts))
}

/// Adds copies of trees.
pub(crate) fn add_copies(
    alloc: Global,
    parts: &[Expr<Global>],
    made: &mut Vec<Expr<Global>>,
) -> Result<(), AllocError>
    ensures { OnOk result (trees_in made.new.items ≡ trees_in made.old.items ++ trees_in parts.now) }
{
    for part in parts {
        let copy = copy_to(alloc, part)?;
        made.push(copy)?;
    }
    Ok(())
}

/// An atom as a tree: without terms it is its name.
fn atom(alloc: Global, word: &[u8], terms: &[Expr<Global>]) -> Result<Expr<Global>, AllocError>
    ensures { IfOk result (λ made. tree_of made ≡ tree_at word.now (trees_of (trees_in terms.now))) }
{
    if terms.is_empty() {
        return named(alloc, word);
    }
    let mut made = begun(alloc, word)?;
    add_copies(alloc, terms, &mut made)?;
    Ok(Expr::List(made))
}

/// The atom that a tree is, as a tree: `(p)` is the atom `p`.
pub(crate) fn term_of(alloc: Global, e: &Expr<Global>) -> Result<Expr<Global>, AllocError>
    ensures { IfOk result (λ made. tree_of made ≡ said.tree_of (atom_in (tree_of e.now))) }
{
    let (word, terms) = split_atom(e);
    atom(alloc, word, terms)
}

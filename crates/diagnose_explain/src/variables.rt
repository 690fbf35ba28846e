//! Variables that nothing binds.
ghost use Rattle.std.specs.Prelude.{◌≡◌, ◌&&◌, not, IfOk, IfSome};
ghost use Rattle.statement.specs.Safety.{variables, is_name_in};
ghost use Rattle.kif.specs.View.{tree_of};
ghost use Rattle.rules_relations.specs.Asking.{binds_it};
ghost use Rattle.diagnose_explain.specs.Unbound.{IsUnbound};

use indexmap::IndexSet;
use kif::Expr;
use rules_profile::{Connective, Word, connective_of, is_variable_name, split_item, split_word};
use rules_relations::{binds, has_variable};
use std::alloc::{AllocError, Allocator, Global};

/// Adds the variables of a tree.
#[cycle(gathering)]
fn gather<'a, A: Allocator>(
    e: &'a Expr<A>,
    found: &mut IndexSet<&'a [u8]>,
) -> Result<(), AllocError> {
    match e {
        Expr::Name(word) => {
            if is_variable_name(word) {
                found.insert(word)?;
            }
            Ok(())
        }
        Expr::List(parts) => gather_all(parts, found),
    }
}

/// Adds the variables of trees.
#[cycle(gathering)]
fn gather_all<'a, A: Allocator>(
    parts: &'a [Expr<A>],
    found: &mut IndexSet<&'a [u8]>,
) -> Result<(), AllocError> {
    for part in parts {
        gather(part, found)?;
    }
    Ok(())
}

/// The different variables of a tree, in the order of the text. No clause says that these are they: who takes one tests it by
/// `has_variable`.
pub(crate) fn variables_of<A: Allocator>(
    alloc: Global,
    e: &Expr<A>,
) -> Result<IndexSet<&[u8]>, AllocError> {
    let mut found = IndexSet::new(alloc);
    gather(e, &mut found)?;
    Ok(found)
}

/// Adds the variables of the positive literals in a tree, other than those of a `distinct`.
#[cycle(binding)]
fn gather_bound<'a, A: Allocator>(
    e: &'a Expr<A>,
    found: &mut IndexSet<&'a [u8]>,
) -> Result<(), AllocError> {
    let Expr::List(parts) = e else {
        return Ok(());
    };
    let Some((word, rest)) = split_word(parts) else {
        return Ok(());
    };
    match connective_of(word) {
        Connective::Or | Connective::And => gather_all_bound(rest, found),
        Connective::Not => Ok(()),
        Connective::Nothing => {
            if Word::Distinct.is_named(word) {
                return Ok(());
            }
            gather_all(rest, found)
        }
    }
}

/// Adds the variables of the positive literals in trees, other than those of a `distinct`.
#[cycle(binding)]
fn gather_all_bound<'a, A: Allocator>(
    parts: &'a [Expr<A>],
    found: &mut IndexSet<&'a [u8]>,
) -> Result<(), AllocError> {
    for part in parts {
        gather_bound(part, found)?;
    }
    Ok(())
}

/// The variables of the positive literals of an item's body, other than those of a `distinct`. No clause says that these are they.
fn variables_bound<A: Allocator>(
    alloc: Global,
    item: &Expr<A>,
) -> Result<IndexSet<&[u8]>, AllocError> {
    let mut found = IndexSet::new(alloc);
    let (_, body) = split_item(item);
    gather_all_bound(body, &mut found)?;
    Ok(found)
}

/// Whether a variable stands in an item, and no positive literal of its body has it.
fn is_unbound<A: Allocator>(item: &Expr<A>, variable: &[u8]) -> bool
    ensures { result ≡ (is_name_in variable.now (variables (tree_of item.now)) && not (binds_it variable.now (tree_of item.now))) }
{
    has_variable(item, variable) && !binds(item, variable)
}

/// A variable of an item that no positive literal of its body binds, if one is found: the first in the order of the text.
pub fn unbound_variable<A: Allocator>(
    alloc: Global,
    item: &Expr<A>,
) -> Result<Option<&[u8]>, AllocError>
    ensures { IfOk result (λ found. IfSome found (λ variable. IsUnbound (tree_of item.now) variable.now)) }
{
    let variables = variables_of(alloc, item)?;
    let bound = variables_bound(alloc, item)?;
    for variable in variables.as_slice() {
        if !bound.contains(variable) && is_unbound(item, variable) {
            return Ok(Some(*variable));
        }
    }
    Ok(None)
}

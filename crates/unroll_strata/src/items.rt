//! Items of a game whose turns are steps of derivation.
ghost use Rattle.std.specs.Prelude.{◌≡◌, IfOk};
ghost use Rattle.kif.specs.View.{tree_of};
ghost use Rattle.unroll_strata.specs.Steps.{based_item, step_item};

use crate::literals::add_literals;
use crate::parts::{add_copies, begun, pair, term_of};
use kif::Expr;
use rules_profile::split_item;
use rules_relations::RelationSet;
use std::alloc::{AllocError, Global};

/// A rule as a step: its head comes into the next state.
pub(crate) fn step<'a>(
    alloc: Global,
    item: &'a Expr<Global>,
    own: &RelationSet<'a>,
) -> Result<Expr<Global>, AllocError>
    ensures { IfOk result (λ made. tree_of made ≡ step_item own.now (tree_of item.now)) }
{
    let (head, body) = split_item(item);
    let mut made = begun(alloc, b"<=")?;
    let term = term_of(alloc, head)?;
    let next = pair(alloc, b"next", term)?;
    made.push(next)?;
    add_literals(body, alloc, own, &mut made)?;
    Ok(Expr::List(made))
}

/// An item whose head can be in a state, where its body is right.
pub(crate) fn based(alloc: Global, item: &Expr<Global>) -> Result<Expr<Global>, AllocError>
    ensures { IfOk result (λ made. tree_of made ≡ based_item (tree_of item.now)) }
{
    let (head, body) = split_item(item);
    let mut made = begun(alloc, b"<=")?;
    let term = term_of(alloc, head)?;
    let base = pair(alloc, b"base", term)?;
    made.push(base)?;
    add_copies(alloc, body, &mut made)?;
    Ok(Expr::List(made))
}

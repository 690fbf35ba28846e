//! The first item of which the head rests on itself through a negated atom.
ghost use Rattle.std.specs.Prelude.{IfOk};
ghost use Rattle.kif.specs.View.{trees_in};
ghost use Rattle.rules.specs.ItemLinks.{IsFirstSuch};
ghost use Rattle.unroll_strata.specs.Resting.{RestsOnItsNegation};

use crate::crossed::first_crossed_link;
use crate::graph::{graph_of, negations_of};
use crate::numbers::heads_in;
use kif::Expr;
use std::alloc::{AllocError, Global};

/// The number, from 1, of the first item of which the head's relation rests on itself through a negated atom of the body. With none the
/// items are stratified.
pub fn first_unstratified(
    alloc: Global,
    items: &[Expr<Global>],
) -> Result<Option<usize>, AllocError>
    ensures { IfOk result (IsFirstSuch (RestsOnItsNegation (trees_in items.now)) (trees_in items.now)) }
{
    let numbers = heads_in(alloc, items)?;
    let graph = graph_of(alloc, &numbers, items)?;
    let negations = negations_of(alloc, &numbers, items)?;
    first_crossed_link(&graph, alloc, &negations)
}

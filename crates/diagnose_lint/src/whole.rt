//! What all items together state and ask.
ghost use Rattle.std.specs.Prelude.{IfOk};
ghost use Rattle.kif.specs.View.{trees_in};
ghost use Rattle.diagnose_lint.specs.Wholes.{IsWhole};

use kif::Expr;
use rules_relations::{RelationSet, asked_in, stated_in};
use std::alloc::{AllocError, Allocator, Global};

/// The relations that items state, and those that they ask.
#[derive(Drop)]
pub(crate) struct Whole<'a> {
    pub(crate) stated: RelationSet<'a>,
    pub(crate) asked: RelationSet<'a>,
}

/// What items state and ask.
pub(crate) fn whole_of<A: Allocator>(alloc: Global, items: &[Expr<A>]) -> Result<Whole, AllocError>
    ensures { IfOk result (IsWhole (trees_in items.now)) }
{
    let stated = stated_in(alloc, items)?;
    let asked = asked_in(alloc, items)?;
    Ok(Whole { stated, asked })
}

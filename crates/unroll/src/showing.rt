//! Whether what is written is shown to be played as the items that it was written for.
ghost use Rattle.std.specs.Prelude.{map, IfOk};
ghost use Rattle.std.specs.Bool.{OnTrue};
ghost use Rattle.statement.specs.Items.{alternatives};
ghost use Rattle.statement.specs.Profile.{HasNoFault};
ghost use Rattle.kif.specs.View.{trees_in};
ghost use Rattle.rules_relations.specs.Relations.{relation_in};
ghost use Rattle.meaning.specs.Derivable.{IsStratified};
ghost use Rattle.meaning.specs.Possible.{PlaysAs};
ghost use Rattle.unroll.specs.Answers.{AreAnswered};
ghost use Rattle.unroll.specs.Played.{played_items};

use crate::certifying::is_founded;
use crate::choosing::{own_relations, relations_below};
use crate::instances::{circles_of, look_at_instances};
use crate::ranges::without_ranges;
use kif::Expr;
use meaning::{what_is_answered_apart_is_answered_together, what_is_founded_is_answered};
use rules_relations::Relation;
use std::alloc::{AllocError, AllocGlobal, Global};
use unroll_strata::{rewrites, set_of, what_is_rewritten_is_played_the_same};
use unroll_writer::{Bounds, Layers};

/// Whether what is written of own relations that are fixed is shown to be what is derived of them.
fn is_stated_alike<'a, T: AllocGlobal>(
    rt: &T,
    items: &'a [Expr<Global>],
    written: &'a [Expr<Global>],
    own: &[Relation<'a>],
) -> Result<bool, AllocError>
    ensures { IfOk result (λ is_so. OnTrue is_so (HasNoFault (trees_in written.now)
        → AreAnswered (trees_in items.now) (trees_in written.now) (map relation_in own.now))) }
{
    what_is_founded_is_answered();
    what_is_answered_apart_is_answered_together();
    if own.is_empty() {
        return Ok(true);
    }
    let in_own = set_of(rt.alloc(), own)?;
    let below = relations_below(rt.alloc(), written, own)?;
    is_founded(rt, items, written, own, &in_own, &below)
}

/// Whether what is written is shown to be played as some of the items that it was written for. The marks say of each of all of these whether the
/// relation that it heads is fixed and rests on itself, the layers which other relations rest on themselves.
fn is_played<'a, T: AllocGlobal>(
    rt: &T,
    items: &'a [Expr<Global>],
    played: &'a [Expr<Global>],
    written: &'a [Expr<Global>],
    circles: &[bool],
    layers: &'a [Layers],
) -> Result<bool, AllocError>
    ensures { IfOk result (λ is_so. OnTrue is_so (HasNoFault (trees_in written.now) → IsStratified (alternatives (trees_in played.now))
        → PlaysAs (alternatives (trees_in played.now)) (alternatives (trees_in written.now)))) }
{
    let alloc = rt.alloc();
    let mut own = own_relations(alloc, items, circles)?;
    if !is_stated_alike(rt, played, written, &own)? {
        return Ok(false);
    }
    let moving = circles_of(alloc, items, layers)?;
    if !look_at_instances(rt, played, written, &moving, &mut own)? {
        return Ok(false);
    }
    let in_own = set_of(alloc, &own)?;
    what_is_answered_apart_is_answered_together();
    what_is_rewritten_is_played_the_same();
    rewrites(alloc, &in_own, played, written)
}

/// Whether what is written is shown to be played as the items that it was written for, but for what these state of `base` and `input`, where
/// that is cut. The marks and the layers are those of `is_played`.
pub(crate) fn is_shown<T: AllocGlobal>(
    rt: &T,
    items: &[Expr<Global>],
    written: &[Expr<Global>],
    circles: &[bool],
    layers: &[Layers],
    bounds: Bounds,
) -> Result<bool, AllocError>
    ensures { IfOk result (λ is_so. OnTrue is_so (HasNoFault (trees_in written.now) → IsStratified (alternatives (trees_in items.now))
        → PlaysAs (alternatives (played_items bounds (trees_in items.now))) (alternatives (trees_in written.now)))) }
{
    match bounds {
        Bounds::AsStated => is_played(rt, items, items, written, circles, layers),
        Bounds::Tightened => {
            let played = without_ranges(rt.alloc(), items)?;
            is_played(rt, items, &played, written, circles, layers)
        }
    }
}

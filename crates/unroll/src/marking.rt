//! Marks of the base propositions that play comes to.
ghost use Rattle.std.specs.Prelude.{ℕ, ◌≡◌, ◌<◌, length, IfOk, List};
ghost use Rattle.std.specs.List.{All};
ghost use Rattle.std.specs.Bool.{OnTrue};
ghost use Rattle.statement.specs.Tree.{Tree};
ghost use Rattle.statement.specs.Clause.{Alternative};
ghost use Rattle.statement.specs.Dependence.{IsAmong};
ghost use Rattle.statement.specs.Listing.{base_list};
ghost use Rattle.ground_instances.specs.GroundView.{IsGround, base_of, instances_of, kinds_of};
ghost use Rattle.unroll_strata.specs.Founded.{IsReached};
ghost use Rattle.unroll.specs.ReachedByNumber.{IsReachedIn};
ghost use Rattle.unroll.specs.Marks.{AreReached, AsksMarked, IsMarked};

use crate::asking::{asked, brought};
use crate::laws::where_all_are_reached_by_number_all_terms_are;
use crate::ordering::order_of;
use ground_instances::{AtomLiteral, FlatGround};
use std::alloc::{AllocError, Global};

/// Whether a base proposition is marked.
fn is_marked(marks: &[bool], proposition: u32) -> bool
    ensures { OnTrue result (IsMarked marks.now proposition) }
{
    let place = proposition as usize;
    if place >= marks.len() {
        return false;
    }
    marks[place]
}

/// Whether a literal asks a base proposition that is marked.
fn asks_marked(ground: &FlatGround, marks: &[bool], literal: AtomLiteral) -> bool
    ensures { OnTrue result (AsksMarked (kinds_of ground.now) marks.now literal) }
{
    let Some(proposition) = asked(ground, literal) else {
        return false;
    };
    is_marked(marks, proposition)
}

/// Whether all literals ask base propositions that are marked.
fn all_ask_marked(ground: &FlatGround, marks: &[bool], body: &[AtomLiteral]) -> bool
    ensures { OnTrue result (All (AsksMarked (kinds_of ground.now) marks.now) body.now) }
{
    for literal in body {
        if !asks_marked(ground, marks, *literal) {
            return false;
        }
    }
    true
}

/// Marks what an instance brings into the next state, if all that it asks is marked.
fn mark_brought(ground: &FlatGround, place: usize, marks: &mut Vec<bool>)
    requires { AreReached (kinds_of ground.now) (instances_of ground.now) marks.old.items }
    ensures { AreReached (kinds_of ground.now) (instances_of ground.now) marks.new.items }
{
    if place >= ground.many_kept() {
        return;
    }
    let Some(proposition) = brought(ground, place) else {
        return;
    };
    if proposition as usize >= marks.len() || !all_ask_marked(ground, marks, ground.body(place)) {
        return;
    }
    marks[proposition as usize] = true;
}

/// Marks what instances bring into the next state, one after the other.
fn marks_of(alloc: Global, ground: &FlatGround, order: &[u32]) -> Result<Vec<bool>, AllocError>
    ensures { IfOk result (λ marks. AreReached (kinds_of ground.now) (instances_of ground.now) marks.items) }
{
    let mut marks = vec![in alloc; false; ground.base()]?;
    for place in order {
        mark_brought(ground, *place as usize, &mut marks);
    }
    Ok(marks)
}

/// Whether so many base propositions are marked, all from the first.
fn are_all_marked(marks: &[bool], many: usize) -> bool
    ensures { OnTrue result ((k : ℕ) → k < many → IsMarked marks.now k) }
{
    for place in 0..many {
        if place >= marks.len() || !marks[place] {
            return false;
        }
    }
    true
}

/// Whether play comes to all base propositions, where each is brought by others that it comes to before, none of them negated, and by no
/// moves. `true` says that it does so; `false` says nothing. It fails only for want of memory.
pub fn comes_to_all(alloc: Global, ground: &FlatGround) -> Result<bool, AllocError>
    ensures numbers { IfOk result (λ is_so. OnTrue is_so ((k : ℕ) → k < length (base_of ground.now)
        → (n : ℕ) × IsReachedIn (kinds_of ground.now) (instances_of ground.now) n k)) }
    ensures terms { IfOk result (λ is_so. OnTrue is_so ((rules : List Alternative) → IsGround rules ground.now
        → (t : Tree) → IsAmong t (base_list rules) → (n : ℕ) × IsReached rules n t)) }
{
    where_all_are_reached_by_number_all_terms_are();
    let order = order_of(alloc, ground)?;
    let marks = marks_of(alloc, ground, &order)?;
    Ok(are_all_marked(&marks, ground.base()))
}

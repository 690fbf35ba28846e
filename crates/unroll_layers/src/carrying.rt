//! Which atoms of layers are kept in the layer behind theirs.
ghost use Rattle.std.specs.Prelude.{◌≡◌, ◌<◌, length, get_or, IfOk, IfSome};
ghost use Rattle.std.specs.Bool.{OnTrue};
ghost use Rattle.statement.specs.Kept.{Kept};
ghost use Rattle.rules.specs.RuleSetView.{rules_in};
ghost use Rattle.ground_instances.specs.GroundView.{instances_of};
ghost use Rattle.unroll_layers.specs.Owners.{owner_of};
ghost use Rattle.unroll_layers.specs.Carried.{HasOneLiteral, IsCarrier, MarkCarried, MarkHeads, AreCarried};

use crate::owners::{is_marked, only_asked, owner_at};
use ground_instances::FlatGround;
use rules::RuleSet;
use std::alloc::{AllocError, Global};

/// Whether the body of an alternative has one literal.
fn has_one_literal(rules: &RuleSet, alternative: u32) -> bool
    ensures { OnTrue result (HasOneLiteral (rules_in rules.now) alternative) }
{
    let place = alternative as usize;
    place < rules.alternatives().len() && rules.alternatives()[place].body.len() == 1
}

/// Whether the same own atom rests on two atoms, or on neither.
fn have_one_owner(owners: &[Option<u32>], one: u32, other: u32) -> bool
    ensures { OnTrue result (owner_of owners.now one ≡ owner_of owners.now other) }
{
    owner_at(owners, one) == owner_at(owners, other)
}

/// The atom that a kept instance carries on, if it does.
fn carried_by(
    rules: &RuleSet,
    ground: &FlatGround,
    firsts: &[bool],
    owners: &[Option<u32>],
    place: usize,
) -> Option<u32>
    requires { place < length (instances_of ground.now) }
    ensures { IfSome result (λ atom. (d : Kept) → IsCarrier (rules_in rules.now) firsts.now owners.now (get_or (instances_of ground.now) place d) atom) }
{
    let alternative = ground.alternative(place);
    if is_marked(firsts, alternative) || !has_one_literal(rules, alternative) {
        return None;
    }
    let atom = only_asked(ground.body(place))?;
    if !have_one_owner(owners, ground.head(place), atom) {
        return None;
    }
    Some(atom)
}

/// Marks the atom that a kept instance carries on, if it does.
fn mark_carried(
    rules: &RuleSet,
    ground: &FlatGround,
    firsts: &[bool],
    owners: &[Option<u32>],
    place: usize,
    marks: &mut Vec<bool>,
)
    requires place { place < length (instances_of ground.now) }
    requires marks { MarkCarried (rules_in rules.now) firsts.now (instances_of ground.now) owners.now marks.old.items }
    ensures { MarkCarried (rules_in rules.now) firsts.now (instances_of ground.now) owners.now marks.new.items }
{
    let Some(atom) = carried_by(rules, ground, firsts, owners, place) else {
        return;
    };
    if atom as usize >= marks.len() {
        return;
    }
    marks[atom as usize] = true;
}

/// For each atom whether some kept instance carries it on.
fn carried_in(
    alloc: Global,
    rules: &RuleSet,
    ground: &FlatGround,
    firsts: &[bool],
    owners: &[Option<u32>],
) -> Result<Vec<bool>, AllocError>
    ensures { IfOk result (λ marks. MarkCarried (rules_in rules.now) firsts.now (instances_of ground.now) owners.now marks.items) }
{
    let mut marks = vec![in alloc; false; ground.atoms()]?;
    for place in 0..ground.many_kept() {
        mark_carried(rules, ground, firsts, owners, place, &mut marks);
    }
    Ok(marks)
}

/// Whether the heads of all kept instances of marked alternatives are marked.
fn are_heads_marked(ground: &FlatGround, befores: &[bool], marks: &[bool]) -> bool
    ensures { OnTrue result (MarkHeads befores.now (instances_of ground.now) marks.now) }
{
    for place in 0..ground.many_kept() {
        if is_marked(befores, ground.alternative(place)) && !is_marked(marks, ground.head(place)) {
            return false;
        }
    }
    true
}

/// Whether kept instances carry on the heads of all kept instances of marked alternatives. Those that carry are of alternatives without the
/// other mark.
pub(crate) fn are_carried(
    alloc: Global,
    rules: &RuleSet,
    ground: &FlatGround,
    firsts: &[bool],
    befores: &[bool],
    owners: &[Option<u32>],
) -> Result<bool, AllocError>
    ensures { IfOk result (λ is_so. OnTrue is_so (AreCarried (rules_in rules.now) firsts.now befores.now (instances_of ground.now) owners.now)) }
{
    let marks = carried_in(alloc, rules, ground, firsts, owners)?;
    Ok(are_heads_marked(ground, befores, &marks))
}

//! Whether the layers in which relations are written are enough.
ghost use Rattle.std.specs.Prelude.{List, length, map, IfOk};
ghost use Rattle.std.specs.Bool.{OnTrue};
ghost use Rattle.statement.specs.Clause.{Alternative};
ghost use Rattle.statement.specs.Dependence.{is_among};
ghost use Rattle.rules_relations.specs.Relations.{relation_in};
ghost use Rattle.ground_instances.specs.GroundView.{IsGround, instances_of};
ghost use Rattle.rules.specs.RuleSetView.{rules_in};
ghost use Rattle.meaning.specs.Layers.{IsLayered, IsBounded};
ghost use Rattle.unroll_layers.specs.Owners.{HasSlots};
ghost use Rattle.meaning.specs.Names.{names_of, word_in};

use crate::asking::all_ask;
use crate::checking::are_slotted;
use crate::finding::slots_of;
use crate::laws::what_is_slotted_is_bounded;
use crate::marks::marks_of;
use crate::owners::owners_of;
use crate::relations::{layers_of, set_of};
use ground_instances::FlatGround;
use rules::RuleSet;
use rules_relations::Relation;
use std::alloc::{AllocError, Global};

/// Whether the kept instances of marked alternatives have slots below a bound, which are found first.
fn has_slots(
    alloc: Global,
    ground: &FlatGround,
    tops: &[bool],
    layers: &[bool],
    bound: usize,
) -> Result<bool, AllocError>
    ensures { IfOk result (λ is_so. OnTrue is_so (HasSlots tops.now layers.now (instances_of ground.now) bound)) }
{
    let owners = owners_of(alloc, ground, tops)?;
    let slots = slots_of(alloc, ground, layers, &owners)?;
    Ok(are_slotted(ground, layers, &owners, &slots, bound))
}

/// Whether ways through different atoms of own relations are shorter than there are layers, where the own relations are written in layers of
/// these names. `true` says so; `false` says nothing. It fails only for want of memory.
pub fn is_bounded<'a>(
    alloc: Global,
    rules: &'a RuleSet,
    ground: &FlatGround,
    own: &[Relation<'a>],
    names: &[Vec<Vec<u8>>],
) -> Result<bool, AllocError>
    requires { IsGround (rules_in rules.now) ground.now }
    ensures { IfOk result (λ is_so. OnTrue is_so ((found : List Alternative)
        → IsLayered found (rules_in rules.now) (λ p. is_among p (map relation_in own.now)) (word_in (map relation_in own.now) (names_of names.now)) (length names.now)
        → IsBounded (rules_in rules.now) (λ p. is_among p (map relation_in own.now)) (word_in (map relation_in own.now) (names_of names.now)) (length names.now))) }
{
    what_is_slotted_is_bounded();
    let Some(in_layers) = layers_of(alloc, own, names, names.len())? else {
        return Ok(false);
    };
    let tops = marks_of(alloc, rules, &set_of(alloc, own)?)?;
    let layers = marks_of(alloc, rules, &in_layers)?;
    if !all_ask(alloc, rules, ground, &tops, own)? {
        return Ok(false);
    }
    has_slots(alloc, ground, &tops, &layers, names.len())
}

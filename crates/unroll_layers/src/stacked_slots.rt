//! Whether the layers in which relations are written are enough, where each keeps those before.
ghost use Rattle.std.specs.Prelude.{ℕ, suc, ◌≡◌, ◌≤◌, List, length, map, IfOk, IfSome};
ghost use Rattle.std.specs.Bool.{OnTrue};
ghost use Rattle.statement.specs.Clause.{Alternative};
ghost use Rattle.statement.specs.Dependence.{is_among};
ghost use Rattle.rules_relations.specs.Relations.{relation_in};
ghost use Rattle.ground_instances.specs.GroundView.{IsGround, instances_of};
ghost use Rattle.rules.specs.RuleSetView.{rules_in};
ghost use Rattle.meaning.specs.Stacks.{IsStacked, IsEnough};
ghost use Rattle.meaning.specs.Names.{names_of, word_in};
ghost use Rattle.unroll_layers.specs.ByNumber.{MarkTops, MarkLayers};
ghost use Rattle.unroll_layers.specs.Carried.{HasStack};

use crate::asking::all_ask;
use crate::carrying::are_carried;
use crate::checking::are_slotted;
use crate::finding::slots_of;
use crate::laws::what_is_carried_is_enough;
use crate::marks::marks_of;
use crate::owners::owners_of;
use crate::relations::{layers_of, set_of};
use ground_instances::FlatGround;
use rules::RuleSet;
use rules_relations::Relation;
use std::alloc::{AllocError, Global};

/// For each alternative whether it heads an own relation.
fn own_marks<'a>(
    alloc: Global,
    rules: &'a RuleSet,
    own: &[Relation<'a>],
) -> Result<Vec<bool>, AllocError>
    ensures { IfOk result (λ marks. MarkTops (rules_in rules.now) (λ p. is_among p (map relation_in own.now)) marks.items) }
{
    let set = set_of(alloc, own)?;
    let marks = marks_of(alloc, rules, &set)?;
    Ok(marks)
}

/// For each alternative whether it heads a relation of the first so many layers; nothing, if one of these has not as many names as there are
/// own relations.
fn layer_marks<'a>(
    alloc: Global,
    rules: &'a RuleSet,
    own: &[Relation<'a>],
    names: &'a [Vec<Vec<u8>>],
    many: usize,
) -> Result<Option<Vec<bool>>, AllocError>
    requires { many ≤ length names.now }
    ensures { IfOk result (λ found. IfSome found (λ marks. MarkLayers (rules_in rules.now) (λ p. is_among p (map relation_in own.now))
        (word_in (map relation_in own.now) (names_of names.now)) many marks.items)) }
{
    let Some(set) = layers_of(alloc, own, names, many)? else {
        return Ok(None);
    };
    let marks = marks_of(alloc, rules, &set)?;
    Ok(Some(marks))
}

/// Which alternatives head own relations, and which of them head one of a layer, of the first, and of one before the last.
#[derive(Drop)]
struct Marks {
    tops: Vec<bool>,
    layers: Vec<bool>,
    firsts: Vec<bool>,
    befores: Vec<bool>,
}

/// Whether the kept instances of alternatives that are marked for layers have slots below a bound, which are found first, and the heads of those
/// that are marked for a layer before the last are carried on.
fn has_stack(
    alloc: Global,
    rules: &RuleSet,
    ground: &FlatGround,
    marks: &Marks,
    bound: usize,
) -> Result<bool, AllocError>
    ensures { IfOk result (λ is_so. OnTrue is_so (HasStack (rules_in rules.now) marks.now.tops.items marks.now.layers.items
        marks.now.firsts.items marks.now.befores.items (instances_of ground.now) bound)) }
{
    let owners = owners_of(alloc, ground, &marks.tops)?;
    let slots = slots_of(alloc, ground, &marks.layers, &owners)?;
    if !are_slotted(ground, &marks.layers, &owners, &slots, bound) {
        return Ok(false);
    }
    are_carried(alloc, rules, ground, &marks.firsts, &marks.befores, &owners)
}

/// Whether paths through different atoms of own relations are shorter than there are layers, where the own relations are written in layers of
/// these names that keep those before. `true` says so; `false` says nothing. It fails only for want of memory.
pub fn is_enough<'a>(
    alloc: Global,
    rules: &'a RuleSet,
    ground: &FlatGround,
    own: &[Relation<'a>],
    names: &[Vec<Vec<u8>>],
) -> Result<bool, AllocError>
    requires { IsGround (rules_in rules.now) ground.now }
    ensures { IfOk result (λ is_so. OnTrue is_so ((found : List Alternative) (m : ℕ) → length names.now ≡ suc m
        → IsStacked found (rules_in rules.now) (λ p. is_among p (map relation_in own.now)) (word_in (map relation_in own.now) (names_of names.now)) (suc m)
        → IsEnough (rules_in rules.now) (λ p. is_among p (map relation_in own.now)) (word_in (map relation_in own.now) (names_of names.now)) m)) }
{
    what_is_carried_is_enough();
    let many = names.len();
    if many == 0 {
        return Ok(false);
    }
    let tops = own_marks(alloc, rules, own)?;
    let Some(layers) = layer_marks(alloc, rules, own, names, many)? else {
        return Ok(false);
    };
    let Some(firsts) = layer_marks(alloc, rules, own, names, 1)? else {
        return Ok(false);
    };
    let Some(befores) = layer_marks(alloc, rules, own, names, many - 1)? else {
        return Ok(false);
    };
    if !all_ask(alloc, rules, ground, &tops, own)? {
        return Ok(false);
    }
    let marks = Marks {
        tops,
        layers,
        firsts,
        befores,
    };
    has_stack(alloc, rules, ground, &marks, many)
}

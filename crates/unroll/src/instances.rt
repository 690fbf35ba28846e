//! What the kept instances of what is written show: that nothing is dropped, and that layers say what is derived.
ghost use Rattle.std.specs.Prelude.{◌≡◌, false, map, IfOk};
ghost use Rattle.std.specs.Bool.{OnTrue};
ghost use Rattle.statement.specs.GoalsAndMoves.{dropped};
ghost use Rattle.statement.specs.Items.{alternatives};
ghost use Rattle.kif.specs.View.{trees_in};
ghost use Rattle.rules_relations.specs.Relations.{relation_in};
ghost use Rattle.statement.specs.Profile.{HasNoFault};
ghost use Rattle.unroll_strata.specs.Adding.{HasItsRanges};
ghost use Rattle.unroll.specs.Answers.{AddsAnswered, AreAnswered};
ghost use Rattle.rules.specs.RuleSetView.{rules_in};
ghost use Rattle.ground_instances.specs.GroundView.{IsGround, dropped_of};

use ground::{GroundFault, instantiate_flat_alone};
use ground_instances::FlatGround;
use kif::Expr;
use meaning::{
    accepted_items_are_well_formed, what_is_answered_apart_is_answered_together,
    what_is_layered_is_answered, what_is_stacked_is_answered,
};
use rules::RuleSet;
use rules_relations::{Relation, head_of};
use statement::{RuleFault, Width};
use std::alloc::{AllocError, AllocGlobal, Global};
use unroll_layers::{is_bounded, is_enough, is_layered, is_stacked};
use unroll_strata::{items_by_reading, states_ranges};
use unroll_writer::Layers;

/// Relations that are written as layers, and their names there.
#[derive(Drop)]
pub(crate) struct Circle<'a> {
    relations: Vec<Relation<'a>>,
    layers: &'a Layers,
}

/// The relations that the items at places head.
fn heads_at<'a>(
    alloc: Global,
    items: &'a [Expr<Global>],
    places: &[usize],
) -> Result<Vec<Relation<'a>>, AllocError> {
    let mut heads = Vec::new(alloc);
    for place in places {
        if let Some(item) = items.get(*place) {
            heads.push(head_of(item))?;
        }
    }
    Ok(heads)
}

/// The relations that are written as layers, by the items that head them. No clause says which they are: who takes them tests what is written.
pub(crate) fn circles_of<'a>(
    alloc: Global,
    items: &'a [Expr<Global>],
    layers: &'a [Layers],
) -> Result<Vec<Circle<'a>>, AllocError> {
    let mut circles = Vec::new(alloc);
    for one in layers {
        circles.push(Circle {
            relations: heads_at(alloc, items, &one.items)?,
            layers: one,
        })?;
    }
    Ok(circles)
}

/// What is written, as rules and as their kept instances.
#[derive(Clone, Copy)]
struct Instantiated<'a> {
    items: &'a [Expr<Global>],
    rules: &'a RuleSet,
    ground: &'a FlatGround,
}

/// Whether what is written of relations as layers of these names is shown to be what is derived of them, where each of their rules asks one of
/// their atoms at most.
fn are_layers_shown(
    alloc: Global,
    items: &[Expr<Global>],
    written: Instantiated,
    own: &[Relation],
    names: &[Vec<Vec<u8>>],
) -> Result<bool, AllocError>
    requires same { rules_in written.rules.now ≡ alternatives (trees_in written.items.now) }
    requires faultless { HasNoFault (trees_in written.items.now) }
    requires ground { IsGround (rules_in written.rules.now) written.ground.now }
    ensures { IfOk result (λ is_so. OnTrue is_so (AreAnswered (trees_in items.now) (trees_in written.entry.items.now)
        (map relation_in own.now))) }
{
    accepted_items_are_well_formed();
    what_is_layered_is_answered();
    if !is_layered(alloc, items, written.items, own, names)? {
        return Ok(false);
    }
    is_bounded(alloc, written.rules, written.ground, own, names)
}

/// Whether what is written of relations as layers of these names, each of which keeps the ones before, is shown to be what is derived of them.
fn are_stacks_shown(
    alloc: Global,
    items: &[Expr<Global>],
    written: Instantiated,
    own: &[Relation],
    names: &[Vec<Vec<u8>>],
) -> Result<bool, AllocError>
    requires same { rules_in written.rules.now ≡ alternatives (trees_in written.items.now) }
    requires faultless { HasNoFault (trees_in written.items.now) }
    requires ground { IsGround (rules_in written.rules.now) written.ground.now }
    ensures { IfOk result (λ is_so. OnTrue is_so (AreAnswered (trees_in items.now) (trees_in written.entry.items.now)
        (map relation_in own.now))) }
{
    accepted_items_are_well_formed();
    what_is_stacked_is_answered();
    if !is_stacked(alloc, items, written.items, own, names)? {
        return Ok(false);
    }
    is_enough(alloc, written.rules, written.ground, own, names)
}

/// Whether what is written of relations as layers is shown to be what is derived of them. Layers have an item for each reading of a body.
fn is_one_shown(
    alloc: Global,
    items: &[Expr<Global>],
    written: Instantiated,
    own: &[Relation],
    layers: &Layers,
) -> Result<bool, AllocError>
    requires same { rules_in written.rules.now ≡ alternatives (trees_in written.items.now) }
    requires faultless { HasNoFault (trees_in written.items.now) }
    requires ground { IsGround (rules_in written.rules.now) written.ground.now }
    ensures { IfOk result (λ is_so. OnTrue is_so (AreAnswered (trees_in items.now) (trees_in written.entry.items.now)
        (map relation_in own.now))) }
{
    let parted = items_by_reading(alloc, items, own)?;
    if layers.is_linear {
        return are_layers_shown(alloc, &parted, written, own, &layers.names);
    }
    are_stacks_shown(alloc, &parted, written, own, &layers.names)
}

/// Adds relations that are written as layers to the own ones, if what is written of them is shown to be what is derived of them.
fn add_shown<'a>(
    alloc: Global,
    items: &[Expr<Global>],
    written: Instantiated,
    circle: &Circle<'a>,
    own: &mut Vec<Relation<'a>>,
) -> Result<bool, AllocError>
    requires same { rules_in written.rules.now ≡ alternatives (trees_in written.items.now) }
    requires faultless { HasNoFault (trees_in written.items.now) }
    requires ground { IsGround (rules_in written.rules.now) written.ground.now }
    ensures { IfOk result (λ is_so. OnTrue is_so (AddsAnswered (trees_in items.now) (trees_in written.entry.items.now)
        (map relation_in own.old.items) (map relation_in own.new.items))) }
{
    if !is_one_shown(alloc, items, written, &circle.relations, circle.layers)? {
        return Ok(false);
    }
    own.extend_from_slice(&circle.relations)?;
    what_is_answered_apart_is_answered_together();
    Ok(true)
}

/// Adds all relations that are written as layers to the own ones, if what is written of them is shown to be what is derived of them.
fn are_all_shown<'a>(
    alloc: Global,
    items: &[Expr<Global>],
    written: Instantiated,
    circles: &[Circle<'a>],
    own: &mut Vec<Relation<'a>>,
) -> Result<bool, AllocError>
    requires same { rules_in written.rules.now ≡ alternatives (trees_in written.items.now) }
    requires faultless { HasNoFault (trees_in written.items.now) }
    requires ground { IsGround (rules_in written.rules.now) written.ground.now }
    ensures { IfOk result (λ is_so. OnTrue is_so (AddsAnswered (trees_in items.now) (trees_in written.entry.items.now)
        (map relation_in own.old.items) (map relation_in own.new.items))) }
{
    for circle in circles {
        if !add_shown(alloc, items, written, circle, own)? {
            return Ok(false);
        }
    }
    Ok(true)
}

/// Whether the ranges of play are stated, or nothing is dropped.
fn has_ranges(is_ranged: bool, ground: &FlatGround) -> bool
    ensures { OnTrue result (is_ranged ≡ false → dropped_of ground.now ≡ 0) }
{
    is_ranged || ground.dropped() == 0
}

/// Whether the kept instances of rules show the rest of what is written, where it is known whether the ranges of play are stated. It is false
/// as well where they pass a limit.
fn look_at_rules<'a, T: AllocGlobal>(
    rt: &T,
    items: &[Expr<Global>],
    written: &[Expr<Global>],
    rules: &RuleSet,
    is_ranged: bool,
    circles: &[Circle<'a>],
    own: &mut Vec<Relation<'a>>,
) -> Result<bool, AllocError>
    requires same { rules_in rules.now ≡ alternatives (trees_in written.now) }
    requires faultless { HasNoFault (trees_in written.now) }
    ensures ranges { IfOk result (λ is_so. OnTrue is_so (is_ranged ≡ false → dropped (alternatives (trees_in written.now)) ≡ 0)) }
    ensures layers { IfOk result (λ is_so. OnTrue is_so (AddsAnswered (trees_in items.now) (trees_in written.now)
        (map relation_in own.old.items) (map relation_in own.new.items))) }
{
    let ground = match instantiate_flat_alone(rt, rules, Width::Wide) {
        Ok(ground) => ground,
        Err(GroundFault::NoMemory) => return Err(AllocError),
        Err(_) => return Ok(false),
    };
    if !has_ranges(is_ranged, &ground) {
        return Ok(false);
    }
    let instantiated = Instantiated {
        items: written,
        rules,
        ground: &ground,
    };
    are_all_shown(rt.alloc(), items, instantiated, circles, own)
}

/// Whether the kept instances of what is written show the rest: that nothing is dropped, unless the items state `base` and `input`, and that
/// what is written as layers is what is derived of it. The relations of layers are then added to the own ones. It is false as well where the
/// instances pass a limit.
pub(crate) fn look_at_instances<'a, T: AllocGlobal>(
    rt: &T,
    items: &[Expr<Global>],
    written: &[Expr<Global>],
    circles: &[Circle<'a>],
    own: &mut Vec<Relation<'a>>,
) -> Result<bool, AllocError>
    ensures ranges { IfOk result (λ is_so. OnTrue is_so (HasItsRanges (trees_in items.now) (trees_in written.now))) }
    ensures layers { IfOk result (λ is_so. OnTrue is_so (AddsAnswered (trees_in items.now) (trees_in written.now)
        (map relation_in own.old.items) (map relation_in own.new.items))) }
{
    let is_ranged = states_ranges(items);
    if is_ranged && circles.is_empty() {
        return Ok(true);
    }
    let rules = match RuleSet::check(rt.alloc(), written) {
        Ok(rules) => rules,
        Err(RuleFault::NoMemory) => return Err(AllocError),
        Err(_) => return Ok(false),
    };
    look_at_rules(rt, items, written, &rules, is_ranged, circles, own)
}

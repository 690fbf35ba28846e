//! Whether each own relation has an instance that asks one atom.
ghost use Rattle.std.specs.Prelude.{ℕ, ◌≡◌, ◌<◌, true, map, length, IfOk, OnOk};
ghost use Rattle.std.specs.Bool.{OnTrue};
ghost use Rattle.statement.specs.Clause as said;
ghost use Rattle.statement.specs.Dependence.{is_among};
ghost use Rattle.rules_relations.specs.Relations.{relation_in};
ghost use Rattle.rules.specs.RuleSetView.{rules_in};
ghost use Rattle.ground_instances.specs.GroundView.{instances_of};
ghost use Rattle.unroll_layers.specs.ByNumber.{IsPartOf};
ghost use Rattle.unroll_layers.specs.Owners.{AllAsk};

use crate::marks::head_at;
use crate::owners::asked_by;
use ground_instances::FlatGround;
use rules::RuleSet;
use rules_relations::{Relation, RelationSet};
use std::alloc::{AllocError, Global};

/// Adds the relation that the alternative of a kept instance heads, if the alternative is marked and the instance asks one atom and no more.
fn add_asking<'a>(
    rules: &'a RuleSet,
    ground: &FlatGround,
    tops: &[bool],
    place: usize,
    set: &mut RelationSet<'a>,
) -> Result<(), AllocError>
    requires place { place < length (instances_of ground.now) }
    requires ask { AllAsk (rules_in rules.now) (instances_of ground.now) set.old }
    ensures { OnOk result (AllAsk (rules_in rules.now) (instances_of ground.now) set.new) }
{
    let alternative = ground.alternative(place) as usize;
    if alternative >= rules.alternatives().len() || asked_by(ground, tops, place).is_none() {
        return Ok(());
    }
    set.insert(head_at(rules, alternative))?;
    Ok(())
}

/// The relations of which a kept instance of a marked alternative asks one atom and no more.
fn asking_in<'a>(
    alloc: Global,
    rules: &'a RuleSet,
    ground: &FlatGround,
    tops: &[bool],
) -> Result<RelationSet<'a>, AllocError>
    ensures { IfOk result (λ set. AllAsk (rules_in rules.now) (instances_of ground.now) set) }
{
    let mut set = RelationSet::new(alloc);
    for place in 0..ground.many_kept() {
        add_asking(rules, ground, tops, place, &mut set)?;
    }
    Ok(set)
}

/// Whether all relations are in a set.
fn are_all_in<'a>(relations: &[Relation<'a>], set: &RelationSet<'a>) -> bool
    ensures { OnTrue result (IsPartOf (map relation_in relations.now) set.now) }
{
    for relation in relations {
        if !set.contains(*relation) {
            return false;
        }
    }
    true
}

/// Whether each of these relations has a kept instance of a marked alternative that asks one atom and no more.
pub(crate) fn all_ask<'a>(
    alloc: Global,
    rules: &'a RuleSet,
    ground: &FlatGround,
    tops: &[bool],
    relations: &[Relation<'a>],
) -> Result<bool, AllocError>
    ensures { IfOk result (λ is_so. OnTrue is_so (AllAsk (rules_in rules.now) (instances_of ground.now) (map relation_in relations.now))) }
{
    let set = asking_in(alloc, rules, ground, tops)?;
    Ok(are_all_in(relations, &set))
}

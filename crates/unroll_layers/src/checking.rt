//! The check that slots are such that the nodes of a way have different ones.
ghost use Rattle.std.specs.Prelude.{◌≡◌, ◌<◌, All, length, get_or, slice_index};
ghost use Rattle.std.specs.Bool.{OnTrue};
ghost use Rattle.statement.specs.Kept.{Kept};
ghost use Rattle.ground_instances.specs.GroundView.{instances_of};
ghost use Rattle.unroll_layers.specs.Slotted.{slot_at, IsPlaced, AreTogether, LeadsOn};
ghost use Rattle.unroll_layers.specs.Owners.{AreSlotted, IsSlotted, LeadsFrom};

use crate::owners::{is_marked, owner_at};
use crate::slot::{Slot, Slots};
use ground_instances::{AtomLiteral, FlatGround};

/// The slot of a node; one that is below no ceiling, if there is no such node.
fn slot_of(slots: &[Slot], node: u32) -> Slot
    ensures { result ≡ slot_at slots.now node }
{
    match slots.get(node as usize) {
        Some(slot) => *slot,
        None => Slot {
            place: 0,
            first: 0,
            floor: 0,
            ceiling: 0,
        },
    }
}

/// Whether a node stands at a place.
fn stands_at(members: &[usize], place: usize, node: u32) -> bool
    ensures { OnTrue result (slice_index members.now place ≡ node) }
{
    match members.get(place) {
        Some(member) => *member == node as usize,
        None => false,
    }
}

/// Whether a node stands at a place of its own, and its slot is below its ceiling, and that below a bound.
fn is_placed(slots: &Slots, node: u32, bound: usize) -> bool
    ensures { OnTrue result (IsPlaced slots.now.slots.items slots.now.members.items bound node) }
{
    let slot = slot_of(&slots.slots, node);
    if slot.first > slot.place || slot.floor > slot.ceiling || slot.ceiling >= bound {
        return false;
    }
    if slot.place - slot.first >= slot.ceiling - slot.floor {
        return false;
    }
    stands_at(&slots.members, slot.place, node)
}

/// Whether two slots are of one group.
fn are_together(one: Slot, other: Slot) -> bool
    ensures { OnTrue result (AreTogether one other) }
{
    one.first == other.first && one.floor == other.floor && one.ceiling == other.ceiling
}

/// Whether two nodes are of one group, or the second has its floor where the first has its ceiling, or above.
fn leads_on(slots: &Slots, from: u32, to: u32) -> bool
    ensures { OnTrue result (LeadsOn slots.now.slots.items from to) }
{
    let one = slot_of(&slots.slots, from);
    let other = slot_of(&slots.slots, to);
    one.ceiling <= other.floor || are_together(one, other)
}

/// Whether the owner of what a literal asks leads on to a node.
fn leads_from(owners: &[Option<u32>], slots: &Slots, node: u32, literal: AtomLiteral) -> bool
    ensures { OnTrue result (LeadsFrom owners.now slots.now.slots.items node literal) }
{
    if literal.is_negated() {
        return true;
    }
    match owner_at(owners, literal.atom()) {
        Some(owner) => leads_on(slots, owner, node),
        None => true,
    }
}

/// Whether the owners of all that literals ask lead on to a node.
fn all_lead_from(owners: &[Option<u32>], slots: &Slots, node: u32, body: &[AtomLiteral]) -> bool
    ensures { OnTrue result (All (LeadsFrom owners.now slots.now.slots.items node) body.now) }
{
    for literal in body {
        if !leads_from(owners, slots, node, *literal) {
            return false;
        }
    }
    true
}

/// Whether the owners of all that a kept instance asks lead on to that of its head.
fn is_slotted(
    ground: &FlatGround,
    place: usize,
    owners: &[Option<u32>],
    slots: &Slots,
    bound: usize,
) -> bool
    requires { place < length (instances_of ground.now) }
    ensures { OnTrue result ((d : Kept)
        → IsSlotted owners.now slots.now.slots.items slots.now.members.items bound (get_or (instances_of ground.now) place d)) }
{
    let Some(node) = owner_at(owners, ground.head(place)) else {
        return false;
    };
    is_placed(slots, node, bound) && all_lead_from(owners, slots, node, ground.body(place))
}

/// Whether all kept instances of marked alternatives have slots that fit, below a bound.
pub(crate) fn are_slotted(
    ground: &FlatGround,
    layers: &[bool],
    owners: &[Option<u32>],
    slots: &Slots,
    bound: usize,
) -> bool
    ensures { OnTrue result (AreSlotted layers.now (instances_of ground.now) owners.now slots.now.slots.items slots.now.members.items bound) }
{
    for place in 0..ground.many_kept() {
        if is_marked(layers, ground.alternative(place))
            && !is_slotted(ground, place, owners, slots, bound)
        {
            return false;
        }
    }
    true
}

//! The own atoms that rest on atoms of layers.
ghost use Rattle.std.specs.Prelude.{◌≡◌, ◌<◌, ◌∷◌, [], false, length, get_or, slice_index_or, IfOk, IfSome};
ghost use Rattle.statement.specs.Kept.{Kept};
ghost use Rattle.ground_instances.specs.GroundView.{instances_of};
ghost use Rattle.unroll_layers.specs.Owners.{AreOwners, AsksOnly, IsOf, owner_of};

use ground_instances::{AtomLiteral, FlatGround};
use std::alloc::{AllocError, Global};

/// Whether an alternative or an atom is marked, by its number.
pub(crate) fn is_marked(marks: &[bool], number: u32) -> bool
    ensures { result ≡ slice_index_or marks.now number false }
{
    match marks.get(number as usize) {
        Some(mark) => *mark,
        None => false,
    }
}

/// The one atom that literals ask, if they are one literal that is not negated.
pub(crate) fn only_asked(body: &[AtomLiteral]) -> Option<u32>
    ensures { IfSome result (λ atom. body.now ≡ (atom, false) ∷ []) }
{
    if body.len() != 1 {
        return None;
    }
    let literal = body[0];
    if literal.is_negated() {
        return None;
    }
    Some(literal.atom())
}

/// The one atom that a kept instance asks, if its alternative is marked and it asks one and no more.
pub(crate) fn asked_by(ground: &FlatGround, marks: &[bool], place: usize) -> Option<u32>
    requires { place < length (instances_of ground.now) }
    ensures asks { IfSome result (λ atom. (d : Kept) → AsksOnly (get_or (instances_of ground.now) place d) atom) }
    ensures marked { IfSome result (λ _. (d : Kept) → IsOf marks.now (get_or (instances_of ground.now) place d)) }
{
    if !is_marked(marks, ground.alternative(place)) {
        return None;
    }
    only_asked(ground.body(place))
}

/// Notes that the head of a kept instance rests on the atom that it asks, if its alternative is marked and it asks one and no more.
fn add_owner(ground: &FlatGround, tops: &[bool], place: usize, owners: &mut Vec<Option<u32>>)
    requires place { place < length (instances_of ground.now) }
    requires owners { AreOwners tops.now (instances_of ground.now) owners.old.items }
    ensures { AreOwners tops.now (instances_of ground.now) owners.new.items }
{
    let Some(atom) = asked_by(ground, tops, place) else {
        return;
    };
    if atom as usize >= owners.len() {
        return;
    }
    owners[atom as usize] = Some(ground.head(place));
}

/// For each atom an own atom that rests on it, if there is one.
pub(crate) fn owners_of(
    alloc: Global,
    ground: &FlatGround,
    tops: &[bool],
) -> Result<Vec<Option<u32>>, AllocError>
    ensures { IfOk result (λ owners. AreOwners tops.now (instances_of ground.now) owners.items) }
{
    let mut owners = vec![in alloc; None; ground.atoms()]?;
    for place in 0..ground.many_kept() {
        add_owner(ground, tops, place, &mut owners);
    }
    Ok(owners)
}

/// The own atom that rests on an atom, if there is one.
pub(crate) fn owner_at(owners: &[Option<u32>], atom: u32) -> Option<u32>
    ensures { result ≡ owner_of owners.now atom }
{
    match owners.get(atom as usize) {
        Some(owner) => *owner,
        None => None,
    }
}

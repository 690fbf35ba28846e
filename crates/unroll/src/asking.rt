//! What instances say of base propositions.
ghost use Rattle.std.specs.Prelude.{◌≡◌, ◌<◌, length, get_or, IfSome};
ghost use Rattle.statement.specs.Kept.{Kept};
ghost use Rattle.statement.specs.declared.kind.Kind.TheVariants.{Next};
ghost use Rattle.ground_instances.specs.GroundView.{instances_of, kinds_of};
ghost use Rattle.unroll.specs.ReachedByNumber.{kind_in};
ghost use Rattle.unroll.specs.Marks.{Asks};

use ground_instances::{AtomLiteral, FlatGround};
use meaning::Kind;

/// The base proposition that a literal asks, if it is not negated and asks one.
pub(crate) fn asked(ground: &FlatGround, literal: AtomLiteral) -> Option<u32>
    ensures { IfSome result (λ proposition. Asks (kinds_of ground.now) literal proposition) }
{
    let atom = literal.atom();
    if literal.is_negated() || atom as usize >= ground.atoms() {
        return None;
    }
    match ground.atom_kind(atom) {
        Kind::Now(proposition) => Some(proposition),
        _ => None,
    }
}

/// The base proposition that an instance brings into the next state, if it brings one.
pub(crate) fn brought(ground: &FlatGround, place: usize) -> Option<u32>
    requires { place < length (instances_of ground.now) }
    ensures { IfSome result (λ proposition. (d : Kept)
        → kind_in (kinds_of ground.now) (get_or (instances_of ground.now) place d).head ≡ Next proposition) }
{
    let atom = ground.head(place);
    if atom as usize >= ground.atoms() {
        return None;
    }
    match ground.atom_kind(atom) {
        Kind::Next(proposition) => Some(proposition),
        _ => None,
    }
}

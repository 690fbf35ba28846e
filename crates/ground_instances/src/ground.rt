//! What an instantiation gives.
ghost use Rattle.std.specs.Prelude.{◌≡◌, map};
ghost use Rattle.ground_instances.specs.Grounds.{shown_kept};
ghost use Rattle.ground_instances.specs.Lists.{numbers_of_list};

use crate::flat_ground::FlatGround;

/// A kept instance.
#[derive(Drop)]
pub struct Instance {
    /// The place of its alternative, from 0.
    pub alternative: u32,
    /// The number of its head's atom.
    pub head: u32,
    /// What must be right, in the order of the body: an atom's number, and whether it is negated. Literals that are right
    /// wherever the instance is used are left out: `distinct`, those of fixed relations, and negated atoms that have no number.
    pub body: Vec<(u32, bool)>,
}

/// The kept instances of a description, each by itself, with all that its flat lists tell.
#[derive(Drop)]
pub struct Ground {
    pub flat: FlatGround,
    pub kept: Vec<Instance>,
    pub ghost same: { map shown_kept kept.items ≡ numbers_of_list flat.kept },
}

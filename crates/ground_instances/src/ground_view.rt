//! The instances of a ground, one by one.
ghost use Rattle.std.specs.Prelude.{◌≡◌};
ghost use Rattle.ground_instances.specs.GroundView.{flat_of, kept_in};

use crate::flat_ground::FlatGround;
use crate::ground::{Ground, Instance};
use std::ops::Deref;

impl Ground {
    /// The kept instances, in order.
    pub fn kept(&self) -> &[Instance]
        ensures { result.now ≡ kept_in self.now }
    {
        &self.kept
    }

    /// The same in flat lists.
    pub fn flat(&self) -> &FlatGround
        ensures { result.now ≡ flat_of self.now }
    {
        &self.flat
    }

    /// The same in flat lists alone.
    pub fn into_flat(self) -> FlatGround
        ensures { result ≡ flat_of self }
    {
        self.flat
    }
}

impl Deref for Ground {
    type Target = FlatGround;

    ghost deref_gives = { λ ground flat. flat ≡ flat_of ground };

    fn deref(&self) -> &FlatGround {
        &self.flat
    }
}

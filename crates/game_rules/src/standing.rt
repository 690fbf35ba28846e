//! Atoms that are listed for play.

use crate::naming::Naming;
use ground_instances::Kind;

/// An atom, with where it stands in play.
#[derive(Clone, Copy)]
pub struct Standing {
    pub atom: u32,
    pub kind: Kind,
}

/// Which atoms are listed.
#[derive(Clone, Copy)]
pub enum Sought {
    /// Those that the state or the joint move makes right: `true` and `does`.
    Given,
    /// Those that name a number.
    Named(Naming),
    /// The goals of this role.
    Goals(usize),
    /// Those that end the game.
    Ends,
}

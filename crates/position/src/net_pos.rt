//! A state of a game over a network, with what is told of it.

use crate::net_many::{NetMany, NetTurn};
use game_rules::RoleState;

/// A state, and what is told of it.
#[derive(Drop)]
pub struct LaneState {
    /// Word p: whether base proposition p holds, the same in all bits.
    pub(crate) lanes: Vec<u64>,
    pub(crate) roles: Vec<RoleState>,
    pub(crate) ended: bool,
}

/// A state, with room of its own for what leads to it.
#[derive(Drop)]
pub struct NetPos {
    pub(crate) state: LaneState,
    /// Room for the passes that lead to the state, to be written over.
    pub(crate) turn: NetTurn,
    /// Room for what they tell, to be written over.
    pub(crate) many: NetMany,
}

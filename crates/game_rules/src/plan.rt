//! What is kept of an instantiation to play it fast.

use crate::standing::Standing;

/// The atoms that tell of a role, in order.
#[derive(Drop)]
pub struct RolePlan {
    pub(crate) legals: Vec<Standing>,
    pub(crate) goals: Vec<Standing>,
}

/// The atoms that are asked for in play, in order.
#[derive(Drop)]
pub struct RulePlan {
    pub(crate) given: Vec<Standing>,
    pub(crate) nexts: Vec<Standing>,
    pub(crate) ends: Vec<Standing>,
    pub(crate) roles: Vec<RolePlan>,
}

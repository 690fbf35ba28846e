//! What is told of a role in a state.
ghost use Rattle.std.specs.Prelude.{◌≡◌, ◌<◌, ◌≤◌, ℕ, length, take, get_or, slice_get, vec_capacity, IfOk};
ghost use Rattle.ground_instances.specs.GroundView.{inputs_of};
ghost use Rattle.game_rules.specs.declared.role_state.RoleState.{RoleState};
ghost use Rattle.game_rules.specs.RuleState.{HasRoleRoom, HaveRoom, IsCopied, role_capacities, all_capacities};

use ground_instances::FlatGround;
use std::alloc::{AllocError, Global};

/// What is told of a role in a state.
#[derive(Drop)]
pub struct RoleState {
    /// Begins with the legal moves, ascending.
    pub moves: Vec<u32>,
    /// How many moves are legal.
    pub count: usize,
    pub goal: u8,
}

/// Writes what is told of a role in another state.
fn copy_role(from: &RoleState, to: &mut RoleState)
    requires { length from.now.moves.items ≡ length to.old.moves.items }
    ensures copied { IsCopied from.now to.new }
    ensures capacities { role_capacities to.new ≡ role_capacities to.old }
{
    to.moves.copy_from_slice(&from.moves);
    to.count = from.count;
    to.goal = from.goal;
}

/// Writes what is told of each role in another state.
pub fn copy_roles(from: &[RoleState], to: &mut Vec<RoleState>)
    requires size { length from.now ≡ length to.old.items }
    requires room { (r : ℕ) (d : RoleState) → r < length from.now
        → length (get_or from.now r d).moves.items ≡ length (get_or to.old.items r d).moves.items }
    ensures copied { (r : ℕ) (d : RoleState) → r < length from.now → IsCopied (get_or from.now r d) (get_or to.new.items r d) }
    ensures size { length to.new.items ≡ length to.old.items }
    ensures capacities { all_capacities to.new.items ≡ all_capacities to.old.items }
    ensures capacity { vec_capacity to.new ≡ vec_capacity to.old }
{
    for role in 0..from.len() {
        copy_role(&from[role], &mut to[role]);
    }
}

/// Room for what is told of a role with this many moves.
fn new_role(alloc: Global, moves: usize) -> Result<RoleState, AllocError>
    ensures { IfOk result (λ role. HasRoleRoom moves role) }
{
    Ok(RoleState {
        moves: vec![in alloc; 0; moves]?,
        count: 0,
        goal: 0,
    })
}

/// Room for what is told of each role.
pub fn new_roles(alloc: Global, ground: &FlatGround) -> Result<Vec<RoleState>, AllocError>
    ensures { IfOk result (λ roles. HaveRoom (inputs_of ground.now) roles.items) }
{
    let mut roles = Vec::new(alloc);
    for role in 0..ground.roles() {
        roles.push(new_role(alloc, ground.inputs(role))?)?;
    }
    Ok(roles)
}

/// The legal move of a role at a place of their list, or none past its end.
pub fn legal_at(role: &RoleState, place: usize) -> Option<u32>
    requires { role.now.count ≤ length role.now.moves.items }
    ensures { result ≡ slice_get (take role.now.count role.now.moves.items) place }
{
    if place < role.count {
        return Some(role.moves[place]);
    }
    None
}

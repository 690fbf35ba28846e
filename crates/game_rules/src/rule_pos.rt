//! A state of a game of rules, with what is told of it.
ghost use Rattle.std.specs.Prelude.{◌≡◌, ◌<◌, ℕ, false, length, get_or, slice_index_or, vec_capacity, IfOk};
ghost use Rattle.ground_instances.specs.Grounds.{texts_at};
ghost use Rattle.ground_instances.specs.GroundView.{inputs_of, kinds_of};
ghost use Rattle.game_rules.specs.Marks.{AreMarks};
ghost use Rattle.game_rules.specs.RulePlay.{marked};
ghost use Rattle.game_rules.specs.declared.role_state.RoleState.{RoleState};
ghost use Rattle.game_rules.specs.RuleState.{IsRoleRead, AreRead, role_capacities, rules_of};
ghost use Rattle.game_rules.specs.declared.rule_pos.MoveMarks.{MoveMarks};
ghost use Rattle.game_rules.specs.RuleRoom.{
  HasMarkedRoom,
  HaveMarkedRoom,
  HasMarkRoom,
  IsStateOf,
  mark_capacities,
  marked_capacities,
  capacities,
};

use crate::evaluation::{evaluate, put_mark};
use crate::naming::Naming;
use crate::reading::{best_goal, has_ended, list_marked, mark_named};
use crate::role_state::{RoleState, new_roles};
use crate::rule_game::RuleGame;
use ground_instances::FlatGround;
use std::alloc::{AllocError, Global};

/// A mark for each move of a role, to be written over.
#[derive(Drop)]
pub struct MoveMarks {
    pub(crate) marks: Vec<bool>,
}

/// A state, and what is told of it.
#[derive(Drop)]
pub struct RulePos {
    /// A mark for each base proposition: whether it holds.
    pub(crate) base: Vec<bool>,
    /// A mark for each atom, to be written over.
    pub(crate) right: Vec<bool>,
    /// Marks for each role.
    pub(crate) marks: Vec<MoveMarks>,
    pub(crate) roles: Vec<RoleState>,
    pub(crate) ended: bool,
}

/// Writes what the atoms that hold tell of a role.
fn read_role(
    game: &RuleGame,
    right: &Vec<bool>,
    role: usize,
    marks: &mut MoveMarks,
    out: &mut RoleState,
)
    requires role { role < length (inputs_of game.now.played) }
    requires right { length right.now.items ≡ length (kinds_of game.now.played) }
    requires room { HasMarkedRoom (length (texts_at (inputs_of game.now.played) role)) marks.old out.old }
    ensures read { IsRoleRead (kinds_of game.now.played) (λ a. slice_index_or right.now.items a false) role
        (length (texts_at (inputs_of game.now.played) role)) out.new }
    ensures room { HasMarkedRoom (length (texts_at (inputs_of game.now.played) role)) marks.new out.new }
    ensures mark_capacities { mark_capacities marks.new ≡ mark_capacities marks.old }
    ensures capacities { role_capacities out.new ≡ role_capacities out.old }
{
    let plan = &game.plan.roles[role];
    mark_named(&plan.legals, right, Naming::ByLegal(role), &mut marks.marks);
    out.count = list_marked(&marks.marks, &mut out.moves);
    out.goal = best_goal(&plan.goals, right, role);
}

/// Writes what the atoms that hold tell of each role.
fn read_roles(
    game: &RuleGame,
    right: &Vec<bool>,
    marks: &mut Vec<MoveMarks>,
    roles: &mut Vec<RoleState>,
)
    requires right { length right.now.items ≡ length (kinds_of game.now.played) }
    requires room { HaveMarkedRoom (inputs_of game.now.played) marks.old.items roles.old.items }
    ensures read { AreRead (kinds_of game.now.played) (λ a. slice_index_or right.now.items a false) (inputs_of game.now.played) roles.new.items }
    ensures room { HaveMarkedRoom (inputs_of game.now.played) marks.new.items roles.new.items }
    ensures capacities { marked_capacities marks.new roles.new ≡ marked_capacities marks.old roles.old }
{
    for role in 0..roles.len() {
        read_role(game, right, role, &mut marks[role], &mut roles[role]);
    }
}

/// Writes what is told of the state that is marked.
pub(crate) fn read_state(game: &RuleGame, p: &mut RulePos)
    requires { HasMarkRoom game.now.played p.old }
    ensures state { IsStateOf game.now.played p.new }
    ensures same { p.new.base.items ≡ p.old.base.items }
    ensures capacities { capacities p.new ≡ capacities p.old }
{
    evaluate(game, &p.base, &[], &mut p.right);
    p.ended = has_ended(&game.plan.ends, &p.right);
    read_roles(game, &p.right, &mut p.marks, &mut p.roles);
}

/// Marks the base propositions that hold after a joint move, in the state after the one whose base propositions are marked.
pub(crate) fn mark_next(
    game: &RuleGame,
    base: &[bool],
    joint: &[u32],
    right: &mut Vec<bool>,
    next: &mut Vec<bool>,
)
    requires right { length right.old.items ≡ length (kinds_of game.now.played) }
    requires next { length next.old.items ≡ length game.now.played.starts.items }
    ensures after { marked next.new.items ≡ (rules_of game.now.played).after (marked base.now) joint.now }
    ensures right { length right.new.items ≡ length right.old.items }
    ensures next { length next.new.items ≡ length next.old.items }
    ensures right_capacity { vec_capacity right.new ≡ vec_capacity right.old }
    ensures next_capacity { vec_capacity next.new ≡ vec_capacity next.old }
{
    evaluate(game, base, joint, right);
    mark_named(&game.plan.nexts, right, Naming::ByNext, next);
}

/// Writes the state after another and a joint move. The other's marks are read, and this one's are written.
pub(crate) fn step_state(game: &RuleGame, p: &RulePos, joint: &[u32], q: &mut RulePos)
    requires { HasMarkRoom game.now.played q.old }
    ensures state { IsStateOf game.now.played q.new }
    ensures after { marked q.new.base.items ≡ (rules_of game.now.played).after (marked p.now.base.items) joint.now }
    ensures capacities { capacities q.new ≡ capacities q.old }
{
    mark_next(game, &p.base, joint, &mut q.right, &mut q.base);
    read_state(game, q);
}

/// Marks for the moves of a role.
fn new_move_marks(alloc: Global, moves: usize) -> Result<MoveMarks, AllocError>
    ensures { IfOk result (λ role. length role.marks.items ≡ moves) }
{
    Ok(MoveMarks {
        marks: vec![in alloc; false; moves]?,
    })
}

/// Marks for the moves of each role.
fn new_marks(alloc: Global, ground: &FlatGround) -> Result<Vec<MoveMarks>, AllocError>
    ensures size { IfOk result (λ marks. length marks.items ≡ length (inputs_of ground.now)) }
    ensures each { IfOk result (λ marks. (r : ℕ) (d : MoveMarks) → r < length (inputs_of ground.now)
        → length (get_or marks.items r d).marks.items ≡ length (texts_at (inputs_of ground.now) r)) }
{
    let mut marks = Vec::new(alloc);
    for role in 0..ground.roles() {
        marks.push(new_move_marks(alloc, ground.inputs(role))?)?;
    }
    Ok(marks)
}

/// Marks the base propositions that hold at the start.
fn mark_start(ground: &FlatGround, base: &mut Vec<bool>)
    requires { length base.old.items ≡ length ground.now.starts.items }
    ensures marks { AreMarks base.new.items (length ground.now.starts.items) (λ p. slice_index_or ground.now.starts.items p false) }
{
    for proposition in 0..base.len() {
        put_mark(base, proposition, ground.starts(proposition));
    }
}

/// The start state.
pub(crate) fn start_state(game: &RuleGame) -> Result<RulePos, AllocError>
    ensures state { IfOk result (λ p. IsStateOf game.now.played p) }
    ensures start { IfOk result (λ p. marked p.base.items ≡ marked game.now.played.starts.items) }
{
    let alloc = game.alloc;
    let ground = &game.played;
    let mut base = vec![in alloc; false; ground.base()]?;
    mark_start(ground, &mut base);
    let mut p = RulePos {
        base,
        right: vec![in alloc; false; ground.atoms()]?,
        marks: new_marks(alloc, ground)?,
        roles: new_roles(alloc, ground)?,
        ended: false,
    };
    read_state(game, &mut p);
    Ok(p)
}

//! Up to 64 states of a game of rules.
ghost use Rattle.std.specs.Prelude.{◌≡◌, ◌<◌, ◌≤◌, ℕ, length, get_or, vec_capacity, IfOk};
ghost use Rattle.ground_instances.specs.GroundView.{kinds_of};
ghost use Rattle.game.specs.Joints.{joint_at};
ghost use Rattle.game_rules.specs.declared.rule_many.RuleBase.{RuleBase};
ghost use Rattle.game_rules.specs.RulePlay.{marked};
ghost use Rattle.game_rules.specs.RuleState.{rules_of};
ghost use Rattle.game_rules.specs.RuleMany.{HaveBaseRoom, all_base_capacities};

use crate::rule_game::RuleGame;
use crate::rule_pos::{RulePos, mark_next};
use game::Joint;
use std::alloc::AllocError;

/// Working room.
#[derive(Drop)]
pub struct RuleWide {
    /// A mark for each atom, to be written over.
    pub(crate) right: Vec<bool>,
}

/// A state, of which nothing else is told.
#[derive(Drop)]
pub struct RuleBase {
    /// A mark for each base proposition: whether it holds.
    pub(crate) marks: Vec<bool>,
}

/// Up to 64 states.
#[derive(Drop)]
pub struct RuleMany {
    pub(crate) states: Vec<RuleBase>,
    /// How many of them are told of.
    pub(crate) count: usize,
}

/// Room for a state.
fn new_base(game: &RuleGame) -> Result<RuleBase, AllocError>
    ensures { IfOk result (λ state. length state.marks.items ≡ length game.now.played.starts.items) }
{
    Ok(RuleBase {
        marks: vec![in game.alloc; false; game.played.base()]?,
    })
}

/// Room for 64 states.
pub(crate) fn new_bases(game: &RuleGame) -> Result<Vec<RuleBase>, AllocError>
    ensures { IfOk result (λ states. HaveBaseRoom game.now.played states.items) }
{
    let mut states = Vec::new(game.alloc);
    for _i in 0..64usize {
        states.push(new_base(game)?)?;
    }
    Ok(states)
}

/// Writes the state after another and a joint move.
fn step_base(game: &RuleGame, p: &RulePos, joint: &[u32], right: &mut Vec<bool>, out: &mut RuleBase)
    requires right { length right.old.items ≡ length (kinds_of game.now.played) }
    requires room { length out.old.marks.items ≡ length game.now.played.starts.items }
    ensures after { marked out.new.marks.items ≡ (rules_of game.now.played).after (marked p.now.base.items) joint.now }
    ensures right { length right.new.items ≡ length right.old.items }
    ensures room { length out.new.marks.items ≡ length out.old.marks.items }
    ensures right_capacity { vec_capacity right.new ≡ vec_capacity right.old }
    ensures capacity { vec_capacity out.new.marks ≡ vec_capacity out.old.marks }
{
    mark_next(game, &p.base, joint, right, &mut out.marks);
}

/// Writes the state after another and each of the joint moves.
pub(crate) fn step_each(
    game: &RuleGame,
    p: &RulePos,
    joints: &[Joint],
    right: &mut Vec<bool>,
    states: &mut Vec<RuleBase>,
)
    requires few { length joints.now ≤ 64 }
    requires right { length right.old.items ≡ length (kinds_of game.now.played) }
    requires room { HaveBaseRoom game.now.played states.old.items }
    ensures right { length right.new.items ≡ length right.old.items }
    ensures room { HaveBaseRoom game.now.played states.new.items }
    ensures after { (k : ℕ) (d : RuleBase) → k < length joints.now
        → marked (get_or states.new.items k d).marks.items ≡ (rules_of game.now.played).after (marked p.now.base.items) (joint_at joints.now k) }
    ensures right_capacity { vec_capacity right.new ≡ vec_capacity right.old }
    ensures capacities { all_base_capacities states.new ≡ all_base_capacities states.old }
{
    for k in 0..joints.len() {
        step_base(game, p, &joints[k], right, &mut states[k]);
    }
}

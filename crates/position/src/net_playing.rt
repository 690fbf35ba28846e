//! Play over a network.
ghost use Rattle.std.specs.Prelude.{◌≡◌, ◌<◌, length, false, IfOk};
ghost use Rattle.statement.specs.Rules.{IsTurn};
ghost use Rattle.game_rules.specs.RulePlay.{marked};
ghost use Rattle.game_rules.specs.RuleState.{rules_of};
ghost use Rattle.position.specs.NetState.{lane_state, kept_state};
ghost use Rattle.position.specs.NetLanes.{HasStateRoom, HasNetRoom, IsNetState, net_capacities};

use crate::net_game::NetGame;
use crate::net_lanes::{net_steps, new_net_many, probe_lanes, unwritten_many, unwritten_turn};
use crate::net_pos::{LaneState, NetPos};
use crate::net_taking::take_state;
use game::Joint;
use game_rules::new_roles;
use ground_instances::FlatGround;
use std::alloc::AllocError;
use std::slice::from_ref;

/// Writes the start state into the first lane.
fn write_start(ground: &FlatGround, states: &mut [u64])
    requires { length states.old ≡ length ground.now.starts.items }
    ensures { lane_state states.new (length ground.now.starts.items) 0 ≡ marked ground.now.starts.items }
{
    for p in 0..states.len() {
        states[p] = u64::from(ground.starts(p));
    }
}

/// Takes the first of the states that the state's own room keeps.
fn take_first(game: &NetGame, q: &mut NetPos)
    requires room { HasNetRoom game.now.played game.now.net game.now.lane_plan q.old }
    requires some { 0 < q.old.many.count }
    ensures state { IsNetState game.now.played game.now.net game.now.lane_plan q.new }
    ensures taken { kept_state game.now.played q.new ≡ lane_state q.old.many.states.items (length game.now.played.starts.items) 0 }
    ensures capacities { net_capacities q.new ≡ net_capacities q.old }
{
    take_state(game, &q.many, 0, &mut q.state);
}

/// Writes the state after another and a joint move.
pub(crate) fn step_net_state(game: &NetGame, p: &NetPos, joint: &Joint, q: &mut NetPos)
    requires from { IsNetState game.now.played game.now.net game.now.lane_plan p.now }
    requires joint { IsTurn (rules_of game.now.played) joint.now.items }
    requires to { HasNetRoom game.now.played game.now.net game.now.lane_plan q.old }
    ensures state { IsNetState game.now.played game.now.net game.now.lane_plan q.new }
    ensures after { kept_state game.now.played q.new ≡ (rules_of game.now.played).after (kept_state game.now.played p.now) joint.now.items }
    ensures capacities { net_capacities q.new ≡ net_capacities q.old }
{
    let probe = &game.lane_plan.probe;
    net_steps(game, probe, p, from_ref(joint), &mut q.turn, &mut q.many);
    take_first(game, q);
}

/// Room for a state.
fn new_state(game: &NetGame) -> Result<LaneState, AllocError>
    ensures { IfOk result (HasStateRoom game.now.played) }
{
    Ok(LaneState {
        lanes: vec![in game.alloc; 0u64; game.played.base()]?,
        roles: new_roles(game.alloc, &game.played)?,
        ended: false,
    })
}

/// The start state. It is told in a room that is given back, so that its own is not written yet.
pub(crate) fn start_net_state(game: &NetGame) -> Result<NetPos, AllocError>
    ensures state { IfOk result (IsNetState game.now.played game.now.net game.now.lane_plan) }
    ensures start { IfOk result (λ p. kept_state game.now.played p ≡ marked game.now.played.starts.items) }
{
    let probe = &game.lane_plan.probe;
    let mut first = new_net_many(game, probe)?;
    write_start(&game.played, &mut first.states);
    probe_lanes(game, probe, 1, &mut first);
    let mut state = new_state(game)?;
    take_state(game, &first, 0, &mut state);
    drop(first);
    Ok(NetPos {
        state,
        turn: unwritten_turn(game)?,
        many: unwritten_many(game, probe)?,
    })
}

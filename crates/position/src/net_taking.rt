//! One state out of up to 64.
ghost use Rattle.std.specs.Prelude.{◌≡◌, ◌<◌, ◌≤◌, [], None, length, get_or, vec_capacity};
ghost use Rattle.ground_instances.specs.Grounds.{texts_at};
ghost use Rattle.ground_instances.specs.GroundView.{inputs_of, kinds_of};
ghost use Rattle.propnet.specs.Values.{lane};
ghost use Rattle.game_rules.specs.RuleState.{HasRoleRoom, IsRoleRead, HaveRoom, AreRead, role_capacities, all_capacities, rules_of};
ghost use Rattle.position.specs.NetState.{lane_state, state_in, kept_state, AreSpread};
ghost use Rattle.position.specs.LanePlans.{IsProbeOf};
ghost use Rattle.position.specs.NetLanes.{holds_lane, lane_states, state_capacities, IsNetMany, HasStateRoom, IsLaneState, HasNetRoom, HasWideRoom, IsNetState, net_capacities};
ghost use Rattle.game_rules.specs.RulePlay.{best_goal};
ghost use Rattle.game.specs.Told.{IsTold, end_worth};

use crate::lane_plan::Probe;
use crate::net_game::NetGame;
use crate::net_many::{NetMany, NetWide};
use crate::net_pos::{LaneState, NetPos};
use crate::net_words::{all_alike, lane_bit};
use crate::readers::{read_goal, read_moves};
use game::Told;
use game_rules::RoleState;

/// Writes the state of one lane to all lanes.
fn take_lane(states: &[u64], k: usize, lanes: &mut [u64])
    requires lane { k < 64 }
    requires room { length lanes.old ≡ length states.now }
    ensures spread { AreSpread lanes.new }
    ensures told { lane_state lanes.new (length states.now) 0 ≡ lane_state states.now (length states.now) k }
{
    for p in 0..lanes.len() {
        lanes[p] = all_alike(lane_bit(states[p], k));
    }
}

/// The goal value of a role in one of many states.
fn goal_in(game: &NetGame, probe: &Probe, many: &NetMany, k: usize, role: usize) -> u8
    requires probe { IsProbeOf game.now.played game.now.net probe.now }
    requires many { IsNetMany game.now.played probe.now many.now }
    requires lane { k < many.now.count }
    requires role { role < length (inputs_of game.now.played) }
    ensures { result ≡ best_goal (kinds_of game.now.played) (holds_lane game.now.played many.now.states.items k) role }
{
    let goals = &probe.goals[role].goals;
    read_goal(&probe.tape, &many.room, k, goals)
}

/// The goal value of a role in one of many states, if the game has ended there.
fn end_in(game: &NetGame, probe: &Probe, many: &NetMany, k: usize, role: usize) -> Option<u8>
    requires probe { IsProbeOf game.now.played game.now.net probe.now }
    requires many { IsNetMany game.now.played probe.now many.now }
    requires lane { k < length (lane_states game.now.played many.now) }
    requires role { role < length (inputs_of game.now.played) }
    ensures { result ≡ end_worth (rules_of game.now.played) (get_or (lane_states game.now.played many.now) k []) role }
{
    if lane_bit(many.ended, k) == 1 {
        return Some(goal_in(game, probe, many, k, role));
    }
    None
}

/// Writes what is told of a role in one of many states.
fn take_role(game: &NetGame, many: &NetMany, k: usize, role: usize, out: &mut RoleState)
    requires role { role < length (inputs_of game.now.played) }
    requires many { IsNetMany game.now.played game.now.lane_plan.probe many.now }
    requires lane { k < many.now.count }
    requires room { HasRoleRoom (length (texts_at (inputs_of game.now.played) role)) out.old }
    ensures read { IsRoleRead (kinds_of game.now.played) (holds_lane game.now.played many.now.states.items k) role
        (length (texts_at (inputs_of game.now.played) role)) out.new }
    ensures room { HasRoleRoom (length (texts_at (inputs_of game.now.played) role)) out.new }
    ensures capacities { role_capacities out.new ≡ role_capacities out.old }
{
    let plan = &game.lane_plan;
    let legals = &plan.legals[role].legals;
    out.count = read_moves(&plan.probe.tape, &many.room, k, legals, &mut out.moves);
    out.goal = goal_in(game, &plan.probe, many, k, role);
}

/// Writes what is told of each role in one of many states.
fn take_roles(game: &NetGame, many: &NetMany, k: usize, roles: &mut Vec<RoleState>)
    requires many { IsNetMany game.now.played game.now.lane_plan.probe many.now }
    requires lane { k < many.now.count }
    requires room { HaveRoom (inputs_of game.now.played) roles.old.items }
    ensures read { AreRead (kinds_of game.now.played) (holds_lane game.now.played many.now.states.items k) (inputs_of game.now.played)
        roles.new.items }
    ensures room { HaveRoom (inputs_of game.now.played) roles.new.items }
    ensures capacities { all_capacities roles.new.items ≡ all_capacities roles.old.items }
    ensures capacity { vec_capacity roles.new ≡ vec_capacity roles.old }
{
    for role in 0..roles.len() {
        take_role(game, many, k, role, &mut roles[role]);
    }
}

/// Writes one of many states, and what is told of it.
pub(crate) fn take_state(game: &NetGame, many: &NetMany, k: usize, out: &mut LaneState)
    requires many { IsNetMany game.now.played game.now.lane_plan.probe many.now }
    requires lane { k < length (lane_states game.now.played many.now) }
    requires room { HasStateRoom game.now.played out.old }
    ensures state { IsLaneState game.now.played out.new }
    ensures taken { state_in game.now.played out.new ≡ get_or (lane_states game.now.played many.now) k [] }
    ensures capacities { state_capacities out.new ≡ state_capacities out.old }
{
    take_lane(&many.states, k, &mut out.lanes);
    take_roles(game, many, k, &mut out.roles);
    out.ended = lane_bit(many.ended, k) == 1;
}

/// Writes one of many states, and what is told of it, into the room of another.
pub(crate) fn net_take(game: &NetGame, many: &NetMany, k: usize, q: &mut NetPos)
    requires many { IsNetMany game.now.played game.now.lane_plan.probe many.now }
    requires lane { k < length (lane_states game.now.played many.now) }
    requires to { HasNetRoom game.now.played game.now.net game.now.lane_plan q.old }
    ensures state { IsNetState game.now.played game.now.net game.now.lane_plan q.new }
    ensures taken { kept_state game.now.played q.new ≡ get_or (lane_states game.now.played many.now) k [] }
    ensures capacities { net_capacities q.new ≡ net_capacities q.old }
{
    take_state(game, many, k, &mut q.state);
}

/// What is told of one of many states.
pub(crate) fn net_told(game: &NetGame, many: &NetMany, k: usize, role: usize) -> Told
    requires many { IsNetMany game.now.played game.now.lane_plan.probe many.now }
    requires lane { k < length (lane_states game.now.played many.now) }
    requires role { role < length (inputs_of game.now.played) }
    ensures { IsTold (rules_of game.now.played) (get_or (lane_states game.now.played many.now) k []) role result }
{
    match end_in(game, &game.lane_plan.probe, many, k, role) {
        Some(goal) => Told::Ended(goal),
        None => Told::Open,
    }
}

/// The goal value of a role in one of the states that were judged, if the game has ended there. None where fewer were judged.
pub(crate) fn net_verdict(game: &NetGame, w: &NetWide, k: usize, role: usize) -> Option<u8>
    requires wide { HasWideRoom game.now.played game.now.net game.now.lane_plan w.now }
    requires role { role < length (inputs_of game.now.played) }
    ensures told { k < length (lane_states game.now.played w.now.judged)
        → result ≡ end_worth (rules_of game.now.played) (get_or (lane_states game.now.played w.now.judged) k []) role }
    ensures beyond { length (lane_states game.now.played w.now.judged) ≤ k → result ≡ None }
{
    if k >= w.judged.count {
        return None;
    }
    match &game.lane_plan.end_probe {
        Some(end_probe) => end_in(game, end_probe, &w.judged, k, role),
        None => None,
    }
}

//! The states after up to 64 joint moves at a time, and what is told of them.
ghost use Rattle.std.specs.Prelude.{◌≡◌, ◌<◌, ◌≤◌, All, true, length, map, vec_capacity, IfOk};
ghost use Rattle.statement.specs.Rules.{IsTurn};
ghost use Rattle.propnet_tape.specs.Tapes.{slots_in};
ghost use Rattle.game_rules.specs.RuleState.{rules_of};
ghost use Rattle.position.specs.NetState.{kept_state, AreSpread};
ghost use Rattle.position.specs.LanePlans.{IsProbeOf};
ghost use Rattle.position.specs.NetLanes.{lane_states, AreTurns, AreAfter, IsNetMany, IsNetState, IsJudged, HasTurnRoom, HasWideRoom, IsTurnRewritten, IsManyRewritten, many_capacities, wide_capacities};

use crate::lane_plan::Probe;
use crate::net_game::NetGame;
use crate::net_many::{NetMany, NetTurn, NetWide};
use crate::net_passes::{run, run_kept, write_sources};
use crate::net_pos::NetPos;
use crate::readers::holding_at;
use game::Joint;
use std::alloc::AllocError;

/// Writes the states after another, whose words have one bit in all lanes, and each of the joint moves.
fn step_lanes(
    game: &NetGame,
    from: &[u64],
    joints: &[Joint],
    turn: &mut NetTurn,
    states: &mut [u64],
)
    requires from { length from.now ≡ length game.now.played.starts.items }
    requires spread { AreSpread from.now }
    requires turns { AreTurns game.now.played joints.now }
    requires turn { HasTurnRoom game.now.net game.now.lane_plan turn.old }
    requires to { length states.old ≡ length game.now.played.starts.items }
    ensures turn { IsTurnRewritten game.now.net game.now.lane_plan turn.old turn.new }
    ensures after { AreAfter game.now.played from.now joints.now states.new }
{
    write_sources(&game.net, from, joints, &mut turn.words);
    run_kept(&game.lane_plan.next, &turn.words, &mut turn.next, states);
}

/// Probes so many states that the words keep.
pub(crate) fn probe_lanes(game: &NetGame, probe: &Probe, count: usize, out: &mut NetMany)
    requires probe { IsProbeOf game.now.played game.now.net probe.now }
    requires few { count ≤ 64 }
    requires states { length out.old.states.items ≡ length game.now.played.starts.items }
    requires room { slots_in probe.now.tape ≤ vec_capacity out.old.room }
    ensures many { IsNetMany game.now.played probe.now out.new }
    ensures count { out.new.count ≡ count }
    ensures states { out.new.states.items ≡ out.old.states.items }
    ensures many_capacities { many_capacities out.new ≡ many_capacities out.old }
{
    run(&probe.tape, &out.states, &mut out.room);
    out.ended = holding_at(&probe.tape, &out.room, &probe.ends);
    out.count = count;
}

/// Room for the passes that lead to states.
pub(crate) fn new_net_turn(game: &NetGame) -> Result<NetTurn, AllocError>
    ensures { IfOk result (HasTurnRoom game.now.net game.now.lane_plan) }
{
    let alloc = game.alloc;
    Ok(NetTurn {
        words: vec![in alloc; 0u64; game.net.sources()]?,
        next: vec![in alloc; 0u64; game.lane_plan.next.words()]?,
    })
}

/// The same, which is not written before it is used.
pub(crate) fn unwritten_turn(game: &NetGame) -> Result<NetTurn, AllocError>
    ensures { IfOk result (HasTurnRoom game.now.net game.now.lane_plan) }
{
    let alloc = game.alloc;
    Ok(NetTurn {
        words: vec![in alloc; 0u64; game.net.sources()]?,
        next: Vec::with_capacity(alloc, game.lane_plan.next.words())?,
    })
}

/// Room for states, with none in it, over room for what a tape writes for them.
fn many_over(game: &NetGame, probe: &Probe, room: Vec<u64>) -> Result<NetMany, AllocError>
    requires { slots_in probe.now.tape ≤ vec_capacity room }
    ensures { IfOk result (IsNetMany game.now.played probe.now) }
{
    let alloc = game.alloc;
    Ok(NetMany {
        states: vec![in alloc; 0u64; game.played.base()]?,
        room,
        ended: 0,
        count: 0,
    })
}

/// Room for states, with none in it.
pub(crate) fn new_net_many(game: &NetGame, probe: &Probe) -> Result<NetMany, AllocError>
    ensures { IfOk result (IsNetMany game.now.played probe.now) }
{
    let room = vec![in game.alloc; 0u64; probe.tape.words()]?;
    many_over(game, probe, room)
}

/// The same, which is not written before it is used.
pub(crate) fn unwritten_many(game: &NetGame, probe: &Probe) -> Result<NetMany, AllocError>
    ensures { IfOk result (IsNetMany game.now.played probe.now) }
{
    let room = Vec::with_capacity(game.alloc, probe.tape.words())?;
    many_over(game, probe, room)
}

/// Room for the states that are judged, where some are.
fn new_judged(game: &NetGame) -> Result<NetMany, AllocError>
    ensures { IfOk result (IsJudged game.now.played game.now.lane_plan.end_probe) }
{
    match &game.lane_plan.end_probe {
        Some(end_probe) => new_net_many(game, end_probe),
        None => Ok(NetMany {
            states: Vec::new(game.alloc),
            room: Vec::new(game.alloc),
            ended: 0,
            count: 0,
        }),
    }
}

/// Working room.
pub(crate) fn new_net_wide(game: &NetGame) -> Result<NetWide, AllocError>
    ensures { IfOk result (HasWideRoom game.now.played game.now.net game.now.lane_plan) }
{
    let turn = new_net_turn(game)?;
    let judged = new_judged(game)?;
    Ok(NetWide { turn, judged })
}

/// Writes the states after another and each of up to 64 joint moves, and probes them.
pub(crate) fn net_steps(
    game: &NetGame,
    probe: &Probe,
    p: &NetPos,
    joints: &[Joint],
    turn: &mut NetTurn,
    out: &mut NetMany,
)
    requires probe { IsProbeOf game.now.played game.now.net probe.now }
    requires from { IsNetState game.now.played game.now.net game.now.lane_plan p.now }
    requires turns { AreTurns game.now.played joints.now }
    requires turn { HasTurnRoom game.now.net game.now.lane_plan turn.old }
    requires to { IsNetMany game.now.played probe.now out.old }
    ensures turn { IsTurnRewritten game.now.net game.now.lane_plan turn.old turn.new }
    ensures many { IsManyRewritten game.now.played probe.now out.old out.new }
    ensures after { lane_states game.now.played out.new ≡ map (λ j. (rules_of game.now.played).after (kept_state game.now.played p.now) j.items)
        joints.now }
{
    step_lanes(game, &p.state.lanes, joints, turn, &mut out.states);
    probe_lanes(game, probe, joints.len(), out);
}

/// Plays each of up to 64 joint moves for the end of the game alone, where there is a tape for it.
pub(crate) fn net_judge(game: &NetGame, p: &NetPos, joints: &[Joint], w: &mut NetWide) -> bool
    requires from { IsNetState game.now.played game.now.net game.now.lane_plan p.now }
    requires few { length joints.now ≤ 64 }
    requires joints { All (λ j. IsTurn (rules_of game.now.played) j.items) joints.now }
    requires wide { HasWideRoom game.now.played game.now.net game.now.lane_plan w.old }
    ensures wide { HasWideRoom game.now.played game.now.net game.now.lane_plan w.new }
    ensures after { result ≡ true → lane_states game.now.played w.new.judged
        ≡ map (λ j. (rules_of game.now.played).after (kept_state game.now.played p.now) j.items) joints.now }
    ensures capacities { wide_capacities w.new ≡ wide_capacities w.old }
{
    match &game.lane_plan.end_probe {
        Some(end_probe) => {
            net_steps(game, end_probe, p, joints, &mut w.turn, &mut w.judged);
            true
        }
        None => false,
    }
}

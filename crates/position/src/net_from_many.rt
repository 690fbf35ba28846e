//! The states after up to 64 joint moves that each begin at one of many states.
ghost use Rattle.std.specs.Prelude.{◌≡◌, true, length, map};
ghost use Rattle.game.specs.TurnsAfter.{turns_after};
ghost use Rattle.game_rules.specs.RuleState.{rules_of};
ghost use Rattle.position.specs.NetLanes.{lane_states, IsNetMany, HasTurnRoom, HasWideRoom, IsTurnRewritten, wide_capacities};
ghost use Rattle.position.specs.NetSources.{AreFrom, ArePlaced};

use crate::net_game::NetGame;
use crate::net_lanes::probe_lanes;
use crate::net_many::{NetMany, NetTurn, NetWide};
use crate::net_passes::run_kept;
use crate::net_sources::write_from;
use game::Joint;

/// Writes the states after joint moves that each begin at one of many states.
fn step_from(
    game: &NetGame,
    many: &NetMany,
    places: &[usize],
    joints: &[Joint],
    turn: &mut NetTurn,
    states: &mut [u64],
)
    requires many { IsNetMany game.now.played game.now.lane_plan.probe many.now }
    requires placed { ArePlaced game.now.played (lane_states game.now.played many.now) places.now joints.now }
    requires turn { HasTurnRoom game.now.net game.now.lane_plan turn.old }
    requires to { length states.old ≡ length game.now.played.starts.items }
    ensures turn { IsTurnRewritten game.now.net game.now.lane_plan turn.old turn.new }
    ensures after { AreFrom game.now.played (lane_states game.now.played many.now) places.now joints.now states.new }
{
    write_from(&game.net, &many.states, places, joints, &mut turn.words);
    run_kept(&game.lane_plan.next, &turn.words, &mut turn.next, states);
}

/// Plays up to 64 joint moves that each begin at one of many states for the end of the game alone, where there is a tape for it.
pub(crate) fn net_judge_from(
    game: &NetGame,
    many: &NetMany,
    places: &[usize],
    joints: &[Joint],
    w: &mut NetWide,
) -> bool
    requires many { IsNetMany game.now.played game.now.lane_plan.probe many.now }
    requires placed { ArePlaced game.now.played (lane_states game.now.played many.now) places.now joints.now }
    requires wide { HasWideRoom game.now.played game.now.net game.now.lane_plan w.old }
    ensures wide { HasWideRoom game.now.played game.now.net game.now.lane_plan w.new }
    ensures after { result ≡ true → lane_states game.now.played w.new.judged
        ≡ turns_after (rules_of game.now.played) (lane_states game.now.played many.now) places.now (map (λ j. j.items) joints.now) }
    ensures capacities { wide_capacities w.new ≡ wide_capacities w.old }
{
    match &game.lane_plan.end_probe {
        Some(end_probe) => {
            step_from(
                game,
                many,
                places,
                joints,
                &mut w.turn,
                &mut w.judged.states,
            );
            probe_lanes(game, end_probe, joints.len(), &mut w.judged);
            true
        }
        None => false,
    }
}

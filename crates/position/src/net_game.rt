//! The game of a network.
ghost use Rattle.std.specs.Prelude.{◌≡◌, IfOk, length};
ghost use Rattle.ground_instances.specs.GroundView.{flat_of};
ghost use Rattle.propnet.specs.Builders.{IsNetOf};
ghost use Rattle.position.specs.LanePlans.{IsLanePlanOf};

use crate::lane_plan::LanePlan;
use crate::lane_planning::make_lane_plan;
use crate::net_from_many::net_judge_from;
use crate::net_keys::write_lane_key;
use crate::net_lanes::{net_judge, net_steps, new_net_many, new_net_wide};
use crate::net_many::{NetMany, NetWide};
use crate::net_playing::{start_net_state, step_net_state};
use crate::net_pos::NetPos;
use crate::net_taking::{net_take, net_told, net_verdict};
use game::{Game, Joint, Told, words_for};
use game_rules::{GroundGame, copy_roles, legal_at};
use ground_instances::{FlatGround, Ground};
use propnet::Net;
use std::alloc::{AllocError, Global};

/// The game that an instantiation describes, played over its network.
#[derive(Drop)]
pub struct NetGame {
    pub(crate) alloc: Global,
    pub(crate) played: FlatGround,
    pub(crate) net: Net,
    pub(crate) lane_plan: LanePlan,
    pub ghost compiled: { ∥ IsNetOf played net ∥₁ },
    pub ghost laned: { IsLanePlanOf played net lane_plan },
}

impl NetGame {
    /// The game of an instantiation and of the network that was compiled from it.
    pub fn new(alloc: Global, ground: Ground, net: Net) -> Result<NetGame, AllocError>
        requires { IsNetOf (flat_of ground) net }
        ensures { IfOk result (λ game. game.played ≡ flat_of ground) }
    {
        NetGame::of_flat(alloc, ground.into_flat(), net)
    }

    /// The same of an instantiation in flat lists.
    pub fn of_flat(alloc: Global, ground: FlatGround, net: Net) -> Result<NetGame, AllocError>
        requires { IsNetOf ground net }
        ensures { IfOk result (λ game. game.played ≡ ground) }
    {
        let lane_plan = make_lane_plan(alloc, &ground, &net)?;
        Ok(NetGame {
            alloc,
            played: ground,
            net,
            lane_plan,
        })
    }
}

impl Game for NetGame {
    ghost use Rattle.ground_instances.specs.Grounds.{text_at, texts_at};
    ghost use Rattle.ground_instances.specs.GroundView.{roles_of, inputs_of};
    ghost use Rattle.game_rules.specs.RuleState.{rules_of};
    ghost use Rattle.position.specs.NetState.{kept_state};
    ghost use Rattle.position.specs.NetLanes.{
      HasWideRoom,
      IsNetMany,
      IsNetState,
      net_capacities,
      lane_states,
      wide_capacities as capacities_wide,
      many_capacities as capacities_many,
    };
    ghost use Rattle.game.specs.Keys.{words_for as words_for_bits, state_of_bits};
    ghost use Rattle.game_rules.specs.RuleLaws.{goal_at_most, few_moves_of, legal_below, legal_in_order, moves_in_order, roles_once};

    type Pos = NetPos;

    type Wide = NetWide;

    type Many = NetMany;

    ghost rules = { λ g. rules_of g.played };

    ghost role_name = { λ g r. text_at (roles_of g.played) r };

    ghost move_name = { λ g r m. text_at (texts_at (inputs_of g.played) r) m };

    ghost fits = { λ g p. IsNetState g.played g.net g.lane_plan p };

    ghost state = { λ g p. kept_state g.played p };

    ghost capacities = { λ _ p. net_capacities p };

    ghost fits_wide = { λ g w. HasWideRoom g.played g.net g.lane_plan w };

    ghost judged = { λ g w. lane_states g.played w.judged };

    ghost fits_many = { λ g m. IsNetMany g.played g.lane_plan.probe m };

    ghost states = { λ g m. lane_states g.played m };

    ghost wide_capacities = { λ _ w. capacities_wide w };

    ghost many_capacities = { λ _ m. capacities_many m };

    ghost key_length = { λ g. words_for_bits (length g.played.starts.items) };

    ghost keyed = { λ g key. state_of_bits (length g.played.starts.items) key };

    fn roles(&self) -> usize {
        self.played.roles()
    }

    fn role_text(&self, role: usize) -> &[u8] {
        self.played.role_text(role)
    }

    fn moves(&self, role: usize) -> usize {
        self.played.inputs(role)
    }

    fn move_text(&self, role: usize, number: u32) -> &[u8] {
        self.played.input_text(role, number)
    }

    fn fresh(&self) -> Result<NetPos, AllocError> {
        start_net_state(self)
    }

    fn ended(&self, p: &NetPos) -> bool {
        p.state.ended
    }

    fn goal(&self, p: &NetPos, role: usize) -> u8 {
        p.state.roles[role].goal
    }

    fn legal(&self, p: &NetPos, role: usize, place: usize) -> Option<u32> {
        legal_at(&p.state.roles[role], place)
    }

    fn step(&self, p: &NetPos, joint: &Joint, q: &mut NetPos) {
        step_net_state(self, p, joint, q);
    }

    fn copy(&self, p: &NetPos, q: &mut NetPos) {
        q.state.lanes.copy_from_slice(&p.state.lanes);
        q.state.ended = p.state.ended;
        copy_roles(&p.state.roles, &mut q.state.roles);
    }

    fn new_wide(&self) -> Result<NetWide, AllocError> {
        new_net_wide(self)
    }

    fn new_many(&self) -> Result<NetMany, AllocError> {
        new_net_many(self, &self.lane_plan.probe)
    }

    fn steps(&self, p: &NetPos, joints: &[Joint], w: &mut NetWide, out: &mut NetMany) {
        net_steps(self, &self.lane_plan.probe, p, joints, &mut w.turn, out);
    }

    /// As many as there may be: a pass over a tape costs the same for one as for all.
    fn abreast(&self) -> usize {
        64
    }

    fn take(&self, many: &NetMany, place: usize, q: &mut NetPos) {
        net_take(self, many, place, q);
    }

    fn told(&self, many: &NetMany, place: usize, role: usize) -> Told {
        net_told(self, many, place, role)
    }

    fn judge(&self, p: &NetPos, joints: &[Joint], w: &mut NetWide) -> bool {
        net_judge(self, p, joints, w)
    }

    fn judge_from(
        &self,
        many: &NetMany,
        places: &[usize],
        joints: &[Joint],
        w: &mut NetWide,
    ) -> bool {
        net_judge_from(self, many, places, joints, w)
    }

    fn verdict(&self, w: &NetWide, place: usize, role: usize) -> Option<u8> {
        net_verdict(self, w, place, role)
    }

    fn key_words(&self) -> usize {
        words_for(self.played.base())
    }

    fn write_key(&self, p: &NetPos, key: &mut [u64]) {
        write_lane_key(&p.state.lanes, 0, key);
    }

    fn write_key_of(&self, many: &NetMany, place: usize, key: &mut [u64]) {
        write_lane_key(&many.states, place, key);
    }

    ghost goal_within = { λ g s r. goal_at_most g.played s r };

    ghost moves_within = { λ g r _. few_moves_of g.played r };

    ghost legal_within = { λ g s r _. legal_below g.played s r };

    ghost legal_ascending = { λ g s r _. legal_in_order g.played s r };

    ghost moves_in_printed_order = { λ g r m n inside less below. moves_in_order g.played r m n inside less below };

    ghost role_names_differ = { λ g q r less below. roles_once g.played q r less below };
}

impl GroundGame for NetGame {
    ghost use Rattle.std.specs.Prelude.{refl};

    ghost source = { λ g. g.played };

    fn over(alloc: Global, ground: FlatGround) -> Result<NetGame, AllocError> {
        let Ok(net) = Net::of_flat(alloc, &ground) else {
            return Err(AllocError);
        };
        let game = NetGame::of_flat(alloc, ground, net)?;
        Ok(game)
    }

    fn instantiation(&self) -> &FlatGround {
        &self.played
    }

    ghost keyed_by_bits = { λ _ _. refl };
}

//! The game of an instantiation.
ghost use Rattle.std.specs.Prelude.{◌≡◌, IfOk, [], length};
ghost use Rattle.ground_instances.specs.GroundView.{flat_of};
ghost use Rattle.game_rules.specs.Plans.{IsPlanOf};

use crate::ground_game::GroundGame;
use crate::plan::RulePlan;
use crate::planning::make_plan;
use crate::role_state::{copy_roles, legal_at};
use crate::rule_keys::write_marks_key;
use crate::rule_many::{RuleMany, RuleWide, new_bases, step_each};
use crate::rule_pos::{RulePos, read_state, start_state, step_state};
use game::{Game, Joint, Told, words_for};
use ground_instances::{FlatGround, Ground};
use std::alloc::{AllocError, Global};

/// The game that an instantiation describes, played over its kept instances.
#[derive(Drop)]
pub struct RuleGame {
    pub(crate) alloc: Global,
    pub(crate) played: FlatGround,
    pub(crate) plan: RulePlan,
    pub ghost planned: { IsPlanOf played plan },
}

impl RuleGame {
    /// The game of the instantiation.
    pub fn new(alloc: Global, ground: Ground) -> Result<RuleGame, AllocError>
        ensures { IfOk result (λ game. game.played ≡ flat_of ground) }
    {
        RuleGame::of_flat(alloc, ground.into_flat())
    }

    /// The same of an instantiation in flat lists.
    pub fn of_flat(alloc: Global, ground: FlatGround) -> Result<RuleGame, AllocError>
        ensures { IfOk result (λ game. game.played ≡ ground) }
    {
        let plan = make_plan(alloc, &ground)?;
        Ok(RuleGame {
            alloc,
            played: ground,
            plan,
        })
    }
}

impl Game for RuleGame {
    ghost use Rattle.ground_instances.specs.Grounds.{text_at, texts_at};
    ghost use Rattle.ground_instances.specs.GroundView.{roles_of, inputs_of};
    ghost use Rattle.game_rules.specs.RulePlay.{marked};
    ghost use Rattle.game_rules.specs.RuleRoom.{IsStateOf, capacities};
    ghost use Rattle.game_rules.specs.RuleState.{rules_of};
    ghost use Rattle.game_rules.specs.RuleMany.{IsManyOf, IsWideOf, kept_states, capacities_wide, capacities_many};
    ghost use Rattle.game.specs.Keys.{words_for as words_for_bits, state_of_bits};
    ghost use Rattle.game_rules.specs.RuleLaws.{goal_at_most, few_moves_of, legal_below, legal_in_order, moves_in_order, roles_once};

    type Pos = RulePos;

    type Wide = RuleWide;

    type Many = RuleMany;

    ghost rules = { λ g. rules_of g.played };

    ghost role_name = { λ g r. text_at (roles_of g.played) r };

    ghost move_name = { λ g r m. text_at (texts_at (inputs_of g.played) r) m };

    ghost fits = { λ g p. IsStateOf g.played p };

    ghost state = { λ _ p. marked p.base.items };

    ghost capacities = { λ _ p. capacities p };

    ghost fits_wide = { λ g w. IsWideOf g.played w };

    ghost judged = { λ _ _. [] };

    ghost fits_many = { λ g m. IsManyOf g.played m };

    ghost states = { λ _ m. kept_states m };

    ghost wide_capacities = { λ _ w. capacities_wide w };

    ghost many_capacities = { λ _ m. capacities_many m };

    ghost key_length = { λ g. words_for_bits (length g.played.starts.items) };

    ghost keyed = { λ g key. state_of_bits (length g.played.starts.items) key };

    fn roles(&self) -> usize {
        self.played.roles()
    }

    fn role_text(&self, role: usize) -> &[u8] {
        self.played.role_text(role)
    }

    fn moves(&self, role: usize) -> usize {
        self.played.inputs(role)
    }

    fn move_text(&self, role: usize, number: u32) -> &[u8] {
        self.played.input_text(role, number)
    }

    fn fresh(&self) -> Result<RulePos, AllocError> {
        start_state(self)
    }

    fn ended(&self, p: &RulePos) -> bool {
        p.ended
    }

    fn goal(&self, p: &RulePos, role: usize) -> u8 {
        p.roles[role].goal
    }

    fn legal(&self, p: &RulePos, role: usize, place: usize) -> Option<u32> {
        legal_at(&p.roles[role], place)
    }

    fn step(&self, p: &RulePos, joint: &Joint, q: &mut RulePos) {
        step_state(self, p, joint, q);
    }

    fn copy(&self, p: &RulePos, q: &mut RulePos) {
        q.base.copy_from_slice(&p.base);
        q.ended = p.ended;
        copy_roles(&p.roles, &mut q.roles);
    }

    fn new_wide(&self) -> Result<RuleWide, AllocError> {
        Ok(RuleWide {
            right: vec![in self.alloc; false; self.played.atoms()]?,
        })
    }

    fn new_many(&self) -> Result<RuleMany, AllocError> {
        Ok(RuleMany {
            states: new_bases(self)?,
            count: 0,
        })
    }

    fn steps(&self, p: &RulePos, joints: &[Joint], w: &mut RuleWide, out: &mut RuleMany) {
        step_each(self, p, joints, &mut w.right, &mut out.states);
        out.count = joints.len();
    }

    /// One: each joint move is played for itself.
    fn abreast(&self) -> usize {
        1
    }

    fn take(&self, many: &RuleMany, place: usize, q: &mut RulePos) {
        q.base.copy_from_slice(&many.states[place].marks);
        read_state(self, q);
    }

    /// Nothing: what holds in a state is found when it is taken.
    fn told(&self, _many: &RuleMany, _place: usize, _role: usize) -> Told {
        Told::Nothing
    }

    /// Nothing is judged: what holds in a state is found when it is stepped to.
    fn judge(&self, _p: &RulePos, _joints: &[Joint], _w: &mut RuleWide) -> bool {
        false
    }

    fn judge_from(
        &self,
        _many: &RuleMany,
        _places: &[usize],
        _joints: &[Joint],
        _w: &mut RuleWide,
    ) -> bool {
        false
    }

    fn verdict(&self, _w: &RuleWide, _place: usize, _role: usize) -> Option<u8> {
        None
    }

    fn key_words(&self) -> usize {
        words_for(self.played.base())
    }

    fn write_key(&self, p: &RulePos, key: &mut [u64]) {
        write_marks_key(&p.base, key);
    }

    fn write_key_of(&self, many: &RuleMany, place: usize, key: &mut [u64]) {
        write_marks_key(&many.states[place].marks, key);
    }

    ghost goal_within = { λ g s r. goal_at_most g.played s r };

    ghost moves_within = { λ g r _. few_moves_of g.played r };

    ghost legal_within = { λ g s r _. legal_below g.played s r };

    ghost legal_ascending = { λ g s r _. legal_in_order g.played s r };

    ghost moves_in_printed_order = { λ g r m n inside less below. moves_in_order g.played r m n inside less below };

    ghost role_names_differ = { λ g q r less below. roles_once g.played q r less below };
}

impl GroundGame for RuleGame {
    ghost use Rattle.std.specs.Prelude.{refl};

    ghost source = { λ g. g.played };

    fn over(alloc: Global, ground: FlatGround) -> Result<RuleGame, AllocError> {
        let game = RuleGame::of_flat(alloc, ground)?;
        Ok(game)
    }

    fn instantiation(&self) -> &FlatGround {
        &self.played
    }

    ghost keyed_by_bits = { λ _ _. refl };
}

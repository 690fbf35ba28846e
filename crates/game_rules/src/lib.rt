//! The rules of a game by numbers, what is told of a state by them, and the game that is played over their kept instances.
#![tactic(auto)]

mod evaluation;
mod ground_game;
mod kinds;
mod naming;
mod plan;
mod planning;
mod reading;
mod role_state;
mod rule_game;
mod rule_keys;
mod rule_laws;
mod rule_many;
mod rule_pos;
mod standing;
mod standings;

pub use ground_game::GroundGame;
pub use kinds::{kind_of, number_of, value_of};
pub use naming::Naming;
pub use role_state::{RoleState, copy_roles, legal_at, new_roles};
pub use rule_game::RuleGame;
pub use rule_laws::{
    games_of_the_rules_agree, numbers_find_what_holds, rules_have_a_game,
    the_game_plays_by_the_rules, the_rules_end_the_game, the_rules_give_the_goals,
    the_rules_give_the_moves, the_rules_give_the_next_state, the_rules_leave_the_game_stuck,
    the_rules_start_the_game,
};
pub use rule_pos::RulePos;
pub use standing::{Sought, Standing};
pub use standings::list_standing;

//! The game of the rules over their network, the laws of it, and what every game has, which comes from `game`.
#![tactic(auto)]

mod lane_plan;
mod lane_planning;
mod net_from_many;
mod net_game;
mod net_keys;
mod net_lanes;
mod net_many;
mod net_passes;
mod net_planning;
mod net_playing;
mod net_pos;
mod net_sources;
mod net_taking;
mod net_words;
mod readers;

pub use game::{
    AtBound, Game, HistoryFault, Joint, Told, add_history_refusal, is_stuck, new_joint,
    nothing_at_the_bound_is_the_plain_value, play_stays_within_the_game, put_move, replay,
    same_play_is_played_the_same,
};
pub use game_rules::{
    GroundGame, games_of_the_rules_agree, numbers_find_what_holds, rules_have_a_game,
    the_game_plays_by_the_rules, the_rules_end_the_game, the_rules_give_the_goals,
    the_rules_give_the_moves, the_rules_give_the_next_state, the_rules_leave_the_game_stuck,
    the_rules_start_the_game,
};
pub use net_game::NetGame;

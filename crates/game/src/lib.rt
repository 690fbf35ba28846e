//! What it means to play a game, whichever way its states are kept: its states and joint moves, histories of turns, and what play is
//! worth to a role.
#![tactic(auto)]

mod game;
mod joint;
mod keys;
mod play_laws;
mod question;
mod refusal;
mod replaying;
mod stuck;
mod told;

pub use game::Game;
pub use joint::{Joint, new_joint, put_move};
pub use keys::{put_bit, words_for};
pub use play_laws::{
    more_turns_are_worth_no_less, nothing_at_the_bound_is_the_plain_value,
    play_stays_within_the_game, same_play_is_played_the_same, settled_value_stays,
    worth_at_the_bound_bounds_the_value,
};
pub use question::Question;
pub use refusal::add_history_refusal;
pub use replaying::replay;
pub use statement::{AtBound, HistoryFault, Worth};
pub use stuck::is_stuck;
pub use told::Told;

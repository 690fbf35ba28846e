//! What a text of the whole language has to keep, and what is checked of a text that was written for it: the form of the profile, strata,
//! acceptance, and that relations which are written in another way are what their rules derive.
#![tactic(auto)]

mod accepted;
mod adding;
mod alone;
mod crossed;
mod fault;
mod forms;
mod founded_laws;
mod graph;
mod items;
mod lawful_items;
mod literals;
mod making;
mod negated;
mod numbers;
mod parts;
mod plain_laws;
mod ranges;
mod read_items;
mod relations;
mod rewriting_laws;
mod step_laws;
mod strata_laws;
mod stratified;
mod unstated;
mod ways;

pub use accepted::{accept, read_back};
pub use adding::rewrites;
pub use alone::stand_alone;
pub use fault::UnrollFault;
pub use forms::plain_forms;
pub use founded_laws::{step_games_have_their_rules, what_play_comes_to_is_derived};
pub use lawful_items::{found_items, is_recursive, refuse_crossed, role_places};
pub use making::step_game;
pub use negated::negated_by;
pub use plain_laws::plain_items_say_the_same;
pub use ranges::states_ranges;
pub use read_items::items_by_reading;
pub use relations::set_of;
pub use rewriting_laws::what_is_rewritten_is_played_the_same;
pub use step_laws::{based_items_say_what_can_be, stepped_items_say_the_steps};
pub use strata_laws::items_that_cross_nothing_are_stratified;
pub use unstated::refuse_unstated;

//! What rules mean: which ground atoms hold, where relations may depend on themselves too, which instances of the rules are kept, and where
//! atoms stand in play.
//!
//! Laws say that the kept instances say all that the rules say, and that relations which are written as layers say what their rules derive.
#![tactic(auto)]

mod laws;
mod layer_laws;
mod listing_laws;
mod play_laws;
mod stack_laws;
mod statement_laws;
mod whole_laws;

pub use laws::{
    accepted_items_are_well_formed, holds_by_a_rule, what_holds_is_lawful,
    what_is_possible_and_fixed_holds,
};
pub use layer_laws::what_is_layered_is_answered;
pub use listing_laws::{
    atoms_are_numbered_in_order, listed_instances_suffice, the_context_is_listed,
    the_listing_is_exact, the_listing_is_in_order,
};
pub use play_laws::{
    a_limit_is_named_if_passed, dropped_heads_have_no_effect, gates_read_enough,
    kinds_say_what_atoms_are, play_is_determined, the_start_is_listed,
};
pub use stack_laws::what_is_stacked_is_answered;
pub use statement::{Excess, Kind};
pub use statement_laws::{
    going_through_finds_what_holds, one_meaning, the_listing_and_its_numbers_are_determined,
};
pub use whole_laws::{
    rules_stated_in_another_way_are_played_the_same, the_whole_meaning_extends_todays,
    what_holds_has_a_rule, what_holds_is_stable, what_is_answered_apart_is_answered_together,
    what_is_founded_is_answered,
};

//! Why a text, or what it says as rules, is refused: where the fault stands, and what it is about, for people.
#![tactic(auto)]

mod counts;
mod forms;
mod graph;
mod halves;
mod marked;
mod misuses;
mod refusals;
mod rests;
mod spots;
mod told_play;
mod told_rules;
mod told_text;
mod variables;
mod ways;
mod wording;

pub use counts::{MOST_COUNTED, count_alternatives};
pub use marked::add_marked_line;
pub use refusals::{PlayFault, rule_fault_in};
pub use spots::{Spot, item_spot, text_spot, word_spot};
pub use told_play::{
    Before, explain_history, explain_limit, explain_role, explain_unread_history, is_legal_line,
};
pub use told_rules::{Source, explain_rules};
pub use told_text::{begins_with_mark, explain_text};
pub use variables::unbound_variable;
pub use ways::way_from;

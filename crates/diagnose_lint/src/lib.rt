//! What is lawful in rules and most likely wrong: what is asked and never stated or stated and never asked, heads that have no effect on play,
//! and a start at which the game has ended or a role has no legal move.
#![tactic(auto)]

mod dropped_finding;
mod dropped_told;
mod dropping;
mod effects;
mod finding;
mod gathering;
mod goals;
mod holds;
mod opening_finding;
mod opening_told;
mod owners;
mod pointer;
mod searching;
mod told;
mod whole;
mod words;

pub use dropped_finding::{Dropped, Lack};
pub use dropped_told::add_dropped;
pub use dropping::dropped_heads;
pub use finding::{Finding, Note};
pub use gathering::findings;
pub use opening_finding::{Opening, openings_of};
pub use opening_told::add_openings;
pub use told::finding_lines;

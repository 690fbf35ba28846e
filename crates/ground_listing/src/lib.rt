//! The listing of a set of rules by numbers: the kept instances of the relations in order, and the context of play that the fixed
//! ones state, or the first limit that is passed.
#![tactic(auto)]

mod all_listed;
mod alternative;
mod collected;
mod context_step_laws;
mod given;
mod heads;
mod instances;
mod instances_laws;
mod listed;
mod numbering;
mod progress;
mod sharing;
mod unbuilt;

pub use all_listed::{Listed, list_all};
pub use context_step_laws::the_context_step_is_the_definition;
pub use ground_rows::{ContextTerms, Most};
pub use instances_laws::kept_instances_are_those_of_rows;
pub use statement::GroundFault;

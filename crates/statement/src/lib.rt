//! What the promise of the program rests on: its definitions, in `specs/`, and the types that they speak of, with how each is
//! written. Beside it stand the kinds of atoms, the names of nodes and what and gates read, of which several crates speak. There is no
//! other code.
#![tactic(auto)]

mod at_bound;
mod excess;
mod ground_fault;
mod history_fault;
mod kind;
mod node_name;
mod rule_fault;
mod status;
mod text_fault;
mod width;
mod window;

pub use at_bound::{AtBound, Worth};
pub use excess::Excess;
pub use ground_fault::GroundFault;
pub use history_fault::HistoryFault;
pub use kind::Kind;
pub use node_name::Name;
pub use rule_fault::{RuleExcess, RuleFault};
pub use status::Status;
pub use text_fault::KifFault;
pub use width::Width;
pub use window::Window;

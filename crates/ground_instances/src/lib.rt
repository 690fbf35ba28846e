//! What a set of rules is in play, as it is read: its kept instances by the numbers of their atoms, in flat lists, and where these atoms
//! stand in play.
#![tactic(auto)]

mod atom_literal;
mod entry;
mod flat_ground;
mod flat_view;
mod found_list;
mod ground;
mod ground_laws;
mod ground_view;
mod runs;

pub use atom_literal::AtomLiteral;
pub use entry::{AlternativeRun, Entry};
pub use flat_ground::FlatGround;
pub use found_list::{FoundList, push_instance, push_literal, push_sharing};
pub use ground::{Ground, Instance};
pub use ground_laws::a_ground_fits_together;
pub use meaning::Kind;

//! What a set of rules is in play: its kept instances by number, which say all that the rules say, or the first limit that they
//! pass.
#![tactic(auto)]

mod finishing;
mod finishing_laws;
mod instantiating;
mod kinds_of_atoms;
mod most;
mod parts_of_ground;
mod tables;

pub use finishing_laws::the_last_pass_is_the_definition;
pub use ground_instances::{FlatGround, Ground, Instance, a_ground_fits_together};
pub use ground_listing::GroundFault;
pub use instantiating::{instantiate, instantiate_flat, instantiate_flat_alone, limits_of_width};
pub use meaning::{Excess, Kind};

//! Whether a text writes relations that depend on themselves as layers: that its items are such layers, and that there are enough of them.
#![tactic(auto)]

mod asking;
mod bounding;
mod carrying;
mod checking;
mod finding;
mod fitting;
mod items;
mod kinds;
mod laws;
mod layers;
mod literals;
mod marks;
mod naming;
mod owners;
mod passing;
mod picking;
mod relations;
mod slot;
mod stacked_slots;
mod stacking;
mod testing;
mod tops;

pub use bounding::is_bounded;
pub use laws::{what_is_carried_is_enough, what_is_slotted_is_bounded};
pub use stacked_slots::is_enough;
pub use stacking::is_stacked;
pub use testing::is_layered;

//! Items of the whole language written out without recursion, with `base` and `input`: which relations depend on which, what may ever hold,
//! and how many layers a relation needs that depends on itself.
#![tactic(auto)]

mod bad;
mod emitted;
mod groups;
mod kinds;
mod layer_counts;
mod layers;
mod relaxed;
mod rows;
mod sketch;
mod writer;
mod written;

pub use layers::Layers;
pub use written::{Bounds, Draft, Written};

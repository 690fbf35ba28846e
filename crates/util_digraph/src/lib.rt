//! Directed graphs over numbers: what is reached, which nodes lead to each other, and how far above others a node stands.
#![tactic(auto)]

mod adding;
mod components;
mod following;
mod graph;
mod ranks;
mod reaching;
mod successors;

pub use components::components_of;
pub use graph::{Arrow, Graph};
pub use ranks::{order_of, ranks_of};

//! How a search is cut into parts for several threads: what is read from its text and what it says, and no search.
#![tactic(auto)]

mod cut;

pub use cut::{Cut, Levels};

//! What a session is asked: request lines, and rules of the sizes that lines name.
#![tactic(auto)]

mod desk;
mod fault;
mod feed;
mod gathered;
mod lines;
mod sizes;
mod texts;

pub use desk::{Desk, Taken};
pub use fault::ReadFault;

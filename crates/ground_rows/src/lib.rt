//! The rows of an alternative while its instances are listed: which literals a row passes, the keys of the atoms that it asks for, the heads
//! that it makes, and the context of play that is read off the listed instances.
#![tactic(auto)]

mod built_heads;
mod context_step;
mod early;
mod kept_keys;
mod lean;
mod literal_steps;
mod most;
mod parts;
mod passing;
mod rows;
mod settled;
mod settlings;
mod short_keys;
mod sought;
mod steps;

pub use built_heads::{ground_atom, head_of_row, no_scratch};
pub use context_step::{ContextTerms, list_context};
pub use early::{early_tests, next_tested};
pub use kept_keys::Sought;
pub use lean::Lean;
pub use literal_steps::LiteralStep;
pub use most::Most;
pub use parts::last_place;
pub use passing::is_passing;
pub use rows::{Planned, Rows, Scratch};
pub use short_keys::put_key;
pub use sought::{put_sought, sought_at, sought_atoms};
pub use steps::{are_same_terms, is_pass, number_at, passes_distinct, step_at, steps_of};

//! Ground terms and atoms by number: their keys, the lengths and bytes of their texts, their printed order, and what they say
//! as atoms of play.
#![tactic(auto)]

mod adding;
mod arena;
mod building;
mod decimals;
mod dropping;
mod flat;
mod keyed;
mod kind_of_term;
mod measuring;
mod naming;
mod number_set;
mod starting;
mod stating;
mod stating_laws;
mod writing;

pub use adding::{add_pairs, add_singles};
pub use arena::{Arena, HEAD_LIMIT};
pub use dropping::count_dropped;
pub use flat::are_flat;
pub use keyed::{Terms, numbers_are_trees};
pub use naming::Named;
pub use number_set::NumberSet;
pub use starting::starts_of;
pub use stating::{add_only_parts, add_second_parts};
pub use stating_laws::stated_terms_are_listed;
pub use writing::Pending;

//! What items state and ask: the relation that each heads, and the literals of its body, however they are joined.
#![tactic(auto)]

mod asked;
mod items;
mod literals;
mod probe;
mod relation;
mod sets;

pub use asked::asked_by;
pub use items::{asks, binds, heads, is_stated, leads_to};
pub use probe::has_variable;
pub use relation::{Relation, head_of, is_same, split_atom};
pub use sets::{RelationSet, asked_in, stated_in};

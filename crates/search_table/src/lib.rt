//! Tables of positions: bounds of what states are worth, kept by the words of their keys, for one thread, or for several of which none waits;
//! and what workers tell each other so that they search less.
#![tactic(auto)]

mod bounds;
mod entry;
mod hash;
mod history;
mod marks;
mod position_table;
mod rows;
mod rule;
mod shared_table;

pub use bounds::Bounds;
pub use hash::hash_of;
pub use history::SharedHistory;
pub use marks::Marks;
pub use position_table::PositionTable;
pub use shared_table::SharedTable;

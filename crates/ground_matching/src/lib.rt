//! Which rows of numbers match the body of an alternative: the atoms found so far as rows of cells, the body as levels of
//! columns, and the rows that the levels give one after the other.
#![tactic(auto)]

mod building_laws;
mod cells;
mod cells_laws;
mod columns;
mod columns_laws;
mod finding;
mod levels;
mod levels_laws;
mod placed;
mod placed_laws;
mod ranges;
mod store;
mod table;

pub use building_laws::placed_parts_can_be_built;
pub use cells::add_rows;
pub use cells_laws::rows_are_those_of_the_atoms;
pub use columns::{add_columns, place_of};
pub use columns_laws::columns_stand_for_a_pattern;
pub use finding::{are_constant, find_atom};
pub use levels::{Join, LevelRows, give_back, is_binding, is_distinct, join_of};
pub use levels_laws::the_join_of_a_body_is_the_definition;
pub use placed::{Mark, RowPlan, add_placed, mark_at, parts_at, plan_of};
pub use placed_laws::{placed_parts_are_the_terms, safe_variables_have_places};
pub use ranges::{cover_from, no_ranges};
pub use store::{RowStore, Run, forget_many, no_rows, rows_of};

//! A description of the whole language, in which relations may rest on themselves and `base` and `input` need not be stated, written out as
//! one of the profile that is played the same.
//!
//! It is proved that no call breaks off, that what is written is accepted and states the same roles in the same order, and for each fault but a
//! limit that is passed that the text has it. Where the first line of what is written says that this is shown, it is proved that it is played
//! the same. Elsewhere that is tested, beside an interpreter of the whole language, and no clause says so.
#![tactic(auto)]

mod asking;
mod certifying;
mod choosing;
mod instances;
mod laws;
mod marking;
mod ordering;
mod ranges;
mod showing;
mod unrolling;

pub use laws::{
    what_is_reached_by_number_is_reached, where_all_are_reached_by_number_all_terms_are,
};
pub use marking::comes_to_all;
pub use unroll_datalog::Excess;
pub use unroll_strata::UnrollFault;
pub use unroll_writer::Bounds;
pub use unrolling::{SHOWN, TESTED, unrolled};

//! Games for trials: one of a single turn, whose values are known by heart, one that tells of the play of another, and
//! the texts of others; and growths that tests ask for.
#![tactic(auto)]

pub mod memory;
pub mod table;
pub mod texts;
pub mod watched;

//! A network as a flat list of two-input and gates, of which one pass gives the values of kept nodes in 64 lanes.
#![tactic(auto)]

mod builder;
mod cones;
mod factoring;
mod gates;
mod gathering;
mod grouping;
mod groups;
mod parts;
mod passing;
mod sourcing;
mod tally;
mod tape;
mod translating;

pub use tape::Tape;

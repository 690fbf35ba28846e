//! Some rows of each command, by `run`, by `run_rules` and by one thread; workers that are watched; and, for descriptions of the whole language,
//! what looks at what is written for them.
//!
//! `run_rules` is a second opinion: the game of the rules is played over their kept instances, and told of over their network where nothing is
//! searched, each the other way round than in the program. Nothing of the program stands on it.
#![tactic(auto)]

#[cfg(test)]
mod bounding;
#[cfg(test)]
mod layers;
#[cfg(test)]
mod parting;
#[cfg(test)]
mod reaching;
#[cfg(test)]
mod rows;
mod second;
#[cfg(test)]
mod workers;

pub use second::run_rules;

//! Worked cases of terms, kept instances and tapes, of games over networks beside those over rules, and of searches over games of rules,
//! by one thread and by workers.
#![tactic(auto)]

#[cfg(test)]
mod counts;
#[cfg(test)]
mod crowds;
#[cfg(test)]
mod grounds;
#[cfg(test)]
mod made;
#[cfg(test)]
mod networks;
#[cfg(test)]
mod nodes;
#[cfg(test)]
mod numbers;
#[cfg(test)]
mod plays;
#[cfg(test)]
mod tapes;

//! Worked cases of texts: trees and their order, over each allocator, lines and places, what descriptions say as rules, the commands and files
//! that words name, and what writers are flushed. And of parts that know no rules: graphs, literals, windows and choices, joins in another order, hints, cuts of the work, and boards
//! of its tasks.
#![tactic(auto)]

#[cfg(test)]
mod boards;
#[cfg(test)]
mod commands;
#[cfg(test)]
mod crowds;
#[cfg(test)]
mod cuts;
#[cfg(test)]
mod descriptions;
#[cfg(test)]
mod files;
#[cfg(test)]
mod flushes;
#[cfg(test)]
mod graphs;
#[cfg(test)]
mod join_orders;
#[cfg(test)]
mod lines;
#[cfg(test)]
mod links;
#[cfg(test)]
mod literals;
#[cfg(test)]
mod marks_and_counts;
#[cfg(test)]
mod nested_boards;
#[cfg(test)]
mod orders;
#[cfg(test)]
mod texts;
#[cfg(test)]
mod windows;

//! How much an instantiation may have.

/// The most instances that are kept.
pub(crate) const INSTANCES_LIMIT: usize = 262_144;

/// The most base propositions.
pub(crate) const BASE_LIMIT: usize = 65_536;

/// The most inputs of all roles together, for every command.
pub(crate) const INPUTS_LIMIT: usize = 4_096;

/// The most inputs of all roles together of rules that were written out of the whole language.
pub(crate) const WIDE_INPUTS_LIMIT: usize = 65_536;

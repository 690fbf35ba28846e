//! What is the same for all rows of an alternative, and what is kept from row to row.
use crate::kept_keys::Sought;
use crate::lean::Lean;
use crate::literal_steps::LiteralStep;
use ground_matching::RowPlan;
use ground_terms::NumberSet;
use rules::{Alternative, RuleSet};

/// What is the same for all rows of an alternative.
#[derive(Clone, Copy, Drop)]
pub struct Rows<'a> {
    pub set: &'a RuleSet,
    /// The atoms found so far.
    pub atoms: &'a NumberSet,
    /// The place of the alternative, from 0.
    pub place: usize,
    pub alternative: &'a Alternative,
    /// The variable of each value of a row.
    pub places: &'a [Option<usize>],
    pub plan: &'a RowPlan,
    /// For each literal of the body where a row has the number of its atom.
    pub numbers: &'a [Option<usize>],
    /// What is done with each literal of the body.
    pub steps: &'a [LiteralStep],
    /// What is kept of the keys of long atoms, by the literals of the body; empty where nothing is.
    pub sought: &'a [Option<Sought>],
    /// The places of the literals that are tested before a whole row is there, for each number of levels that have matched by then.
    pub tests: &'a [Vec<usize>],
    /// What is asked of a row if all instances have the same body.
    pub lean: &'a Lean,
    /// How many instances there may be in all.
    pub most: usize,
}

/// A literal, its place in the body, and what is done with it.
#[derive(Clone, Copy, Drop)]
pub struct Planned {
    pub number: usize,
    pub index: usize,
    pub step: LiteralStep,
}

/// The values of a row whose head was built, and the number of that head, if there is one.
#[derive(Drop)]
pub struct BuiltHead {
    pub values: Vec<u32>,
    pub head: Option<usize>,
}

/// Heads that were built, each in a slot that its values tell. There is no slot where no head comes again.
#[derive(Drop)]
pub struct Recent {
    pub heads: Vec<BuiltHead>,
    /// The slot of the row before, which is tried first.
    pub slot: usize,
}

/// What is kept from row to row.
#[derive(Drop)]
pub struct Scratch {
    pub recent: Recent,
    /// A head of which the text is longer than that of any may be, if one was built.
    pub long: Option<usize>,
    /// The number of the body that all instances have, if there is one.
    pub shared: Option<usize>,
    /// Room for the numbers of terms in the making. What is in it before a row says nothing.
    pub stack: Vec<u32>,
}

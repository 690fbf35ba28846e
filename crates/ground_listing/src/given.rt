//! What is the same for all that is listed.
use crate::heads::Heads;
use ground_rows::Most;
use rules::RuleSet;
use std::alloc::Global;

/// A set of rules, its alternatives by their heads, how much there may be, and what matches a join in pieces.
pub struct Given<'a, F> {
    pub alloc: Global,
    pub set: &'a RuleSet,
    pub heads: &'a Heads,
    pub most: Most,
    pub matcher: &'a F,
}

impl<F> Drop for Given<'_, F> {
    fn drop(self) {
        let Given {
            alloc: _,
            set: _,
            heads: _,
            most: _,
            matcher: _,
        } = self;
    }
}

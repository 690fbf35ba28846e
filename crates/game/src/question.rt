//! What is asked of a state.

use statement::AtBound;

/// What is asked of a state: what a role can be sure of within so many turns, whatever the others do.
#[derive(Clone, Copy, Debug, PartialEq, Eq)]
pub struct Question {
    /// The role, by its number from 0.
    pub role: usize,
    /// How many turns are looked ahead.
    pub depth: u32,
    /// What a state is worth in which the turns are over and the game has not ended.
    pub at: AtBound,
}

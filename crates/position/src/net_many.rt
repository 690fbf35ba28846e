//! Up to 64 states of a game over a network, and what is told of them.
//!
//! A pass is kept as it was written. The ends alone are gathered at once, as they are asked in each state; what else is told of
//! a state is read when it is taken.

/// Room for the passes that lead to states: words with a bit for each state.
#[derive(Drop)]
pub struct NetTurn {
    /// A word for each base proposition, and one for each input behind them.
    pub(crate) words: Vec<u64>,
    /// What the tape of the next state writes.
    pub(crate) next: Vec<u64>,
}

/// Up to 64 states.
#[derive(Drop)]
pub struct NetMany {
    /// Bit k of word p: whether base proposition p is in state k.
    pub(crate) states: Vec<u64>,
    /// What a probe wrote for these states.
    pub(crate) room: Vec<u64>,
    /// Bit k: whether the game has ended in state k.
    pub(crate) ended: u64,
    /// How many states there are.
    pub(crate) count: usize,
}

/// Working room, and the states that were judged last.
#[derive(Drop)]
pub struct NetWide {
    pub(crate) turn: NetTurn,
    pub(crate) judged: NetMany,
}

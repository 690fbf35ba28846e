//! What is told of a state before it is taken.

/// What a room for many states tells of one of them.
#[derive(Clone, Copy, Debug, PartialEq, Eq)]
pub enum Told {
    /// The game has ended there, with this goal value of the role that is asked for.
    Ended(u8),
    /// The game has not ended there.
    Open,
    /// Nothing: whether the game has ended there is seen when the state is taken.
    Nothing,
}

//! A worker, as it comes to a state and as it goes.
use crate::desk::Desk;
use game::Game;

/// What a worker brings with it, and takes away again: what it has of the boards above, and its desk.
#[derive(Drop)]
pub struct Worker<A, G: Game> {
    pub above: A,
    pub desk: Desk<G>,
}

/// The answer of a board, and the worker that opened it.
#[derive(Drop)]
pub struct Answered<A, G: Game> {
    pub value: i16,
    // The place of the first best move.
    pub first: u32,
    pub worker: Worker<A, G>,
}

/// How many workers share a board, and how many each board behind its tasks.
#[derive(Clone, Copy)]
pub struct TwoLevels {
    pub workers: u32,
    pub behind: u32,
}

/// How many workers share a board, and how many each board behind its tasks, and each behind the tasks of that.
#[derive(Clone, Copy)]
pub struct ThreeLevels {
    pub workers: u32,
    pub behind: TwoLevels,
}

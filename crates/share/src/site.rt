//! A state and the board of it.
use crate::node::Node;
use board::{Board, Values};
use game::Game;

/// Where a worker works: a node, and the board that hands out its tasks.
#[derive(Drop)]
pub struct Site<'a, G: Game, V: Values> {
    pub node: &'a Node<'a, G>,
    pub board: &'a Board<V>,
}

//! A directed graph over numbers, in memory.
ghost use Rattle.util_digraph.specs.Graph.{AreLinked};

/// An arrow from one node to another.
#[derive(Clone, Copy, Debug, PartialEq, Eq, Drop)]
pub struct Arrow {
    pub from: usize,
    pub to: usize,
}

/// A directed graph: its nodes are the numbers from 0 up to some number, and its arrows stand in the order in
/// which they were added. The arrows of a node are found by a chain from its last one to its first.
#[derive(Drop)]
pub struct Graph {
    pub(crate) arrows: Vec<Arrow>,
    /// For each node, one more than the place of its last arrow, or 0.
    pub(crate) ends: Vec<usize>,
    /// For each arrow, one more than the place of the arrow before it from the same node, or 0.
    pub(crate) before: Vec<usize>,
    pub ghost linked: { AreLinked arrows.items ends.items before.items },
}

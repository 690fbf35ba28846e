//! A graph whose arrows are added with no question whether its nodes are there.
ghost use Rattle.std.specs.Prelude.{◌≡◌};
ghost use Rattle.util_digraph.specs.GraphView.{nodes_of};

use std::alloc::{AllocError, Global};
use util_digraph::{Graph, components_of};

/// A graph of so many nodes.
#[derive(Drop)]
pub(crate) struct Sketch {
    graph: Graph,
    nodes: usize,
    ghost same: { nodes_of graph ≡ nodes },
}

impl Sketch {
    /// A graph of so many nodes, without arrows.
    pub(crate) fn new(alloc: Global, nodes: usize) -> Result<Self, AllocError> {
        let graph = Graph::new(alloc, nodes)?;
        Ok(Sketch { graph, nodes })
    }

    /// Adds an arrow, if both nodes are there.
    pub(crate) fn add(&mut self, from: u32, to: u32) -> Result<(), AllocError> {
        let from = from as usize;
        let to = to as usize;
        if from < self.nodes && to < self.nodes {
            self.graph.add(from, to)?;
        }
        Ok(())
    }

    /// A number for each node: two nodes have the same exactly where each leads to the other. Where one leads to another, its
    /// number is not the lower one; no clause says so.
    pub(crate) fn components(&self, alloc: Global) -> Result<Vec<u32>, AllocError> {
        let numbers = components_of(&self.graph, alloc)?;
        let mut components = Vec::new(alloc);
        for number in &numbers {
            components.push(util_interner::in_32_bits(*number)?)?;
        }
        Ok(components)
    }
}

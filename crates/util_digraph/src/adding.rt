//! How a graph is made.
ghost use Rattle.std.specs.Prelude.{◌≡◌, ◌<◌, map, [], ◌∷◌, ◌++◌, IfOk, OnOk, OnErr};
ghost use Rattle.util_digraph.specs.Graph.{turned_arrow};
ghost use Rattle.util_digraph.specs.GraphView.{arrows_of, nodes_of};

use crate::graph::{Arrow, Graph};
use std::alloc::{AllocError, Global};

impl Graph {
    /// A graph of so many nodes, without arrows.
    pub fn new(alloc: Global, nodes: usize) -> Result<Self, AllocError>
        ensures nodes { IfOk result (λ graph. nodes_of graph ≡ nodes) }
        ensures arrows { IfOk result (λ graph. arrows_of graph ≡ []) }
    {
        Ok(Graph {
            arrows: Vec::new(alloc),
            ends: vec![in alloc; 0; nodes]?,
            before: Vec::new(alloc),
        })
    }

    /// Adds an arrow. After an error the graph is as before.
    pub fn add(&mut self, from: usize, to: usize) -> Result<(), AllocError>
        requires from { from < nodes_of self.old }
        requires to { to < nodes_of self.old }
        ensures nodes { nodes_of self.new ≡ nodes_of self.old }
        ensures added { OnOk result (arrows_of self.new ≡ arrows_of self.old ++ record { from = from; to = to } ∷ []) }
        ensures failed { OnErr result (arrows_of self.new ≡ arrows_of self.old) }
    {
        self.before.reserve(1)?;
        self.arrows.push(Arrow { from, to })?;
        self.before.push(self.ends[from])?;
        self.ends[from] = self.arrows.len();
        Ok(())
    }

    /// The graph with each arrow turned round.
    pub(crate) fn turned(&self, alloc: Global) -> Result<Self, AllocError>
        ensures nodes { IfOk result (λ graph. nodes_of graph ≡ nodes_of self.now) }
        ensures arrows { IfOk result (λ graph. arrows_of graph ≡ map turned_arrow (arrows_of self.now)) }
    {
        let mut graph = Graph::new(alloc, self.ends.len())?;
        for arrow in &self.arrows {
            graph.add(arrow.to, arrow.from)?;
        }
        Ok(graph)
    }
}

//! Where the arrows of a node lead.
ghost use Rattle.std.specs.Prelude.{◌≡◌, ◌<◌, All};
ghost use Rattle.util_digraph.specs.GraphView.{arrows_of, nodes_of};
ghost use Rattle.util_digraph.specs.Successors.{successors_of};
ghost use Rattle.util_digraph.specs.SuccessorsView.{left_of};

use crate::graph::Graph;
use crate::successors::Successors;

impl Graph {
    /// The nodes that the arrows of a node lead to, from its last arrow to its first.
    pub(crate) fn successors(&self, node: usize) -> Successors<'_>
        requires { node < nodes_of self.now }
        ensures all { left_of result ≡ successors_of (arrows_of self.now) node }
        ensures inside { All (λ target. target < nodes_of self.now) (left_of result) }
    {
        Successors {
            graph: self,
            node,
            end: self.ends[node],
        }
    }
}

//! The nodes that the arrows of a node lead to.
ghost use Rattle.util_digraph.specs.Successors.{IsEndOf};

use crate::graph::Graph;

/// The nodes that the arrows of a node lead to, from its last arrow to its first, each as often as an arrow does.
#[derive(Drop)]
pub struct Successors<'a> {
    pub(crate) graph: &'a Graph,
    pub(crate) node: usize,
    /// One more than the place of the arrow that comes next, or 0.
    pub(crate) end: usize,
    pub ghost own: { IsEndOf graph.now.arrows.items node end },
}

impl<'a> Iterator for Successors<'a> {
    ghost use Rattle.std.specs.Iterator.{YieldsFirst, item_count};
    ghost use Rattle.util_digraph.specs.SuccessorsView.{left_of};

    type Item = usize;

    ghost next_gives = { YieldsFirst left_of };

    ghost remaining = { item_count left_of };

    fn next(&mut self) -> Option<usize> {
        if self.end == 0 {
            return None;
        }
        let place = self.end - 1;
        self.end = self.graph.before[place];
        Some(self.graph.arrows[place].to)
    }
}

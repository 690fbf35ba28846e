//! What is reached in a graph.
ghost use Rattle.std.specs.Prelude.{◌≡◌, ◌<◌, ◌∷◌, ◌++◌, [], length, vec_len, IfOk, OnOk, All, slice_set, slice_index_or, false, true, if◌then◌else◌};
ghost use Rattle.util_digraph.specs.Graph.{ReachedMarked, AreLeading, ArePlaces};
ghost use Rattle.util_digraph.specs.GraphView.{arrows_of, nodes_of};

use crate::graph::Graph;
use std::alloc::{AllocError, Global};

impl Graph {
    /// Marks the nodes that are among the starts or are reached from one.
    pub(crate) fn reached(&self, alloc: Global, starts: &[usize]) -> Result<Vec<bool>, AllocError>
        requires { All (λ start. start < nodes_of self.now) starts.now }
        ensures { IfOk result (λ marks. ReachedMarked (arrows_of self.now) starts.now (nodes_of self.now) marks.items) }
    {
        let mut marks = vec![in alloc; false; self.ends.len()]?;
        let mut ends = self.ends.clone()?;
        let mut pending: Vec<usize> = Vec::new(alloc);
        for start in starts {
            mark(&mut marks, &mut pending, *start)?;
        }
        while !pending.is_empty() {
            let node = pending[pending.len() - 1];
            let end = ends[node];
            if end == 0 {
                let _ = pending.pop();
                continue;
            }
            mark(&mut marks, &mut pending, self.arrows[end - 1].to)?;
            ends[node] = self.before[end - 1];
        }
        Ok(marks)
    }

    /// Marks the nodes that are goals or reach one.
    pub fn leading(&self, alloc: Global, goals: &[bool]) -> Result<Vec<bool>, AllocError>
        requires { length goals.now ≡ nodes_of self.now }
        ensures { IfOk result (λ marks. AreLeading (arrows_of self.now) goals.now marks.items) }
    {
        let turned = self.turned(alloc)?;
        let places = places_of(alloc, goals)?;
        turned.reached(alloc, &places)
    }
}

/// The places of the marks.
fn places_of(alloc: Global, marks: &[bool]) -> Result<Vec<usize>, AllocError>
    ensures { IfOk result (λ places. ArePlaces marks.now places.items) }
{
    let mut places = Vec::new(alloc);
    for (place, is_marked) in marks.iter().enumerate() {
        if *is_marked {
            places.push(place)?;
        }
    }
    Ok(places)
}

/// Marks a node, and notes it behind the pending ones if it was not marked.
pub(crate) fn mark(
    marks: &mut Vec<bool>,
    pending: &mut Vec<usize>,
    node: usize,
) -> Result<(), AllocError>
    requires { node < vec_len marks.old }
    ensures marked { OnOk result (marks.new.items ≡ slice_set marks.old.items node true) }
    ensures noted { OnOk result (pending.new.items
        ≡ (if slice_index_or marks.old.items node false then pending.old.items else pending.old.items ++ node ∷ [])) }
{
    if !marks[node] {
        marks[node] = true;
        pending.push(node)?;
    }
    Ok(())
}

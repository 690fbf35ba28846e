//! An order of a graph's nodes in which each arrow leads back, and their ranks.

ghost use Rattle.std.specs.Prelude.{ℕ, ◌≡◌, ◌<◌, ◌+◌, ◌^◌, [], length, IfOk, MatchOption, MatchBool, slice_index};
ghost use Rattle.util_digraph.specs.GraphView.{arrows_of, nodes_of};
ghost use Rattle.util_digraph.specs.Graph.{IsCyclic, IsOrder};
ghost use Rattle.util_digraph.specs.Walk.{Walking};
ghost use Rattle.util_digraph.specs.Ranks.{IsRank, AreRanks};

use crate::graph::Graph;
use crate::reaching::mark;
use std::alloc::{AllocError, Global};

/// How far a walk through a graph has come: what was seen, what is done, up to which end the arrows
/// from each node are still to be followed, the way to the newest node, and the order so far.
#[derive(Drop)]
struct Walk {
    seen: Vec<bool>,
    done: Vec<bool>,
    ends: Vec<usize>,
    pending: Vec<usize>,
    order: Vec<usize>,
}

impl Walk {
    /// A walk that has seen nothing.
    fn new(graph: &Graph, alloc: Global) -> Result<Self, AllocError>
        ensures walking { IfOk result (λ walk. Walking (arrows_of graph.now) (nodes_of graph.now) 0
            walk.seen.items walk.done.items walk.ends.items walk.pending.items walk.order.items) }
        ensures idle { IfOk result (λ walk. walk.pending.items ≡ []) }
    {
        let nodes = graph.ends.len();
        let seen = vec![in alloc; false; nodes]?;
        let done = vec![in alloc; false; nodes]?;
        let ends = graph.ends.clone()?;
        Ok(Walk {
            seen,
            done,
            ends,
            pending: Vec::new(alloc),
            order: Vec::new(alloc),
        })
    }
}

/// Goes wherever a node leads, and lists each node behind all that it leads to. False if an arrow
/// leads back onto the way.
fn visit(graph: &Graph, walk: &mut Walk, root: usize) -> Result<bool, AllocError>
    requires root { root < nodes_of graph.now }
    requires walking { Walking (arrows_of graph.now) (nodes_of graph.now) root
        walk.old.seen.items walk.old.done.items walk.old.ends.items walk.old.pending.items walk.old.order.items }
    requires idle { walk.old.pending.items ≡ [] }
    ensures { IfOk result (λ ended. MatchBool ended
        (Walking (arrows_of graph.now) (nodes_of graph.now) (root + 1)
        walk.new.seen.items walk.new.done.items walk.new.ends.items [] walk.new.order.items
        × (walk.new.pending.items ≡ []))
        (IsCyclic (arrows_of graph.now))) }
{
    mark(&mut walk.seen, &mut walk.pending, root)?;
    while !walk.pending.is_empty() {
        let node = walk.pending[walk.pending.len() - 1];
        let end = walk.ends[node];
        if end == 0 {
            let _ = walk.pending.pop();
            walk.done[node] = true;
            walk.order.push(node)?;
            continue;
        }
        let target = graph.arrows[end - 1].to;
        if walk.done[target] {
            walk.ends[node] = graph.before[end - 1];
        } else if walk.seen[target] {
            return Ok(false);
        } else {
            walk.seen[target] = true;
            walk.pending.push(target)?;
        }
    }
    Ok(true)
}

/// Goes wherever all nodes lead. False if an arrow leads back onto the way.
fn visit_all(graph: &Graph, walk: &mut Walk) -> Result<bool, AllocError>
    requires walking { Walking (arrows_of graph.now) (nodes_of graph.now) 0
        walk.old.seen.items walk.old.done.items walk.old.ends.items walk.old.pending.items walk.old.order.items }
    requires idle { walk.old.pending.items ≡ [] }
    ensures { IfOk result (λ ended. MatchBool ended (IsOrder (arrows_of graph.now) (nodes_of graph.now) walk.new.order.items)
        (IsCyclic (arrows_of graph.now))) }
{
    for root in 0..graph.ends.len() {
        if !visit(graph, walk, root)? {
            return Ok(false);
        }
    }
    Ok(true)
}

/// An order of the nodes in which each arrow leads back, or none if some node reaches itself.
pub fn order_of(graph: &Graph, alloc: Global) -> Result<Option<Vec<usize>>, AllocError>
    ensures { IfOk result (λ found. MatchOption found (IsCyclic (arrows_of graph.now))
        (λ order. IsOrder (arrows_of graph.now) (nodes_of graph.now) order.items)) }
{
    let mut walk = Walk::new(graph, alloc)?;
    if !visit_all(graph, &mut walk)? {
        return Ok(None);
    }
    Ok(Some(walk.order))
}

/// The rank of a node above the ranks of what it leads to.
fn rank_of(graph: &Graph, ranks: &[usize], node: usize, floor: usize) -> usize
    requires node { node < nodes_of graph.now }
    requires ranks { length ranks.now ≡ nodes_of graph.now }
    requires small { (p : ℕ) → slice_index ranks.now p < 2 ^ 63 }
    ensures { IsRank (arrows_of graph.now) ranks.now floor node result }
{
    let mut rank = floor;
    for next in graph.successors(node) {
        rank = rank.max(ranks[next] + 1);
    }
    rank
}

/// The rank of each node: 0 if it rests on nothing, at least 1 if `rests` says that it rests on
/// anything, and above the ranks of all that it leads to. The order is one in which arrows lead back.
pub fn ranks_of(
    graph: &Graph,
    alloc: Global,
    order: &[usize],
    rests: &[bool],
) -> Result<Vec<usize>, AllocError>
    requires order { IsOrder (arrows_of graph.now) (nodes_of graph.now) order.now }
    requires rests { length rests.now ≡ nodes_of graph.now }
    ensures { IfOk result (λ ranks. AreRanks (arrows_of graph.now) rests.now ranks.items) }
{
    let mut ranks = vec![in alloc; 0; graph.ends.len()]?;
    for node in order {
        ranks[*node] = rank_of(graph, &ranks, *node, usize::from(rests[*node]));
    }
    Ok(ranks)
}

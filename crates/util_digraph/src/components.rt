//! The components of a graph: nodes that lead to each other.
//!
//! The walk keeps open nodes in groups: the way so far, with what leads back on it drawn together. A group leads to all behind
//! it, the nodes of a group lead to each other, and an arrow that was followed leads to a node that has its number, to the
//! node's own group or to one behind it. So linear time finds all components.

ghost use Rattle.std.specs.Prelude.{ℕ, ◌≡◌, ◌<◌, ◌≤◌, ◌+◌, ◌-◌, ◌^◌, ◌++◌, ◌∷◌, [], length, IfOk, OnOk, MatchOption, replicate, slice_index};
ghost use Rattle.std.specs.Prelude.{slice_set, take};
ghost use Rattle.util_digraph.specs.GraphView.{arrows_of, nodes_of};
ghost use Rattle.util_digraph.specs.Grouping.{AreComponents, AreNumberedFrom, StartsCut, HasClosed, IsLookedAt, IsWalk, work_of};

use crate::graph::Graph;
use std::alloc::{AllocError, Global};

/// How far a walk through a graph has come. A node that was seen and has no number yet is open; open nodes
/// stand in groups whose nodes lead to each other, and each group leads to those behind it.
#[derive(Drop)]
struct Walk {
    /// For each node, up to which end its arrows are still to be followed.
    ends: Vec<usize>,
    /// For each node that was seen, one more than its place among the open ones.
    places: Vec<usize>,
    /// The open nodes, in the order in which they were seen.
    open_nodes: Vec<usize>,
    /// The places where groups begin.
    starts: Vec<usize>,
    /// The places of open nodes of which arrows may still have to be followed.
    pending: Vec<usize>,
    /// For each node the number of its component, from 1, or 0.
    numbers: Vec<usize>,
    /// How many components have a number.
    count: usize,
}

/// So many zeros.
fn zeros(alloc: Global, many: usize) -> Result<Vec<usize>, AllocError>
    ensures { IfOk result (λ numbers. numbers.items ≡ replicate many 0) }
{
    vec![in alloc; 0; many]
}

impl Walk {
    /// A walk that has seen nothing.
    fn new(graph: &Graph, alloc: Global) -> Result<Self, AllocError>
        ensures walk { IfOk result (λ walk. IsWalk (arrows_of graph.now) (length graph.now.ends.items) 0 walk) }
        ensures idle { IfOk result (λ walk. length walk.open_nodes.items ≡ 0) }
    {
        let nodes = graph.ends.len();
        Ok(Walk {
            ends: graph.ends.clone()?,
            places: zeros(alloc, nodes)?,
            open_nodes: Vec::new(alloc),
            starts: Vec::new(alloc),
            pending: Vec::new(alloc),
            numbers: zeros(alloc, nodes)?,
            count: 0,
        })
    }

    /// Puts a node behind all open ones, as a group of its own.
    fn open_node(&mut self, node: usize) -> Result<(), AllocError>
        requires { node < length self.old.places.items }
        ensures places { OnOk result (self.new.places.items ≡ slice_set self.old.places.items node (length self.old.open_nodes.items + 1)) }
        ensures listed { OnOk result (self.new.open_nodes.items ≡ self.old.open_nodes.items ++ node ∷ []) }
        ensures starts { OnOk result (self.new.starts.items ≡ self.old.starts.items ++ length self.old.open_nodes.items ∷ []) }
        ensures pending { OnOk result (self.new.pending.items ≡ self.old.pending.items ++ length self.old.open_nodes.items ∷ []) }
        ensures ends { self.new.ends.items ≡ self.old.ends.items }
        ensures numbers { self.new.numbers.items ≡ self.old.numbers.items }
        ensures count { self.new.count ≡ self.old.count }
    {
        let place = self.open_nodes.len();
        self.open_nodes.push(node)?;
        self.starts.push(place)?;
        self.pending.push(place)?;
        self.places[node] = place + 1;
        Ok(())
    }
}

/// Takes away the starts behind a place.
fn drop_behind(starts: &mut Vec<usize>, place: usize)
    requires some { 0 < length starts.old.items }
    requires first { slice_index starts.old.items 0 ≤ place }
    ensures { StartsCut starts.old.items starts.new.items place }
{
    while starts[starts.len() - 1] > place {
        let _ = starts.pop();
    }
}

/// Gives the nodes from a place on a number.
fn number_from(numbers: &mut Vec<usize>, nodes: &[usize], from: usize, number: usize)
    requires nodes { (i : ℕ) → i < length nodes.now → slice_index nodes.now i < length numbers.old.items }
    requires from { from ≤ length nodes.now }
    ensures { AreNumberedFrom numbers.old.items numbers.new.items nodes.now from number }
{
    for place in from..nodes.len() {
        numbers[nodes[place]] = number;
    }
}

impl Walk {
    /// Gives the nodes of the last group, which begins at a place, the next number.
    fn close(&mut self, start: usize)
        requires some { 0 < length self.old.starts.items }
        requires last { slice_index self.old.starts.items (length self.old.starts.items - 1) ≡ start }
        requires nodes { (i : ℕ) → i < length self.old.open_nodes.items
            → slice_index self.old.open_nodes.items i < length self.old.numbers.items }
        requires start { start ≤ length self.old.open_nodes.items }
        requires room { self.old.count < 2 ^ 63 }
        ensures { HasClosed self.old self.new start }
    {
        self.count += 1;
        number_from(&mut self.numbers, &self.open_nodes, start, self.count);
        self.open_nodes.truncate(start);
        let _ = self.starts.pop();
    }
}

/// The last pending place, if it is none before a start.
fn pending_from(pending: &[usize], start: usize) -> Option<usize>
    requires { (i j : ℕ) → i < j → j < length pending.now → slice_index pending.now i < slice_index pending.now j }
    ensures { MatchOption result ((j : ℕ) → j < length pending.now → slice_index pending.now j < start)
        (λ place. (0 < length pending.now) × (start ≤ place) × (slice_index pending.now (length pending.now - 1) ≡ place)) }
{
    let place = *pending.last()?;
    if place < start {
        return None;
    }
    Some(place)
}

/// Sees where an arrow from an open node of the last group leads: a node that was not seen is opened, and
/// the groups from that of an open node on become one.
fn look_at(walk: &mut Walk, target: usize) -> Result<(), AllocError>
    requires target { target < length walk.old.places.items }
    requires numbers { length walk.old.numbers.items ≡ length walk.old.places.items }
    requires some { 0 < length walk.old.starts.items }
    requires first { slice_index walk.old.starts.items 0 ≡ 0 }
    ensures seen { OnOk result (IsLookedAt walk.old walk.new target) }
    ensures ends { walk.new.ends.items ≡ walk.old.ends.items }
{
    if walk.numbers[target] > 0 {
        return Ok(());
    }
    let place = walk.places[target];
    if place == 0 {
        return walk.open_node(target);
    }
    drop_behind(&mut walk.starts, place - 1);
    Ok(())
}

/// One step of a walk that has open nodes: an arrow is followed, a place is no longer pending, or the last
/// group gets a number.
fn step(graph: &Graph, walk: &mut Walk) -> Result<(), AllocError>
    requires some { 0 < length walk.old.open_nodes.items }
    requires walk { IsWalk (arrows_of graph.now) (length graph.now.ends.items) 0 walk.old }
    ensures walk { OnOk result ((m : ℕ) → IsWalk (arrows_of graph.now) (length graph.now.ends.items) m walk.old
        → IsWalk (arrows_of graph.now) (length graph.now.ends.items) m walk.new) }
    ensures falls { OnOk result (work_of walk.new < work_of walk.old) }
{
    let start = walk.starts[walk.starts.len() - 1];
    let Some(place) = pending_from(&walk.pending, start) else {
        walk.close(start);
        return Ok(());
    };
    let node = walk.open_nodes[place];
    let end = walk.ends[node];
    if end == 0 {
        let _ = walk.pending.pop();
        return Ok(());
    }
    look_at(walk, graph.arrows[end - 1].to)?;
    walk.ends[node] = graph.before[end - 1];
    Ok(())
}

/// Walks wherever a node leads, until no node is open.
fn visit(graph: &Graph, walk: &mut Walk, root: usize) -> Result<(), AllocError>
    requires root { root < length graph.now.ends.items }
    requires walk { IsWalk (arrows_of graph.now) (length graph.now.ends.items) root walk.old }
    requires idle { length walk.old.open_nodes.items ≡ 0 }
    ensures walk { OnOk result (IsWalk (arrows_of graph.now) (length graph.now.ends.items) (root + 1) walk.new) }
    ensures idle { OnOk result (length walk.new.open_nodes.items ≡ 0) }
{
    if walk.places[root] > 0 {
        return Ok(());
    }
    walk.open_node(root)?;
    while !walk.open_nodes.is_empty() {
        step(graph, walk)?;
    }
    Ok(())
}

/// A number for each node: two nodes have the same exactly where each leads to the other.
pub fn components_of(graph: &Graph, alloc: Global) -> Result<Vec<usize>, AllocError>
    ensures { IfOk result (λ numbers. AreComponents (arrows_of graph.now) (nodes_of graph.now) numbers.items) }
{
    let mut walk = Walk::new(graph, alloc)?;
    for root in 0..graph.ends.len() {
        visit(graph, &mut walk, root)?;
    }
    Ok(walk.numbers)
}

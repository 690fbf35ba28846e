//! Slots of nodes: numbers that differ along each way through a graph, so that no way passes more different nodes than there are numbers.

/// The slot of a node, by the place that it has among all nodes. Nodes that lead to each other are a group: they stand at places one behind
/// the other, and have the slots from a floor on, one behind the other, up to a ceiling. What leads to a group from another has its ceiling
/// at that floor or below.
#[derive(Clone, Copy, Debug, PartialEq, Eq, Drop)]
pub struct Slot {
    /// The place of the node.
    pub place: usize,
    /// The place of the first node of its group.
    pub first: usize,
    /// The slot of the first node of its group.
    pub floor: usize,
    /// One more than the slot of the last node of its group.
    pub ceiling: usize,
}

/// The slots of all nodes, and which node stands at which place.
#[derive(Drop)]
pub struct Slots {
    /// For each node its slot.
    pub slots: Vec<Slot>,
    /// For each place the node.
    pub members: Vec<usize>,
}

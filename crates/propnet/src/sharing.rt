//! And gates that read the same: instances may share a body, and then their gates share the operands.
//!
//! A hint tells by body which node reads it. It is tested before it is used, so nothing has to be known of it.
ghost use Rattle.std.specs.Prelude.{◌≡◌, ◌<◌, length, get_or, true, IfSome};
ghost use Rattle.statement.specs.Kept.{Kept};
ghost use Rattle.statement.specs.declared.node_name.Name.TheVariants.{And};
ghost use Rattle.ground_instances.specs.GroundView.{instances_of};
ghost use Rattle.propnet.specs.NetView.{gates_at};
ghost use Rattle.propnet.specs.Building.{Stands};
ghost use Rattle.propnet.specs.Builders.{gates_made, IsAlike};

use crate::builder::NetBuilder;
use crate::nodes::Nodes;
use ground_instances::{AtomLiteral, FlatGround};
use statement::Name;
use std::alloc::{AllocError, Global};

/// How many literals a body has at least whose operands are shared. To look for a gate that reads the same costs more than a few operands.
const LONG: usize = 16;

/// Whether a body is so long that its operands are shared.
pub(crate) fn is_long(body: &[AtomLiteral]) -> bool {
    body.len() >= LONG
}

/// A hint for each body, and none where each instance has a body of its own or no body is long.
pub(crate) fn hints_for(
    alloc: Global,
    ground: &FlatGround,
    some_long: bool,
) -> Result<Vec<u32>, AllocError> {
    let bodies = ground.many_bodies();
    let many = if some_long && bodies < ground.many_kept() {
        bodies
    } else {
        0
    };
    vec![in alloc; u32::MAX; many]
}

/// Notes that a node reads a body, where there are hints.
pub(crate) fn note(hints: &mut Vec<u32>, body: usize, number: u32) {
    if body < hints.len() {
        hints[body] = number;
    }
}

/// Whether two instances share a body.
pub(crate) fn share_body(ground: &FlatGround, one: usize, other: usize) -> bool
    requires one { one < length (instances_of ground.now) }
    requires other { other < length (instances_of ground.now) }
    ensures { result ≡ true → (d : Kept) → (get_or (instances_of ground.now) one d).body ≡ (get_or (instances_of ground.now) other d).body }
{
    ground.body_number(one) == ground.body_number(other)
}

impl Nodes {
    /// The instance of which a node is the and gate, if it is one.
    fn instance_of(&self, number: u32) -> Option<u32>
        ensures { IfSome result (λ place. Stands (gates_at self.now) number (And place)) }
    {
        if number as usize >= self.list.len() {
            return None;
        }
        match self.list[number as usize].name.name() {
            Name::And(place) => Some(place),
            _ => None,
        }
    }
}

impl NetBuilder {
    /// A node that reads what the and gate of an instance is to read, where the hint tells one.
    pub(crate) fn alike(&self, ground: &FlatGround, place: u32) -> Option<u32>
        requires { place < length (instances_of ground.now) }
        ensures { IfSome result (IsAlike ground.now (gates_made self.now) place) }
    {
        let body = ground.body_number(place as usize);
        if body >= self.hints.len() {
            return None;
        }
        let number = self.hints[body];
        let Some(other) = self.nodes.instance_of(number) else {
            return None;
        };
        if other as usize >= ground.many_kept() {
            return None;
        }
        if !share_body(ground, other as usize, place as usize) {
            return None;
        }
        Some(number)
    }
}

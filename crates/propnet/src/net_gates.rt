//! What each node of a network is, and the words that a pass over it is given.
ghost use Rattle.std.specs.Prelude.{ℕ, ◌≡◌, ◌+◌, ◌<◌, ◌≤◌, length, sum, Some, slice_get, slice_index};
ghost use Rattle.propnet.specs.NetView.{gate_with};
ghost use Rattle.propnet.specs.Nets.{gates_of};
ghost use Rattle.propnet.specs.Given.{AreGiven};

use crate::Joint;
use crate::eval::reads;
use crate::inputs::write_inputs;
use crate::net::Net;
use statement::Name;

impl Net {
    /// What a node stands for, and the numbers of the nodes that it reads.
    pub fn gate(&self, n: usize) -> (Name, &[u32])
        requires { n < length (gates_of self.now) }
        ensures { slice_get (gates_of self.now) n ≡ Some (gate_with result.0 result.1.now) }
    {
        let node = self.nodes.list[n];
        (
            node.name.name(),
            reads(&self.nodes.operands, node.count, node.end),
        )
    }

    /// How many base propositions there are. Their nodes come first.
    pub fn base(&self) -> usize
        ensures { result ≡ self.now.base }
    {
        self.base
    }

    /// How many inputs each role has. Their nodes come behind the base propositions, role by role.
    pub fn inputs(&self) -> &[usize]
        ensures { result.now ≡ self.now.inputs.items }
    {
        &self.inputs
    }

    /// How many base propositions and inputs there are.
    pub fn sources(&self) -> usize
        ensures { result ≡ self.now.base + sum self.now.inputs.items }
    {
        let mut count = self.base;
        for inputs in &self.inputs {
            count += *inputs;
        }
        count
    }

    /// Writes the words of the inputs for up to 64 joint moves, behind those of the base propositions: bit k says whether joint
    /// move k gives the input.
    pub fn write_joints(&self, joints: &[Joint], words: &mut [u64])
        requires room { self.now.base + sum self.now.inputs.items ≤ length words.old }
        requires at_most_all { length joints.now ≤ 64 }
        ensures given { AreGiven self.now.base self.now.inputs.items joints.now words.new }
        ensures before { (n : ℕ) → n < self.now.base → slice_index words.new n ≡ slice_index words.old n }
    {
        write_inputs(words, self.base, &self.inputs, joints);
    }
}

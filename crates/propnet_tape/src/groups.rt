//! The groups of given bits that the inputs of the roles are.
//!
//! Which bits these are is looked up and tested when the groups are made, so no law says where they stand.
ghost use Rattle.std.specs.Prelude.{ℕ, Bool, List, ◌≡◌, ◌+◌, ◌<◌, ◌≤◌, true, length, sum, take, All, IfOk, IfSome, slice_index};
ghost use Rattle.propnet.specs.Nets.{gates_of};
ghost use Rattle.propnet_tape.specs.Grouping.{IsGivenInput, IsGroupOf, AreGroups};
ghost use Rattle.propnet_tape.specs.Marks.{AllMarked};
ghost use Rattle.propnet_tape.specs.Sources.{AreSourcesOf};

use crate::builder::Group;
use crate::sourcing::{Sources, word_of};
use propnet::Net;
use std::alloc::{AllocError, Global};

/// Whether a node is an input that is given in the bit of this number.
fn is_given_at(net: &Net, marks: &[bool], sources: &Sources, n: usize, bit: usize) -> bool
    requires sources { AreSourcesOf (gates_of net.now) marks.now (length (gates_of net.now)) sources.now.words.items sources.now.literals.items }
    requires marks { length marks.now ≡ length (gates_of net.now) }
    ensures { result ≡ true → IsGivenInput sources.now.words.items bit n }
{
    if n >= marks.len() || !marks[n] {
        return false;
    }
    let (name, _reads) = net.gate(n);
    let Some(word) = word_of(name, n) else {
        return false;
    };
    if word as usize != n {
        return false;
    }
    let literal = sources.literals[n] as usize;
    if literal % 2 == 1 || literal < 2 {
        return false;
    }
    literal / 2 - 1 == bit
}

/// Whether so many nodes from one on are inputs that are given in the bits from this number on.
fn are_given_from(
    net: &Net,
    marks: &[bool],
    sources: &Sources,
    first: usize,
    count: usize,
    from: usize,
) -> bool
    requires sources { AreSourcesOf (gates_of net.now) marks.now (length (gates_of net.now)) sources.now.words.items sources.now.literals.items }
    requires marks { length marks.now ≡ length (gates_of net.now) }
    requires within { first + count ≤ length (gates_of net.now) }
    ensures { result ≡ true → (m : ℕ) → m < count → IsGivenInput sources.now.words.items (from + m) (first + m) }
{
    for m in 0..count {
        let Some(bit) = from.checked_add(m) else {
            return false;
        };
        if !is_given_at(net, marks, sources, first + m, bit) {
            return false;
        }
    }
    true
}

/// The group of a role's inputs, whose nodes begin here, if all of them are given.
fn group_of(
    net: &Net,
    marks: &[bool],
    sources: &Sources,
    role: usize,
    first: usize,
) -> Option<Group>
    requires sources { AreSourcesOf (gates_of net.now) marks.now (length (gates_of net.now)) sources.now.words.items sources.now.literals.items }
    requires marks { length marks.now ≡ length (gates_of net.now) }
    requires role { role < length net.now.inputs.items }
    requires first { first ≡ net.now.base + sum (take role net.now.inputs.items) }
    requires within { first + slice_index net.now.inputs.items role ≤ length (gates_of net.now) }
    ensures { IfSome result (IsGroupOf net.now sources.now.words.items) }
{
    let count = net.inputs()[role];
    if count == 0 {
        return None;
    }
    let literal = sources.literals[first];
    if literal < 2 {
        return None;
    }
    let from = literal / 2 - 1;
    if !are_given_from(net, marks, sources, first, count, from as usize) {
        return None;
    }
    let to = from + count as u32;
    Some(Group { from, to })
}

/// The groups of the inputs of the roles.
pub(crate) fn groups_of(
    alloc: Global,
    net: &Net,
    marks: &[bool],
    sources: &Sources,
) -> Result<Vec<Group>, AllocError>
    requires sources { AreSourcesOf (gates_of net.now) marks.now (length (gates_of net.now)) sources.now.words.items sources.now.literals.items }
    requires marks { length marks.now ≡ length (gates_of net.now) }
    ensures { IfOk result (λ groups. AreGroups net.now sources.now.words.items groups.items) }
{
    let mut groups = Vec::new(alloc);
    let mut first = net.base();
    for role in 0..net.inputs().len() {
        if let Some(group) = group_of(net, marks, sources, role, first) {
            groups.push(group)?;
        }
        first += net.inputs()[role];
    }
    Ok(groups)
}

/// Some nodes, and all inputs behind them.
pub(crate) fn with_inputs(alloc: Global, net: &Net, kept: &[u32]) -> Result<Vec<u32>, AllocError>
    requires { All (λ n. n < length (gates_of net.now)) kept.now }
    ensures within { IfOk result (λ nodes. All (λ n. n < length (gates_of net.now)) nodes.items) }
    ensures kept { IfOk result (λ nodes. (marks : List Bool) → AllMarked marks nodes.items → AllMarked marks kept.now) }
{
    let mut nodes = Vec::from_slice(alloc, kept)?;
    for n in net.base()..net.sources() {
        nodes.push(n as u32)?;
    }
    Ok(nodes)
}

//! From the kept nodes of a network to a tape.
ghost use Rattle.std.specs.Prelude.{true, ◌≡◌, ◌+◌, ◌*◌, ◌<◌, ◌≤◌, length, All, IfOk, OnOk};
ghost use Rattle.propnet.specs.Nets.{gates_of};
ghost use Rattle.propnet_tape.specs.Building.{IsBuilt, IsStep};
ghost use Rattle.propnet_tape.specs.Marks.{is_marked, AllMarked, IsClosedFrom};
ghost use Rattle.propnet_tape.specs.Sources.{AreSourcesOf};
ghost use Rattle.propnet_tape.specs.Tapes.{IsTapeOf, IsTurnTapeOf};
ghost use Rattle.propnet_tape.specs.Translating.{NodesKept, IsGroupTapeOf, IsMeant, IsTranslated};

use crate::builder::{Builder, Group, negation};
use crate::cones::{cones, is_and, is_or};
use crate::gates::Literal;
use crate::gathering::{add_terms, gather};
use crate::groups::{groups_of, with_inputs};
use crate::parts::Terms;
use crate::sourcing::{Sources, above, is_source, sources_of};
use crate::tape::Tape;
use propnet::Net;
use std::alloc::{AllocError, Global};

/// How many shared literals are taken out of an or of ands, one after the other, at most.
const MOST_TAKEN: usize = 16;

/// Room for the work on a node.
#[derive(Drop)]
struct Work {
    alloc: Global,
    queue: Vec<Literal>,
    terms: Terms,
}

/// The literal of a node, or that of none where the node is not marked.
fn literal_for(
    net: &Net,
    n: usize,
    marks: &[bool],
    sources: &Sources,
    builder: &mut Builder,
    literals: &[Literal],
    work: &mut Work,
) -> Result<Literal, AllocError>
    requires node { n < length (gates_of net.now) }
    requires closed { IsClosedFrom (gates_of net.now) 0 marks.now }
    requires sources { AreSourcesOf (gates_of net.now) marks.now (length (gates_of net.now)) sources.now.words.items sources.now.literals.items }
    requires so_far { IsTranslated net.now marks.now sources.now.words.items n builder.old literals.now }
    ensures step { IsStep builder.old builder.new }
    ensures value { IfOk result (λ l. is_marked marks.now n ≡ true → IsMeant net.now sources.now.words.items builder.new l n) }
{
    if !marks[n] {
        return Ok(0);
    }
    let (name, reads) = net.gate(n);
    if is_source(name) {
        return Ok(sources.literals[n]);
    }
    if is_or(name) {
        work.terms.begin(builder.slots())?;
        add_terms(net, reads, literals, &mut work.terms)?;
        return builder.any_of_all(work.alloc, MOST_TAKEN, &mut work.terms);
    }
    gather(&mut work.queue, reads, literals)?;
    if is_and(name) {
        return builder.all(&mut work.queue);
    }
    let any = builder.any(&mut work.queue)?;
    Ok(negation(any))
}

/// Adds the gates that the kept nodes come to. The literals of all nodes are right for those that are kept.
fn translate(
    alloc: Global,
    net: &Net,
    kept: &[u32],
    marks: &[bool],
    sources: &Sources,
    builder: &mut Builder,
) -> Result<Vec<Literal>, AllocError>
    requires kept { All (λ n. n < length (gates_of net.now)) kept.now }
    requires marked { AllMarked marks.now kept.now }
    requires closed { IsClosedFrom (gates_of net.now) 0 marks.now }
    requires sources { AreSourcesOf (gates_of net.now) marks.now (length (gates_of net.now)) sources.now.words.items sources.now.literals.items }
    requires built { IsBuilt builder.old }
    requires first { builder.old.first ≡ 2 + 2 * length sources.now.words.items }
    ensures kept { IfOk result (λ literals. NodesKept net.now sources.now.words.items kept.now builder.new literals.items) }
    ensures groups { OnOk result (builder.new.groups.items ≡ builder.old.groups.items) }
{
    let mut literals = Vec::with_capacity(alloc, net.nodes())?;
    let mut work = Work {
        alloc,
        queue: Vec::new(alloc),
        terms: Terms::new(alloc),
    };
    for n in 0..net.nodes() {
        let literal = literal_for(net, n, marks, sources, builder, &literals, &mut work)?;
        literals.push(literal)?;
    }
    Ok(literals)
}

/// The tape of the kept nodes, where these and what they need are marked, and one bit of each group is 1.
fn made(
    alloc: Global,
    net: &Net,
    kept: &[u32],
    marks: &[bool],
    sources: Sources,
    groups: Vec<Group>,
) -> Result<Tape, AllocError>
    requires kept { All (λ n. n < length (gates_of net.now)) kept.now }
    requires marked { AllMarked marks.now kept.now }
    requires closed { IsClosedFrom (gates_of net.now) 0 marks.now }
    requires sources { AreSourcesOf (gates_of net.now) marks.now (length (gates_of net.now)) sources.words.items sources.literals.items }
    requires groups { All (λ g. g.to ≤ length sources.words.items) groups.items }
    ensures { IfOk result (λ t. IsGroupTapeOf net.now kept.now sources.words.items groups.items t) }
{
    let mut builder = Builder::new(alloc, sources.words.len() as u32, groups)?;
    let literals = translate(alloc, net, kept, marks, &sources, &mut builder)?;
    let mut slots = Vec::with_capacity(alloc, kept.len())?;
    gather(&mut slots, kept, &literals)?;
    let most = above(&sources.words);
    let (first, gates) = builder.into_parts();
    Ok(Tape {
        first,
        sources: sources.words,
        most,
        gates,
        kept: slots,
    })
}

impl Tape {
    /// The tape of some nodes of a network: it has no gate that these do not stand on, and is given no word that none of them
    /// reads. Memory is also refused where literals would pass 32 bits.
    pub fn new(alloc: Global, net: &Net, kept: &[u32]) -> Result<Tape, AllocError>
        requires { All (λ n. n < length (gates_of net.now)) kept.now }
        ensures { IfOk result (IsTapeOf net.now kept.now) }
    {
        let cones = cones(alloc, net, kept)?;
        let marks = cones.as_slice();
        let sources = sources_of(alloc, net, marks)?;
        made(alloc, net, kept, marks, sources, Vec::new(alloc))
    }

    /// The same, for joint moves that have an input of each role: an or of more than half of a role's inputs is the negation of the or
    /// of its others. It is given the words of all inputs.
    pub fn of_turns(alloc: Global, net: &Net, kept: &[u32]) -> Result<Tape, AllocError>
        requires { All (λ n. n < length (gates_of net.now)) kept.now }
        ensures { IfOk result (IsTurnTapeOf net.now kept.now) }
    {
        let nodes = with_inputs(alloc, net, kept)?;
        let cones = cones(alloc, net, &nodes)?;
        let marks = cones.as_slice();
        let sources = sources_of(alloc, net, marks)?;
        let groups = groups_of(alloc, net, marks, &sources)?;
        made(alloc, net, kept, marks, sources, groups)
    }
}

//! The given words of a tape.
ghost use Rattle.std.specs.Prelude.{◌≡◌, ◌+◌, ◌^◌, ◌<◌, length, All, IfOk, OnOk};
ghost use Rattle.propnet.specs.Nets.{gates_of};
ghost use Rattle.propnet_tape.specs.Sources.{is_source as is_source_name, source_word, AreSourcesOf};

use crate::builder::given;
use crate::gates::Literal;
use propnet::{Name, Net};
use std::alloc::{AllocError, Global};

/// Which of the words that a pass is given stand in front of the gates, and by node the literal of its word, where it has one.
#[derive(Drop)]
pub(crate) struct Sources {
    pub(crate) words: Vec<u32>,
    pub(crate) literals: Vec<Literal>,
}

/// Whether a node is given.
pub(crate) fn is_source(name: Name) -> bool
    ensures { result ≡ is_source_name name }
{
    match name {
        Name::Base(_) => true,
        Name::Input(_, _) => true,
        Name::Not(_) => false,
        Name::And(_) => false,
        Name::View(_) => false,
        Name::Transition(_) => false,
    }
}

/// The number of the word that a node is given, if it is.
pub(crate) fn word_of(name: Name, n: usize) -> Option<u32>
    requires { n < 2 ^ 30 }
    ensures { result ≡ source_word name n }
{
    match name {
        Name::Base(p) => Some(p),
        Name::Input(_, _) => Some(n as u32),
        Name::Not(_) => None,
        Name::And(_) => None,
        Name::View(_) => None,
        Name::Transition(_) => None,
    }
}

impl Sources {
    /// Adds a node, with its word if it is marked and given.
    fn add(&mut self, net: &Net, n: usize, marks: &[bool]) -> Result<(), AllocError>
        requires node { n < length (gates_of net.now) }
        requires count { length marks.now ≡ length (gates_of net.now) }
        requires so_far { AreSourcesOf (gates_of net.now) marks.now n self.old.words.items self.old.literals.items }
        ensures { OnOk result (AreSourcesOf (gates_of net.now) marks.now (n + 1) self.new.words.items self.new.literals.items) }
    {
        if !marks[n] {
            self.literals.push(0)?;
            return Ok(());
        }
        let (name, _reads) = net.gate(n);
        let Some(word) = word_of(name, n) else {
            self.literals.push(0)?;
            return Ok(());
        };
        let index = self.words.len() as u32;
        self.words.push(word)?;
        self.literals.push(given(index))?;
        Ok(())
    }
}

/// A number that is above all of a list.
pub(crate) fn above(numbers: &[u32]) -> usize
    ensures { All (λ n. n < result) numbers.now }
{
    let mut most = 0;
    for i in 0..numbers.len() {
        most = most.max(numbers[i] as usize + 1);
    }
    most
}

/// The words of the marked nodes that are given.
pub(crate) fn sources_of(alloc: Global, net: &Net, marks: &[bool]) -> Result<Sources, AllocError>
    requires { length marks.now ≡ length (gates_of net.now) }
    ensures { IfOk result (λ s. AreSourcesOf (gates_of net.now) marks.now (length (gates_of net.now)) s.words.items s.literals.items) }
{
    let mut sources = Sources {
        words: Vec::new(alloc),
        literals: Vec::with_capacity(alloc, net.nodes())?,
    };
    for n in 0..net.nodes() {
        sources.add(net, n, marks)?;
    }
    Ok(sources)
}

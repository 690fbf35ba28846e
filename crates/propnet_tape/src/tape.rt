//! A tape.
ghost use Rattle.std.specs.Prelude.{◌≡◌, ◌+◌, ◌*◌, ◌<◌, length, All};
ghost use Rattle.propnet_tape.specs.Values.{slots, IsTape};
ghost use Rattle.propnet_tape.specs.Props.{tape_props};

use crate::gates::{Gate, Literal};

/// The and gates that some nodes of a network come to, in order. A pass writes two words for each: its values in 64 lanes, and
/// their negations. In front of them stand the constants and the given words, likewise with their negations.
#[derive(Drop)]
pub struct Tape {
    /// How many words stand in front of the gates.
    pub(crate) first: u32,
    /// Which of the words that a pass is given stand there.
    pub(crate) sources: Vec<u32>,
    /// Their numbers are below this one.
    pub(crate) most: usize,
    pub(crate) gates: Vec<Gate>,
    /// The literal of each kept node.
    pub(crate) kept: Vec<Literal>,
    pub ghost ordered: { IsTape first gates.items } by { Prim.hlevel tape_props },
    pub ghost given: { first ≡ 2 + 2 * length sources.items },
    pub ghost sources_below: { All (λ n. n < most) sources.items },
    pub ghost kept_within: { All (λ l. l < slots first gates.items) kept.items },
}

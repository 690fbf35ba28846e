//! What a description may have too much of.
use std::fmt;

/// Of what a description has more than a limit allows, once its rules are instantiated.
#[derive(Clone, Copy, Debug, PartialEq, Eq)]
pub enum Excess {
    /// There are more base propositions than the limit.
    Base,
    /// The roles together have more inputs than the limit.
    Inputs,
    /// There are more kept instances than the limit.
    Instances,
    /// The canonical text of the head of a kept instance is longer than the limit.
    Text,
}

impl fmt::Display for Excess {
    ghost use Rattle.std.specs.Prelude.{Some};
    ghost use Rattle.statement.specs.LimitTexts.{excess_words};

    ghost output = { λ excess. Some (excess_words excess) };

    fn fmt<W: fmt::Write>(&self, f: &mut fmt::Formatter<W>) -> fmt::Result {
        match self {
            Excess::Base => f.write_str("base"),
            Excess::Inputs => f.write_str("inputs"),
            Excess::Instances => f.write_str("instances"),
            Excess::Text => f.write_str("text"),
        }
    }
}

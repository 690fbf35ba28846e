//! Where an atom stands in play.

/// Where an atom stands in play. Base propositions and the inputs of each role are numbered from 0 in
/// printed order, and roles from 0 in the order of their first fact.
#[derive(Clone, Copy, Debug, PartialEq, Eq)]
pub enum Kind {
    /// Its relation is fixed: it holds in every state or in none.
    Fixed,
    /// `true` of a base proposition.
    Now(u32),
    /// `does` of a role and one of its inputs.
    Does(u32, u32),
    /// `next` of a base proposition.
    Next(u32),
    /// `legal` of a role and one of its inputs.
    Legal(u32, u32),
    /// `goal` of a role and a value from 0 to 100, in decimal without a leading zero.
    Goal(u32, u8),
    /// `terminal`.
    Terminal,
    /// Any other atom, also one of a word above whose term is no base proposition, role, input or value.
    Other,
}

//! What a node of a network stands for.

/// What a node stands for: a base proposition, an input of a role, the not gate of an atom, the and
/// gate of a kept instance, the view of an atom, or the transition of a base proposition.
#[derive(Clone, Copy, Debug, PartialEq, Eq)]
pub enum Name {
    Base(u32),
    Input(u32, u32),
    Not(u32),
    And(u32),
    View(u32),
    Transition(u32),
}

//! What is found of heads without effect.

/// What a head without effect on play lacks.
#[derive(Clone, Copy, Debug, PartialEq, Eq)]
pub enum Lack {
    /// It is an `init` or a `next` of what is no base proposition.
    Base,
    /// It is a `legal` of no role, or of what is no input of it.
    Input,
    /// It is a `goal` of no role, or whose value is no number from 0 to 100.
    Goal,
}

/// A head of an item that has no effect on play, what it lacks, and how many more different ones the item has.
#[derive(Drop)]
pub struct Dropped {
    /// The place of the item in the list.
    pub place: usize,
    pub lack: Lack,
    /// The text of the head.
    pub text: Vec<u8>,
    pub more: usize,
}

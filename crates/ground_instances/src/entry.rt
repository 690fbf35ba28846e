//! Where an instance stands in a list.

/// A kept instance but for its alternative, by the numbers of its head and of its body. The head's is that of a term while the relations are
/// listed, that of an atom once all atoms have numbers.
#[derive(Drop)]
pub struct Entry {
    /// The number of its head's atom.
    pub head: u32,
    /// The number of its body: instances may share one.
    pub body: u32,
}

/// Instances of one alternative, which stand one behind the other, up to the first of the next run.
#[derive(Drop)]
pub struct AlternativeRun {
    /// The place of the alternative, from 0.
    pub alternative: u32,
    /// The place of the first of the instances.
    pub first: u32,
}

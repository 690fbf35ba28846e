//! What is done with a literal for a row.

/// A term that is compared.
#[derive(Clone, Copy, Drop)]
pub enum Side {
    /// The one that a row has at this place.
    Place(u32),
    /// The one of this number.
    Term(u32),
}

/// What is done with a literal for a row. It is the same for all rows of an alternative.
#[derive(Clone, Copy, Drop)]
pub enum LiteralStep {
    /// Nothing: the rows of the join settle the literal.
    Pass,
    /// The number of its atom is read, which stands at this place of the row.
    Read(u32),
    /// It is a `distinct` of two terms, and negated or not: they are compared.
    Compare(bool, Side, Side),
    /// It is a `distinct` of two terms that are written alike, and negated or not: it passes where it is negated.
    Same(bool),
    /// Its atom is built.
    Build,
}

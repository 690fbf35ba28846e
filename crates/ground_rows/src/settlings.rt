//! What is found out of parts, the lists of which may be terms that are there.

/// What is found out of parts.
#[derive(Clone, Copy, Drop)]
pub enum Settled {
    /// They are settled, and stand from this place on.
    From(usize),
    /// One is a list that is no term.
    Absent,
    /// One is a list that has a variable.
    Open,
}

//! Which atoms name what is marked.

/// Which atoms name a number.
#[derive(Clone, Copy)]
pub enum Naming {
    /// `next` names base propositions.
    ByNext,
    /// `legal` names moves of this role.
    ByLegal(usize),
}

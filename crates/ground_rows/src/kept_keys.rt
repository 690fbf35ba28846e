//! What is kept of the keys of atoms.

/// A number of a key that a row tells.
#[derive(Clone, Copy, Drop)]
pub struct Blank {
    /// Where in the key it stands.
    pub at: usize,
    /// The place of its value in a row.
    pub place: usize,
    /// By what the hash of the key goes up for each one more.
    pub weight: usize,
}

/// The key of an atom, of which only the values of variables are to be filled in.
#[derive(Drop)]
pub struct BlankKey {
    /// The number of the word, and behind it that of each constant and of each list, and 0 for each variable.
    pub key: Vec<u32>,
    /// The hash of this key.
    pub hash: usize,
    /// The numbers that a row tells.
    pub blanks: Vec<Blank>,
}

/// What is kept of a literal whose atom has no variables in lists.
#[derive(Drop)]
pub struct Sought {
    /// The key of the atom; none where one of its lists was no term when the alternative began to be listed. Then the atom is none of those
    /// found so far, in any row.
    pub key: Option<BlankKey>,
    /// The last place whose value the atom stands on; 0 if it stands on none.
    pub last: usize,
}

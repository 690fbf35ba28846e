//! By which limits rules are instantiated.

/// How many inputs an instantiation may have, all roles together: all other limits are the same.
#[derive(Clone, Copy, Debug, PartialEq, Eq)]
pub enum Width {
    /// As many as every command takes: 4,096.
    Plain,
    /// As many as rules may have that are written out of the whole language: 65,536.
    Wide,
}

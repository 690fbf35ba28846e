//! The bounds of a search.

/// The bounds that a value is searched for between.
#[derive(Clone, Copy)]
pub struct SearchWindow {
    pub low: i16,
    pub high: i16,
}

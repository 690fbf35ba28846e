//! What is known of a worth.

/// At a number of turns at least `lo` and at most `hi`. If the upper bound lasts, it holds at every greater number of turns too.
#[derive(Debug, Clone, Copy, PartialEq, Eq)]
pub struct Bounds {
    pub lo: u8,
    pub hi: u8,
    pub lasts: bool,
}

//! How much there may be.

/// The most that a description may have of each.
#[derive(Clone, Copy, Drop)]
pub struct Most {
    pub instances: usize,
    pub text: usize,
    pub base: usize,
    pub inputs: usize,
}

//! Which kind of reply it is.

/// What kind of reply it is.
#[derive(Clone, Copy, Debug, PartialEq, Eq)]
pub enum Status {
    /// The output answers the command.
    Answer,
    /// The output is the one line that names the fault of the input.
    Refused,
}

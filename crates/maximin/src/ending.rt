//! Whether a search may end without an answer.
use crate::sight::Sight;
use std::convert::Infallible;

/// Why a search ends without an answer.
pub trait Ending {
    /// Ends a search that is to end, by what it sees of others or by how long it has been.
    fn check(sight: &Sight) -> Result<(), Self>;
}

/// A search whose answer is wanted has one.
impl Ending for Infallible {
    fn check(sight: &Sight) -> Result<(), Infallible> {
        let _ = sight;
        Ok(())
    }
}

/// The search that is helped is over.
#[derive(Clone, Copy)]
pub struct Dismissed;

impl Ending for Dismissed {
    fn check(sight: &Sight) -> Result<(), Dismissed> {
        if sight.is_over() {
            return Err(Dismissed);
        }
        Ok(())
    }
}

/// The search is longer than one that a worker does before it asks for help.
#[derive(Clone, Copy)]
pub struct TooLong;

impl Ending for TooLong {
    fn check(sight: &Sight) -> Result<(), TooLong> {
        if sight.is_long() {
            return Err(TooLong);
        }
        Ok(())
    }
}

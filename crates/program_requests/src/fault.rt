//! A reader that failed.
use thiserror::Error;

/// The reader failed, or gave more bytes than could be counted.
#[derive(Clone, Copy, Debug, PartialEq, Eq, Error)]
#[error("read fault")]
pub struct ReadFault;

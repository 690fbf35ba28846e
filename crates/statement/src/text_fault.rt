//! Why a text stands for no trees.
use std::alloc::AllocError;
use std::fmt;
use thiserror::Error;

/// The fault of a text, with the offset where it stands, or want of memory.
#[derive(Clone, Copy, Debug, PartialEq, Eq, Error)]
pub enum KifFault {
    /// The text is longer than the limit.
    TooLong,
    /// The byte is outside comments, and is no white space, no name's byte and no bracket.
    BadByte(usize),
    /// The bracket opens a list while as many as the limit allows are open.
    TooDeep(usize),
    /// Nothing closes the list that this bracket opens, and it is the first such bracket.
    Unclosed(usize),
    /// The bracket closes a list while none is open.
    Unopened(usize),
    /// The name that begins here is longer than the limit.
    NameTooLong(usize),
    /// A growth was refused.
    NoMemory,
}

impl fmt::Display for KifFault {
    ghost use Rattle.std.specs.Prelude.{Some};
    ghost use Rattle.statement.specs.TextFaults.{text_fault_words};

    ghost output = { λ fault. Some (text_fault_words fault) };

    fn fmt<W: fmt::Write>(&self, f: &mut fmt::Formatter<W>) -> fmt::Result {
        match self {
            KifFault::TooLong => f.write_str("K1 TooLong"),
            KifFault::BadByte(offset) => write!(f, "K2 BadByte {offset}"),
            KifFault::TooDeep(offset) => write!(f, "K3 TooDeep {offset}"),
            KifFault::Unclosed(offset) => write!(f, "K4 Unclosed {offset}"),
            KifFault::Unopened(offset) => write!(f, "K5 Unopened {offset}"),
            KifFault::NameTooLong(offset) => write!(f, "K6 NameTooLong {offset}"),
            KifFault::NoMemory => f.write_str("K9 NoMemory"),
        }
    }
}

impl From<AllocError> for KifFault {
    ghost use Rattle.std.specs.Prelude.{◌≡◌};
    ghost use Rattle.statement.specs.declared.text_fault.KifFault.TheVariants.{NoMemory};

    ghost from_gives = { λ _ e. e ≡ NoMemory };

    fn from(_refused: AllocError) -> KifFault {
        Self::NoMemory
    }
}

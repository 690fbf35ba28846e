//! Why a history cannot be played.
use std::alloc::AllocError;
use std::fmt;
use thiserror::Error;

/// The fault of a history, with the turn where it stands, counted from 1, or want of memory.
#[derive(Clone, Copy, Debug, PartialEq, Eq, Error)]
pub enum HistoryFault {
    /// The turn is not a list with a part for each role. The first such turn stands before all other faults.
    BadForm(usize),
    /// The second number is the first role whose part of the turn is not one of its legal moves.
    NotLegal(usize, usize),
    /// The game has ended before the turn.
    Over(usize),
    /// The game has not ended before the turn, and some role has no legal move.
    Stuck(usize),
    /// A growth was refused.
    NoMemory,
}

/// The number and name of the fault, and its turn. `add_history_refusal` adds the name of the role.
impl fmt::Display for HistoryFault {
    ghost use Rattle.std.specs.Prelude.{Some};
    ghost use Rattle.statement.specs.HistoryTexts.{history_fault_words};

    ghost output = { λ fault. Some (history_fault_words fault) };

    fn fmt<W: fmt::Write>(&self, f: &mut fmt::Formatter<W>) -> fmt::Result {
        match self {
            HistoryFault::BadForm(turn) => write!(f, "H1 BadForm {turn}"),
            HistoryFault::NotLegal(turn, _) => write!(f, "H2 NotLegal {turn}"),
            HistoryFault::Over(turn) => write!(f, "H3 Over {turn}"),
            HistoryFault::Stuck(turn) => write!(f, "H4 Stuck {turn}"),
            HistoryFault::NoMemory => f.write_str("H9 NoMemory"),
        }
    }
}

impl From<AllocError> for HistoryFault {
    ghost use Rattle.std.specs.Prelude.{◌≡◌};
    ghost use Rattle.statement.specs.declared.history_fault.HistoryFault.TheVariants.{NoMemory};

    ghost from_gives = { λ _ e. e ≡ NoMemory };

    fn from(_refused: AllocError) -> HistoryFault {
        HistoryFault::NoMemory
    }
}

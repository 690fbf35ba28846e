//! Why a text is not written out.
use statement::{KifFault, RuleFault};
use std::alloc::AllocError;
use std::fmt;
use thiserror::Error;
use unroll_datalog::Excess;

/// Why a text is not written out: it stands for no trees, these are no lawful items of the whole language, or what is to be
/// written passes a limit.
#[derive(Clone, Copy, Debug, PartialEq, Eq, Error)]
pub enum UnrollFault {
    /// The text stands for no trees.
    Text(KifFault),
    /// An item is not lawful, or none states a role.
    Rules(RuleFault),
    /// The relation of the item, numbered from 1, rests on itself through a negated atom of its body.
    NotStratified(usize),
    /// What is to be written passes a limit.
    TooMany(Excess),
    /// The item, numbered from 1, asks `base` or `input`, and no item states it.
    Unstated(usize),
    /// A growth was refused.
    NoMemory,
}

impl fmt::Display for UnrollFault {
    ghost use Rattle.std.specs.Prelude.{Some};
    ghost use Rattle.unroll_strata.specs.FaultTexts.{unroll_fault_words};

    ghost output = { λ fault. Some (unroll_fault_words fault) };

    fn fmt<W: fmt::Write>(&self, f: &mut fmt::Formatter<W>) -> fmt::Result {
        match self {
            UnrollFault::Text(fault) => write!(f, "{fault}"),
            UnrollFault::Rules(fault) => write!(f, "{fault}"),
            UnrollFault::NotStratified(item) => write!(f, "U1 NotStratified {item}"),
            UnrollFault::TooMany(Excess::Facts) => f.write_str("U2 TooMany facts"),
            UnrollFault::TooMany(Excess::Instances) => f.write_str("U2 TooMany instances"),
            UnrollFault::TooMany(Excess::Layers) => f.write_str("U2 TooMany layers"),
            UnrollFault::TooMany(Excess::Text) => f.write_str("U2 TooMany text"),
            UnrollFault::TooMany(Excess::Items) => f.write_str("U2 TooMany items"),
            UnrollFault::Unstated(item) => write!(f, "U3 Unstated {item}"),
            UnrollFault::NoMemory => f.write_str("U9 NoMemory"),
        }
    }
}

impl From<AllocError> for UnrollFault {
    ghost use Rattle.std.specs.Prelude.{◌≡◌};
    ghost use Rattle.unroll_strata.specs.declared.fault.UnrollFault.TheVariants.{NoMemory};

    ghost from_gives = { λ _ e. e ≡ NoMemory };

    fn from(_refused: AllocError) -> UnrollFault {
        UnrollFault::NoMemory
    }
}

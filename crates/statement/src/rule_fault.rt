//! Why a list of trees is no set of rules.
use std::alloc::AllocError;
use std::fmt;
use thiserror::Error;

/// Of what an item, or the list of items, has more than a limit allows.
#[derive(Clone, Copy, Debug, PartialEq, Eq)]
pub enum RuleExcess {
    /// There are more items than the limit.
    Rules,
    /// The item has more different variables than the limit.
    Variables,
    /// The item stands for more alternatives than the limit.
    Alternatives,
    /// The item states one role more than the limit.
    Roles,
}

impl fmt::Display for RuleExcess {
    ghost use Rattle.std.specs.Prelude.{Some};
    ghost use Rattle.statement.specs.RuleFaultTexts.{rule_excess_words};

    ghost output = { λ excess. Some (rule_excess_words excess) };

    fn fmt<W: fmt::Write>(&self, f: &mut fmt::Formatter<W>) -> fmt::Result {
        match self {
            RuleExcess::Rules => f.write_str("rules"),
            RuleExcess::Variables => f.write_str("variables"),
            RuleExcess::Alternatives => f.write_str("alternatives"),
            RuleExcess::Roles => f.write_str("roles"),
        }
    }
}

/// The fault of a list of items, with the number of the first item that has it, or want of memory.
/// Items are numbered from 1.
#[derive(Clone, Copy, Debug, PartialEq, Eq, Error)]
pub enum RuleFault {
    /// The tree is no item.
    BadForm(usize),
    /// A word of the language has another number of arguments, or stands where it may not.
    BadKeyword(usize),
    /// An alternative of the item is not safe.
    Unsafe(usize),
    /// The relation of a body atom is that of the head, or depends on it.
    Recursive(usize),
    /// The head's relation may not depend on the relation of a body atom.
    BadDependence(usize),
    /// No item states a role.
    NoRole,
    /// The item passes a limit.
    TooMany(usize, RuleExcess),
    /// A growth was refused.
    NoMemory,
}

impl fmt::Display for RuleFault {
    ghost use Rattle.std.specs.Prelude.{Some};
    ghost use Rattle.statement.specs.RuleFaultTexts.{rule_fault_words};

    ghost output = { λ fault. Some (rule_fault_words fault) };

    fn fmt<W: fmt::Write>(&self, f: &mut fmt::Formatter<W>) -> fmt::Result {
        match self {
            RuleFault::BadForm(item) => write!(f, "G1 BadForm {item}"),
            RuleFault::BadKeyword(item) => write!(f, "G2 BadKeyword {item}"),
            RuleFault::Unsafe(item) => write!(f, "G3 Unsafe {item}"),
            RuleFault::Recursive(item) => write!(f, "G4 Recursive {item}"),
            RuleFault::BadDependence(item) => write!(f, "G5 BadDependence {item}"),
            RuleFault::NoRole => f.write_str("G6 NoRole"),
            RuleFault::TooMany(item, excess) => write!(f, "G7 TooMany {item} {excess}"),
            RuleFault::NoMemory => f.write_str("G9 NoMemory"),
        }
    }
}

impl From<AllocError> for RuleFault {
    ghost use Rattle.std.specs.Prelude.{◌≡◌};
    ghost use Rattle.statement.specs.declared.rule_fault.RuleFault.TheVariants.{NoMemory};

    ghost from_gives = { λ _ e. e ≡ NoMemory };

    fn from(_refused: AllocError) -> RuleFault {
        RuleFault::NoMemory
    }
}

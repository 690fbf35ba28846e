//! The line of a refusal, taken apart.
use rules_profile::{RuleExcess, RuleFault};

/// The fault of a history, as the line of its refusal names it.
#[derive(Clone, Copy)]
pub enum PlayFault<'a> {
    /// The turn of this number is no list with a move for each role. At turn 0 the text can't be read.
    BadForm(usize),
    /// In this turn the move of the role of this name is not legal.
    NotLegal(usize, &'a [u8]),
    /// The game had ended before this turn.
    Over(usize),
    /// Before this turn some role had no legal move.
    Stuck(usize),
}

/// What a line has behind its first words, of this number.
fn behind_words(line: &[u8], count: usize) -> &[u8] {
    let mut left = count;
    for (index, byte) in line.iter().enumerate() {
        if left == 0 {
            return line.get(index..).unwrap_or(b"");
        }
        if *byte == b' ' {
            left -= 1;
        }
    }
    b""
}

/// A line without its end.
fn without_end(line: &[u8]) -> &[u8] {
    match line {
        [front @ .., b'\n'] => front,
        _ => line,
    }
}

/// The number that stands at the beginning of bytes.
fn leading_number(bytes: &[u8]) -> usize {
    let mut number: usize = 0;
    for byte in bytes {
        if !byte.is_ascii_digit() {
            return number;
        }
        number = number
            .saturating_mul(10)
            .saturating_add(usize::from(byte & 15));
    }
    number
}

/// What an item has too many of, by the word that a line has for it.
fn excess_named(word: &[u8]) -> Option<RuleExcess> {
    match word {
        b"rules" => Some(RuleExcess::Rules),
        b"variables" => Some(RuleExcess::Variables),
        b"alternatives" => Some(RuleExcess::Alternatives),
        b"roles" => Some(RuleExcess::Roles),
        _ => None,
    }
}

/// The fault of rules that the line of a refusal names, if it names one.
pub fn rule_fault_in(line: &[u8]) -> Option<RuleFault> {
    let number = leading_number(behind_words(line, 3));
    match line.get(8..10)? {
        b"G1" => Some(RuleFault::BadForm(number)),
        b"G2" => Some(RuleFault::BadKeyword(number)),
        b"G3" => Some(RuleFault::Unsafe(number)),
        b"G4" => Some(RuleFault::Recursive(number)),
        b"G5" => Some(RuleFault::BadDependence(number)),
        b"G6" => Some(RuleFault::NoRole),
        b"G7" => {
            let excess = excess_named(without_end(behind_words(line, 4)))?;
            Some(RuleFault::TooMany(number, excess))
        }
        _ => None,
    }
}

impl<'a> PlayFault<'a> {
    /// The fault of a history that the line of a refusal names, if it names one.
    pub fn named_by(line: &'a [u8]) -> Option<PlayFault<'a>> {
        let turn = leading_number(behind_words(line, 3));
        match line.get(8..10)? {
            b"H1" => Some(PlayFault::BadForm(turn)),
            b"H2" => Some(PlayFault::NotLegal(turn, without_end(behind_words(line, 4)))),
            b"H3" => Some(PlayFault::Over(turn)),
            b"H4" => Some(PlayFault::Stuck(turn)),
            _ => None,
        }
    }

    /// The number of the turn.
    pub fn turn(&self) -> usize {
        match self {
            PlayFault::BadForm(turn)
            | PlayFault::NotLegal(turn, _)
            | PlayFault::Over(turn)
            | PlayFault::Stuck(turn) => *turn,
        }
    }
}

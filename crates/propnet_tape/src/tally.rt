//! How many terms have a literal.
ghost use Rattle.std.specs.Prelude.{◌<◌, length, IfSome};

use crate::gates::Literal;
use std::alloc::{AllocError, Global};

/// What is known of a literal.
#[derive(Clone, Copy)]
struct Seen {
    /// The round in which it was counted last.
    round: u32,
    /// How many terms had it then.
    count: u32,
    /// How many terms had it as their key then.
    members: u32,
    /// Where the first of these is to stand.
    start: u32,
}

/// Counts of literals. Each round counts anew. No contract rests on what they say.
#[derive(Drop)]
pub(crate) struct Tally {
    round: u32,
    seen: Vec<Seen>,
}

impl Tally {
    /// No literals yet.
    pub(crate) fn new(alloc: Global) -> Self {
        Tally {
            round: 0,
            seen: Vec::new(alloc),
        }
    }

    /// Makes room for so many literals.
    pub(crate) fn make_room(&mut self, literals: usize) -> Result<(), AllocError> {
        let none = Seen {
            round: 0,
            count: 0,
            members: 0,
            start: 0,
        };
        for _literal in self.seen.len()..literals {
            self.seen.push(none)?;
        }
        Ok(())
    }

    /// Begins a round.
    pub(crate) fn begin(&mut self) {
        self.round = self.round.wrapping_add(1);
    }

    /// Counts a literal, and tells whether it was counted before in this round.
    fn count_one(&mut self, literal: Literal) -> bool {
        let round = self.round;
        let Some(seen) = self.seen.get_mut(literal as usize) else {
            return false;
        };
        if seen.round == round {
            seen.count = seen.count.wrapping_add(1);
            return true;
        }
        *seen = Seen {
            round,
            count: 1,
            members: 0,
            start: 0,
        };
        false
    }

    /// Counts the literals of a term, and tells whether one was counted before in this round.
    pub(crate) fn count(&mut self, term: &[Literal]) -> bool {
        let mut is_shared = false;
        for literal in term {
            is_shared |= self.count_one(*literal);
        }
        is_shared
    }

    /// How often a literal was counted when it was counted last.
    fn count_of(&self, literal: Literal) -> u32 {
        match self.seen.get(literal as usize) {
            Some(seen) => seen.count,
            None => 0,
        }
    }

    /// Where the literal of a term that is counted most often stands, or the first of these.
    pub(crate) fn commonest(&self, term: &[Literal]) -> Option<usize>
        ensures { IfSome result (λ i. i < length term.now) }
    {
        let mut best = None;
        let mut most = 0;
        for i in 0..term.len() {
            let count = self.count_of(term[i]);
            if best.is_none() || count > most {
                best = Some(i);
                most = count;
            }
        }
        best
    }

    /// Counts one more term with this key, and tells how many there were.
    pub(crate) fn join(&mut self, key: Literal) -> u32 {
        let Some(seen) = self.seen.get_mut(key as usize) else {
            return 0;
        };
        let members = seen.members;
        seen.members = members.wrapping_add(1);
        members
    }

    /// Lets the terms with this key stand from a place on, and tells the place behind them.
    pub(crate) fn settle(&mut self, key: Literal, start: u32) -> u32 {
        let Some(seen) = self.seen.get_mut(key as usize) else {
            return start;
        };
        seen.start = start;
        start.wrapping_add(seen.members)
    }

    /// Where the term with this key and this number is to stand: the first behind all others.
    pub(crate) fn place(&self, key: Literal, turn: u32) -> usize {
        let Some(seen) = self.seen.get(key as usize) else {
            return 0;
        };
        let order = if turn == 0 { seen.members } else { turn };
        seen.start.wrapping_add(order.wrapping_sub(1)) as usize
    }
}

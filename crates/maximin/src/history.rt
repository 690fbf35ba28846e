//! What is remembered of moves: how much search they cut off.
use game::{Game, Joint};
use search_table::SharedHistory;
use std::alloc::{AllocError, Global};
use std::sync::Arc;

/// Whose moves differ in a run: those of one role, or those of all others.
#[derive(Clone, Copy)]
pub enum Movers {
    Role(usize),
    Others(usize),
}

impl Movers {
    /// Whether a role is one of them.
    fn has(self, role: usize) -> bool {
        match self {
            Movers::Role(own) => role == own,
            Movers::Others(own) => role != own,
        }
    }
}

/// More turns to come count for a cut as so many do.
const MOST_DOUBLINGS: u32 = 48;

/// The fewest turns behind joint moves that are worth an order.
const FEWEST_TURNS: u32 = 2;

/// How much each move of each role cut off. It says in which order moves are searched, and no answer rests on it. Where a search has
/// several workers they have one, in which the first of them counts.
#[derive(Drop)]
pub struct History {
    counts: Arc<SharedHistory>,
    /// Moves with more turns behind them are searched as they are printed.
    ranked: u32,
    /// Whether cuts are counted here.
    counts_cuts: bool,
}

/// What no search has cut off yet.
pub fn new_counts<G: Game>(alloc: Global, game: &G) -> Result<SharedHistory, AllocError> {
    let mut moves = Vec::new(alloc);
    for role in 0..game.roles() {
        moves.push(game.moves(role))?;
    }
    SharedHistory::new(alloc, moves.as_slice())
}

impl History {
    /// The history of no search yet.
    pub fn new<G: Game>(alloc: Global, game: &G) -> Result<History, AllocError> {
        let counts = new_counts(alloc, game)?;
        Ok(History {
            counts: Arc::new(alloc, counts)?,
            ranked: u32::MAX,
            counts_cuts: true,
        })
    }

    /// The history that others have too.
    pub fn of(counts: &Arc<SharedHistory>) -> Result<History, AllocError> {
        Ok(History {
            counts: Arc::try_clone(counts)?,
            ranked: u32::MAX,
            counts_cuts: true,
        })
    }

    /// The same for one who helps another: moves are put in order that have at most so many turns behind them, by the cuts of the other
    /// alone. Who helps is in another part of the game, where other moves cut off most.
    pub fn of_another(counts: &Arc<SharedHistory>, ranked: u32) -> Result<History, AllocError> {
        Ok(History {
            counts: Arc::try_clone(counts)?,
            ranked,
            counts_cuts: false,
        })
    }

    /// Whether moves with so many turns behind them are put in order.
    pub fn ranks(&self, turns: u32) -> bool {
        (FEWEST_TURNS..=self.ranked).contains(&turns)
    }

    /// How much the moves of a joint move cut off.
    pub fn score(&self, joint: &Joint) -> u64 {
        let mut score: u64 = 0;
        for (role, number) in joint.as_slice().iter().enumerate() {
            score = score.saturating_add(self.counts.score(role, *number));
        }
        score
    }

    /// Counts for the movers' moves that the search of a joint move, with so many turns behind it, cut off those that were left. A cut
    /// counts twice as much with each turn that was to come, as it saves more where more of them are.
    pub fn note_cut(&self, joint: &Joint, movers: Movers, turns: u32) {
        if !self.counts_cuts {
            return;
        }
        let weight = 1u64 << turns.min(MOST_DOUBLINGS);
        for (role, number) in joint.as_slice().iter().enumerate() {
            if movers.has(role) {
                self.counts.note(role, *number, weight);
            }
        }
    }
}

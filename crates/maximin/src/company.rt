//! What the workers of a search share.
ghost use Rattle.std.specs.Prelude.{◌≡◌, IfSome};
ghost use Rattle.maximin.specs.Company.{company_game};

use crate::history::new_counts;
use game::{Game, Question};
use search_table::{Marks, SharedHistory, SharedTable};
use std::alloc::Global;
use std::sync::Arc;

/// How many states can be marked at once.
const MARKS: u32 = 4_096;

/// What all workers of a search share: bounds of what states are worth, how much moves cut off, and which states are being searched.
#[derive(Drop)]
pub struct Company<G: Game> {
    pub(crate) tables: Arc<SharedTable<G>>,
    pub(crate) history: Arc<SharedHistory>,
    pub(crate) marks: Arc<Marks>,
}

impl<G: Game> Company<G> {
    /// For a question about a game, with tables that take at most so many bytes. There is none where these are too few or refused.
    pub fn within(alloc: Global, game: &G, asked: Question, bytes: usize) -> Option<Company<G>>
        ensures { IfSome result (λ company. company_game company ≡ game.now) }
    {
        let tables = SharedTable::within(alloc, game, asked, bytes)?;
        let tables = Arc::new(alloc, tables).ok()?;
        let history = new_counts(alloc, game).ok()?;
        let history = Arc::new(alloc, history).ok()?;
        let marks = Marks::new(alloc, MARKS).ok()?;
        let marks = Arc::new(alloc, marks).ok()?;
        Some(Company {
            tables,
            history,
            marks,
        })
    }

    /// Forgets how much moves cut off. A search that ended early has counted in one part of the game alone, and the same search begun
    /// anew takes other ways by these counts than those on which it finds what it had found.
    pub fn forget_cuts(&self) {
        self.history.forget();
    }

    /// Says that a search begins, before any worker does: nobody has a state in hand.
    pub fn begin(&self) {
        self.marks.begin();
    }

    /// Says that the search is over: what others search to help with it is not wanted any more.
    pub fn end(&self) {
        self.marks.end();
    }
}

//! The memory of a search that stays from one question about a game to the next, with what it keeps of states.
ghost use Rattle.std.specs.Prelude.{◌≡◌, ◌≤◌, true, None, IfOk, IfSome};
ghost use Rattle.program_searches.specs.Kept.{IsKeptSearch, IsSearchFor};

use crate::play::Play;
use game::{AtBound, Game, Question};
use maximin::Room;
use std::alloc::{AllocError, Global};

/// Where a question looks further ahead than all before, the memory is made for so many turns more than it asks for.
const MORE_TURNS: u32 = 8;

/// The memory of a search, and the question that it was made for. It serves each question about the same game that looks no further ahead,
/// and is of use where that is for the same role and the same worth at the bound.
#[derive(Drop)]
pub struct KeptSearch<G: Game> {
    pub(crate) play: Play<G>,
    made_for: Question,
    bytes: usize,
}

/// Whether two worths of a state at the bound are the same.
fn is_same(at: AtBound, other: AtBound) -> bool {
    match (at, other) {
        (AtBound::Zero, AtBound::Zero) | (AtBound::Goal, AtBound::Goal) => true,
        (AtBound::Unfinished(worth), AtBound::Unfinished(another)) => worth.value == another.value,
        _ => false,
    }
}

impl<G: Game> KeptSearch<G> {
    /// Memory for a question. What is kept of states takes at most so many bytes.
    pub(crate) fn new(
        alloc: Global,
        game: &G,
        asked: Question,
        bytes: usize,
    ) -> Result<KeptSearch<G>, AllocError>
        ensures kept { IfOk result (IsKeptSearch G.Game game.now) }
        ensures made { IfOk result (λ kept. kept.made_for ≡ asked) }
    {
        let room = Room::with_table(alloc, game, asked, bytes)?;
        let start = game.fresh()?;
        let play = Play::new(alloc, game, start, room)?;
        Ok(KeptSearch {
            play,
            made_for: asked,
            bytes,
        })
    }

    /// Whether the memory was made for questions such as this, in which as many bytes may be taken.
    fn is_alike(&self, asked: Question, bytes: usize) -> bool {
        self.bytes == bytes
            && self.made_for.role == asked.role
            && is_same(self.made_for.at, asked.at)
    }

    /// Whether the memory looks as far ahead as a question.
    fn reaches(&self, asked: Question) -> bool
        ensures { result ≡ true → asked.depth ≤ self.now.made_for.depth }
    {
        asked.depth <= self.made_for.depth
    }
}

/// Memory for a question that looks further ahead than those before: for some turns more, where that can be had.
fn deeper_search<G: Game>(
    alloc: Global,
    game: &G,
    asked: Question,
    bytes: usize,
) -> Result<KeptSearch<G>, AllocError>
    ensures { IfOk result (IsSearchFor G.Game game.now asked.depth) }
{
    let further = Question {
        depth: asked.depth.saturating_add(MORE_TURNS),
        ..asked
    };
    match KeptSearch::new(alloc, game, further, bytes) {
        Ok(made) => Ok(made),
        Err(_) => KeptSearch::new(alloc, game, asked, bytes),
    }
}

/// Memory for a question: what is kept, where it is of use and looks as far ahead, and else new. Nothing stays behind.
pub(crate) fn search_for_question<G: Game>(
    alloc: Global,
    game: &G,
    asked: Question,
    bytes: usize,
    kept: &mut Option<KeptSearch<G>>,
) -> Result<KeptSearch<G>, AllocError>
    requires { IfSome kept.old (IsKeptSearch G.Game game.now) }
    ensures search { IfOk result (IsSearchFor G.Game game.now asked.depth) }
    ensures taken { kept.new ≡ None }
{
    let Some(old) = kept.take() else {
        return KeptSearch::new(alloc, game, asked, bytes);
    };
    if !old.is_alike(asked, bytes) {
        return KeptSearch::new(alloc, game, asked, bytes);
    }
    if old.reaches(asked) {
        return Ok(old);
    }
    drop(old);
    deeper_search(alloc, game, asked, bytes)
}

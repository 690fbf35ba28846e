//! A search that is left to do.
ghost use Rattle.std.specs.Prelude.{◌≡◌, ◌<◌, ◌≤◌, pos, IfOk};
ghost use Rattle.statement.specs.Value.{value, choice_of};
ghost use Rattle.statement.specs.Answers.{answer};
ghost use Rattle.maximin.specs.Room.{IsRoomOf, room_depth};
ghost use Rattle.program_searches.specs.Histories.{named};
ghost use Rattle.program_searches.specs.Replies.{reply_of};
ghost use Rattle.statement.specs.Solving.{solve_lines};

use crate::finding::{Found, found_in};
use crate::reply::{Reply, answered};
use crate::solving::value_lines;
use game::{Game, Question};
use maximin::Room;
use search_split::Cut;
use std::alloc::{AllocError, Global};

/// How many bytes are one MiB.
const MIB: usize = 1 << 20;

/// How many bytes so many MiB are.
fn bytes_in(mib: u32) -> usize {
    (mib as usize).saturating_mul(MIB)
}

/// Where a search of a game begins, and what it may take. The game is elsewhere.
#[derive(Drop)]
pub struct Start<G: Game> {
    /// The state that is searched.
    pub here: G::Pos,
    /// What is asked of the state.
    pub asked: Question,
    /// How many workers are to search, and the parts of what. The reply does not depend on it.
    pub cut: Cut,
    /// How many MiB may keep what states are worth. The reply does not depend on it.
    pub table: u32,
}

impl<G: Game> Start<G> {
    /// How many bytes may keep what states are worth. The reply does not depend on it.
    pub fn bytes(&self) -> usize {
        bytes_in(self.table)
    }
}

/// A search for what a role can be sure of: from a state of a game, within so many turns.
#[derive(Drop)]
pub struct Search<G: Game + Drop> {
    /// The game.
    pub game: G,
    /// The state that is searched.
    pub here: G::Pos,
    /// What is asked of the state.
    pub asked: Question,
    /// How many workers are to search, and the parts of what. The reply does not depend on it.
    pub cut: Cut,
    /// How many MiB may keep what states are worth. The reply does not depend on it.
    pub table: u32,
}

impl<G: Game + Drop> Search<G> {
    /// The memory of the search, for one thread.
    pub(crate) fn room(&self, alloc: Global) -> Result<Room<G>, AllocError>
        ensures room { IfOk result (λ room. IsRoomOf G.Game self.now.game room) }
        ensures depth { IfOk result (λ room. room_depth room ≡ self.now.asked.depth) }
    {
        Room::with_table(alloc, &self.game, self.asked, self.bytes())
    }

    /// How many bytes may keep what states are worth. The reply does not depend on it.
    pub(crate) fn bytes(&self) -> usize {
        bytes_in(self.table)
    }

    /// The reply that tells the value, the first best move and the line of play behind it, from the first two. The line is found by the
    /// calling thread in the room, and what the room keeps of states is of use to it. It fails only for want of memory.
    fn told_in(self, alloc: Global, found: Found, room: Room<G>) -> Result<Reply, AllocError>
        requires fits { G.fits self.game self.here }
        requires role { self.asked.role < (G.rules self.game).roles }
        requires value { found.value ≡ pos (value (G.rules self.game) self.asked.role self.asked.depth self.asked.at (G.state self.game self.here)) }
        requires choice { found.choice ≡ choice_of (G.rules self.game) self.asked.role self.asked.depth self.asked.at (G.state self.game self.here) }
        requires room { IsRoomOf G.Game self.game room }
        requires deep { self.asked.depth ≤ room_depth room }
        ensures { IfOk result (λ reply. reply_of reply ≡ answer (solve_lines
            (named (G.rules self.game) (G.role_name self.game) (G.move_name self.game))
            self.asked.role self.asked.depth self.asked.at (G.state self.game self.here))) }
    {
        let Search {
            game,
            here,
            asked,
            ..
        } = self;
        Ok(answered(value_lines(alloc, &game, asked, found, here, room)?))
    }
}

/// The reply after a search, which the calling thread does. It fails only for want of memory.
pub fn told_alone<G: Game + Drop>(alloc: Global, search: Search<G>) -> Result<Reply, AllocError>
    requires fits { G.fits search.game search.here }
    requires role { search.asked.role < (G.rules search.game).roles }
    ensures { IfOk result (λ reply. reply_of reply ≡ answer (solve_lines
        (named (G.rules search.game) (G.role_name search.game) (G.move_name search.game))
        search.asked.role search.asked.depth search.asked.at (G.state search.game search.here))) }
{
    let mut room = search.room(alloc)?;
    let found = found_in(&search.game, &search.here, search.asked, &mut room);
    search.told_in(alloc, found, room)
}

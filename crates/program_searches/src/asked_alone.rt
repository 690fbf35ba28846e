//! The replies to what is asked for a role and is found by the calling thread alone.
ghost use Rattle.std.specs.Prelude.{◌≡◌, ◌<◌, IfOk, IfSome, OnOk};
ghost use Rattle.statement.specs.Answers.{answer};
ghost use Rattle.statement.specs.ForRole.{IsRoleReply};
ghost use Rattle.program_searches.specs.Histories.{named};
ghost use Rattle.program_searches.specs.Kept.{IsKeptSearch};
ghost use Rattle.program_searches.specs.Play.{IsPlayFor, IsPlayKept};
ghost use Rattle.program_searches.specs.Replies.{reply_of};
ghost use Rattle.program_searches.specs.Windows.{wanted_lines};

use crate::best_play::start_for;
use crate::deepening::lines_by_depth;
use crate::kept_search::{KeptSearch, search_for_question};
use crate::play::Play;
use crate::reply::{Reply, answered};
use crate::search::Start;
use crate::solving::best_lines;
use crate::windowed::lines_within;
use crate::worths::{lines_of_moves, moves_with_lines};
use game::{Game, Question};
use program_words::Sought;
use statement::Window;
use std::alloc::{AllocError, Global};

/// What is wanted of a state for a role.
#[derive(Clone, Copy)]
pub enum Wanted {
    /// Its value, the first best move and the line of play.
    Whole,
    /// Its value within a window.
    Within(Window),
    /// What each legal move makes sure of.
    OfEachMove,
    /// The same, and the line of play that begins with it.
    LineOfEachMove,
    /// Its value, the first best move and the line of play within one turn, within two and so on, until the value is settled.
    OfEachDepth,
}

impl Wanted {
    /// How many of these bytes the room of a search may have; the others are for what else is kept.
    fn of_room(self, bytes: usize) -> usize {
        match self {
            Wanted::OfEachDepth => bytes / 2,
            _ => bytes,
        }
    }
}

/// What is wanted of a state, as lines, by searches in the memory that is given. What is kept of states beside it takes at most so many
/// bytes.
fn lines_by<G: Game>(
    alloc: Global,
    game: &G,
    asked: Question,
    wanted: Wanted,
    here: &G::Pos,
    bytes: usize,
    play: &mut Play<G>,
) -> Result<Vec<u8>, AllocError>
    requires fits { G.fits game.now here.now }
    requires play { IsPlayFor G.Game game.now asked.role asked.depth play.old }
    ensures lines { IfOk result (λ output. output.items ≡ wanted_lines wanted (named (G.rules game.now) (G.role_name game.now) (G.move_name game.now))
        asked.role asked.depth asked.at (G.state game.now here.now)) }
    ensures play { OnOk result (IsPlayKept G.Game game.now play.old play.new) }
{
    match wanted {
        Wanted::Whole => best_lines(alloc, game, asked, here, play),
        Wanted::Within(window) => lines_within(alloc, game, asked, window, here, play),
        Wanted::OfEachMove => lines_of_moves(alloc, game, asked, here, play),
        Wanted::LineOfEachMove => moves_with_lines(alloc, game, asked, here, play),
        Wanted::OfEachDepth => lines_by_depth(alloc, game, asked, here, play, bytes),
    }
}

/// What is wanted of a state, as lines, in the memory that is kept, which stays for the next question. What is kept of states takes at most
/// so many bytes. After an error nothing is kept.
fn lines_of<G: Game>(
    alloc: Global,
    game: &G,
    asked: Question,
    wanted: Wanted,
    here: &G::Pos,
    bytes: usize,
    kept: &mut Option<KeptSearch<G>>,
) -> Result<Vec<u8>, AllocError>
    requires fits { G.fits game.now here.now }
    requires role { asked.role < (G.rules game.now).roles }
    requires kept { IfSome kept.old (IsKeptSearch G.Game game.now) }
    ensures lines { IfOk result (λ output. output.items ≡ wanted_lines wanted (named (G.rules game.now) (G.role_name game.now) (G.move_name game.now))
        asked.role asked.depth asked.at (G.state game.now here.now)) }
    ensures kept { IfSome kept.new (IsKeptSearch G.Game game.now) }
{
    let ours = wanted.of_room(bytes);
    let others = bytes.saturating_sub(ours);
    let mut search = search_for_question(alloc, game, asked, ours, kept)?;
    let lines = lines_by(alloc, game, asked, wanted, here, others, &mut search.play)?;
    *kept = Some(search);
    Ok(lines)
}

/// The reply where a search begins: what is wanted of the state, in the memory that is kept.
fn reply_from<G: Game>(
    alloc: Global,
    game: &G,
    start: &Start<G>,
    wanted: Wanted,
    kept: &mut Option<KeptSearch<G>>,
) -> Result<Reply, AllocError>
    requires fits { G.fits game.now start.now.here }
    requires role { start.now.asked.role < (G.rules game.now).roles }
    requires kept { IfSome kept.old (IsKeptSearch G.Game game.now) }
    ensures reply { IfOk result (λ reply. reply_of reply
        ≡ answer (wanted_lines wanted (named (G.rules game.now) (G.role_name game.now) (G.move_name game.now))
        start.now.asked.role start.now.asked.depth start.now.asked.at (G.state game.now start.now.here))) }
    ensures kept { IfSome kept.new (IsKeptSearch G.Game game.now) }
{
    let bytes = start.bytes();
    let lines = lines_of(alloc, game, start.asked, wanted, &start.here, bytes, kept)?;
    Ok(answered(lines))
}

/// The reply to what is asked for a role: the line that names the fault of the role or else of the history, or what is wanted. The memory of
/// the search stays for the next question.
pub fn role_reply<G: Game>(
    alloc: Global,
    game: &G,
    sought: &Sought,
    wanted: Wanted,
    kept: &mut Option<KeptSearch<G>>,
) -> Result<Reply, AllocError>
    requires { IfSome kept.old (IsKeptSearch G.Game game.now) }
    ensures reply { IfOk result (λ reply. IsRoleReply (named (G.rules game.now) (G.role_name game.now) (G.move_name game.now)) sought.now.role.now
        (λ r. wanted_lines wanted (named (G.rules game.now) (G.role_name game.now) (G.move_name game.now)) r sought.now.depth sought.now.at_bound)
        sought.now.after.now (reply_of reply)) }
    ensures kept { IfSome kept.new (IsKeptSearch G.Game game.now) }
{
    match start_for(alloc, game, sought)? {
        Ok(start) => reply_from(alloc, game, &start, wanted, kept),
        Err(reply) => Ok(reply),
    }
}

//! The memory of a search, and the calls that use it.
ghost use Rattle.std.specs.Prelude.{◌≡◌, ◌-◌, ◌<◌, ◌≤◌, pos, true, length, slice_get, IfOk, IfSome, Contains, All};
ghost use Rattle.game.specs.Value.{Answers};
ghost use Rattle.statement.specs.Value.{value, worst, choice_of, reply_of};
ghost use Rattle.statement.specs.Within as within;
ghost use Rattle.maximin.specs.Company.{company_game};
ghost use Rattle.maximin.specs.Level.{IsLevelOf};
ghost use Rattle.maximin.specs.Open.{IsOpen};
ghost use Rattle.maximin.specs.Replies.{IsWritten};
ghost use Rattle.maximin.specs.Room.{IsRoomOf, IsRoomFor, IsRoomKept, room_depth};
ghost use Rattle.maximin.specs.Tools.{IsWindow};

use crate::bounded::first_reaching;
use crate::choosing::{best_move, choice_at, try_best_move};
use crate::company::Company;
use crate::ending::{Dismissed, TooLong};
use crate::history::History;
use crate::known::{KnownMove, try_choice_worth, try_reply_worth};
use crate::level::{Level, new_level};
use crate::memory::{new_memory, shared_memory};
use crate::search::{GREATEST, LEAST, reply_at, try_known_at, value_within, worst_at};
use crate::sight::Sight;
use crate::tools::{Tools, new_tools};
use crate::window::SearchWindow;
use game::{AtBound, Game, Joint, Question};
use std::alloc::{AllocError, Global};
use std::convert::Infallible;

/// All the memory of a search: room to step many joint moves at once, what is remembered of moves, and for each turn that it looks
/// ahead a run of joint moves, the states after them, and one state.
#[derive(Drop)]
pub struct Room<G: Game> {
    pub(crate) tools: Tools<G>,
    pub(crate) levels: Vec<Level<G::Pos, G::Many>>,
}

/// So many levels for a game.
fn new_levels<G: Game>(
    alloc: Global,
    game: &G,
    depth: u32,
) -> Result<Vec<Level<G::Pos, G::Many>>, AllocError>
    ensures levels { IfOk result (λ levels. All (IsLevelOf G.Game game.now) levels.items) }
    ensures count { IfOk result (λ levels. length levels.items ≡ depth) }
{
    let mut levels = Vec::new(alloc);
    for _ in 0..depth {
        levels.push(new_level(alloc, game)?)?;
    }
    Ok(levels)
}

/// The history of the worker of a number, who looks so many turns ahead.
fn history_of<G: Game>(
    company: &Company<G>,
    depth: u32,
    worker: u8,
) -> Result<History, AllocError> {
    if worker == 0 {
        return History::of(&company.history);
    }
    History::of_another(&company.history, depth.saturating_sub(2))
}

impl<G: Game> Room<G> {
    /// A room for searches of this game to at most this depth, in turns. Nothing else here takes memory.
    pub fn new(alloc: Global, game: &G, depth: u32) -> Result<Room<G>, AllocError>
        ensures room { IfOk result (λ room. IsRoomOf G.Game game.now room) }
        ensures depth { IfOk result (λ room. room_depth room ≡ depth) }
    {
        let asked = Question {
            role: 0,
            depth,
            at: AtBound::Zero,
        };
        Room::with_table(alloc, game, asked, 0)
    }

    /// The same, with a table of what states are worth, which takes at most so many bytes. It saves time where a search is for this role
    /// and this worth at the bound. Where the memory for it is refused the room has none.
    pub fn with_table(
        alloc: Global,
        game: &G,
        asked: Question,
        bytes: usize,
    ) -> Result<Room<G>, AllocError>
        ensures room { IfOk result (λ room. IsRoomOf G.Game game.now room) }
        ensures depth { IfOk result (λ room. room_depth room ≡ asked.depth) }
    {
        let levels = new_levels(alloc, game, asked.depth)?;
        let history = History::new(alloc, game)?;
        let memory = new_memory(alloc, game, asked, bytes)?;
        let tools = new_tools(game, history, memory, Sight::alone())?;
        Ok(Room { tools, levels })
    }

    /// The same for one who searches over the tables of a company while it has no workers.
    pub fn over_tables(
        alloc: Global,
        game: &G,
        depth: u32,
        company: &Company<G>,
    ) -> Result<Room<G>, AllocError>
        requires { company_game company.now ≡ game.now }
        ensures room { IfOk result (λ room. IsRoomOf G.Game game.now room) }
        ensures depth { IfOk result (λ room. room_depth room ≡ depth) }
    {
        let levels = new_levels(alloc, game, depth)?;
        let history = History::of(&company.history)?;
        let memory = shared_memory(alloc, game, &company.tables)?;
        let tools = new_tools(game, history, memory, Sight::alone())?;
        Ok(Room { tools, levels })
    }

    /// The same for the worker of this number, from 0 to 254, of a company: it keeps in their tables what it finds, and sees what the
    /// others search. Each but the first takes the moves of a state with as many turns left as printed, as the first does who looks for
    /// the first best of them, and lets the first alone say which moves cut off most.
    pub fn in_company(
        alloc: Global,
        game: &G,
        depth: u32,
        company: &Company<G>,
        worker: u8,
    ) -> Result<Room<G>, AllocError>
        requires { company_game company.now ≡ game.now }
        ensures room { IfOk result (λ room. IsRoomOf G.Game game.now room) }
        ensures depth { IfOk result (λ room. room_depth room ≡ depth) }
    {
        let levels = new_levels(alloc, game, depth)?;
        let history = history_of(company, depth, worker)?;
        let memory = shared_memory(alloc, game, &company.tables)?;
        let sight = Sight::among(&company.marks, worker, depth)?;
        let tools = new_tools(game, history, memory, sight)?;
        Ok(Room { tools, levels })
    }
}

/// The value of a state for a role, within a window. The value is what the role can be sure of within so many turns, whatever the
/// others do: its goal where the game ends in time, 0 where play comes to a state in which some role has no legal move, and else
/// what `at` says of the state where the turns are over. An answer above a and below b is the value; a or less says that the value
/// is no more than a, and b or more that it is no less than b.
pub fn value_in<G: Game>(
    game: &G,
    p: &G::Pos,
    asked: Question,
    a: i16,
    b: i16,
    room: &mut Room<G>,
) -> i16
    requires fits { G.fits game.now p.now }
    requires room { IsRoomFor G.Game game.now asked.role asked.depth room.old }
    requires window { IsWindow a b }
    ensures answers { Answers (value (G.rules game.now) asked.role asked.depth asked.at (G.state game.now p.now)) a b result }
    ensures room { IsRoomKept G.Game game.now room.old room.new }
{
    let levels = room.levels.as_mut_slice();
    let window = SearchWindow { low: a, high: b };
    value_within(game, p, asked, window, &mut room.tools, levels)
}

/// Searches a state to help a search of it by others, who find what is kept of it in the tables that they share. It ends early once
/// their search is over.
pub fn help<G: Game>(game: &G, p: &G::Pos, asked: Question, room: &mut Room<G>)
    requires fits { G.fits game.now p.now }
    requires room { IsRoomFor G.Game game.now asked.role asked.depth room.old }
    ensures room { IsRoomKept G.Game game.now room.old room.new }
{
    let levels = room.levels.as_mut_slice();
    let whole = SearchWindow {
        low: LEAST,
        high: GREATEST,
    };
    let _ = try_known_at::<G, Dismissed>(game, p, asked, whole, &mut room.tools, levels);
}

/// The value of a state for a role, where there is a turn to come, and the place of the first legal move of the role, in printed
/// order, that attains it. One search tells both.
pub fn value_and_choice<G: Game>(
    game: &G,
    p: &G::Pos,
    asked: Question,
    room: &mut Room<G>,
) -> (i16, usize)
    requires fits { G.fits game.now p.now }
    requires turn { IsOpen (G.rules game.now) asked.depth (G.state game.now p.now) }
    requires room { IsRoomFor G.Game game.now asked.role asked.depth room.old }
    ensures value { result.0 ≡ pos (value (G.rules game.now) asked.role asked.depth asked.at (G.state game.now p.now)) }
    ensures choice { choice_of (G.rules game.now) asked.role asked.depth asked.at (G.state game.now p.now)
        ≡ slice_get ((G.rules game.now).legal (G.state game.now p.now) asked.role) result.1 }
    ensures within { result.1 < length ((G.rules game.now).legal (G.state game.now p.now) asked.role) }
    ensures room { IsRoomKept G.Game game.now room.old room.new }
{
    let levels = room.levels.as_mut_slice();
    let best = best_move(game, p, asked, &mut room.tools, levels);
    (best.worth, best.place)
}

/// The same, by a search that is to be short: it gives up once it has come to some tens to a thousand states, the fewer the longer their
/// keys are. What it found until then is kept.
pub fn value_and_choice_if_short<G: Game>(
    game: &G,
    p: &G::Pos,
    asked: Question,
    room: &mut Room<G>,
) -> Option<(i16, usize)>
    requires fits { G.fits game.now p.now }
    requires turn { IsOpen (G.rules game.now) asked.depth (G.state game.now p.now) }
    requires room { IsRoomFor G.Game game.now asked.role asked.depth room.old }
    ensures value { IfSome result (λ r. r.0 ≡ pos (value (G.rules game.now) asked.role asked.depth asked.at (G.state game.now p.now))) }
    ensures choice { IfSome result (λ r. choice_of (G.rules game.now) asked.role asked.depth asked.at (G.state game.now p.now)
        ≡ slice_get ((G.rules game.now).legal (G.state game.now p.now) asked.role) r.1) }
    ensures within { IfSome result (λ r. r.1 < length ((G.rules game.now).legal (G.state game.now p.now) asked.role)) }
    ensures room { IsRoomKept G.Game game.now room.old room.new }
{
    room.tools.sight.restart(game.key_words());
    let levels = room.levels.as_mut_slice();
    let Ok(best) = try_best_move::<G, TooLong>(game, p, asked, &mut room.tools, levels) else {
        return None;
    };
    Some((best.worth, best.place))
}

/// The first legal move of the role, in printed order, that attains the value of the state. There is none where the game has ended,
/// where some role has no legal move, and at depth 0.
pub fn choice<G: Game>(game: &G, p: &G::Pos, asked: Question, room: &mut Room<G>) -> Option<u32>
    requires fits { G.fits game.now p.now }
    requires room { IsRoomFor G.Game game.now asked.role asked.depth room.old }
    ensures choice { result ≡ choice_of (G.rules game.now) asked.role asked.depth asked.at (G.state game.now p.now) }
    ensures room { IsRoomKept G.Game game.now room.old room.new }
{
    let levels = room.levels.as_mut_slice();
    choice_at(game, p, asked, &mut room.tools, levels)
}

/// The same as `choice`, where it is known that the value of the state is `worth`: each move is searched for whether it attains that,
/// and a move that has no other behind it not at all.
pub fn choice_by_value<G: Game>(
    game: &G,
    p: &G::Pos,
    asked: Question,
    worth: i16,
    room: &mut Room<G>,
) -> Option<u32>
    requires fits { G.fits game.now p.now }
    requires room { IsRoomFor G.Game game.now asked.role asked.depth room.old }
    requires worth { worth ≡ pos (value (G.rules game.now) asked.role asked.depth asked.at (G.state game.now p.now)) }
    ensures choice { result ≡ choice_of (G.rules game.now) asked.role asked.depth asked.at (G.state game.now p.now) }
    ensures room { IsRoomKept G.Game game.now room.old room.new }
{
    let levels = room.levels.as_mut_slice();
    let Ok(choice) = try_choice_worth::<G, Infallible>(
        game,
        p,
        asked,
        worth,
        &mut room.tools,
        levels,
    );
    choice
}

/// The same by a search that is to be short (`value_and_choice_if_short`).
pub fn choice_if_short<G: Game>(
    game: &G,
    p: &G::Pos,
    asked: Question,
    worth: i16,
    room: &mut Room<G>,
) -> Option<Option<u32>>
    requires fits { G.fits game.now p.now }
    requires room { IsRoomFor G.Game game.now asked.role asked.depth room.old }
    requires worth { worth ≡ pos (value (G.rules game.now) asked.role asked.depth asked.at (G.state game.now p.now)) }
    ensures choice { IfSome result (λ choice. choice ≡ choice_of (G.rules game.now) asked.role asked.depth asked.at (G.state game.now p.now)) }
    ensures room { IsRoomKept G.Game game.now room.old room.new }
{
    room.tools.sight.restart(game.key_words());
    let levels = room.levels.as_mut_slice();
    match try_choice_worth::<G, TooLong>(game, p, asked, worth, &mut room.tools, levels) {
        Ok(choice) => Some(choice),
        Err(TooLong) => None,
    }
}

/// Helps others who look for the choice by the value of a state (`help`).
pub fn help_choose<G: Game>(game: &G, p: &G::Pos, asked: Question, worth: i16, room: &mut Room<G>)
    requires fits { G.fits game.now p.now }
    requires room { IsRoomFor G.Game game.now asked.role asked.depth room.old }
    requires worth { worth ≡ pos (value (G.rules game.now) asked.role asked.depth asked.at (G.state game.now p.now)) }
    ensures room { IsRoomKept G.Game game.now room.old room.new }
{
    let levels = room.levels.as_mut_slice();
    let _ = try_choice_worth::<G, Dismissed>(game, p, asked, worth, &mut room.tools, levels);
}

/// Writes the first joint legal move that leaves the least value where the role plays `own`, which stands in its place. Joint moves are
/// compared role by role, the first role first, each by its printed order. `out` has to have room for a move of each role.
pub fn first_reply<G: Game>(
    game: &G,
    p: &G::Pos,
    asked: Question,
    own: u32,
    room: &mut Room<G>,
    out: &mut Joint,
)
    requires fits { G.fits game.now p.now }
    requires own { Contains ((G.rules game.now).legal (G.state game.now p.now) asked.role) own }
    requires turn { IsOpen (G.rules game.now) asked.depth (G.state game.now p.now) }
    requires room { IsRoomFor G.Game game.now asked.role asked.depth room.old }
    requires out { (G.rules game.now).roles ≤ out.old.capacity }
    ensures reply { IsWritten (reply_of (G.rules game.now) asked.role (asked.depth - 1) asked.at (G.state game.now p.now) own) out.old out.new }
    ensures room { IsRoomKept G.Game game.now room.old room.new }
{
    let next = Question {
        depth: asked.depth - 1,
        ..asked
    };
    let levels = room.levels.as_mut_slice();
    reply_at(game, p, next, own, &mut room.tools, levels, out)
}

/// The same as `first_reply`, where it is known that the least value that `own` leaves is `worth`: each joint move is searched for
/// whether it leaves that, and one that has no other behind it not at all.
pub fn reply_by_value<G: Game>(
    game: &G,
    p: &G::Pos,
    asked: Question,
    own: u32,
    worth: i16,
    room: &mut Room<G>,
    out: &mut Joint,
)
    requires fits { G.fits game.now p.now }
    requires own { Contains ((G.rules game.now).legal (G.state game.now p.now) asked.role) own }
    requires turn { IsOpen (G.rules game.now) asked.depth (G.state game.now p.now) }
    requires room { IsRoomFor G.Game game.now asked.role asked.depth room.old }
    requires worth { worth ≡ pos (worst (G.rules game.now) asked.role (asked.depth - 1) asked.at (G.state game.now p.now) own) }
    requires out { (G.rules game.now).roles ≤ out.old.capacity }
    ensures reply { IsWritten (reply_of (G.rules game.now) asked.role (asked.depth - 1) asked.at (G.state game.now p.now) own) out.old out.new }
    ensures room { IsRoomKept G.Game game.now room.old room.new }
{
    let next = Question {
        depth: asked.depth - 1,
        ..asked
    };
    let levels = room.levels.as_mut_slice();
    let known = KnownMove { own, worth };
    let Ok(()) = try_reply_worth::<G, Infallible>(
        game,
        p,
        next,
        known,
        &mut room.tools,
        levels,
        out,
    );
}

/// The same by a search that is to be short (`value_and_choice_if_short`). The answer is whether it came to its end.
pub fn reply_if_short<G: Game>(
    game: &G,
    p: &G::Pos,
    asked: Question,
    own: u32,
    worth: i16,
    room: &mut Room<G>,
    out: &mut Joint,
) -> bool
    requires fits { G.fits game.now p.now }
    requires own { Contains ((G.rules game.now).legal (G.state game.now p.now) asked.role) own }
    requires turn { IsOpen (G.rules game.now) asked.depth (G.state game.now p.now) }
    requires room { IsRoomFor G.Game game.now asked.role asked.depth room.old }
    requires worth { worth ≡ pos (worst (G.rules game.now) asked.role (asked.depth - 1) asked.at (G.state game.now p.now) own) }
    requires out { (G.rules game.now).roles ≤ out.old.capacity }
    ensures reply { result ≡ true → IsWritten (reply_of (G.rules game.now) asked.role (asked.depth - 1) asked.at (G.state game.now p.now) own) out.old out.new }
    ensures capacity { out.new.capacity ≡ out.old.capacity }
    ensures room { IsRoomKept G.Game game.now room.old room.new }
{
    let next = Question {
        depth: asked.depth - 1,
        ..asked
    };
    room.tools.sight.restart(game.key_words());
    let levels = room.levels.as_mut_slice();
    let known = KnownMove { own, worth };
    let Ok(()) = try_reply_worth::<G, TooLong>(game, p, next, known, &mut room.tools, levels, out)
    else {
        return false;
    };
    true
}

/// Helps others who look for the reply by what a move leaves (`help`). `out` has to have room for a move of each role.
pub fn help_reply<G: Game>(
    game: &G,
    p: &G::Pos,
    asked: Question,
    own: u32,
    worth: i16,
    room: &mut Room<G>,
    out: &mut Joint,
)
    requires fits { G.fits game.now p.now }
    requires own { Contains ((G.rules game.now).legal (G.state game.now p.now) asked.role) own }
    requires turn { IsOpen (G.rules game.now) asked.depth (G.state game.now p.now) }
    requires room { IsRoomFor G.Game game.now asked.role asked.depth room.old }
    requires worth { worth ≡ pos (worst (G.rules game.now) asked.role (asked.depth - 1) asked.at (G.state game.now p.now) own) }
    requires out { (G.rules game.now).roles ≤ out.old.capacity }
    ensures room { IsRoomKept G.Game game.now room.old room.new }
{
    let next = Question {
        depth: asked.depth - 1,
        ..asked
    };
    let levels = room.levels.as_mut_slice();
    let known = KnownMove { own, worth };
    let _ = try_reply_worth::<G, Dismissed>(game, p, next, known, &mut room.tools, levels, out);
}

/// The first legal move of the role, in printed order, that makes sure of `bound` or more, if one does. There is none where the game has
/// ended, where some role has no legal move, and at depth 0.
pub fn first_at_least<G: Game>(
    game: &G,
    p: &G::Pos,
    asked: Question,
    bound: u8,
    room: &mut Room<G>,
) -> Option<u32>
    requires fits { G.fits game.now p.now }
    requires room { IsRoomFor G.Game game.now asked.role asked.depth room.old }
    requires bound { bound ≤ 101 }
    ensures first { result ≡ within.first_at_least (G.rules game.now) asked.role asked.depth asked.at bound (G.state game.now p.now) }
    ensures room { IsRoomKept G.Game game.now room.old room.new }
{
    let levels = room.levels.as_mut_slice();
    first_reaching(game, p, asked, bound, &mut room.tools, levels)
}

/// What a move makes sure of: the least value of a state that can follow where the role plays `own`.
pub fn move_worth<G: Game>(
    game: &G,
    p: &G::Pos,
    asked: Question,
    own: u32,
    room: &mut Room<G>,
) -> i16
    requires fits { G.fits game.now p.now }
    requires own { Contains ((G.rules game.now).legal (G.state game.now p.now) asked.role) own }
    requires turn { IsOpen (G.rules game.now) asked.depth (G.state game.now p.now) }
    requires room { IsRoomFor G.Game game.now asked.role asked.depth room.old }
    ensures worth { result ≡ pos (worst (G.rules game.now) asked.role (asked.depth - 1) asked.at (G.state game.now p.now) own) }
    ensures room { IsRoomKept G.Game game.now room.old room.new }
{
    let next = Question {
        depth: asked.depth - 1,
        ..asked
    };
    let whole = SearchWindow { low: -1, high: 101 };
    let levels = room.levels.as_mut_slice();
    worst_at(game, p, next, own, whole, &mut room.tools, levels)
}

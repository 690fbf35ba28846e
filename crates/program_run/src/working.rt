//! What a command comes to: its reply, with its search shared by workers, or a search turn by turn that writes it.
ghost use Rattle.std.specs.Prelude.{◌≡◌, ◌<◌, IfOk};
ghost use Rattle.statement.specs.Answers.{answer};
ghost use Rattle.program_searches.specs.Histories.{named};
ghost use Rattle.program_searches.specs.Replies.{reply_of};
ghost use Rattle.statement.specs.Queries.{asked_in};
ghost use Rattle.statement.specs.Replies.{IsReply};
ghost use Rattle.program_words.specs.Asked.{query_about, query_of};
ghost use Rattle.statement.specs.Solving.{solve_lines};
ghost use Rattle.program_run.specs.Work.{IsWork};

use crate::sizes::{Sizes, sizes_of};
use game::Game;
use game_rules::GroundGame;
use ground::instantiate_flat;
use program_replies::{Asked, Reading, ask, check, read, show};
use program_searches::{Deepening, Found, Reply, Search, Start, answered, told_alone, value_lines};
use program_words::{Command, Inquiry};
use share::{Gate, solve_in};
use statement::Width;
use std::alloc::AllocError;
use std::thread::Threads;

/// No task of a search waits.
#[derive(Drop)]
struct Ungated;

impl Gate for Ungated {
    fn at(&self, _task: usize) {}
}

/// The reply after a search of a game, which as many workers share as its cut says. The game stays as it is.
pub(crate) fn told_from_start<T: Threads + Sync + AllocGlobal, G: Game>(
    rt: &T,
    game: &G,
    start: Start<G>,
) -> Result<Reply, AllocError>
    requires fits { G.fits game.now start.here }
    requires role { start.asked.role < (G.rules game.now).roles }
    ensures { IfOk result (λ reply. reply_of reply ≡ answer (solve_lines
        (named (G.rules game.now) (G.role_name game.now) (G.move_name game.now))
        start.asked.role start.asked.depth start.asked.at (G.state game.now start.here))) }
{
    let bytes = start.bytes();
    let Start {
        here,
        asked,
        cut,
        ..
    } = start;
    let (answer, room) = solve_in(rt, game, &here, asked, &cut, &Ungated, bytes)?;
    let found = Found {
        value: answer.value,
        choice: answer.choice,
    };
    Ok(answered(value_lines(rt.alloc(), game, asked, found, here, room)?))
}

/// The reply after a search, which as many workers share as its cut says.
pub fn told_by_workers<T: Threads + Sync + AllocGlobal, G: Game + Drop>(
    rt: &T,
    search: Search<G>,
) -> Result<Reply, AllocError>
    requires fits { G.fits search.game search.here }
    requires role { search.asked.role < (G.rules search.game).roles }
    ensures { IfOk result (λ reply. reply_of reply ≡ answer (solve_lines
        (named (G.rules search.game) (G.role_name search.game) (G.move_name search.game))
        search.asked.role search.asked.depth search.asked.at (G.state search.game search.here))) }
{
    if search.cut.workers() == 1 {
        return told_alone(rt.alloc(), search);
    }
    let Search {
        game,
        here,
        asked,
        cut,
        table,
    } = search;
    let start = Start {
        here,
        asked,
        cut,
        table,
    };
    told_from_start(rt, &game, start)
}

/// What a command comes to.
#[derive(Drop)]
pub enum Work<G: Game + Drop> {
    /// The reply.
    Told(Reply),
    /// A search turn by turn, which writes an answer as it is found.
    ToWrite(Deepening<G>),
}

/// What an inquiry over the bytes of the input comes to, by the limits of a width. Where they are instantiated the sizes of that are noted.
fn work_about<G: GroundGame, S: GroundGame, T: Threads + Sync + AllocGlobal>(
    rt: &T,
    inquiry: &Inquiry,
    width: Width,
    bytes: &[u8],
    sizes: &mut Option<Sizes>,
) -> Result<Work<G>, AllocError>
    ensures { IfOk result (IsWork G.Game (IsReply (asked_in width (query_about inquiry.now)) bytes.now)) }
{
    let alloc = rt.alloc();
    let rules = match read(alloc, bytes)? {
        Reading::Rules(rules) => rules,
        Reading::Refused(reply) => return Ok(Work::Told(reply)),
    };
    let instantiated = instantiate_flat(rt, &rules, width);
    drop(rules);
    *sizes = sizes_of(&instantiated);
    match ask::<G, S>(alloc, inquiry, instantiated)? {
        Asked::Told(reply) => Ok(Work::Told(reply)),
        Asked::ToSearch(search) => Ok(Work::Told(told_by_workers(rt, search)?)),
        Asked::ToDeepen(search) => Ok(Work::ToWrite(Deepening::new(alloc, search)?)),
    }
}

/// What a command over the bytes of the input comes to. All its memory is taken here. It fails only for want of memory. Where the rules
/// are instantiated the sizes of that are noted. The type `G` says who plays the game, and `S` who tells of a state where nothing is searched.
pub fn work_of<G: GroundGame, S: GroundGame, T: Threads + Sync + AllocGlobal>(
    rt: &T,
    command: &Command,
    bytes: &[u8],
    sizes: &mut Option<Sizes>,
) -> Result<Work<G>, AllocError>
    ensures { IfOk result (IsWork G.Game (IsReply (query_of command.now) bytes.now)) }
{
    match command {
        Command::Show => Ok(Work::Told(show(rt.alloc(), bytes)?)),
        Command::Check => Ok(Work::Told(check(rt.alloc(), bytes)?)),
        Command::Ask(inquiry, width) => work_about::<G, S, T>(rt, inquiry, *width, bytes, sizes),
    }
}

/// The reply to a command over the bytes of the input. The type `G` says who plays the game, and `S` who tells of a state where nothing is
/// searched. It fails only for want of memory.
pub fn reply_by_workers<G: GroundGame, S: GroundGame, T: Threads + Sync + AllocGlobal>(
    rt: &T,
    command: &Command,
    bytes: &[u8],
) -> Result<Reply, AllocError>
    ensures { IfOk result (λ reply. IsReply (query_of command.now) bytes.now (reply_of reply)) }
{
    let mut sizes = None;
    match work_of::<G, S, T>(rt, command, bytes, &mut sizes)? {
        Work::Told(reply) => Ok(reply),
        Work::ToWrite(deepening) => deepening.told(rt.alloc()),
    }
}

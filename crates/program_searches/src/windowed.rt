//! The value of a state within a window, as lines.
ghost use Rattle.std.specs.Prelude.{◌≡◌, codes, ◌-ℤ◌, ◌≤◌, ◌<◌, ◌++◌, pos, IfOk, IfSome, OnOk};
ghost use Rattle.statement.specs.Value.{value};
ghost use Rattle.statement.specs.Checking.{count_line};
ghost use Rattle.statement.specs.Solving.{solve_lines};
ghost use Rattle.statement.specs.Within.{own_line, at_least_lines, window_lines};
ghost use Rattle.maximin.specs.Room.{IsRoomFor, IsRoomKept};
ghost use Rattle.program_searches.specs.Histories.{named};
ghost use Rattle.program_searches.specs.Play.{IsPlayFor, IsPlayKept};
ghost use Rattle.program_searches.specs.Windows.{IsPlaced};

use crate::finding::Found;
use crate::play::Play;
use crate::reply::add_count;
use crate::solving::{add_choice, lines_of_found};
use game::{Game, Question};
use maximin::{Room, choice_by_value, first_at_least, value_in};
use statement::Window;
use std::alloc::{AllocError, Global};

/// Where a value lies in a window.
#[derive(Clone, Copy)]
pub(crate) enum Placed {
    /// It is the low bound or less.
    Below,
    /// It is between the bounds, and this.
    Between(i16),
    /// It is the high bound or more.
    Above,
}

/// The bounds of a window as those of a search.
fn bounds_of(window: Window) -> (i16, i16)
    ensures low { result.0 ≡ pos window.from -ℤ pos 1 }
    ensures high { result.1 ≡ pos window.to }
{
    (i16::from(window.from) - 1, i16::from(window.to))
}

/// Where the value of a state lies in a window.
fn place_value<G: Game>(
    game: &G,
    here: &G::Pos,
    asked: Question,
    window: Window,
    room: &mut Room<G>,
) -> Placed
    requires fits { G.fits game.now here.now }
    requires room { IsRoomFor G.Game game.now asked.role asked.depth room.old }
    ensures placed { IsPlaced window (value (G.rules game.now) asked.role asked.depth asked.at (G.state game.now here.now)) result }
    ensures room { IsRoomKept G.Game game.now room.old room.new }
{
    let (low, high) = bounds_of(window);
    let found = value_in(game, here, asked, low, high, room);
    if found <= low {
        return Placed::Below;
    }
    if found >= high {
        return Placed::Above;
    }
    Placed::Between(found)
}

/// The value of a state, the first best move and the line of play, as lines, where the value is known to be `worth`.
pub(crate) fn lines_of_value<G: Game>(
    alloc: Global,
    game: &G,
    asked: Question,
    worth: i16,
    here: &G::Pos,
    play: &mut Play<G>,
) -> Result<Vec<u8>, AllocError>
    requires fits { G.fits game.now here.now }
    requires play { IsPlayFor G.Game game.now asked.role asked.depth play.old }
    requires worth { worth ≡ pos (value (G.rules game.now) asked.role asked.depth asked.at (G.state game.now here.now)) }
    ensures lines { IfOk result (λ output. output.items
        ≡ solve_lines (named (G.rules game.now) (G.role_name game.now) (G.move_name game.now)) asked.role asked.depth asked.at (G.state game.now here.now)) }
    ensures play { OnOk result (IsPlayKept G.Game game.now play.old play.new) }
{
    let choice = choice_by_value(game, here, asked, worth, &mut play.room);
    let found = Found {
        value: worth,
        choice,
    };
    lines_of_found(alloc, game, asked, &found, here, play)
}

/// Adds the line of a move, if there is one. After an error the output may have a beginning of it.
fn add_own<G: Game>(
    game: &G,
    role: usize,
    own: Option<u32>,
    output: &mut Vec<u8>,
) -> Result<(), AllocError>
    requires role { role < (G.rules game.now).roles }
    requires own { IfSome own (λ m. m < (G.rules game.now).moves role) }
    ensures { OnOk result (output.new.items
        ≡ output.old.items ++ own_line (named (G.rules game.now) (G.role_name game.now) (G.move_name game.now)) role own) }
{
    let Some(chosen) = own else {
        return Ok(());
    };
    add_choice(game, role, Some(chosen), output)
}

/// The line that a value is so low or lower.
fn below_lines(alloc: Global, bound: u8) -> Result<Vec<u8>, AllocError>
    ensures { IfOk result (λ output. output.items ≡ count_line (codes "at-most") bound) }
{
    let mut output = Vec::new(alloc);
    add_count("at-most", bound as usize, &mut output)?;
    Ok(output)
}

/// The line that a value is so high or higher, and that of the first move that makes sure of it.
fn above_lines<G: Game>(
    alloc: Global,
    game: &G,
    asked: Question,
    bound: u8,
    here: &G::Pos,
    room: &mut Room<G>,
) -> Result<Vec<u8>, AllocError>
    requires fits { G.fits game.now here.now }
    requires room { IsRoomFor G.Game game.now asked.role asked.depth room.old }
    requires bound { bound ≤ 101 }
    ensures lines { IfOk result (λ output. output.items
        ≡ at_least_lines (named (G.rules game.now) (G.role_name game.now) (G.move_name game.now)) asked.role asked.depth asked.at bound (G.state game.now here.now)) }
    ensures room { IsRoomKept G.Game game.now room.old room.new }
{
    let own = first_at_least(game, here, asked, bound, room);
    let mut output = Vec::new(alloc);
    add_count("at-least", bound as usize, &mut output)?;
    add_own(game, asked.role, own, &mut output)?;
    Ok(output)
}

/// What is told of the value of a state within a window.
pub(crate) fn lines_within<G: Game>(
    alloc: Global,
    game: &G,
    asked: Question,
    window: Window,
    here: &G::Pos,
    play: &mut Play<G>,
) -> Result<Vec<u8>, AllocError>
    requires fits { G.fits game.now here.now }
    requires play { IsPlayFor G.Game game.now asked.role asked.depth play.old }
    ensures lines { IfOk result (λ output. output.items
        ≡ window_lines (named (G.rules game.now) (G.role_name game.now) (G.move_name game.now)) window asked.role asked.depth asked.at (G.state game.now here.now)) }
    ensures play { OnOk result (IsPlayKept G.Game game.now play.old play.new) }
{
    match place_value(game, here, asked, window, &mut play.room) {
        Placed::Below => below_lines(alloc, window.from.saturating_sub(1)),
        Placed::Between(worth) => lines_of_value(alloc, game, asked, worth, here, play),
        Placed::Above => above_lines(alloc, game, asked, window.to, here, &mut play.room),
    }
}

//! What each legal move of a role makes sure of, as lines.
ghost use Rattle.std.specs.Prelude.{◌≡◌, true, false, ◌-◌, ◌<◌, ◌∷◌, [], ◌++◌, codes, IfOk, OnOk, Contains};
ghost use Rattle.std.specs.Fmt.{decimal};
ghost use Rattle.std.specs.List.{flat_map};
ghost use Rattle.statement.specs.MoveValues.{worth_line, values_lines};
ghost use Rattle.statement.specs.MoveLines.{move_lines, moves_with_lines};
ghost use Rattle.maximin.specs.Open.{IsOpen};
ghost use Rattle.maximin.specs.Room.{IsRoomFor, IsRoomOf, room_depth};
ghost use Rattle.program_searches.specs.Histories.{named};
ghost use Rattle.program_searches.specs.Play.{IsPlayFor, IsPlayKept};
ghost use Rattle.program_searches.specs.Windows.{IsClosed};

use crate::play::Play;
use crate::solving::best_lines;
use crate::writing::{unsigned, write_behind};
use game::{Game, Question, is_stuck};
use maximin::{Room, move_worth};
use std::alloc::{AllocError, Global};
use std::io::Write;

/// Whether there is no turn to come.
fn is_closed<G: Game>(game: &G, here: &G::Pos, depth: u32) -> bool
    requires { G.fits game.now here.now }
    ensures yes { result ≡ true → IsClosed (G.rules game.now) depth (G.state game.now here.now) }
    ensures no { result ≡ false → IsOpen (G.rules game.now) depth (G.state game.now here.now) }
{
    if depth == 0 {
        return true;
    }
    if game.ended(here) {
        return true;
    }
    if is_stuck(game, here) {
        return true;
    }
    false
}

/// Adds the line of a move and what it makes sure of. After an error the output may have a beginning of it.
fn add_worth<G: Game>(
    game: &G,
    role: usize,
    own: u32,
    worth: u64,
    output: &mut Vec<u8>,
) -> Result<(), AllocError>
    requires role { role < (G.rules game.now).roles }
    requires own { own < (G.rules game.now).moves role }
    ensures { OnOk result (output.new.items
        ≡ output.old.items ++ (codes "value " ++ decimal worth ++ 32 ∷ G.move_name game.now role own ++ 10 ∷ [])) }
{
    write!(output, "value {worth} ").map_err(|_| AllocError)?;
    output.extend_from_slice(game.move_text(role, own))?;
    output.push(b'\n')?;
    Ok(())
}

/// Adds the lines of the legal moves of a role. After an error the output may have a beginning of them.
fn add_worths<G: Game>(
    game: &G,
    asked: Question,
    here: &G::Pos,
    room: &mut Room<G>,
    output: &mut Vec<u8>,
) -> Result<(), AllocError>
    requires fits { G.fits game.now here.now }
    requires turn { IsOpen (G.rules game.now) asked.depth (G.state game.now here.now) }
    requires room { IsRoomFor G.Game game.now asked.role asked.depth room.old }
    ensures lines { OnOk result (output.new.items ≡ output.old.items
        ++ flat_map (worth_line (named (G.rules game.now) (G.role_name game.now) (G.move_name game.now)) asked.role (asked.depth - 1) asked.at (G.state game.now here.now))
        ((G.rules game.now).legal (G.state game.now here.now) asked.role)) }
    ensures room { OnOk result (IsRoomOf G.Game game.now room.new) }
    ensures deep { OnOk result (room_depth room.new ≡ room_depth room.old) }
{
    let mut place = 0;
    while let Some(own) = game.legal(here, asked.role, place) {
        let worth = move_worth(game, here, asked, own, room);
        add_worth(game, asked.role, own, unsigned(worth), output)?;
        place += 1;
    }
    Ok(())
}

/// What each legal move of a role makes sure of; where there is no turn to come, what the role gets.
pub(crate) fn lines_of_moves<G: Game>(
    alloc: Global,
    game: &G,
    asked: Question,
    here: &G::Pos,
    play: &mut Play<G>,
) -> Result<Vec<u8>, AllocError>
    requires fits { G.fits game.now here.now }
    requires play { IsPlayFor G.Game game.now asked.role asked.depth play.old }
    ensures lines { IfOk result (λ output. output.items
        ≡ values_lines (named (G.rules game.now) (G.role_name game.now) (G.move_name game.now)) asked.role asked.depth asked.at (G.state game.now here.now)) }
    ensures play { OnOk result (IsPlayKept G.Game game.now play.old play.new) }
{
    if is_closed(game, here, asked.depth) {
        return best_lines(alloc, game, asked, here, play);
    }
    let mut output = Vec::new(alloc);
    add_worths(game, asked, here, &mut play.room, &mut output)?;
    Ok(output)
}

/// Adds the line of a move and what it makes sure of, and the lines of the turns that begin with it. After an error the output may have a
/// beginning of them.
fn add_move_lines<G: Game>(
    game: &G,
    asked: Question,
    here: &G::Pos,
    own: u32,
    play: &mut Play<G>,
    output: &mut Vec<u8>,
) -> Result<(), AllocError>
    requires fits { G.fits game.now here.now }
    requires turn { IsOpen (G.rules game.now) asked.depth (G.state game.now here.now) }
    requires own { Contains ((G.rules game.now).legal (G.state game.now here.now) asked.role) own }
    requires known { own < (G.rules game.now).moves asked.role }
    requires play { IsPlayFor G.Game game.now asked.role asked.depth play.old }
    ensures lines { OnOk result (output.new.items ≡ output.old.items
        ++ move_lines (named (G.rules game.now) (G.role_name game.now) (G.move_name game.now)) asked.role (asked.depth - 1) asked.at (G.state game.now here.now) own) }
    ensures play { OnOk result (IsPlayKept G.Game game.now play.old play.new) }
{
    let worth = move_worth(game, here, asked, own, &mut play.room);
    add_worth(game, asked.role, own, unsigned(worth), output)?;
    play.stand(game, here);
    let Ok(()) = write_behind(game, asked, own, worth, play, output) else {
        return Err(AllocError);
    };
    Ok(())
}

/// Adds the lines of the legal moves of a role, with the line of play behind each. After an error the output may have a beginning of them.
fn add_each<G: Game>(
    game: &G,
    asked: Question,
    here: &G::Pos,
    play: &mut Play<G>,
    output: &mut Vec<u8>,
) -> Result<(), AllocError>
    requires fits { G.fits game.now here.now }
    requires turn { IsOpen (G.rules game.now) asked.depth (G.state game.now here.now) }
    requires play { IsPlayFor G.Game game.now asked.role asked.depth play.old }
    ensures lines { OnOk result (output.new.items ≡ output.old.items
        ++ flat_map (move_lines (named (G.rules game.now) (G.role_name game.now) (G.move_name game.now)) asked.role (asked.depth - 1) asked.at (G.state game.now here.now))
        ((G.rules game.now).legal (G.state game.now here.now) asked.role)) }
    ensures play { OnOk result (IsPlayKept G.Game game.now play.old play.new) }
{
    let mut place = 0;
    while let Some(own) = game.legal(here, asked.role, place) {
        add_move_lines(game, asked, here, own, play, output)?;
        place += 1;
    }
    Ok(())
}

/// What each legal move of a role makes sure of, with the line of play behind it; where there is no turn to come, what the role gets.
pub(crate) fn moves_with_lines<G: Game>(
    alloc: Global,
    game: &G,
    asked: Question,
    here: &G::Pos,
    play: &mut Play<G>,
) -> Result<Vec<u8>, AllocError>
    requires fits { G.fits game.now here.now }
    requires play { IsPlayFor G.Game game.now asked.role asked.depth play.old }
    ensures lines { IfOk result (λ output. output.items
        ≡ moves_with_lines (named (G.rules game.now) (G.role_name game.now) (G.move_name game.now)) asked.role asked.depth asked.at (G.state game.now here.now)) }
    ensures play { OnOk result (IsPlayKept G.Game game.now play.old play.new) }
{
    if is_closed(game, here, asked.depth) {
        return best_lines(alloc, game, asked, here, play);
    }
    let mut output = Vec::new(alloc);
    add_each(game, asked, here, play, &mut output)?;
    Ok(output)
}

//! The value of a state, the move that makes sure of it, and the line of play, as lines.
ghost use Rattle.std.specs.Prelude.{◌≡◌, ◌≤◌, ◌<◌, ◌++◌, pos, IfOk, IfSome, OnOk};
ghost use Rattle.statement.specs.Value.{value, choice_of};
ghost use Rattle.maximin.specs.Room.{IsRoomOf, room_depth};
ghost use Rattle.program_searches.specs.Histories.{named};
ghost use Rattle.program_searches.specs.Play.{IsFoundOf, IsPlayFor, IsPlayKept};
ghost use Rattle.statement.specs.Solving.{move_line, choice_text, solve_lines};

use crate::finding::{Found, found_in};
use crate::play::Play;
use crate::writing::{write_choice, write_found};
use game::{Game, Question};
use maximin::Room;
use std::alloc::{AllocError, Global};

/// Adds the line of the move that a role should play. After an error the output may have a beginning of it.
pub(crate) fn add_choice<G: Game>(
    game: &G,
    role: usize,
    chosen: Option<u32>,
    output: &mut Vec<u8>,
) -> Result<(), AllocError>
    requires role { role < (G.rules game.now).roles }
    requires chosen { IfSome chosen (λ own. own < (G.rules game.now).moves role) }
    ensures { OnOk result (output.new.items ≡ output.old.items
        ++ move_line (choice_text (named (G.rules game.now) (G.role_name game.now) (G.move_name game.now)) role chosen)) }
{
    let Ok(()) = write_choice(game, role, chosen, output) else {
        return Err(AllocError);
    };
    Ok(())
}

/// The value of a state for a role, the move that makes sure of it, and the line of play, as lines, from the value and the first best
/// move, with the room of the search.
pub fn value_lines<G: Game>(
    alloc: Global,
    game: &G,
    asked: Question,
    found: Found,
    here: G::Pos,
    room: Room<G>,
) -> Result<Vec<u8>, AllocError>
    requires fits { G.fits game.now here }
    requires role { asked.role < (G.rules game.now).roles }
    requires room { IsRoomOf G.Game game.now room }
    requires deep { asked.depth ≤ room_depth room }
    requires value { found.value ≡ pos (value (G.rules game.now) asked.role asked.depth asked.at (G.state game.now here)) }
    requires choice { found.choice ≡ choice_of (G.rules game.now) asked.role asked.depth asked.at (G.state game.now here) }
    ensures { IfOk result (λ output. output.items
        ≡ solve_lines (named (G.rules game.now) (G.role_name game.now) (G.move_name game.now)) asked.role asked.depth asked.at (G.state game.now here)) }
{
    let mut play = Play::new(alloc, game, here, room)?;
    let mut output = Vec::new(alloc);
    let Ok(()) = write_found(game, asked, &found, &mut play, &mut output) else {
        return Err(AllocError);
    };
    Ok(output)
}

/// The same of a state that stays, from the value and the first best move, by play in the memory that is given.
pub(crate) fn lines_of_found<G: Game>(
    alloc: Global,
    game: &G,
    asked: Question,
    found: &Found,
    here: &G::Pos,
    play: &mut Play<G>,
) -> Result<Vec<u8>, AllocError>
    requires fits { G.fits game.now here.now }
    requires play { IsPlayFor G.Game game.now asked.role asked.depth play.old }
    requires found { IsFoundOf (G.rules game.now) asked.role asked.depth asked.at (G.state game.now here.now) found.now }
    ensures lines { IfOk result (λ output. output.items
        ≡ solve_lines (named (G.rules game.now) (G.role_name game.now) (G.move_name game.now)) asked.role asked.depth asked.at (G.state game.now here.now)) }
    ensures play { OnOk result (IsPlayKept G.Game game.now play.old play.new) }
{
    play.stand(game, here);
    let mut output = Vec::new(alloc);
    let Ok(()) = write_found(game, asked, found, play, &mut output) else {
        return Err(AllocError);
    };
    Ok(output)
}

/// The same by one search.
pub(crate) fn best_lines<G: Game>(
    alloc: Global,
    game: &G,
    asked: Question,
    here: &G::Pos,
    play: &mut Play<G>,
) -> Result<Vec<u8>, AllocError>
    requires fits { G.fits game.now here.now }
    requires play { IsPlayFor G.Game game.now asked.role asked.depth play.old }
    ensures lines { IfOk result (λ output. output.items
        ≡ solve_lines (named (G.rules game.now) (G.role_name game.now) (G.move_name game.now)) asked.role asked.depth asked.at (G.state game.now here.now)) }
    ensures play { OnOk result (IsPlayKept G.Game game.now play.old play.new) }
{
    let found = found_in(game, here, asked, &mut play.room);
    lines_of_found(alloc, game, asked, &found, here, play)
}

//! What one search finds of a state: its value, and the first best move.
ghost use Rattle.maximin.specs.Room.{IsRoomFor, IsRoomKept};
ghost use Rattle.program_searches.specs.Play.{IsFoundOf};

use game::{Game, Question, is_stuck};
use maximin::{Room, value_and_choice, value_in};

/// What a role can be sure of, and the first move that gets it, if there is a turn to come.
#[derive(Drop)]
pub struct Found {
    pub value: i16,
    pub choice: Option<u32>,
}

/// The value of a state and the first best move, which one search of the state tells.
pub(crate) fn found_in<G: Game>(
    game: &G,
    here: &G::Pos,
    asked: Question,
    room: &mut Room<G>,
) -> Found
    requires fits { G.fits game.now here.now }
    requires room { IsRoomFor G.Game game.now asked.role asked.depth room.old }
    ensures found { IsFoundOf (G.rules game.now) asked.role asked.depth asked.at (G.state game.now here.now) result }
    ensures room { IsRoomKept G.Game game.now room.old room.new }
{
    if asked.depth == 0 || game.ended(here) || is_stuck(game, here) {
        let value = value_in(game, here, asked, -1, 101, room);
        return Found {
            value,
            choice: None,
        };
    }
    let (value, place) = value_and_choice(game, here, asked, room);
    Found {
        value,
        choice: game.legal(here, asked.role, place),
    }
}

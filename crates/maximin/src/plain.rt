//! A room that shares nothing with others, so that it may go from one thread to another with its search.
ghost use Rattle.std.specs.Prelude.{◌≡◌, ◌<◌, ◌≤◌, IfOk};
ghost use Rattle.game.specs.Value.{Answers};
ghost use Rattle.statement.specs.Value.{value};
ghost use Rattle.maximin.specs.Memory.{ArePositionsOf};
ghost use Rattle.maximin.specs.Plain.{IsOwnOf, ArePartsOf, IsPlainOf, plain_depth};
ghost use Rattle.maximin.specs.Room.{IsRoomOf, room_depth};
ghost use Rattle.maximin.specs.Tools.{IsWindow};

use crate::history::History;
use crate::level::Level;
use crate::memory::{Memory, Positions};
use crate::room::{Room, value_in};
use crate::sight::Sight;
use crate::tools::Tools;
use game::{Game, Question};
use search_table::PositionTable;
use std::alloc::{AllocError, Global};

/// What a room is made of, but for tables of others.
#[derive(Drop)]
pub struct PlainParts<G: Game> {
    pub wide: G::Wide,
    pub history: History,
    pub sight: Sight,
    pub judges: bool,
    pub table: Option<PositionTable>,
    pub key: Vec<u64>,
    pub keys: Vec<u64>,
    pub levels: Vec<Level<G::Pos, G::Many>>,
}

/// All the memory of a search that shares nothing. Between searches its parts are there.
#[derive(Drop)]
pub struct PlainRoom<G: Game> {
    pub(crate) parts: Option<PlainParts<G>>,
}

/// The table that is not shared.
fn own_table<G: Game>(_game: &G, positions: Positions<G>) -> Option<PositionTable>
    requires { ArePositionsOf G.Game _game.now positions }
    ensures { IsOwnOf G.Game _game.now result }
{
    match positions {
        Positions::Nowhere => None,
        Positions::Own(table) => Some(table),
        Positions::Shared(_) => None,
    }
}

/// Where a table of one's own keeps bounds.
fn own_place<G: Game>(_game: &G, table: Option<PositionTable>) -> Positions<G>
    requires { IsOwnOf G.Game _game.now table }
    ensures { ArePositionsOf G.Game _game.now result }
{
    match table {
        None => Positions::Nowhere,
        Some(table) => Positions::Own(table),
    }
}

/// A room without the tables of others.
pub fn closed_room<G: Game>(game: &G, room: Room<G>) -> PlainRoom<G>
    requires { IsRoomOf G.Game game.now room }
    ensures room { IsPlainOf G.Game game.now result }
    ensures depth { plain_depth result ≡ room_depth room }
{
    let Room { tools, levels } = room;
    let Tools {
        wide,
        history,
        memory,
        sight,
        judges,
    } = tools;
    let Memory {
        positions,
        key,
        keys,
    } = memory;
    let table = own_table(game, positions);
    PlainRoom {
        parts: Some(PlainParts {
            wide,
            history,
            sight,
            judges,
            table,
            key,
            keys,
            levels,
        }),
    }
}

/// The room of these parts.
fn room_of<G: Game>(game: &G, parts: PlainParts<G>) -> Room<G>
    requires { ArePartsOf G.Game game.now parts }
    ensures room { IsRoomOf G.Game game.now result }
    ensures levels { result.levels ≡ parts.levels }
{
    let PlainParts {
        wide,
        history,
        sight,
        judges,
        table,
        key,
        keys,
        levels,
    } = parts;
    let positions = own_place(game, table);
    let memory = Memory {
        positions,
        key,
        keys,
    };
    let tools = Tools {
        wide,
        history,
        memory,
        sight,
        judges,
    };
    Room { tools, levels }
}

/// The room to search in.
pub fn open_room<G: Game>(game: &G, room: PlainRoom<G>) -> Room<G>
    requires { IsPlainOf G.Game game.now room }
    ensures room { IsRoomOf G.Game game.now result }
    ensures depth { room_depth result ≡ plain_depth room }
{
    let parts = room.parts.unwrap();
    room_of(game, parts)
}

impl<G: Game> PlainRoom<G> {
    /// A room for searches of this game to the depth of a question, with a table as in `Room::with_table`. Nothing else here takes
    /// memory.
    pub fn with_table(
        alloc: Global,
        game: &G,
        asked: Question,
        bytes: usize,
    ) -> Result<PlainRoom<G>, AllocError>
        ensures room { IfOk result (λ room. IsPlainOf G.Game game.now room) }
        ensures depth { IfOk result (λ room. plain_depth room ≡ asked.depth) }
    {
        let room = Room::with_table(alloc, game, asked, bytes)?;
        Ok(closed_room(game, room))
    }
}

/// The value of a state for a role, within a window, as `value_in` tells it.
pub fn value_in_plain<G: Game>(
    game: &G,
    p: &G::Pos,
    asked: Question,
    a: i16,
    b: i16,
    room: &mut PlainRoom<G>,
) -> i16
    requires fits { G.fits game.now p.now }
    requires role { asked.role < (G.rules game.now).roles }
    requires room { IsPlainOf G.Game game.now room.old }
    requires deep { asked.depth ≤ plain_depth room.old }
    requires window { IsWindow a b }
    ensures answers { Answers (value (G.rules game.now) asked.role asked.depth asked.at (G.state game.now p.now)) a b result }
    ensures room { IsPlainOf G.Game game.now room.new }
    ensures depth { plain_depth room.new ≡ plain_depth room.old }
{
    let parts = room.parts.take().unwrap();
    let mut open = room_of(game, parts);
    let worth = value_in(game, p, asked, a, b, &mut open);
    *room = closed_room(game, open);
    worth
}

//! The choice and the reply where it is known what they are worth. These searches answer unless they are to end without an answer.
ghost use Rattle.std.specs.Prelude.{◌≡◌, ◌+◌, ◌<◌, ◌≤◌, pos, false, Some, All, length, IfOk, OnOk};
ghost use Rattle.statement.specs.Rules.{is_stuck as stuck};
ghost use Rattle.statement.specs.Value.{choice_of, reply_of, value, worst};
ghost use Rattle.maximin.specs.Replies.{IsWritten};
ghost use Rattle.maximin.specs.Tools.{AreFit, AreKept};

use crate::cursor::{next_turn, start_turns, write_joint};
use crate::ending::Ending;
use crate::level::Level;
use crate::search::{try_value_within, try_worst_at};
use crate::tools::Tools;
use crate::window::SearchWindow;
use game::{Game, Joint, Question, is_stuck};

/// The first move of the role that attains the value of the state, which is `worth`. A move that has no other behind it attains it
/// where none before it does.
pub fn try_choice_worth<G: Game, E: Ending>(
    game: &G,
    from: &G::Pos,
    asked: Question,
    worth: i16,
    tools: &mut Tools<G>,
    levels: &mut [Level<G::Pos, G::Many>],
) -> Result<Option<u32>, E>
    requires fits { G.fits game.now from.now }
    requires fit { AreFit G.Game game.now asked.role asked.depth tools.old levels.old }
    requires worth { worth ≡ pos (value (G.rules game.now) asked.role asked.depth asked.at (G.state game.now from.now)) }
    ensures choice { IfOk result (λ choice. choice ≡ choice_of (G.rules game.now) asked.role asked.depth asked.at (G.state game.now from.now)) }
    ensures kept { AreKept G.Game game.now tools.old levels.old tools.new levels.new }
{
    if asked.depth == 0 || game.ended(from) || is_stuck(game, from) {
        return Ok(None);
    }
    let Some(first) = game.legal(from, asked.role, 0) else {
        return Ok(None);
    };
    if worth == 0 {
        return Ok(Some(first));
    }
    let next = Question {
        depth: asked.depth - 1,
        ..asked
    };
    let mut own = first;
    let mut place = 0;
    while let Some(further) = game.legal(from, asked.role, place + 1) {
        let window = SearchWindow {
            low: worth - 1,
            high: worth,
        };
        let least = try_worst_at::<G, E>(game, from, next, own, window, tools, levels)?;
        if least.worth >= worth {
            return Ok(Some(own));
        }
        own = further;
        place += 1;
    }
    Ok(Some(own))
}

/// A move of the role, and the least value that it leaves.
#[derive(Clone, Copy)]
pub struct KnownMove {
    pub own: u32,
    pub worth: i16,
}

/// Writes the first joint move that leaves the least value where the role plays a move of which that is known. A joint move that has
/// no other behind it leaves it where none before it does.
pub fn try_reply_worth<G: Game, E: Ending>(
    game: &G,
    from: &G::Pos,
    asked: Question,
    known: KnownMove,
    tools: &mut Tools<G>,
    levels: &mut [Level<G::Pos, G::Many>],
    out: &mut Joint,
) -> Result<(), E>
    requires fits { G.fits game.now from.now }
    requires fit { AreFit G.Game game.now asked.role (asked.depth + 1) tools.old levels.old }
    requires own { known.own < (G.rules game.now).moves asked.role }
    requires open { stuck (G.rules game.now) (G.state game.now from.now) ≡ false }
    requires worth { known.worth ≡ pos (worst (G.rules game.now) asked.role asked.depth asked.at (G.state game.now from.now) known.own) }
    requires out { (G.rules game.now).roles ≤ out.old.capacity }
    ensures reply { OnOk result (IsWritten (reply_of (G.rules game.now) asked.role asked.depth asked.at (G.state game.now from.now) known.own) out.old out.new) }
    ensures capacity { out.new.capacity ≡ out.old.capacity }
    ensures kept { AreKept G.Game game.now tools.old levels.old tools.new levels.new }
{
    let (first, rest) = levels.split_at_mut(1);
    let level = &mut first[0];
    let window = SearchWindow {
        low: known.worth,
        high: known.worth + 1,
    };
    let role = asked.role;
    start_turns(game, from, role, known.own, &mut level.moves.cursor);
    'turns: loop {
        write_joint(&level.moves.cursor.joint, out);
        if !next_turn(game, from, role, known.own, &mut level.moves.cursor) {
            return Ok(());
        }
        let position = &mut level.children.position;
        game.step(from, out, position);
        let value = try_value_within::<G, E>(game, position, asked, window, tools, rest)?;
        if value <= known.worth {
            return Ok(());
        }
    }
}

//! The first move that makes sure of so much, and how much a move makes sure of.
ghost use Rattle.std.specs.Prelude.{◌≡◌, ◌+◌, ◌<◌, ◌≤◌, nat_le, pos, false};
ghost use Rattle.statement.specs.Rules.{is_stuck as stuck};
ghost use Rattle.statement.specs.Value.{worst};
ghost use Rattle.statement.specs.Within.{first_at_least};
ghost use Rattle.maximin.specs.Tools.{AreFit, AreKept, IsWindow};

use crate::level::Level;
use crate::search::worst_at;
use crate::tools::Tools;
use crate::window::SearchWindow;
use game::{Game, Question, is_stuck};

/// The window that tells whether a value is so much or more.
fn window_below(bound: u8) -> SearchWindow
    requires { bound ≤ 101 }
    ensures window { IsWindow result.low result.high }
    ensures high { result.high ≡ pos bound }
{
    let high = i16::from(bound);
    SearchWindow {
        low: high - 1,
        high,
    }
}

/// Whether a move makes sure of so much or more.
fn reaches<G: Game>(
    game: &G,
    from: &G::Pos,
    asked: Question,
    own: u32,
    bound: u8,
    tools: &mut Tools<G>,
    levels: &mut [Level<G::Pos, G::Many>],
) -> bool
    requires fits { G.fits game.now from.now }
    requires fit { AreFit G.Game game.now asked.role (asked.depth + 1) tools.old levels.old }
    requires own { own < (G.rules game.now).moves asked.role }
    requires open { stuck (G.rules game.now) (G.state game.now from.now) ≡ false }
    requires bound { bound ≤ 101 }
    ensures reaches { result ≡ nat_le bound (worst (G.rules game.now) asked.role asked.depth asked.at (G.state game.now from.now) own) }
    ensures kept { AreKept G.Game game.now tools.old levels.old tools.new levels.new }
{
    let window = window_below(bound);
    let worth = worst_at(game, from, asked, own, window, tools, levels);
    worth >= window.high
}

/// The first legal move of the role, in printed order, that makes sure of so much or more.
pub fn first_reaching<G: Game>(
    game: &G,
    from: &G::Pos,
    asked: Question,
    bound: u8,
    tools: &mut Tools<G>,
    levels: &mut [Level<G::Pos, G::Many>],
) -> Option<u32>
    requires fits { G.fits game.now from.now }
    requires fit { AreFit G.Game game.now asked.role asked.depth tools.old levels.old }
    requires bound { bound ≤ 101 }
    ensures first { result ≡ first_at_least (G.rules game.now) asked.role asked.depth asked.at bound (G.state game.now from.now) }
    ensures kept { AreKept G.Game game.now tools.old levels.old tools.new levels.new }
{
    if asked.depth == 0 || game.ended(from) || is_stuck(game, from) {
        return None;
    }
    let next = Question {
        depth: asked.depth - 1,
        ..asked
    };
    let mut place = 0;
    while let Some(own) = game.legal(from, asked.role, place) {
        if reaches(game, from, next, own, bound, tools, levels) {
            return Some(own);
        }
        place += 1;
    }
    None
}

//! The last turn, where all that counts is whether the game ends in it.
ghost use Rattle.std.specs.Prelude.{◌≡◌, ◌+◌, ◌<◌, ◌≤◌, pos, true, [], length, map, max, min, take, drop, get_or};
ghost use Rattle.statement.specs.declared.at_bound.AtBound.TheVariants.{Zero};
ghost use Rattle.game.specs.Value.{Answers};
ghost use Rattle.statement.specs.Value.{greatest, least, value};
ghost use Rattle.maximin.specs.Judged.{AreJudged, CanBeStepped};

use crate::window::SearchWindow;
use game::{AtBound, Game, Joint, Question};

/// Plays joint moves for the end of the game alone, where the states after them are those of the last turn, and worth nothing unless
/// the game has ended. The answer is false where they are to be stepped.
pub fn judge_last<G: Game>(
    game: &G,
    from: &G::Pos,
    joints: &[Joint],
    asked: Question,
    wide: &mut G::Wide,
) -> bool
    requires from { G.fits game.now from.now }
    requires joints { CanBeStepped (G.rules game.now) joints.now }
    requires wide { G.fits_wide game.now wide.old }
    ensures wide { G.fits_wide game.now wide.new }
    ensures wide_capacities { G.wide_capacities game.now wide.new ≡ G.wide_capacities game.now wide.old }
    ensures judged { result ≡ true → AreJudged G.Game game.now asked (G.state game.now from.now) joints.now wide.new }
{
    match (asked.depth, asked.at) {
        (0, AtBound::Zero) => game.judge(from, joints, wide),
        _ => false,
    }
}

/// The goal value in one of the judged states, or 0 where the game has not ended there: what the state is worth.
fn judged_goal<G: Game>(game: &G, wide: &G::Wide, place: usize, asked: Question) -> u8
    requires wide { G.fits_wide game.now wide.now }
    requires place { place < length (G.judged game.now wide.now) }
    requires role { asked.role < (G.rules game.now).roles }
    requires depth { asked.depth ≡ 0 }
    requires bound { asked.at ≡ Zero }
    ensures { result ≡ value (G.rules game.now) asked.role asked.depth asked.at (get_or (G.judged game.now wide.now) place []) }
{
    game.verdict(wide, place, asked.role).unwrap_or(0)
}

/// What one of the judged states is worth.
fn judged_worth<G: Game>(game: &G, wide: &G::Wide, place: usize, asked: Question) -> i16
    requires wide { G.fits_wide game.now wide.now }
    requires place { place < length (G.judged game.now wide.now) }
    requires role { asked.role < (G.rules game.now).roles }
    requires depth { asked.depth ≡ 0 }
    requires bound { asked.at ≡ Zero }
    ensures { result ≡ pos
        (value (G.rules game.now) asked.role asked.depth asked.at (get_or (G.judged game.now wide.now) place [])) }
{
    i16::from(judged_goal(game, wide, place, asked))
}

/// The least value of the judged states, within a window.
pub fn least_judged<G: Game>(
    game: &G,
    wide: &G::Wide,
    count: usize,
    asked: Question,
    window: SearchWindow,
) -> i16
    requires wide { G.fits_wide game.now wide.now }
    requires count { count ≡ length (G.judged game.now wide.now) }
    requires some { 0 < count }
    requires role { asked.role < (G.rules game.now).roles }
    requires depth { asked.depth ≡ 0 }
    requires bound { asked.at ≡ Zero }
    ensures { Answers (least (map (value (G.rules game.now) asked.role asked.depth asked.at) (G.judged game.now wide.now))) window.low window.high result }
{
    let mut upper = window.high;
    for place in 0..count {
        upper = upper.min(judged_worth(game, wide, place, asked));
        if upper <= window.low {
            return upper;
        }
    }
    upper
}

/// The greatest value of the judged states, within a window.
pub fn greatest_judged<G: Game>(
    game: &G,
    wide: &G::Wide,
    count: usize,
    asked: Question,
    window: SearchWindow,
) -> i16
    requires wide { G.fits_wide game.now wide.now }
    requires count { count ≡ length (G.judged game.now wide.now) }
    requires some { 0 < count }
    requires role { asked.role < (G.rules game.now).roles }
    requires depth { asked.depth ≡ 0 }
    requires bound { asked.at ≡ Zero }
    ensures { Answers (greatest (map (value (G.rules game.now) asked.role asked.depth asked.at) (G.judged game.now wide.now))) window.low window.high result }
{
    let mut lower = window.low;
    for place in 0..count {
        lower = lower.max(judged_worth(game, wide, place, asked));
        if lower >= window.high {
            return lower;
        }
    }
    lower
}

/// The lesser of two goal values.
fn lesser(goal: u8, other: u8) -> u8
    ensures { result ≡ min goal other }
{
    goal.min(other)
}

/// The greater of two goal values.
fn greater(goal: u8, other: u8) -> u8
    ensures { result ≡ max goal other }
{
    goal.max(other)
}

/// The least value of some of the judged states, which stand one behind the other.
pub fn least_of<G: Game>(
    game: &G,
    wide: &G::Wide,
    first: usize,
    count: usize,
    asked: Question,
) -> u8
    requires wide { G.fits_wide game.now wide.now }
    requires some { 0 < count }
    requires few { length (G.judged game.now wide.now) ≤ 64 }
    requires within { first + count ≤ length (G.judged game.now wide.now) }
    requires role { asked.role < (G.rules game.now).roles }
    requires depth { asked.depth ≡ 0 }
    requires bound { asked.at ≡ Zero }
    ensures { result ≡ least (map (value (G.rules game.now) asked.role asked.depth asked.at)
        (take count (drop first (G.judged game.now wide.now)))) }
{
    let mut lowest = judged_goal(game, wide, first, asked);
    for place in 1..count {
        lowest = lesser(lowest, judged_goal(game, wide, first + place, asked));
    }
    lowest
}

/// The greatest value of some of the judged states, which stand one behind the other.
pub fn greatest_of<G: Game>(
    game: &G,
    wide: &G::Wide,
    first: usize,
    count: usize,
    asked: Question,
) -> u8
    requires wide { G.fits_wide game.now wide.now }
    requires few { length (G.judged game.now wide.now) ≤ 64 }
    requires within { first + count ≤ length (G.judged game.now wide.now) }
    requires role { asked.role < (G.rules game.now).roles }
    requires depth { asked.depth ≡ 0 }
    requires bound { asked.at ≡ Zero }
    ensures { result ≡ greatest (map (value (G.rules game.now) asked.role asked.depth asked.at)
        (take count (drop first (G.judged game.now wide.now)))) }
{
    let mut highest = 0;
    for place in 0..count {
        highest = greater(highest, judged_goal(game, wide, first + place, asked));
    }
    highest
}

//! The first best move of a state with a turn to come. As the search below, this answers unless it is to end without an answer.
ghost use Rattle.std.specs.Prelude.{◌≡◌, ◌+◌, ◌-◌, ◌<◌, ◌≤◌, ◌<ℤ◌, ◌≤ℤ◌, ◌^◌, ℕ, pos, negsuc, false, [], length, get_or, slice_get, IfOk};
ghost use Rattle.std.specs.Int.{int_max};
ghost use Rattle.statement.specs.Rules.{is_stuck as stuck};
ghost use Rattle.game.specs.Value.{Answers};
ghost use Rattle.statement.specs.Value.{choice_of, value, worst};
ghost use Rattle.maximin.specs.Alone.{IsAlone};
ghost use Rattle.maximin.specs.Best.{AreNextMoves, IsBest, IsBestOf, own_worth};
ghost use Rattle.maximin.specs.Children.{AreLookedAt, AreSameStates};
ghost use Rattle.maximin.specs.Level.{IsFilled, IsLevelKept};
ghost use Rattle.maximin.specs.Open.{IsOpen};
ghost use Rattle.maximin.specs.Run.{turns_in};
ghost use Rattle.maximin.specs.Tools.{AreFit, AreKept};

use crate::ahead::new_ahead;
use crate::alone::{gather_own, is_alone};
use crate::children::Children;
use crate::cursor::start_turns;
use crate::ending::Ending;
use crate::level::Level;
use crate::run::LONGEST_RUN;
use crate::search::{GREATEST, LEAST, try_child_at, try_worst_at};
use crate::tools::Tools;
use crate::window::SearchWindow;
use game::{Game, Question, is_stuck};
use std::convert::Infallible;

/// The best of the first moves.
#[derive(Clone, Copy)]
pub struct Best {
    /// What it is worth; -1 before there is one.
    pub worth: i16,
    /// The place of the first move that is worth that.
    pub place: usize,
    /// How many moves were seen.
    pub seen: usize,
}

/// The best of no moves.
fn no_best() -> Best
    ensures worth { result.worth ≡ negsuc 0 }
    ensures place { result.place ≡ 0 }
    ensures seen { result.seen ≡ 0 }
{
    Best {
        worth: -1,
        place: 0,
        seen: 0,
    }
}

/// The best of the moves that were seen and of the next one, whose worth was found in the window from the best to 101.
fn better_of(best: Best, worth: i16) -> Best
    requires few { best.seen + 1 < 2 ^ 64 }
    ensures greater { result.worth ≡ int_max best.worth worth }
    ensures seen { result.seen ≡ best.seen + 1 }
    ensures best { (own : ℕ → ℕ) → own best.seen ≤ 100 → Answers (own best.seen) best.worth (pos 101) worth
        → IsBest own best.seen best.worth best.place → IsBest own (best.seen + 1) result.worth result.place }
{
    let seen = best.seen + 1;
    if worth > best.worth {
        return Best {
            worth,
            place: best.seen,
            seen,
        };
    }
    Best { seen, ..best }
}

/// The value of one of many states, in the window from the best worth so far to 101.
fn child_above<G: Game, E: Ending>(
    game: &G,
    place: usize,
    asked: Question,
    best: i16,
    tools: &mut Tools<G>,
    children: &mut Children<G::Pos, G::Many>,
    levels: &mut [Level<G::Pos, G::Many>],
) -> Result<i16, E>
    requires place { place < length (G.states game.now children.old.many) }
    requires fit { AreFit G.Game game.now asked.role asked.depth tools.old levels.old }
    requires children { AreLookedAt G.Game game.now asked children.old }
    requires best { (negsuc 0 ≤ℤ best) × (best <ℤ pos 101) }
    ensures answers { IfOk result (Answers (value (G.rules game.now) asked.role asked.depth asked.at (get_or (G.states game.now children.old.many) place []))
        best (pos 101)) }
    ensures kept { AreKept G.Game game.now tools.old levels.old tools.new levels.new }
    ensures children { AreLookedAt G.Game game.now asked children.new }
    ensures same { AreSameStates G.Game game.now children.old children.new }
{
    let low = best.max(LEAST);
    if low >= GREATEST {
        return Ok(low);
    }
    let window = SearchWindow {
        low,
        high: GREATEST,
    };
    let answer = try_child_at::<G, E>(game, place, asked, window, tools, children, levels)?;
    Ok(answer.worth)
}

/// The first best move up to the end of a run of moves. These are the states after them.
fn best_among<G: Game, E: Ending>(
    game: &G,
    asked: Question,
    best: Best,
    tools: &mut Tools<G>,
    children: &mut Children<G::Pos, G::Many>,
    levels: &mut [Level<G::Pos, G::Many>],
) -> Result<Best, E>
    requires fit { AreFit G.Game game.now asked.role asked.depth tools.old levels.old }
    requires children { AreLookedAt G.Game game.now asked children.old }
    requires few { best.seen + length (G.states game.now children.old.many) < 2 ^ 64 }
    requires range { (negsuc 0 ≤ℤ best.worth) × (best.worth <ℤ pos 101) }
    ensures best { IfOk result (λ found. (own : ℕ → ℕ) → ((k : ℕ) → k < length (G.states game.now children.old.many)
        → value (G.rules game.now) asked.role asked.depth asked.at (get_or (G.states game.now children.old.many) k []) ≡ own (best.seen + k))
        → IsBest own best.seen best.worth best.place → IsBestOf own (best.seen + length (G.states game.now children.old.many)) found) }
    ensures kept { AreKept G.Game game.now tools.old levels.old tools.new levels.new }
    ensures same { AreSameStates G.Game game.now children.old children.new }
{
    let mut best = best;
    for child in 0..children.ahead.count {
        let worth = child_above::<G, E>(game, child, asked, best.worth, tools, children, levels)?;
        best = better_of(best, worth);
    }
    Ok(best)
}

/// The first best move up to the end of a level's run, which stands behind the moves that were seen.
fn best_after<G: Game, E: Ending>(
    game: &G,
    from: &G::Pos,
    asked: Question,
    best: Best,
    tools: &mut Tools<G>,
    level: &mut Level<G::Pos, G::Many>,
    levels: &mut [Level<G::Pos, G::Many>],
) -> Result<Best, E>
    requires fits { G.fits game.now from.now }
    requires fit { AreFit G.Game game.now asked.role asked.depth tools.old levels.old }
    requires level { IsFilled G.Game game.now level.old }
    requires moves { AreNextMoves (G.rules game.now) asked (G.state game.now from.now) best.seen (turns_in level.old.moves.run) }
    requires best { IsBest (own_worth (G.rules game.now) asked.role asked.depth asked.at (G.state game.now from.now)) best.seen best.worth best.place }
    ensures best { IfOk result (IsBestOf (own_worth (G.rules game.now) asked.role asked.depth asked.at (G.state game.now from.now))
        (best.seen + level.old.moves.run.count)) }
    ensures kept { AreKept G.Game game.now tools.old levels.old tools.new levels.new }
    ensures level { IsLevelKept G.Game game.now level.old level.new }
{
    let count = level.moves.run.count;
    let joints = &level.moves.run.joints[..count];
    game.steps(from, joints, &mut tools.wide, &mut level.children.many);
    level.children.ahead = new_ahead(count);
    best_among::<G, E>(game, asked, best, tools, &mut level.children, levels)
}

/// The first best of all moves, where no other role has a choice: they are stepped by runs.
fn best_alone<G: Game, E: Ending>(
    game: &G,
    from: &G::Pos,
    asked: Question,
    tools: &mut Tools<G>,
    levels: &mut [Level<G::Pos, G::Many>],
) -> Result<Best, E>
    requires fits { G.fits game.now from.now }
    requires fit { AreFit G.Game game.now asked.role (asked.depth + 1) tools.old levels.old }
    requires open { stuck (G.rules game.now) (G.state game.now from.now) ≡ false }
    requires alone { IsAlone (G.rules game.now) (G.state game.now from.now) asked.role }
    ensures best { IfOk result (λ found. IsBest (own_worth (G.rules game.now) asked.role asked.depth asked.at (G.state game.now from.now))
        (length ((G.rules game.now).legal (G.state game.now from.now) asked.role)) found.worth found.place) }
    ensures kept { AreKept G.Game game.now tools.old levels.old tools.new levels.new }
{
    let (first, rest) = levels.split_at_mut(1);
    let level = &mut first[0];
    start_turns(game, from, asked.role, 0, &mut level.moves.cursor);
    let mut best = no_best();
    'runs: loop {
        gather_own(
            game,
            from,
            asked.role,
            best.seen,
            &level.moves.cursor.joint,
            LONGEST_RUN,
            &mut level.moves.run,
        );
        if level.moves.run.count == 0 {
            return Ok(best);
        }
        best = best_after::<G, E>(game, from, asked, best, tools, level, rest)?;
    }
}

/// The least value of a state that can follow where the role plays `own`, in the window from the best worth so far to 101.
fn worst_above<G: Game, E: Ending>(
    game: &G,
    from: &G::Pos,
    asked: Question,
    own: u32,
    best: i16,
    tools: &mut Tools<G>,
    levels: &mut [Level<G::Pos, G::Many>],
) -> Result<i16, E>
    requires fits { G.fits game.now from.now }
    requires fit { AreFit G.Game game.now asked.role (asked.depth + 1) tools.old levels.old }
    requires own { own < (G.rules game.now).moves asked.role }
    requires open { stuck (G.rules game.now) (G.state game.now from.now) ≡ false }
    requires best { (negsuc 0 ≤ℤ best) × (best <ℤ pos 101) }
    ensures answers { IfOk result (Answers (worst (G.rules game.now) asked.role asked.depth asked.at (G.state game.now from.now) own) best (pos 101)) }
    ensures kept { AreKept G.Game game.now tools.old levels.old tools.new levels.new }
{
    let low = best.max(LEAST);
    if low >= GREATEST {
        return Ok(low);
    }
    let window = SearchWindow {
        low,
        high: GREATEST,
    };
    let answer = try_worst_at::<G, E>(game, from, asked, own, window, tools, levels)?;
    Ok(answer.worth)
}

/// The first best of all moves, one by one.
fn best_of_each<G: Game, E: Ending>(
    game: &G,
    from: &G::Pos,
    asked: Question,
    tools: &mut Tools<G>,
    levels: &mut [Level<G::Pos, G::Many>],
) -> Result<Best, E>
    requires fits { G.fits game.now from.now }
    requires fit { AreFit G.Game game.now asked.role (asked.depth + 1) tools.old levels.old }
    requires open { stuck (G.rules game.now) (G.state game.now from.now) ≡ false }
    ensures best { IfOk result (λ found. IsBest (own_worth (G.rules game.now) asked.role asked.depth asked.at (G.state game.now from.now))
        (length ((G.rules game.now).legal (G.state game.now from.now) asked.role)) found.worth found.place) }
    ensures kept { AreKept G.Game game.now tools.old levels.old tools.new levels.new }
{
    let mut best = no_best();
    while let Some(own) = game.legal(from, asked.role, best.seen) {
        let worth = worst_above::<G, E>(game, from, asked, own, best.worth, tools, levels)?;
        best = better_of(best, worth);
    }
    Ok(best)
}

/// The value of a state with a turn to come, and the place of the first move of the role that attains it.
pub fn try_best_move<G: Game, E: Ending>(
    game: &G,
    from: &G::Pos,
    asked: Question,
    tools: &mut Tools<G>,
    levels: &mut [Level<G::Pos, G::Many>],
) -> Result<Best, E>
    requires fits { G.fits game.now from.now }
    requires fit { AreFit G.Game game.now asked.role asked.depth tools.old levels.old }
    requires turn { IsOpen (G.rules game.now) asked.depth (G.state game.now from.now) }
    ensures value { IfOk result (λ best. best.worth ≡ pos (value (G.rules game.now) asked.role asked.depth asked.at (G.state game.now from.now))) }
    ensures choice { IfOk result (λ best. choice_of (G.rules game.now) asked.role asked.depth asked.at (G.state game.now from.now)
        ≡ slice_get ((G.rules game.now).legal (G.state game.now from.now) asked.role) best.place) }
    ensures within { IfOk result (λ best. best.place < length ((G.rules game.now).legal (G.state game.now from.now) asked.role)) }
    ensures kept { AreKept G.Game game.now tools.old levels.old tools.new levels.new }
{
    let next = Question {
        depth: asked.depth - 1,
        ..asked
    };
    if is_alone(game, from, asked.role) {
        return best_alone::<G, E>(game, from, next, tools, levels);
    }
    best_of_each::<G, E>(game, from, next, tools, levels)
}

/// The same, by a search that always answers.
pub fn best_move<G: Game>(
    game: &G,
    from: &G::Pos,
    asked: Question,
    tools: &mut Tools<G>,
    levels: &mut [Level<G::Pos, G::Many>],
) -> Best
    requires fits { G.fits game.now from.now }
    requires fit { AreFit G.Game game.now asked.role asked.depth tools.old levels.old }
    requires turn { IsOpen (G.rules game.now) asked.depth (G.state game.now from.now) }
    ensures value { result.worth ≡ pos (value (G.rules game.now) asked.role asked.depth asked.at (G.state game.now from.now)) }
    ensures choice { choice_of (G.rules game.now) asked.role asked.depth asked.at (G.state game.now from.now)
        ≡ slice_get ((G.rules game.now).legal (G.state game.now from.now) asked.role) result.place }
    ensures within { result.place < length ((G.rules game.now).legal (G.state game.now from.now) asked.role) }
    ensures kept { AreKept G.Game game.now tools.old levels.old tools.new levels.new }
{
    let Ok(best) = try_best_move::<G, Infallible>(game, from, asked, tools, levels);
    best
}

/// The first move of the role that attains the value of the state.
pub fn choice_at<G: Game>(
    game: &G,
    from: &G::Pos,
    asked: Question,
    tools: &mut Tools<G>,
    levels: &mut [Level<G::Pos, G::Many>],
) -> Option<u32>
    requires fits { G.fits game.now from.now }
    requires fit { AreFit G.Game game.now asked.role asked.depth tools.old levels.old }
    ensures choice { result ≡ choice_of (G.rules game.now) asked.role asked.depth asked.at (G.state game.now from.now) }
    ensures kept { AreKept G.Game game.now tools.old levels.old tools.new levels.new }
{
    if asked.depth == 0 || game.ended(from) || is_stuck(game, from) {
        return None;
    }
    let best = best_move(game, from, asked, tools, levels);
    game.legal(from, asked.role, best.place)
}

//! The search, level by level. It answers, unless it is to end without an answer (`Ending`), as a helper's is or one that is to be short;
//! where it ends so nothing is kept of the states that it was in.
ghost use Rattle.std.specs.Prelude.{◌≡◌, ◌+◌, ◌<◌, ◌≤◌, ◌<ℤ◌, pos, false, [], length, map, get_or, if◌then◌else◌, IfOk};
ghost use Rattle.statement.specs.AtBound.{bound_worth};
ghost use Rattle.statement.specs.Rules.{is_stuck as stuck};
ghost use Rattle.game.specs.Value.{Answers};
ghost use Rattle.statement.specs.Value.{greatest, least, reply_of, value, worst};
ghost use Rattle.maximin.specs.Alone.{IsAlone};
ghost use Rattle.maximin.specs.Answer.{IsAnswer};
ghost use Rattle.maximin.specs.Children.{AreChildrenOf, AreJointsTo, AreLookedAt, AreSameStates};
ghost use Rattle.maximin.specs.Level.{IsFilled, IsLevelKept};
ghost use Rattle.maximin.specs.Run.{turns_in};
ghost use Rattle.maximin.specs.Replies.{IsWritten};
ghost use Rattle.maximin.specs.Tools.{AreFit, AreKept, IsWindow};

use crate::ahead::{bounds_of, greatest_bound, least_bound, look_ahead, look_back, new_ahead};
use crate::alone::{gather_own, is_alone};
use crate::answer::{SearchAnswer, both_last, lesser_lasts};
use crate::children::Children;
use crate::cursor::{next_turn, start_turns, write_joint};
use crate::end::{greatest_judged, judge_last, least_judged};
use crate::ending::Ending;
use crate::history::Movers;
use crate::level::Level;
use crate::memory::{keep, recall};
use crate::moves::gather;
use crate::narrow::{bounds_by, narrowed, settled, widened};
use crate::order::{order_of, put_off};
use crate::run::LONGEST_RUN;
use crate::sight::{mark_state, unmark_state};
use crate::told::{greatest_told, least_told, told_worth};
use crate::tools::Tools;
use crate::window::SearchWindow;
use game::{AtBound, Game, Joint, Question, is_stuck};
use std::convert::Infallible;

/// What a state that is not ended is worth where no turn is left.
fn bound_at<G: Game>(game: &G, from: &G::Pos, role: usize, at: AtBound) -> i16
    requires fits { G.fits game.now from.now }
    requires role { role < (G.rules game.now).roles }
    ensures { result ≡ pos (if stuck (G.rules game.now) (G.state game.now from.now) then 0
        else bound_worth at ((G.rules game.now).goal (G.state game.now from.now) role)) }
{
    match at {
        AtBound::Goal if !is_stuck(game, from) => i16::from(game.goal(from, role)),
        AtBound::Unfinished(worth) if !is_stuck(game, from) => i16::from(worth.value),
        _ => 0,
    }
}

/// The value of a state within a window.
#[cycle(search)]
fn value_at<G: Game, E: Ending>(
    game: &G,
    from: &G::Pos,
    asked: Question,
    window: SearchWindow,
    tools: &mut Tools<G>,
    levels: &mut [Level<G::Pos, G::Many>],
) -> Result<SearchAnswer, E>
    requires fits { G.fits game.now from.now }
    requires fit { AreFit G.Game game.now asked.role asked.depth tools.old levels.old }
    requires window { IsWindow window.low window.high }
    ensures answers { IfOk result (IsAnswer (λ d. value (G.rules game.now) asked.role d asked.at (G.state game.now from.now))
        asked.depth window.low window.high) }
    ensures kept { AreKept G.Game game.now tools.old levels.old tools.new levels.new }
{
    if game.ended(from) {
        return Ok(SearchAnswer {
            worth: i16::from(game.goal(from, asked.role)),
            lasts: true,
        });
    }
    if asked.depth == 0 {
        return Ok(SearchAnswer {
            worth: bound_at(game, from, asked.role, asked.at),
            lasts: false,
        });
    }
    if is_stuck(game, from) {
        return Ok(SearchAnswer {
            worth: 0,
            lasts: true,
        });
    }
    let next = Question {
        depth: asked.depth - 1,
        ..asked
    };
    if is_alone(game, from, asked.role) {
        return best_at::<G, E>(game, from, next, window, tools, levels);
    }
    let mut best = window.low;
    let mut lasts = true;
    let mut place = 0;
    while let Some(own) = game.legal(from, asked.role, place) {
        let above = SearchWindow {
            low: best,
            ..window
        };
        let worst = try_worst_at::<G, E>(game, from, next, own, above, tools, levels)?;
        best = best.max(worst.worth);
        lasts = both_last(lasts, worst);
        if best >= window.high {
            return Ok(SearchAnswer { worth: best, lasts });
        }
        place += 1;
    }
    Ok(SearchAnswer { worth: best, lasts })
}

/// The least value of a state that can follow where the role plays `own`, within a window.
#[cycle(search)]
pub fn try_worst_at<G: Game, E: Ending>(
    game: &G,
    from: &G::Pos,
    asked: Question,
    own: u32,
    window: SearchWindow,
    tools: &mut Tools<G>,
    levels: &mut [Level<G::Pos, G::Many>],
) -> Result<SearchAnswer, E>
    requires fits { G.fits game.now from.now }
    requires fit { AreFit G.Game game.now asked.role (asked.depth + 1) tools.old levels.old }
    requires own { own < (G.rules game.now).moves asked.role }
    requires open { stuck (G.rules game.now) (G.state game.now from.now) ≡ false }
    requires window { IsWindow window.low window.high }
    ensures answers { IfOk result (IsAnswer (λ d. worst (G.rules game.now) asked.role d asked.at (G.state game.now from.now) own)
        asked.depth window.low window.high) }
    ensures kept { AreKept G.Game game.now tools.old levels.old tools.new levels.new }
{
    let (first, rest) = levels.split_at_mut(1);
    let level = &mut first[0];
    start_turns(game, from, asked.role, own, &mut level.moves.cursor);
    let mut upper = window.high;
    let mut lasts = true;
    let mut most = game.abreast();
    'runs: loop {
        let more = gather(game, from, asked.role, own, most, &mut level.moves);
        let below = SearchWindow {
            high: upper,
            ..window
        };
        let least = least_after::<G, E>(game, from, asked, below, tools, level, rest)?;
        lasts = lesser_lasts(upper, lasts, least);
        upper = upper.min(least.worth);
        if upper <= window.low || !more {
            return Ok(SearchAnswer {
                worth: upper,
                lasts,
            });
        }
        most = LONGEST_RUN.min(most * 8);
    }
}

/// The least value of the states after the joint moves of a level's run, within a window.
#[cycle(search)]
fn least_after<G: Game, E: Ending>(
    game: &G,
    from: &G::Pos,
    asked: Question,
    window: SearchWindow,
    tools: &mut Tools<G>,
    level: &mut Level<G::Pos, G::Many>,
    levels: &mut [Level<G::Pos, G::Many>],
) -> Result<SearchAnswer, E>
    requires fits { G.fits game.now from.now }
    requires fit { AreFit G.Game game.now asked.role asked.depth tools.old levels.old }
    requires level { IsFilled G.Game game.now level.old }
    requires window { IsWindow window.low window.high }
    ensures answers { IfOk result (IsAnswer (λ d. least (map (λ j. value (G.rules game.now) asked.role d asked.at
        ((G.rules game.now).after (G.state game.now from.now) j)) (turns_in level.old.moves.run))) asked.depth window.low window.high) }
    ensures kept { AreKept G.Game game.now tools.old levels.old tools.new levels.new }
    ensures level { IsLevelKept G.Game game.now level.old level.new }
{
    let count = level.moves.run.count;
    let joints = &level.moves.run.joints[..count];
    if judge_last(game, from, joints, asked, &mut tools.wide) {
        return Ok(SearchAnswer {
            worth: least_judged(game, &tools.wide, count, asked, window),
            lasts: false,
        });
    }
    game.steps(from, joints, &mut tools.wide, &mut level.children.many);
    least_at::<G, E>(
        game,
        joints,
        asked,
        window,
        tools,
        &mut level.children,
        levels,
    )
}

/// The value of one of the states after a run, within a window.
#[cycle(search)]
pub fn try_child_at<G: Game, E: Ending>(
    game: &G,
    place: usize,
    asked: Question,
    window: SearchWindow,
    tools: &mut Tools<G>,
    children: &mut Children<G::Pos, G::Many>,
    levels: &mut [Level<G::Pos, G::Many>],
) -> Result<SearchAnswer, E>
    requires place { place < length (G.states game.now children.old.many) }
    requires fit { AreFit G.Game game.now asked.role asked.depth tools.old levels.old }
    requires children { AreLookedAt G.Game game.now asked children.old }
    requires window { IsWindow window.low window.high }
    ensures answers { IfOk result (IsAnswer (λ d. value (G.rules game.now) asked.role d asked.at (get_or (G.states game.now children.old.many) place []))
        asked.depth window.low window.high) }
    ensures kept { AreKept G.Game game.now tools.old levels.old tools.new levels.new }
    ensures children { AreLookedAt G.Game game.now asked children.new }
    ensures same { AreSameStates G.Game game.now children.old children.new }
{
    if let Some(told) = told_worth(game, &children.many, place, asked) {
        return Ok(told);
    }
    look_ahead(game, place, asked, tools, children, levels);
    let known = bounds_of(&children.ahead, place);
    let left = narrowed(known, window);
    if left.low >= left.high {
        return Ok(settled(known, left.high));
    }
    game.take(&children.many, place, &mut children.position);
    let answer = try_known_at::<G, E>(game, &children.position, asked, left, tools, levels)?;
    Ok(widened(known, left.high, answer))
}

/// The value of a state within a window, by what is kept of it, or else by a search in what that leaves of the window.
#[cycle(search)]
pub fn try_known_at<G: Game, E: Ending>(
    game: &G,
    from: &G::Pos,
    asked: Question,
    window: SearchWindow,
    tools: &mut Tools<G>,
    levels: &mut [Level<G::Pos, G::Many>],
) -> Result<SearchAnswer, E>
    requires fits { G.fits game.now from.now }
    requires fit { AreFit G.Game game.now asked.role asked.depth tools.old levels.old }
    requires window { IsWindow window.low window.high }
    ensures answers { IfOk result (IsAnswer (λ d. value (G.rules game.now) asked.role d asked.at (G.state game.now from.now))
        asked.depth window.low window.high) }
    ensures kept { AreKept G.Game game.now tools.old levels.old tools.new levels.new }
{
    E::check(&tools.sight)?;
    let known = recall(game, from, asked, &mut tools.memory);
    let left = narrowed(known, window);
    if left.low >= left.high {
        return Ok(settled(known, left.high));
    }
    let mark = mark_state(&tools.memory, &tools.sight, asked);
    let answer = value_at::<G, E>(game, from, asked, left, tools, levels)?;
    unmark_state(&tools.sight, mark);
    let answer = widened(known, left.high, answer);
    let found = bounds_by(window, answer);
    keep(game, from, asked, found, &mut tools.memory);
    Ok(answer)
}

/// The least value of the states after a run, within a window.
#[cycle(search)]
fn least_at<G: Game, E: Ending>(
    game: &G,
    joints: &[Joint],
    asked: Question,
    window: SearchWindow,
    tools: &mut Tools<G>,
    children: &mut Children<G::Pos, G::Many>,
    levels: &mut [Level<G::Pos, G::Many>],
) -> Result<SearchAnswer, E>
    requires joints { AreJointsTo (G.states game.now children.old.many) joints.now }
    requires fit { AreFit G.Game game.now asked.role asked.depth tools.old levels.old }
    requires children { AreChildrenOf G.Game game.now children.old }
    requires window { IsWindow window.low window.high }
    ensures answers { IfOk result (IsAnswer (λ d. least (map (value (G.rules game.now) asked.role d asked.at) (G.states game.now children.old.many)))
        asked.depth window.low window.high) }
    ensures kept { AreKept G.Game game.now tools.old levels.old tools.new levels.new }
    ensures same { AreSameStates G.Game game.now children.old children.new }
{
    let count = joints.len();
    let told = least_told(game, &children.many, count, asked, window.high);
    if told.worth <= window.low {
        return Ok(told);
    }
    children.ahead = new_ahead(count);
    look_back(game, asked, tools, children);
    let known = least_bound(&children.ahead, told);
    if known.worth <= window.low {
        return Ok(known);
    }
    let mut upper = known.worth;
    let mut lasts = known.lasts;
    let mut order = order_of(&tools.history, joints, asked.depth);
    for place in 0..count {
        put_off(
            &tools.sight,
            &children.hashes,
            asked.depth,
            place,
            count,
            &mut order,
        );
        let child = order[place];
        let below = SearchWindow {
            high: upper,
            ..window
        };
        let answer = try_child_at::<G, E>(game, child, asked, below, tools, children, levels)?;
        lasts = lesser_lasts(upper, lasts, answer);
        upper = upper.min(answer.worth);
        if upper <= window.low {
            let movers = Movers::Others(asked.role);
            tools.history.note_cut(&joints[child], movers, asked.depth);
            return Ok(SearchAnswer {
                worth: upper,
                lasts,
            });
        }
    }
    Ok(SearchAnswer {
        worth: upper,
        lasts,
    })
}

/// The greatest value of a state that can follow, within a window, where no other role has a choice.
#[cycle(search)]
fn best_at<G: Game, E: Ending>(
    game: &G,
    from: &G::Pos,
    asked: Question,
    window: SearchWindow,
    tools: &mut Tools<G>,
    levels: &mut [Level<G::Pos, G::Many>],
) -> Result<SearchAnswer, E>
    requires fits { G.fits game.now from.now }
    requires fit { AreFit G.Game game.now asked.role (asked.depth + 1) tools.old levels.old }
    requires open { stuck (G.rules game.now) (G.state game.now from.now) ≡ false }
    requires alone { IsAlone (G.rules game.now) (G.state game.now from.now) asked.role }
    requires window { IsWindow window.low window.high }
    ensures answers { IfOk result (IsAnswer (λ d. greatest (map (worst (G.rules game.now) asked.role d asked.at (G.state game.now from.now))
        ((G.rules game.now).legal (G.state game.now from.now) asked.role))) asked.depth window.low window.high) }
    ensures kept { AreKept G.Game game.now tools.old levels.old tools.new levels.new }
{
    let (first, rest) = levels.split_at_mut(1);
    let level = &mut first[0];
    start_turns(game, from, asked.role, 0, &mut level.moves.cursor);
    let mut best = window.low;
    let mut lasts = true;
    let mut place = 0;
    let mut most = game.abreast();
    'runs: loop {
        gather_own(
            game,
            from,
            asked.role,
            place,
            &level.moves.cursor.joint,
            most,
            &mut level.moves.run,
        );
        let count = level.moves.run.count;
        if count == 0 {
            return Ok(SearchAnswer { worth: best, lasts });
        }
        let above = SearchWindow {
            low: best,
            ..window
        };
        let greatest = greatest_after::<G, E>(game, from, asked, above, tools, level, rest)?;
        best = best.max(greatest.worth);
        lasts = both_last(lasts, greatest);
        if best >= window.high {
            return Ok(SearchAnswer { worth: best, lasts });
        }
        place += count;
        most = LONGEST_RUN.min(8 * most);
    }
}

/// The greatest value of the states after the joint moves of a level's run, within a window.
#[cycle(search)]
fn greatest_after<G: Game, E: Ending>(
    game: &G,
    from: &G::Pos,
    asked: Question,
    window: SearchWindow,
    tools: &mut Tools<G>,
    level: &mut Level<G::Pos, G::Many>,
    levels: &mut [Level<G::Pos, G::Many>],
) -> Result<SearchAnswer, E>
    requires fits { G.fits game.now from.now }
    requires fit { AreFit G.Game game.now asked.role asked.depth tools.old levels.old }
    requires level { IsFilled G.Game game.now level.old }
    requires window { IsWindow window.low window.high }
    ensures answers { IfOk result (IsAnswer (λ d. greatest (map (λ j. value (G.rules game.now) asked.role d asked.at
        ((G.rules game.now).after (G.state game.now from.now) j)) (turns_in level.old.moves.run))) asked.depth window.low window.high) }
    ensures kept { AreKept G.Game game.now tools.old levels.old tools.new levels.new }
    ensures level { IsLevelKept G.Game game.now level.old level.new }
{
    let count = level.moves.run.count;
    let joints = &level.moves.run.joints[..count];
    if judge_last(game, from, joints, asked, &mut tools.wide) {
        return Ok(SearchAnswer {
            worth: greatest_judged(game, &tools.wide, count, asked, window),
            lasts: false,
        });
    }
    game.steps(from, joints, &mut tools.wide, &mut level.children.many);
    greatest_at::<G, E>(
        game,
        joints,
        asked,
        window,
        tools,
        &mut level.children,
        levels,
    )
}

/// The greatest value of the states after a run, within a window.
#[cycle(search)]
fn greatest_at<G: Game, E: Ending>(
    game: &G,
    joints: &[Joint],
    asked: Question,
    window: SearchWindow,
    tools: &mut Tools<G>,
    children: &mut Children<G::Pos, G::Many>,
    levels: &mut [Level<G::Pos, G::Many>],
) -> Result<SearchAnswer, E>
    requires joints { AreJointsTo (G.states game.now children.old.many) joints.now }
    requires fit { AreFit G.Game game.now asked.role asked.depth tools.old levels.old }
    requires children { AreChildrenOf G.Game game.now children.old }
    requires window { IsWindow window.low window.high }
    ensures answers { IfOk result (IsAnswer (λ d. greatest (map (value (G.rules game.now) asked.role d asked.at) (G.states game.now children.old.many)))
        asked.depth window.low window.high) }
    ensures kept { AreKept G.Game game.now tools.old levels.old tools.new levels.new }
    ensures same { AreSameStates G.Game game.now children.old children.new }
{
    let count = joints.len();
    let mut lower = greatest_told(game, &children.many, count, asked, window.low);
    if lower >= window.high {
        return Ok(SearchAnswer {
            worth: lower,
            lasts: true,
        });
    }
    children.ahead = new_ahead(count);
    look_back(game, asked, tools, children);
    lower = greatest_bound(&children.ahead, lower);
    if lower >= window.high {
        return Ok(SearchAnswer {
            worth: lower,
            lasts: true,
        });
    }
    let mut lasts = true;
    let mut order = order_of(&tools.history, joints, asked.depth);
    for place in 0..count {
        put_off(
            &tools.sight,
            &children.hashes,
            asked.depth,
            place,
            count,
            &mut order,
        );
        let child = order[place];
        let above = SearchWindow {
            low: lower,
            ..window
        };
        let answer = try_child_at::<G, E>(game, child, asked, above, tools, children, levels)?;
        lower = lower.max(answer.worth);
        lasts = both_last(lasts, answer);
        if lower >= window.high {
            let movers = Movers::Role(asked.role);
            tools.history.note_cut(&joints[child], movers, asked.depth);
            return Ok(SearchAnswer {
                worth: lower,
                lasts,
            });
        }
    }
    Ok(SearchAnswer {
        worth: lower,
        lasts,
    })
}

/// The least value of a state that can follow where the role plays `own`, within a window.
pub fn worst_at<G: Game>(
    game: &G,
    from: &G::Pos,
    asked: Question,
    own: u32,
    window: SearchWindow,
    tools: &mut Tools<G>,
    levels: &mut [Level<G::Pos, G::Many>],
) -> i16
    requires fits { G.fits game.now from.now }
    requires fit { AreFit G.Game game.now asked.role (asked.depth + 1) tools.old levels.old }
    requires own { own < (G.rules game.now).moves asked.role }
    requires open { stuck (G.rules game.now) (G.state game.now from.now) ≡ false }
    requires window { IsWindow window.low window.high }
    ensures answers { Answers (worst (G.rules game.now) asked.role asked.depth asked.at (G.state game.now from.now) own) window.low window.high result }
    ensures kept { AreKept G.Game game.now tools.old levels.old tools.new levels.new }
{
    let Ok(worst) = try_worst_at::<G, Infallible>(game, from, asked, own, window, tools, levels);
    worst.worth
}

/// The value of a state within a window, by what is kept of it, or else by a search in what that leaves of the window.
fn known_at<G: Game>(
    game: &G,
    from: &G::Pos,
    asked: Question,
    window: SearchWindow,
    tools: &mut Tools<G>,
    levels: &mut [Level<G::Pos, G::Many>],
) -> i16
    requires fits { G.fits game.now from.now }
    requires fit { AreFit G.Game game.now asked.role asked.depth tools.old levels.old }
    requires window { IsWindow window.low window.high }
    ensures answers { Answers (value (G.rules game.now) asked.role asked.depth asked.at (G.state game.now from.now)) window.low window.high result }
    ensures kept { AreKept G.Game game.now tools.old levels.old tools.new levels.new }
{
    let Ok(answer) = try_known_at::<G, Infallible>(game, from, asked, window, tools, levels);
    answer.worth
}

/// The least and the greatest value of a state, as goal values are.
pub const LEAST: i16 = 0;

pub const GREATEST: i16 = 100;

/// The value of a state within a window, searched for within the part of the window where values can be.
pub fn try_value_within<G: Game, E: Ending>(
    game: &G,
    from: &G::Pos,
    asked: Question,
    window: SearchWindow,
    tools: &mut Tools<G>,
    levels: &mut [Level<G::Pos, G::Many>],
) -> Result<i16, E>
    requires fits { G.fits game.now from.now }
    requires fit { AreFit G.Game game.now asked.role asked.depth tools.old levels.old }
    requires order { window.low <ℤ window.high }
    ensures answers { IfOk result (Answers (value (G.rules game.now) asked.role asked.depth asked.at (G.state game.now from.now)) window.low window.high) }
    ensures kept { AreKept G.Game game.now tools.old levels.old tools.new levels.new }
{
    let low = window.low.max(LEAST);
    let high = window.high.min(GREATEST);
    if low >= high {
        return Ok(high);
    }
    let inner = SearchWindow { low, high };
    let answer = try_known_at::<G, E>(game, from, asked, inner, tools, levels)?;
    Ok(answer.worth)
}

/// The same, by a search that always answers.
pub fn value_within<G: Game>(
    game: &G,
    from: &G::Pos,
    asked: Question,
    window: SearchWindow,
    tools: &mut Tools<G>,
    levels: &mut [Level<G::Pos, G::Many>],
) -> i16
    requires fits { G.fits game.now from.now }
    requires fit { AreFit G.Game game.now asked.role asked.depth tools.old levels.old }
    requires order { window.low <ℤ window.high }
    ensures answers { Answers (value (G.rules game.now) asked.role asked.depth asked.at (G.state game.now from.now)) window.low window.high result }
    ensures kept { AreKept G.Game game.now tools.old levels.old tools.new levels.new }
{
    let Ok(value) = try_value_within::<G, Infallible>(game, from, asked, window, tools, levels);
    value
}

/// Writes the first joint move that leaves the least value where the role plays `own`.
pub fn reply_at<G: Game>(
    game: &G,
    from: &G::Pos,
    asked: Question,
    own: u32,
    tools: &mut Tools<G>,
    levels: &mut [Level<G::Pos, G::Many>],
    out: &mut Joint,
)
    requires fits { G.fits game.now from.now }
    requires fit { AreFit G.Game game.now asked.role (asked.depth + 1) tools.old levels.old }
    requires own { own < (G.rules game.now).moves asked.role }
    requires open { stuck (G.rules game.now) (G.state game.now from.now) ≡ false }
    requires out { (G.rules game.now).roles ≤ out.old.capacity }
    ensures reply { IsWritten (reply_of (G.rules game.now) asked.role asked.depth asked.at (G.state game.now from.now) own) out.old out.new }
    ensures kept { AreKept G.Game game.now tools.old levels.old tools.new levels.new }
{
    let (first, rest) = levels.split_at_mut(1);
    let level = &mut first[0];
    start_turns(game, from, asked.role, own, &mut level.moves.cursor);
    let mut upper = 101;
    loop {
        let position = &mut level.children.position;
        game.step(from, &level.moves.cursor.joint, position);
        let below = SearchWindow {
            low: -1,
            high: upper,
        };
        let worth = known_at(game, position, asked, below, tools, rest);
        if worth < upper {
            upper = worth;
            write_joint(&level.moves.cursor.joint, out);
        }
        if !next_turn(game, from, asked.role, own, &mut level.moves.cursor) {
            return;
        }
    }
}

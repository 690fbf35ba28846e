//! What is known of the states of a run before they are searched: by what is kept of them, and of those with one turn left by judging
//! the states after them.
//!
//! A state is taken for this once, or twice where it had no room. What is judged is the value itself, so it answers any window.
//! The run of the level below serves, which the search does not use at that moment, so no memory is taken.
ghost use Rattle.std.specs.Prelude.{◌≡◌, ◌+◌, ◌-◌, ◌<◌, ◌≤◌, ◌≤ℤ◌, ℕ, ℤ, pos, List, [], true, length, map, take, drop, slice_index_or, None, IfSome};
ghost use Rattle.std.specs.Int.{int_max};
ghost use Rattle.statement.specs.Rules.{State};
ghost use Rattle.statement.specs.Value.{greatest, least, value};
ghost use Rattle.statement.specs.declared.at_bound.AtBound.TheVariants.{Zero};
ghost use Rattle.maximin.specs.Ahead.{IsAheadOf, IsOfLastTurn};
ghost use Rattle.maximin.specs.Answer.{IsUpperBound};
ghost use Rattle.maximin.specs.Children.{AreLookedAt, AreSameStates};
ghost use Rattle.maximin.specs.Level.{IsLevelLeft, IsLevelOf, level_capacities};
ghost use Rattle.maximin.specs.Pack.{picked, packed_after, ArePackable, IsPacked, IsPartOf, IsPackOf, IsPlacedRun};
ghost use Rattle.maximin.specs.Run.{IsRunOf};
ghost use Rattle.maximin.specs.Tools.{AreFit, AreKept, AreToolsKept, AreToolsOf};
ghost use Rattle.search_table.specs.Worths.{AreBoundsOf};

use crate::answer::{SearchAnswer, lesser_lasts};
use crate::children::Children;
use crate::end::{greatest_of, least_of};
use crate::level::Level;
use crate::memory::{find_in, key_in, may_find};
use crate::pack::{Pack, Part, Pick, pack_on};
use crate::run::{LONGEST_RUN, Run};
use crate::sight::Sight;
use crate::tools::Tools;
use game::{AtBound, Game, Question};
use search_table::{Bounds, hash_of};

/// What is known of the states of a run before they are searched.
#[derive(Drop)]
pub struct Ahead {
    /// How many states there are.
    pub count: usize,
    /// The place from which on none was looked at.
    pub next: usize,
    /// By state bounds of what it is worth.
    pub bounds: [Bounds; LONGEST_RUN],
}

/// Each worth is within these bounds, at every number of turns.
const NOTHING_KNOWN: Bounds = Bounds {
    lo: 0,
    hi: 100,
    lasts: true,
};

/// Nothing is known of so many states.
pub fn new_ahead(count: usize) -> Ahead
    requires { count ≤ 64 }
    ensures { (states : List State) (worth : State → ℕ → ℕ) (depth : ℕ) → length states ≡ count
        → ((s : State) (d : ℕ) → worth s d ≤ 100) → IsAheadOf states worth depth result }
{
    Ahead {
        count,
        next: 0,
        bounds: [NOTHING_KNOWN; LONGEST_RUN],
    }
}

/// Notes the hash of the state at a place, by its key, where there are other workers.
fn note_hash(sight: &Sight, place: usize, key: &[u64], hashes: &mut [u64; LONGEST_RUN]) {
    if place < LONGEST_RUN && sight.has_others() {
        hashes[place] = hash_of(key);
    }
}

/// Finds what is kept of the states of a run, and notes their hashes where there are other workers.
pub fn look_back<G: Game>(
    game: &G,
    asked: Question,
    tools: &mut Tools<G>,
    children: &mut Children<G::Pos, G::Many>,
)
    requires tools { AreToolsOf G.Game game.now tools.old }
    requires children { AreLookedAt G.Game game.now asked children.old }
    ensures tools { AreToolsKept G.Game game.now tools.old tools.new }
    ensures children { AreLookedAt G.Game game.now asked children.new }
    ensures same { AreSameStates G.Game game.now children.old children.new }
{
    if !may_find(&tools.memory.positions, asked) {
        return;
    }
    let count = children.ahead.count;
    let words = game.key_words();
    game.write_keys(&children.many, count, tools.memory.keys.as_mut_slice());
    for place in 0..count {
        let key = key_in(&tools.memory.keys, words, place);
        note_hash(&tools.sight, place, key, &mut children.hashes);
        children.ahead.bounds[place] = find_in(game, &tools.memory.positions, key, asked);
    }
}

/// What is known of one of the states.
pub fn bounds_of(ahead: &Ahead, place: usize) -> Bounds
    requires { place < 64 }
    ensures { (states : List State) (worth : State → ℕ → ℕ) (depth : ℕ) → IsAheadOf states worth depth ahead.now → place < length states
        → AreBoundsOf (worth (slice_index_or states place [])) depth result }
{
    ahead.bounds[place]
}

/// A pack of no joint moves.
fn new_pack() -> Pack
    ensures { (k : ℕ) → slice_index_or result.parts k None ≡ None }
{
    Pack {
        places: [0; LONGEST_RUN],
        parts: [None; LONGEST_RUN],
    }
}

/// Packs the states from a place on, up to one that is to be searched. The answer is its place.
fn pack_states<G: Game>(
    game: &G,
    many: &G::Many,
    first: usize,
    count: usize,
    asked: Question,
    level: &mut Level<G::Pos, G::Many>,
    pack: &mut Pack,
) -> usize
    requires states { ArePackable G.Game game.now asked many.now }
    requires count { count ≡ length (G.states game.now many.now) }
    requires first { first < count }
    requires pack { IsPacked G.Game game.now asked many.now level.old pack.old }
    ensures place { result ≤ count }
    ensures pack { IsPacked G.Game game.now asked many.now level.new pack.new }
    ensures capacities { level_capacities G.Game game.now level.new ≡ level_capacities G.Game game.now level.old }
{
    let mut place = first;
    'states: while place < count {
        if !pack_on(game, many, place, asked, level, pack) {
            return place;
        }
        place += 1;
    }
    place
}

/// Plays the joint moves of a pack for the end of the game alone. The answer is false where they are to be stepped.
fn judge_pack<G: Game>(game: &G, many: &G::Many, pack: &Pack, run: &Run, wide: &mut G::Wide) -> bool
    requires many { G.fits_many game.now many.now }
    requires run { IsPlacedRun (G.rules game.now) (G.states game.now many.now) pack.now.places run.now }
    requires wide { G.fits_wide game.now wide.old }
    ensures wide { G.fits_wide game.now wide.new }
    ensures wide_capacities { G.wide_capacities game.now wide.new ≡ G.wide_capacities game.now wide.old }
    ensures after { result ≡ true
        → G.judged game.now wide.new ≡ packed_after (G.rules game.now) (G.states game.now many.now) pack.now.places run.now }
{
    let count = run.count;
    game.judge_from(many, &pack.places[..count], &run.joints[..count], wide)
}

/// What the states of a part of those that were judged tell of the state that they come from.
fn part_worth<G: Game>(game: &G, wide: &G::Wide, part: Part, asked: Question) -> u8
    requires wide { G.fits_wide game.now wide.now }
    requires few { length (G.judged game.now wide.now) ≤ 64 }
    requires some { 0 < part.count }
    requires within { part.first + part.count ≤ length (G.judged game.now wide.now) }
    requires role { asked.role < (G.rules game.now).roles }
    requires depth { asked.depth ≡ 0 }
    requires bound { asked.at ≡ Zero }
    ensures { result ≡ picked part.pick (map (value (G.rules game.now) asked.role asked.depth asked.at)
        (take part.count (drop part.first (G.judged game.now wide.now)))) }
{
    match part.pick {
        Pick::Greatest => greatest_of(game, wide, part.first, part.count, asked),
        Pick::Least => least_of(game, wide, part.first, part.count, asked),
    }
}

/// What is known of a state by its part of those that were judged, if it has one, and else what was known before. What is judged is
/// not said to last: the turns are over there.
fn noted<G: Game>(
    game: &G,
    wide: &G::Wide,
    part: Option<Part>,
    known: Bounds,
    asked: Question,
) -> Bounds
    requires wide { G.fits_wide game.now wide.now }
    requires few { length (G.judged game.now wide.now) ≤ 64 }
    requires some { IfSome part (λ p. 0 < p.count) }
    requires within { IfSome part (λ p. p.first + p.count ≤ length (G.judged game.now wide.now)) }
    requires role { asked.role < (G.rules game.now).roles }
    requires depth { asked.depth ≡ 0 }
    requires bound { asked.at ≡ Zero }
    ensures { (worth : ℕ → ℕ) (depth : ℕ)
        → IfSome part (IsPartOf (value (G.rules game.now) asked.role asked.depth asked.at) (G.judged game.now wide.now) (worth depth))
        → AreBoundsOf worth depth known → AreBoundsOf worth depth result }
{
    let Some(part) = part else {
        return known;
    };
    let worth = part_worth(game, wide, part, asked);
    Bounds {
        lo: worth,
        hi: worth,
        lasts: false,
    }
}

/// Judges the states after the joint moves of a pack, and notes what those are worth that they come from.
fn note_worths<G: Game>(
    game: &G,
    asked: Question,
    pack: &Pack,
    run: &Run,
    tools: &mut Tools<G>,
    children: &mut Children<G::Pos, G::Many>,
)
    requires last { IsOfLastTurn (G.rules game.now) asked }
    requires children { AreLookedAt G.Game game.now asked children.old }
    requires run { IsPlacedRun (G.rules game.now) (G.states game.now children.old.many) pack.now.places run.now }
    requires pack { IsPackOf (G.rules game.now) (G.states game.now children.old.many) (value (G.rules game.now) asked.role asked.depth asked.at)
        (value (G.rules game.now) asked.role (asked.depth - 1) asked.at) pack.now run.now }
    requires tools { AreToolsOf G.Game game.now tools.old }
    ensures tools { AreToolsKept G.Game game.now tools.old tools.new }
    ensures children { AreLookedAt G.Game game.now asked children.new }
    ensures same { AreSameStates G.Game game.now children.old children.new }
{
    tools.judges = judge_pack(game, &children.many, pack, run, &mut tools.wide);
    if !tools.judges {
        return;
    }
    let last = Question {
        depth: asked.depth - 1,
        ..asked
    };
    for place in 0..children.ahead.count {
        let known = children.ahead.bounds[place];
        children.ahead.bounds[place] = noted(game, &tools.wide, pack.parts[place], known, last);
    }
}

/// Packs the joint moves of the states from a place on, as long as they have room, and notes what these states are worth.
fn look_on<G: Game>(
    game: &G,
    place: usize,
    asked: Question,
    tools: &mut Tools<G>,
    children: &mut Children<G::Pos, G::Many>,
    level: &mut Level<G::Pos, G::Many>,
)
    requires last { IsOfLastTurn (G.rules game.now) asked }
    requires place { place < length (G.states game.now children.old.many) }
    requires tools { AreToolsOf G.Game game.now tools.old }
    requires children { AreLookedAt G.Game game.now asked children.old }
    requires level { IsLevelOf G.Game game.now level.old }
    ensures tools { AreToolsKept G.Game game.now tools.old tools.new }
    ensures children { AreLookedAt G.Game game.now asked children.new × AreSameStates G.Game game.now children.old children.new }
    ensures level { IsLevelLeft G.Game game.now level.old level.new }
{
    let mut pack = new_pack();
    level.moves.run.count = 0;
    let count = children.ahead.count;
    let end = pack_states(game, &children.many, place, count, asked, level, &mut pack);
    children.ahead.next = end.max(place + 1);
    if level.moves.run.count > 0 {
        note_worths(game, asked, &pack, &level.moves.run, tools, children);
    }
}

/// Finds what a state with one turn left is worth, and as many of those behind it as can be judged in one pass, where nothing is worth
/// more than 0 but an end.
pub fn look_ahead<G: Game>(
    game: &G,
    place: usize,
    asked: Question,
    tools: &mut Tools<G>,
    children: &mut Children<G::Pos, G::Many>,
    levels: &mut [Level<G::Pos, G::Many>],
)
    requires place { place < length (G.states game.now children.old.many) }
    requires fit { AreFit G.Game game.now asked.role asked.depth tools.old levels.old }
    requires children { AreLookedAt G.Game game.now asked children.old }
    ensures kept { AreKept G.Game game.now tools.old levels.old tools.new levels.new }
    ensures children { AreLookedAt G.Game game.now asked children.new }
    ensures same { AreSameStates G.Game game.now children.old children.new }
{
    if place < children.ahead.next || !tools.judges {
        return;
    }
    match (asked.depth, asked.at) {
        (1, AtBound::Zero) => look_on(game, place, asked, tools, children, &mut levels[0]),
        _ => (),
    }
}

/// The lesser of a bound and the least of the upper bounds of states.
pub fn least_bound(ahead: &Ahead, b: SearchAnswer) -> SearchAnswer
    ensures at_most { result.worth ≤ℤ b.worth }
    ensures upper { (states : List State) (worth : State → ℕ → ℕ) (depth : ℕ) (top : ℤ) → IsAheadOf states worth depth ahead.now
        → b.worth ≤ℤ top → IsUpperBound (λ d. least (map (λ s. worth s d) states)) depth top b
        → IsUpperBound (λ d. least (map (λ s. worth s d) states)) depth top result }
{
    let mut upper = b.worth;
    let mut lasts = b.lasts;
    for place in 0..ahead.count.min(LONGEST_RUN) {
        let known = bounds_of(ahead, place);
        let bound = SearchAnswer {
            worth: i16::from(known.hi),
            lasts: known.lasts,
        };
        lasts = lesser_lasts(upper, lasts, bound);
        upper = upper.min(bound.worth);
    }
    SearchAnswer {
        worth: upper,
        lasts,
    }
}

/// The greater of a bound and the greatest of the lower bounds of states.
pub fn greatest_bound(ahead: &Ahead, a: i16) -> i16
    ensures at_least { a ≤ℤ result }
    ensures at_most { (states : List State) (worth : State → ℕ → ℕ) (depth : ℕ) → IsAheadOf states worth depth ahead.now
        → result ≤ℤ int_max (pos (greatest (map (λ s. worth s depth) states))) a }
{
    let mut lower = a;
    for place in 0..ahead.count.min(LONGEST_RUN) {
        let known = bounds_of(ahead, place);
        lower = lower.max(i16::from(known.lo));
    }
    lower
}

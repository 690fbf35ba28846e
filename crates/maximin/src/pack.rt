//! The joint moves of several states in one run.
//!
//! A state is packed where no other role has a choice, and is then worth the greatest of its lanes, or where the role has one
//! move alone, and is then worth the least of them. One in which both sides have a choice, or which has more than 32 joint
//! moves, is left to the search; there the packing ends, and begins anew when the search has come so far.
ghost use Rattle.std.specs.Prelude.{◌≡◌, ◌≢◌, ◌-◌, ◌<◌, ◌≤◌, ◌++◌, ◌∷◌, length, map, take, replicate, slice_set, IfSome};
ghost use Rattle.std.specs.Bool.{OnTrue};
ghost use Rattle.statement.specs.Rules.{choices, IsTurn};
ghost use Rattle.maximin.specs.Alone.{IsAlone};
ghost use Rattle.maximin.specs.Level.{level_capacities};
ghost use Rattle.maximin.specs.Moves.{AreLonger, CanPlay, HaveTurns};
ghost use Rattle.maximin.specs.Open.{IsOpen};
ghost use Rattle.maximin.specs.Pack.{ArePackable, IsPacked, IsPickedBy};
ghost use Rattle.maximin.specs.Run.{IsRunOf, turns_in, run_capacities};
ghost use Rattle.maximin.specs.Turns.{StandsAt, later};

use crate::alone::{add_own, is_alone};
use crate::cursor::{next_turn, start_turns};
use crate::level::Level;
use crate::moves::Moves;
use crate::run::{LONGEST_RUN, Run, add_turn};
use crate::told::told_worth;
use game::{Game, Question, is_stuck};

/// The most joint moves of a state that stands beside others in a run.
const MOST_TURNS: usize = 32;

/// Which of the worths of the states after its joint moves a state has.
#[derive(Clone, Copy)]
pub enum Pick {
    Greatest,
    Least,
}

/// All joint moves of a state, which stand one behind the other in a run.
#[derive(Clone, Copy)]
pub struct Part {
    pub first: usize,
    pub count: usize,
    pub pick: Pick,
}

/// At which of many states the joint moves of a run begin.
#[derive(Drop)]
pub struct Pack {
    /// The place of the state of each joint move.
    pub places: [usize; LONGEST_RUN],
    /// By state its part of the run, if it has one.
    pub parts: [Option<Part>; LONGEST_RUN],
}

/// Adds the joint moves in which the role plays each of its moves, and the others play as at the cursor, to a run of at most `end`. The
/// answer is false where they have no room.
fn add_own_turns<G: Game>(
    game: &G,
    from: &G::Pos,
    role: usize,
    end: usize,
    moves: &mut Moves,
) -> bool
    requires fits { G.fits game.now from.now }
    requires role { role < (G.rules game.now).roles }
    requires joint { IsTurn (G.rules game.now) moves.old.cursor.joint.items }
    requires end { end ≤ 64 }
    requires moves { HaveTurns (G.rules game.now) moves.old }
    ensures moves { AreLonger (G.rules game.now) moves.old moves.new }
    ensures turns { OnTrue result (turns_in moves.new.run ≡ turns_in moves.old.run
        ++ map (λ m. slice_set moves.old.cursor.joint.items role m) ((G.rules game.now).legal (G.state game.now from.now) role)) }
{
    let mut place = 0;
    'moves: while let Some(own) = game.legal(from, role, place) {
        if moves.run.count >= end {
            return false;
        }
        add_own(&moves.cursor.joint, role, own, &mut moves.run);
        place += 1;
    }
    true
}

/// Adds the joint move at the cursor and all behind it to a run of at most `end`. The answer is false where they have no room.
fn add_replies<G: Game>(
    game: &G,
    from: &G::Pos,
    role: usize,
    own: u32,
    end: usize,
    moves: &mut Moves,
) -> bool
    requires fits { G.fits game.now from.now }
    requires own { CanPlay (G.rules game.now) (G.state game.now from.now) role own }
    requires end { end ≤ 64 }
    requires moves { HaveTurns (G.rules game.now) moves.old }
    requires stands { StandsAt (choices (G.rules game.now) (G.state game.now from.now) role own) moves.old.cursor.places.items
        moves.old.cursor.joint.items }
    ensures moves { AreLonger (G.rules game.now) moves.old moves.new }
    ensures turns { OnTrue result (turns_in moves.new.run ≡ turns_in moves.old.run ++ moves.old.cursor.joint.items
        ∷ later (choices (G.rules game.now) (G.state game.now from.now) role own) moves.old.cursor.places.items) }
{
    'turns: loop {
        if moves.run.count >= end {
            return false;
        }
        add_turn(&moves.cursor.joint, &mut moves.run);
        if !next_turn(game, from, role, own, &mut moves.cursor) {
            return true;
        }
    }
}

/// Adds the joint moves of a state in which no other role has a choice to a run, if they have room.
fn add_alone<G: Game>(
    game: &G,
    from: &G::Pos,
    asked: Question,
    end: usize,
    moves: &mut Moves,
) -> Option<Pick>
    requires fits { G.fits game.now from.now }
    requires role { asked.role < (G.rules game.now).roles }
    requires open { IsOpen (G.rules game.now) asked.depth (G.state game.now from.now) }
    requires alone { IsAlone (G.rules game.now) (G.state game.now from.now) asked.role }
    requires end { end ≤ 64 }
    requires moves { HaveTurns (G.rules game.now) moves.old }
    ensures moves { AreLonger (G.rules game.now) moves.old moves.new }
    ensures worth { IfSome result (IsPickedBy (G.rules game.now) asked (G.state game.now from.now) moves.old.run moves.new.run) }
{
    start_turns(game, from, asked.role, 0, &mut moves.cursor);
    if add_own_turns(game, from, asked.role, end, moves) {
        return Some(Pick::Greatest);
    }
    None
}

/// Adds the joint moves of a state in which the role has one move alone to a run, if they have room.
fn add_forced<G: Game>(
    game: &G,
    from: &G::Pos,
    asked: Question,
    end: usize,
    moves: &mut Moves,
) -> Option<Pick>
    requires fits { G.fits game.now from.now }
    requires role { asked.role < (G.rules game.now).roles }
    requires open { IsOpen (G.rules game.now) asked.depth (G.state game.now from.now) }
    requires end { end ≤ 64 }
    requires moves { HaveTurns (G.rules game.now) moves.old }
    ensures moves { AreLonger (G.rules game.now) moves.old moves.new }
    ensures worth { IfSome result (IsPickedBy (G.rules game.now) asked (G.state game.now from.now) moves.old.run moves.new.run) }
{
    let Some(own) = game.legal(from, asked.role, 0) else {
        return None;
    };
    if game.legal(from, asked.role, 1).is_some() {
        return None;
    }
    start_turns(game, from, asked.role, own, &mut moves.cursor);
    if add_replies(game, from, asked.role, own, end, moves) {
        return Some(Pick::Least);
    }
    None
}

/// Adds the joint moves of a state to a run, if one of both sides alone has a choice and they have room. The answer is what the state is
/// worth by them. Where it is none, what was added counts for nothing.
fn add_state<G: Game>(game: &G, from: &G::Pos, asked: Question, moves: &mut Moves) -> Option<Pick>
    requires fits { G.fits game.now from.now }
    requires role { asked.role < (G.rules game.now).roles }
    requires turn { asked.depth ≢ 0 }
    requires moves { HaveTurns (G.rules game.now) moves.old }
    ensures moves { AreLonger (G.rules game.now) moves.old moves.new }
    ensures worth { IfSome result (IsPickedBy (G.rules game.now) asked (G.state game.now from.now) moves.old.run moves.new.run) }
{
    if game.ended(from) || is_stuck(game, from) {
        return None;
    }
    let end = LONGEST_RUN.min(moves.run.count + MOST_TURNS);
    if is_alone(game, from, asked.role) {
        return add_alone(game, from, asked, end, moves);
    }
    add_forced(game, from, asked, end, moves)
}

/// Leaves so many joint moves in a run.
fn cut(run: &mut Run, count: usize, roles: usize)
    requires run { IsRunOf roles run.old }
    requires count { count ≤ run.old.count }
    ensures run { IsRunOf roles run.new }
    ensures capacities { run_capacities run.new ≡ run_capacities run.old }
    ensures count { run.new.count ≡ count }
    ensures turns { turns_in run.new ≡ take count (turns_in run.old) }
{
    run.count = count;
}

/// Writes the place of a state for joint moves that begin at it.
fn name_state(places: &mut [usize], first: usize, end: usize, place: usize)
    requires order { first ≤ end }
    requires end { end ≤ length places.old }
    ensures { take end places.new ≡ take first places.old ++ replicate (end - first) place }
{
    for turn in first..end {
        places[turn] = place;
    }
}

/// Adds the joint moves of one of many states to the pack, if what it is worth is not told and they have room. The answer is false where
/// the state is to be searched.
pub fn pack_on<G: Game>(
    game: &G,
    many: &G::Many,
    place: usize,
    asked: Question,
    level: &mut Level<G::Pos, G::Many>,
    pack: &mut Pack,
) -> bool
    requires states { ArePackable G.Game game.now asked many.now }
    requires place { place < length (G.states game.now many.now) }
    requires pack { IsPacked G.Game game.now asked many.now level.old pack.old }
    ensures pack { IsPacked G.Game game.now asked many.now level.new pack.new }
    ensures capacities { level_capacities G.Game game.now level.new ≡ level_capacities G.Game game.now level.old }
{
    if told_worth(game, many, place, asked).is_some() {
        return true;
    }
    game.take(many, place, &mut level.children.position);
    let first = level.moves.run.count;
    let Some(pick) = add_state(game, &level.children.position, asked, &mut level.moves) else {
        cut(&mut level.moves.run, first, game.roles());
        return false;
    };
    let count = level.moves.run.count;
    name_state(&mut pack.places, first, count, place);
    pack.parts[place] = Some(Part {
        first,
        count: count - first,
        pick,
    });
    true
}

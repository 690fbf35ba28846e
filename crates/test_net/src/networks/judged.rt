//! The end of the game in states that are judged, beside that in states that are taken.
ghost use Rattle.std.specs.Prelude.{◌≡◌, ◌<◌, ◌≤◌, All, length, IfOk};
ghost use Rattle.statement.specs.Rules.{IsTurn};

use super::{turn_at, turns_of};
use game::{Game, Joint, is_stuck};
use std::alloc::Global;
use std::io::Write;
use std::test::Fail;

/// Adds a goal, or that the game goes on.
fn add_worth(worth: Option<u8>, text: &mut Vec<u8>) -> Result<(), Fail> {
    if let Some(goal) = worth {
        write!(text, " {goal}")?;
        return Ok(());
    }
    text.extend_from_slice(b" -")?;
    Ok(())
}

/// The goal value of a role, if the game has ended.
fn worth_of<G: Game>(game: &G, p: &G::Pos, role: usize) -> Option<u8>
    requires fits { G.fits game.now p.now }
    requires role { role < (G.rules game.now).roles }
{
    if game.ended(p) {
        return Some(game.goal(p, role));
    }
    None
}

/// Adds the goals in the states after some joint moves, if the game has ended there, each state taken out of many.
fn add_taken<G: Game>(game: &G, p: &G::Pos, turns: &[Joint], text: &mut Vec<u8>) -> Result<(), Fail>
    requires from { G.fits game.now p.now }
    requires some { 0 < length turns.now }
    requires few { length turns.now ≤ 64 }
    requires turns { All (λ j. IsTurn (G.rules game.now) j.items) turns.now }
{
    let mut child = game.fresh()?;
    let mut wide = game.new_wide()?;
    let mut states = game.new_many()?;
    game.steps(p, turns, &mut wide, &mut states);
    for place in 0..turns.len() {
        game.take(&states, place, &mut child);
        for role in 0..game.roles() {
            add_worth(worth_of(game, &child, role), text)?;
        }
    }
    Ok(())
}

/// Adds the same, judged.
fn add_judged<G: Game>(
    game: &G,
    p: &G::Pos,
    turns: &[Joint],
    text: &mut Vec<u8>,
) -> Result<(), Fail>
    requires from { G.fits game.now p.now }
    requires some { 0 < length turns.now }
    requires few { length turns.now ≤ 64 }
    requires turns { All (λ j. IsTurn (G.rules game.now) j.items) turns.now }
{
    let mut wide = game.new_wide()?;
    if !game.judge(p, turns, &mut wide) {
        return Err(Fail::new("not judged"));
    }
    for place in 0..turns.len() {
        for role in 0..game.roles() {
            add_worth(game.verdict(&wide, place, role), text)?;
        }
    }
    Ok(())
}

/// The goals in the states after the first joint moves of each state of a play, until it is over.
pub(super) fn worths<G: Game>(
    alloc: Global,
    game: &G,
    count: usize,
    judged: bool,
) -> Result<Vec<u8>, Fail> {
    if count == 0 || count > 64 {
        return Err(Fail::new("not so many"));
    }
    let mut text = Vec::new(alloc);
    let mut here = game.fresh()?;
    let mut next = game.fresh()?;
    for place in 0..9usize {
        if game.ended(&here) || is_stuck(game, &here) {
            return Ok(text);
        }
        let turns = turns_of(alloc, game, &here, count)?;
        if judged {
            add_judged(game, &here, &turns, &mut text)?;
        } else {
            add_taken(game, &here, &turns, &mut text)?;
        }
        let turn = turn_at(alloc, game, &here, place)?;
        game.step(&here, &turn, &mut next);
        game.copy(&next, &mut here);
    }
    Ok(text)
}

/// The places of some states, the last first.
fn places_of(alloc: Global, count: usize) -> Result<Vec<usize>, Fail>
    ensures size { IfOk result (λ places. length places.items ≡ count) }
    ensures below { IfOk result (λ places. All (λ k. k < count) places.items) }
{
    let mut places = Vec::new(alloc);
    for place in 0..count {
        places.push(count - 1 - place)?;
    }
    Ok(places)
}

/// Adds the goals in the states after joint moves that each begin at one of many states, if the game has ended there.
fn add_stepped<G: Game>(
    game: &G,
    states: &G::Many,
    places: &[usize],
    turns: &[Joint],
    text: &mut Vec<u8>,
) -> Result<(), Fail>
    requires states { G.fits_many game.now states.now }
    requires count { length places.now ≡ length turns.now }
    requires places { All (λ k. k < length (G.states game.now states.now)) places.now }
    requires turns { All (λ j. IsTurn (G.rules game.now) j.items) turns.now }
{
    let mut child = game.fresh()?;
    let mut next = game.fresh()?;
    for turn in 0..turns.len() {
        game.take(states, places[turn], &mut child);
        game.step(&child, &turns[turn], &mut next);
        for role in 0..game.roles() {
            add_worth(worth_of(game, &next, role), text)?;
        }
    }
    Ok(())
}

/// The goals two turns after the start: by each of the first joint moves and then one of them again, the last state first.
pub(super) fn second_worths<G: Game>(
    alloc: Global,
    game: &G,
    count: usize,
    judged: bool,
) -> Result<Vec<u8>, Fail> {
    if count == 0 || count > 64 {
        return Err(Fail::new("not so many"));
    }
    let start = game.fresh()?;
    let mut wide = game.new_wide()?;
    let mut states = game.new_many()?;
    let turns = turns_of(alloc, game, &start, count)?;
    let places = places_of(alloc, count)?;
    let mut text = Vec::new(alloc);
    game.steps(&start, &turns, &mut wide, &mut states);
    if !judged {
        add_stepped(game, &states, &places, &turns, &mut text)?;
        return Ok(text);
    }
    if !game.judge_from(&states, &places, &turns, &mut wide) {
        return Err(Fail::new("not judged"));
    }
    for place in 0..count {
        for role in 0..game.roles() {
            add_worth(game.verdict(&wide, place, role), &mut text)?;
        }
    }
    Ok(text)
}

//! What workers search of a state on the line of best play.
//!
//! Each of them searches for the same as who plays the line, over the tables that they share, and all but the first put off the states
//! that another has in hand. All that is wanted of it is what then stands in the tables, which holds whatever a search finds: no answer rests on it.
ghost use Rattle.share.specs.Errand.{IsErrandOf};

use game::{Game, Question, new_joint};
use maximin::{Company, Room, help_choose, help_reply};
use std::alloc::Global;
use std::thread::{Threads, map_indices};

/// A search of fewer turns has no help: its workers would not part. Tables are made as for so many turns at least: for fewer they would have
/// too few entries to be shared.
pub const FEWEST_TURNS: u32 = 3;

/// A state that is worth so much, of which the first best move is wanted; or one in which a move makes sure of so much, of which the
/// first best reply to that is wanted.
#[derive(Drop)]
pub struct Errand<'a, G: Game> {
    pub alloc: Global,
    pub game: &'a G,
    pub from: &'a G::Pos,
    pub asked: Question,
    pub worth: i16,
    pub own: Option<u32>,
    pub company: &'a Company<G>,
}

/// Searches for what is wanted, as the worker of a number, until it is found or not wanted any more.
fn search_for<G: Game>(errand: &Errand<'_, G>, number: u8)
    requires { IsErrandOf G.Game errand.now }
{
    let game = errand.game;
    let asked = errand.asked;
    let Ok(mut room) = Room::in_company(errand.alloc, game, asked.depth, errand.company, number)
    else {
        return;
    };
    let Some(own) = errand.own else {
        return help_choose(game, errand.from, asked, errand.worth, &mut room);
    };
    let Ok(mut out) = new_joint(errand.alloc, game.roles()) else {
        return;
    };
    help_reply(
        game,
        errand.from,
        asked,
        own,
        errand.worth,
        &mut room,
        &mut out,
    );
}

/// What the worker at a place does. Once the first has found what is wanted it is not wanted of the others any more.
fn do_part<G: Game>(errand: &Errand<'_, G>, worker: usize)
    requires { IsErrandOf G.Game errand.now }
{
    search_for(errand, (worker % 255) as u8);
    if worker == 0 {
        errand.company.end();
    }
}

/// So many workers search for what is wanted, each in a thread of its own, unless too few turns are left for them to part.
pub fn do_together<R: Threads + Sync, G: Game>(rt: &R, errand: &Errand<'_, G>, workers: usize)
    requires { IsErrandOf G.Game errand.now }
{
    if errand.asked.depth < FEWEST_TURNS {
        return;
    }
    errand.company.begin();
    let part = |worker: usize|
        requires { IsErrandOf G.Game errand.now }
    { do_part(errand, worker) };
    let _ = map_indices(rt, errand.alloc, workers, &part);
}

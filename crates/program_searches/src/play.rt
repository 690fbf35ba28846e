//! The memory of a search, and of the line of play that it finds.
ghost use Rattle.std.specs.Prelude.{◌≡◌, ◌-◌, pos, IfOk, Some, Contains};
ghost use Rattle.statement.specs.Value.{value, worst, choice_of};
ghost use Rattle.maximin.specs.Open.{IsOpen};
ghost use Rattle.maximin.specs.Room.{IsRoomOf, room_depth};
ghost use Rattle.program_searches.specs.Play.{IsPlayOf, IsPlayFor, IsPlayKept, IsTurnOf};

use game::{Game, Joint, Question, new_joint};
use maximin::{Room, reply_by_value};
use std::alloc::{AllocError, Global};
use std::mem;

/// The state of play, the last joint move, and all memory to go on.
#[derive(Drop)]
pub(crate) struct Play<G: Game> {
    pub(crate) here: G::Pos,
    next: G::Pos,
    pub(crate) joint: Joint,
    pub(crate) room: Room<G>,
}

impl<G: Game> Play<G> {
    /// Play that stands at a state, with a room for searches. Nothing else here takes memory.
    pub(crate) fn new(
        alloc: Global,
        game: &G,
        here: G::Pos,
        room: Room<G>,
    ) -> Result<Play<G>, AllocError>
        requires fits { G.fits game.now here }
        requires room { IsRoomOf G.Game game.now room }
        ensures here { IfOk result (λ play. play.here ≡ here) }
        ensures play { IfOk result (λ play. IsPlayOf G.Game game.now play) }
        ensures deep { IfOk result (λ play. room_depth play.room ≡ room_depth room) }
    {
        let next = game.fresh()?;
        let joint = new_joint(alloc, game.roles())?;
        Ok(Play {
            here,
            next,
            joint,
            room,
        })
    }

    /// Plays one turn, in which the role plays `own` and all others the first reply that leaves the least value, which is `worth`.
    pub(crate) fn own_turn(&mut self, game: &G, asked: Question, own: u32, worth: i16)
        requires play { IsPlayFor G.Game game.now asked.role asked.depth self.old }
        requires open { IsOpen (G.rules game.now) asked.depth (G.state game.now self.old.here) }
        requires own { Contains ((G.rules game.now).legal (G.state game.now self.old.here) asked.role) own }
        requires worth { worth ≡ pos (worst (G.rules game.now) asked.role (asked.depth - 1) asked.at (G.state game.now self.old.here) own) }
        ensures turn { IsTurnOf (G.rules game.now) asked.role (asked.depth - 1) asked.at (G.state game.now self.old.here) own worth self.new.joint.items
            (G.state game.now self.new.here) }
        ensures play { IsPlayKept G.Game game.now self.old self.new }
    {
        reply_by_value(
            game,
            &self.here,
            asked,
            own,
            worth,
            &mut self.room,
            &mut self.joint,
        );
        game.step(&self.here, &self.joint, &mut self.next);
        mem::swap(&mut self.here, &mut self.next);
    }

    /// Plays one turn, in which the role plays its choice and all others the first reply that leaves the least value. The value of
    /// the state, which is `worth`, stays.
    pub(crate) fn turn(&mut self, game: &G, asked: Question, own: u32, worth: i16)
        requires play { IsPlayFor G.Game game.now asked.role asked.depth self.old }
        requires own { choice_of (G.rules game.now) asked.role asked.depth asked.at (G.state game.now self.old.here) ≡ Some own }
        requires worth { worth ≡ pos (value (G.rules game.now) asked.role asked.depth asked.at (G.state game.now self.old.here)) }
        ensures turn { IsTurnOf (G.rules game.now) asked.role (asked.depth - 1) asked.at (G.state game.now self.old.here) own worth self.new.joint.items
            (G.state game.now self.new.here) }
        ensures play { IsPlayKept G.Game game.now self.old self.new }
    {
        self.own_turn(game, asked, own, worth);
    }

    /// Play that stands at another state, with the same memory.
    pub(crate) fn stand(&mut self, game: &G, at: &G::Pos)
        requires fits { G.fits game.now at.now }
        requires play { IsPlayOf G.Game game.now self.old }
        ensures here { G.state game.now self.new.here ≡ G.state game.now at.now }
        ensures play { IsPlayKept G.Game game.now self.old self.new }
    {
        game.copy(at, &mut self.here);
    }
}

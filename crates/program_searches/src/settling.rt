//! Whether any further turn can change a value.
ghost use Rattle.std.specs.Prelude.{ℕ, ◌≡◌, ◌<◌, nat_le, pos, IfOk};
ghost use Rattle.statement.specs.declared.at_bound.AtBound.TheVariants.{Zero, Unfinished};
ghost use Rattle.statement.specs.Value.{value};
ghost use Rattle.statement.specs.Deepening.{greatest_worth, is_settled};
ghost use Rattle.maximin.specs.Room.{IsRoomFor, IsRoomKept};
ghost use Rattle.program_searches.specs.Settling.{IsLeastFor, IsSettlingFor};

use game::{AtBound, Game, Question, worth_at_the_bound_bounds_the_value};
use maximin::{Room, value_in};
use statement::Worth;
use std::alloc::{AllocError, Global};

/// The worth 100 for unfinished play.
fn greatest() -> AtBound
    ensures { result ≡ Unfinished greatest_worth }
{
    match Worth::of(100) {
        Some(worth) => AtBound::Unfinished(worth),
        None => AtBound::Goal,
    }
}

/// Whether a state is worth no less, where unfinished play is worth nothing, than it is by the question, which is `worth`.
fn is_sure<G: Game>(
    game: &G,
    here: &G::Pos,
    asked: Question,
    worth: i16,
    room: &mut Room<G>,
) -> bool
    requires fits { G.fits game.now here.now }
    requires room { IsRoomFor G.Game game.now asked.role asked.depth room.old }
    requires worth { worth ≡ pos (value (G.rules game.now) asked.role asked.depth asked.at (G.state game.now here.now)) }
    ensures sure { result ≡ nat_le (value (G.rules game.now) asked.role asked.depth asked.at (G.state game.now here.now))
        (value (G.rules game.now) asked.role asked.depth Zero (G.state game.now here.now)) }
    ensures room { IsRoomKept G.Game game.now room.old room.new }
{
    let least = Question {
        at: AtBound::Zero,
        ..asked
    };
    let found = value_in(game, here, least, worth - 1, worth, room);
    found >= worth
}

/// Whether a state is worth no more, where unfinished play is worth 100, than it is by the question, which is `worth`.
fn is_most<G: Game>(
    game: &G,
    here: &G::Pos,
    asked: Question,
    worth: i16,
    room: &mut Room<G>,
) -> bool
    requires fits { G.fits game.now here.now }
    requires room { IsRoomFor G.Game game.now asked.role asked.depth room.old }
    requires worth { worth ≡ pos (value (G.rules game.now) asked.role asked.depth asked.at (G.state game.now here.now)) }
    ensures most { result ≡ nat_le (value (G.rules game.now) asked.role asked.depth (Unfinished greatest_worth) (G.state game.now here.now))
        (value (G.rules game.now) asked.role asked.depth asked.at (G.state game.now here.now)) }
    ensures room { IsRoomKept G.Game game.now room.old room.new }
{
    let most = Question {
        at: greatest(),
        ..asked
    };
    let found = value_in(game, here, most, worth, worth + 1, room);
    found <= worth
}

/// The memory of searches in which unfinished play is worth nothing, if it is worth something by the question.
fn least_room<G: Game>(
    alloc: Global,
    game: &G,
    asked: Question,
    bytes: usize,
) -> Result<Option<Room<G>>, AllocError>
    requires { asked.role < (G.rules game.now).roles }
    ensures { IfOk result (IsLeastFor G.Game game.now asked.role asked.depth asked.at) }
{
    if let AtBound::Zero = asked.at {
        return Ok(None);
    }
    let least = Question {
        at: AtBound::Zero,
        ..asked
    };
    let room = Room::with_table(alloc, game, least, bytes)?;
    Ok(Some(room))
}

/// The memory of searches that tell whether a value is settled.
#[derive(Drop)]
pub(crate) struct Settling<G: Game> {
    /// For unfinished play that is worth nothing. There is none where that is the question.
    least: Option<Room<G>>,
    /// For unfinished play that is worth 100.
    most: Room<G>,
}

impl<G: Game> Settling<G> {
    /// Memory for questions of so many turns or fewer. What is kept of states takes at most so many bytes for each worth of unfinished play.
    /// Nothing else here takes memory.
    pub(crate) fn new(
        alloc: Global,
        game: &G,
        asked: Question,
        bytes: usize,
    ) -> Result<Settling<G>, AllocError>
        requires { asked.role < (G.rules game.now).roles }
        ensures { IfOk result (IsSettlingFor G.Game game.now asked.role asked.depth asked.at) }
    {
        let least = least_room(alloc, game, asked, bytes)?;
        let wanted = Question {
            at: greatest(),
            ..asked
        };
        let most = Room::with_table(alloc, game, wanted, bytes)?;
        Ok(Settling { least, most })
    }

    /// Whether a state is worth no less where unfinished play is worth nothing than it is by the question, which is `worth`.
    fn is_low(&mut self, game: &G, here: &G::Pos, asked: Question, worth: i16) -> bool
        requires fits { G.fits game.now here.now }
        requires room { IsLeastFor G.Game game.now asked.role asked.depth asked.at self.old.least }
        requires worth { worth ≡ pos (value (G.rules game.now) asked.role asked.depth asked.at (G.state game.now here.now)) }
        ensures low { result ≡ nat_le (value (G.rules game.now) asked.role asked.depth asked.at (G.state game.now here.now))
            (value (G.rules game.now) asked.role asked.depth Zero (G.state game.now here.now)) }
        ensures most { self.new.most ≡ self.old.most }
        ensures kept { (deep : ℕ) → IsLeastFor G.Game game.now asked.role deep asked.at self.old.least
            → IsLeastFor G.Game game.now asked.role deep asked.at self.new.least }
    {
        match &mut self.least {
            Some(room) => is_sure(game, here, asked, worth, room),
            None => true,
        }
    }

    /// Whether the value of a state, which is `worth`, is settled: the same where unfinished play is worth nothing and where it is worth 100.
    pub(crate) fn is_settled(
        &mut self,
        game: &G,
        here: &G::Pos,
        asked: Question,
        worth: i16,
    ) -> bool
        requires fits { G.fits game.now here.now }
        requires room { IsSettlingFor G.Game game.now asked.role asked.depth asked.at self.old }
        requires worth { worth ≡ pos (value (G.rules game.now) asked.role asked.depth asked.at (G.state game.now here.now)) }
        ensures settled { result ≡ is_settled (G.rules game.now) asked.role (G.state game.now here.now) asked.depth }
        ensures kept { (deep : ℕ) → IsSettlingFor G.Game game.now asked.role deep asked.at self.old
            → IsSettlingFor G.Game game.now asked.role deep asked.at self.new }
    {
        worth_at_the_bound_bounds_the_value();
        if self.is_low(game, here, asked, worth) {
            return is_most(game, here, asked, worth, &mut self.most);
        }
        false
    }
}

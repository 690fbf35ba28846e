//! A place among the joint moves of a state.
ghost use Rattle.std.specs.Prelude.{◌≡◌, ◌≢◌, ℕ, ◌+◌, ◌<◌, ◌≤◌, ◌∷◌, [], false, IfOk, slice_get, slice_index_or};
ghost use Rattle.smallvec.specs.SmallVec.{small_vec_len};
ghost use Rattle.statement.specs.Rules.{is_stuck as stuck, choices, turns_with};
ghost use Rattle.maximin.specs.Turns.{StandsAt, later};
ghost use Rattle.maximin.specs.Cursor.{IsCursorOf, IsNext, cursor_capacities};

use game::{Game, Joint};
use smallvec::SmallVec;
use std::alloc::{AllocError, Global};

/// A place among the joint moves of a state: a joint move, and where the move of each role stands in the list of its moves.
#[derive(Drop)]
pub struct Cursor {
    pub joint: Joint,
    pub places: SmallVec<usize, 8, Global>,
}

impl Cursor {
    ghost use Rattle.std.specs.Prelude.{slice_set, IfOk};

    /// A cursor for a game with this many roles.
    pub fn new(alloc: Global, roles: usize) -> Result<Self, AllocError>
        ensures { IfOk result (λ cursor. IsCursorOf roles cursor) }
    {
        let mut joint = SmallVec::new(alloc);
        let mut places = SmallVec::new(alloc);
        for _ in 0..roles {
            joint.push(0)?;
            places.push(0)?;
        }
        Ok(Cursor { joint, places })
    }

    /// Puts a role at a place of its moves, where this number stands.
    fn put(&mut self, role: usize, place: usize, number: u32)
        requires joint { role < small_vec_len self.old.joint }
        requires places { role < small_vec_len self.old.places }
        ensures joint { self.new.joint.items ≡ slice_set self.old.joint.items role number }
        ensures places { self.new.places.items ≡ slice_set self.old.places.items role place }
        ensures capacities { cursor_capacities self.new ≡ cursor_capacities self.old }
    {
        self.joint[role] = number;
        self.places[role] = place;
    }
}

/// The move at a place of what `other` may play where `role` plays `own`.
fn option_at<G: Game>(
    game: &G,
    from: &G::Pos,
    role: usize,
    own: u32,
    other: usize,
    place: usize,
) -> Option<u32>
    requires fits { G.fits game.now from.now }
    requires other { other < (G.rules game.now).roles }
    ensures { result ≡ slice_get (slice_index_or (choices (G.rules game.now) (G.state game.now from.now) role own) other []) place }
{
    if other != role {
        game.legal(from, other, place)
    } else if place == 0 {
        Some(own)
    } else {
        None
    }
}

/// Sets up the first joint move in which the role plays `own`.
pub fn start_turns<G: Game>(game: &G, from: &G::Pos, role: usize, own: u32, cursor: &mut Cursor)
    requires fits { G.fits game.now from.now }
    requires role { role < (G.rules game.now).roles }
    requires cursor { IsCursorOf (G.rules game.now).roles cursor.old }
    requires open { stuck (G.rules game.now) (G.state game.now from.now) ≡ false }
    ensures cursor { IsCursorOf (G.rules game.now).roles cursor.new }
    ensures capacities { cursor_capacities cursor.new ≡ cursor_capacities cursor.old }
    ensures stands { StandsAt (choices (G.rules game.now) (G.state game.now from.now) role own) cursor.new.places.items cursor.new.joint.items }
    ensures first { turns_with (G.rules game.now) (G.state game.now from.now) role own
        ≡ cursor.new.joint.items ∷ later (choices (G.rules game.now) (G.state game.now from.now) role own) cursor.new.places.items }
{
    for other in 0..game.roles() {
        if let Some(first) = option_at(game, from, role, own, other, 0) {
            cursor.put(other, 0, first);
        }
    }
}

/// Goes on to the next joint move in which the role plays as it does, if there is one. The last role's move changes fastest.
pub fn next_turn<G: Game>(
    game: &G,
    from: &G::Pos,
    role: usize,
    own: u32,
    cursor: &mut Cursor,
) -> bool
    requires fits { G.fits game.now from.now }
    requires role { role < (G.rules game.now).roles }
    requires cursor { IsCursorOf (G.rules game.now).roles cursor.old }
    requires open { stuck (G.rules game.now) (G.state game.now from.now) ≡ false }
    requires stands { StandsAt (choices (G.rules game.now) (G.state game.now from.now) role own) cursor.old.places.items cursor.old.joint.items }
    ensures cursor { IsCursorOf (G.rules game.now).roles cursor.new }
    ensures capacities { cursor_capacities cursor.new ≡ cursor_capacities cursor.old }
    ensures next { IsNext (choices (G.rules game.now) (G.state game.now from.now) role own) result cursor.old cursor.new }
{
    for other in (0..game.roles()).rev() {
        let place = cursor.places[other] + 1;
        if let Some(next) = option_at(game, from, role, own, other, place) {
            cursor.put(other, place, next);
            return true;
        }
        if let Some(first) = option_at(game, from, role, own, other, 0) {
            cursor.put(other, 0, first);
        }
    }
    false
}

/// Writes a joint move over another.
pub fn write_joint(from: &Joint, to: &mut Joint)
    requires { small_vec_len from.now ≤ to.old.capacity }
    ensures items { to.new.items ≡ from.now.items }
    ensures capacity { to.new.capacity ≡ to.old.capacity }
{
    to.clear();
    for number in from.as_slice() {
        to.push_reserved(*number);
    }
}

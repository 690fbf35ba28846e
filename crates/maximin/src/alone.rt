//! States in which no other role has a choice.
ghost use Rattle.std.specs.Prelude.{◌≡◌, ◌+◌, ◌<◌, ◌≤◌, ◌++◌, ◌∷◌, [], All, length, slice_set};
ghost use Rattle.std.specs.Bool.{OnTrue};
ghost use Rattle.smallvec.specs.SmallVec.{small_vec_len};
ghost use Rattle.statement.specs.Rules.{IsTurn};
ghost use Rattle.maximin.specs.Alone.{IsAlone, IsOwnRun};
ghost use Rattle.maximin.specs.Run.{IsRunOf, turns_in, run_capacities};

use crate::cursor::write_joint;
use crate::run::Run;
use game::{Game, Joint};

/// Whether each other role has one legal move at most.
pub fn is_alone<G: Game>(game: &G, from: &G::Pos, role: usize) -> bool
    requires fits { G.fits game.now from.now }
    requires role { role < (G.rules game.now).roles }
    ensures { OnTrue result (IsAlone (G.rules game.now) (G.state game.now from.now) role) }
{
    for other in 0..game.roles() {
        if other != role && game.legal(from, other, 1).is_some() {
            return false;
        }
    }
    true
}

/// Writes a joint move, with this move in the place of a role, over another.
fn write_own(from: &Joint, role: usize, own: u32, to: &mut Joint)
    requires room { small_vec_len from.now ≤ to.old.capacity }
    requires role { role < small_vec_len from.now }
    ensures items { to.new.items ≡ slice_set from.now.items role own }
    ensures capacity { to.new.capacity ≡ to.old.capacity }
{
    write_joint(from, to);
    to[role] = own;
}

/// Writes a joint move, with this move in the place of a role, behind those of the run.
pub fn add_own(joint: &Joint, role: usize, own: u32, run: &mut Run)
    requires room { run.old.count < 64 }
    requires role { role < small_vec_len joint.now }
    requires run { IsRunOf (small_vec_len joint.now) run.old }
    ensures run { IsRunOf (small_vec_len joint.now) run.new }
    ensures capacities { run_capacities run.new ≡ run_capacities run.old }
    ensures count { run.new.count ≡ run.old.count + 1 }
    ensures turns { turns_in run.new ≡ turns_in run.old ++ slice_set joint.now.items role own ∷ [] }
{
    let place = run.count;
    write_own(joint, role, own, &mut run.joints[place]);
    run.count += 1;
}

/// Takes the joint moves in which the role plays its moves from a place on, at most `most` of them, and the others play as here.
pub fn gather_own<G: Game>(
    game: &G,
    from: &G::Pos,
    role: usize,
    place: usize,
    joint: &Joint,
    most: usize,
    run: &mut Run,
)
    requires fits { G.fits game.now from.now }
    requires role { role < (G.rules game.now).roles }
    requires place { place ≤ length ((G.rules game.now).legal (G.state game.now from.now) role) }
    requires joint { IsTurn (G.rules game.now) joint.now.items }
    requires few { most ≤ 64 }
    requires run { IsRunOf (G.rules game.now).roles run.old }
    ensures own { IsOwnRun (G.rules game.now) (G.state game.now from.now) role joint.now.items place most run.new }
    ensures capacities { run_capacities run.new ≡ run_capacities run.old }
{
    run.count = 0;
    'moves: while run.count < most {
        let Some(own) = game.legal(from, role, place + run.count) else {
            return;
        };
        add_own(joint, role, own, run);
    }
}

//! A run of joint moves that are stepped at once.
ghost use Rattle.std.specs.Prelude.{◌≡◌, ◌+◌, ◌<◌, ◌∷◌, ◌++◌, [], IfOk};
ghost use Rattle.smallvec.specs.SmallVec.{small_vec_len};
ghost use Rattle.maximin.specs.Run.{IsRunOf, turns_in, run_capacities};

use crate::cursor::write_joint;
use game::Joint;
use smallvec::SmallVec;
use std::alloc::{AllocError, Global};

/// The most joint moves that are stepped at once.
pub const LONGEST_RUN: usize = 64;

/// Joint moves of a state that stand one behind the other, with room for the longest run.
#[derive(Drop)]
pub struct Run {
    pub joints: Vec<Joint>,
    /// How many of them are in the run.
    pub count: usize,
}

/// A run for a game with this many roles.
pub fn new_run(alloc: Global, roles: usize) -> Result<Run, AllocError>
    ensures { IfOk result (λ run. IsRunOf roles run) }
{
    let mut joints = Vec::new(alloc);
    for _ in 0..LONGEST_RUN {
        joints.push(SmallVec::with_capacity(alloc, roles)?)?;
    }
    Ok(Run { joints, count: 0 })
}

/// Writes a joint move behind those of the run.
pub fn add_turn(joint: &Joint, run: &mut Run)
    requires room { run.old.count < 64 }
    requires run { IsRunOf (small_vec_len joint.now) run.old }
    ensures run { IsRunOf (small_vec_len joint.now) run.new }
    ensures capacities { run_capacities run.new ≡ run_capacities run.old }
    ensures count { run.new.count ≡ run.old.count + 1 }
    ensures turns { turns_in run.new ≡ turns_in run.old ++ joint.now.items ∷ [] }
{
    let place = run.count;
    write_joint(joint, &mut run.joints[place]);
    run.count += 1;
}

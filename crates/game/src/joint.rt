//! Joint moves.
ghost use Rattle.std.specs.Prelude.{◌≡◌, ◌<◌, IfOk, slice_set};
ghost use Rattle.smallvec.specs.SmallVec.{small_vec_len};

use smallvec::SmallVec;
use std::alloc::{AllocError, Global};

/// The number of a move of each role, in the order of the roles.
pub type Joint = SmallVec<u32, 8, Global>;

/// A joint move of as many roles, to be written over.
pub fn new_joint(alloc: Global, roles: usize) -> Result<Joint, AllocError>
    ensures { IfOk result (λ joint. small_vec_len joint ≡ roles) }
{
    let mut joint = SmallVec::new(alloc);
    for _ in 0..roles {
        joint.push(0)?;
    }
    Ok(joint)
}

/// Writes the move of a role into a joint move, and leaves those of the others.
pub fn put_move(joint: &mut Joint, role: usize, number: u32)
    requires { role < small_vec_len joint.old }
    ensures { joint.new.items ≡ slice_set joint.old.items role number }
{
    joint[role] = number;
}

//! The answer over what a handle leads to.
ghost use Rattle.std.specs.Prelude.{◌≡◌, ◌≤◌, ℕ, List, []};
ghost use Rattle.statement.specs.declared.status.Status.TheVariants.{Answer, Refused};
ghost use Rattle.gdlsolve_c.specs.Calls.{Fills, RoomReplied};
ghost use Rattle.gdlsolve_c.specs.Handles.{StandsFor};

use crate::call::fill;
use crate::handle::Handle;
use crate::told::tell_over;
use std::alloc::Global;

/// The status of want of memory.
const STARVED: u32 = 3;

/// Answers the command that the words make, over the rules that the handle stands for, and the handle stands for them as before.
pub(crate) fn asked(
    alloc: Global,
    handle: &mut Handle,
    words: &[u8],
    room: &mut [u8],
    size: &mut usize,
) -> u32
    ghost rules: { List ℕ }
    requires { StandsFor handle.old rules }
    ensures stands { StandsFor handle.new rules }
    ensures statuses { result ≤ 3 }
    ensures told { (bytes : List ℕ) × Fills room.old room.new size.new bytes }
    ensures answered { result ≡ 0 → RoomReplied Answer rules room.old room.new size.new }
    ensures refused { result ≡ 2 → RoomReplied Refused rules room.old room.new size.new }
    ensures starved { result ≡ 3 → Fills room.old room.new size.new [] }
{
    let Ok(told) = tell_over(alloc, words, &handle.rules, &mut handle.made) else {
        *size = 0;
        return STARVED;
    };
    let bytes = told.bytes();
    *size = bytes.len();
    fill(room, bytes);
    told.status()
}

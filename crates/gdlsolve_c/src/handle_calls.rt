//! The calls that open a handle, ask over its rules and close it.
ghost use Rattle.std.specs.Prelude.{◌≡◌, ◌≤◌, ℕ, List, []};
ghost use types.Logic.{sem};
ghost use Rattle.statement.specs.declared.status.Status.TheVariants.{Answer, Refused};
ghost use Rattle.gdlsolve_c.specs.Calls.{Fills, RoomReplied};
ghost use Rattle.gdlsolve_c.specs.Handles.{LeadsTo, OpensTo, IsOpenStatus};

use crate::asking::asked;
use crate::handle::Handle;
use crate::opening::{Opened, closed, open_over};
use crate::parts::Parts;
use std::alloc::Global;

/// Opens a handle that stands for the rules, whose bytes it keeps.
///
/// The answer is 0, and then the handle leads to what is kept, or 3 for want of memory, and then it is null. The rules may have faults: an ask
/// tells them, as `gdlsolve_reply` does. The handle is closed by `gdlsolve_close`.
#[unsafe(no_mangle)]
pub extern "C" fn gdlsolve_open(alloc: Global, rules: &[u8], handle: &mut *mut u8) -> u32
    ensures* opens { sem 𝓛 (OpensTo result handle.new rules.now) }
    ensures statuses { IsOpenStatus result }
{
    let Opened { at, status } = open_over(alloc, rules);
    *handle = at;
    status
}

/// Answers the command that the words make, over the rules that the handle stands for, as `gdlsolve_reply` does over their bytes. The game of
/// the rules stays from one ask to the next.
///
/// Also after want of memory the handle stands for the rules, and may be asked again. One handle serves one call at a time.
#[unsafe(no_mangle)]
pub unsafe extern "C" fn gdlsolve_ask(
    alloc: Global,
    handle: *mut u8,
    words: &[u8],
    room: &mut [u8],
    size: &mut usize,
) -> u32
    ghost rules: { List ℕ }
    requires* { sem 𝓛 (LeadsTo handle rules) }
    ensures* leads { sem 𝓛 (LeadsTo handle rules) }
    ensures statuses { result ≤ 3 }
    ensures told { (bytes : List ℕ) × Fills room.old room.new size.new bytes }
    ensures answered { result ≡ 0 → RoomReplied Answer rules room.old room.new size.new }
    ensures refused { result ≡ 2 → RoomReplied Refused rules room.old room.new size.new }
    ensures starved { result ≡ 3 → Fills room.old room.new size.new [] }
{
    asked(alloc, &mut *handle.cast::<Handle>(), words, room, size)
}

/// Closes a handle: all that it has is given back, and nothing may be asked of it any more.
#[unsafe(no_mangle)]
pub unsafe extern "C" fn gdlsolve_close(alloc: Global, handle: *mut u8)
    ghost rules: { List ℕ }
    requires* { sem 𝓛 (LeadsTo handle rules) }
{
    closed(Parts {
        ptr: handle.cast::<Handle>(),
        alloc,
    })
}

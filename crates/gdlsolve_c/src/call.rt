//! The call.
ghost use Rattle.std.specs.Prelude.{◌≡◌, ◌≤◌, ℕ, List, []};
ghost use Rattle.statement.specs.declared.status.Status.TheVariants.{Answer, Refused};
ghost use Rattle.gdlsolve_c.specs.Calls.{filled, Fills, RoomReplied};

use crate::told::tell;
use std::alloc::Global;

/// The status of want of memory.
const STARVED: u32 = 3;

/// Writes the bytes into the room, as many as it has place for.
pub(crate) fn fill(room: &mut [u8], bytes: &[u8])
    ensures { room.new ≡ filled room.old bytes.now }
{
    let count = bytes.len().min(room.len());
    room[..count].copy_from_slice(&bytes[..count]);
}

/// Answers the command that the words make, over the bytes of the rules.
///
/// `words` are the words that the program `gdlsolve` takes behind its name, in UTF-8, with a byte 0 behind each. The whole reply has
/// `size` bytes, and the room is given as many of them as it has place for; so where `size` is more than the room, the same call with
/// that much room gives all of them. What is behind them in the room stays as it was.
///
/// The answer is the status: 0 for the answer to a command, 2 for a refusal, and the bytes are then those that the program writes. 1
/// for words that make no command, and the bytes are a text for people: what is wrong with them, or the help or the version that they
/// ask for; the rules are not looked at. 3 for want of memory, with a `size` of 0. How many threads the words name makes no
/// difference: the calling thread does all.
#[unsafe(no_mangle)]
pub extern "C" fn gdlsolve_reply(
    alloc: Global,
    words: &[u8],
    rules: &[u8],
    room: &mut [u8],
    size: &mut usize,
) -> u32
    ensures statuses { result ≤ 3 }
    ensures told { (bytes : List ℕ) × Fills room.old room.new size.new bytes }
    ensures answered { result ≡ 0 → RoomReplied Answer rules.now room.old room.new size.new }
    ensures refused { result ≡ 2 → RoomReplied Refused rules.now room.old room.new size.new }
    ensures starved { result ≡ 3 → Fills room.old room.new size.new [] }
{
    let Ok(told) = tell(alloc, words, rules) else {
        *size = 0;
        return STARVED;
    };
    let bytes = told.bytes();
    *size = bytes.len();
    fill(room, bytes);
    told.status()
}

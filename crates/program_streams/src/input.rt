//! The bytes of the input.
ghost use Rattle.std.specs.Prelude.{◌≡◌, ◌≢◌, ◌+◌, ◌++◌, ◌≤◌, ◌<◌, length, take, drop, vec_len, IfOk, IfErr};
ghost use Rattle.std.specs.Io.KnownBytes.{Consumes, IsAtEnd};
ghost use Rattle.program_streams.specs.Input.{IsReadFrom};

use crate::fault::RunFault;
use kif::TEXT_LIMIT;
use std::alloc::{AllocError, Global};
use std::io::Read;

/// How many bytes are read at most: one more than a text may have, so that a longer one shows.
const READ_LIMIT: usize = TEXT_LIMIT + 1;

/// How long a text is that has room at once. Most are shorter.
const COMMON_LENGTH: usize = 65_536;

/// Room for so many bytes.
fn room_for(alloc: Global, size: usize) -> Result<Vec<u8>, AllocError>
    ensures { IfOk result (λ room. vec_len room ≡ size) }
{
    vec![in alloc; 0u8; size]
}

/// One read into the room from `at` on, and how many bytes it gave.
fn read_at<R: Read>(input: &mut R, room: &mut [u8], at: usize) -> Result<usize, RunFault>
    requires { at < length room.old }
    ensures front { take at room.new ≡ take at room.old }
    ensures within { IfOk result (λ count. at + count ≤ length room.new) }
    ensures consumed { IfOk result (λ count. Consumes (R.remaining input.old) (R.remaining input.new) (take count (drop at room.new))) }
    ensures ended { IfOk result (λ count. count ≡ 0 → IsAtEnd (R.remaining input.new)) }
    ensures fault { IfErr result (λ fault. fault ≡ RunFault.Read) }
{
    input.read(&mut room[at..]).map_err(|_| RunFault::Read)
}

/// Reads until the room is full or the input ends, and answers how many bytes that gave.
fn fill<R: Read>(input: &mut R, room: &mut [u8]) -> Result<usize, RunFault>
    ensures within { IfOk result (λ filled. filled ≤ length room.new) }
    ensures consumed { IfOk result (λ filled. Consumes (R.remaining input.old) (R.remaining input.new) (take filled room.new)) }
    ensures ended { IfOk result (λ filled. filled < length room.new → IsAtEnd (R.remaining input.new)) }
    ensures fault { IfErr result (λ fault. fault ≡ RunFault.Read) }
{
    let mut filled = 0;
    while filled < room.len() {
        let count = read_at(input, room, filled)?;
        if count == 0 {
            return Ok(filled);
        }
        filled += count;
    }
    Ok(filled)
}

/// Reads so many bytes, or fewer where the input ends. `Memory` comes before the first read, and `Read` at the first read that fails.
fn read_some<R: Read>(alloc: Global, input: &mut R, most: usize) -> Result<Vec<u8>, RunFault>
    ensures within { IfOk result (λ bytes. length bytes.items ≤ most) }
    ensures consumed { IfOk result (λ bytes. Consumes (R.remaining input.old) (R.remaining input.new) bytes.items) }
    ensures ended { IfOk result (λ bytes. length bytes.items < most → IsAtEnd (R.remaining input.new)) }
    ensures faults { IfErr result (λ fault. fault ≢ RunFault.Write) }
{
    let Ok(mut bytes) = room_for(alloc, most) else {
        return Err(RunFault::Memory);
    };
    let filled = fill(input, &mut bytes)?;
    bytes.truncate(filled);
    Ok(bytes)
}

/// Bytes with others behind them.
fn joined(mut bytes: Vec<u8>, rest: &[u8]) -> Result<Vec<u8>, RunFault>
    ensures joined { IfOk result (λ all. all.items ≡ bytes.items ++ rest.now) }
    ensures fault { IfErr result (λ fault. fault ≡ RunFault.Memory) }
{
    let Ok(()) = bytes.extend_from_slice(rest) else {
        return Err(RunFault::Memory);
    };
    Ok(bytes)
}

/// Reads the input to its end, or to the limit. Room for a text of the common length comes first, and room for the longest only where
/// that is full: a page of memory that is not written costs nothing. `Read` comes at the first read that fails.
pub fn read_input<R: Read>(alloc: Global, input: &mut R) -> Result<Vec<u8>, RunFault>
    ensures whole { IfOk result (λ bytes. IsReadFrom (R.remaining input.old) (R.remaining input.new) bytes.items) }
    ensures faults { IfErr result (λ fault. fault ≢ RunFault.Write) }
{
    let bytes = read_some(alloc, input, COMMON_LENGTH)?;
    if bytes.len() < COMMON_LENGTH {
        return Ok(bytes);
    }
    let rest = read_some(alloc, input, READ_LIMIT - COMMON_LENGTH)?;
    joined(bytes, &rest)
}

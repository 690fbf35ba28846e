//! Bytes that were read and are not used yet.
ghost use Rattle.std.specs.Prelude.{◌≡◌, ◌<◌, ◌≤◌, List, ℕ, [], true, false, length, take, drop, Option, IfOk, IfErr};
ghost use Rattle.std.specs.Io.KnownBytes.{Consumes, IsAtEnd, Keeps};
ghost use Rattle.program_requests.specs.Feeds.{left_in, IsFeed, ahead};

use crate::fault::ReadFault;
use std::alloc::{AllocError, Global};
use std::io::Read;

/// How many bytes are read at once, at most.
const ROOM: usize = 65_536;

/// Bytes that were read and are not used yet.
#[derive(Drop)]
pub(crate) struct Feed {
    room: Vec<u8>,
    from: usize,
    to: usize,
}

/// One read, and how many bytes it gave.
fn read_once<R: Read>(input: &mut R, room: &mut [u8]) -> Result<usize, ReadFault>
    ensures size { length room.new ≡ length room.old }
    ensures within { IfOk result (λ count. count ≤ length room.new) }
    ensures consumed { IfOk result (λ count. Consumes (R.remaining input.old) (R.remaining input.new) (take count room.new)) }
    ensures ended { IfOk result (λ count. count ≡ 0 → 0 < length room.new → IsAtEnd (R.remaining input.new)) }
    ensures kept { IfErr result (λ fault. Keeps (R.remaining input.old) (R.remaining input.new)) }
{
    input.read(room).map_err(|_| ReadFault)
}

impl Feed {
    /// Nothing that was read.
    pub(crate) fn new(alloc: Global) -> Result<Feed, AllocError>
        ensures feed { IfOk result IsFeed }
        ensures none { IfOk result (λ feed. left_in feed ≡ []) }
    {
        let room = vec![in alloc; 0u8; ROOM]?;
        Ok(Feed {
            room,
            from: 0,
            to: 0,
        })
    }

    /// Reads on where all is used, and answers whether there is something left to use. If not, the input has ended.
    pub(crate) fn refill<R: Read>(&mut self, input: &mut R) -> Result<bool, ReadFault>
        requires { IsFeed self.old }
        ensures feed { IsFeed self.new }
        ensures same { Consumes (ahead self.old (R.remaining input.old)) (ahead self.new (R.remaining input.new)) [] }
        ensures some { IfOk result (λ more. more ≡ true → 0 < length (left_in self.new)) }
        ensures ended { IfOk result (λ more. more ≡ false → IsAtEnd (ahead self.new (R.remaining input.new))) }
    {
        if self.from < self.to {
            return Ok(true);
        }
        self.from = 0;
        self.to = 0;
        let count = read_once(input, &mut self.room)?;
        self.to = count;
        Ok(count > 0)
    }

    /// The bytes that are left to use.
    pub(crate) fn front(&self) -> &[u8]
        requires { IsFeed self.now }
        ensures { result.now ≡ left_in self.now }
    {
        &self.room[self.from..self.to]
    }

    /// Uses so many bytes.
    pub(crate) fn use_up(&mut self, count: usize)
        requires feed { IsFeed self.old }
        requires count { count ≤ length (left_in self.old) }
        ensures feed { IsFeed self.new }
        ensures used { (remaining : Option (List ℕ)) → Consumes (ahead self.old remaining) (ahead self.new remaining) (take count (left_in self.old)) }
        ensures left { left_in self.new ≡ drop count (left_in self.old) }
    {
        self.from += count;
    }
}

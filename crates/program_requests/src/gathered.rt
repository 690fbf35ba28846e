//! Bytes that are taken one part behind the other, as many as there is room for.
ghost use Rattle.std.specs.Prelude.{◌≡◌, ◌≤◌, ◌<◌, true, false, ◌+◌, ◌-◌, ◌++◌, List, ℕ, [], length, take, IfOk};
ghost use Rattle.program_requests.specs.Feeds.{HasFront};

use std::alloc::{AllocError, Global};

/// A room, and how many bytes of it are filled.
#[derive(Drop)]
pub(crate) struct Gathered {
    room: Vec<u8>,
    filled: usize,
}

/// Copies the front of a part into the room, as much as has place behind what is filled, and answers how much that is.
fn copy_in(room: &mut Vec<u8>, filled: usize, part: &[u8]) -> usize
    requires { filled ≤ length room.old.items }
    ensures size { length room.new.items ≡ length room.old.items }
    ensures within { filled + result ≤ length room.new.items }
    ensures copied { take (filled + result) room.new.items ≡ take filled room.old.items ++ take (length room.old.items - filled) part.now }
{
    let count = part.len().min(room.len() - filled);
    room[filled..filled + count].copy_from_slice(&part[..count]);
    count
}

impl Gathered {
    /// Room for so many bytes.
    pub(crate) fn new(alloc: Global, most: usize) -> Result<Gathered, AllocError>
        ensures none { IfOk result (λ g. HasFront g []) }
        ensures size { IfOk result (λ g. length g.room.items ≡ most) }
    {
        let room = vec![in alloc; 0u8; most]?;
        Ok(Gathered { room, filled: 0 })
    }

    /// Room for nothing.
    pub(crate) fn none(alloc: Global) -> Gathered
        ensures { HasFront result [] }
    {
        Gathered {
            room: Vec::new(alloc),
            filled: 0,
        }
    }

    /// Forgets what was taken.
    pub(crate) fn clear(&mut self)
        ensures none { HasFront self.new [] }
        ensures size { length self.new.room.items ≡ length self.old.room.items }
    {
        self.filled = 0;
    }

    /// Takes a part behind those before it.
    pub(crate) fn add(&mut self, part: &[u8])
        requires { self.old.filled ≤ length self.old.room.items }
        ensures within { self.new.filled ≤ length self.new.room.items }
        ensures added { (bytes : List ℕ) → HasFront self.old bytes → HasFront self.new (bytes ++ part.now) }
        ensures size { length self.new.room.items ≡ length self.old.room.items }
    {
        self.filled += copy_in(&mut self.room, self.filled, part);
    }

    /// Whether nothing was taken, or there is no room.
    pub(crate) fn is_empty(&self) -> bool
        ensures yes { result ≡ true → self.now.filled ≡ 0 }
        ensures no { result ≡ false → 0 < self.now.filled }
    {
        self.filled == 0
    }

    /// The bytes that were taken, as many as there was room for.
    pub(crate) fn bytes(&self) -> &[u8]
        requires { self.now.filled ≤ length self.now.room.items }
        ensures { result.now ≡ take self.now.filled self.now.room.items }
    {
        &self.room[..self.filled]
    }

    /// The bytes that were taken, as many as there was room for, by themselves.
    pub(crate) fn into_bytes(self) -> Vec<u8>
        requires { self.filled ≤ length self.room.items }
        ensures { result.items ≡ take self.filled self.room.items }
    {
        let mut bytes = self.room;
        bytes.truncate(self.filled);
        bytes
    }
}

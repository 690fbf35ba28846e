//! Names, kept one behind the other.
ghost use Rattle.std.specs.Prelude.{◌≡◌, ◌<◌, ◌≤◌, ◌++◌, ◌∷◌, [], length, take, slice_range, OnOk, OnErr};
ghost use Rattle.util_interner.specs.KeyLists.{key_at};

use crate::key_list::{end_of, start_of};
use std::alloc::{AllocError, Global};
use std::marker::Model;

/// Names as bytes, by number. They stand in one vector, so that none has memory of its own.
#[derive(Drop)]
pub struct NameList {
    bytes: Vec<u8>,
    /// Where each name ends.
    ends: Vec<u32>,
}

impl Model for NameList {
    ghost use Rattle.std.specs.Prelude.{ℕ, List, length};
    ghost use Rattle.util_interner.specs.KeyLists.{lists_at, AreEnds};

    ghost Value = { List (List ℕ) };

    ghost view = { λ n. lists_at 0 n.ends.items n.bytes.items };

    ghost invariant = { λ n. AreEnds 0 n.ends.items (length n.bytes.items) };
}

/// A part of bytes.
fn part_of(bytes: &[u8], from: usize, to: usize) -> &[u8]
    requires order { from ≤ to }
    requires within { to ≤ length bytes.now }
    ensures { result.now ≡ slice_range bytes.now from to }
{
    &bytes[from..to]
}

impl NameList {
    /// No names yet.
    pub fn new(alloc: Global) -> Self
        ensures { result ≡ [] }
    {
        NameList {
            bytes: Vec::new(alloc),
            ends: Vec::new(alloc),
        }
    }

    /// How many names there are.
    pub fn len(&self) -> usize
        ensures { result ≡ length self.now }
    {
        self.ends.len()
    }

    /// The bytes of a name.
    pub fn get(&self, number: usize) -> &[u8]
        requires { number < length self.now }
        ensures { result.now ≡ key_at self.now number }
    {
        let from = start_of(&self.ends, number);
        let to = end_of(&self.ends, number);
        part_of(&self.bytes, from, to)
    }

    /// Adds a name. More bytes in all than 32 bits count are refused as want of memory is. After an error the names are those before.
    pub fn push(&mut self, name: &[u8]) -> Result<(), AllocError>
        ensures added { OnOk result (self.new ≡ self.old ++ name.now ∷ []) }
        ensures failed { OnErr result (self.new ≡ self.old) }
    {
        let Ok(end) = u32::try_from(self.bytes.len().saturating_add(name.len())) else {
            return Err(AllocError);
        };
        self.ends.reserve(1)?;
        self.bytes.extend_from_slice(name)?;
        self.ends.push_reserved(end);
        Ok(())
    }
    /// Keeps the first names, so many.
    pub fn truncate(&mut self, many: usize)
        ensures { self.new ≡ take many self.old }
    {
        if many >= self.ends.len() {
            return;
        }
        let to = start_of(&self.ends, many);
        self.bytes.truncate(to);
        self.ends.truncate(many);
    }
}

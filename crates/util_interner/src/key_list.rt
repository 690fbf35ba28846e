//! Lists of numbers, kept one behind the other.
ghost use Rattle.std.specs.Prelude.{◌≡◌, ◌<◌, ◌≤◌, ◌++◌, ◌∷◌, [], length, take, slice_index, slice_range, OnOk, OnErr};
ghost use Rattle.util_interner.specs.KeyLists.{key_at};

use crate::room::with_room;
use std::alloc::{AllocError, Global};
use std::marker::Model;

/// Lists of numbers, by number. They stand in one vector, so that none has memory of its own.
#[derive(Drop)]
pub struct KeyList {
    numbers: Vec<u32>,
    /// Where each list ends.
    ends: Vec<u32>,
}

impl Model for KeyList {
    ghost use Rattle.std.specs.Prelude.{ℕ, List, length};
    ghost use Rattle.util_interner.specs.KeyLists.{lists_at, AreEnds};

    ghost Value = { List (List ℕ) };

    ghost view = { λ k. lists_at 0 k.ends.items k.numbers.items };

    ghost invariant = { λ k. AreEnds 0 k.ends.items (length k.numbers.items) };
}

/// Where a list begins: at the end of the one before it.
pub(crate) fn start_of(ends: &[u32], number: usize) -> usize
    requires { number ≤ length ends.now }
    ensures { result ≡ slice_index (0 ∷ ends.now) number }
{
    if number == 0 {
        return 0;
    }
    ends[number - 1] as usize
}

/// Where a list ends.
pub(crate) fn end_of(ends: &[u32], number: usize) -> usize
    requires { number < length ends.now }
    ensures { result ≡ slice_index ends.now number }
{
    ends[number] as usize
}

/// A part of numbers.
fn part_of(numbers: &[u32], from: usize, to: usize) -> &[u32]
    requires order { from ≤ to }
    requires within { to ≤ length numbers.now }
    ensures { result.now ≡ slice_range numbers.now from to }
{
    &numbers[from..to]
}

impl KeyList {
    /// No lists yet, with room for so many, and for so many numbers in all, where it can be had.
    pub fn with_room(alloc: Global, lists: usize, numbers: usize) -> Self
        ensures { result ≡ [] }
    {
        KeyList {
            numbers: with_room(alloc, numbers),
            ends: with_room(alloc, lists),
        }
    }

    /// How many lists there are.
    pub fn len(&self) -> usize
        ensures { result ≡ length self.now }
    {
        self.ends.len()
    }

    /// The list of a number.
    pub fn get(&self, number: usize) -> &[u32]
        requires { number < length self.now }
        ensures { result.now ≡ key_at self.now number }
    {
        let from = start_of(&self.ends, number);
        let to = end_of(&self.ends, number);
        part_of(&self.numbers, from, to)
    }

    /// Adds a list. More numbers in all than 32 bits count are refused as want of memory is. After an error the lists are those before.
    #[inline(always)]
    pub fn push(&mut self, list: &[u32]) -> Result<(), AllocError>
        ensures added { OnOk result (self.new ≡ self.old ++ list.now ∷ []) }
        ensures failed { OnErr result (self.new ≡ self.old) }
    {
        let Ok(end) = u32::try_from(self.numbers.len().saturating_add(list.len())) else {
            return Err(AllocError);
        };
        self.ends.reserve(1)?;
        self.numbers.reserve(list.len())?;
        for number in list {
            self.numbers.push_reserved(*number);
        }
        self.ends.push_reserved(end);
        Ok(())
    }

    /// Keeps the first lists, so many.
    pub fn truncate(&mut self, many: usize)
        ensures { self.new ≡ take many self.old }
    {
        if many >= self.ends.len() {
            return;
        }
        let to = start_of(&self.ends, many);
        self.numbers.truncate(to);
        self.ends.truncate(many);
    }
}

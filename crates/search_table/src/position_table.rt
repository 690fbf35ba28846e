//! A table of one thread.
ghost use Rattle.std.specs.Prelude.{◌≡◌, ◌≤◌, ◌<◌, ◌+◌, ◌*◌, ℕ, List, [], length, vec_capacity, IfOk};
ghost use Rattle.statement.specs.Rules.{Rules, State};
ghost use Rattle.statement.specs.declared.at_bound.AtBound.{AtBound as Bound};
ghost use Rattle.search_table.specs.Worths.{is_rising as is_rising_at};

use crate::bounds::Bounds;
use crate::entry::{Found, bounds_at, entry_word, merged};
use crate::rows::{
    add_zeros, bucket_of, double_rows, is_empty_row, known_in, known_of, place_for, row_at,
    write_row,
};
use game::AtBound;
use std::alloc::{AllocError, Global};

/// A table begins with at most so many entries, and takes more of its memory as they are filled.
const FIRST_ENTRIES: usize = 16;

/// Depths from here on are not kept.
const DEPTHS: u32 = 127;

/// Bounds of what states are worth to a role, where `at` says what a state is worth in which play goes on when the turns are over.
#[derive(Drop)]
pub struct PositionTable {
    pub(crate) words: Vec<u64>,
    /// How many words an entry has: one, and those of a key.
    pub(crate) stride: usize,
    /// How many entries there may be.
    pub(crate) entries: usize,
    /// About how many there are.
    pub(crate) filled: usize,
    pub role: usize,
    pub at: AtBound,
    ghost some: { 4 ≤ entries },
    ghost some_words: { 0 < stride },
    ghost size: { entries * stride ≡ length words.items },
}

/// The greatest power of two that is at most so much, but at least 4.
fn power_within(most: usize) -> usize
    ensures { 4 ≤ result }
{
    let mut power = 4;
    while power <= most / 2 {
        power *= 2;
    }
    power
}

/// Worths rise with the depth.
fn is_rising(at: AtBound) -> bool
    ensures { result ≡ is_rising_at at }
{
    match at {
        AtBound::Zero => true,
        AtBound::Goal => false,
        AtBound::Unfinished(worth) => worth.value == 0,
    }
}

impl PositionTable {
    ghost use Rattle.search_table.specs.Worths.{AreBoundsOf};
    ghost use Rattle.search_table.specs.Tables.{IsTableOf, worth_of, table_capacity};
    ghost use Rattle.search_table.specs.Says.{IsFound};

    /// An empty table for keys of so many words. It has memory for the greatest power of two of entries that is at most `most`, and
    /// for 4 at least, and uses it from small to large. No other call takes memory.
    pub fn new(
        alloc: Global,
        key_words: usize,
        role: usize,
        at: AtBound,
        most: usize,
    ) -> Result<PositionTable, AllocError>
        ensures { IfOk result (λ t. (g : Rules) (keyed : List ℕ → State) → ((s : State) → g.goal s role ≤ 100)
            → IsTableOf g keyed role at t) }
    {
        let entries = power_within(most);
        let Some(stride) = key_words.checked_add(1) else {
            return Err(AllocError);
        };
        let Some(size) = entries.checked_mul(stride) else {
            return Err(AllocError);
        };
        let words = Vec::with_capacity(alloc, size)?;
        Ok(PositionTable::of_memory(words, stride, role, at, entries.min(FIRST_ENTRIES)))
    }

    /// An empty table of so many entries.
    fn of_memory(
        mut words: Vec<u64>,
        stride: usize,
        role: usize,
        at: AtBound,
        entries: usize,
    ) -> PositionTable
        requires some { 4 ≤ entries }
        requires some_words { 0 < stride }
        requires empty { words.items ≡ [] }
        requires room { entries * stride ≤ vec_capacity words }
        ensures { (g : Rules) (keyed : List ℕ → State) → ((s : State) → g.goal s role ≤ 100) → IsTableOf g keyed role at result }
    {
        add_zeros(&mut words, entries * stride);
        PositionTable {
            words,
            stride,
            entries,
            filled: 0,
            role,
            at,
        }
    }

    /// Bounds of what the state of a key is worth within so many turns.
    pub fn find(&self, key: &[u64], depth: u32) -> Bounds
        ensures { (g : Rules) (keyed : List ℕ → State) (role : ℕ) (at : Bound) → IsTableOf g keyed role at self.now
            → AreBoundsOf (worth_of g keyed role at key.now) depth result }
    {
        let first = bucket_of(key, self.entries);
        let entry = known_in(&self.words, self.stride, first, key);
        bounds_at(entry, is_rising(self.at), depth)
    }

    /// Keeps bounds of what the state of a key is worth within so many turns. That the upper one lasts is kept where worths rise with
    /// the number of turns. What is kept is only a hint: the table may forget it, and depths above 126 are not kept.
    pub fn store(&mut self, key: &[u64], depth: u32, bounds: Bounds)
        ensures table { (g : Rules) (keyed : List ℕ → State) (role : ℕ) (at : Bound) → IsTableOf g keyed role at self.old
            → AreBoundsOf (worth_of g keyed role at key.now) depth bounds → IsTableOf g keyed role at self.new }
        ensures capacity { table_capacity self.new ≡ table_capacity self.old }
    {
        if depth >= DEPTHS || key.len() + 1 != self.stride {
            return;
        }
        self.grow();
        let found = Found {
            depth: depth as u8,
            bounds,
        };
        self.put(key, found);
    }

    /// Takes twice as many entries, if three quarters are filled and there is memory for them.
    fn grow(&mut self)
        ensures table { (g : Rules) (keyed : List ℕ → State) (role : ℕ) (at : Bound) → IsTableOf g keyed role at self.old
            → IsTableOf g keyed role at self.new }
        ensures capacity { table_capacity self.new ≡ table_capacity self.old }
        ensures stride { self.new.stride ≡ self.old.stride }
    {
        let entries = self.entries;
        if self.filled < entries / 4 * 3 {
            return;
        }
        let size = self.words.len();
        let room = self.words.capacity();
        if size > room / 2 {
            return;
        }
        double_rows(&mut self.words, self.stride, entries);
        self.entries = entries + entries;
    }

    /// Writes what was found of a key into the bucket of the key.
    fn put(&mut self, key: &[u64], found: Found)
        requires depth { found.depth < 127 }
        requires key { length key.now + 1 ≡ self.old.stride }
        ensures table { (g : Rules) (keyed : List ℕ → State) (role : ℕ) (at : Bound) → IsTableOf g keyed role at self.old
            → IsFound found (worth_of g keyed role at key.now) → IsTableOf g keyed role at self.new }
        ensures capacity { table_capacity self.new ≡ table_capacity self.old }
    {
        let first = bucket_of(key, self.entries);
        let e = place_for(&self.words, self.stride, first, key);
        let row = row_at(&self.words, self.stride, e);
        let fresh = usize::from(is_empty_row(row));
        let entry = merged(known_of(row, key), is_rising(self.at), found);
        self.filled = self.filled.saturating_add(fresh);
        write_row(&mut self.words, self.stride, e, entry_word(entry), key);
    }
}

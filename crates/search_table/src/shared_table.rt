//! The tables in memory, and the calls of threads.
ghost use Rattle.std.specs.Prelude.{◌≡◌, ◌<◌, ◌≤◌, List, ℕ, true, length, replicate, IfOk, IfSome, All};
ghost use Rattle.statement.specs.Rules.{Rules, State};
ghost use Rattle.search_table.specs.Worths.{AreBoundsOf};
ghost use Rattle.search_table.specs.Tables.{IsTableOf, worth_of};
ghost use Rattle.search_table.specs.Sharing.{Holds, IsRight};

use crate::bounds::Bounds;
use crate::hash::hash_of;
use crate::position_table::PositionTable;
use crate::rule::{Gives, Sharing, Takes};
use atomic_table::{Refused, Seat, Table};
use game::{AtBound, Game, Question};
use std::alloc::{AllocError, Global};

/// Tables of positions of one game, for threads that do not wait for each other. What is kept of a state lies in the table that the
/// hash of its key names.
#[derive(Drop)]
pub struct SharedTable<G: Game> {
    pub(crate) table: Table<PositionTable, G, G, Sharing<G>, Global>,
    ghost sized: { table.shared.table_id.words ≡ table.shared.table_id.slots },
    ghost some: { 0 < table.shared.table_id.words },
}

/// How many tables there are. So many threads seldom want the same one at once.
const TABLES: usize = 64;

/// How many entries there are in all, where they take at most so many bytes, for keys of so many words. No more than a search of so many
/// turns is likely to fill.
fn entries_within(bytes: usize, words: usize, depth: u32) -> usize {
    let entry = 8 * words.saturating_add(1).min(1 << 32);
    let most = 1usize << (2 * depth.min(24));
    most.min(bytes / entry)
}

/// So many words that are 0.
fn free_words(alloc: Global, count: usize) -> Result<Vec<u64>, AllocError>
    ensures { IfOk result (λ words. words.items ≡ replicate count 0) }
{
    let mut words = Vec::new(alloc);
    for _i in 0..count {
        words.push(0)?;
    }
    Ok(words)
}

/// So many empty tables, each with a share of the entries that there may be in all.
fn empty_tables<G: Game>(
    alloc: Global,
    game: &G,
    asked: Question,
    most: usize,
    count: usize,
) -> Result<Vec<PositionTable>, AllocError>
    requires { 0 < count }
    ensures count { IfOk result (λ tables. length tables.items ≡ count) }
    ensures right { IfOk result (λ tables. All (IsRight G.Game game.now) tables.items) }
{
    let words = game.key_words();
    let mut tables = Vec::new(alloc);
    for _i in 0..count {
        let table = PositionTable::new(alloc, words, asked.role, asked.at, most / count)?;
        tables.push(table)?;
    }
    Ok(tables)
}

/// Nothing is known of a worth.
fn nothing_known() -> Bounds
    ensures { (worth : ℕ → ℕ) (depth : ℕ) → ((d : ℕ) → worth d ≤ 100) → AreBoundsOf worth depth result }
{
    Bounds {
        lo: 0,
        hi: 100,
        lasts: true,
    }
}

/// The two say the same of a state in which play goes on when the turns are over.
fn is_same(at: AtBound, other: AtBound) -> bool
    ensures { result ≡ true → at ≡ other }
{
    match (at, other) {
        (AtBound::Zero, AtBound::Zero) | (AtBound::Goal, AtBound::Goal) => true,
        (AtBound::Unfinished(worth), AtBound::Unfinished(of_other)) => {
            worth.value == of_other.value
        }
        _ => false,
    }
}

/// The table is for the role and the bound of a question.
fn serves(table: &PositionTable, asked: Question) -> bool
    ensures { result ≡ true → (table.now.role ≡ asked.role) × (table.now.at ≡ asked.at) }
{
    if table.role != asked.role {
        return false;
    }
    is_same(table.at, asked.at)
}

/// What a table says of the state of a key. It says nothing of another role, and nothing with another bound.
fn look_in(table: &PositionTable, key: &[u64], asked: Question) -> Bounds
    ensures { (g : Rules) (keyed : List ℕ → State) → ((s : State) (role : ℕ) → g.goal s role ≤ 100)
        → IsTableOf g keyed table.now.role table.now.at table.now
        → AreBoundsOf (worth_of g keyed asked.role asked.at key.now) asked.depth result }
{
    if !serves(table, asked) {
        return nothing_known();
    }
    table.find(key, asked.depth)
}

/// Writes bounds of what the state of a key is worth into a table for this role and bound.
fn note_in(table: &mut PositionTable, key: &[u64], asked: Question, bounds: Bounds)
    ensures { (g : Rules) (keyed : List ℕ → State) → IsTableOf g keyed table.old.role table.old.at table.old
        → AreBoundsOf (worth_of g keyed asked.role asked.at key.now) asked.depth bounds
        → IsTableOf g keyed table.new.role table.new.at table.new }
{
    if !serves(table, asked) {
        return;
    }
    table.store(key, asked.depth, bounds);
}

impl<G: Game> SharedTable<G> {
    ghost use Rattle.search_table.specs.Games.{game_of};

    /// So many empty tables, at least one, for the role and the bound of a question. They have memory for `most` entries in all, or
    /// for a few more. No other call takes memory.
    pub fn new(
        alloc: Global,
        game: &G,
        asked: Question,
        most: usize,
        count: usize,
    ) -> Result<SharedTable<G>, AllocError>
        ensures { IfOk result (λ tables. game_of tables ≡ game.now) }
    {
        let count = count.max(1);
        let words = free_words(alloc, count)?;
        let tables = empty_tables(alloc, game, asked, most, count)?;
        match Table::new(alloc, words.as_slice(), tables, game) {
            Ok((table, _seat)) => Ok(SharedTable { table }),
            Err(Refused { slots: _ }) => Err(AllocError),
        }
    }

    /// Tables for a question that take at most so many bytes, if these are enough for them and are not refused.
    pub fn within(alloc: Global, game: &G, asked: Question, bytes: usize) -> Option<SharedTable<G>>
        ensures { IfSome result (λ tables. game_of tables ≡ game.now) }
    {
        let entries = entries_within(bytes, game.key_words(), asked.depth);
        if entries < TABLES {
            return None;
        }
        match SharedTable::new(alloc, game, asked, entries, TABLES) {
            Ok(tables) => Some(tables),
            Err(_) => None,
        }
    }

    /// The place of the table in which the state of a key is kept.
    fn place_of(&self, key: &[u64]) -> usize
        ensures { result < self.now.table.shared.table_id.words }
    {
        let count = self.table.word_count();
        (hash_of(key) >> 40) as usize % count
    }

    /// Takes a table, if no other thread has it.
    fn take(&self, place: usize) -> Option<Seat<PositionTable, G>>
        requires { place < self.now.table.shared.table_id.words }
        ensures table { IfSome result (λ seat. seat.table_id ≡ self.now.table.shared.table_id) }
        ensures right { IfSome result (λ seat. Holds (IsRight G.Game (game_of self.now)) place seat.me) }
    {
        if self.table.shared.peek(place) != 0 {
            return None;
        }
        let (found, seat) = self.table.shared.swap_new_seat::<Takes<G>>(place, 1);
        if found != 0 {
            return None;
        }
        Some(seat)
    }

    /// Gives a table back.
    fn give_back(&self, mut seat: Seat<PositionTable, G>, place: usize)
        requires place { place < self.now.table.shared.table_id.words }
        requires table { seat.table_id ≡ self.now.table.shared.table_id }
        requires right { Holds (IsRight G.Game (game_of self.now)) place seat.me }
    {
        self.table.shared.store::<Gives>(&mut seat, place, 0);
    }

    /// What the table says that a seat has.
    fn look(
        &self,
        seat: &mut Seat<PositionTable, G>,
        place: usize,
        key: &[u64],
        asked: Question,
    ) -> Bounds
        requires table { seat.old.table_id ≡ self.now.table.shared.table_id }
        requires right { Holds (IsRight G.Game (game_of self.now)) place seat.old.me }
        ensures within { AreBoundsOf (worth_of (G.rules (game_of self.now)) (G.keyed (game_of self.now)) asked.role asked.at key.now) asked.depth
            result }
        ensures table { seat.new.table_id ≡ seat.old.table_id }
        ensures right { Holds (IsRight G.Game (game_of self.now)) place seat.new.me }
    {
        let table = seat.slot_mut(&self.table.shared, place);
        look_in(table, key, asked)
    }

    /// Bounds of what the state of a key is worth. They are 0 and 100 where another thread has the table.
    pub fn find(&self, key: &[u64], asked: Question) -> Bounds
        ensures { AreBoundsOf (worth_of (G.rules (game_of self.now)) (G.keyed (game_of self.now)) asked.role asked.at key.now) asked.depth
            result }
    {
        let place = self.place_of(key);
        let Some(mut seat) = self.take(place) else {
            return nothing_known();
        };
        let bounds = self.look(&mut seat, place, key, asked);
        self.give_back(seat, place);
        bounds
    }

    /// Writes into the table that a seat has.
    fn note(
        &self,
        seat: &mut Seat<PositionTable, G>,
        place: usize,
        key: &[u64],
        asked: Question,
        bounds: Bounds,
    )
        requires table { seat.old.table_id ≡ self.now.table.shared.table_id }
        requires right { Holds (IsRight G.Game (game_of self.now)) place seat.old.me }
        requires bounds { AreBoundsOf (worth_of (G.rules (game_of self.now)) (G.keyed (game_of self.now)) asked.role asked.at key.now) asked.depth
            bounds }
        ensures table { seat.new.table_id ≡ seat.old.table_id }
        ensures right { Holds (IsRight G.Game (game_of self.now)) place seat.new.me }
    {
        let table = seat.slot_mut(&self.table.shared, place);
        note_in(table, key, asked, bounds);
    }

    /// Keeps bounds of what the state of a key is worth, or forgets them, as where another thread has the table.
    pub fn store(&self, key: &[u64], asked: Question, bounds: Bounds)
        requires { AreBoundsOf (worth_of (G.rules (game_of self.now)) (G.keyed (game_of self.now)) asked.role asked.at key.now) asked.depth
            bounds }
    {
        let place = self.place_of(key);
        let Some(mut seat) = self.take(place) else {
            return;
        };
        self.note(&mut seat, place, key, asked, bounds);
        self.give_back(seat, place);
    }
}

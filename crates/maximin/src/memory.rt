//! What a search keeps of the states that it has searched.
//!
//! A table of positions is of one role, and of one worth of a state at the bound. A question of another is not answered by it, and
//! nothing that is found is kept in it.
ghost use Rattle.std.specs.Prelude.{◌≡◌, ◌≤◌, ◌+◌, ◌*◌, ℕ, List, true, IfOk, length};
ghost use Rattle.std.specs.Arc.{arc_value};
ghost use Rattle.game.specs.Keys.{key_at};
ghost use Rattle.statement.specs.Value.{value};
ghost use Rattle.search_table.specs.Tables.{IsTableOf, table_capacity, worth_of};
ghost use Rattle.search_table.specs.Worths.{AreBoundsOf};
ghost use Rattle.search_table.specs.Games.{game_of};
ghost use Rattle.maximin.specs.Memory.{ArePositionsOf, IsMemoryOf, memory_capacities, position_capacities};

use crate::run::LONGEST_RUN;
use game::{AtBound, Game, Question};
use search_table::{Bounds, PositionTable, SharedTable};
use std::alloc::{AllocError, Global};
use std::sync::Arc;

/// States with fewer turns left are not looked up: to search them costs no more.
const FEWEST_TURNS: u32 = 2;

/// The fewest entries of a table.
const FEWEST_ENTRIES: usize = 4;

/// Where bounds of what states are worth are kept.
#[derive(Drop)]
pub enum Positions<G: Game> {
    Nowhere,
    /// In a table of this search alone.
    Own(PositionTable),
    /// In tables that other searches use at the same time.
    Shared(Arc<SharedTable<G>>),
}

/// What is kept of positions, and room for the key of a state, and for those of a run of states.
#[derive(Drop)]
pub struct Memory<G: Game> {
    pub positions: Positions<G>,
    pub key: Vec<u64>,
    pub keys: Vec<u64>,
}

/// So many words.
fn new_words(alloc: Global, count: usize) -> Result<Vec<u64>, AllocError>
    ensures { IfOk result (λ words. length words.items ≡ count) }
{
    let mut words = Vec::new(alloc);
    for _ in 0..count {
        words.push(0)?;
    }
    Ok(words)
}

/// How many entries a table has that takes at most so many bytes, for keys of so many words. No more than a search of so many turns
/// is likely to fill.
fn entries_within(bytes: usize, words: usize, depth: u32) -> usize {
    let entry = 8 * words.saturating_add(1).min(1 << 32);
    let most = 1usize << (2 * depth.min(24));
    most.min(bytes / entry)
}

/// A table for a question that takes at most so many bytes, if these are enough for one and are not refused.
fn own_positions<G: Game>(alloc: Global, game: &G, asked: Question, bytes: usize) -> Positions<G>
    ensures { ArePositionsOf G.Game game.now result }
{
    let words = game.key_words();
    let entries = entries_within(bytes, words, asked.depth);
    if entries < FEWEST_ENTRIES {
        return Positions::Nowhere;
    }
    match PositionTable::new(alloc, words, asked.role, asked.at, entries) {
        Ok(table) => Positions::Own(table),
        Err(_) => Positions::Nowhere,
    }
}

/// A memory for a question, with a table that takes at most so many bytes, if these are enough for one and are not refused.
pub fn new_memory<G: Game>(
    alloc: Global,
    game: &G,
    asked: Question,
    bytes: usize,
) -> Result<Memory<G>, AllocError>
    ensures { IfOk result (λ memory. IsMemoryOf G.Game game.now memory) }
{
    let words = game.key_words();
    let key = new_words(alloc, words)?;
    let keys = new_words(alloc, LONGEST_RUN * words)?;
    let positions = own_positions(alloc, game, asked, bytes);
    Ok(Memory {
        positions,
        key,
        keys,
    })
}

/// A memory that keeps what it finds in tables that others use too.
pub fn shared_memory<G: Game>(
    alloc: Global,
    game: &G,
    tables: &Arc<SharedTable<G>>,
) -> Result<Memory<G>, AllocError>
    requires { game_of (arc_value tables.now) ≡ game.now }
    ensures { IfOk result (λ memory. IsMemoryOf G.Game game.now memory) }
{
    let words = game.key_words();
    let key = new_words(alloc, words)?;
    let keys = new_words(alloc, LONGEST_RUN * words)?;
    let tables = Arc::try_clone(tables)?;
    Ok(Memory {
        positions: Positions::Shared(tables),
        key,
        keys,
    })
}

/// Nothing is known of what a state is worth.
fn unknown<G: Game>(_game: &G, _asked: Question) -> Bounds
    ensures { (s : List ℕ) → AreBoundsOf (λ d. value (G.rules _game.now) _asked.role d _asked.at s) _asked.depth result }
{
    Bounds {
        lo: 0,
        hi: 100,
        lasts: true,
    }
}

/// Whether two worths of a state at the bound are the same.
fn is_same(a: AtBound, b: AtBound) -> bool
    ensures { result ≡ true → a ≡ b }
{
    match (a, b) {
        (AtBound::Zero, AtBound::Zero) | (AtBound::Goal, AtBound::Goal) => true,
        (AtBound::Unfinished(x), AtBound::Unfinished(y)) => x.value == y.value,
        _ => false,
    }
}

/// A table is of the role and the bound of a question, which looks far enough ahead.
fn is_of(table: &PositionTable, asked: Question) -> bool
    ensures { result ≡ true → (table.now.role ≡ asked.role) × (table.now.at ≡ asked.at) }
{
    if asked.depth < FEWEST_TURNS || table.role != asked.role {
        return false;
    }
    is_same(table.at, asked.at)
}

/// Whether states are looked up for a question.
pub fn may_find<G: Game>(positions: &Positions<G>, asked: Question) -> bool {
    match positions {
        Positions::Nowhere => false,
        Positions::Own(table) => is_of(table, asked),
        Positions::Shared(_) => asked.depth >= FEWEST_TURNS,
    }
}

/// What a table says of the state of a key.
fn find_in_own<G: Game>(game: &G, table: &PositionTable, key: &[u64], asked: Question) -> Bounds
    requires { IsTableOf (G.rules game.now) (G.keyed game.now) table.now.role table.now.at table.now }
    ensures { AreBoundsOf (worth_of (G.rules game.now) (G.keyed game.now) asked.role asked.at key.now) asked.depth result }
{
    if !is_of(table, asked) {
        return unknown(game, asked);
    }
    table.find(key, asked.depth)
}

/// Bounds of what the state of a key is worth, by what is kept of it.
pub fn find_in<G: Game>(game: &G, positions: &Positions<G>, key: &[u64], asked: Question) -> Bounds
    requires { ArePositionsOf G.Game game.now positions.now }
    ensures { AreBoundsOf (worth_of (G.rules game.now) (G.keyed game.now) asked.role asked.at key.now) asked.depth result }
{
    match positions {
        Positions::Nowhere => unknown(game, asked),
        Positions::Own(table) => find_in_own(game, table, key, asked),
        Positions::Shared(tables) => tables.find(key, asked),
    }
}

/// Writes bounds of what the state of a key is worth into a table.
fn keep_in_own<G: Game>(
    _game: &G,
    table: &mut PositionTable,
    key: &[u64],
    asked: Question,
    found: Bounds,
)
    requires table { IsTableOf (G.rules _game.now) (G.keyed _game.now) table.old.role table.old.at table.old }
    requires found { AreBoundsOf (worth_of (G.rules _game.now) (G.keyed _game.now) asked.role asked.at key.now) asked.depth found }
    ensures table { IsTableOf (G.rules _game.now) (G.keyed _game.now) table.new.role table.new.at table.new }
    ensures capacity { table_capacity table.new ≡ table_capacity table.old }
{
    if !is_of(table, asked) {
        return;
    }
    table.store(key, asked.depth, found);
}

/// Keeps bounds of what the state of a key is worth.
fn keep_in<G: Game>(
    game: &G,
    positions: &mut Positions<G>,
    key: &[u64],
    asked: Question,
    found: Bounds,
)
    requires positions { ArePositionsOf G.Game game.now positions.old }
    requires found { AreBoundsOf (worth_of (G.rules game.now) (G.keyed game.now) asked.role asked.at key.now) asked.depth found }
    ensures positions { ArePositionsOf G.Game game.now positions.new }
    ensures capacities { position_capacities positions.new ≡ position_capacities positions.old }
{
    if let Positions::Shared(tables) = &*positions {
        return tables.store(key, asked, found);
    }
    if let Positions::Own(table) = positions {
        keep_in_own(game, table, key, asked, found);
    }
}

/// The key at a place of a row of keys of so many words.
pub fn key_in(keys: &[u64], words: usize, place: usize) -> &[u64]
    requires { place * words + words ≤ length keys.now }
    ensures { result.now ≡ key_at keys.now words place }
{
    let from = place * words;
    &keys[from..from + words]
}

/// Bounds of what a state is worth, by what is kept of it.
pub fn recall<G: Game>(game: &G, from: &G::Pos, asked: Question, memory: &mut Memory<G>) -> Bounds
    requires fits { G.fits game.now from.now }
    requires memory { IsMemoryOf G.Game game.now memory.old }
    ensures within { AreBoundsOf (λ d. value (G.rules game.now) asked.role d asked.at (G.state game.now from.now)) asked.depth result }
    ensures memory { IsMemoryOf G.Game game.now memory.new }
    ensures capacities { memory_capacities memory.new ≡ memory_capacities memory.old }
{
    if !may_find(&memory.positions, asked) {
        return unknown(game, asked);
    }
    game.write_key(from, memory.key.as_mut_slice());
    find_in(game, &memory.positions, &memory.key, asked)
}

/// Keeps bounds of what a state is worth.
pub fn keep<G: Game>(
    game: &G,
    from: &G::Pos,
    asked: Question,
    found: Bounds,
    memory: &mut Memory<G>,
)
    requires fits { G.fits game.now from.now }
    requires memory { IsMemoryOf G.Game game.now memory.old }
    requires found { AreBoundsOf (λ d. value (G.rules game.now) asked.role d asked.at (G.state game.now from.now)) asked.depth found }
    ensures memory { IsMemoryOf G.Game game.now memory.new }
    ensures capacities { memory_capacities memory.new ≡ memory_capacities memory.old }
{
    if !may_find(&memory.positions, asked) {
        return;
    }
    game.write_key(from, memory.key.as_mut_slice());
    keep_in(game, &mut memory.positions, &memory.key, asked, found);
}

//! Rows of words in memory, each with a word that keeps an entry and the words of a key.
ghost use Rattle.std.specs.Prelude.{◌≡◌, ◌≢◌, ◌<◌, ◌≤◌, ◌+◌, ◌*◌, ◌^◌, ℕ, true, List, ◌∷◌, ◌++◌, length, replicate, slice_index, vec_capacity};
ghost use Rattle.game.specs.Keys.{key_at};
ghost use Rattle.search_table.specs.Says.{Says, IsSmall};
ghost use Rattle.search_table.specs.Rows.{RowHolds, RowsHold};

use crate::entry::{Entry, nothing_known, read_entry};
use crate::hash::hash_of;

/// How many entries a bucket has. A key is looked for in one bucket.
pub(crate) const BUCKET: usize = 4;

/// The row at a place.
pub(crate) fn row_at(words: &[u64], stride: usize, e: usize) -> &[u64]
    requires { e * stride + stride ≤ length words.now }
    ensures { result.now ≡ key_at words.now stride e }
{
    let from = e * stride;
    &words[from..from + stride]
}

/// The row keeps an entry of the key.
fn is_row_of(row: &[u64], key: &[u64]) -> bool
    ensures { result ≡ true → (row.now ≡ slice_index row.now 0 ∷ key.now) × (slice_index row.now 0 ≢ 0) }
{
    if row.is_empty() || row[0] == 0 {
        return false;
    }
    &row[1..] == key
}

/// What a row says of a key. It says nothing of another than its own.
pub(crate) fn known_of(row: &[u64], key: &[u64]) -> Entry
    ensures says { (worth : List ℕ → ℕ → ℕ) → ((d : ℕ) → worth key.now d ≤ 100) → RowHolds worth row.now → Says result (worth key.now) }
    ensures small { IsSmall result }
{
    if !is_row_of(row, key) {
        return nothing_known();
    }
    read_entry(row[0])
}

/// What the rows of a bucket say of a key.
pub(crate) fn known_in(words: &[u64], stride: usize, first: usize, key: &[u64]) -> Entry
    requires some_words { 0 < stride }
    requires bucket { (first + 4) * stride ≤ length words.now }
    ensures { (worth : List ℕ → ℕ → ℕ) → ((d : ℕ) → worth key.now d ≤ 100) → RowsHold worth words.now stride (first + 4)
        → Says result (worth key.now) }
{
    for e in first..first + BUCKET {
        let row = row_at(words, stride, e);
        if is_row_of(row, key) {
            return read_entry(row[0]);
        }
    }
    nothing_known()
}

/// The first place of the bucket of a key, among so many entries.
pub(crate) fn bucket_of(key: &[u64], entries: usize) -> usize
    requires { 4 ≤ entries }
    ensures { result + 4 ≤ entries }
{
    let last = entries / BUCKET - 1;
    (hash_of(key) as usize & last) * BUCKET
}

/// The row keeps no entry.
pub(crate) fn is_empty_row(row: &[u64]) -> bool {
    row.is_empty() || row[0] == 0
}

/// How much a row is worth keeping: nothing is least, and then what was searched to least depth.
fn weight_of(row: &[u64]) -> u8 {
    if row.is_empty() || row[0] == 0 {
        return 0;
    }
    read_entry(row[0]).depth + 1
}

/// The place in a bucket for what was found of a key: that of the key, or of an empty row, or of the row that is least worth keeping.
pub(crate) fn place_for(words: &[u64], stride: usize, first: usize, key: &[u64]) -> usize
    requires some_words { 0 < stride }
    requires bucket { (first + 4) * stride ≤ length words.now }
    ensures { result < first + 4 }
{
    let mut place = first;
    let mut least = u8::MAX;
    for e in first..first + BUCKET {
        let row = row_at(words, stride, e);
        if is_row_of(row, key) {
            return e;
        }
        let weight = weight_of(row);
        if weight < least {
            least = weight;
            place = e;
        }
    }
    place
}

/// Writes a row: the word of an entry, and a key.
fn fill_row(row: &mut [u64], word: u64, key: &[u64])
    requires { length key.now + 1 ≡ length row.old }
    ensures { row.new ≡ word ∷ key.now }
{
    row[0] = word;
    row[1..].copy_from_slice(key);
}

/// Writes the row at a place.
pub(crate) fn write_row(words: &mut [u64], stride: usize, e: usize, word: u64, key: &[u64])
    requires key { length key.now + 1 ≡ stride }
    requires place { e * stride + stride ≤ length words.old }
    ensures here { key_at words.new stride e ≡ word ∷ key.now }
    ensures others { (f : ℕ) → f ≢ e → key_at words.new stride f ≡ key_at words.old stride f }
{
    let from = e * stride;
    fill_row(&mut words[from..from + stride], word, key);
}

/// Empties a row.
fn clear_row(row: &mut [u64])
    requires { 0 < length row.old }
    ensures { slice_index row.new 0 ≡ 0 }
{
    row[0] = 0;
}

/// Empties the row at a place.
fn empty_row(words: &mut [u64], stride: usize, e: usize)
    requires some_words { 0 < stride }
    requires place { e * stride + stride ≤ length words.old }
    ensures here { slice_index (key_at words.new stride e) 0 ≡ 0 }
    ensures others { (f : ℕ) → f ≢ e → key_at words.new stride f ≡ key_at words.old stride f }
{
    let from = e * stride;
    clear_row(&mut words[from..from + stride]);
}

/// Copies a row to another place.
fn copy_row(words: &mut [u64], stride: usize, e: usize, to: usize)
    requires from { e * stride + stride ≤ length words.old }
    requires to { to * stride + stride ≤ length words.old }
    ensures here { key_at words.new stride to ≡ key_at words.old stride e }
    ensures others { (f : ℕ) → f ≢ to → key_at words.new stride f ≡ key_at words.old stride f }
{
    let from = e * stride;
    words.copy_within(from..from + stride, to * stride);
}

/// Moves a row behind the first `entries` if it is looked for there once there are twice as many.
fn move_row(words: &mut [u64], stride: usize, entries: usize, e: usize)
    requires some { 4 ≤ entries }
    requires some_words { 0 < stride }
    requires place { e < entries }
    requires size { 2 * entries * stride ≡ length words.old }
    ensures { (worth : List ℕ → ℕ → ℕ) → RowsHold worth words.old stride (2 * entries) → RowsHold worth words.new stride (2 * entries) }
{
    let row = row_at(words, stride, e);
    if is_in_place(row, entries) {
        return;
    }
    let to = e + entries;
    copy_row(words, stride, e, to);
    empty_row(words, stride, e);
}

/// The row is empty, or is looked for among the first `entries` also if there are twice as many.
fn is_in_place(row: &[u64], entries: usize) -> bool
    requires some { 4 ≤ entries }
    requires few { 2 * entries < 2 ^ 64 }
{
    if row.is_empty() || row[0] == 0 {
        return true;
    }
    bucket_of(&row[1..], 2 * entries) < entries
}

/// Moves each row that is looked for elsewhere once there are twice as many.
pub(crate) fn spread_rows(words: &mut [u64], stride: usize, entries: usize)
    requires some { 4 ≤ entries }
    requires some_words { 0 < stride }
    requires size { 2 * entries * stride ≡ length words.old }
    ensures { (worth : List ℕ → ℕ → ℕ) → RowsHold worth words.old stride (2 * entries) → RowsHold worth words.new stride (2 * entries) }
{
    for e in 0..entries {
        move_row(words, stride, entries, e);
    }
}

/// Adds so many words to those that have room for them. Memory that was not used before is not touched sooner.
pub(crate) fn add_zeros(words: &mut Vec<u64>, count: usize)
    requires { length words.old.items + count ≤ vec_capacity words.old }
    ensures words { words.new.items ≡ words.old.items ++ replicate count 0 }
    ensures capacity { vec_capacity words.new ≡ vec_capacity words.old }
{
    for _i in 0..count {
        words.push_reserved(0);
    }
}

/// Makes twice as many rows of words that have room for them, and spreads the entries.
pub(crate) fn double_rows(words: &mut Vec<u64>, stride: usize, entries: usize)
    requires some { 4 ≤ entries }
    requires some_words { 0 < stride }
    requires size { entries * stride ≡ length words.old.items }
    requires room { 2 * length words.old.items ≤ vec_capacity words.old }
    ensures rows { (worth : List ℕ → ℕ → ℕ) → RowsHold worth words.old.items stride entries
        → RowsHold worth words.new.items stride (2 * entries) }
    ensures size { 2 * entries * stride ≡ length words.new.items }
    ensures capacity { vec_capacity words.new ≡ vec_capacity words.old }
{
    let size = words.len();
    add_zeros(words, size);
    spread_rows(words, stride, entries);
}

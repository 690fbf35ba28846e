//! Keys found again by their hashes, and by their own numbers where hashes are the same.
//!
//! For each bucket of hashes there is a slot, and for each key there are two more. A key stands in the first slot of its walk
//! that was free: the walk begins at the slot of its bucket, and goes on at one of the two of the key that stands there,
//! as the next bit of the hash says, and behind the hash the next bit of the key. So keys of one bucket part where
//! their bits differ: a walk passes at most as many others as the hash and the key have bits, whoever picks the keys.
ghost use Rattle.std.specs.Prelude.{
  ℕ,
  ◌≡◌,
  ◌<◌,
  ◌≤◌,
  ◌+◌,
  ◌-◌,
  ◌*◌,
  ◌++◌,
  ◌∷◌,
  [],
  length,
  map,
  replicate,
  take,
  slice_set,
  IfOk,
  OnOk,
  OnErr,
  MatchOption,
  ◌≢◌,
  slice_index,
  true,
  false,
};
ghost use Rattle.util_interner.specs.KeyLists.{key_at};
ghost use Rattle.util_interner.specs.KeyTables.{key_hash, bucket_of, number_bits, step_words, turn_of, slot_behind, AreSlots, EndsAt, KeysKept, NamesKept};

use crate::hashes::{bucket_in, mix, upper};
use crate::key_list::KeyList;
use std::alloc::{AllocError, Global};

/// The least number of buckets, if there are any.
const LEAST: usize = 1 << 12;

/// How many times as many buckets there are as keys, once there are more of them.
const GROWTH: usize = 8;

/// How many bits of a walk a number of a key has: those of a `u32`, and one more, as 0 stands behind the end of a key.
const NUMBER_BITS: usize = 33;

/// The slots of keys, those of buckets first, and then two for each key. A slot has one more than the number of a key, or 0
/// where none stands.
#[derive(Drop)]
pub struct KeyTable {
    pub buckets: usize,
    pub slots: Vec<u32>,
}

impl KeyTable {
    /// No buckets, and no keys.
    pub fn new(alloc: Global) -> Self
        ensures keys { KeysKept [] result }
        ensures names { NamesKept [] result }
    {
        KeyTable {
            buckets: 0,
            slots: Vec::new(alloc),
        }
    }
}

/// The hash of a key.
pub fn hash_of(key: &[u32]) -> usize
    ensures { result ≡ key_hash 0 key.now }
{
    let mut hash = 0;
    for number in key {
        hash = mix(hash, *number as usize);
    }
    hash
}

/// One more than a number of a key, and 0 behind its end.
fn number_word(key: &[u32], place: usize) -> usize
    ensures { result ≡ slice_index (map (λ x. x + 1) key.now) place }
{
    match key.get(place) {
        Some(number) => *number as usize + 1,
        None => 0,
    }
}

/// The hash of a key, and then one more than each of its numbers.
fn step_word(key: &[u32], hash: usize, place: usize) -> usize
    requires { hash ≡ key_hash 0 key.now }
    ensures { result ≡ slice_index (step_words key.now) place }
{
    if place == 0 {
        return hash;
    }
    number_word(key, place - 1)
}

/// Which of two ways the walk of a key goes on behind so many steps.
fn turn(key: &[u32], hash: usize, step: usize) -> usize
    requires { hash ≡ key_hash 0 key.now }
    ensures is { result ≡ turn_of number_bits key.now step }
    ensures two { result < 2 }
{
    if step < NUMBER_BITS {
        return (hash >> step) % 2;
    }
    let word = step_word(key, hash, step / NUMBER_BITS);
    (word >> (step % NUMBER_BITS)) % 2
}

/// The slot at which walks go on behind a key, by their turn.
pub(crate) fn slot_behind(table: &KeyTable, number: usize, turn: usize) -> usize
    requires { slot_behind table.now.buckets number turn < length table.now.slots.items }
    ensures { result ≡ slot_behind table.now.buckets number turn }
{
    table.buckets + 2 * number + turn
}

/// Puts the next number into a slot. Numbers that 32 bits do not hold are refused as want of memory is.
#[inline(always)]
pub(crate) fn stand_in(table: &mut KeyTable, slot: usize, number: usize) -> Result<(), AllocError>
    requires slot { slot < length table.old.slots.items }
    requires few { number ≤ length table.old.slots.items }
    ensures buckets { table.new.buckets ≡ table.old.buckets }
    ensures slots { OnOk result (table.new.slots.items ≡ slice_set (table.old.slots.items ++ 0 ∷ [] ++ 0 ∷ []) slot (number + 1)) }
    ensures failed { OnErr result (table.new.slots.items ≡ table.old.slots.items) }
{
    let Ok(next) = u32::try_from(number + 1) else {
        return Err(AllocError);
    };
    table.slots.reserve(2)?;
    table.slots.push_reserved(0);
    table.slots.push_reserved(0);
    table.slots[slot] = next;
    Ok(())
}

/// So many empty slots, with room for two more for each.
pub(crate) fn no_slots(alloc: Global, many: usize) -> Result<Vec<u32>, AllocError>
    ensures { IfOk result (λ slots. slots.items ≡ replicate many 0) }
{
    let mut slots = Vec::with_capacity(alloc, many.saturating_mul(3))?;
    slots.resize(many, 0)?;
    Ok(slots)
}

/// The keys in so many buckets.
fn table_over(alloc: Global, keys: &KeyList, many: usize) -> Result<KeyTable, AllocError>
    requires { 0 < many }
    ensures kept { IfOk result (λ table. KeysKept keys.now table) }
    ensures many { IfOk result (λ table. table.buckets ≡ many) }
{
    let slots = no_slots(alloc, many)?;
    let mut table = KeyTable {
        buckets: many,
        slots,
    };
    for number in 0..keys.len() {
        let key = keys.get(number);
        let slot = end_of_walk(&table, number, key, hash_of(key), 0);
        stand_in(&mut table, slot, number)?;
    }
    Ok(table)
}

/// How many buckets there are for so many keys.
pub(crate) fn buckets_for(many: usize) -> usize
    ensures { 0 < result }
{
    many.saturating_mul(GROWTH).max(LEAST)
}

/// Makes more buckets where there are as many keys.
pub fn make_buckets(alloc: Global, keys: &KeyList, table: &mut KeyTable) -> Result<(), AllocError>
    requires { KeysKept keys.now table.old }
    ensures kept { KeysKept keys.now table.new }
    ensures some { OnOk result (0 < table.new.buckets) }
{
    if keys.len() < table.buckets {
        return Ok(());
    }
    *table = table_over(alloc, keys, buckets_for(keys.len()))?;
    Ok(())
}

/// The slot in which the walk of a key ends, which is free, or in which a key stands with this number less one. No walk is
/// longer than there are keys.
#[inline(always)]
fn end_of_walk(table: &KeyTable, many: usize, key: &[u32], hash: usize, wanted: usize) -> usize
    requires slots { AreSlots table.now.slots.items table.now.buckets many }
    requires some { 0 < table.now.buckets }
    requires hash { hash ≡ key_hash 0 key.now }
    ensures { EndsAt table.now.slots.items table.now.buckets (turn_of number_bits key.now) (bucket_of key.now table.now.buckets) wanted result }
{
    let mut slot = bucket_in(upper(hash), table.buckets);
    for step in 0..many {
        let left = table.slots[slot] as usize;
        if left == 0 {
            return slot;
        }
        if left == wanted {
            return slot;
        }
        slot = slot_behind(table, left - 1, turn(key, hash, step));
    }
    slot
}

/// Whether two keys are the same. They are compared from the end, where keys of the same word differ first.
fn are_same(key: &[u32], other: &[u32]) -> bool
    ensures same { result ≡ true → key.now ≡ other.now }
    ensures others { result ≡ false → key.now ≢ other.now }
{
    if key.len() != other.len() {
        return false;
    }
    let mut left = key.len();
    while left > 0 {
        left -= 1;
        if key[left] != other[left] {
            return false;
        }
    }
    true
}

/// The number of a key with this hash, if it has one.
#[inline(always)]
pub fn find(keys: &KeyList, table: &KeyTable, key: &[u32], hash: usize) -> Option<usize>
    requires kept { KeysKept keys.now table.now }
    requires hash { hash ≡ key_hash 0 key.now }
    ensures { MatchOption result
        ((k : ℕ) → k < length keys.now → key_at keys.now k ≢ key.now)
        (λ k. (k < length keys.now) × (key_at keys.now k ≡ key.now)) }
{
    if table.buckets == 0 {
        return None;
    }
    let mut slot = bucket_in(upper(hash), table.buckets);
    for step in 0..keys.len() {
        let left = table.slots[slot] as usize;
        if left == 0 {
            return None;
        }
        if are_same(keys.get(left - 1), key) {
            return Some(left - 1);
        }
        slot = slot_behind(table, left - 1, turn(key, hash, step));
    }
    None
}

/// Adds a key with this hash, which has no number yet. After an error the keys are those before.
#[inline(always)]
pub fn add(
    keys: &mut KeyList,
    table: &mut KeyTable,
    key: &[u32],
    hash: usize,
) -> Result<(), AllocError>
    requires kept { KeysKept keys.old table.old }
    requires some { 0 < table.old.buckets }
    requires hash { hash ≡ key_hash 0 key.now }
    ensures kept { KeysKept keys.new table.new }
    ensures added { OnOk result (keys.new ≡ keys.old ++ key.now ∷ []) }
    ensures failed { OnErr result (keys.new ≡ keys.old) }
{
    let number = keys.len();
    let slot = end_of_walk(table, number, key, hash, 0);
    keys.push(key)?;
    let Ok(()) = stand_in(table, slot, number) else {
        keys.truncate(number);
        return Err(AllocError);
    };
    Ok(())
}

/// Frees a slot, and takes away those of the last key, where there are so many others.
fn free(table: &mut KeyTable, slot: usize, many: usize)
    requires slot { slot < length table.old.slots.items }
    requires many { length table.old.slots.items ≡ table.old.buckets + 2 * (many + 1) }
    ensures buckets { table.new.buckets ≡ table.old.buckets }
    ensures slots { table.new.slots.items ≡ take (table.old.buckets + 2 * many) (slice_set table.old.slots.items slot 0) }
{
    table.slots[slot] = 0;
    table.slots.truncate(table.buckets + 2 * many);
}

/// Takes the last key away.
fn drop_last(keys: &mut KeyList, table: &mut KeyTable)
    requires kept { KeysKept keys.old table.old }
    requires some { 0 < length keys.old }
    ensures kept { KeysKept keys.new table.new }
    ensures keys { keys.new ≡ take (length keys.old - 1) keys.old }
{
    let number = keys.len() - 1;
    let key = keys.get(number);
    let slot = end_of_walk(table, number + 1, key, hash_of(key), number + 1);
    free(table, slot, number);
    keys.truncate(number);
}

/// Keeps the first keys, so many.
#[inline(always)]
pub fn drop_behind(keys: &mut KeyList, table: &mut KeyTable, many: usize)
    requires kept { KeysKept keys.old table.old }
    ensures kept { KeysKept keys.new table.new }
    ensures keys { keys.new ≡ take many keys.old }
{
    while keys.len() > many {
        drop_last(keys, table);
    }
}

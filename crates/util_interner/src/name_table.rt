//! Names found again as keys are, by their hashes and then by their own bytes.
ghost use Rattle.std.specs.Prelude.{
  ℕ,
  ◌≡◌,
  ◌<◌,
  ◌+◌,
  ◌++◌,
  ◌∷◌,
  [],
  length,
  map,
  IfOk,
  OnOk,
  OnErr,
  MatchOption,
  ◌≢◌,
  slice_index,
};
ghost use Rattle.util_interner.specs.KeyLists.{key_at};
ghost use Rattle.util_interner.specs.KeyTables.{key_hash, bucket_of, byte_bits, step_words, turn_of, AreSlots, EndsAt, NamesKept};

use crate::hashes::{bucket_in, mix, upper};
use crate::key_table::{KeyTable, buckets_for, no_slots, slot_behind, stand_in};
use crate::name_list::NameList;
use std::alloc::{AllocError, Global};

/// How many bits of a walk a byte of a name has: those of a `u8`, and one more, as 0 stands behind the end of a name.
const BYTE_BITS: usize = 9;

/// The hash of a name.
pub fn hash_of_name(name: &[u8]) -> usize
    ensures { result ≡ key_hash 0 name.now }
{
    let mut hash = 0;
    for byte in name {
        hash = mix(hash, *byte as usize);
    }
    hash
}

/// One more than a byte of a name, and 0 behind its end.
fn byte_word(name: &[u8], place: usize) -> usize
    ensures { result ≡ slice_index (map (λ x. x + 1) name.now) place }
{
    match name.get(place) {
        Some(byte) => *byte as usize + 1,
        None => 0,
    }
}

/// The hash of a name, and then one more than each of its bytes.
fn step_word(name: &[u8], hash: usize, place: usize) -> usize
    requires { hash ≡ key_hash 0 name.now }
    ensures { result ≡ slice_index (step_words name.now) place }
{
    if place == 0 {
        return hash;
    }
    byte_word(name, place - 1)
}

/// Which of two ways the walk of a name goes on behind so many steps.
fn turn(name: &[u8], hash: usize, step: usize) -> usize
    requires { hash ≡ key_hash 0 name.now }
    ensures is { result ≡ turn_of byte_bits name.now step }
    ensures two { result < 2 }
{
    let word = step_word(name, hash, step / BYTE_BITS);
    (word >> (step % BYTE_BITS)) % 2
}

/// The slot in which the walk of a name ends, which is free, or in which a name stands with this number less one. No walk is
/// longer than there are names.
fn end_of_walk(table: &KeyTable, many: usize, name: &[u8], hash: usize, wanted: usize) -> usize
    requires slots { AreSlots table.now.slots.items table.now.buckets many }
    requires some { 0 < table.now.buckets }
    requires hash { hash ≡ key_hash 0 name.now }
    ensures { EndsAt table.now.slots.items table.now.buckets (turn_of byte_bits name.now) (bucket_of name.now table.now.buckets) wanted result }
{
    let mut slot = bucket_in(upper(hash), table.buckets);
    for step in 0..many {
        let left = table.slots[slot] as usize;
        if left == 0 {
            return slot;
        }
        if left == wanted {
            return slot;
        }
        slot = slot_behind(table, left - 1, turn(name, hash, step));
    }
    slot
}

/// The names in so many buckets.
fn names_over(alloc: Global, names: &NameList, many: usize) -> Result<KeyTable, AllocError>
    requires { 0 < many }
    ensures kept { IfOk result (λ table. NamesKept names.now table) }
    ensures many { IfOk result (λ table. table.buckets ≡ many) }
{
    let slots = no_slots(alloc, many)?;
    let mut table = KeyTable {
        buckets: many,
        slots,
    };
    for number in 0..names.len() {
        let name = names.get(number);
        let slot = end_of_walk(&table, number, name, hash_of_name(name), 0);
        stand_in(&mut table, slot, number)?;
    }
    Ok(table)
}

/// Makes more buckets where there are as many names.
pub fn make_name_buckets(
    alloc: Global,
    names: &NameList,
    table: &mut KeyTable,
) -> Result<(), AllocError>
    requires { NamesKept names.now table.old }
    ensures kept { NamesKept names.now table.new }
    ensures some { OnOk result (0 < table.new.buckets) }
{
    if names.len() < table.buckets {
        return Ok(());
    }
    *table = names_over(alloc, names, buckets_for(names.len()))?;
    Ok(())
}

/// The number of a name with this hash, if it has one.
pub fn find_name(names: &NameList, table: &KeyTable, name: &[u8], hash: usize) -> Option<usize>
    requires kept { NamesKept names.now table.now }
    requires hash { hash ≡ key_hash 0 name.now }
    ensures { MatchOption result
        ((k : ℕ) → k < length names.now → key_at names.now k ≢ name.now)
        (λ k. (k < length names.now) × (key_at names.now k ≡ name.now)) }
{
    if table.buckets == 0 {
        return None;
    }
    let mut slot = bucket_in(upper(hash), table.buckets);
    for step in 0..names.len() {
        let left = table.slots[slot] as usize;
        if left == 0 {
            return None;
        }
        if names.get(left - 1) == name {
            return Some(left - 1);
        }
        slot = slot_behind(table, left - 1, turn(name, hash, step));
    }
    None
}

/// Adds a name with this hash, which has no number yet. After an error the names are those before.
pub fn add_name(
    names: &mut NameList,
    table: &mut KeyTable,
    name: &[u8],
    hash: usize,
) -> Result<(), AllocError>
    requires kept { NamesKept names.old table.old }
    requires some { 0 < table.old.buckets }
    requires hash { hash ≡ key_hash 0 name.now }
    ensures kept { NamesKept names.new table.new }
    ensures added { OnOk result (names.new ≡ names.old ++ name.now ∷ []) }
    ensures failed { OnErr result (names.new ≡ names.old) }
{
    let number = names.len();
    let slot = end_of_walk(table, number, name, hash, 0);
    names.push(name)?;
    let Ok(()) = stand_in(table, slot, number) else {
        names.truncate(number);
        return Err(AllocError);
    };
    Ok(())
}

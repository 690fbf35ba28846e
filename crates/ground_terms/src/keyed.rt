//! Ground terms by number: each different one has one.
ghost use Rattle.std.specs.Prelude.{ℕ, ◌≡◌, ◌<◌, ◌≢◌, List, length, take, IfOk, OnOk, OnErr, MatchOption};
ghost use Rattle.util_interner.specs.KeyTables.{key_hash};
ghost use Rattle.rules_clauses.specs.Numbers.{NamesDiffer};
ghost use Rattle.ground_terms.specs.Keys.{with_key, IsKey, AreKeys, AreDifferentTerms, trees};
ghost use Rattle.util_interner.specs.KeyLists.{key_at};

use std::alloc::{AllocError, Global};
use std::marker::Model;
use util_interner::{KeyList, KeyTable, add, drop_behind, find, hash_of, make_buckets};

/// Ground terms and atoms, numbered from 0 in the order of their first appearance. Each is known by its
/// key: the number of its word, and then the numbers of its parts.
#[derive(Drop)]
pub struct Terms {
    alloc: Global,
    keys: KeyList,
    table: KeyTable,
}

impl Model for Terms {
    ghost use Rattle.std.specs.Prelude.{ℕ, List};
    ghost use Rattle.util_interner.specs.KeyTables.{KeysKept};

    ghost Value = { List (List ℕ) };

    ghost view = { λ s. s.keys };

    ghost invariant = { λ s. KeysKept s.keys s.table };
}

impl Terms {
    /// No terms yet, with room for so many, and for so many numbers in their keys, where it can be had.
    pub fn with_room(alloc: Global, terms: usize, numbers: usize) -> Self
        ensures { length result ≡ 0 }
    {
        Terms {
            alloc,
            keys: KeyList::with_room(alloc, terms, numbers),
            table: KeyTable::new(alloc),
        }
    }

    /// How many terms there are.
    pub fn len(&self) -> usize
        ensures { result ≡ length self.now }
    {
        self.keys.len()
    }

    /// The key of a term.
    pub fn key(&self, number: usize) -> &[u32]
        requires { number < length self.now }
        ensures { result.now ≡ key_at self.now number }
    {
        self.keys.get(number)
    }

    /// The number of a key, if it has one.
    pub fn number(&self, key: &[u32]) -> Option<usize>
        ensures { MatchOption result
            ((k : ℕ) → k < length self.now → key_at self.now k ≢ key.now)
            (λ k. (k < length self.now) × (key_at self.now k ≡ key.now)) }
    {
        self.number_by(key, hash_of(key))
    }

    /// The number of a key with this hash, if it has one.
    #[inline(always)]
    pub fn number_by(&self, key: &[u32], hash: usize) -> Option<usize>
        requires { hash ≡ key_hash 0 key.now }
        ensures { MatchOption result
            ((k : ℕ) → k < length self.now → key_at self.now k ≢ key.now)
            (λ k. (k < length self.now) × (key_at self.now k ≡ key.now)) }
    {
        find(&self.keys, &self.table, key, hash)
    }

    /// The number of a key, which is the next one if it has none yet. After an error the terms are those
    /// before.
    pub fn intern(&mut self, key: &[u32]) -> Result<usize, AllocError>
        ensures found { IfOk result (λ k. (k < length self.new) × (key_at self.new k ≡ key.now)) }
        ensures kept { OnOk result (self.new ≡ with_key self.old key.now) }
        ensures failed { OnErr result (self.new ≡ self.old) }
    {
        let hash = hash_of(key);
        if let Some(number) = self.number_by(key, hash) {
            return Ok(number);
        }
        self.add_by(key, hash)
    }

    /// The number of a key with this hash that has none yet, which is the next one. After an error the
    /// terms are those before.
    #[inline(always)]
    pub fn add_by(&mut self, key: &[u32], hash: usize) -> Result<usize, AllocError>
        requires next { (k : ℕ) → k < length self.old → key_at self.old k ≢ key.now }
        requires hash { hash ≡ key_hash 0 key.now }
        ensures found { IfOk result (λ k. (k < length self.new) × (key_at self.new k ≡ key.now)) }
        ensures kept { OnOk result (self.new ≡ with_key self.old key.now) }
        ensures failed { OnErr result (self.new ≡ self.old) }
    {
        let number = self.keys.len();
        make_buckets(self.alloc, &self.keys, &mut self.table)?;
        add(&mut self.keys, &mut self.table, key, hash)?;
        Ok(number)
    }

    /// Keeps the first terms, so many, and forgets the others.
    #[inline(always)]
    pub fn truncate(&mut self, many: usize)
        ensures { self.new ≡ take many self.old }
    {
        drop_behind(&mut self.keys, &mut self.table, many);
    }
}

/// Different numbers are different trees, and keys stay so when one more is numbered whose parts are
/// numbered already.
pub fn numbers_are_trees()
    ensures different { (words : List (List ℕ)) → NamesDiffer words
        → (keys : List (List ℕ)) → AreKeys (length words) keys → AreDifferentTerms (trees words keys) }
    ensures kept { (many : ℕ) (keys : List (List ℕ)) (key : List ℕ) → AreKeys many keys → IsKey many (length keys) key
        → AreKeys many (with_key keys key) }
{}

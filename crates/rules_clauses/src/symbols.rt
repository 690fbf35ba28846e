//! Names by number: each different name has one.
ghost use Rattle.std.specs.Prelude.{ℕ, ◌≡◌, ◌<◌, ◌≢◌, List, length, IfOk, OnOk, OnErr, MatchOption};
ghost use Rattle.rules_clauses.specs.Numbers.{word_at, with_word};
ghost use Rattle.util_interner.specs.KeyTables.{key_hash};

use std::alloc::{AllocError, Global};
use std::marker::Model;
use util_interner::{KeyTable, NameList, add_name, find_name, hash_of_name, make_name_buckets};

/// The different names of a description, numbered from 0 in the order of their first appearance.
#[derive(Drop)]
pub struct Symbols {
    alloc: Global,
    names: NameList,
    table: KeyTable,
}

impl Model for Symbols {
    ghost use Rattle.std.specs.Prelude.{ℕ, List};
    ghost use Rattle.util_interner.specs.KeyTables.{NamesKept};

    ghost Value = { List (List ℕ) };

    ghost view = { λ s. s.names };

    ghost invariant = { λ s. NamesKept s.names s.table };
}

impl Symbols {
    /// No names yet.
    pub fn new(alloc: Global) -> Self
        ensures { length result ≡ 0 }
    {
        Symbols {
            alloc,
            names: NameList::new(alloc),
            table: KeyTable::new(alloc),
        }
    }

    /// How many names there are.
    pub fn len(&self) -> usize
        ensures { result ≡ length self.now }
    {
        self.names.len()
    }

    /// The bytes of a name.
    pub fn name(&self, number: usize) -> &[u8]
        requires { number < length self.now }
        ensures { result.now ≡ word_at self.now number }
    {
        self.names.get(number)
    }

    /// The number of a name with this hash, if it has one.
    fn number_by(&self, name: &[u8], hash: usize) -> Option<usize>
        requires { hash ≡ key_hash 0 name.now }
        ensures { MatchOption result
            ((k : ℕ) → k < length self.now → word_at self.now k ≢ name.now)
            (λ k. (k < length self.now) × (word_at self.now k ≡ name.now)) }
    {
        find_name(&self.names, &self.table, name, hash)
    }

    /// The number of a name, which is the next one if it has none yet. After an error the names are
    /// those before.
    pub fn intern(&mut self, name: &[u8]) -> Result<usize, AllocError>
        ensures found { IfOk result (λ k. (k < length self.new) × (word_at self.new k ≡ name.now)) }
        ensures kept { OnOk result (self.new ≡ with_word self.old name.now) }
        ensures failed { OnErr result (self.new ≡ self.old) }
    {
        let hash = hash_of_name(name);
        if let Some(number) = self.number_by(name, hash) {
            return Ok(number);
        }
        self.add_by(name, hash)
    }

    /// The number of a name with this hash that has none yet, which is the next one. After an error the
    /// names are those before.
    fn add_by(&mut self, name: &[u8], hash: usize) -> Result<usize, AllocError>
        requires next { (k : ℕ) → k < length self.old → word_at self.old k ≢ name.now }
        requires hash { hash ≡ key_hash 0 name.now }
        ensures found { IfOk result (λ k. (k < length self.new) × (word_at self.new k ≡ name.now)) }
        ensures kept { OnOk result (self.new ≡ with_word self.old name.now) }
        ensures failed { OnErr result (self.new ≡ self.old) }
    {
        let number = self.names.len();
        make_name_buckets(self.alloc, &self.names, &mut self.table)?;
        add_name(&mut self.names, &mut self.table, name, hash)?;
        Ok(number)
    }
}

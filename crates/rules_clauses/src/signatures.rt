//! Relations by number: each different pair of a name and a number of arguments has one.
ghost use Rattle.std.specs.Prelude.{ℕ, ◌≡◌, ◌<◌, ◌≢◌, List, [], ◌∷◌, length, IfOk, OnOk, OnErr, MatchOption};
ghost use Rattle.util_interner.specs.KeyTables.{key_hash};
ghost use Rattle.rules_clauses.specs.declared.signatures.Signature.{Signature};
ghost use Rattle.rules_clauses.specs.Signatures.{signature_key, signature_at, with_signature};

use std::alloc::{AllocError, Global};
use std::marker::Model;
use util_interner::{KeyList, KeyTable, add, find, hash_of, in_32_bits, make_buckets};

/// A relation: the number of its name among the symbols, and how many arguments it has.
#[derive(Clone, Copy, PartialEq, Eq, Hash)]
pub struct Signature {
    pub word: usize,
    pub arity: usize,
}

/// The different relations of a description, numbered from 0 in the order of their first appearance.
#[derive(Drop)]
pub struct Signatures {
    alloc: Global,
    known: Vec<Signature>,
    /// The same as pairs of numbers, by which they are found.
    keys: KeyList,
    table: KeyTable,
}

impl Model for Signatures {
    ghost use Rattle.std.specs.Prelude.{List, ◌≡◌, map};
    ghost use Rattle.util_interner.specs.KeyTables.{KeysKept};
    ghost use Rattle.rules_clauses.specs.declared.signatures.Signature.{Signature};
    ghost use Rattle.rules_clauses.specs.Signatures.{signature_key};

    ghost Value = { List Signature };

    ghost view = { λ s. s.known.items };

    ghost invariant = { λ s. KeysKept s.keys s.table × (s.keys ≡ map signature_key s.known.items) };
}

/// The two numbers of a relation. Those that 32 bits do not hold are refused as want of memory is.
fn key_of(signature: Signature) -> Result<[u32; 2], AllocError>
    ensures { IfOk result (λ key. key ≡ signature_key signature) }
{
    Ok([in_32_bits(signature.word)?, in_32_bits(signature.arity)?])
}

impl Signatures {
    /// No relations yet.
    pub fn new(alloc: Global) -> Self
        ensures { length result ≡ 0 }
    {
        Signatures {
            alloc,
            known: Vec::new(alloc),
            keys: KeyList::with_room(alloc, 0, 0),
            table: KeyTable::new(alloc),
        }
    }

    /// All relations, by number.
    pub fn as_slice(&self) -> &[Signature]
        ensures { result.now ≡ self.now }
    {
        &self.known
    }

    /// The number of a relation with this key and its hash, if it has one.
    fn number_by(&self, signature: Signature, key: &[u32], hash: usize) -> Option<usize>
        requires key { key.now ≡ signature_key signature }
        requires hash { hash ≡ key_hash 0 key.now }
        ensures { MatchOption result
            ((k : ℕ) → k < length self.now → signature_at self.now k ≢ signature)
            (λ k. (k < length self.now) × (signature_at self.now k ≡ signature)) }
    {
        find(&self.keys, &self.table, key, hash)
    }

    /// The number of a relation, which is the next one if it has none yet. After an error the relations
    /// are those before.
    pub fn intern(&mut self, signature: Signature) -> Result<usize, AllocError>
        ensures found { IfOk result (λ k. (k < length self.new) × (signature_at self.new k ≡ signature)) }
        ensures kept { OnOk result (self.new ≡ with_signature self.old signature) }
        ensures failed { OnErr result (self.new ≡ self.old) }
    {
        let key = key_of(signature)?;
        let hash = hash_of(&key);
        if let Some(number) = self.number_by(signature, &key, hash) {
            return Ok(number);
        }
        self.add_by(signature, &key, hash)
    }

    /// The number of a relation with this key and its hash that has none yet, which is the next one. After an error the
    /// relations are those before.
    fn add_by(
        &mut self,
        signature: Signature,
        key: &[u32],
        hash: usize,
    ) -> Result<usize, AllocError>
        requires next { (k : ℕ) → k < length self.old → signature_at self.old k ≢ signature }
        requires key { key.now ≡ signature_key signature }
        requires hash { hash ≡ key_hash 0 key.now }
        ensures found { IfOk result (λ k. (k < length self.new) × (signature_at self.new k ≡ signature)) }
        ensures kept { OnOk result (self.new ≡ with_signature self.old signature) }
        ensures failed { OnErr result (self.new ≡ self.old) }
    {
        let number = self.known.len();
        make_buckets(self.alloc, &self.keys, &mut self.table)?;
        self.known.reserve(1)?;
        add(&mut self.keys, &mut self.table, key, hash)?;
        self.known.push_reserved(signature);
        Ok(number)
    }
}

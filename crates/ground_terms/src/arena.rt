//! Ground terms by number, with the lengths of their texts.
ghost use Rattle.std.specs.Prelude.{
  ℕ,
  List,
  Some,
  ◌+◌,
  ◌-◌,
  ◌≡◌,
  ◌<◌,
  ◌≤◌,
  [],
  ◌∷◌,
  length,
  take,
  slice_index,
  IfSome,
  IfOk,
  OnOk,
  OnErr,
  MatchOption,
  ◌≢◌,
};
ghost use Rattle.statement.specs.Tree.{text};
ghost use Rattle.rules.specs.RuleSetView.{lists_of_set};
ghost use Rattle.rules_clauses.specs.Marks.{NumbersBelow};
ghost use Rattle.ground_terms.specs.Keys.{term_at, trees, with_key, IsKey, parts_of, word_of};
ghost use Rattle.util_interner.specs.KeyLists.{key_at};
ghost use Rattle.ground_terms.specs.Arena.{cut, sizes_of, with_parts, key_length, AreNumbered};
ghost use Rattle.statement.specs.Most.{limits};

use crate::keyed::Terms;
use rules::RuleSet;
use std::alloc::{AllocError, Global};
use std::marker::Model;
use util_interner::{hash_of, in_32_bits, with_room};

/// The most bytes that the head of a kept instance has as canonical text.
pub const HEAD_LIMIT: usize = 4_096;

/// Lengths are told apart up to this one, which is more than a text may have.
const CUT: usize = HEAD_LIMIT + 1;

/// For how many terms there is room from the beginning, with four numbers in each key, where so much memory can be had at once. The
/// lists grow where there are more.
const ROOM: usize = 1 << 18;

/// Ground terms and atoms, each with a number and the length of its text. The first of them are the
/// names of the symbols, so a constant has the number of its symbol.
#[derive(Drop)]
pub struct Arena {
    terms: Terms,
    lengths: Vec<u16>,
    count_symbols: usize,
}

impl Model for Arena {
    ghost use Rattle.std.specs.Prelude.{take};
    ghost use Rattle.ground_terms.specs.Arena.{Held, IsHeld};

    ghost Value = { Held };

    ghost view = { λ a. record { sizes = take a.count_symbols a.lengths.items; keys = a.terms } };

    ghost invariant = { λ a. IsHeld a.count_symbols a.lengths.items a.terms };
}

impl Arena {
    /// The names of all symbols of the rules.
    pub fn new(alloc: Global, rules: &RuleSet) -> Result<Self, AllocError>
        ensures sizes { IfOk result (λ a. a.sizes ≡ sizes_of (lists_of_set rules.now).words) }
        ensures many { IfOk result (λ a. length a.keys ≡ length (lists_of_set rules.now).words) }
        ensures numbered { IfOk result (λ a. AreNumbered (length (lists_of_set rules.now).words) a.keys) }
    {
        let mut terms = Terms::with_room(alloc, ROOM, 4 * ROOM);
        let mut lengths = with_room(alloc, ROOM);
        for symbol in 0..rules.count_symbols() {
            lengths.push(cut(rules.symbol(symbol).len()))?;
            let number = in_32_bits(symbol)?;
            terms.intern(&[number])?;
        }
        Ok(Arena {
            terms,
            lengths,
            count_symbols: rules.count_symbols(),
        })
    }

    /// How many terms there are.
    pub fn len(&self) -> usize
        ensures many { result ≡ length self.now.keys }
        ensures numbered { AreNumbered (length self.now.sizes) self.now.keys }
    {
        self.terms.len()
    }

    /// All terms, by number.
    pub fn terms(&self) -> &Terms
        ensures { result.now ≡ self.now.keys }
    {
        &self.terms
    }

    /// The term that is the name of a symbol: it has the number of the symbol.
    pub fn constant(&self, symbol: usize) -> usize
        requires { symbol < length self.now.sizes }
        ensures same { result ≡ symbol }
        ensures numbered { AreNumbered (length self.now.sizes) self.now.keys }
    {
        let _ = &self.terms;
        symbol
    }

    /// The key of a term.
    pub fn key(&self, number: usize) -> &[u32]
        requires { number < length self.now.keys }
        ensures is { result.now ≡ key_at self.now.keys number }
        ensures numbered { AreNumbered (length self.now.sizes) self.now.keys }
    {
        self.terms.key(number)
    }

    /// The number of a key, if it has one.
    pub fn number(&self, key: &[u32]) -> Option<usize>
        ensures { MatchOption result
            ((k : ℕ) → k < length self.now.keys → key_at self.now.keys k ≢ key.now)
            (λ k. (k < length self.now.keys) × (key_at self.now.keys k ≡ key.now)) }
    {
        self.terms.number(key)
    }

    /// The length of the text of a term, where names are those of the symbols; one more than the limit if it is longer.
    pub fn length_of(&self, number: usize) -> usize
        requires { number < length self.now.keys }
        ensures { (words : List (List ℕ)) → sizes_of words ≡ self.now.sizes
            → result ≡ cut (length (text (term_at (trees words self.now.keys) number))) }
    {
        usize::from(self.lengths[number])
    }

    /// A number near a key, if it has the key.
    fn found_near(&self, near: Option<usize>, key: &[u32]) -> Option<usize>
        ensures found { IfSome result (λ k. (k < length self.now.keys) × (key_at self.now.keys k ≡ key.now)) }
        ensures numbered { AreNumbered (length self.now.sizes) self.now.keys }
    {
        let many = self.len();
        let number = near?;
        if number >= many {
            return None;
        }
        if self.key(number) != key {
            return None;
        }
        Some(number)
    }

    /// The number of a key as by `intern`; a number that may have it is tried first.
    pub fn intern_near(&mut self, key: &[u32], near: Option<usize>) -> Result<usize, AllocError>
        requires { IsKey (length self.old.sizes) (length self.old.keys) key.now }
        ensures found { IfOk result (λ k. (k < length self.new.keys) × (key_at self.new.keys k ≡ key.now)) }
        ensures kept { OnOk result (self.new.keys ≡ with_key self.old.keys key.now) }
        ensures sizes { self.new.sizes ≡ self.old.sizes }
        ensures failed { OnErr result (self.new.keys ≡ self.old.keys) }
        ensures numbered { AreNumbered (length self.new.sizes) self.new.keys }
    {
        if let Some(number) = self.found_near(near, key) {
            return Ok(number);
        }
        self.intern(key)
    }

    /// The number in the key of a term that has so many others behind it.
    pub fn part_before(&self, number: Option<usize>, behind: usize) -> Option<usize>
        ensures { (k : ℕ) → number ≡ Some k → k < length self.now.keys → behind < length (key_at self.now.keys k)
            → result ≡ Some (slice_index (key_at self.now.keys k) (length (key_at self.now.keys k) - 1 - behind)) }
    {
        let known = number?;
        if known >= self.len() {
            return None;
        }
        let key = self.key(known);
        if behind >= key.len() {
            return None;
        }
        Some(key[key.len() - 1 - behind] as usize)
    }

    /// The number of a key, which is the next one if it has none yet. After an error the terms are those
    /// before.
    #[inline(always)]
    pub fn intern(&mut self, key: &[u32]) -> Result<usize, AllocError>
        requires { IsKey (length self.old.sizes) (length self.old.keys) key.now }
        ensures found { IfOk result (λ k. (k < length self.new.keys) × (key_at self.new.keys k ≡ key.now)) }
        ensures kept { OnOk result (self.new.keys ≡ with_key self.old.keys key.now) }
        ensures sizes { self.new.sizes ≡ self.old.sizes }
        ensures failed { OnErr result (self.new.keys ≡ self.old.keys) }
        ensures numbered { AreNumbered (length self.new.sizes) self.new.keys }
    {
        let hash = hash_of(key);
        if let Some(number) = self.terms.number_by(key, hash) {
            return Ok(number);
        }
        let length = key_length(&self.lengths, key);
        self.lengths.push(length)?;
        let Ok(number) = self.terms.add_by(key, hash) else {
            self.lengths.pop();
            return Err(AllocError);
        };
        Ok(number)
    }

    /// Keeps the first terms, so many, and forgets the others. The names of the symbols stay.
    #[inline(always)]
    pub fn truncate(&mut self, many: usize)
        requires symbols { length self.old.sizes ≤ many }
        requires within { many ≤ length self.old.keys }
        ensures keys { self.new.keys ≡ take many self.old.keys }
        ensures sizes { self.new.sizes ≡ self.old.sizes }
    {
        self.terms.truncate(many);
        self.lengths.truncate(many);
    }
}

/// A length, cut where lengths are told apart no more.
fn cut(length: usize) -> u16
    ensures { result ≡ cut length }
{
    length.min(CUT) as u16
}

/// The length of the text of a key whose parts have these lengths.
fn key_length(lengths: &[u16], key: &[u32]) -> u16
    requires short { (i : ℕ) → slice_index lengths.now i ≤ limits.text + 1 }
    requires some { 0 < length key.now }
    requires within { NumbersBelow (length lengths.now) key.now }
    ensures exact { result ≡ key_length lengths.now key.now }
    ensures cut { result ≤ limits.text + 1 }
{
    let word = lengths[key[0] as usize];
    if key.len() == 1 {
        return word;
    }
    with_parts(lengths, cut(usize::from(word) + 2), &key[1..])
}

/// The length of a text of so many bytes once parts stand behind it.
fn with_parts(lengths: &[u16], before: u16, parts: &[u32]) -> u16
    requires short { (i : ℕ) → slice_index lengths.now i ≤ limits.text + 1 }
    requires before { before ≤ limits.text + 1 }
    requires within { NumbersBelow (length lengths.now) parts.now }
    ensures exact { result ≡ with_parts lengths.now before parts.now }
    ensures cut { result ≤ limits.text + 1 }
{
    let mut total = before;
    for part in parts {
        total = cut(usize::from(total) + 1 + usize::from(lengths[*part as usize]));
    }
    total
}

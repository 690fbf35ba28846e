//! Further atoms by number.
ghost use Rattle.std.specs.Prelude.{ℕ, List, [], ◌∷◌, ◌≡◌, ◌<◌, length, map, IfOk, OnOk};
ghost use Rattle.statement.specs.Clause.{Atom, tree_of};
ghost use Rattle.rules_clauses.specs.Numbers.{BeginsWith, word_at};
ghost use Rattle.ground_terms.specs.Atoms.{WordTerms, AddsAtoms};
ghost use Rattle.rules_clauses.specs.Marks.{NumbersBelow};
ghost use Rattle.ground_terms.specs.Keys.{IsKey, term_at, tree_of_key, trees};
ghost use Rattle.statement.specs.Meaning.{atom1, atom2};

use crate::arena::Arena;
use crate::number_set::NumberSet;
use std::alloc::AllocError;
use util_interner::in_32_bits;

/// The key of a word and one term.
fn key_of_two(word: usize, term: usize) -> Result<[u32; 2], AllocError>
    ensures { IfOk result (λ key. key ≡ word ∷ term ∷ []) }
{
    Ok([in_32_bits(word)?, in_32_bits(term)?])
}

/// The key of a word and two terms.
fn key_of_three(word: usize, first: usize, second: usize) -> Result<[u32; 3], AllocError>
    ensures { IfOk result (λ key. key ≡ word ∷ first ∷ second ∷ []) }
{
    Ok([in_32_bits(word)?, in_32_bits(first)?, in_32_bits(second)?])
}

/// Numbers the atom of a key, if it has no number yet.
fn add_atom(arena: &mut Arena, atoms: &mut NumberSet, key: &[u32]) -> Result<(), AllocError>
    requires { IsKey (length arena.old.sizes) (length arena.old.keys) key.now }
    ensures front { OnOk result (BeginsWith arena.old.keys arena.new.keys) }
    ensures sizes { OnOk result (arena.new.sizes ≡ arena.old.sizes) }
    ensures added { OnOk result ((words : List (List ℕ)) → WordTerms words arena.old → (x : Atom)
        → tree_of x ≡ tree_of_key words (trees words arena.old.keys) key.now
        → AddsAtoms words arena.old arena.new atoms.old.keys atoms.new.keys (x ∷ [])) }
{
    let number = arena.intern(key)?;
    atoms.insert(number)?;
    Ok(())
}

/// Numbers the atoms `(w t)` of a word and terms, in their order.
pub fn add_singles(
    arena: &mut Arena,
    atoms: &mut NumberSet,
    word: usize,
    terms: &[usize],
) -> Result<(), AllocError>
    requires word { word < length arena.old.sizes }
    requires terms { NumbersBelow (length arena.old.keys) terms.now }
    ensures front { OnOk result (BeginsWith arena.old.keys arena.new.keys) }
    ensures sizes { OnOk result (arena.new.sizes ≡ arena.old.sizes) }
    ensures added { OnOk result ((words : List (List ℕ)) → WordTerms words arena.old
        → AddsAtoms words arena.old arena.new atoms.old.keys atoms.new.keys
        (map (λ t. atom1 (word_at words word) t) (map (term_at (trees words arena.old.keys)) terms.now))) }
{
    for term in terms {
        let key = key_of_two(word, *term)?;
        add_atom(arena, atoms, &key)?;
    }
    Ok(())
}

/// Numbers the atoms `(w r t)` of a word, a first term and further terms, in their order.
pub fn add_pairs(
    arena: &mut Arena,
    atoms: &mut NumberSet,
    word: usize,
    first: usize,
    terms: &[usize],
) -> Result<(), AllocError>
    requires word { word < length arena.old.sizes }
    requires first { first < length arena.old.keys }
    requires terms { NumbersBelow (length arena.old.keys) terms.now }
    ensures front { OnOk result (BeginsWith arena.old.keys arena.new.keys) }
    ensures sizes { OnOk result (arena.new.sizes ≡ arena.old.sizes) }
    ensures added { OnOk result ((words : List (List ℕ)) → WordTerms words arena.old
        → AddsAtoms words arena.old arena.new atoms.old.keys atoms.new.keys
        (map (λ t. atom2 (word_at words word) (term_at (trees words arena.old.keys) first) t) (map (term_at (trees words arena.old.keys)) terms.now))) }
{
    for term in terms {
        let key = key_of_three(word, first, *term)?;
        add_atom(arena, atoms, &key)?;
    }
    Ok(())
}

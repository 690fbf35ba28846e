//! Negated literals whose atoms are long, or have lists without variables: of their keys only the values of variables are filled in.
//!
//! The hash of a key is a polynomial in the factor of the hash, modulo 2^64, and the numbers of the key are its coefficients. So each number
//! has a weight, the factor to the power of how many numbers stand from this one on, and the hash goes up by the weight for each one more.
//! The key of such a literal is made and hashed once for an alternative, with 0 for each variable. For a row it is copied, and each value
//! is put into its blank and into the hash: that goes by the variables of the literal, and not by its constants. The last place that the
//! literal stands on is kept beside the key, for rows that fail.
//!
//! A list without variables is the same term in each row, and its number stands in the key (`settled`). Where it is no term yet, no atom
//! found so far has it, and none is added while the rows are gone through: so the literal's atom is not found in any row.
ghost use Rattle.std.specs.Prelude.{ℕ, Some, ◌≡◌, ◌<◌, ◌+◌, ◌%◌, ◌^◌, length, slice_get, IfOk, IfSome};
ghost use Rattle.rules_clauses.specs.Marks.{literal_in};
ghost use Rattle.util_interner.specs.KeyTables.{key_hash};
ghost use Rattle.ground_rows.specs.Sought.{AreSought, HaveValues, IsBlankKey, IsHashed, IsSought, Weighs, filled, word_in};
ghost use Rattle.ground_matching.specs.Plans.{HaveRelations};
ghost use Rattle.rules.specs.RuleSetView.{lists_of_set};
ghost use Rattle.ground_terms.specs.Vectors.{items_of};

use crate::kept_keys::{Blank, BlankKey, Sought};
use crate::parts::last_place;
use crate::settled::settle;
use crate::settlings::Settled;
use ground_matching::{RowPlan, parts_at};
use ground_terms::Terms;
use rules::{Alternative, Literal, Part, RuleSet};
use std::alloc::{AllocError, Global};
use util_interner::{hash_of, in_32_bits, mix};

/// How many parts an atom has at least whose key is kept. The key of a shorter one is written for each row, which is faster then.
const LONG: usize = 16;

/// The same of one with lists, none of which has variables: those of each row would be built.
const LISTED: usize = 4;

/// By what the hash of a key goes up for each one more of a number from which on so many stand in it.
fn weight_of(many: usize) -> Result<usize, AllocError>
    requires { 0 < many }
    ensures { IfOk result (λ weight. (at : ℕ) → Weighs (at + many) at weight) }
{
    let power = in_32_bits(many)?;
    Ok(mix(0, 1).wrapping_pow(power))
}

/// The key of an atom with a word and parts with places, if no part is a list.
fn blank_key(alloc: Global, word: usize, parts: &[Part]) -> Result<Option<BlankKey>, AllocError>
    ensures { IfOk result (λ made. IfSome made (λ b. IsBlankKey word parts.now b)) }
{
    let mut key = Vec::new(alloc);
    let mut blanks = Vec::new(alloc);
    let first = in_32_bits(word)?;
    key.push(first)?;
    for (index, part) in parts.iter().enumerate() {
        match *part {
            Part::Variable(place) => {
                let weight = weight_of(parts.len() - index)?;
                let at = index + 1;
                blanks.push(Blank { at, place, weight })?;
                key.push(0)?;
            }
            Part::Constant(symbol) => {
                let number = in_32_bits(symbol)?;
                key.push(number)?;
            }
            Part::List(_, _) => return Ok(None),
        }
    }
    let hash = hash_of(&key);
    Ok(Some(BlankKey { key, hash, blanks }))
}

/// What is kept of an atom with a word and parts with places, if no list has variables. The terms are those that are there now.
fn sought_of(
    alloc: Global,
    terms: &Terms,
    word: usize,
    parts: &[Part],
) -> Result<Option<Sought>, AllocError>
    ensures { IfOk result (λ sought. IfSome sought (λ s. IsSought terms.now word parts.now s)) }
{
    let mut slots = Vec::new(alloc);
    slots.extend_from_slice(parts)?;
    let mut scratch = Vec::new(alloc);
    let settled = settle(terms, parts, &mut slots, &mut scratch)?;
    let last = last_place(parts);
    match settled {
        Settled::From(at) => {
            let Some(key) = blank_key(alloc, word, &slots[at..])? else {
                return Ok(None);
            };
            let key = Some(key);
            Ok(Some(Sought { key, last }))
        }
        Settled::Absent => Ok(Some(Sought { key: None, last })),
        Settled::Open => Ok(None),
    }
}

/// Whether some part is a list, and none has variables.
fn have_ground_lists(parts: &[Part]) -> bool {
    let (mut some, mut inside) = (false, 0usize);
    for part in parts {
        let is_inner = inside > 0;
        inside = inside.saturating_sub(1);
        match *part {
            Part::Variable(_) => {
                if is_inner {
                    return false;
                }
            }
            Part::Constant(_) => {}
            Part::List(_, many) => {
                some = true;
                inside = inside.saturating_add(many);
            }
        }
    }
    some
}

/// Whether what tells the atom of a literal, which has these parts, is kept: the literal is negated, and the atom is long, or has lists that
/// have no variables.
fn is_sought(literal: Literal, parts: &[Part]) -> bool {
    if !literal.is_negated || parts.len() < LISTED {
        return false;
    }
    parts.len() >= LONG || have_ground_lists(parts)
}

/// Whether that of some literal of a body is kept.
fn is_some_sought(set: &RuleSet, alternative: &Alternative, plan: &RowPlan) -> bool
    requires relations { HaveRelations (lists_of_set set.now) alternative.now.body.items }
    requires parts { length plan.now.body.items ≡ length alternative.now.body.items }
{
    for (index, number) in alternative.body.iter().enumerate() {
        if is_sought(set.literal(*number), parts_at(&plan.body, index)) {
            return true;
        }
    }
    false
}

/// What is kept of a literal whose atom has these parts with places.
fn sought_literal(
    alloc: Global,
    set: &RuleSet,
    terms: &Terms,
    number: usize,
    parts: &[Part],
) -> Result<Option<Sought>, AllocError>
    requires number { number < length (lists_of_set set.now).literals }
    requires relation { (literal_in (lists_of_set set.now) number).atom.relation < length (lists_of_set set.now).signatures }
    ensures { IfOk result (λ sought. IfSome sought (λ s. IsSought terms.now (word_in (lists_of_set set.now) number) parts.now s)) }
{
    let literal = set.literal(number);
    if !is_sought(literal, parts) {
        return Ok(None);
    }
    let word = set.relation(literal.atom.relation).word;
    sought_of(alloc, terms, word, parts)
}

/// What is kept of each literal of a body with a plan; the list is empty where nothing is kept of any. Of which literals something is kept
/// is a matter of speed alone. The terms are those that are there now.
pub fn sought_atoms(
    alloc: Global,
    set: &RuleSet,
    terms: &Terms,
    alternative: &Alternative,
    plan: &RowPlan,
) -> Result<Vec<Option<Sought>>, AllocError>
    requires relations { HaveRelations (lists_of_set set.now) alternative.now.body.items }
    requires parts { length plan.now.body.items ≡ length alternative.now.body.items }
    ensures { IfOk result (λ sought. AreSought (lists_of_set set.now) terms.now alternative.now.body.items (items_of plan.now.body.items) sought.items) }
{
    let mut sought = Vec::new(alloc);
    if !is_some_sought(set, alternative, plan) {
        return Ok(sought);
    }
    for (index, number) in alternative.body.iter().enumerate() {
        let own = sought_literal(alloc, set, terms, *number, parts_at(&plan.body, index))?;
        sought.push(own)?;
    }
    Ok(sought)
}

/// What is kept of the literal at a place, if there is something.
pub fn sought_at(sought: &[Option<Sought>], index: usize) -> Option<&Sought>
    ensures { IfSome result (λ own. slice_get sought.now index ≡ Some (Some own.now)) }
{
    match sought.get(index) {
        Some(Some(own)) => Some(own),
        _ => None,
    }
}

/// By how much a number goes up, as far as a hash tells.
fn more_from(before: u32, after: u32) -> usize
    ensures { after % 2 ^ 64 ≡ (before + result) % 2 ^ 64 }
{
    (after as usize).wrapping_sub(before as usize)
}

/// Puts a key with the values of a row into a list, if each is there, and tells its hash. What was in the list goes.
pub fn put_sought(
    sought: &BlankKey,
    values: &[u32],
    key: &mut Vec<u32>,
) -> Result<Option<usize>, AllocError>
    requires { IsHashed sought.now }
    ensures values { IfOk result (λ there. IfSome there (λ _. HaveValues values.now sought.now.blanks.items)) }
    ensures key { IfOk result (λ there. IfSome there (λ _. key.new.items ≡ filled values.now sought.now.blanks.items sought.now.key.items)) }
    ensures hash { IfOk result (λ there. IfSome there (λ hash. hash ≡ key_hash 0 key.new.items)) }
{
    key.clear();
    key.extend_from_slice(&sought.key)?;
    let mut hash = sought.hash;
    for blank in &sought.blanks {
        let Some(value) = values.get(blank.place) else {
            return Ok(None);
        };
        let more = more_from(key[blank.at], *value);
        hash = hash.wrapping_add(more.wrapping_mul(blank.weight));
        key[blank.at] = *value;
    }
    Ok(Some(hash))
}

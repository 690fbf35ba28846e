//! The number of the atom that a literal without variables is, which is looked up and not made.
ghost use Rattle.std.specs.Prelude.{ℕ, ◌≡◌, ◌≢◌, ◌<◌, ◌≤◌, ◌-◌, ◌++◌, ◌∷◌, [], length, reverse, take, drop, true, Some, IfOk, OnOk, MatchOption};
ghost use Rattle.rules_clauses.specs.declared.numbered.Part.TheVariants as parts;
ghost use Rattle.util_interner.specs.KeyLists.{key_at};
ghost use Rattle.ground_matching.specs.Finding.{are_constant, is_constant, IsSaid, PutsNumber, key_of_top};
ghost use Rattle.ground_terms.specs.Keys.{AreKeys};

use ground_terms::Terms;
use rules::Part;
use std::alloc::AllocError;
use util_interner::in_32_bits;

/// Whether a part is no variable.
fn is_constant(part: Part) -> bool
    ensures { result ≡ is_constant part }
{
    match part {
        Part::Variable(_) => false,
        _ => true,
    }
}

/// Whether no part is a variable.
pub fn are_constant(parts: &[Part]) -> bool
    ensures { result ≡ are_constant parts.now }
{
    for part in parts {
        if !is_constant(*part) {
            return false;
        }
    }
    true
}

/// Turns the order of the numbers from a place on.
fn turn_behind(stack: &mut Vec<u32>, from: usize)
    requires { from ≤ length stack.old.items }
    ensures { stack.new.items ≡ take from stack.old.items ++ reverse (drop from stack.old.items) }
{
    stack[from..].reverse();
}

/// The number of the term of a symbol and so many numbers from the top of a stack, which it takes away, if there is one.
fn find_top(
    terms: &Terms,
    symbol: usize,
    many: usize,
    stack: &mut Vec<u32>,
) -> Result<Option<usize>, AllocError>
    requires { many ≤ length stack.old.items }
    ensures found { IfOk result (λ found. MatchOption found
        ((k : ℕ) → k < length terms.now → key_at terms.now k ≢ key_of_top symbol many stack.old.items)
        (λ k. (k < length terms.now) × (key_at terms.now k ≡ key_of_top symbol many stack.old.items))) }
    ensures stack { OnOk result (stack.new.items ≡ take (length stack.old.items - many) stack.old.items) }
{
    let from = stack.len() - many;
    let word = in_32_bits(symbol)?;
    stack.push(word)?;
    turn_behind(stack, from);
    let number = terms.number(&stack[from..]);
    stack.truncate(from);
    Ok(number)
}

/// Puts the number of a list on a stack in the place of those of its terms, if it has one.
fn put_list(
    terms: &Terms,
    symbol: usize,
    many: usize,
    stack: &mut Vec<u32>,
) -> Result<bool, AllocError>
    ensures { IfOk result (λ found. PutsNumber terms.now (parts.List symbol many) found stack.old.items stack.new.items) }
{
    if many > stack.len() {
        return Ok(false);
    }
    let Some(number) = find_top(terms, symbol, many, stack)? else {
        return Ok(false);
    };
    let number = in_32_bits(number)?;
    stack.push(number)?;
    Ok(true)
}

/// Puts the number of a part on a stack, on which those behind it stand, the next one on its top. A list takes its own terms from it. Tells
/// whether it has one.
fn put_number(terms: &Terms, part: Part, stack: &mut Vec<u32>) -> Result<bool, AllocError>
    requires { is_constant part ≡ true }
    ensures { IfOk result (λ found. PutsNumber terms.now part found stack.old.items stack.new.items) }
{
    match part {
        Part::List(symbol, many) => put_list(terms, symbol, many, stack),
        Part::Constant(symbol) => {
            let number = in_32_bits(symbol)?;
            stack.push(number)?;
            Ok(true)
        }
        Part::Variable(_) => Ok(false),
    }
}

/// The number of the atom of a word and parts without variables, if it is among the terms. What is on the stack before says nothing.
pub fn find_atom(
    terms: &Terms,
    word: usize,
    parts: &[Part],
    stack: &mut Vec<u32>,
) -> Result<Option<usize>, AllocError>
    requires { are_constant parts.now ≡ true }
    ensures { IfOk result (λ found. (many : ℕ) → AreKeys many terms.now
        → (x : ℕ) → x < length terms.now → IsSaid terms.now word parts.now x → found ≡ Some x) }
{
    stack.clear();
    let mut left = parts.len();
    'parts: while left > 0 {
        left -= 1;
        if !put_number(terms, parts[left], stack)? {
            return Ok(None);
        }
    }
    find_top(terms, word, stack.len(), stack)
}

//! Ground terms and atoms from placed parts.
ghost use Rattle.std.specs.Prelude.{List, [], ℕ, ◌-◌, ◌<◌, ◌≤◌, ◌≡◌, ◌++◌, length, reverse, take, drop, IfOk, OnOk};
ghost use Rattle.statement.specs.Tree.{trees_of};
ghost use Rattle.statement.specs.Clause.{tree_at};
ghost use Rattle.rules_clauses.specs.Store.{AreFull};
ghost use Rattle.rules_clauses.specs.Marks.{NumbersBelow};
ghost use Rattle.rules_clauses.specs.Numbers.{word_at};
ghost use Rattle.ground_terms.specs.Keys.{term_at, trees};
ghost use Rattle.ground_terms.specs.Arena.{AreNumbered};
ghost use Rattle.ground_terms.specs.Building.{PartsPlaced, place_value, HeldGrows, Builds, top_key, Interns, PartIsReady, PutsPart, ground_terms};

use crate::arena::Arena;
use rules::Part;
use std::alloc::AllocError;
use util_interner::in_32_bits;

impl Arena {
    /// Puts the terms of placed parts on a stack, the first on its top: a place has the term of the
    /// number that stands there. A list that is a part of the term near is looked for there first.
    pub fn build(
        &mut self,
        parts: &[Part],
        values: &[u32],
        near: Option<usize>,
        stack: &mut Vec<u32>,
    ) -> Result<(), AllocError>
        requires full { AreFull parts.now }
        requires placed { PartsPlaced (length self.old.sizes) (length values.now) parts.now }
        requires values { NumbersBelow (length self.old.keys) values.now }
        ensures { OnOk result (Builds self.old self.new values.now parts.now stack.old.items stack.new.items) }
    {
        let before = stack.len();
        let mut left = parts.len();
        while left > 0 {
            left -= 1;
            self.put_part(parts[left], values, near, before, stack)?;
        }
        Ok(())
    }

    /// The number of the atom of a symbol and the terms of placed parts, where a number that
    /// may be it is tried first. The stack is as before.
    pub fn atom(
        &mut self,
        word: usize,
        parts: &[Part],
        values: &[u32],
        near: Option<usize>,
        stack: &mut Vec<u32>,
    ) -> Result<usize, AllocError>
        requires word { word < length self.old.sizes }
        requires full { AreFull parts.now }
        requires placed { PartsPlaced (length self.old.sizes) (length values.now) parts.now }
        requires values { NumbersBelow (length self.old.keys) values.now }
        ensures grows { OnOk result (HeldGrows self.old self.new) }
        ensures numbered { OnOk result (AreNumbered (length self.new.sizes) self.new.keys) }
        ensures stack { OnOk result (stack.new.items ≡ stack.old.items) }
        ensures within { IfOk result (λ k. k < length self.new.keys) }
        ensures exact { IfOk result (λ k. (words : List (List ℕ)) → term_at (trees words self.new.keys) k
            ≡ tree_at (word_at words word) (trees_of (ground_terms words (place_value (trees words self.new.keys) values.now) parts.now []))) }
    {
        let _many = self.len();
        if let Some(number) = self.flat_atom(word, parts, values, stack)? {
            return Ok(number);
        }
        let before = stack.len();
        self.build(parts, values, near, stack)?;
        let number = self.intern_top(word, stack.len() - before, near, stack)?;
        Ok(number)
    }

    /// Puts a part on the stack, on which so many numbers stood before the parts of the term near.
    fn put_part(
        &mut self,
        part: Part,
        values: &[u32],
        near: Option<usize>,
        before: usize,
        stack: &mut Vec<u32>,
    ) -> Result<(), AllocError>
        requires { PartIsReady self.old values.now stack.old.items part }
        ensures { OnOk result (PutsPart self.old self.new values.now part stack.old.items stack.new.items) }
    {
        match part {
            Part::Variable(place) => {
                stack.push(values[place])?;
                Ok(())
            }
            Part::Constant(symbol) => {
                stack.push(in_32_bits(self.constant(symbol))?)?;
                Ok(())
            }
            Part::List(symbol, count) => {
                let behind = (stack.len() - count).saturating_sub(before);
                let number = self.intern_top(symbol, count, self.part_before(near, behind), stack)?;
                stack.push(in_32_bits(number)?)?;
                Ok(())
            }
        }
    }

    /// The number of the key of a symbol and so many numbers from the top of the stack, which it takes
    /// away, where a number that may be it is tried first.
    fn intern_top(
        &mut self,
        symbol: usize,
        count: usize,
        near: Option<usize>,
        stack: &mut Vec<u32>,
    ) -> Result<usize, AllocError>
        requires symbol { symbol < length self.old.sizes }
        requires count { count ≤ length stack.old.items }
        requires terms { NumbersBelow (length self.old.keys) (drop (length stack.old.items - count) stack.old.items) }
        ensures interns { IfOk result (λ k. Interns self.old self.new (top_key symbol count stack.old.items) k) }
        ensures stack { OnOk result (stack.new.items ≡ take (length stack.old.items - count) stack.old.items) }
    {
        let from = stack.len() - count;
        let word = in_32_bits(symbol)?;
        stack.push(word)?;
        turn_behind(stack, from);
        let number = self.intern_near(&stack[from..], near)?;
        stack.truncate(from);
        Ok(number)
    }
}

/// Turns the order of the numbers from a place on.
fn turn_behind(stack: &mut Vec<u32>, from: usize)
    requires { from ≤ length stack.old.items }
    ensures { stack.new.items ≡ take from stack.old.items ++ reverse (drop from stack.old.items) }
{
    stack[from..].reverse();
}

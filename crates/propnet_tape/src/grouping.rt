//! Ors of given bits of which exactly one is 1: some of these are the negation of the others.
ghost use Rattle.std.specs.Prelude.{ℕ, Bool, ◌||◌, ◌≡◌, ◌+◌, ◌-◌, ◌*◌, ◌^◌, ◌<◌, ◌≤◌, [], length, map, not, All, IfOk, OnOk, IfSome};
ghost use Rattle.propnet_tape.specs.Building.{slots_of, signal_value, any_of, IsBuilt, IsStep, IsLiteral, IsOneOf, AreOneOf};
ghost use Rattle.propnet_tape.specs.GateGrouping.{any_marked, are_unmarked};

use crate::builder::{Builder, Group, given, negation};
use crate::gates::Literal;
use std::alloc::{AllocError, Global};

/// The place in a group of the given bit whose literal this is, if it is one.
fn place_in(group: Group, literal: Literal) -> Option<usize>
    ensures within { IfSome result (λ k. k < group.to - group.from) }
    ensures place { IfSome result (λ k. literal ≡ 2 + 2 * (group.from + k)) }
{
    if literal % 2 == 1 || literal < 2 {
        return None;
    }
    let number = literal / 2 - 1;
    if number < group.from || number >= group.to {
        return None;
    }
    Some((number - group.from) as usize)
}

/// Whether more than half of the bits of a group stand in a queue, where none stands there twice.
fn is_crowded(group: Group, queue: &[Literal]) -> bool {
    let mut count = 0u32;
    for literal in queue {
        if let Some(_place) = place_in(group, *literal) {
            count = count.wrapping_add(1);
        }
    }
    count > group.to.wrapping_sub(group.from) / 2
}

/// Marks the bits of a group that stand in a queue, and lists what else stands there.
fn part(
    group: Group,
    queue: &[Literal],
    marks: &mut [bool],
    rest: &mut Vec<Literal>,
) -> Result<(), AllocError>
    requires room { length marks.old ≡ group.to - group.from }
    requires none { are_unmarked marks.old }
    requires empty { rest.old.items ≡ [] }
    ensures size { length marks.new ≡ length marks.old }
    ensures value { OnOk result ((w : ℕ → Bool) → any_of w queue.now ≡ (any_of w rest.new.items || any_marked w group.from marks.new)) }
    ensures below { OnOk result ((n : ℕ) → All (λ l. l < n) queue.now → All (λ l. l < n) rest.new.items) }
{
    for literal in queue {
        match place_in(group, *literal) {
            Some(place) => marks[place] = true,
            None => rest.push(*literal)?,
        }
    }
    Ok(())
}

/// The literals of the bits of a group that are not marked.
fn unmarked(alloc: Global, group: Group, marks: &[bool]) -> Result<Vec<Literal>, AllocError>
    requires size { length marks.now ≡ group.to - group.from }
    requires small { 2 + 2 * group.to ≤ 2 ^ 32 }
    ensures value { IfOk result (λ ls. (w : ℕ → Bool) → any_of w ls.items ≡ any_marked w group.from (map not marks.now)) }
    ensures below { IfOk result (λ ls. All (λ l. l < 2 + 2 * group.to) ls.items) }
{
    let mut literals = Vec::new(alloc);
    for place in 0..marks.len() {
        if !marks[place] {
            literals.push(given(group.from + place as u32))?;
        }
    }
    Ok(literals)
}

impl Builder {
    /// Puts the negation of the or of the other bits of a group in the place of those that stand in a queue.
    fn turn_group(
        &mut self,
        alloc: Global,
        group: Group,
        queue: &mut Vec<Literal>,
    ) -> Result<(), AllocError>
        requires built { IsBuilt self.old }
        requires within { 2 + 2 * group.to ≤ self.old.first }
        requires one { (bits : ℕ → Bool) → AreOneOf self.old.groups.items bits → IsOneOf bits group.from group.to }
        requires literals { All (λ l. l < slots_of self.old) queue.old.items }
        ensures step { IsStep self.old self.new }
        ensures literals { OnOk result (All (λ l. l < slots_of self.new) queue.new.items) }
        ensures value { OnOk result ((bits : ℕ → Bool) → AreOneOf self.old.groups.items bits
            → any_of (signal_value self.new bits) queue.new.items ≡ any_of (signal_value self.old bits) queue.old.items) }
    {
        if group.from > group.to {
            return Ok(());
        }
        let mut marks = vec![in alloc; false; (group.to - group.from) as usize]?;
        let mut rest = Vec::new(alloc);
        part(group, queue, &mut marks, &mut rest)?;
        let mut others = unmarked(alloc, group, &marks)?;
        let other = self.any(&mut others)?;
        rest.push(negation(other))?;
        *queue = rest;
        Ok(())
    }

    /// The or of all literals of a queue, which it uses up. Where more than half of the bits of a group stand there, the others are
    /// asked in their place.
    pub fn any_one_of(
        &mut self,
        alloc: Global,
        queue: &mut Vec<Literal>,
    ) -> Result<Literal, AllocError>
        requires built { IsBuilt self.old }
        requires literals { All (λ l. l < slots_of self.old) queue.old.items }
        ensures step { IsStep self.old self.new }
        ensures value { IfOk result (λ l. IsLiteral self.new l (λ bits. any_of (signal_value self.old bits) queue.old.items)) }
    {
        for number in 0..self.groups.len() {
            let group = self.groups[number];
            if is_crowded(group, queue) {
                self.turn_group(alloc, group, queue)?;
            }
        }
        self.any(queue)
    }
}

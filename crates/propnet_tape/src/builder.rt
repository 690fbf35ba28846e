//! Building a tape: equal gates are one gate, and gates of constants none.

ghost use Rattle.std.specs.Prelude.{
  ℕ,
  Bool,
  true,
  not,
  ◌&&◌,
  ◌≡◌,
  ◌+◌,
  ◌*◌,
  ◌/◌,
  ◌^◌,
  ◌<◌,
  ◌≤◌,
  length,
  max,
  All,
  IfOk,
  IfSome,
  slice_index,
  slice_get,
  Some,
};
ghost use Rattle.propnet_tape.specs.Values.{start, value, IsTape};
ghost use Rattle.propnet_tape.specs.Building.{slots_of, signal_value, IsBuilt, IsStep, HaveNegations, IsLiteral, IsNegation, AreNegations, all_of, any_of};
ghost use Rattle.propnet_tape.specs.declared.gates.Gate.{Gate};

use crate::gates::{Gate, Literal};
use std::alloc::{AllocError, Global};

/// Given bits of which exactly one is 1: those with numbers from one on to before another.
#[derive(Clone, Copy, Drop)]
pub struct Group {
    pub from: u32,
    pub to: u32,
}

/// A tape in the making. The table has places for the numbers of gates, each plus one: a gate stands
/// at the place of its hash or behind it.
#[derive(Drop)]
pub struct Builder {
    pub(crate) first: u32,
    pub(crate) groups: Vec<Group>,
    pub(crate) gates: Vec<Gate>,
    pub(crate) table: Vec<u32>,
}

/// The negation of a literal.
pub fn negation(literal: Literal) -> Literal
    ensures { IsNegation literal result }
{
    if literal % 2 == 0 {
        literal + 1
    } else {
        literal - 1
    }
}

/// The literal of a given bit.
pub fn given(number: u32) -> Literal
    requires { 2 + 2 * number < 2 ^ 32 }
    ensures slot { result ≡ 2 + 2 * number }
    ensures value { (bits : ℕ → Bool) → start bits result ≡ bits number }
{
    2 + 2 * number
}

/// The and of two literals that needs no gate.
fn folded(a: Literal, b: Literal) -> Option<Literal>
    ensures within { IfSome result (λ l. l ≤ max a b) }
    ensures value { IfSome result (λ l. (w : ℕ → Bool) → HaveNegations w → w l ≡ (w a && w b)) }
{
    if a == b || b == 1 {
        return Some(a);
    }
    if a == 1 {
        return Some(b);
    }
    if a == 0 || b == 0 || a == negation(b) {
        return Some(0);
    }
    None
}

/// Where a gate stands in the table at first.
fn hash(a: Literal, b: Literal) -> usize {
    let key = (a as u64) << 32 | b as u64;
    (key.wrapping_mul(0x9E37_79B9_7F4A_7C15) >> 32) as usize
}

impl Builder {
    /// A tape with so many given bits, of which one of each group is 1.
    pub fn new(alloc: Global, givens: u32, groups: Vec<Group>) -> Result<Self, AllocError>
        requires few { givens < 2 ^ 30 }
        requires groups { All (λ g. g.to ≤ givens) groups.items }
        ensures { IfOk result (λ b. IsBuilt b × (b.first ≡ 2 + 2 * givens) × (slots_of b ≡ 2 + 2 * givens) × (b.groups ≡ groups)) }
    {
        let table = vec![in alloc; 0u32; 1024]?;
        Ok(Builder {
            first: 2 + 2 * givens,
            groups,
            gates: Vec::new(alloc),
            table,
        })
    }

    /// How many literals stand in front of the gates, and these, in order.
    pub fn into_parts(self) -> (u32, Vec<Gate>)
        ensures first { result.0 ≡ self.first }
        ensures gates { result.1 ≡ self.gates }
    {
        (self.first, self.gates)
    }

    /// How many literals there are.
    pub fn slots(&self) -> usize
        requires { IsBuilt self.now }
        ensures { result ≡ slots_of self.now }
    {
        self.first as usize + 2 * self.gates.len()
    }

    /// Whether a gate reads these two literals.
    #[inline(always)]
    fn is_gate(&self, number: usize, a: Literal, b: Literal) -> bool
        ensures { result ≡ true → (number < length self.now.gates.items) × (slice_get self.now.gates.items number ≡ Some (record { a = a; b = b })) }
    {
        let Some(gate) = self.gates.get(number) else {
            return false;
        };
        gate.a == a && gate.b == b
    }

    /// The number of a gate with these two literals, if the table has it.
    fn find(&self, a: Literal, b: Literal) -> Option<usize>
        ensures { IfSome result (λ i. (i < length self.now.gates.items) × (slice_get self.now.gates.items i ≡ Some (record { a = a; b = b }))) }
    {
        let start = hash(a, b);
        let table = self.table.as_slice();
        for step in 0..table.len() {
            let number = table[place_of(start, step, table.len())] as usize;
            if number == 0 {
                return None;
            }
            if self.is_gate(number - 1, a, b) {
                return Some(number - 1);
            }
        }
        None
    }

    /// Doubles the table once half of it is taken.
    fn make_room(&mut self) -> Result<(), AllocError>
        requires { IsBuilt self.old }
        ensures gates { self.new.gates.items ≡ self.old.gates.items }
        ensures first { self.new.first ≡ self.old.first }
        ensures groups { self.new.groups.items ≡ self.old.groups.items }
        ensures table { 0 < length self.new.table.items }
    {
        let places = self.table.len();
        if self.gates.len() < places / 2 {
            return Ok(());
        }
        for _place in 0..places {
            self.table.push(0)?;
        }
        self.table.fill(0);
        enter_all(&mut self.table, &self.gates);
        Ok(())
    }

    /// Adds a gate behind the others.
    fn push(&mut self, a: Literal, b: Literal) -> Result<Literal, AllocError>
        requires built { IsBuilt self.old }
        requires a { a < slots_of self.old }
        requires b { b < slots_of self.old }
        ensures step { IsStep self.old self.new }
        ensures value { IfOk result (λ l. IsLiteral self.new l (λ bits. signal_value self.new bits a && signal_value self.new bits b)) }
    {
        self.make_room()?;
        let Ok(literal) = u32::try_from(self.first as usize + 2 * self.gates.len()) else {
            return Err(AllocError);
        };
        self.gates.push(Gate { a, b })?;
        enter(&mut self.table, a, b, self.gates.len());
        Ok(literal)
    }

    /// The and of two literals, the lower one first.
    fn and_in_order(&mut self, a: Literal, b: Literal) -> Result<Literal, AllocError>
        requires built { IsBuilt self.old }
        requires a { a < slots_of self.old }
        requires b { b < slots_of self.old }
        ensures step { IsStep self.old self.new }
        ensures value { IfOk result (λ l. IsLiteral self.new l (λ bits. signal_value self.new bits a && signal_value self.new bits b)) }
    {
        if let Some(literal) = folded(a, b) {
            return Ok(literal);
        }
        if let Some(number) = self.find(a, b) {
            return Ok(self.literal_of(number));
        }
        self.push(a, b)
    }

    /// The literal of a gate.
    fn literal_of(&self, number: usize) -> Literal
        requires built { IsBuilt self.now }
        requires is_gate { number < length self.now.gates.items }
        ensures { result ≡ self.now.first + 2 * number }
    {
        self.first + 2 * number as u32
    }

    /// The and of two literals.
    pub fn and(&mut self, a: Literal, b: Literal) -> Result<Literal, AllocError>
        requires built { IsBuilt self.old }
        requires a { a < slots_of self.old }
        requires b { b < slots_of self.old }
        ensures step { IsStep self.old self.new }
        ensures value { IfOk result (λ l. IsLiteral self.new l (λ bits. signal_value self.new bits a && signal_value self.new bits b)) }
    {
        if b < a {
            return self.and_in_order(b, a);
        }
        self.and_in_order(a, b)
    }

    /// The and of all literals of a queue, which it uses up: two in front go, and their and goes behind.
    pub fn all(&mut self, queue: &mut Vec<Literal>) -> Result<Literal, AllocError>
        requires built { IsBuilt self.old }
        requires literals { All (λ l. l < slots_of self.old) queue.old.items }
        ensures step { IsStep self.old self.new }
        ensures value { IfOk result (λ l. IsLiteral self.new l (λ bits. all_of (signal_value self.old bits) queue.old.items)) }
    {
        if queue.is_empty() {
            return Ok(1);
        }
        let mut front = 0;
        while front + 1 < queue.len() {
            let literal = self.and(queue[front], queue[front + 1])?;
            queue.push(literal)?;
            front += 2;
        }
        Ok(queue[front])
    }

    /// The or of all literals of a queue, which it uses up.
    pub fn any(&mut self, queue: &mut Vec<Literal>) -> Result<Literal, AllocError>
        requires built { IsBuilt self.old }
        requires literals { All (λ l. l < slots_of self.old) queue.old.items }
        ensures step { IsStep self.old self.new }
        ensures value { IfOk result (λ l. IsLiteral self.new l (λ bits. any_of (signal_value self.old bits) queue.old.items)) }
    {
        negate_all(queue);
        let none = self.all(queue)?;
        Ok(negation(none))
    }
}

/// Negates all literals of a queue.
fn negate_all(queue: &mut Vec<Literal>)
    ensures { AreNegations queue.old.items queue.new.items }
{
    for i in 0..queue.len() {
        queue[i] = negation(queue[i]);
    }
}

/// Puts a gate's number into the table, at the first free place.
fn enter(table: &mut Vec<u32>, a: Literal, b: Literal, number: usize)
    ensures { length table.new.items ≡ length table.old.items }
{
    let start = hash(a, b);
    let Ok(number) = u32::try_from(number) else {
        return;
    };
    for step in 0..table.len() {
        let place = place_of(start, step, table.len());
        if table[place] == 0 {
            table[place] = number;
            return;
        }
    }
}

/// Puts all gates' numbers into the table.
fn enter_all(table: &mut Vec<u32>, gates: &[Gate])
    ensures { length table.new.items ≡ length table.old.items }
{
    for i in 0..gates.len() {
        let gate = gates[i];
        enter(table, gate.a, gate.b, i + 1);
    }
}

/// A place of a table whose length is a power of two.
#[inline(always)]
fn place_of(start: usize, step: usize, places: usize) -> usize
    requires { 0 < places }
    ensures { result < places }
{
    start.wrapping_add(step) & (places - 1)
}

//! Numbers in the order in which they were added, each once.
ghost use Rattle.std.specs.Prelude.{ℕ, ◌≡◌, ◌<◌, [], nat_eq, length, slice_index, OnOk, OnErr};
ghost use Rattle.std.specs.List.{list_any, IsDistinct};
ghost use Rattle.statement.specs.Printed.{first_place};
ghost use Rattle.ground_terms.specs.Atoms.{with_number};
ghost use Rattle.ground_terms.specs.NumberSets.{Members, ticket_of, AreTickets};

use std::alloc::{AllocError, Global};
use std::marker::Model;
use util_interner::in_32_bits;

/// Numbers in the order in which they were added, each once. Whether a number is among them, and where, is read at its place in a
/// list as long as the greatest of them, so they should be dense.
#[derive(Drop)]
pub struct NumberSet {
    members: Vec<u32>,
    /// For each number one more than its place; 0 where it is not among them, as no number behind the end is.
    tickets: Vec<u32>,
}

impl Model for NumberSet {
    ghost use Rattle.ground_terms.specs.NumberSets.{Members, IsNumberSet};

    ghost Value = { Members };

    ghost view = { λ s. record { keys = s.members.items } };

    ghost invariant = { λ s. IsNumberSet s.members.items s.tickets.items };
}

impl NumberSet {
    /// No numbers yet.
    pub fn new(alloc: Global) -> Self
        ensures { result.keys ≡ [] }
    {
        NumberSet {
            members: Vec::new(alloc),
            tickets: Vec::new(alloc),
        }
    }

    /// How many numbers there are.
    pub fn len(&self) -> usize
        ensures { result ≡ length self.now.keys }
    {
        self.members.len()
    }

    /// The numbers in order.
    pub fn as_slice(&self) -> &[u32]
        ensures keys { result.now ≡ self.now.keys }
        ensures unique { IsDistinct nat_eq self.now.keys }
    {
        &self.members
    }

    /// Whether a number is among them.
    pub fn contains(&self, number: usize) -> bool
        ensures { result ≡ list_any (nat_eq number) self.now.keys }
    {
        ticket(&self.tickets, number) > 0
    }

    /// The place of a number; the count of the numbers where it is not among them.
    pub fn place(&self, number: usize) -> usize
        ensures { result ≡ first_place (nat_eq number) self.now.keys }
    {
        let ticket = ticket(&self.tickets, number) as usize;
        if ticket == 0 {
            return self.members.len();
        }
        ticket - 1
    }

    /// Adds a number, if it is not among them. After an error they are those before. A number that 32 bits do not hold is refused as want
    /// of memory is.
    #[inline(always)]
    pub fn insert(&mut self, number: usize) -> Result<(), AllocError>
        ensures added { OnOk result (self.new.keys ≡ with_number self.old.keys number) }
        ensures failed { OnErr result (self.new.keys ≡ self.old.keys) }
    {
        if ticket(&self.tickets, number) > 0 {
            return Ok(());
        }
        let member = in_32_bits(number)?;
        let next = in_32_bits(self.members.len() + 1)?;
        make_room(&mut self.tickets, number)?;
        self.members.push(member)?;
        self.tickets[number] = next;
        Ok(())
    }
}

/// What is noted of a number.
fn ticket(tickets: &[u32], number: usize) -> u32
    ensures { result ≡ slice_index tickets.now number }
{
    match tickets.get(number) {
        Some(ticket) => *ticket,
        None => 0,
    }
}

/// Makes the list long enough for a number. What is noted of each number stays, also after an error.
fn make_room(tickets: &mut Vec<u32>, number: usize) -> Result<(), AllocError>
    ensures room { OnOk result (number < length tickets.new.items) }
    ensures same { (n : ℕ) → slice_index tickets.new.items n ≡ slice_index tickets.old.items n }
{
    if number < tickets.len() {
        return Ok(());
    }
    let many = number
        .saturating_add(1)
        .max(tickets.len().saturating_mul(2));
    tickets.resize(many, 0)?;
    Ok(())
}

//! Kept instances in flat lists.
//!
//! Heads are numbers of terms while the relations are listed; once all atoms have numbers these are written in their place. A literal has
//! the number of its atom from the start.
//! A row's literals are put behind those of all bodies: where the row passes, a body is made that ends behind them, and where it fails they
//! are cut off again. Instances with the same literals may share one body, so that its literals stand once.
ghost use Rattle.std.specs.Prelude.{ℕ, Bool, List, ◌≡◌, ◌+◌, ◌++◌, ◌∷◌, ◌<◌, ◌≤◌, [], drop, length, get_or, slice_range, OnOk};
ghost use Rattle.statement.specs.Kept.{Kept};
ghost use Rattle.ground_instances.specs.Lists.{AreLaid, AreLaidIn, bodies_of, numbers_of_list, start_at};

use crate::atom_literal::AtomLiteral;
use crate::entry::{AlternativeRun, Entry};
use crate::runs::{add_run, alternative_at};
use std::alloc::{AllocError, Global};
use util_interner::{in_32_bits, with_room};

/// Kept instances in order. While a row is looked at, its literals stand behind those of all bodies.
#[derive(Drop)]
pub struct FoundList {
    /// The heads of the instances, and the numbers of their bodies.
    pub entries: Vec<Entry>,
    /// The alternatives of the instances.
    pub runs: Vec<AlternativeRun>,
    /// Where the bodies end among the literals: each begins where the one before ends.
    pub ends: Vec<usize>,
    /// What must be right in each instance, one body behind the other. Literals that are right wherever the instance is used are
    /// left out: `distinct`, those of fixed relations, and negated atoms that are not possible.
    pub literals: Vec<AtomLiteral>,
}

/// The literals from one place up to another.
pub(crate) fn literals_between(literals: &[AtomLiteral], start: usize, end: usize) -> &[AtomLiteral]
    requires up { start ≤ end }
    requires within { end ≤ length literals.now }
    ensures { result.now ≡ slice_range literals.now start end }
{
    &literals[start..end]
}

impl FoundList {
    /// No instances, with room for so many, and for so many literals, where it can be had.
    pub fn with_room(alloc: Global, instances: usize, literals: usize) -> Self
        ensures none { numbers_of_list result ≡ [] }
        ensures laid { AreLaid result }
    {
        FoundList {
            entries: with_room(alloc, instances),
            runs: Vec::new(alloc),
            ends: with_room(alloc, instances),
            literals: with_room(alloc, literals),
        }
    }

    /// How many instances there are.
    pub fn count(&self) -> usize
        ensures { result ≡ length (numbers_of_list self.now) }
    {
        self.entries.len()
    }

    /// The place of an instance's alternative, from 0.
    pub fn alternative(&self, place: usize) -> u32
        requires laid { AreLaid self.now }
        requires place { place < length (numbers_of_list self.now) }
        ensures { (d : Kept) → result ≡ (get_or (numbers_of_list self.now) place d).alternative }
    {
        alternative_at(&self.runs, place)
    }

    /// The number of an instance's head.
    pub fn head(&self, place: usize) -> u32
        requires { place < length (numbers_of_list self.now) }
        ensures { (d : Kept) → result ≡ (get_or (numbers_of_list self.now) place d).head }
    {
        self.entries[place].head
    }

    /// How many bodies there are.
    pub fn many_bodies(&self) -> usize
        ensures { result ≡ length (bodies_of self.now) }
    {
        self.ends.len()
    }

    /// The number of an instance's body.
    #[inline(always)]
    pub fn body_number(&self, place: usize) -> usize
        requires laid { AreLaid self.now }
        requires place { place < length (numbers_of_list self.now) }
        ensures within { result < length (bodies_of self.now) }
        ensures body { (d : Kept) → (get_or (numbers_of_list self.now) place d).body ≡ get_or (bodies_of self.now) result [] }
    {
        self.entries[place].body as usize
    }

    /// Where the literals of a body begin.
    #[inline(always)]
    fn start(&self, number: usize) -> usize
        requires { number < length self.now.ends.items }
        ensures { result ≡ start_at 0 self.now.ends.items number }
    {
        if number == 0 {
            return 0;
        }
        self.ends[number - 1]
    }

    /// The literals of a body.
    #[inline(always)]
    fn literals_of(&self, number: usize) -> &[AtomLiteral]
        requires laid { AreLaid self.now }
        requires number { number < length (bodies_of self.now) }
        ensures { result.now ≡ get_or (bodies_of self.now) number [] }
    {
        let start = self.start(number);
        let end = self.ends[number];
        literals_between(&self.literals, start, end)
    }

    /// What must be right in an instance.
    #[inline(always)]
    pub fn body(&self, place: usize) -> &[AtomLiteral]
        requires laid { AreLaid self.now }
        requires place { place < length (numbers_of_list self.now) }
        ensures { (d : Kept) → result.now ≡ (get_or (numbers_of_list self.now) place d).body }
    {
        self.literals_of(self.body_number(place))
    }
}

/// Adds a literal of an atom behind the others. It fails for want of memory, and where the atom's number is 2^31 or more.
pub fn push_literal(
    literals: &mut Vec<AtomLiteral>,
    atom: usize,
    negated: bool,
) -> Result<(), AllocError>
    ensures { OnOk result (literals.new.items ≡ literals.old.items ++ (atom, negated) ∷ []) }
{
    let literal = AtomLiteral::new(atom, negated)?;
    literals.push(literal)?;
    Ok(())
}

/// Adds an instance with a body that is there, by its number. It fails for want of memory, and where the place, the head or the body does
/// not fit into 32 bits.
#[inline(always)]
pub fn push_sharing(
    found: &mut FoundList,
    alternative: usize,
    head: usize,
    body: usize,
) -> Result<(), AllocError>
    requires { body < length found.old.ends.items }
    ensures added { OnOk result ((start : ℕ) → AreLaidIn start found.old → numbers_of_list found.new ≡ numbers_of_list found.old
        ++ record { alternative = alternative; head = head; body = get_or (bodies_of found.old) body [] } ∷ []) }
    ensures laid { OnOk result ((start : ℕ) → AreLaidIn start found.old → AreLaidIn start found.new) }
    ensures bodies { OnOk result ((found.new.ends.items ≡ found.old.ends.items) × (found.new.literals.items ≡ found.old.literals.items)) }
    ensures many { OnOk result (length found.new.entries.items ≡ length found.old.entries.items + 1) }
{
    let place = found.entries.len();
    let entry = Entry {
        head: in_32_bits(head)?,
        body: in_32_bits(body)?,
    };
    found.entries.reserve(1)?;
    add_run(&mut found.runs, alternative, place)?;
    found.entries.push_reserved(entry);
    Ok(())
}

/// Adds a body of the literals that stand behind those of all others.
#[inline(always)]
fn add_body(found: &mut FoundList) -> Result<(), AllocError>
    ensures ends { OnOk result (found.new.ends.items ≡ found.old.ends.items ++ length found.old.literals.items ∷ []) }
    ensures literals { OnOk result (found.new.literals.items ≡ found.old.literals.items) }
    ensures entries { OnOk result (found.new.entries.items ≡ found.old.entries.items) }
    ensures runs { OnOk result (found.new.runs.items ≡ found.old.runs.items) }
{
    let end = found.literals.len();
    found.ends.push(end)?;
    Ok(())
}

/// Adds an instance whose literals are all there, behind those of all others, which are a body more. It fails for want of memory, and where
/// the place, the head or the number of the body does not fit into 32 bits.
#[inline(always)]
pub fn push_instance(
    found: &mut FoundList,
    alternative: usize,
    head: usize,
) -> Result<(), AllocError>
    ensures added { OnOk result ((start : ℕ) → AreLaidIn start found.old → start ≤ length found.old.literals.items → numbers_of_list found.new
        ≡ numbers_of_list found.old ++ record { alternative = alternative; head = head; body = drop start found.old.literals.items } ∷ []) }
    ensures laid { OnOk result ((start : ℕ) → AreLaidIn start found.old → start ≤ length found.old.literals.items → AreLaid found.new) }
    ensures bodies { OnOk result ((start : ℕ) → AreLaidIn start found.old → start ≤ length found.old.literals.items
        → bodies_of found.new ≡ bodies_of found.old ++ drop start found.old.literals.items ∷ []) }
    ensures many { OnOk result (length found.new.entries.items ≡ length found.old.entries.items + 1) }
{
    let body = found.ends.len();
    add_body(found)?;
    push_sharing(found, alternative, head, body)?;
    Ok(())
}

//! The terms of an or: their literals stand in one list, and each term is a part of it.
ghost use Rattle.std.specs.Prelude.{◌≡◌, ◌<◌, ◌≤◌, ◌++◌, ◌∷◌, [], length, map, slice_index, All, IfOk, OnOk};

use crate::gates::Literal;
use crate::tally::Tally;
use std::alloc::{AllocError, Global};

/// An and of literals: one of them, and where the others stand.
#[derive(Clone, Copy, Drop)]
pub(crate) struct Part {
    /// The true literal where none was taken out.
    pub(crate) key: Literal,
    pub(crate) from: u32,
    pub(crate) to: u32,
    /// Its number among the terms with its key.
    pub(crate) turn: u32,
}

/// The terms of an or, and room for the work on them, which is used again for the next one.
#[derive(Drop)]
pub struct Terms {
    pub(crate) literals: Vec<Literal>,
    pub(crate) parts: Vec<Part>,
    /// Literals that are to be joined by or.
    pub(crate) ors: Vec<Literal>,
    pub(crate) queue: Vec<Literal>,
    pub(crate) tally: Tally,
}

/// A place in a list of literals as a number of 32 bits. Memory is refused where there are more.
pub(crate) fn short(place: usize) -> Result<u32, AllocError>
    ensures { IfOk result (λ n. n ≡ place) }
{
    let Ok(number) = u32::try_from(place) else {
        return Err(AllocError);
    };
    Ok(number)
}

/// Adds the literals with these numbers behind a list.
fn push_each(
    list: &mut Vec<Literal>,
    numbers: &[u32],
    literals: &[Literal],
) -> Result<(), AllocError>
    requires { All (λ n. n < length literals.now) numbers.now }
    ensures { OnOk result (list.new.items ≡ list.old.items ++ map (λ n. slice_index literals.now n) numbers.now) }
{
    for number in numbers {
        list.push(literals[*number as usize])?;
    }
    Ok(())
}

impl Terms {
    ghost use Rattle.propnet_tape.specs.Terms.{terms_there, TermsWhole};

    /// No terms.
    pub fn new(alloc: Global) -> Self
        ensures none { terms_there result ≡ [] }
        ensures whole { TermsWhole result }
    {
        Terms {
            literals: Vec::new(alloc),
            parts: Vec::new(alloc),
            ors: Vec::new(alloc),
            queue: Vec::new(alloc),
            tally: Tally::new(alloc),
        }
    }

    /// Takes all terms away, and makes room for counts of so many literals.
    pub fn begin(&mut self, literals: usize) -> Result<(), AllocError>
        ensures none { OnOk result (terms_there self.new ≡ []) }
        ensures whole { OnOk result (TermsWhole self.new) }
    {
        self.literals.clear();
        self.parts.clear();
        self.ors.clear();
        self.tally.make_room(literals)
    }

    /// Adds the and of the literals with these numbers.
    pub fn add(&mut self, numbers: &[u32], literals: &[Literal]) -> Result<(), AllocError>
        requires within { All (λ n. n < length literals.now) numbers.now }
        requires whole { TermsWhole self.old }
        ensures term { OnOk result (terms_there self.new ≡ terms_there self.old ++ map (λ n. slice_index literals.now n) numbers.now ∷ []) }
        ensures whole { OnOk result (TermsWhole self.new) }
    {
        let from = short(self.literals.len())?;
        push_each(&mut self.literals, numbers, literals)?;
        let to = short(self.literals.len())?;
        self.parts.push(Part {
            key: 1,
            from,
            to,
            turn: 0,
        })?;
        Ok(())
    }
}

//! Lists without variables, each of which is told by the number of its term.
//!
//! The parts of an atom are gone through from the last one to the first. Those that are settled stand at the end of a list, the next one
//! first: a variable, or a constant. A list of terms that are all known takes them from there, and the number of its term stands in their
//! place. Where it has none, no term has the list, so none that is there is an atom with these parts.
ghost use Rattle.std.specs.Prelude.{◌≡◌, ◌<◌, ◌≤◌, length, IfOk};
ghost use Rattle.rules_clauses.specs.declared.numbered.Part.TheVariants as parts;
ghost use Rattle.ground_rows.specs.Settled.{IsPut, IsSettled};

use crate::settlings::Settled;
use crate::short_keys::put_key;
use ground_terms::Terms;
use rules::Part;
use std::alloc::AllocError;

/// Puts a list before the parts that are settled from a place on, and takes its terms from there.
fn settle_list(
    terms: &Terms,
    symbol: usize,
    many: usize,
    slots: &mut [Part],
    at: usize,
    key: &mut Vec<u32>,
) -> Result<Settled, AllocError>
    requires some { 0 < at }
    requires within { at ≤ length slots.old }
    ensures { IfOk result (λ r. IsPut terms.now (parts.List symbol many) slots.old slots.new at r) }
{
    if many > slots.len() - at {
        return Ok(Settled::Open);
    }
    let behind = at + many;
    if !put_key(symbol, &slots[at..behind], &[], key)? {
        return Ok(Settled::Open);
    }
    let Some(number) = terms.number(key.as_slice()) else {
        return Ok(Settled::Absent);
    };
    slots[behind - 1] = Part::Constant(number);
    Ok(Settled::From(behind - 1))
}

/// Puts a part before those that are settled from a place on.
fn settle_part(
    terms: &Terms,
    part: Part,
    slots: &mut [Part],
    at: usize,
    key: &mut Vec<u32>,
) -> Result<Settled, AllocError>
    requires some { 0 < at }
    requires within { at ≤ length slots.old }
    ensures { IfOk result (λ r. IsPut terms.now part slots.old slots.new at r) }
{
    if let Part::List(symbol, many) = part {
        return settle_list(terms, symbol, many, slots, at, key);
    }
    slots[at - 1] = part;
    Ok(Settled::From(at - 1))
}

/// Settles parts in a list that is as long as they are. What is in the list before says nothing.
pub fn settle(
    terms: &Terms,
    parts: &[Part],
    slots: &mut [Part],
    key: &mut Vec<u32>,
) -> Result<Settled, AllocError>
    requires { length slots.old ≡ length parts.now }
    ensures { IfOk result (λ r. IsSettled terms.now parts.now slots.new r) }
{
    let mut at = slots.len();
    let mut left = parts.len();
    'parts: while left > 0 {
        left -= 1;
        match settle_part(terms, parts[left], slots, at, key)? {
            Settled::From(next) => at = next,
            Settled::Absent => return Ok(Settled::Absent),
            Settled::Open => return Ok(Settled::Open),
        }
    }
    Ok(Settled::From(at))
}

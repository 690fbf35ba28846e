//! Where the literals of alternatives stand: the alternatives of a body are picked from those of its parts.
//!
//! What all alternatives have behind what was picked is kept once, and written behind each of them where there is a real choice, and at
//! the end. Literals that are numbered one behind the other are one place.
ghost use Rattle.std.specs.Prelude.{◌≡◌, ◌++◌, ◌∷◌, [], IfOk, IfSome, OnOk};
ghost use Rattle.rules_clauses.specs.Spread.{lists_of, numbers_of, numbers_in, numbers_behind_each, number_picks};
ghost use Rattle.rules_clauses.specs.PicksView.{picks_made};

use crate::numbered::Span;
use std::alloc::{AllocError, Global};
use std::slice::from_ref;

/// Adds the numbers of a place.
fn add_numbers(span: Span, numbers: &mut Vec<usize>) -> Result<(), AllocError>
    ensures { OnOk result (numbers.new.items ≡ numbers.old.items ++ numbers_of span) }
{
    for number in span.from..span.to {
        numbers.push(number)?;
    }
    Ok(())
}

/// How many numbers there are in some places. It is a hint, for room.
fn count_numbers(spans: &[Span]) -> usize {
    let mut count: usize = 0;
    for span in spans {
        count = count.saturating_add(span.to.saturating_sub(span.from));
    }
    count
}

/// The numbers of what stands in some places.
pub fn numbers_at(alloc: Global, spans: &[Span]) -> Result<Vec<usize>, AllocError>
    ensures { IfOk result (λ numbers. numbers.items ≡ numbers_in spans.now) }
{
    let mut numbers = Vec::with_capacity(alloc, count_numbers(spans))?;
    for span in spans {
        add_numbers(*span, &mut numbers)?;
    }
    Ok(numbers)
}

/// Two places as one, where the second begins at the end of the first.
fn merged(before: Span, behind: Span) -> Option<Span>
    ensures { IfSome result (λ both. numbers_of both ≡ numbers_of before ++ numbers_of behind) }
{
    if before.from > before.to {
        return None;
    }
    if before.to != behind.from {
        return None;
    }
    if behind.from > behind.to {
        return None;
    }
    Some(Span {
        from: before.from,
        to: behind.to,
    })
}

/// Adds a place behind others, to the last of them where it begins where that ends.
fn add_span(span: Span, spans: &mut Vec<Span>) -> Result<(), AllocError>
    ensures { OnOk result (numbers_in spans.new.items ≡ numbers_in spans.old.items ++ numbers_of span) }
{
    let Some(last) = spans.pop() else {
        spans.push(span)?;
        return Ok(());
    };
    if let Some(both) = merged(last, span) {
        spans.push(both)?;
        return Ok(());
    }
    spans.push(last)?;
    spans.push(span)?;
    Ok(())
}

/// Adds places behind others.
fn add_spans(more: &[Span], spans: &mut Vec<Span>) -> Result<(), AllocError>
    ensures { OnOk result (numbers_in spans.new.items ≡ numbers_in spans.old.items ++ numbers_in more.now) }
{
    for span in more {
        add_span(*span, spans)?;
    }
    Ok(())
}

/// Two lists, one behind the other.
fn joined(alloc: Global, first: &[Span], second: &[Span]) -> Result<Vec<Span>, AllocError>
    ensures { IfOk result (λ both. numbers_in both.items ≡ numbers_in first.now ++ numbers_in second.now) }
{
    let mut both = Vec::from_slice(alloc, first)?;
    add_spans(second, &mut both)?;
    Ok(both)
}

/// Adds each list of the second with the first before it.
fn add_behind(
    alloc: Global,
    first: &[Span],
    second: &[Vec<Span>],
    out: &mut Vec<Vec<Span>>,
) -> Result<(), AllocError>
    ensures { OnOk result (lists_of out.new.items ≡ lists_of out.old.items ++ numbers_behind_each (numbers_in first.now) (lists_of second.now)) }
{
    for list in second {
        let both = joined(alloc, first, list)?;
        out.push(both)?;
    }
    Ok(())
}

/// Every pick of one list of the first and one of the second, the first changing slowest.
fn picks_of(
    alloc: Global,
    first: &[Vec<Span>],
    second: &[Vec<Span>],
) -> Result<Vec<Vec<Span>>, AllocError>
    ensures { IfOk result (λ out. lists_of out.items ≡ number_picks (lists_of first.now) (lists_of second.now)) }
{
    let mut out = Vec::new(alloc);
    for list in first {
        add_behind(alloc, list, second, &mut out)?;
    }
    Ok(out)
}

/// Some lists, and what stands behind each of them.
#[derive(Drop)]
pub(crate) struct Picks {
    lists: Vec<Vec<Span>>,
    behind: Vec<Span>,
}

impl Picks {
    /// One list, which is empty.
    pub(crate) fn new(alloc: Global) -> Result<Picks, AllocError>
        ensures { IfOk result (λ picks. picks_made picks ≡ [] ∷ []) }
    {
        let mut lists = Vec::new(alloc);
        lists.push(Vec::new(alloc))?;
        Ok(Picks {
            lists,
            behind: Vec::new(alloc),
        })
    }

    /// The lists, with all that stands behind them.
    pub(crate) fn made(&self, alloc: Global) -> Result<Vec<Vec<Span>>, AllocError>
        ensures { IfOk result (λ out. lists_of out.items ≡ picks_made self.now) }
    {
        picks_of(alloc, &self.lists, from_ref(&self.behind))
    }

    /// Picks one of some lists behind each.
    pub(crate) fn pick(&mut self, alloc: Global, lists: &[Vec<Span>]) -> Result<(), AllocError>
        ensures { OnOk result (picks_made self.new ≡ number_picks (picks_made self.old) (lists_of lists.now)) }
    {
        if let [only] = lists {
            return add_spans(only, &mut self.behind);
        }
        let whole = self.made(alloc)?;
        self.lists = picks_of(alloc, &whole, lists)?;
        self.behind.clear();
        Ok(())
    }
}

/// Adds lists behind others.
pub(crate) fn add_all(all: &mut Vec<Vec<Span>>, lists: Vec<Vec<Span>>) -> Result<(), AllocError>
    ensures { OnOk result (lists_of all.new.items ≡ lists_of all.old.items ++ lists_of lists.items) }
{
    for list in lists {
        all.push(list)?;
    }
    Ok(())
}

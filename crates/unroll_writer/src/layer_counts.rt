//! How many layers a relation needs that rests on itself and on the state.
//!
//! The atoms that may hold have a graph: an arrow leads from the head of each instance to the atoms of its component in the body. A
//! chain of derivations that repeats no atom passes at most as many atoms as the components of this graph along a path have.
use crate::kinds::Kinds;
use crate::sketch::Sketch;
use std::alloc::{AllocError, Global};
use unroll_datalog::{
    Book, Excess, LAYERS_LIMIT, LimitFault, Pattern, Rule, at, put, width_of, zeros,
};

/// An arrow between facts, or between components.
type Arrow = (u32, u32);

/// How many nodes have each number up to the greatest, by number.
fn sizes_of(alloc: Global, numbers: &[u32]) -> Result<Vec<u32>, AllocError> {
    let mut greatest = 0;
    for number in numbers {
        greatest = (*number as usize).max(greatest);
    }
    let mut sizes = zeros(alloc, greatest.saturating_add(1))?;
    for number in numbers {
        let more = at(&sizes, *number).saturating_add(1);
        put(&mut sizes, *number, more);
    }
    Ok(sizes)
}

/// The arrows between different components, by the number of the one from which they lead.
fn arrows_between(
    alloc: Global,
    arrows: &[Arrow],
    numbers: &[u32],
) -> Result<Vec<Arrow>, AllocError> {
    let mut between = Vec::new(alloc);
    for arrow in arrows {
        let from = at(numbers, arrow.0);
        let to = at(numbers, arrow.1);
        if from != to {
            between.push((from, to))?;
        }
    }
    between.sort_unstable();
    between.dedup();
    Ok(between)
}

/// The greatest sum of the sizes of components along a path.
fn longest(alloc: Global, arrows: &[Arrow], numbers: &[u32]) -> Result<u32, AllocError> {
    let sizes = sizes_of(alloc, numbers)?;
    let between = arrows_between(alloc, arrows, numbers)?;
    let mut below = zeros(alloc, sizes.len())?;
    for arrow in &between {
        let over = at(&sizes, arrow.1).saturating_add(at(&below, arrow.1));
        let most = at(&below, arrow.0).max(over);
        put(&mut below, arrow.0, most);
    }
    let mut greatest = 1;
    for (place, size) in sizes.iter().enumerate() {
        let number = util_interner::in_32_bits(place)?;
        greatest = size.saturating_add(at(&below, number)).max(greatest);
    }
    Ok(greatest)
}

/// The number of an atom that holds, where variables are as the row says.
fn fact_in(book: &mut Book, pattern: Pattern, row: &[u32]) -> Result<Option<u32>, LimitFault> {
    book.build_atom(pattern, row)?;
    Ok(book.facts.find(&book.key))
}

/// Adds an arrow from a fact to each literal of its component in an instance.
fn add_instance(
    book: &mut Book,
    rule: &Rule,
    kinds: &Kinds,
    row: &[u32],
    arrows: &mut Vec<Arrow>,
) -> Result<(), LimitFault> {
    let own = at(&kinds.component, rule.target.relation);
    let Some(head) = fact_in(book, rule.target, row)? else {
        return Ok(());
    };
    for asked in &rule.body {
        if asked.is_negated || asked.is_distinct || !kinds.is_in(asked.pattern.relation, own) {
            continue;
        }
        if let Some(fact) = fact_in(book, asked.pattern, row)? {
            arrows.push((head, fact))?;
        }
    }
    Ok(())
}

/// The arrows between the atoms of a component that may hold.
fn ground_arrows(
    book: &mut Book,
    relaxed: &[Rule],
    kinds: &Kinds,
    component: u32,
) -> Result<Vec<Arrow>, LimitFault> {
    let mut arrows = Vec::new(book.alloc);
    for rule in relaxed {
        if !kinds.is_in(rule.target.relation, component) || !is_inner(rule, kinds, component) {
            continue;
        }
        let steps = book.steps_of(rule, None)?;
        let table = book.table_of(rule, &steps, 0)?;
        for row in table.chunks(width_of(rule)) {
            add_instance(book, rule, kinds, row, &mut arrows)?;
        }
    }
    Ok(arrows)
}

/// How many layers a component needs.
pub fn count_layers(
    book: &mut Book,
    relaxed: &[Rule],
    kinds: &Kinds,
    component: u32,
) -> Result<u32, LimitFault> {
    let arrows = ground_arrows(book, relaxed, kinds, component)?;
    let mut sketch = Sketch::new(book.alloc, book.facts.len() as usize)?;
    for arrow in &arrows {
        sketch.add(arrow.0, arrow.1)?;
    }
    let numbers = sketch.components(book.alloc)?;
    let layers = longest(book.alloc, &arrows, &numbers)?;
    if layers > LAYERS_LIMIT {
        return Err(LimitFault::TooMany(Excess::Layers));
    }
    Ok(layers)
}

/// How many literals of the component an alternative has that are not negated.
pub fn count_inner(rule: &Rule, kinds: &Kinds, component: u32) -> usize {
    let mut count = 0usize;
    for asked in &rule.body {
        if !asked.is_negated
            && !asked.is_distinct
            && kinds.is_in(asked.pattern.relation, component)
        {
            count = count.saturating_add(1);
        }
    }
    count
}

/// Whether an alternative has a literal of the component that is not negated.
pub fn is_inner(rule: &Rule, kinds: &Kinds, component: u32) -> bool {
    count_inner(rule, kinds, component) > 0
}

/// Whether each alternative of a component has at most one literal of it that is not negated.
pub fn is_linear(rules: &[Rule], kinds: &Kinds, component: u32) -> bool {
    for rule in rules {
        if kinds.is_in(rule.target.relation, component) && count_inner(rule, kinds, component) > 1 {
            return false;
        }
    }
    true
}

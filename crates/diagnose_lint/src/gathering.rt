//! The findings of a list of items.
ghost use Rattle.std.specs.Prelude.{◌≡◌, All, IfOk, OnOk};
ghost use Rattle.kif.specs.View.{trees_in};
ghost use Rattle.diagnose_lint.specs.Findings.{IsTrueNote};
ghost use Rattle.diagnose_lint.specs.Wholes.{IsWhole};

use crate::finding::{Finding, Note};
use crate::holds::holds_of;
use crate::whole::{Whole, whole_of};
use crate::words::is_foreign;
use indexmap::IndexMap;
use kif::Expr;
use rules_profile::Word;
use rules_relations::{Relation, RelationSet, asked_by, head_of};
use std::alloc::{AllocError, Allocator, Global};

/// The words without which rules are no game that can be played and won.
const NEEDED: [Word; 5] = [
    Word::Base,
    Word::Input,
    Word::Legal,
    Word::Goal,
    Word::Terminal,
];

/// What is known while findings are gathered: what all items state and ask, how many arguments some relation of each name has that is
/// stated, and which relations were looked at.
#[derive(Drop)]
struct Known<'a> {
    whole: Whole<'a>,
    arities: IndexMap<&'a [u8], usize>,
    seen: RelationSet<'a>,
}

/// How many arguments a relation of each name has that some item states: the first.
fn arities_of<A: Allocator>(
    alloc: Global,
    items: &[Expr<A>],
) -> Result<IndexMap<&[u8], usize>, AllocError> {
    let mut arities = IndexMap::new(alloc);
    for item in items {
        let head = head_of(item);
        if !arities.contains_key(&head.word) {
            arities.insert(head.word, head.arity)?;
        }
    }
    Ok(arities)
}

/// Adds a finding of the item at a place, if it is true.
fn add<'a, A: Allocator>(
    whole: &Whole<'a>,
    items: &[Expr<A>],
    place: usize,
    finding: Finding<'a>,
    notes: &mut Vec<Note<'a>>,
) -> Result<(), AllocError>
    requires whole { IsWhole (trees_in items.now) whole.now }
    requires notes { All (IsTrueNote (trees_in items.now)) notes.old.items }
    ensures { OnOk result (All (IsTrueNote (trees_in items.now)) notes.new.items) }
{
    if place >= items.len() {
        return Ok(());
    }
    if !holds_of(whole, &items[place], &finding) {
        return Ok(());
    }
    notes.push(Note { place, finding })?;
    Ok(())
}

/// Whether something may be found of a relation that an item asks. Most are stated, and then nothing is.
fn is_suspect<'a>(known: &Known<'a>, relation: Relation<'a>) -> bool {
    is_foreign(relation.word) || !known.whole.stated.contains(relation)
}

/// What may be found of a relation that an item asks.
fn finding_of_asked<'a>(known: &Known<'a>, relation: Relation<'a>) -> Finding<'a> {
    if is_foreign(relation.word) {
        return Finding::Foreign(relation);
    }
    match known.arities.get(&relation.word) {
        Some(arity) => Finding::OtherArity(relation, *arity),
        None => Finding::NeverStated(relation),
    }
}

/// What may be found of a relation that an item states.
fn finding_of_stated<'a>(relation: Relation<'a>) -> Finding<'a> {
    if is_foreign(relation.word) {
        return Finding::Foreign(relation);
    }
    Finding::NeverAsked(relation)
}

/// Adds what is found of the relations that the item at a place asks and that were not looked at before.
fn add_all_asked<'a, A: Allocator>(
    alloc: Global,
    known: &mut Known<'a>,
    items: &[Expr<A>],
    place: usize,
    item: &'a Expr<A>,
    notes: &mut Vec<Note<'a>>,
) -> Result<(), AllocError>
    requires whole { IsWhole (trees_in items.now) known.old.whole }
    requires notes { All (IsTrueNote (trees_in items.now)) notes.old.items }
    ensures whole { known.new.whole ≡ known.old.whole }
    ensures notes { OnOk result (All (IsTrueNote (trees_in items.now)) notes.new.items) }
{
    let asked = asked_by(alloc, item)?;
    for relation in &asked {
        if known.seen.insert(*relation)? && is_suspect(known, *relation) {
            let finding = finding_of_asked(known, *relation);
            add(&known.whole, items, place, finding, notes)?;
        }
    }
    Ok(())
}

/// Adds what is found of the relation that the item at a place states, if it was not looked at before.
fn add_stated<'a, A: Allocator>(
    known: &mut Known<'a>,
    items: &[Expr<A>],
    place: usize,
    relation: Relation<'a>,
    notes: &mut Vec<Note<'a>>,
) -> Result<(), AllocError>
    requires whole { IsWhole (trees_in items.now) known.old.whole }
    requires notes { All (IsTrueNote (trees_in items.now)) notes.old.items }
    ensures whole { known.new.whole ≡ known.old.whole }
    ensures notes { OnOk result (All (IsTrueNote (trees_in items.now)) notes.new.items) }
{
    if known.seen.insert(relation)? {
        let finding = finding_of_stated(relation);
        return add(&known.whole, items, place, finding, notes);
    }
    Ok(())
}

/// Adds the words of the language that no item states.
fn add_missing<'a, A: Allocator>(
    whole: &Whole<'a>,
    items: &[Expr<A>],
    notes: &mut Vec<Note<'a>>,
) -> Result<(), AllocError>
    requires whole { IsWhole (trees_in items.now) whole.now }
    requires notes { All (IsTrueNote (trees_in items.now)) notes.old.items }
    ensures { OnOk result (All (IsTrueNote (trees_in items.now)) notes.new.items) }
{
    for word in &NEEDED {
        add(whole, items, 0, Finding::Missing(*word), notes)?;
    }
    Ok(())
}

/// What is found in a list of items: of the whole first, at its first item, and then item by item. Of a relation it is found once.
pub fn findings<'a, A: Allocator>(
    alloc: Global,
    items: &'a [Expr<A>],
) -> Result<Vec<Note<'a>>, AllocError>
    ensures { IfOk result (λ notes. All (IsTrueNote (trees_in items.now)) notes.items) }
{
    let mut notes = Vec::new(alloc);
    let whole = whole_of(alloc, items)?;
    add_missing(&whole, items, &mut notes)?;
    let arities = arities_of(alloc, items)?;
    let seen = RelationSet::new(alloc);
    let mut known = Known {
        whole,
        arities,
        seen,
    };
    for (place, item) in items.iter().enumerate() {
        add_stated(&mut known, items, place, head_of(item), &mut notes)?;
        add(&known.whole, items, place, Finding::BadGoal, &mut notes)?;
        add_all_asked(alloc, &mut known, items, place, item, &mut notes)?;
    }
    Ok(notes)
}

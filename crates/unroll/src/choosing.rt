//! Of which relations it is shown that what is written of them is derived. No clause says anything of the choice: who takes it tests it.
use kif::Expr;
use rules_relations::{Relation, RelationSet, asked_by, head_of};
use std::alloc::{AllocError, Global};

/// How often all items are gone through at most. Where relations rest on each other in longer ways against the order of the items, nothing
/// is shown of them.
const PASSES: usize = 64;

/// Relations, each once, in the order in which they were added.
#[derive(Drop)]
struct Chosen<'a> {
    known: RelationSet<'a>,
    list: Vec<Relation<'a>>,
}

impl<'a> Chosen<'a> {
    /// Adds a relation, but `distinct`.
    fn add(&mut self, relation: Relation<'a>) -> Result<(), AllocError> {
        if relation.word == b"distinct".as_slice() && relation.arity == 2 {
            return Ok(());
        }
        if self.known.insert(relation)? {
            self.list.push(relation)?;
        }
        Ok(())
    }

    /// Adds what an item asks.
    fn add_asked(&mut self, alloc: Global, item: &'a Expr<Global>) -> Result<(), AllocError> {
        let asked = asked_by(alloc, item)?;
        for relation in &asked {
            self.add(*relation)?;
        }
        Ok(())
    }

    /// Goes through the items once, and adds what those ask that head one of the relations. Whether any did that had not before.
    fn add_once(
        &mut self,
        alloc: Global,
        items: &'a [Expr<Global>],
        is_done: &mut [bool],
    ) -> Result<bool, AllocError> {
        let mut is_more = false;
        for (item, done) in items.iter().zip(is_done) {
            if !*done && self.known.contains(head_of(item)) {
                *done = true;
                is_more = true;
                self.add_asked(alloc, item)?;
            }
        }
        Ok(is_more)
    }

    /// Adds all that the relations rest on.
    fn add_below(&mut self, alloc: Global, items: &'a [Expr<Global>]) -> Result<(), AllocError> {
        let mut is_done = vec![in alloc; false; items.len()]?;
        for _ in 0..PASSES {
            if !self.add_once(alloc, items, &mut is_done)? {
                break;
            }
        }
        Ok(())
    }
}

/// The relations that are fixed and rest on themselves, and all that they rest on. The marks say of each item whether its relation is one
/// of the first.
pub(crate) fn own_relations<'a>(
    alloc: Global,
    items: &'a [Expr<Global>],
    circles: &[bool],
) -> Result<Vec<Relation<'a>>, AllocError> {
    let mut chosen = Chosen {
        known: RelationSet::new(alloc),
        list: Vec::new(alloc),
    };
    for (item, is_circle) in items.iter().zip(circles) {
        if *is_circle {
            chosen.add(head_of(item))?;
        }
    }
    chosen.add_below(alloc, items)?;
    Ok(chosen.list)
}

/// Relations and `role`, and all that they rest on in what is written.
pub(crate) fn relations_below<'a>(
    alloc: Global,
    written: &'a [Expr<Global>],
    own: &[Relation<'a>],
) -> Result<RelationSet<'a>, AllocError> {
    let mut chosen = Chosen {
        known: RelationSet::new(alloc),
        list: Vec::new(alloc),
    };
    chosen.add(Relation {
        word: b"role",
        arity: 1,
    })?;
    for relation in own {
        chosen.add(*relation)?;
    }
    chosen.add_below(alloc, written)?;
    Ok(chosen.known)
}

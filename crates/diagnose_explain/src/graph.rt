//! What leads to what, by numbers, and the shortest way. No clause says anything of it: who takes a way tests it.
use indexmap::IndexSet;
use kif::Expr;
use rules_relations::{Relation, asked_by, head_of, is_same};
use std::alloc::{AllocError, Allocator, Global};

/// The relations of items by number, the relations that each item asks, and the items that head each relation.
#[derive(Drop)]
pub(crate) struct Graph<'a> {
    relations: IndexSet<Relation<'a>>,
    asked: Vec<Vec<usize>>,
    heading: Vec<Vec<usize>>,
}

/// A relation that was come to: the place of the item that asks it, if it is known, and the link of the relation that this item heads.
#[derive(Clone, Copy)]
struct Link {
    relation: usize,
    place: Option<usize>,
    before: Option<usize>,
}

/// Relations in a row, and for each the place of an item that leads to it, if one is known.
#[derive(Drop)]
pub(crate) struct Trail<'a> {
    pub(crate) steps: Vec<Relation<'a>>,
    pub(crate) places: Vec<usize>,
}

/// The relations that were come to, in the order in which they were, and which they are.
#[derive(Drop)]
struct Found {
    links: Vec<Link>,
    is_known: Vec<bool>,
}

impl<'a> Graph<'a> {
    /// The number of a relation.
    fn number(&mut self, alloc: Global, relation: Relation<'a>) -> Result<usize, AllocError> {
        let (number, is_new) = self.relations.insert_full(relation)?;
        if is_new {
            self.heading.push(Vec::new(alloc))?;
        }
        Ok(number)
    }

    /// The numbers of the relations that an item asks.
    fn numbers_asked<A: Allocator>(
        &mut self,
        alloc: Global,
        item: &'a Expr<A>,
    ) -> Result<Vec<usize>, AllocError> {
        let asked = asked_by(alloc, item)?;
        let mut numbers = Vec::with_capacity(alloc, asked.len())?;
        for relation in &asked {
            let number = self.number(alloc, *relation)?;
            numbers.push(number)?;
        }
        Ok(numbers)
    }

    /// Adds an item.
    fn add<A: Allocator>(
        &mut self,
        alloc: Global,
        place: usize,
        item: &'a Expr<A>,
    ) -> Result<(), AllocError> {
        let head = self.number(alloc, head_of(item))?;
        if let Some(places) = self.heading.get_mut(head) {
            places.push(place)?;
        }
        let numbers = self.numbers_asked(alloc, item)?;
        self.asked.push(numbers)?;
        Ok(())
    }

    /// What leads to what in items.
    fn of<A: Allocator>(alloc: Global, items: &'a [Expr<A>]) -> Result<Self, AllocError> {
        let mut graph = Graph {
            relations: IndexSet::new(alloc),
            asked: Vec::new(alloc),
            heading: Vec::new(alloc),
        };
        for (place, item) in items.iter().enumerate() {
            graph.add(alloc, place, item)?;
        }
        Ok(graph)
    }

    /// Whether a link is of one of some relations.
    fn is_target(&self, link: &Link, targets: &[Relation]) -> bool {
        match self.relations.as_slice().get(link.relation) {
            Some(relation) => {
                targets
                    .iter()
                    .any(|target| is_same(relation.word, relation.arity, target))
            }
            None => false,
        }
    }

    /// The relations on the way to a link, and the places of the items that lead there.
    fn trail(&self, alloc: Global, links: &[Link], end: usize) -> Result<Trail<'a>, AllocError> {
        let mut steps = Vec::new(alloc);
        let mut places = Vec::new(alloc);
        let mut next = Some(end);
        for _ in 0..links.len() {
            let Some(link) = next.and_then(|at| links.get(at)) else {
                break;
            };
            if let Some(relation) = self.relations.as_slice().get(link.relation) {
                steps.push(*relation)?;
                places.push(link.place.unwrap_or(usize::MAX))?;
            }
            next = link.before;
        }
        steps.reverse();
        places.reverse();
        Ok(Trail { steps, places })
    }

    /// Adds what the items ask that head the relation of a link.
    fn add_next(&self, found: &mut Found, at: usize) -> Result<(), AllocError> {
        let Some(link) = found.links.get(at).copied() else {
            return Ok(());
        };
        let Some(places) = self.heading.get(link.relation) else {
            return Ok(());
        };
        for place in places {
            if let Some(numbers) = self.asked.get(*place) {
                found.add(numbers, Some(*place), Some(at))?;
            }
        }
        Ok(())
    }
}

impl Found {
    /// Adds relations that are not there yet.
    fn add(
        &mut self,
        numbers: &[usize],
        place: Option<usize>,
        before: Option<usize>,
    ) -> Result<(), AllocError> {
        for number in numbers {
            let is_known = self.is_known.get(*number).copied().unwrap_or(true);
            if is_known {
                continue;
            }
            if let Some(mark) = self.is_known.get_mut(*number) {
                *mark = true;
            }
            self.links.push(Link {
                relation: *number,
                place,
                before,
            })?;
        }
        Ok(())
    }
}

/// The relations on a shortest way from what an item asks to one of some relations, if there is one.
pub(crate) fn shortest<'a, A: Allocator>(
    alloc: Global,
    items: &'a [Expr<A>],
    item: &'a Expr<A>,
    targets: &[Relation],
) -> Result<Option<Trail<'a>>, AllocError> {
    let mut graph = Graph::of(alloc, items)?;
    let first = graph.numbers_asked(alloc, item)?;
    let is_known = vec![in alloc; false; graph.heading.len()]?;
    let mut found = Found {
        links: Vec::new(alloc),
        is_known,
    };
    found.add(&first, None, None)?;
    for at in 0..usize::MAX {
        let Some(link) = found.links.get(at) else {
            break;
        };
        if graph.is_target(link, targets) {
            return Ok(Some(graph.trail(alloc, &found.links, at)?));
        }
        graph.add_next(&mut found, at)?;
    }
    Ok(None)
}

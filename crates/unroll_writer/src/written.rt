//! A description written out without recursion, with `base` and `input`.
use crate::bad::first_bad;
use crate::emitted::{LayerNames, write_layers};
use crate::groups::{Shared, write_base, write_input};
use crate::kinds::{Described, Kinds, complete_fixed, described_items, relations_in};
use crate::layer_counts::count_layers;
use crate::layers::{Layers, layers_by_items};
use crate::relaxed::{may_be_items, relaxed_rules};
use crate::rows::write_facts;
use crate::writer::Writer;
use kif::Expr;
use rules_profile::split_item;
use rules_relations::split_atom;
use std::alloc::{AllocError, Global};
use unroll_datalog::{Book, LimitFault, Rule, clauses_of, is_marked};

/// Whether what is stated of `base` and `input` stays as it is, or is cut to what may be true and done.
#[derive(Clone, Copy, Debug, PartialEq, Eq)]
pub enum Bounds {
    AsStated,
    Tightened,
}

/// What is written of `base` and `input`: whether the items state any, and whether they are written anew.
#[derive(Clone, Copy)]
struct Ranges {
    has_base: bool,
    has_input: bool,
    writes_base: bool,
    writes_input: bool,
}

/// Whether some rule states a relation.
fn is_stated(rules: &[Rule], relation: u32) -> bool {
    rules.iter().any(|rule| rule.target.relation == relation)
}

/// What is written of `base` and `input`.
fn ranges_of(book: &mut Book, rules: &[Rule], bounds: Bounds) -> Result<Ranges, AllocError> {
    let base = book.relation(b"base", 1)?;
    let input = book.relation(b"input", 2)?;
    let has_base = is_stated(rules, base);
    let has_input = is_stated(rules, input);
    let is_tight = bounds == Bounds::Tightened;
    Ok(Ranges {
        has_base,
        has_input,
        writes_base: is_tight || !has_base,
        writes_input: is_tight || !has_input,
    })
}

/// Whether the items of a relation are left out, as it is written in another way.
fn is_replaced(
    book: &mut Book,
    kinds: &Kinds,
    ranges: Ranges,
    relation: u32,
) -> Result<bool, AllocError> {
    if is_marked(&kinds.is_recursive, relation) {
        return Ok(true);
    }
    if ranges.writes_base && relation == book.relation(b"base", 1)? {
        return Ok(true);
    }
    Ok(ranges.writes_input && relation == book.relation(b"input", 2)?)
}

/// Adds the items of relations that stay as they are.
fn write_kept(
    book: &mut Book,
    writer: &mut Writer,
    items: &[Expr<Global>],
    kinds: &Kinds,
    ranges: Ranges,
) -> Result<(), LimitFault> {
    for item in items {
        let (head, _) = split_item(item);
        let (word, terms) = split_atom(head);
        let relation = book.relation(word, terms.len())?;
        if !is_replaced(book, kinds, ranges, relation)? {
            writer.add_expr(item)?;
            writer.end_item()?;
        }
    }
    Ok(())
}

/// Adds the facts of relations that rest on themselves, and neither on the state nor on moves.
fn write_fixed(
    book: &mut Book,
    writer: &mut Writer,
    kinds: &Kinds,
    ranges: Ranges,
) -> Result<(), LimitFault> {
    let many = util_interner::in_32_bits(kinds.component.len())?;
    for relation in 0..many {
        if !is_marked(&kinds.is_recursive, relation) || is_marked(&kinds.is_moving, relation) {
            continue;
        }
        if ranges.writes_base && relation == book.relation(b"base", 1)? {
            continue;
        }
        if ranges.writes_input && relation == book.relation(b"input", 2)? {
            continue;
        }
        write_facts(book, writer, relation)?;
    }
    Ok(())
}

/// Whether some relation of a component rests on itself and on the state.
fn is_layered(book: &Book, kinds: &Kinds, component: u32) -> Result<bool, AllocError> {
    for relation in &relations_in(book, kinds, component)? {
        if is_marked(&kinds.is_recursive, *relation) && is_marked(&kinds.is_moving, *relation) {
            return Ok(true);
        }
    }
    Ok(false)
}

/// The components that are written as layers.
fn layered(book: &Book, kinds: &Kinds) -> Result<Vec<u32>, AllocError> {
    let mut layered = Vec::new(book.alloc);
    for component in 1..=kinds.greatest {
        if is_layered(book, kinds, component)? {
            layered.push(component)?;
        }
    }
    Ok(layered)
}

/// Adds the layers of components, and `base` and `input`, by what may hold. It tells the names of the layers.
fn write_moving(
    book: &mut Book,
    writer: &mut Writer,
    described: &Described,
    ranges: Ranges,
    layered: &[u32],
) -> Result<Vec<LayerNames>, LimitFault> {
    let may_be = may_be_items(book.alloc, ranges.has_base, ranges.has_input)?;
    let mut relaxed = relaxed_rules(book, &described.rules, &described.kinds)?;
    for rule in book.rules(&clauses_of(book.alloc, &may_be)?)? {
        relaxed.push(rule)?;
    }
    book.complete(&relaxed, &described.kinds.is_moving)?;
    let mut names = Vec::new(book.alloc);
    for component in layered {
        let most = count_layers(book, &relaxed, &described.kinds, *component)?;
        names.push(write_layers(book, writer, described, *component, most)?)?;
    }
    let mut shared = Shared::new(book.alloc);
    if ranges.writes_base {
        write_base(book, writer, &mut shared)?;
    }
    if ranges.writes_input {
        write_input(book, writer, &mut shared)?;
    }
    Ok(names)
}

/// The items written out, and the names of what is written as layers.
#[derive(Drop)]
struct All {
    text: Vec<u8>,
    names: Vec<LayerNames>,
}

/// The items written out.
fn write_all(
    book: &mut Book,
    described: &Described,
    items: &[Expr<Global>],
    bounds: Bounds,
) -> Result<All, LimitFault> {
    let ranges = ranges_of(book, &described.rules, bounds)?;
    let mut writer = Writer::new(book.alloc);
    complete_fixed(book, &described.rules, &described.kinds)?;
    write_kept(book, &mut writer, items, &described.kinds, ranges)?;
    write_fixed(book, &mut writer, &described.kinds, ranges)?;
    let layered = layered(book, &described.kinds)?;
    let mut names = Vec::new(book.alloc);
    if ranges.writes_base || ranges.writes_input || !layered.is_empty() {
        names = write_moving(book, &mut writer, described, ranges, &layered)?;
    }
    Ok(All {
        text: writer.into_text(),
        names,
    })
}

/// What is written of items, and the relations that are written as layers.
#[derive(Drop)]
pub struct Written {
    pub text: Vec<u8>,
    pub layers: Vec<Layers>,
}

/// Items by number.
#[derive(Drop)]
pub struct Draft<'a> {
    items: &'a [Expr<Global>],
    book: Book,
    described: Described<'a>,
}

impl<'a> Draft<'a> {
    /// Items by number.
    pub fn new(alloc: Global, items: &'a [Expr<Global>]) -> Result<Self, LimitFault> {
        let mut book = Book::new(alloc);
        let described = described_items(&mut book, items)?;
        Ok(Draft {
            items,
            book,
            described,
        })
    }

    /// The number, from 1, of the first item of which the body rests on what the head may not rest on.
    pub fn first_bad(&mut self) -> Result<Option<usize>, AllocError> {
        first_bad(&mut self.book, &self.described)
    }

    /// Of each item whether the relation that it heads rests on itself, and neither on the state nor on moves.
    pub fn fixed_circles(&mut self) -> Result<Vec<bool>, AllocError> {
        let heads = self.heads()?;
        let kinds = &self.described.kinds;
        let mut circles = Vec::new(self.book.alloc);
        for relation in &heads {
            let is_fixed = !is_marked(&kinds.is_moving, *relation);
            circles.push(is_fixed && is_marked(&kinds.is_recursive, *relation))?;
        }
        Ok(circles)
    }

    /// Of each item the relation that it heads, by number.
    fn heads(&mut self) -> Result<Vec<u32>, AllocError> {
        let mut heads = Vec::new(self.book.alloc);
        for item in self.items {
            let (head, _) = split_item(item);
            let (word, terms) = split_atom(head);
            heads.push(self.book.relation(word, terms.len())?)?;
        }
        Ok(heads)
    }

    /// The items written out without recursion, with `base` and `input`.
    pub fn written(&mut self, bounds: Bounds) -> Result<Written, LimitFault> {
        let all = write_all(&mut self.book, &self.described, self.items, bounds)?;
        let heads = self.heads()?;
        let mut layers = Vec::new(self.book.alloc);
        for names in &all.names {
            layers.push(layers_by_items(self.book.alloc, names, &heads)?)?;
        }
        Ok(Written {
            text: all.text,
            layers,
        })
    }
}

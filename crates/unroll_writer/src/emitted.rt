//! The layers of a relation as items.
use crate::kinds::{Described, Kinds, relations_in};
use crate::layer_counts::{is_inner, is_linear};
use crate::rows::fresh_numbered;
use crate::writer::Writer;
use std::alloc::AllocError;
use unroll_datalog::{Book, Clause, LimitFault, Said};

/// The names of the layers of a component: for each layer, those of its relations.
#[derive(Drop)]
pub(crate) struct LayerNames {
    pub(crate) relations: Vec<u32>,
    names: Vec<Vec<u8>>,
    pub(crate) layers: u32,
    pub(crate) is_linear: bool,
}

/// A component, and whether each of its rules names it at most once.
#[derive(Clone, Copy)]
struct Layering {
    component: u32,
    layers: u32,
    is_linear: bool,
}

impl LayerNames {
    /// The name of a relation in a layer, which are numbered from 1.
    pub(crate) fn get(&self, relation: u32, layer: u32) -> &[u8] {
        let Some(place) = self.relations.iter().position(|other| *other == relation) else {
            return b"";
        };
        let before = (layer.saturating_sub(1) as usize).saturating_mul(self.relations.len());
        match self.names.get(before.saturating_add(place)) {
            Some(name) => name,
            None => b"",
        }
    }
}

/// New names for the layers of a component.
fn layer_names(
    book: &mut Book,
    kinds: &Kinds,
    layering: Layering,
) -> Result<LayerNames, LimitFault> {
    let relations = relations_in(book, kinds, layering.component)?;
    let mut names: Vec<Vec<u8>> = Vec::new(book.alloc);
    for layer in 1..=layering.layers {
        for relation in &relations {
            let mut base = Vec::new(book.alloc);
            base.extend_from_slice(book.relation_name(*relation))?;
            names.push(fresh_numbered(book, &base, layer)?)?;
        }
    }
    Ok(LayerNames {
        relations,
        names,
        layers: layering.layers,
        is_linear: layering.is_linear,
    })
}

/// Adds a literal, where atoms of the component are those of a layer.
fn add_said(
    book: &mut Book,
    writer: &mut Writer,
    said: Said,
    names: &LayerNames,
    layer: u32,
) -> Result<(), AllocError> {
    let (word, terms) = rules_relations::split_atom(said.atom);
    let relation = book.relation(word, terms.len())?;
    let name = names.get(relation, layer);
    writer.add(if said.is_negated { b" (not " } else { b" " })?;
    if name.is_empty() {
        writer.add_expr(said.atom)?;
    } else {
        writer.add_renamed(said.atom, name)?;
    }
    writer.add(if said.is_negated { b")" } else { b"" })
}

/// Adds an alternative as the item of a layer.
fn write_layer_rule(
    book: &mut Book,
    writer: &mut Writer,
    clause: &Clause,
    relation: u32,
    names: &LayerNames,
    layer: u32,
) -> Result<(), LimitFault> {
    let name = names.get(relation, layer);
    if clause.way.is_empty() {
        writer.add_renamed(clause.head, name)?;
        return writer.end_item();
    }
    writer.add(b"(<= ")?;
    writer.add_renamed(clause.head, name)?;
    for said in &clause.way {
        add_said(book, writer, *said, names, layer.saturating_sub(1))?;
    }
    writer.add(b")")?;
    writer.end_item()
}

/// Adds the items of a layer: the alternatives that do not name the component in the first, and the others in those behind it.
fn write_layer(
    book: &mut Book,
    writer: &mut Writer,
    described: &Described,
    layering: Layering,
    names: &LayerNames,
    layer: u32,
) -> Result<(), LimitFault> {
    let kinds = &described.kinds;
    for (place, rule) in described.rules.iter().enumerate() {
        if !kinds.is_in(rule.target.relation, layering.component) {
            continue;
        }
        if is_inner(rule, kinds, layering.component) == (layer > 1) {
            if let Some(clause) = described.clauses.get(place) {
                write_layer_rule(book, writer, clause, rule.target.relation, names, layer)?;
            }
        }
    }
    if layering.is_linear || layer == 1 {
        return Ok(());
    }
    for relation in &names.relations {
        let name = names.get(*relation, layer);
        let before = names.get(*relation, layer.saturating_sub(1));
        write_copy(writer, name, before, book.arity(*relation))?;
    }
    Ok(())
}

/// Adds the items by which a relation holds where it does in some layer.
fn write_tops(
    book: &mut Book,
    writer: &mut Writer,
    layering: Layering,
    names: &LayerNames,
) -> Result<(), LimitFault> {
    for relation in &names.relations {
        for layer in 1..=layering.layers {
            let own = book.relation_name(*relation);
            let name = names.get(*relation, layer);
            write_copy(writer, own, name, book.arity(*relation))?;
        }
    }
    Ok(())
}

/// How a component is written, of which ways through different atoms pass at most so many. There is one layer more than such a way needs, so
/// that what is written shows that no longer one is missed.
fn layering_of(described: &Described, component: u32, most: u32) -> Layering {
    Layering {
        component,
        layers: most.saturating_add(1),
        is_linear: is_linear(&described.rules, &described.kinds, component),
    }
}

/// Adds all layers of a component, of which ways through different atoms pass at most so many.
pub(crate) fn write_layers(
    book: &mut Book,
    writer: &mut Writer,
    described: &Described,
    component: u32,
    most: u32,
) -> Result<LayerNames, LimitFault> {
    let layering = layering_of(described, component, most);
    let names = layer_names(book, &described.kinds, layering)?;
    for layer in 1..=layering.layers {
        write_layer(book, writer, described, layering, &names, layer)?;
    }
    write_tops(book, writer, layering, &names)?;
    Ok(names)
}

/// Adds an item by which a relation holds where another does.
fn write_copy(
    writer: &mut Writer,
    name: &[u8],
    other: &[u8],
    arity: u32,
) -> Result<(), LimitFault> {
    writer.add(b"(<= ")?;
    writer.add_open_atom(name, b'x', arity)?;
    writer.add(b" ")?;
    writer.add_open_atom(other, b'x', arity)?;
    writer.add(b")")?;
    writer.end_item()
}

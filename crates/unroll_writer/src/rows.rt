//! Facts as items: one for each, or many to an item.
use crate::writer::{Writer, add_number};
use std::alloc::{AllocError, Global};
use unroll_datalog::{Book, Excess, LimitFault};
use util_interner::in_32_bits;

/// Up to how many facts of a relation have an item each.
const SINGLE_LIMIT: usize = 400;

/// How many facts an item has where there are more.
const PACK: u32 = 32;

/// The names by which packed facts are spread out again.
#[derive(Drop)]
struct Packing {
    row: Vec<u8>,
    one: Vec<u8>,
    wrap: Vec<u8>,
}

/// Two names joined.
fn joined(alloc: Global, front: &[u8], back: &[u8]) -> Result<Vec<u8>, AllocError> {
    let mut name = Vec::new(alloc);
    name.extend_from_slice(front)?;
    name.extend_from_slice(back)?;
    Ok(name)
}

/// A name that the text does not have, with this beginning.
pub(crate) fn fresh(book: &mut Book, base: &[u8]) -> Result<Vec<u8>, LimitFault> {
    let mut name = joined(book.alloc, base, b"")?;
    let known = book.symbols.len();
    let many = in_32_bits(known)?;
    for number in 0..=many {
        if book.symbols.intern(&name)? >= known {
            return Ok(name);
        }
        name = joined(book.alloc, base, b"_")?;
        add_number(&mut name, number)?;
    }
    Err(LimitFault::TooMany(Excess::Text))
}

/// A name with this beginning and end that the text does not have.
pub(crate) fn fresh_with(book: &mut Book, base: &[u8], end: &[u8]) -> Result<Vec<u8>, LimitFault> {
    let name = joined(book.alloc, base, end)?;
    fresh(book, &name)
}

/// A name with this beginning, two low lines and a number that the text does not have.
pub(crate) fn fresh_numbered(
    book: &mut Book,
    base: &[u8],
    number: u32,
) -> Result<Vec<u8>, LimitFault> {
    let mut name = joined(book.alloc, base, b"__")?;
    add_number(&mut name, number)?;
    fresh(book, &name)
}

/// Adds a space and the text of each term.
pub(crate) fn add_texts(book: &Book, writer: &mut Writer, terms: &[u32]) -> Result<(), AllocError> {
    for term in terms {
        writer.add(b" ")?;
        writer.add(book.terms.text(*term))?;
    }
    Ok(())
}

/// Adds a fact as an item.
pub(crate) fn write_fact(
    book: &Book,
    writer: &mut Writer,
    name: &[u8],
    terms: &[u32],
) -> Result<(), LimitFault> {
    if terms.is_empty() {
        writer.add(name)?;
        return writer.end_item();
    }
    writer.add(b"(")?;
    writer.add(name)?;
    add_texts(book, writer, terms)?;
    writer.add(b")")?;
    writer.end_item()
}

/// The terms of all facts of a relation, one after the other.
pub(crate) fn rows_of(book: &Book, relation: u32) -> Result<Vec<u32>, AllocError> {
    let mut rows = Vec::new(book.alloc);
    for fact in 0..book.facts.len() {
        if book.facts.relation(fact) == relation {
            rows.extend_from_slice(book.facts.terms(fact))?;
        }
    }
    Ok(rows)
}

/// Whether a relation has a fact.
pub(crate) fn has_fact(book: &Book, relation: u32) -> bool {
    for fact in 0..book.facts.len() {
        if book.facts.relation(fact) == relation {
            return true;
        }
    }
    false
}

/// Adds all facts of a relation as items.
pub(crate) fn write_facts(
    book: &mut Book,
    writer: &mut Writer,
    relation: u32,
) -> Result<(), LimitFault> {
    let mut name = Vec::new(book.alloc);
    name.extend_from_slice(book.relation_name(relation))?;
    let arity = book.arity(relation);
    if arity == 0 {
        if has_fact(book, relation) {
            write_fact(book, writer, &name, &[])?;
        }
        return Ok(());
    }
    let rows = rows_of(book, relation)?;
    write_rows(book, writer, &name, &rows, arity)
}

/// Adds rows as the facts of a relation: an item for each, or packed where there are many.
pub(crate) fn write_rows(
    book: &mut Book,
    writer: &mut Writer,
    name: &[u8],
    rows: &[u32],
    arity: u32,
) -> Result<(), LimitFault> {
    let width = arity as usize;
    if width == 0 {
        return Ok(());
    }
    if rows.len() / width <= SINGLE_LIMIT {
        for row in rows.chunks(width) {
            write_fact(book, writer, name, row)?;
        }
        return Ok(());
    }
    let packing = Packing {
        row: fresh_with(book, name, b"__row")?,
        one: fresh_with(book, name, b"__one")?,
        wrap: fresh(book, b"t")?,
    };
    write_packs(book, writer, &packing, rows, width)?;
    write_unpacking(writer, &packing, name, arity)
}

/// Adds a row as one term.
fn add_wrapped(
    book: &Book,
    writer: &mut Writer,
    packing: &Packing,
    row: &[u32],
) -> Result<(), LimitFault> {
    if row.len() == 1 {
        add_texts(book, writer, row)?;
        return Ok(());
    }
    writer.add(b" (")?;
    writer.add(&packing.wrap)?;
    add_texts(book, writer, row)?;
    writer.add(b")")?;
    Ok(())
}

/// Adds an item of so many rows, the last of which stands again for each that is missing.
fn write_pack(
    book: &Book,
    writer: &mut Writer,
    packing: &Packing,
    rows: &[u32],
    width: usize,
) -> Result<(), LimitFault> {
    writer.add(b"(")?;
    writer.add(&packing.row)?;
    let mut last: &[u32] = &[];
    let mut many = 0u32;
    if width > 0 {
        for row in rows.chunks(width) {
            add_wrapped(book, writer, packing, row)?;
            last = row;
            many = many.saturating_add(1);
        }
    }
    for _ in many..PACK {
        add_wrapped(book, writer, packing, last)?;
    }
    writer.add(b")")?;
    writer.end_item()
}

/// Adds all rows, so many to an item.
fn write_packs(
    book: &Book,
    writer: &mut Writer,
    packing: &Packing,
    rows: &[u32],
    width: usize,
) -> Result<(), LimitFault> {
    let many = width.saturating_mul(PACK as usize);
    if many == 0 {
        return Ok(());
    }
    for pack in rows.chunks(many) {
        write_pack(book, writer, packing, pack, width)?;
    }
    Ok(())
}

/// Adds the items by which packed facts are spread out.
fn write_unpacking(
    writer: &mut Writer,
    packing: &Packing,
    name: &[u8],
    arity: u32,
) -> Result<(), LimitFault> {
    for number in 0..PACK {
        writer.add(b"(<= (")?;
        writer.add(&packing.one)?;
        writer.add(b" ")?;
        writer.add_variable(b'v', number)?;
        writer.add(b") ")?;
        writer.add_open_atom(&packing.row, b'v', PACK)?;
        writer.add(b")")?;
        writer.end_item()?;
    }
    writer.add(b"(<= ")?;
    writer.add_open_atom(name, b'x', arity)?;
    writer.add(b" (")?;
    writer.add(&packing.one)?;
    if arity == 1 {
        writer.add_variables(b'x', 1)?;
    } else {
        writer.add(b" ")?;
        writer.add_open_atom(&packing.wrap, b'x', arity)?;
    }
    writer.add(b"))")?;
    writer.end_item()
}

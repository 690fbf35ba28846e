//! What may be true or done as items: the terms of one name together, by what each place of them may be where that says the same.
use crate::rows::{add_texts, fresh_numbered, fresh_with, rows_of, write_rows};
use crate::writer::Writer;
use std::alloc::{AllocError, Global};
use unroll_datalog::{Book, LimitFault, Numbered, at, tail_of};

/// Up to how many terms of one name have an item each.
const FEW: usize = 6;

/// Lists of terms that already have a relation, and the names of those relations.
#[derive(Drop)]
pub(crate) struct Shared {
    domains: Numbered,
    domain_names: Vec<Vec<u8>>,
    tables: Numbered,
    table_names: Vec<Vec<u8>>,
}

impl Shared {
    /// None yet.
    pub(crate) fn new(alloc: Global) -> Self {
        Shared {
            domains: Numbered::new(alloc),
            domain_names: Vec::new(alloc),
            tables: Numbered::new(alloc),
            table_names: Vec::new(alloc),
        }
    }
}

/// What stands before a term: the name of a relation, and a role if there is one.
#[derive(Clone, Copy)]
pub(crate) struct Front<'a> {
    name: &'a [u8],
    role: &'a [u32],
}

/// A copy of bytes.
fn copied(alloc: Global, bytes: &[u8]) -> Result<Vec<u8>, AllocError> {
    let mut copy = Vec::new(alloc);
    copy.extend_from_slice(bytes)?;
    Ok(copy)
}

/// A name by its number.
fn name_at(alloc: Global, names: &[Vec<u8>], number: u32) -> Result<Vec<u8>, AllocError> {
    match names.get(number as usize) {
        Some(name) => copied(alloc, name),
        None => Ok(Vec::new(alloc)),
    }
}

/// The different terms at a place of rows, sorted.
fn domain_at(
    alloc: Global,
    rows: &[u32],
    width: usize,
    place: usize,
) -> Result<Vec<u32>, AllocError> {
    let mut domain = Vec::new(alloc);
    if width == 0 {
        return Ok(domain);
    }
    for row in rows.chunks(width) {
        if let Some(term) = row.get(place) {
            domain.push(*term)?;
        }
    }
    domain.sort_unstable();
    domain.dedup();
    Ok(domain)
}

/// The terms in groups: those of one name with so many terms behind it.
fn groups_of(book: &Book, terms: &[u32]) -> Result<Vec<Vec<u32>>, AllocError> {
    let mut names = Numbered::new(book.alloc);
    let mut groups: Vec<Vec<u32>> = Vec::new(book.alloc);
    for term in terms {
        let key = book.terms.key(*term);
        let arity = util_interner::in_32_bits(key.len())?;
        let number = names.number(&[at(key, 0), at(key, 1), arity])? as usize;
        if number >= groups.len() {
            groups.push(Vec::new(book.alloc))?;
        }
        if number < groups.len() {
            groups[number].push(*term)?;
        }
    }
    Ok(groups)
}

/// The terms behind the names of terms, one after the other.
fn tails_of(book: &Book, group: &[u32]) -> Result<Vec<u32>, AllocError> {
    let mut rows = Vec::new(book.alloc);
    for term in group {
        rows.extend_from_slice(tail_of(book.terms.key(*term)))?;
    }
    Ok(rows)
}

/// What each place of rows may be.
fn domains_of(book: &Book, rows: &[u32], width: usize) -> Result<Vec<Vec<u32>>, AllocError> {
    let mut domains = Vec::new(book.alloc);
    for place in 0..width {
        domains.push(domain_at(book.alloc, rows, width, place)?)?;
    }
    Ok(domains)
}

/// The name of a relation that holds of these terms.
fn domain_name(
    book: &mut Book,
    writer: &mut Writer,
    shared: &mut Shared,
    domain: &[u32],
) -> Result<Vec<u8>, LimitFault> {
    let number = shared.domains.number(domain)?;
    if (number as usize) < shared.domain_names.len() {
        return Ok(name_at(book.alloc, &shared.domain_names, number)?);
    }
    let name = fresh_numbered(book, b"dom", number.saturating_add(1))?;
    write_rows(book, writer, &name, domain, 1)?;
    shared.domain_names.push(copied(book.alloc, &name)?)?;
    Ok(name)
}

/// The name of a relation that holds of these rows, which are the terms behind a name.
fn table_name(
    book: &mut Book,
    writer: &mut Writer,
    shared: &mut Shared,
    word: &[u8],
    rows: &[u32],
    arity: u32,
) -> Result<Vec<u8>, LimitFault> {
    let number = shared.tables.number(rows)?;
    if (number as usize) < shared.table_names.len() {
        return Ok(name_at(book.alloc, &shared.table_names, number)?);
    }
    let name = fresh_with(book, word, b"__args")?;
    write_rows(book, writer, &name, rows, arity)?;
    shared.table_names.push(copied(book.alloc, &name)?)?;
    Ok(name)
}

/// Adds the head of an item: a name, the role if any, and a term of variables.
fn add_group_head(
    book: &Book,
    writer: &mut Writer,
    front: Front,
    word: &[u8],
    arity: u32,
) -> Result<(), AllocError> {
    writer.add(b"(<= (")?;
    writer.add(front.name)?;
    add_texts(book, writer, front.role)?;
    writer.add(b" ")?;
    writer.add_open_atom(word, b'v', arity)?;
    writer.add(b")")
}

/// Adds the terms of one name as an item over what each place may be.
fn write_product(
    book: &mut Book,
    writer: &mut Writer,
    shared: &mut Shared,
    front: Front,
    word: &[u8],
    domains: &[Vec<u32>],
) -> Result<(), LimitFault> {
    let mut names: Vec<Vec<u8>> = Vec::new(book.alloc);
    for domain in domains {
        names.push(domain_name(book, writer, shared, domain)?)?;
    }
    let arity = util_interner::in_32_bits(domains.len())?;
    add_group_head(book, writer, front, word, arity)?;
    for (place, name) in names.iter().enumerate() {
        writer.add(b" (")?;
        writer.add(name)?;
        writer.add(b" ")?;
        writer.add_variable(b'v', util_interner::in_32_bits(place)?)?;
        writer.add(b")")?;
    }
    writer.add(b")")?;
    writer.end_item()
}

/// Adds the terms of one name as an item over a relation that holds of their rows.
fn write_table(
    book: &mut Book,
    writer: &mut Writer,
    shared: &mut Shared,
    front: Front,
    word: &[u8],
    rows: &[u32],
    arity: u32,
) -> Result<(), LimitFault> {
    let name = table_name(book, writer, shared, word, rows, arity)?;
    add_group_head(book, writer, front, word, arity)?;
    writer.add(b" ")?;
    writer.add_open_atom(&name, b'v', arity)?;
    writer.add(b")")?;
    writer.end_item()
}

/// Adds a fact for each term of a group.
fn write_few(
    book: &Book,
    writer: &mut Writer,
    front: Front,
    group: &[u32],
) -> Result<(), LimitFault> {
    for term in group {
        writer.add(b"(")?;
        writer.add(front.name)?;
        add_texts(book, writer, front.role)?;
        add_texts(book, writer, &[*term])?;
        writer.add(b")")?;
        writer.end_item()?;
    }
    Ok(())
}

/// Adds the terms of one name.
fn write_group(
    book: &mut Book,
    writer: &mut Writer,
    shared: &mut Shared,
    front: Front,
    group: &[u32],
) -> Result<(), LimitFault> {
    let Some(first) = group.first() else {
        return Ok(());
    };
    let key = book.terms.key(*first);
    let symbol = at(key, 0);
    let width = tail_of(key).len();
    if width == 0 || group.len() <= FEW {
        return write_few(book, writer, front, group);
    }
    let word = copied(book.alloc, book.name(symbol))?;
    let rows = tails_of(book, group)?;
    let domains = domains_of(book, &rows, width)?;
    let mut size = 1usize;
    for domain in &domains {
        size = size.saturating_mul(domain.len());
    }
    if size == group.len() {
        return write_product(book, writer, shared, front, &word, &domains);
    }
    let arity = util_interner::in_32_bits(width)?;
    write_table(book, writer, shared, front, &word, &rows, arity)
}

/// Adds items by which a relation holds of each of the terms, behind a role if there is one.
pub(crate) fn write_terms(
    book: &mut Book,
    writer: &mut Writer,
    shared: &mut Shared,
    front: Front,
    terms: &[u32],
) -> Result<(), LimitFault> {
    let groups = groups_of(book, terms)?;
    for group in &groups {
        write_group(book, writer, shared, front, group)?;
    }
    Ok(())
}

/// Adds what may be true as `base`.
pub(crate) fn write_base(
    book: &mut Book,
    writer: &mut Writer,
    shared: &mut Shared,
) -> Result<(), LimitFault> {
    let relation = book.relation(b"true", 1)?;
    let terms = rows_of(book, relation)?;
    let front = Front {
        name: b"base",
        role: &[],
    };
    write_terms(book, writer, shared, front, &terms)
}

/// The moves that a role may make.
fn moves_of(book: &Book, does: u32, role: u32) -> Result<Vec<u32>, AllocError> {
    let mut moves = Vec::new(book.alloc);
    for fact in 0..book.facts.len() {
        let terms = book.facts.terms(fact);
        if book.facts.relation(fact) == does && at(terms, 0) == role {
            moves.push(at(terms, 1))?;
        }
    }
    Ok(moves)
}

/// Adds what may be done as `input`.
pub(crate) fn write_input(
    book: &mut Book,
    writer: &mut Writer,
    shared: &mut Shared,
) -> Result<(), LimitFault> {
    let does = book.relation(b"does", 2)?;
    let role = book.relation(b"role", 1)?;
    let roles = rows_of(book, role)?;
    for role in &roles {
        let moves = moves_of(book, does, *role)?;
        let named = [*role];
        let front = Front {
            name: b"input",
            role: &named,
        };
        write_terms(book, writer, shared, front, &moves)?;
    }
    Ok(())
}

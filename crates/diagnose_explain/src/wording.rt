//! The parts of a notice to a person: its first line with a place and a fault, and lines that say why.
use crate::spots::Spot;
use kif::Expr;
use rules_relations::Relation;
use std::alloc::{AllocError, Allocator, Global};
use std::io::Write;

/// How many bytes of a tree are shown.
const SHOWN: usize = 120;

/// Begins a notice: what the text is, the place, and the fault's number and name.
pub(crate) fn add_start(
    source: &str,
    spot: Option<Spot>,
    name: &str,
    output: &mut Vec<u8>,
) -> Result<(), AllocError> {
    match spot {
        Some(spot) => {
            let line = spot.place.line;
            let column = spot.place.column;
            write!(output, "{source}:{line}:{column}: refused {name}: ").map_err(|_| AllocError)
        }
        None => write!(output, "{source}: refused {name}: ").map_err(|_| AllocError),
    }
}

/// Adds words.
pub(crate) fn add_words(words: &str, output: &mut Vec<u8>) -> Result<(), AllocError> {
    output.extend_from_slice(words.as_bytes())?;
    Ok(())
}

/// Adds words, and ends the line.
pub(crate) fn add_end(words: &str, output: &mut Vec<u8>) -> Result<(), AllocError> {
    output.extend_from_slice(words.as_bytes())?;
    output.push(b'\n')?;
    Ok(())
}

/// Adds a line that says why.
pub(crate) fn add_reason(words: &str, output: &mut Vec<u8>) -> Result<(), AllocError> {
    writeln!(output, "  {words}").map_err(|_| AllocError)
}

/// Adds a line that says how many of something there may be.
pub(crate) fn add_limit(what: &str, limit: usize, output: &mut Vec<u8>) -> Result<(), AllocError> {
    writeln!(output, "  at most {limit} {what}").map_err(|_| AllocError)
}

/// Adds a line that says how many of something an item has, and how many it may have.
pub(crate) fn add_count(
    count: usize,
    what: &str,
    limit: usize,
    output: &mut Vec<u8>,
) -> Result<(), AllocError> {
    writeln!(output, "  there are {count} {what}, of at most {limit}").map_err(|_| AllocError)
}

/// Adds a line that says how many arguments a word takes, and how many it has.
pub(crate) fn add_arguments(
    taken: usize,
    given: usize,
    output: &mut Vec<u8>,
) -> Result<(), AllocError> {
    writeln!(output, "  it takes {taken}, and here it has {given}").map_err(|_| AllocError)
}

/// Adds a name or the text of a tree. Of a long one the beginning is shown.
pub(crate) fn add_bytes(bytes: &[u8], output: &mut Vec<u8>) -> Result<(), AllocError> {
    match bytes.get(..SHOWN) {
        Some(front) => {
            output.extend_from_slice(front)?;
            output.extend_from_slice(b" ...")?;
        }
        None => output.extend_from_slice(bytes)?,
    }
    Ok(())
}

/// Adds the canonical text of a tree. Of a long one the beginning is shown.
pub(crate) fn add_tree<A: Allocator>(
    alloc: Global,
    e: &Expr<A>,
    output: &mut Vec<u8>,
) -> Result<(), AllocError> {
    let mut text = Vec::new(alloc);
    let Ok(()) = kif::write(e, &mut text) else {
        return Err(AllocError);
    };
    add_bytes(&text, output)
}

/// Adds relations, joined by arrows.
pub(crate) fn add_way(
    from: &Relation,
    steps: &[Relation],
    output: &mut Vec<u8>,
) -> Result<(), AllocError> {
    add_bytes(from.word, output)?;
    for step in steps {
        add_words(" > ", output)?;
        add_bytes(step.word, output)?;
    }
    Ok(())
}

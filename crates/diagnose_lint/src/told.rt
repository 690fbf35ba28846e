//! The lines that tell of findings.
ghost use Rattle.kif.specs.View.{trees_in};
ghost use Rattle.diagnose_lint.specs.Pointing.{IsPointer};

use crate::finding::{Finding, Note};
use crate::gathering::findings;
use crate::pointer::Pointer;
use diagnose_places::Place;
use kif::Expr;
use rules_relations::Relation;
use std::alloc::{AllocError, Allocator, Global};
use std::io::Write;

/// Adds the name of a relation, and how many arguments it has.
fn add_relation(relation: &Relation, output: &mut Vec<u8>) -> Result<(), AllocError> {
    let arity = relation.arity;
    output.push(b'`')?;
    output.extend_from_slice(relation.word)?;
    write!(output, "` with {arity} arguments").map_err(|_| AllocError)
}

/// Adds words, and ends the line.
fn add_end(words: &str, output: &mut Vec<u8>) -> Result<(), AllocError> {
    output.extend_from_slice(words.as_bytes())?;
    output.push(b'\n')?;
    Ok(())
}

/// Adds what is told of a finding, and ends the line.
fn add_words(finding: &Finding, output: &mut Vec<u8>) -> Result<(), AllocError> {
    match finding {
        Finding::NeverStated(relation) => {
            add_relation(relation, output)?;
            add_end(" is asked and never stated", output)
        }
        Finding::OtherArity(relation, arity) => {
            add_relation(relation, output)?;
            writeln!(
                output,
                " is asked and never stated; it is stated with {arity}"
            )
            .map_err(|_| AllocError)
        }
        Finding::NeverAsked(relation) => {
            add_relation(relation, output)?;
            add_end(" is stated and never asked", output)
        }
        Finding::BadGoal => add_end(
            "the value of a goal is a number from 0 to 100, without a leading zero",
            output,
        ),
        Finding::Foreign(relation) => {
            add_relation(relation, output)?;
            add_end(words_of_notation(relation.word), output)
        }
        Finding::Missing(word) => {
            output.extend_from_slice(b"no item states `")?;
            output.extend_from_slice(word.name())?;
            add_end("`", output)
        }
    }
}

/// What is told of a name that belongs to another notation.
fn words_of_notation(name: &[u8]) -> &'static str {
    match name {
        b":-" | b"\\+" => " is Prolog's notation; a rule is (<= head literal ..)",
        _ => " belongs to another notation; a rule is (<= head literal ..)",
    }
}

/// The name by whose place a finding is told, if it is not told by the beginning of its item.
fn name_of<'a>(finding: &Finding<'a>) -> Option<&'a [u8]> {
    match finding {
        Finding::NeverStated(relation)
        | Finding::OtherArity(relation, _)
        | Finding::Foreign(relation) => Some(relation.word),
        Finding::NeverAsked(_) | Finding::BadGoal | Finding::Missing(_) => None,
    }
}

/// The place of a finding: that of the relation that an item asks, or the beginning of the item.
fn place_of_note<A: Allocator>(
    pointer: &mut Pointer,
    items: &[Expr<A>],
    note: &Note,
) -> Option<Place>
    requires { IsPointer (trees_in items.now) pointer.old }
    ensures { IsPointer (trees_in items.now) pointer.new }
{
    match name_of(&note.finding) {
        Some(name) => pointer.name_place(items, note.place, name),
        None => pointer.item_place(items, note.place),
    }
}

/// Adds the line of a finding.
fn add_line<A: Allocator>(
    pointer: &mut Pointer,
    items: &[Expr<A>],
    note: &Note,
    output: &mut Vec<u8>,
) -> Result<(), AllocError>
    requires { IsPointer (trees_in items.now) pointer.old }
    ensures { IsPointer (trees_in items.now) pointer.new }
{
    let Some(place) = place_of_note(pointer, items, note) else {
        return Ok(());
    };
    let line = place.line;
    let column = place.column;
    write!(output, "{line}:{column}: ").map_err(|_| AllocError)?;
    add_words(&note.finding, output)
}

/// A line for each finding in the items that a text is read as: line and column, and what is found there.
pub fn finding_lines<A: Allocator>(
    alloc: Global,
    text: &[u8],
    items: &[Expr<A>],
) -> Result<Vec<u8>, AllocError> {
    let mut output = Vec::new(alloc);
    let notes = findings(alloc, items)?;
    let mut pointer = Pointer::new(text);
    for note in &notes {
        add_line(&mut pointer, items, note, &mut output)?;
    }
    Ok(output)
}

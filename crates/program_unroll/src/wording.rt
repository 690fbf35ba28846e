//! The parts of what explains a fault of the whole language to a person.
ghost use Rattle.std.specs.Prelude.{◌≡◌, ◌↔◌, IsTrue, IfOk, take, codes};
ghost use Rattle.diagnose_refusals.specs.Headed.{IsHeaded};

use diagnose_explain::{Spot, add_marked_line};
use rules_relations::Relation;
use std::alloc::{AllocError, Global};
use std::io::Write;

/// What the input is called.
pub(crate) const INPUT: &str = "<input>";

/// How many bytes of a name are shown.
const SHOWN: usize = 120;

/// Begins what is told of a fault: the place, where one is known, and the fault's number and name.
pub(crate) fn add_start(
    spot: Option<Spot>,
    name: &str,
    output: &mut Vec<u8>,
) -> Result<(), AllocError> {
    match spot {
        Some(spot) => {
            let line = spot.place.line;
            let column = spot.place.column;
            write!(output, "{INPUT}:{line}:{column}: refused {name}: ").map_err(|_| AllocError)
        }
        None => write!(output, "{INPUT}: refused {name}: ").map_err(|_| AllocError),
    }
}

/// Adds the line of the text in which a spot stands, with a mark.
pub(crate) fn add_line(
    text: &[u8],
    spot: Option<Spot>,
    output: &mut Vec<u8>,
) -> Result<(), AllocError> {
    match spot {
        Some(spot) => add_marked_line(text, spot.offset, output),
        None => Ok(()),
    }
}

/// Adds a line that says why, or what helps.
pub(crate) fn add_reason(words: &str, output: &mut Vec<u8>) -> Result<(), AllocError> {
    writeln!(output, "  {words}").map_err(|_| AllocError)
}

/// Adds a name. Of a long one the beginning is shown.
fn add_name(name: &[u8], output: &mut Vec<u8>) -> Result<(), AllocError> {
    match name.get(..SHOWN) {
        Some(front) => {
            output.extend_from_slice(front)?;
            output.extend_from_slice(b" ...")?;
        }
        None => output.extend_from_slice(name)?,
    }
    Ok(())
}

/// Adds a way from a relation, whose first step is through a negated atom, and ends the line.
pub(crate) fn add_crossed_way(
    from: &Relation,
    steps: &[Relation],
    output: &mut Vec<u8>,
) -> Result<(), AllocError> {
    add_name(from.word, output)?;
    let mut arrow: &[u8] = b" > not ";
    for step in steps {
        output.extend_from_slice(arrow)?;
        add_name(step.word, output)?;
        arrow = b" > ";
    }
    output.push(b'\n')?;
    Ok(())
}

/// Whether a text begins with the name of the input.
fn names_input(text: &[u8]) -> bool
    ensures { IsTrue result ↔ (take 7 text.now ≡ codes "<input>") }
{
    matches!(text, [b'<', b'i', b'n', b'p', b'u', b't', b'>', ..])
}

/// What is told of a refusal where there is nothing else to tell.
fn bare(alloc: Global) -> Result<Vec<u8>, AllocError>
    ensures { IfOk result (λ text. text.items ≡ codes "<input>: refused\n") }
{
    let mut text = Vec::new(alloc);
    text.extend_from_slice(b"<input>: refused\n")?;
    Ok(text)
}

/// A text that says that it is about the input: this one, if it does.
pub(crate) fn headed(alloc: Global, text: Vec<u8>) -> Result<Vec<u8>, AllocError>
    ensures { IfOk result (λ text. IsHeaded text.items) }
{
    if names_input(&text) {
        return Ok(text);
    }
    bare(alloc)
}

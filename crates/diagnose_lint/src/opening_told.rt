//! The lines that tell how play stands at the start.
ghost use Rattle.std.specs.Prelude.{OnOk};
ghost use Rattle.rules_clauses.specs.Numbers.{BeginsWith};

use crate::opening_finding::Opening;
use crate::pointer::Pointer;
use diagnose_places::Place;
use kif::Expr;
use rules::RuleSet;
use std::alloc::{AllocError, Allocator};
use std::io::Write;

/// The name of a role; nothing, if there is no role of the number.
fn role_name(rules: &RuleSet, role: usize) -> &[u8] {
    if role < rules.roles() {
        return rules.role_text(role);
    }
    b""
}

/// Adds what is told of how play stands at the start, and ends the line.
fn add_words(rules: &RuleSet, opening: Opening, output: &mut Vec<u8>) -> Result<(), AllocError>
    ensures { OnOk result (BeginsWith output.old.items output.new.items) }
{
    let Opening::Idle(role) = opening else {
        output.extend_from_slice(b"at the start the game has ended\n")?;
        return Ok(());
    };
    output.extend_from_slice(b"at the start `")?;
    output.extend_from_slice(role_name(rules, role))?;
    output.extend_from_slice(b"` has no legal move\n")?;
    Ok(())
}

/// Adds a place, line and column.
fn add_place(place: Place, output: &mut Vec<u8>) -> Result<(), AllocError>
    ensures { OnOk result (BeginsWith output.old.items output.new.items) }
{
    let line = place.line;
    let column = place.column;
    write!(output, "{line}:{column}: ").map_err(|_| AllocError)
}

/// Adds the line of a place and what is told there.
fn add_line(
    place: Place,
    rules: &RuleSet,
    opening: Opening,
    output: &mut Vec<u8>,
) -> Result<(), AllocError>
    ensures { OnOk result (BeginsWith output.old.items output.new.items) }
{
    add_place(place, output)?;
    add_words(rules, opening, output)?;
    Ok(())
}

/// Adds a line for each, with line and column of the first item, behind what is there.
pub fn add_openings<A: Allocator>(
    text: &[u8],
    items: &[Expr<A>],
    rules: &RuleSet,
    found: &[Opening],
    output: &mut Vec<u8>,
) -> Result<(), AllocError>
    ensures { OnOk result (BeginsWith output.old.items output.new.items) }
{
    let mut pointer = Pointer::new(text);
    let Some(place) = pointer.item_place(items, 0) else {
        return Ok(());
    };
    for opening in found {
        add_line(place, rules, *opening, output)?;
    }
    Ok(())
}

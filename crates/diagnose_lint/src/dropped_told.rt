//! The lines that tell of heads without effect.
ghost use Rattle.std.specs.Prelude.{◌≡◌, ◌++◌, OnOk};
ghost use Rattle.std.specs.List.{FoldsTo};
ghost use Rattle.kif.specs.View.{trees_in};
ghost use Rattle.rules_clauses.specs.Numbers.{BeginsWith};
ghost use Rattle.diagnose_lint.specs.Pointing.{IsPointer};
ghost use Rattle.diagnose_lint.specs.Telling.{place_start, TellsOf};

use crate::dropped_finding::{Dropped, Lack};
use crate::pointer::Pointer;
use diagnose_places::Place;
use kif::Expr;
use std::alloc::{AllocError, Allocator, Global};
use std::io::Write;

/// How many bytes of a head are told.
const SHOWN: usize = 400;

/// What a head lacks.
fn words_of(lack: Lack) -> &'static str {
    match lack {
        Lack::Base => "it is of no base proposition",
        Lack::Input => "it is of no input of a role",
        Lack::Goal =>
            "it is of no role, or its value is no number from 0 to 100 without a leading zero",
    }
}

/// Adds the text of a head. Of a long one the beginning is told.
fn add_head(text: &[u8], output: &mut Vec<u8>) -> Result<(), AllocError>
    ensures { OnOk result (BeginsWith output.old.items output.new.items) }
{
    let Some(front) = text.get(..SHOWN) else {
        output.extend_from_slice(text)?;
        return Ok(());
    };
    output.extend_from_slice(front)?;
    output.extend_from_slice(b" ..")?;
    Ok(())
}

/// Adds how many more heads an item has, if it has any.
fn add_more(more: usize, output: &mut Vec<u8>) -> Result<(), AllocError>
    ensures { OnOk result (BeginsWith output.old.items output.new.items) }
{
    if more == 0 {
        return Ok(());
    }
    write!(output, "; and {more} more of this item").map_err(|_| AllocError)
}

/// Adds what is told of a head without effect, and ends the line.
fn add_words(dropped: &Dropped, output: &mut Vec<u8>) -> Result<(), AllocError>
    ensures { OnOk result (BeginsWith output.old.items output.new.items) }
{
    output.push(b'`')?;
    add_head(&dropped.text, output)?;
    output.extend_from_slice(b"` has no effect: ")?;
    output.extend_from_slice(words_of(dropped.lack).as_bytes())?;
    add_more(dropped.more, output)?;
    output.push(b'\n')?;
    Ok(())
}

/// Adds what stands before a place, the place, line and column, and what stands behind it.
fn add_place(
    place: Place,
    before: &str,
    behind: &str,
    output: &mut Vec<u8>,
) -> Result<(), AllocError>
    ensures { OnOk result (output.new.items ≡ output.old.items ++ place_start before.now place behind.now) }
{
    let line = place.line;
    let column = place.column;
    write!(output, "{before}{line}:{column}: {behind}").map_err(|_| AllocError)
}

/// Adds a line for a head without effect, unless the pointer has passed its item.
fn add_line<A: Allocator>(
    pointer: &mut Pointer,
    items: &[Expr<A>],
    dropped: &Dropped,
    before: &str,
    behind: &str,
    output: &mut Vec<u8>,
) -> Result<(), AllocError>
    requires { IsPointer (trees_in items.now) pointer.old }
    ensures text { pointer.new.text.now ≡ pointer.old.text.now }
    ensures pointer { IsPointer (trees_in items.now) pointer.new }
    ensures told { OnOk result (TellsOf pointer.old.text.now (trees_in items.now) before.now behind.now
        output.old.items dropped.now output.new.items) }
{
    let Some(place) = pointer.item_place(items, dropped.place) else {
        return Ok(());
    };
    add_place(place, before, behind, output)?;
    add_words(dropped, output)
}

/// Adds a line for each of some heads without effect: what stands before the place, line and column of its item, what stands behind it, and
/// which head it is.
pub fn add_dropped<A: Allocator>(
    text: &[u8],
    items: &[Expr<A>],
    found: &[Dropped],
    before: &str,
    behind: &str,
    output: &mut Vec<u8>,
) -> Result<(), AllocError>
    ensures { OnOk result (FoldsTo (TellsOf text.now (trees_in items.now) before.now behind.now)
        output.old.items found.now output.new.items) }
{
    let mut pointer = Pointer::new(text);
    for dropped in found {
        add_line(&mut pointer, items, dropped, before, behind, output)?;
    }
    Ok(())
}

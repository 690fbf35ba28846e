//! What warns of an answer that is lawful and most likely not meant.
use crate::sizes::Sizes;
use bumpalo::Bump;
use diagnose_lint::{add_dropped, dropped_heads};
use kif::{Expr, read};
use rules::RuleSet;
use std::alloc::{AllocError, Allocator, Global};
use std::io::Write;

/// Of how many items the heads without effect are told.
const SHOWN: usize = 3;

/// Adds lines that tell of what rules state none.
fn add_lacking(sizes: &Sizes, output: &mut Vec<u8>) -> Result<(), AllocError> {
    if !sizes.has_base {
        output.extend_from_slice(
            b"<input>: warning: there is no base proposition, so nothing holds in any state: state them by `base`, or ask with `--whole`, which finds them\n",
        )?;
    }
    if !sizes.has_inputs {
        output.extend_from_slice(
            b"<input>: warning: there is no input, so no role has a legal move: state them by `input`, or ask with `--whole`, which finds them\n",
        )?;
    }
    Ok(())
}

/// Adds lines that tell of the heads without effect in a text, of the first few items.
fn add_dropped_heads(alloc: Global, bytes: &[u8], output: &mut Vec<u8>) -> Result<(), AllocError> {
    let arena = Bump::new(alloc);
    let Ok(items) = read(&arena, bytes) else {
        return Err(AllocError);
    };
    let Ok(rules) = RuleSet::check(alloc, &items) else {
        return Err(AllocError);
    };
    add_heads(alloc, bytes, &items, &rules, output)
}

/// Adds lines that tell of heads without effect, of the first few items.
fn add_heads<A: Allocator>(
    alloc: Global,
    bytes: &[u8],
    items: &[Expr<A>],
    rules: &RuleSet,
    output: &mut Vec<u8>,
) -> Result<(), AllocError> {
    let Ok(found) = dropped_heads(alloc, items, rules) else {
        return Err(AllocError);
    };
    let shown = found.get(..SHOWN).unwrap_or(found.as_slice());
    add_dropped(bytes, items, shown, "<input>:", "warning: ", output)?;
    let more = found.len().saturating_sub(SHOWN);
    if more > 0 {
        return writeln!(output, "  and of {more} more items: `lint` tells all").map_err(
            |_| AllocError,
        );
    }
    Ok(())
}

/// What warns of the rules of bytes: that there are no base propositions or no inputs, which their sizes tell, and which heads have no
/// effect, which is looked for anew where the sizes tell that there are some.
pub(crate) fn warnings(alloc: Global, bytes: &[u8], sizes: &Sizes) -> Result<Vec<u8>, AllocError> {
    let mut output = Vec::new(alloc);
    add_lacking(sizes, &mut output)?;
    if sizes.dropped > 0 {
        add_dropped_heads(alloc, bytes, &mut output)?;
    }
    Ok(output)
}

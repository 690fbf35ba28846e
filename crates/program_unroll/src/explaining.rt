//! What explains why a text is not written out, for people.
ghost use Rattle.std.specs.Prelude.{IfOk};
ghost use Rattle.diagnose_refusals.specs.Headed.{IsHeaded};

use crate::crossing::{negations_alone, way_through_negation};
use crate::wording::{INPUT, add_crossed_way, add_line, add_reason, add_start, headed};
use diagnose_explain::{Source, explain_rules, explain_text, item_spot};
use kif::{Expr, KifFault, TEXT_LIMIT, copy_to, read};
use rules_profile::{ITEMS_LIMIT, RuleFault};
use rules_relations::{Relation, asks, head_of, is_stated};
use std::alloc::{AllocError, Global};
use std::io::Write;
use unroll::{Bounds, UnrollFault};
use unroll_datalog::{
    DEPTH_LIMIT, Excess, FACTS_LIMIT, INSTANCES_LIMIT, LAYERS_LIMIT, TERM_LIMIT, WAYS_LIMIT,
};
use unroll_strata::plain_forms;

/// The items of a text that was read as items before.
fn items_of(alloc: Global, text: &[u8]) -> Result<Vec<Expr<Global>>, AllocError> {
    match read(alloc, text) {
        Ok(items) => Ok(items),
        Err(KifFault::NoMemory) => Err(AllocError),
        Err(_) => Ok(Vec::new(alloc)),
    }
}

/// Adds copies of items.
fn add_items(
    alloc: Global,
    some: &[Expr<Global>],
    items: &mut Vec<Expr<Global>>,
) -> Result<(), AllocError> {
    for item in some {
        items.push(copy_to(alloc, item)?)?;
    }
    Ok(())
}

/// The items by which a fault of the item behind the first ones is explained: those first ones as they stand in the text, by which its place is
/// known, and it and all behind it in the form of the profile, as the fault is one of that form. Where it rests on what it may not, that form of
/// the first ones stands behind them, for the way there.
fn items_about(
    alloc: Global,
    found: &[Expr<Global>],
    first: usize,
    fault: &RuleFault,
) -> Result<Vec<Expr<Global>>, AllocError> {
    let forms = plain_forms(alloc, found)?;
    let mut items = Vec::new(alloc);
    add_items(alloc, found.get(..first).unwrap_or(&[]), &mut items)?;
    add_items(alloc, forms.get(first..).unwrap_or(&[]), &mut items)?;
    if let RuleFault::BadDependence(_) = fault {
        add_items(alloc, forms.get(..first).unwrap_or(&[]), &mut items)?;
    }
    Ok(items)
}

/// How many items stand before the one that has a fault.
fn items_before(fault: &RuleFault) -> usize {
    match fault {
        RuleFault::BadForm(number)
        | RuleFault::BadKeyword(number)
        | RuleFault::Unsafe(number)
        | RuleFault::Recursive(number)
        | RuleFault::BadDependence(number)
        | RuleFault::TooMany(number, _) => number.saturating_sub(1),
        RuleFault::NoRole | RuleFault::NoMemory => 0,
    }
}

/// Adds what explains a fault of the rules.
fn explain_items(
    alloc: Global,
    text: &[u8],
    fault: &RuleFault,
    output: &mut Vec<u8>,
) -> Result<(), AllocError> {
    let found = items_of(alloc, text)?;
    let items = items_about(alloc, &found, items_before(fault), fault)?;
    let source = Source {
        name: INPUT,
        text,
        items: &items,
    };
    explain_rules(alloc, &source, fault, output)
}

/// Adds what explains that the relation of an item, numbered from 1, rests on itself through a negated atom.
fn explain_crossed(
    alloc: Global,
    text: &[u8],
    number: usize,
    output: &mut Vec<u8>,
) -> Result<(), AllocError> {
    let found = items_of(alloc, text)?;
    let forms = plain_forms(alloc, &found)?;
    let Some(item) = forms.get(number.saturating_sub(1)) else {
        return Ok(());
    };
    let spot = item_spot(text, &found, number);
    let negations = negations_alone(alloc, item)?;
    let way = way_through_negation(alloc, &forms, item, &negations)?;
    add_start(spot, "U1 NotStratified", output)?;
    add_crossed_way(&head_of(item), way.as_deref().unwrap_or(&[]), output)?;
    add_line(text, spot, output)?;
    add_reason(
        "no relation may rest on itself through a `not`, as nothing says then whether it holds: ask a relation that does not rest on this one",
        output,
    )
}

/// The word of the relation that an item asks, where no item states it: `base`, if it asks that, and else `input`.
fn missing_word(items: &[Expr<Global>], item: &Expr<Global>) -> &'static str {
    let base = Relation {
        word: b"base",
        arity: 1,
    };
    if !is_stated(items, &base) && asks(item, &base) {
        return "base";
    }
    "input"
}

/// Adds what explains that an item, numbered from 1, asks `base` or `input`, where no item states it.
fn explain_unstated(
    alloc: Global,
    text: &[u8],
    number: usize,
    output: &mut Vec<u8>,
) -> Result<(), AllocError> {
    let found = items_of(alloc, text)?;
    let forms = plain_forms(alloc, &found)?;
    let Some(item) = forms.get(number.saturating_sub(1)) else {
        return Ok(());
    };
    let spot = item_spot(text, &found, number);
    let word = missing_word(&forms, item);
    add_start(spot, "U3 Unstated", output)?;
    writeln!(output, "no item states `{word}`").map_err(|_| AllocError)?;
    add_line(text, spot, output)?;
    add_reason(
        "what play can come to would be stated, and this rule would see it: state it where rules ask it, or ask something else",
        output,
    )
}

/// Adds what there are too many of.
fn add_excess(excess: Excess, output: &mut Vec<u8>) -> Result<(), AllocError> {
    match excess {
        Excess::Facts => {
            writeln!(
                output,
                "more than {FACTS_LIMIT} atoms that hold or may ever hold"
            )
        }
        Excess::Instances => writeln!(
            output,
            "more than {INSTANCES_LIMIT} ways in which the first literals of a body may hold, or {WAYS_LIMIT} alternatives of a body"
        ),
        Excess::Layers => writeln!(
            output,
            "more than {LAYERS_LIMIT} layers of a relation that rests on itself and on the state"
        ),
        Excess::Text => writeln!(
            output,
            "an atom of more than {TERM_LIMIT} bytes or {DEPTH_LIMIT} lists inside each other, or {TEXT_LIMIT} bytes to write"
        ),
        Excess::Items => writeln!(output, "more than {ITEMS_LIMIT} items to write"),
    }
    .map_err(|_| AllocError)
}

/// What helps where there is too much of something.
fn help_with(excess: Excess, bounds: Bounds) -> &'static str {
    match (excess, bounds) {
        (Excess::Text, _) => {
            "terms that grow from rule to rule come to no end: count by facts, as (next_number 1 2)"
        }
        (_, Bounds::AsStated) => {
            "`--tighten` states only the moves and propositions that play can come to; a smaller board has fewer"
        }
        (_, Bounds::Tightened) => {
            "a smaller board has fewer, and so has a rule that is cut in two by a relation over the variables that are needed further on"
        }
    }
}

/// Adds what explains that a limit is passed.
fn explain_excess(excess: Excess, bounds: Bounds, output: &mut Vec<u8>) -> Result<(), AllocError> {
    add_start(None, "U2 TooMany", output)?;
    add_excess(excess, output)?;
    add_reason(help_with(excess, bounds), output)
}

/// What explains a fault of a text.
fn explained(
    alloc: Global,
    text: &[u8],
    fault: &UnrollFault,
    bounds: Bounds,
) -> Result<Vec<u8>, AllocError> {
    let mut output = Vec::new(alloc);
    match fault {
        UnrollFault::Text(fault) => explain_text(INPUT, text, fault, &mut output)?,
        UnrollFault::Rules(fault) => explain_items(alloc, text, fault, &mut output)?,
        UnrollFault::NotStratified(number) => {
            explain_crossed(alloc, text, *number, &mut output)?;
        }
        UnrollFault::Unstated(number) => explain_unstated(alloc, text, *number, &mut output)?,
        UnrollFault::TooMany(excess) => explain_excess(*excess, bounds, &mut output)?,
        UnrollFault::NoMemory => return Err(AllocError),
    }
    Ok(output)
}

/// What explains why a text is not written out: a text that begins with the name of the input. It fails only for want of memory.
pub(crate) fn unroll_explanation(
    alloc: Global,
    text: &[u8],
    fault: &UnrollFault,
    bounds: Bounds,
) -> Result<Vec<u8>, AllocError>
    ensures { IfOk result (λ text. IsHeaded text.items) }
{
    let told = explained(alloc, text, fault, bounds)?;
    headed(alloc, told)
}

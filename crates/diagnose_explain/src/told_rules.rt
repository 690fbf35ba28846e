//! What is told of the fault of rules.
use crate::counts::{MOST_COUNTED, count_alternatives};
use crate::forms::flaw_of_item;
use crate::halves::half_bound_variable;
use crate::marked::add_marked_line;
use crate::misuses::{Misuse, misuse_of};
use crate::rests::bad_way;
use crate::spots::{Spot, item_spot, word_spot};
use crate::variables::{unbound_variable, variables_of};
use crate::ways::way_from;
use crate::wording::{
    add_arguments, add_bytes, add_count, add_end, add_limit, add_reason, add_start, add_tree,
    add_way, add_words,
};
use kif::Expr;
use rules_profile::{
    ALTERNATIVES_LIMIT, ITEMS_LIMIT, ROLES_LIMIT, RuleExcess, RuleFault, VARIABLES_LIMIT,
};
use rules_relations::{Relation, head_of};
use std::alloc::{AllocError, Allocator, Global};

/// A text, what it is called, and the items that it is read as.
#[derive(Drop)]
pub struct Source<'a, A: Allocator> {
    pub name: &'a str,
    pub text: &'a [u8],
    pub items: &'a [Expr<A>],
}

/// Adds the first line of a notice and the line of the text with a mark.
fn add_place<A: Allocator>(
    source: &Source<A>,
    spot: Option<Spot>,
    name: &str,
    words: &[u8],
    output: &mut Vec<u8>,
) -> Result<(), AllocError> {
    add_start(source.name, spot, name, output)?;
    output.extend_from_slice(words)?;
    output.push(b'\n')?;
    match spot {
        Some(spot) => add_marked_line(source.text, spot.offset, output),
        None => Ok(()),
    }
}

/// What is told of an item with a bad form.
fn tell_form<A: Allocator>(
    alloc: Global,
    source: &Source<A>,
    number: usize,
    item: &Expr<A>,
    output: &mut Vec<u8>,
) -> Result<(), AllocError> {
    let spot = item_spot(source.text, source.items, number);
    match flaw_of_item(item) {
        Some(flaw) => {
            add_place(source, spot, "G1 BadForm", flaw.words.as_bytes(), output)?;
            add_words("  here: ", output)?;
            add_tree(alloc, flaw.part, output)?;
            add_end("", output)
        }
        None => add_place(source, spot, "G1 BadForm", b"this is no item", output),
    }
}

/// What is wrong with a word.
fn words_of(misuse: Misuse) -> &'static str {
    match misuse {
        Misuse::Arity(_) => " has another number of arguments",
        Misuse::Head(_) => " heads no item",
        Misuse::Body(_) => " stands in no body",
        Misuse::Role => " is stated by facts without variables alone",
    }
}

/// Adds how many arguments a word takes, where it has another number of them.
fn add_arity(misuse: Misuse, relation: &Relation, output: &mut Vec<u8>) -> Result<(), AllocError> {
    match misuse {
        Misuse::Arity(word) => add_arguments(word.arity(), relation.arity, output),
        _ => Ok(()),
    }
}

/// What is told of an item that misuses a word.
fn tell_misuse<A: Allocator>(
    alloc: Global,
    source: &Source<A>,
    number: usize,
    item: &Expr<A>,
    output: &mut Vec<u8>,
) -> Result<(), AllocError> {
    let Some((misuse, relation)) = misuse_of(alloc, item)? else {
        let spot = item_spot(source.text, source.items, number);
        return add_place(source, spot, "G2 BadKeyword", b"a word is misused", output);
    };
    let spot = word_spot(source.text, source.items, number, relation.word);
    let mut words = Vec::new(alloc);
    add_bytes(relation.word, &mut words)?;
    add_words(words_of(misuse), &mut words)?;
    add_place(source, spot, "G2 BadKeyword", &words, output)?;
    add_arity(misuse, &relation, output)
}

/// What is told of an item that is not safe.
fn tell_unsafe<A: Allocator>(
    alloc: Global,
    source: &Source<A>,
    number: usize,
    item: &Expr<A>,
    output: &mut Vec<u8>,
) -> Result<(), AllocError> {
    let name = "G3 Unsafe";
    let mut words = Vec::new(alloc);
    if let Some(variable) = unbound_variable(alloc, item)? {
        let spot = word_spot(source.text, source.items, number, variable);
        add_words("no positive literal of the body binds ", &mut words)?;
        add_bytes(variable, &mut words)?;
        return add_place(source, spot, name, &words, output);
    }
    if let Some(variable) = half_bound_variable(alloc, item)? {
        let spot = word_spot(source.text, source.items, number, variable);
        add_words("not each alternative of the body binds ", &mut words)?;
        add_bytes(variable, &mut words)?;
        return add_place(source, spot, name, &words, output);
    }
    let spot = item_spot(source.text, source.items, number);
    add_place(source, spot, name, b"a variable is not bound", output)
}

/// What is told of an item by a way from its own relation.
fn tell_way<A: Allocator>(
    source: &Source<A>,
    number: usize,
    item: &Expr<A>,
    name: &str,
    way: Option<&[Relation]>,
    output: &mut Vec<u8>,
) -> Result<(), AllocError> {
    let spot = item_spot(source.text, source.items, number);
    add_start(source.name, spot, name, output)?;
    add_way(&head_of(item), way.unwrap_or(&[]), output)?;
    add_end("", output)?;
    match spot {
        Some(spot) => add_marked_line(source.text, spot.offset, output),
        None => Ok(()),
    }
}

/// What is told of an item whose relation rests on itself.
fn tell_cycle<A: Allocator>(
    alloc: Global,
    source: &Source<A>,
    number: usize,
    item: &Expr<A>,
    output: &mut Vec<u8>,
) -> Result<(), AllocError> {
    let way = way_from(alloc, source.items, item, &[head_of(item)])?;
    tell_way(source, number, item, "G4 Recursive", way.as_deref(), output)?;
    add_reason(
        "no relation may rest on itself: with `--whole` one may",
        output,
    )
}

/// What is told of an item whose relation rests on what it may not.
fn tell_dependence<A: Allocator>(
    alloc: Global,
    source: &Source<A>,
    number: usize,
    item: &Expr<A>,
    output: &mut Vec<u8>,
) -> Result<(), AllocError> {
    let way = bad_way(alloc, source.items, item)?;
    tell_way(
        source,
        number,
        item,
        "G5 BadDependence",
        way.as_deref(),
        output,
    )?;
    add_reason(
        "`legal`, `goal` and `terminal` may not rest on `does`, nor `base`, `input` and `init` on what changes in play",
        output,
    )
}

/// What is told of an item that passes a limit.
fn tell_excess<A: Allocator>(
    alloc: Global,
    source: &Source<A>,
    number: usize,
    item: &Expr<A>,
    excess: RuleExcess,
    output: &mut Vec<u8>,
) -> Result<(), AllocError> {
    let spot = item_spot(source.text, source.items, number);
    add_place(source, spot, "G7 TooMany", words_about(excess), output)?;
    match excess {
        RuleExcess::Rules => add_count(source.items.len(), "items", ITEMS_LIMIT, output),
        RuleExcess::Variables => {
            let variables = variables_of(alloc, item)?;
            add_count(
                variables.len(),
                "different variables",
                VARIABLES_LIMIT,
                output,
            )
        }
        RuleExcess::Alternatives => add_alternatives(count_alternatives(item), output),
        RuleExcess::Roles => add_limit("roles", ROLES_LIMIT, output),
    }
}

/// Adds a line that says how many alternatives an item has, of which a very large number is not counted out.
fn add_alternatives(count: usize, output: &mut Vec<u8>) -> Result<(), AllocError> {
    let what = if count < MOST_COUNTED {
        "alternatives"
    } else {
        "alternatives or more"
    };
    add_count(count, what, ALTERNATIVES_LIMIT as usize, output)
}

/// What an item is one too many of, or has too many of.
fn words_about(excess: RuleExcess) -> &'static [u8] {
    match excess {
        RuleExcess::Rules => b"this is the first item beyond the limit",
        RuleExcess::Variables => b"this item has too many variables",
        RuleExcess::Alternatives => b"this item stands for too many alternatives",
        RuleExcess::Roles => b"this is one role too many",
    }
}

/// What is told of rules that state no role.
fn tell_no_role<A: Allocator>(source: &Source<A>, output: &mut Vec<u8>) -> Result<(), AllocError> {
    add_start(source.name, None, "G6 NoRole", output)?;
    add_end("no fact states a role, as (role player) does", output)
}

/// The number of the item that has a fault, or 0 where none is named.
fn number_of(fault: &RuleFault) -> usize {
    match fault {
        RuleFault::BadForm(number)
        | RuleFault::BadKeyword(number)
        | RuleFault::Unsafe(number)
        | RuleFault::Recursive(number)
        | RuleFault::BadDependence(number)
        | RuleFault::TooMany(number, _) => *number,
        RuleFault::NoRole | RuleFault::NoMemory => 0,
    }
}

/// Adds what is told of the fault of rules: the place of its item or of a word in it, its name, the line with a mark, and why.
pub fn explain_rules<A: Allocator>(
    alloc: Global,
    source: &Source<A>,
    fault: &RuleFault,
    output: &mut Vec<u8>,
) -> Result<(), AllocError> {
    let number = number_of(fault);
    let Some(item) = source.items.get(number.saturating_sub(1)) else {
        return tell_no_role(source, output);
    };
    match fault {
        RuleFault::BadForm(_) => tell_form(alloc, source, number, item, output),
        RuleFault::BadKeyword(_) => tell_misuse(alloc, source, number, item, output),
        RuleFault::Unsafe(_) => tell_unsafe(alloc, source, number, item, output),
        RuleFault::Recursive(_) => tell_cycle(alloc, source, number, item, output),
        RuleFault::BadDependence(_) => tell_dependence(alloc, source, number, item, output),
        RuleFault::TooMany(_, excess) => {
            tell_excess(alloc, source, number, item, *excess, output)
        }
        RuleFault::NoRole => tell_no_role(source, output),
        RuleFault::NoMemory => Ok(()),
    }
}

//! Variables that some alternatives of an item bind, and others do not.
use crate::variables::variables_of;
use kif::Expr;
use rules_profile::{Connective, VARIABLES_LIMIT, Word, connective_of, split_item, split_word};
use rules_relations::has_variable;
use std::alloc::{AllocError, Allocator, Global};

/// Whether an atom binds a variable: it has it, and is no `distinct`.
fn atom_binds<A: Allocator>(e: &Expr<A>, variable: &[u8]) -> bool {
    if let Expr::List(parts) = e {
        if let Some((word, _)) = split_word(parts) {
            if Word::Distinct.is_named(word) {
                return false;
            }
        }
    }
    has_variable(e, variable)
}

/// Whether some reading of a literal does not bind a variable.
#[cycle(free)]
fn leaves_free<A: Allocator>(e: &Expr<A>, variable: &[u8]) -> bool {
    let Expr::List(parts) = e else {
        return true;
    };
    let Some((word, rest)) = split_word(parts) else {
        return true;
    };
    match connective_of(word) {
        Connective::Or => some_leaves_free(rest, variable),
        Connective::And => all_leave_free(rest, variable),
        Connective::Not => true,
        Connective::Nothing => !atom_binds(e, variable),
    }
}

/// Whether some reading of one of the literals does not bind a variable.
#[cycle(free)]
fn some_leaves_free<A: Allocator>(parts: &[Expr<A>], variable: &[u8]) -> bool {
    for part in parts {
        if leaves_free(part, variable) {
            return true;
        }
    }
    false
}

/// Whether some reading of all the literals does not bind a variable.
#[cycle(free)]
fn all_leave_free<A: Allocator>(parts: &[Expr<A>], variable: &[u8]) -> bool {
    for part in parts {
        if !leaves_free(part, variable) {
            return false;
        }
    }
    true
}

/// Whether some reading of a literal has a variable that it does not bind.
#[cycle(asking)]
fn asks_free<A: Allocator>(e: &Expr<A>, variable: &[u8]) -> bool {
    let Expr::List(parts) = e else {
        return false;
    };
    let Some((word, rest)) = split_word(parts) else {
        return false;
    };
    let connective = connective_of(word);
    match connective {
        Connective::Or | Connective::And => {
            some_asks_free(rest, variable)
                && (connective == Connective::Or || all_leave_free(rest, variable))
        }
        Connective::Not => has_variable(e, variable),
        Connective::Nothing => has_variable(e, variable) && !atom_binds(e, variable),
    }
}

/// Whether some reading of one of the literals has a variable that it does not bind.
#[cycle(asking)]
fn some_asks_free<A: Allocator>(parts: &[Expr<A>], variable: &[u8]) -> bool {
    for part in parts {
        if asks_free(part, variable) {
            return true;
        }
    }
    false
}

/// A variable that some alternative of an item has to bind and does not, though another may: the first in the order of the text. Of an
/// item with more variables than any may have none is looked for. This is tested alone.
pub(crate) fn half_bound_variable<A: Allocator>(
    alloc: Global,
    item: &Expr<A>,
) -> Result<Option<&[u8]>, AllocError> {
    let (head, body) = split_item(item);
    let variables = variables_of(alloc, item)?;
    if variables.len() > VARIABLES_LIMIT {
        return Ok(None);
    }
    for variable in variables.as_slice() {
        let is_asked = has_variable(head, variable) || some_asks_free(body, variable);
        if is_asked && all_leave_free(body, variable) {
            return Ok(Some(*variable));
        }
    }
    Ok(None)
}

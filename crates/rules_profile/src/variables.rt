//! The different variables of an item.
ghost use Rattle.std.specs.Prelude.{◌≡◌, ◌<◌, ◌≤◌, ◌++◌, length, nat_lt};
ghost use Rattle.std.specs.Bool.{OnTrue, OnFalse};
ghost use Rattle.statement.specs.Tree.{name, trees_of};
ghost use Rattle.kif.specs.View.{tree_of, trees_in};
ghost use Rattle.statement.specs.RuleLimits.{most_variables};
ghost use Rattle.rules_profile.specs.Names.{names_behind, NamesOnce, Gathers};
ghost use Rattle.statement.specs.Safety.{is_name_in, variables, variables_in, count_different};

use crate::forms::{is_same_name, is_variable_name};
use crate::limits::VARIABLES_LIMIT;
use arrayvec::ArrayVec;
use kif::Expr;
use std::alloc::Allocator;

/// Whether the name is one of the list.
fn is_among(name: &[u8], names: &[&[u8]]) -> bool
    ensures { result ≡ is_name_in name.now (names_behind names.now) }
{
    for other in names {
        if is_same_name(name, other) {
            return true;
        }
    }
    false
}

/// Adds a name that is a variable and not there yet, where there is room.
fn gather_name<'a>(word: &'a [u8], seen: &mut ArrayVec<&'a [u8], VARIABLES_LIMIT>) -> bool
    requires different { NamesOnce (names_behind seen.old.items) }
    requires few { length seen.old.items ≤ most_variables }
    ensures all { OnTrue result (Gathers (names_behind seen.old.items) (names_behind seen.new.items) (variables (name word.now))) }
    ensures many { OnFalse result (most_variables < count_different (variables (name word.now) ++ names_behind seen.old.items)) }
    ensures few { length seen.new.items ≤ most_variables }
{
    if !is_variable_name(word) {
        return true;
    }
    if is_among(word, seen) {
        return true;
    }
    match seen.try_push(word) {
        Ok(()) => true,
        Err(_) => false,
    }
}

/// Adds the variables of a tree that are not there yet, as long as there is room.
#[cycle(gathering)]
fn gather<'a, A: Allocator>(e: &'a Expr<A>, seen: &mut ArrayVec<&'a [u8], VARIABLES_LIMIT>) -> bool
    requires different { NamesOnce (names_behind seen.old.items) }
    requires few { length seen.old.items ≤ most_variables }
    ensures all { OnTrue result (Gathers (names_behind seen.old.items) (names_behind seen.new.items) (variables (tree_of e.now))) }
    ensures many { OnFalse result (most_variables < count_different (variables (tree_of e.now) ++ names_behind seen.old.items)) }
    ensures few { length seen.new.items ≤ most_variables }
{
    match e {
        Expr::Name(name) => gather_name(name, seen),
        Expr::List(parts) => gather_all(parts, seen),
    }
}

#[cycle(gathering)]
fn gather_all<'a, A: Allocator>(
    parts: &'a [Expr<A>],
    seen: &mut ArrayVec<&'a [u8], VARIABLES_LIMIT>,
) -> bool
    requires different { NamesOnce (names_behind seen.old.items) }
    requires few { length seen.old.items ≤ most_variables }
    ensures all { OnTrue result (Gathers (names_behind seen.old.items) (names_behind seen.new.items) (variables_in (trees_of (trees_in parts.now)))) }
    ensures many { OnFalse result (most_variables < count_different (variables_in (trees_of (trees_in parts.now)) ++ names_behind seen.old.items)) }
    ensures few { length seen.new.items ≤ most_variables }
{
    for part in parts {
        if !gather(part, seen) {
            return false;
        }
    }
    true
}

/// Whether a tree has more different variables than the limit.
pub(crate) fn has_many_variables<A: Allocator>(e: &Expr<A>) -> bool
    ensures { result ≡ nat_lt most_variables (count_different (variables (tree_of e.now))) }
{
    let mut seen = ArrayVec::new();
    !gather(e, &mut seen)
}

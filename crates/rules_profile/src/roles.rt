//! The roles that items state, and the limits of items and roles.
ghost use Rattle.std.specs.Prelude.{◌≡◌, ◌<◌, ◌+◌, [], ◌∷◌, All, length, MatchOption, OnOk, IfOk, IfErr, None};
ghost use Rattle.statement.specs.Tree.{tree_eq, trees_eq, trees_of};
ghost use Rattle.kif.specs.View.{tree_of, trees_in};
ghost use Rattle.std.specs.Bool.{OnTrue, OnFalse};
ghost use Rattle.statement.specs.RuleLimits.{most_roles};
ghost use Rattle.statement.specs.Profile.{first_too_many, is_tree_in, role_in, roles, with_new};
ghost use Rattle.rules_profile.specs.Stated.{AddsRole, AreRolePlaces, IsSurplus, role_stated, roles_at, HasExcess, HasRoleLimitAlone};

use crate::forms::{is_same_name, split_item, split_word};
use crate::limits::{ITEMS_LIMIT, ROLES_LIMIT, has_many_alternatives};
use crate::variables::has_many_variables;
use crate::words::Word;
use arrayvec::ArrayVec;
use kif::Expr;
use statement::{RuleExcess, RuleFault};
use std::alloc::Allocator;

/// Whether two trees are the same.
#[cycle(sameness)]
fn is_same_tree<A: Allocator>(one: &Expr<A>, other: &Expr<A>) -> bool
    ensures { result ≡ tree_eq (tree_of one.now) (tree_of other.now) }
{
    match (one, other) {
        (Expr::Name(one), Expr::Name(other)) => is_same_name(one, other),
        (Expr::List(ones), Expr::List(others)) => are_same_trees(ones, others),
        _ => false,
    }
}

/// Whether two lists have the same trees, in the same order.
#[cycle(sameness)]
pub fn are_same_trees<A: Allocator>(ones: &[Expr<A>], others: &[Expr<A>]) -> bool
    ensures { result ≡ trees_eq (trees_of (trees_in ones.now)) (trees_of (trees_in others.now)) }
{
    if ones.len() != others.len() {
        return false;
    }
    for (index, one) in ones.iter().enumerate() {
        if !is_same_tree(one, &others[index]) {
            return false;
        }
    }
    true
}

/// The role that an item states, if it is a fact of `role` with one term.
pub fn role_of<A: Allocator>(e: &Expr<A>) -> Option<&Expr<A>>
    ensures { MatchOption result (role_in (tree_of e.now) ≡ []) (λ role. role_in (tree_of e.now) ≡ tree_of role.now ∷ []) }
{
    let (head, body) = split_item(e);
    if !body.is_empty() {
        return None;
    }
    let Expr::List(parts) = head else {
        return None;
    };
    let Some((word, terms)) = split_word(parts) else {
        return None;
    };
    if !Word::Role.is_named(word) {
        return None;
    }
    if terms.len() != 1 {
        return None;
    }
    Some(&terms[0])
}

/// Whether an item states this role.
fn states<A: Allocator>(item: &Expr<A>, role: &Expr<A>) -> bool
    ensures { result ≡ is_tree_in (tree_of role.now) (role_in (tree_of item.now)) }
{
    match role_of(item) {
        Some(other) => is_same_tree(role, other),
        None => false,
    }
}

/// Whether the role is stated by an item at one of the places.
fn is_stated<A: Allocator>(role: &Expr<A>, items: &[Expr<A>], places: &[usize]) -> bool
    requires { All (λ k. k < length items.now) places.now }
    ensures { result ≡ is_tree_in (tree_of role.now) (roles_at (trees_in items.now) places.now) }
{
    for place in places {
        if states(&items[*place], role) {
            return true;
        }
    }
    false
}

/// Of what the item at this place has too much, roles aside. Places are numbered from 0.
fn excess_of<A: Allocator>(place: usize, item: &Expr<A>) -> Option<RuleExcess>
    ensures { MatchOption result (HasRoleLimitAlone (place + 1) (tree_of item.now)) (λ excess. HasExcess (place + 1) (tree_of item.now) excess) }
{
    if place == ITEMS_LIMIT {
        Some(RuleExcess::Rules)
    } else if has_many_variables(item) {
        Some(RuleExcess::Variables)
    } else if has_many_alternatives(item) {
        Some(RuleExcess::Alternatives)
    } else {
        None
    }
}

/// Adds the place of an item, if it states a role that none of the places does; `false` where that
/// role is one too many.
fn add_role<A: Allocator>(
    place: usize,
    items: &[Expr<A>],
    places: &mut ArrayVec<usize, ROLES_LIMIT>,
) -> bool
    requires here { place < length items.now }
    requires places { AreRolePlaces (trees_in items.now) places.old.items }
    ensures added { OnTrue result (AddsRole (trees_in items.now) places.old.items places.new.items place) }
    ensures many { OnFalse result (most_roles < length
        (with_new (roles_at (trees_in items.now) places.old.items) (role_stated (trees_in items.now) place))) }
{
    let Some(role) = role_of(&items[place]) else {
        return true;
    };
    if is_stated(role, items, places) {
        return true;
    }
    match places.try_push(place) {
        Ok(()) => true,
        Err(_) => false,
    }
}

/// The places of the items that state each role for the first time, from 0 and in order, or the
/// first item that passes a limit.
pub(crate) fn roles_within_limits<A: Allocator>(
    items: &[Expr<A>],
) -> Result<ArrayVec<usize, ROLES_LIMIT>, RuleFault>
    ensures within { OnOk result (first_too_many 1 [] (trees_in items.now) ≡ None) }
    ensures roles { IfOk result (λ places. roles_at (trees_in items.now) places.items ≡ roles (trees_in items.now)) }
    ensures places { IfOk result (λ places. AreRolePlaces (trees_in items.now) places.items) }
    ensures surplus { IfErr result (λ fault. IsSurplus (trees_in items.now) fault) }
{
    let mut places = ArrayVec::new();
    for (index, item) in items.iter().enumerate() {
        if let Some(excess) = excess_of(index, item) {
            return Err(RuleFault::TooMany(index + 1, excess));
        }
        if !add_role(index, items, &mut places) {
            return Err(RuleFault::TooMany(index + 1, RuleExcess::Roles));
        }
    }
    Ok(places)
}

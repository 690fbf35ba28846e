//! Items in the form of the profile: `not` pushed inwards until it stands before atoms, and the role of a goal named where its head
//! alone names it.
ghost use Rattle.std.specs.Prelude.{◌≡◌, ◌++◌, ◌∷◌, [], false, cond, map, Some, None, IfOk, OnOk, MatchOption};
ghost use Rattle.statement.specs.Words.{w_if, w_or, w_and, w_role};
ghost use Rattle.statement.specs.Tree.{name, list, no_trees, tree, trees_of};
ghost use Rattle.kif.specs.View.{tree_of, trees_in};
ghost use Rattle.unroll_strata.specs.Plain.{HasNotOne, turned as turned_tree, plain_literal, plain_literals, plain_item, plain_items, role_literal, behind, first_variable as variable_among};

use kif::{Expr, copy_to};
use rules_profile::{Connective, Word, connective_of, is_variable_name, split_item, split_word};
use rules_relations::{binds, split_atom};
use std::alloc::{AllocError, Global};

/// A name as a tree.
fn named(alloc: Global, bytes: &[u8]) -> Result<Expr<Global>, AllocError>
    ensures { IfOk result (λ e. tree_of e ≡ name bytes.now) }
{
    Ok(Expr::Name(Vec::from_slice(alloc, bytes)?))
}

/// A list that is begun with a word.
fn begun(alloc: Global, word: &[u8]) -> Result<Vec<Expr<Global>>, AllocError>
    ensures { IfOk result (λ made. trees_in made.items ≡ name word.now ∷ []) }
{
    let mut made = Vec::new(alloc);
    let first = named(alloc, word)?;
    made.push(first)?;
    Ok(made)
}

/// A list of a name and a tree.
fn pair(alloc: Global, word: &[u8], e: Expr<Global>) -> Result<Expr<Global>, AllocError>
    ensures { IfOk result (λ both. tree_of both ≡ list (tree (name word.now) (tree (tree_of e) no_trees))) }
{
    let mut parts = begun(alloc, word)?;
    parts.push(e)?;
    Ok(Expr::List(parts))
}

/// A tree, or its negation.
fn turned(alloc: Global, e: &Expr<Global>, is_wrong: bool) -> Result<Expr<Global>, AllocError>
    ensures { IfOk result (λ made. tree_of made ≡ turned_tree is_wrong (tree_of e.now)) }
{
    let copy = copy_to(alloc, e)?;
    if is_wrong {
        return pair(alloc, b"not", copy);
    }
    Ok(copy)
}

/// The word that joins what is right where an `or` is wrong, or right.
fn or_word(is_wrong: bool) -> &'static [u8]
    ensures { result.now ≡ cond is_wrong w_and w_or }
{
    if is_wrong { b"and" } else { b"or" }
}

/// The word that joins what is right where an `and` is wrong, or right.
fn and_word(is_wrong: bool) -> &'static [u8]
    ensures { result.now ≡ cond is_wrong w_or w_and }
{
    if is_wrong { b"or" } else { b"and" }
}

/// The only part of a list, if it has one part.
fn only_part(parts: &[Expr<Global>]) -> Option<&Expr<Global>>
    ensures { MatchOption result (HasNotOne (trees_in parts.now)) (λ part. trees_in parts.now ≡ tree_of part.now ∷ []) }
{
    let (first, rest) = parts.split_first()?;
    if rest.is_empty() {
        return Some(first);
    }
    None
}

/// A literal in the form of the profile, or what is right where it is wrong.
#[cycle(turning)]
fn literal(e: &Expr<Global>, alloc: Global, is_wrong: bool) -> Result<Expr<Global>, AllocError>
    ensures { IfOk result (λ made. tree_of made ≡ plain_literal is_wrong (tree_of e.now)) }
{
    match e {
        Expr::Name(_) => turned(alloc, e, is_wrong),
        Expr::List(parts) => match split_word(parts) {
            None => turned(alloc, e, is_wrong),
            Some((word, rest)) => match connective_of(word) {
                Connective::Or => joined(rest, alloc, or_word(is_wrong), is_wrong),
                Connective::And => joined(rest, alloc, and_word(is_wrong), is_wrong),
                Connective::Not => match only_part(rest) {
                    Some(part) => literal(part, alloc, !is_wrong),
                    None => turned(alloc, e, is_wrong),
                },
                Connective::Nothing => turned(alloc, e, is_wrong),
            },
        },
    }
}

/// A list of a word and of literals in the form of the profile.
#[cycle(turning)]
fn joined(
    parts: &[Expr<Global>],
    alloc: Global,
    word: &[u8],
    is_wrong: bool,
) -> Result<Expr<Global>, AllocError>
    ensures { IfOk result (λ made. tree_of made
        ≡ list (tree (name word.now) (plain_literals is_wrong (trees_of (trees_in parts.now))))) }
{
    let mut made = begun(alloc, word)?;
    add_literals(parts, alloc, is_wrong, &mut made)?;
    Ok(Expr::List(made))
}

/// Adds literals in the form of the profile.
#[cycle(turning)]
fn add_literals(
    parts: &[Expr<Global>],
    alloc: Global,
    is_wrong: bool,
    made: &mut Vec<Expr<Global>>,
) -> Result<(), AllocError>
    ensures { OnOk result (trees_in made.new.items
        ≡ trees_in made.old.items ++ map (plain_literal is_wrong) (trees_in parts.now)) }
{
    for part in parts {
        let one = literal(part, alloc, is_wrong)?;
        made.push(one)?;
    }
    Ok(())
}

/// The variable that stands first among terms, if one does.
fn first_variable(terms: &[Expr<Global>]) -> Option<&[u8]>
    ensures { MatchOption result (variable_among (trees_of (trees_in terms.now)) ≡ None)
        (λ variable. variable_among (trees_of (trees_in terms.now)) ≡ Some variable.now) }
{
    let Some(Expr::Name(first)) = terms.first() else {
        return None;
    };
    if is_variable_name(first) {
        return Some(first);
    }
    None
}

/// The variable that stands for the role in the head of a goal, if no literal binds it.
fn unbound_role(item: &Expr<Global>) -> Option<&[u8]>
    ensures { MatchOption result (role_literal (tree_of item.now) ≡ no_trees)
        (λ role. role_literal (tree_of item.now) ≡ tree (list (tree (name w_role) (tree (name role.now) no_trees))) no_trees) }
{
    let (head, _) = split_item(item);
    let (word, terms) = split_atom(head);
    if !Word::Goal.is_named(word) {
        return None;
    }
    let role = first_variable(terms)?;
    if binds(item, role) {
        return None;
    }
    Some(role)
}

/// Adds the literal that names the role of a goal, where its head alone names it.
fn add_role(
    alloc: Global,
    item: &Expr<Global>,
    made: &mut Vec<Expr<Global>>,
) -> Result<(), AllocError>
    ensures { OnOk result (trees_of (trees_in made.new.items)
        ≡ behind (trees_of (trees_in made.old.items)) (role_literal (tree_of item.now))) }
{
    match unbound_role(item) {
        None => Ok(()),
        Some(role) => {
            let variable = named(alloc, role)?;
            let literal = pair(alloc, b"role", variable)?;
            made.push(literal)?;
            Ok(())
        }
    }
}

/// A rule in the form of the profile: its head, and its body.
fn rule(
    alloc: Global,
    item: &Expr<Global>,
    head: &Expr<Global>,
    body: &[Expr<Global>],
) -> Result<Expr<Global>, AllocError>
    ensures { IfOk result (λ made. tree_of made
        ≡ list (tree (name w_if) (tree (tree_of head.now) (behind (plain_literals false (trees_of (trees_in body.now))) (role_literal (tree_of item.now)))))) }
{
    let mut made = begun(alloc, b"<=")?;
    let copy = copy_to(alloc, head)?;
    made.push(copy)?;
    add_literals(body, alloc, false, &mut made)?;
    add_role(alloc, item, &mut made)?;
    Ok(Expr::List(made))
}

/// An item in the form of the profile.
fn plain(alloc: Global, item: &Expr<Global>) -> Result<Expr<Global>, AllocError>
    ensures { IfOk result (λ made. tree_of made ≡ plain_item (tree_of item.now)) }
{
    let (head, body) = split_item(item);
    if body.is_empty() {
        return copy_to(alloc, item);
    }
    rule(alloc, item, head, body)
}

/// The items in the form of the profile, one for one. An item that has no lawful form keeps one that is not lawful.
pub fn plain_forms(alloc: Global, items: &[Expr<Global>]) -> Result<Vec<Expr<Global>>, AllocError>
    ensures { IfOk result (λ made. trees_in made.items ≡ plain_items (trees_in items.now)) }
{
    let mut made = Vec::new(alloc);
    for item in items {
        let one = plain(alloc, item)?;
        made.push(one)?;
    }
    Ok(made)
}

//! The relations of the literals of a body.
ghost use Rattle.std.specs.Prelude.{◌≡◌, ◌++◌, ◌∷◌, [], map, IfOk, OnOk};
ghost use Rattle.statement.specs.Clause.{relation_of, atom_of};
ghost use Rattle.statement.specs.Items.{atom_in, negated};
ghost use Rattle.statement.specs.Tree.{trees_of};
ghost use Rattle.kif.specs.View.{tree_of, trees_in};
ghost use Rattle.rules_profile.specs.Standing.{literals_in, literals_of_all};
ghost use Rattle.rules_relations.specs.Relations.{relation_in};
ghost use Rattle.rules_relations.specs.Asking.{relations_of, asked_relations};

use crate::relation::{Relation, relation_of_atom};
use kif::Expr;
use rules_profile::{Connective, connective_of, split_item, split_word};
use std::alloc::{AllocError, Allocator, Global};

/// Adds the relation of an atom.
fn add_relation<'a, A: Allocator>(
    e: &'a Expr<A>,
    found: &mut Vec<Relation<'a>>,
) -> Result<(), AllocError>
    ensures { OnOk result (map relation_in found.new.items ≡ map relation_in found.old.items ++ relation_of (atom_in (tree_of e.now)) ∷ []) }
{
    found.push(relation_of_atom(e))?;
    Ok(())
}

/// Adds the relation of the atom behind a `not`, or one without a name where there is none.
fn add_negated<'a, A: Allocator>(
    parts: &'a [Expr<A>],
    found: &mut Vec<Relation<'a>>,
) -> Result<(), AllocError>
    ensures { OnOk result (map relation_in found.new.items ≡ map relation_in found.old.items ++ relation_of (atom_of (negated (trees_of (trees_in parts.now)))) ∷ []) }
{
    match parts.split_first() {
        None => {
            found.push(Relation {
                word: b"",
                arity: 0,
            })?;
            Ok(())
        }
        Some((part, _)) => add_relation(part, found),
    }
}

/// Adds the relations of the literals in a tree.
#[cycle(gathering)]
fn gather<'a, A: Allocator>(e: &'a Expr<A>, found: &mut Vec<Relation<'a>>) -> Result<(), AllocError>
    ensures { OnOk result (map relation_in found.new.items ≡ map relation_in found.old.items ++ relations_of (literals_in (tree_of e.now))) }
{
    match e {
        Expr::Name(_) => add_relation(e, found),
        Expr::List(parts) => match split_word(parts) {
            None => Ok(()),
            Some((word, rest)) => match connective_of(word) {
                Connective::Or | Connective::And => gather_all(rest, found),
                Connective::Not => add_negated(rest, found),
                Connective::Nothing => add_relation(e, found),
            },
        },
    }
}

/// Adds the relations of the literals in trees.
#[cycle(gathering)]
fn gather_all<'a, A: Allocator>(
    parts: &'a [Expr<A>],
    found: &mut Vec<Relation<'a>>,
) -> Result<(), AllocError>
    ensures { OnOk result (map relation_in found.new.items ≡ map relation_in found.old.items ++ relations_of (literals_of_all (trees_of (trees_in parts.now)))) }
{
    for part in parts {
        gather(part, found)?;
    }
    Ok(())
}

/// The relations of the literals of an item's body, in the order of the text.
pub fn asked_by<A: Allocator>(alloc: Global, item: &Expr<A>) -> Result<Vec<Relation>, AllocError>
    ensures { IfOk result (λ found. map relation_in found.items ≡ asked_relations (tree_of item.now)) }
{
    let mut found = Vec::new(alloc);
    let (_, body) = split_item(item);
    gather_all(body, &mut found)?;
    Ok(found)
}

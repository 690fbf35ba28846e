//! The relations of the negated atoms of a body.
ghost use Rattle.std.specs.Prelude.{◌≡◌, ◌++◌, ◌∷◌, [], map, IfOk, OnOk};
ghost use Rattle.statement.specs.Clause.{relation_of, atom_of};
ghost use Rattle.statement.specs.Items.{atom_in, negated};
ghost use Rattle.statement.specs.Tree.{trees_of};
ghost use Rattle.kif.specs.View.{tree_of, trees_in};
ghost use Rattle.rules_profile.specs.Standing.{literals_in, literals_of_all};
ghost use Rattle.rules_relations.specs.Relations.{relation_in};
ghost use Rattle.unroll_strata.specs.Numbering.{negated_among, negated_relations};

use kif::Expr;
use rules_profile::{Connective, connective_of, split_item, split_word};
use rules_relations::{Relation, split_atom};
use std::alloc::{AllocError, Global};

/// The relation of an atom.
fn atom_relation(e: &Expr<Global>) -> Relation
    ensures { relation_in result ≡ relation_of (atom_in (tree_of e.now)) }
{
    let (word, terms) = split_atom(e);
    Relation {
        word,
        arity: terms.len(),
    }
}

/// The relation of the atom behind a `not`, or one without a name where there is none.
fn relation_behind(parts: &[Expr<Global>]) -> Relation
    ensures { relation_in result ≡ relation_of (atom_of (negated (trees_of (trees_in parts.now)))) }
{
    match parts.split_first() {
        None => Relation {
            word: b"",
            arity: 0,
        },
        Some((part, _)) => atom_relation(part),
    }
}

/// Adds the relation of the atom behind a `not`.
fn add_negated<'a>(
    parts: &'a [Expr<Global>],
    found: &mut Vec<Relation<'a>>,
) -> Result<(), AllocError>
    ensures { OnOk result (map relation_in found.new.items ≡ map relation_in found.old.items ++ relation_of (atom_of (negated (trees_of (trees_in parts.now)))) ∷ []) }
{
    found.push(relation_behind(parts))?;
    Ok(())
}

/// Adds the relations of the negated atoms in a tree.
#[cycle(gathering)]
fn gather<'a>(e: &'a Expr<Global>, found: &mut Vec<Relation<'a>>) -> Result<(), AllocError>
    ensures { OnOk result (map relation_in found.new.items ≡ map relation_in found.old.items ++ negated_among (literals_in (tree_of e.now))) }
{
    match e {
        Expr::Name(_) => Ok(()),
        Expr::List(parts) => match split_word(parts) {
            None => Ok(()),
            Some((word, rest)) => match connective_of(word) {
                Connective::Or | Connective::And => gather_all(rest, found),
                Connective::Not => add_negated(rest, found),
                Connective::Nothing => Ok(()),
            },
        },
    }
}

/// Adds the relations of the negated atoms in trees.
#[cycle(gathering)]
fn gather_all<'a>(
    parts: &'a [Expr<Global>],
    found: &mut Vec<Relation<'a>>,
) -> Result<(), AllocError>
    ensures { OnOk result (map relation_in found.new.items ≡ map relation_in found.old.items ++ negated_among (literals_of_all (trees_of (trees_in parts.now)))) }
{
    for part in parts {
        gather(part, found)?;
    }
    Ok(())
}

/// The relations of the negated atoms of an item's body, in the order of the text.
pub fn negated_by(alloc: Global, item: &Expr<Global>) -> Result<Vec<Relation>, AllocError>
    ensures { IfOk result (λ found. map relation_in found.items ≡ negated_relations (tree_of item.now)) }
{
    let mut found = Vec::new(alloc);
    let (_, body) = split_item(item);
    gather_all(body, &mut found)?;
    Ok(found)
}

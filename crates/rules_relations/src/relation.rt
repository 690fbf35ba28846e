//! Relations by their names and numbers of arguments.
ghost use Rattle.std.specs.Prelude.{◌≡◌};
ghost use Rattle.statement.specs.Clause.{relation_eq, relation_of};
ghost use Rattle.statement.specs.Items.{atom_in, item_head};
ghost use Rattle.kif.specs.View.{tree_of, trees_in};
ghost use Rattle.statement.specs.Tree.{name_eq, trees_of};
ghost use Rattle.rules_relations.specs.Relations.{relation_in};

use kif::Expr;
use rules_profile::{split_item, split_word};
use std::alloc::Allocator;

/// A relation: its name, and its number of arguments.
#[derive(Clone, Copy, Debug, PartialEq, Eq, PartialOrd, Ord, Hash)]
pub struct Relation<'a> {
    pub word: &'a [u8],
    pub arity: usize,
}

/// Whether a name with so many arguments is the relation.
pub fn is_same(word: &[u8], arity: usize, relation: &Relation) -> bool
    ensures { result ≡ relation_eq (record { word = word.now; arity = arity }) (relation_in relation.now) }
{
    is_same_name(word, relation.word) && arity == relation.arity
}

/// Whether two names have the same bytes.
pub(crate) fn is_same_name(one: &[u8], other: &[u8]) -> bool
    ensures { result ≡ name_eq one.now other.now }
{
    one == other
}

/// The name of an atom, and its terms. A tree that is no atom has a name without bytes, and no terms.
pub fn split_atom<A: Allocator>(e: &Expr<A>) -> (&[u8], &[Expr<A>])
    ensures { atom_in (tree_of e.now) ≡ record { word = result.0.now; terms = trees_of (trees_in result.1.now) } }
{
    match e {
        Expr::Name(word) => (word, &[]),
        Expr::List(parts) => match split_word(parts) {
            None => (b"", &[]),
            Some((word, terms)) => (word, terms),
        },
    }
}

/// The relation of an atom.
pub(crate) fn relation_of_atom<A: Allocator>(e: &Expr<A>) -> Relation
    ensures { relation_in result ≡ relation_of (atom_in (tree_of e.now)) }
{
    let (word, terms) = split_atom(e);
    Relation {
        word,
        arity: terms.len(),
    }
}

/// The relation that an item heads.
pub fn head_of<A: Allocator>(item: &Expr<A>) -> Relation
    ensures { relation_in result ≡ relation_of (item_head (tree_of item.now)) }
{
    let (head, _) = split_item(item);
    relation_of_atom(head)
}

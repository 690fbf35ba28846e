//! Literals and items of layers, beside those that were found.
ghost use Rattle.std.specs.Prelude.{◌≡◌, map};
ghost use Rattle.statement.specs.Tree.{name_eq, trees_of};
ghost use Rattle.statement.specs.Clause.{atom_eq};
ghost use Rattle.statement.specs.Items.{atom_in};
ghost use Rattle.kif.specs.View.{tree_of, trees_in};
ghost use Rattle.rules_relations.specs.Relations.{relation_in};
ghost use Rattle.unroll_layers.specs.Naming.{words_in};
ghost use Rattle.unroll_layers.specs.Layering as test;
ghost use Rattle.unroll_layers.specs.Layering.{pairwise};

use crate::kinds::{is_own_atom, is_plain};
use crate::naming::name_of;
use kif::Expr;
use rules_profile::{are_same_trees, split_item};
use rules_relations::{Relation, split_atom};
use std::alloc::Global;
use std::slice::from_ref;

/// Whether two names have the same bytes.
fn is_same_name(one: &[u8], other: &[u8]) -> bool
    ensures { result ≡ name_eq one.now other.now }
{
    one == other
}

/// Whether a tree is an atom of this name and these terms.
pub(crate) fn is_atom_of(e: &Expr<Global>, name: &[u8], terms: &[Expr<Global>]) -> bool
    ensures { result ≡ atom_eq (atom_in (tree_of e.now)) (record { word = name.now; terms = trees_of (trees_in terms.now) }) }
{
    let (word, others) = split_atom(e);
    is_same_name(word, name) && are_same_trees(others, terms)
}

/// Whether the second tree is the atom that the first is, in a layer.
pub(crate) fn is_renamed(
    first: &Expr<Global>,
    second: &Expr<Global>,
    own: &[Relation],
    names: &[Vec<u8>],
) -> bool
    ensures { result ≡ test.is_renamed (map relation_in own.now) (words_in names.now) (atom_in (tree_of first.now)) (tree_of second.now) }
{
    let (word, terms) = split_atom(first);
    let relation = Relation {
        word,
        arity: terms.len(),
    };
    let name = name_of(&relation, own, names);
    is_atom_of(second, name, terms)
}

/// Whether the second literal is the first in a layer: an own atom is one of the layer, and all else is the same.
fn is_literal_of(
    first: &Expr<Global>,
    second: &Expr<Global>,
    own: &[Relation],
    names: &[Vec<u8>],
) -> bool
    ensures { result ≡ test.is_literal_of (map relation_in own.now) (words_in names.now) (tree_of first.now) (tree_of second.now) }
{
    if !is_own_atom(first, own) {
        return are_same_trees(from_ref(first), from_ref(second));
    }
    let is_renamed = is_renamed(first, second, own, names);
    is_plain(second) && is_renamed
}

/// Whether literals are others in a layer, each that at its place.
fn are_literals_of(
    firsts: &[Expr<Global>],
    seconds: &[Expr<Global>],
    own: &[Relation],
    names: &[Vec<u8>],
) -> bool
    ensures { result ≡ pairwise (test.is_literal_of (map relation_in own.now) (words_in names.now)) (trees_in firsts.now) (trees_in seconds.now) }
{
    if firsts.len() != seconds.len() {
        return false;
    }
    for (place, first) in firsts.iter().enumerate() {
        if !is_literal_of(first, &seconds[place], own, names) {
            return false;
        }
    }
    true
}

/// Whether the second item is the first in a layer, by the names of this layer and of the one before it.
pub(crate) fn is_item_of(
    first: &Expr<Global>,
    second: &Expr<Global>,
    own: &[Relation],
    names: &[Vec<u8>],
    before: &[Vec<u8>],
) -> bool
    ensures { result ≡ test.is_item_of (map relation_in own.now) (words_in names.now) (words_in before.now)
        (tree_of first.now) (tree_of second.now) }
{
    let (head, body) = split_item(first);
    let (other, others) = split_item(second);
    let is_head = is_renamed(head, other, own, names);
    is_head && are_literals_of(body, others, own, before)
}

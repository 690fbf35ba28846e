//! Whether items state which propositions and which moves there are.
ghost use Rattle.std.specs.Prelude.{◌≡◌, false};
ghost use Rattle.std.specs.Bool.{OnTrue};
ghost use Rattle.statement.specs.Tree.{trees_of};
ghost use Rattle.statement.specs.Items.{alternatives};
ghost use Rattle.kif.specs.View.{tree_of, trees_in};
ghost use Rattle.rules_relations.specs.Relations.{relation_in};
ghost use Rattle.rules_relations.specs.Asking.{some_item};
ghost use Rattle.meaning.specs.Possible.{IsStated};
ghost use Rattle.meaning.specs.Extension.{base_relation, input_relation};
ghost use Rattle.unroll_strata.specs.Ranges.{has_reading, some_has_reading, each_has_reading, states_it};

use kif::Expr;
use rules_profile::{Connective, connective_of, split_item, split_word};
use rules_relations::{Relation, heads};
use std::alloc::Allocator;

/// Whether a tree of a body has a reading.
#[cycle(reading)]
fn is_readable<A: Allocator>(e: &Expr<A>) -> bool
    ensures { result ≡ has_reading (tree_of e.now) }
{
    match e {
        Expr::Name(_) => true,
        Expr::List(parts) => match split_word(parts) {
            None => false,
            Some((word, rest)) => match connective_of(word) {
                Connective::Or => is_one_readable(rest),
                Connective::And => are_all_readable(rest),
                Connective::Not | Connective::Nothing => true,
            },
        },
    }
}

/// Whether some tree has a reading.
#[cycle(reading)]
fn is_one_readable<A: Allocator>(parts: &[Expr<A>]) -> bool
    ensures { result ≡ some_has_reading (trees_of (trees_in parts.now)) }
{
    for part in parts {
        if is_readable(part) {
            return true;
        }
    }
    false
}

/// Whether each tree has a reading.
#[cycle(reading)]
fn are_all_readable<A: Allocator>(parts: &[Expr<A>]) -> bool
    ensures { result ≡ each_has_reading (trees_of (trees_in parts.now)) }
{
    for part in parts {
        if !is_readable(part) {
            return false;
        }
    }
    true
}

/// Whether an item heads a relation, and its body has a reading.
fn states<A: Allocator>(item: &Expr<A>, relation: &Relation) -> bool
    ensures { result ≡ states_it (relation_in relation.now) (tree_of item.now) }
{
    let (_, body) = split_item(item);
    heads(item, relation) && are_all_readable(body)
}

/// Whether some item states a relation.
fn some_states<A: Allocator>(items: &[Expr<A>], relation: &Relation) -> bool
    ensures { result ≡ some_item (states_it (relation_in relation.now)) (trees_in items.now) }
{
    for item in items {
        if states(item, relation) {
            return true;
        }
    }
    false
}

/// Whether items state `base`, and items state `input`.
pub fn states_ranges<A: Allocator>(items: &[Expr<A>]) -> bool
    ensures yes { OnTrue result (IsStated (alternatives (trees_in items.now)) base_relation × IsStated (alternatives (trees_in items.now)) input_relation) }
    ensures no { result ≡ false → (IsStated (alternatives (trees_in items.now)) base_relation × IsStated (alternatives (trees_in items.now)) input_relation) → ⊥ }
{
    some_states(
        items,
        &Relation {
            word: b"base",
            arity: 1,
        },
    ) && some_states(
        items,
        &Relation {
            word: b"input",
            arity: 2,
        },
    )
}

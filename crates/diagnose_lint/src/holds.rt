//! Whether findings are true.
ghost use Rattle.std.specs.Prelude.{◌≡◌, ◌&&◌, ◌||◌, not, List};
ghost use Rattle.statement.specs.Tree.{Tree};
ghost use Rattle.kif.specs.View.{tree_of};
ghost use Rattle.rules_relations.specs.Relations.{relation_in};
ghost use Rattle.rules_relations.specs.Asking.{heads_it, some_item};
ghost use Rattle.rules_profile.specs.Uses.{use_in};
ghost use Rattle.diagnose_lint.specs.Findings.{is_never_stated, is_other_arity, is_never_asked, uses_foreign, holds_of};
ghost use Rattle.diagnose_lint.specs.Wholes.{IsWhole};

use crate::finding::Finding;
use crate::goals::states_bad_goal;
use crate::whole::Whole;
use crate::words::{is_foreign, is_of_language};
use kif::Expr;
use rules_profile::Word;
use rules_relations::{Relation, asks, heads};
use std::alloc::Allocator;

/// Whether an item asks a relation that is no word of the language and that no item states.
fn is_never_stated<'a, A: Allocator>(
    whole: &Whole<'a>,
    item: &Expr<A>,
    relation: &Relation<'a>,
) -> bool
    ensures { (ts : List Tree) → IsWhole ts whole.now → result ≡ is_never_stated ts (tree_of item.now) (relation_in relation.now) }
{
    asks(item, relation) && !is_of_language(relation.word) && !whole.stated.contains(*relation)
}

/// Whether an item asks such a relation, and some item states one of the same name with so many arguments.
fn is_other_arity<'a, A: Allocator>(
    whole: &Whole<'a>,
    item: &Expr<A>,
    relation: &Relation<'a>,
    arity: usize,
) -> bool
    ensures { (ts : List Tree) → IsWhole ts whole.now → result ≡ is_other_arity ts (tree_of item.now) (relation_in relation.now) arity }
{
    let other = Relation {
        word: relation.word,
        arity,
    };
    is_never_stated(whole, item, relation) && whole.stated.contains(other)
}

/// Whether an item states a relation that is no word of the language and that no item asks.
fn is_never_asked<'a, A: Allocator>(
    whole: &Whole<'a>,
    item: &Expr<A>,
    relation: &Relation<'a>,
) -> bool
    ensures { (ts : List Tree) → IsWhole ts whole.now → result ≡ is_never_asked ts (tree_of item.now) (relation_in relation.now) }
{
    heads(item, relation) && !is_of_language(relation.word) && !whole.asked.contains(*relation)
}

/// Whether an item states or asks a relation whose name belongs to another notation.
fn uses_foreign<A: Allocator>(item: &Expr<A>, relation: &Relation) -> bool
    ensures { result ≡ uses_foreign (tree_of item.now) (relation_in relation.now) }
{
    (heads(item, relation) || asks(item, relation)) && is_foreign(relation.word)
}

/// Whether no item states a word.
fn is_missing(whole: &Whole, word: Word) -> bool
    ensures { (ts : List Tree) → IsWhole ts whole.now
        → result ≡ not (some_item (heads_it (record { word = (use_in word).word; arity = (use_in word).arity })) ts) }
{
    let relation = Relation {
        word: word.name(),
        arity: word.arity(),
    };
    !whole.stated.contains(relation)
}

/// Whether a finding is true of an item.
pub(crate) fn holds_of<'a, A: Allocator>(
    whole: &Whole<'a>,
    item: &Expr<A>,
    finding: &Finding<'a>,
) -> bool
    ensures { (ts : List Tree) → IsWhole ts whole.now → result ≡ holds_of ts (tree_of item.now) finding.now }
{
    match finding {
        Finding::NeverStated(relation) => is_never_stated(whole, item, relation),
        Finding::OtherArity(relation, arity) => is_other_arity(whole, item, relation, *arity),
        Finding::NeverAsked(relation) => is_never_asked(whole, item, relation),
        Finding::BadGoal => states_bad_goal(item),
        Finding::Foreign(relation) => uses_foreign(item, relation),
        Finding::Missing(word) => is_missing(whole, *word),
    }
}

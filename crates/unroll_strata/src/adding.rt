//! Whether items stand in others, but for those of some relations, and say nothing of what is added.
ghost use Rattle.std.specs.Prelude.{◌≡◌, ◌≤◌, ◌<◌, ◌+◌, IfOk, MatchOption, length, take, drop, ⊤};
ghost use Rattle.std.specs.Bool.{OnTrue};
ghost use Rattle.statement.specs.Clause as said;
ghost use Rattle.kif.specs.View.{tree_of, trees_in};
ghost use Rattle.rules_relations.specs.Relations.{relation_in};
ghost use Rattle.meaning.specs.Possible as play;
ghost use Rattle.rules_relations.specs.Asking.{some_item};
ghost use Rattle.unroll_strata.specs.Adding.{Rewrites, heads_one_of, heads_own, kept_items};

use kif::Expr;
use rules_profile::are_same_trees;
use rules_relations::{Relation, RelationSet, asked_in, head_of, is_same, stated_in};
use std::alloc::{AllocError, Allocator, Global};

/// Whether a relation has this name and this number of arguments.
pub(crate) fn is_word(relation: &Relation, word: &[u8], arity: usize) -> bool
    ensures { result ≡ said.is_word word.now arity (relation_in relation.now) }
{
    is_same(relation.word, relation.arity, &Relation { word, arity })
}

/// Whether a relation is a word by which play goes.
fn is_play(relation: &Relation) -> bool
    ensures { result ≡ play.is_play (relation_in relation.now) }
{
    let is_role = is_word(relation, b"role", 1);
    let is_start = is_word(relation, b"init", 1);
    let is_next = is_word(relation, b"next", 1);
    let is_legal = is_word(relation, b"legal", 2);
    let is_goal = is_word(relation, b"goal", 2);
    let is_end = is_word(relation, b"terminal", 0);
    is_role || is_start || is_next || is_legal || is_goal || is_end
}

/// Whether an item heads a relation that is not own, and is in one of two sets or a word by which play goes.
fn is_spoken_of<'a, A: Allocator>(
    own: &RelationSet<'a>,
    stated: &RelationSet<'a>,
    asked: &RelationSet<'a>,
    item: &'a Expr<A>,
) -> bool
    ensures { result ≡ heads_one_of own.now stated.now asked.now (tree_of item.now) }
{
    !own.contains(head_of(item))
        && (stated.contains(head_of(item))
            || asked.contains(head_of(item))
            || is_play(&head_of(item)))
}

/// Whether some item heads a relation that is not own, and is in one of two sets or a word by which play goes.
fn is_any_spoken_of<'a, A: Allocator>(
    own: &RelationSet<'a>,
    stated: &RelationSet<'a>,
    asked: &RelationSet<'a>,
    items: &'a [Expr<A>],
) -> bool
    ensures { result ≡ some_item (heads_one_of own.now stated.now asked.now) (trees_in items.now) }
{
    for item in items {
        if is_spoken_of(own, stated, asked, item) {
            return true;
        }
    }
    false
}

/// Whether two lists have the same tree at a place of each.
fn is_same_at<A: Allocator>(one: &[Expr<A>], at: usize, other: &[Expr<A>], place: usize) -> bool
    ensures { OnTrue result ((at < length one.now) × (place < length other.now)
        × (trees_in (take 1 (drop at one.now)) ≡ trees_in (take 1 (drop place other.now)))) }
{
    if at >= one.len() || place >= other.len() {
        return false;
    }
    let (_, ones) = one.split_at(at);
    let (_, others) = other.split_at(place);
    are_same_trees(ones.split_at(1).0, others.split_at(1).0)
}

/// The first place from one on at which an item heads no own relation; the end of the list, if there is none.
fn past_own<'a, A: Allocator>(own: &RelationSet<'a>, out: &'a [Expr<A>], next: usize) -> usize
    requires { next ≤ length out.now }
    ensures within { result ≤ length out.now }
    ensures kept { kept_items own.now (trees_in (take result out.now)) ≡ kept_items own.now (trees_in (take next out.now)) }
{
    for place in next..out.len() {
        if !own.contains(head_of(&out[place])) {
            return place;
        }
    }
    out.len()
}

/// Up to where a list has the items that head no own relation, where it is known of those before one more.
fn kept_with_one<'a, A: Allocator>(
    own: &RelationSet<'a>,
    items: &'a [Expr<A>],
    place: usize,
    out: &'a [Expr<A>],
    next: usize,
) -> Option<usize>
    requires place { place < length items.now }
    requires next { next ≤ length out.now }
    requires before { kept_items own.now (trees_in (take next out.now)) ≡ kept_items own.now (trees_in (take place items.now)) }
    ensures { MatchOption result ⊤ (λ n. (n ≤ length out.now)
        × (kept_items own.now (trees_in (take n out.now)) ≡ kept_items own.now (trees_in (take (place + 1) items.now)))) }
{
    if own.contains(head_of(&items[place])) {
        return Some(next);
    }
    let at = past_own(own, out, next);
    if !is_same_at(items, place, out, at) {
        return None;
    }
    Some(at + 1)
}

/// Up to where a list has the items that head no own relation, and no other that heads none, if it begins so.
fn kept_before<'a, A: Allocator>(
    own: &RelationSet<'a>,
    items: &'a [Expr<A>],
    out: &'a [Expr<A>],
) -> Option<usize>
    ensures { MatchOption result ⊤ (λ n. (n ≤ length out.now)
        × (kept_items own.now (trees_in (take n out.now)) ≡ kept_items own.now (trees_in items.now))) }
{
    let mut next = 0;
    for place in 0..items.len() {
        next = kept_with_one(own, items, place, out, next)?;
    }
    Some(next)
}

/// Whether a list has, but for those of own relations, the items and behind them others with heads of which these say nothing.
pub fn rewrites<'a, A: Allocator>(
    alloc: Global,
    own: &RelationSet<'a>,
    items: &'a [Expr<A>],
    out: &'a [Expr<A>],
) -> Result<bool, AllocError>
    ensures { IfOk result (λ is_so. OnTrue is_so (Rewrites own.now (trees_in items.now) (trees_in out.now))) }
{
    let Some(next) = kept_before(own, items, out) else {
        return Ok(false);
    };
    let (_, more) = out.split_at(next);
    let stated = stated_in(alloc, items)?;
    let asked = asked_in(alloc, items)?;
    Ok(!is_any_spoken_of(own, &stated, &asked, more))
}

//! What a relation may not rest on.
use crate::ways::way_from;
use kif::Expr;
use rules_profile::Word;
use rules_relations::{Relation, head_of};
use std::alloc::{AllocError, Allocator, Global};

/// What the moves of a turn are asked by.
const DOES: [Relation<'static>; 1] = [Relation {
    word: b"does",
    arity: 2,
}];

/// What changes in play.
const MOVING: [Relation<'static>; 6] = [
    Relation {
        word: b"true",
        arity: 1,
    },
    Relation {
        word: b"does",
        arity: 2,
    },
    Relation {
        word: b"next",
        arity: 1,
    },
    Relation {
        word: b"legal",
        arity: 2,
    },
    Relation {
        word: b"goal",
        arity: 2,
    },
    Relation {
        word: b"terminal",
        arity: 0,
    },
];

/// What a relation of this name may not rest on, if it is one that rests on what it may not.
fn forbidden(word: &[u8]) -> &'static [Relation<'static>] {
    if Word::Legal.is_named(word) || Word::Goal.is_named(word) || Word::Terminal.is_named(word) {
        return &DOES;
    }
    &MOVING
}

/// A shortest way from an item's own relation to one that it may not rest on, if one is found.
pub(crate) fn bad_way<'a, A: Allocator>(
    alloc: Global,
    items: &'a [Expr<A>],
    item: &'a Expr<A>,
) -> Result<Option<Vec<Relation<'a>>>, AllocError> {
    let head = head_of(item);
    way_from(alloc, items, item, forbidden(head.word))
}

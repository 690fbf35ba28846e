//! Words of the language that stand where they may not.
use kif::Expr;
use rules_profile::Word;
use rules_relations::{Relation, asked_by, head_of};
use std::alloc::{AllocError, Allocator, Global};

/// All words that have a meaning in play.
const WORDS: [Word; 11] = [
    Word::Role,
    Word::Base,
    Word::Input,
    Word::Init,
    Word::True,
    Word::Does,
    Word::Next,
    Word::Legal,
    Word::Goal,
    Word::Terminal,
    Word::Distinct,
];

/// How a word of the language is misused.
#[derive(Clone, Copy)]
pub(crate) enum Misuse {
    /// It has another number of arguments than this one.
    Arity(Word),
    /// It heads an item.
    Head(Word),
    /// It stands in a body.
    Body(Word),
    /// It is `role` in a rule, or with a variable.
    Role,
}

/// The word of this name, if there is one.
fn word_named(name: &[u8]) -> Option<Word> {
    WORDS.iter().copied().find(|word| word.is_named(name))
}

/// How the relation of a head misuses a word, if it does.
fn misuse_in_head(relation: &Relation) -> Option<Misuse> {
    let word = word_named(relation.word)?;
    if relation.arity != word.arity() {
        return Some(Misuse::Arity(word));
    }
    match word {
        Word::True | Word::Does | Word::Distinct => Some(Misuse::Head(word)),
        _ => None,
    }
}

/// How the relation of a literal misuses a word, if it does.
fn misuse_in_body(relation: &Relation) -> Option<Misuse> {
    let word = word_named(relation.word)?;
    if relation.arity != word.arity() {
        return Some(Misuse::Arity(word));
    }
    match word {
        Word::Init | Word::Next => Some(Misuse::Body(word)),
        _ => None,
    }
}

/// How an item misuses a word, and the relation that does.
pub(crate) fn misuse_of<A: Allocator>(
    alloc: Global,
    item: &Expr<A>,
) -> Result<Option<(Misuse, Relation)>, AllocError> {
    let head = head_of(item);
    if let Some(misuse) = misuse_in_head(&head) {
        return Ok(Some((misuse, head)));
    }
    let asked = asked_by(alloc, item)?;
    for relation in &asked {
        if let Some(misuse) = misuse_in_body(relation) {
            return Ok(Some((misuse, *relation)));
        }
    }
    if Word::Role.is_named(head.word) {
        return Ok(Some((Misuse::Role, head)));
    }
    Ok(None)
}

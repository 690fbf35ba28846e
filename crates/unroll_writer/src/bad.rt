//! Whether a head rests on what it may not rest on.
use crate::kinds::{Described, fixed_words, no_move_words, on_moves_of};
use std::alloc::AllocError;
use unroll_datalog::{Book, Rule, is_marked};

/// Whether an alternative names a marked relation.
fn names_marked(rule: &Rule, marks: &[bool]) -> bool {
    for asked in &rule.body {
        if !asked.is_distinct && is_marked(marks, asked.pattern.relation) {
            return true;
        }
    }
    false
}

/// Whether the head of an alternative is marked among the first, and a relation of its body among the second.
fn leads_badly(rule: &Rule, heads: &[bool], marks: &[bool]) -> bool {
    is_marked(heads, rule.target.relation) && names_marked(rule, marks)
}

/// The number of the item of an alternative, from 1.
fn item_at(described: &Described, place: usize) -> usize {
    match described.clauses.get(place) {
        Some(clause) => clause.item,
        None => 0,
    }
}

/// The number, from 1, of the first item of which the body rests on what the head may not rest on: that of `legal`, `goal` or `terminal` on a
/// move, that of `base`, `input` or `init` on what moves.
pub fn first_bad(book: &mut Book, described: &Described) -> Result<Option<usize>, AllocError> {
    let no_move = no_move_words(book)?;
    let fixed = fixed_words(book)?;
    let on_moves = on_moves_of(book, &described.rules)?;
    for (place, rule) in described.rules.iter().enumerate() {
        if leads_badly(rule, &no_move, &on_moves)
            || leads_badly(rule, &fixed, &described.kinds.is_moving)
        {
            return Ok(Some(item_at(described, place)));
        }
    }
    Ok(None)
}

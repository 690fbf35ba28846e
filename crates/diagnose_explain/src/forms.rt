//! Which part of a tree keeps it from being an item.
use kif::Expr;
use rules_profile::{Connective, connective_of, is_variable_name, split_item, split_word};
use std::alloc::Allocator;

/// A part of a tree, and why it is none of what may stand there.
#[derive(Drop)]
pub(crate) struct Flaw<'a, A: Allocator> {
    pub(crate) part: &'a Expr<A>,
    pub(crate) words: &'static str,
}

/// What is wrong with a name in front of an atom or a term.
fn flaw_of_word(word: &[u8]) -> Option<&'static str> {
    if is_variable_name(word) {
        return Some("a variable stands in the place of a name");
    }
    if word == b"<=".as_slice() {
        return Some("`<=` stands in front of an item alone, with a head behind it");
    }
    match connective_of(word) {
        Connective::Not => Some("`not` stands in a body alone, before one atom"),
        Connective::Or | Connective::And => Some(
            "`or` and `and` stand in a body alone, and not behind `not`",
        ),
        Connective::Nothing => None,
    }
}

/// The first part of a term that keeps it from being one.
#[cycle(flaws_of_terms)]
fn flaw_of_term<A: Allocator>(e: &Expr<A>) -> Option<Flaw<A>> {
    let Expr::List(parts) = e else {
        return None;
    };
    let Some((word, terms)) = split_word(parts) else {
        return Some(Flaw {
            part: e,
            words: "a list begins with a name",
        });
    };
    if terms.is_empty() {
        return Some(Flaw {
            part: e,
            words: "a term in brackets has arguments: write the name alone",
        });
    }
    if is_variable_name(word) {
        return Some(Flaw {
            part: e,
            words: "a variable stands in the place of a name",
        });
    }
    flaw_of_terms(terms)
}

/// The first part of terms that keeps one from being a term.
#[cycle(flaws_of_terms)]
fn flaw_of_terms<A: Allocator>(terms: &[Expr<A>]) -> Option<Flaw<A>> {
    for term in terms {
        if let Some(flaw) = flaw_of_term(term) {
            return Some(flaw);
        }
    }
    None
}

/// The part that keeps a tree from being an atom.
fn flaw_of_atom<A: Allocator>(e: &Expr<A>) -> Option<Flaw<A>> {
    let (word, terms): (&[u8], &[Expr<A>]) = match e {
        Expr::Name(word) => (word, &[]),
        Expr::List(parts) => match split_word(parts) {
            Some((word, terms)) => (word, terms),
            None => {
                return Some(Flaw {
                    part: e,
                    words: "a list begins with a name",
                });
            }
        },
    };
    match flaw_of_word(word) {
        Some(words) => Some(Flaw { part: e, words }),
        None => flaw_of_terms(terms),
    }
}

/// The part that keeps a tree from being a literal.
#[cycle(flaws_of_literals)]
fn flaw_of_literal<A: Allocator>(e: &Expr<A>) -> Option<Flaw<A>> {
    let Expr::List(parts) = e else {
        return flaw_of_atom(e);
    };
    let Some((word, rest)) = split_word(parts) else {
        return flaw_of_atom(e);
    };
    match connective_of(word) {
        Connective::Nothing => flaw_of_atom(e),
        Connective::Not => match rest {
            [part] => flaw_of_atom(part),
            _ => Some(Flaw {
                part: e,
                words: "`not` has one atom behind it",
            }),
        },
        Connective::Or | Connective::And => {
            if rest.is_empty() {
                return Some(Flaw {
                    part: e,
                    words: "`or` and `and` have a literal behind them",
                });
            }
            flaw_of_literals(rest)
        }
    }
}

/// The first part of literals that keeps one from being a literal.
#[cycle(flaws_of_literals)]
fn flaw_of_literals<A: Allocator>(parts: &[Expr<A>]) -> Option<Flaw<A>> {
    for part in parts {
        if let Some(flaw) = flaw_of_literal(part) {
            return Some(flaw);
        }
    }
    None
}

/// The first part of a tree that keeps it from being an item, if one is found.
pub(crate) fn flaw_of_item<A: Allocator>(item: &Expr<A>) -> Option<Flaw<A>> {
    let (head, body) = split_item(item);
    match flaw_of_atom(head) {
        Some(flaw) => Some(flaw),
        None => flaw_of_literals(body),
    }
}

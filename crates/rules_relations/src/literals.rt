//! The literals of a body, however `or` and `and` join them.
ghost use Rattle.std.specs.Prelude.{◌≡◌};
ghost use Rattle.statement.specs.Tree.{trees_of};
ghost use Rattle.statement.specs.Items.{negated};
ghost use Rattle.kif.specs.View.{tree_of, trees_in};
ghost use Rattle.rules_profile.specs.Standing.{literals_in, literals_of_all};
ghost use Rattle.rules_relations.specs.Probes.{passes, some_of};

use crate::probe::{Probe, passes_atom, passes_literal};
use kif::Expr;
use rules_profile::{Connective, connective_of, split_word};
use std::alloc::Allocator;

/// Whether the negation of the atom behind a `not` is what is looked for.
fn negated_passes<A: Allocator>(
    parts: &[Expr<A>],
    probe: Probe,
    wanted: &[u8],
    count: usize,
) -> bool
    ensures { result ≡ passes probe wanted.now count (negated (trees_of (trees_in parts.now))) }
{
    match parts.split_first() {
        None => passes_literal(probe, wanted, count, b"", parts, true),
        Some((part, _)) => passes_atom(part, true, probe, wanted, count),
    }
}

/// Whether some literal in the tree is what is looked for.
#[cycle(looking)]
pub(crate) fn some_in<A: Allocator>(e: &Expr<A>, probe: Probe, wanted: &[u8], count: usize) -> bool
    ensures { result ≡ some_of (passes probe wanted.now count) (literals_in (tree_of e.now)) }
{
    match e {
        Expr::Name(_) => passes_atom(e, false, probe, wanted, count),
        Expr::List(parts) => match split_word(parts) {
            None => false,
            Some((word, rest)) => match connective_of(word) {
                Connective::Or | Connective::And => some_in_all(rest, probe, wanted, count),
                Connective::Not => negated_passes(rest, probe, wanted, count),
                Connective::Nothing => passes_atom(e, false, probe, wanted, count),
            },
        },
    }
}

/// Whether some literal in the trees is what is looked for.
#[cycle(looking)]
pub(crate) fn some_in_all<A: Allocator>(
    parts: &[Expr<A>],
    probe: Probe,
    wanted: &[u8],
    count: usize,
) -> bool
    ensures { result ≡ some_of (passes probe wanted.now count) (literals_of_all (trees_of (trees_in parts.now))) }
{
    for part in parts {
        if some_in(part, probe, wanted, count) {
            return true;
        }
    }
    false
}

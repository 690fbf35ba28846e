//! The readings of literals: `or` and `and` are spread out, from left to right.
ghost use Rattle.std.specs.Prelude.{◌≡◌, ◌≤◌, ◌∷◌, [], true, length, IfOk, if◌then◌else◌};
ghost use Rattle.statement.specs.Tree.{trees_of};
ghost use Rattle.kif.specs.View.{tree_of, trees_in};
ghost use Rattle.rules_clauses.specs.Adding.{Spreads};
ghost use Rattle.statement.specs.Clause.{positive, negative};
ghost use Rattle.statement.specs.Items.{is_atom, is_one_atom, is_literal, are_literals, atom_in, readings, readings_in_turn, readings_of_all};
ghost use Rattle.rules_clauses.specs.Spread.{lists_of};
ghost use Rattle.rules_clauses.specs.StoreView.{data_of};

use crate::numbered::Span;
use crate::spread::{Picks, add_all};
use crate::store::Store;
use kif::Expr;
use rules_profile::{Connective, connective_of, split_word};
use std::alloc::{AllocError, Allocator, Global};

/// The one reading of an atom or a negated atom: itself alone.
fn read_atom<A: Allocator>(
    alloc: Global,
    store: &mut Store,
    from: usize,
    e: &Expr<A>,
    is_negated: bool,
) -> Result<Vec<Vec<Span>>, AllocError>
    requires variables { from ≤ length (data_of store.old).variables }
    requires atom { is_atom (tree_of e.now) ≡ true }
    ensures { IfOk result (λ lists. Spreads from (data_of store.old) (data_of store.new) (lists_of lists.items)
        (((if is_negated then negative (atom_in (tree_of e.now)) else positive (atom_in (tree_of e.now))) ∷ []) ∷ [])) }
{
    let number = store.add_literal(from, e, is_negated)?;
    let mut reading = Vec::new(alloc);
    reading.push(store.place_of_literal(number))?;
    let mut lists = Vec::new(alloc);
    lists.push(reading)?;
    Ok(lists)
}

/// The atom behind a `not`.
fn only_part<A: Allocator>(parts: &[Expr<A>]) -> &Expr<A>
    requires { is_one_atom (trees_of (trees_in parts.now)) ≡ true }
    ensures { trees_in parts.now ≡ tree_of result.now ∷ [] }
{
    &parts[0]
}

/// The readings of a literal, as lists of where the literals stand that are added.
#[cycle(readings)]
fn read_literal<A: Allocator>(
    alloc: Global,
    store: &mut Store,
    from: usize,
    e: &Expr<A>,
) -> Result<Vec<Vec<Span>>, AllocError>
    requires variables { from ≤ length (data_of store.old).variables }
    requires literal { is_literal (tree_of e.now) ≡ true }
    ensures { IfOk result (λ lists. Spreads from (data_of store.old) (data_of store.new) (lists_of lists.items) (readings (tree_of e.now))) }
{
    let Expr::List(parts) = e else {
        return read_atom(alloc, store, from, e, false);
    };
    match split_word(parts) {
        None => unreachable!(),
        Some((word, rest)) => match connective_of(word) {
            Connective::Or => read_in_turn(alloc, store, from, rest),
            Connective::And => read_all(alloc, store, from, rest),
            Connective::Not => read_atom(alloc, store, from, only_part(rest), true),
            Connective::Nothing => read_atom(alloc, store, from, e, false),
        },
    }
}

/// The readings of each literal, one after the other.
#[cycle(readings)]
fn read_in_turn<A: Allocator>(
    alloc: Global,
    store: &mut Store,
    from: usize,
    parts: &[Expr<A>],
) -> Result<Vec<Vec<Span>>, AllocError>
    requires variables { from ≤ length (data_of store.old).variables }
    requires literals { are_literals (trees_of (trees_in parts.now)) ≡ true }
    ensures { IfOk result (λ lists. Spreads from (data_of store.old) (data_of store.new) (lists_of lists.items)
        (readings_in_turn (trees_of (trees_in parts.now)))) }
{
    let mut all = Vec::new(alloc);
    for part in parts {
        let lists = read_literal(alloc, store, from, part)?;
        add_all(&mut all, lists)?;
    }
    Ok(all)
}

/// The one way to pick readings of no literals.
fn no_picks(alloc: Global) -> Result<Vec<Vec<Span>>, AllocError>
    ensures { IfOk result (λ lists. lists_of lists.items ≡ [] ∷ []) }
{
    let mut lists = Vec::with_capacity(alloc, 1)?;
    lists.push(Vec::new(alloc))?;
    Ok(lists)
}

/// Every way to pick one reading of each literal, the first pick changing slowest.
#[cycle(readings)]
pub(crate) fn read_all<A: Allocator>(
    alloc: Global,
    store: &mut Store,
    from: usize,
    parts: &[Expr<A>],
) -> Result<Vec<Vec<Span>>, AllocError>
    requires variables { from ≤ length (data_of store.old).variables }
    requires literals { are_literals (trees_of (trees_in parts.now)) ≡ true }
    ensures { IfOk result (λ lists. Spreads from (data_of store.old) (data_of store.new) (lists_of lists.items)
        (readings_of_all (trees_of (trees_in parts.now)))) }
{
    if parts.is_empty() {
        return no_picks(alloc);
    }
    let mut picks = Picks::new(alloc)?;
    for part in parts {
        let lists = read_literal(alloc, store, from, part)?;
        picks.pick(alloc, &lists)?;
    }
    picks.made(alloc)
}

//! The readings of literals, as references into their trees: `or` and `and` are spread out, from left to right.
ghost use Rattle.std.specs.Prelude.{◌≡◌, ◌++◌, ◌∷◌, [], IfOk, OnOk};
ghost use Rattle.statement.specs.Tree.{trees_of};
ghost use Rattle.kif.specs.View.{tree_of, trees_in};
ghost use Rattle.unroll_strata.specs.Readings as by;
ghost use Rattle.unroll_strata.specs.Listing.{trees_at, ways_at};

use kif::Expr;
use rules_profile::{Connective, connective_of, split_word};
use std::alloc::{AllocError, Global};

/// The literals of each reading.
pub(crate) type Ways<'a> = Vec<Vec<&'a Expr<Global>>>;

/// The one reading that has no literals.
fn no_literals<'a>(alloc: Global) -> Result<Ways<'a>, AllocError>
    ensures { IfOk result (λ made. ways_at made.items ≡ [] ∷ []) }
{
    let mut made = Vec::new(alloc);
    made.push(Vec::new(alloc))?;
    Ok(made)
}

/// The one reading of an atom or of its negation: itself alone.
fn itself<'a>(alloc: Global, e: &'a Expr<Global>) -> Result<Ways<'a>, AllocError>
    ensures { IfOk result (λ made. ways_at made.items ≡ (tree_of e.now ∷ []) ∷ []) }
{
    let mut way = Vec::new(alloc);
    way.push(e)?;
    let mut made = Vec::new(alloc);
    made.push(way)?;
    Ok(made)
}

/// Literals behind others.
fn joined<'a>(
    alloc: Global,
    first: &[&'a Expr<Global>],
    second: &[&'a Expr<Global>],
) -> Result<Vec<&'a Expr<Global>>, AllocError>
    ensures { IfOk result (λ both. trees_at both.items ≡ trees_at first.now ++ trees_at second.now) }
{
    let mut both = Vec::from_slice(alloc, first)?;
    both.extend_from_slice(second)?;
    Ok(both)
}

/// Adds each list of literals with the first before it.
fn add_behind<'a>(
    alloc: Global,
    first: &[&'a Expr<Global>],
    seconds: &[Vec<&'a Expr<Global>>],
    made: &mut Ways<'a>,
) -> Result<(), AllocError>
    ensures { OnOk result (ways_at made.new.items
        ≡ ways_at made.old.items ++ by.ways_behind (trees_at first.now) (ways_at seconds.now)) }
{
    for second in seconds {
        let both = joined(alloc, first, second)?;
        made.push(both)?;
    }
    Ok(())
}

/// Every pick of one of the first and one of the second, the first changing slowest.
fn picks<'a>(
    alloc: Global,
    firsts: &[Vec<&'a Expr<Global>>],
    seconds: &[Vec<&'a Expr<Global>>],
) -> Result<Ways<'a>, AllocError>
    ensures { IfOk result (λ made. ways_at made.items ≡ by.way_picks (ways_at firsts.now) (ways_at seconds.now)) }
{
    let mut made = Vec::new(alloc);
    for first in firsts {
        add_behind(alloc, first, seconds, &mut made)?;
    }
    Ok(made)
}

/// The readings of a literal.
#[cycle(parting)]
fn ways_of<'a>(e: &'a Expr<Global>, alloc: Global) -> Result<Ways<'a>, AllocError>
    ensures { IfOk result (λ made. ways_at made.items ≡ by.ways (tree_of e.now)) }
{
    match e {
        Expr::Name(_) => itself(alloc, e),
        Expr::List(parts) => match split_word(parts) {
            None => Ok(Vec::new(alloc)),
            Some((word, rest)) => match connective_of(word) {
                Connective::Or => ways_in_turn(rest, alloc),
                Connective::And => ways_of_all(rest, alloc),
                Connective::Not | Connective::Nothing => itself(alloc, e),
            },
        },
    }
}

/// The readings of each literal, one after the other.
#[cycle(parting)]
fn ways_in_turn<'a>(parts: &'a [Expr<Global>], alloc: Global) -> Result<Ways<'a>, AllocError>
    ensures { IfOk result (λ made. ways_at made.items ≡ by.ways_in_turn (trees_of (trees_in parts.now))) }
{
    let mut all = Vec::new(alloc);
    for part in parts {
        let mut ways = ways_of(part, alloc)?;
        all.append(&mut ways)?;
    }
    Ok(all)
}

/// Every pick of one reading of each literal, the first changing slowest.
#[cycle(parting)]
pub(crate) fn ways_of_all<'a>(
    parts: &'a [Expr<Global>],
    alloc: Global,
) -> Result<Ways<'a>, AllocError>
    ensures { IfOk result (λ made. ways_at made.items ≡ by.ways_of_all (trees_of (trees_in parts.now))) }
{
    let mut all = no_literals(alloc)?;
    for part in parts {
        let ways = ways_of(part, alloc)?;
        all = picks(alloc, &all, &ways)?;
    }
    Ok(all)
}

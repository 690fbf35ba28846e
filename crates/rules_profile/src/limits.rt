//! How much a description may have: the limits, and how the alternatives of an item are counted.
ghost use Rattle.std.specs.Prelude.{◌≡◌, ◌+◌, min, length, nat_lt};
ghost use Rattle.statement.specs.Tree.{trees_of};
ghost use Rattle.kif.specs.View.{tree_of, trees_in};
ghost use Rattle.statement.specs.RuleLimits.{most_alternatives};
ghost use Rattle.statement.specs.Items.{readings, readings_in_turn, readings_of_all, item_alternatives};

use crate::forms::{Connective, connective_of, split_item, split_word};
use kif::Expr;
use std::alloc::Allocator;

/// The most items that a description may have.
pub const ITEMS_LIMIT: usize = 4_096;

/// The most different variables that an item may have.
pub const VARIABLES_LIMIT: usize = 32;

/// The most alternatives that an item may stand for.
pub const ALTERNATIVES_LIMIT: u32 = 64;

/// The most different roles that the items may state.
pub const ROLES_LIMIT: usize = 16;

/// A number that stands for itself and for all that are greater.
const MANY: u32 = ALTERNATIVES_LIMIT + 1;

/// The number of alternatives of a literal, where the number above the limit stands for all that are greater.
#[cycle(alternatives)]
fn count_readings<A: Allocator>(e: &Expr<A>) -> u32
    ensures { result ≡ min (most_alternatives + 1) (length (readings (tree_of e.now))) }
{
    match e {
        Expr::Name(_) => 1,
        Expr::List(parts) => match split_word(parts) {
            None => 0,
            Some((word, rest)) => match connective_of(word) {
                Connective::Or => count_readings_in_turn(rest),
                Connective::And => count_readings_of_all(rest),
                Connective::Not | Connective::Nothing => 1,
            },
        },
    }
}

/// The sum of the numbers of alternatives of the literals.
#[cycle(alternatives)]
fn count_readings_in_turn<A: Allocator>(parts: &[Expr<A>]) -> u32
    ensures { result ≡ min (most_alternatives + 1) (length (readings_in_turn (trees_of (trees_in parts.now)))) }
{
    let mut count = 0;
    for part in parts {
        count = (count + count_readings(part)).min(MANY);
    }
    count
}

/// The product of the numbers of alternatives of the literals.
#[cycle(alternatives)]
fn count_readings_of_all<A: Allocator>(parts: &[Expr<A>]) -> u32
    ensures { result ≡ min (most_alternatives + 1) (length (readings_of_all (trees_of (trees_in parts.now)))) }
{
    let mut count = 1;
    for part in parts {
        count = (count * count_readings(part)).min(MANY);
    }
    count
}

/// Whether an item stands for more alternatives than the limit. Nothing is spread out.
pub(crate) fn has_many_alternatives<A: Allocator>(e: &Expr<A>) -> bool
    ensures { result ≡ nat_lt most_alternatives (length (item_alternatives (tree_of e.now))) }
{
    let (_, body) = split_item(e);
    count_readings_of_all(body) == MANY
}

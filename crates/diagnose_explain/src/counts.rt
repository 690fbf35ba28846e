//! How many alternatives an item has.
ghost use Rattle.std.specs.Prelude.{◌≡◌, ◌≤◌, ◌+◌, ◌*◌, min, length};
ghost use Rattle.statement.specs.Tree.{trees_of};
ghost use Rattle.kif.specs.View.{tree_of, trees_in};
ghost use Rattle.statement.specs.Items.{readings, readings_in_turn, readings_of_all, item_alternatives};
ghost use Rattle.diagnose_explain.specs.Counting.{most_counted};

use kif::Expr;
use rules_profile::{Connective, connective_of, split_item, split_word};
use std::alloc::Allocator;

/// A number that stands for itself and for all that are greater.
pub const MOST_COUNTED: usize = 1_000_000_000;

/// A sum, where the greatest number stands for all that are greater.
fn sum_of(count: usize, more: usize) -> usize
    requires count { count ≤ most_counted }
    requires more { more ≤ most_counted }
    ensures { result ≡ min most_counted (count + more) }
{
    (count + more).min(MOST_COUNTED)
}

/// A product, where the greatest number stands for all that are greater.
fn product_of(count: usize, more: usize) -> usize
    requires count { count ≤ most_counted }
    requires more { more ≤ most_counted }
    ensures { result ≡ min most_counted (count * more) }
{
    (count * more).min(MOST_COUNTED)
}

/// How many alternatives a literal has.
#[cycle(alternatives)]
fn count_readings<A: Allocator>(e: &Expr<A>) -> usize
    ensures { result ≡ min most_counted (length (readings (tree_of e.now))) }
{
    match e {
        Expr::Name(_) => 1,
        Expr::List(parts) => match split_word(parts) {
            None => 0,
            Some((word, rest)) => match connective_of(word) {
                Connective::Or => count_in_turn(rest),
                Connective::And => count_of_all(rest),
                Connective::Not | Connective::Nothing => 1,
            },
        },
    }
}

/// The sum of the numbers of alternatives of literals.
#[cycle(alternatives)]
fn count_in_turn<A: Allocator>(parts: &[Expr<A>]) -> usize
    ensures { result ≡ min most_counted (length (readings_in_turn (trees_of (trees_in parts.now)))) }
{
    let mut count = 0;
    for part in parts {
        count = sum_of(count, count_readings(part));
    }
    count
}

/// The product of the numbers of alternatives of literals.
#[cycle(alternatives)]
fn count_of_all<A: Allocator>(parts: &[Expr<A>]) -> usize
    ensures { result ≡ min most_counted (length (readings_of_all (trees_of (trees_in parts.now)))) }
{
    let mut count = 1;
    for part in parts {
        count = product_of(count, count_readings(part));
    }
    count
}

/// How many alternatives an item stands for. `MOST_COUNTED` stands for all greater numbers too.
pub fn count_alternatives<A: Allocator>(item: &Expr<A>) -> usize
    ensures { result ≡ min most_counted (length (item_alternatives (tree_of item.now))) }
{
    let (_, body) = split_item(item);
    count_of_all(body)
}

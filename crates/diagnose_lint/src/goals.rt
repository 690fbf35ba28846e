//! Goals whose value is no number.
ghost use Rattle.std.specs.Prelude.{◌≡◌, ◌&&◌, ◌||◌, not};
ghost use Rattle.statement.specs.Tree.{trees_of};
ghost use Rattle.kif.specs.View.{tree_of, trees_in};
ghost use Rattle.diagnose_lint.specs.Names.{is_digit, is_goal_number, is_goal_value, has_bad_value, states_bad_goal};

use kif::Expr;
use rules_profile::{Word, is_variable_name, split_item};
use rules_relations::split_atom;
use std::alloc::Allocator;

/// Whether a byte is a digit.
fn is_digit(byte: u8) -> bool
    ensures { result ≡ is_digit byte }
{
    matches!(byte, b'0'..=b'9')
}

/// Whether bytes are a number from 0 to 100 in decimal, without a leading zero.
pub fn is_goal_number(bytes: &[u8]) -> bool
    ensures { result ≡ is_goal_number bytes.now }
{
    match bytes {
        [] => false,
        [digit] => is_digit(*digit),
        [first, digit] => is_digit(*first) && *first != b'0' && is_digit(*digit),
        _ => bytes == b"100".as_slice(),
    }
}

/// Whether a term is such a number, or a variable, which may stand for one.
fn is_goal_value<A: Allocator>(e: &Expr<A>) -> bool
    ensures { result ≡ is_goal_value (tree_of e.now) }
{
    match e {
        Expr::Name(word) => is_variable_name(word) || is_goal_number(word),
        Expr::List(_) => false,
    }
}

/// Whether the second of two terms is neither.
fn has_bad_value<A: Allocator>(terms: &[Expr<A>]) -> bool
    ensures { result ≡ has_bad_value (trees_of (trees_in terms.now)) }
{
    if terms.len() != 2 {
        return false;
    }
    !is_goal_value(&terms[1])
}

/// Whether an item states a goal whose value is neither.
pub(crate) fn states_bad_goal<A: Allocator>(item: &Expr<A>) -> bool
    ensures { result ≡ states_bad_goal (tree_of item.now) }
{
    let (head, _) = split_item(item);
    let (word, terms) = split_atom(head);
    Word::Goal.is_named(word) && has_bad_value(terms)
}

/// Whether an item states a goal whose value is a variable.
pub fn has_open_goal<A: Allocator>(item: &Expr<A>) -> bool {
    let (head, _) = split_item(item);
    let (word, terms) = split_atom(head);
    if !Word::Goal.is_named(word) {
        return false;
    }
    match terms {
        [_, Expr::Name(value)] => is_variable_name(value),
        _ => false,
    }
}

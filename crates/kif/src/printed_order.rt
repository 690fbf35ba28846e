//! The order of trees by their canonical texts, without the texts.
//!
//! A part is compared together with the byte behind it, since the name byte `!` sorts below `)` and above the space.
ghost use Rattle.std.specs.Prelude.{◌≡◌, ◌≢◌, ◌<◌, ◌≤◌, ◌+◌, ◌%◌, ◌↔◌, false, length, slice_index, take};
ghost use Rattle.statement.specs.Tree.{name, list, trees_of, printed_cmp};
ghost use Rattle.statement.specs.Lexical.{HasNames};
ghost use Rattle.statement.specs.Tree.{is_name_tree};
ghost use Rattle.kif.specs.View.{tree_of, trees_in};
ghost use Rattle.kif.specs.Marks.{BeginsWithMark, Orders, compared_bytes, marked_cmp, marks, name_mark, parts_marks};

use crate::expr::Expr;
use std::alloc::Allocator;
use std::cmp::Ordering;

// A bracket or a space is compared as twice its byte, and the end of a text comes before all marks.
const END: u16 = 0;

const SPACE: u16 = 2 * (b' ' as u16);

const OPENING: u16 = 2 * (b'(' as u16);

const CLOSING: u16 = 2 * (b')' as u16);

/// The order of two trees by the bytes of their canonical texts; a text that begins another comes
/// first.
///
/// This holds where the names are of name bytes, as in every tree that `read` gives. Trees with
/// other names are ordered as well: there a byte of a name stands just behind a bracket or a space
/// of the same code, and a name without bytes is as one byte 0. So any trees can be sorted.
///
/// Takes no memory.
pub fn order<A: Allocator>(x: &Expr<A>, y: &Expr<A>) -> Ordering
    ensures printed { HasNames (tree_of x.now) → HasNames (tree_of y.now)
        → result ≡ printed_cmp (tree_of x.now) (tree_of y.now) }
    ensures marked { result ≡ marked_cmp (tree_of x.now) (tree_of y.now) }
{
    order_of_trees(x, END, y, END)
}

/// The order of two trees, each with the mark behind it.
#[cycle(order)]
fn order_of_trees<A: Allocator>(x: &Expr<A>, x_next: u16, y: &Expr<A>, y_next: u16) -> Ordering
    requires x_ends { x_next % 2 ≡ 0 }
    requires y_ends { y_next % 2 ≡ 0 }
    ensures { Orders result (marks (tree_of x.now)) x_next (marks (tree_of y.now)) y_next }
{
    match (x, y) {
        (Expr::Name(name), Expr::Name(other)) => order_of_names(name, x_next, other, y_next),
        (Expr::List(parts), Expr::List(others)) => order_of_parts(parts, x_next, others, y_next),
        _ => first_mark(x).cmp(&first_mark(y)),
    }
}

/// The order of two lists by their parts, each list with the mark behind it.
#[cycle(order)]
fn order_of_parts<A: Allocator>(
    xs: &[Expr<A>],
    x_next: u16,
    ys: &[Expr<A>],
    y_next: u16,
) -> Ordering
    requires x_ends { x_next % 2 ≡ 0 }
    requires y_ends { y_next % 2 ≡ 0 }
    ensures { Orders result (marks (list (trees_of (trees_in xs.now)))) x_next
        (marks (list (trees_of (trees_in ys.now)))) y_next }
{
    if xs.is_empty() != ys.is_empty() {
        return first_within(xs).cmp(&first_within(ys));
    }
    for (index, part) in xs.iter().enumerate() {
        let part_next = mark_behind(index, xs.len());
        let other_next = mark_behind(index, ys.len());
        match order_of_trees(part, part_next, &ys[index], other_next) {
            Ordering::Equal => {}
            decided => return decided,
        }
    }
    x_next.cmp(&y_next)
}

/// The order of two names, each with the mark behind it.
fn order_of_names(x: &[u8], x_next: u16, y: &[u8], y_next: u16) -> Ordering
    requires x_ends { x_next % 2 ≡ 0 }
    requires y_ends { y_next % 2 ≡ 0 }
    ensures { Orders result (marks (name x.now)) x_next (marks (name y.now)) y_next }
{
    let x = compared_bytes(x);
    let y = compared_bytes(y);
    let same = common_length(x, y);
    mark_at(x, same, x_next).cmp(&mark_at(y, same, y_next))
}

/// The bytes that a name is compared by.
fn compared_bytes(name: &[u8]) -> &[u8]
    ensures { result.now ≡ compared_bytes name.now }
{
    if name.is_empty() { b"\0" } else { name }
}

/// How many bytes two names begin with in common.
fn common_length(x: &[u8], y: &[u8]) -> usize
    ensures x_within { result ≤ length x.now }
    ensures y_within { result ≤ length y.now }
    ensures same { take result x.now ≡ take result y.now }
    ensures longest { result < length x.now → result < length y.now
        → slice_index x.now result ≢ slice_index y.now result }
{
    for (index, byte) in x.iter().enumerate() {
        if index == y.len() || *byte != y[index] {
            return index;
        }
    }
    x.len()
}

/// The mark of a byte in a name.
fn name_mark(byte: u8) -> u16
    ensures { result ≡ name_mark byte }
{
    2 * u16::from(byte) + 1
}

/// The mark of a name's byte at `index`, or the mark behind the name.
fn mark_at(name: &[u8], index: usize, next: u16) -> u16
    ensures inside { index < length name.now → result ≡ name_mark (slice_index name.now index) }
    ensures behind { length name.now ≤ index → result ≡ next }
{
    match name.get(index) {
        Some(byte) => name_mark(*byte),
        None => next,
    }
}

/// The mark behind the part at `index`, of `count` parts of a list.
fn mark_behind(index: usize, count: usize) -> u16
    requires { index < count }
    ensures more { index + 1 < count → result ≡ 64 }
    ensures last { count ≤ index + 1 → result ≡ 82 }
    ensures even { result % 2 ≡ 0 }
{
    if index + 1 < count { SPACE } else { CLOSING }
}

/// The first mark of a tree.
fn first_mark<A: Allocator>(tree: &Expr<A>) -> u16
    ensures begins { BeginsWithMark (marks (tree_of tree.now)) result }
    ensures opening { (result ≡ 80) ↔ (is_name_tree (tree_of tree.now) ≡ false) }
    ensures no_closing { result ≢ 82 }
{
    match tree {
        Expr::Name(name) => name_mark(compared_bytes(name)[0]),
        Expr::List(_) => OPENING,
    }
}

/// The first mark behind the opening bracket of a list.
fn first_within<A: Allocator>(parts: &[Expr<A>]) -> u16
    ensures begins { BeginsWithMark (parts_marks (trees_of (trees_in parts.now))) result }
    ensures closing { (result ≡ 82) ↔ (length parts.now ≡ 0) }
{
    match parts.first() {
        Some(part) => first_mark(part),
        None => CLOSING,
    }
}

//! The printed order of worked trees, over each allocator.
use bumpalo::Bump;
use kif::{Expr, order, read, text_is};
use linked_list_allocator::LocalHeap;
use std::alloc::Allocator;
use std::cmp::Ordering;
use std::test::Fail;

/// The canonical texts of trees, in printed order.
const ASCENDING: &[u8] =
    b"! ' (!) (()) () (a b) (a!) (a) (ab) (m (a)) (m 1) (m 10) (m 2) * a a! ab b";

/// Whether each tree comes before those that follow it, behind those before it, and equals itself.
fn ascend<A: Allocator>(trees: &[Expr<A>]) -> bool {
    for (row, x) in trees.iter().enumerate() {
        for (column, y) in trees.iter().enumerate() {
            if order(x, y) != row.cmp(&column) {
                return false;
            }
        }
    }
    true
}

/// Whether the trees ascend that are read into a place.
fn ascend_in<A: Allocator + Clone>(place: A) -> Result<bool, Fail> {
    let trees = read(place, ASCENDING)?;
    Ok(trees.len() == 18 && ascend(&trees))
}

#[test]
fn trees_ascend_in_memory_and_in_an_arena(rt: HostRuntime) -> Result<(), Fail> {
    let bump = Bump::new(rt.alloc());
    assert!(rt; ascend_in(rt.alloc())?);
    assert!(rt; ascend_in(&bump)?);
    Ok(())
}

#[test]
fn the_order_takes_no_memory(rt: HostRuntime) -> Result<(), Fail> {
    let heap = LocalHeap::new(rt.alloc(), 65536)?;
    let trees = read(&heap, ASCENDING)?;
    let used = heap.used();
    assert!(rt; ascend(&trees));
    assert_eq!(rt; heap.used(), used);
    Ok(())
}

#[test]
fn trees_are_sorted_by_their_order(rt: HostRuntime) -> Result<(), Fail> {
    let mut trees = read(rt.alloc(), b"(m 2) (m 10) (m (a)) (m 1)")?;
    trees.sort_unstable_by(|x, y| order(x, y));
    let texts: [&[u8]; 4] = [b"(m (a))", b"(m 1)", b"(m 10)", b"(m 2)"];
    assert_eq!(rt; trees.len(), texts.len());
    for (tree, text) in trees.iter().zip(texts) {
        assert!(rt; text_is(tree, text));
    }
    Ok(())
}

#[test]
fn names_of_any_bytes_are_ordered(rt: HostRuntime) -> Result<(), Fail> {
    let spaced = Expr::Name(Vec::from_slice(rt.alloc(), b"a b")?);
    let blank = Expr::Name(Vec::new(rt.alloc()));
    assert_eq!(rt; order(&spaced, &spaced), Ordering::Equal);
    assert_eq!(rt; order(&blank, &spaced), Ordering::Less);
    assert_eq!(rt; order(&spaced, &blank), Ordering::Greater);
    Ok(())
}

//! Worked texts, and the memory in which their trees stand.
use bumpalo::Bump;
use kif::{Expr, KifFault, WriteFault, copy_to, count_parts, is_name, read, text_is, write};
use linked_list_allocator::LocalHeap;
use std::alloc::{Allocator, Global};
use std::test::Fail;
use test_games::memory::mark;
use test_games::texts::MARKS;

/// What is told of a copy of a tree in an arena: whether it is this text, a longer one, a shorter one, or a name, and how many parts it has.
fn told_of_copy<A: Allocator>(alloc: Global, tree: &Expr<A>) -> Result<([bool; 4], usize), Fail> {
    let bump = Bump::new(alloc);
    let copy = copy_to(&bump, tree)?;
    let told = [
        text_is(&copy, b"(mark (x 1) ())"),
        text_is(&copy, b"(mark (x 1) ()) "),
        text_is(&copy, b"(mark (x 1)"),
        is_name(&copy),
    ];
    Ok((told, count_parts(&copy)))
}

#[test]
fn trees_are_copied_and_compared(rt: HostRuntime) -> Result<(), Fail> {
    for tree in &read(rt.alloc(), b"(mark (x 1) ())")? {
        assert_eq!(rt;
            told_of_copy(rt.alloc(), tree)?,
            ([true, false, false, false], 3)
        );
    }
    Ok(())
}

#[test]
fn a_writer_that_gets_full_has_a_beginning(rt: HostRuntime) -> Result<(), Fail> {
    for tree in &read(rt.alloc(), b"(mark (x 1) ())")? {
        let mut bytes = [0; 8];
        let mut room = bytes.as_mut_slice();
        assert_eq!(rt; write(tree, &mut room), Err(WriteFault));
        assert_eq!(rt; bytes.as_slice(), b"(mark (x".as_slice());
    }
    Ok(())
}

#[test]
fn a_text_is_read(rt: HostRuntime) -> Result<(), Fail> {
    mark(rt.alloc());
    let trees = read(rt.alloc(), b"(mark (x 1) ())");
    mark(rt.alloc());
    assert_eq!(rt; trees?.len(), 1);
    Ok(())
}

#[test]
fn a_tree_is_copied(rt: HostRuntime) -> Result<(), Fail> {
    for tree in &read(rt.alloc(), b"(mark (x 1) ())")? {
        mark(rt.alloc());
        let copy = copy_to(rt.alloc(), tree);
        mark(rt.alloc());
        assert!(rt; text_is(&copy?, b"(mark (x 1) ())"));
    }
    Ok(())
}

#[test]
fn want_of_memory_is_answered(rt: HostRuntime) -> Result<(), Fail> {
    let heap = LocalHeap::new(rt.alloc(), 128)?;
    let got = read(&heap, b"(a b c d e f g h i j k l m n o p)");
    assert_eq!(rt; got.err(), Some(KifFault::NoMemory));
    assert_eq!(rt; heap.used(), 0);
    Ok(())
}

#[test]
fn a_heap_that_was_too_small_serves_a_smaller_text(rt: HostRuntime) -> Result<(), Fail> {
    let heap = LocalHeap::new(rt.alloc(), 4096)?;
    assert_eq!(rt; read(&heap, MARKS).err(), Some(KifFault::NoMemory));
    assert_eq!(rt; heap.used(), 0);
    let trees = read(&heap, b"(role a)")?;
    assert_eq!(rt; trees.len(), 1);
    for tree in &trees {
        let mut text: Vec<u8> = Vec::new(rt.alloc());
        write(tree, &mut text)?;
        assert_eq!(rt; text.as_slice(), b"(role a)".as_slice());
        assert!(rt; text_is(tree, b"(role a)"));
        assert_eq!(rt; count_parts(tree), 2);
    }
    drop(trees);
    assert_eq!(rt; heap.used(), 0);
    Ok(())
}

/// How many trees a text stands for, read into an arena that is empty again afterwards.
fn counted_in(arena: &mut Bump, text: &[u8]) -> Result<usize, Fail> {
    let trees = read(&*arena, text)?;
    let count = trees.len();
    drop(trees);
    let _ = arena.reset();
    Ok(count)
}

/// The same in an arena of its own.
fn counted(alloc: Global, text: &[u8]) -> Result<usize, Fail> {
    let arena = Bump::new(alloc);
    let trees = read(&arena, text)?;
    let found = trees.len();
    Ok(found)
}

#[test]
fn an_arena_serves_again(rt: HostRuntime) -> Result<(), Fail> {
    let mut arena = Bump::new(rt.alloc());
    for _ in 0..3 {
        assert_eq!(rt; counted_in(&mut arena, b"a (b c) ()")?, 3);
    }
    assert_eq!(rt; counted(rt.alloc(), b"a (b c) ()")?, 3);
    Ok(())
}

//! Links and entries that are worked out by hand.
use rules::item_links::{Bound, Links, first_bad_dependence};
use rules::order_of_relations::{Ranked, numbers_in_order};
use std::test::Fail;

#[test]
fn names_the_first_item_that_rests_on_what_it_may_not(rt: HostRuntime) -> Result<(), Fail> {
    // 0 rests on 1, and 1 and 2 rest on each other
    let links = [
        Links {
            head: 0,
            body: vec![in rt.alloc(); 1]?,
        },
        Links {
            head: 1,
            body: vec![in rt.alloc(); 2]?,
        },
        Links {
            head: 2,
            body: vec![in rt.alloc(); 1]?,
        },
    ];
    let bounds = [Bound::Free, Bound::FixedOnly, Bound::NoMove];
    let on_moves = [false, true, false];
    let moving = [false, false, false];
    assert_eq!(rt;
        first_bad_dependence(&bounds, &on_moves, &moving, &links),
        Some(3)
    );
    assert_eq!(rt;
        first_bad_dependence(&bounds, &moving, &on_moves, &links),
        None
    );
    Ok(())
}

fn entry(
    is_moving: bool,
    rank: usize,
    name: &'static [u8],
    arity: usize,
    number: usize,
) -> Ranked<'static> {
    Ranked {
        is_moving,
        rank,
        name,
        arity,
        number,
    }
}

#[test]
fn puts_relations_in_order(rt: HostRuntime) -> Result<(), Fail> {
    let entries = vec![in rt.alloc();
        entry(true, 0, b"a", 0, 0),
        entry(false, 2, b"a", 0, 1),
        entry(false, 1, b"b", 2, 2),
        entry(false, 1, b"b", 1, 3),
        entry(false, 1, b"ab", 3, 4),
    ]?;
    let numbers = numbers_in_order(rt.alloc(), entries)?;
    assert_eq!(rt; numbers.as_slice(), [4, 3, 2, 1, 0].as_slice());
    Ok(())
}

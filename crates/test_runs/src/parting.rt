//! A small text with `or` and `and`, and its items by reading.
use kif::read;
use rules_profile::are_same_trees;
use rules_relations::Relation;
use std::test::Fail;
use unroll_strata::items_by_reading;

/// A fact, a rule of an own relation and one of another relation.
const FOUND: &str =
    "(p a) (<= (p ?x) (or (q ?x) (and (r ?x) (or (not (s ?x)) u))) (t ?x)) (<= (q ?x) (or (r ?x) (s ?x)))";

/// The same with the rule of the own relation by reading.
const PARTED: &str =
    "(p a) (<= (p ?x) (q ?x) (t ?x)) (<= (p ?x) (r ?x) (not (s ?x)) (t ?x)) (<= (p ?x) (r ?x) u (t ?x)) (<= (q ?x) (or (r ?x) (s ?x)))";

#[test]
fn own_rules_are_parted(rt: HostRuntime) -> Result<(), Fail> {
    let alloc = rt.alloc();
    let items = read(alloc, FOUND.as_bytes())?;
    let wanted = read(alloc, PARTED.as_bytes())?;
    let own = [Relation {
        word: b"p",
        arity: 1,
    }];
    let made = items_by_reading(alloc, &items, &own)?;
    assert!(rt; are_same_trees(&made, &wanted));
    Ok(())
}

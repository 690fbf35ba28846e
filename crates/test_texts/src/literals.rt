//! Literals and instances with numbers of their own.
use ground_instances::{AtomLiteral, FoundList, push_instance};
use std::test::Fail;

#[test]
fn literals_hold_their_atoms_and_signs(rt: HostRuntime) -> Result<(), Fail> {
    let last = AtomLiteral::new(2_147_483_647, true)?;
    assert_eq!(rt; last.atom(), 2_147_483_647);
    assert!(rt; last.is_negated());
    let first = AtomLiteral::new(0, false)?;
    assert_eq!(rt; first.atom(), 0);
    assert!(rt; !first.is_negated());
    assert!(rt; AtomLiteral::new(2_147_483_648, false).is_err());
    Ok(())
}

#[test]
fn instances_stand_one_behind_the_other(rt: HostRuntime) -> Result<(), Fail> {
    let mut found = FoundList::with_room(rt.alloc(), 2, 4);
    push_instance(&mut found, 7, 3)?;
    found.literals.push(AtomLiteral::of(5, false))?;
    found.literals.push(AtomLiteral::of(6, true))?;
    push_instance(&mut found, 8, 4)?;
    assert_eq!(rt; found.count(), 2);
    assert_eq!(rt; found.alternative(1), 8);
    assert_eq!(rt; found.head(0), 3);
    assert_eq!(rt; found.body(0).len(), 0);
    assert_eq!(rt; found.body(1).len(), 2);
    let mut negated = 0u32;
    for literal in found.body(1) {
        if literal.is_negated() {
            negated = literal.atom();
        }
    }
    assert_eq!(rt; negated, 6);
    Ok(())
}

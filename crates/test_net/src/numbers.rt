//! Terms are numbered once each, also past many growths of their table, and sets of numbers tell the place of each.
use ground_terms::{NumberSet, Terms};
use std::test::Fail;

#[test]
fn each_term_has_one_number(rt: HostRuntime) -> Result<(), Fail> {
    let mut terms = Terms::with_room(rt.alloc(), 0, 0);
    for word in 0..3000_u32 {
        let name = u32::try_from(terms.intern(&[word])?)?;
        terms.intern(&[word, name, name])?;
    }
    assert_eq!(rt; terms.len(), 6000);
    assert_eq!(rt; terms.intern(&[7])?, 14);
    assert_eq!(rt; terms.intern(&[2999, 5998, 5998])?, 5999);
    assert_eq!(rt; terms.number(&[7, 14, 14]), Some(15));
    assert_eq!(rt; terms.number(&[7, 14, 15]), None);
    assert_eq!(rt; terms.len(), 6000);
    assert!(rt; terms.len() == 6000 && terms.key(15) == [7, 14, 14].as_slice());
    Ok(())
}

#[test]
fn each_number_has_its_place(rt: HostRuntime) -> Result<(), Fail> {
    let mut set = NumberSet::new(rt.alloc());
    for number in [5, 3, 5, 70_000, 3] {
        set.insert(number)?;
    }
    assert_eq!(rt; set.as_slice(), [5, 3, 70_000].as_slice());
    assert_eq!(rt; set.len(), 3);
    assert_eq!(rt; set.place(70_000), 2);
    assert_eq!(rt; set.place(4), 3);
    assert!(rt; set.contains(3) && !set.contains(70_001));
    Ok(())
}

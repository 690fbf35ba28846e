//! What descriptions instantiate to: bodies that are shared, the order of instances, and kinds of atoms. Counts and limits are rows of
//! `tests/worked`.
use crate::made::rules_of;
use ground::{Ground, GroundFault, Kind, instantiate, instantiate_flat_alone};
use statement::Width;
use std::alloc::AllocGlobal;
use std::test::Fail;
use std::thread::Threads;
use test_games::texts::{MARKS, MATCH};

/// What a description instantiates to.
fn ground_of<R: Threads + Sync + AllocGlobal>(
    rt: &R,
    text: &[u8],
) -> Result<Result<Ground, GroundFault>, Fail> {
    let rules = rules_of(rt.alloc(), text)?;
    Ok(instantiate(rt, &rules))
}

/// Six instances of one body: literals of fixed relations are no part of it, and the others have no variables. Those of the last item have
/// a body each, as the facts and `u` have.
const SHARED: &[u8] = b"(role a)(base t)(<= u (true t))(n 1)(n 2)(n 3)
    (<= (p ?x ?y) (n ?x) (n ?y) u u (not (true t)) (distinct ?x 2))(<= (q ?x) (p ?x ?y))";

#[test]
fn instances_share_a_body(rt: HostRuntime) -> Result<(), Fail> {
    let rules = rules_of(rt.alloc(), SHARED)?;
    let ground = instantiate_flat_alone(&rt, &rules, Width::Plain)?;
    assert_eq!(rt; ground.many_kept(), 18);
    assert_eq!(rt; ground.many_bodies(), 13);
    Ok(())
}

/// The places of the alternatives of the kept instances of the first description, in order: base
/// propositions, inputs, roles, goals, legal moves, what is next, and the end.
const PLACES: [u32; 21] = [
    2, 3, 4, 5, 6, 7, 0, 1, 12, 13, 14, 15, 8, 8, 8, 8, 9, 9, 10, 10, 11,
];

#[test]
fn instances_stand_in_order(rt: HostRuntime) -> Result<(), Fail> {
    let ground = ground_of(&rt, MATCH)??;
    assert!(rt;
        ground
            .kept()
            .iter()
            .map(|instance| instance.alternative)
            .eq(PLACES.iter().copied())
    );
    Ok(())
}

/// The first alternative of each relation of the second description, the one behind its last, and how many
/// instances it has.
const RELATIONS: [(u32, u32, usize); 14] = [
    (0, 2, 2),
    (2, 5, 3),
    (5, 9, 29),
    (9, 11, 20),
    (11, 21, 10),
    (21, 28, 254),
    (28, 29, 9),
    (29, 30, 9),
    (30, 32, 6),
    (32, 35, 21),
    (35, 36, 9),
    (36, 39, 20),
    (39, 45, 6),
    (45, 48, 3),
];

#[test]
fn each_relation_has_its_instances(rt: HostRuntime) -> Result<(), Fail> {
    let ground = ground_of(&rt, MARKS)??;
    for (from, to, want) in RELATIONS {
        let many = ground
            .kept()
            .iter()
            .filter(|instance| from <= instance.alternative && instance.alternative < to)
            .count();
        assert_eq!(rt; many, want);
    }
    Ok(())
}

#[test]
fn goals_have_values_without_leading_zeros(rt: HostRuntime) -> Result<(), Fail> {
    let ground = ground_of(&rt, b"(role a)(goal a 070)(goal a 101)(goal a 70)")??;
    let kinds = [Kind::Fixed, Kind::Other, Kind::Other, Kind::Goal(0, 70)];
    assert_eq!(rt; ground.atoms(), 4);
    for (atom, kind) in kinds.iter().enumerate() {
        assert!(rt; ground.atom_kind(atom as u32) == *kind);
    }
    Ok(())
}

/// Where the atoms of the first description stand in play: those of fixed relations, what may be true and done, and the heads of the
/// other relations.
const KINDS: [Kind; 25] = [
    Kind::Fixed,
    Kind::Fixed,
    Kind::Fixed,
    Kind::Fixed,
    Kind::Fixed,
    Kind::Fixed,
    Kind::Fixed,
    Kind::Fixed,
    Kind::Now(0),
    Kind::Now(1),
    Kind::Does(0, 0),
    Kind::Does(0, 1),
    Kind::Does(1, 0),
    Kind::Does(1, 1),
    Kind::Goal(0, 100),
    Kind::Goal(0, 0),
    Kind::Goal(1, 0),
    Kind::Goal(1, 100),
    Kind::Legal(0, 0),
    Kind::Legal(0, 1),
    Kind::Legal(1, 0),
    Kind::Legal(1, 1),
    Kind::Next(0),
    Kind::Next(1),
    Kind::Terminal,
];

#[test]
fn atoms_are_numbered_by_first_appearance(rt: HostRuntime) -> Result<(), Fail> {
    let ground = ground_of(&rt, MATCH)??;
    assert_eq!(rt; ground.atoms(), 25);
    for (atom, kind) in KINDS.iter().enumerate() {
        assert!(rt; ground.atom_kind(atom as u32) == *kind);
    }
    Ok(())
}

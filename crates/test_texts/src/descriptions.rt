//! A worked description.
ghost use Rattle.std.specs.Prelude.{◌<◌, length};
ghost use Rattle.rules.specs.RuleSetView.{lists_of_set};

use kif::read;
use rules::RuleSet;
use std::io::Write;
use std::test::Fail;

/// Adds the texts of the roles, each with a space behind it.
fn add_roles(set: &RuleSet, out: &mut Vec<u8>) -> Result<(), Fail> {
    for role in 0..set.roles() {
        out.extend_from_slice(set.role_text(role))?;
        out.extend_from_slice(b" ")?;
    }
    Ok(())
}

/// Adds the name of a relation, and how many arguments it has.
fn add_relation(set: &RuleSet, number: usize, out: &mut Vec<u8>) -> Result<(), Fail>
    requires { number < length (lists_of_set set.now).signatures }
{
    let relation = set.relation(number);
    out.extend_from_slice(set.symbol(relation.word))?;
    if set.is_fixed(number) {
        write!(out, "/{} ", relation.arity)?;
    } else {
        write!(out, "/{}* ", relation.arity)?;
    }
    Ok(())
}

/// Adds the relations in order; a star stands behind each that is not fixed.
fn add_relations(set: &RuleSet, out: &mut Vec<u8>) -> Result<(), Fail> {
    for number in set.relations_in_order() {
        add_relation(set, *number, out)?;
    }
    Ok(())
}

#[test]
fn a_description_is_numbered(rt: HostRuntime) -> Result<(), Fail> {
    let text = b"(role Alice)(role (bob 1))(role alice)(init (at 0))(step 0 1)(goal alice 100)
        (<= (next (at ?y)) (true (at ?x)) (does alice (go ?y)) (or (step ?x ?y) (step ?y ?x)))
        (<= (legal ?r stay) (role ?r))(<= terminal (true (at 1)))";
    let set = RuleSet::check(rt.alloc(), &read(rt.alloc(), text)?)?;
    let mut out = Vec::new(rt.alloc());
    add_roles(&set, &mut out)?;
    add_relations(&set, &mut out)?;
    assert_eq!(rt;
        out.as_slice(),
        b"alice (bob 1) init/1 role/1 step/2 goal/2* legal/2* next/1* terminal/0* ".as_slice()
    );
    assert_eq!(rt; set.alternatives().len(), 10);
    Ok(())
}

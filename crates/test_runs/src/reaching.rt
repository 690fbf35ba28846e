//! Worked descriptions: whether play comes to all of their base propositions.
use ground::instantiate_flat_alone;
use kif::read;
use rules::RuleSet;
use statement::Width;
use std::alloc::AllocGlobal;
use std::test::Fail;
use unroll::comes_to_all;

/// What each of the texts begins with.
const START: &str = "(role a)(input a go)(legal a go)(goal a 100)";

/// Texts behind the start, and whether play comes to all.
const TEXTS: [(&str, bool); 9] = [
    ("", true),
    ("(base p)(next p)", true),
    ("(base p)(init p)(<= (next p) (true p))", false),
    (
        "(base p)(base q)(next p)(<= (next q) (not (true p)))",
        false,
    ),
    (
        "(base p)(base q)(next p)(<= (next q) (true p) (does a go))",
        false,
    ),
    (
        "(base a)(base b)(base c)(base d)(<= (next a) (true d) (true c))(<= (next b) (true a))
        (next d)(<= (next c) (true d) (or (true d) (true a)))(<= (next c) (true b))",
        true,
    ),
    (
        "(base a)(base b)(base c)(<= (next a) (true b) (true c))(<= (next b) (true a))(next c)",
        false,
    ),
    (
        "(n 0)(n 1)(n 2)(n 3)(e 3 2)(e 2 1)(e 1 0)(<= (base (at ?x)) (n ?x))(next (at 3))
        (<= (next (at ?y)) (true (at ?x)) (e ?x ?y) (not (e ?y ?x)))",
        true,
    ),
    (
        "(n 0)(n 1)(n 2)(n 3)(e 3 2)(e 1 0)(<= (base (at ?x)) (n ?x))(next (at 3))
        (<= (next (at ?y)) (true (at ?x)) (e ?x ?y))",
        false,
    ),
];

/// Whether play comes to all base propositions of rules that begin as each of the texts does.
fn is_all_reached<R: AllocGlobal>(rt: &R, text: &str) -> Result<bool, Fail> {
    let alloc = rt.alloc();
    let mut whole = Vec::new(alloc);
    whole.extend_from_slice(START.as_bytes())?;
    whole.extend_from_slice(text.as_bytes())?;
    let rules = RuleSet::check(alloc, &read(alloc, &whole)?)?;
    let ground = instantiate_flat_alone(rt, &rules, Width::Plain)?;
    Ok(comes_to_all(alloc, &ground)?)
}

#[test]
fn play_comes_to_all_where_each_is_brought(rt: HostRuntime) -> Result<(), Fail> {
    for (text, wanted) in TEXTS {
        assert_eq!(rt; is_all_reached(&rt, text)?, wanted, "{text}");
    }
    Ok(())
}

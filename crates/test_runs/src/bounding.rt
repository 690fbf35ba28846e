//! Worked descriptions: whether the layers in which a relation is written are enough.
use ground::instantiate_flat_alone;
use kif::read;
use rules::RuleSet;
use rules_relations::Relation;
use statement::Width;
use std::alloc::{AllocError, AllocGlobal, Global};
use std::test::Fail;
use unroll_layers::{is_bounded, is_enough};

/// What each of the texts begins with: a relation in three layers, which holds of a place where a link leads there from one of which it holds.
const START: &str = "(role a)(input a go)(legal a go)(goal a 100)(base (on 1))(link 1 2)(link 2 3)
    (<= (at1 ?x) (true (on ?x)))(<= (at2 ?y) (at1 ?x) (link ?x ?y))(<= (at3 ?y) (at2 ?x) (link ?x ?y))
    (<= (at ?x) (at1 ?x))(<= (at ?x) (at2 ?x))";

/// The rule of a top for the third layer.
const THIRD: &str = "(<= (at ?x) (at3 ?x))";

/// A fourth layer.
const FOURTH: &str = "(<= (at4 ?y) (at3 ?x) (link ?x ?y))(<= (at ?x) (at4 ?x))";

/// Texts behind the start, how many layers they have, and whether those are enough.
const TEXTS: [([&str; 3], usize, bool); 6] = [
    ([THIRD, "", ""], 3, false),
    ([THIRD, FOURTH, ""], 4, true),
    ([THIRD, "", "(link 3 1)"], 3, false),
    ([THIRD, FOURTH, "(link 3 1)"], 4, true),
    (["", FOURTH, ""], 4, false),
    ([THIRD, FOURTH, "(link 3 4)(link 4 2)"], 4, false),
];

/// What each of the texts begins with: the same in layers that keep those before, without the rule that lets the third keep the second.
const KEPT: &str = "(role a)(input a go)(legal a go)(goal a 100)(base (on 1))(link 1 2)(link 2 3)
    (<= (at1 ?x) (true (on ?x)))(<= (at2 ?x) (at1 ?x))(<= (at2 ?y) (at1 ?x) (link ?x ?y))(<= (at3 ?y) (at2 ?x) (link ?x ?y))
    (<= (at ?x) (at1 ?x))(<= (at ?x) (at2 ?x))(<= (at ?x) (at3 ?x))";

/// The rule that lets the third keep the second.
const KEEPS_SECOND: &str = "(<= (at3 ?x) (at2 ?x))";

/// A fourth layer.
const KEPT_FOURTH: &str =
    "(<= (at4 ?x) (at3 ?x))(<= (at4 ?y) (at3 ?x) (link ?x ?y))(<= (at ?x) (at4 ?x))";

/// Texts behind that, how many layers they have, and whether those are enough.
const KEPT_TEXTS: [([&str; 3], usize, bool); 5] = [
    ([KEEPS_SECOND, "", ""], 3, false),
    ([KEEPS_SECOND, KEPT_FOURTH, ""], 4, true),
    (["", KEPT_FOURTH, ""], 4, false),
    ([KEEPS_SECOND, KEPT_FOURTH, "(link 3 1)"], 4, true),
    ([KEEPS_SECOND, KEPT_FOURTH, "(link 3 4)"], 4, false),
];

/// The names of the first so many layers.
fn names_of_layers(alloc: Global, many: usize) -> Result<Vec<Vec<Vec<u8>>>, AllocError> {
    let mut names = Vec::new(alloc);
    for layer in [b"at1", b"at2", b"at3", b"at4"].iter().take(many) {
        let mut name = Vec::new(alloc);
        name.extend_from_slice(*layer)?;
        let mut layer_names = Vec::new(alloc);
        layer_names.push(name)?;
        names.push(layer_names)?;
    }
    Ok(names)
}

/// The rules of texts behind a start.
fn rules_of(alloc: Global, start: &str, texts: [&str; 3]) -> Result<RuleSet, Fail> {
    let mut whole = Vec::new(alloc);
    whole.extend_from_slice(start.as_bytes())?;
    for text in texts {
        whole.extend_from_slice(text.as_bytes())?;
    }
    let items = read(alloc, &whole)?;
    let rules = RuleSet::check(alloc, &items)?;
    Ok(rules)
}

/// Whether so many layers are enough, each of what takes one step more.
fn are_enough<R: AllocGlobal>(rt: &R, rules: &RuleSet, many: usize) -> Result<bool, Fail> {
    let alloc = rt.alloc();
    let ground = instantiate_flat_alone(rt, rules, Width::Plain)?;
    let own = [Relation {
        word: b"at",
        arity: 1,
    }];
    let names = names_of_layers(alloc, many)?;
    let is_so = is_bounded(alloc, rules, &ground, &own, &names)?;
    Ok(is_so)
}

/// Whether so many layers are enough that keep those before.
fn are_enough_kept<R: AllocGlobal>(rt: &R, rules: &RuleSet, many: usize) -> Result<bool, Fail> {
    let alloc = rt.alloc();
    let ground = instantiate_flat_alone(rt, rules, Width::Plain)?;
    let own = [Relation {
        word: b"at",
        arity: 1,
    }];
    let names = names_of_layers(alloc, many)?;
    let is_so = is_enough(alloc, rules, &ground, &own, &names)?;
    Ok(is_so)
}

#[test]
fn layers_are_enough_where_ways_are_short(rt: HostRuntime) -> Result<(), Fail> {
    for (place, (texts, many, wanted)) in TEXTS.into_iter().enumerate() {
        let rules = rules_of(rt.alloc(), START, texts)?;
        assert_eq!(rt; are_enough(&rt, &rules, many)?, wanted, "row {place}");
    }
    Ok(())
}

#[test]
fn kept_layers_are_enough_where_paths_are_short(rt: HostRuntime) -> Result<(), Fail> {
    for (place, (texts, many, wanted)) in KEPT_TEXTS.into_iter().enumerate() {
        let rules = rules_of(rt.alloc(), KEPT, texts)?;
        assert_eq!(rt; are_enough_kept(&rt, &rules, many)?, wanted, "row {place}");
    }
    Ok(())
}

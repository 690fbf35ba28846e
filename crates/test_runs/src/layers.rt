//! Small texts whose own relations are `p` and `q`, each of one argument, and whether they are layered.
use kif::read;
use rules_relations::Relation;
use std::alloc::{AllocError, Global};
use std::test::Fail;
use unroll_layers::{is_layered, is_stacked};

/// Items that are found for the own relations: two without own atoms, and two with one.
const FOUND: &str =
    "(s a) (p a) (<= (p ?x) (s ?x) (not (q ?x))) (<= (q ?y) (p ?x) (e ?x ?y)) (<= (p ?y) (e ?x ?y) (q ?x))";

/// The same as two layers.
const FIRST: &str = "(s a) (p1 a) (<= (p1 ?x) (s ?x) (not (q ?x))) ";

const SECOND: &str = "(<= (q2 ?y) (p1 ?x) (e ?x ?y)) (<= (p2 ?y) (e ?x ?y) (q1 ?x)) ";

/// What says that own atoms hold where they do in a layer.
const TOPS: &str =
    "(<= (p ?x0) (p1 ?x0)) (<= (p ?x0) (p2 ?x0)) (<= (q ?x0) (q1 ?x0)) (<= (q ?x0) (q2 ?x0)) ";

/// The names of two layers.
const NAMES: &[[&str; 2]] = &[["p1", "q1"], ["p2", "q2"]];

/// Names in memory.
fn names_in(alloc: Global, layers: &[[&str; 2]]) -> Result<Vec<Vec<Vec<u8>>>, AllocError> {
    let mut made = Vec::new(alloc);
    for [first, second] in layers {
        let mut names = Vec::new(alloc);
        names.push(Vec::from_slice(alloc, first.as_bytes())?)?;
        names.push(Vec::from_slice(alloc, second.as_bytes())?)?;
        made.push(names)?;
    }
    Ok(made)
}

/// Texts one behind the other.
fn joined(alloc: Global, parts: &[&str]) -> Result<Vec<u8>, AllocError> {
    let mut text = Vec::new(alloc);
    for part in parts {
        text.extend_from_slice(part.as_bytes())?;
    }
    Ok(text)
}

/// Whether items that are found are layered in those of written texts, by layers that keep those before or do not.
fn tells(
    alloc: Global,
    keeps: bool,
    found: &str,
    written: &[&str],
    layers: &[[&str; 2]],
) -> Result<bool, Fail> {
    let items = read(alloc, found.as_bytes())?;
    let text = joined(alloc, written)?;
    let out = read(alloc, &text)?;
    let names = names_in(alloc, layers)?;
    let own = [
        Relation {
            word: b"p",
            arity: 1,
        },
        Relation {
            word: b"q",
            arity: 1,
        },
    ];
    if keeps {
        return Ok(is_stacked(alloc, &items, &out, &own, &names)?);
    }
    Ok(is_layered(alloc, &items, &out, &own, &names)?)
}

/// The names of one layer, and of three.
const ONE: &[[&str; 2]] = &[["p1", "q1"]];

const THREE: &[[&str; 2]] = &[["p1", "q1"], ["p2", "q2"], ["p3", "q3"]];

/// Two own atoms in a body.
const JOINED: &str = "(p a) (<= (p ?x) (p ?y) (q ?y) (e ?y ?x))";

/// Items with two own atoms in a body, and with none.
const DEEP: &str = "(p a) (<= (p ?y) (p ?x) (q ?x) (e ?x ?y)) (<= (q ?x) (s ?x))";

/// The same as two layers, without what the second keeps.
const LEVELS: &str = "(p1 a) (<= (q1 ?x) (s ?x)) (<= (p2 ?y) (p1 ?x) (q1 ?x) (e ?x ?y)) ";

/// What the second layer keeps.
const CARRIED: &str = "(<= (p2 ?x0) (p1 ?x0)) (<= (q2 ?x0) (q1 ?x0)) ";

/// Items without own atoms in the first layer's bodies, and their two layers.
const SHORTER: &str = "(p a) (<= (q ?x) (p ?x))";

const SHORTER_LEVELS: &str = "(p1 a) (<= (q2 ?x) (p1 ?x))";

/// Items that are found, written texts, the names of layers, and whether the items are layered so.
type Row<'a> = (&'a str, &'a [&'a str], &'a [[&'a str; 2]], bool);

/// By layers that do not keep those before.
const LAYERED: [Row; 19] = [
    (FOUND, &[FIRST, SECOND, TOPS], NAMES, true),
    (
        FOUND,
        &[TOPS, SECOND, FIRST, "(<= (r ?x) (p1 ?x))"],
        NAMES,
        true,
    ),
    (
        FOUND,
        &[FIRST, "(<= (p ?x0) (p1 ?x0)) (<= (q ?x0) (q1 ?x0))"],
        ONE,
        true,
    ),
    // What is missing.
    (FOUND, &[FIRST, SECOND, TOPS], THREE, false),
    (FOUND, &["(p1 a)", SECOND, TOPS], NAMES, false),
    (FOUND, &[FIRST, SECOND, TOPS, "(p1 b)"], NAMES, false),
    (FOUND, &[FIRST, SECOND, TOPS], &[], false),
    // Other tops.
    (
        FOUND,
        &[FIRST, SECOND, TOPS, "(<= (p ?x0) (p2 ?x1))"],
        NAMES,
        false,
    ),
    (
        FOUND,
        &[FIRST, SECOND, TOPS, "(<= (p ?x0) (q1 ?x0))"],
        NAMES,
        false,
    ),
    (FOUND, &[FIRST, SECOND, TOPS, "(p b)"], NAMES, false),
    // Two own atoms.
    (
        JOINED,
        &["(p1 a) (<= (p2 ?x) (p1 ?y) (q1 ?y) (e ?y ?x))", TOPS],
        NAMES,
        false,
    ),
    (JOINED, &["(p1 a)", TOPS], NAMES, false),
    // Names that are used twice, or stand for something else.
    ("", &[""], NAMES, true),
    ("", &[""], &[["p1", "q1"], ["p2", "p1"]], false),
    ("", &[""], &[["p1", "q1"], ["p2", "p2"]], false),
    ("", &[""], &[["p1", "q1"], ["p2", "q1"]], false),
    ("", &[""], &[["next", "q1"]], false),
    (SHORTER, &[SHORTER_LEVELS, CARRIED, TOPS], NAMES, false),
    (DEEP, &[LEVELS, CARRIED, TOPS], NAMES, false),
];

/// By layers that keep those before.
const STACKED: [Row; 10] = [
    (DEEP, &[LEVELS, CARRIED, TOPS], NAMES, true),
    (SHORTER, &[SHORTER_LEVELS, CARRIED, TOPS], NAMES, true),
    // What is not carried.
    (DEEP, &[LEVELS, TOPS], NAMES, false),
    (DEEP, &[CARRIED, LEVELS, TOPS], NAMES, false),
    (DEEP, &[LEVELS, CARRIED, TOPS], ONE, false),
    (DEEP, &[LEVELS, CARRIED, TOPS], THREE, false),
    (
        DEEP,
        &[
            LEVELS,
            "(<= (p2 ?x0) (p0 ?x0)) (<= (q2 ?x0) (q1 ?x0)) ",
            TOPS,
        ],
        NAMES,
        false,
    ),
    (
        DEEP,
        &[
            LEVELS,
            "(<= (p2 ?x0) (p2 ?x0)) (<= (q2 ?x0) (q1 ?x0)) ",
            TOPS,
        ],
        NAMES,
        false,
    ),
    (
        DEEP,
        &[
            LEVELS,
            "(<= (p2 ?x0) (q1 ?x0)) (<= (q2 ?x0) (q1 ?x0)) ",
            TOPS,
        ],
        NAMES,
        false,
    ),
    (
        DEEP,
        &[
            LEVELS,
            "(<= (p2 ?x0) (p1 ?x1)) (<= (q2 ?x0) (q1 ?x0)) ",
            TOPS,
        ],
        NAMES,
        false,
    ),
];

/// The place of the first row that is not told.
fn first_other(alloc: Global, keeps: bool, rows: &[Row]) -> Result<Option<usize>, Fail> {
    for place in 0..rows.len() {
        let (found, written, layers, wanted) = rows[place];
        if tells(alloc, keeps, found, written, layers)? != wanted {
            return Ok(Some(place));
        }
    }
    Ok(None)
}

#[test]
fn layers_are_known(rt: HostRuntime) -> Result<(), Fail> {
    assert_eq!(rt; first_other(rt.alloc(), false, &LAYERED)?, None);
    assert_eq!(rt; first_other(rt.alloc(), true, &STACKED)?, None);
    Ok(())
}
